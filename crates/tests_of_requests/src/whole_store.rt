//! A storage of another kind: no write is read while it is made, and entries have no numbers.
ghost use Rattle.std.specs.Prelude.{◌≡◌, None, IsOk, option_map, false, true};
ghost use Rattle.pcache_meta.specs.Meta.{Meta};
ghost use Rattle.pcache_store.specs.Finishes.{created};
ghost use Rattle.pcache_store.specs.Readers.{reader_of};
ghost use Rattle.pcache_store.specs.Store.{Reader};

use bytes::Bytes;
use pcache_base::entry_id::CacheEntryId;
use pcache_base::error::Result;
use pcache_base::key::{CacheKey, CompactCacheKey};
use pcache_base::moment::Moment;
use pcache_base::poll::Poll;
use pcache_base::seed::Seed;
use pcache_evict::eviction::CacheEntryKey;
use pcache_meta::meta::CacheMeta;
use pcache_store::memory::{MemCache, MemHitHandler, MemMissHandler};
use pcache_store::storage::{
    HandleHit, HandleMiss, MissFinishType, PurgeOutcome, PurgeTarget, PurgeType, Storage,
    StoreMeaning,
};
use std::alloc::Global;

/// A store in memory that keeps the numbers of its writes to itself, and notes what the last purge was for and how
/// readers end.
#[derive(Drop)]
pub struct WholeStore {
    bodies: MemCache,
    purged: Option<PurgeType>,
    finished: u32,
    let_go: u32,
}

/// A reader of it.
pub struct WholeHit {
    hit: MemHitHandler,
}

/// A handler of a write to it.
pub struct WholeMiss {
    miss: MemMissHandler,
}

impl WholeStore {
    /// A store with nothing in it.
    pub fn new(alloc: Global, seed: Seed) -> WholeStore {
        WholeStore {
            bodies: MemCache::new(alloc, seed),
            purged: None,
            finished: 0,
            let_go: 0,
        }
    }

    /// How many readers were finished, and how many let go.
    pub fn ended(&self) -> (u32, u32) {
        (self.finished, self.let_go)
    }

    /// What the last purge was for.
    pub fn purged(&self) -> Option<PurgeType> {
        self.purged
    }
}

impl StoreMeaning for WholeStore {
    ghost state = { λ s. s.bodies.state };

    // It promises no past.
    ghost past = { λ _. None };

    ghost streams = { λ _. false };

    ghost finishes = { λ s write. created s.bodies.state write };

    ghost guarantees = { record { purges = true; numbers = false } };

    ghost ends_hit = { λ _ reader result. IsOk result };
}

// The result of a look-up, with the reader of this storage.
fn wrapped(found: Option<(CacheMeta, MemHitHandler)>) -> Option<(CacheMeta, WholeHit)>
    ensures { option_map {U = Meta × Reader} (λ p. (p.0, reader_of p.1.hit)) result
        ≡ option_map {U = Meta × Reader} (λ p. (p.0, reader_of p.1)) found }
{
    match found {
        Some((meta, hit)) => Some((meta, WholeHit { hit })),
        None => None,
    }
}

impl Storage for WholeStore {
    type Hit = WholeHit;

    type Miss = WholeMiss;

    fn lookup(&mut self, alloc: Global, key: &CacheKey) -> Result<Option<(CacheMeta, WholeHit)>> {
        match self.bodies.lookup(alloc, key) {
            Ok(found) => Ok(wrapped(found)),
            Err(refused) => Err(refused),
        }
    }

    fn lookup_streaming_write(
        &mut self,
        alloc: Global,
        key: &CacheKey,
        streaming_write_tag: Option<&[u8]>,
    ) -> Result<Option<(CacheMeta, WholeHit)>> {
        match self
            .bodies
            .lookup_streaming_write(alloc, key, streaming_write_tag)
        {
            Ok(found) => Ok(wrapped(found)),
            Err(refused) => Err(refused),
        }
    }

    fn get_miss_handler(
        &mut self,
        alloc: Global,
        key: &CacheKey,
        meta: &CacheMeta,
    ) -> Result<WholeMiss> {
        let miss = self.bodies.get_miss_handler(alloc, key, meta)?;
        Ok(WholeMiss { miss })
    }

    fn purge(&mut self, target: PurgeTarget<'_>, purge_type: PurgeType) -> Result<PurgeOutcome> {
        self.purged = Some(purge_type);
        let key = match target {
            PurgeTarget::Active(key) => key,
            PurgeTarget::Exact(entry) => match entry.entry_id() {
                None => entry.key(),
                Some(_) => return Ok(PurgeOutcome::NotFound),
            },
        };
        match self.bodies.purge(PurgeTarget::Active(key), purge_type) {
            Ok(PurgeOutcome::Purged(_)) => Ok(PurgeOutcome::Purged(None)),
            answer => answer,
        }
    }

    fn expire(
        &mut self,
        alloc: Global,
        target: PurgeTarget<'_>,
        now: Moment,
    ) -> Result<PurgeOutcome> {
        let key = match target {
            PurgeTarget::Active(key) => key,
            PurgeTarget::Exact(entry) => match entry.entry_id() {
                None => entry.key(),
                Some(_) => return Ok(PurgeOutcome::NotFound),
            },
        };
        self.bodies.expire(alloc, PurgeTarget::Active(key), now)
    }

    fn update_meta(&mut self, alloc: Global, key: &CacheKey, meta: &CacheMeta) -> Result<bool> {
        self.bodies.update_meta(alloc, key, meta)
    }

    fn support_streaming_partial_write(&self) -> bool {
        false
    }
}

impl HandleHit<WholeStore> for WholeHit {
    ghost reader = { λ h. reader_of h.hit };

    fn read_body(&mut self, alloc: Global, store: &mut WholeStore) -> Result<Poll<Option<Bytes>>> {
        self.hit.read_body(alloc, &mut store.bodies)
    }

    fn is_whole(&self, store: &WholeStore) -> bool {
        self.hit.is_whole(&store.bodies)
    }

    fn body_length(&self, store: &WholeStore) -> Option<usize> {
        self.hit.body_length(&store.bodies)
    }

    fn finish(self, store: &mut WholeStore) -> Result<()> {
        let WholeHit { hit } = self;
        store.finished = store.finished.saturating_add(1);
        hit.finish(&mut store.bodies)
    }

    fn let_go(self, store: &mut WholeStore) {
        let WholeHit { hit } = self;
        store.let_go = store.let_go.saturating_add(1);
        hit.let_go(&mut store.bodies);
    }

    fn can_seek(&self) -> bool {
        self.hit.can_seek()
    }

    fn seek(&mut self, start: usize, end: Option<usize>) -> Result<()> {
        self.hit.seek(start, end)
    }

    fn should_count_access(&self) -> bool {
        self.hit.should_count_access()
    }

    fn get_eviction_weight(&self) -> usize {
        self.hit.get_eviction_weight()
    }

    fn entry_id(&self) -> Option<CacheEntryId> {
        None
    }
}

impl HandleMiss<WholeStore> for WholeMiss {
    ghost write = { λ h. h.miss.number };

    ghost entry_number = { λ h. None };

    fn write_body(&mut self, store: &mut WholeStore, bytes: Bytes, eof: bool) -> Result<()> {
        self.miss.write_body(&mut store.bodies, bytes, eof)
    }

    fn at_eof(&self, store: &WholeStore) -> bool {
        self.miss.at_eof(&store.bodies)
    }

    fn finish(self, store: &mut WholeStore) -> Result<MissFinishType> {
        let WholeMiss { miss } = self;
        miss.finish(&mut store.bodies)
    }

    fn drop_write(self, store: &mut WholeStore) {
        let WholeMiss { miss } = self;
        miss.drop_write(&mut store.bodies);
    }

    fn streaming_write_tag(&self) -> Option<&[u8]> {
        self.miss.streaming_write_tag()
    }

    fn entry_id(&self) -> Option<CacheEntryId> {
        None
    }
}

// Stores nothing more than an empty body, and returns whether the write says a number of its entry.
fn is_numbered<S: Storage>(alloc: Global, store: &mut S, key: &CacheKey) -> Result<bool> {
    let meta = crate::made::meta_until(alloc, 300);
    let writer = store.get_miss_handler(alloc, key, &meta)?;
    let is_numbered = writer.entry_id().is_some();
    writer.finish(store)?;
    Ok(is_numbered)
}

fn reads_a_number<S: Storage>(alloc: Global, store: &mut S, key: &CacheKey) -> Result<bool> {
    match store.lookup(alloc, key)? {
        Some((_meta, reader)) => {
            let is_numbered = reader.entry_id().is_some();
            reader.let_go(store);
            Ok(is_numbered)
        }
        None => Ok(true),
    }
}

fn removed<S: Storage>(store: &mut S, entry: &CacheEntryKey) -> Result<PurgeOutcome> {
    store.purge(PurgeTarget::Exact(entry), PurgeType::Eviction)
}

fn entry_of(key: CompactCacheKey, id: Option<CacheEntryId>) -> CacheEntryKey {
    CacheEntryKey::from_entry_id(key, id)
}

fn has_one_entry_a_key(alloc: Global) -> Result<bool> {
    let key = crate::made::key_of(alloc, "aa")?;
    let numbered = entry_of(key.to_compact()?, Some(CacheEntryId::new(0)));
    let whole = entry_of(key.to_compact()?, None);
    let mut store = WholeStore::new(alloc, Seed::fixed());
    let none = !is_numbered(alloc, &mut store, &key)? && !reads_a_number(alloc, &mut store, &key)?;
    let kept = matches!(removed(&mut store, &numbered)?, PurgeOutcome::NotFound);
    let gone = matches!(removed(&mut store, &whole)?, PurgeOutcome::Purged(None));
    Ok(none && kept && gone && !store.support_streaming_partial_write())
}

#[test]
fn a_storage_without_numbers_has_one_entry_a_key(rt: HostRuntime) {
    assert!(rt; matches!(has_one_entry_a_key(rt.alloc()), Ok(true)));
}
