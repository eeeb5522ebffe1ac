//! Writes: their begin, their pieces and their end.
ghost use Rattle.std.specs.Prelude.{◌≡◌, ◌∷◌};
ghost use Rattle.pcache_base.specs.CompactKey.{compact_slot};
ghost use Rattle.pcache_store.specs.Past.{WritePurged};
ghost use Rattle.pcache_store.specs.Store.{write_purged};
ghost use Rattle.pcache_cache.specs.Parts.{is_own_write, replaced_in};

use crate::cache::Cache;
use crate::request::CacheRequest;
use crate::weighing::ending_weight;
use bytes::Bytes;
use pcache_base::error::Result;
use pcache_base::key::CompactCacheKey;
use pcache_evict::eviction::{CacheEntryId, CacheEntryKey, EvictionManager};
use pcache_request::cache::ending::Entering;
use pcache_request::cache::{FinishReport, HttpCache};
use pcache_store::memory::MemCache;
use pcache_store::storage::{HandleMiss, PurgeTarget, PurgeType, Storage};

impl<M: EvictionManager, K> Cache<M, K> {
    ghost use Rattle.std.specs.Prelude.{◌≡◌, IfErr, IfOk, OnErr, Some, option_map, true};
    ghost use Rattle.pcache_base.specs.CompactKey.{compact_of};
    ghost use Rattle.pcache_base.specs.declared.error.ErrorType.TheVariants.{OutOfMemory};
    ghost use Rattle.pcache_cache.specs.Fetching.{is_outdated};
    ghost use Rattle.pcache_request.specs.Phases.{IsFilling};
    ghost use Rattle.pcache_request.specs.Requests.{MayWrite};
    ghost use Rattle.pcache_request.specs.Sizes.{exceeds_head};
    ghost use Rattle.pcache_cache.specs.Parts.{MayEnd};
    ghost use Rattle.pcache_cache.specs.Weighing.{written_head};
    ghost use Rattle.pcache_cache.specs.Filling.{Begins, BeginsWrite, EndsWrite, Writes, key_if, write_removed};

    /// `HttpCache::set_miss_handler`: begins the write. If the key, or its URL, was purged since the request's fetch began, the write is
    /// removed at once: the request writes and reads on as any other, nobody else finds the response, and its end says `WriteRemoved`.
    /// Requires a phase in which a write may be made, a meta, and no write; ask `may_write` of the request.
    pub fn set_miss_handler(&mut self, request: &mut CacheRequest<K>) -> Result<()>
        requires { MayWrite request.old.cache }
        ensures takes { BeginsWrite request.old.fetch result request.old.cache request.new.cache
            self.old self.new }
        ensures fetch { request.new.fetch ≡ request.old.fetch }
    {
        // Made first, so that a lack of memory for it changes nothing.
        let outdated = self.outdated_key(request)?;
        let begun = self.begin_write(request);
        if let Some(key) = outdated {
            self.remove_write(request, key);
        }
        begun
    }

    // The request's key, if it, or its URL, was purged since the request's fetch began.
    fn outdated_key(&self, request: &CacheRequest<K>) -> Result<Option<CompactCacheKey>>
        ensures key { IfOk result (λ k. k
            ≡ key_if (is_outdated request.now.fetch request.now.cache.key self.now.purges)
            request.now.cache.key) }
        ensures outdated { OnErr result (is_outdated request.now.fetch request.now.cache.key
            self.now.purges
            ≡ true) }
        ensures kind { IfErr result (λ e. e ≡ OutOfMemory) }
    {
        let key = request.cache.key();
        if !self.purges.is_outdated(&request.fetch, key) {
            return Ok(None);
        }
        match key {
            Some(key) => Ok(Some(key.to_compact()?)),
            None => Ok(None),
        }
    }

    // Removes the request's write, if it has one. Its key is given.
    fn remove_write(&mut self, request: &CacheRequest<K>, key: CompactCacheKey)
        requires { option_map compact_of request.now.cache.key ≡ Some key }
        ensures { self.new
            ≡ write_removed request.now.cache.key request.now.cache.write self.old }
    {
        let Some(writer) = request.cache.writer() else {
            return;
        };
        remove_one(&mut self.store, key, writer.number());
    }

    // Begins the write, whenever its response was fetched.
    fn begin_write(&mut self, request: &mut CacheRequest<K>) -> Result<()>
        requires { MayWrite request.old.cache }
        ensures takes { Begins result request.old.cache request.new.cache self.old self.new }
        ensures fetch { request.new.fetch ≡ request.old.fetch }
    {
        // For the prover: the contract of the call says that a request which fills has a key.
        let _key = request.cache.key();
        request
            .cache
            .set_miss_handler(&mut self.store, &mut self.lock)
    }

    /// The length of the text of the head that the request's write stores, in bytes; `None` without a write.
    pub fn head_length(&self, request: &CacheRequest<K>) -> Option<usize>
        ensures { result ≡ written_head self.now.store request.now.cache.write }
    {
        let writer = request.cache.writer()?;
        let (_body, head) = writer.lengths(&self.store);
        Some(head)
    }

    /// Whether the head that the request's write stores is longer than the request's limit (`set_max_head_size_bytes`). Without a
    /// limit, and without a write, it is not. It is for heads what `HttpCache::exceeded_max_file_size` is for bodies: who limits
    /// them asks once the write has begun, and turns caching off for `ResponseTooLarge`.
    pub fn exceeded_max_head_size(&self, request: &CacheRequest<K>) -> bool
        ensures { result ≡ exceeds_head request.now.cache.head_limit
            (written_head self.now.store request.now.cache.write) }
    {
        let Some(length) = self.head_length(request) else {
            return false;
        };
        !request.cache.is_head_within(length)
    }

    /// Adds bytes to the request's write, and with `eof` announces that they are the last. Without a write, or after the last
    /// bytes, it returns `false` and changes nothing. Fails when memory runs out, and then changes nothing. Requires a phase in
    /// which a write may be made.
    pub fn write_body(
        &mut self,
        request: &mut CacheRequest<K>,
        bytes: Bytes,
        eof: bool,
    ) -> Result<bool>
        requires { IsFilling request.old.cache.phase }
        ensures takes { Writes result bytes eof request.old.cache request.new.cache self.old
            self.new }
        ensures fetch { request.new.fetch ≡ request.old.fetch }
    {
        let Some(writer) = request.cache.miss_handler() else {
            return Ok(false);
        };
        if writer.at_eof(&self.store) {
            return Ok(false);
        }
        writer.write_body(&mut self.store, bytes, eof)?;
        Ok(true)
    }

    /// `HttpCache::finish_replacing`: ends the write and stores the body, whose entry is admitted; what is evicted for it is purged.
    /// The entry of the body that stood under the key until then is taken out first, so that it neither counts nor evicts anything.
    /// The new one is admitted with what the cache says that it weighs. Where nothing is tracked beside what is stored, and the new
    /// body has room beside those of the other keys, nothing is evicted (`EndsWrite.room`). If the write's key was removed since it
    /// began, or a newer body of the key stands, the write is dropped (`WriteRemoved`, `Superseded`).
    /// Requires a phase in which a write may be made, and a write of this cache; ask `may_end`.
    pub fn finish_miss_handler(
        &mut self,
        request: &mut CacheRequest<K>,
    ) -> Result<Option<FinishReport>>
        requires phase { IsFilling request.old.cache.phase }
        requires own { MayEnd self.old.store request.old.cache }
        ensures takes { EndsWrite result request.old.cache request.new.cache self.old self.new }
        ensures fetch { request.new.fetch ≡ request.old.fetch }
    {
        // For the prover: the contract of the call says that the entry of the write has the write's
        // number.
        let writer = request.cache.writer();
        let entering = Entering {
            // A body that is gone must not stay tracked: its entry would fill the limit, and fresh
            // bodies would be evicted for it.
            replaced: replaced_by(&self.store, &request.cache),
            // Asked of the store here: the end of a write only learns how long the body is.
            weight: Some(ending_weight(self.weighing, &self.store, writer)),
        };
        request.cache.finish_replacing(&mut self.store, &mut self.manager, &mut self.lock, entering)
    }
}

// Removes one write of a key.
fn remove_one(store: &mut MemCache, key: CompactCacheKey, number: u64)
    ensures state { store.new.state ≡ write_purged store.old.state (compact_slot key) number }
    ensures past { store.new.past ≡ WritePurged (compact_slot key) number ∷ store.old.past }
{
    let entry = CacheEntryKey::from_entry_id(key, Some(CacheEntryId::new(number)));
    // A removal in memory does not fail.
    let _ = store.purge(PurgeTarget::Exact(&entry), PurgeType::Invalidation);
}

// Whether a request's write, if it has one, is a write of the store and of the request's key.
pub(crate) fn is_own_write(store: &MemCache, request: &HttpCache<MemCache>) -> bool
    ensures { result ≡ is_own_write store.now.state request.now.key request.now.write }
{
    let Some(writer) = request.writer() else {
        return true;
    };
    match request.key() {
        Some(key) => store.has_write(key, writer.number()),
        None => false,
    }
}

// The number of the body that the end of a request's write replaces.
fn replaced_by(store: &MemCache, request: &HttpCache<MemCache>) -> Option<CacheEntryId>
    ensures { result ≡ replaced_in store.now.state request.now.key }
{
    match request.key() {
        Some(key) => store.body_number(key),
        None => None,
    }
}
