//! The data of a store in memory, and its calls; it keeps no past.
ghost use Rattle.std.specs.Prelude.{◌≡◌, ◌<◌, ◌^◌, ℕ, Option, Some, None, IsOk, IsSome, IfOk, IfErr, OnOk, OnErr, option_map, option_copied, is_some, false, true};
ghost use Rattle.std.specs.FinMap as map;
ghost use Rattle.pcache_base.specs.declared.error.ErrorType.TheVariants.{Superseded, WriteRemoved};
ghost use Rattle.pcache_base.specs.Key.{slot};
ghost use Rattle.pcache_table.specs.Sharding.{part_of};
ghost use Rattle.pcache_store.specs.declared.storage.PurgeOutcome.TheVariants.{Expired};
ghost use Rattle.pcache_store.specs.Finishes.{body_number, created};
ghost use Rattle.pcache_store.specs.Kept.{lengths, write_lengths};
ghost use Rattle.pcache_store.specs.Purge.{expire_outcome, expired_at, slot_expired, target_outcome, target_purged};
ghost use Rattle.pcache_store.specs.Refusals.{MayFailFinish, MayFailWrite};
ghost use Rattle.pcache_store.specs.Readers.{if_complete, number_found, reader_of, slot_named};
ghost use Rattle.pcache_store.specs.Shards.{of_shard};
ghost use Rattle.pcache_store.specs.Store.{begun, complete_body, dropped, find, find_write, finished, followed, found_part, is_superseded, is_untouched, is_write_under, joined, left_on, meta_set, wrote};
ghost use Rattle.pcache_store.specs.Tag.{named_by};
ghost use Rattle.pcache_store.specs.Totals.{stored_bytes, slots};

use crate::memory::draft::Draft;
use crate::memory::drafts::Drafts;
use crate::memory::found::FoundBody;
use crate::memory::hit::{MemHitHandler, PartialHit};
use crate::memory::miss::MemMissHandler;
use crate::memory::slots::Slots;
use crate::storage::streaming_write::U64WriteId;
use crate::storage::{MissFinishType, PurgeOutcome, PurgeTarget};
use bytes::Bytes;
use pcache_base::error::{Error, ErrorType, Result};
use pcache_base::key::{CacheHashKey, CacheKey};
use pcache_base::moment::Moment;
use pcache_base::seed::Seed;
use pcache_evict::eviction::{CacheEntryId, CacheEntryKey};
use pcache_meta::meta::CacheMeta;
use pcache_meta::meta::spelled::SpelledMeta;
use std::alloc::{AllocError, Global};
use std::marker::Model;

// No `Storage` itself: its readers and handlers are those of `MemCache`, and of a type that handles
// two storages each call would be ambiguous.
/// The data of a store in memory: the slots by key, and the records of writes. A contract sees them as
/// the record `Store`.
#[derive(Drop)]
pub(super) struct BareStore {
    alloc: Global,
    slots: Slots,
    drafts: Drafts,
    newest: bool,
}

impl Model for BareStore {
    ghost use Rattle.pcache_store.specs.Store.{Store};
    ghost use Rattle.pcache_store.specs.StoreCode.{store_code};

    ghost Value = { Store };

    ghost coded = { store_code };

    ghost view = { λ a. record { slots = a.slots; writes = a.drafts.writes; next = a.drafts.next; newest = a.newest } };
}

impl BareStore {
    /// An empty store, which prefers the newest response or not. Its tables hash under the seed, on which no result depends.
    pub fn new(alloc: Global, seed: Seed, newest: bool) -> BareStore
        ensures { result
            ≡ record { slots = map.empty; writes = map.empty; next = 0; newest = newest } }
    {
        BareStore {
            alloc,
            slots: Slots::new(alloc, seed),
            drafts: Drafts::new(alloc, seed),
            newest,
        }
    }

    /// An empty store whose next write has this number, so that the last numbers can be tried.
    pub fn starting_at(alloc: Global, seed: Seed, next: u64) -> BareStore
        ensures { result
            ≡ record { slots = map.empty; writes = map.empty; next = next; newest = false } }
    {
        BareStore {
            alloc,
            slots: Slots::new(alloc, seed),
            drafts: Drafts::starting_at(alloc, seed, next),
            newest: false,
        }
    }

    /// The sum of the lengths of the complete bodies, in bytes.
    pub fn stored_bytes(&self) -> u128
        ensures { result ≡ stored_bytes self.now }
    {
        self.slots.stored_bytes()
    }

    /// The number of complete bodies.
    pub fn slots(&self) -> usize
        ensures { result ≡ slots self.now }
    {
        self.slots.bodies()
    }

    /// The number of keys of a shard that have a complete body, or a write in flight that met no
    /// removal. There are 16 shards, and the shard of a key is its combined hash as a number (high
    /// byte first), modulo 16.
    pub fn shard_slots(&self, shard: usize) -> usize
        requires { shard < 16 }
        ensures { result ≡ map.len (part_of 16 shard self.now.slots) }
    {
        self.slots.shard_len(shard)
    }

    /// The number of records of writes: those that a handler or a reader names.
    pub fn write_records(&self) -> usize
        ensures { result ≡ map.len self.now.writes }
    {
        self.drafts.len()
    }

    /// The number of records of the writes of a shard's keys. A record is kept in the shard of its
    /// key.
    pub fn shard_write_records(&self, shard: usize) -> usize
        requires { shard < 16 }
        ensures { result ≡ map.len (of_shard shard self.now.writes) }
    {
        self.drafts.shard_len(shard)
    }

    /// Whether the write with this number has a record, is of this key, and has a meta that names
    /// it.
    pub fn has_write(&self, key: &CacheKey, number: u64) -> bool
        ensures { result ≡ is_write_under (slot key.now) number (map.get self.now.writes number) }
    {
        let slot = key.slot();
        match self.drafts.get(slot, number) {
            Some(draft) => {
                draft.slot() == slot && draft.entry_id() == Some(CacheEntryId::new(number))
            }
            None => false,
        }
    }

    /// The number of the write that stored the key's complete body, if there is one: the number of the body's entry.
    pub fn body_number(&self, key: &CacheKey) -> Option<CacheEntryId>
        ensures { result ≡ body_number self.now (slot key.now) }
    {
        self.slots.get(key.slot())?.entry_id()
    }

    /// The number of the write that a look-up of the key finds: one in flight, or the one that stored the complete body.
    pub fn found_number(&self, key: &CacheKey) -> Option<CacheEntryId>
        ensures { result ≡ number_found (find self.now (slot key.now)) }
    {
        let slot = key.slot();
        let there = self.slots.get(slot)?;
        let Some(number) = there.first(self.newest) else {
            return there.entry_id();
        };
        let _draft = self.drafts.get(slot, number)?;
        Some(CacheEntryId::new(number))
    }

    /// The number that the next write gets; 2^64 if all are used.
    pub fn next_number(&self) -> u128
        ensures { result ≡ self.now.next }
    {
        self.drafts.next_number()
    }

    /// The lengths of the key's complete body and of the text of its head, in bytes, if there is one.
    pub fn body_lengths(&self, key: &CacheKey) -> Option<(usize, usize)>
        ensures { result
            ≡ option_map lengths (complete_body (map.get self.now.slots (slot key.now))) }
    {
        let body = self.slots.body(key.slot())?;
        Some((body.len(), body.head_len()))
    }

    /// The lengths of a write's body so far and of the text of its head, in bytes; zero if it has no record.
    pub fn write_lengths(&self, slot: u128, number: u64) -> (usize, usize)
        ensures { result ≡ write_lengths (map.get self.now.writes number) }
    {
        match self.drafts.get(slot, number) {
            Some(draft) => (draft.len(), draft.head_len()),
            None => (0, 0),
        }
    }

    /// The meta of what a look-up of the key finds, as it is kept: a copy of its bytes, which are not read. Fails only when
    /// memory runs out, and then something is there.
    pub fn spelled_meta(&self, key: &CacheKey) -> Result<Option<SpelledMeta>, AllocError>
        ensures found { IfOk result (λ m.
            m ≡ option_map (λ p. p.0) (find self.now (slot key.now))) }
        ensures something { OnErr result (IsSome (find self.now (slot key.now))) }
    {
        let slot = key.slot();
        let Some(there) = self.slots.get(slot) else {
            return Ok(None);
        };
        if let Some(number) = there.first(self.newest) {
            return self.spelled_of(slot, number);
        }
        let Some(body) = there.body() else {
            return Ok(None);
        };
        Ok(Some(body.spelled()?))
    }

    /// What a look-up of the key finds, if that is its complete body.
    pub fn complete_body(&self, key: &CacheKey) -> Result<Option<FoundBody>, AllocError>
        ensures found { IfOk result (λ f. f ≡ if_complete (find self.now (slot key.now))) }
        ensures something { OnErr result (IsSome (if_complete (find self.now (slot key.now)))) }
    {
        let Some(there) = self.slots.get(key.slot()) else {
            return Ok(None);
        };
        if there.first(self.newest).is_some() {
            return Ok(None);
        }
        let Some(body) = there.body() else {
            return Ok(None);
        };
        Ok(Some(body.found()?))
    }

    // The meta of a write, as it is kept.
    fn spelled_of(&self, slot: u128, number: u64) -> Result<Option<SpelledMeta>, AllocError>
        ensures found { IfOk result (λ m.
            m ≡ option_map (λ p. p.0) (found_part number (map.get self.now.writes number))) }
        ensures something { OnErr result (IsSome (map.get self.now.writes number)) }
    {
        let Some(draft) = self.drafts.get(slot, number) else {
            return Ok(None);
        };
        Ok(Some(draft.spelled()?))
    }

    // The record of a write, which is in the shard of its key's slot.
    pub(super) fn draft(&self, slot: u128, number: u64) -> Option<&Draft>
        ensures { option_copied result ≡ map.get self.now.writes number }
    {
        self.drafts.get(slot, number)
    }

    // Gives one more reader of a write, from its beginning, with its meta. It names the slot of the write's record.
    fn follow(
        &mut self,
        alloc: Global,
        slot: u128,
        number: u64,
    ) -> Result<Option<(CacheMeta, MemHitHandler)>, AllocError>
        ensures found { IfOk result (λ r. option_map (λ p. (p.0, reader_of p.1)) r
            ≡ found_part number (map.get self.old.writes number)) }
        ensures slot { IfOk result (λ r. option_map (λ p. slot_named p.1) r
            ≡ option_map (λ w. Some w.slot) (map.get self.old.writes number)) }
        ensures ok { OnOk result (self.new ≡ joined self.old number) }
        ensures something { OnErr result (IsSome (map.get self.old.writes number)) }
        ensures err { OnErr result (self.new ≡ self.old) }
    {
        match self.drafts.follow(alloc, slot, number) {
            Ok(Some((meta, slot))) => {
                let part = PartialHit::new(slot, number);
                Ok(Some((meta, MemHitHandler::Partial(part))))
            }
            Ok(None) => Ok(None),
            Err(refused) => Err(refused),
        }
    }

    pub(super) fn leave(&mut self, slot: u128, number: u64)
        ensures { self.new
            ≡ record self.old {
              writes = left_on self.old.writes number
                  (map.get self.old.writes number);
            } }
    {
        self.drafts.leave(slot, number);
    }

    pub(super) fn write(
        &mut self,
        slot: u128,
        number: u64,
        bytes: Bytes,
        eof: bool,
    ) -> Result<(), AllocError>
        ensures ok { OnOk result (self.new ≡ wrote self.old number bytes eof) }
        ensures err { OnErr result (self.new ≡ self.old) }
    {
        let alloc = self.alloc;
        self.drafts.write(alloc, slot, number, bytes, eof)
    }

    pub(super) fn drop_write(&mut self, slot: u128, number: u64)
        ensures { self.new ≡ dropped self.old number }
    {
        let Some(draft) = self.drafts.get(slot, number) else {
            return;
        };
        let slot = draft.slot();
        self.slots.shut(slot, number);
        self.drafts.land(slot, number);
    }

    pub(super) fn finish(&mut self, slot: u128, number: u64) -> Result<MissFinishType>
        ensures answer { IfOk result (λ f. f ≡ created self.old number) }
        ensures ok { OnOk result (self.new ≡ finished self.old number) }
        ensures untouched { OnOk result (is_untouched self.old number ≡ true) }
        ensures newest { OnOk result (is_superseded self.old number ≡ false) }
        ensures kind { IfErr result (λ e. MayFailFinish self.old number e) }
        ensures err { OnErr result (self.new ≡ dropped self.old number) }
    {
        let Some(draft) = self.drafts.get(slot, number) else {
            return Err(Error::new(ErrorType::WriteRemoved));
        };
        let slot = draft.slot();
        if !self.slots.is_untouched(slot, number) {
            // So its readers are cut off, and are not told that the body is whole.
            self.drop_write(slot, number);
            return Err(Error::new(ErrorType::WriteRemoved));
        }
        if self.newest && self.slots.has_later_body(slot, number) {
            self.drop_write(slot, number);
            return Err(Error::new(ErrorType::Superseded));
        }
        let alloc = self.alloc;
        match self.drafts.end(alloc, slot, number) {
            Ok(body) => {
                let size = body.len();
                self.slots.store(slot, number, body);
                Ok(MissFinishType::Created(size))
            }
            Err(refused) => {
                self.slots.shut(slot, number);
                Err(Error::from(refused))
            }
        }
    }
}

impl BareStore {
    ghost use Rattle.pcache_store.specs.Purge.{entry_outcome, entry_purged};

    // Removes what an entry names: everything of its key, or the write with its number.
    fn purge_entry(&mut self, entry: &CacheEntryKey) -> PurgeOutcome
        ensures answer { result ≡ entry_outcome true self.old entry.now }
        ensures purged { self.new ≡ entry_purged true self.old entry.now }
    {
        let slot = entry.key().slot();
        let Some(id) = entry.entry_id() else {
            return match self.slots.remove(slot) {
                Some(_) => PurgeOutcome::Purged(None),
                None => PurgeOutcome::NotFound,
            };
        };
        // Of one write, in flight or complete: an eviction must leave a newer body of the key where
        // it is.
        if self.slots.remove_write(slot, id) {
            PurgeOutcome::Purged(Some(id))
        } else {
            PurgeOutcome::NotFound
        }
    }

    /// The slot whose complete body an expiry is for, if the target names that body.
    pub fn slot_to_expire(&self, target: PurgeTarget<'_>) -> Option<u128>
        ensures { result ≡ slot_expired true self.now target.entry }
    {
        let entry = match target {
            PurgeTarget::Active(key) => return Some(key.slot()),
            PurgeTarget::Exact(entry) => entry,
        };
        let slot = entry.key().slot();
        let Some(id) = entry.entry_id() else {
            return Some(slot);
        };
        // A body that another write stored stays fresh.
        if self.slots.has_body_of(slot, id) {
            Some(slot)
        } else {
            None
        }
    }
}

// The number of the write that a tag names: its eight bytes, the high byte first. A tag of another length names no write.
fn number_named_by(tag: Option<&[u8]>) -> Option<u64>
    ensures { result ≡ named_by (option_copied tag.entry) }
{
    let Some(tag) = tag else {
        return None;
    };
    match U64WriteId::try_from(tag) {
        Ok(id) => Some(u64::from(id)),
        Err(_) => None,
    }
}

impl BareStore {
    /// A reader of what is stored for a key, and its meta.
    pub fn lookup(
        &mut self,
        alloc: Global,
        key: &CacheKey,
    ) -> Result<Option<(CacheMeta, MemHitHandler)>, AllocError>
        ensures found { IfOk result (λ r. option_map (λ p. (p.0, reader_of p.1)) r
            ≡ find self.old (slot key.now)) }
        ensures ok { OnOk result (self.new ≡ followed self.old (find self.old (slot key.now))) }
        ensures something { OnErr result (IsSome (find self.old (slot key.now))) }
        ensures err { OnErr result (self.new ≡ self.old) }
    {
        let slot = key.slot();
        let Some(held) = self.slots.get(slot) else {
            return Ok(None);
        };
        if let Some(number) = held.first(self.newest) {
            return self.follow(alloc, slot, number);
        }
        let Some(body) = held.body() else {
            return Ok(None);
        };
        let (meta, hit) = body.found()?.read(alloc)?;
        Ok(Some((meta, hit)))
    }

    /// A reader of the write that a tag names, if it is in flight and of the key, and its meta.
    pub fn lookup_streaming_write(
        &mut self,
        alloc: Global,
        key: &CacheKey,
        streaming_write_tag: Option<&[u8]>,
    ) -> Result<Option<(CacheMeta, MemHitHandler)>, AllocError>
        ensures found { IfOk result (λ r. option_map (λ p. (p.0, reader_of p.1)) r
            ≡ find_write self.old (slot key.now)
            (named_by (option_copied streaming_write_tag.entry))) }
        ensures ok { OnOk result (self.new
            ≡ followed self.old (find_write self.old (slot key.now)
            (named_by (option_copied streaming_write_tag.entry)))) }
        ensures something { OnErr result (IsSome (find_write self.old (slot key.now)
            (named_by (option_copied streaming_write_tag.entry)))) }
        ensures err { OnErr result (self.new ≡ self.old) }
    {
        let Some(number) = number_named_by(streaming_write_tag) else {
            return Ok(None);
        };
        let slot = key.slot();
        let Some(draft) = self.drafts.get(slot, number) else {
            return Ok(None);
        };
        // A write whose key was removed is joined too: the tag names this write, and not what the key has.
        if !draft.is_flying() || draft.slot() != slot {
            return Ok(None);
        }
        self.follow(alloc, slot, number)
    }

    /// Begins a write of a key.
    pub fn get_miss_handler(
        &mut self,
        alloc: Global,
        key: &CacheKey,
        meta: &CacheMeta,
    ) -> Result<MemMissHandler>
        ensures write { IfOk result (λ m. m.number ≡ self.old.next) }
        ensures ok { OnOk result (self.new ≡ begun self.old (slot key.now) meta.now) }
        ensures numbers { OnOk result (self.old.next < 2 ^ 64) }
        ensures kind { IfErr result (λ e. MayFailWrite self.old e) }
        ensures err { OnErr result (self.new ≡ self.old) }
    {
        let Some(number) = self.drafts.next() else {
            return Err(Error::new(ErrorType::NumbersExhausted));
        };
        let slot = key.slot();
        // With the number of this write, whatever number the meta has that was handed in.
        let meta = SpelledMeta::with_entry_id(alloc, meta, Some(CacheEntryId::new(number)))?;
        let draft = Draft::new(alloc, slot, meta);
        self.drafts.begin(draft)?;
        if let Err(refused) = self.slots.open(alloc, slot, number) {
            self.drafts.take_back(slot, number);
            return Err(Error::from(refused));
        }
        Ok(MemMissHandler::new(slot, number))
    }

    /// Removes what a target names. Takes no memory.
    pub fn purge(&mut self, target: PurgeTarget<'_>) -> PurgeOutcome
        ensures answer { result ≡ target_outcome true self.old target.entry }
        ensures purged { self.new ≡ target_purged true self.old target.entry }
    {
        match target {
            PurgeTarget::Active(key) => match self.slots.remove(key.slot()) {
                Some(id) => PurgeOutcome::Purged(id),
                None => PurgeOutcome::NotFound,
            },
            PurgeTarget::Exact(entry) => self.purge_entry(entry),
        }
    }

    /// Ends the freshness of a slot's complete body, and does nothing for no slot.
    pub fn expire(
        &mut self,
        alloc: Global,
        slot: Option<u128>,
        now: Moment,
    ) -> Result<PurgeOutcome, AllocError>
        ensures answer { IfOk result (λ o. o ≡ expire_outcome self.old slot) }
        ensures ok { OnOk result (self.new ≡ expired_at now self.old slot) }
        ensures something { OnErr result (expire_outcome self.old slot ≡ Expired) }
        ensures err { OnErr result (self.new ≡ self.old) }
    {
        let Some(slot) = slot else {
            return Ok(PurgeOutcome::NotFound);
        };
        if self.slots.expire(alloc, slot, now)? {
            Ok(PurgeOutcome::Expired)
        } else {
            Ok(PurgeOutcome::NotFound)
        }
    }

    /// Sets the meta of a key's complete body, and returns whether there is one.
    pub fn update_meta(
        &mut self,
        alloc: Global,
        key: &CacheKey,
        meta: &CacheMeta,
    ) -> Result<bool, AllocError>
        ensures there { IfOk result (λ b.
            b ≡ is_some (complete_body (map.get self.old.slots (slot key.now)))) }
        ensures ok { OnOk result (self.new ≡ meta_set meta.now self.old (slot key.now)) }
        ensures something { OnErr result (is_some
            (complete_body (map.get self.old.slots (slot key.now)))
            ≡ true) }
        ensures err { OnErr result (self.new ≡ self.old) }
    {
        let slot = key.slot();
        let Some(body) = self.slots.body(slot) else {
            return Ok(false);
        };
        // The body stays that of the write which stored it, and so does the number in its meta.
        let meta = SpelledMeta::with_entry_id(alloc, meta, body.entry_id())?;
        Ok(self.slots.set_meta(slot, meta))
    }
}
