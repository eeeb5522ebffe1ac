//! A store in memory, which knows its own past.
ghost use Rattle.std.specs.Prelude.{◌≡◌, ◌<◌, ℕ, [], IfErr, IfOk, IsOk, IsSome, None, OnErr, OnOk, Option, Some, option_copied, option_map, false, true};
ghost use Rattle.std.specs.FinMap as map;
ghost use Rattle.pcache_base.specs.Key.{slot};
ghost use Rattle.pcache_table.specs.Sharding.{part_of};
ghost use Rattle.pcache_store.specs.Finishes.{body_number, created};
ghost use Rattle.pcache_store.specs.Kept.{lengths, write_lengths};
ghost use Rattle.pcache_store.specs.Notes.{added, leave_noted, look_noted, target_id};
ghost use Rattle.pcache_store.specs.Past.{Dropped, Finished, Joined, Wrote};
ghost use Rattle.pcache_store.specs.Readers.{if_complete, in_memory, number_found, reader_of};
ghost use Rattle.pcache_store.specs.Refusals.{MayFailFinish};
ghost use Rattle.pcache_store.specs.Shards.{of_shard};
ghost use Rattle.pcache_store.specs.Store.{Part, complete_body, dropped, find, finished, is_superseded, is_untouched, is_write_under, left, wrote};
ghost use Rattle.pcache_store.specs.Totals.{stored_bytes, slots};

mod bare;
mod body;
mod draft;
mod draft_table;
mod draft_text;
mod drafts;
mod found;
mod hit;
mod miss;
pub mod past;
mod slot_table;
mod slots;
mod untouched;

use crate::storage::{MissFinishType, PurgeOutcome, PurgeTarget, PurgeType, Storage, StoreMeaning};
use bare::BareStore;
use bytes::Bytes;
use draft::Draft;
pub use found::FoundBody;
pub use hit::{CompleteHit, MemHitHandler, PartialHit};
pub use miss::MemMissHandler;
use past::{Given, Past, Step};
use pcache_base::error::Result;
use pcache_base::key::{CacheHashKey, CacheKey};
use pcache_base::moment::Moment;
use pcache_base::seed::Seed;
use pcache_evict::eviction::CacheEntryId;
use pcache_meta::meta::CacheMeta;
use pcache_meta::meta::spelled::SpelledMeta;
use std::alloc::{AllocError, Global};
use std::marker::Model;

/// A store that keeps bodies and writes in memory, and knows its own past: a contract sees it as the
/// record `Known` of its slots and writes, by key and by number, and of all that was done to it. The
/// past stands in proofs alone, and takes no memory.
///
/// That the store is what its past made of an empty one is the type's invariant, so the
/// [`laws`](crate::laws) of such stores hold of each store at all times ([`MemCache::headline`]).
///
/// Look-ups, writes and removals take a constant number of look-ups in hash tables, whatever the number
/// of keys and writes, and time logarithmic in the number of writes in flight for the key alone. A
/// complete body is shared by all its readers. Metas are kept as the bytes that spell them, and read
/// back at look-ups.
#[derive(Drop)]
pub struct MemCache {
    bare: BareStore,
    past: Past,
}

impl Model for MemCache {
    ghost use Rattle.pcache_store.specs.Notes.{Known};
    ghost use Rattle.pcache_store.specs.NotesCode.{known_code};
    ghost use Rattle.pcache_store.specs.Past.{IsWhatPastSays};

    ghost Value = { Known };

    ghost coded = { known_code };

    ghost view = { λ a. record { state = a.bare; past = a.past.notes } };

    // Of a store and its past side by side: in one struct the past would be one step behind at the
    // end of each helper that changes a field.
    ghost invariant = { λ a. IsWhatPastSays a.bare a.past.notes };
}

impl MemCache {
    ghost use Rattle.pcache_store.specs.OneResponse.{MetasAreTheirs, SetsNameTheirs};
    ghost use Rattle.pcache_store.specs.PastLaws.{BodiesAreLast, BodiesGetNewer, BodiesGrow, Finds, Finishes, FoundIsOfItsWrite, NewestStands, NothingIsLost, PurgedIsGone, ReadsInOrder};

    /// An empty store, in which a look-up finds the earliest begun write in flight, or else the complete body, and the write
    /// that ends last replaces the body. Its tables hash under the seed, on which no result depends.
    pub fn new(alloc: Global, seed: Seed) -> MemCache
        ensures state { result.state
            ≡ record { slots = map.empty; writes = map.empty; next = 0; newest = false } }
        ensures past { result.past ≡ [] }
    {
        MemCache {
            bare: BareStore::new(alloc, seed, false),
            past: Past::new(),
        }
    }

    /// An empty store that prefers the newest response (RFC 9111, 4): a look-up finds the write in flight that began last,
    /// unless the complete body is of a later one, and the end of a write fails (`Superseded`) if a newer body of the key stands.
    pub fn newest_first(alloc: Global, seed: Seed) -> MemCache
        ensures state { result.state
            ≡ record { slots = map.empty; writes = map.empty; next = 0; newest = true } }
        ensures past { result.past ≡ [] }
    {
        MemCache {
            bare: BareStore::new(alloc, seed, true),
            past: Past::new(),
        }
    }

    /// An empty store whose next write has this number, so that the last numbers can be tried.
    pub fn starting_at(alloc: Global, seed: Seed, next: u64) -> MemCache
        ensures state { result.state
            ≡ record { slots = map.empty; writes = map.empty; next = next; newest = false } }
        ensures past { result.past ≡ [] }
    {
        MemCache {
            bare: BareStore::starting_at(alloc, seed, next),
            past: Past::new(),
        }
    }

    /// What holds of each store at all times, by its past alone. A removal is a purge of the key, or one
    /// of the write's entry:
    ///
    /// - `finds`: a look-up finds a key exactly when a write of it, in flight or the one that was
    ///   finished last, met no removal since it began.
    /// - `finishes`: the finish of a write in flight succeeds exactly when the write met no removal
    ///   since it began, and is not superseded (`newer`).
    /// - `purged`: after a purge of a key nothing whose write began before it is found under that key,
    ///   and no such write can be finished.
    /// - `kept`: a body that was finished is there, and its key is found, until its key is purged, its
    ///   entry is removed, or a later write of the key is finished.
    /// - `bodies`: a complete body is that of the write of its key that was finished last, with its meta
    ///   and each change of it since.
    /// - `found`: what is found has the meta and the number of its write.
    /// - `reads`: a reader of a write is given all bytes of that write and of no other, in order and each
    ///   once, and the end only when it was given all and no more can come.
    /// - `grows`: what was written of a write stays as it is, and more bytes come after it.
    /// - `metas`: if each meta that was set names the write whose body it is for, what is found has the meta with which its own
    ///   write began, or the last one that was set for that very write, and expired if the body was expired since.
    ///
    /// And of a store that prefers the newest response:
    ///
    /// - `newest`: no write that can be found under the key, in flight or complete, is newer than what is found.
    /// - `newer`: the end of a write replaced no newer body of its key.
    pub fn headline(&self)
        ensures finds { Finds self.now.state self.now.past }
        ensures finishes { Finishes self.now.state self.now.past }
        ensures purged { PurgedIsGone self.now.state self.now.past }
        ensures kept { NothingIsLost self.now.state self.now.past }
        ensures bodies { BodiesAreLast self.now.state self.now.past }
        ensures found { FoundIsOfItsWrite self.now.state self.now.past }
        ensures reads { ReadsInOrder self.now.state self.now.past }
        ensures grows { BodiesGrow self.now.state self.now.past }
        ensures metas { SetsNameTheirs self.now.past
            → MetasAreTheirs self.now.state self.now.past }
        ensures newest { self.now.state.newest ≡ true
            → NewestStands self.now.state self.now.past }
        ensures newer { self.now.state.newest ≡ true → BodiesGetNewer self.now.past }
    {
        let _ = &self.past;
    }

    /// The sum of the lengths of the complete bodies, in bytes.
    pub fn stored_bytes(&self) -> u128
        ensures { result ≡ stored_bytes self.now.state }
    {
        self.bare.stored_bytes()
    }

    /// The number of complete bodies.
    pub fn slots(&self) -> usize
        ensures { result ≡ slots self.now.state }
    {
        self.bare.slots()
    }

    /// The number of keys of a shard that have a complete body, or a write in flight that met no
    /// removal. There are 16 shards, and the shard of a key is its combined hash as a number (high
    /// byte first), modulo 16.
    pub fn shard_slots(&self, shard: usize) -> usize
        requires { shard < 16 }
        ensures { result ≡ map.len (part_of 16 shard self.now.state.slots) }
    {
        self.bare.shard_slots(shard)
    }

    /// The number of records of writes: those that a handler or a reader names.
    pub fn write_records(&self) -> usize
        ensures { result ≡ map.len self.now.state.writes }
    {
        self.bare.write_records()
    }

    /// The number of records of the writes of a shard's keys. A record is kept in the shard of its
    /// key.
    pub fn shard_write_records(&self, shard: usize) -> usize
        requires { shard < 16 }
        ensures { result ≡ map.len (of_shard shard self.now.state.writes) }
    {
        self.bare.shard_write_records(shard)
    }

    /// Whether the write with this number has a record, is of this key, and has a meta that names
    /// it.
    pub fn has_write(&self, key: &CacheKey, number: u64) -> bool
        ensures { result
            ≡ is_write_under (slot key.now) number (map.get self.now.state.writes number) }
    {
        self.bare.has_write(key, number)
    }

    /// The number of the write that stored the key's complete body, if there is one: the number of the body's entry.
    pub fn body_number(&self, key: &CacheKey) -> Option<CacheEntryId>
        ensures { result ≡ body_number self.now.state (slot key.now) }
    {
        self.bare.body_number(key)
    }

    /// The number of the write that a look-up of the key finds: one in flight, or the one that stored the complete body. It copies
    /// nothing, and reads no meta.
    pub fn found_number(&self, key: &CacheKey) -> Option<CacheEntryId>
        ensures { result ≡ number_found (find self.now.state (slot key.now)) }
    {
        self.bare.found_number(key)
    }

    /// The number that the next write gets, which is greater than that of each write so far; 2^64 if all numbers are used.
    pub fn next_number(&self) -> u128
        ensures { result ≡ self.now.state.next }
    {
        self.bare.next_number()
    }

    /// The lengths of the key's complete body and of the text of its head, in bytes, if there is one.
    pub fn body_lengths(&self, key: &CacheKey) -> Option<(usize, usize)>
        ensures { result
            ≡ option_map lengths (complete_body (map.get self.now.state.slots (slot key.now))) }
    {
        self.bare.body_lengths(key)
    }

    // The lengths of a write's body so far and of the text of its head; zero if it has no record.
    pub(crate) fn write_lengths(&self, slot: u128, number: u64) -> (usize, usize)
        ensures { result ≡ write_lengths (map.get self.now.state.writes number) }
    {
        self.bare.write_lengths(slot, number)
    }

    /// The meta of what a look-up of the key finds, as it is kept: a copy of its bytes, which are not read. Fails only when
    /// memory runs out, and then something is there.
    pub fn spelled_meta(&self, key: &CacheKey) -> Result<Option<SpelledMeta>, AllocError>
        ensures found { IfOk result (λ m.
            m ≡ option_map (λ p. p.0) (find self.now.state (slot key.now))) }
        ensures something { OnErr result (IsSome (find self.now.state (slot key.now))) }
    {
        self.bare.spelled_meta(key)
    }

    /// What a look-up of the key finds, if that is its complete body: the meta is not read yet. Such a look-up leaves the store
    /// and its past as they are, so the store is only lent. Fails only when memory runs out, and then such a body is there.
    pub fn complete_body(&self, key: &CacheKey) -> Result<Option<FoundBody>, AllocError>
        ensures found { IfOk result (λ f. f ≡ if_complete (find self.now.state (slot key.now))) }
        ensures something { OnErr result
            (IsSome (if_complete (find self.now.state (slot key.now)))) }
    {
        self.bare.complete_body(key)
    }

    // The record of a write, which is in the shard of its key's slot.
    pub(crate) fn draft(&self, slot: u128, number: u64) -> Option<&Draft>
        ensures { option_copied result ≡ map.get self.now.state.writes number }
    {
        self.bare.draft(slot, number)
    }

    pub(crate) fn leave(&mut self, slot: u128, number: u64)
        ensures state { self.new.state ≡ left self.old.state (Part number 0) }
        ensures past { self.new.past ≡ added (leave_noted (Part number 0)) self.old.past }
    {
        self.bare.leave(slot, number);
        self.past = self.past.then(&Step::Left(number));
    }

    pub(crate) fn write(
        &mut self,
        slot: u128,
        number: u64,
        bytes: Bytes,
        eof: bool,
    ) -> Result<(), AllocError>
        ensures ok { OnOk result (self.new.state ≡ wrote self.old.state number bytes eof) }
        ensures past { OnOk result (self.new.past
            ≡ added (Some (Wrote number bytes eof)) self.old.past) }
        ensures err { OnErr result (self.new ≡ self.old) }
    {
        let past = self.past.then(&Step::Wrote {
            number,
            bytes: bytes.as_slice(),
            eof,
        });
        self.bare.write(slot, number, bytes, eof)?;
        self.past = past;
        Ok(())
    }

    pub(crate) fn drop_write(&mut self, slot: u128, number: u64)
        ensures state { self.new.state ≡ dropped self.old.state number }
        ensures past { self.new.past ≡ added (Some (Dropped number)) self.old.past }
    {
        self.bare.drop_write(slot, number);
        self.past = self.past.then(&Step::Dropped(number));
    }

    pub(crate) fn finish(&mut self, slot: u128, number: u64) -> Result<MissFinishType>
        ensures answer { IfOk result (λ f. f ≡ created self.old.state number) }
        ensures ok { OnOk result (self.new.state ≡ finished self.old.state number) }
        ensures past { OnOk result (self.new.past
            ≡ added (Some (Finished number)) self.old.past) }
        ensures untouched { OnOk result (is_untouched self.old.state number ≡ true) }
        ensures newest { OnOk result (is_superseded self.old.state number ≡ false) }
        ensures kind { IfErr result (λ e. MayFailFinish self.old.state number e) }
        ensures err { OnErr result (self.new.state ≡ dropped self.old.state number) }
        ensures drop_past { OnErr result (self.new.past
            ≡ added (Some (Dropped number)) self.old.past) }
    {
        match self.bare.finish(slot, number) {
            Ok(stored) => {
                self.past = self.past.then(&Step::Finished(number));
                Ok(stored)
            }
            Err(refused) => {
                self.past = self.past.then(&Step::Dropped(number));
                Err(refused)
            }
        }
    }
}

impl StoreMeaning for MemCache {
    ghost state = { λ s. s.state };

    ghost past = { λ s. Some s.past };

    ghost streams = { λ _. true };

    ghost finishes = { λ s. created s.state };

    ghost guarantees = { in_memory };

    // Ending a reader never fails.
    ghost ends_hit = { λ _ reader result. IsOk result };
}

// The number of the write that a look-up gave a reader of, if it gave one.
fn joined(found: &Option<(CacheMeta, MemHitHandler)>) -> Option<u64>
    ensures { option_map Joined result
        ≡ look_noted (option_map (λ p. (p.0, reader_of p.1)) found.now) }
{
    let Some((_meta, hit)) = found else {
        return None;
    };
    hit.write_followed()
}

// The number of the entry that a target names, if it names one.
fn id_named(target: PurgeTarget<'_>) -> Option<CacheEntryId>
    ensures { result ≡ target_id target.entry }
{
    match target {
        PurgeTarget::Active(_key) => None,
        PurgeTarget::Exact(entry) => entry.entry_id(),
    }
}

impl Storage for MemCache {
    type Hit = MemHitHandler;

    type Miss = MemMissHandler;

    fn lookup(
        &mut self,
        alloc: Global,
        key: &CacheKey,
    ) -> Result<Option<(CacheMeta, MemHitHandler)>> {
        let found = self.bare.lookup(alloc, key)?;
        self.past = self.past.then(&Step::Joined(joined(&found)));
        Ok(found)
    }

    fn lookup_streaming_write(
        &mut self,
        alloc: Global,
        key: &CacheKey,
        streaming_write_tag: Option<&[u8]>,
    ) -> Result<Option<(CacheMeta, MemHitHandler)>> {
        let found = self
            .bare
            .lookup_streaming_write(alloc, key, streaming_write_tag)?;
        self.past = self.past.then(&Step::Joined(joined(&found)));
        Ok(found)
    }

    fn get_miss_handler(
        &mut self,
        alloc: Global,
        key: &CacheKey,
        meta: &CacheMeta,
    ) -> Result<MemMissHandler> {
        let handler = self.bare.get_miss_handler(alloc, key, meta)?;
        self.past = self.past.then_given(&Given::Began {
            slot: key.slot(),
            number: handler.number(),
            meta,
        });
        Ok(handler)
    }

    /// Takes no memory, so it never fails.
    fn purge(&mut self, target: PurgeTarget<'_>, _purge_type: PurgeType) -> Result<PurgeOutcome> {
        let outcome = self.bare.purge(target);
        self.past = self.past.then(&Step::Removed {
            slot: target.key().slot(),
            id: id_named(target),
        });
        Ok(outcome)
    }

    fn expire(
        &mut self,
        alloc: Global,
        target: PurgeTarget<'_>,
        now: Moment,
    ) -> Result<PurgeOutcome> {
        let slot = self.bare.slot_to_expire(target);
        let outcome = self.bare.expire(alloc, slot, now)?;
        self.past = self.past.then(&Step::Expired { slot, now });
        Ok(outcome)
    }

    fn update_meta(&mut self, alloc: Global, key: &CacheKey, meta: &CacheMeta) -> Result<bool> {
        let there = self.bare.update_meta(alloc, key, meta)?;
        self.past = self.past.then_given(&Given::Set {
            slot: key.slot(),
            meta,
        });
        Ok(there)
    }

    fn support_streaming_partial_write(&self) -> bool {
        true
    }
}
