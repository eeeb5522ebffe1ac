//! The slots by key.
ghost use Rattle.std.specs.Prelude.{◌≡◌, ◌<◌, ◌^◌, ℕ, Option, Some, None, IsSome, IfOk, OnOk, OnErr, option_map, option_copied, is_some, true};
ghost use Rattle.std.specs.FinMap as map;
ghost use Rattle.pcache_meta.specs.Meta as meta_of;
ghost use Rattle.pcache_base.specs.Totals.{total, share};
ghost use Rattle.pcache_table.specs.Sharding.{part_of};
ghost use Rattle.pcache_store.specs.Store.{Stored, opened, shut_on, stored_on, complete_body, meta_changed_on, is_untouched_in, has_write, has_body_of, has_later_body, write_gone_on, number_of_body};
ghost use Rattle.pcache_store.specs.Totals.{body_count, body_size, body_len, one};

use crate::memory::body::{Body, KeySlot, is_later};
use crate::memory::slot_table::SlotTable;
use pcache_base::entry_id::CacheEntryId;
use pcache_base::error::Result;
use pcache_base::moment::Moment;
use pcache_base::seed::Seed;
use pcache_meta::meta::spelled::SpelledMeta;
use std::alloc::{AllocError, Global};
use std::marker::Model;

/// The slots by key, with the number and the total length of their complete bodies.
#[derive(Drop)]
pub(crate) struct Slots {
    slots: SlotTable,
    bodies: usize,
    stored: u128,
}

impl Model for Slots {
    ghost use Rattle.std.specs.FinMap as map;
    ghost use Rattle.std.specs.Ordering.{nat_cmp};
    ghost use Rattle.std.specs.Coded.{coded_ℕ};
    ghost use Rattle.pcache_store.specs.Store.{Slot};
    ghost use Rattle.pcache_store.specs.StoreCode.{slot_code};
    ghost use Rattle.pcache_store.specs.Totals.{IsCounted};

    ghost Value = { map.FinMap nat_cmp Slot };

    ghost coded = { map.code coded_ℕ slot_code };

    ghost view = { λ a. a.slots };

    ghost invariant = { λ a. IsCounted a.slots a.bodies a.stored };
}

impl Slots {
    pub(crate) fn new(alloc: Global, seed: Seed) -> Slots
        ensures { result ≡ map.empty }
    {
        Slots {
            slots: SlotTable::new(alloc, seed),
            bodies: 0,
            stored: 0,
        }
    }

    // The number of keys of a shard that have a slot.
    pub(crate) fn shard_len(&self, shard: usize) -> usize
        requires { shard < 16 }
        ensures { result ≡ map.len (part_of 16 shard self.now) }
    {
        self.slots.shard_len(shard)
    }

    // The number of complete bodies.
    pub(crate) fn bodies(&self) -> usize
        ensures { result ≡ total body_count self.now }
    {
        self.bodies
    }

    // The sum of the lengths of the complete bodies.
    pub(crate) fn stored_bytes(&self) -> u128
        ensures { result ≡ total body_size self.now }
    {
        self.stored
    }

    pub(crate) fn get(&self, key: u128) -> Option<&KeySlot>
        ensures { option_copied result ≡ map.get self.now key }
    {
        self.slots.get(key)
    }

    // Whether a write of the key is in flight and met no removal.
    pub(crate) fn is_untouched(&self, key: u128, number: u64) -> bool
        ensures { result ≡ is_untouched_in number (map.get self.now key) }
    {
        match self.slots.get(key) {
            Some(slot) => slot.is_untouched(number),
            None => false,
        }
    }

    // The complete body, if there is one.
    pub(crate) fn body(&self, key: u128) -> Option<&Body>
        ensures { option_copied result ≡ complete_body (map.get self.now key) }
    {
        self.slots.get(key)?.body()
    }

    // Records that a write of the key begins.
    pub(crate) fn open(&mut self, alloc: Global, key: u128, number: u64) -> Result<(), AllocError>
        ensures ok { OnOk result (self.new ≡ opened self.old key number) }
        ensures err { OnErr result (self.new ≡ self.old) }
    {
        self.slots.open(alloc, key, number)
    }

    // Records that a write of the key ends, and nothing is stored.
    pub(crate) fn shut(&mut self, key: u128, number: u64)
        ensures { self.new ≡ shut_on self.old key number (map.get self.old key) }
    {
        self.slots.shut(key, number);
    }

    // Records that a write of the key ends. Its body replaces an older one.
    pub(crate) fn store(&mut self, key: u128, number: u64, body: Body)
        requires { IsSome (map.get self.old key) }
        ensures { self.new ≡ stored_on self.old key number body (map.get self.old key) }
    {
        let size = body.len() as u128;
        // For the prover: the call bounds how many slots there are.
        let _count = self.slots.len();
        let (fewer, less) = count(self.slots.store(key, number, body));
        self.bodies = self.bodies - fewer + 1;
        self.stored = self.stored - less + size;
    }

    // Removes a slot. If there was one, returns the number of its complete body, if it had one.
    pub(crate) fn remove(&mut self, key: u128) -> Option<Option<CacheEntryId>>
        ensures there { result ≡ option_map (λ x. number_of_body x.body) (map.get self.old key) }
        ensures removed { self.new ≡ map.remove self.old key }
    {
        // With the slot go the numbers of the key's writes, and so all of them are marked as
        // removed. The writes of other keys are not looked at.
        let Some(slot) = self.slots.remove(key) else {
            return None;
        };
        let id = slot.entry_id();
        let (fewer, less) = count(slot.into_body());
        self.bodies -= fewer;
        self.stored -= less;
        Some(id)
    }

    // Removes a write, in flight or complete, and returns whether the slot had it.
    pub(crate) fn remove_write(&mut self, key: u128, id: CacheEntryId) -> bool
        ensures there { result ≡ has_write id (map.get self.old key) }
        ensures removed { self.new ≡ write_gone_on self.old key id (map.get self.old key) }
    {
        // For the prover: with the invariant the two totals are those of the slots.
        let _ = &self.slots;
        let (there, body) = self.slots.remove_write(key, id);
        let (fewer, less) = count(body);
        self.bodies -= fewer;
        self.stored -= less;
        there
    }

    // Whether the complete body is that of this write.
    pub(crate) fn has_body_of(&self, key: u128, id: CacheEntryId) -> bool
        ensures { result ≡ has_body_of id (complete_body (map.get self.now key)) }
    {
        match self.body(key) {
            Some(body) => body.entry_id() == Some(id),
            None => false,
        }
    }

    // Whether the complete body is that of a later write than this one.
    pub(crate) fn has_later_body(&self, key: u128, number: u64) -> bool
        ensures { result ≡ has_later_body number (map.get self.now key) }
    {
        match self.body(key) {
            Some(body) => is_later(number, body.entry_id()),
            None => false,
        }
    }

    // Sets the meta of the complete body, and returns whether there is one.
    pub(crate) fn set_meta(&mut self, key: u128, meta: SpelledMeta) -> bool
        ensures there { result ≡ is_some (complete_body (map.get self.old key)) }
        ensures slots { self.new ≡ meta_changed_on (λ _. meta) self.old key (map.get self.old key) }
    {
        self.slots.set_meta(key, meta)
    }

    // Ends the freshness of the complete body, and returns whether there is one.
    pub(crate) fn expire(
        &mut self,
        alloc: Global,
        key: u128,
        now: Moment,
    ) -> Result<bool, AllocError>
        ensures there { IfOk result (λ b. b ≡ is_some (complete_body (map.get self.old key))) }
        ensures slots { OnOk result (self.new
            ≡ meta_changed_on (meta_of.expired_at now) self.old key (map.get self.old key)) }
        ensures something { OnErr result (is_some (complete_body (map.get self.old key)) ≡ true) }
        ensures err { OnErr result (self.new ≡ self.old) }
    {
        self.slots.expire(alloc, key, now)
    }
}

// How many bodies (one or zero), and how many bytes.
fn count(body: Option<Body>) -> (usize, u128)
    ensures bodies { result.0 ≡ share one body }
    ensures bytes { result.1 ≡ share body_len body }
{
    match body {
        Some(body) => (1, body.len() as u128),
        None => (0, 0),
    }
}
