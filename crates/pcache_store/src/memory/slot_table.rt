//! The slots by key, in shards.
ghost use Rattle.std.specs.Prelude.{◌≡◌, ◌<◌, ◌≤◌, ◌^◌, ◌-◌, ◌↔◌, ℕ, Option, Some, None, IsSome, IsTrue, IfOk, OnOk, OnErr, option_copied, is_some, true, cond, ◌+◌};
ghost use Rattle.std.specs.FinMap as map;
ghost use Rattle.pcache_meta.specs.Meta as meta_of;
ghost use Rattle.pcache_table.specs.Sharding.{part_of};
ghost use Rattle.pcache_store.specs.Shards.{one_if_some};
ghost use Rattle.pcache_store.specs.Store.{opened, shut_on, stored_on, complete_body, meta_changed_on, has_write, body_with, write_gone_on};

use crate::memory::body::{Body, KeySlot};
use pcache_base::entry_id::CacheEntryId;
use pcache_base::error::Result;
use pcache_base::moment::Moment;
use pcache_base::seed::Seed;
use pcache_meta::meta::spelled::SpelledMeta;
use pcache_table::hashtable::HashedTable;
use std::alloc::{AllocError, Global};
use std::marker::Model;

/// How many shards there are. The shard of a key is the key modulo their number.
pub(crate) const SHARDS: u128 = 16;

/// The most keys, or records of writes, that all shards may have together, which is the most that one table may have.
const MOST_KEYS: usize = (1 << 63) - 1;

// Whether shards that have so many keys, or records, take no more. That counts as a lack of memory, which no machine has left
// by then.
pub(crate) fn is_full(count: usize) -> bool
    ensures { IsTrue result ↔ (2 ^ 63 - 1 ≤ count) }
{
    // Each key or record has a number of its own in memory, of at least 16 bytes, and 2^64
    // addresses have room for fewer than 2^60 of these.
    count >= MOST_KEYS
}

/// The slots by key, in 16 shards. A contract sees one map.
#[derive(Drop)]
pub(crate) struct SlotTable {
    shards: [HashedTable<KeySlot>; 16],
    count: usize,
}

impl Model for SlotTable {
    ghost use Rattle.std.specs.FinMap as map;
    ghost use Rattle.std.specs.Ordering.{nat_cmp};
    ghost use Rattle.std.specs.Coded.{coded_ℕ};
    ghost use Rattle.pcache_table.specs.Sharding.{one_map};
    ghost use Rattle.pcache_store.specs.Store.{Slot};
    ghost use Rattle.pcache_store.specs.StoreCode.{slot_code};
    ghost use Rattle.pcache_store.specs.Shards.{parts, AreShards};

    ghost Value = { map.FinMap nat_cmp Slot };

    ghost coded = { map.code coded_ℕ slot_code };

    ghost view = { λ a. one_map (parts 0 a.shards) };

    ghost invariant = { λ a. AreShards a.shards a.count };
}

impl SlotTable {
    // A table with no key. No result depends on the seed.
    pub(crate) fn new(alloc: Global, seed: Seed) -> SlotTable
        ensures { result ≡ map.empty }
    {
        SlotTable {
            shards: std::array::from_fn(
                |_place: usize| -> HashedTable<KeySlot>
                    ensures { result ≡ map.empty }
                { HashedTable::new(alloc, seed) },
            ),
            count: 0,
        }
    }

    // The number of keys.
    pub(crate) fn len(&self) -> usize
        ensures value { result ≡ map.len self.now }
        ensures small { result < 2 ^ 63 }
    {
        self.count
    }

    // The number of keys of a shard.
    pub(crate) fn shard_len(&self, shard: usize) -> usize
        requires { shard < 16 }
        ensures { result ≡ map.len (part_of 16 shard self.now) }
    {
        let shards = &self.shards;
        let table = &shards[shard];
        table.len()
    }

    pub(crate) fn get(&self, key: u128) -> Option<&KeySlot>
        ensures { option_copied result ≡ map.get self.now key }
    {
        let shards = &self.shards;
        let table = &shards[(key % SHARDS) as usize];
        table.get(key)
    }

    // Records that a write of the key begins.
    pub(crate) fn open(&mut self, alloc: Global, key: u128, number: u64) -> Result<(), AllocError>
        ensures ok { OnOk result (self.new ≡ opened self.old key number) }
        ensures err { OnErr result (self.new ≡ self.old) }
    {
        if is_full(self.count) {
            return Err(AllocError);
        }
        let place = (key % SHARDS) as usize;
        let table = &mut self.shards[place];
        let more = open_in(table, alloc, key, number)?;
        self.count += more;
        Ok(())
    }

    // Records that a write of the key ends, and nothing is stored.
    pub(crate) fn shut(&mut self, key: u128, number: u64)
        ensures { self.new ≡ shut_on self.old key number (map.get self.old key) }
    {
        let _ = &self.shards; // for the prover: each of the 16 tables has its own keys
        let place = (key % SHARDS) as usize;
        let table = &mut self.shards[place];
        self.count -= shut_in(table, key, number);
    }

    // Records that a write of the key ends. Its body replaces an older one, which is returned.
    pub(crate) fn store(&mut self, key: u128, number: u64, body: Body) -> Option<Body>
        requires { IsSome (map.get self.old key) }
        ensures older { result ≡ complete_body (map.get self.old key) }
        ensures slots { self.new ≡ stored_on self.old key number body (map.get self.old key) }
    {
        let _ = &self.shards; // for the prover: each of the 16 tables has its own keys
        let place = (key % SHARDS) as usize;
        let table = &mut self.shards[place];
        store_in(table, key, number, body)
    }

    // Removes a slot, and returns it.
    pub(crate) fn remove(&mut self, key: u128) -> Option<KeySlot>
        ensures before { result ≡ map.get self.old key }
        ensures removed { self.new ≡ map.remove self.old key }
    {
        let _ = &self.shards; // for the prover: each of the 16 tables has its own keys
        let place = (key % SHARDS) as usize;
        let table = &mut self.shards[place];
        let slot = table.remove(key);
        self.count -= one_if(slot.is_some());
        slot
    }

    // Removes a write, in flight or complete. Returns whether the slot had it, and its body if it is complete.
    pub(crate) fn remove_write(&mut self, key: u128, id: CacheEntryId) -> (bool, Option<Body>)
        ensures there { result.0 ≡ has_write id (map.get self.old key) }
        ensures body { result.1 ≡ body_with id (complete_body (map.get self.old key)) }
        ensures removed { self.new ≡ write_gone_on self.old key id (map.get self.old key) }
    {
        let _ = &self.shards; // for the prover: each of the 16 tables has its own keys
        let place = (key % SHARDS) as usize;
        let table = &mut self.shards[place];
        let (there, body, gone) = remove_write_in(table, key, id);
        self.count -= gone;
        (there, body)
    }

    // Sets the meta of the complete body, and returns whether there is one.
    pub(crate) fn set_meta(&mut self, key: u128, meta: SpelledMeta) -> bool
        ensures there { result ≡ is_some (complete_body (map.get self.old key)) }
        ensures slots { self.new ≡ meta_changed_on (λ _. meta) self.old key (map.get self.old key) }
    {
        let _ = &self.shards; // for the prover: each of the 16 tables has its own keys
        let place = (key % SHARDS) as usize;
        let table = &mut self.shards[place];
        set_meta_in(table, key, meta)
    }

    // Ends the freshness of the complete body, and returns whether there is one.
    pub(crate) fn expire(
        &mut self,
        alloc: Global,
        key: u128,
        now: Moment,
    ) -> Result<bool, AllocError>
        ensures there { IfOk result (λ b. b ≡ is_some (complete_body (map.get self.old key))) }
        ensures slots { OnOk result (self.new
            ≡ meta_changed_on (meta_of.expired_at now) self.old key (map.get self.old key)) }
        ensures something { OnErr result (is_some (complete_body (map.get self.old key)) ≡ true) }
        ensures err { OnErr result (self.new ≡ self.old) }
    {
        let _ = &self.shards; // for the prover: each of the 16 tables has its own keys
        let place = (key % SHARDS) as usize;
        let table = &mut self.shards[place];
        expire_in(table, alloc, key, now)
    }
}

// One if the condition holds, else zero.
pub(crate) fn one_if(is_so: bool) -> usize
    ensures { result ≡ cond is_so 1 0 }
{
    if is_so { 1 } else { 0 }
}

// The functions below change one table. Each method above lends the table of a key to one of them, so that the
// change has one clause over one table, and one lemma says how all tables together change.
//
// Returns how many keys were added, which is one or zero.
fn open_in(
    slots: &mut HashedTable<KeySlot>,
    alloc: Global,
    key: u128,
    number: u64,
) -> Result<usize, AllocError>
    ensures ok { OnOk result (slots.new ≡ opened slots.old key number) }
    ensures more { IfOk result (λ n. one_if_some (map.get slots.old key) + n ≡ 1) }
    ensures err { OnErr result (slots.new ≡ slots.old) }
{
    if let Some(slot) = slots.get_mut(key) {
        slot.open(number)?;
        return Ok(0);
    }
    let mut slot = KeySlot::new(alloc);
    slot.open(number)?;
    slots.insert(key, slot)?;
    Ok(1)
}

// Returns how many keys were removed.
fn shut_in(slots: &mut HashedTable<KeySlot>, key: u128, number: u64) -> usize
    ensures after { slots.new ≡ shut_on slots.old key number (map.get slots.old key) }
    ensures gone { one_if_some (map.get slots.new key) + result
        ≡ one_if_some (map.get slots.old key) }
{
    let Some(slot) = slots.get_mut(key) else {
        return 0;
    };
    slot.shut(number);
    if slot.is_idle() {
        slots.remove(key);
        return 1;
    }
    0
}

// Returns the older body.
fn store_in(slots: &mut HashedTable<KeySlot>, key: u128, number: u64, body: Body) -> Option<Body>
    requires { IsSome (map.get slots.old key) }
    ensures older { result ≡ complete_body (map.get slots.old key) }
    ensures slots { slots.new ≡ stored_on slots.old key number body (map.get slots.old key) }
{
    let Some(slot) = slots.get_mut(key) else {
        unreachable!()
    };
    slot.store(number, body)
}

// Returns whether the slot had the write, its body if it is complete, and how many keys were
// removed.
fn remove_write_in(
    slots: &mut HashedTable<KeySlot>,
    key: u128,
    id: CacheEntryId,
) -> (bool, Option<Body>, usize)
    ensures there { result.0 ≡ has_write id (map.get slots.old key) }
    ensures body { result.1 ≡ body_with id (complete_body (map.get slots.old key)) }
    ensures after { slots.new ≡ write_gone_on slots.old key id (map.get slots.old key) }
    ensures gone { one_if_some (map.get slots.new key) + result.2
        ≡ one_if_some (map.get slots.old key) }
{
    let Some(slot) = slots.get_mut(key) else {
        return (false, None, 0);
    };
    let there = slot.has_write(id);
    let body = slot.remove_write(id);
    if slot.is_idle() {
        slots.remove(key);
        return (there, body, 1);
    }
    (there, body, 0)
}

fn set_meta_in(slots: &mut HashedTable<KeySlot>, key: u128, meta: SpelledMeta) -> bool
    ensures there { result ≡ is_some (complete_body (map.get slots.old key)) }
    ensures slots { slots.new ≡ meta_changed_on (λ _. meta) slots.old key (map.get slots.old key) }
{
    let Some(slot) = slots.get_mut(key) else {
        return false;
    };
    slot.set_meta(meta)
}

fn expire_in(
    slots: &mut HashedTable<KeySlot>,
    alloc: Global,
    key: u128,
    now: Moment,
) -> Result<bool, AllocError>
    ensures there { IfOk result (λ b. b ≡ is_some (complete_body (map.get slots.old key))) }
    ensures slots { OnOk result (slots.new
        ≡ meta_changed_on (meta_of.expired_at now) slots.old key (map.get slots.old key)) }
    ensures something { OnErr result (is_some (complete_body (map.get slots.old key)) ≡ true) }
    ensures err { OnErr result (slots.new ≡ slots.old) }
{
    let Some(slot) = slots.get_mut(key) else {
        return Ok(false);
    };
    slot.expire(alloc, now)
}
