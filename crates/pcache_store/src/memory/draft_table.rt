//! The records of writes by number, in shards.
ghost use Rattle.std.specs.Prelude.{◌≡◌, ◌<◌, ◌++◌, ◌^◌, ℕ, Option, Some, None, IsSome, IfSome, IfNone, IfOk, IfErr, OnOk, OnErr, option_map, option_copied, is_ok, ◌+◌};
ghost use Rattle.std.specs.FinMap as map;
ghost use Rattle.pcache_base.specs.declared.error.ErrorType.TheVariants.{OutOfMemory};
ghost use Rattle.pcache_store.specs.Drafts.{IsBodyOf, ended_on};
ghost use Rattle.pcache_store.specs.Shards.{one_if_some, of_shard, table_at, IsPlaceOf};
ghost use Rattle.pcache_store.specs.Store.{Written, followed_on, left_on, wrote_on, grounded_on};

use crate::memory::body::Body;
use crate::memory::draft::Draft;
use crate::memory::slot_table::{SHARDS, is_full, one_if};
use bytes::Bytes;
use pcache_base::error::Result;
use pcache_base::seed::Seed;
use pcache_meta::meta::CacheMeta;
use pcache_table::hashtable::HashedTable;
use std::alloc::{AllocError, Global};
use std::marker::Model;

/// The records of writes by number, each in the shard of its key, of which there are 16. A contract
/// sees one map.
///
/// Each call gets a slot besides the number: the record is looked up in that slot's shard, and in the
/// other shards only if it is not there. So a caller that passes the slot of the write's key needs
/// one look-up in a hash table, however many records there are; with another slot the same record is
/// found.
#[derive(Drop)]
pub(crate) struct DraftTable {
    shards: [HashedTable<Draft>; 16],
    count: usize,
}

impl Model for DraftTable {
    ghost use Rattle.std.specs.FinMap as map;
    ghost use Rattle.std.specs.Ordering.{nat_cmp};
    ghost use Rattle.std.specs.Coded.{coded_ℕ};
    ghost use Rattle.pcache_table.specs.Sharding.{one_map};
    ghost use Rattle.pcache_store.specs.Store.{Written};
    ghost use Rattle.pcache_store.specs.StoreCode.{written_code};
    ghost use Rattle.pcache_store.specs.Shards.{parts, AreRecords};

    ghost Value = { map.FinMap nat_cmp Written };

    ghost coded = { map.code coded_ℕ written_code };

    ghost view = { λ a. one_map (parts 0 a.shards) };

    ghost invariant = { λ a. AreRecords a.shards a.count };
}

impl DraftTable {
    // A table with no record. No result depends on the seed.
    pub(crate) fn new(alloc: Global, seed: Seed) -> DraftTable
        ensures { result ≡ map.empty }
    {
        DraftTable {
            shards: std::array::from_fn(
                |_place: usize| -> HashedTable<Draft>
                    ensures { result ≡ map.empty }
                { HashedTable::new(alloc, seed) },
            ),
            count: 0,
        }
    }

    // The number of records.
    pub(crate) fn len(&self) -> usize
        ensures { result ≡ map.len self.now }
    {
        self.count
    }

    // The number of records of a shard.
    pub(crate) fn shard_len(&self, shard: usize) -> usize
        requires { shard < 16 }
        ensures { result ≡ map.len (of_shard shard self.now) }
    {
        let shards = &self.shards;
        let table = &shards[shard];
        table.len()
    }

    pub(crate) fn get(&self, slot: u128, number: u64) -> Option<&Draft>
        ensures { option_copied result ≡ map.get self.now number }
    {
        let number = number as u128;
        let shards = &self.shards;
        let place = place_of(shards, slot, number);
        let table = &shards[place];
        table.get(number)
    }

    // Adds the record of a new write.
    pub(crate) fn insert(&mut self, number: u64, draft: Draft) -> Result<(), AllocError>
        requires { map.get self.old number ≡ None }
        ensures ok { OnOk result (self.new ≡ map.insert self.old number draft) }
        ensures err { OnErr result (self.new ≡ self.old) }
    {
        if is_full(self.count) {
            return Err(AllocError);
        }
        let place = (draft.slot() % SHARDS) as usize;
        let table = &mut self.shards[place];
        table.insert(number as u128, draft)?;
        self.count += 1;
        Ok(())
    }

    // Removes a record.
    pub(crate) fn remove(&mut self, slot: u128, number: u64)
        ensures { self.new ≡ map.remove self.old number }
    {
        let number = number as u128;
        let place = place_of(&self.shards, slot, number);
        let table = &mut self.shards[place];
        self.count -= one_if(table.remove(number).is_some());
    }

    pub(crate) fn write(
        &mut self,
        alloc: Global,
        slot: u128,
        number: u64,
        bytes: Bytes,
        eof: bool,
    ) -> Result<(), AllocError>
        ensures ok { OnOk result (self.new
            ≡ wrote_on self.old number bytes eof (map.get self.old number)) }
        ensures err { OnErr result (self.new ≡ self.old) }
    {
        let number = number as u128;
        let place = place_of(&self.shards, slot, number);
        let table = &mut self.shards[place];
        write_in(table, alloc, number, bytes, eof)
    }

    // Counts one more reader of a write, and returns its meta and its slot.
    pub(crate) fn follow(
        &mut self,
        alloc: Global,
        slot: u128,
        number: u64,
    ) -> Result<Option<(CacheMeta, u128)>, AllocError>
        ensures meta { IfOk result (λ m.
            m ≡ option_map (λ w. (w.meta, w.slot)) (map.get self.old number)) }
        ensures ok { OnOk result (self.new
            ≡ followed_on self.old number (map.get self.old number)) }
        ensures something { OnErr result (IsSome (map.get self.old number)) }
        ensures err { OnErr result (self.new ≡ self.old) }
    {
        let number = number as u128;
        let place = place_of(&self.shards, slot, number);
        let table = &mut self.shards[place];
        follow_in(table, alloc, number)
    }

    // Counts one reader less.
    pub(crate) fn leave(&mut self, slot: u128, number: u64)
        ensures { self.new ≡ left_on self.old number (map.get self.old number) }
    {
        let number = number as u128;
        let place = place_of(&self.shards, slot, number);
        let table = &mut self.shards[place];
        self.count -= leave_in(table, number);
    }

    // Records that the handler of a write is gone.
    pub(crate) fn land(&mut self, slot: u128, number: u64)
        ensures { self.new ≡ grounded_on self.old number (map.get self.old number) }
    {
        let number = number as u128;
        let place = place_of(&self.shards, slot, number);
        let table = &mut self.shards[place];
        self.count -= land_in(table, number);
    }

    // Ends a write: its handler is gone. Returns its body, which shares its bytes; then its end is known.
    pub(crate) fn end(&mut self, alloc: Global, slot: u128, number: u64) -> Result<Body, AllocError>
        requires { IsSome (map.get self.old number) }
        ensures body { IfOk result (λ b. IsBodyOf (map.get self.old number) b) }
        ensures gone { self.new
            ≡ ended_on (is_ok result) self.old number (map.get self.old number) }
    {
        let number = number as u128;
        let place = place_of(&self.shards, slot, number);
        let table = &mut self.shards[place];
        let (body, gone) = end_in(table, alloc, number);
        self.count -= gone;
        body
    }
}

// The place of the shard that has a number, if one has it. The shard of the slot is tried first. The others are asked only for a
// reader or handler that is lent a store other than its own, where its number names another write.
fn place_of(shards: &[HashedTable<Draft>; 16], slot: u128, number: u128) -> usize
    ensures within { result < 16 }
    ensures place { IsPlaceOf shards.now number result }
{
    let first = (slot % SHARDS) as usize;
    let table = &shards[first];
    if table.get(number).is_some() {
        return first;
    }
    match place_with(shards, number) {
        Some(place) => place,
        None => first,
    }
}

// The place of a shard that has a number.
fn place_with(shards: &[HashedTable<Draft>; 16], number: u128) -> Option<usize>
    ensures within { IfSome result (λ i. i < 16) }
    ensures there { IfSome result (λ i. IsSome (map.get (table_at shards.now i) number)) }
    ensures none { IfNone result ((i : ℕ)
        → i < 16
        → map.get (table_at shards.now i) number ≡ None) }
{
    for place in 0..16usize {
        let table = &shards[place];
        if table.get(number).is_some() {
            return Some(place);
        }
    }
    None
}

// The functions below change one table. Each method above lends the table of a number to one of them, so that the
// change has one clause over one table, and one lemma says how all tables together change.
fn write_in(
    writes: &mut HashedTable<Draft>,
    alloc: Global,
    number: u128,
    bytes: Bytes,
    eof: bool,
) -> Result<(), AllocError>
    ensures ok { OnOk result (writes.new
        ≡ wrote_on writes.old number bytes eof (map.get writes.old number)) }
    ensures err { OnErr result (writes.new ≡ writes.old) }
{
    let Some(draft) = writes.get_mut(number) else {
        return Ok(());
    };
    draft.write(alloc, bytes, eof)
}

fn follow_in(
    writes: &mut HashedTable<Draft>,
    alloc: Global,
    number: u128,
) -> Result<Option<(CacheMeta, u128)>, AllocError>
    ensures meta { IfOk result (λ m.
        m ≡ option_map (λ w. (w.meta, w.slot)) (map.get writes.old number)) }
    ensures ok { OnOk result (writes.new
        ≡ followed_on writes.old number (map.get writes.old number)) }
    ensures something { OnErr result (IsSome (map.get writes.old number)) }
    ensures err { OnErr result (writes.new ≡ writes.old) }
{
    let Some(draft) = writes.get_mut(number) else {
        return Ok(None);
    };
    match draft.follow(alloc) {
        Ok(meta) => Ok(Some((meta, draft.slot()))),
        Err(refused) => Err(refused),
    }
}

// Returns how many records were removed.
fn leave_in(writes: &mut HashedTable<Draft>, number: u128) -> usize
    ensures after { writes.new ≡ left_on writes.old number (map.get writes.old number) }
    ensures gone { one_if_some (map.get writes.new number) + result
        ≡ one_if_some (map.get writes.old number) }
{
    let Some(draft) = writes.get_mut(number) else {
        return 0;
    };
    draft.leave();
    if draft.is_named() {
        return 0;
    }
    writes.remove(number);
    1
}

// Returns how many records were removed.
fn land_in(writes: &mut HashedTable<Draft>, number: u128) -> usize
    ensures after { writes.new ≡ grounded_on writes.old number (map.get writes.old number) }
    ensures gone { one_if_some (map.get writes.new number) + result
        ≡ one_if_some (map.get writes.old number) }
{
    let Some(draft) = writes.get_mut(number) else {
        return 0;
    };
    draft.land();
    if draft.is_named() {
        return 0;
    }
    writes.remove(number);
    1
}

// If the write has no reader, its meta and bytes move into the body; otherwise the body shares them, and its readers know
// that it ended. Also returns how many records were removed.
fn end_in(
    writes: &mut HashedTable<Draft>,
    alloc: Global,
    number: u128,
) -> (Result<Body, AllocError>, usize)
    requires { IsSome (map.get writes.old number) }
    ensures body { IfOk result.0 (λ b. IsBodyOf (map.get writes.old number) b) }
    ensures after { writes.new
        ≡ ended_on (is_ok result.0) writes.old number (map.get writes.old number) }
    ensures gone { one_if_some (map.get writes.new number) + result.1
        ≡ one_if_some (map.get writes.old number) }
{
    let Some(draft) = writes.get_mut(number) else {
        unreachable!()
    };
    draft.land();
    if draft.is_named() {
        return match draft.to_body(alloc) {
            Ok(body) => {
                draft.tell();
                (Ok(body), 0)
            }
            Err(refused) => (Err(refused), 0),
        };
    }
    let Some(draft) = writes.remove(number) else {
        unreachable!()
    };
    (draft.into_body(alloc), 1)
}
