//! The writes by number.
ghost use Rattle.std.specs.Prelude.{◌≡◌, ◌<◌, ◌≤◌, ◌+◌, ◌-◌, ◌^◌, ◌++◌, ℕ, Option, Some, None, IsSome, IfSome, ◌↔◌, IfOk, OnOk, OnErr, option_map, option_copied, is_ok, length};
ghost use Rattle.std.specs.FinMap as map;
ghost use Rattle.pcache_store.specs.Drafts.{IsBodyOf, ended_on};
ghost use Rattle.pcache_store.specs.Shards.{of_shard};
ghost use Rattle.pcache_store.specs.Store.{followed_on, left_on, wrote_on, grounded_on};

use crate::memory::body::Body;
use crate::memory::draft::Draft;
use crate::memory::draft_table::DraftTable;
use bytes::Bytes;
use pcache_base::error::Result;
use pcache_base::seed::Seed;
use pcache_meta::meta::CacheMeta;
use std::alloc::{AllocError, Global};
use std::marker::Model;

/// The writes that a handler or a reader names, by number. Each number is given once; after the last one there is no next.
#[derive(Drop)]
pub(crate) struct Drafts {
    writes: DraftTable,
    // One counter for all shards, so that the earliest write of a key is that of the least number.
    next: Option<u64>,
}

impl Model for Drafts {
    ghost use Rattle.pcache_store.specs.Drafts.{Numbered, numbered_code, next_number, AreBefore};

    ghost Value = { Numbered };

    ghost coded = { numbered_code };

    ghost view = { λ a. record { writes = a.writes; next = next_number a.next } };

    ghost invariant = { λ a. AreBefore a.writes (next_number a.next) };
}

impl Drafts {
    pub(crate) fn new(alloc: Global, seed: Seed) -> Drafts
        ensures { result ≡ record { writes = map.empty; next = 0 } }
    {
        Drafts::starting_at(alloc, seed, 0)
    }

    // No write yet; the next one has this number.
    pub(crate) fn starting_at(alloc: Global, seed: Seed, next: u64) -> Drafts
        ensures { result ≡ record { writes = map.empty; next = next } }
    {
        Drafts {
            writes: DraftTable::new(alloc, seed),
            next: Some(next),
        }
    }

    pub(crate) fn len(&self) -> usize
        ensures { result ≡ map.len self.now.writes }
    {
        self.writes.len()
    }

    // The number of records of the writes of a shard's keys.
    pub(crate) fn shard_len(&self, shard: usize) -> usize
        requires { shard < 16 }
        ensures { result ≡ map.len (of_shard shard self.now.writes) }
    {
        self.writes.shard_len(shard)
    }

    pub(crate) fn get(&self, slot: u128, number: u64) -> Option<&Draft>
        ensures { option_copied result ≡ map.get self.now.writes number }
    {
        self.writes.get(slot, number)
    }

    // The number of the next write; 2^64 if all are used.
    pub(crate) fn next_number(&self) -> u128
        ensures { result ≡ self.now.next }
    {
        match self.next {
            Some(number) => u128::from(number),
            None => 1 << 64,
        }
    }

    // The number of the next write, if not all are used.
    pub(crate) fn next(&self) -> Option<u64>
        ensures value { IfSome result (λ n. n ≡ self.now.next) }
        ensures some { IsSome result ↔ (self.now.next < 2 ^ 64) }
    {
        Some(self.next?) // for the prover: a number that is named is known to have 64 bits
    }

    pub(crate) fn begin(&mut self, draft: Draft) -> Result<(), AllocError>
        requires { self.old.next < 2 ^ 64 }
        ensures unused { map.get self.old.writes self.old.next ≡ None }
        ensures ok { OnOk result (self.new
            ≡ record {
              writes = map.insert self.old.writes self.old.next draft;
              next = self.old.next + 1;
            }) }
        ensures err { OnErr result (self.new ≡ self.old) }
    {
        let Some(number) = self.next else {
            unreachable!()
        };
        self.writes.insert(number, draft)?;
        self.next = number.checked_add(1);
        Ok(())
    }

    // Undoes the begin of the last write, which has this number.
    pub(crate) fn take_back(&mut self, slot: u128, number: u64)
        requires { self.old.next ≡ number + 1 }
        ensures { self.new
            ≡ record {
              writes = map.remove self.old.writes (self.old.next - 1);
              next = self.old.next - 1;
            } }
    {
        self.next = Some(number);
        self.writes.remove(slot, number);
    }

    pub(crate) fn write(
        &mut self,
        alloc: Global,
        slot: u128,
        number: u64,
        bytes: Bytes,
        eof: bool,
    ) -> Result<(), AllocError>
        ensures ok { OnOk result (self.new
            ≡ record self.old {
              writes = wrote_on self.old.writes number bytes eof
                  (map.get self.old.writes number);
            }) }
        ensures err { OnErr result (self.new ≡ self.old) }
    {
        self.writes.write(alloc, slot, number, bytes, eof)
    }

    // Counts one more reader of a write, and returns its meta and its slot.
    pub(crate) fn follow(
        &mut self,
        alloc: Global,
        slot: u128,
        number: u64,
    ) -> Result<Option<(CacheMeta, u128)>, AllocError>
        ensures meta { IfOk result (λ m.
            m ≡ option_map (λ w. (w.meta, w.slot)) (map.get self.old.writes number)) }
        ensures ok { OnOk result (self.new
            ≡ record self.old {
              writes = followed_on self.old.writes number
                  (map.get self.old.writes number);
            }) }
        ensures something { OnErr result (IsSome (map.get self.old.writes number)) }
        ensures err { OnErr result (self.new ≡ self.old) }
    {
        self.writes.follow(alloc, slot, number)
    }

    // Counts one reader less.
    pub(crate) fn leave(&mut self, slot: u128, number: u64)
        ensures { self.new
            ≡ record self.old {
              writes = left_on self.old.writes number
                  (map.get self.old.writes number);
            } }
    {
        self.writes.leave(slot, number);
    }

    // Records that the handler of a write is gone.
    pub(crate) fn land(&mut self, slot: u128, number: u64)
        ensures { self.new
            ≡ record self.old {
              writes = grounded_on self.old.writes number
                  (map.get self.old.writes number);
            } }
    {
        self.writes.land(slot, number);
    }

    // Ends a write: its handler is gone. Returns its body, which shares its bytes; then its end is known.
    pub(crate) fn end(&mut self, alloc: Global, slot: u128, number: u64) -> Result<Body, AllocError>
        requires { IsSome (map.get self.old.writes number) }
        ensures body { IfOk result (λ b. IsBodyOf (map.get self.old.writes number) b) }
        ensures gone { self.new
            ≡ record self.old {
              writes = ended_on (is_ok result) self.old.writes number
                  (map.get self.old.writes number);
            } }
    {
        self.writes.end(alloc, slot, number)
    }
}
