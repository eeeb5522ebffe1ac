//! An eviction manager that evicts entries that were not used since its hand last passed them:
//! SIEVE (Zhang, Yang, Yue, Vigfusson, Rashmi, NSDI 2024).

use crate::discipline::Discipline;
use crate::manager;
use crate::queue::Seen;
use crate::ring::Ring;
use pcache_base::seed::Seed;
use pcache_evict::eviction::CacheEntryKey;
use std::alloc::{AllocError, Global};
use std::hash::BuildHasher;
use std::marker::Model;

/// What a contract sees of the queue: the entries from the newest to the oldest, and a hand.
#[derive(Drop)]
pub struct ListWithHand;

impl Model for ListWithHand {
    ghost use Rattle.std.specs.Prelude.{[]};
    ghost use Rattle.pcache_policies.specs.Sieve.{Sieve, sieve};

    ghost Value = { Sieve };

    ghost view = { λ _. sieve [] [] };
}

/// Entries from the newest to the oldest, and a hand.
///
/// A use of an entry sets its bit, and moves nothing. To make room, the hand goes from the oldest entry
/// to newer ones and round again, clears the bits that are set, and chooses the entries whose bit is
/// clear. A new entry is added as the newest; a bit that the hand clears was set by a use.
#[derive(Drop)]
pub struct Hand<S: BuildHasher> {
    ring: Ring<S>,
}

impl<S: BuildHasher + Copy + Drop> Discipline<S> for Hand<S> {
    ghost use Rattle.pcache_policies.specs.Ring.{shown, left_of};
    ghost use Rattle.pcache_policies.specs.Sieve.{sieve_way};
    ghost use Rattle.std.proofs.Common.{ap, ◌++◌};
    ghost use Rattle.pcache_policies.specs.Sieve.{sieve};

    type Order = ListWithHand;

    ghost way = { sieve_way };

    ghost order = { λ h. shown h.ring };

    ghost left = { λ h. left_of h.ring };

    ghost leaving = { λ h. h.ring.leaving };

    ghost settled = { λ h e. ap (λ g. sieve h.ring.ahead (g ++ h.ring.passed)) e };

    fn laws() {}

    fn new(alloc: Global, seed: S) -> Result<Self, AllocError> {
        Ok(Hand {
            ring: Ring::new(alloc, seed)?,
        })
    }

    fn len(&self) -> usize {
        self.ring.len()
    }

    fn weight(&self) -> u128 {
        self.ring.weight()
    }

    fn get(&self, item: &CacheEntryKey) -> Option<Seen> {
        self.ring.get(item)
    }

    fn copy_into(&self, list: &mut Vec<(CacheEntryKey, usize)>) -> Result<(), AllocError> {
        self.ring.copy_into(list)
    }

    fn set(&mut self, item: &CacheEntryKey, seen: Seen) {
        self.ring.set(item, seen);
    }

    fn remove(&mut self, item: &CacheEntryKey) {
        self.ring.remove(item);
    }

    fn note_use(&mut self, item: &CacheEntryKey, seen: Seen) {
        if seen.uses == 0 {
            self.ring.set(item, Seen::used(seen.weight));
        }
    }

    fn readmit(&mut self, item: &CacheEntryKey, _seen: Seen, size: usize) {
        self.ring.set(item, Seen::used(size));
    }

    fn knows(&self, _item: &CacheEntryKey) -> bool {
        false
    }

    fn settle(&mut self) -> Result<(), AllocError> {
        self.ring.settle()
    }

    fn choose(
        &mut self,
        alloc: Global,
        size: usize,
        count: usize,
        limit: usize,
        watermark: Option<usize>,
    ) -> Result<Vec<CacheEntryKey>, AllocError> {
        self.ring.len(); // for the prover: its contract says that no entry occurs twice
        let out = self.ring.prepare(alloc, size, count, limit, watermark)?;
        Ok(out)
    }

    fn has_room(&self, size: usize, limit: usize, watermark: Option<usize>) -> bool {
        self.ring.has_room(size, 1, limit, watermark)
    }

    fn enter(&mut self, item: CacheEntryKey, size: usize, _known: bool) -> Result<(), AllocError> {
        self.ring.enter(item, size)
    }

    fn chosen(&self) -> (u128, usize) {
        self.ring.chosen()
    }

    fn drain(&mut self, out: &mut Vec<CacheEntryKey>) {
        self.ring.drain(out);
    }
}

/// A list with a hand that passes entries that were used, and evicts those that were not.
pub type Manager<S = Seed> = manager::Manager<Hand<S>, S>;
