//! An eviction manager with one queue, whose oldest entry goes first. What a use of an entry makes of
//! it is for the policy to say: nothing (`fifo`), or that it is spared once (`clock`).
ghost use Rattle.std.specs.Prelude.{◌≡◌};

use crate::discipline::Discipline;
use crate::manager;
use crate::queue::{Queue, Seen};
use crate::ring::Ring;
use pcache_base::seed::Seed;
use pcache_evict::eviction::CacheEntryKey;
use std::alloc::{AllocError, Global};
use std::hash::BuildHasher;
use std::marker::PhantomData;

/// What a use of an entry makes of it.
pub trait Uses: Drop {
    ghost use Rattle.pcache_evict.specs.declared.eviction.policy.EvictionPolicy.{EvictionPolicy};
    ghost use Rattle.pcache_policies.specs.declared.queue.Seen.{Seen};

    /// The name of the policy.
    ghost policy: { EvictionPolicy };

    /// What is known of an entry after a use.
    ghost used: { Seen → Seen };

    /// What is known of an entry after a use.
    fn after_use(seen: Seen) -> Seen
        ensures { result ≡ used seen };

    /// A use leaves the weight.
    ghost weighs: { (v : Seen) → (used v).weight ≡ v.weight };
}

/// One queue, from the newest entry to the oldest: a ring whose hand is at the oldest, since new
/// entries are added behind it.
///
/// To make room, the oldest entry is chosen to go, unless it was used: then its bit is cleared, and it
/// becomes the newest. A use moves nothing; one that is spared was used.
#[derive(Drop)]
pub struct Turns<U: Uses, S: BuildHasher> {
    ring: Ring<S>,
    uses: PhantomData<U>,
}

impl<U: Uses, S: BuildHasher + Copy + Drop> Discipline<S> for Turns<U, S> {
    ghost use Rattle.pcache_policies.specs.Ring.{in_turn, shown, left_of};
    ghost use Rattle.pcache_policies.specs.OneQueue.{queue_way};
    ghost use Rattle.std.proofs.Common.{ap, ◌++◌};

    type Order = Queue<S>;

    ghost way = { queue_way U.policy U.used };

    ghost order = { λ t. in_turn (shown t.ring) };

    ghost left = { λ t. in_turn (left_of t.ring) };

    ghost leaving = { λ t. t.ring.leaving };

    ghost settled = { λ t e. ap (λ g. (g ++ t.ring.passed) ++ t.ring.ahead) e };

    fn laws() {}

    fn new(alloc: Global, seed: S) -> Result<Self, AllocError> {
        Ok(Turns {
            ring: Ring::new(alloc, seed)?,
            uses: PhantomData,
        })
    }

    fn len(&self) -> usize {
        self.ring.len()
    }

    fn weight(&self) -> u128 {
        self.ring.weight()
    }

    fn get(&self, item: &CacheEntryKey) -> Option<Seen> {
        self.ring.get(item)
    }

    fn copy_into(&self, list: &mut Vec<(CacheEntryKey, usize)>) -> Result<(), AllocError> {
        self.ring.copy_in_turn(list)
    }

    fn set(&mut self, item: &CacheEntryKey, seen: Seen) {
        self.ring.set(item, seen);
    }

    fn remove(&mut self, item: &CacheEntryKey) {
        self.ring.remove(item);
    }

    fn note_use(&mut self, item: &CacheEntryKey, seen: Seen) {
        self.ring.set(item, U::after_use(seen));
    }

    fn readmit(&mut self, item: &CacheEntryKey, seen: Seen, size: usize) {
        let weight = size;
        self.ring.set(item, U::after_use(Seen { weight, ..seen }));
    }

    fn knows(&self, _item: &CacheEntryKey) -> bool {
        false
    }

    fn settle(&mut self) -> Result<(), AllocError> {
        self.ring.settle()
    }

    fn choose(
        &mut self,
        alloc: Global,
        size: usize,
        count: usize,
        limit: usize,
        watermark: Option<usize>,
    ) -> Result<Vec<CacheEntryKey>, AllocError> {
        self.ring.len(); // for the prover: its contract says that no entry occurs twice
        let out = self.ring.prepare(alloc, size, count, limit, watermark);
        self.ring.leaving_len(); // for the prover: as above
        out
    }

    fn has_room(&self, size: usize, limit: usize, watermark: Option<usize>) -> bool {
        self.ring.has_room(size, 1, limit, watermark)
    }

    fn enter(&mut self, item: CacheEntryKey, size: usize, _known: bool) -> Result<(), AllocError> {
        self.ring.add_passed(item, size)
    }

    fn chosen(&self) -> (u128, usize) {
        self.ring.chosen()
    }

    fn drain(&mut self, out: &mut Vec<CacheEntryKey>) {
        self.ring.drain(out);
    }
}

/// A queue whose oldest entry goes, unless the policy spares it.
pub type Manager<U, S = Seed> = manager::Manager<Turns<U, S>, S>;
