//! The two queues of 2Q with ghosts: how 2Q goes.
ghost use Rattle.std.specs.Prelude.{◌≡◌, ◌≢◌, ◌+◌, ◌≤◌, ◌<◌, ◌^◌, None, [], true, false, length, OnOk, OnErr, IfOk};
ghost use Rattle.std.specs.Vec.{vec_capacity};
ghost use Rattle.pcache_evict.specs.declared.eviction.policy.EvictionPolicy.TheVariants.{TwoQueues};
ghost use Rattle.pcache_evict.specs.Tracked.{limits_of};
ghost use Rattle.pcache_policies.specs.Queue.{IsOnce, seen_of};
ghost use Rattle.pcache_policies.specs.Ring.{ring, all, chosen, SameEntries};
ghost use Rattle.pcache_policies.specs.S3Fifo.{is_ghost};
ghost use Rattle.pcache_policies.specs.TwoQueues.{entered, touched, MakesRoom, IsIncomingNext, IsMainNext};
ghost use Rattle.pcache_policies.specs.Reclaim.{shown, left_of, Leaves, Goes, Steps, Chooses};

use crate::discipline::Discipline;
use crate::ghosts::Ghosts;
use crate::queue::Seen;
use crate::ring::Ring;
use pcache_evict::eviction::CacheEntryKey;
use std::alloc::{AllocError, Global};
use std::hash::BuildHasher;
use std::marker::Model;

/// What a contract sees of the queues: a main one, one of new entries, and ghosts.
#[derive(Drop)]
pub struct MainAndIncoming;

impl Model for MainAndIncoming {
    ghost use Rattle.std.specs.Prelude.{[]};
    ghost use Rattle.pcache_policies.specs.TwoQueues.{TwoQueues, queues};

    ghost Value = { TwoQueues };

    ghost view = { λ _. queues [] [] [] };
}

/// The main queue (the entries ahead in the ring), the new entries (those that were passed), and the
/// keys of entries that went from the new ones (their ghosts).
///
/// An entry is added to the new ones, or to the main queue if its key was a ghost before room was made.
/// To make room, the oldest of the new entries goes if these weigh more than a quarter of the limit,
/// otherwise the oldest of the main queue does. A use of an entry of the main queue makes it the newest
/// there; a use of a new one changes nothing. The ghosts are at most half as many as the entries.
#[derive(Drop)]
pub struct Queues<S: BuildHasher> {
    pub(crate) ring: Ring<S>,
    pub(crate) ghosts: Ghosts<S>,
}

impl<S: BuildHasher + Copy + Drop> Discipline<S> for Queues<S> {
    ghost use Rattle.pcache_policies.specs.Reclaim.{shown, left_of};
    ghost use Rattle.pcache_policies.specs.TwoQueues.{two_queues_way};
    ghost use Rattle.std.proofs.Common.{ap, ◌++◌};
    ghost use Rattle.pcache_policies.specs.TwoQueues.{queues};

    type Order = MainAndIncoming;

    ghost way = { two_queues_way };

    ghost order = { λ q. shown q };

    ghost left = { λ q. left_of q };

    ghost leaving = { λ q. q.ring.leaving };

    ghost settled = { λ q e. ap (λ g. queues q.ring.ahead (g ++ q.ring.passed) q.ghosts) e };

    fn laws() {}

    fn new(alloc: Global, seed: S) -> Result<Self, AllocError> {
        Ok(Queues {
            ring: Ring::new(alloc, seed)?,
            ghosts: Ghosts::new(alloc, seed)?,
        })
    }

    fn len(&self) -> usize {
        self.ring.len()
    }

    fn weight(&self) -> u128 {
        self.ring.weight()
    }

    fn get(&self, item: &CacheEntryKey) -> Option<Seen> {
        self.ring.get(item)
    }

    fn copy_into(&self, list: &mut Vec<(CacheEntryKey, usize)>) -> Result<(), AllocError> {
        self.ring.copy_into(list)
    }

    fn set(&mut self, item: &CacheEntryKey, seen: Seen) {
        self.ring.set(item, seen);
    }

    fn remove(&mut self, item: &CacheEntryKey) {
        self.ring.remove(item);
    }

    fn note_use(&mut self, item: &CacheEntryKey, seen: Seen) {
        self.touch(item, seen);
    }

    fn readmit(&mut self, item: &CacheEntryKey, seen: Seen, size: usize) {
        let weight = size;
        self.touch(item, Seen { weight, ..seen });
    }

    fn knows(&self, item: &CacheEntryKey) -> bool {
        self.ghosts.has(item)
    }

    fn settle(&mut self) -> Result<(), AllocError> {
        self.ring.settle()
    }

    fn choose(
        &mut self,
        alloc: Global,
        size: usize,
        count: usize,
        limit: usize,
        watermark: Option<usize>,
    ) -> Result<Vec<CacheEntryKey>, AllocError> {
        self.ring.len(); // for the prover: its contract says that no entry occurs twice
        self.ring.settle()?;
        self.make_room(size, count, limit, watermark)?;
        Ok(Vec::with_capacity(alloc, self.ring.leaving_len() + 1)?)
    }

    fn has_room(&self, size: usize, limit: usize, watermark: Option<usize>) -> bool {
        self.ring.has_room(size, 1, limit, watermark)
    }

    fn enter(&mut self, item: CacheEntryKey, size: usize, known: bool) -> Result<(), AllocError> {
        if known {
            self.ghosts.forget(&item);
            self.ring.add_ahead(item, size)?;
            return Ok(());
        }
        // The new entries are the passed ones: what was chosen counts as passed if a call fails,
        // and the front of the main queue has to be in one place, so that a use needs no memory.
        self.ring.add_passed(item, size)?;
        Ok(())
    }

    fn chosen(&self) -> (u128, usize) {
        self.ring.chosen()
    }

    fn drain(&mut self, out: &mut Vec<CacheEntryKey>) {
        self.ring.drain(out);
    }
}

impl<S: BuildHasher + Copy + Drop> Queues<S> {
    // A use of an entry, which has this record then: in the main queue it becomes the newest.
    fn touch(&mut self, item: &CacheEntryKey, seen: Seen)
        ensures { shown self.new ≡ touched item.now seen (shown self.old) }
    {
        if self.ring.is_ahead(item) {
            self.ring.renew_ahead(item, seen);
            return;
        }
        self.ring.set(item, seen);
    }

    // Chooses entries to evict until `count` more entries of this total weight fit or no entry is
    // left.
    fn make_room(
        &mut self,
        size: usize,
        count: usize,
        limit: usize,
        watermark: Option<usize>,
    ) -> Result<(), AllocError>
        requires none { self.old.ring.leaving ≡ [] }
        requires few { count < 2 ^ 63 }
        ensures ok { OnOk result
            (Chooses (limits_of TwoQueues limit watermark) size count self.old self.new) }
        ensures same { SameEntries self.old.ring self.new.ring }
    {
        while !self.ring.has_room(size, count, limit, watermark) {
            if !self.step(limit)? {
                return Ok(());
            }
        }
        Ok(())
    }

    // Chooses one entry, and returns whether there was one.
    fn step(&mut self, limit: usize) -> Result<bool, AllocError>
        ensures ok { IfOk result (λ more. Steps limit self.old more self.new) }
        ensures err { OnErr result (self.new.ring ≡ self.old.ring) }
        ensures once { IsOnce (all self.old.ring) }
    {
        self.ring.len(); // for the prover: its contract says that no entry occurs twice
        if self.is_incoming_next(limit) {
            self.choose_incoming()?;
            return Ok(true);
        }
        let more = self.choose_main(limit)?;
        Ok(more)
    }

    // Whether the oldest new entry is the next.
    fn is_incoming_next(&self, limit: usize) -> bool
        ensures yes { result ≡ true → IsIncomingNext limit (left_of self.now) }
        ensures some { result ≡ true → self.now.ring.passed ≢ [] }
        ensures not { result ≡ false → IsMainNext limit (left_of self.now) }
        ensures none { result ≡ false → self.now.ring.ahead ≡ [] → self.now.ring.passed ≡ [] }
    {
        let (main, incoming) = self.ring.lens();
        if incoming == 0 {
            return false;
        }
        if main == 0 {
            return true;
        }
        self.ring.passed_weight().saturating_mul(4) > limit as u128
    }

    // The oldest new entry is chosen to go, and leaves its ghost.
    fn choose_incoming(&mut self) -> Result<(), AllocError>
        requires { self.old.ring.passed ≢ [] }
        ensures ok { OnOk result (Leaves self.old self.new) }
        ensures err { OnErr result (self.new.ring ≡ self.old.ring) }
    {
        let Some((key, seen)) = self.ring.oldest_passed()? else {
            return Ok(());
        };
        let copy = key.copied()?;
        self.ghosts.add_within(copy, self.ring.left_len() / 2)?;
        self.ring.choose_passed(key, seen)?;
        Ok(())
    }

    // The oldest entry of the main queue is chosen to go, if there is one.
    fn choose_main(&mut self, limit: usize) -> Result<bool, AllocError>
        requires next { IsMainNext limit (left_of self.old) }
        requires none { self.old.ring.ahead ≡ [] → self.old.ring.passed ≡ [] }
        ensures ok { IfOk result (λ more. Steps limit self.old more self.new) }
        ensures err { OnErr result (self.new.ring ≡ self.old.ring) }
    {
        let Some((key, seen)) = self.ring.oldest_ahead()? else {
            return Ok(false);
        };
        self.ring.choose_ahead(key, seen)?;
        Ok(true)
    }
}
