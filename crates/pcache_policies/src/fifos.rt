//! A small and a main queue, and ghosts: how S3-FIFO goes.
ghost use Rattle.std.specs.Prelude.{◌≡◌, ◌≢◌, ◌+◌, ◌≤◌, ◌<◌, ◌^◌, Some, None, ◌∷◌, [], true, false, length, OnOk, OnErr, IfOk};
ghost use Rattle.std.specs.Vec.{vec_capacity};
ghost use Rattle.pcache_evict.specs.declared.eviction.policy.EvictionPolicy.TheVariants.{S3Fifo};
ghost use Rattle.pcache_evict.specs.Tracked.{limits_of};
ghost use Rattle.pcache_policies.specs.Queue.{IsOnce, seen_of};
ghost use Rattle.pcache_policies.specs.Ring.{ring, all, chosen, SameEntries};
ghost use Rattle.pcache_policies.specs.S3Fifo.{entered, MakesRoom, IsSmallNext, IsMainNext};
ghost use Rattle.pcache_policies.specs.Fifos.{shown, left_of, LooksAtSmall, LooksAtMain, Steps, Chooses};

use crate::discipline::Discipline;
use crate::ghosts::Ghosts;
use crate::queue::{MOST_USES, Seen};
use crate::ring::Ring;
use pcache_evict::eviction::CacheEntryKey;
use std::alloc::{AllocError, Global};
use std::hash::BuildHasher;
use std::marker::Model;

/// What a contract sees of the queues: a small and a main one, and ghosts.
#[derive(Drop)]
pub struct SmallAndMain;

impl Model for SmallAndMain {
    ghost use Rattle.std.specs.Prelude.{[]};
    ghost use Rattle.pcache_policies.specs.S3Fifo.{Fifos, fifos};

    ghost Value = { Fifos };

    ghost view = { λ _. fifos [] [] [] };
}

/// A small queue (the entries ahead in the ring), a main queue (those that were passed), and the keys
/// of entries that went from the small one (their ghosts).
///
/// A use of an entry is counted, up to three, and moves nothing. A new entry is added to the small
/// queue, or to the main one if its key is a ghost. To make room, the small queue looks at its oldest
/// entry if it has a tenth of the limit, otherwise the main one does. An entry of the small queue that
/// was used more than once moves to the main queue, an entry of the main queue that was used becomes
/// its newest with one use less, and others are chosen to go; the uses of those that stay are used up.
#[derive(Drop)]
pub struct Fifos<S: BuildHasher> {
    pub(crate) ring: Ring<S>,
    pub(crate) ghosts: Ghosts<S>,
}

impl<S: BuildHasher + Copy + Drop> Discipline<S> for Fifos<S> {
    ghost use Rattle.pcache_policies.specs.Fifos.{shown, left_of};
    ghost use Rattle.pcache_policies.specs.S3Fifo.{s3_fifo_way};
    ghost use Rattle.std.proofs.Common.{ap, ◌++◌};
    ghost use Rattle.pcache_policies.specs.S3Fifo.{fifos};

    type Order = SmallAndMain;

    ghost way = { s3_fifo_way };

    ghost order = { λ f. shown f };

    ghost left = { λ f. left_of f };

    ghost leaving = { λ f. f.ring.leaving };

    ghost settled = { λ f e. ap (λ g. fifos f.ring.ahead (g ++ f.ring.passed) f.ghosts) e };

    fn laws() {}

    fn new(alloc: Global, seed: S) -> Result<Self, AllocError> {
        Ok(Fifos {
            ring: Ring::new(alloc, seed)?,
            ghosts: Ghosts::new(alloc, seed)?,
        })
    }

    fn len(&self) -> usize {
        self.ring.len()
    }

    fn weight(&self) -> u128 {
        self.ring.weight()
    }

    fn get(&self, item: &CacheEntryKey) -> Option<Seen> {
        self.ring.get(item)
    }

    fn copy_into(&self, list: &mut Vec<(CacheEntryKey, usize)>) -> Result<(), AllocError> {
        self.ring.copy_into(list)
    }

    fn set(&mut self, item: &CacheEntryKey, seen: Seen) {
        self.ring.set(item, seen);
    }

    fn remove(&mut self, item: &CacheEntryKey) {
        self.ring.remove(item);
    }

    fn note_use(&mut self, item: &CacheEntryKey, seen: Seen) {
        // Nothing at all changes then, and a readmission sets the record: so a use and a
        // readmission are two parts of a way.
        if seen.uses != MOST_USES {
            self.ring.set(item, seen.used_again(seen.weight));
        }
    }

    fn readmit(&mut self, item: &CacheEntryKey, seen: Seen, size: usize) {
        self.ring.set(item, seen.used_again(size));
    }

    fn knows(&self, _item: &CacheEntryKey) -> bool {
        false
    }

    fn settle(&mut self) -> Result<(), AllocError> {
        self.ring.settle()
    }

    fn choose(
        &mut self,
        alloc: Global,
        size: usize,
        count: usize,
        limit: usize,
        watermark: Option<usize>,
    ) -> Result<Vec<CacheEntryKey>, AllocError> {
        self.ring.len(); // for the prover: its contract says that no entry occurs twice
        self.ring.settle()?;
        self.make_room(size, count, limit, watermark)?;
        Ok(Vec::with_capacity(alloc, self.ring.leaving_len() + 1)?)
    }

    fn has_room(&self, size: usize, limit: usize, watermark: Option<usize>) -> bool {
        self.ring.has_room(size, 1, limit, watermark)
    }

    fn enter(&mut self, item: CacheEntryKey, size: usize, _known: bool) -> Result<(), AllocError> {
        // After room was made, as in the paper.
        if self.ghosts.has(&item) {
            self.ghosts.forget(&item);
            self.ring.add_passed(item, size)?;
            return Ok(());
        }
        self.ring.add_ahead(item, size)?;
        Ok(())
    }

    fn chosen(&self) -> (u128, usize) {
        self.ring.chosen()
    }

    fn drain(&mut self, out: &mut Vec<CacheEntryKey>) {
        self.ring.drain(out);
    }
}

impl<S: BuildHasher + Copy + Drop> Fifos<S> {
    // Chooses entries to evict until `count` more entries of this total weight fit or no entry is
    // left.
    fn make_room(
        &mut self,
        size: usize,
        count: usize,
        limit: usize,
        watermark: Option<usize>,
    ) -> Result<(), AllocError>
        requires none { self.old.ring.leaving ≡ [] }
        requires few { count < 2 ^ 63 }
        ensures ok { OnOk result
            (Chooses (limits_of S3Fifo limit watermark) size count self.old self.new) }
        ensures same { SameEntries self.old.ring self.new.ring }
    {
        while !self.ring.has_room(size, count, limit, watermark) {
            if !self.step(limit)? {
                return Ok(());
            }
        }
        Ok(())
    }

    // Looks at one entry, and returns whether there was one.
    fn step(&mut self, limit: usize) -> Result<bool, AllocError>
        ensures ok { IfOk result (λ more. Steps limit self.old more self.new) }
        ensures err { OnErr result (self.new.ring ≡ self.old.ring) }
        ensures once { IsOnce (all self.old.ring) }
    {
        self.ring.len(); // for the prover: its contract says that no entry occurs twice
        if self.is_small_next(limit) {
            self.look_at_small()?;
            return Ok(true);
        }
        let more = self.look_at_main()?;
        Ok(more)
    }

    // Whether the oldest entry of the small queue is the next.
    fn is_small_next(&self, limit: usize) -> bool
        ensures yes { result ≡ true → IsSmallNext limit (left_of self.now) }
        ensures some { result ≡ true → self.now.ring.ahead ≢ [] }
        ensures not { result ≡ false → IsMainNext limit (left_of self.now) }
        ensures none { result ≡ false → self.now.ring.passed ≡ [] → self.now.ring.ahead ≡ [] }
    {
        let (small, main) = self.ring.lens();
        if small == 0 {
            return false;
        }
        if main == 0 {
            return true;
        }
        self.ring.ahead_weight().saturating_mul(10) >= limit as u128
    }

    // The oldest entry of the small queue moves to the main one, or is chosen to go.
    fn look_at_small(&mut self) -> Result<(), AllocError>
        requires { self.old.ring.ahead ≢ [] }
        ensures ok { OnOk result (LooksAtSmall self.old self.new) }
        ensures err { OnErr result (self.new.ring ≡ self.old.ring) }
    {
        let Some((key, seen)) = self.ring.oldest_ahead()? else {
            return Ok(());
        };
        if seen.uses > 1 {
            self.ring.pass_unused(key, seen)?;
            return Ok(());
        }
        let copy = key.copied()?;
        self.ghosts.add(copy, self.ring.left_len())?;
        self.ring.choose_ahead(key, seen)?;
        Ok(())
    }

    // The oldest entry of the main queue becomes its newest, or is chosen to go.
    fn look_at_main(&mut self) -> Result<bool, AllocError>
        ensures ok { IfOk result (λ more. LooksAtMain self.old more self.new) }
        ensures err { OnErr result (self.new.ring ≡ self.old.ring) }
    {
        let Some((key, seen)) = self.ring.oldest_passed()? else {
            return Ok(false);
        };
        if seen.uses > 0 {
            let after = Seen {
                uses: seen.uses - 1,
                ..seen
            };
            self.ring.pass_again(&key, seen, after);
            return Ok(true);
        }
        self.ring.choose_passed(key, seen)?;
        Ok(true)
    }
}
