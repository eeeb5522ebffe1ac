//! A table of locks gets the outcome of a wait once.
ghost use Rattle.std.specs.Prelude.{Some};
ghost use Rattle.pcache_lock.specs.declared.lock.status.LockStatus.TheVariants.{GiveUp};

use super::*;
use pcache_base::fills::UnusableFills;
use pcache_base::poll::Poll;
use pcache_base::trace::Span;
use pcache_evict::eviction::simple_lru::Manager;
use pcache_lock::lock::{
    CacheKeyLock, CacheLock, LockStatus, Locked, ReadLock, WaitOutcome, WritePermit,
};
use std::cell::Cell;
use std::time::Duration;

/// A table of locks that counts the waits that it traced, and keeps how the last one ended.
#[derive(Drop)]
pub struct Tracing {
    locks: CacheLock,
    waits: Cell<u32>,
    last: Cell<Option<LockStatus>>,
}

impl Tracing {
    /// A table without locks, that traced no wait.
    pub fn new(alloc: Global) -> Tracing {
        Tracing {
            locks: CacheLock::new(alloc, Duration::from_secs(10)),
            waits: Cell::new(0),
            last: Cell::new(None),
        }
    }

    /// Tells how many waits were traced, and how the last one ended.
    pub fn tell(&self, told: &mut Told) {
        told.shown(&self.waits.get());
        told.say(", ");
        told.named(&self.last.get());
    }
}

impl CacheKeyLock for Tracing {
    ghost table = { λ t. t.locks.table };

    ghost past = { λ t. Some t.locks.past };

    ghost custom_status = { λ _ _. GiveUp };

    fn lock(
        &mut self,
        alloc: Global,
        key: &CacheKey,
        stale_writer: bool,
        now: Moment,
    ) -> Result<Locked> {
        self.locks.lock(alloc, key, stale_writer, now)
    }

    fn release(&mut self, key: &CacheKey, permit: WritePermit, reason: LockStatus) {
        self.locks.release(key, permit, reason);
    }

    fn drop_lock(&mut self, locked: Locked) {
        self.locks.drop_lock(locked);
    }

    fn poll_wait(
        &mut self,
        alloc: Global,
        read: &mut ReadLock,
        fills: Option<&UnusableFills>,
        now: Moment,
    ) -> Result<Poll<WaitOutcome>> {
        self.locks.poll_wait(alloc, read, fills, now)
    }

    fn lock_status(&self, read: &ReadLock, now: Moment) -> LockStatus {
        self.locks.lock_status(read, now)
    }

    fn publish(&mut self, alloc: Global, permit: &WritePermit, tokens: &[u64]) -> Result<()> {
        self.locks.publish(alloc, permit, tokens)
    }

    fn custom_lock_status(&self, custom_no_cache: &'static str) -> LockStatus {
        self.locks.custom_lock_status(custom_no_cache)
    }

    fn trace_lock_wait(&self, _span: &mut Span, _read: &ReadLock, lock_status: LockStatus) {
        self.waits.set(self.waits.get().saturating_add(1));
        self.last.set(Some(lock_status));
    }
}

// A wait that goes on is not traced, and one whose permit was let go is, as dangling.
const TRACED: &str = "
    1 opens-locking a
    1 looks at 1 -> none
    2 opens-locking a
    2 looks at 1 -> none
    2 waits at 2 -> pending
    traced -> 0, None
    1 ends
    2 waits at 2 -> Dangling
    traced -> 1, Some(Dangling)";

#[test]
fn a_wait_that_is_over_is_traced_once(rt: HostRuntime) {
    let alloc = rt.alloc();
    run(&rt, alloc, Manager::new(alloc, Seed::fixed(), 9), TRACED);
}
