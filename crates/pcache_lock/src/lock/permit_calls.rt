//! Calls of permits, read locks and stubs that borrow their table.
ghost use Rattle.std.specs.Prelude.{◌≡◌, ◌∷◌, [], IfErr, IfOk, IsOk, None, OnErr, OnOk, Some};
ghost use Rattle.std.specs.FinMap.{get};
ghost use Rattle.pcache_base.specs.declared.error.ErrorType.TheVariants.{OutOfMemory};
ghost use Rattle.pcache_lock.specs.Deeds.{Published, ReadLocked, Unlocked, asked_again, noted, tells_old};
ghost use Rattle.pcache_lock.specs.Locks.{locked_at, status_kept, unlocked, with_read_lock};
ghost use Rattle.pcache_lock.specs.Statuses.{IsReason};
ghost use Rattle.pcache_lock.specs.Waiting.{after_poll, expired_at, polled, published, reader_polled, status_seen};

use crate::lock::CacheKeyLock;
use crate::lock::cache_lock::CacheLock;
use crate::lock::outcome::WaitOutcome;
use crate::lock::permit::{LockStub, ReadLock, WritePermit};
use crate::lock::status::LockStatus;
use pcache_base::error::Result;
use pcache_base::fills::UnusableFills;
use pcache_base::moment::Moment;
use pcache_base::poll::Poll;
use std::alloc::Global;

impl WritePermit {
    /// Sets the status with which the fill ended, before the permit itself is spent. The permit no
    /// longer waits then, but its lock remains the current one of its key until it is spent: a
    /// request gets a read lock on it, although none waits.
    pub fn unlock(&mut self, lock: &mut CacheLock, reason: LockStatus)
        requires { IsReason reason }
        ensures table { lock.new.table ≡ unlocked lock.old.table self.old.number reason }
        ensures past { lock.new.past ≡ Unlocked self.old.number reason ∷ lock.old.past }
        ensures same { self.new ≡ self.old }
    {
        lock.unlock(self.number(), reason);
    }

    /// The status of its lock.
    pub fn lock_status(&self, lock: &CacheLock) -> LockStatus
        ensures { result ≡ status_kept (get lock.now.table.cores self.now.number) }
    {
        match lock.core(self.number()) {
            Some(core) => core.lock_status(),
            None => LockStatus::Dangling,
        }
    }

    /// Publishes tokens of what its holder found out about the fill. They replace the current
    /// publication.
    ///
    /// Fails only when memory runs out, and then changes nothing. An empty list clears the
    /// publication, which never fails.
    pub fn publish<L: CacheKeyLock>(
        &self,
        alloc: Global,
        lock: &mut L,
        tokens: &[u64],
    ) -> Result<()>
        ensures ok { OnOk result (L.table lock.new
            ≡ published (L.table lock.old) self.now.number tokens.now) }
        ensures past { OnOk result (L.past lock.new
            ≡ noted (Published self.now.number tokens.now) (L.past lock.old)) }
        ensures clears { tokens.now ≡ [] → IsOk result }
        ensures err { OnErr result (L.table lock.new ≡ L.table lock.old) }
        ensures same_past { OnErr result (L.past lock.new ≡ L.past lock.old) }
        ensures kind { IfErr result (λ e. e ≡ OutOfMemory) }
    {
        lock.publish(alloc, self, tokens)
    }
}

impl ReadLock {
    /// Asks whether the wait is over, without regard to publications.
    pub fn wait<L: CacheKeyLock>(
        &mut self,
        alloc: Global,
        lock: &mut L,
        now: Moment,
    ) -> Poll<WaitOutcome>
        ensures answer { result
            ≡ polled now None self.old.watch (get (L.table lock.old).cores self.old.number) }
        ensures read_lock { self.new
            ≡ reader_polled now None self.old (get (L.table lock.old).cores self.old.number) }
        ensures table { L.table lock.new
            ≡ after_poll (L.table lock.old) now self.old.number
            (get (L.table lock.old).cores self.old.number) }
        ensures past { L.past lock.new
            ≡ noted (asked_again self.old.number now (tells_old result)) (L.past lock.old) }
    {
        match lock.poll_wait(alloc, self, None, now) {
            Ok(answer) => answer,
            Err(_) => unreachable!(),
        }
    }

    /// Asks whether the wait is over, or its writer published a fill that the reader cannot use.
    ///
    /// Fails only when memory runs out, and then changes nothing.
    pub fn wait_unless_published<L: CacheKeyLock>(
        &mut self,
        alloc: Global,
        lock: &mut L,
        unusable: &UnusableFills,
        now: Moment,
    ) -> Result<Poll<WaitOutcome>>
        ensures answer { IfOk result (λ p. p
            ≡ polled now (Some unusable.now) self.old.watch
            (get (L.table lock.old).cores self.old.number)) }
        ensures read_lock { OnOk result (self.new
            ≡ reader_polled now (Some unusable.now) self.old
            (get (L.table lock.old).cores self.old.number)) }
        ensures ok { OnOk result (L.table lock.new
            ≡ after_poll (L.table lock.old) now self.old.number
            (get (L.table lock.old).cores self.old.number)) }
        ensures past { IfOk result (λ p. L.past lock.new
            ≡ noted (asked_again self.old.number now (tells_old p)) (L.past lock.old)) }
        ensures err { OnErr result (L.table lock.new ≡ L.table lock.old) }
        ensures same_past { OnErr result (L.past lock.new ≡ L.past lock.old) }
        ensures same_read_lock { OnErr result (self.new ≡ self.old) }
        ensures kind { IfErr result (λ e. e ≡ OutOfMemory) }
    {
        lock.poll_wait(alloc, self, Some(unusable), now)
    }

    /// Whether the permit that it waits for is still held, and was not unlocked.
    pub fn locked(&self, lock: &CacheLock) -> bool
        ensures { result ≡ locked_at (get lock.now.table.cores self.now.number) }
    {
        match lock.core(self.number()) {
            Some(core) => core.locked(),
            None => false,
        }
    }

    /// Whether that permit has been held for too long at this moment, whether or not a poll found
    /// that.
    pub fn expired(&self, lock: &CacheLock, now: Moment) -> bool
        ensures { result ≡ expired_at now (get lock.now.table.cores self.now.number) }
    {
        match lock.core(self.number()) {
            Some(core) => core.expired(now),
            None => false,
        }
    }

    /// The status of the lock: too old as soon as that moment has come.
    pub fn lock_status<L: CacheKeyLock>(&self, lock: &L, now: Moment) -> LockStatus
        ensures { result ≡ status_seen now (get (L.table lock.now).cores self.now.number) }
    {
        lock.lock_status(self, now)
    }
}

impl LockStub {
    /// One more read lock on its lock.
    pub fn read_lock(&self, lock: &mut CacheLock) -> ReadLock
        ensures reader { result ≡ record { number = self.now; watch = None } }
        ensures table { lock.new.table
            ≡ with_read_lock lock.old.table self.now (get lock.old.table.cores self.now) }
        ensures past { lock.new.past ≡ ReadLocked self.now ∷ lock.old.past }
    {
        lock.read_lock(self.number())
    }
}
