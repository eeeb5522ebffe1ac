//! The table of locks, which knows its own past.
ghost use Rattle.std.specs.Prelude.{option_copied, ◌≡◌, ◌∷◌, IfErr, IfOk, IsOk, IsSome, OnErr, OnOk, []};
ghost use Rattle.std.specs.Duration.{as_nanos};
ghost use Rattle.std.specs.FinMap as map;
ghost use Rattle.pcache_base.specs.declared.error.ErrorType.TheVariants.{OutOfMemory};
ghost use Rattle.pcache_base.specs.Key.{slot};
ghost use Rattle.pcache_lock.specs.Deeds.{tells_old};
ghost use Rattle.pcache_lock.specs.Locks.{MayFailLock, after_request, holder, lock_given, no_locks, no_locks_from, released, unlocked, with_free_permit, with_read_lock};
ghost use Rattle.pcache_lock.specs.Statuses.{IsReason};

use crate::lock::CacheKeyLock;
use crate::lock::bare::BareLock;
use crate::lock::lock_core::LockCore;
use crate::lock::outcome::WaitOutcome;
use crate::lock::past::{Note, Past};
use crate::lock::permit::{LockStub, Locked, ReadLock, WritePermit};
use crate::lock::status::LockStatus;
use pcache_base::error::Result;
use pcache_base::fills::UnusableFills;
use pcache_base::key::{CacheHashKey, CacheKey};
use pcache_base::moment::Moment;
use pcache_base::poll::Poll;
use std::alloc::Global;
use std::marker::Model;
use std::time::Duration;

/// A table of locks in memory, which knows its own past: a contract sees it as the record `Known` of
/// the locks and of all that was done to them. The past stands in proofs alone, and takes no memory.
///
/// That the table is what its past made of an empty one is the type's invariant, so the laws of
/// [`laws`](crate::lock::laws) on pasts hold of each table at all times.
#[derive(Drop)]
pub struct CacheLock {
    bare: BareLock,
    past: Past,
}

impl Model for CacheLock {
    ghost use Rattle.pcache_lock.specs.Past.{Known, IsPastOf};
    ghost use Rattle.pcache_lock.specs.PastCode.{known_code};

    ghost Value = { Known };

    ghost coded = { known_code };

    ghost view = { λ a. record { table = a.bare; past = a.past.deeds } };

    // Of a table and its past side by side: in one struct the past would be one deed behind at the
    // end of each helper that changes a field.
    ghost invariant = { λ a. IsPastOf a.bare a.past.deeds };
}

// Whether a poll returned that the permit is too old.
fn tells_old(answer: &Poll<WaitOutcome>) -> bool
    ensures { result ≡ tells_old answer.now }
{
    matches!(answer, Poll::Ready(WaitOutcome::AgeTimeout))
}

impl CacheLock {
    ghost use Rattle.pcache_lock.specs.Deeds.{Made, ReadLocked, Unlocked};
    ghost use Rattle.pcache_lock.specs.PastLaws.{AtMostOneWaits, GivesByPast, OneFetchAtATime, UnlocksNone};

    /// A table with no lock, whose permits are too old after `age_timeout`.
    pub fn new(alloc: Global, age_timeout: Duration) -> CacheLock
        ensures table { result.table ≡ no_locks (as_nanos age_timeout) }
        ensures past { result.past ≡ [] }
    {
        CacheLock {
            bare: BareLock::new(alloc, age_timeout),
            past: Past::new(),
        }
    }

    /// A table with no lock whose next permit has this number, so that a caller can try the last numbers.
    pub fn starting_at(alloc: Global, age_timeout: Duration, next: u128) -> CacheLock
        ensures table { result.table ≡ no_locks_from next (as_nanos age_timeout) }
        ensures past { result.past ≡ [] }
    {
        CacheLock {
            bare: BareLock::starting_at(alloc, age_timeout, next),
            past: Past::new(),
        }
    }

    /// A table with no lock, in a box. Fails only when memory runs out.
    pub fn new_boxed(alloc: Global, age_timeout: Duration) -> Result<Box<CacheLock>>
        ensures made { IfOk result (λ b. b.value.table ≡ no_locks (as_nanos age_timeout)) }
        ensures past { IfOk result (λ b. b.value.past ≡ []) }
        ensures kind { IfErr result (λ e. e ≡ OutOfMemory) }
    {
        Ok(Box::new(alloc, CacheLock::new(alloc, age_timeout))?)
    }

    /// What holds of each table of locks at all times:
    ///
    /// - `gives`: a request for a key's lock gets the permit exactly when none waits for that key,
    ///   that is, none was given for it and not yet released, let go or found too old; otherwise it
    ///   gets a read lock on the one that waits. This is said of a table in whose past no permit was
    ///   unlocked while it was held ([`WritePermit::unlock`]).
    /// - `one`: at most one permit of a key waits.
    /// - `fetches`: one fetch at a time. Of two permits that were given for one key the first ended
    ///   before the second was given.
    pub fn headline(&self)
        ensures gives { UnlocksNone self.now.past → GivesByPast self.now.table self.now.past }
        ensures one { AtMostOneWaits self.now.past }
        ensures fetches { OneFetchAtATime self.now.past }
    {
        let _ = &self.past;
    }

    /// What is known of a lock, while its permit or a read lock names it.
    pub fn core(&self, number: u64) -> Option<&LockCore>
        ensures { option_copied result ≡ map.get self.now.table.cores number }
    {
        self.bare.core(number)
    }

    /// The current entry of a key.
    pub fn stub(&self, key: &CacheKey) -> Option<LockStub>
        ensures { result ≡ map.get self.now.table.current (slot key.now) }
    {
        self.bare.stub(key)
    }

    /// A permit for no key, with an age limit of its own.
    ///
    /// Fails when memory runs out, or if all 64-bit numbers of locks are used, and then changes
    /// nothing.
    pub fn new_permit(
        &mut self,
        alloc: Global,
        age_timeout: Duration,
        stale_writer: bool,
        now: Moment,
    ) -> Result<(WritePermit, LockStub)>
        ensures permit { IfOk result (λ p.
            p.0 ≡ record { number = self.old.table.next; stale_writer = stale_writer }) }
        ensures stub { IfOk result (λ p. p.1 ≡ self.old.table.next) }
        ensures ok { OnOk result (self.new.table
            ≡ with_free_permit self.old.table (as_nanos age_timeout) stale_writer now) }
        ensures past { OnOk result (self.new.past
            ≡ Made self.old.table.next (as_nanos age_timeout) stale_writer now ∷ self.old.past) }
        ensures err { OnErr result (self.new ≡ self.old) }
        ensures kind { IfErr result (λ e. MayFailLock self.old.table e) }
    {
        let (permit, stub) = self.bare.new_permit(alloc, age_timeout, stale_writer, now)?;
        self.past = self.past.then(&Note::Made {
            number: permit.number(),
            age_timeout,
            stale_writer,
            now,
        });
        Ok((permit, stub))
    }

    // Gives one more read lock on a lock.
    pub(super) fn read_lock(&mut self, number: u64) -> ReadLock
        ensures reader { result ≡ record { number = number; watch = None } }
        ensures table { self.new.table
            ≡ with_read_lock self.old.table number (map.get self.old.table.cores number) }
        ensures past { self.new.past ≡ ReadLocked number ∷ self.old.past }
    {
        let read = self.bare.read_lock(number);
        self.past = self.past.then(&Note::ReadLocked(number));
        read
    }

    // Sets the status with which a lock ended.
    pub(super) fn unlock(&mut self, number: u64, reason: LockStatus)
        requires { IsReason reason }
        ensures table { self.new.table ≡ unlocked self.old.table number reason }
        ensures past { self.new.past ≡ Unlocked number reason ∷ self.old.past }
    {
        self.bare.unlock(number, reason);
        self.past = self.past.then(&Note::Unlocked { number, reason });
    }
}

impl CacheKeyLock for CacheLock {
    ghost use Rattle.std.specs.Prelude.{Some};
    ghost use Rattle.pcache_lock.specs.declared.lock.status.LockStatus.TheVariants.{GiveUp};

    ghost table = { λ t. t.table };

    ghost past = { λ t. Some t.past };

    ghost custom_status = { λ _ _. GiveUp };

    fn lock(
        &mut self,
        alloc: Global,
        key: &CacheKey,
        stale_writer: bool,
        now: Moment,
    ) -> Result<Locked> {
        let given = self.bare.lock(alloc, key, stale_writer, now)?;
        self.past = self.past.then(&Note::Asked {
            slot: key.slot(),
            stale_writer,
            now,
            number: given.number(),
            is_permit: given.is_write(),
        });
        Ok(given)
    }

    fn release(&mut self, key: &CacheKey, permit: WritePermit, reason: LockStatus) {
        let number = permit.number();
        self.bare.release(key, permit, reason);
        self.past = self.past.then(&Note::Released { number, reason });
    }

    fn drop_lock(&mut self, locked: Locked) {
        self.past = self.past.then(&Note::GivenUp {
            number: locked.number(),
            is_permit: locked.is_write(),
        });
        self.bare.drop_lock(locked);
    }

    fn poll_wait(
        &mut self,
        alloc: Global,
        read: &mut ReadLock,
        fills: Option<&UnusableFills>,
        now: Moment,
    ) -> Result<Poll<WaitOutcome>> {
        let number = read.number();
        let answer = self.bare.poll_wait(alloc, read, fills, now)?;
        self.past = self.past.then(&Note::Polled {
            number,
            now,
            is_old: tells_old(&answer),
        });
        Ok(answer)
    }

    fn lock_status(&self, read: &ReadLock, now: Moment) -> LockStatus {
        self.bare.lock_status(read, now)
    }

    fn publish(&mut self, alloc: Global, permit: &WritePermit, tokens: &[u64]) -> Result<()> {
        self.bare.publish(alloc, permit, tokens)?;
        self.past = self.past.then(&Note::Published {
            number: permit.number(),
            tokens,
        });
        Ok(())
    }

    fn custom_lock_status(&self, custom_no_cache: &'static str) -> LockStatus {
        self.bare.custom_lock_status(custom_no_cache)
    }
}
