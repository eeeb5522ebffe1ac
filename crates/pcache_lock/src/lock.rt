//! Locks on cache keys.
//!
//! A request that finds nothing asks for the lock of its key. The first one gets the permit to fill
//! the key; the others get read locks, which they poll until the permit is released, let go or too
//! old.
ghost use Rattle.std.specs.Prelude.{◌≡◌, ℕ, [], IfErr, IfOk, IsOk, IsSome, List, None, OnErr, OnOk, Option, option_copied};
ghost use Rattle.std.specs.FinMap.{get};
ghost use Rattle.pcache_base.specs.declared.error.ErrorType.TheVariants.{OutOfMemory};
ghost use Rattle.pcache_base.specs.Key.{slot};
ghost use Rattle.pcache_lock.specs.Deeds.{Deed, Published, Released, asked, asked_again, given_up, noted, tells_old};
ghost use Rattle.pcache_lock.specs.Locks.{Locks, MayFailLock, after_request, is_permit, lock_given, holder, let_go, number_of_lock, released};
ghost use Rattle.pcache_lock.specs.Statuses.{IsReason};
ghost use Rattle.pcache_lock.specs.Waiting.{after_poll, polled, published, reader_polled, status_seen};
ghost use Rattle.pcache_lock.specs.declared.lock.status.LockStatus.{LockStatus};

mod bare;
pub mod cache_lock;
pub mod laws;
pub mod lock_core;
pub mod outcome;
pub mod past;
pub mod permit;
pub mod permit_calls;
mod publications;
pub mod status;

pub use cache_lock::CacheLock;
pub use lock_core::LockCore;
pub use outcome::{LockWaitOutcome, WaitOutcome};
use pcache_base::error::Result;
use pcache_base::fills::UnusableFills;
use pcache_base::key::CacheKey;
use pcache_base::moment::Moment;
use pcache_base::poll::Poll;
use pcache_base::trace::{Span, Tag};
pub use permit::{LockStub, Locked, ReadLock, WritePermit};
pub use status::LockStatus;
use std::alloc::Global;

/// A table of locks of any kind, in a box.
pub type CacheKeyLockImpl = Box<dyn CacheKeyLock + Send + Drop>;

/// A table of locks on cache keys. A contract sees it as the record `Locks`, and, if it keeps one, the
/// list of all that was done to it.
///
/// Each call adds what it did to the past: one that succeeds one deed, one that fails none. Calls that
/// take the table by a shared reference add nothing.
pub trait CacheKeyLock {
    /// The locks that a permit or a read lock still names, and the current one of each key.
    ghost table: { Self → Locks };

    // An `Option`, so that a table that keeps none says so once and meets each clause. A past that
    // a table may choose freely would promise nothing.
    /// What was done to the table, the newest first; of a table that keeps no past always `None`.
    ghost past: { Self → Option (List Deed) };

    /// The status that a permit is released with, for each reason of a caller's own.
    ghost custom_status: { Self → List ℕ → LockStatus };

    /// Asks for the lock of a key: the permit, unless another request holds one that the key has to
    /// wait for; then a read lock on that one. A permit for a stale entry is marked as such.
    ///
    /// Fails only if the permit would be given: when memory runs out, or if all 64-bit numbers of
    /// locks are used. Then it changes nothing.
    fn lock(
        &mut self,
        alloc: Global,
        key: &CacheKey,
        stale_writer: bool,
        now: Moment,
    ) -> Result<Locked>
        ensures gives { IfOk result (λ l.
            l ≡ lock_given (table self.old) stale_writer (holder (table self.old) (slot key.now))) }
        ensures ok { OnOk result (table self.new
            ≡ after_request (table self.old) (slot key.now) stale_writer now
            (holder (table self.old) (slot key.now))) }
        ensures past { IfOk result (λ l. past self.new
            ≡ noted (asked (slot key.now) stale_writer now (number_of_lock l) (is_permit l))
            (past self.old)) }
        ensures err { OnErr result (table self.new ≡ table self.old) }
        ensures same_past { OnErr result (past self.new ≡ past self.old) }
        ensures joins { IsSome (holder (table self.old) (slot key.now)) → IsOk result }
        ensures kind { IfErr result (λ e. MayFailLock (table self.old) e) };

    /// Releases a permit with a status, which its readers get. It affects the lock of this permit
    /// alone, whichever lock is current for the key by now. A permit that aged out before keeps
    /// that status, and its entry remains.
    fn release(&mut self, key: &CacheKey, permit: WritePermit, reason: LockStatus)
        requires { IsReason reason }
        ensures table { table self.new ≡ released (table self.old) permit.number reason }
        ensures past { past self.new ≡ noted (Released permit.number reason) (past self.old) };

    /// Lets a lock go. A permit is dangling from then on, so that the next request gets a permit of
    /// its own; a read lock is forgotten.
    fn drop_lock(&mut self, locked: Locked)
        ensures table { table self.new ≡ let_go (table self.old) locked }
        ensures past { past self.new
            ≡ noted (given_up (number_of_lock locked) (is_permit locked)) (past self.old) };

    /// Asks whether the wait is over: the permit was released, unlocked or let go; or else it has
    /// been held for too long, which the table records; or else its writer published a fill that
    /// the reader cannot use. The fills passed to the reader's first poll count, and a publication
    /// that it was told of remains its outcome.
    ///
    /// Fails only when memory runs out, and only at a first poll that names fills.
    fn poll_wait(
        &mut self,
        alloc: Global,
        read: &mut ReadLock,
        fills: Option<&UnusableFills>,
        now: Moment,
    ) -> Result<Poll<WaitOutcome>>
        ensures answer { IfOk result (λ p. p
            ≡ polled now (option_copied fills.entry) read.old.watch
            (get (table self.old).cores read.old.number)) }
        ensures read_lock { OnOk result (read.new
            ≡ reader_polled now (option_copied fills.entry) read.old
            (get (table self.old).cores read.old.number)) }
        ensures ok { OnOk result (table self.new
            ≡ after_poll (table self.old) now read.old.number
            (get (table self.old).cores read.old.number)) }
        ensures past { IfOk result (λ p. past self.new
            ≡ noted (asked_again read.old.number now (tells_old p)) (past self.old)) }
        ensures err { OnErr result (table self.new ≡ table self.old) }
        ensures same_past { OnErr result (past self.new ≡ past self.old) }
        ensures same_read_lock { OnErr result (read.new ≡ read.old) }
        ensures kind { IfErr result (λ e. e ≡ OutOfMemory) }
        ensures later { IsSome read.old.watch → IsOk result }
        ensures unnamed { option_copied fills.entry ≡ None → IsOk result };

    /// The status of the lock that a reader waits for: too old as soon as that moment has come.
    fn lock_status(&self, read: &ReadLock, now: Moment) -> LockStatus
        ensures { result ≡ status_seen now (get (table self.now).cores read.now.number) };

    /// Publishes tokens of what a permit's holder found out about the fill. They replace the
    /// current publication.
    ///
    /// Fails only when memory runs out, and then changes nothing. An empty list clears the
    /// publication, which never fails.
    fn publish(&mut self, alloc: Global, permit: &WritePermit, tokens: &[u64]) -> Result<()>
        ensures ok { OnOk result (table self.new
            ≡ published (table self.old) permit.now.number tokens.now) }
        ensures past { OnOk result (past self.new
            ≡ noted (Published permit.now.number tokens.now) (past self.old)) }
        ensures clears { tokens.now ≡ [] → IsOk result }
        ensures err { OnErr result (table self.new ≡ table self.old) }
        ensures same_past { OnErr result (past self.new ≡ past self.old) }
        ensures kind { IfErr result (λ e. e ≡ OutOfMemory) };

    /// The status to release a permit with if the response is not cached for the caller's own
    /// reason.
    fn custom_lock_status(&self, custom_no_cache: &'static str) -> LockStatus
        ensures value { result ≡ custom_status self.now custom_no_cache.now }
        ensures reason { IsReason result };

    /// Tags a span with how a wait ended. Like every call of a span it does nothing.
    fn trace_lock_wait(&self, span: &mut Span, _read: &ReadLock, lock_status: LockStatus)
        ensures { span.new ≡ span.old }
    {
        span.set_tag(|| Tag::new("status", lock_status.as_str()));
    }
}

/// A call on a box goes to the table inside.
impl CacheKeyLock for CacheKeyLockImpl {
    ghost table = { λ b. (CacheKeyLock-box b).table b.value };

    ghost past = { λ b. (CacheKeyLock-box b).past b.value };

    ghost custom_status = { λ b. (CacheKeyLock-box b).custom_status b.value };

    fn lock(
        &mut self,
        alloc: Global,
        key: &CacheKey,
        stale_writer: bool,
        now: Moment,
    ) -> Result<Locked> {
        (**self).lock(alloc, key, stale_writer, now)
    }

    fn release(&mut self, key: &CacheKey, permit: WritePermit, reason: LockStatus) {
        (**self).release(key, permit, reason);
    }

    fn drop_lock(&mut self, locked: Locked) {
        (**self).drop_lock(locked);
    }

    fn poll_wait(
        &mut self,
        alloc: Global,
        read: &mut ReadLock,
        fills: Option<&UnusableFills>,
        now: Moment,
    ) -> Result<Poll<WaitOutcome>> {
        (**self).poll_wait(alloc, read, fills, now)
    }

    fn lock_status(&self, read: &ReadLock, now: Moment) -> LockStatus {
        (**self).lock_status(read, now)
    }

    fn publish(&mut self, alloc: Global, permit: &WritePermit, tokens: &[u64]) -> Result<()> {
        (**self).publish(alloc, permit, tokens)
    }

    fn custom_lock_status(&self, custom_no_cache: &'static str) -> LockStatus {
        (**self).custom_lock_status(custom_no_cache)
    }

    fn trace_lock_wait(&self, span: &mut Span, read: &ReadLock, lock_status: LockStatus) {
        (**self).trace_lock_wait(span, read, lock_status);
    }
}
