//! Waiting for the request that holds the permit.
ghost use Rattle.std.specs.Prelude.{◌≡◌, ◌-◌, IfErr, IfOk, IsOk, IsSome, None, OnErr, OnOk, Some, option_copied, option_map};
ghost use Rattle.std.specs.Duration.{as_nanos};
ghost use Rattle.std.specs.FinMap.{get};
ghost use Rattle.pcache_base.specs.declared.error.ErrorType.TheVariants.{OutOfMemory};
ghost use Rattle.pcache_lock.specs.Waiting.{after_poll, polled, reader_polled, status_seen};
ghost use Rattle.pcache_lock.specs.declared.lock.permit.Locked.TheVariants.{Read};
ghost use Rattle.pcache_request.specs.LockWaits.{result_by, result_on, digest_after, finds_too_old, has_waited, held_after, is_old_result, let_go_after, outcome_of_status, since_after, since_of, unusable_in};
ghost use Rattle.pcache_request.specs.Reports.{name_of};
ghost use Rattle.pcache_request.specs.LockPasts.{ended_deeds, polled_deeds};

use super::{HttpCache, LockName, WaitReport, put};
use crate::digest::{HttpCacheDigest, LockAbandon};
use crate::trace::CacheTraceCTX;
use pcache_base::error::Result;
use pcache_base::fills::UnusableFills;
use pcache_base::key::CacheKey;
use pcache_base::moment::Moment;
use pcache_base::poll::Poll;
use pcache_base::reason::NoCacheReason;
use pcache_lock::lock::{CacheKeyLock, LockStatus, LockWaitOutcome, Locked, ReadLock, WaitOutcome};
use pcache_store::storage::Storage;
use std::alloc::Global;
use std::time::Duration;

// The outcome with the name of a status.
fn outcome_of(status: LockStatus) -> LockWaitOutcome
    ensures { result ≡ outcome_of_status status }
{
    match status {
        LockStatus::Done => LockWaitOutcome::Done,
        LockStatus::TransientError => LockWaitOutcome::TransientError,
        LockStatus::GiveUp => LockWaitOutcome::GiveUp,
        LockStatus::WaitTimeout => LockWaitOutcome::WaitTimeout,
        LockStatus::AgeTimeout => LockWaitOutcome::AgeTimeout,
        LockStatus::Dangling | LockStatus::Waiting => LockWaitOutcome::Dangling,
    }
}

// Whether a wait took all the time that earlier waits left of the timeout.
fn has_waited(timeout: Option<Duration>, before: Option<Duration>, waited: Duration) -> bool
    ensures { result
        ≡ has_waited (option_map as_nanos timeout) (option_map as_nanos before) (as_nanos waited) }
{
    let Some(timeout) = timeout else {
        return false;
    };
    let rest = match before {
        Some(before) => timeout.as_nanos().saturating_sub(before.as_nanos()),
        None => timeout.as_nanos(),
    };
    waited.as_nanos() >= rest
}

// How a wait goes on after what the lock table returned.
fn result_by(status: LockStatus, is_late: bool, polled: Poll<WaitOutcome>) -> Poll<LockWaitOutcome>
    ensures { result ≡ result_by status is_late polled }
{
    match polled {
        Poll::Ready(WaitOutcome::Released) => Poll::Ready(outcome_of(status)),
        Poll::Ready(WaitOutcome::AgeTimeout) => Poll::Ready(LockWaitOutcome::AgeTimeout),
        Poll::Ready(WaitOutcome::Abandoned(fill)) => Poll::Ready(LockWaitOutcome::Abandoned {
            reason: NoCacheReason::Custom(fill.reason),
            token: fill.token,
        }),
        Poll::Pending if is_late => Poll::Ready(LockWaitOutcome::WaitTimeout),
        Poll::Pending => Poll::Pending,
    }
}

// Whether the permit was found too old.
fn is_too_old(polled: Poll<WaitOutcome>) -> bool
    ensures { result ≡ is_old_result polled }
{
    matches!(polled, Poll::Ready(WaitOutcome::AgeTimeout))
}

// The fills that a request with this key cannot use.
fn unusable_in(key: &Option<CacheKey>) -> Option<&UnusableFills>
    ensures { option_copied result ≡ unusable_in key.now }
{
    let key = key.as_ref()?;
    key.unusable.as_ref()
}

// Polls a read lock, and returns how the wait goes on.
#[tactic(auto, using(crate::proofs::Polled::number_polled))]
fn poll_read<L: CacheKeyLock>(
    alloc: Global,
    lock: &mut L,
    read: &mut ReadLock,
    fills: Option<&UnusableFills>,
    is_late: bool,
    now: Moment,
) -> Result<WaitReport>
    ensures answer { IfOk result (λ w. w.answer
        ≡ result_by (status_seen now (get (L.table lock.old).cores read.old.number)) is_late
        (polled now (option_copied fills.entry) read.old.watch
        (get (L.table lock.old).cores read.old.number))) }
    ensures lock { IfOk result (λ w. w.lock ≡ name_of (Read read.old)) }
    ensures too_old { IfOk result (λ w. w.is_too_old
        ≡ is_old_result (polled now (option_copied fills.entry) read.old.watch
        (get (L.table lock.old).cores read.old.number))) }
    ensures read_lock { OnOk result (read.new
        ≡ reader_polled now (option_copied fills.entry) read.old
        (get (L.table lock.old).cores read.old.number)) }
    ensures number { read.new.number ≡ read.old.number }
    ensures table { OnOk result (L.table lock.new
        ≡ after_poll (L.table lock.old) now read.old.number
        (get (L.table lock.old).cores read.old.number)) }
    ensures deeds { OnOk result (L.past lock.new
        ≡ polled_deeds now (L.table lock.old) read.old (option_copied fills.entry)
        (L.past lock.old)) }
    ensures same_read_lock { OnErr result (read.new ≡ read.old) }
    ensures same_table { OnErr result (L.table lock.new ≡ L.table lock.old) }
    ensures same_deeds { OnErr result (L.past lock.new ≡ L.past lock.old) }
    ensures kind { IfErr result (λ e. e ≡ OutOfMemory) }
    ensures later { IsSome read.old.watch → IsOk result }
    ensures unnamed { option_copied fills.entry ≡ None → IsOk result }
{
    let name = LockName {
        number: read.number(),
        is_permit: false,
    };
    // The status of a released permit is that of before the poll, which does not change it.
    let status = lock.lock_status(read, now);
    let polled = lock.poll_wait(alloc, read, fills, now)?;
    Ok(WaitReport {
        answer: result_by(status, is_late, polled),
        lock: name,
        is_too_old: is_too_old(polled),
    })
}

// The moment of the first poll of a read lock: `now`, if it was not polled before. What is kept of an earlier read lock then does
// not count, so that no call which takes or gives up a lock has to clear it.
fn first_poll(read: &ReadLock, waits_since: Option<Moment>, now: Moment) -> Moment
    ensures { result ≡ since_of now read.now.watch waits_since }
{
    match waits_since {
        Some(since) if read.was_polled() => since,
        _ => now,
    }
}

// Holds the read lock again if the wait goes on; otherwise has the table trace the wait, and lets the
// lock go.
fn end_poll<L: CacheKeyLock>(
    lock: &mut L,
    traces: &CacheTraceCTX,
    read: ReadLock,
    answer: Poll<LockWaitOutcome>,
    held: &mut Option<Locked>,
    waits_since: &mut Option<Moment>,
    since: Moment,
)
    requires { held.old ≡ None }
    ensures held { held.new ≡ held_after answer read }
    ensures since { waits_since.new ≡ since_after answer since waits_since.old }
    ensures table { L.table lock.new ≡ let_go_after answer read.number (L.table lock.old) }
    ensures deeds { L.past lock.new ≡ ended_deeds answer read.number (L.past lock.old) }
{
    if let Poll::Ready(outcome) = answer {
        traces.trace_lock_wait(lock, &read, outcome);
        lock.drop_lock(Locked::Read(read));
        return;
    }
    put(held, Locked::Read(read));
    *waits_since = Some(since);
}

// Records a wait that ended in the digest.
fn end_wait(digest: &mut HttpCacheDigest, answer: Poll<LockWaitOutcome>, waited: Duration)
    ensures { digest.new ≡ digest_after answer (as_nanos waited) digest.old }
{
    let Poll::Ready(outcome) = answer else {
        return;
    };
    digest.add_lock_duration(waited);
    if let LockWaitOutcome::Abandoned { reason, token } = outcome {
        digest.note_abandon(LockAbandon { reason, token });
    }
}

// Polls a read lock that was taken out of the request, and puts it back if the wait goes on.
fn wait_on<L: CacheKeyLock>(
    alloc: Global,
    lock: &mut L,
    traces: &CacheTraceCTX,
    read: ReadLock,
    fills: Option<&UnusableFills>,
    timeout: Option<Duration>,
    held: &mut Option<Locked>,
    waits_since: &mut Option<Moment>,
    digest: &mut HttpCacheDigest,
    now: Moment,
) -> Result<WaitReport>
    requires { held.old ≡ None }
    ensures answer { IfOk result (λ w. w.answer
        ≡ result_on (L.table lock.old) now read (option_copied fills.entry)
        (option_map as_nanos timeout) digest.old.waits waits_since.old) }
    ensures lock { IfOk result (λ w. w.lock ≡ name_of (Read read)) }
    ensures too_old { IfOk result (λ w.
        w.is_too_old ≡ finds_too_old (L.table lock.old) now read (option_copied fills.entry)) }
    ensures held { IfOk result (λ w. held.new
        ≡ held_after w.answer (reader_polled now (option_copied fills.entry) read
        (get (L.table lock.old).cores read.number))) }
    ensures since { IfOk result (λ w. waits_since.new
        ≡ since_after w.answer (since_of now read.watch waits_since.old) waits_since.old) }
    ensures digest { IfOk result (λ w. digest.new
        ≡ digest_after w.answer (now - since_of now read.watch waits_since.old) digest.old) }
    ensures table { OnOk result (L.table lock.new
        ≡ let_go_after
        (result_on (L.table lock.old) now read (option_copied fills.entry)
        (option_map as_nanos timeout) digest.old.waits waits_since.old) read.number
        (after_poll (L.table lock.old) now read.number
        (get (L.table lock.old).cores read.number))) }
    ensures deeds { OnOk result (L.past lock.new
        ≡ ended_deeds
        (result_on (L.table lock.old) now read (option_copied fills.entry)
        (option_map as_nanos timeout) digest.old.waits waits_since.old) read.number
        (polled_deeds now (L.table lock.old) read (option_copied fills.entry)
        (L.past lock.old))) }
    ensures same_held { OnErr result (held.new ≡ Some (Read read)) }
    ensures same_since { OnErr result (waits_since.new ≡ waits_since.old) }
    ensures same_digest { OnErr result (digest.new ≡ digest.old) }
    ensures same_table { OnErr result (L.table lock.new ≡ L.table lock.old) }
    ensures same_deeds { OnErr result (L.past lock.new ≡ L.past lock.old) }
    ensures kind { IfErr result (λ e. e ≡ OutOfMemory) }
    ensures later { IsSome read.watch → IsOk result }
    ensures unnamed { option_copied fills.entry ≡ None → IsOk result }
{
    let mut read = read;
    let since = first_poll(&read, *waits_since, now);
    let waited = now.since(since);
    let is_late = has_waited(timeout, digest.lock_duration, waited);
    match poll_read(alloc, lock, &mut read, fills, is_late, now) {
        Ok(report) => {
            end_poll(lock, traces, read, report.answer, held, waits_since, since);
            end_wait(digest, report.answer, waited);
            Ok(report)
        }
        Err(refused) => {
            put(held, Locked::Read(read));
            Err(refused)
        }
    }
}

impl<S: Storage> HttpCache<S> {
    ghost use Rattle.std.specs.Prelude.{◌≡◌, ◌-◌, IfOk, IfErr, OnOk, OnErr, IsOk, IsSome, None, Some, option_copied, option_map};
    ghost use Rattle.std.specs.Duration.{as_nanos};
    ghost use Rattle.pcache_base.specs.declared.error.ErrorType.TheVariants.{OutOfMemory};
    ghost use Rattle.pcache_lock.specs.declared.lock.permit.Locked.TheVariants.{Read};
    ghost use Rattle.pcache_request.specs.LockUse.{read_in};
    ghost use Rattle.pcache_request.specs.Locking.{Waits};
    ghost use Rattle.pcache_request.specs.Sides.{lock_side};
    ghost use Rattle.pcache_request.specs.LockWaits.{too_old_for, unusable_in, wait_result, waited};
    ghost use Rattle.pcache_request.specs.Reports.{name_of};

    /// The fills that the request cannot use, for which it does not wait.
    pub fn unusable_fills(&self) -> Option<&UnusableFills>
        ensures { option_copied result ≡ unusable_in self.now.key }
    {
        unusable_in(&self.key)
    }

    /// Whether the wait for the lock is over, and how it ended: the permit was released or let go;
    /// or else it has been held for too long, which the table records; or else a fill was published
    /// that the request cannot use; or else it waited for as long as it may, over all its waits. A
    /// wait that is over is traced by the table, its read lock is let go, and its time is added to
    /// the digest.
    ///
    /// Fails only when memory runs out, only at the first poll of a read lock, and only if the key
    /// names fills that the request cannot use; then nothing has changed.
    /// Requires a read lock; ask `is_cache_locked()`.
    pub fn cache_lock_wait<L: CacheKeyLock>(
        &mut self,
        lock: &mut L,
        now: Moment,
    ) -> Result<Poll<LockWaitOutcome>>
        requires { IsSome (read_in self.old.held) }
        ensures answer { IfOk result (λ p.
            p ≡ wait_result (L.table lock.old) now self.old.held self.old) }
        ensures waits { Waits result now self.old self.new
            (lock_side L.table L.past lock.old) (lock_side L.table L.past lock.new) }
    {
        Ok(self.wait(lock, now)?.answer)
    }

    /// `cache_lock_wait` with a result that also names the lock that was waited for, and says
    /// whether its permit was found too old.
    /// Requires a read lock; ask `is_cache_locked()`.
    pub fn wait<L: CacheKeyLock>(&mut self, lock: &mut L, now: Moment) -> Result<WaitReport>
        requires { IsSome (read_in self.old.held) }
        ensures answer { IfOk result (λ w.
            w.answer ≡ wait_result (L.table lock.old) now self.old.held self.old) }
        ensures lock { IfOk result (λ w. Some w.lock ≡ option_map name_of self.old.held) }
        ensures too_old { IfOk result (λ w. w.is_too_old
            ≡ too_old_for (L.table lock.old) now self.old.held (unusable_in self.old.key)) }
        ensures waits { Waits result now self.old self.new
            (lock_side L.table L.past lock.old) (lock_side L.table L.past lock.new) }
    {
        let Some(held) = self.held.take() else {
            unreachable!()
        };
        let Locked::Read(mut read) = held else {
            unreachable!()
        };
        // Those of the key count as they are at the first poll. No report copies them: they are
        // there.
        let fills = unusable_in(&self.key);
        wait_on(
            self.alloc,
            lock,
            &self.traces,
            read,
            fills,
            self.lock_ctx.wait_timeout,
            &mut self.held,
            &mut self.waits_since,
            &mut self.digest,
            now,
        )
    }

    /// The time that the request waited for locks, over all its waits that ended.
    pub fn lock_duration(&self) -> Option<Duration>
        ensures { option_map as_nanos result ≡ self.now.digest.waits }
    {
        self.digest.lock_duration
    }

    /// The last fill that ended a wait.
    pub fn lock_abandon(&self) -> Option<LockAbandon>
        ensures { result ≡ self.now.digest.abandoned }
    {
        self.digest.lock_abandon
    }
}
