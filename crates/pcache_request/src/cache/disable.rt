//! Turning caching off, or bypassing it.
ghost use Rattle.std.specs.Prelude.{◌≡◌, ◌↔◌, IsTrue};
ghost use Rattle.pcache_lock.specs.Statuses.{IsReason};
ghost use Rattle.pcache_request.specs.Releasing.{IsHoldersReason, IsDisableReason, status_for};

use super::{HttpCache, LockName, settle};
use crate::phase::{CachePhase, InUse};
use pcache_base::reason::NoCacheReason;
use pcache_lock::lock::{CacheKeyLock, LockStatus, Locked};
use pcache_store::storage::{HandleHit, HandleMiss, Storage};

// Whether this can be a reason of a permit's holder.
fn is_holders_reason(reason: NoCacheReason) -> bool
    ensures { IsTrue result ↔ IsHoldersReason reason }
{
    !matches!(
        reason,
        NoCacheReason::NeverEnabled
            | NoCacheReason::CacheLockGiveUp
            | NoCacheReason::CacheLockTimeout
            | NoCacheReason::CacheLockRetryLimit
    )
}

// Whether caching may be turned off for this reason.
fn is_disable_reason(reason: NoCacheReason) -> bool
    ensures { IsTrue result ↔ IsDisableReason reason }
{
    !matches!(reason, NoCacheReason::NeverEnabled)
}

// The status that a permit is released with for this reason, which its readers get.
pub(super) fn status_for<L: CacheKeyLock>(lock: &L, reason: NoCacheReason) -> LockStatus
    ensures value { result ≡ status_for (L.custom_status lock.now) reason }
    ensures reason { IsReason result }
{
    match reason {
        NoCacheReason::StorageError
        | NoCacheReason::InternalError
        | NoCacheReason::Deferred
        | NoCacheReason::DeclinedToUpstream
        | NoCacheReason::UpstreamError => LockStatus::TransientError,
        NoCacheReason::Custom(text) => lock.custom_lock_status(text),
        // Four of these never release a permit, as `may_release` says; they are here so that each reason has a status.
        NoCacheReason::NeverEnabled
        | NoCacheReason::OriginNotCache
        | NoCacheReason::ResponseTooLarge
        | NoCacheReason::PredictedResponseTooLarge
        | NoCacheReason::CacheLockGiveUp
        | NoCacheReason::CacheLockTimeout
        | NoCacheReason::CacheLockRetryLimit => LockStatus::GiveUp,
    }
}

impl<S: Storage> HttpCache<S> {
    ghost use Rattle.std.specs.Prelude.{◌≡◌, ◌↔◌, IsTrue};
    ghost use Rattle.pcache_request.specs.Phases.{MayBypass};
    ghost use Rattle.pcache_request.specs.Releasing.{MayRelease, MayDisable, status_for, bypassed};
    ghost use Rattle.pcache_request.specs.Ending.{Disables};
    ghost use Rattle.pcache_request.specs.Sides.{lock_side, store_side};

    /// `bypass` for requests that use no predictor: it asks none, and leaves the reason that is kept, which is none in a request
    /// that was not bypassed since it was enabled.
    /// Requires the phase CacheKey; ask `phase().may_bypass()`.
    pub fn bypass_without_predictor(&mut self)
        requires { MayBypass self.old.phase }
        ensures { self.new ≡ bypassed self.old }
    {
        self.phase = CachePhase::Bypass;
    }

    /// Whether the held lock may be given up for this reason. A permit may not be given up for a
    /// reason of readers, nor because caching was never turned on.
    pub fn may_release(&self, reason: NoCacheReason) -> bool
        ensures { IsTrue result ↔ MayRelease reason self.now.held }
    {
        match &self.held {
            Some(Locked::Write(_)) => is_holders_reason(reason),
            _ => true,
        }
    }

    /// Whether `disable` may be called with this reason.
    pub fn may_disable(&self, reason: NoCacheReason) -> bool
        ensures { IsTrue result ↔ MayDisable reason self.now }
    {
        is_disable_reason(reason) && self.may_release(reason)
    }

    /// Turns caching off. The write is dropped, a permit is released with the status of the reason,
    /// and the rest is let go; the key is kept. If caching was never turned on, nothing changes.
    /// Returns the lock that was released.
    /// Requires a reason other than NeverEnabled, and with a permit held one that its holder can
    /// have; ask `may_disable(reason)`.
    pub fn disable<L: CacheKeyLock>(
        &mut self,
        storage: &mut S,
        lock: &mut L,
        reason: NoCacheReason,
    ) -> Option<LockName>
        requires { MayDisable reason self.old }
        ensures disables { Disables result (status_for (L.custom_status lock.old) reason) reason
            self.old self.new
            (store_side S.state S.past storage.old) (store_side S.state S.past storage.new)
            (lock_side L.table L.past lock.old) (lock_side L.table L.past lock.new) }
    {
        if matches!(
            self.phase,
            CachePhase::Disabled(NoCacheReason::NeverEnabled)
        ) {
            return None;
        }
        let status = status_for(lock, reason);
        let released = settle(self.alloc, &self.key, &mut self.held, lock, status);
        if let Some(writer) = self.writer.take() {
            writer.drop_write(storage);
        }
        if let Some(reader) = self.reader.take() {
            reader.let_go(storage);
        }
        // What is left of variants and of a policy no call can see: `enable` begins anew.
        self.meta = None;
        self.uses = InUse {
            eviction: false,
            predictor: self.uses.predictor,
            lock: false,
        };
        self.phase = CachePhase::Disabled(reason);
        released
    }
}
