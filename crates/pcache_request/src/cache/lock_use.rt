//! Whether a request uses a lock, and what it does with a permit that it holds.
ghost use Rattle.std.specs.Prelude.{◌≡◌, None, Some};

use super::disable::status_for;
use super::{HttpCache, LockName, ReleasedLock, name_of, settle};
use crate::phase::CachePhase;
use pcache_base::error::Result;
use pcache_base::reason::NoCacheReason;
use pcache_lock::lock::{CacheKeyLock, Locked, WritePermit};
use pcache_store::storage::Storage;
use std::time::Duration;

/// What a caller sets for the lock of a request.
#[derive(Clone, Copy, Debug, Default, PartialEq, Eq)]
pub struct CacheOptionOverrides {
    /// For how long the request waits for locks, over all its waits, if that is limited.
    pub wait_timeout: Option<Duration>,
    /// How often it may look up again after a wait, if that is limited. The caller counts.
    pub max_lock_retries: Option<usize>,
}

/// How a request that uses a lock waits for it.
#[derive(Clone, Copy, Debug, PartialEq, Eq)]
pub struct LockCtx {
    /// For how long it waits, over all its waits, if that is limited.
    pub wait_timeout: Option<Duration>,
    /// How often it may look up again after a wait, if that is limited. The caller counts.
    pub max_retries: Option<usize>,
}

impl LockCtx {
    ghost use Rattle.std.specs.Prelude.{◌≡◌, None, cond, option_map};
    ghost use Rattle.std.specs.Duration.{as_nanos};
    ghost use Rattle.pcache_request.specs.LockUse.{timeout_in, retries_in};

    // No limits.
    pub(super) fn new() -> LockCtx
        ensures { result ≡ record { wait_timeout = None; max_retries = None } }
    {
        LockCtx {
            wait_timeout: None,
            max_retries: None,
        }
    }

    // The limits that are set for a lock, if it is in use. Those of a lock that is not are dropped, so a lock that is taken into use
    // without options has none.
    pub(super) fn of(is_used: bool, overrides: Option<CacheOptionOverrides>) -> LockCtx
        ensures timeout { option_map as_nanos result.wait_timeout
            ≡ cond is_used (timeout_in overrides) None }
        ensures retries { result.max_retries ≡ cond is_used (retries_in overrides) None }
    {
        match overrides {
            Some(set) if is_used => LockCtx {
                wait_timeout: set.wait_timeout,
                max_retries: set.max_lock_retries,
            },
            _ => LockCtx::new(),
        }
    }
}

impl<S: Storage> HttpCache<S> {
    ghost use Rattle.std.specs.Prelude.{◌≡◌, ◌↔◌, IsSome, IsTrue, Some, None, cond, option_map};
    ghost use Rattle.std.specs.Duration.{as_nanos};
    ghost use Rattle.pcache_lock.specs.declared.lock.permit.Locked.TheVariants.{Write};
    ghost use Rattle.pcache_request.specs.LockUse.{MaySetLock, permit_in, read_in, unheld, with_cache_lock};
    ghost use Rattle.pcache_request.specs.Phases.{IsOn};
    ghost use Rattle.pcache_request.specs.Locking.{Publishes, Releases, TakesPermit};
    ghost use Rattle.pcache_request.specs.Sides.{lock_side};
    ghost use Rattle.pcache_request.specs.Releasing.{MayRelease, status_for};
    ghost use Rattle.pcache_request.specs.Reports.{name_of};

    /// Whether `set_cache_lock` may be called: the phase is CacheKey, Stale or Hit, and no lock is
    /// held.
    pub fn may_set_cache_lock(&self) -> bool
        ensures { IsTrue result ↔ MaySetLock self.now }
    {
        matches!(
            self.phase,
            CachePhase::CacheKey | CachePhase::Stale | CachePhase::Hit
        ) && self.held.is_none()
    }

    /// Takes the lock into use with these options, or out of it.
    /// Requires the phase CacheKey, Stale or Hit, and no lock held; ask `may_set_cache_lock()`.
    pub fn set_cache_lock(&mut self, is_used: bool, overrides: Option<CacheOptionOverrides>)
        requires { MaySetLock self.old }
        ensures { self.new ≡ with_cache_lock is_used overrides self.old }
    {
        self.uses.lock = is_used;
        self.lock_ctx = LockCtx::of(is_used, overrides);
    }

    /// How the request waits for its lock.
    pub fn lock_ctx(&self) -> LockCtx
        ensures timeout { option_map as_nanos result.wait_timeout ≡ self.now.wait_timeout }
        ensures retries { result.max_retries ≡ self.now.max_retries }
    {
        self.lock_ctx
    }

    /// Whether a read lock is held, so that the request may wait.
    /// Requires that caching is on; ask `phase().is_on()`.
    pub fn is_cache_locked(&self) -> bool
        requires { IsOn self.now.phase }
        ensures { IsTrue result ↔ IsSome (read_in self.now.held) }
    {
        matches!(&self.held, Some(Locked::Read(_)))
    }

    /// Whether the permit is held.
    /// Requires that caching is on; ask `phase().is_on()`.
    pub fn is_cache_lock_writer(&self) -> bool
        requires { IsOn self.now.phase }
        ensures { IsTrue result ↔ IsSome (permit_in self.now.held) }
    {
        matches!(&self.held, Some(Locked::Write(_)))
    }

    /// How often the request may look up again after a wait, if that is limited.
    /// Requires that caching is on; ask `phase().is_on()`.
    pub fn cache_lock_max_retries(&self) -> Option<usize>
        requires { IsOn self.now.phase }
        ensures { result ≡ self.now.max_retries }
    {
        self.lock_ctx.max_retries
    }

    /// Takes the permit out, so that another request can hold it.
    /// Requires that the permit is held; ask `is_cache_lock_writer()`.
    pub fn take_write_lock(&mut self) -> WritePermit
        requires { IsSome (permit_in self.old.held) }
        ensures permit { Some result ≡ permit_in self.old.held }
        ensures request { self.new ≡ unheld self.old }
    {
        let Some(held) = self.held.take() else {
            unreachable!()
        };
        let Locked::Write(permit) = held else {
            unreachable!()
        };
        permit
    }

    /// Holds a permit that another request had; a lock held before is let go. If no lock is in use,
    /// the permit itself is let go. Returns the lock that was let go.
    /// Requires that caching is on; ask `phase().is_on()`.
    pub fn set_write_lock<L: CacheKeyLock>(
        &mut self,
        lock: &mut L,
        permit: WritePermit,
    ) -> Option<LockName>
        requires { IsOn self.old.phase }
        ensures takes { TakesPermit result permit self.old self.new
            (lock_side L.table L.past lock.old) (lock_side L.table L.past lock.new) }
    {
        let new = Locked::Write(permit);
        let gone = if self.uses.lock {
            self.held.replace(new)
        } else {
            // let go, and dangling, so that the next request for the key gets a permit
            Some(new)
        };
        let name = name_of(&gone);
        if let Some(gone) = gone {
            lock.drop_lock(gone);
        }
        name
    }

    /// Releases the permit with the status of the reason; a read lock is let go, whatever the
    /// reason. Returns the lock that was released.
    /// Requires with a permit held a reason that its holder can have; ask `may_release(reason)`.
    pub fn release_write_lock<L: CacheKeyLock>(
        &mut self,
        lock: &mut L,
        reason: NoCacheReason,
    ) -> Option<ReleasedLock>
        requires { MayRelease reason self.old.held }
        ensures releases { Releases result (status_for (L.custom_status lock.old) reason)
            self.old self.new
            (lock_side L.table L.past lock.old) (lock_side L.table L.past lock.new) }
    {
        let status = status_for(lock, reason);
        // A read lock is let go for any reason, since nobody waits for it and is told one.
        let lock = settle(self.alloc, &self.key, &mut self.held, lock, status)?;
        Some(ReleasedLock { lock, status })
    }

    /// Publishes tokens of what was found out about the fill, if the permit is held: readers that
    /// cannot use such a fill need not wait for it. Returns the permit for which they were
    /// published. Fails only when memory runs out, and then changes nothing; an empty list never
    /// fails.
    pub fn lock_publish_fill_tokens<L: CacheKeyLock>(
        &self,
        lock: &mut L,
        tokens: &[u64],
    ) -> Result<Option<LockName>>
        ensures publishes { Publishes result tokens.now self.now
            (lock_side L.table L.past lock.old) (lock_side L.table L.past lock.new) }
    {
        let Some(Locked::Write(permit)) = &self.held else {
            return Ok(None);
        };
        lock.publish(self.alloc, permit, tokens)?;
        Ok(Some(LockName {
            number: permit.number(),
            is_permit: true,
        }))
    }

    /// Tags the request as a subrequest. Like all tags this has no effect.
    /// Requires that caching is on; ask `phase().is_on()`.
    pub fn tag_as_subrequest(&mut self)
        requires { IsOn self.old.phase }
        ensures { self.new ≡ self.old }
    {
        // For the prover: a use of a field brings in the invariant, which the request has to keep.
        let _tagged = self.phase;
    }
}
