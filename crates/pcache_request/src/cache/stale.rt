//! What a request does with a stale body.
use super::disable::status_for;
use super::{HttpCache, LockName, settle};
use crate::phase::CachePhase;
use pcache_base::reason::NoCacheReason;
use pcache_lock::lock::CacheKeyLock;
use pcache_meta::header::ResponseHeader;
use pcache_store::storage::Storage;

impl<S: Storage> HttpCache<S> {
    ghost use Rattle.std.specs.Prelude.{◌≡◌, ◌↔◌, IsTrue};
    ghost use Rattle.pcache_request.specs.Phases.{IsStale};
    ghost use Rattle.pcache_request.specs.Releasing.{MayRelease, status_for};
    ghost use Rattle.pcache_request.specs.Renewing.{ServesUncacheable};
    ghost use Rattle.pcache_request.specs.Sides.{lock_side};
    ghost use Rattle.pcache_meta.specs.Header.{shown};
    ghost use Rattle.pcache_request.specs.Stale.{MayRevalidate, updating};

    /// Serves the stale body while another request renews it.
    /// Requires the phase Stale; ask `phase().is_stale()`.
    pub fn set_stale_updating(&mut self)
        requires { IsStale self.old.phase }
        ensures { self.new ≡ updating self.old }
    {
        self.phase = CachePhase::StaleUpdating;
    }

    /// Whether a stale body was found, with its meta.
    pub fn may_revalidate(&self) -> bool
        ensures { IsTrue result ↔ MayRevalidate self.now }
    {
        matches!(self.phase, CachePhase::Stale) && self.meta.is_some()
    }

    /// Serves the stale body, which the origin confirmed as valid, with this header. The new
    /// response is not stored, for this reason, and a permit is released with the status of the
    /// reason. Returns the lock that was released.
    /// Requires the phase Stale with a meta, and with a permit held a reason that its holder can
    /// have; ask `may_revalidate()` and `may_release(reason)`.
    pub fn revalidate_uncacheable<L: CacheKeyLock>(
        &mut self,
        lock: &mut L,
        header: ResponseHeader,
        reason: NoCacheReason,
    ) -> Option<LockName>
        requires stale { MayRevalidate self.old }
        requires reason { MayRelease reason self.old.held }
        ensures { ServesUncacheable result (status_for (L.custom_status lock.old) reason)
            (shown header) reason self.old self.new
            (lock_side L.table L.past lock.old) (lock_side L.table L.past lock.new) }
    {
        let Some(meta) = &mut self.meta else {
            unreachable!()
        };
        *meta.response_header_mut() = header;
        let status = status_for(lock, reason);
        let released = settle(self.alloc, &self.key, &mut self.held, lock, status);
        self.phase = CachePhase::RevalidatedNoCache(reason);
        released
    }
}
