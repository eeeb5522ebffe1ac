//! Variants of a key: which one is looked up, and which one is filled.
ghost use Rattle.std.specs.Prelude.{◌≡◌};
ghost use Rattle.pcache_request.specs.Variants.{same_variance, meta_varied, key_for_variance, first_variance};

use super::{HttpCache, LockName, settle};
use crate::phase::CachePhase;
use pcache_base::key::{CacheKey, HashBinary};
use pcache_lock::lock::{CacheKeyLock, LockStatus};
use pcache_meta::meta::CacheMeta;
use pcache_store::storage::Storage;

// Whether two variances are equal.
fn is_same(variance: Option<HashBinary>, other: Option<HashBinary>) -> bool
    ensures { result ≡ same_variance variance other }
{
    match (variance, other) {
        (Some(variance), Some(other)) => variance == other,
        (None, None) => true,
        _ => false,
    }
}

// The variance of the key, or else that of the stale meta.
fn first_of(variance: Option<HashBinary>, stale: Option<HashBinary>) -> Option<HashBinary>
    ensures { result ≡ first_variance variance stale }
{
    match variance {
        Some(variance) => Some(variance),
        None => stale,
    }
}

// Sets the variance of the key, unless the key has none and the found body is the key's own.
fn look_for(key: &mut CacheKey, variance: HashBinary, is_same: bool)
    ensures { key.new ≡ key_for_variance variance is_same key.old }
{
    if !is_same || key.get_variance_key().is_some() {
        key.set_variance_key(variance);
    }
}

// Sets the variance of the meta. The body of the first of new variants came when its meta was
// created.
fn vary(meta: &mut CacheMeta, variance: Option<HashBinary>, begins_variants: bool)
    ensures { meta.new ≡ meta_varied variance begins_variants meta.old }
{
    match variance {
        Some(variance) => meta.set_variance(variance),
        None => meta.remove_variance(),
    }
    if begins_variants {
        meta.reset_provenance_to_created();
    }
}

impl<S: Storage> HttpCache<S> {
    ghost use Rattle.std.specs.Prelude.{◌≡◌, Some};
    ghost use Rattle.pcache_request.specs.Phases.{MayLookUp};
    ghost use Rattle.pcache_request.specs.Requests.{MayWrite};
    ghost use Rattle.pcache_request.specs.Locking.{Varies};
    ghost use Rattle.pcache_request.specs.Sides.{lock_side};
    ghost use Rattle.pcache_request.specs.Variants.{same_variance, looks_for_variance};

    /// Sets the variance that the next look-up uses, given the meta that was found for the key. That
    /// look-up hides what was created before the meta's body came. Returns whether the meta has this
    /// variance. If it has and the key has none, the body is the key's own, and the key still has
    /// none.
    /// Requires the phase CacheKey or Stale; ask `phase().may_look_up()`.
    pub fn cache_vary_lookup(&mut self, variance: HashBinary, meta: &CacheMeta) -> bool
        requires { MayLookUp self.old.phase }
        ensures matches { result ≡ same_variance meta.now.variance (Some variance) }
        ensures request { self.new ≡ looks_for_variance variance meta.now self.old }
    {
        let Some(key) = &mut self.key else {
            unreachable!()
        };
        let matches = is_same(meta.variance(), Some(variance));
        look_for(key, variance, matches);
        self.valid_after = Some(meta.provenance());
        matches
    }

    /// Sets what the response varies on, before its write begins. A response that is fetched again with
    /// another variance than before is the first of its variants, and its body came when it was
    /// created. A key with another variance loses it: the permit is released as done, since it was
    /// asked for with that variance, and the response will be stored for the key itself. Returns the
    /// lock that was released.
    /// Requires a phase that fills, a meta, and no write; ask `may_write()`.
    pub fn update_variance<L: CacheKeyLock>(
        &mut self,
        lock: &mut L,
        variance: Option<HashBinary>,
    ) -> Option<LockName>
        requires { MayWrite self.old }
        ensures varies { Varies result variance self.old self.new
            (lock_side L.table L.past lock.old) (lock_side L.table L.past lock.new) }
    {
        let Some(key) = &self.key else { unreachable!() };
        let of_key = key.get_variance_key().copied();
        let is_expired = matches!(self.phase, CachePhase::Expired);
        let Some(meta) = &mut self.meta else {
            unreachable!()
        };
        // The stale variance stays, so that a second call compares with the same one.
        let former = first_of(of_key, self.stale_variance);
        vary(meta, variance, is_expired && !is_same(former, variance));
        if of_key.is_none() || is_same(of_key, variance) {
            return None;
        }
        let released = settle(
            self.alloc,
            &self.key,
            &mut self.held,
            lock,
            LockStatus::Done,
        );
        let Some(key) = &mut self.key else {
            unreachable!()
        };
        key.remove_variance_key();
        released
    }
}
