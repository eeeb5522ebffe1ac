//! An eviction manager with its limits as numbers, and the name of its policy.
ghost use Rattle.std.specs.Prelude.{◌≡◌, ◌↔◌, IsTrue};
ghost use Rattle.pcache_evict.specs.Tracked.{limits_of};

use pcache_base::moment::Moment;
use pcache_evict::eviction::{CacheEntryKey, EvictionManager, EvictionPolicy};
use std::alloc::AllocError;
use std::marker::Model;

/// An eviction manager, together with its limits as numbers and the name of its policy, for which a
/// manager itself has no getters.
#[derive(Drop)]
pub struct Portion<M: EvictionManager> {
    manager: M,
    policy: EvictionPolicy,
    limit: usize,
    watermark: Option<usize>,
}

impl<M: EvictionManager> Model for Portion<M> {
    ghost use Rattle.std.specs.Prelude.{◌≡◌};
    ghost use Rattle.pcache_evict.specs.Tracked.{limits_of};
    ghost use Rattle.pcache_shared_cache.specs.Managed.{Portioned};

    ghost Value = { Portioned M };

    ghost view = { λ p. record { manager = p.manager; limits = limits_of p.policy p.limit p.watermark } };

    ghost invariant = { λ p. M.limits p.manager ≡ limits_of p.policy p.limit p.watermark };
}

impl<M: EvictionManager> Portion<M> {
    /// A manager, together with its limits and the policy that it goes by.
    pub fn new(
        manager: M,
        policy: EvictionPolicy,
        limit: usize,
        watermark: Option<usize>,
    ) -> Portion<M>
        requires { M.limits manager ≡ limits_of policy limit watermark }
        ensures { result
            ≡ record { manager = manager; limits = limits_of policy limit watermark } }
    {
        Portion {
            manager,
            policy,
            limit,
            watermark,
        }
    }

    /// The policy that it goes by.
    pub fn policy(&self) -> EvictionPolicy
        ensures { result ≡ self.now.limits.policy }
    {
        self.policy
    }

    /// The limit on the sum of the weights of its entries.
    pub fn limit(&self) -> usize
        ensures { result ≡ self.now.limits.weight }
    {
        self.limit
    }

    /// The limit on the number of entries, if there is one.
    pub fn watermark(&self) -> Option<usize>
        ensures { result ≡ self.now.limits.watermark }
    {
        self.watermark
    }

    // Whether it has these limits and goes by this policy.
    pub(crate) fn has_limits(
        &self,
        policy: EvictionPolicy,
        limit: usize,
        watermark: Option<usize>,
    ) -> bool
        ensures { IsTrue result ↔ (self.now.limits ≡ limits_of policy limit watermark) }
    {
        self.policy == policy && self.limit == limit && self.watermark == watermark
    }

    /// The manager itself, of which nothing else is left.
    pub fn into_manager(self) -> M
        ensures manager { result ≡ self.manager }
        ensures limits { M.limits result ≡ self.limits }
    {
        let Portion {
            manager,
            policy: _,
            limit: _,
            watermark: _,
        } = self;
        manager
    }

    /// The manager itself, to be asked or saved.
    pub fn manager(&self) -> &M
        ensures manager { result.now ≡ self.now.manager }
        ensures limits { M.limits result.now ≡ self.now.limits }
    {
        &self.manager
    }
}

/// Each call is forwarded to the manager.
impl<M: EvictionManager> EvictionManager for Portion<M> {
    ghost tracked = { λ p. M.tracked p.manager };

    ghost limits = { λ p. p.limits };

    ghost evicted = { λ p. M.evicted p.manager };

    ghost rules = { λ p. M.rules p.manager };

    ghost shown = { λ p. M.shown p.manager };

    fn total_size(&self) -> usize {
        self.manager.total_size()
    }

    fn total_items(&self) -> usize {
        self.manager.total_items()
    }

    fn evicted_size(&self) -> usize {
        self.manager.evicted_size()
    }

    fn evicted_items(&self) -> usize {
        self.manager.evicted_items()
    }

    fn entries(&self) -> Result<Vec<(CacheEntryKey, usize)>, AllocError> {
        self.manager.entries()
    }

    fn admit(
        &mut self,
        item: CacheEntryKey,
        size: usize,
        fresh_until: Moment,
    ) -> Result<Vec<CacheEntryKey>, AllocError> {
        self.manager.admit(item, size, fresh_until)
    }

    fn increment_weight(
        &mut self,
        item: &CacheEntryKey,
        delta: usize,
        max_weight: Option<usize>,
    ) -> Result<Vec<CacheEntryKey>, AllocError> {
        self.manager.increment_weight(item, delta, max_weight)
    }

    fn remove(&mut self, item: &CacheEntryKey) {
        self.manager.remove(item);
    }

    fn access(
        &mut self,
        item: &CacheEntryKey,
        size: usize,
        fresh_until: Moment,
    ) -> Result<bool, AllocError> {
        self.manager.access(item, size, fresh_until)
    }

    fn peek(&self, item: &CacheEntryKey) -> bool {
        self.manager.peek(item)
    }
}
