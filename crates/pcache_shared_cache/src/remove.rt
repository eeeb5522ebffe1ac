//! Removals.
use crate::mark::Mark;
use crate::request::SharedRequest;
use crate::shared::SharedCache;
use pcache_base::error::Result;
use pcache_base::moment::Moment;
use pcache_evict::eviction::EvictionManager;
use std::sync::Wait;

impl<M: EvictionManager, K: Mark, const N: usize> SharedCache<M, K, N> {
    ghost use Rattle.std.specs.Prelude.{◌≡◌, IfErr};
    ghost use Rattle.pcache_base.specs.declared.error.ErrorType.TheVariants.{OutOfMemory};
    ghost use Rattle.pcache_request.specs.Phases.{MayPurge, MaySpawnPurge};
    ghost use Rattle.pcache_cache.specs.Removing.{Expires, Purges};
    ghost use Rattle.pcache_shared_cache.specs.Seen.{Goes};

    /// `Cache::purge`: removes what is stored for the key, and its entry from the manager. Returns whether anything was stored.
    /// Requires the phase CacheKey; ask `phase().may_purge()` of `cache()`.
    pub fn purge<R: Wait>(&self, rt: &R, request: &mut SharedRequest<K, N>) -> Result<bool>
        requires { MayPurge request.old.cache.phase }
        ensures goes { Goes self.now K.names request.old.place request.old.seen request.new.seen
            (Purges result request.old.cache request.new.cache) }
        ensures rest { request.new ≡ record request.old { seen = request.new.seen } }
        ensures kind { IfErr result (λ e. e ≡ OutOfMemory) }
    {
        let mut guard = self.part(request.place()).lock(rt);
        let part = &mut *guard;
        let result = part.cache.purge(&mut request.request);
        part.log.adds(&part.cache, &mut request.sight);
        result
    }

    /// `Cache::spawn_async_purge`: the same in any phase with a key. It is done at once, and the context is not read.
    /// Requires a phase that is neither Disabled nor Uninit; ask `phase().may_spawn_purge()` of
    /// `cache()`.
    pub fn spawn_async_purge<R: Wait>(
        &self,
        rt: &R,
        request: &mut SharedRequest<K, N>,
        context: &'static str,
    ) -> Result<bool>
        requires { MaySpawnPurge request.old.cache.phase }
        ensures goes { Goes self.now K.names request.old.place request.old.seen request.new.seen
            (Purges result request.old.cache request.new.cache) }
        ensures rest { request.new ≡ record request.old { seen = request.new.seen } }
        ensures kind { IfErr result (λ e. e ≡ OutOfMemory) }
    {
        let mut guard = self.part(request.place()).lock(rt);
        let part = &mut *guard;
        let result = part.cache.spawn_async_purge(&mut request.request, context);
        part.log.adds(&part.cache, &mut request.sight);
        result
    }

    /// `Cache::expire`: ends the freshness of what is stored for the key. Returns whether there was a
    /// body.
    /// Requires the phase CacheKey; ask `phase().may_purge()` of `cache()`.
    pub fn expire<R: Wait>(
        &self,
        rt: &R,
        request: &mut SharedRequest<K, N>,
        now: Moment,
    ) -> Result<bool>
        requires { MayPurge request.old.cache.phase }
        ensures goes { Goes self.now K.names request.old.place request.old.seen request.new.seen
            (Expires result now request.old.cache request.new.cache) }
        ensures rest { request.new ≡ record request.old { seen = request.new.seen } }
        ensures kind { IfErr result (λ e. e ≡ OutOfMemory) }
    {
        let mut guard = self.part(request.place()).lock(rt);
        let part = &mut *guard;
        let result = part.cache.expire(&mut request.request, now);
        part.log.adds(&part.cache, &mut request.sight);
        result
    }
}
