//! Stale bodies that are still valid, and what responses vary on.
use crate::mark::Mark;
use crate::request::SharedRequest;
use crate::shared::SharedCache;
use pcache_base::error::Result;
use pcache_base::key::HashBinary;
use pcache_base::reason::NoCacheReason;
use pcache_evict::eviction::EvictionManager;
use pcache_meta::header::ResponseHeader;
use pcache_meta::meta::CacheMeta;
use pcache_request::cache::LockName;
use std::sync::Wait;

impl<M: EvictionManager, K: Mark, const N: usize> SharedCache<M, K, N> {
    ghost use Rattle.std.specs.Prelude.{◌≡◌, IfErr, option_map};
    ghost use Rattle.pcache_base.specs.declared.error.ErrorType.TheVariants.{OutOfMemory};
    ghost use Rattle.pcache_meta.specs.Header.{shown};
    ghost use Rattle.pcache_request.specs.Releasing.{MayRelease};
    ghost use Rattle.pcache_request.specs.Renewals.{renewed};
    ghost use Rattle.pcache_request.specs.Reports.{name_of};
    ghost use Rattle.pcache_request.specs.Requests.{MayWrite};
    ghost use Rattle.pcache_request.specs.Stale.{MayRevalidate, uncacheable};
    ghost use Rattle.pcache_request.specs.Variants.{released_by_variance, varied};
    ghost use Rattle.pcache_cache.specs.Renewing.{named_as};
    ghost use Rattle.pcache_cache.specs.Revalidating.{Revalidates, ServesUncacheable, Varies};
    ghost use Rattle.pcache_shared_cache.specs.Seen.{Goes};

    /// `Cache::revalidate_cache_meta`: takes the meta of a response that says that the stale body is still valid. It is set for the body
    /// that the request found and for no other; the call returns whether it was set.
    /// Ask `may_revalidate` of the request.
    pub fn revalidate_cache_meta<R: Wait>(
        &self,
        rt: &R,
        request: &mut SharedRequest<K, N>,
        meta: CacheMeta,
    ) -> Result<bool>
        requires { MayRevalidate request.old.cache }
        ensures goes { Goes self.now K.names request.old.place request.old.seen request.new.seen
            (Revalidates result meta request.old.cache request.new.cache) }
        ensures request { request.new.cache
            ≡ renewed (named_as request.old.cache.meta meta) request.old.cache }
        ensures place { request.new.place ≡ request.old.place }
        ensures kind { IfErr result (λ e. e ≡ OutOfMemory) }
        ensures fetch { request.new.fetch ≡ request.old.fetch }
    {
        let mut guard = self.part(request.place()).lock(rt);
        let part = &mut *guard;
        let result = part.cache.revalidate_cache_meta(&mut request.request, meta);
        part.log.adds(&part.cache, &mut request.sight);
        result
    }

    /// `Cache::revalidate_uncacheable`: serves the stale body with this header, and does not store the new
    /// response.
    /// Requires the phase Stale with a meta, and with a permit held a reason that its holder can
    /// have; ask `may_revalidate()` and `may_release(reason)` of `cache()`.
    pub fn revalidate_uncacheable<R: Wait>(
        &self,
        rt: &R,
        request: &mut SharedRequest<K, N>,
        header: ResponseHeader,
        reason: NoCacheReason,
    ) -> Option<LockName>
        requires stale { MayRevalidate request.old.cache }
        requires reason { MayRelease reason request.old.cache.held }
        ensures goes { Goes self.now K.names request.old.place request.old.seen request.new.seen
            (ServesUncacheable result (shown header) reason request.old.cache request.new.cache) }
        ensures request { request.new.cache ≡ uncacheable (shown header) reason request.old.cache }
        ensures place { request.new.place ≡ request.old.place }
        ensures released { result ≡ option_map name_of request.old.cache.held }
        ensures fetch { request.new.fetch ≡ request.old.fetch }
    {
        let mut guard = self.part(request.place()).lock(rt);
        let part = &mut *guard;
        let result = part
            .cache
            .revalidate_uncacheable(&mut request.request, header, reason);
        part.log.adds(&part.cache, &mut request.sight);
        result
    }

    /// `Cache::update_variance`: sets what the response varies on, before its write begins. Ask `may_write` of the request.
    pub fn update_variance<R: Wait>(
        &self,
        rt: &R,
        request: &mut SharedRequest<K, N>,
        variance: Option<HashBinary>,
    ) -> Option<LockName>
        requires { MayWrite request.old.cache }
        ensures goes { Goes self.now K.names request.old.place request.old.seen request.new.seen
            (Varies result variance request.old.cache request.new.cache) }
        ensures request { request.new.cache ≡ varied variance request.old.cache }
        ensures place { request.new.place ≡ request.old.place }
        ensures released { result ≡ released_by_variance variance request.old.cache }
        ensures fetch { request.new.fetch ≡ request.old.fetch }
    {
        let mut guard = self.part(request.place()).lock(rt);
        let part = &mut *guard;
        let result = part.cache.update_variance(&mut request.request, variance);
        part.log.adds(&part.cache, &mut request.sight);
        result
    }
}
