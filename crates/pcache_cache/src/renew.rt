//! Stale bodies that are still valid, and what responses vary on.
ghost use Rattle.std.specs.Prelude.{◌≡◌};
ghost use Rattle.pcache_request.specs.Stale.{MayRevalidate};
ghost use Rattle.pcache_cache.specs.Renewing.{named_as};

use crate::cache::Cache;
use crate::request::CacheRequest;
use crate::reweigh::set_own_meta;
use pcache_base::error::Result;
use pcache_base::key::HashBinary;
use pcache_base::reason::NoCacheReason;
use pcache_evict::eviction::EvictionManager;
use pcache_meta::header::ResponseHeader;
use pcache_meta::meta::CacheMeta;
use pcache_request::cache::{HttpCache, LockName};
use pcache_store::memory::MemCache;

// The meta of a response that says that the request's stale body is still valid, with the number of that body's write.
fn named_as(request: &HttpCache<MemCache>, meta: CacheMeta) -> CacheMeta
    requires { MayRevalidate request.now }
    ensures { result ≡ named_as request.now.meta meta }
{
    let Some(old) = request.meta() else {
        unreachable!()
    };
    let mut meta = meta;
    meta.set_entry_id(old.entry_id());
    meta
}

impl<M: EvictionManager, K> Cache<M, K> {
    ghost use Rattle.std.specs.Prelude.{◌≡◌};
    ghost use Rattle.pcache_meta.specs.Header.{shown};
    ghost use Rattle.pcache_request.specs.Releasing.{MayRelease};
    ghost use Rattle.pcache_request.specs.Requests.{MayWrite};
    ghost use Rattle.pcache_request.specs.Stale.{MayRevalidate};
    ghost use Rattle.pcache_cache.specs.Revalidating.{Revalidates, ServesUncacheable, Varies};

    /// `HttpCache::revalidate_cache_meta`: takes the meta of a response that says that the stale body is still valid. It is set for the
    /// body that the request found and for no other: where that is no longer the complete body of the key, nothing is set, the call
    /// returns `false`, and the response is for this request alone. If the body's entry weighs something else with that meta, it is
    /// admitted anew, and what is evicted for it is purged: nothing, where nothing is tracked beside what is stored, and the body has
    /// room beside the others with what it weighs then (`Revalidates.room`); if memory is refused for that, the body is removed. Ask
    /// `may_revalidate` of the request.
    pub fn revalidate_cache_meta(
        &mut self,
        request: &mut CacheRequest<K>,
        meta: CacheMeta,
    ) -> Result<bool>
        requires { MayRevalidate request.old.cache }
        ensures takes { Revalidates result meta request.old.cache request.new.cache self.old
            self.new }
        ensures fetch { request.new.fetch ≡ request.old.fetch }
    {
        // For the prover: a complete body has the number of its write.
        self.store.headline();
        let meta = named_as(&request.cache, meta);
        let _released = request.cache.renew_request(&mut self.lock, meta);
        match (request.cache.key(), request.cache.meta()) {
            (Some(key), Some(meta)) => set_own_meta(
                self.alloc,
                self.weighing,
                &mut self.store,
                &mut self.manager,
                key,
                meta,
            ),
            _ => unreachable!(),
        }
    }

    /// `HttpCache::revalidate_uncacheable`: serves the stale body with this header, and does not store the new
    /// response.
    /// Requires the phase Stale with a meta, and with a permit held a reason that its holder can
    /// have; ask `may_revalidate()` and `may_release(reason)` of the request.
    pub fn revalidate_uncacheable(
        &mut self,
        request: &mut CacheRequest<K>,
        header: ResponseHeader,
        reason: NoCacheReason,
    ) -> Option<LockName>
        requires stale { MayRevalidate request.old.cache }
        requires reason { MayRelease reason request.old.cache.held }
        ensures takes { ServesUncacheable result (shown header) reason request.old.cache
            request.new.cache self.old self.new }
        ensures fetch { request.new.fetch ≡ request.old.fetch }
    {
        request
            .cache
            .revalidate_uncacheable(&mut self.lock, header, reason)
    }

    /// `HttpCache::update_variance`: sets what the response varies on, before its write begins. Ask `may_write` of the request.
    pub fn update_variance(
        &mut self,
        request: &mut CacheRequest<K>,
        variance: Option<HashBinary>,
    ) -> Option<LockName>
        requires { MayWrite request.old.cache }
        ensures takes { Varies result variance request.old.cache request.new.cache self.old
            self.new }
        ensures fetch { request.new.fetch ≡ request.old.fetch }
    {
        request.cache.update_variance(&mut self.lock, variance)
    }
}
