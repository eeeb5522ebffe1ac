//! A request of a cache.
ghost use Rattle.std.specs.Prelude.{◌≡◌, None, true, false};
ghost use Rattle.pcache_lock.specs.Locks.{Locks};
ghost use Rattle.pcache_request.specs.Alone.{MayEndAlone};
ghost use Rattle.pcache_request.specs.Requests.{dropped_by, enabled_with, left_by, let_go_by, new_request};
ghost use Rattle.pcache_store.specs.Store.{Store};

use crate::purges::Fetch;
use pcache_request::cache::HttpCache;
use pcache_request::phase::InUse;
use pcache_store::memory::MemCache;
use std::alloc::Global;
use std::marker::PhantomData;

/// A request of the cache with the mark `K`. Calls that need no part of the cache are those of `cache`, which is the request
/// itself; the others are calls of the [`Cache`](crate::Cache) with this mark. It must be spent by `Cache::end`.
pub struct CacheRequest<K> {
    // Public, so that the calls which need no part of the cache are those of the request itself.
    /// The request itself.
    pub cache: HttpCache<MemCache>,
    /// When its fetch began, if that was noted.
    pub fetch: Option<Fetch>,
    of: PhantomData<K>,
}

impl<K> CacheRequest<K> {
    /// A request with caching turned on, which uses the eviction manager and the lock table.
    pub fn new(alloc: Global) -> CacheRequest<K>
        ensures request { result.cache
            ≡ enabled_with (record { eviction = true; predictor = false; lock = true })
            new_request }
        ensures fetch { result.fetch ≡ None }
    {
        let mut cache = HttpCache::new(alloc);
        let uses = InUse {
            eviction: true,
            predictor: false,
            lock: true,
        };
        cache.enable(uses, None);
        CacheRequest {
            cache,
            fetch: None,
            of: PhantomData,
        }
    }

    /// Ends a request that holds nothing of its cache, as `Cache::end` does: any parts would stay as they are, and no lock is let go.
    /// Ask `may_end_alone()` of `cache`.
    pub fn end_alone(self)
        requires { MayEndAlone self.cache }
        ensures store { (s : Store)
            → left_by self.cache.reader (dropped_by self.cache.write s) ≡ s }
        ensures table { (t : Locks) → let_go_by self.cache.held t ≡ t }
    {
        self.into_cache().end_alone();
    }

    // The request itself.
    pub(crate) fn into_cache(self) -> HttpCache<MemCache>
        ensures { result ≡ self.cache }
    {
        let CacheRequest {
            cache,
            fetch: _,
            of: _,
        } = self;
        cache
    }
}
