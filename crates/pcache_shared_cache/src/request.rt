//! A request of a cache in parts.
use crate::log::Sight;
use crate::mark::Mark;
use crate::permit::SharedPermit;
use pcache_base::error::Result;
use pcache_base::key::{CacheKey, HashBinary};
use pcache_cache::CacheRequest;
use pcache_meta::meta::CacheMeta;
use pcache_request::cache::{HttpCache, LockName};
use pcache_store::memory::MemCache;
use std::alloc::Global;
use std::marker::Model;

/// What the end of a request gave back: of a request that is gone nothing can be asked any more, so what it has seen of its part's
/// last state is handed to the caller.
#[derive(Drop)]
pub struct Ended<K: Mark> {
    /// The lock that was let go, if the request held one.
    pub released: Option<LockName>,
    /// What the request has seen of its part, with its end.
    pub sight: Sight<K>,
}

/// A request of the cache in `N` parts with the mark `K`. It is made with its key, which determines its part, and keeps both: no
/// call sets another key, and a variance does not change the part: the lock, the write and the reader that it holds are of that
/// part. Therefore its calls are methods here, and not those of a public `HttpCache` as in `CacheRequest`. It knows what it has seen of the part, which has no bytes: all
/// states that the part had up to the request's last call. It must be spent by `SharedCache::end`.
pub struct SharedRequest<K: Mark, const N: usize> {
    pub(crate) sight: Sight<K>,
    pub(crate) request: CacheRequest<K>,
}

impl<K: Mark, const N: usize> Model for SharedRequest<K, N> {
    ghost use Rattle.std.specs.Prelude.{◌<◌};
    ghost use Rattle.pcache_shared_cache.specs.SeenCode.{seated_code};
    ghost use Rattle.pcache_shared_cache.specs.Shared.{Seated};

    ghost Value = { Seated };

    ghost coded = { seated_code };

    ghost view = { λ r. record { place = r.sight.place; seen = r.sight.log; cache = r.request.cache; fetch = r.request.fetch } };

    ghost invariant = { λ r. r.sight.place < N };
}

impl<K: Mark, const N: usize> SharedRequest<K, N> {
    ghost use Rattle.std.specs.Prelude.{◌≡◌, ◌<◌, None, Some, IsSome, IfErr, OnErr, OnOk, not, option_map, true, false};
    ghost use Rattle.std.specs.Option.{option_and_then};
    ghost use Rattle.pcache_base.specs.declared.error.ErrorType.TheVariants.{InternalError};
    ghost use Rattle.pcache_request.specs.LockUse.{permit_in, unheld};
    ghost use Rattle.pcache_request.specs.Phases.{IsOn, IsStale, MayBypass, MayLookUp, MayMiss, WasEnabled};
    ghost use Rattle.pcache_request.specs.Sizes.{is_within, limit_of, with_bytes, with_head_limit, with_limit};
    ghost use Rattle.pcache_store.specs.Store.{sought};
    ghost use Rattle.pcache_request.specs.Releasing.{bypassed};
    ghost use Rattle.pcache_request.specs.Requests.{MayTakeMeta, enabled_with, missed, new_request, with_key, with_meta};
    ghost use Rattle.pcache_request.specs.Stale.{updating};
    ghost use Rattle.pcache_request.specs.Variants.{looks_for_variance, same_variance};
    ghost use mathlib.Core.List.{IsPrefix};
    ghost use Rattle.pcache_shared_cache.specs.Seen.{Begins, IsLog};

    // A request for a key, which has seen this of the key's part.
    pub(crate) fn new(alloc: Global, key: CacheKey, sight: Sight<K>) -> SharedRequest<K, N>
        requires { sight.place < N }
        ensures place { result.place ≡ sight.place }
        ensures seen { result.seen ≡ sight.log }
        ensures request { result.cache
            ≡ with_key key (enabled_with
            (record { eviction = true; predictor = false; lock = true }) new_request) }
        ensures fetch { result.fetch ≡ None }
    {
        let mut request = CacheRequest::new(alloc);
        request.cache.set_cache_key(key);
        SharedRequest { sight, request }
    }

    /// The place of its part.
    pub fn place(&self) -> usize
        ensures place { result ≡ self.now.place }
        ensures in_range { self.now.place < N }
    {
        self.sight.place()
    }

    /// States what is known of all states that it has seen: each is sound (see `Cache::headline`), and calls led from each to the
    /// next, so that the part's limits are the same in all. The call does nothing.
    pub fn headline(&self)
        ensures { IsLog self.now.seen }
    {
        self.sight.headline();
    }

    /// What it has seen, for another request of the part: see `sees`.
    pub fn sight(&self) -> Sight<K>
        ensures { result ≡ record { place = self.now.place; log = self.now.seen } }
    {
        self.sight.again()
    }

    /// Afterwards it has seen what was seen by whoever had this, if that was of the same part, which the mark names. It locks nothing,
    /// and has no cost.
    pub fn sees(&mut self, other: &Sight<K>)
        ensures own { IsPrefix self.old.seen self.new.seen }
        ensures other { other.now.place ≡ self.old.place
            → Begins (K.names self.old.place) other.now.log self.new.seen }
        ensures rest { self.new ≡ record self.old { seen = self.new.seen } }
    {
        self.sight.sees(other);
    }

    /// The request itself, for its getters.
    pub fn cache(&self) -> &HttpCache<MemCache>
        ensures { result.now ≡ self.now.cache }
    {
        &self.request.cache
    }

    /// `HttpCache::cache_miss`: goes on as a miss.
    /// Requires the phase CacheKey, Bypass or Stale; ask `phase().may_miss()` of `cache()`.
    pub fn cache_miss(&mut self)
        requires { MayMiss self.old.cache.phase }
        ensures request { self.new ≡ record self.old { cache = missed self.old.cache } }
        ensures unwritten { self.new.cache.write ≡ None }
    {
        self.request.cache.cache_miss();
    }

    /// `HttpCache::set_cache_meta`: sets the meta of the response that is to be stored.
    /// Requires the phase Miss, or Stale with a meta; ask `may_take_meta()` of `cache()`.
    pub fn set_cache_meta(&mut self, meta: CacheMeta)
        requires { MayTakeMeta self.old.cache }
        ensures { self.new ≡ record self.old { cache = with_meta meta self.old.cache } }
    {
        self.request.cache.set_cache_meta(meta);
    }

    /// `HttpCache::bypass`: bypasses the cache. No shared request uses a predictor, so there is no reason to keep.
    /// Requires the phase CacheKey; ask `phase().may_bypass()` of `cache()`.
    pub fn bypass(&mut self)
        requires { MayBypass self.old.cache.phase }
        ensures { self.new ≡ record self.old { cache = bypassed self.old.cache } }
    {
        self.request.cache.bypass_without_predictor();
    }

    /// `HttpCache::set_stale_updating`: serves the stale body while another request renews it.
    /// Requires the phase Stale; ask `phase().is_stale()` of `cache()`.
    pub fn set_stale_updating(&mut self)
        requires { IsStale self.old.cache.phase }
        ensures { self.new ≡ record self.old { cache = updating self.old.cache } }
    {
        self.request.cache.set_stale_updating();
    }

    /// `HttpCache::cache_vary_lookup`: sets the variance that the next look-up uses.
    /// Requires the phase CacheKey or Stale; ask `phase().may_look_up()` of `cache()`.
    pub fn cache_vary_lookup(&mut self, variance: HashBinary, meta: &CacheMeta) -> bool
        requires { MayLookUp self.old.cache.phase }
        ensures matches { result ≡ same_variance meta.now.variance (Some variance) }
        ensures request { self.new
            ≡ record self.old { cache = looks_for_variance variance meta.now self.old.cache } }
    {
        self.request.cache.cache_vary_lookup(variance, meta)
    }

    /// `HttpCache::seek`: moves the reader to `start`, from where it gives the body again, to before `end` if that is
    /// given. Fails with `InternalError` if the reader follows a write, the body has no byte at `start` or `end` is before
    /// it, and then changes nothing.
    pub fn seek(&mut self, start: usize, end: Option<usize>) -> Result<()>
        requires { IsSome self.old.cache.reader }
        ensures ok { OnOk result (self.new
            ≡ record self.old {
              cache = record self.old.cache {
                reader = option_and_then
                    (λ r. sought r start end) self.old.cache.reader;
              };
            }) }
        ensures there { IsSome self.new.cache.reader }
        ensures refused { OnErr result (option_and_then (λ r. sought r start end)
            self.old.cache.reader
            ≡ None) }
        ensures same { OnErr result (self.new ≡ self.old) }
        ensures kind { IfErr result (λ e. e ≡ InternalError) }
    {
        self.request.cache.seek(start, end)
    }

    /// `HttpCache::set_max_file_size_bytes`: limits the number of the body's bytes, and sets their count to zero.
    pub fn set_max_file_size_bytes(&mut self, max_file_size_bytes: usize)
        requires { IsOn self.old.cache.phase }
        ensures { self.new
            ≡ record self.old { cache = with_limit max_file_size_bytes self.old.cache } }
    {
        self.request
            .cache
            .set_max_file_size_bytes(max_file_size_bytes);
    }

    /// `HttpCache::max_file_size_bytes`: the limit, if there is one.
    pub fn max_file_size_bytes(&self) -> Option<usize>
        requires { WasEnabled self.now.cache.phase }
        ensures { result ≡ option_map limit_of self.now.cache.size }
    {
        self.request.cache.max_file_size_bytes()
    }

    /// `HttpCache::track_body_bytes_for_max_file_size`: counts so many bytes of the body, and returns whether the count is
    /// within the limit. Without a limit it counts nothing, and returns true.
    pub fn track_body_bytes_for_max_file_size(&mut self, bytes_len: usize) -> bool
        requires { WasEnabled self.old.cache.phase }
        ensures request { self.new
            ≡ record self.old { cache = with_bytes bytes_len self.old.cache } }
        ensures within { result ≡ is_within self.new.cache.size }
    {
        self.request
            .cache
            .track_body_bytes_for_max_file_size(bytes_len)
    }

    /// `HttpCache::exceeded_max_file_size`: whether the counted bytes are more than the limit.
    pub fn exceeded_max_file_size(&self) -> bool
        requires { WasEnabled self.now.cache.phase }
        ensures { result ≡ not (is_within self.now.cache.size) }
    {
        self.request.cache.exceeded_max_file_size()
    }

    /// `HttpCache::set_max_head_size_bytes`: limits the length of the head that is stored, in bytes.
    pub fn set_max_head_size_bytes(&mut self, max_head_size_bytes: usize)
        requires { IsOn self.old.cache.phase }
        ensures { self.new
            ≡ record self.old { cache = with_head_limit max_head_size_bytes self.old.cache } }
    {
        self.request
            .cache
            .set_max_head_size_bytes(max_head_size_bytes);
    }

    /// `HttpCache::max_head_size_bytes`: the limit on the length of the head, if there is one.
    pub fn max_head_size_bytes(&self) -> Option<usize>
        ensures { result ≡ self.now.cache.head_limit }
    {
        self.request.cache.max_head_size_bytes()
    }

    /// `HttpCache::take_write_lock`: takes the permit out, so that another request of the same part can
    /// hold it.
    pub fn take_write_lock(&mut self) -> SharedPermit<K, N>
        requires { IsSome (permit_in self.old.cache.held) }
        ensures permit { Some result.permit ≡ permit_in self.old.cache.held }
        ensures place { result.place ≡ self.old.place }
        ensures seen { result.seen ≡ self.old.seen }
        ensures request { self.new ≡ record self.old { cache = unheld self.old.cache } }
    {
        SharedPermit::new(self.sight.again(), self.request.cache.take_write_lock())
    }

    // The request of the part, and what it has seen.
    pub(crate) fn into_both(self) -> (CacheRequest<K>, Sight<K>)
        ensures request { result.0.cache ≡ self.cache }
        ensures fetch { result.0.fetch ≡ self.fetch }
        ensures place { result.1.place ≡ self.place }
        ensures seen { result.1.log ≡ self.seen }
    {
        let SharedRequest { sight, request } = self;
        (request, sight)
    }
}
