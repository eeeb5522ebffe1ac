//! Of a request.
use pcache_base::error::Result;
use pcache_base::reason::NoCacheReason;
use pcache_meta::header::{RespHeader, ResponseHeader};
use pcache_meta::meta::CacheMeta;
use pcache_predict::predictor::CacheablePredictor;
use pcache_request::HttpCache;
use pcache_store::storage::{HandleHit, Storage};

/// What a hit weighs, in a phase in which a body is read.
pub fn weight_of_hit<S: Storage>(request: &mut HttpCache<S>) -> Option<usize> {
    if request.phase().is_reading() && request.has_body_reader() {
        return Some(request.hit_handler().get_eviction_weight());
    }
    None
}

/// The renewed head of a stale body.
pub fn renewed_head<S: Storage>(
    request: &HttpCache<S>,
    answer: &RespHeader,
) -> Result<Option<ResponseHeader>> {
    if !request.may_revalidate() {
        return Ok(None);
    }
    Ok(Some(request.revalidate_merge_header(answer)?))
}

/// The meta of the body that is read, if there is one.
pub fn meta_of<S: Storage>(request: &HttpCache<S>) -> Option<&CacheMeta> {
    if request.has_cache_meta() {
        return Some(request.cache_meta());
    }
    None
}

/// Tells a predictor that the response of a request with a key was cacheable.
pub fn told_cacheable<S: Storage, P: CacheablePredictor>(
    request: &HttpCache<S>,
    predictor: &mut P,
) -> Option<bool> {
    if request.maybe_cache_key().is_none() {
        return None;
    }
    request.response_became_cacheable(predictor)
}

/// Tells a predictor that it was not.
pub fn told_uncacheable<S: Storage, P: CacheablePredictor>(
    request: &HttpCache<S>,
    predictor: &mut P,
    reason: NoCacheReason,
) -> Result<Option<bool>> {
    if request.maybe_cache_key().is_none() {
        return Ok(None);
    }
    request.response_became_uncacheable(predictor, reason)
}

/// How often a request with caching on may look up again.
pub fn retries_of<S: Storage>(request: &HttpCache<S>) -> Option<usize> {
    if request.phase().is_on() {
        return request.cache_lock_max_retries();
    }
    None
}

/// Tags a request with caching on.
pub fn tag<S: Storage>(request: &mut HttpCache<S>) {
    if request.phase().is_on() {
        request.tag_as_subrequest();
    }
}
