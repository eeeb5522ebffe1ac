//! A cache as one value, and requests of it: what the short examples share.
ghost use Rattle.std.specs.Prelude.{◌≡◌, IfOk, true};
ghost use Rattle.pingora_cache.specs.Words.{CacheKey};

use bytes::Bytes;
use http::StatusCode;
use pingora_cache::error::Result;
use pingora_cache::eviction::simple_lru::Manager;
use pingora_cache::header::ResponseHeader;
use pingora_cache::moment::Moment;
use pingora_cache::seed::Seed;
use pingora_cache::{Cache, CacheMeta, CacheRequest};
use std::alloc::Global;
use std::time::Duration;

// After how many seconds another request may fill a key whose permit was not released.
const AGE_TIMEOUT_SECS: u64 = 10;

// For how many seconds a response is fresh, and may then be served stale while it is renewed.
const FRESH_SECS: u64 = 60;

const STALE_SECS: u32 = 30;

// No constant names the largest moment; the last whole second serves as never.
const FOREVER_SECS: u64 = u64::MAX;

/// Names the cache: its requests cannot be used with the parts of another.
pub struct Front;

/// A store in memory, an eviction manager with one recency list, and a lock table.
pub type FrontCache = Cache<Manager, Front>;

/// A request of it.
pub type Request = CacheRequest<Front>;

/// An empty cache, whose bodies have at most `limit` bytes together.
pub fn new_cache(alloc: Global, seed: Seed, limit: usize) -> Result<FrontCache> {
    let manager = Manager::new(alloc, seed, limit)?;
    let age_timeout = Duration::from_secs(AGE_TIMEOUT_SECS);
    Ok(Cache::new(alloc, seed, manager, age_timeout))
}

/// A request for a path, with caching turned on and the key set.
pub fn request_for(alloc: Global, path: &str) -> Result<Request>
    ensures phase { IfOk result (λ r. r.cache.phase ≡ CacheKey) }
    ensures uses { IfOk result (λ r. r.cache.uses.eviction ≡ true) }
{
    let primary = path.as_bytes().to_vec(alloc)?;
    let mut request = CacheRequest::new(alloc);
    request
        .cache
        .set_cache_key(pingora_cache::CacheKey::new(primary, String::new(alloc)));
    Ok(request)
}

/// The meta of a response that was received now: fresh for a minute, and may be served stale for another half minute while it
/// is renewed.
pub fn meta_of(alloc: Global, now: Moment) -> CacheMeta {
    let fresh_until = now
        .checked_add(Duration::from_secs(FRESH_SECS))
        .unwrap_or(Moment::from_secs(FOREVER_SECS));
    let header = ResponseHeader::build(alloc, StatusCode::OK);
    CacheMeta::new(fresh_until, now, STALE_SECS, 0, header)
}

/// Fills the key of a request that may fill it: a miss, whose body comes in one piece. Returns whether it is stored.
pub fn fill(cache: &mut FrontCache, request: &mut Request, body: Bytes, now: Moment) -> Result<bool>
    requires phase { request.old.cache.phase ≡ CacheKey }
    requires uses { request.old.cache.uses.eviction ≡ true }
{
    request.cache.cache_miss();
    request.cache.set_cache_meta(meta_of(cache.alloc(), now));
    cache.set_miss_handler(request)?;
    cache.write_body(request, body, true)?;
    Ok(cache.finish_miss_handler(request)?.is_some())
}
