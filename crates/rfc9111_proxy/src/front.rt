//! The cache of the proxy, and requests of it.
ghost use Rattle.std.specs.Prelude.{◌≡◌, IfOk, true};
ghost use Rattle.pingora_cache.specs.Words.{CacheKey};

use crate::kept::with_asked;
use http_header::HeaderMap;
use pingora_cache::decisions::responses::Kept;
use pingora_cache::error::Result;
use pingora_cache::eviction::simple_lru::Manager;
use pingora_cache::moment::Moment;
use pingora_cache::seed::Seed;
use pingora_cache::{Cache, CacheMeta, CacheRequest};
use std::alloc::Global;
use std::time::Duration;

// After how many seconds another request may fill a key whose permit was not released.
const AGE_TIMEOUT_SECS: u64 = 10;

// No constant names the largest moment; the last whole second serves as never.
const FOREVER_SECS: u64 = u64::MAX;

/// Names the cache: its requests cannot be used with the parts of another.
pub struct Proxy;

/// A store in memory, an eviction manager with one recency list, and a lock table.
pub type ProxyCache = Cache<Manager, Proxy>;

/// A request of it.
pub type Request = CacheRequest<Proxy>;

/// An empty cache, whose bodies have at most `limit` bytes together.
pub fn new_cache(alloc: Global, seed: Seed, limit: usize) -> Result<ProxyCache> {
    let manager = Manager::new(alloc, seed, limit)?;
    let age_timeout = Duration::from_secs(AGE_TIMEOUT_SECS);
    Ok(Cache::new(alloc, seed, manager, age_timeout))
}

/// A request for a target, with caching turned on and the key set.
pub fn request_for(alloc: Global, target: &[u8]) -> Result<Request>
    ensures phase { IfOk result (λ r. r.cache.phase ≡ CacheKey) }
    ensures uses { IfOk result (λ r. r.cache.uses.eviction ≡ true) }
{
    let primary = target.to_vec(alloc)?;
    let mut request = CacheRequest::new(alloc);
    request
        .cache
        .set_cache_key(pingora_cache::CacheKey::new(primary, String::new(alloc)));
    Ok(request)
}

/// The meta of what is stored from this moment on, for a request with these fields.
pub fn meta_of(alloc: Global, kept: Kept, asked: &HeaderMap, now: Moment) -> Result<CacheMeta> {
    let fresh = Duration::from_secs(u64::from(kept.lifetime.seconds()));
    let fresh_until = now
        .checked_add(fresh)
        .unwrap_or(Moment::from_secs(FOREVER_SECS));
    let mut head = kept.head;
    let headers = with_asked(alloc, &head.headers, asked)?;
    head.headers = headers;
    Ok(CacheMeta::new(fresh_until, now, 0, 0, head))
}
