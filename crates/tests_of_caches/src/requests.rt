//! Caches and requests, and what they are made of.
use http::StatusCode;
use http_header::{HeaderValue, VARY};
use pcache_base::error::Result;
use pcache_base::moment::Moment;
use pcache_base::seed::Seed;
use pcache_cache::{Cache, CacheRequest};
use pcache_evict::eviction::simple_lru::Manager;
use pcache_meta::header::ResponseHeader;
use pcache_meta::meta::CacheMeta;
use std::alloc::Global;
use std::time::Duration;

/// The moment of all calls that name none.
pub const NOW: Moment = Moment::EPOCH;

/// Names the cache of a test.
pub struct OfTest;

/// A cache over one recency list.
pub type List = Cache<Manager, OfTest>;

/// A request of a cache.
pub type Request = CacheRequest<OfTest>;

/// A cache with nothing stored, in which bodies may have `limit` bytes together.
pub fn list_of(alloc: Global, limit: usize) -> Result<List> {
    let seed = Seed::fixed();
    let manager = Manager::new(alloc, seed, limit)?;
    Ok(Cache::new(alloc, seed, manager, Duration::from_secs(10)))
}

// Adds a field `vary` with this value, and returns whether it was taken.
fn vary(alloc: Global, header: &mut ResponseHeader, value: &str) -> bool {
    match HeaderValue::from_bytes(alloc, value.as_bytes()) {
        Ok(value) => header.headers.append(VARY, value).is_ok(),
        Err(_refused) => false,
    }
}

/// A meta of a response that is fresh for a minute, whose head has the field `vary` with this value, if it has a byte.
pub fn meta_of(alloc: Global, value: &str) -> CacheMeta {
    let mut header = ResponseHeader::build(alloc, StatusCode::OK);
    let _is_whole = value.is_empty() || vary(alloc, &mut header, value);
    CacheMeta::new(Moment::from_secs(60), NOW, 0, 0, header)
}
