//! The parts that requests borrow.
ghost use Rattle.std.specs.Prelude.{◌≡◌, IfOk};
ghost use Rattle.pingora_cache.specs.Words.{CacheKey};

use pingora_cache::error::Result;
use pingora_cache::eviction::simple_lru::Manager;
use pingora_cache::lock::CacheLock;
use pingora_cache::seed::Seed;
use pingora_cache::{HttpCache, InUse, MemCache};
use std::alloc::Global;
use std::time::Duration;

// After how many seconds another request may fill a key whose permit was not released.
const AGE_TIMEOUT_SECS: u64 = 10;

/// A request over a store in memory.
pub type Request = HttpCache<MemCache>;

/// One store, one eviction manager and one lock table, which any number of requests borrow.
#[derive(Drop)]
pub struct Parts {
    /// The allocator of keys and requests.
    pub alloc: Global,
    /// The store.
    pub store: MemCache,
    /// The eviction manager.
    pub manager: Manager,
    /// The lock table.
    pub lock: CacheLock,
}

impl Parts {
    /// Empty parts, whose bodies have at most `limit` bytes together. The clients choose the keys, so
    /// the seed has to be drawn at random.
    pub fn new(alloc: Global, seed: Seed, limit: usize) -> Result<Parts> {
        Ok(Parts {
            alloc,
            store: MemCache::new(alloc, seed),
            manager: Manager::new(alloc, seed, limit)?,
            lock: CacheLock::new(alloc, Duration::from_secs(AGE_TIMEOUT_SECS)),
        })
    }
}

/// A request for a path, with caching turned on and the key set.
pub fn request_for(alloc: Global, path: &str) -> Result<Request>
    ensures { IfOk result (λ request. request.phase ≡ CacheKey) }
{
    let primary = path.as_bytes().to_vec(alloc)?;
    let key = pingora_cache::CacheKey::new(primary, String::new(alloc));
    let mut request = HttpCache::new(alloc);
    let uses = InUse {
        eviction: true,
        predictor: false,
        lock: true,
    };
    request.enable(uses, None);
    request.set_cache_key(key);
    Ok(request)
}
