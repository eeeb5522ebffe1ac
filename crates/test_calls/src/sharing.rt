//! Of one part of a cache that threads share.
use pcache_evict::eviction::EvictionManager;
use pcache_shared_cache::{Mark, SharedCache, Sight};
use std::sync::Wait;

/// The bytes of the bodies of the part that was looked at, if the cache has it.
pub fn bytes_in_part<M: EvictionManager, K: Mark, R: Wait, const N: usize>(
    rt: &R,
    cache: &SharedCache<M, K, N>,
    sight: &mut Sight<K>,
) -> Option<u128> {
    if sight.place() < N {
        return Some(cache.stored_bytes_of(rt, sight));
    }
    None
}

/// The number of its bodies.
pub fn bodies_in_part<M: EvictionManager, K: Mark, R: Wait, const N: usize>(
    rt: &R,
    cache: &SharedCache<M, K, N>,
    sight: &mut Sight<K>,
) -> Option<usize> {
    if sight.place() < N {
        return Some(cache.slots_of(rt, sight));
    }
    None
}
