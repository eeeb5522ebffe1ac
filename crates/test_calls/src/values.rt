//! Of a response, a manager, a removal and a table.
use pcache_base::key::CompactCacheKey;
use pcache_control::response::RespCacheable;
use pcache_evict::eviction::sharded_lru::Manager;
use pcache_evict::eviction::{CacheEntryId, CacheEntryKey, CacheEntryKeyRef};
use pcache_meta::meta::CacheMeta;
use pcache_store::storage::PurgeTarget;
use pcache_table::hashtable::ConcurrentHashTable;
use std::sync::Wait;

/// The meta to store a response with, if it is to be stored.
pub fn meta_of(response: RespCacheable) -> Option<CacheMeta> {
    if response.is_cacheable() {
        return Some(response.unwrap_meta());
    }
    None
}

/// The weight of a shard, if there is one of this number.
pub fn weight_of<const N: usize>(manager: &Manager<N>, shard: usize) -> Option<usize> {
    if shard < N {
        return Some(manager.shard_weight(shard));
    }
    None
}

/// The entry that goes when a key is removed, and the removal returned this number.
pub fn gone_for_a_key<'a>(
    key: &'a CompactCacheKey,
    id: Option<CacheEntryId>,
) -> CacheEntryKeyRef<'a> {
    PurgeTarget::Active(key).removed_entry(id)
}

/// The entry that goes when it is removed itself, and the removal returned no number.
pub fn gone_for_an_entry<'a>(entry: &'a CacheEntryKey) -> CacheEntryKeyRef<'a> {
    PurgeTarget::Exact(entry).removed_entry(None)
}

/// How many entries a table behind locks has.
pub fn entries_of<R: Wait>(rt: &R, table: &ConcurrentHashTable<u64, 4>) -> u64 {
    let mut count = 0u64;
    table.for_each(rt, |_key: &u128, _value: &u64| {
        count = count.saturating_add(1);
    });
    count
}
