//! The keys of rows.
use pcache_base::error::Result;
use pcache_base::key::{CacheHashKey, CacheKey, CompactCacheKey};
use pcache_evict::eviction::{CacheEntryId, CacheEntryKey};
use std::alloc::Global;
use test_rows::key_of;

/// The key with these primary bytes, with a variance if the name ends with `+`.
pub fn key_named(alloc: Global, name: &'static str) -> CacheKey {
    match name.strip_suffix("+") {
        Some(plain) => {
            let mut key = key_of(alloc, plain.as_bytes(), "1");
            key.set_variance_key([0; 16]);
            key
        }
        None => key_of(alloc, name.as_bytes(), "1"),
    }
}

/// The same key as purges take it.
pub fn compact_named(alloc: Global, name: &'static str) -> Result<CompactCacheKey> {
    Ok(key_named(alloc, name).to_compact()?)
}

/// The entry of a key with this number, or the key's only one.
pub fn entry_named(
    alloc: Global,
    name: &'static str,
    number: Option<u64>,
) -> Result<CacheEntryKey> {
    let id = match number {
        Some(number) => Some(CacheEntryId::new(number)),
        None => None,
    };
    match compact_named(alloc, name) {
        Ok(key) => Ok(CacheEntryKey::from_entry_id(key, id)),
        Err(refused) => Err(refused),
    }
}

/// Whether two keys are in different shards.
pub fn are_apart(alloc: Global, one: &'static str, other: &'static str) -> bool {
    key_named(alloc, one).slot() % 16 != key_named(alloc, other).slot() % 16
}
