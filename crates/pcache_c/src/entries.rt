//! The keys of entries of eviction managers.
ghost use Rattle.pcache_c.specs.Managers.{MakesEntry};

use crate::codes::{BAD_VALUE, NO_MEMORY};
use crate::hashes::{hash_from, variance_from};
use pcache_base::key::CompactCacheKey;
use pcache_base::text::Text;
use pcache_evict::eviction::{CacheEntryId, CacheEntryKey};
use std::alloc::Global;

/// The parts of an entry's key besides the hash and the tag. A number counts only if its flag is
/// not 0.
#[repr(C)]
#[derive(Clone, Copy)]
pub struct PcacheEntry {
    /// The entry's number, if a key has several entries.
    pub id: u64,
    /// Whether it has a number.
    pub has_id: u32,
    /// Whether there is a variance.
    pub has_variance: u32,
    /// The bytes of the tag of the user whom the entry is counted for.
    pub tag_len: usize,
}

/// The key of an entry from a primary hash, a variance (of no bytes for none), a tag, which is
/// UTF-8, and a number if there is one.
pub(crate) fn entry_from(
    alloc: Global,
    primary: &[u8],
    variance: &[u8],
    tag: &[u8],
    entry: &PcacheEntry,
) -> Result<CacheEntryKey, u32>
    ensures { MakesEntry primary.now variance.now tag.now entry.now result }
{
    let Some(primary) = hash_from(primary) else {
        return Err(BAD_VALUE);
    };
    let variance = variance_from(variance)?;
    let Ok(tag) = std::str::from_utf8(tag) else {
        return Err(BAD_VALUE);
    };
    let Ok(tag) = tag.to_string(alloc) else {
        return Err(NO_MEMORY);
    };
    let key = CompactCacheKey {
        primary,
        variance,
        user_tag: Text::new(tag),
    };
    let id = if entry.has_id != 0 {
        Some(CacheEntryId::new(entry.id))
    } else {
        None
    };
    Ok(CacheEntryKey::from_entry_id(key, id))
}
