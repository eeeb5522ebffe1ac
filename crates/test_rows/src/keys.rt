//! Keys of tests.
use pcache_base::key::CacheKey;
use std::alloc::Global;

/// The key with these primary bytes and this tag. If memory runs out, it is another one.
pub fn key_of(alloc: Global, name: &[u8], tag: &str) -> CacheKey {
    let mut primary = Vec::new(alloc);
    let _is_whole = primary.extend_from_slice(name).is_ok();
    let mut user_tag = String::new(alloc);
    let _is_whole = user_tag.push_str(tag).is_ok();
    CacheKey::new(primary, user_tag)
}
