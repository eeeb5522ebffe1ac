//! The meta of a stored response, and the defaults for responses that say nothing.

pub use pcache_control::defaults::{CacheMetaDefaults, FreshDurationByStatusFn};
pub use pcache_meta::meta::{CacheMeta, codec, internal_meta, spelled};
