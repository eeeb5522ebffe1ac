//! Eviction managers, and their files.

pub use pcache_evict::eviction::{
    CacheEntryId, CacheEntryKey, CacheEntryKeyRef, EvictionManager, EvictionPolicy, sharded_lru,
    simple_lru,
};
pub use pcache_files as files;
pub use pcache_files::device::{CountedRead, CountedWrite};
pub use pcache_files::saved::SavedManager;
pub use pcache_policies::{clock, fifo, s3_fifo, sieve, two_queues};
