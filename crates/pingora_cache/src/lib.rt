#![tactic(auto)]
//! A cache for HTTP proxies: all that a server's author names, in one crate.
//!
//! - `Cache`: a store, an eviction manager and a lock table as one value, for one thread; its requests and puts
//! - `SharedCache`: the same in parts, each behind a lock of its own, for many threads
//! - `HttpCache`: a request alone, whose caller keeps the store, the manager and the lock table
//! - `eviction`, `lock`, `meta`, `put`: items of several crates under one name
//! - `decisions`: what RFC 9111 says of a request and of a response, in one call each
//!
//! Nothing is defined here. The crates below are handed on under the names of their modules, which are those of
//! `pingora-cache`; and their definitions that a proxy's contracts use by `specs/Words.antt`. Worlds and tables in shards are not among
//! them, so that no server has a world to prove: who wants these names `pcache_world`, `pcache_shared_world` or `pcache_table`.

pub mod eviction;
pub mod lock;
pub mod meta;
pub mod prelude;
pub mod put;

pub use pcache_base::key::CacheKey;
pub use pcache_base::reason::NoCacheReason;
pub use pcache_base::seed::Seed;
pub use pcache_base::variance::VarianceBuilder;
pub use pcache_base::{error, key, moment, poll, reason, seed, text, variance};
pub use pcache_cache::{Cache, CacheRequest, Fetch, LeftWrite, PendingPut, Totals};
pub use pcache_control::{CacheMetaDefaults, RespCacheable, cache_control, filters};
pub use pcache_decisions as decisions;
pub use pcache_evict::eviction::{CacheEntryId, CacheEntryKey, CacheEntryKeyRef};
pub use pcache_meta::meta::CacheMeta;
pub use pcache_meta::{header, trace};
pub use pcache_predict::{admission, predictor};
pub use pcache_request::{
    CacheOptionOverrides, CachePhase, FinishReport, ForcedFreshness, HitStatus, HttpCache,
    HttpCacheDigest, InUse, LockAbandon, LockCtx, cache, digest, phase,
};
pub use pcache_response::{max_file_size, response_parse};
pub use pcache_shared_cache::{
    Mark, NewPart, OverParts, Portion, SharedCache, SharedPermit, SharedPut, SharedRequest,
    Unnamed, Unused, new_lists, new_parts, over_parts, place_of, portion_of, portion_of_watermark,
};
pub use pcache_store::memory::MemCache;
pub use pcache_store::storage::{
    HitHandler, MissHandler, PurgeAction, PurgeOutcome, PurgeTarget, PurgeType, Storage,
};
pub use pcache_store::{memory, storage};
