#![tactic(auto)]
//! One request's way through the cache.
//!
//! - `cache`: `HttpCache`, one request over a storage, an eviction manager and a lock table
//! - `digest`: what a request measured
//! - `phase`: the phase of a request, and the status of a hit

pub mod cache;
pub mod digest;
pub mod phase;
mod trace;

pub use cache::{CacheOptionOverrides, FinishReport, HttpCache, LockCtx};
pub use digest::{HttpCacheDigest, LockAbandon};
pub use phase::{CachePhase, ForcedFreshness, HitStatus, InUse};
