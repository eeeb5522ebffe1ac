#![tactic(auto)]
//! Which entries of a cache leave it, and when.
//!
//! - `eviction`: the keys of entries, and what an eviction manager is
//! - `eviction::ordered`: managers whose order of entries is promised
//! - `eviction::simple_lru`: the manager with one recency list
//! - `eviction::sharded_lru`: the manager with a recency list for each shard

pub mod eviction;
