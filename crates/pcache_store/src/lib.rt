#![tactic(auto)]
//! The store of a cache: complete bodies and writes in flight, the traits through which it is
//! called, and a store in memory.
//!
//! - `storage`: the traits `Storage`, `HandleHit` and `HandleMiss`, and the types of removals.
//! - `memory`: `MemCache`, which keeps everything in memory.
//! - `laws`: what holds of every store that calls led to from an empty one.
//! - `reading`: when a reader of a write has given the whole body, a law of all lists of calls.

pub mod laws;
pub mod memory;
pub mod reading;
pub mod storage;
