#![tactic(auto)]
//! Locks on cache keys: one request fills a key while the others wait.
//!
//! - `lock`: permits to fill, read locks that wait for their release, and the table that gives both

pub mod lock;
