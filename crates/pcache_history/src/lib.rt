#![tactic(auto)]
//! What is promised of a cache: histories of calls, and the laws of all legal ones.
//!
//! - `call`: the calls of requests and puts, and the replies
//! - `entry`: what a history records of a call
//! - `tokens`: what a call publishes
//! - `listed`: the lists in all of these
//! - `laws`: what holds of every legal history
//!
//! Nothing here has a store, a lock table or an eviction manager: its `specs/` state what is promised,
//! independently of the code that keeps it.

pub mod call;
mod call_copy;
pub mod entry;
pub mod laws;
pub mod listed;
pub mod tokens;
