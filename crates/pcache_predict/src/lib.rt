#![tactic(auto)]
//! What is predicted of keys before the origin is asked.
//!
//! - `predictor`: which keys' responses are predicted not to be cacheable
//! - `marked_keys`: the lists of marked keys that it keeps
//! - `admission`: whether a key's response is worth storing yet

pub mod admission;
mod marked_keys;
pub mod predictor;
