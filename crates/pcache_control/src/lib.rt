#![tactic(auto)]
//! Cache-Control and freshness: whether a response may be stored, and until when it is fresh (RFC
//! 9111). Nothing here depends on a store.
//!
//! - `cache_control`: the directives of a request's or a response's Cache-Control, and what they say.
//!   Its parts: `scan` finds the directives of a line, `key` has their names and `value` their
//!   values, `hashing` hashes names, `seconds` reads numbers of seconds, `interpret` says what a
//!   response may be used for.
//! - `defaults`: default lifetimes and windows, for a response that says nothing.
//! - `filters`: which requests and responses may be cached, until when a response is fresh, and how a
//!   request goes to the origin.
//! - `response`: whether a response is stored: a meta to store it with, or a reason not to.

pub mod cache_control;
pub mod defaults;
pub mod filters;
pub mod hashing;
pub mod interpret;
pub mod key;
pub mod response;
pub mod scan;
pub mod seconds;
pub mod value;

pub use defaults::{CacheMetaDefaults, FreshDurationByStatusFn};
pub use response::RespCacheable;
