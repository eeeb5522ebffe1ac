#![tactic(auto)]
//! A store in memory, an eviction manager and a lock table as one value, for servers: it keeps no history and does not grow
//! with the number of calls, and what it stores is within its manager's limits at all times, whichever calls fail.
//!
//! - `cache`: the value, and its getters
//! - `weighing`: what an entry weighs
//! - `inspect`: its manager, and its invariant
//! - `request`, `put`: a request of it, and a put
//! - `purges`: what it has seen of purges, and when fetches began
//! - `look`, `fill`, `remove`, `locks`, `renew`: the calls of a request, each that of `HttpCache` with the parts
//!   passed
//! - `reweigh`: what the entry of a body weighs once its meta is set
//! - `laws`: what follows for fetches of what a cache has seen of purges
//! - `feed`: the calls of a put, each that of `CachePutCtx`

mod cache;
mod feed;
mod fill;
mod inspect;
pub mod laws;
mod locks;
mod look;
mod purges;
mod put;
mod remove;
mod renew;
mod request;
mod reweigh;
mod weighing;

pub use cache::{Cache, Totals};
pub use purges::Fetch;
pub use put::{LeftWrite, PendingPut};
pub use request::CacheRequest;
pub use weighing::{OVERHEAD, Weighing};
