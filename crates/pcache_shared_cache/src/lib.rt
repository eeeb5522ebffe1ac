#![tactic(auto)]
//! A cache in parts, each behind a lock of its own, which threads call side by side. Each part keeps its own limits at all
//! times, so that all of them together keep the whole limits.
//!
//! No closure of a caller runs under a lock, so the look-up that asks an admission policy is not offered: who wants one asks it
//! before.
//!
//! - `split`: how a limit is split among parts, and which part a key belongs to
//! - `portion`: an eviction manager with its limits as numbers
//! - `mark`: what names the parts of one cache; `log`: the log of a part's states, and what was seen of it
//! - `part`: one part behind its lock; `opening`: parts that are to be made
//! - `request`, `put`: a request, whose part is that of its key, and a put
//! - `permit`: a permit that goes from one request to another
//! - `shared`: the cache, and its getters; `counts`: what one part has stored, for callers who have seen it
//! - `lists`: parts over recency lists
//! - `look`, `fill`, `remove`, `locks`, `renew`: the calls of a request, each that of `Cache` under the lock of its part
//! - `feed`: the calls of a put, likewise
//! - `laws`: what follows for all parts together

mod counts;
mod feed;
mod fill;
pub mod laws;
mod lists;
mod locks;
mod log;
mod look;
mod mark;
mod opening;
mod part;
mod permit;
mod portion;
mod put;
mod remove;
mod renew;
mod request;
mod shared;
mod split;

pub use lists::new_lists;
pub use log::Sight;
pub use mark::{Mark, Unnamed};
pub use opening::{NewPart, OverParts, Unused, new_parts, over_parts};
pub use permit::SharedPermit;
pub use portion::Portion;
pub use put::SharedPut;
pub use request::{Ended, SharedRequest};
pub use shared::SharedCache;
pub use split::{place_of, portion_of, portion_of_watermark};
