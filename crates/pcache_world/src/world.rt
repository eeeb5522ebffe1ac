//! Requests and puts over one store, one eviction manager and one lock table, with the history of
//! their calls.

mod fill;
mod give;
mod locks;
mod look;
mod notes;
mod open;
mod parts;
pub mod policy;
mod puts;
mod reads;
mod remove;
mod request;
mod switch;
mod turn;
mod vary;
mod world_type;

pub use pcache_history::{call, entry, laws, tokens};
pub use pcache_put::boxed;
pub use world_type::{Totals, World};
