#![tactic(auto)]
//! Eviction managers with policies other than least recently used.
//!
//! - `fifo`: one queue, whose oldest entry goes
//! - `clock`: one queue, whose oldest entry goes unless it was used
//! - `one_queue`: what these two are made of
//! - `manager`: the manager of all of them, over a queue
//! - `discipline`: what that queue says, which is the policy
//! - `sieve`: one list with a hand that passes entries that were used, and evicts those that were
//!   not
//! - `ordered`: the orders that these keep, as `OrderedManager` promises them
//! - `s3_fifo`: a small queue for new entries, and a main queue for entries that were used or come
//!   in again
//! - `two_queues`: 2Q, a queue for new entries, and one in the order of uses for entries that come in
//!   again

pub mod clock;
pub mod discipline;
mod evictions;
pub mod fifo;
mod fifos;
mod ghosts;
pub mod manager;
pub mod one_queue;
mod ordered;
mod queue;
mod reclaim;
mod ring;
pub mod s3_fifo;
pub mod sieve;
pub mod two_queues;
