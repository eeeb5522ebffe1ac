//! An eviction manager that evicts most new entries soon, and keeps those that came in again: 2Q
//! (Johnson, Shasha, VLDB 1994).

use crate::manager;
use crate::reclaim::Queues;
use pcache_base::seed::Seed;

/// A queue for new entries, a main one in the order of uses for those that come in again, and the keys
/// of entries that went from the first.
pub type Manager<S = Seed> = manager::Manager<Queues<S>, S>;
