//! The names of policies.

/// Which policy the entries of a manager go by. No call changes a manager's policy.
#[derive(Clone, Copy, Debug, PartialEq, Eq)]
pub enum EvictionPolicy {
    /// The entry that was used least recently goes.
    Lru,
    /// Each entry is in the list of its key's shard, and of some list that which was used least
    /// recently goes.
    ShardedLru,
    /// The oldest entry goes.
    Fifo,
    /// The oldest entry goes that was not used since a hand last passed it.
    Clock,
    /// A hand passes entries that were used, and one that was not goes; those that stay keep their
    /// places.
    Sieve,
    /// A small queue for new entries, and a main queue for entries that were used or come in again.
    S3Fifo,
    /// A queue for new entries, and one in the order of uses for entries that come in again.
    TwoQueues,
    /// One of a manager that is not of these crates.
    Own,
}
