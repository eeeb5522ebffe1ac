//! Tokens that a call publishes.
use crate::listed::Listed;

/// Tokens of what was found out about a fill, in the order in which they are published. A contract
/// sees the list.
pub type Tokens = Listed<u64>;
