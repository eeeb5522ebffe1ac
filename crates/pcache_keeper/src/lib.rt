#![tactic(auto)]
//! Who may say what happened to a value under a lock, and what was seen of it. Neither has bytes, and no call does anything at
//! run time.
//!
//! - `tokens`: the keeper of a log, which lies under the lock, and what callers have seen of the log

mod tokens;

pub use crate::tokens::{Keeper, Noted, Seen};
