#![tactic(auto)]
//! The calls with a precondition that tests alone make, each behind what tells its caller that it may be made.
//!
//! The gate proves this crate each time, and of the crates of tests only some. So a precondition that no caller can meet is seen
//! at once, also of a function that no server's or program's code calls. No function of it promises anything, and nothing uses it.

pub mod requests;
pub mod sharing;
pub mod values;
pub mod worlds;
