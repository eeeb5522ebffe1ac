#![tactic(auto)]
//! The most hits that a cache of bodies of one size can have: Belady's rule, by which the body goes that is
//! asked for last.
//!
//! - `requests`: for each request of a trace, which one asks next for its body
//! - `kept`: what the rule keeps, and the hits of that

pub mod kept;
pub mod requests;
