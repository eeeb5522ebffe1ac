#![tactic(auto)]
//! Scripts of cache calls: each line is a call of a world, and has a reply of one line.
//!
//! - `replay`: runs a script
//! - `torment`: runs one whose calls may fail, and writes all that each call did
//! - `script`: a line as a call
//! - `reply`: a reply as a line
//! - `entry`: an entry of a history as lines
//! - `policy`: which of the responses that a script puts are stored

mod entry;
mod policy;
pub mod replay;
mod reply;
mod script;
mod torment;
