#![tactic(auto)]
//! Which of several nodes a key goes to: rendezvous hashing, by which a node that comes or goes moves no
//! key from one of the others to another.
//!
//! - `nodes`: the node of a key
//! - `laws`: what holds of all keys and nodes

pub mod laws;
pub mod nodes;
