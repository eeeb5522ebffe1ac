#![tactic(auto)]
//! Requests and puts over one store, with the history of their calls: for audits, tests and simulations, and for no server, since
//! the history grows with each call.
//!
//! - `world`: `World`, its calls and their policy, with `call`, `entry`, `laws` and `tokens` of the crate of histories

pub mod world;
