#![tactic(auto)]
//! Tests of worlds that threads share. What a test waits for is counted, so that each ends by itself.
//! Expected replies are hand-computed from the definitions.
//!
//! `surface` has no test: it names every public item once, of what `pingora_cache` hands on, of worlds and of tables in shards. It stands here since these tests
//! are over the most crates.

#[cfg(test)]
mod calls;
#[cfg(test)]
mod gates;
#[cfg(test)]
mod in_parts;
#[cfg(test)]
mod in_turn;
#[cfg(test)]
pub mod surface;
#[cfg(test)]
mod workers;
