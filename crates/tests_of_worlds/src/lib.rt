#![tactic(auto)]
//! Tests of worlds, by texts of calls with their replies. They are a crate of their own, so that the library
//! is proved once, and not again with its tests. Expected replies are hand-computed from the definitions; a
//! file that has them from elsewhere says so.
//!
//! - `script`: a line of a text as a call
//! - `play`: a text on a world
//! - `world`, `behind_a_lock`: the tests of these

#[cfg(test)]
mod behind_a_lock;
#[cfg(test)]
mod play;
#[cfg(test)]
mod script;
#[cfg(test)]
mod world;
