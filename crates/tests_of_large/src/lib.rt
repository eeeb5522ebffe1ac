#![tactic(auto)]
//! Tests over large things: no call fails for want of memory, and each answer is what was put in. No contract says so, since
//! every call that takes memory may fail for it.
//!
//! - `rows`: rows of text, played by one player
//! - `cache`, `parts`: a cache, and one in parts, as `front` sees them alike; `scene` has their rows
//! - `managers`, `saved`: more than a million entries in a manager of each policy; lists that are saved and loaded
//! - `texts`: heads, lines and variances of every length
#[cfg(test)]
mod cache;
#[cfg(test)]
mod front;
#[cfg(test)]
mod managers;
#[cfg(test)]
mod parts;
#[cfg(test)]
mod rows;
#[cfg(test)]
mod saved;
#[cfg(test)]
mod scene;
#[cfg(test)]
mod texts;
