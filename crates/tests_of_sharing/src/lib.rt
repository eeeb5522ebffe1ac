#![tactic(auto)]
//! Tests of a cache in parts, which threads call side by side. What a test waits for is counted, so that each ends by itself.
//!
//! - `waits`, `stale`, `bodies`, `clock`, `responses`; `alone`, `ends`, `refills`, `puts`: rows that four threads play, each row in its
//!   turn: whatever the schedule, each thread is told the same; and such rows of one thread
//! - `play`, `rows`; `looks`, `fills`, `permits`, `renewals`, `counts`, and `puts` too: what plays them, and their calls
//! - `many`, `gates`; `requests`: parts by a few threads at a time, and their calls
//! - `purges`: eight threads that fill, read and purge a thousand keys
//! - `answers`: eight threads that fill, reload, renew and read three keys
//! - `pushes`: puts beside requests
//! - `seats`: what all of them share
#[cfg(test)]
mod alone;
#[cfg(test)]
mod answers;
#[cfg(test)]
mod bodies;
#[cfg(test)]
mod clock;
#[cfg(test)]
mod counts;
#[cfg(test)]
mod ends;
#[cfg(test)]
mod fills;
#[cfg(test)]
mod gates;
#[cfg(test)]
mod lifetimes;
#[cfg(test)]
mod looks;
#[cfg(test)]
mod many;
#[cfg(test)]
mod permits;
#[cfg(test)]
mod play;
#[cfg(test)]
mod purges;
#[cfg(test)]
mod pushes;
#[cfg(test)]
mod puts;
#[cfg(test)]
mod refills;
#[cfg(test)]
mod renewals;
#[cfg(test)]
mod requests;
#[cfg(test)]
mod responses;
#[cfg(test)]
mod rows;
#[cfg(test)]
mod seats;
#[cfg(test)]
mod stale;
#[cfg(test)]
mod waits;
