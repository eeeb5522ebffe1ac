#![tactic(auto)]
//! Tests of managers that follow other policies, and of simulations. They are a crate of their own, so that
//! the libraries are proved once. Which requests are hits, and what was evicted, was computed by the caches of
//! `bench/simulators.py`, which were written from the papers; the other expected values are hand-computed.

#[cfg(test)]
mod bounds;
#[cfg(test)]
mod key_limit;
#[cfg(test)]
mod long;
#[cfg(test)]
mod managers;
#[cfg(test)]
mod nodes;
#[cfg(test)]
mod options;
#[cfg(test)]
mod reports;
#[cfg(test)]
mod rows;
#[cfg(test)]
mod runs;
#[cfg(test)]
mod simulations;
#[cfg(test)]
mod traces;
