#![tactic(auto)]
//! Tests of a request over a store, a manager and a lock table, and of a put. They are a crate of their own, so that each
//! library is proved once, and not again with its tests. Expected values are hand-computed from the definitions; a file that
//! has them from elsewhere says so.

#[cfg(test)]
mod lifetimes;
#[cfg(test)]
mod made;
#[cfg(test)]
mod noted;
#[cfg(test)]
mod puts;
#[cfg(test)]
mod request;
#[cfg(test)]
mod rows;
#[cfg(test)]
mod whole_store;
