#![tactic(auto)]
//! Tests of a cache as one value, through which the requests of a proxy go: rows that one room of requests plays. Expected values are
//! hand-computed from the definitions.

#[cfg(test)]
mod bodies;
#[cfg(test)]
mod calls;
#[cfg(test)]
mod ends;
#[cfg(test)]
mod fetches;
#[cfg(test)]
mod heads;
#[cfg(test)]
mod lifetimes;
#[cfg(test)]
mod loaded;
#[cfg(test)]
mod locks;
#[cfg(test)]
mod managers;
#[cfg(test)]
mod newest;
#[cfg(test)]
mod puts;
#[cfg(test)]
mod refills;
#[cfg(test)]
mod requests;
#[cfg(test)]
mod responses;
#[cfg(test)]
mod room;
#[cfg(test)]
mod rows;
#[cfg(test)]
mod scenes;
#[cfg(test)]
mod waits;
#[cfg(test)]
mod weights;
#[cfg(test)]
mod wholes;
