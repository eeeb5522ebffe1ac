#![tactic(auto)]
//! Tests of the containers of entries: tables, managers, locks and the store in memory. They are a crate of their own, so
//! that each library is proved once, and not again with its tests. Expected values are hand-computed from the definitions; a
//! file that has them from elsewhere says so.

#[cfg(test)]
mod entry_key;
#[cfg(test)]
mod hashtable;
#[cfg(test)]
mod lock;
#[cfg(test)]
mod managers;
#[cfg(test)]
mod many;
#[cfg(test)]
mod memory;
#[cfg(test)]
mod plain_store;
#[cfg(test)]
mod random_locks;
#[cfg(test)]
mod random_publications;
#[cfg(test)]
mod room;
#[cfg(test)]
mod rows;
#[cfg(test)]
mod sharded_lru;
#[cfg(test)]
mod simple_lru;
#[cfg(test)]
mod storage;
