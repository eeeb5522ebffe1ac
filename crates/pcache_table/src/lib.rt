#![tactic(auto)]
//! Tables of values by number, in one piece and in shards, also with each shard behind a lock.
//!
//! - `hashtable`: a table in shards; `hashtable::table`: one table

pub mod hashtable;
