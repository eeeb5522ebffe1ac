#![tactic(auto)]
//! Eviction managers as files: their entries are written to a file, and loaded after a restart.
//!
//! - `device`: readers and writers that count the calls that failed
//! - `codec`: the bytes of a file, read and written
//! - `pieces`: a file that is read piece by piece
//! - `named`: files that are opened, made and renamed by their paths
//! - `folder`: files that are opened, and files that take the place of older ones
//! - `simple_lru`, `sharded_lru`: the files of the two managers
//! - `saved`: managers that are saved in a folder and loaded from it
//! - `laws`: laws of all files

pub mod codec;
pub mod device;
mod folder;
pub mod laws;
pub mod named;
mod pieces;
pub mod saved;
pub mod sharded_lru;
pub mod simple_lru;
