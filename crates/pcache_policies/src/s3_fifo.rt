//! An eviction manager that evicts most new entries soon, and keeps those that were used: S3-FIFO
//! (Yang, Zhang, Qiu, Yue, Vigfusson, SOSP 2023).

use crate::fifos::Fifos;
use crate::manager;
use pcache_base::seed::Seed;

/// A small queue for new entries, a main one for those that were used there or come in again, and the
/// keys of entries that went from the small one.
pub type Manager<S = Seed> = manager::Manager<Fifos<S>, S>;
