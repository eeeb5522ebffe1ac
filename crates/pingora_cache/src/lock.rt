//! Locks on cache keys, and the fills that a waiting request cannot use.

pub use pcache_base::fills::{UnusableFill, UnusableFills};
pub use pcache_lock::lock::{
    CacheKeyLock, CacheKeyLockImpl, CacheLock, LockCore, LockStatus, LockStub, LockWaitOutcome,
    Locked, ReadLock, WaitOutcome, WritePermit, laws,
};
