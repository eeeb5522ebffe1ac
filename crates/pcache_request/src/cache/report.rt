//! Reports of calls on what they did, for callers that keep a history.
//!
//! A report takes no memory of its own: an entry in it was made for the call itself.
ghost use Rattle.std.specs.Prelude.{◌≡◌};
ghost use Rattle.pcache_request.specs.Reports.{name_of};
ghost use Rattle.pcache_request.specs.Requests.{is_removed_by};

use super::finish::WriteEnd;
use pcache_base::error::Error;
use pcache_base::poll::Poll;
use pcache_evict::eviction::CacheEntryKey;
use pcache_lock::lock::{LockStatus, LockWaitOutcome, Locked};
use pcache_meta::meta::CacheMeta;
use pcache_store::storage::PurgeOutcome;

/// A lock, by its number.
#[derive(Clone, Copy, Debug, PartialEq, Eq)]
pub struct LockName {
    /// The number that the lock table gave it.
    pub number: u64,
    /// Whether it is the permit, and not a wait for it.
    pub is_permit: bool,
}

impl LockName {
    /// The name of a lock.
    pub fn of(lock: &Locked) -> LockName
        ensures { result ≡ name_of lock.now }
    {
        LockName {
            number: lock.number(),
            is_permit: lock.is_write(),
        }
    }
}

/// A lock that was asked for.
#[derive(Clone, Copy, Debug, PartialEq, Eq)]
pub struct AskedLock {
    /// The lock that was given, which is held now.
    pub given: LockName,
    /// The lock that was held before, which was let go.
    pub replaced: Option<LockName>,
}

/// A lock that was released.
#[derive(Clone, Copy, Debug, PartialEq, Eq)]
pub struct ReleasedLock {
    /// The lock that was held.
    pub lock: LockName,
    /// The status that the permit was released with. Its readers get this status, or that it was
    /// too old if it was found so before. A read lock was let go, without a status for others.
    pub status: LockStatus,
}

/// What a poll of a wait did.
#[derive(Clone, Copy, Debug, PartialEq, Eq)]
pub struct WaitReport {
    /// How the wait ended, and the read lock was let go; or that it goes on. The fills that count are
    /// those of the key at the first poll.
    pub answer: Poll<LockWaitOutcome>,
    /// The lock that was waited for.
    pub lock: LockName,
    /// Whether its permit was found too old, which the lock table records.
    pub is_too_old: bool,
}

/// The use of an entry that a manager recorded.
#[derive(Debug, Drop)]
pub struct Access {
    /// The entry.
    pub entry: CacheEntryKey,
    /// The weight that it is added with, if it was not tracked.
    pub weight: usize,
}

/// What a look-up did.
pub enum LookUp<H> {
    /// The pair that it hands on: the meta, and the reader, which has to be taken or let go.
    Found(CacheMeta, H),
    /// It hands nothing on: the lock that it asked for, if it did, or why that failed.
    NotFound(Result<Option<AskedLock>, Error>),
    /// The policy deferred, and caching is off: the lock that was released.
    Deferred(Option<LockName>),
}

/// What taking a found pair did.
#[derive(Debug, Drop)]
pub struct FoundReport {
    /// The access that was recorded, if one was.
    pub access: Option<Access>,
    /// The lock that was asked for, if one was, or why that failed.
    pub asked: Result<Option<AskedLock>, Error>,
}

/// What the begin of a write did.
#[derive(Debug, Drop)]
pub struct WriteBegin {
    /// The lock that was released.
    pub released: Option<LockName>,
    /// Whether the reader follows the write, in a storage where it can, or why not.
    pub following: Result<(), Error>,
}

/// What a revalidation did.
#[derive(Debug, Drop)]
pub struct Renewal {
    /// Whether there was a complete body for the key, whose meta was set; or why it was not set.
    pub updated: Result<bool, Error>,
    /// The lock that was released.
    pub released: Option<LockName>,
}

/// What the end of a write did.
#[derive(Debug, Drop)]
pub struct WriteReport {
    /// The outcome.
    pub end: WriteEnd,
    /// The entry of the body, if it was stored and not withdrawn.
    pub entry: Option<CacheEntryKey>,
    /// The lock that was released.
    pub released: Option<LockName>,
}

/// What a removal did.
#[derive(Debug, Drop)]
pub struct Removal {
    /// What the storage found.
    pub outcome: PurgeOutcome,
    /// The entry that was removed from the manager.
    pub untracked: Option<CacheEntryKey>,
}

impl WriteReport {
    pub(super) fn new(
        end: WriteEnd,
        entry: Option<CacheEntryKey>,
        released: Option<LockName>,
    ) -> WriteReport
        ensures { result ≡ record { end = end; entry = entry; released = released } }
    {
        WriteReport {
            end,
            entry,
            released,
        }
    }
}

impl Removal {
    /// Whether anything was removed or expired.
    pub fn was_there(&self) -> bool
        ensures { result ≡ is_removed_by self.now.outcome }
    {
        !matches!(self.outcome, PurgeOutcome::NotFound)
    }
}
