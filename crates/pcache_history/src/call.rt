//! The calls of a world, and its replies.
ghost use Rattle.std.specs.Prelude.{◌≡◌, ℕ, List, IfOk, OnErr};
ghost use Rattle.pcache_history.specs.Files.{files_in};
ghost use Rattle.pcache_history.specs.declared.call.Act.TheVariants as acts;
ghost use Rattle.pcache_history.specs.declared.call.Reply.TheVariants.{Data};

use crate::tokens::Tokens;
use bytes::Bytes;
use pcache_base::error::{ErrorType, Result};
use pcache_base::key::{CacheKey, HashBinary};
use pcache_base::moment::Moment;
use pcache_base::reason::NoCacheReason;
use pcache_lock::lock::LockWaitOutcome;
use pcache_meta::header::ResponseHeader;
use pcache_meta::meta::CacheMeta;
use pcache_predict::admission::Decision;
use pcache_put::boxed::Boxed;
use pcache_request::cache::CacheOptionOverrides;
use pcache_request::phase::{CachePhase, HitStatus};
use std::alloc::AllocError;

/// A call: what the request or the put with this number is to do. Requests and puts share the
/// numbers.
#[derive(Drop)]
pub struct Call {
    /// The number of the request or the put.
    pub request: u64,
    /// What it is to do.
    pub act: Act,
}

// Apart from `RequestAct`, so that each function of a world is lent the kind of act that it carries
// out, and no arm is unreachable. What is large is in boxes, so that a call without it is small.
/// What a request or a put is to do.
#[derive(Drop)]
pub enum Act {
    /// Makes the request and turns caching on, with the manager and the lock in use, and these options
    /// of its lock.
    Open {
        options: Option<CacheOptionOverrides>,
    },
    /// Ends the request, and releases all that it holds. Its number can be used again.
    End,
    /// Makes one call of an open request.
    Request(RequestAct),
    /// Polls the read lock that is held, at a moment.
    Wait {
        now: Moment,
    },
    /// Passes the permit to the request `to`, which lets go of the lock that it held. If `to` uses no
    /// lock, the permit is let go.
    Give {
        to: u64,
    },
    /// Makes a put of the key, with a limit on the bytes of its body if one is given.
    Put {
        key: Boxed<CacheKey>,
        limit: Option<usize>,
    },
    /// Takes in the next piece of the put's response, at a moment.
    Feed {
        bytes: Bytes,
        now: Moment,
    },
    /// Ends the put before its response is complete, and drops its write. Its number can be used again.
    Drop,
    /// Ends the put, and stores the body if its response is complete. Its number can be used again,
    /// even if the call fails.
    Close,
    /// Saves what the eviction manager holds, or loads what was saved. It names no request and no put,
    /// whatever its number.
    Files(FilesAct),
}

/// What is to be done with the files of an eviction manager. The folder is not part of the call: no
/// contract can tell files by their names.
#[derive(Clone, Copy, Debug, PartialEq, Eq)]
pub enum FilesAct {
    /// Saves what the manager holds.
    Save,
    /// Loads what was saved. After any call other than a load this is a wrong call.
    Load,
}

/// What an open request is to do.
#[derive(Drop)]
pub enum RequestAct {
    /// Turns caching on again, with the manager and the lock in use, and these options of its lock.
    Enable {
        options: Option<CacheOptionOverrides>,
    },
    /// Turns caching off for a reason, and releases all that the request holds.
    Disable {
        reason: NoCacheReason,
    },
    /// Sets the key.
    Key {
        key: Boxed<CacheKey>,
    },
    /// Looks the key up. On a request's first look-up, `decision` installs an admission policy that
    /// returns it, until another look-up carries another decision.
    Look {
        now: Moment,
        decision: Option<Decision>,
    },
    /// Makes the next look-up search for this variance of the key, given the meta that the last
    /// look-up found.
    Vary {
        variance: HashBinary,
    },
    /// Takes the meta and the reader that the look-up found.
    Found {
        status: HitStatus,
        now: Moment,
    },
    /// Bypasses the cache.
    Bypass,
    /// Goes on as a miss.
    Miss,
    /// Sets the meta of the response that is to be stored.
    Meta {
        meta: Boxed<CacheMeta>,
    },
    /// Begins the write.
    Begin,
    /// Adds bytes to the write, and with `eof` announces that they are the last.
    Write {
        bytes: Bytes,
        eof: bool,
    },
    /// Ends the write and stores the body.
    Finish,
    /// Reads the next bytes of the body.
    Read,
    /// Moves the reader to the byte `start`. It then gives the body from there to its end, or up to and
    /// without the byte `end` if that is given.
    Seek {
        start: usize,
        end: Option<usize>,
    },
    /// Ends the reader.
    Done,
    /// Removes what is stored for the key.
    Purge,
    /// Ends the freshness of what is stored for the key.
    Expire {
        now: Moment,
    },
    /// Turns the use of the lock table on or off, while the request holds no lock.
    Lock {
        is_used: bool,
    },
    /// Publishes tokens about the fill to the requests that wait, if this one holds the permit.
    Publish {
        tokens: Tokens,
    },
    /// Releases the permit for a reason; a read lock is let go.
    Release {
        reason: NoCacheReason,
    },
    /// Serves the stale body while another request renews it.
    Updating,
    /// Serves the stale body, which the origin confirmed as valid, with this header. The new
    /// response is not stored, for this reason.
    Uncacheable {
        header: Boxed<ResponseHeader>,
        reason: NoCacheReason,
    },
    /// Sets what the response varies on, before its write begins.
    Variance {
        variance: Option<HashBinary>,
    },
    /// Takes the new meta after the origin confirmed the stale body as valid, and sets it for the stored
    /// body too.
    Revalidate {
        meta: Boxed<CacheMeta>,
    },
    /// Returns the phase of the request.
    Phase,
}

impl Act {
    /// The act on files, if it is one.
    pub fn files(&self) -> Option<FilesAct>
        ensures { result ≡ files_in self.now }
    {
        match self {
            Act::Files(act) => Some(*act),
            _ => None,
        }
    }

    /// The call of this act, for the request or the put with this number.
    pub fn of(self, request: u64) -> Call
        ensures { result ≡ record { request = request; act = self } }
    {
        Call { request, act: self }
    }
}

impl FilesAct {
    /// The call of this act. Its number is 0, which means nothing.
    pub fn call(self) -> Call
        ensures { result ≡ record { request = 0; act = acts.Files self } }
    {
        Act::Files(self).of(0)
    }
}

impl RequestAct {
    /// The call of this act, for the request with this number.
    pub fn of(self, request: u64) -> Call
        ensures { result ≡ record { request = request; act = acts.Request self } }
    {
        Act::Request(self).of(request)
    }
}

/// Which kind of lock was given.
#[derive(Clone, Copy, Debug, PartialEq, Eq)]
pub enum LockKind {
    /// The permit to fill the key.
    Write,
    /// A read lock, which waits for another request's permit.
    Read,
}

/// The reply of a call.
#[derive(Debug, Drop)]
pub enum Reply {
    /// A condition of the call was not met, and nothing changed.
    WrongCall,
    /// The call failed.
    Refused(ErrorType),
    /// The call was done.
    Done,
    /// A complete body of this weight was found.
    Hit(usize),
    /// A write in flight was found.
    Part,
    /// Nothing was found; which lock was given, if one was asked for.
    NotFound(Option<LockKind>),
    /// The found pair is taken: the phase, and which lock was given, if one was asked for.
    Taken(CachePhase, Option<LockKind>),
    /// The body is stored: its size, and how many entries were evicted.
    Stored { size: usize, evicted: usize },
    /// There was no write to finish.
    Nothing,
    /// The put's response is not stored, for this reason.
    NotCached(NoCacheReason),
    /// Bytes were read.
    Data(Bytes),
    /// There is nothing to read yet.
    Pending,
    /// The body was read to its end.
    Finished,
    /// What was stored for the key is removed.
    Purged,
    /// The freshness of the key's body has ended.
    Expired,
    /// Nothing was stored for the key.
    Absent,
    /// The found response has this variance.
    Same,
    /// The found response has another variance.
    Other,
    /// The stored body has the new meta.
    Updated,
    /// There was no complete body for the key.
    NotUpdated,
    /// The wait goes on.
    Waiting,
    /// The wait ended with this outcome, and the read lock is let go.
    Waited(LockWaitOutcome),
    /// The phase of the request.
    Phase(CachePhase),
    /// What was saved is loaded, except for this many files, which were skipped.
    Loaded(usize),
}

impl Reply {
    /// A copy of this reply. Fails only when memory runs out, and only if the reply has bytes.
    pub fn copied(&self) -> Result<Reply, AllocError>
        ensures ok { IfOk result (λ copy. copy ≡ self.now) }
        ensures data { OnErr result ((bytes : List ℕ) × (self.now ≡ Data bytes)) }
    {
        Ok(match self {
            Reply::WrongCall => Reply::WrongCall,
            Reply::Refused(kind) => Reply::Refused(*kind),
            Reply::Done => Reply::Done,
            Reply::Hit(weight) => Reply::Hit(*weight),
            Reply::Part => Reply::Part,
            Reply::NotFound(lock) => Reply::NotFound(*lock),
            Reply::Taken(phase, lock) => Reply::Taken(*phase, *lock),
            Reply::Stored { size, evicted } => Reply::Stored {
                size: *size,
                evicted: *evicted,
            },
            Reply::Nothing => Reply::Nothing,
            Reply::NotCached(reason) => Reply::NotCached(*reason),
            Reply::Data(bytes) => Reply::Data(bytes.clone()?),
            Reply::Pending => Reply::Pending,
            Reply::Finished => Reply::Finished,
            Reply::Purged => Reply::Purged,
            Reply::Expired => Reply::Expired,
            Reply::Absent => Reply::Absent,
            Reply::Same => Reply::Same,
            Reply::Other => Reply::Other,
            Reply::Updated => Reply::Updated,
            Reply::NotUpdated => Reply::NotUpdated,
            Reply::Waiting => Reply::Waiting,
            Reply::Waited(outcome) => Reply::Waited(*outcome),
            Reply::Phase(phase) => Reply::Phase(*phase),
            Reply::Loaded(skipped) => Reply::Loaded(*skipped),
        })
    }
}
