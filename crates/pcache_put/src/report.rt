//! What the calls of a put return, and the reports on what they did.
use crate::boxed::Boxed;
use bytes::Bytes;
use pcache_base::error::Error;
use pcache_base::reason::NoCacheReason;
use pcache_evict::eviction::CacheEntryKey;
use pcache_meta::meta::CacheMeta;
use pcache_request::cache::FinishReport;

/// The outcome of a put.
#[derive(Debug, Drop)]
pub enum PutOutcome {
    /// The body is stored.
    Stored(FinishReport),
    /// Nothing is stored, for this reason.
    NotCached(NoCacheReason),
}

/// Bytes that a piece added to the put's write.
#[derive(Drop)]
pub struct Written {
    /// The bytes.
    pub bytes: Bytes,
    /// Whether they were announced as the last (`eof`).
    pub eof: bool,
}

/// The state of a put after a piece. A write that is returned has to be dropped.
pub enum PieceEnd<M> {
    /// It goes on.
    GoesOn,
    /// Nothing is stored, for this reason.
    NotCached(NoCacheReason),
    /// The call failed, and so will every later call. The write that was in flight has to be dropped.
    Refused(Error, Option<M>),
}

/// What a piece did.
pub struct PieceReport<M> {
    /// The meta of the write that it began, if it began one.
    pub began: Option<Boxed<CacheMeta>>,
    /// What it wrote, if anything.
    pub wrote: Option<Written>,
    /// The state of the put.
    pub end: PieceEnd<M>,
}

/// How a put ended.
#[derive(Debug, Drop)]
pub enum PutEnd {
    /// Nothing is stored, for this reason.
    NotCached(NoCacheReason),
    /// Nothing is stored: the head never ended, or an earlier call failed. There was no write.
    Refused(Error),
    /// The end of the write failed, or the response ended too early, and the write was dropped.
    Dropped(Error),
    /// The body is stored.
    Stored(FinishReport),
    /// The body was stored, but its admission failed, and its key was purged again.
    Withdrawn(Error),
}

/// What the end of a put did.
#[derive(Debug, Drop)]
pub struct PutReport {
    /// The outcome.
    pub end: PutEnd,
    /// The entry of the body, if it was stored and not withdrawn.
    pub entry: Option<CacheEntryKey>,
}
