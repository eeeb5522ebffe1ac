//! What a world notes of a call.
use crate::call::{Call, Reply};
use crate::listed::Listed;
use bytes::Bytes;
use pcache_base::key::CompactCacheKey;
use pcache_base::moment::Moment;
use pcache_base::poll::Poll;
use pcache_evict::eviction::CacheEntryKey;
use pcache_meta::meta::CacheMeta;
use pcache_meta::meta::spelled::SpelledMeta;
use pcache_put::boxed::Boxed;

/// What a look-up found. Its meta is a copy of what the store keeps, the bytes that spell it: `meta.get().meta(alloc)` reads it.
#[derive(Drop)]
pub enum Answer {
    /// Nothing.
    Nothing,
    /// A complete body, with its meta.
    Complete {
        meta: Boxed<SpelledMeta>,
        body: Bytes,
    },
    /// A write in flight, with its meta.
    Streaming {
        meta: Boxed<SpelledMeta>,
        write: u64,
    },
}

// Metas are in boxes, so that an event without one is not as large as the largest. Keys of entries
// are not: they are named after the effect, when no box may be refused any more.
/// One thing that a call did.
#[derive(Drop)]
pub enum Event {
    /// A key was looked up.
    Look {
        slot: u128,
        answer: Answer,
    },
    /// A key's lock was asked for: its number, and whether it is the permit.
    Ask {
        slot: u128,
        lock: u64,
        is_permit: bool,
    },
    /// A use of an entry was recorded; it was added with this weight if it was not tracked.
    Access {
        entry: CacheEntryKey,
        weight: usize,
    },
    /// A write began.
    Begin {
        write: u64,
        slot: u128,
        meta: Boxed<CacheMeta>,
    },
    /// Bytes were added to a write; `eof`: they were announced as the last.
    Wrote {
        write: u64,
        bytes: Bytes,
        eof: bool,
    },
    /// A write was finished: its body is stored, or its key was removed since it began.
    Finish {
        write: u64,
        is_stored: bool,
    },
    /// A write was dropped.
    Dropped {
        write: u64,
    },
    /// A permit was released.
    Release {
        lock: u64,
    },
    /// A permit was let go.
    LetGo {
        lock: u64,
    },
    /// A permit was found too old.
    Aged {
        lock: u64,
    },
    /// An entry was admitted with this weight, and others were evicted.
    Admit {
        entry: CacheEntryKey,
        weight: usize,
        evicted: Entries,
    },
    /// What was stored for a key was removed.
    Purge {
        slot: u128,
    },
    /// The freshness of the complete body of a key, if there is one, ended at this moment.
    Expire {
        slot: u128,
        now: Moment,
    },
    /// The complete body of a key has this meta from then on: the stale body is still valid.
    Renew {
        slot: u128,
        meta: Boxed<CacheMeta>,
    },
    /// An entry was removed from the manager.
    Untrack {
        entry: CacheEntryKey,
    },
    /// A reader gave this.
    Read {
        answer: Poll<Option<Bytes>>,
    },
}

/// Keys of entries. A contract sees the list.
pub type Entries = Listed<CacheEntryKey>;

/// Events, in their order. A contract sees the list.
pub type Events = Listed<Event>;

/// One call of a history, with its reply and its events.
#[derive(Drop)]
pub struct Entry {
    /// The call.
    pub call: Call,
    /// Its reply.
    pub reply: Reply,
    /// Its events.
    pub events: Events,
}
