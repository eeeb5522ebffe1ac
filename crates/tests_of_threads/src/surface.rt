//! Each public item of the cache named once, under the modules of upstream and those of its own. If one is gone, these
//! tests do not build. There are no functions here.

/// The crate's root.
pub mod root {
    pub use pingora_cache::{
        CacheEntryId, CacheEntryKey, CacheEntryKeyRef, CacheKey, CacheMeta, CacheMetaDefaults,
        CacheOptionOverrides, CachePhase, FinishReport, ForcedFreshness, HitHandler, HitStatus,
        HttpCache, HttpCacheDigest, InUse, LockAbandon, LockCtx, MemCache, MissHandler,
        NoCacheReason, PurgeAction, PurgeOutcome, PurgeTarget, PurgeType, RespCacheable, Storage,
        VarianceBuilder, prelude,
    };
}

/// Policies of admission.
pub mod admission {
    pub use pingora_cache::admission::{AdmissionPolicy, Decision};
}

/// Cache-Control.
pub mod cache_control {
    pub use pingora_cache::cache_control::{
        CacheControl, Cacheable, DELTA_SECONDS_OVERFLOW_VALUE, DirectiveKey, DirectiveMap,
        DirectiveValue, InterpretCacheControl, ListValueIter, delta_seconds_overflow_duration,
    };
}

/// Eviction.
pub mod eviction {
    pub use pingora_cache::eviction::files::device::Counted;
    pub use pingora_cache::eviction::files::sharded_lru::{deserialize_shard, serialize_shard};
    pub use pingora_cache::eviction::files::simple_lru::{load_from, save_to};
    pub use pingora_cache::eviction::sharded_lru::Manager as ShardedManager;
    pub use pingora_cache::eviction::simple_lru::Manager;
    pub use pingora_cache::eviction::{
        CacheEntryId, CacheEntryKey, CacheEntryKeyRef, CountedRead, CountedWrite, EvictionManager,
        SavedManager,
    };
}

/// What may be cached, and until when it is fresh.
pub mod filters {
    pub use pingora_cache::filters::upstream::request_filter;
    pub use pingora_cache::filters::{
        calculate_expires_header_time, calculate_fresh_until, calculate_serve_stale_durations,
        request_cacheable, resp_cacheable,
    };
}

/// Tables in shards.
pub mod hashtable {
    pub use pcache_table::hashtable::{
        ConcurrentHashTable, ConcurrentLruCache, LruLock, LruShard, LruShards, Shard, ShardLock,
        Shards, Table, WriteGuard,
    };
}

/// Keys and their hashes.
pub mod key {
    pub use pingora_cache::key::{
        CacheHashKey, CacheKey, CompactCacheKey, HashBinary, hash_key, hash_u8, str2hex,
    };
}

/// Locks on keys.
pub mod lock {
    pub use pingora_cache::lock::{
        CacheKeyLock, CacheKeyLockImpl, CacheLock, LockCore, LockStatus, LockStub, LockWaitOutcome,
        Locked, ReadLock, UnusableFill, UnusableFills, WaitOutcome, WritePermit, laws,
    };
}

/// The limit on a body's size.
pub mod max_file_size {
    pub use pingora_cache::max_file_size::{ERR_RESPONSE_TOO_LARGE, MaxFileSizeTracker};
}

/// The store in memory.
pub mod memory {
    pub use pingora_cache::memory::{
        CompleteHit, MemCache, MemHitHandler, MemMissHandler, PartialHit,
    };
}

/// Metas and their defaults.
pub mod meta {
    pub use pingora_cache::meta::internal_meta::{
        InternalMetaLatest, InternalMetaV0, InternalMetaV1, InternalMetaV2, InternalMetaV3,
    };
    pub use pingora_cache::meta::spelled::SpelledMeta;
    pub use pingora_cache::meta::{CacheMeta, CacheMetaDefaults, FreshDurationByStatusFn};
}

/// Remembered keys.
pub mod predictor {
    pub use pingora_cache::predictor::{CacheablePredictor, CustomReasonPredicate, Predictor};
}

/// Responses that are pushed in.
pub mod put {
    pub use pingora_cache::put::{
        ByDefaults, CachePut, CachePutCtx, INCOMPLETE_BODY, ParsePart, PutOutcome, ResponseParse,
        default_cacheable, same_however_cut, same_put_however_cut,
    };
}

/// What every storage does.
pub mod storage {
    pub use pingora_cache::storage::streaming_write::{U32WriteId, U64WriteId};
    pub use pingora_cache::storage::{
        HandleHit, HandleMiss, HitHandler, MissFinishType, MissHandler, PurgeAction, PurgeOutcome,
        PurgeTarget, PurgeType, Storage, StoreMeaning,
    };
}

/// Spans without effect.
pub mod trace {
    pub use pingora_cache::trace::{
        Span, SpanHandle, SpanOptionsPlaceholder, Tag, tag_span_with_meta,
    };
}

/// Items that are at upstream's root or in other crates of its framework, or are this crate's own.
pub mod own {
    pub use pingora_cache::cache::{Renewal, WriteEnd};
    pub use pingora_cache::decisions::requests::decide_request;
    pub use pingora_cache::decisions::responses::decide_response;
    pub use pingora_cache::error::{Error, ErrorType, Result};
    pub use pingora_cache::header::{
        HttpVersion, ReqHeader, RequestHeader, RespHeader, ResponseHeader,
    };
    pub use pingora_cache::moment::Moment;
    pub use pingora_cache::poll::Poll;
    pub use pingora_cache::seed::{Seed, SeededHasher};
    pub use pingora_cache::text::Text;
    pub use pingora_cache::{
        Cache, CacheRequest, LeftWrite, PendingPut, Portion, SharedCache, SharedPermit, SharedPut,
        SharedRequest, Totals,
    };
}

/// Worlds and their histories.
pub mod world {
    pub use pcache_world::world::call::{Act, Call, LockKind, Reply, RequestAct};
    pub use pcache_world::world::entry::{Answer, Entries, Entry, Event, Events};
    pub use pcache_world::world::laws::{
        finds_exactly, finishes_exactly, found_is_numbered, hands_on_exactly, hits_read_the_last,
        is_wrong_exactly, looks_are_true, puts_are_written, reads_a_beginning, reads_are_true,
        settles_at_once, stored_is_within_limits,
    };
    pub use pcache_world::world::policy::{BySelf, PutPolicy};
    pub use pcache_world::world::{Totals, World};
}

/// Worlds that threads share.
pub mod shared_world {
    pub use pcache_shared_world::{Gate, Opening, Receipt, Share, SharedWorld, run_workers};
}
