//! The requests of a thread, and what they are made of.
ghost use Rattle.std.specs.Prelude.{◌≡◌};
ghost use Rattle.pcache_request.specs.declared.phase.CachePhase.TheVariants.{CacheKey};

use bytes::Bytes;
use http::StatusCode;
use pcache_base::error::Result;
use pcache_base::fills::{UnusableFill, UnusableFills};
use pcache_base::key::CacheKey as Key;
use pcache_base::moment::Moment;
use pcache_base::reason::NoCacheReason;
use pcache_base::seed::Seed;
use pcache_evict::eviction::EvictionManager;
use pcache_evict::eviction::simple_lru::Manager;
use pcache_meta::header::ResponseHeader;
use pcache_meta::meta::CacheMeta;
use pcache_shared_cache::{SharedCache, SharedRequest, Unnamed};
use std::alloc::Global;
use std::sync::Wait;
use std::time::Duration;

/// A cache in four parts.
pub type Parts<M> = SharedCache<M, Unnamed, 4>;

/// The same over recency lists.
pub type Lists = Parts<Manager>;

/// A request of it.
pub type Request = SharedRequest<Unnamed, 4>;

/// What an entry weighs beside its body, if its head has no field: 16 bytes of text, and 512 for all that is kept beside.
pub const ROOM: usize = 528;

// What an entry weighs at most, with a body of 16 bytes.
const ENTRY: usize = ROOM + 16;

/// A limit under which each part has room for two entries.
pub const TWO_ENTRIES: usize = 2 * 4 * ENTRY;

/// A cache with nothing stored, each part of which has room for so many entries.
pub fn lists_of(alloc: Global, entries: usize) -> Result<Lists> {
    lists_within(alloc, entries.saturating_mul(4 * ENTRY))
}

/// A cache with nothing stored, and with this limit. A permit ages out after ten seconds.
pub fn lists_within(alloc: Global, limit: usize) -> Result<Lists> {
    Lists::with_lists(alloc, Seed::fixed(), limit, None, Duration::from_secs(10))
}

/// The key with this name. If memory runs out, it has another one.
pub fn key_of(alloc: Global, name: &[u8]) -> Key {
    let mut primary = Vec::new(alloc);
    let _is_whole = primary.extend_from_slice(name).is_ok();
    Key::new(primary, String::new(alloc))
}

/// A request whose key has this name.
pub fn request_for<M: EvictionManager>(cache: &Parts<M>, name: &[u8]) -> Request
    ensures { result.cache.phase ≡ CacheKey }
{
    cache.request(key_of(cache.alloc(), name))
}

/// The same, whose key cannot use the fill of a token.
pub fn request_without(cache: &Lists, name: &[u8], token: u64) -> Request {
    let mut key = key_of(cache.alloc(), name);
    let fill = UnusableFill {
        token,
        reason: "too large",
    };
    let mut fills = Vec::new(cache.alloc());
    let _is_whole = fills.push(fill).is_ok();
    key.unusable = Some(UnusableFills::new(fills));
    cache.request(key)
}

/// A whole second.
pub fn second(number: u64) -> Moment {
    Moment::from_secs(number)
}

/// A head with nothing in it.
pub fn head_of(alloc: Global) -> ResponseHeader {
    ResponseHeader::build(alloc, StatusCode::OK)
}

/// The meta of a response that is fresh until a second, and may be served stale for ten seconds while it is renewed.
pub fn meta_until(alloc: Global, number: u64) -> CacheMeta {
    CacheMeta::new(second(number), Moment::EPOCH, 10, 0, head_of(alloc))
}

/// A reason for which a permit is given up, or else one for which another request may try.
pub fn reason_of(word: &str) -> NoCacheReason {
    match word {
        "forbidden" => NoCacheReason::OriginNotCache,
        _ => NoCacheReason::UpstreamError,
    }
}

/// Begins a write, of a response that is fresh for a minute. Returns whether it may.
pub fn begins<R: Wait>(rt: &R, cache: &Lists, request: &mut Request) -> Result<bool> {
    begins_with(rt, cache, request, meta_until(cache.alloc(), 60))
}

/// The same, of a response with this meta.
pub fn begins_with<R: Wait>(
    rt: &R,
    cache: &Lists,
    request: &mut Request,
    meta: CacheMeta,
) -> Result<bool> {
    if !request.cache().phase().may_miss() {
        return Ok(false);
    }
    request.cache_miss();
    request.set_cache_meta(meta);
    if !request.cache().may_write() {
        return Ok(false);
    }
    cache.set_miss_handler(rt, request)?;
    Ok(true)
}

/// Writes a piece twice, and ends the write. Returns whether the body is stored.
pub fn writes<R: Wait>(rt: &R, cache: &Lists, request: &mut Request, piece: &[u8]) -> Result<bool> {
    for is_last in [false, true] {
        let bytes = Bytes::copy_from_slice(cache.alloc(), piece)?;
        if !request.cache().phase().is_filling()
            || !cache.write_body(rt, request, bytes, is_last)?
        {
            return Ok(false);
        }
        std::thread::yield_now();
    }
    if !request.cache().phase().is_filling() {
        return Ok(false);
    }
    Ok(cache.finish_miss_handler(rt, request)?.is_some())
}
