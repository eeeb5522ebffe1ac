//! The calls of a request of a cache over any manager, each beside the test that it may be made. One that may not be made, and one
//! that did nothing, answers `false`.
use crate::requests::{NOW, OfTest, Request, meta_of};
use bytes::Bytes;
use pcache_base::error::Result;
use pcache_base::fills::{UnusableFill, UnusableFills};
use pcache_base::moment::Moment;
use pcache_base::poll::Poll;
use pcache_cache::{Cache, CacheRequest};
use pcache_evict::eviction::EvictionManager;
use pcache_request::HitStatus;
use pcache_request::cache::LockName;
use std::alloc::Global;
use std::mem;
use test_rows::{Told, key_of};

/// Sets a key, which cannot use the fill of a token, if there is one.
pub fn opens(alloc: Global, request: &mut Request, name: &[u8], token: Option<u64>) -> bool {
    if !request.cache.phase().may_take_key() {
        return false;
    }
    let mut key = key_of(alloc, name, "");
    if let Some(token) = token {
        key.unusable = Some(without(alloc, token));
    }
    request.cache.set_cache_key(key);
    true
}

fn without(alloc: Global, token: u64) -> UnusableFills {
    let fill = UnusableFill {
        token,
        reason: "too large",
    };
    let mut fills = Vec::new(alloc);
    let _is_whole = fills.push(fill).is_ok();
    UnusableFills::new(fills)
}

/// Ends a request, and replaces it by a new one.
pub fn end<M: EvictionManager>(
    cache: &mut Cache<M, OfTest>,
    request: &mut Request,
) -> Option<LockName> {
    let ended = mem::replace(request, CacheRequest::new(cache.alloc()));
    cache.end(ended)
}

/// Whether a look-up finds nothing. What is found is let go, and `-` told.
pub fn finds_nothing<M: EvictionManager>(
    cache: &mut Cache<M, OfTest>,
    request: &mut Request,
    now: Moment,
    told: &mut Told,
) -> bool {
    if !request.cache.phase().may_look_up() {
        told.say("wrong");
        return false;
    }
    match cache.cache_lookup_without_policy(request, now) {
        Ok(None) => return true,
        Ok(Some((_meta, hit))) => {
            cache.let_go(hit);
            told.say("-");
        }
        Err(refused) => told.refused(&refused),
    }
    false
}

/// Looks the key up, and takes what is found.
pub fn takes<M: EvictionManager>(
    cache: &mut Cache<M, OfTest>,
    request: &mut Request,
    status: HitStatus,
) -> Result<bool> {
    if !request.cache.phase().may_look_up() {
        return Ok(false);
    }
    match cache.cache_lookup_without_policy(request, NOW)? {
        Some((meta, hit)) => {
            cache.cache_found(request, meta, hit, status, NOW)?;
            Ok(true)
        }
        None => Ok(false),
    }
}

/// Reads once.
pub fn read<M: EvictionManager>(
    cache: &mut Cache<M, OfTest>,
    request: &mut Request,
    told: &mut Told,
) {
    if !request.cache.has_body_reader() {
        return told.say("no reader");
    }
    tell_read(cache.read_body(request), told);
}

fn tell_read(read: Result<Poll<Option<Bytes>>>, told: &mut Told) {
    match read {
        Ok(Poll::Ready(Some(bytes))) => told.bytes(bytes.as_slice()),
        Ok(Poll::Ready(None)) => told.say("end"),
        Ok(Poll::Pending) => told.say("pending"),
        Err(refused) => told.refused(&refused),
    }
}

/// Goes on as a miss, with a response whose head varies on this.
pub fn misses(alloc: Global, request: &mut Request, value: &str) -> bool {
    if !request.cache.phase().may_miss() {
        return false;
    }
    request.cache.cache_miss();
    request.cache.set_cache_meta(meta_of(alloc, value));
    true
}

/// Begins the write.
pub fn begins<M: EvictionManager>(
    cache: &mut Cache<M, OfTest>,
    request: &mut Request,
) -> Result<bool> {
    if !request.cache.may_write() {
        return Ok(false);
    }
    cache.set_miss_handler(request)?;
    Ok(true)
}

/// Writes a piece, perhaps the last one.
pub fn writes<M: EvictionManager>(
    cache: &mut Cache<M, OfTest>,
    request: &mut Request,
    piece: &'static [u8],
    is_last: bool,
) -> Result<bool> {
    if !request.cache.phase().is_filling() {
        return Ok(false);
    }
    cache.write_body(request, Bytes::from_static(piece), is_last)
}

/// Ends the write.
pub fn finishes<M: EvictionManager>(
    cache: &mut Cache<M, OfTest>,
    request: &mut Request,
) -> Result<bool> {
    if !request.cache.phase().is_filling() || !cache.may_end(request) {
        return Ok(false);
    }
    Ok(cache.finish_miss_handler(request)?.is_some())
}

/// Says of what was found stale that it is still valid, with a head that varies on this.
pub fn renews<M: EvictionManager>(
    cache: &mut Cache<M, OfTest>,
    request: &mut Request,
    value: &str,
) -> Result<bool> {
    if !request.cache.may_revalidate() {
        return Ok(false);
    }
    cache.revalidate_cache_meta(request, meta_of(cache.alloc(), value))
}

/// Purges the key.
pub fn purges<M: EvictionManager>(
    cache: &mut Cache<M, OfTest>,
    request: &mut Request,
) -> Result<bool> {
    if !request.cache.phase().may_purge() {
        return Ok(false);
    }
    cache.purge(request)
}

/// Ends the freshness of what is stored.
pub fn expires<M: EvictionManager>(
    cache: &mut Cache<M, OfTest>,
    request: &mut Request,
) -> Result<bool> {
    if !request.cache.phase().may_purge() {
        return Ok(false);
    }
    cache.expire(request, NOW)
}
