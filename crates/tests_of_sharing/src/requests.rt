//! Requests of a cache in four parts, in few words.
ghost use Rattle.std.specs.Prelude.{◌≡◌};
ghost use Rattle.pcache_request.specs.Phases.{MayLookUp, MayMiss};
ghost use Rattle.pcache_request.specs.declared.phase.CachePhase.TheVariants.{CacheKey};

use crate::seats::{Parts, Request, request_for};
use bytes::Bytes;
use http::StatusCode;
use pcache_base::error::Result;
use pcache_base::moment::Moment;
use pcache_base::poll::Poll;
use pcache_evict::eviction::EvictionManager;
use pcache_meta::header::ResponseHeader;
use pcache_meta::meta::CacheMeta;
use pcache_request::HitStatus;
use std::alloc::Global;
use std::sync::Wait;

/// The moment of all calls.
pub const NOW: Moment = Moment::EPOCH;

/// The meta of a response that is fresh for a minute.
pub fn meta_of(alloc: Global) -> CacheMeta {
    let header = ResponseHeader::build(alloc, StatusCode::OK);
    CacheMeta::new(Moment::from_secs(60), NOW, 0, 0, header)
}

/// Looks a key up and fills it with this body if nothing is found. Returns whether it did.
pub fn fill<M: EvictionManager, R: Wait>(
    rt: &R,
    cache: &Parts<M>,
    name: &str,
    body: &'static [u8],
) -> Result<bool> {
    let mut request = request_for(cache, name.as_bytes());
    let filled = fill_in(rt, cache, &mut request, body);
    cache.end(rt, request);
    filled
}

fn fill_in<M: EvictionManager, R: Wait>(
    rt: &R,
    cache: &Parts<M>,
    request: &mut Request,
    body: &'static [u8],
) -> Result<bool>
    requires { request.old.cache.phase ≡ CacheKey }
{
    if let Some((_meta, hit)) = cache.cache_lookup(rt, request, NOW)? {
        cache.let_go(rt, request, hit);
        return Ok(false);
    }
    store_in(rt, cache, request, body)
}

fn store_in<M: EvictionManager, R: Wait>(
    rt: &R,
    cache: &Parts<M>,
    request: &mut Request,
    body: &'static [u8],
) -> Result<bool>
    requires { MayMiss request.old.cache.phase }
{
    request.cache_miss();
    request.set_cache_meta(meta_of(cache.alloc()));
    cache.set_miss_handler(rt, request)?;
    cache.write_body(rt, request, Bytes::from_static(body), true)?;
    Ok(cache.finish_miss_handler(rt, request)?.is_some())
}

/// Whether a key is found with this body, which is a use of it.
pub fn finds<M: EvictionManager, R: Wait>(
    rt: &R,
    cache: &Parts<M>,
    name: &str,
    body: &[u8],
) -> Result<bool> {
    let mut request = request_for(cache, name.as_bytes());
    let found = find_in(rt, cache, &mut request, body);
    cache.end(rt, request);
    found
}

fn find_in<M: EvictionManager, R: Wait>(
    rt: &R,
    cache: &Parts<M>,
    request: &mut Request,
    body: &[u8],
) -> Result<bool>
    requires { request.old.cache.phase ≡ CacheKey }
{
    let Some((meta, hit)) = cache.cache_lookup(rt, request, NOW)? else {
        return Ok(false);
    };
    cache.cache_found(rt, request, meta, hit, HitStatus::Fresh, NOW)?;
    if !request.cache().has_body_reader() {
        return Ok(false);
    }
    let read = cache.read_body(rt, request)?;
    Ok(matches!(read, Poll::Ready(Some(bytes)) if bytes.as_slice() == body))
}
