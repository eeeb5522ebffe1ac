//! The way of a request: a fresh body is served, and else one request for the key fetches it.
ghost use Rattle.std.specs.Prelude.{◌≡◌, IsSome, true};
ghost use Rattle.pingora_cache.specs.Words.{MayMiss};
ghost use Rattle.pingora_cache.specs.Words.{CacheKey};

use crate::front::{ProxyCache, Request, meta_of, request_for};
use crate::origin::fetch;
use bytes::Bytes;
use pingora_cache::HitStatus;
use pingora_cache::error::Result;
use pingora_cache::moment::Moment;
use pingora_cache::poll::Poll;

/// How a request was served.
pub enum Served {
    /// With the body that is stored.
    Found(Bytes),
    /// With the body that was fetched, and is stored now.
    Fetched(Bytes),
    /// Not yet: another request fetches the body. Ask again.
    Waits,
}

/// Serves a path at a moment.
pub fn serve(cache: &mut ProxyCache, path: &str, now: Moment) -> Result<Served> {
    let mut request = request_for(cache.alloc(), path)?;
    let served = look_up(cache, &mut request, path, now);
    cache.end(request); // gives back what the request holds, also after an error
    served
}

fn look_up(cache: &mut ProxyCache, request: &mut Request, path: &str, now: Moment) -> Result<Served>
    requires phase { request.old.cache.phase ≡ CacheKey }
    requires uses { request.old.cache.uses.eviction ≡ true }
{
    let Some((meta, hit)) = cache.cache_lookup_without_policy(request, now)? else {
        return fill(cache, request, path, now);
    };
    if meta.is_fresh(now) {
        cache.cache_found(request, meta, hit, HitStatus::Fresh, now)?;
        return read(cache, request);
    }
    cache.cache_found(request, meta, hit, HitStatus::Expired, now)?;
    fill(cache, request, path, now)
}

// One request has the permit to fill the key, and fetches the body. The others wait for it.
fn fill(cache: &mut ProxyCache, request: &mut Request, path: &str, now: Moment) -> Result<Served>
    requires phase { MayMiss request.old.cache.phase }
    requires uses { request.old.cache.uses.eviction ≡ true }
{
    if !request.cache.is_cache_lock_writer() {
        return Ok(Served::Waits);
    }
    let body = fetch(cache.alloc(), path)?;
    request.cache.cache_miss();
    request.cache.set_cache_meta(meta_of(cache.alloc(), now));
    cache.set_miss_handler(request)?;
    cache.write_body(request, body.clone()?, true)?;
    cache.finish_miss_handler(request)?;
    Ok(Served::Fetched(body))
}

// A complete body comes in one piece. One that is still being written is not waited for here.
fn read(cache: &mut ProxyCache, request: &mut Request) -> Result<Served>
    requires { IsSome request.old.cache.reader }
{
    Ok(match cache.read_body(request)? {
        Poll::Ready(Some(body)) => Served::Found(body),
        _ => Served::Waits,
    })
}
