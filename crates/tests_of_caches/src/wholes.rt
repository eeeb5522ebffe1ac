//! Whole requests, each from its key to its end: `+` says that one did what it is for, `-` that it did not.
use crate::calls::{
    begins, end, finds_nothing, finishes, misses, opens, purges, read, renews, takes, writes,
};
use crate::requests::{NOW, OfTest, Request};
use pcache_base::error::Result;
use pcache_cache::Cache;
use pcache_evict::eviction::EvictionManager;
use pcache_request::HitStatus;
use test_rows::Told;

/// Says whether a call did what it is for.
pub fn tell_sign(is: Result<bool>, told: &mut Told) {
    match is {
        Ok(is) => told.say(if is { "+" } else { "-" }),
        Err(refused) => told.refused(&refused),
    }
}

/// Looks a key up and fills it with this body if nothing is found.
pub fn fill<M: EvictionManager>(
    cache: &mut Cache<M, OfTest>,
    request: &mut Request,
    name: &[u8],
    body: &'static [u8],
    told: &mut Told,
) {
    if opens(cache.alloc(), request, name, None) && finds_nothing(cache, request, NOW, told) {
        tell_sign(stores(cache, request, body), told);
    }
    end(cache, request);
}

fn stores<M: EvictionManager>(
    cache: &mut Cache<M, OfTest>,
    request: &mut Request,
    body: &'static [u8],
) -> Result<bool> {
    Ok(is_written(cache, request, body)? && finishes(cache, request)?)
}

/// Begins a write, and writes all of a body.
pub fn is_written<M: EvictionManager>(
    cache: &mut Cache<M, OfTest>,
    request: &mut Request,
    body: &'static [u8],
) -> Result<bool> {
    Ok(
        misses(cache.alloc(), request, "")
            && begins(cache, request)?
            && writes(cache, request, body, true)?,
    )
}

/// Tells the body that is found under a key, which is a use of it.
pub fn find<M: EvictionManager>(
    cache: &mut Cache<M, OfTest>,
    request: &mut Request,
    name: &[u8],
    told: &mut Told,
) {
    opens(cache.alloc(), request, name, None);
    match takes(cache, request, HitStatus::Fresh) {
        Ok(true) => read(cache, request, told),
        answer => tell_sign(answer, told),
    }
    end(cache, request);
}

/// Purges a key, and says whether anything was stored.
pub fn purge<M: EvictionManager>(
    cache: &mut Cache<M, OfTest>,
    request: &mut Request,
    name: &[u8],
    told: &mut Told,
) {
    opens(cache.alloc(), request, name, None);
    tell_sign(purges(cache, request), told);
    end(cache, request);
}

/// Says of a stored body that it is still valid, with a head that varies on this.
pub fn renew<M: EvictionManager>(
    cache: &mut Cache<M, OfTest>,
    request: &mut Request,
    name: &[u8],
    value: &str,
    told: &mut Told,
) {
    opens(cache.alloc(), request, name, None);
    tell_sign(is_renewed(cache, request, value), told);
    end(cache, request);
}

fn is_renewed<M: EvictionManager>(
    cache: &mut Cache<M, OfTest>,
    request: &mut Request,
    value: &str,
) -> Result<bool> {
    Ok(takes(cache, request, HitStatus::Expired)? && renews(cache, request, value)?)
}
