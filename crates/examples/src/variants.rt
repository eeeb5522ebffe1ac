//! Variants: what a response varies on, and a purge of a key with all its variants.
ghost use Rattle.std.specs.Prelude.{◌≡◌, OnOk, IfOk, true};
ghost use Rattle.pingora_cache.specs.Words.{CacheKey};

use crate::front::{FrontCache, Request, meta_of, request_for};
use bytes::Bytes;
use pingora_cache::error::Result;
use pingora_cache::key::HashBinary;
use pingora_cache::memory::MemHitHandler;
use pingora_cache::moment::Moment;
use pingora_cache::{CacheMeta, VarianceBuilder};
use std::alloc::Global;

/// Whether a visit found its variant, or filled it.
#[derive(Clone, Copy, Debug)]
pub enum Visited {
    /// The variant was found.
    Found,
    /// The variant was fetched and stored.
    Filled,
    /// Another request fills the key.
    Waits,
}

/// A visit by a client with this language, of a path whose responses vary on the language.
pub fn visit(cache: &mut FrontCache, path: &str, language: &str, now: Moment) -> Result<Visited> {
    let mut request = request_for(cache.alloc(), path)?;
    let visited = visit_by(cache, &mut request, language, now);
    cache.end(request);
    visited
}

// What the response varies on, as one hash.
fn variance_of(alloc: Global, language: &str) -> Result<Option<HashBinary>> {
    let mut builder = VarianceBuilder::new(alloc);
    builder.add_value("accept-language", language.as_bytes())?;
    Ok(builder.finalize())
}

fn visit_by(
    cache: &mut FrontCache,
    request: &mut Request,
    language: &str,
    now: Moment,
) -> Result<Visited>
    requires phase { request.old.cache.phase ≡ CacheKey }
    requires uses { request.old.cache.uses.eviction ≡ true }
{
    let variance = variance_of(cache.alloc(), language)?;
    if let Some((_meta, hit)) = find(cache, request, variance, now)? {
        cache.let_go(hit);
        return Ok(Visited::Found);
    }
    if !request.cache.is_cache_lock_writer() {
        return Ok(Visited::Waits);
    }
    fill(cache, request, variance, now)
}

// The response that is stored for the key itself says whether it is the requested variant. If not, the key takes the
// variance, and is looked up again.
fn find(
    cache: &mut FrontCache,
    request: &mut Request,
    variance: Option<HashBinary>,
    now: Moment,
) -> Result<Option<(CacheMeta, MemHitHandler)>>
    requires { request.old.cache.phase ≡ CacheKey }
    ensures phase { OnOk result (request.new.cache.phase ≡ CacheKey) }
    ensures uses { OnOk result (request.new.cache.uses ≡ request.old.cache.uses) }
{
    let Some((meta, hit)) = cache.cache_lookup_without_policy(request, now)? else {
        return Ok(None);
    };
    let Some(variance) = variance else {
        return Ok(Some((meta, hit)));
    };
    if request.cache.cache_vary_lookup(variance, &meta) {
        return Ok(Some((meta, hit)));
    }
    cache.let_go(hit);
    cache.cache_lookup_without_policy(request, now)
}

// The response's own variance is set before its write begins.
fn fill(
    cache: &mut FrontCache,
    request: &mut Request,
    variance: Option<HashBinary>,
    now: Moment,
) -> Result<Visited>
    requires phase { request.old.cache.phase ≡ CacheKey }
    requires uses { request.old.cache.uses.eviction ≡ true }
{
    request.cache.cache_miss();
    request.cache.set_cache_meta(meta_of(cache.alloc(), now));
    cache.update_variance(request, variance);
    cache.set_miss_handler(request)?;
    cache.write_body(request, Bytes::from_static(b"a page"), true)?;
    cache.finish_miss_handler(request)?;
    Ok(Visited::Filled)
}

/// Purges a path. The response stored for the path itself is removed, and from then on all its variants are hidden: a request
/// that finds nothing for the key fills it again, and variants that were created before that are hidden.
pub fn purge_all(cache: &mut FrontCache, path: &str) -> Result<bool> {
    let mut request = request_for(cache.alloc(), path)?;
    let was_there = cache.purge(&mut request);
    cache.end(request);
    was_there
}
