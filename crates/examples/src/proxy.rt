//! A proxy's request, from the look-up through a miss to a hit. The clock is the caller's.
ghost use Rattle.std.specs.Prelude.{◌≡◌, OnOk, None};
ghost use Rattle.pingora_cache.specs.Words.{MayLookUp, MayMiss};
ghost use Rattle.pingora_cache.specs.Words.{MayWrite, phase_found};
ghost use Rattle.pingora_cache.specs.Words.{CacheKey, Miss};

use crate::origin;
use crate::parts::{Parts, Request, request_for};
use bytes::Bytes;
use pingora_cache::error::Result;
use pingora_cache::memory::MemHitHandler;
use pingora_cache::moment::Moment;
use pingora_cache::poll::Poll;
use pingora_cache::storage::HandleMiss;
use pingora_cache::{CacheMeta, HitStatus, NoCacheReason, RespCacheable};

/// How a request was served.
#[derive(Clone, Copy, Debug)]
pub enum Served {
    /// From the cache: this many bytes.
    Hit(usize),
    /// From the origin, and stored: this many bytes.
    Filled(usize),
    /// From the origin, and for this reason not stored.
    Passed(NoCacheReason),
    /// Not yet: another request fills the key, and this one has to look again.
    Waits,
}

/// Serves a request for a path at a moment. What the request holds is given back, even if a call
/// failed.
pub fn serve(parts: &mut Parts, path: &str, now: Moment) -> Result<Served> {
    let mut request = request_for(parts.alloc, path)?;
    let served = answer(parts, &mut request, path, now);
    request.end(&mut parts.store, &mut parts.lock);
    served
}

fn answer(parts: &mut Parts, request: &mut Request, path: &str, now: Moment) -> Result<Served>
    requires { request.old.phase ≡ CacheKey }
{
    let Some((meta, hit)) = found(parts, request, now)? else {
        return fill_or_wait(parts, request, path, now);
    };
    if meta.is_fresh(now) {
        take(parts, request, meta, hit, HitStatus::Fresh, now)?;
        return read_all(parts, request);
    }
    take(parts, request, meta, hit, HitStatus::Expired, now)?;
    fill_or_wait(parts, request, path, now)
}

// What the store has for the key. If it has nothing, the request holds the key's lock.
fn found(
    parts: &mut Parts,
    request: &mut Request,
    now: Moment,
) -> Result<Option<(CacheMeta, MemHitHandler)>>
    requires { request.old.phase ≡ CacheKey }
    ensures { OnOk result (request.new.phase ≡ CacheKey) }
{
    request.cache_lookup_without_policy(&mut parts.store, &mut parts.lock, now)
}

// Takes the found pair: a fresh body is read, and a stale one asks for the key's lock.
fn take(
    parts: &mut Parts,
    request: &mut Request,
    meta: CacheMeta,
    hit: MemHitHandler,
    status: HitStatus,
    now: Moment,
) -> Result<()>
    requires { MayLookUp request.old.phase }
    ensures { OnOk result (request.new.phase ≡ phase_found status request.old.phase) }
{
    let Parts {
        alloc: _,
        store,
        manager,
        lock,
    } = parts;
    request.cache_found(store, manager, lock, meta, hit, status, now)
}

// Reads the found body to its end. A complete body comes in one piece, and then its end.
fn read_all(parts: &mut Parts, request: &mut Request) -> Result<Served> {
    let mut len = 0usize;
    for _ in 0..u64::MAX {
        if !request.has_body_reader() {
            break;
        }
        let Poll::Ready(Some(bytes)) = request.read_body(&mut parts.store)? else {
            break;
        };
        len = len.saturating_add(bytes.len());
    }
    Ok(Served::Hit(len))
}

// The holder of the permit fills the key, and the others have to wait.
fn fill_or_wait(parts: &mut Parts, request: &mut Request, path: &str, now: Moment) -> Result<Served>
    requires { MayMiss request.old.phase }
{
    if !matches!(request.held(), Some(held) if held.is_write()) {
        return Ok(Served::Waits);
    }
    request.cache_miss();
    match origin::outcome(parts.alloc, path, now)? {
        RespCacheable::Cacheable(meta) => store(parts, request, meta, origin::body(path)),
        RespCacheable::Uncacheable(reason) => Ok(pass(parts, request, reason)),
    }
}

// Stores nothing; those who wait get the status of the reason.
fn pass(parts: &mut Parts, request: &mut Request, reason: NoCacheReason) -> Served {
    if request.may_release(reason) {
        request.release_write_lock(&mut parts.lock, reason);
    }
    Served::Passed(reason)
}

// Stores the response, whose body comes in one piece. A request that just went on as a miss has no write.
fn store(parts: &mut Parts, request: &mut Request, meta: CacheMeta, body: Bytes) -> Result<Served>
    requires phase { request.old.phase ≡ Miss }
    requires unwritten { request.old.write ≡ None }
{
    request.set_cache_meta(meta);
    begin(parts, request)?;
    write(parts, request, body)?;
    let Parts {
        alloc: _,
        store,
        manager,
        lock,
    } = parts;
    let report = request.finish_miss_handler(store, manager, lock)?;
    Ok(Served::Filled(report.map_or(0, |report| report.size)))
}

fn begin(parts: &mut Parts, request: &mut Request) -> Result<()>
    requires phase { request.old.phase ≡ Miss }
    requires may { MayWrite request.old }
    ensures { OnOk result (request.new.phase ≡ Miss) }
{
    request.set_miss_handler(&mut parts.store, &mut parts.lock)
}

fn write(parts: &mut Parts, request: &mut Request, body: Bytes) -> Result<()>
    requires { request.old.phase ≡ Miss }
    ensures { OnOk result (request.new.phase ≡ Miss) }
{
    let Some(handler) = request.miss_handler() else {
        return Ok(());
    };
    if !handler.at_eof(&parts.store) {
        handler.write_body(&mut parts.store, body, true)?;
    }
    Ok(())
}
