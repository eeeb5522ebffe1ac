//! The proxy over four threads, which share one cache in parts. A request that has to wait asks again, and holds no lock while
//! other threads run.
ghost use Rattle.std.specs.Prelude.{◌≡◌, IfOk, None};
ghost use Rattle.pingora_cache.specs.Words.{MayLookUp, MayMiss};
ghost use Rattle.pingora_cache.specs.Words.{CacheKey, Miss};

use crate::origin;
use bytes::Bytes;
use pingora_cache::error::Result;
use pingora_cache::eviction::simple_lru::Manager;
use pingora_cache::memory::MemHitHandler;
use pingora_cache::moment::Moment;
use pingora_cache::poll::Poll;
use pingora_cache::seed::Seed;
use pingora_cache::{CacheMeta, HitStatus, RespCacheable, SharedCache, SharedRequest, Unnamed};
use std::alloc::Global;
use std::sync::Wait;
use std::sync::atomic::{AtomicU64, Ordering};
use std::thread;
use std::thread::Threads;
use std::time::Duration;

const WORKERS: usize = 4;

const ROUNDS: u32 = 25;

const PATHS: [&str; 3] = ["/news", "/weather", "/sports"];

// How often a request asks whether its wait is over, before it looks again.
const TURNS: u32 = 1_000;

// How often a request looks up before it gives up.
const LOOKS: u32 = 1_000;

const NOW: Moment = Moment::EPOCH;

type Parts = SharedCache<Manager, Unnamed, 16>;

type Request = SharedRequest<Unnamed, 16>;

/// What all threads did together.
#[derive(Clone, Copy, Debug)]
pub struct Report {
    /// The requests that were served.
    pub served: u32,
    /// How often the origin was asked.
    pub fetches: u64,
    /// The bytes that are stored at the end.
    pub stored: u128,
}

/// Serves each path many times from each of four threads.
pub fn run<R: Threads + Wait + Sync>(rt: &R, alloc: Global, seed: Seed) -> Result<Report> {
    let cache = Parts::with_lists(alloc, seed, 64_000, None, Duration::from_secs(10))?;
    let fetches = AtomicU64::new(0);
    let mut served = [0u32; WORKERS];
    thread::for_each_mut(
        rt,
        &mut served,
        WORKERS,
        &|_worker, served| {
            *served = work(rt, &cache, &fetches);
        },
    );
    let mut all = 0u32;
    for count in served {
        all = all.saturating_add(count);
    }
    Ok(Report {
        served: all,
        fetches: fetches.load(Ordering::SeqCst),
        stored: cache.stored_bytes(rt),
    })
}

// How many of a thread's requests were served.
fn work<R: Wait>(rt: &R, cache: &Parts, fetches: &AtomicU64) -> u32 {
    let mut served = 0u32;
    for _ in 0..ROUNDS {
        for path in PATHS {
            if matches!(serve(rt, cache, fetches, path), Ok(true)) {
                served = served.saturating_add(1);
            }
        }
    }
    served
}

// Whether a request for a path was served. The key is hashed before any lock is taken.
fn serve<R: Wait>(rt: &R, cache: &Parts, fetches: &AtomicU64, path: &str) -> Result<bool> {
    for _ in 0..LOOKS {
        let mut request = request_for(cache, path)?;
        let served = answer(rt, cache, &mut request, fetches, path);
        cache.end(rt, request);
        if served? {
            return Ok(true);
        }
    }
    Ok(false)
}

fn request_for(cache: &Parts, path: &str) -> Result<Request>
    ensures { IfOk result (λ r. r.cache.phase ≡ CacheKey) }
{
    let alloc = cache.alloc();
    let primary = path.as_bytes().to_vec(alloc)?;
    Ok(cache.request(pingora_cache::CacheKey::new(primary, String::new(alloc))))
}

fn answer<R: Wait>(
    rt: &R,
    cache: &Parts,
    request: &mut Request,
    fetches: &AtomicU64,
    path: &str,
) -> Result<bool>
    requires { request.old.cache.phase ≡ CacheKey }
{
    if let Some((meta, hit)) = cache.cache_lookup(rt, request, NOW)? {
        return take(rt, cache, request, meta, hit);
    }
    if matches!(request.cache().held(), Some(held) if held.is_write()) {
        fetches.fetch_add(1, Ordering::SeqCst);
        return fetch(rt, cache, request, path);
    }
    wait(rt, cache, request)
}

// Takes the found pair, and reads the body to its end. If another request is still writing it, this
// reads along.
fn take<R: Wait>(
    rt: &R,
    cache: &Parts,
    request: &mut Request,
    meta: CacheMeta,
    hit: MemHitHandler,
) -> Result<bool>
    requires { MayLookUp request.old.cache.phase }
{
    cache.cache_found(rt, request, meta, hit, HitStatus::Fresh, NOW)?;
    for _ in 0..LOOKS {
        if !request.cache().has_body_reader() {
            return Ok(false);
        }
        if matches!(cache.read_in_turns(rt, request, TURNS)?, Poll::Ready(None)) {
            return Ok(true);
        }
    }
    Ok(false)
}

// Another request fetches the path: asks for a while whether it has done so.
fn wait<R: Wait>(rt: &R, cache: &Parts, request: &mut Request) -> Result<bool> {
    if matches!(request.cache().held(), Some(held) if !held.is_write()) {
        cache.wait_in_turns(rt, request, NOW, TURNS)?;
    }
    Ok(false)
}

// Asks the origin, and stores its response.
fn fetch<R: Wait>(rt: &R, cache: &Parts, request: &mut Request, path: &str) -> Result<bool>
    requires { MayMiss request.old.cache.phase }
{
    request.cache_miss();
    match origin::outcome(cache.alloc(), path, NOW)? {
        RespCacheable::Cacheable(meta) => store(rt, cache, request, meta, origin::body(path)),
        RespCacheable::Uncacheable(_reason) => Ok(true),
    }
}

fn store<R: Wait>(
    rt: &R,
    cache: &Parts,
    request: &mut Request,
    meta: CacheMeta,
    body: Bytes,
) -> Result<bool>
    requires phase { request.old.cache.phase ≡ Miss }
    requires unwritten { request.old.cache.write ≡ None }
{
    request.set_cache_meta(meta);
    cache.set_miss_handler(rt, request)?;
    cache.write_body(rt, request, body, true)?;
    Ok(cache.finish_miss_handler(rt, request)?.is_some())
}
