//! Many requests for one key, over eight threads.
ghost use Rattle.std.specs.Prelude.{◌≡◌};
ghost use Rattle.pcache_request.specs.Phases.{MayLookUp, MayMiss};
ghost use Rattle.pcache_request.specs.declared.phase.CachePhase.TheVariants.{CacheKey};

use crate::requests::{NOW, meta_of};
use crate::seats::{Lists, ROOM, Request, lists_within, request_for};
use bytes::Bytes;
use pcache_base::error::Result;
use pcache_base::poll::Poll;
use pcache_request::HitStatus;
use std::alloc::Global;
use std::sync::Wait;
use std::sync::atomic::{AtomicU64, Ordering};
use std::test::Fail;
use std::thread;
use std::thread::Threads;

const WORKERS: usize = 8;

const REQUESTS: u32 = 125;

// How often a request looks the key up, and how often it asks in between, before it gives up.
const LOOKS: u32 = 1_000;

const TURNS: u32 = 1_000;

// A request until it is served with the whole body. Returns whether it was.
fn serve<R: Wait>(rt: &R, cache: &Lists, fetches: &AtomicU64) -> Result<bool> {
    for _ in 0..LOOKS {
        let mut request = request_for(cache, b"a");
        let served = answer(rt, cache, &mut request, fetches);
        cache.end(rt, request);
        if served? {
            return Ok(true);
        }
    }
    Ok(false)
}

// Whether the request was served: from the store, along a write, or by its own fetch. One that has to wait is not.
fn answer<R: Wait>(
    rt: &R,
    cache: &Lists,
    request: &mut Request,
    fetches: &AtomicU64,
) -> Result<bool>
    requires { request.old.cache.phase ≡ CacheKey }
{
    if let Some((meta, hit)) = cache.cache_lookup(rt, request, NOW)? {
        cache.cache_found(rt, request, meta, hit, HitStatus::Fresh, NOW)?;
        return reads_all(rt, cache, request);
    }
    if matches!(request.cache().held(), Some(held) if held.is_write()) {
        fetches.fetch_add(1, Ordering::SeqCst);
        return fetch(rt, cache, request);
    }
    if matches!(request.cache().held(), Some(held) if !held.is_write()) {
        cache.wait_in_turns(rt, request, NOW, TURNS)?;
    }
    Ok(false)
}

// Stores the body in two pieces, between which others have the processor.
fn fetch<R: Wait>(rt: &R, cache: &Lists, request: &mut Request) -> Result<bool>
    requires { MayMiss request.old.cache.phase }
{
    request.cache_miss();
    request.set_cache_meta(meta_of(cache.alloc()));
    if !request.cache().may_write() {
        return Ok(false);
    }
    cache.set_miss_handler(rt, request)?;
    cache.write_body(rt, request, Bytes::from_static(b"one ".as_slice()), false)?;
    thread::yield_now();
    cache.write_body(rt, request, Bytes::from_static(b"body".as_slice()), true)?;
    Ok(cache.finish_miss_handler(rt, request)?.is_some())
}

// Whether the body is read to its end, and is that which was stored.
fn reads_all<R: Wait>(rt: &R, cache: &Lists, request: &mut Request) -> Result<bool> {
    let mut read = 0usize;
    for _ in 0..LOOKS {
        if !request.cache().has_body_reader() {
            return Ok(false);
        }
        match cache.read_in_turns(rt, request, TURNS)? {
            Poll::Ready(Some(bytes)) => read = read.saturating_add(bytes.len()),
            Poll::Ready(None) => return Ok(read == 8),
            Poll::Pending => {}
        }
    }
    Ok(false)
}

// How many of a worker's requests were served.
fn work<R: Wait>(rt: &R, cache: &Lists, fetches: &AtomicU64) -> u32 {
    let mut served = 0u32;
    for _ in 0..REQUESTS {
        if matches!(serve(rt, cache, fetches), Ok(true)) {
            served = served.saturating_add(1);
        }
    }
    served
}

fn all_served<R: Threads + Wait + Sync>(rt: &R, alloc: Global) -> Result<bool> {
    let cache = lists_within(alloc, 4 * ROOM + 64)?;
    let fetches = AtomicU64::new(0);
    let mut served = [0u32; WORKERS];
    thread::for_each_mut(
        rt,
        &mut served,
        WORKERS,
        &|_worker, served| {
            *served = work(rt, &cache, &fetches);
        },
    );
    Ok(
        served == [REQUESTS; WORKERS]
            && fetches.load(Ordering::SeqCst) == 1
            && cache.stored_bytes(rt) == 8,
    )
}

#[test]
fn a_thousand_requests_make_one_fetch(rt: HostRuntime) -> std::result::Result<(), Fail> {
    let is_one = all_served(&rt, rt.alloc())?;
    assert!(rt; is_one);
    Ok(())
}
