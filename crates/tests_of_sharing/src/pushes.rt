//! Puts beside requests for one key: each body that is read is one of those that were written, from its first byte to its last.
ghost use Rattle.std.specs.Prelude.{◌≡◌};
ghost use Rattle.pcache_request.specs.declared.phase.CachePhase.TheVariants.{CacheKey};

use crate::seats::{Lists, Request, begins, key_of, lists_of, request_for, writes};
use bytes::Bytes;
use pcache_base::error::{ErrorType, Result};
use pcache_base::moment::Moment;
use pcache_base::poll::Poll;
use pcache_control::RespCacheable;
use pcache_meta::header::ResponseHeader;
use pcache_meta::meta::CacheMeta;
use pcache_put::policy::CachePut;
use pcache_put::report::PutOutcome;
use pcache_request::phase::HitStatus;
use pcache_shared_cache::{SharedPut, Unnamed};
use std::alloc::Global;
use std::sync::Wait;
use std::test::Fail;
use std::thread;
use std::thread::Threads;

const WORKERS: usize = 4;

const ROUNDS: u32 = 500;

// How often a request looks the key up, and how often it asks in between, before it gives up.
const LOOKS: u32 = 10_000;

const TURNS: u32 = 10_000;

const NOW: Moment = Moment::EPOCH;

// A policy that stores every response, fresh for a minute.
#[derive(Drop)]
struct All;

impl CachePut for All {
    ghost says = { λ p header now answer. Unit {0} };

    fn cacheable(
        &self,
        _alloc: Global,
        header: ResponseHeader,
        _now: Moment,
    ) -> Result<RespCacheable> {
        Ok(RespCacheable::Cacheable(CacheMeta::new(Moment::from_secs(60), NOW, 0, 0, header)))
    }
}

type Put = SharedPut<All, Unnamed, 4>;

// Pushes a response in, by its pieces, between which a bar stands.
fn pushes<R: Wait>(rt: &R, cache: &Lists, pieces: &'static str) -> Result<bool> {
    let mut put = cache.put(All, key_of(cache.alloc(), b"a"));
    let came = pushes_in(rt, cache, &mut put, pieces);
    cache.end_put(rt, put);
    came
}

fn pushes_in<R: Wait>(rt: &R, cache: &Lists, put: &mut Put, pieces: &'static str) -> Result<bool> {
    for piece in pieces.split('|') {
        cache.cache_put(rt, put, &Bytes::from_static(piece.as_bytes()), NOW)?;
        thread::yield_now();
    }
    Ok(matches!(cache.finish_put(rt, put)?, PutOutcome::Stored(_)))
}

// A request until it was served with a whole body, of the store, along a write, or of its own. Returns whether it was.
fn is_served<R: Wait>(rt: &R, cache: &Lists) -> Result<bool> {
    for _ in 0..LOOKS {
        let mut request = request_for(cache, b"a");
        let served = serves(rt, cache, &mut request);
        cache.end(rt, request);
        if let Some(served) = served? {
            return Ok(served);
        }
    }
    Ok(false)
}

// Whether the body was one of those that were written. Nothing, if the request has to look again.
fn serves<R: Wait>(rt: &R, cache: &Lists, request: &mut Request) -> Result<Option<bool>>
    requires { request.old.cache.phase ≡ CacheKey }
{
    if let Some((meta, hit)) = cache.cache_lookup(rt, request, NOW)? {
        cache.cache_found(rt, request, meta, hit, HitStatus::Fresh, NOW)?;
        return reads_one(rt, cache, request);
    }
    if matches!(request.cache().held(), Some(held) if held.is_write()) {
        let has_begun = begins(rt, cache, request)?;
        return Ok(Some(has_begun && writes(rt, cache, request, b"zz")?));
    }
    if matches!(request.cache().held(), Some(held) if !held.is_write()) {
        cache.wait_in_turns(rt, request, NOW, TURNS)?;
    }
    Ok(None)
}

// Reads to the end. Nothing, if the body was cut off.
fn reads_one<R: Wait>(rt: &R, cache: &Lists, request: &mut Request) -> Result<Option<bool>> {
    let mut letter = 0u8;
    let mut count = 0usize;
    for _ in 0..5u32 {
        if !request.cache().has_body_reader() {
            return Ok(Some(false));
        }
        match cache.read_in_turns(rt, request, TURNS)? {
            Poll::Ready(Some(bytes)) => {
                if !goes_on(letter, bytes.as_slice()) {
                    return Ok(Some(false));
                }
                letter = letter_of(bytes.as_slice());
                count = count.saturating_add(bytes.len());
            }
            _ => return Ok(if cache.is_body_whole(rt, request) {
                Some(count == 4)
            } else {
                None
            }),
        }
    }
    Ok(Some(false))
}

// Whether all bytes are one of the letters, that which came before if one did.
fn goes_on(before: u8, bytes: &[u8]) -> bool {
    let letter = letter_of(bytes);
    for byte in bytes {
        if *byte != letter {
            return false;
        }
    }
    matches!(letter, b'x' | b'y' | b'z') && (before == 0 || before == letter)
}

fn letter_of(bytes: &[u8]) -> u8 {
    match bytes.first() {
        Some(letter) => *letter,
        None => 0,
    }
}

// A thread's round: two push, and two ask for the key.
fn goes_well<R: Wait>(rt: &R, cache: &Lists, worker: usize) -> bool {
    let went = match worker {
        0 => pushes(rt, cache, "HTTP/1.1 200 OK\r\n\r\nx|xx|x"),
        1 => pushes(rt, cache, "HTTP/1.1 200 OK\r\n|\r\nyy|yy"),
        _ => is_served(rt, cache),
    };
    match went {
        Ok(went) => went,
        // What began later has ended, and stands.
        Err(refused) => matches!(refused.etype(), ErrorType::Superseded),
    }
}

fn work<R: Wait>(rt: &R, cache: &Lists, worker: usize) -> u32 {
    let mut good = 0u32;
    for _ in 0..ROUNDS {
        if goes_well(rt, cache, worker) {
            good = good.saturating_add(1);
        }
    }
    good
}

fn all_go_well<R: Threads + Wait + Sync>(rt: &R, alloc: Global) -> Result<bool> {
    let cache = lists_of(alloc, 8)?;
    let mut good = [0u32; WORKERS];
    thread::for_each_mut(
        rt,
        &mut good,
        WORKERS,
        &|worker, good| {
            *good = work(rt, &cache, worker);
        },
    );
    Ok(
        good == [ROUNDS; WORKERS]
            && matches!(is_served(rt, &cache), Ok(true))
            && cache.slots(rt) == 1
            && cache.stored_bytes(rt) == 4,
    )
}

#[test]
fn no_body_is_mixed_of_puts_and_fills(rt: HostRuntime) -> std::result::Result<(), Fail> {
    let go_well = all_go_well(&rt, rt.alloc())?;
    assert!(rt; go_well);
    Ok(())
}
