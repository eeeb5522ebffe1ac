//! Eight threads fill, read and purge a thousand keys. After a purge returned, no thread reads a byte of a write that began before it.
//!
//! Each write has a number, drawn once it began, and its bytes are that number, twice. A purge takes the next number before it removes
//! the key, and once it returned that number is the least that whoever looks the key up may read.
ghost use Rattle.std.specs.Prelude.{◌≡◌};
ghost use Rattle.pcache_request.specs.declared.phase.CachePhase.TheVariants.{CacheKey};

use crate::seats::{Lists, Request, begins, lists_of, request_for, writes};
use pcache_base::error::{ErrorType, Result};
use pcache_base::moment::Moment;
use pcache_base::poll::Poll;
use pcache_request::phase::HitStatus;
use std::alloc::Global;
use std::sync::Wait;
use std::sync::atomic::{AtomicU64, Ordering};
use std::test::Fail;
use std::thread;
use std::thread::Threads;

const WORKERS: usize = 8;

const KEYS: usize = 1_000;

// How many requests each thread makes.
const ROUNDS: u64 = 500;

const NOW: Moment = Moment::EPOCH;

/// The next number of a write, and the least that may be read for each key.
#[derive(Drop)]
pub struct Numbers {
    next: AtomicU64,
    least: [AtomicU64; KEYS],
}

impl Numbers {
    /// None was drawn, and all may be read.
    pub fn new() -> Numbers {
        Numbers {
            next: AtomicU64::new(1),
            least: std::array::from_fn(|_key: usize| -> AtomicU64 { AtomicU64::new(0) }),
        }
    }

    /// The next number.
    pub fn draw(&self) -> u64 {
        self.next.fetch_add(1, Ordering::SeqCst)
    }

    fn next(&self) -> u64 {
        self.next.load(Ordering::SeqCst)
    }

    /// The least number that may be read for a key.
    pub fn least(&self, key: u64) -> u64 {
        match self.least.get(key as usize) {
            Some(least) => least.load(Ordering::SeqCst),
            None => u64::MAX,
        }
    }

    /// From now on no number below this one may be read for a key.
    pub fn raise(&self, key: u64, number: u64) {
        if let Some(least) = self.least.get(key as usize) {
            least.fetch_max(number, Ordering::SeqCst);
        }
    }
}

// The number that bytes are, again and again, or 0.
fn number_in(bytes: &[u8]) -> u64 {
    let mut whole = 0u64;
    let mut number = 0u64;
    let mut count = 0u32;
    for byte in bytes {
        number = number.wrapping_mul(256).wrapping_add(u64::from(*byte));
        count = count.wrapping_add(1);
        if count == 8 {
            if whole != 0 && whole != number {
                return 0;
            }
            whole = number;
            number = 0;
            count = 0;
        }
    }
    if count == 0 { whole } else { 0 }
}

// Whether all that is there of a body is one number, which may be read. A write may be cut off before its first byte.
fn reads_recent<R: Wait>(rt: &R, cache: &Lists, request: &mut Request, least: u64) -> Result<bool> {
    let mut number = 0u64;
    for _ in 0..3u32 {
        if !request.cache().has_body_reader() {
            return Ok(false);
        }
        match cache.read_body(rt, request)? {
            Poll::Ready(Some(bytes)) => {
                let read = number_in(bytes.as_slice());
                if read < least || read == 0 || (number != 0 && number != read) {
                    return Ok(false);
                }
                number = read;
            }
            Poll::Ready(None) => return Ok(number != 0 || !cache.is_body_whole(rt, request)),
            Poll::Pending => return Ok(true),
        }
    }
    Ok(false)
}

// Serves a key: from the store, or by a fill of its own. A request that would have to wait ends.
fn serves<R: Wait>(
    rt: &R,
    cache: &Lists,
    request: &mut Request,
    key: u64,
    numbers: &Numbers,
) -> Result<bool>
    requires { request.old.cache.phase ≡ CacheKey }
{
    let least = numbers.least(key);
    if let Some((meta, hit)) = cache.cache_lookup(rt, request, NOW)? {
        cache.cache_found(rt, request, meta, hit, HitStatus::Fresh, NOW)?;
        return reads_recent(rt, cache, request, least);
    }
    if matches!(request.cache().held(), Some(held) if held.is_write()) {
        let has_begun = begins(rt, cache, request)?;
        let number = numbers.draw();
        return Ok(has_begun && writes(rt, cache, request, &number.to_be_bytes())?);
    }
    Ok(true)
}

fn purges<R: Wait>(
    rt: &R,
    cache: &Lists,
    request: &mut Request,
    key: u64,
    numbers: &Numbers,
) -> Result<bool>
    requires { request.old.cache.phase ≡ CacheKey }
{
    let next = numbers.next();
    cache.purge(rt, request)?;
    numbers.raise(key, next);
    Ok(true)
}

fn is_served<R: Wait>(rt: &R, cache: &Lists, key: u64, numbers: &Numbers) -> Result<bool> {
    let mut request = request_for(cache, &key.to_be_bytes());
    let is_served = serves(rt, cache, &mut request, key, numbers);
    cache.end(rt, request);
    is_served
}

fn is_purged<R: Wait>(rt: &R, cache: &Lists, key: u64, numbers: &Numbers) -> Result<bool> {
    let mut request = request_for(cache, &key.to_be_bytes());
    let is_purged = purges(rt, cache, &mut request, key, numbers);
    cache.end(rt, request);
    is_purged
}

/// The number after this one in a sequence that looks drawn (Knuth's MMIX).
pub fn stirred(number: u64) -> u64 {
    number
        .wrapping_mul(6_364_136_223_846_793_005)
        .wrapping_add(1_442_695_040_888_963_407)
}

// How many of a thread's requests went as they should. One in eight is a purge.
fn work<R: Wait>(rt: &R, cache: &Lists, numbers: &Numbers, worker: u64) -> u64 {
    let mut drawn = stirred(worker);
    let mut good = 0u64;
    for _ in 0..ROUNDS {
        drawn = stirred(drawn);
        let key = (drawn >> 32) % KEYS as u64;
        let went = if drawn >> 61 == 0 {
            is_purged(rt, cache, key, numbers)
        } else {
            is_served(rt, cache, key, numbers)
        };
        if is_well(went) {
            good = good.saturating_add(1);
        }
    }
    good
}

// A write may have met a purge, and then is gone.
fn is_well(went: Result<bool>) -> bool {
    match went {
        Ok(went) => went,
        Err(refused) => matches!(refused.etype(), ErrorType::WriteRemoved),
    }
}

// Purges all keys, and then fills and reads each.
fn starts_anew<R: Wait>(rt: &R, cache: &Lists, numbers: &Numbers) -> bool {
    let mut good = true;
    for key in 0..KEYS as u64 {
        good &= matches!(is_purged(rt, cache, key, numbers), Ok(true));
    }
    good &= cache.slots(rt) == 0 && cache.stored_bytes(rt) == 0;
    for key in 0..KEYS as u64 {
        good &= matches!(is_served(rt, cache, key, numbers), Ok(true));
    }
    good &= cache.slots(rt) == KEYS as u128 && cache.stored_bytes(rt) == 16_000;
    let next = numbers.next();
    for key in 0..KEYS as u64 {
        good &= matches!(is_served(rt, cache, key, numbers), Ok(true));
    }
    good && numbers.next() == next
}

fn all_read_recent<R: Threads + Wait + Sync>(rt: &R, alloc: Global) -> Result<bool> {
    let cache = lists_of(alloc, KEYS)?;
    let numbers = Numbers::new();
    let mut good = [0u64; WORKERS];
    thread::for_each_mut(
        rt,
        &mut good,
        WORKERS,
        &|worker, good| {
            *good = work(rt, &cache, &numbers, worker as u64);
        },
    );
    Ok(good == [ROUNDS; WORKERS] && starts_anew(rt, &cache, &numbers))
}

#[test]
fn nothing_is_read_of_what_was_purged(rt: HostRuntime) -> std::result::Result<(), Fail> {
    let are_recent = all_read_recent(&rt, rt.alloc())?;
    assert!(rt; are_recent);
    Ok(())
}
