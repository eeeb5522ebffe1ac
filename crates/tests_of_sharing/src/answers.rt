//! Eight threads fill, reload, renew and read three keys. Each answer is of one response, and none is older than one that was stored
//! before it was asked for.
//!
//! Each write draws a number before it begins, which its head has, and a second one once it began. Its bytes are both. Whoever renews
//! what it found sets a head with that one's number. So an answer is of two responses if its head has another number than its body; and
//! it is older than a stored one if that one's number was drawn after the answer's write had begun. Once a write is finished, no second
//! number below its first one may be read.
ghost use Rattle.std.specs.Prelude.{◌≡◌};
ghost use Rattle.pcache_request.specs.declared.phase.CachePhase.TheVariants.{CacheKey};

use crate::purges::{Numbers, stirred};
use crate::seats::{Lists, Request, begins_with, head_of, lists_of, request_for};
use bytes::Bytes;
use http_header::{ETAG, HeaderValue};
use pcache_base::error::{ErrorType, Result};
use pcache_base::moment::Moment;
use pcache_base::poll::Poll;
use pcache_meta::header::ResponseHeader;
use pcache_meta::meta::CacheMeta;
use pcache_request::phase::HitStatus;
use std::alloc::Global;
use std::sync::Wait;
use std::sync::atomic::{AtomicU64, Ordering};
use std::test::Fail;
use std::thread;
use std::thread::Threads;

const WORKERS: usize = 8;

const KEYS: u64 = 3;

// How many requests each thread makes.
const ROUNDS: u64 = 1_000;

// How often a thread looks whether all others have begun, before it begins alone.
const TURNS: u64 = 1_000_000;

const NOW: Moment = Moment::EPOCH;

// What a request does with what it finds. Without anything found it fills the key, if it may.
#[derive(Clone, Copy)]
enum Act {
    Read,
    Renew,
    Reload,
    BreakOff,
}

// A request, with how often it lets others go on in the middle.
#[derive(Clone, Copy)]
struct Turn {
    key: u64,
    act: Act,
    pauses: u64,
}

// A request by a number that looks drawn.
fn turn_of(drawn: u64) -> Turn {
    let act = match drawn >> 61 {
        0 | 1 => Act::Renew,
        2 | 3 => Act::Reload,
        4 => Act::BreakOff,
        _ => Act::Read,
    };
    Turn {
        key: (drawn >> 32) % KEYS,
        act,
        pauses: (drawn >> 48) % 8,
    }
}

fn pause(turn: Turn) {
    for _ in 0..turn.pauses {
        thread::yield_now();
    }
}

// Adds a field with a number, and returns whether it was taken.
fn add_number(alloc: Global, header: &mut ResponseHeader, number: u64) -> Result<bool> {
    let text = format!(in alloc; "{number}")?;
    match HeaderValue::from_bytes(alloc, text.as_bytes()) {
        Ok(value) => Ok(header.headers.append(ETAG, value).is_ok()),
        Err(_refused) => Ok(false),
    }
}

// The meta of a response whose head has this number.
fn meta_of(alloc: Global, number: u64) -> Result<CacheMeta> {
    let mut header = head_of(alloc);
    let _is_whole = add_number(alloc, &mut header, number)?;
    Ok(CacheMeta::new(Moment::from_secs(60), NOW, 0, 0, header))
}

// The number that a head has, or 0.
fn number_in(meta: &CacheMeta) -> u64 {
    let mut number = 0u64;
    if let Some(value) = meta.headers().get(ETAG) {
        for digit in value.as_bytes() {
            number = number
                .wrapping_mul(10)
                .wrapping_add(u64::from(digit.wrapping_sub(b'0')));
        }
    }
    number
}

// What came of a body, whose first eight bytes are one number and whose others are the second one.
#[derive(Drop)]
struct Body {
    number: u64,
    begun: u64,
    count: u32,
}

// The number whose bytes are those of this one, and one more.
fn joined(number: u64, byte: u8) -> u64 {
    number.wrapping_mul(256).wrapping_add(u64::from(byte))
}

impl Body {
    fn new() -> Body {
        Body {
            number: 0,
            begun: 0,
            count: 0,
        }
    }

    fn add(&mut self, bytes: &[u8]) {
        for byte in bytes {
            if self.count < 8 {
                self.number = joined(self.number, *byte);
            } else {
                self.begun = joined(self.begun, *byte);
            }
            self.count = self.count.wrapping_add(1);
        }
    }

    // Whether it belongs to a head, and is not older than it may be.
    fn is_of(&self, head: u64, least: u64) -> bool {
        match self.count {
            0 => true,
            8 => self.number == head,
            16 => self.number == head && self.begun >= least,
            _ => false,
        }
    }
}

// Whether what is there of a body is of one response with this head. A write may be cut off.
fn reads_one<R: Wait>(
    rt: &R,
    cache: &Lists,
    request: &mut Request,
    head: u64,
    least: u64,
) -> Result<bool> {
    let mut body = Body::new();
    for _ in 0..4u32 {
        if !request.cache().has_body_reader() {
            return Ok(false);
        }
        match cache.read_body(rt, request)? {
            Poll::Ready(Some(bytes)) => body.add(bytes.as_slice()),
            Poll::Ready(None) => {
                return Ok(
                    body.is_of(head, least)
                        && (body.count == 16 || !cache.is_body_whole(rt, request)),
                );
            }
            Poll::Pending => return Ok(body.is_of(head, least)),
        }
    }
    Ok(false)
}

// Writes a number. Returns whether it was taken.
fn writes<R: Wait>(
    rt: &R,
    cache: &Lists,
    request: &mut Request,
    number: u64,
    is_last: bool,
) -> Result<bool> {
    let bytes = Bytes::copy_from_slice(cache.alloc(), &number.to_be_bytes())?;
    Ok(request.cache().phase().is_filling() && cache.write_body(rt, request, bytes, is_last)?)
}

// Stores a response, unless its write breaks off in the middle, or a newer one stands by then.
fn fills<R: Wait>(
    rt: &R,
    cache: &Lists,
    request: &mut Request,
    turn: Turn,
    numbers: &Numbers,
) -> Result<bool> {
    let number = numbers.draw();
    let meta = meta_of(cache.alloc(), number)?;
    if !begins_with(rt, cache, request, meta)? {
        return Ok(false);
    }
    let begun = numbers.draw();
    let is_begun = writes(rt, cache, request, number, false)?;
    pause(turn);
    if matches!(turn.act, Act::BreakOff) {
        return Ok(is_begun);
    }
    let is_written = is_begun && writes(rt, cache, request, begun, true)?;
    if !is_written || !request.cache().phase().is_filling() {
        return Ok(false);
    }
    let is_stored = cache.finish_miss_handler(rt, request)?.is_some();
    numbers.raise(turn.key, number);
    Ok(is_stored)
}

// Confirms what was found, whose head has this number, and is given it.
fn renews<R: Wait>(
    rt: &R,
    cache: &Lists,
    request: &mut Request,
    turn: Turn,
    head: u64,
    least: u64,
) -> Result<bool> {
    pause(turn);
    let meta = meta_of(cache.alloc(), head)?;
    if !request.cache().may_revalidate() {
        return Ok(false);
    }
    cache.revalidate_cache_meta(rt, request, meta)?;
    reads_one(rt, cache, request, head, least)
}

fn serves<R: Wait>(
    rt: &R,
    cache: &Lists,
    request: &mut Request,
    turn: Turn,
    numbers: &Numbers,
) -> Result<bool>
    requires { request.old.cache.phase ≡ CacheKey }
{
    let least = numbers.least(turn.key);
    let Some((meta, hit)) = cache.cache_lookup(rt, request, NOW)? else {
        let is_writer = matches!(request.cache().held(), Some(held) if held.is_write());
        return Ok(!is_writer || fills(rt, cache, request, turn, numbers)?);
    };
    let head = number_in(&meta);
    let status = match turn.act {
        Act::Read => HitStatus::Fresh,
        _ => HitStatus::Expired,
    };
    cache.cache_found(rt, request, meta, hit, status, NOW)?;
    match turn.act {
        Act::Read => reads_one(rt, cache, request, head, least),
        Act::Renew => renews(rt, cache, request, turn, head, least),
        Act::Reload | Act::BreakOff => fills(rt, cache, request, turn, numbers),
    }
}

fn is_served<R: Wait>(rt: &R, cache: &Lists, turn: Turn, numbers: &Numbers) -> Result<bool> {
    let mut request = request_for(cache, &turn.key.to_be_bytes());
    let is_served = serves(rt, cache, &mut request, turn, numbers);
    cache.end(rt, request);
    is_served
}

// A write that ends after a newer one was stored is not stored.
fn is_well(went: Result<bool>) -> bool {
    match went {
        Ok(went) => went,
        Err(refused) => matches!(refused.etype(), ErrorType::Superseded),
    }
}

// Waits until all threads have begun, so that they go on side by side.
fn begin(begun: &AtomicU64) {
    begun.fetch_add(1, Ordering::SeqCst);
    for _ in 0..TURNS {
        if begun.load(Ordering::SeqCst) >= WORKERS as u64 {
            return;
        }
        thread::yield_now();
    }
}

// How many of a thread's requests went as they should.
fn work<R: Wait>(rt: &R, cache: &Lists, numbers: &Numbers, worker: u64) -> u64 {
    let mut drawn = stirred(worker);
    let mut good = 0u64;
    for _ in 0..ROUNDS {
        drawn = stirred(drawn);
        if is_well(is_served(rt, cache, turn_of(drawn), numbers)) {
            good = good.saturating_add(1);
        }
    }
    good
}

// Whether each key has a response that is whole and the newest one, once all threads are done.
fn are_whole<R: Wait>(rt: &R, cache: &Lists, numbers: &Numbers) -> bool {
    let mut good = cache.slots(rt) == KEYS as u128 && cache.stored_bytes(rt) == 48;
    for key in 0..KEYS {
        let turn = Turn {
            key,
            act: Act::Read,
            pauses: 0,
        };
        good &= matches!(is_served(rt, cache, turn, numbers), Ok(true));
    }
    good
}

fn all_are_of_one<R: Threads + Wait + Sync>(rt: &R, alloc: Global) -> Result<bool> {
    let cache = lists_of(alloc, 16)?;
    let numbers = Numbers::new();
    let begun = AtomicU64::new(0);
    let mut good = [0u64; WORKERS];
    thread::for_each_mut(
        rt,
        &mut good,
        WORKERS,
        &|worker, good| {
            begin(&begun);
            *good = work(rt, &cache, &numbers, worker as u64);
        },
    );
    Ok(good == [ROUNDS; WORKERS] && are_whole(rt, &cache, &numbers))
}

#[test]
fn each_answer_is_of_one_response(rt: HostRuntime) -> std::result::Result<(), Fail> {
    let are_of_one = all_are_of_one(&rt, rt.alloc())?;
    assert!(rt; are_of_one);
    Ok(())
}
