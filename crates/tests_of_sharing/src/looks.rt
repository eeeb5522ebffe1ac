//! Look-ups and reads.
ghost use Rattle.pcache_request.specs.Phases.{MayLookUp};

use crate::requests::finds;
use crate::seats::{Lists, Request};
use bytes::Bytes;
use pcache_base::error::Result;
use pcache_base::moment::Moment;
use pcache_base::poll::Poll;
use pcache_meta::meta::CacheMeta;
use pcache_request::phase::HitStatus;
use pcache_store::memory::MemHitHandler;
use std::sync::Wait;
use test_rows::Told;

// How often a thread asks whether there is more to read.
const TURNS: u32 = 2_000_000;

// How often a body is read beside other calls.
const READS: u32 = 200;

/// Looks the key up, and takes what is found: fresh, or stale.
pub fn look<R: Wait>(rt: &R, cache: &Lists, request: &mut Request, now: Moment, told: &mut Told) {
    if !request.cache().phase().may_look_up() {
        return told.say("wrong");
    }
    match cache.cache_lookup(rt, request, now) {
        Ok(Some((meta, hit))) => take(rt, cache, request, meta, hit, now, told),
        Ok(None) => tell_held(request, told),
        Err(refused) => told.refused(&refused),
    }
}

fn take<R: Wait>(
    rt: &R,
    cache: &Lists,
    request: &mut Request,
    meta: CacheMeta,
    hit: MemHitHandler,
    now: Moment,
    told: &mut Told,
)
    requires { MayLookUp request.old.cache.phase }
{
    told.say("until ");
    told.number(meta.fresh_until().secs());
    told.say(" ");
    let status = if meta.is_fresh(now) {
        HitStatus::Fresh
    } else {
        HitStatus::Expired
    };
    match cache.cache_found(rt, request, meta, hit, status, now) {
        Ok(()) => tell_held(request, told),
        Err(refused) => told.refused(&refused),
    }
}

// The phase of a request, and which lock it holds.
fn tell_held(request: &Request, told: &mut Told) {
    told.say(request.cache().phase().as_str());
    match request.cache().held() {
        Some(held) if held.is_write() => told.say(" permit"),
        Some(_) => told.say(" waits"),
        None => {}
    }
}

/// Looks for a variant of what is stored, and lets go what is found for the key itself.
pub fn vary<R: Wait>(rt: &R, cache: &Lists, request: &mut Request, variance: u64, told: &mut Told) {
    if !request.cache().phase().may_look_up() {
        return told.say("wrong");
    }
    match cache.cache_lookup(rt, request, Moment::EPOCH) {
        Ok(Some((meta, hit))) => {
            cache.let_go(rt, request, hit);
            let is_same = request.cache_vary_lookup(hash_of(variance), &meta);
            told.yes_or_no(is_same);
        }
        Ok(None) => told.say("nothing"),
        Err(refused) => told.refused(&refused),
    }
}

/// A hash that stands for a number.
pub fn hash_of(number: u64) -> [u8; 16] {
    u128::from(number).to_be_bytes()
}

/// Reads once.
pub fn read<R: Wait>(rt: &R, cache: &Lists, request: &mut Request, told: &mut Told) {
    if !request.cache().has_body_reader() {
        return told.say("no reader");
    }
    tell_read(cache.read_body(rt, request), told);
}

/// Reads, and waits for a while until there is something.
pub fn follow<R: Wait>(rt: &R, cache: &Lists, request: &mut Request, told: &mut Told) {
    if !request.cache().has_body_reader() {
        return told.say("no reader");
    }
    tell_read(cache.read_in_turns(rt, request, TURNS), told);
}

fn tell_read(read: Result<Poll<Option<Bytes>>>, told: &mut Told) {
    match read {
        Ok(Poll::Ready(Some(bytes))) => told.bytes(bytes.as_slice()),
        Ok(Poll::Ready(None)) => told.say("end"),
        Ok(Poll::Pending) => told.say("pending"),
        Err(refused) => told.refused(&refused),
    }
}

/// Ends the reader.
pub fn leave<R: Wait>(rt: &R, cache: &Lists, request: &mut Request, told: &mut Told) {
    if !request.cache().phase().may_finish_hit() {
        return told.say("wrong");
    }
    told.done(cache.finish_hit_handler(rt, request));
}

/// Finds a key many times, and each time with this body.
pub fn many<R: Wait>(rt: &R, cache: &Lists, name: &str, body: &str, told: &mut Told) {
    for _ in 0..READS {
        if !matches!(finds(rt, cache, name, body.as_bytes()), Ok(true)) {
            return told.say("lost");
        }
    }
    told.say("ok");
}
