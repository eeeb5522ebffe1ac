//! Requests that wait for one another.
use crate::calls::finds_nothing;
use crate::requests::{OfTest, Request};
use crate::room::{Room, tell_gone};
use pcache_base::error::Result;
use pcache_base::moment::Moment;
use pcache_base::poll::Poll;
use pcache_base::reason::NoCacheReason;
use pcache_cache::{Cache, CacheRequest};
use pcache_evict::eviction::EvictionManager;
use pcache_lock::lock::{LockWaitOutcome, WritePermit};
use pcache_request::CacheOptionOverrides;
use pcache_request::cache::ReleasedLock;
use std::time::Duration;
use test_rows::{Told, number, word};

/// Makes the call of a row.
pub fn tell<M: EvictionManager>(
    cache: &mut Cache<M, OfTest>,
    request: &mut Request,
    now: Moment,
    call: &'static str,
    told: &mut Told,
) {
    match word(call, 1) {
        "ask" => ask(cache, request, now, told),
        "no-lock" => told.made(Ok(uses_no_lock(request))),
        "within" => told.made(Ok(waits_within(request, number(call, 2)))),
        "wait" => wait(cache, request, now, told),
        "publish" => publish(cache, request, number(call, 2), told),
        "release" => release(cache, request, reason(word(call, 2)), told),
        _ => told.say("no such call"),
    }
}

// Looks the key up, and tells which lock is held then.
fn ask<M: EvictionManager>(
    cache: &mut Cache<M, OfTest>,
    request: &mut Request,
    now: Moment,
    told: &mut Told,
) {
    if finds_nothing(cache, request, now, told) {
        tell_held(request, told);
    }
}

fn tell_held(request: &Request, told: &mut Told) {
    match request.cache.held() {
        Some(held) if held.is_write() => told.say("permit"),
        Some(_) => told.say("read"),
        None => told.say("nothing"),
    }
}

fn uses_no_lock(request: &mut Request) -> bool {
    if !request.cache.may_set_cache_lock() {
        return false;
    }
    request.cache.set_cache_lock(false, None);
    true
}

// Has the request wait for so many seconds at most.
fn waits_within(request: &mut Request, seconds: u64) -> bool {
    if !request.cache.may_set_cache_lock() {
        return false;
    }
    let overrides = CacheOptionOverrides {
        wait_timeout: Some(Duration::from_secs(seconds)),
        max_lock_retries: None,
    };
    request.cache.set_cache_lock(true, Some(overrides));
    true
}

fn wait<M: EvictionManager>(
    cache: &mut Cache<M, OfTest>,
    request: &mut Request,
    now: Moment,
    told: &mut Told,
) {
    if !request.cache.phase().is_on() || !request.cache.is_cache_locked() {
        return told.say("wrong");
    }
    tell_waited(cache.cache_lock_wait(request, now), told);
}

fn tell_waited(answer: Result<Poll<LockWaitOutcome>>, told: &mut Told) {
    match answer {
        Ok(Poll::Ready(outcome)) => told.named(&outcome),
        Ok(Poll::Pending) => told.say("pending"),
        Err(refused) => told.refused(&refused),
    }
}

fn publish<M: EvictionManager>(
    cache: &mut Cache<M, OfTest>,
    request: &Request,
    token: u64,
    told: &mut Told,
) {
    let tokens = [token];
    match cache.lock_publish_fill_tokens(request, tokens.as_slice()) {
        Ok(Some(_)) => told.say("ok"),
        Ok(None) => told.say("no permit"),
        Err(refused) => told.refused(&refused),
    }
}

fn reason(word: &'static str) -> NoCacheReason {
    match word {
        "OriginNotCache" => NoCacheReason::OriginNotCache,
        "CacheLockTimeout" => NoCacheReason::CacheLockTimeout,
        _ => NoCacheReason::InternalError,
    }
}

fn release<M: EvictionManager>(
    cache: &mut Cache<M, OfTest>,
    request: &mut Request,
    reason: NoCacheReason,
    told: &mut Told,
) {
    if !request.cache.may_release(reason) {
        return told.say("wrong");
    }
    tell_released(cache.release_write_lock(request, reason), told);
}

fn tell_released(released: Option<ReleasedLock>, told: &mut Told) {
    match released {
        Some(released) => {
            told.say(released.status.as_str());
            told.say(" ");
            told.number(released.lock.number);
        }
        None => told.say("none"),
    }
}

/// One request gives its permit to another.
pub fn give<M: EvictionManager>(room: &mut Room<M>, from: u64, to: u64, told: &mut Told) {
    let (_cache, request) = room.at(to);
    if !request.cache.phase().is_on() {
        return told.say("wrong");
    }
    let (_cache, request) = room.at(from);
    match take_permit(request) {
        Some(permit) => {
            let (cache, request) = room.at(to);
            hand(cache, request, permit, told);
        }
        None => told.say("wrong"),
    }
}

// Takes the permit out, if there is one.
fn take_permit(request: &mut Request) -> Option<WritePermit> {
    if request.cache.phase().is_on() && request.cache.is_cache_lock_writer() {
        Some(request.cache.take_write_lock())
    } else {
        None
    }
}

// Hands a permit over. One that is off takes none, and then another request ends it.
fn hand<M: EvictionManager>(
    cache: &mut Cache<M, OfTest>,
    request: &mut Request,
    permit: WritePermit,
    told: &mut Told,
) {
    if !request.cache.phase().is_on() {
        let mut other: Request = CacheRequest::new(cache.alloc());
        let _let_go = cache.set_write_lock(&mut other, permit);
        let _let_go = cache.end(other);
        return told.say("wrong");
    }
    tell_gone(cache.set_write_lock(request, permit), told);
}
