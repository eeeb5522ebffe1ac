//! Permits, and the waits for them.
use crate::looks::hash_of;
use crate::rows::Seat;
use crate::seats::{Lists, Request, reason_of};
use pcache_base::error::Result;
use pcache_base::moment::Moment;
use pcache_base::poll::Poll;
use pcache_lock::lock::LockWaitOutcome;
use std::sync::Wait;
use test_rows::Told;

// How often a thread asks whether its wait is over.
const TURNS: u32 = 2_000_000;

/// Whether a lock was given up.
pub fn tell_gone(is_gone: bool, told: &mut Told) {
    told.say(if is_gone { "let go" } else { "ok" });
}

/// Asks once whether the wait is over.
pub fn poll<R: Wait>(rt: &R, cache: &Lists, request: &mut Request, now: Moment, told: &mut Told) {
    if matches!(request.cache().held(), Some(held) if !held.is_write()) {
        tell_wait(cache.cache_lock_wait(rt, request, now), told);
    } else {
        told.say("no wait");
    }
}

/// Waits for a while until the wait is over.
pub fn wait<R: Wait>(rt: &R, cache: &Lists, request: &mut Request, now: Moment, told: &mut Told) {
    if matches!(request.cache().held(), Some(held) if !held.is_write()) {
        tell_wait(cache.wait_in_turns(rt, request, now, TURNS), told);
    } else {
        told.say("no wait");
    }
}

fn tell_wait(ended: Result<Poll<LockWaitOutcome>>, told: &mut Told) {
    match ended {
        Ok(Poll::Pending) => told.say("pending"),
        Ok(Poll::Ready(LockWaitOutcome::Abandoned { reason: _, token })) => {
            told.say("token ");
            told.number(token);
        }
        Ok(Poll::Ready(outcome)) => told.named(&outcome),
        Err(refused) => told.refused(&refused),
    }
}

/// Releases the permit.
pub fn release<R: Wait>(
    rt: &R,
    cache: &Lists,
    request: &mut Request,
    reason: &str,
    told: &mut Told,
) {
    let reason = reason_of(reason);
    if !request.cache().may_release(reason) {
        return told.say("wrong");
    }
    tell_gone(
        cache.release_write_lock(rt, request, reason).is_some(),
        told,
    );
}

/// Turns caching off.
pub fn disable<R: Wait>(
    rt: &R,
    cache: &Lists,
    request: &mut Request,
    reason: &str,
    told: &mut Told,
) {
    let reason = reason_of(reason);
    if !request.cache().may_disable(reason) {
        return told.say("wrong");
    }
    tell_gone(cache.disable(rt, request, reason).is_some(), told);
}

/// Publishes a token.
pub fn publish<R: Wait>(rt: &R, cache: &Lists, request: &mut Request, token: u64, told: &mut Told) {
    match cache.lock_publish_fill_tokens(rt, request, &[token]) {
        Ok(Some(_lock)) => told.say("ok"),
        Ok(None) => told.say("no permit"),
        Err(refused) => told.refused(&refused),
    }
}

/// Sets what the response varies on.
pub fn varies<R: Wait>(
    rt: &R,
    cache: &Lists,
    request: &mut Request,
    variance: u64,
    told: &mut Told,
) {
    if !request.cache().may_write() {
        return told.say("wrong");
    }
    let variance = Some(hash_of(variance));
    tell_gone(cache.update_variance(rt, request, variance).is_some(), told);
}

/// Hands the permit of the thread's request to its other one.
pub fn hand<R: Wait>(rt: &R, cache: &Lists, seat: &mut Seat, told: &mut Told) {
    let Seat { own, other, .. } = seat;
    if own.place() != other.place()
        || !other.cache().phase().is_on()
        || !own.cache().phase().is_on()
        || !own.cache().is_cache_lock_writer()
    {
        return told.say("wrong");
    }
    let permit = own.take_write_lock();
    tell_gone(cache.set_write_lock(rt, other, permit).is_some(), told);
}
