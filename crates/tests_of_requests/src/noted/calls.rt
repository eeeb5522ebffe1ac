//! The calls of requests: each is made if its condition holds, and is `wrong` if it does not.
use super::*;
use crate::made::meta_until;
use crate::whole_store::WholeHit;
use bytes::Bytes;
use pcache_base::poll::Poll;
use pcache_lock::lock::LockWaitOutcome;
use pcache_meta::meta::CacheMeta;
use pcache_request::phase::{HitStatus, InUse};
use pcache_store::storage::{HandleHit, HandleMiss};
use std::mem;

/// Makes the call of a row.
pub fn tell<M: EvictionManager>(
    parts: &mut Parts<M>,
    request: &mut Request,
    call: &'static str,
    told: &mut Told,
) {
    match word(call, 1) {
        "opens" => open(request, key_named(parts.alloc, word(call, 2)), false, told),
        "opens-locking" => open(request, key_named(parts.alloc, word(call, 2)), true, told),
        "looks" => look(parts, request, second(call), None, told),
        "takes" => look(parts, request, second(call), status_of(word(call, 2)), told),
        "fills" => told.done(fill(parts, request, number(call, 2))),
        "purges" => purge(parts, request, told),
        "closes" => close(parts, request, told),
        "waits" => wait(parts, request, second(call), told),
        _ => {
            let ended = mem::replace(request, HttpCache::new(parts.alloc));
            let _let_go = ended.end(&mut parts.store, &mut parts.table);
            told.say("ok");
        }
    }
}

// A call has its second behind an `at`.
fn second(call: &'static str) -> Moment {
    let (_call, at) = call.split_once(" at ").unwrap_or((call, ""));
    Moment::from_secs(number(at, 0))
}

// A request of a key that uses the manager, and perhaps the lock table.
fn open(request: &mut Request, key: CacheKey, lock: bool, told: &mut Told) {
    if !request.phase().is_disabled() {
        return told.say("wrong");
    }
    let uses = InUse {
        eviction: true,
        predictor: false,
        lock,
    };
    request.enable(uses, None);
    if request.phase().may_take_key() {
        request.set_cache_key(key);
    }
    told.say("ok");
}

fn status_of(word: &str) -> Option<HitStatus> {
    match word {
        "Fresh" => Some(HitStatus::Fresh),
        "Expired" => Some(HitStatus::Expired),
        "ForceMiss" => Some(HitStatus::ForceMiss),
        _ => Some(HitStatus::FailedHitFilter),
    }
}

// Looks the key up, and takes what is found with a status, or lets it go.
fn look<M: EvictionManager>(
    parts: &mut Parts<M>,
    request: &mut Request,
    now: Moment,
    status: Option<HitStatus>,
    told: &mut Told,
) {
    if !request.phase().may_look_up() {
        return told.say("wrong");
    }
    match request.cache_lookup_without_policy(&mut parts.store, &mut parts.table, now) {
        Ok(Some((meta, hit))) => take(parts, request, meta, hit, now, status, told),
        Ok(None) => told.say("none"),
        Err(refused) => told.refused(&refused),
    }
}

fn take<M: EvictionManager>(
    parts: &mut Parts<M>,
    request: &mut Request,
    meta: CacheMeta,
    hit: WholeHit,
    now: Moment,
    status: Option<HitStatus>,
    told: &mut Told,
) {
    let Some(status) = status else {
        hit.let_go(&mut parts.store);
        return told.say("found");
    };
    if !request.phase().may_look_up() {
        hit.let_go(&mut parts.store);
        return told.say("wrong");
    }
    told.done(request.cache_found(
        &mut parts.store,
        &mut parts.manager,
        &mut parts.table,
        meta,
        hit,
        status,
        now,
    ));
}

// Goes on as a miss, and stores five bytes, of a response that is fresh until this second.
fn fill<M: EvictionManager>(parts: &mut Parts<M>, request: &mut Request, until: u64) -> Result<()> {
    if request.phase().may_miss() {
        request.cache_miss();
    }
    if request.may_take_meta() {
        request.set_cache_meta(meta_until(parts.alloc, until));
    }
    if request.may_write() {
        request.set_miss_handler(&mut parts.store, &mut parts.table)?;
    }
    if !request.phase().is_filling() {
        return Ok(());
    }
    if let Some(writer) = request.miss_handler()
        && !writer.at_eof(&parts.store)
    {
        writer.write_body(&mut parts.store, Bytes::from_static(b"fresh"), true)?;
    }
    let _report = request.finish_miss_handler(
        &mut parts.store,
        &mut parts.manager,
        &mut parts.table,
    )?;
    Ok(())
}

fn purge<M: EvictionManager>(parts: &mut Parts<M>, request: &mut Request, told: &mut Told) {
    if !request.phase().may_purge() {
        return told.say("wrong");
    }
    told.answer(request.purge(&mut parts.store, &mut parts.manager));
}

fn close<M: EvictionManager>(parts: &mut Parts<M>, request: &mut Request, told: &mut Told) {
    if !request.phase().may_finish_hit() {
        return told.say("wrong");
    }
    told.done(request.finish_hit_handler(&mut parts.store));
}

// Waits, if there is something to wait for.
fn wait<M: EvictionManager>(
    parts: &mut Parts<M>,
    request: &mut Request,
    now: Moment,
    told: &mut Told,
) {
    if !request.phase().is_on() || !request.is_cache_locked() {
        return told.say("wrong");
    }
    tell_waited(request.cache_lock_wait(&mut parts.table, now), told);
}

fn tell_waited(waited: Result<Poll<LockWaitOutcome>>, told: &mut Told) {
    match waited {
        Ok(Poll::Pending) => told.say("pending"),
        Ok(Poll::Ready(outcome)) => told.named(&outcome),
        Err(refused) => told.refused(&refused),
    }
}
