//! Stale bodies, and removals.
use crate::seats::{Lists, Request, head_of, meta_until, reason_of};
use pcache_base::error::Result;
use pcache_base::moment::Moment;
use std::sync::Wait;
use test_rows::Told;

fn tell_there(there: Result<bool>, told: &mut Told) {
    match there {
        Ok(there) => told.yes_or_no(there),
        Err(refused) => told.refused(&refused),
    }
}

/// Takes the meta of a response that confirms the stale body, which is fresh until a second from then on.
pub fn renew<R: Wait>(rt: &R, cache: &Lists, request: &mut Request, until: u64, told: &mut Told) {
    if !request.cache().may_revalidate() {
        return told.say("wrong");
    }
    let meta = meta_until(cache.alloc(), until);
    tell_there(cache.revalidate_cache_meta(rt, request, meta), told);
}

/// Serves the stale body, and gives the permit up.
pub fn uncacheable<R: Wait>(
    rt: &R,
    cache: &Lists,
    request: &mut Request,
    reason: &str,
    told: &mut Told,
) {
    let reason = reason_of(reason);
    if !request.cache().may_revalidate() || !request.cache().may_release(reason) {
        return told.say("wrong");
    }
    let header = head_of(cache.alloc());
    let released = cache.revalidate_uncacheable(rt, request, header, reason);
    crate::permits::tell_gone(released.is_some(), told);
}

/// Serves the stale body while another request renews it.
pub fn updating(request: &mut Request, told: &mut Told) {
    if !request.cache().phase().is_stale() {
        return told.say("wrong");
    }
    request.set_stale_updating();
    told.say("ok");
}

/// Ends the freshness of what is stored.
pub fn expire<R: Wait>(rt: &R, cache: &Lists, request: &mut Request, now: Moment, told: &mut Told) {
    if !request.cache().phase().may_purge() {
        return told.say("wrong");
    }
    tell_there(cache.expire(rt, request, now), told);
}

/// Removes what is stored.
pub fn purge<R: Wait>(rt: &R, cache: &Lists, request: &mut Request, told: &mut Told) {
    if !request.cache().phase().may_purge() {
        return told.say("wrong");
    }
    tell_there(cache.purge(rt, request), told);
}

/// The same, whatever the request does.
pub fn spawn<R: Wait>(rt: &R, cache: &Lists, request: &mut Request, told: &mut Told) {
    if !request.cache().phase().may_spawn_purge() {
        return told.say("wrong");
    }
    tell_there(cache.spawn_async_purge(rt, request, "test"), told);
}
