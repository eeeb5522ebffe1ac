//! Limits on the length of heads.
use crate::requests::{OfTest, Request};
use pcache_base::reason::NoCacheReason;
use pcache_cache::Cache;
use pcache_evict::eviction::EvictionManager;
use test_rows::{Told, size, word};

/// Makes the call of a row.
pub fn tell<M: EvictionManager>(
    cache: &mut Cache<M, OfTest>,
    request: &mut Request,
    call: &'static str,
    told: &mut Told,
) {
    match word(call, 1) {
        "limit-head" => told.made(Ok(limits(request, size(call, 2)))),
        "head" => tell_head(cache, request, told),
        _ => told.yes_or_no(turns_off(cache, request)),
    }
}

fn limits(request: &mut Request, most: usize) -> bool {
    if !request.cache.phase().is_on() {
        return false;
    }
    request.cache.set_max_head_size_bytes(most);
    true
}

// The length of the head that is written, and whether it is beyond the limit.
fn tell_head<M: EvictionManager>(cache: &Cache<M, OfTest>, request: &Request, told: &mut Told) {
    match cache.head_length(request) {
        Some(length) => told.shown(&length),
        None => told.say("none"),
    }
    told.say(if cache.exceeded_max_head_size(request) {
        " beyond"
    } else {
        " within"
    });
}

// Turns caching off, if it may be, and returns whether it is.
fn turns_off<M: EvictionManager>(cache: &mut Cache<M, OfTest>, request: &mut Request) -> bool {
    if request.cache.may_disable(NoCacheReason::ResponseTooLarge) {
        cache.disable(request, NoCacheReason::ResponseTooLarge);
    }
    !request.cache.phase().is_on()
}
