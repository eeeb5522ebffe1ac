//! What was fetched before a purge is not stored after it, and what was stored of a URL's variants is not found after it (own; see
//! `Cache::begin_fetch`).
//!
//! `N look` looks the key of a request up, and lets go what it finds; `N fetch` notes that its fetch begins; `N anew` gives it a response
//! in place of the stale one that it found; `N varies V` sets what its response varies on; `N variant V` looks the key up, and makes it
//! the key of this variant, given what it found.
use crate::calls::finds_nothing;
use crate::requests::{NOW, OfTest, Request, meta_of};
use crate::scenes::{run_rooms, run_two};
use pcache_base::error::Result;
use pcache_base::key::{HashBinary, hash_key};
use pcache_cache::Cache;
use pcache_evict::eviction::EvictionManager;
use test_rows::{Told, word};

/// Makes the call of a row.
pub fn tell<M: EvictionManager>(
    cache: &mut Cache<M, OfTest>,
    request: &mut Request,
    call: &'static str,
    told: &mut Told,
) {
    let variance = hash_key(word(call, 2).as_bytes());
    match word(call, 1) {
        "look" => {
            if finds_nothing(cache, request, NOW, told) {
                told.say("+");
            }
        }
        "fetch" => {
            cache.begin_fetch(request);
            told.say("ok");
        }
        "anew" => told.made(Ok(takes_anew(cache, request))),
        "varies" => told.made(Ok(varies(cache, request, variance))),
        _ => told.made(looks_for(cache, request, variance)),
    }
}

// Takes the meta of a new response. Of one that takes the place of a stale one it says that its body came when that of the stale one did.
fn takes_anew<M: EvictionManager>(cache: &Cache<M, OfTest>, request: &mut Request) -> bool {
    if !request.cache.may_take_meta() {
        return false;
    }
    request.cache.set_cache_meta(meta_of(cache.alloc(), ""));
    true
}

// Sets what the response varies on.
fn varies<M: EvictionManager>(
    cache: &mut Cache<M, OfTest>,
    request: &mut Request,
    variance: HashBinary,
) -> bool {
    if !request.cache.may_write() {
        return false;
    }
    let _released = cache.update_variance(request, Some(variance));
    true
}

// Looks the key up, and makes it that of a variant. Returns whether anything was found.
fn looks_for<M: EvictionManager>(
    cache: &mut Cache<M, OfTest>,
    request: &mut Request,
    variance: HashBinary,
) -> Result<bool> {
    if !request.cache.phase().may_look_up() {
        return Ok(false);
    }
    let Some((meta, hit)) = cache.cache_lookup_without_policy(request, NOW)? else {
        return Ok(false);
    };
    cache.let_go(hit);
    if request.cache.phase().may_look_up() {
        request.cache.cache_vary_lookup(variance, &meta);
    }
    Ok(true)
}

const FETCHED: &str = "
    # a key is purged while its response is fetched: the request passes it on, nobody else finds it, and it is not stored
    limit 99: 3 open a, 3 look, 3 miss, purge a, 3 begin, 3 write o, 2 open a, 2 look, 3 read, 3 last ne, 3 finish, 3 end, find a -> ok, +, ok, -, ok, ok, ok, +, o, ok, WriteRemoved, ok, -, 0 in 0, 0 of 0 tracked, 0 of 0 went
    # of a request that looked the key up after the purge it is stored
    limit 99: 3 open a, 3 look, purge a, 3 look, 3 miss, 3 begin, 3 last one, 3 finish, 3 end, find a -> ok, +, -, +, ok, ok, ok, ok, ok, one, 3 in 1, 3 of 1 tracked, 0 of 0 went
    # and of one that fetched again and said so
    limit 99: 3 open a, 3 look, purge a, 3 fetch, 3 miss, 3 begin, 3 last one, 3 finish, 3 end, find a -> ok, +, -, ok, ok, ok, ok, ok, ok, one, 3 in 1, 3 of 1 tracked, 0 of 0 went
    # who never said when it fetched may have done so before each purge that there was
    limit 99: purge a, 3 open a, 3 miss, 3 begin, 3 last one, 3 finish, 3 end, find a -> -, ok, ok, ok, ok, WriteRemoved, ok, -, 0 in 0, 0 of 0 tracked, 0 of 0 went
    limit 99: 3 open a, 3 miss, 3 begin, 3 last one, 3 finish, 3 end, find a -> ok, ok, ok, ok, ok, ok, one, 3 in 1, 3 of 1 tracked, 0 of 0 went
    # a purge of another key does not matter
    limit 99: 3 open a, 3 look, 3 miss, purge b, 3 begin, 3 last one, 3 finish, 3 end, find a -> ok, +, ok, -, ok, ok, ok, ok, one, 3 in 1, 3 of 1 tracked, 0 of 0 went";

#[test]
fn what_was_fetched_before_a_purge_is_not_stored(rt: HostRuntime) {
    run_two(&rt, rt.alloc(), FETCHED);
}

const VARIANTS: &str = "
    # the URL's own response varies on x, and a variant is stored for y
    1 open a
    1 look -> +
    1 miss
    1 varies x
    1 begin
    1 last of-x
    1 finish
    1 end
    2 open a
    2 variant y
    2 look -> +
    2 miss
    2 varies y
    2 begin
    2 last of-y
    2 finish
    2 end
    3 open a
    3 variant y
    3 take
    3 read -> of-y
    3 end
    # another one is fetched when the URL is purged
    2 open a
    2 variant z
    2 look -> +
    purge a -> +
    # it is fetched again, at the same moment: no variant from before the purge is found
    1 open a
    1 look -> +
    1 miss
    1 varies x
    1 begin
    1 last new-x
    1 finish
    1 end
    2 miss
    2 varies z
    2 begin
    2 last of-z
    2 finish -> WriteRemoved
    2 end
    3 open a
    3 variant z
    3 look -> +
    3 end -> let go 4
    3 open a
    3 variant y
    3 look -> +
    3 miss
    3 varies y
    3 begin
    3 last new-y
    3 finish
    3 end
    4 open a
    4 variant y
    4 take
    4 read -> new-y
    totals -> 10 in 2, 10 of 2 tracked, 0 of 0 went";

#[test]
fn a_purge_is_one_of_all_variants(rt: HostRuntime) {
    run_rooms(&rt, rt.alloc(), 99, VARIANTS);
}

const TAKEN_OVER: &str = "
    # the URL's own response varies on x, and a variant is stored for y
    1 open a
    1 look -> +
    1 miss
    1 varies x
    1 begin
    1 last of-x
    1 finish
    1 end
    2 open a
    2 variant y
    2 look -> +
    2 miss
    2 varies y
    2 begin
    2 last of-y
    2 finish
    2 end
    # the own one is found stale, purged, and then fetched anew: the new one says that it came when the purged one did
    3 open a
    3 stale -> +
    purge a -> +
    3 fetch
    3 anew
    3 varies x
    3 begin
    3 last new-x
    3 finish
    3 end
    # the variant from before the purge does not count by that
    4 open a
    4 variant y
    4 look -> +
    4 end -> let go 3
    totals -> 5 in 1, 5 of 1 tracked, 0 of 0 went";

#[test]
fn a_purged_response_hands_nothing_on(rt: HostRuntime) {
    run_rooms(&rt, rt.alloc(), 99, TAKEN_OVER);
}
