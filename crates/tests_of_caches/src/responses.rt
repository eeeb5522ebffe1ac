//! A head on its own body: what validates one version of a response changes no other one.
//!
//! `N stale` looks the key of a request up, and takes what it finds as expired; `N renew VALUE` gives it a head that varies on this, and
//! says whether that was set for what is stored; `N version` tells what the head of the request's own response varies on.
use crate::calls::{renews, takes};
use crate::requests::{OfTest, Request};
use crate::scenes::run_two;
use crate::wholes::tell_sign;
use http_header::VARY;
use pcache_cache::Cache;
use pcache_evict::eviction::EvictionManager;
use pcache_request::HitStatus;
use test_rows::{Told, word};

/// Makes the call of a row.
pub fn tell<M: EvictionManager>(
    cache: &mut Cache<M, OfTest>,
    request: &mut Request,
    call: &'static str,
    told: &mut Told,
) {
    match word(call, 1) {
        "stale" => tell_sign(takes(cache, request, HitStatus::Expired), told),
        "renew" => tell_sign(renews(cache, request, word(call, 2)), told),
        _ => tell_version(request, told),
    }
}

// What the head of the request's own response varies on.
fn tell_version(request: &Request, told: &mut Told) {
    let Some(meta) = request.cache.meta() else {
        return told.say("no meta");
    };
    match meta.headers().get(VARY) {
        Some(value) => told.bytes(value.as_bytes()),
        None => told.say("none"),
    }
}

// A request that found version 1 validates it, while another one stores version 2.
const ROWS: &str = "
    # where version 1 still stands, it has the head that confirms it
    limit 99: 1 open a, 1 miss v1, 1 begin, 1 last one, 1 finish, 1 end, 2 open a, 2 stale, 2 renew v1b, 2 version, 2 read, 2 end, 3 open a, 3 take, 3 version, 3 read, 3 end -> ok, ok, ok, ok, ok, ok, ok, +, +, v1b, one, ok, ok, ok, v1b, one, ok, 3 in 1, 3 of 1 tracked, 0 of 0 went
    # where version 2 was stored meanwhile, it keeps its own head, and the request has its answer all the same
    limit 99: 1 open a, 1 miss v1, 1 begin, 1 last one, 1 finish, 1 end, 2 open a, 2 stale, 3 open a, 3 miss v2, 3 begin, 3 last two, 3 finish, 3 end, 2 renew v1b, 2 version, 2 read, 2 end, 4 open a, 4 take, 4 version, 4 read, 4 end -> ok, ok, ok, ok, ok, ok, ok, +, ok, ok, ok, ok, ok, ok, -, v1b, one, ok, ok, ok, v2, two, ok, 3 in 1, 3 of 1 tracked, 0 of 0 went
    # version 2 is found while it comes, validated, and then broken off: version 1 keeps its own head
    limit 99: 1 open a, 1 miss v1, 1 begin, 1 last one, 1 finish, 1 end, 3 open a, 3 miss v2, 3 begin, 3 write tw, 2 open a, 2 stale, 3 end, 2 renew v2b, 2 end, 4 open a, 4 take, 4 version, 4 read, 4 end -> ok, ok, ok, ok, ok, ok, ok, ok, ok, ok, ok, +, ok, -, ok, ok, ok, v1, one, ok, 3 in 1, 3 of 1 tracked, 0 of 0 went
    # one that is found while it comes, and stands when it is confirmed
    limit 99: 3 open a, 3 miss v2, 3 begin, 3 write tw, 2 open a, 2 stale, 3 last o, 3 finish, 3 end, 2 renew v2b, 2 end, 4 open a, 4 take, 4 version, 4 read, 4 end -> ok, ok, ok, ok, ok, +, ok, ok, ok, +, ok, ok, ok, v2b, two, ok, 3 in 1, 3 of 1 tracked, 0 of 0 went
    # where it was purged meanwhile, nothing is stored
    limit 99: 1 open a, 1 miss v1, 1 begin, 1 last one, 1 finish, 1 end, 2 open a, 2 stale, purge a, 2 renew v1b, 2 version, 2 read, 2 end -> ok, ok, ok, ok, ok, ok, ok, +, +, -, v1b, one, ok, 0 in 0, 0 of 0 tracked, 0 of 0 went";

#[test]
fn a_head_stays_on_its_own_body(rt: HostRuntime) {
    run_two(&rt, rt.alloc(), ROWS);
}
