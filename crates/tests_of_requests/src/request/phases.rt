//! Requests of one key: which phase each call leads to, and where it may not be made.
use super::*;

const STEPS: &str = "
    # a key is filled
    1 enable
    1 phase -> Uninit
    1 key
    1 phase -> CacheKey
    1 miss
    1 phase -> Miss
    1 bypass -> wrong
    1 phase -> Miss
    1 meta 60
    1 phase -> Miss
    1 begin
    1 phase -> Miss
    1 finish -> stored 0
    1 phase -> Miss
    1 leaves
    # it is expired, and filled anew
    2 enable
    2 phase -> Uninit
    2 key
    2 phase -> CacheKey
    2 expire -> there
    2 phase -> CacheKey
    2 meta 60 -> wrong
    2 phase -> CacheKey
    2 expired
    2 phase -> Stale
    2 meta 60
    2 phase -> Expired
    2 begin
    2 phase -> Expired
    2 finish -> stored 0
    2 phase -> Expired
    2 leaves
    # it is served while another request renews it
    3 enable
    3 phase -> Uninit
    3 key
    3 phase -> CacheKey
    3 updating -> wrong
    3 phase -> CacheKey
    3 expired
    3 phase -> Stale
    3 updating
    3 phase -> StaleUpdating
    3 close
    3 phase -> StaleUpdating
    3 leaves
    # it is good, and the answer that says so is not to be stored
    4 enable
    4 phase -> Uninit
    4 key
    4 phase -> CacheKey
    4 close -> wrong
    4 phase -> CacheKey
    4 expired
    4 phase -> Stale
    4 uncacheable CacheLockTimeout -> wrong
    4 phase -> Stale
    4 uncacheable OriginNotCache
    4 phase -> RevalidatedNoCache(OriginNotCache)
    4 leaves
    # caching is turned off and on again
    5 disable InternalError
    5 phase -> Disabled(NeverEnabled)
    5 enable
    5 phase -> Uninit
    5 key
    5 phase -> CacheKey
    5 bypass
    5 phase -> Bypass
    5 disable NeverEnabled -> wrong
    5 phase -> Bypass
    5 disable CacheLockTimeout
    5 phase -> Disabled(CacheLockTimeout)
    5 enable
    5 phase -> Uninit";

#[test]
fn calls_lead_from_phase_to_phase(rt: HostRuntime) {
    run(&rt, rt.alloc(), STEPS);
}

// What a request shows before caching is on, and once its body was found stale.
const SHOWN: &str = "
    1 enable
    1 key
    1 miss
    1 meta 60
    1 begin
    1 finish -> stored 0
    1 leaves
    2 is enabled -> no
    2 is upstream-used -> yes
    2 has shown-key -> no
    2 streaming -> None
    2 enable
    2 key
    2 expired
    2 updating
    2 close
    2 phase -> StaleUpdating
    2 looked-for 1
    2 looked-for 2
    2 lookup-time -> 3
    2 is enabled -> yes
    2 is bypassing -> no
    2 is upstream-used -> no
    2 streaming -> Some(true)
    2 has shown-key -> yes
    2 has named-key -> yes
    2 has meta -> yes
    2 until -> 60
    2 is good-in-error -> no
    2 is good-while-updating -> no";

#[test]
fn a_request_shows_a_stale_body(rt: HostRuntime) {
    run(&rt, rt.alloc(), SHOWN);
}

// The reader of a body of two bytes is moved to its second byte, and not past its end. There are spans
// once caching is on.
const SOUGHT: &str = "
    1 enable
    1 key
    1 look -> none
    1 miss
    1 meta 60
    1 begin
    1 write ab
    1 finish -> stored 2
    1 leaves
    2 trace
    2 has cache-span -> no
    2 has miss-span -> no
    2 has hit-span -> no
    2 enable
    2 phase -> Uninit
    2 key
    2 phase -> CacheKey
    2 fresh
    2 phase -> Hit
    2 trace
    2 has cache-span -> yes
    2 has miss-span -> yes
    2 has hit-span -> yes
    2 has reader -> yes
    2 seek 2 -> refused
    2 seek 1";

#[test]
fn a_reader_is_sent_to_another_byte(rt: HostRuntime) {
    run(&rt, rt.alloc(), SOUGHT);
}
