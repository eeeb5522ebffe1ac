//! Runs of each policy by rows: the policy, the limit, what becomes of larger bodies, for how many seconds a body is fresh,
//! and whether one past its time is replaced, and then requests, each with a key, a size and a second.
//!
//! The result is `+` for a hit and `-` for a miss, then the counts, what was evicted and what is
//! tracked.
use crate::rows::{Desk, Told, number, other_seed, play, size, some_number, word};
use cache_simulation::run::{Request, Run};
use pcache_base::error::Result;
use pcache_base::key::{CompactCacheKey, hash_key};
use pcache_base::moment::Moment;
use pcache_base::seed::Seed;
use pcache_base::text::Text;
use pcache_evict::eviction::ordered::OrderedManager;
use pcache_evict::eviction::{CacheEntryKey, EvictionManager, sharded_lru, simple_lru};
use pcache_policies::{clock, fifo, s3_fifo, sieve, two_queues};
use std::alloc::{AllocError, Global};
use std::process::Abort;
use std::time::Duration;

#[derive(Drop)]
struct Made {
    alloc: Global,
    seed: Seed,
}

impl Desk for Made {
    fn tell(&mut self, call: &'static str, told: &mut Told) {
        let Made { alloc, seed } = *self;
        let (cache, requests) = call.split_once(": ").unwrap_or((call, ""));
        let limit = size(cache, 1);
        match word(cache, 0) {
            "lru" => {
                let manager = simple_lru::Manager::new(alloc, seed, limit);
                tell_run(alloc, manager, cache, requests, told);
            }
            "sharded" => {
                let manager = sharded_lru::Manager::<1>::with_capacity(alloc, seed, limit, 0);
                tell_run(alloc, manager, cache, requests, told);
            }
            "sieve" => {
                let manager = sieve::Manager::new(alloc, seed, limit);
                tell_run(alloc, manager, cache, requests, told);
            }
            "fifo" => {
                let manager = fifo::Manager::new(alloc, seed, limit);
                tell_run(alloc, manager, cache, requests, told);
            }
            "clock" => {
                let manager = clock::Manager::new(alloc, seed, limit);
                tell_run(alloc, manager, cache, requests, told);
            }
            "2q" => {
                let manager = two_queues::Manager::new(alloc, seed, limit);
                tell_run(alloc, manager, cache, requests, told);
            }
            _ => {
                let manager = s3_fifo::Manager::new(alloc, seed, limit);
                tell_run(alloc, manager, cache, requests, told);
            }
        }
    }
}

fn tell_run<M: OrderedManager>(
    alloc: Global,
    manager: Result<M, AllocError>,
    cache: &'static str,
    requests: &'static str,
    told: &mut Told,
) {
    let most = match word(cache, 2) {
        "pass" => size(cache, 1),
        _ => usize::MAX,
    };
    let time = some_number(cache, 3).map(Duration::from_secs);
    match manager {
        Ok(manager) => {
            let mut run = Run::new(alloc, manager, most, time, word(cache, 4) == "replace");
            tell_requests(alloc, &mut run, requests, told);
            tell_counts(&run, told);
        }
        Err(refused) => told.refused(&refused.into()),
    }
}

fn tell_requests<M: OrderedManager>(
    alloc: Global,
    run: &mut Run<M>,
    requests: &'static str,
    told: &mut Told,
) {
    for asked in requests.split(", ") {
        let hits = run.counts.hits;
        if make(alloc, run, asked).is_err() {
            told.say("refused");
        }
        told.say(if run.counts.hits > hits { "+" } else { "-" });
    }
}

// The first request of a run is made alone, and each other one is played.
fn make<M: OrderedManager>(alloc: Global, run: &mut Run<M>, asked: &'static str) -> Result<()> {
    let request = request_of(alloc, asked)?;
    if run.counts.requests == 0 {
        return Ok(run.request(&request)?);
    }
    let mut requests = Vec::new(alloc);
    requests.push(request)?;
    run.play(requests.as_slice())
}

fn request_of(alloc: Global, asked: &'static str) -> Result<Request> {
    let primary = hash_key(word(asked, 0).as_bytes());
    let item = CacheEntryKey::key_only(CompactCacheKey {
        primary,
        variance: None,
        user_tag: Text::new(String::new(alloc)),
    });
    Ok(Request {
        item,
        size: size(asked, 1),
        time: Moment::from_secs(number(asked, 2)),
    })
}

fn tell_counts<M: OrderedManager>(run: &Run<M>, told: &mut Told) {
    told.say(" | ");
    told.number(run.counts.requests);
    told.say(" of ");
    told.shown(&run.counts.bytes);
    told.say(", ");
    told.number(run.counts.misses());
    told.say(" of ");
    told.shown(&run.counts.miss_bytes());
    told.say(" missed, ");
    told.shown(&run.manager.evicted_items());
    told.say(" went, ");
    told.shown(&run.manager.total_size());
    told.say(" tracked");
}

fn run(rt: &impl Abort, alloc: Global, rows: &'static str) {
    for seed in [Seed::fixed(), other_seed()] {
        let mut made = Made { alloc, seed };
        play(rt, alloc, &mut made, rows);
    }
}

const USED: &str = "
    lru 3 pass: a 1, b 1, c 1, a 1, a 1, d 1, b 1, e 1, a 1, c 1, f 1, b 1, a 1, g 1, d 1, a 1, a 1, b 1 -> ---++----------++- | 18 of 18, 14 of 14 missed, 11 went, 3 tracked
    sharded 3 pass: a 1, b 1, c 1, a 1, a 1, d 1, b 1, e 1, a 1, c 1, f 1, b 1, a 1, g 1, d 1, a 1, a 1, b 1 -> ---++----------++- | 18 of 18, 14 of 14 missed, 11 went, 3 tracked
    sieve 3 pass: a 1, b 1, c 1, a 1, a 1, d 1, b 1, e 1, a 1, c 1, f 1, b 1, a 1, g 1, d 1, a 1, a 1, b 1 -> ---++---+---+--++- | 18 of 18, 12 of 12 missed, 9 went, 3 tracked
    s3-fifo 3 pass: a 1, b 1, c 1, a 1, a 1, d 1, b 1, e 1, a 1, c 1, f 1, b 1, a 1, g 1, d 1, a 1, a 1, b 1 -> ---++---+---+--++- | 18 of 18, 12 of 12 missed, 9 went, 3 tracked
    fifo 3 pass: a 1, b 1, c 1, a 1, a 1, d 1, b 1, e 1, a 1, c 1, f 1, b 1, a 1, g 1, d 1, a 1, a 1, b 1 -> ---++-+--------++- | 18 of 18, 13 of 13 missed, 10 went, 3 tracked
    clock 3 pass: a 1, b 1, c 1, a 1, a 1, d 1, b 1, e 1, a 1, c 1, f 1, b 1, a 1, g 1, d 1, a 1, a 1, b 1 -> ---++----------++- | 18 of 18, 14 of 14 missed, 11 went, 3 tracked
    2q 3 pass: a 1, b 1, c 1, a 1, a 1, d 1, b 1, e 1, a 1, c 1, f 1, b 1, a 1, g 1, d 1, a 1, a 1, b 1 -> ---++-+--------++- | 18 of 18, 13 of 13 missed, 10 went, 3 tracked
    # an entry that was used is spared once, or not at all
    fifo 3 pass: a 1, b 1, c 1, a 1, b 1, d 1, a 1, b 1, e 1, f 1, b 1 -> ---++-----+ | 11 of 11, 8 of 8 missed, 5 went, 3 tracked
    clock 3 pass: a 1, b 1, c 1, a 1, b 1, d 1, a 1, b 1, e 1, f 1, b 1 -> ---++-++--+ | 11 of 11, 6 of 6 missed, 3 went, 3 tracked
    # what came in again outlives a scan, and of that the least recently used goes; what came in once goes though it was used
    2q 4 pass: a 1, b 1, c 1, d 1, e 1, a 1, f 1, g 1, h 1, i 1, a 1, b 1, a 1 -> ----------+-+ | 13 of 13, 11 of 11 missed, 7 went, 4 tracked
    2q 4 pass: c 1, a 1, f 1, e 1, d 1, g 1, c 1, d 1, a 1, b 1, b 1, g 1, d 1, g 1, b 1, c 1, d 1, f 1 -> -------+--++--+-+- | 18 of 18, 13 of 13 missed, 9 went, 4 tracked
    2q 4 pass: a 1, b 1, c 1, d 1, a 1, a 1, e 1, a 1 -> ----++-- | 8 of 8, 6 of 6 missed, 2 went, 4 tracked";

#[test]
fn each_policy_keeps_its_own(rt: HostRuntime) {
    run(&rt, rt.alloc(), USED);
}

const WEIGHED: &str = "
    lru 8 pass: a 5, b 3, a 5, c 4, a 5, b 3, a 5, d 2, b 3, c 4, b 3, d 2, c 4, a 5, e 9, d 2 -> --+---+---+----- | 16 of 64, 13 of 51 missed, 10 went, 7 tracked
    sieve 8 pass: a 5, b 3, a 5, c 4, a 5, b 3, a 5, d 2, b 3, c 4, b 3, d 2, c 4, a 5, e 9, d 2 -> --+---+---+----- | 16 of 64, 13 of 51 missed, 10 went, 7 tracked
    s3-fifo 8 pass: a 5, b 3, a 5, c 4, a 5, b 3, a 5, d 2, b 3, c 4, b 3, d 2, c 4, a 5, e 9, d 2 -> --+---+-+------- | 16 of 64, 13 of 51 missed, 10 went, 7 tracked
    fifo 8 pass: a 5, b 3, a 5, c 4, a 5, b 3, a 5, d 2, b 3, c 4, b 3, d 2, c 4, a 5, e 9, d 2 -> --+---+-+------- | 16 of 64, 13 of 51 missed, 10 went, 7 tracked
    clock 8 pass: a 5, b 3, a 5, c 4, a 5, b 3, a 5, d 2, b 3, c 4, b 3, d 2, c 4, a 5, e 9, d 2 -> --+---+---+----- | 16 of 64, 13 of 51 missed, 10 went, 7 tracked
    2q 8 pass: a 5, b 3, a 5, c 4, a 5, b 3, a 5, d 2, b 3, c 4, b 3, d 2, c 4, a 5, e 9, d 2 -> --+---+--------- | 16 of 64, 14 of 54 missed, 11 went, 7 tracked
    # bodies above the limit
    lru 8 pass: a 2, b 3, z 50, a 2, b 3, z 50, c 4, a 2 -> ---++--- | 8 of 116, 6 of 111 missed, 2 went, 6 tracked
    lru 8 evict: a 2, b 3, z 50, a 2, b 3, z 50, c 4, a 2 -> -------- | 8 of 116, 8 of 116 missed, 6 went, 6 tracked
    sieve 8 pass: a 2, b 3, z 50, a 2, b 3, z 50, c 4, a 2 -> ---++--- | 8 of 116, 6 of 111 missed, 2 went, 6 tracked
    sieve 8 evict: a 2, b 3, z 50, a 2, b 3, z 50, c 4, a 2 -> -------- | 8 of 116, 8 of 116 missed, 6 went, 6 tracked
    s3-fifo 8 pass: a 2, b 3, z 50, a 2, b 3, z 50, c 4, a 2 -> ---++--- | 8 of 116, 6 of 111 missed, 2 went, 6 tracked
    s3-fifo 8 evict: a 2, b 3, z 50, a 2, b 3, z 50, c 4, a 2 -> -------- | 8 of 116, 8 of 116 missed, 6 went, 6 tracked
    fifo 8 evict: a 2, b 3, z 50, a 2, b 3, z 50, c 4, a 2 -> -------- | 8 of 116, 8 of 116 missed, 6 went, 6 tracked
    clock 8 evict: a 2, b 3, z 50, a 2, b 3, z 50, c 4, a 2 -> -------- | 8 of 116, 8 of 116 missed, 6 went, 6 tracked
    2q 8 evict: a 2, b 3, z 50, a 2, b 3, z 50, c 4, a 2 -> -------- | 8 of 116, 8 of 116 missed, 6 went, 6 tracked";

#[test]
fn bodies_have_weights(rt: HostRuntime) {
    run(&rt, rt.alloc(), WEIGHED);
}

const FRESH: &str = "
    lru 8 pass 10: a 2 100, a 2 110, a 2 111, a 2 121, b 3 121 -> -+-+- | 5 of 11, 3 of 7 missed, 0 went, 5 tracked
    sieve 8 pass 10: a 2 100, a 2 110, a 2 111, a 2 121, b 3 121 -> -+-+- | 5 of 11, 3 of 7 missed, 0 went, 5 tracked
    s3-fifo 8 pass 10: a 2 100, a 2 110, a 2 111, a 2 121, b 3 121 -> -+-+- | 5 of 11, 3 of 7 missed, 0 went, 5 tracked
    # what went comes in anew
    lru 2 pass 10: a 2 0, b 2 1, a 2 2, a 2 12, a 2 13 -> ---+- | 5 of 10, 4 of 8 missed, 2 went, 2 tracked
    # a time that ends at no moment does not end
    lru 2 pass 10: a 2 18446744073709551615, a 2 18446744073709551615 -> -+ | 2 of 4, 1 of 2 missed, 0 went, 2 tracked
    # no time is over at once
    lru 2 pass 0: a 2 7, a 2 7, a 2 8 -> -+- | 3 of 6, 2 of 4 missed, 0 went, 2 tracked";

// Three bodies, of which `a` is past its time when it is asked for again: its entry is used where it is, or is the newest
// then.
const PAST: &str = "
    lru 3 pass 10 use: a 1 0, b 1 0, c 1 0, a 1 11, d 1 11, e 1 11, f 1 11, a 1 11 -> -------- | 8 of 8, 8 of 8 missed, 4 went, 3 tracked
    lru 3 pass 10 replace: a 1 0, b 1 0, c 1 0, a 1 11, d 1 11, e 1 11, f 1 11, a 1 11 -> -------- | 8 of 8, 8 of 8 missed, 4 went, 3 tracked
    sharded 3 pass 10 replace: a 1 0, b 1 0, c 1 0, a 1 11, d 1 11, e 1 11, f 1 11, a 1 11 -> -------- | 8 of 8, 8 of 8 missed, 4 went, 3 tracked
    # the hand passes `a`, which was used; or comes to `a`, which is new
    sieve 3 pass 10 use: a 1 0, b 1 0, c 1 0, a 1 11, d 1 11, e 1 11, f 1 11, a 1 11 -> -------+ | 8 of 8, 7 of 7 missed, 3 went, 3 tracked
    sieve 3 pass 10 replace: a 1 0, b 1 0, c 1 0, a 1 11, d 1 11, e 1 11, f 1 11, a 1 11 -> -------- | 8 of 8, 8 of 8 missed, 4 went, 3 tracked
    s3-fifo 3 pass 10 use: b 1 0, e 1 3, a 1 6, e 1 9, b 1 12, c 1 15, e 1 18 -> ---+--- | 7 of 7, 6 of 6 missed, 1 went, 3 tracked
    s3-fifo 3 pass 10 replace: b 1 0, e 1 3, a 1 6, e 1 9, b 1 12, c 1 15, e 1 18 -> ---+--- | 7 of 7, 6 of 6 missed, 2 went, 3 tracked
    # `a` stays the oldest of a queue, or comes in anew
    fifo 3 pass 10 use: a 1 0, b 1 0, c 1 0, a 1 11, d 1 11, a 1 11 -> ------ | 6 of 6, 6 of 6 missed, 2 went, 3 tracked
    fifo 3 pass 10 replace: a 1 0, b 1 0, c 1 0, a 1 11, d 1 11, a 1 11 -> -----+ | 6 of 6, 5 of 5 missed, 1 went, 3 tracked
    clock 3 pass 10 use: a 1 0, b 1 0, c 1 0, a 1 11, d 1 11, a 1 11 -> -----+ | 6 of 6, 5 of 5 missed, 1 went, 3 tracked
    2q 3 pass 10 use: a 1 0, b 1 0, c 1 0, a 1 11, d 1 11, a 1 11 -> ------ | 6 of 6, 6 of 6 missed, 2 went, 3 tracked
    2q 3 pass 10 replace: a 1 0, b 1 0, c 1 0, a 1 11, d 1 11, a 1 11 -> -----+ | 6 of 6, 5 of 5 missed, 1 went, 3 tracked
    # a size that changed: a hit counts as it was asked for and leaves the weight, and what comes in anew has the new one
    lru 9 pass 10 use: a 2 0, a 5 1, a 5 11 -> -+- | 3 of 12, 2 of 7 missed, 0 went, 5 tracked
    lru 9 pass 10 use: a 2 0, a 5 1 -> -+ | 2 of 7, 1 of 2 missed, 0 went, 2 tracked
    sieve 9 pass 10 replace: a 2 0, a 5 11 -> -- | 2 of 7, 2 of 7 missed, 0 went, 5 tracked";

#[test]
fn a_body_past_its_time_is_used_or_replaced(rt: HostRuntime) {
    run(&rt, rt.alloc(), PAST);
}

#[test]
fn a_body_past_its_time_comes_in_anew(rt: HostRuntime) {
    run(&rt, rt.alloc(), FRESH);
}
