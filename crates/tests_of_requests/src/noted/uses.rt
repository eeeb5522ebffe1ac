//! Which entry is evicted after one of two was found: a hit is a use of its entry, and a hit that is treated as a miss
//! is not.
use super::*;
use pcache_evict::eviction::{sharded_lru, simple_lru};
use pcache_policies::sieve;

// Two bodies of five bytes fit.
const LIMIT: usize = 10;

// Plays rows over three managers.
fn run_over_all(rt: &impl Abort, alloc: Global, rows: &'static str) {
    let seed = Seed::fixed();
    run(
        rt,
        alloc,
        simple_lru::Manager::new(alloc, seed, LIMIT),
        rows,
    );
    run(
        rt,
        alloc,
        sharded_lru::Manager::<1>::with_capacity(alloc, seed, LIMIT, 0),
        rows,
    );
    run(rt, alloc, sieve::Manager::new(alloc, seed, LIMIT), rows);
}

const A_FRESH_HIT: &str = "
    1 opens a
    1 fills 200
    1 ends
    1 opens b
    1 fills 200
    1 ends
    1 opens a
    1 takes Fresh at 110
    1 ends
    1 opens c
    1 fills 200
    1 ends
    tracked a -> yes
    tracked b -> no
    tracked c -> yes";

const A_STALE_HIT: &str = "
    1 opens a
    1 fills 200
    1 ends
    1 opens b
    1 fills 200
    1 ends
    1 opens a
    1 takes Expired at 110
    1 ends
    1 opens c
    1 fills 200
    1 ends
    tracked a -> yes
    tracked b -> no
    tracked c -> yes";

#[test]
fn a_hit_is_a_use_of_its_entry(rt: HostRuntime) {
    run_over_all(&rt, rt.alloc(), A_FRESH_HIT);
    run_over_all(&rt, rt.alloc(), A_STALE_HIT);
}

const A_HIT_THAT_IS_FORCED_TO_MISS: &str = "
    1 opens a
    1 fills 200
    1 ends
    1 opens b
    1 fills 200
    1 ends
    1 opens a
    1 takes ForceMiss at 110
    1 ends
    1 opens c
    1 fills 200
    1 ends
    tracked a -> no
    tracked b -> yes
    tracked c -> yes";

const A_HIT_THAT_A_FILTER_REJECTS: &str = "
    1 opens a
    1 fills 200
    1 ends
    1 opens b
    1 fills 200
    1 ends
    1 opens a
    1 takes FailedHitFilter at 110
    1 ends
    1 opens c
    1 fills 200
    1 ends
    tracked a -> no
    tracked b -> yes
    tracked c -> yes";

#[test]
fn a_hit_that_is_treated_as_a_miss_is_no_use(rt: HostRuntime) {
    run_over_all(&rt, rt.alloc(), A_HIT_THAT_IS_FORCED_TO_MISS);
    run_over_all(&rt, rt.alloc(), A_HIT_THAT_A_FILTER_REJECTS);
}
