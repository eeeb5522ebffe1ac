//! Calls of a world, each with the reply that is wanted.
mod bounded;
mod large;
mod phases;
mod puts;
mod random_script;
mod records;
mod shards;

use crate::play::{Limits, Made, play, play_on_both, run};
use pcache_base::error::Result;
use pcache_base::key::CacheHashKey;
use pcache_base::seed::Seed;
use pcache_evict::eviction::CacheEntryKey;
use pcache_evict::eviction::simple_lru::Manager;
use pcache_world::world::World;
use std::alloc::Global;
use std::process::Abort;
use std::time::Duration;
use test_rows::key_of;

const FILLED: &str = "open 1 -> Done\n\
    key 1 k -> Done\n\
    look 1 -> NotFound(Some(Write))\n\
    miss 1 -> Done\n\
    meta 1 -> Done\n\
    begin 1 -> Done\n\
    write 1 ab last -> Done\n\
    finish 1 -> Stored { size: 2, evicted: 0 }\n";

// A number that was closed is that of no request.
#[test]
fn calls_of_no_request(rt: HostRuntime) {
    let rows = "key 1 k -> WrongCall\n\
        look 1 -> WrongCall\n\
        found 1 fresh -> WrongCall\n\
        miss 1 -> WrongCall\n\
        meta 1 -> WrongCall\n\
        begin 1 -> WrongCall\n\
        write 1 a -> WrongCall\n\
        finish 1 -> WrongCall\n\
        read 1 -> WrongCall\n\
        purge 1 -> WrongCall\n\
        end 1 -> WrongCall\n\
        open 1 -> Done\n\
        end 1 -> Done\n\
        key 1 k -> WrongCall\n\
        look 1 -> WrongCall\n\
        found 1 fresh -> WrongCall\n\
        miss 1 -> WrongCall\n\
        meta 1 -> WrongCall\n\
        begin 1 -> WrongCall\n\
        write 1 a -> WrongCall\n\
        finish 1 -> WrongCall\n\
        read 1 -> WrongCall\n\
        purge 1 -> WrongCall\n\
        end 1 -> WrongCall\n\
        open 1 -> Done\n";
    play(&rt, rt.alloc(), Limits::weight(9), "", rows);
}

#[test]
fn calls_before_the_key(rt: HostRuntime) {
    let rows = "open 1 -> Done\n\
        open 1 -> WrongCall\n\
        look 1 -> WrongCall\n\
        found 1 fresh -> WrongCall\n\
        miss 1 -> WrongCall\n\
        meta 1 -> WrongCall\n\
        begin 1 -> WrongCall\n\
        write 1 a -> WrongCall\n\
        finish 1 -> WrongCall\n\
        read 1 -> WrongCall\n\
        purge 1 -> WrongCall\n\
        key 1 k -> Done\n";
    play(&rt, rt.alloc(), Limits::weight(9), "", rows);
}

// If nothing was found, there is nothing to be taken.
#[test]
fn calls_behind_the_key(rt: HostRuntime) {
    let rows = "open 1 -> Done\n\
        key 1 k -> Done\n\
        open 1 -> WrongCall\n\
        found 1 fresh -> WrongCall\n\
        meta 1 -> WrongCall\n\
        begin 1 -> WrongCall\n\
        write 1 a -> WrongCall\n\
        finish 1 -> WrongCall\n\
        read 1 -> WrongCall\n\
        key 1 l -> Done\n\
        look 1 -> NotFound(Some(Write))\n\
        open 1 -> WrongCall\n\
        found 1 fresh -> WrongCall\n\
        meta 1 -> WrongCall\n\
        begin 1 -> WrongCall\n\
        write 1 a -> WrongCall\n\
        finish 1 -> WrongCall\n\
        read 1 -> WrongCall\n\
        purge 1 -> Absent\n";
    play(&rt, rt.alloc(), Limits::weight(9), "", rows);
}

// The cache is bypassed before anything was found for the key, and the request goes on as a miss.
#[test]
fn a_key_is_passed_by(rt: HostRuntime) {
    let rows = "phase 1 -> WrongCall\n\
        open 1 -> Done\n\
        bypass 1 -> WrongCall\n\
        phase 1 -> Phase(Uninit)\n\
        key 1 k -> Done\n\
        phase 1 -> Phase(CacheKey)\n\
        bypass 1 -> Done\n\
        phase 1 -> Phase(Bypass)\n\
        bypass 1 -> WrongCall\n\
        look 1 -> WrongCall\n\
        miss 1 -> Done\n\
        phase 1 -> Phase(Miss)\n\
        bypass 1 -> WrongCall\n";
    play(&rt, rt.alloc(), Limits::weight(9), "", rows);
}

// A deferred look-up asks for no lock, and its request caches no more; the next one gets the permit.
#[test]
fn a_look_up_is_deferred(rt: HostRuntime) {
    let rows = "open 1 -> Done\n\
        key 1 k -> Done\n\
        look 1 defer -> NotFound(None)\n\
        phase 1 -> Phase(Disabled(Deferred))\n\
        look 1 ready -> WrongCall\n\
        open 2 -> Done\n\
        key 2 k -> Done\n\
        look 2 -> NotFound(Some(Write))\n\
        enable 1 -> Done\n\
        key 1 k -> Done\n\
        look 1 -> NotFound(Some(Read))\n\
        look 1 defer -> NotFound(Some(Read))\n";
    play(&rt, rt.alloc(), Limits::weight(9), "", rows);
}

// One that is ready asks for it. A request is decided of once.
#[test]
fn a_look_up_is_ready(rt: HostRuntime) {
    let rows = "open 1 -> Done\n\
        key 1 k -> Done\n\
        look 1 ready -> NotFound(Some(Write))\n\
        look 1 defer -> NotFound(Some(Read))\n\
        phase 1 -> Phase(CacheKey)\n";
    play(&rt, rt.alloc(), Limits::weight(9), "", rows);
}

// A decision is kept if something was found, and counts once nothing is; a hidden body asks no
// policy.
#[test]
fn decisions_beside_variants(rt: HostRuntime) {
    let stored = "open 1 -> Done\n\
        key 1 k 1 v -> Done\n\
        look 1 -> NotFound(Some(Write))\n\
        miss 1 -> Done\n\
        meta 1 5 -> Done\n\
        begin 1 -> Done\n\
        write 1 xx -> Done\n\
        finish 1 -> Stored { size: 2, evicted: 0 }\n\
        end 1 -> Done\n\
        open 2 -> Done\n\
        key 2 k -> Done\n\
        look 2 -> NotFound(Some(Write))\n\
        miss 2 -> Done\n\
        meta 2 6 -> Done\n\
        begin 2 -> Done\n\
        write 2 y -> Done\n\
        finish 2 -> Stored { size: 1, evicted: 0 }\n\
        end 2 -> Done\n";
    let rows = "open 3 -> Done\n\
        key 3 k -> Done\n\
        look 3 defer -> Hit(1)\n\
        vary 3 -> Other\n\
        look 3 defer -> NotFound(Some(Write))\n\
        vary 3 -> WrongCall\n\
        phase 3 -> Phase(CacheKey)\n\
        key 3 l 1 v -> Done\n\
        look 3 -> NotFound(None)\n\
        phase 3 -> Phase(Disabled(Deferred))\n";
    play(&rt, rt.alloc(), Limits::weight(9), stored, rows);
}

// There is one write at a time, and nothing after its last bytes.
#[test]
fn calls_of_a_miss(rt: HostRuntime) {
    let rows = "open 1 -> Done\n\
        key 1 k -> Done\n\
        look 1 -> NotFound(Some(Write))\n\
        miss 1 -> Done\n\
        open 1 -> WrongCall\n\
        key 1 k -> WrongCall\n\
        look 1 -> WrongCall\n\
        found 1 fresh -> WrongCall\n\
        miss 1 -> WrongCall\n\
        purge 1 -> WrongCall\n\
        begin 1 -> WrongCall\n\
        write 1 a -> WrongCall\n\
        read 1 -> WrongCall\n\
        finish 1 -> Nothing\n\
        meta 1 -> Done\n\
        begin 1 -> Done\n\
        read 1 -> Pending\n\
        write 1 ab last -> Done\n\
        open 1 -> WrongCall\n\
        key 1 k -> WrongCall\n\
        look 1 -> WrongCall\n\
        found 1 fresh -> WrongCall\n\
        miss 1 -> WrongCall\n\
        purge 1 -> WrongCall\n\
        begin 1 -> WrongCall\n\
        write 1 c -> WrongCall\n\
        finish 1 -> Stored { size: 2, evicted: 0 }\n\
        finish 1 -> Nothing\n\
        open 1 -> WrongCall\n\
        key 1 k -> WrongCall\n\
        look 1 -> WrongCall\n\
        found 1 fresh -> WrongCall\n\
        miss 1 -> WrongCall\n\
        purge 1 -> WrongCall\n\
        write 1 c -> WrongCall\n";
    play(&rt, rt.alloc(), Limits::weight(9), "", rows);
}

#[test]
fn calls_of_a_hit(rt: HostRuntime) {
    let rows = "open 2 -> Done\n\
        key 2 k -> Done\n\
        look 2 -> Hit(2)\n\
        found 2 fresh -> Taken(Hit, None)\n\
        open 2 -> WrongCall\n\
        key 2 k -> WrongCall\n\
        look 2 -> WrongCall\n\
        found 2 fresh -> WrongCall\n\
        miss 2 -> WrongCall\n\
        meta 2 -> WrongCall\n\
        begin 2 -> WrongCall\n\
        write 2 a -> WrongCall\n\
        finish 2 -> WrongCall\n\
        purge 2 -> WrongCall\n\
        read 2 -> Data(b\"ab\")\n\
        read 2 -> Finished\n";
    play(&rt, rt.alloc(), Limits::weight(9), FILLED, rows);
}

#[test]
fn calls_of_a_stale_hit(rt: HostRuntime) {
    let rows = "open 2 -> Done\n\
        key 2 k -> Done\n\
        look 2 -> Hit(2)\n\
        found 2 expired -> Taken(Stale, Some(Write))\n\
        open 2 -> WrongCall\n\
        key 2 k -> WrongCall\n\
        found 2 fresh -> WrongCall\n\
        begin 2 -> WrongCall\n\
        write 2 a -> WrongCall\n\
        finish 2 -> WrongCall\n\
        purge 2 -> WrongCall\n\
        read 2 -> Data(b\"ab\")\n\
        look 2 -> Hit(2)\n\
        found 2 force_fresh -> Taken(Hit, None)\n";
    play(&rt, rt.alloc(), Limits::weight(9), FILLED, rows);
}

#[test]
fn a_hit_that_is_passed_over(rt: HostRuntime) {
    let rows = "open 2 -> Done\n\
        key 2 k -> Done\n\
        look 2 -> Hit(2)\n\
        found 2 force_miss -> Taken(CacheKey, Some(Write))\n\
        read 2 -> WrongCall\n\
        found 2 fresh -> WrongCall\n\
        miss 2 -> Done\n\
        meta 2 -> Done\n\
        begin 2 -> Done\n\
        write 2 abc -> Done\n\
        finish 2 -> Stored { size: 3, evicted: 0 }\n\
        stat -> 3 in 1, Totals { weight: 5, items: 2, evicted_weight: 0, evicted_items: 0 }, 0 before\n";
    play(&rt, rt.alloc(), Limits::weight(9), FILLED, rows);
}

// The second waits for the first's permit; once the write can be read, a third follows it.
#[test]
fn one_permit_at_a_time(rt: HostRuntime) {
    let rows = "open 1 -> Done\n\
        open 1 -> WrongCall\n\
        key 1 k -> Done\n\
        look 1 -> NotFound(Some(Write))\n\
        open 2 -> Done\n\
        key 2 k -> Done\n\
        look 2 -> NotFound(Some(Read))\n\
        miss 1 -> Done\n\
        meta 1 -> Done\n\
        begin 1 -> Done\n\
        open 3 -> Done\n\
        key 3 k -> Done\n\
        look 3 -> Part\n\
        found 3 fresh -> Taken(Hit, None)\n\
        read 3 -> Pending\n\
        write 1 abc last -> Done\n\
        read 3 -> Data(b\"abc\")\n\
        read 3 -> Finished\n\
        finish 1 -> Stored { size: 3, evicted: 0 }\n";
    play(&rt, rt.alloc(), Limits::weight(9), "", rows);
}

#[test]
fn a_purge_while_a_write_is_in_flight(rt: HostRuntime) {
    let rows = "open 1 -> Done\n\
        key 1 k -> Done\n\
        look 1 -> NotFound(Some(Write))\n\
        miss 1 -> Done\n\
        meta 1 -> Done\n\
        begin 1 -> Done\n\
        write 1 x -> Done\n\
        open 2 -> Done\n\
        key 2 k -> Done\n\
        purge 2 -> Purged\n\
        open 3 -> Done\n\
        key 3 k -> Done\n\
        look 3 -> NotFound(Some(Write))\n\
        miss 3 -> Done\n\
        meta 3 -> Done\n\
        begin 3 -> Done\n\
        write 3 yy -> Done\n\
        finish 1 -> Refused(WriteRemoved)\n\
        finish 3 -> Stored { size: 2, evicted: 0 }\n\
        open 4 -> Done\n\
        key 4 k -> Done\n\
        look 4 -> Hit(2)\n\
        found 4 fresh -> Taken(Hit, None)\n\
        read 4 -> Data(b\"yy\")\n\
        read 4 -> Finished\n";
    play_on_both(&rt, rt.alloc(), Limits::weight(9), "", rows);
}

#[test]
fn a_reader_follows_a_purged_write(rt: HostRuntime) {
    let rows = "open 1 -> Done\n\
        key 1 k -> Done\n\
        look 1 -> NotFound(Some(Write))\n\
        miss 1 -> Done\n\
        meta 1 -> Done\n\
        begin 1 -> Done\n\
        open 2 -> Done\n\
        key 2 k -> Done\n\
        look 2 -> Part\n\
        found 2 fresh -> Taken(Hit, None)\n\
        read 2 -> Pending\n\
        write 1 ab -> Done\n\
        read 2 -> Data(b\"ab\")\n\
        open 3 -> Done\n\
        key 3 k -> Done\n\
        purge 3 -> Purged\n\
        write 1 cd -> Done\n\
        end 1 -> Done\n\
        read 2 -> Data(b\"cd\")\n\
        read 2 -> Finished\n\
        open 4 -> Done\n\
        key 4 k -> Done\n\
        look 4 -> NotFound(Some(Write))\n";
    play_on_both(&rt, rt.alloc(), Limits::weight(9), "", rows);
}

// Two bodies of 2 are more than 3: the older is evicted, and is no longer found.
#[test]
fn the_older_body_goes(rt: HostRuntime) {
    let rows = "open 2 -> Done\n\
        key 2 l -> Done\n\
        look 2 -> NotFound(Some(Write))\n\
        miss 2 -> Done\n\
        meta 2 -> Done\n\
        begin 2 -> Done\n\
        write 2 c -> Done\n\
        write 2 d -> Done\n\
        finish 2 -> Stored { size: 2, evicted: 1 }\n\
        open 3 -> Done\n\
        key 3 k -> Done\n\
        look 3 -> NotFound(Some(Write))\n\
        key 3 l -> Done\n\
        look 3 -> Hit(2)\n\
        found 3 fresh -> Taken(Hit, None)\n\
        read 3 -> Data(b\"cd\")\n\
        read 3 -> Finished\n\
        stat -> 2 in 1, Totals { weight: 2, items: 1, evicted_weight: 2, evicted_items: 1 }, 0 before\n";
    play(&rt, rt.alloc(), Limits::weight(3), FILLED, rows);
}

// An entry that no request of the test names.
fn old_entry(alloc: Global) -> Result<CacheEntryKey> {
    match key_of(alloc, b"old", "1").to_compact() {
        Ok(key) => Ok(CacheEntryKey::key_only(key)),
        Err(refused) => Err(refused.into()),
    }
}

// A world over a manager that holds this entry.
fn world_with(alloc: Global, entry: Result<CacheEntryKey>, weight: usize) -> Made<Manager> {
    let entry = entry?;
    let mut manager = Manager::new(alloc, Seed::fixed(), 9)?;
    let _is_held = manager.load_entry(entry, weight).is_ok();
    Ok(World::new(alloc, Seed::fixed(), manager, Duration::from_secs(10)))
}

fn starts_with(rt: &impl Abort, alloc: Global, made: Made<Manager>, entry: &CacheEntryKey) {
    let counts =
        "stat -> 2 in 1, Totals { weight: 6, items: 2, evicted_weight: 0, evicted_items: 0 }, 1 before";
    match made {
        Ok(mut world) => {
            assert!(rt; world.start().is_empty() && world.history().is_empty());
            run(rt, alloc, &mut world, FILLED);
            run(rt, alloc, &mut world, counts);
            assert!(rt; holds(world.start(), entry));
        }
        Err(_refused) => assert!(rt; false),
    }
}

fn holds(start: &[(CacheEntryKey, usize)], entry: &CacheEntryKey) -> bool {
    let mut holds = true;
    for (held, weight) in start {
        holds = holds && *held == *entry && *weight == 4;
    }
    holds
}

// Nothing is asked of the manager before the first call; then its entries are those of the start.
#[test]
fn a_manager_that_held_something(rt: HostRuntime) {
    let alloc = rt.alloc();
    match old_entry(alloc) {
        Ok(entry) => starts_with(&rt, alloc, world_with(alloc, old_entry(alloc), 4), &entry),
        Err(_refused) => assert!(rt; false),
    }
}

// A write, a permit, a reader and a pair that was not taken are given back with the world.
#[test]
fn a_world_goes_with_open_requests(rt: HostRuntime) {
    let rows = "open 1 -> Done\n\
        key 1 k -> Done\n\
        look 1 -> NotFound(Some(Write))\n\
        miss 1 -> Done\n\
        meta 1 -> Done\n\
        begin 1 -> Done\n\
        write 1 ab -> Done\n\
        open 2 -> Done\n\
        key 2 k -> Done\n\
        look 2 -> Part\n\
        open 3 -> Done\n\
        key 3 l -> Done\n\
        look 3 -> NotFound(Some(Write))\n\
        open 4 -> Done\n";
    play(&rt, rt.alloc(), Limits::weight(9), "", rows);
}
