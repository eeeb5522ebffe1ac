//! The manager in shards.
use crate::managers::{COUNTED, EVICTED, Kept, entry_named, take_over, tell_name};
use crate::room::keys;
use crate::rows::{Desk, Told, other_seed, play, size, some_size, word};
use pcache_base::error::Result;
use pcache_base::seed::Seed;
use pcache_evict::eviction::CacheEntryKey;
use pcache_evict::eviction::sharded_lru::Manager;
use std::alloc::Global;
use std::process::Abort;

impl<const N: usize> Kept for Manager<N> {
    fn tell(&mut self, alloc: Global, call: &'static str, told: &mut Told) {
        match word(call, 0) {
            "set-limit" => self.set_weight_limit(size(call, 1)),
            "parts" => tell_parts(self, told),
            _ => {
                told.say(" ");
                tell_one(alloc, self, call, told);
            }
        }
    }
}

fn tell_one<const N: usize>(
    alloc: Global,
    manager: &Manager<N>,
    call: &'static str,
    told: &mut Told,
) {
    match word(call, 0) {
        "limit" => told.shown(&manager.weight_limit()),
        "shards" => told.shown(&manager.shards()),
        "shard" => tell_shard(manager, keys::entry_named(alloc, word(call, 1), None), told),
        "last" => tell_last(manager, size(call, 1), told),
        "weight" => told.named(&manager.peek_weight(&entry_named(alloc, word(call, 1)))),
        _ => told.say("no such call"),
    }
}

// What each shard weighs, and of how many entries.
fn tell_parts<const N: usize>(manager: &Manager<N>, told: &mut Told) {
    for shard in 0..N {
        told.say(" ");
        told.shown(&manager.shard_weight(shard));
        told.say(" in ");
        told.shown(&manager.shard_len(shard));
    }
}

fn tell_shard<const N: usize>(manager: &Manager<N>, entry: Result<CacheEntryKey>, told: &mut Told) {
    match entry {
        Ok(entry) => told.shown(&manager.get_shard_for_key(&entry)),
        Err(refused) => told.refused(&refused),
    }
}

fn tell_last<const N: usize>(manager: &Manager<N>, shard: usize, told: &mut Told) {
    if shard >= N {
        return told.say("no such shard");
    }
    match manager.peek_lru(shard) {
        Some(entry) => tell_name(entry, told),
        None => told.say("none"),
    }
}

// What managers are made with.
#[derive(Drop)]
struct Sharded {
    alloc: Global,
    seed: Seed,
}

impl Desk for Sharded {
    fn tell(&mut self, row: &'static str, told: &mut Told) {
        let (alloc, seed) = (self.alloc, self.seed);
        let limits = row.split_once(": ").unwrap_or((row, "")).0;
        let (limit, most) = (size(limits, 1), some_size(limits, 3));
        match word(limits, 0) {
            "two-shards" => {
                let made = Manager::<2>::with_capacity(alloc, seed, limit, 4);
                take_over(alloc, made, row, told);
            }
            "sixteen-shards" => {
                let made = Manager::<16>::with_capacity(alloc, seed, limit, 4);
                take_over(alloc, made, row, told);
            }
            "one-shard" => {
                let made = Manager::<1>::with_capacity(alloc, seed, limit, 4);
                take_over(alloc, made, row, told);
            }
            _ => {
                let made = Manager::<1>::with_capacity_and_watermark(alloc, seed, limit, 4, most);
                take_over(alloc, made, row, told);
            }
        }
    }
}

// Plays rows under two seeds.
fn run(rt: &impl Abort, alloc: Global, rows: &'static str) {
    for seed in [Seed::fixed(), other_seed()] {
        let mut sharded = Sharded { alloc, seed };
        play(rt, alloc, &mut sharded, rows);
    }
}

#[test]
fn one_shard_evicts_as_the_simple_manager(rt: HostRuntime) {
    run(&rt, rt.alloc(), EVICTED);
}

#[test]
fn one_shard_counts_as_the_simple_manager(rt: HostRuntime) {
    run(&rt, rt.alloc(), COUNTED);
}

// The letters `a` and `c` are odd numbers, so these are in shard 1, and `b` and `d` in shard 0. Shards lose entries in turn, the one
// of the new entry last.
const ONE_LIMIT: &str = "
    two-shards 4: admit a 1, admit b 2, admit c 1, parts -> 2 in 1 2 in 2 | b2 c1 a1 | 3 of 4, 0 of 0 went
    two-shards 4: admit a 1, admit b 2, admit c 1, admit d 2, peek a, peek b, peek c, peek d, parts -> ac-+-+ 4 in 2 0 in 0 | d2 b2 | 2 of 4, 2 of 2 went";

#[test]
fn two_shards_keep_one_limit(rt: HostRuntime) {
    run(&rt, rt.alloc(), ONE_LIMIT);
}

// Of the key `aa`, without a variance and with one.
const COMBINED: &str = "
    sixteen-shards 4: shard aa, shard aa+ -> 14 14 | | 0 of 0, 0 of 0 went";

#[test]
fn shards_go_by_the_combined_key(rt: HostRuntime) {
    run(&rt, rt.alloc(), COMBINED);
}

// The limit falls between the second and the third admission.
const FALLS: &str = "
    one-shard 4: admit a 1, admit b 1, set-limit 1, admit c 1, set-limit 10, limit, shards, weight c -> ab 10 1 Some(1) | c1 | 1 of 1, 2 of 2 went";

#[test]
fn the_weight_limit_can_be_set(rt: HostRuntime) {
    run(&rt, rt.alloc(), FALLS);
}

// The first is evicted by the second call.
const NUMBERS: &str = "
    one-shard 1: admit a#1 1 -> | a#1:1 | 1 of 1, 0 of 0 went
    one-shard 1: admit a#1 1, admit a#2 1, last 0, peek z -> a#1 a#2- | a#2:1 | 1 of 1, 1 of 1 went";

#[test]
fn entries_of_one_key_are_two(rt: HostRuntime) {
    run(&rt, rt.alloc(), NUMBERS);
}
