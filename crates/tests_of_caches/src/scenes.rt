//! Caches that are made for rows.
//!
//! A row of a scene has a cache of its own, over each manager that it is played for: the limits, and then the calls. `limit 4`
//! counts bodies, `entries 1060` all that is kept for an entry, and `watermark 2` limits how many there are. It tells the result of each
//! call, then what is stored, what is tracked and what was evicted.
use crate::requests::{OfTest, list_of};
use crate::room::Room;
use crate::rows::play;
use pcache_base::seed::Seed;
use pcache_cache::{Cache, Weighing};
use pcache_evict::eviction::{EvictionManager, sharded_lru, simple_lru};
use pcache_policies::{s3_fifo, sieve};
use std::alloc::{AllocError, Global};
use std::process::Abort;
use std::time::Duration;
use test_rows::{Desk, Told, other_seed, size, some_size, word};

// The policy of a manager.
#[derive(Clone, Copy)]
enum Policy {
    Lru,
    Sharded,
    Sieve,
    S3Fifo,
}

// What the caches of rows are made with.
#[derive(Clone, Copy, Drop)]
struct Scene {
    alloc: Global,
    seed: Seed,
    policy: Policy,
}

impl Desk for Scene {
    fn tell(&mut self, row: &'static str, told: &mut Told) {
        let Scene {
            alloc,
            seed,
            policy,
        } = *self;
        let limits = row.split_once(": ").unwrap_or((row, "")).0;
        let (limit, most) = (size(limits, 1), some_size(limits, 3));
        match policy {
            Policy::Lru => {
                let manager = simple_lru::Manager::new_with_watermark(alloc, seed, limit, most);
                tell_over(alloc, seed, manager, row, told);
            }
            Policy::Sharded => {
                let manager = sharded_lru::Manager::<4>::with_capacity_and_watermark(
                    alloc, seed, limit, 4, most,
                );
                tell_over(alloc, seed, manager, row, told);
            }
            Policy::Sieve => {
                let manager = sieve::Manager::new_with_watermark(alloc, seed, limit, most);
                tell_over(alloc, seed, manager, row, told);
            }
            Policy::S3Fifo => {
                let manager = s3_fifo::Manager::new_with_watermark(alloc, seed, limit, most);
                tell_over(alloc, seed, manager, row, told);
            }
        }
    }
}

fn tell_over<M: EvictionManager>(
    alloc: Global,
    seed: Seed,
    manager: Result<M, AllocError>,
    row: &'static str,
    told: &mut Told,
) {
    match manager {
        Ok(manager) => tell_in(cache_of(alloc, seed, manager, row), row, told),
        Err(refused) => told.refused(&refused.into()),
    }
}

fn cache_of<M: EvictionManager>(
    alloc: Global,
    seed: Seed,
    manager: M,
    row: &'static str,
) -> Cache<M, OfTest> {
    let weighing = match word(row, 0) {
        "entries" => Weighing::Entries,
        _ => Weighing::Bodies,
    };
    Cache::with_weighing(alloc, seed, manager, Duration::from_secs(10), weighing)
}

fn tell_in<M: EvictionManager>(cache: Cache<M, OfTest>, row: &'static str, told: &mut Told) {
    let mut room = Room::new(cache);
    room.tell_all(row.split_once(": ").unwrap_or(("", row)).1, told);
    room.end();
}

/// Plays scenes over a manager of each policy, under two seeds.
pub fn run_each(rt: &impl Abort, alloc: Global, rows: &'static str) {
    for policy in [Policy::Lru, Policy::Sharded, Policy::Sieve, Policy::S3Fifo] {
        for seed in [Seed::fixed(), other_seed()] {
            run(rt, alloc, seed, policy, rows);
        }
    }
}

/// Plays scenes over one recency list, and over the policy that is least like it.
pub fn run_two(rt: &impl Abort, alloc: Global, rows: &'static str) {
    run(rt, alloc, Seed::fixed(), Policy::Lru, rows);
    run(rt, alloc, Seed::fixed(), Policy::S3Fifo, rows);
}

/// Plays scenes over one recency list.
pub fn run_list(rt: &impl Abort, alloc: Global, rows: &'static str) {
    run(rt, alloc, Seed::fixed(), Policy::Lru, rows);
}

fn run(rt: &impl Abort, alloc: Global, seed: Seed, policy: Policy, rows: &'static str) {
    let mut scene = Scene {
        alloc,
        seed,
        policy,
    };
    play(rt, alloc, &mut scene, rows);
}

/// Plays rows over one recency list; those after an empty line are played over a cache of their own.
pub fn run_rooms(rt: &impl Abort, alloc: Global, limit: usize, rows: &'static str) {
    for section in rows.split("\n\n") {
        match list_of(alloc, limit) {
            Ok(cache) => {
                let mut room = Room::new(cache);
                play(rt, alloc, &mut room, section);
                room.end();
            }
            Err(_refused) => assert!(rt; false),
        }
    }
}
