//! Worlds over the manager in shards. One shard leaves no choice of what is evicted, so its world
//! gives the same replies as that over the simple manager.
use crate::play::{
    Limits, calls_of, play, play_on_both, play_on_policies, play_sharded, sharded_world_of,
};
use pcache_base::key::CacheHashKey;
use pcache_base::seed::Seed;
use pcache_evict::eviction::sharded_lru::Manager;
use pcache_world::world::World;
use pcache_world::world::call::Reply;
use pcache_world::world::entry::{Entry, Event};
use pcache_world::world::policy::BySelf;
use std::alloc::Global;

const FOUR_BODIES: &str = "open 1 -> Done\n\
    key 1 a -> Done\n\
    look 1 -> NotFound(Some(Write))\n\
    miss 1 -> Done\n\
    meta 1 -> Done\n\
    begin 1 -> Done\n\
    write 1 x -> Done\n\
    finish 1 -> Stored { size: 1, evicted: 0 }\n\
    end 1 -> Done\n\
    open 2 -> Done\n\
    key 2 b -> Done\n\
    look 2 -> NotFound(Some(Write))\n\
    miss 2 -> Done\n\
    meta 2 -> Done\n\
    begin 2 -> Done\n\
    write 2 xx -> Done\n\
    finish 2 -> Stored { size: 2, evicted: 0 }\n\
    end 2 -> Done\n\
    open 3 -> Done\n\
    key 3 c -> Done\n\
    look 3 -> NotFound(Some(Write))\n\
    miss 3 -> Done\n\
    meta 3 -> Done\n\
    begin 3 -> Done\n\
    write 3 x -> Done\n\
    finish 3 -> Stored { size: 1, evicted: 0 }\n\
    end 3 -> Done\n\
    open 4 -> Done\n\
    key 4 d -> Done\n\
    look 4 -> NotFound(Some(Write))\n\
    miss 4 -> Done\n\
    meta 4 -> Done\n\
    begin 4 -> Done\n\
    write 4 xx -> Done\n\
    finish 4 -> Stored { size: 2, evicted: 2 }\n\
    end 4 -> Done\n";

#[test]
fn the_two_oldest_go(rt: HostRuntime) {
    let rows = "open 5 -> Done\n\
        key 5 c -> Done\n\
        look 5 -> Hit(1)\n\
        open 6 -> Done\n\
        key 6 d -> Done\n\
        look 6 -> Hit(2)\n\
        open 7 -> Done\n\
        key 7 a -> Done\n\
        look 7 -> NotFound(Some(Write))\n\
        stat -> 3 in 2, Totals { weight: 3, items: 2, evicted_weight: 3, evicted_items: 2 }, 0 before\n";
    play_on_both(&rt, rt.alloc(), Limits::weight(4), FOUR_BODIES, rows);
}

#[test]
fn larger_than_the_cache(rt: HostRuntime) {
    let rows = "open 1 -> Done\n\
        key 1 a -> Done\n\
        look 1 -> NotFound(Some(Write))\n\
        miss 1 -> Done\n\
        meta 1 -> Done\n\
        begin 1 -> Done\n\
        write 1 xxxx -> Done\n\
        finish 1 -> Stored { size: 4, evicted: 1 }\n\
        end 1 -> Done\n\
        open 2 -> Done\n\
        key 2 a -> Done\n\
        look 2 -> NotFound(Some(Write))\n\
        stat -> 0 in 0, Totals { weight: 0, items: 0, evicted_weight: 4, evicted_items: 1 }, 0 before\n";
    play_on_policies(&rt, rt.alloc(), Limits::weight(3), "", rows);
    play_on_both(&rt, rt.alloc(), Limits::weight(3), "", rows);
}

#[test]
fn one_slot_under_two_tags(rt: HostRuntime) {
    let rows = "open 1 -> Done\n\
        key 1 aa -> Done\n\
        look 1 -> NotFound(Some(Write))\n\
        miss 1 -> Done\n\
        meta 1 -> Done\n\
        begin 1 -> Done\n\
        write 1 xxx -> Done\n\
        finish 1 -> Stored { size: 3, evicted: 0 }\n\
        end 1 -> Done\n\
        open 2 -> Done\n\
        key 2 aa 2 -> Done\n\
        look 2 -> Hit(3)\n\
        miss 2 -> Done\n\
        meta 2 -> Done\n\
        begin 2 -> Done\n\
        write 2 yy -> Done\n\
        finish 2 -> Stored { size: 2, evicted: 1 }\n\
        end 2 -> Done\n\
        open 3 -> Done\n\
        key 3 aa -> Done\n\
        look 3 -> Hit(2)\n\
        stat -> 2 in 1, Totals { weight: 2, items: 1, evicted_weight: 3, evicted_items: 1 }, 0 before\n";
    play_on_both(&rt, rt.alloc(), Limits::weight(4), "", rows);
}

#[test]
fn the_watermark(rt: HostRuntime) {
    let rows = "open 1 -> Done\n\
        key 1 k1 -> Done\n\
        look 1 -> NotFound(Some(Write))\n\
        miss 1 -> Done\n\
        meta 1 -> Done\n\
        begin 1 -> Done\n\
        write 1 x -> Done\n\
        finish 1 -> Stored { size: 1, evicted: 0 }\n\
        end 1 -> Done\n\
        open 2 -> Done\n\
        key 2 k2 -> Done\n\
        look 2 -> NotFound(Some(Write))\n\
        miss 2 -> Done\n\
        meta 2 -> Done\n\
        begin 2 -> Done\n\
        write 2 x -> Done\n\
        finish 2 -> Stored { size: 1, evicted: 0 }\n\
        end 2 -> Done\n\
        open 3 -> Done\n\
        key 3 k3 -> Done\n\
        look 3 -> NotFound(Some(Write))\n\
        miss 3 -> Done\n\
        meta 3 -> Done\n\
        begin 3 -> Done\n\
        write 3 x -> Done\n\
        finish 3 -> Stored { size: 1, evicted: 0 }\n\
        end 3 -> Done\n\
        open 4 -> Done\n\
        key 4 k4 -> Done\n\
        look 4 -> NotFound(Some(Write))\n\
        miss 4 -> Done\n\
        meta 4 -> Done\n\
        begin 4 -> Done\n\
        write 4 x -> Done\n\
        finish 4 -> Stored { size: 1, evicted: 0 }\n\
        end 4 -> Done\n\
        open 5 -> Done\n\
        key 5 k5 -> Done\n\
        look 5 -> NotFound(Some(Write))\n\
        miss 5 -> Done\n\
        meta 5 -> Done\n\
        begin 5 -> Done\n\
        write 5 x -> Done\n\
        finish 5 -> Stored { size: 1, evicted: 1 }\n\
        end 5 -> Done\n\
        open 6 -> Done\n\
        key 6 k6 -> Done\n\
        look 6 -> NotFound(Some(Write))\n\
        miss 6 -> Done\n\
        meta 6 -> Done\n\
        begin 6 -> Done\n\
        write 6 x -> Done\n\
        finish 6 -> Stored { size: 1, evicted: 1 }\n\
        end 6 -> Done\n\
        stat -> 4 in 4, Totals { weight: 4, items: 4, evicted_weight: 2, evicted_items: 2 }, 0 before\n";
    play_on_policies(&rt, rt.alloc(), Limits::with_watermark(1000, 4), "", rows);
    play_on_both(&rt, rt.alloc(), Limits::with_watermark(1000, 4), "", rows);
}

// The key `aa` and its variant are in one shard of 16, of the store and of the manager: a purge of
// the one leaves the other.
#[test]
fn two_keys_of_one_shard(rt: HostRuntime) {
    let rows = "open 1 -> Done\n\
        key 1 aa -> Done\n\
        look 1 -> NotFound(Some(Write))\n\
        miss 1 -> Done\n\
        meta 1 -> Done\n\
        begin 1 -> Done\n\
        write 1 x -> Done\n\
        finish 1 -> Stored { size: 1, evicted: 0 }\n\
        end 1 -> Done\n\
        open 2 -> Done\n\
        key 2 aa 1 v -> Done\n\
        look 2 -> NotFound(Some(Write))\n\
        miss 2 -> Done\n\
        meta 2 -> Done\n\
        begin 2 -> Done\n\
        write 2 yy -> Done\n\
        finish 2 -> Stored { size: 2, evicted: 0 }\n\
        end 2 -> Done\n\
        open 3 -> Done\n\
        key 3 aa -> Done\n\
        purge 3 -> Purged\n\
        open 4 -> Done\n\
        key 4 aa -> Done\n\
        look 4 -> NotFound(Some(Write))\n\
        open 5 -> Done\n\
        key 5 aa 1 v -> Done\n\
        look 5 -> Hit(2)\n";
    play(&rt, rt.alloc(), Limits::weight(9), "", rows);
    play_sharded::<16>(&rt, rt.alloc(), Limits::weight(9), "", rows);
}

// Whether an event evicted something of a key.
fn evicts(event: &Event, slot: u128) -> bool {
    match event {
        Event::Admit {
            entry: _,
            weight: _,
            evicted,
        } => {
            let mut entries = evicted.as_slice().iter();
            entries.any(|entry| entry.key().slot() == slot)
        }
        _ => false,
    }
}

fn was_evicted(history: &[Entry], slot: u128) -> bool {
    for entry in history {
        for event in entry.events.as_slice() {
            if evicts(event, slot) {
                return true;
            }
        }
    }
    false
}

// The slot that a call looked up.
fn looked_up(entry: &Entry) -> Option<u128> {
    for event in entry.events.as_slice() {
        if let Event::Look { slot, answer: _ } = event {
            return Some(*slot);
        }
    }
    None
}

// How many look-ups a part of the history has that found a body exactly when no list of what was
// evicted names the key.
fn true_look_ups(part: &[Entry], history: &[Entry]) -> usize {
    let mut look_ups = 0usize;
    for entry in part {
        if let Some(slot) = looked_up(entry) {
            let is_hit = matches!(entry.reply, Reply::Hit(_));
            if is_hit != was_evicted(history, slot) {
                look_ups = look_ups.saturating_add(1);
            }
        }
    }
    look_ups
}

// Makes the calls of a text, whatever the replies. Returns whether memory was enough.
fn makes(alloc: Global, world: &mut World<Manager<2>, BySelf>, text: &'static str) -> bool {
    world.run(calls_of(alloc, text)).is_ok()
}

fn is_within_four(world: &World<Manager<2>, BySelf>) -> bool {
    world.totals().weight <= 4 && world.stored_bytes() <= 4
}

// Looks all keys up, and returns how many look-ups were true.
fn look_all_up(alloc: Global, world: &mut World<Manager<2>, BySelf>) -> usize {
    let before = world.history().len();
    let rows = "open 5\n\
        key 5 a\n\
        look 5\n\
        key 5 b\n\
        look 5\n\
        key 5 c\n\
        look 5\n\
        key 5 d\n\
        look 5\n";
    if !makes(alloc, world, rows) {
        return 0;
    }
    let part = world.history().get(before..).unwrap_or(&[]);
    true_look_ups(part, world.history())
}

// Which of two shards gives up an entry is open.
#[test]
fn two_shards_keep_one_limit(rt: HostRuntime) {
    let alloc = rt.alloc();
    match sharded_world_of::<2>(alloc, Seed::fixed(), Limits::weight(4)) {
        Ok(mut world) => {
            assert!(rt; makes(alloc, &mut world, FOUR_BODIES) && is_within_four(&world));
            assert!(rt; look_all_up(alloc, &mut world) == 4);
        }
        Err(_refused) => assert!(rt; false),
    }
}
