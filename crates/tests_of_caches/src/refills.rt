//! A body that is stored again takes the place of the one before, and so does its entry: what is tracked is what is stored.
//!
//! Keys are numbers here. `store KEY SIZE MORE` stores a body of so many bytes, whatever stands under the key, and does it so many
//! times more; `store-each COUNT SIZE` stores one for each key from 0, and `find-each COUNT` looks each key up: these tell how many
//! did not. `late KEY` purges a key between its look-up and its hit, and `race KEY SIZE` stores a body of half the size while a write
//! is in flight. `random SEED COUNT` makes so many calls of every kind, and tells after how many what is tracked was not what is
//! stored.
use crate::calls::{end, expires, finishes, opens, purges, takes};
use crate::requests::{NOW, OfTest, Request};
use crate::room::Room;
use crate::scenes::{run_list, run_rooms};
use crate::wholes::{is_written, tell_sign};
use pcache_base::error::Result;
use pcache_cache::Cache;
use pcache_evict::eviction::EvictionManager;
use pcache_request::HitStatus;
use test_rows::{Told, number, size, word};

static BYTES: [u8; 256] = [7; 256];

// A body of so many bytes, at most 256.
fn body_of(size: usize) -> &'static [u8] {
    if size > BYTES.len() {
        return &BYTES;
    }
    &BYTES[..size]
}

// Sets a key, begins a write without a look-up, and writes a body.
fn is_begun<M: EvictionManager>(
    cache: &mut Cache<M, OfTest>,
    request: &mut Request,
    key: u64,
    size: usize,
) -> Result<bool> {
    opens(cache.alloc(), request, &key.to_be_bytes(), None);
    // It is fetched without a look-up.
    cache.begin_fetch(request);
    is_written(cache, request, body_of(size))
}

// Whether both went well, and the first did what it is for.
fn both(one: Result<bool>, other: Result<bool>) -> Result<bool> {
    let is_done = one?;
    let _done = other?;
    Ok(is_done)
}

fn store<M: EvictionManager>(
    cache: &mut Cache<M, OfTest>,
    request: &mut Request,
    key: u64,
    size: usize,
) -> Result<bool> {
    let begun = is_begun(cache, request, key, size);
    let stored = finishes(cache, request);
    end(cache, request);
    both(stored, begun)
}

// A write that is dropped.
fn drop_one<M: EvictionManager>(room: &mut Room<M>, key: u64, size: usize) -> Result<bool> {
    let begun = is_begun(&mut room.cache, &mut room.one, key, size);
    end(&mut room.cache, &mut room.one);
    begun
}

// Another store under the key, or a purge of it, while a write of it is in flight.
fn race<M: EvictionManager>(
    room: &mut Room<M>,
    key: u64,
    size: usize,
    is_purged: bool,
) -> Result<bool> {
    let begun = is_begun(&mut room.cache, &mut room.one, key, size);
    let between = if is_purged {
        remove(&mut room.cache, &mut room.two, key)
    } else {
        store(&mut room.cache, &mut room.two, key, size / 2)
    };
    let is_ended = finishes(&mut room.cache, &mut room.one).is_ok();
    end(&mut room.cache, &mut room.one);
    Ok(both(begun, between)? && is_ended)
}

fn remove<M: EvictionManager>(
    cache: &mut Cache<M, OfTest>,
    request: &mut Request,
    key: u64,
) -> Result<bool> {
    opens(cache.alloc(), request, &key.to_be_bytes(), None);
    let was_there = purges(cache, request);
    end(cache, request);
    was_there
}

fn expire<M: EvictionManager>(room: &mut Room<M>, key: u64) -> Result<bool> {
    let (cache, request) = room.at(1);
    opens(cache.alloc(), request, &key.to_be_bytes(), None);
    let was_there = expires(cache, request);
    end(cache, request);
    was_there
}

// Whether a key is found, which is a use of it.
fn find<M: EvictionManager>(room: &mut Room<M>, key: u64) -> Result<bool> {
    let (cache, request) = room.at(1);
    opens(cache.alloc(), request, &key.to_be_bytes(), None);
    let found = takes(cache, request, HitStatus::Fresh);
    end(cache, request);
    found
}

// Whether a key is found, whose body is purged before it is taken.
fn find_late<M: EvictionManager>(room: &mut Room<M>, key: u64) -> Result<bool> {
    opens(room.cache.alloc(), &mut room.one, &key.to_be_bytes(), None);
    let found = takes_late(&mut room.cache, &mut room.one, &mut room.two, key);
    end(&mut room.cache, &mut room.one);
    found
}

fn takes_late<M: EvictionManager>(
    cache: &mut Cache<M, OfTest>,
    request: &mut Request,
    other: &mut Request,
    key: u64,
) -> Result<bool> {
    if !request.cache.phase().may_look_up() {
        return Ok(false);
    }
    let Some((meta, hit)) = cache.cache_lookup_without_policy(request, NOW)? else {
        return Ok(false);
    };
    let purged = remove(cache, other, key);
    match cache.cache_found(request, meta, hit, HitStatus::Fresh, NOW) {
        Ok(()) => purged,
        Err(refused) => Err(refused),
    }
}

// One call of the kind that a number says.
fn call<M: EvictionManager>(room: &mut Room<M>, kind: u64, key: u64, size: usize) -> Result<bool> {
    match kind {
        0..=3 => store(&mut room.cache, &mut room.one, key, size),
        4 => drop_one(room, key, size),
        5 => race(room, key, size, false),
        6 => race(room, key, size, true),
        7 => remove(&mut room.cache, &mut room.one, key),
        8 => expire(room, key),
        9 => find_late(room, key),
        _ => find(room, key),
    }
}

// What is tracked weighs what is stored, and there are as many entries as bodies.
fn is_exact<M: EvictionManager>(cache: &Cache<M, OfTest>) -> bool {
    let totals = cache.totals();
    totals.weight as u128 == cache.stored_bytes() && totals.items == cache.slots()
}

// Makes calls at random, and returns how many left another weight than what is stored.
fn count_wrong<M: EvictionManager>(room: &mut Room<M>, seed: u64, count: u64) -> u64 {
    let mut state = seed;
    let mut wrong = 0u64;
    for _ in 0..count {
        state = state
            .wrapping_mul(6_364_136_223_846_793_005)
            .wrapping_add(1_442_695_040_888_963_407);
        let kind = (state >> 60) % 12;
        let key = (state >> 40) % 16;
        let size = ((state >> 20) % 128) as usize;
        if call(room, kind, key, size).is_err() || !is_exact(&room.cache) {
            wrong = wrong.saturating_add(1);
        }
    }
    wrong
}

/// Makes the call of a row.
pub fn tell<M: EvictionManager>(room: &mut Room<M>, call: &'static str, told: &mut Told) {
    let (first, next) = (number(call, 1), number(call, 2));
    match word(call, 0) {
        "store" => told.number(count_unstored(room, first, size(call, 2), number(call, 3))),
        "store-each" => told.number(count_unstored_each(room, first, size(call, 2))),
        "find-each" => told.number(count_lost(room, first)),
        "remove" => tell_sign(remove(&mut room.cache, &mut room.one, first), told),
        "late" => tell_sign(find_late(room, first), told),
        "race" => tell_sign(race(room, first, size(call, 2), false), told),
        _ => told.number(count_wrong(room, first, next)),
    }
}

// Stores under a key once and then so many times more, and returns how many of these stored nothing.
fn count_unstored<M: EvictionManager>(room: &mut Room<M>, key: u64, size: usize, more: u64) -> u64 {
    let mut count = 0u64;
    for _ in 0..=more {
        if !matches!(store(&mut room.cache, &mut room.one, key, size), Ok(true)) {
            count = count.saturating_add(1);
        }
    }
    count
}

fn count_unstored_each<M: EvictionManager>(room: &mut Room<M>, keys: u64, size: usize) -> u64 {
    let mut count = 0u64;
    for key in 0..keys {
        count = count.saturating_add(count_unstored(room, key, size, 0));
    }
    count
}

// How many keys are not found.
fn count_lost<M: EvictionManager>(room: &mut Room<M>, keys: u64) -> u64 {
    let mut count = 0u64;
    for key in 0..keys {
        if !matches!(find(room, key), Ok(true)) {
            count = count.saturating_add(1);
        }
    }
    count
}

const ROWS: &str = "
    # a body that is stored three times counts once
    limit 1000: store 0 100, store 0 100, store 0 100 -> 0, 0, 0, 100 in 1, 100 of 1 tracked, 0 of 0 went
    # a hundred bodies stay while one more is stored again and again
    limit 2000: store-each 100 10, store 100 10 300, find-each 100 -> 0, 0, 0, 1010 in 101, 1010 of 101 tracked, 0 of 0 went
    # what stands counts until it is replaced, and no longer
    limit 10: store 0 4, store 1 4, store 0 6 -> 0, 0, 0, 10 in 2, 10 of 2 tracked, 0 of 0 went
    limit 10: store 0 4, store 1 4, store 0 8 -> 0, 0, 0, 8 in 1, 8 of 1 tracked, 4 of 1 went
    # a body that has no room by itself goes, and the one that it replaced has gone
    limit 4: store 0 4, store 0 5 -> 0, 0, 0 in 0, 0 of 0 tracked, 5 of 1 went
    # the write that began first does not replace what began after it
    limit 10: race 0 4 -> -, 2 in 1, 2 of 1 tracked, 0 of 0 went
    limit 10: store 0 4, remove 0, store 0 4 -> 0, +, 0, 4 in 1, 4 of 1 tracked, 0 of 0 went
    # a hit that is taken after its body was purged adds nothing
    limit 10: store 0 4, late 0 -> 0, +, 0 in 0, 0 of 0 tracked, 0 of 0 went";

#[test]
fn what_is_tracked_is_what_is_stored(rt: HostRuntime) {
    run_list(&rt, rt.alloc(), ROWS);
}

// A cache in which bodies may have 500 bytes together; what it has after its calls is not said here.
const RANDOM: &str = "
    random 1 1000 -> 0";

#[test]
fn random_calls_leave_what_is_stored(rt: HostRuntime) {
    run_rooms(&rt, rt.alloc(), 500, RANDOM);
}
