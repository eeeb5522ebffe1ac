//! The manager with one list.
use crate::managers::{COUNTED, EVICTED, Kept, NEVER_READ, entry_named, key_of, take_over};
use crate::rows::{Desk, Told, other_seed, play, size, some_size, word};
use pcache_base::seed::Seed;
use pcache_evict::eviction::simple_lru::Manager;
use pcache_evict::eviction::{CacheEntryId, CacheEntryKey, EvictionManager};
use std::alloc::{AllocError, Global};
use std::process::Abort;

impl Kept for Manager {
    fn tell(&mut self, alloc: Global, call: &'static str, told: &mut Told) {
        if word(call, 0) != "load" {
            return told.say("no such call");
        }
        let entry = entry_named(alloc, word(call, 1));
        if self.load_entry(entry, size(call, 2)).is_err() {
            told.say("refused");
        }
    }
}

// What managers are made with.
#[derive(Drop)]
struct Simple {
    alloc: Global,
    seed: Seed,
}

impl Desk for Simple {
    fn tell(&mut self, row: &'static str, told: &mut Told) {
        let limits = row.split_once(": ").unwrap_or((row, "")).0;
        let (limit, most) = (size(limits, 1), some_size(limits, 3));
        let made = Manager::new_with_watermark(self.alloc, self.seed, limit, most);
        take_over(self.alloc, made, row, told);
    }
}

// Plays rows under two seeds.
fn run(rt: &impl Abort, alloc: Global, rows: &'static str) {
    for seed in [Seed::fixed(), other_seed()] {
        let mut simple = Simple { alloc, seed };
        play(rt, alloc, &mut simple, rows);
    }
}

#[test]
fn the_least_recent_go(rt: HostRuntime) {
    run(&rt, rt.alloc(), EVICTED);
}

#[test]
fn weights_are_raised_and_the_watermark_bounds_the_number(rt: HostRuntime) {
    run(&rt, rt.alloc(), COUNTED);
}

const LISTED: &str = "
    # an access adds and evicts nothing
    limit 4: use a 1, use b 2, use c 2 -> --- | c2 b2 a1 | 3 of 5, 0 of 0 went
    limit 0: admit a 0, admit b 1 -> ab | | 0 of 0, 2 of 1 went
    # weights are raised
    limit 4: raise a 2 -> | a2 | 1 of 2, 0 of 0 went
    limit 4: raise a 2, raise b 100 3 -> a | b3 | 1 of 3, 1 of 2 went
    # loaded entries stand at the back
    limit 5: load a 1, load b 2, load c 3, load b 9 -> | b9 a1 c3 | 3 of 13, 0 of 0 went
    # totals stop at the largest number
    limit 3: use a 18446744073709551615, use b 18446744073709551615, admit c 3, admit d 1 -> --abc | d1 | 1 of 1, 3 of 18446744073709551615 went
    # a watermark of nothing
    limit 0 watermark 0: admit a 0 -> a | | 0 of 0, 1 of 0 went";

#[test]
fn entries_are_listed_and_counted(rt: HostRuntime) {
    run(&rt, rt.alloc(), LISTED);
}

// The first is evicted by the second call.
const NUMBERS: &str = "
    limit 1: admit a#1 1 -> | a#1:1 | 1 of 1, 0 of 0 went
    limit 1: admit a#1 1, admit a#2 1 -> a#1 | a#2:1 | 1 of 1, 1 of 1 went";

#[test]
fn entries_of_one_key_are_told_apart(rt: HostRuntime) {
    run(&rt, rt.alloc(), NUMBERS);
}

const TAGS: &str = "
    limit 1: admit a 1 -> | a1 | 1 of 1, 0 of 0 went
    limit 1: admit a 1, admit a/2 1 -> a | a/2:1 | 1 of 1, 1 of 1 went";

#[test]
fn tags_of_one_key_are_told_apart(rt: HostRuntime) {
    run(&rt, rt.alloc(), TAGS);
}

type Boxed = Box<dyn EvictionManager + Send>;

// Whether exactly this entry was evicted, or none.
fn is_gone(gone: Result<Vec<CacheEntryKey>, AllocError>, entry: Option<&CacheEntryKey>) -> bool {
    match gone {
        Ok(gone) => gone.first() == entry && gone.len() < 2,
        Err(_refused) => false,
    }
}

// Admits the one and uses the other, by the trait.
fn takes_both(alloc: Global, boxed: &mut Boxed, b: &CacheEntryKey) -> bool {
    is_gone(boxed.admit(entry_named(alloc, "a"), 2, NEVER_READ), None)
        && matches!(boxed.access(b, 1, NEVER_READ), Ok(false))
        && boxed.peek(b)
}

// Whether the one is evicted when the other's weight is raised.
fn is_raised(alloc: Global, boxed: &mut Boxed, b: &CacheEntryKey) -> bool {
    let gone = boxed.increment_weight(b, 3, None);
    is_gone(gone, Some(&entry_named(alloc, "a")))
}

fn has_counted(boxed: &Boxed) -> bool {
    boxed.total_size() == 4
        && boxed.total_items() == 1
        && boxed.evicted_size() == 2
        && boxed.evicted_items() == 1
}

fn is_emptied(boxed: &mut Boxed, b: &CacheEntryKey) -> bool {
    boxed.remove(b);
    match boxed.entries() {
        Ok(entries) => entries.is_empty(),
        Err(_refused) => false,
    }
}

fn is_one(alloc: Global, boxed: &mut Boxed) -> bool {
    let b = entry_named(alloc, "b");
    takes_both(alloc, boxed, &b)
        && is_raised(alloc, boxed, &b)
        && has_counted(boxed)
        && is_emptied(boxed, &b)
}

fn is_one_in_a_box(alloc: Global, manager: Manager) -> bool {
    match Box::new(alloc, manager) {
        Ok(made) => {
            let mut boxed: Boxed = made;
            is_one(alloc, &mut boxed)
        }
        Err(_refused) => false,
    }
}

#[test]
fn a_boxed_manager_is_one(rt: HostRuntime) {
    let is_good = match Manager::new(rt.alloc(), Seed::fixed(), 4) {
        Ok(manager) => is_one_in_a_box(rt.alloc(), manager),
        Err(_refused) => false,
    };
    assert!(rt; is_good);
}

// Admits 50,000 entries, if 5,000 have room.
fn admits_all(alloc: Global, manager: &mut Manager) -> bool {
    for number in 0..50000u64 {
        if manager
            .admit(numbered(alloc, number), 1, NEVER_READ)
            .is_err()
        {
            return false;
        }
    }
    manager.evicted_items() == 45000
}

fn numbered(alloc: Global, number: u64) -> CacheEntryKey {
    CacheEntryKey::identified(key_of(alloc, b'a', "1"), CacheEntryId::new(number))
}

#[test]
fn many_admissions_are_fast(rt: HostRuntime) {
    let is_good = match Manager::new(rt.alloc(), Seed::fixed(), 5000) {
        Ok(mut manager) => admits_all(rt.alloc(), &mut manager),
        Err(_refused) => false,
    };
    assert!(rt; is_good);
}
