//! Managers by rows: the limits, and then the calls.
//!
//! An entry is named by the letter that its primary hash repeats; `a/2` is that of another user, and `a#1` the one with a number.
//! A row tells which entries were evicted, `+` or `-` if an entry that was used or looked for was tracked or not, then the list, and
//! then the totals.
use crate::rows::{Told, size, some_number, some_size, word};
use pcache_base::key::CompactCacheKey;
use pcache_base::moment::Moment;
use pcache_base::text::Text;
use pcache_evict::eviction::{CacheEntryId, CacheEntryKey, EvictionManager};
use std::alloc::{AllocError, Global};

/// The end of freshness that managers do not read.
pub const NEVER_READ: Moment = Moment::EPOCH;

/// A manager of rows.
pub trait Kept: EvictionManager + Drop {
    /// Makes a call that only this kind of manager has.
    fn tell(&mut self, alloc: Global, call: &'static str, told: &mut Told);
}

/// The entry that a word names.
pub fn entry_named(alloc: Global, name: &'static str) -> CacheEntryKey {
    match name.split_once("#") {
        Some((key, number)) => {
            CacheEntryKey::from_entry_id(key_named(alloc, key), id_of(some_number(number, 0)))
        }
        None => CacheEntryKey::from_entry_id(key_named(alloc, name), None),
    }
}

fn id_of(number: Option<u64>) -> Option<CacheEntryId> {
    match number {
        Some(number) => Some(CacheEntryId::new(number)),
        None => None,
    }
}

fn key_named(alloc: Global, name: &'static str) -> CompactCacheKey {
    let (letter, tag) = name.split_once("/").unwrap_or((name, "1"));
    key_of(alloc, letter.as_bytes().first().copied().unwrap_or(0), tag)
}

/// The key whose primary hash repeats this byte. If memory runs out, its tag is another one.
pub fn key_of(alloc: Global, name: u8, tag: &str) -> CompactCacheKey {
    let mut user_tag = String::new(alloc);
    let _is_whole = user_tag.push_str(tag).is_ok();
    CompactCacheKey {
        primary: [name; 16],
        variance: None,
        user_tag: Text::new(user_tag),
    }
}

// Makes calls, and tells the list and the totals.
fn take_all<E: Kept>(alloc: Global, manager: &mut E, calls: &'static str, told: &mut Told) {
    for call in calls.split(", ") {
        take(alloc, manager, call, told);
    }
    told.say(" |");
    tell_list(manager.entries(), told);
    tell_totals(manager, told);
}

fn take<E: Kept>(alloc: Global, manager: &mut E, call: &'static str, told: &mut Told) {
    match word(call, 0) {
        "admit" | "raise" | "use" | "peek" | "remove" => {
            take_of(manager, entry_named(alloc, word(call, 1)), call, told);
        }
        _ => manager.tell(alloc, call, told),
    }
}

// Makes a call of the trait.
fn take_of<E: EvictionManager>(
    manager: &mut E,
    entry: CacheEntryKey,
    call: &'static str,
    told: &mut Told,
) {
    let weight = size(call, 2);
    match word(call, 0) {
        "admit" => tell_gone(manager.admit(entry, weight, NEVER_READ), told),
        "raise" => tell_gone(
            manager.increment_weight(&entry, weight, some_size(call, 3)),
            told,
        ),
        "use" => tell_used(manager.access(&entry, weight, NEVER_READ), told),
        "peek" => tell_used(Ok(manager.peek(&entry)), told),
        _ => manager.remove(&entry),
    }
}

fn tell_used(was_there: Result<bool, AllocError>, told: &mut Told) {
    match was_there {
        Ok(was_there) => told.say(if was_there { "+" } else { "-" }),
        Err(refused) => told.refused(&refused.into()),
    }
}

fn tell_gone(gone: Result<Vec<CacheEntryKey>, AllocError>, told: &mut Told) {
    match gone {
        Ok(gone) => {
            for entry in gone.as_slice() {
                tell_name(entry, told);
            }
        }
        Err(refused) => told.refused(&refused.into()),
    }
}

/// Tells the name of an entry.
pub fn tell_name(entry: &CacheEntryKey, told: &mut Told) {
    let key = entry.key();
    told.letter(char::from(key.primary[0]));
    if key.user_tag.as_str() != "1" {
        told.say("/");
        told.say(key.user_tag.as_str());
    }
    if let Some(id) = entry.entry_id() {
        told.say("#");
        told.number(id.get());
    }
}

fn tell_list(entries: Result<Vec<(CacheEntryKey, usize)>, AllocError>, told: &mut Told) {
    match entries {
        Ok(entries) => {
            for (entry, weight) in entries.as_slice() {
                told.say(" ");
                tell_name(entry, told);
                tell_weight(entry, *weight, told);
            }
        }
        Err(refused) => told.refused(&refused.into()),
    }
}

// A weight behind a name of more than a letter has a colon.
fn tell_weight(entry: &CacheEntryKey, weight: usize, told: &mut Told) {
    if entry.entry_id().is_some() || entry.key().user_tag.as_str() != "1" {
        told.say(":");
    }
    told.shown(&weight);
}

fn tell_totals<E: EvictionManager>(manager: &E, told: &mut Told) {
    told.say(" | ");
    told.shown(&manager.total_items());
    told.say(" of ");
    told.shown(&manager.total_size());
    told.say(", ");
    told.shown(&manager.evicted_items());
    told.say(" of ");
    told.shown(&manager.evicted_size());
    told.say(" went");
}

/// Makes the calls of a row over a manager that was just made.
pub fn take_over<E: Kept>(
    alloc: Global,
    made: Result<E, AllocError>,
    row: &'static str,
    told: &mut Told,
) {
    match made {
        Ok(mut manager) => {
            let calls = row.split_once(": ").unwrap_or(("", row)).1;
            take_all(alloc, &mut manager, calls, told);
        }
        Err(refused) => told.refused(&refused.into()),
    }
}

/// Rows for which both managers return the same.
pub const EVICTED: &str = "
    limit 4: admit a 1, admit b 2, admit c 1, admit d 2 -> ab | d2 c1 | 2 of 3, 2 of 3 went
    # what was used stays
    limit 4: admit a 1, admit b 2, admit c 1, use a 9, admit d 2 -> +b | d2 a1 c1 | 3 of 4, 1 of 2 went
    # an entry that is taken out makes room
    limit 4: admit a 1, admit b 2, admit c 1, remove a, admit d 2 -> b | d2 c1 | 2 of 3, 1 of 2 went
    # one that is used comes in, and nothing goes
    limit 4: use a 1, use b 2, use c 2, admit d 2 -> ---ab | d2 c2 | 2 of 4, 2 of 3 went
    # an entry takes the weight that it is admitted with
    limit 4: admit a 1, admit b 2, admit c 1, admit b 1, admit d 1, admit d 2 -> a | d2 b1 c1 | 3 of 4, 1 of 1 went
    # too heavy for the limit
    limit 3: admit a 4 -> a | | 0 of 0, 1 of 4 went
    # another user's entry of the same key
    limit 4: admit a 3, admit a/2 2 -> a | a/2:2 | 1 of 2, 1 of 3 went
    # a purge, and then what another write stored
    limit 9: remove k, admit k 2, use k 2 -> + | k2 | 1 of 2, 0 of 0 went
    # a purge of what is only being written
    limit 9: remove k -> | | 0 of 0, 0 of 0 went";

/// Rows of weights and numbers for which both managers return the same.
pub const COUNTED: &str = "
    limit 1000 watermark 4: admit a 1, admit b 1, admit c 1, admit d 1, admit e 1, admit f 1, peek c, peek b -> ab+- | f1 e1 d1 c1 | 4 of 4, 2 of 2 went
    limit 4: raise a 2, raise b 100 3, raise b 100 2 -> a | b3 | 1 of 3, 1 of 2 went
    # by nothing, and with less as the most
    limit 10: raise a 0, raise b 3, raise b 100 2 -> | b3 a1 | 2 of 4, 0 of 0 went";
