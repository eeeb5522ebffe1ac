//! What is stored in all parts and in one of them, and what a request sees of another.
use crate::permits::tell_gone;
use crate::rows::Seat;
use crate::seats::{Lists, request_for};
use pcache_shared_cache::{Sight, Unnamed};
use std::mem;
use std::sync::Wait;
use test_rows::{Told, size, word};

const PARTS: usize = 4;

/// Makes the call of a row.
pub fn tell<R: Wait>(rt: &R, cache: &Lists, seat: &mut Seat, call: &'static str, told: &mut Told) {
    match word(call, 0) {
        "stored" => {
            told.shown(&cache.stored_bytes(rt));
            told.say(" in ");
            told.shown(&cache.slots(rt));
        }
        "place" => told.shown(&seat.own.place()),
        "part" => look_at(cache, seat, size(call, 1), told),
        "seen" => seen(rt, cache, &mut seat.seen, told),
        _ => see_end(rt, cache, seat, told),
    }
}

// From now on the thread looks at a part.
fn look_at(cache: &Lists, seat: &mut Seat, place: usize, told: &mut Told) {
    if place >= PARTS {
        return told.say("wrong");
    }
    seat.seen = cache.beginning(place);
    told.shown(&seat.seen.place());
}

// What the part has stored that the thread looks at.
fn seen<R: Wait>(rt: &R, cache: &Lists, sight: &mut Sight<Unnamed>, told: &mut Told) {
    if sight.place() >= PARTS {
        return told.say("wrong");
    }
    told.shown(&cache.stored_bytes_of(rt, sight));
    told.say(" in ");
    if sight.place() < PARTS {
        told.shown(&cache.slots_of(rt, sight));
    }
}

// Ends the other request of the thread, and its own one is told all that this saw of their part.
fn see_end<R: Wait>(rt: &R, cache: &Lists, seat: &mut Seat, told: &mut Told) {
    let next = request_for(cache, b"a");
    let ended = cache.end(rt, mem::replace(&mut seat.other, next));
    if seat.own.place() != ended.sight.place() {
        return told.say("of another part");
    }
    seat.own.sees(&ended.sight);
    tell_gone(ended.released.is_some(), told);
}
