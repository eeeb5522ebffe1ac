//! Rows over a store, whichever it is, with the writers and the readers that are open.
//!
//! A row that begins with a number is a call of the writer or of the reader with this number; one that begins with a word is a
//! call of the store. A key is named by its primary bytes, and `aa+` is the key `aa` with a variance.
use crate::rows::{Desk, Told, number, play, some_number, word};
use pcache_store::storage::{HitHandler, MissHandler, Storage};
use std::alloc::Global;
use std::mem;
use std::process::Abort;

pub mod keys;
pub mod metas;
mod readers;
mod removals;
pub mod writers;

type Writer<S> = Option<MissHandler<S>>;

type Reader<S> = Option<HitHandler<S>>;

/// A store of rows.
pub trait Kept: Storage + Drop {
    /// The number of a write.
    fn number_of(writer: &MissHandler<Self>) -> u64;

    /// Makes a call that only this kind of store has.
    fn tell(&mut self, alloc: Global, call: &'static str, told: &mut Told);
}

// The writers and readers that are open, by their numbers.
struct Hands<S: Kept> {
    writer_1: Writer<S>,
    writer_2: Writer<S>,
    writer_3: Writer<S>,
    reader_1: Reader<S>,
    reader_2: Reader<S>,
    reader_3: Reader<S>,
    reader_4: Reader<S>,
}

impl<S: Kept> Hands<S> {
    fn new() -> Hands<S> {
        Hands {
            writer_1: None,
            writer_2: None,
            writer_3: None,
            reader_1: None,
            reader_2: None,
            reader_3: None,
            reader_4: None,
        }
    }

    fn writer(&mut self, number: u64) -> &mut Writer<S> {
        match number {
            1 => &mut self.writer_1,
            2 => &mut self.writer_2,
            _ => &mut self.writer_3,
        }
    }

    fn reader(&mut self, number: u64) -> &mut Reader<S> {
        match number {
            1 => &mut self.reader_1,
            2 => &mut self.reader_2,
            3 => &mut self.reader_3,
            _ => &mut self.reader_4,
        }
    }

    // Ends what is open.
    fn end(self, store: &mut S) {
        let Hands {
            writer_1,
            writer_2,
            writer_3,
            reader_1,
            reader_2,
            reader_3,
            reader_4,
        } = self;
        writers::end(store, writer_1);
        writers::end(store, writer_2);
        writers::end(store, writer_3);
        readers::end(store, reader_1);
        readers::end(store, reader_2);
        readers::end(store, reader_3);
        readers::end(store, reader_4);
    }
}

/// A store with what is open, and another store.
pub struct Room<S: Kept> {
    alloc: Global,
    store: S,
    other: S,
    hands: Hands<S>,
}

impl<S: Kept> Room<S> {
    /// Nothing is open.
    pub fn new(alloc: Global, store: S, other: S) -> Room<S> {
        Room {
            alloc,
            store,
            other,
            hands: Hands::new(),
        }
    }

    /// Ends what is open.
    pub fn end(self) {
        let Room {
            alloc: _,
            mut store,
            other: _,
            hands,
        } = self;
        hands.end(&mut store);
    }
}

impl<S: Kept> Desk for Room<S> {
    fn tell(&mut self, call: &'static str, told: &mut Told) {
        match some_number(call, 0) {
            Some(of) => tell_of_hand(self, of, call, told),
            None => tell_of_room(self, call, told),
        }
    }
}

fn tell_of_hand<S: Kept>(room: &mut Room<S>, of: u64, call: &'static str, told: &mut Told) {
    let (alloc, store) = (room.alloc, &mut room.store);
    match word(call, 1) {
        "begins"
        | "begins-varied"
        | "writes"
        | "writes-last"
        | "at-end"
        | "numbered"
        | "fills-entry"
        | "finishes"
        | "gives-up" => {
            writers::tell(alloc, store, room.hands.writer(of), call, told);
        }
        "joins" => join(room, of, call, told),
        _ => readers::tell(alloc, store, room.hands.reader(of), call, told),
    }
}

// A reader joins a write by the tag of its writer.
fn join<S: Kept>(room: &mut Room<S>, of: u64, call: &'static str, told: &mut Told) {
    let writer = room.hands.writer(number(call, 3));
    let found = readers::joined(room.alloc, &mut room.store, writer, word(call, 2));
    readers::keep(&mut room.store, room.hands.reader(of), found, told);
}

fn tell_of_room<S: Kept>(room: &mut Room<S>, call: &'static str, told: &mut Told) {
    match word(call, 0) {
        "close" => {
            mem::replace(&mut room.hands, Hands::new()).end(&mut room.store);
            told.say("ok");
        }
        "swap" => {
            mem::swap(&mut room.store, &mut room.other);
            told.say("ok");
        }
        "apart" => told.yes_or_no(keys::are_apart(room.alloc, word(call, 1), word(call, 2))),
        "streams" => told.yes_or_no(room.store.support_streaming_partial_write()),
        "purge" | "purge-exact" | "purge-entry" | "expire" | "expire-exact" => {
            removals::tell(room.alloc, &mut room.store, call, told);
        }
        "update" | "update-as" | "number" | "meta" => {
            metas::tell(room.alloc, &mut room.store, call, told);
        }
        _ => room.store.tell(room.alloc, call, told),
    }
}

/// Plays rows over a store, beside which there is another one.
pub fn run<S: Kept>(rt: &impl Abort, alloc: Global, store: S, other: S, rows: &'static str) {
    let mut room = Room::new(alloc, store, other);
    play(rt, alloc, &mut room, rows);
    room.end();
}
