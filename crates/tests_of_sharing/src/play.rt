//! Rows that threads play: each begins with the number of the thread that makes its call, and each thread waits for its turn.
use crate::rows::{Seat, tell};
use crate::seats::{Lists, Request, lists_within, request_for};
use std::alloc::Global;
use std::process::Abort;
use std::sync::atomic::{AtomicU64, Ordering};
use std::sync::{Mutex, Wait};
use std::thread;
use std::thread::Threads;
use test_rows::{Told, number, rest, word};

const THREADS: usize = 4;

// How often a thread asks whether its turn has come.
const TURNS: u64 = 2_000_000;

// No row.
const NONE: u64 = u64::MAX;

// What was told at the first row whose result is not the expected one.
#[derive(Drop)]
struct Wrong {
    place: u64,
    said: String,
}

// What the threads share: a request goes from one to another by the hand.
struct Stage {
    cache: Lists,
    hand: Mutex<Request>,
    wrong: Mutex<Wrong>,
    turn: AtomicU64,
    rows: &'static str,
}

// Whether a number comes to be at least so much, within so many turns.
fn reaches(turn: &AtomicU64, wanted: u64) -> bool {
    for _ in 0..TURNS {
        if turn.load(Ordering::SeqCst) >= wanted {
            return true;
        }
        thread::yield_now();
    }
    false
}

// A call that waits is begun before the next row, and ends when it may.
fn waits(call: &'static str) -> bool {
    matches!(word(call, 0), "wait" | "follow" | "many")
}

// Plays a row in its turn, and returns whether its result is the expected one.
fn is_told<R: Wait>(
    rt: &R,
    stage: &Stage,
    seat: &mut Seat,
    place: u64,
    row: &'static str,
    told: &mut Told,
) -> bool {
    let (asked, wanted) = row.split_once(" -> ").unwrap_or((row, "ok"));
    let call = rest(asked);
    told.clear();
    if !reaches(&stage.turn, place) {
        return false;
    }
    let next = place.saturating_add(1);
    if waits(call) {
        stage.turn.fetch_max(next, Ordering::SeqCst);
    }
    tell(rt, &stage.cache, &stage.hand, seat, call, told);
    stage.turn.fetch_max(next, Ordering::SeqCst);
    told.is(wanted)
}

// Notes what was told at a row, unless one before it is noted.
fn note<R: Wait>(rt: &R, wrong: &Mutex<Wrong>, place: u64, told: &Told) {
    let mut noted = wrong.lock(rt);
    if place < noted.place {
        noted.place = place;
        noted.said.clear();
        let _is_whole = noted.said.push_str(told.as_str()).is_ok();
    }
}

// Plays the rows of a thread up to the first whose result is not the expected one; the other threads go on then. A thread keeps its
// requests until the last row was begun.
fn play_own<R: Wait>(rt: &R, stage: &Stage, seat: &mut Seat, worker: u64, told: &mut Told) {
    let mut place = 0u64;
    for row in stage.rows.lines() {
        let row = row.trim();
        if number(row, 0) == worker && !is_told(rt, stage, seat, place, row, told) {
            note(rt, &stage.wrong, place, told);
            stage.turn.fetch_max(NONE, Ordering::SeqCst);
            return;
        }
        place = place.saturating_add(1);
    }
    reaches(&stage.turn, place);
}

// Plays the rows of a thread with requests of its own.
fn work<R: Wait>(rt: &R, stage: &Stage, worker: u64) {
    let mut told = Told::new(stage.cache.alloc());
    let mut seat = Seat {
        own: request_for(&stage.cache, b"a"),
        other: request_for(&stage.cache, b"a"),
        seen: stage.cache.beginning(0),
    };
    play_own(rt, stage, &mut seat, worker, &mut told);
    let Seat {
        own,
        other,
        seen: _,
    } = seat;
    stage.cache.end(rt, own);
    stage.cache.end(rt, other);
}

fn work_all<R: Threads + Wait + Sync>(rt: &R, stage: &Stage) {
    let mut done = [false; THREADS];
    thread::for_each_mut(
        rt,
        &mut done,
        THREADS,
        &|worker, done| {
            work(rt, stage, worker as u64);
            *done = true;
        },
    );
}

/// Plays the rows over a cache by four threads, as a test, and returns the cache.
pub fn play_over<R: Threads + Wait + Abort + Sync>(
    rt: &R,
    cache: Lists,
    rows: &'static str,
) -> Lists {
    let alloc = cache.alloc();
    let stage = Stage {
        hand: Mutex::new(request_for(&cache, b"a")),
        wrong: Mutex::new(Wrong {
            place: NONE,
            said: String::new(alloc),
        }),
        cache,
        turn: AtomicU64::new(0),
        rows: rows.trim(),
    };
    work_all(rt, &stage);
    let Stage {
        cache,
        hand,
        wrong,
        turn: _,
        rows: _,
    } = stage;
    cache.end(rt, hand.into_inner());
    let Wrong { place, said } = wrong.into_inner();
    let row = rows.trim().lines().nth(place as usize).unwrap_or("");
    let (number, row) = (place.saturating_add(1), row.trim());
    assert!(rt; place == NONE, "row {number}, {row}: told {said}");
    cache
}

/// Plays the rows of each scene, over a cache of its own with a limit.
pub fn play<R: Threads + Wait + Abort + Sync>(
    rt: &R,
    alloc: Global,
    limit: usize,
    scenes: &[&'static str],
) {
    for rows in scenes {
        match lists_within(alloc, limit) {
            Ok(cache) => {
                let _cache = play_over(rt, cache, *rows);
            }
            Err(refused) => assert!(rt; false, "{}", refused.etype().as_str()),
        }
    }
}
