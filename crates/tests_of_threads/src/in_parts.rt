//! Worlds in parts: two shared worlds side by side, of which a key belongs to one by its place. Threads call both, and the receipts
//! are exact in each.
use crate::calls::{opening_of, place_in_two, read_call};
use crate::gates::Open;
use crate::workers::{Ended, are_exact, run_named};
use pcache_base::error::Result;
use pcache_world::world::call::Call;
use std::alloc::Global;
use std::marker::Brand;
use std::sync::Wait;
use std::test::Fail;
use std::thread;
use std::thread::Threads;
use test_rows::{some_number, word};

// What each worker calls. The keys `a` and `b` are of the second world, `c` and `one` of the first: told by another program, the
// first eight bytes of BLAKE2b with 16 bytes out, modulo two.
const FIRST: &str = "\
    open 1\nkey 1 a\nlook 1\nmiss 1\nmeta 1\nbegin 1\nwrite_last 1 ab\nfinish 1\nend 1\n\
    open 2\nkey 2 c\nlook 2\nend 2\n\
    open 3\nkey 3 b\nlook 3\n";

const SECOND: &str = "\
    open 4\nkey 4 c\nlook 4\nend 4\n\
    open 5\nkey 5 a\nlook 5\nend 5\n\
    open 6\nkey 6 one\nlook 6\nmiss 6\nmeta 6\nbegin 6\nwrite_last 6 cd\nfinish 6\nend 6\n";

// The place of the key that a request of the text names.
fn place_of_request(alloc: Global, text: &'static str, request: u64) -> Result<Option<usize>> {
    for line in text.lines() {
        if word(line, 0) == "key" && some_number(line, 1) == Some(request) {
            return Ok(Some(place_in_two(alloc, word(line, 2))?));
        }
    }
    Ok(None)
}

// The calls of the text whose requests have keys of this place.
fn script_at(alloc: Global, text: &'static str, place: usize) -> Result<Vec<Call>> {
    let mut calls = Vec::new(alloc);
    for line in text.lines() {
        let Some(request) = some_number(line, 1) else {
            continue;
        };
        if place_of_request(alloc, text, request)? != Some(place) {
            continue;
        }
        if let Some(call) = read_call(alloc, line)? {
            calls.push(call)?;
        }
    }
    Ok(calls)
}

// Two workers call the world of a place.
fn run_at<R: Threads + Wait + Sync>(rt: &R, alloc: Global, place: usize) -> Result<Ended> {
    let scripts = [
        script_at(alloc, FIRST, place)?,
        script_at(alloc, SECOND, place)?,
    ];
    let opening = opening_of(alloc)?;
    run_named::<Brand, Open, R>(rt, alloc, opening, &scripts, &Open)
}

// Whether the receipts of the world of a place are exact, and there are so many.
fn is_exact_at<R: Threads + Wait + Sync>(
    rt: &R,
    alloc: Global,
    place: usize,
    count: usize,
) -> Result<bool> {
    let (world, receipts) = run_at(rt, alloc, place)?;
    are_exact(alloc, world.history(), receipts.as_slice(), count)
}

fn both_are_exact<R: Threads + Wait + Sync>(rt: &R, alloc: Global) -> bool {
    let (first, second) = thread::join(
        rt,
        || is_exact_at(rt, alloc, 0, 17),
        || is_exact_at(rt, alloc, 1, 16),
    );
    matches!(first, Ok(true)) && matches!(second, Ok(true))
}

#[test]
fn two_worlds_by_key(rt: HostRuntime) -> std::result::Result<(), Fail> {
    let are_exact = both_are_exact(&rt, rt.alloc());
    assert!(rt; are_exact);
    Ok(())
}
