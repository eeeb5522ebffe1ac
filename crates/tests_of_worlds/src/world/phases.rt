//! Each call in each phase, with its reply: a wrong call exactly when the phase table does not have
//! it.
use crate::play::{Limits, add_call, calls_of, compare, world_of};
use crate::script::Clock;
use pcache_base::error::Result;
use pcache_base::seed::Seed;
use pcache_world::world::call::{Call, Reply};
use std::alloc::Global;
use test_rows::{Told, asked_of};

// The calls that another request makes before, to store a body for the key `k`. Nothing is stored
// for `l`.
const STORING: &str = "open 2\n\
    key 2 k\n\
    look 2\n\
    miss 2\n\
    meta 2\n\
    begin 2\n\
    write 2 ab\n\
    finish 2\n\
    end 2\n";

// The states of a request, by the calls that lead there, with its phase: not open, disabled, new,
// bypassed, with its key, with a pair that a look-up gave, a hit, a miss, a miss with its meta,
// with its write, stale, stale while another updates, expired, and revalidated, without a cacheable
// answer and with one.
const STATES: &str = " -> WrongCall\n\
    open 1, disable 1 -> Phase(Disabled(InternalError))\n\
    open 1 -> Phase(Uninit)\n\
    open 1, key 1 l, bypass 1 -> Phase(Bypass)\n\
    open 1, key 1 l -> Phase(CacheKey)\n\
    open 1, key 1 k, look 1 -> Phase(CacheKey)\n\
    open 1, key 1 k, look 1, found 1 fresh -> Phase(Hit)\n\
    open 1, key 1 l, look 1, miss 1 -> Phase(Miss)\n\
    open 1, key 1 l, look 1, miss 1, meta 1 -> Phase(Miss)\n\
    open 1, key 1 l, look 1, miss 1, meta 1, begin 1 -> Phase(Miss)\n\
    open 1, key 1 k, look 1, found 1 expired -> Phase(Stale)\n\
    open 1, key 1 k, look 1, found 1 expired, updating 1 -> Phase(StaleUpdating)\n\
    open 1, key 1 k, look 1, found 1 expired, meta 1 -> Phase(Expired)\n\
    open 1, key 1 k, look 1, found 1 expired, uncacheable 1 -> Phase(RevalidatedNoCache(InternalError))\n\
    open 1, key 1 k, look 1, found 1 expired, revalidate 1 -> Phase(Revalidated)\n";

// For each call, its reply in each of these states, in their order: `-` that it is a wrong call,
// `+` that it is done, and a letter for another reply (`mark_of`). Written by hand from the phase
// table. No other request holds the permit of its key, so none waits; if a look-up found nothing,
// or what was found is stale, it holds the permit itself.
const ROWS: &str = "+-------------- open 1\n\
    -+------------- enable 1\n\
    -++++++++++++++ disable 1\n\
    --+-++--------- key 1 k\n\
    ----nh----h---- look 1\n\
    -----o--------- vary 1\n\
    -----t--------- found 1 fresh\n\
    ----++--------- bypass 1\n\
    ---+++----+---- miss 1\n\
    -------++++---- meta 1\n\
    --------+---+-- begin 1\n\
    ---------+----- write 1 ab\n\
    -------00s--0-- finish 1\n\
    ------d--pddddd read 1\n\
    ------+--r+++++ seek 1\n\
    ------+++++++++ done 1\n\
    ----ag--------- purge 1\n\
    ----ae--------- expire 1\n\
    ----+++-------- lock 1\n\
    --------------- wait 1\n\
    -++++++++++++++ publish 1\n\
    -++++++++++++++ release 1\n\
    -------++-+++-- give 1\n\
    ----------+---- updating 1\n\
    ----------+---- uncacheable 1\n\
    --------+---+-- variance 1\n\
    ----------u---- revalidate 1\n\
    -iiiiiiiiiiiiii phase 1\n\
    -++++++++++++++ end 1\n";

fn mark_of(reply: &Reply) -> char {
    match reply {
        Reply::WrongCall => '-',
        Reply::Done => '+',
        Reply::Refused(_) => 'r',
        Reply::NotFound(_) => 'n',
        Reply::Hit(_) => 'h',
        Reply::Taken(_, _) => 't',
        Reply::Stored {
            size: _,
            evicted: _,
        } => 's',
        Reply::Nothing => '0',
        Reply::Data(_) => 'd',
        Reply::Pending => 'p',
        Reply::Purged => 'g',
        Reply::Expired => 'e',
        Reply::Absent => 'a',
        Reply::Other => 'o',
        Reply::Updated => 'u',
        Reply::Phase(_) => 'i',
        _ => '?',
    }
}

// Adds the calls that lead a request to its state, and then a call of it.
fn lead(alloc: Global, calls: &mut Vec<Call>, state: &'static str, call: &'static str) {
    let mut clock = Clock::new();
    clock.set(0);
    for asked in asked_of(state).split(", ") {
        add_call(alloc, asked, &mut clock, calls);
    }
    add_call(alloc, call, &mut clock, calls);
}

// Tells the reply of a new world to a call in a state: its mark, or all of it.
fn tell_last(
    alloc: Global,
    state: &'static str,
    call: &'static str,
    is_mark: bool,
    told: &mut Told,
) {
    let mut calls = calls_of(alloc, STORING);
    lead(alloc, &mut calls, state, call);
    match world_of(alloc, Seed::fixed(), Limits::weight(100)) {
        Ok(mut world) => tell_last_of(world.run(calls), is_mark, told),
        Err(refused) => told.refused(&refused),
    }
}

fn tell_last_of(replies: Result<Vec<Reply>>, is_mark: bool, told: &mut Told) {
    match replies {
        Ok(replies) => match replies.last() {
            Some(reply) if is_mark => told.letter(mark_of(reply)),
            Some(reply) => told.named(reply),
            None => told.say("no call"),
        },
        Err(refused) => told.refused(&refused),
    }
}

#[test]
fn each_call_in_each_phase(rt: HostRuntime) {
    let alloc = rt.alloc();
    let mut told = Told::new(alloc);
    let mut number = 0u64;
    for row in ROWS.lines() {
        number = number.saturating_add(1);
        let (marks, call) = row.split_once(' ').unwrap_or((row, ""));
        told.clear();
        for state in STATES.lines() {
            tell_last(alloc, state, call, true, &mut told);
        }
        let said = told.as_str();
        assert!(rt;
            told.is(marks),
            "row {number}, {call}: told {said}, and not {marks}"
        );
    }
}

#[test]
fn the_phase_of_each_state(rt: HostRuntime) {
    let alloc = rt.alloc();
    let mut told = Told::new(alloc);
    let mut number = 0u64;
    for state in STATES.lines() {
        number = number.saturating_add(1);
        told.clear();
        tell_last(alloc, state, "phase 1", false, &mut told);
        compare(&rt, number, state, &told);
    }
}
