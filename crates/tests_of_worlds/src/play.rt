//! Playing rows on worlds: the calls of a text in one run, and one by one.
//!
//! A row is a call with its reply; one without an arrow is done. A line has a row, or several with `; ` between them.
ghost use Rattle.std.specs.Prelude.{◌<◌};

use crate::script::{Clock, Line, call_of, line_of};
use pcache_base::error::Result;
use pcache_base::seed::Seed;
use pcache_evict::eviction::{EvictionManager, sharded_lru, simple_lru};
use pcache_policies::{s3_fifo, sieve};
use pcache_world::world::call::{Call, Reply};
use pcache_world::world::entry::Entry;
use pcache_world::world::policy::BySelf;
use pcache_world::world::{Totals, World};
use std::alloc::{AllocError, Global};
use std::process::Abort;
use std::time::Duration;
use test_rows::{Desk, Told, asked_of, other_seed};

/// The limits of a world's manager, on the weight of its entries and on their number.
#[derive(Clone, Copy)]
pub struct Limits {
    weight: usize,
    watermark: Option<usize>,
}

impl Limits {
    /// A limit on the weight alone.
    pub fn weight(weight: usize) -> Limits {
        Limits {
            weight,
            watermark: None,
        }
    }

    /// A limit on the weight, and one on the number of entries.
    pub fn with_watermark(weight: usize, watermark: usize) -> Limits {
        Limits {
            weight,
            watermark: Some(watermark),
        }
    }
}

/// A world that was just made.
pub type Made<M> = Result<World<M, BySelf>>;

/// A new world under a seed, whose manager has these limits. Permits are too old after ten seconds.
pub fn world_of(alloc: Global, seed: Seed, limits: Limits) -> Made<simple_lru::Manager> {
    let Limits { weight, watermark } = limits;
    world_over(
        alloc,
        seed,
        simple_lru::Manager::new_with_watermark(alloc, seed, weight, watermark),
    )
}

/// The same over a manager in `N` shards.
pub fn sharded_world_of<const N: usize>(
    alloc: Global,
    seed: Seed,
    limits: Limits,
) -> Made<sharded_lru::Manager<N>>
    requires { 0 < N }
{
    let Limits { weight, watermark } = limits;
    let made = sharded_lru::Manager::<N>::with_capacity_and_watermark(
        alloc, seed, weight, 4, watermark,
    );
    world_over(alloc, seed, made)
}

fn world_over<M: EvictionManager + Drop>(
    alloc: Global,
    seed: Seed,
    made: Result<M, AllocError>,
) -> Made<M> {
    match made {
        Ok(manager) => Ok(World::new(alloc, seed, manager, Duration::from_secs(10))),
        Err(refused) => Err(refused.into()),
    }
}

/// Plays two texts on a new world, all calls of a text in one run, and on another world, under
/// another seed, one by one. Both worlds are dropped with what is still open in them.
pub fn play(
    rt: &impl Abort,
    alloc: Global,
    limits: Limits,
    first: &'static str,
    text: &'static str,
) {
    play_together(
        rt,
        alloc,
        world_of(alloc, Seed::fixed(), limits),
        first,
        text,
    );
    play_apart(
        rt,
        alloc,
        world_of(alloc, other_seed(), limits),
        first,
        text,
    );
}

/// The same over a manager in `N` shards.
pub fn play_sharded<const N: usize>(
    rt: &impl Abort,
    alloc: Global,
    limits: Limits,
    first: &'static str,
    text: &'static str,
)
    requires { 0 < N }
{
    play_together(
        rt,
        alloc,
        sharded_world_of::<N>(alloc, Seed::fixed(), limits),
        first,
        text,
    );
    play_apart(
        rt,
        alloc,
        sharded_world_of::<N>(alloc, other_seed(), limits),
        first,
        text,
    );
}

/// Plays two texts over the simple manager, and over the manager in one shard.
pub fn play_on_both(
    rt: &impl Abort,
    alloc: Global,
    limits: Limits,
    first: &'static str,
    text: &'static str,
) {
    play(rt, alloc, limits, first, text);
    play_sharded::<1>(rt, alloc, limits, first, text);
}

/// Plays two texts over a manager whose list has a hand, and over one with two queues. The texts may not depend on which
/// entries go first.
pub fn play_on_policies(
    rt: &impl Abort,
    alloc: Global,
    limits: Limits,
    first: &'static str,
    text: &'static str,
) {
    let Limits { weight, watermark } = limits;
    let seed = Seed::fixed();
    let hand = sieve::Manager::new_with_watermark(alloc, seed, weight, watermark);
    play_together(rt, alloc, world_over(alloc, seed, hand), first, text);
    let queues = s3_fifo::Manager::new_with_watermark(alloc, seed, weight, watermark);
    play_together(rt, alloc, world_over(alloc, seed, queues), first, text);
}

fn play_together<M: EvictionManager>(
    rt: &impl Abort,
    alloc: Global,
    made: Made<M>,
    first: &'static str,
    text: &'static str,
) {
    match made {
        Ok(mut world) => {
            run(rt, alloc, &mut world, first);
            run(rt, alloc, &mut world, text);
        }
        Err(refused) => assert!(rt; false, "{}", refused.etype().as_str()),
    }
}

fn play_apart<M: EvictionManager>(
    rt: &impl Abort,
    alloc: Global,
    made: Made<M>,
    first: &'static str,
    text: &'static str,
) {
    step(rt, alloc, made, false, &[first, text]);
}

/// Makes the calls of each text one by one, perhaps by the step that says more.
pub fn step<M: EvictionManager>(
    rt: &impl Abort,
    alloc: Global,
    made: Made<M>,
    is_bounded: bool,
    texts: &[&'static str],
) {
    match made {
        Ok(world) => {
            let mut steps = Steps {
                alloc,
                world,
                clock: Clock::new(),
                is_bounded,
            };
            steps.play_all(rt, alloc, texts);
        }
        Err(refused) => assert!(rt; false, "{}", refused.etype().as_str()),
    }
}

/// Plays the rows of a text. The first that is told otherwise fails the test.
pub fn play_rows<D: Desk>(rt: &impl Abort, alloc: Global, desk: &mut D, text: &'static str) {
    let mut told = Told::new(alloc);
    let mut number = 0u64;
    for line in text.trim().lines() {
        for row in line.trim().split("; ") {
            number = number.saturating_add(1);
            told.clear();
            desk.tell(asked_of(row), &mut told);
            compare(rt, number, row, &told);
        }
    }
}

/// Fails the test unless a row was told as it has to be.
pub fn compare(rt: &impl Abort, number: u64, row: &'static str, told: &Told) {
    let (_call, wanted) = row.split_once(" -> ").unwrap_or((row, "Done"));
    let said = told.as_str();
    assert!(rt;
        told.is(wanted),
        "row {number}, {row}: told {said}, and not {wanted}"
    );
}

/// Makes the calls of a text in one run. The replies are those of the rows, and each call is in the history, in order, with
/// the reply that was returned.
pub fn run<M: EvictionManager>(
    rt: &impl Abort,
    alloc: Global,
    world: &mut World<M, BySelf>,
    text: &'static str,
) {
    let before = world.history().len();
    match world.run(calls_of(alloc, text)) {
        Ok(replies) => look_at(rt, alloc, world, before, replies.as_slice(), text),
        Err(refused) => assert!(rt; false, "{}", refused.etype().as_str()),
    }
}

fn look_at<M: EvictionManager>(
    rt: &impl Abort,
    alloc: Global,
    world: &World<M, BySelf>,
    before: usize,
    replies: &[Reply],
    text: &'static str,
) {
    let noted = world.history().get(before..).unwrap_or(&[]);
    let mut ran = Ran {
        alloc,
        replies,
        noted,
        numbers: numbers_of(world),
        place: 0,
    };
    play_rows(rt, alloc, &mut ran, text);
    let place = ran.place;
    assert!(rt; place == replies.len() && place == noted.len());
}

/// The calls of a text, each at its moment. A line that is no call is left out.
pub fn calls_of(alloc: Global, text: &'static str) -> Vec<Call> {
    let mut calls = Vec::new(alloc);
    let mut clock = Clock::new();
    for line in text.trim().lines() {
        for row in line.trim().split("; ") {
            add_call(alloc, asked_of(row), &mut clock, &mut calls);
        }
    }
    calls
}

/// Adds the call of a row, if it has one. A row with a time sets the clock.
pub fn add_call(alloc: Global, asked: &'static str, clock: &mut Clock, calls: &mut Vec<Call>) {
    match line_of(asked) {
        Line::Call => {
            if let Some(call) = call_of(alloc, asked, clock.next()) {
                let _is_there = calls.push(call).is_ok();
            }
        }
        Line::At(seconds) => clock.set(seconds),
        Line::Stat => {}
    }
}

// The replies of a run with the entries that it made, and the numbers of the world after it.
#[derive(Drop)]
struct Ran<'a> {
    alloc: Global,
    replies: &'a [Reply],
    noted: &'a [Entry],
    numbers: Numbers,
    place: usize,
}

impl Desk for Ran<'_> {
    fn tell(&mut self, call: &'static str, told: &mut Told) {
        match line_of(call) {
            Line::Call => {
                let place = self.place;
                self.place = place.saturating_add(1);
                tell_noted(
                    self.alloc,
                    self.replies.get(place),
                    self.noted.get(place),
                    told,
                );
            }
            Line::At(_) => told.say("Done"),
            Line::Stat => tell_numbers(self.numbers, told),
        }
    }
}

// Tells a reply, and whether the history has another one.
fn tell_noted(alloc: Global, reply: Option<&Reply>, noted: Option<&Entry>, told: &mut Told) {
    let Some(reply) = reply else {
        return told.say("no call");
    };
    told.named(reply);
    let mut other = Told::new(alloc);
    if let Some(entry) = noted {
        other.named(&entry.reply);
    }
    if !other.is(told.as_str()) {
        told.say(", and the history has ");
        told.say(other.as_str());
    }
}

// A world whose calls are made one by one.
#[derive(Drop)]
struct Steps<M: EvictionManager> {
    alloc: Global,
    world: World<M, BySelf>,
    clock: Clock,
    is_bounded: bool,
}

impl<M: EvictionManager> Steps<M> {
    fn play_all(&mut self, rt: &impl Abort, alloc: Global, texts: &[&'static str]) {
        for text in texts {
            self.play(rt, alloc, *text);
        }
    }

    // As `play_rows`, which takes no desk over a manager of any type. Each text has a clock of its own.
    fn play(&mut self, rt: &impl Abort, alloc: Global, text: &'static str) {
        self.clock = Clock::new();
        let mut told = Told::new(alloc);
        let mut number = 0u64;
        for line in text.trim().lines() {
            for row in line.trim().split("; ") {
                number = number.saturating_add(1);
                told.clear();
                self.tell(asked_of(row), &mut told);
                compare(rt, number, row, &told);
            }
        }
    }
}

impl<M: EvictionManager> Desk for Steps<M> {
    fn tell(&mut self, call: &'static str, told: &mut Told) {
        match line_of(call) {
            Line::Call => ask(self, call, told),
            Line::At(seconds) => {
                self.clock.set(seconds);
                told.say("Done");
            }
            Line::Stat => tell_numbers(numbers_of(&self.world), told),
        }
    }
}

// Makes a call. A wrong one changes no number.
fn ask<M: EvictionManager>(steps: &mut Steps<M>, asked: &'static str, told: &mut Told) {
    let before = numbers_of(&steps.world);
    let Some(call) = call_of(steps.alloc, asked, steps.clock.next()) else {
        return told.say("no call");
    };
    let reply = if steps.is_bounded {
        steps.world.bounded_step(call)
    } else {
        steps.world.step(call)
    };
    tell_reply(reply, told);
    if told.is("WrongCall") && numbers_of(&steps.world) != before {
        told.say(", and it changed a number");
    }
}

/// Tells the reply to a call.
pub fn tell_reply(reply: Result<Reply>, told: &mut Told) {
    match reply {
        Ok(reply) => told.named(&reply),
        Err(refused) => told.refused(&refused),
    }
}

// What is stored, what is tracked and what was evicted, with the number of entries at the start.
#[derive(Clone, Copy, PartialEq, Eq)]
struct Numbers {
    stored: u128,
    slots: usize,
    totals: Totals,
    start: usize,
}

fn numbers_of<M: EvictionManager>(world: &World<M, BySelf>) -> Numbers {
    Numbers {
        stored: world.stored_bytes(),
        slots: world.slots(),
        totals: world.totals(),
        start: world.start().len(),
    }
}

fn tell_numbers(numbers: Numbers, told: &mut Told) {
    told.shown(&numbers.stored);
    told.say(" in ");
    told.shown(&numbers.slots);
    told.say(", ");
    told.named(&numbers.totals);
    told.say(", ");
    told.shown(&numbers.start);
    told.say(" before");
}
