//! A table of locks, call by call: a row names a slot, which holds a permit or a read lock.
use crate::rows::{Desk, Told, number, play, word};
use pcache_base::error::Result;
use pcache_base::fills::{UnusableFill, UnusableFills};
use pcache_base::key::CacheKey;
use pcache_base::moment::Moment;
use pcache_base::poll::Poll;
use pcache_base::reason::NoCacheReason;
use pcache_lock::lock::cache_lock::CacheLock;
use pcache_lock::lock::lock_core::LockCore;
use pcache_lock::lock::outcome::{LockWaitOutcome, WaitOutcome};
use pcache_lock::lock::permit::{LockStub, Locked, ReadLock, WritePermit};
use pcache_lock::lock::status::LockStatus;
use pcache_lock::lock::{CacheKeyLock, CacheKeyLockImpl};
use std::alloc::Global;
use std::process::Abort;
use std::time::Duration;
use test_rows::key_of;

fn at(secs: u64) -> Moment {
    Moment::from_secs(secs)
}

const SEVEN: UnusableFill = UnusableFill {
    token: 7,
    reason: "seven",
};

const NINE: UnusableFill = UnusableFill {
    token: 9,
    reason: "nine",
};

fn seven_and_nine(alloc: Global) -> UnusableFills {
    let mut fills = Vec::new(alloc);
    let _is_whole = fills.push(SEVEN).is_ok() && fills.push(NINE).is_ok();
    UnusableFills::new(fills)
}

// Two keys and the empty one, and the fills that some readers cannot use.
#[derive(Drop)]
struct Parts {
    alloc: Global,
    a: CacheKey,
    b: CacheKey,
    empty: CacheKey,
    fills: UnusableFills,
}

impl Parts {
    fn new(alloc: Global) -> Parts {
        Parts {
            alloc,
            a: key_of(alloc, b"a", "1"),
            b: key_of(alloc, b"b", "1"),
            empty: key_of(alloc, b"", ""),
            fills: seven_and_nine(alloc),
        }
    }

    fn key(&self, name: &str) -> &CacheKey {
        match name {
            "a" => &self.a,
            "b" => &self.b,
            _ => &self.empty,
        }
    }
}

type Slot = Option<Locked>;

// What is held, and the table of locks.
struct Hands {
    lock: Box<CacheLock>,
    parts: Parts,
    one: Slot,
    two: Slot,
    three: Slot,
    four: Slot,
}

impl Hands {
    fn new(lock: Box<CacheLock>, parts: Parts) -> Hands {
        Hands {
            lock,
            parts,
            one: None,
            two: None,
            three: None,
            four: None,
        }
    }

    fn at(&mut self, number: u64) -> (&Parts, &mut CacheLock, &mut Slot) {
        let lock = &mut *self.lock;
        match number {
            1 => (&self.parts, lock, &mut self.one),
            2 => (&self.parts, lock, &mut self.two),
            3 => (&self.parts, lock, &mut self.three),
            _ => (&self.parts, lock, &mut self.four),
        }
    }

    fn end(self) {
        let Hands {
            mut lock,
            parts: _parts,
            one,
            two,
            three,
            four,
        } = self;
        let_go(&mut *lock, one);
        let_go(&mut *lock, two);
        let_go(&mut *lock, three);
        let_go(&mut *lock, four);
    }
}

fn let_go(lock: &mut CacheLock, held: Slot) -> bool {
    match held {
        Some(held) => {
            lock.drop_lock(held);
            true
        }
        None => false,
    }
}

impl Desk for Hands {
    fn tell(&mut self, call: &'static str, told: &mut Told) {
        match word(call, 0) {
            "core" => told.yes_or_no(self.lock.core(number(call, 1)).is_some()),
            "stub" => told.yes_or_no(self.lock.stub(self.parts.key(word(call, 1))).is_some()),
            "makes" => make(self, call, told),
            _ => {
                let (parts, lock, slot) = self.at(number(call, 0));
                tell_of_slot(parts, lock, slot, call, told);
            }
        }
    }
}

fn tell_of_slot(
    parts: &Parts,
    lock: &mut CacheLock,
    slot: &mut Slot,
    call: &'static str,
    told: &mut Told,
) {
    match word(call, 1) {
        "asks" => ask(parts, lock, slot, call, told),
        "drops" => done(let_go(lock, slot.take()), told),
        "releases" => done(release(parts, lock, slot.take(), call), told),
        _ => match slot {
            Some(Locked::Read(read)) => tell_of_read(parts, lock, read, call, told),
            Some(Locked::Write(permit)) => tell_of_permit(parts.alloc, lock, permit, call, told),
            None => told.say("wrong"),
        },
    }
}

fn tell_of_read(
    parts: &Parts,
    lock: &mut CacheLock,
    read: &mut ReadLock,
    call: &'static str,
    told: &mut Told,
) {
    let (alloc, now) = (parts.alloc, at(number(call, 2)));
    match word(call, 1) {
        "polls" => tell_answer(lock.poll_wait(alloc, read, None, now), told),
        "polls-without" => {
            tell_answer(lock.poll_wait(alloc, read, Some(&parts.fills), now), told);
        }
        "waits" => tell_outcome(read.wait(alloc, lock, now), told),
        "waits-without" => {
            let answer = read.wait_unless_published(alloc, lock, &parts.fills, now);
            tell_answer(answer, told);
        }
        "was-polled" => told.yes_or_no(read.was_polled()),
        "is-locked" => told.yes_or_no(read.locked(lock)),
        "is-expired" => told.yes_or_no(read.expired(lock, now)),
        "status" => told.say(lock.lock_status(read, now).as_str()),
        "own-status" => told.say(read.lock_status(lock, now).as_str()),
        _ => told.say("wrong"),
    }
}

fn tell_of_permit(
    alloc: Global,
    lock: &mut CacheLock,
    permit: &mut WritePermit,
    call: &'static str,
    told: &mut Told,
) {
    let text = word(call, 2);
    match word(call, 1) {
        "is-stale" => told.yes_or_no(permit.stale_writer()),
        "own-status" => told.say(permit.lock_status(lock).as_str()),
        "publishes" => told.done(permit.publish(alloc, lock, tokens(text))),
        "tells" => told.done(lock.publish(alloc, permit, tokens(text))),
        "unlocks" => done(unlock(lock, permit, status(text)), told),
        _ => told.say("wrong"),
    }
}

fn done(is_done: bool, told: &mut Told) {
    told.say(if is_done { "ok" } else { "wrong" });
}

fn status(word: &str) -> LockStatus {
    match word {
        "Done" => LockStatus::Done,
        "GiveUp" => LockStatus::GiveUp,
        _ => LockStatus::TransientError,
    }
}

// Asks for a lock of a key, at a second.
fn ask(parts: &Parts, lock: &mut CacheLock, slot: &mut Slot, call: &'static str, told: &mut Told) {
    let key = parts.key(word(call, 2));
    let given = lock.lock(parts.alloc, key, false, at(number(call, 3)));
    keep(lock, slot, given, told);
}

// Keeps what was given, and writes which lock it is.
fn keep(lock: &mut CacheLock, slot: &mut Slot, given: Result<Locked>, told: &mut Told) {
    match given {
        Ok(given) => {
            told.say(if given.is_write() { "permit " } else { "read " });
            told.number(given.number());
            let_go(lock, slot.replace(given));
        }
        Err(refused) => told.refused(&refused),
    }
}

// A permit under no key, held for so many seconds at most, in the first slot, and a read lock on it in the second.
fn make(hands: &mut Hands, call: &'static str, told: &mut Told) {
    let age = Duration::from_secs(number(call, 1));
    let is_stale = word(call, 2) == "stale";
    let made = hands
        .lock
        .new_permit(hands.parts.alloc, age, is_stale, at(0));
    match made {
        Ok((permit, stub)) => {
            told.say("stub ");
            told.number(stub.number());
            keep_both(hands, permit, stub);
        }
        Err(refused) => told.refused(&refused),
    }
}

fn keep_both(hands: &mut Hands, permit: WritePermit, stub: LockStub) {
    let read = stub.read_lock(&mut *hands.lock);
    let_go(&mut *hands.lock, hands.one.replace(Locked::Write(permit)));
    let_go(&mut *hands.lock, hands.two.replace(Locked::Read(read)));
}

// Spends a permit, by a key and with a status. What else was held is let go.
fn release(parts: &Parts, lock: &mut CacheLock, held: Slot, call: &'static str) -> bool {
    let reason = status(word(call, 3));
    match held {
        Some(Locked::Write(permit)) if reason.is_reason() => {
            lock.release(parts.key(word(call, 2)), permit, reason);
            true
        }
        held => {
            let_go(lock, held);
            false
        }
    }
}

fn unlock(lock: &mut CacheLock, permit: &mut WritePermit, reason: LockStatus) -> bool {
    if !reason.is_reason() {
        return false;
    }
    permit.unlock(lock, reason);
    true
}

fn tokens(words: &str) -> &'static [u64] {
    match words {
        "9,7" => &[9, 7],
        "8,9" => &[8, 9],
        _ => &[],
    }
}

fn tell_answer(answer: Result<Poll<WaitOutcome>>, told: &mut Told) {
    match answer {
        Ok(answer) => tell_outcome(answer, told),
        Err(refused) => told.refused(&refused),
    }
}

fn tell_outcome(outcome: Poll<WaitOutcome>, told: &mut Told) {
    match outcome {
        Poll::Pending => told.say("pending"),
        Poll::Ready(WaitOutcome::Released) => told.say("released"),
        Poll::Ready(WaitOutcome::AgeTimeout) => told.say("too old"),
        Poll::Ready(WaitOutcome::Abandoned(fill)) => {
            told.number(fill.token);
            told.say(" ");
            told.say(fill.reason);
        }
    }
}

// Plays rows over a table of locks.
fn run(rt: &impl Abort, alloc: Global, lock: Box<CacheLock>, rows: &'static str) {
    let mut hands = Hands::new(lock, Parts::new(alloc));
    play(rt, alloc, &mut hands, rows);
    hands.end();
}

// Over a new one, whose permits are held for ten seconds at most.
fn run_new(rt: &impl Abort, alloc: Global, rows: &'static str) {
    match CacheLock::new_boxed(alloc, Duration::from_secs(10)) {
        Ok(lock) => run(rt, alloc, lock, rows),
        Err(_refused) => assert!(rt; false),
    }
}

// Over one that has one number left.
fn run_last(rt: &impl Abort, alloc: Global, rows: &'static str) {
    let last = CacheLock::starting_at(alloc, Duration::from_secs(10), 18446744073709551615);
    match Box::new(alloc, last) {
        Ok(lock) => run(rt, alloc, lock, rows),
        Err(_refused) => assert!(rt; false),
    }
}

const SECOND_READS: &str = "
    1 asks a 1 -> permit 0
    2 asks b 1 -> permit 1
    3 asks a 2 -> read 0
    1 is-stale -> no
    3 was-polled -> no
    3 polls 3 -> pending
    3 was-polled -> yes
    3 status 3 -> Waiting
    1 releases a Done
    3 polls 4 -> released
    3 status 4 -> Done
    core 0 -> yes
    3 drops
    2 drops
    # nobody names them any more
    core 0 -> no
    core 1 -> no
    stub b -> no";

#[test]
fn the_second_reads_until_the_first_releases(rt: HostRuntime) {
    run_new(&rt, rt.alloc(), SECOND_READS);
}

const LATE: &str = "
    1 asks a 0 -> permit 0
    2 asks a 1 -> read 0
    2 polls 10 -> too old
    3 asks a 11 -> permit 1
    1 releases empty Done
    2 status 11 -> AgeTimeout
    4 asks a 12 -> read 1
    4 drops
    2 drops
    3 releases empty GiveUp
    core 0 -> no
    core 1 -> no";

#[test]
fn a_late_release_leaves_the_newer_permit(rt: HostRuntime) {
    run_new(&rt, rt.alloc(), LATE);
}

const DROPPED: &str = "
    1 asks a 0 -> permit 0
    2 asks a 1 -> read 0
    1 drops
    2 waits 1 -> released
    2 own-status 1 -> Dangling
    2 is-locked -> no
    2 is-expired 9 -> no
    2 is-expired 10 -> yes
    3 asks a 2 -> permit 1
    2 drops
    3 releases a TransientError";

#[test]
fn a_dropped_permit_dangles(rt: HostRuntime) {
    run_new(&rt, rt.alloc(), DROPPED);
}

const BACK: &str = "
    1 asks a 100 -> permit 0
    2 asks a 1 -> read 0
    2 polls 1 -> pending
    2 polls 109 -> pending
    2 polls 110 -> too old
    # once it is too old it stays so
    2 polls 1 -> too old";

#[test]
fn moments_that_go_back_age_nothing(rt: HostRuntime) {
    run_new(&rt, rt.alloc(), BACK);
}

// The second slot's reader is told by the publication that was current in between, and by the first fill of its list.
const TOLD: &str = "
    1 asks a 0 -> permit 0
    2 asks a 0 -> read 0
    3 asks a 0 -> read 0
    2 polls-without 1 -> pending
    1 publishes 9,7
    1 tells none
    2 polls 1 -> 7 seven
    3 polls-without 1 -> pending
    1 tells 8,9
    3 waits-without 2 -> 9 nine
    1 releases a Done
    2 polls 1 -> released";

#[test]
fn a_reader_is_told_what_it_cannot_use(rt: HostRuntime) {
    run_new(&rt, rt.alloc(), TOLD);
}

const LAST: &str = "
    1 asks a 0 -> permit 18446744073709551615
    2 asks a 0 -> read 18446744073709551615
    3 asks b 0 -> NumbersExhausted
    stub b -> no
    2 drops
    1 releases a Done
    makes 1 fresh -> NumbersExhausted";

#[test]
fn the_last_number_is_given_once(rt: HostRuntime) {
    run_last(&rt, rt.alloc(), LAST);
}

const UNDER_NO_KEY: &str = "
    makes 2 stale -> stub 0
    1 is-stale -> yes
    2 is-locked -> yes
    2 waits 1 -> pending
    1 unlocks GiveUp
    1 own-status 0 -> GiveUp
    2 waits 1 -> released
    1 drops
    2 status 1 -> GiveUp";

#[test]
fn a_permit_under_no_key(rt: HostRuntime) {
    run_new(&rt, rt.alloc(), UNDER_NO_KEY);
}

fn is_begun(core: &LockCore) -> bool {
    core.locked()
        && core.stale_writer()
        && core.lock_status() == LockStatus::Waiting
        && core.lock_start() == at(5)
        && core.age_timeout().as_secs() == 3
}

fn ends_once(core: &mut LockCore) -> bool {
    core.unlock(LockStatus::Done);
    !core.locked() && core.lock_status() == LockStatus::Done
}

fn is_core(alloc: Global) -> bool {
    let mut core = LockCore::new(alloc, Duration::from_secs(3), true, at(5));
    is_begun(&core) && ends_once(&mut core)
}

#[test]
fn a_core_by_itself(rt: HostRuntime) {
    assert!(rt; is_core(rt.alloc()));
}

fn have_numbers() -> bool {
    u8::from(LockStatus::Waiting) == 0
        && u8::from(LockStatus::Done) == 1
        && u8::from(LockStatus::TransientError) == 2
        && u8::from(LockStatus::GiveUp) == 3
        && u8::from(LockStatus::Dangling) == 4
        && u8::from(LockStatus::WaitTimeout) == 5
        && u8::from(LockStatus::AgeTimeout) == 6
}

fn are_of_numbers() -> bool {
    LockStatus::from(4u8) == LockStatus::Dangling
        && LockStatus::from(200u8) == LockStatus::GiveUp
        && LockStatus::from_repr(6) == Some(LockStatus::AgeTimeout)
        && LockStatus::from_repr(7).is_none()
}

fn have_names_and_kinds() -> bool {
    LockStatus::TransientError.as_str() == "TransientError"
        && LockStatus::GiveUp.is_reason()
        && !LockStatus::WaitTimeout.is_reason()
        && LockStatus::AgeTimeout.is_free()
        && !LockStatus::Done.is_free()
}

#[test]
fn statuses_have_numbers_and_names(rt: HostRuntime) {
    assert!(rt; have_numbers() && are_of_numbers() && have_names_and_kinds());
}

fn have_statuses() -> bool {
    let abandoned = LockWaitOutcome::Abandoned {
        reason: NoCacheReason::Custom("late"),
        token: 3,
    };
    abandoned.lock_status() == LockStatus::GiveUp
        && LockWaitOutcome::WaitTimeout.lock_status() == LockStatus::WaitTimeout
        && LockWaitOutcome::Done.lock_status() == LockStatus::Done
}

#[test]
fn outcomes_have_statuses(rt: HostRuntime) {
    assert!(rt; have_statuses());
}

fn is_first_permit(lock: &mut CacheKeyLockImpl, given: Result<Locked>) -> bool {
    match given {
        Ok(given) => {
            let is_first = given.is_write() && given.number() == 0;
            lock.drop_lock(given);
            is_first
        }
        Err(_refused) => false,
    }
}

fn gives_a_permit(alloc: Global, lock: &mut CacheKeyLockImpl, key: &CacheKey) -> bool {
    let given = lock.lock(alloc, key, true, at(0));
    is_first_permit(lock, given) && lock.custom_lock_status("mine") == LockStatus::GiveUp
}

fn is_good_in_a_box(alloc: Global, key: &CacheKey) -> bool {
    match Box::new(alloc, CacheLock::new(alloc, Duration::from_secs(10))) {
        Ok(boxed) => {
            let mut lock: CacheKeyLockImpl = boxed;
            gives_a_permit(alloc, &mut lock, key)
        }
        Err(_refused) => false,
    }
}

#[test]
fn in_a_box_of_any_kind(rt: HostRuntime) {
    let key = key_of(rt.alloc(), b"a", "1");
    assert!(rt; is_good_in_a_box(rt.alloc(), &key));
}
