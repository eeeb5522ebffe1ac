//! Random calls, against a plain list of all permits that were ever given.
use pcache_base::key::CacheKey;
use pcache_base::moment::Moment;
use pcache_base::poll::Poll;
use pcache_lock::lock::CacheKeyLock;
use pcache_lock::lock::cache_lock::CacheLock;
use pcache_lock::lock::outcome::WaitOutcome;
use pcache_lock::lock::permit::{Locked, ReadLock, WritePermit};
use pcache_lock::lock::status::LockStatus;
use rand::rngs::StdRng;
use rand::{RngExt, SeedableRng};
use std::alloc::Global;
use std::time::Duration;
use test_rows::key_of;

const AGE: u64 = 40;

// A permit as the list has it: it waits until it is released, let go or found too old.
#[derive(Clone, Copy, Drop)]
struct Given {
    key: u8,
    start: u64,
    held: bool,
    status: LockStatus,
}

#[derive(Drop)]
struct Slow {
    given: Vec<Given>,
}

impl Slow {
    // The permit that a request for the key would wait on: the last one that was asked for under
    // it, if that waits.
    fn waiting(&self, key: u8) -> Option<u64> {
        let mut number = 0u64;
        let mut found = None;
        for given in self.given.as_slice() {
            if given.key == key && given.status == LockStatus::Waiting {
                found = Some(number);
            }
            number = number.saturating_add(1);
        }
        found
    }

    fn end(&mut self, number: u64, status: LockStatus) {
        for (i, given) in self.given.as_mut_slice().iter_mut().enumerate() {
            if i as u64 == number {
                if given.status != LockStatus::AgeTimeout || status == LockStatus::Dangling {
                    given.status = status;
                }
                given.held = false;
            }
        }
    }

    fn poll(&mut self, number: u64, now: u64) -> Poll<WaitOutcome> {
        let mut answer = Poll::Ready(WaitOutcome::Released);
        for (i, given) in self.given.as_mut_slice().iter_mut().enumerate() {
            if i as u64 == number && given.held {
                let elapsed = now.saturating_sub(given.start);
                answer = if given.status == LockStatus::AgeTimeout || elapsed >= AGE {
                    given.status = LockStatus::AgeTimeout;
                    Poll::Ready(WaitOutcome::AgeTimeout)
                } else {
                    Poll::Pending
                };
            }
        }
        answer
    }

    fn status(&self, number: u64) -> LockStatus {
        let mut status = LockStatus::Dangling;
        for (i, given) in self.given.as_slice().iter().enumerate() {
            if i as u64 == number {
                status = given.status;
            }
        }
        status
    }
}

// What the requests of a run hold.
struct Hands {
    permits: Vec<WritePermit>,
    readers: Vec<ReadLock>,
}

impl Hands {
    fn some_permit(&mut self, rng: &mut StdRng) -> Option<WritePermit> {
        let count = self.permits.len();
        if count == 0 {
            return None;
        }
        let i = rng.random_range(0..count);
        Some(self.permits.swap_remove(i))
    }

    fn some_reader(&mut self, rng: &mut StdRng) -> Option<ReadLock> {
        let count = self.readers.len();
        if count == 0 {
            return None;
        }
        let i = rng.random_range(0..count);
        Some(self.readers.swap_remove(i))
    }

    fn keep(&mut self, lock: &mut CacheLock, locked: Locked) {
        match locked {
            Locked::Write(permit) => {
                if let Err(refused) = self.permits.push(permit) {
                    lock.drop_lock(Locked::Write(refused.value));
                }
            }
            Locked::Read(read) => {
                if let Err(refused) = self.readers.push(read) {
                    lock.drop_lock(Locked::Read(refused.value));
                }
            }
        }
    }

    fn end(self, lock: &mut CacheLock) {
        let Hands {
            mut permits,
            mut readers,
        } = self;
        while let Some(permit) = permits.pop() {
            lock.drop_lock(Locked::Write(permit));
        }
        permits.destroy_empty();
        while let Some(read) = readers.pop() {
            lock.drop_lock(Locked::Read(read));
        }
        readers.destroy_empty();
    }
}

fn asked(
    alloc: Global,
    lock: &mut CacheLock,
    slow: &mut Slow,
    hands: &mut Hands,
    keys: &[CacheKey],
    key: u8,
    now: u64,
) -> bool {
    let i = key as usize;
    if i >= keys.len() {
        return false;
    }
    let expected = slow.waiting(key);
    let Ok(locked) = lock.lock(alloc, &keys[i], false, Moment::from_secs(now)) else {
        return false;
    };
    let agrees = match expected {
        Some(number) => !locked.is_write() && locked.number() == number,
        None => locked.is_write() && locked.number() == slow.given.len() as u64,
    };
    let given = Given {
        key,
        start: now,
        held: true,
        status: LockStatus::Waiting,
    };
    let listed = !locked.is_write() || slow.given.push(given).is_ok();
    hands.keep(lock, locked);
    agrees && listed
}

fn polled(
    alloc: Global,
    lock: &mut CacheLock,
    slow: &mut Slow,
    read: &mut ReadLock,
    now: u64,
) -> bool {
    let expected = slow.poll(read.number(), now);
    let answer = read.wait(alloc, lock, Moment::from_secs(now));
    let status = slow.status(read.number());
    answer == expected
        && (answer == Poll::Pending || lock.lock_status(read, Moment::from_secs(now)) == status)
}

fn step(
    alloc: Global,
    lock: &mut CacheLock,
    slow: &mut Slow,
    hands: &mut Hands,
    keys: &[CacheKey],
    rng: &mut StdRng,
    now: u64,
) -> bool {
    let call: u32 = rng.random_range(0..10);
    let key: u8 = rng.random_range(0..8);
    match call {
        0..=3 => asked(alloc, lock, slow, hands, keys, key, now),
        4 | 5 => released(lock, slow, hands.some_permit(rng), keys),
        6 => dropped(lock, slow, hands.some_permit(rng)),
        _ => followed(alloc, lock, slow, hands, rng, now, call > 7),
    }
}

fn released(
    lock: &mut CacheLock,
    slow: &mut Slow,
    permit: Option<WritePermit>,
    keys: &[CacheKey],
) -> bool {
    match permit {
        Some(permit) => {
            slow.end(permit.number(), LockStatus::Done);
            release(lock, permit, keys.first())
        }
        None => true,
    }
}

fn release(lock: &mut CacheLock, permit: WritePermit, first: Option<&CacheKey>) -> bool {
    match first {
        Some(first) => {
            lock.release(first, permit, LockStatus::Done);
            true
        }
        None => {
            lock.drop_lock(Locked::Write(permit));
            false
        }
    }
}

fn dropped(lock: &mut CacheLock, slow: &mut Slow, permit: Option<WritePermit>) -> bool {
    if let Some(permit) = permit {
        slow.end(permit.number(), LockStatus::Dangling);
        lock.drop_lock(Locked::Write(permit));
    }
    true
}

// A reader polls, and is kept or let go.
fn followed(
    alloc: Global,
    lock: &mut CacheLock,
    slow: &mut Slow,
    hands: &mut Hands,
    rng: &mut StdRng,
    now: u64,
    keeps: bool,
) -> bool {
    match hands.some_reader(rng) {
        Some(read) => {
            let mut read = read;
            let agrees = polled(alloc, lock, slow, &mut read, now);
            if keeps {
                hands.keep(lock, Locked::Read(read));
            } else {
                lock.drop_lock(Locked::Read(read));
            }
            agrees
        }
        None => true,
    }
}

// Makes 4,000 calls on both, and returns how many disagreed.
fn disagreements(
    alloc: Global,
    lock: &mut CacheLock,
    slow: &mut Slow,
    hands: &mut Hands,
    keys: &[CacheKey],
) -> u32 {
    let mut rng = StdRng::seed_from_u64(20);
    let mut count = 0u32;
    let mut now = 100u64;
    for _ in 0..4000 {
        let later: u64 = rng.random_range(0..6);
        now = now.saturating_add(later);
        if !step(alloc, lock, slow, hands, keys, &mut rng, now) {
            count = count.saturating_add(1);
        }
    }
    count
}

fn agree(alloc: Global, keys: &[CacheKey]) -> bool {
    let mut slow = Slow {
        given: Vec::new(alloc),
    };
    let mut lock = CacheLock::new(alloc, Duration::from_secs(AGE));
    let mut hands = Hands {
        permits: Vec::new(alloc),
        readers: Vec::new(alloc),
    };
    let count = disagreements(alloc, &mut lock, &mut slow, &mut hands, keys);
    hands.end(&mut lock);
    count == 0 && slow.given.len() > 400
}

// Eight keys, or fewer if memory runs out.
fn eight_keys(alloc: Global) -> Vec<CacheKey> {
    let mut keys = Vec::new(alloc);
    for name in 0..8u8 {
        let _is_whole = keys.push(key_of(alloc, [name].as_slice(), "")).is_ok();
    }
    keys
}

#[test]
fn random_calls_agree_with_a_plain_list(rt: HostRuntime) {
    let keys = eight_keys(rt.alloc());
    assert!(rt; agree(rt.alloc(), keys.as_slice()));
}
