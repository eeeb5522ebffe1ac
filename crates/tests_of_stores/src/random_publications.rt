//! Random publications, against a plain look at each of them in turn.
use pcache_base::fills::{UnusableFill, UnusableFills};
use pcache_base::key::CacheKey;
use pcache_base::moment::Moment;
use pcache_base::poll::Poll;
use pcache_lock::lock::CacheKeyLock;
use pcache_lock::lock::cache_lock::CacheLock;
use pcache_lock::lock::outcome::WaitOutcome;
use pcache_lock::lock::permit::{Locked, ReadLock, WritePermit};
use rand::rngs::StdRng;
use rand::{RngExt, SeedableRng};
use std::alloc::Global;
use std::time::Duration;
use test_rows::key_of;

// A few tokens of few, so that they come again, also in one publication. If memory runs out, there are fewer.
fn some_tokens(alloc: Global, rng: &mut StdRng) -> Vec<u64> {
    let count: usize = rng.random_range(0..4);
    let mut tokens = Vec::new(alloc);
    for _ in 0..count {
        let token: u64 = rng.random_range(0..40);
        let _is_whole = tokens.push(token).is_ok();
    }
    tokens
}

fn some_fills(alloc: Global, rng: &mut StdRng) -> UnusableFills {
    let tokens = some_tokens(alloc, rng);
    let mut fills = Vec::new(alloc);
    for token in tokens.as_slice() {
        let fill = UnusableFill {
            token: *token,
            reason: "of no use",
        };
        let _is_whole = fills.push(fill).is_ok();
    }
    UnusableFills::new(fills)
}

// The first publication's match, looked for in each in turn.
fn told_plainly(
    published: &[Vec<u64>],
    from: usize,
    fills: &UnusableFills,
) -> Option<UnusableFill> {
    for tokens in published.iter().skip(from) {
        if let Some(fill) = fills.first_match(tokens.as_slice()) {
            return Some(fill);
        }
    }
    None
}

fn says(answer: Poll<WaitOutcome>, told: Option<UnusableFill>) -> bool {
    match told {
        Some(fill) => answer == Poll::Ready(WaitOutcome::Abandoned(fill)),
        None => answer == Poll::Pending,
    }
}

fn publish(
    alloc: Global,
    lock: &mut CacheLock,
    permit: &WritePermit,
    published: &mut Vec<Vec<u64>>,
    rng: &mut StdRng,
) -> bool {
    let tokens = some_tokens(alloc, rng);
    permit.publish(alloc, lock, tokens.as_slice()).is_ok() && published.push(tokens).is_ok()
}

// A reader polls, and is told, between publications, what a plain search finds from its first poll
// on.
fn follows(
    alloc: Global,
    lock: &mut CacheLock,
    permit: &WritePermit,
    read: &mut ReadLock,
    published: &mut Vec<Vec<u64>>,
    rng: &mut StdRng,
) -> bool {
    let fills = some_fills(alloc, rng);
    let from = published.len().saturating_sub(1);
    let mut agrees = true;
    for _ in 0..5 {
        let told = told_plainly(published.as_slice(), from, &fills);
        agrees &= is_told(alloc, lock, read, &fills, told);
        for _ in 0..3 {
            agrees &= publish(alloc, lock, permit, published, rng);
        }
    }
    agrees
}

fn is_told(
    alloc: Global,
    lock: &mut CacheLock,
    read: &mut ReadLock,
    fills: &UnusableFills,
    told: Option<UnusableFill>,
) -> bool {
    match read.wait_unless_published(alloc, lock, fills, Moment::EPOCH) {
        Ok(answer) => says(answer, told),
        Err(_refused) => false,
    }
}

// One more reader is made and ended.
fn a_reader_agrees(
    alloc: Global,
    lock: &mut CacheLock,
    key: &CacheKey,
    permit: &WritePermit,
    published: &mut Vec<Vec<u64>>,
    rng: &mut StdRng,
) -> bool {
    match lock.lock(alloc, key, false, Moment::EPOCH) {
        Ok(Locked::Read(mut read)) => {
            let agrees = follows(alloc, lock, permit, &mut read, published, rng);
            lock.drop_lock(Locked::Read(read));
            agrees
        }
        Ok(given) => {
            lock.drop_lock(given);
            false
        }
        Err(_refused) => false,
    }
}

fn readers_agree(
    alloc: Global,
    lock: &mut CacheLock,
    key: &CacheKey,
    permit: &WritePermit,
    rng: &mut StdRng,
) -> bool {
    let mut published = Vec::new(alloc);
    let mut agrees = true;
    for _ in 0..60 {
        agrees &= a_reader_agrees(alloc, lock, key, permit, &mut published, rng);
    }
    agrees
}

// First the last publication alone is kept from one reader to the next, and then another read lock keeps all of them.
fn both_agree(
    alloc: Global,
    lock: &mut CacheLock,
    key: &CacheKey,
    permit: &WritePermit,
    rng: &mut StdRng,
) -> bool {
    let alone = readers_agree(alloc, lock, key, permit, rng);
    match lock.lock(alloc, key, false, Moment::EPOCH) {
        Ok(kept) => {
            let beside = readers_agree(alloc, lock, key, permit, rng);
            lock.drop_lock(kept);
            alone && beside
        }
        Err(_refused) => false,
    }
}

fn agree_under_a_permit(
    alloc: Global,
    lock: &mut CacheLock,
    key: &CacheKey,
    rng: &mut StdRng,
) -> bool {
    match lock.lock(alloc, key, false, Moment::EPOCH) {
        Ok(Locked::Write(permit)) => {
            let agrees = both_agree(alloc, lock, key, &permit, rng);
            lock.drop_lock(Locked::Write(permit));
            agrees
        }
        Ok(given) => {
            lock.drop_lock(given);
            false
        }
        Err(_refused) => false,
    }
}

fn agree(alloc: Global, key: &CacheKey) -> bool {
    let mut rng = StdRng::seed_from_u64(44);
    let mut lock = CacheLock::new(alloc, Duration::from_secs(10));
    agree_under_a_permit(alloc, &mut lock, key, &mut rng)
}

#[test]
fn readers_are_told_what_a_plain_look_finds(rt: HostRuntime) {
    let key = key_of(rt.alloc(), b"\x01", "");
    assert!(rt; agree(rt.alloc(), &key));
}
