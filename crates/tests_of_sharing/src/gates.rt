//! A part whose lock is held while others are called.
ghost use Rattle.std.specs.Prelude.{◌≡◌, IsSome};
ghost use Rattle.pcache_request.specs.declared.phase.CachePhase.TheVariants.{CacheKey};

use crate::requests::{NOW, fill, finds};
use crate::seats::{Parts, ROOM, Request, request_for};
use bytes::Bytes;
use pcache_base::error::Result;
use pcache_base::moment::Moment;
use pcache_base::poll::Poll;
use pcache_base::seed::Seed;
use pcache_evict::eviction::simple_lru::Manager;
use pcache_evict::eviction::{CacheEntryKey, EvictionManager, EvictionPolicy};
use pcache_request::HitStatus;
use pcache_shared_cache::{Portion, SharedCache};
use std::alloc::{AllocError, Global};
use std::sync::atomic::{AtomicU64, Ordering};
use std::sync::{Arc, Wait};
use std::test::Fail;
use std::thread;
use std::thread::Threads;
use std::time::Duration;

// How often a worker looks before it gives up.
const TURNS: u64 = 1_000_000;

/// Holds the first who comes, until it was opened so often or for so many turns.
#[derive(Drop)]
pub struct Gate {
    wanted: u64,
    is_held: AtomicU64,
    opened: AtomicU64,
    is_late: AtomicU64,
}

impl Gate {
    /// A gate that lets the first who comes through once it was opened so often.
    pub fn new(wanted: u64) -> Gate {
        Gate {
            wanted,
            is_held: AtomicU64::new(0),
            opened: AtomicU64::new(0),
            is_late: AtomicU64::new(0),
        }
    }

    /// Holds the first who comes. Nobody else is held.
    pub fn pass(&self) {
        if self.is_held.swap(1, Ordering::SeqCst) == 1 {
            return;
        }
        if !reaches(&self.opened, self.wanted) {
            self.is_late.store(1, Ordering::SeqCst);
        }
    }

    /// Opens it once.
    pub fn open(&self) {
        self.opened.fetch_add(1, Ordering::SeqCst);
    }

    /// Shuts it: the next who comes is held.
    pub fn shut(&self) {
        self.opened.store(0, Ordering::SeqCst);
        self.is_held.store(0, Ordering::SeqCst);
    }

    /// Waits until somebody is held. Answers whether somebody was, within so many turns.
    pub fn is_reached(&self) -> bool {
        reaches(&self.is_held, 1)
    }

    /// Whether whoever was held gave up.
    pub fn is_late(&self) -> bool {
        self.is_late.load(Ordering::SeqCst) == 1
    }
}

// Whether a number comes to be at least so much, within so many turns.
fn reaches(number: &AtomicU64, wanted: u64) -> bool {
    for _ in 0..TURNS {
        if number.load(Ordering::SeqCst) >= wanted {
            return true;
        }
        thread::yield_now();
    }
    false
}

/// A list whose first admission passes a gate. A manager is called under the lock of its part.
#[derive(Drop)]
pub struct Gated<M: EvictionManager> {
    list: M,
    gate: Arc<Gate, Global>,
}

impl<M: EvictionManager> EvictionManager for Gated<M> {
    ghost tracked = { λ g. M.tracked g.list };

    ghost limits = { λ g. M.limits g.list };

    ghost evicted = { λ g. M.evicted g.list };

    ghost rules = { λ g. M.rules g.list };

    ghost shown = { λ g. M.shown g.list };

    fn total_size(&self) -> usize {
        self.list.total_size()
    }

    fn total_items(&self) -> usize {
        self.list.total_items()
    }

    fn evicted_size(&self) -> usize {
        self.list.evicted_size()
    }

    fn evicted_items(&self) -> usize {
        self.list.evicted_items()
    }

    fn entries(&self) -> Result<Vec<(CacheEntryKey, usize)>, AllocError> {
        self.list.entries()
    }

    fn admit(
        &mut self,
        item: CacheEntryKey,
        size: usize,
        fresh_until: Moment,
    ) -> Result<Vec<CacheEntryKey>, AllocError> {
        self.gate.pass();
        self.list.admit(item, size, fresh_until)
    }

    fn increment_weight(
        &mut self,
        item: &CacheEntryKey,
        delta: usize,
        max_weight: Option<usize>,
    ) -> Result<Vec<CacheEntryKey>, AllocError> {
        self.list.increment_weight(item, delta, max_weight)
    }

    fn remove(&mut self, item: &CacheEntryKey) {
        self.list.remove(item);
    }

    fn access(
        &mut self,
        item: &CacheEntryKey,
        size: usize,
        fresh_until: Moment,
    ) -> Result<bool, AllocError> {
        self.list.access(item, size, fresh_until)
    }

    fn peek(&self, item: &CacheEntryKey) -> bool {
        self.list.peek(item)
    }
}

// A portion with room for an entry with four bytes, whose first admission passes the gate.
fn portion_of(alloc: Global, gate: &Arc<Gate, Global>) -> Result<Portion<Gated<Manager>>> {
    let limit = ROOM + 4;
    let list = Manager::new(alloc, Seed::fixed(), limit)?;
    let gate = Arc::try_clone(gate)?;
    Ok(Portion::new(Gated { list, gate }, EvictionPolicy::Lru, limit, None))
}

fn parts_of(alloc: Global, gate: &Arc<Gate, Global>) -> Result<Parts<Gated<Manager>>> {
    let portions = [
        portion_of(alloc, gate)?,
        portion_of(alloc, gate)?,
        portion_of(alloc, gate)?,
        portion_of(alloc, gate)?,
    ];
    let portions = Vec::from_array(alloc, portions)?;
    SharedCache::new(alloc, Seed::fixed(), portions, Duration::from_secs(10))
}

// The first worker fills a key, and is held under the lock of its part. The others fill keys of other parts and read them
// meanwhile, and only then is the first let through.
fn work<R: Wait>(rt: &R, cache: &Parts<Gated<Manager>>, gate: &Gate, worker: usize) -> bool {
    match worker {
        0 => matches!(fill(rt, cache, "a", b"one"), Ok(true)),
        1 => beside(rt, cache, gate, "b"),
        _ => beside(rt, cache, gate, "c"),
    }
}

fn beside<R: Wait>(rt: &R, cache: &Parts<Gated<Manager>>, gate: &Gate, name: &str) -> bool {
    let is_beside = gate.is_reached()
        && matches!(fill(rt, cache, name, b"two"), Ok(true))
        && matches!(finds(rt, cache, name, b"two"), Ok(true));
    gate.open();
    is_beside
}

fn all_work<R: Threads + Wait + Sync>(rt: &R, alloc: Global) -> Result<bool> {
    let gate = Arc::new(alloc, Gate::new(2))?;
    let cache = parts_of(alloc, &gate)?;
    let mut done = [false; 3];
    thread::for_each_mut(
        rt,
        &mut done,
        3,
        &|worker, done| {
            *done = work(rt, &cache, &gate, worker);
        },
    );
    Ok(done == [true; 3] && !gate.is_late() && matches!(finds(rt, &cache, "a", b"one"), Ok(true)))
}

#[test]
fn keys_of_other_parts_go_on_while_a_part_is_held(
    rt: HostRuntime,
) -> std::result::Result<(), Fail> {
    let went_on = all_work(&rt, rt.alloc())?;
    assert!(rt; went_on);
    Ok(())
}

type GatedParts = Parts<Gated<Manager>>;

// Reads to the end, and ends the reader.
fn reads_on<R: Wait>(rt: &R, cache: &GatedParts, request: &mut Request) -> Result<bool>
    requires { IsSome request.old.cache.reader }
{
    let body = cache.read_body(rt, request)?;
    if !request.cache().has_body_reader() {
        return Ok(false);
    }
    let end = cache.read_body(rt, request)?;
    if !request.cache().phase().may_finish_hit() {
        return Ok(false);
    }
    cache.finish_hit_handler(rt, request)?;
    Ok(brings(&body, b"one") && matches!(&end, Poll::Ready(None)))
}

// Whether a read gave these bytes.
fn brings(read: &Poll<Option<Bytes>>, wanted: &[u8]) -> bool {
    match read {
        Poll::Ready(Some(bytes)) => bytes.as_slice() == wanted,
        _ => false,
    }
}

// Finds the body, and reads it once the part is held.
fn reads_beside<R: Wait>(
    rt: &R,
    cache: &GatedParts,
    gate: &Gate,
    found: &Gate,
    request: &mut Request,
) -> Result<bool>
    requires { request.old.cache.phase ≡ CacheKey }
{
    let Some((meta, hit)) = cache.cache_lookup(rt, request, NOW)? else {
        return Ok(false);
    };
    cache.cache_found(rt, request, meta, hit, HitStatus::Fresh, NOW)?;
    found.open();
    if !gate.is_reached() || !request.cache().has_body_reader() {
        return Ok(false);
    }
    reads_on(rt, cache, request)
}

fn ends_beside<R: Wait>(rt: &R, cache: &GatedParts, gate: &Gate, found: &Gate) -> Result<bool> {
    let mut request = request_for(cache, b"a");
    let read = reads_beside(rt, cache, gate, found, &mut request);
    cache.end(rt, request);
    read
}

// The first worker fills another key of the part once the body was found, and is held under the lock of the part. The other reads
// the body and ends its request meanwhile, and only then lets the first through.
fn work_without<R: Wait>(
    rt: &R,
    cache: &GatedParts,
    gate: &Gate,
    found: &Gate,
    worker: usize,
) -> bool {
    if worker == 0 {
        found.pass();
        return matches!(fill(rt, cache, "f", b"two"), Ok(true));
    }
    let is_beside = matches!(ends_beside(rt, cache, gate, found), Ok(true));
    gate.open();
    is_beside
}

fn goes_on_without_the_part<R: Threads + Wait + Sync>(rt: &R, alloc: Global) -> Result<bool> {
    let gate = Arc::new(alloc, Gate::new(1))?;
    let found = Gate::new(1);
    let cache = parts_of(alloc, &gate)?;
    gate.open();
    let is_filled = matches!(fill(rt, &cache, "a", b"one"), Ok(true));
    gate.shut();
    let mut done = [false; 2];
    thread::for_each_mut(
        rt,
        &mut done,
        2,
        &|worker, done| {
            *done = work_without(rt, &cache, &gate, &found, worker);
        },
    );
    Ok(is_filled && done == [true; 2] && !gate.is_late() && !found.is_late())
}

#[test]
fn a_complete_body_is_read_while_its_part_is_held(
    rt: HostRuntime,
) -> std::result::Result<(), Fail> {
    let went_on = goes_on_without_the_part(&rt, rt.alloc())?;
    assert!(rt; went_on);
    Ok(())
}
