//! Puts of a cache in parts: responses that are pushed in, in pieces. A bar stands between two pieces, which are spelled as
//! `unescape` reads them.
ghost use Rattle.pcache_put.specs.Policies.{SaysByDefault};
ghost use Rattle.tests_of_sharing.specs.Lifetimes.{IsOneSecond};

use crate::gates::Gate;
use crate::lifetimes::{by_one_second, one_second};
use crate::play::play;
use crate::requests::{NOW, fill, finds};
use crate::seats::{Lists, ROOM, key_of, lists_within};
use bytes::Bytes;
use pcache_base::error::Result;
use pcache_base::moment::Moment;
use pcache_control::{CacheMetaDefaults, RespCacheable};
use pcache_meta::header::ResponseHeader;
use pcache_put::policy::CachePut;
use pcache_put::report::PutOutcome;
use pcache_shared_cache::{SharedPut, Unnamed};
use std::alloc::Global;
use std::sync::{Arc, Wait};
use std::test::Fail;
use std::thread;
use std::thread::Threads;
use test_rows::{Told, rest, size, unescape, word};

// The limit of each cache.
const LIMIT: usize = 4 * ROOM + 1_024;

const HI: &str = r"HTTP/1.1 200 OK\r\n\r\nh|i";

// A policy that passes a gate, and then goes by defaults under which every status is fresh for a second.
#[derive(Drop)]
struct OneSecond {
    gate: Arc<Gate, Global>,
}

impl CachePut for OneSecond {
    ghost says = { λ p. SaysByDefault (0, 0) IsOneSecond };

    fn cacheable(
        &self,
        alloc: Global,
        header: ResponseHeader,
        now: Moment,
    ) -> Result<RespCacheable> {
        self.gate.pass();
        let defaults = CacheMetaDefaults::new(one_second, 0, 0);
        by_one_second(alloc, header, &defaults, now)
    }
}

type Put = SharedPut<OneSecond, Unnamed, 4>;

// Pushes a response in, whose body may have so many bytes. Its policy passes a gate. A bar stands between two pieces.
fn push_through<R: Wait>(
    rt: &R,
    cache: &Lists,
    gate: &Arc<Gate, Global>,
    name: &str,
    limit: usize,
    pieces: &'static str,
) -> Result<PutOutcome> {
    let policy = OneSecond {
        gate: Arc::try_clone(gate)?,
    };
    let mut put = cache.put(policy, key_of(cache.alloc(), name.as_bytes()));
    put.set_max_file_size_bytes(limit);
    let came = push_in(rt, cache, &mut put, pieces);
    cache.end_put(rt, put);
    came
}

fn push_in<R: Wait>(
    rt: &R,
    cache: &Lists,
    put: &mut Put,
    pieces: &'static str,
) -> Result<PutOutcome> {
    let mut bytes = Vec::new(cache.alloc());
    for piece in pieces.split('|') {
        if unescape(piece, &mut bytes) {
            let piece = Bytes::copy_from_slice(cache.alloc(), bytes.as_slice())?;
            cache.cache_put(rt, put, &piece, NOW)?;
        }
    }
    cache.finish_put(rt, put)
}

// The same with a gate that holds nobody.
fn push<R: Wait>(
    rt: &R,
    cache: &Lists,
    name: &str,
    limit: usize,
    pieces: &'static str,
) -> Result<PutOutcome> {
    let gate = Arc::new(cache.alloc(), Gate::new(0))?;
    push_through(rt, cache, &gate, name, limit, pieces)
}

/// `push NAME LIMIT PIECES`: pushes a response in, and tells how it ended.
pub fn tell<R: Wait>(rt: &R, cache: &Lists, call: &'static str, told: &mut Told) {
    let pieces = rest(rest(rest(call)));
    match push(rt, cache, word(call, 1), size(call, 2), pieces) {
        Ok(PutOutcome::Stored(_report)) => told.say("stored"),
        Ok(PutOutcome::NotCached(reason)) => {
            told.say("not cached: ");
            told.say(reason.as_str());
        }
        Err(refused) => told.refused(&refused),
    }
}

fn is_stored(came: Result<PutOutcome>) -> bool {
    matches!(came, Ok(PutOutcome::Stored(_)))
}

const A_PUSHED_BODY_IS_STORED_AND_FOUND: &str = r"
    0 push a 2 HTTP/1.1 200 OK\r\nContent-Le|ngth: 2\r\n\r\nh|i -> stored
    0 key a
    0 look 0 -> until 1 hit
    0 read -> hi
    0 push b 9 HTTP/1.1 200 OK\r\n\r\n|x -> stored
    0 key b
    0 look 0 -> until 1 hit
    0 read -> x
    0 stored -> 3 in 2";

#[test]
fn a_pushed_body_is_stored_and_found(rt: HostRuntime) {
    play(&rt, rt.alloc(), LIMIT, &[A_PUSHED_BODY_IS_STORED_AND_FOUND]);
}

const WHAT_A_POLICY_DECLINES_IS_NOT_STORED: &str = r"
    0 push a 9 HTTP/1.1 200 OK\r\nCache-Control: no-store\r\n\r\n|hi|there -> not cached: OriginNotCache
    0 stored -> 0 in 0
    0 key a
    0 look 0 -> key permit
    0 fill one 60 -> okokokok";

#[test]
fn what_a_policy_declines_is_not_stored(rt: HostRuntime) {
    play(
        &rt,
        rt.alloc(),
        LIMIT,
        &[WHAT_A_POLICY_DECLINES_IS_NOT_STORED],
    );
}

// One that declares its length is not begun; one that runs past the limit leaves no write behind.
const A_BODY_OVER_ITS_LIMIT_IS_NOT_STORED: &str = r"
    0 push a 1 HTTP/1.1 200 OK\r\nContent-Length: 2\r\n\r\n|hi -> not cached: ResponseTooLarge
    0 push a 1 HTTP/1.1 200 OK\r\n\r\nh|i -> ResponseTooLarge
    0 push a 9 HTTP/1.1 two\r\n\r\n|hi -> InvalidHttpHeader
    0 push a 9 HTTP/1.1 200 OK\r\nContent-Length: 3\r\n\r\n|hi -> IncompleteHttpBody
    0 stored -> 0 in 0
    0 push a 2 HTTP/1.1 200 OK\r\n\r\nh|i -> stored
    0 key a
    0 look 0 -> until 1 hit
    0 read -> hi";

#[test]
fn a_body_over_its_limit_is_not_stored(rt: HostRuntime) {
    play(
        &rt,
        rt.alloc(),
        LIMIT,
        &[A_BODY_OVER_ITS_LIMIT_IS_NOT_STORED],
    );
}

// Each of two threads pushes bodies of its own key in, of another part.
fn push_over_and_over<R: Wait>(rt: &R, cache: &Lists, worker: usize) -> bool {
    let name = if worker == 0 { "a" } else { "b" };
    for _ in 0..50u32 {
        if !is_stored(push(rt, cache, name, 9, HI))
            || !matches!(finds(rt, cache, name, b"hi"), Ok(true))
        {
            return false;
        }
    }
    true
}

fn both_push<R: Threads + Wait + Sync>(rt: &R, alloc: Global) -> Result<bool> {
    let cache = lists_within(alloc, LIMIT)?;
    let mut done = [false; 2];
    thread::for_each_mut(
        rt,
        &mut done,
        2,
        &|worker, done| {
            *done = push_over_and_over(rt, &cache, worker);
        },
    );
    Ok(done == [true; 2] && cache.stored_bytes(rt) == 4 && cache.slots(rt) == 2)
}

#[test]
fn two_threads_push_keys_of_two_parts(rt: HostRuntime) -> std::result::Result<(), Fail> {
    let is_stored = both_push(&rt, rt.alloc())?;
    assert!(rt; is_stored);
    Ok(())
}

// The first worker's policy is held while it decides. The other fills a key of the same part and reads it meanwhile, and only then
// lets the first through.
fn beside_a_policy<R: Wait>(
    rt: &R,
    cache: &Lists,
    gate: &Arc<Gate, Global>,
    worker: usize,
) -> bool {
    if worker == 0 {
        return is_stored(push_through(rt, cache, gate, "a", 9, HI));
    }
    let is_beside = gate.is_reached()
        && matches!(fill(rt, cache, "f", b"one"), Ok(true))
        && matches!(finds(rt, cache, "f", b"one"), Ok(true));
    gate.open();
    is_beside
}

fn goes_on_beside_a_policy<R: Threads + Wait + Sync>(rt: &R, alloc: Global) -> Result<bool> {
    let gate = Arc::new(alloc, Gate::new(1))?;
    let cache = lists_within(alloc, LIMIT)?;
    let mut done = [false; 2];
    thread::for_each_mut(
        rt,
        &mut done,
        2,
        &|worker, done| {
            *done = beside_a_policy(rt, &cache, &gate, worker);
        },
    );
    Ok(done == [true; 2] && !gate.is_late() && matches!(finds(rt, &cache, "a", b"hi"), Ok(true)))
}

#[test]
fn a_part_goes_on_while_a_policy_decides(rt: HostRuntime) -> std::result::Result<(), Fail> {
    let went_on = goes_on_beside_a_policy(&rt, rt.alloc())?;
    assert!(rt; went_on);
    Ok(())
}
