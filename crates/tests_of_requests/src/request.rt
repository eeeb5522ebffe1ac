//! Requests over a store, a manager and a lock table, call by call: a row names a request, its call, and the result.
use crate::rows::{Desk, Told, number, play, word};
use http::StatusCode;
use pcache_base::error::Result;
use pcache_base::fills::{UnusableFill, UnusableFills};
use pcache_base::key::CacheKey;
use pcache_base::moment::Moment;
use pcache_base::reason::NoCacheReason;
use pcache_base::seed::Seed;
use pcache_evict::eviction::simple_lru::Manager;
use pcache_lock::lock::CacheLock;
use pcache_meta::header::ResponseHeader;
use pcache_meta::meta::CacheMeta;
use pcache_predict::admission::{AdmissionPolicy, Decision};
use pcache_predict::predictor::Predictor;
use pcache_request::cache::*;
use pcache_request::phase::*;
use pcache_store::memory::MemCache;
use std::alloc::Global;
use std::process::Abort;
use std::time::Duration;

mod asks;
mod calls;
mod choices;
mod lookups;
mod phases;
mod variants;
mod waits;

type Request = HttpCache<MemCache>;

const ALL_BUT_THE_PREDICTOR: InUse = InUse {
    eviction: true,
    predictor: false,
    lock: true,
};

const WITH_PREDICTOR: InUse = InUse {
    eviction: true,
    predictor: true,
    lock: true,
};

// Decides to store what is asked for the second time.
#[derive(Drop)]
struct SecondTime {
    observed: u32,
}

impl AdmissionPolicy for SecondTime {
    fn observe(&mut self, _key: &CacheKey) -> Decision {
        self.observed = self.observed.saturating_add(1);
        let observed = self.observed;
        if observed < 2 {
            Decision::Defer { observed }
        } else {
            Decision::Ready { observed }
        }
    }
}

// The parts that requests borrow, and the current second.
#[derive(Drop)]
struct Parts {
    alloc: Global,
    store: MemCache,
    manager: Manager,
    lock: CacheLock,
    predictor: Predictor<1>,
    policy: SecondTime,
    now: Moment,
}

impl Parts {
    fn new(alloc: Global) -> Result<Parts> {
        Ok(Parts {
            alloc,
            store: MemCache::new(alloc, Seed::fixed()),
            manager: Manager::new(alloc, Seed::fixed(), 9)?,
            lock: CacheLock::new(alloc, Duration::from_secs(10)),
            predictor: Predictor::new(alloc, Seed::fixed(), 3, None)?,
            policy: SecondTime { observed: 0 },
            now: Moment::EPOCH,
        })
    }
}

// Five requests by their numbers, over their parts.
struct Room {
    parts: Parts,
    one: Request,
    two: Request,
    three: Request,
    four: Request,
    five: Request,
}

impl Room {
    fn new(parts: Parts) -> Room {
        let alloc = parts.alloc;
        Room {
            parts,
            one: HttpCache::new(alloc),
            two: HttpCache::new(alloc),
            three: HttpCache::new(alloc),
            four: HttpCache::new(alloc),
            five: HttpCache::new(alloc),
        }
    }

    fn end(self) {
        let Room {
            mut parts,
            one,
            two,
            three,
            four,
            five,
        } = self;
        end_one(&mut parts, one);
        end_one(&mut parts, two);
        end_one(&mut parts, three);
        end_one(&mut parts, four);
        end_one(&mut parts, five);
    }

    // The parts, and a request by its number.
    fn at(&mut self, number: u64) -> (&mut Parts, &mut Request) {
        let parts = &mut self.parts;
        match number {
            1 => (parts, &mut self.one),
            2 => (parts, &mut self.two),
            3 => (parts, &mut self.three),
            4 => (parts, &mut self.four),
            _ => (parts, &mut self.five),
        }
    }
}

fn end_one(parts: &mut Parts, request: Request) {
    let _let_go = request.end(&mut parts.store, &mut parts.lock);
}

// The result of a call: a word, and perhaps a number.
#[derive(Clone, Copy)]
struct Said {
    word: &'static str,
    number: Option<u64>,
}

fn word_of(word: &'static str) -> Said {
    Said { word, number: None }
}

fn counted(word: &'static str, number: u64) -> Said {
    Said {
        word,
        number: Some(number),
    }
}

fn made(may: bool) -> Said {
    word_of(if may { "ok" } else { "wrong" })
}

fn tell_said(said: Result<Said>, told: &mut Told) {
    match said {
        Ok(said) => {
            told.say(said.word);
            if let Some(number) = said.number {
                told.say(" ");
                told.number(number);
            }
        }
        Err(refused) => told.refused(&refused),
    }
}

impl Desk for Room {
    fn tell(&mut self, call: &'static str, told: &mut Told) {
        match word(call, 1) {
            "second" => {
                self.parts.now = Moment::from_secs(number(call, 0));
                told.say("ok");
            }
            "gives" => tell_said(
                Ok(calls::give(self, number(call, 0), number(call, 2))),
                told,
            ),
            "renews" => tell_said(calls::renew_between(self, call), told),
            _ => {
                let (parts, cache) = self.at(number(call, 0));
                tell_of(parts, cache, call, told);
            }
        }
    }
}

// What the getters of a request return, or the result of a call that it makes.
fn tell_of(parts: &mut Parts, cache: &mut Request, call: &'static str, told: &mut Told) {
    if !asks::tell(parts, cache, call, told) {
        tell_said(make(parts, cache, call), told);
    }
}

// Makes a call of one request.
fn make(parts: &mut Parts, cache: &mut Request, call: &'static str) -> Result<Said> {
    match lookups::make(parts, cache, call)? {
        Some(said) => Ok(said),
        None => calls::make(parts, cache, call),
    }
}

fn reason(word: &'static str) -> NoCacheReason {
    match word {
        "NeverEnabled" => NoCacheReason::NeverEnabled,
        "StorageError" => NoCacheReason::StorageError,
        "OriginNotCache" => NoCacheReason::OriginNotCache,
        "CacheLockTimeout" => NoCacheReason::CacheLockTimeout,
        "ResponseTooLarge" => NoCacheReason::ResponseTooLarge,
        _ => NoCacheReason::InternalError,
    }
}

// The key of all requests, with a variance of sixteen times one byte, which cannot use the fill of a token.
fn key_with(alloc: Global, variance: Option<u8>, token: Option<u64>) -> Result<CacheKey> {
    let primary = b"k".to_vec(alloc)?;
    let mut key = CacheKey::new(primary, String::from_str(alloc, "1")?);
    if let Some(byte) = variance {
        key.set_variance_key([byte; 16]);
    }
    if let Some(token) = token {
        key.unusable = Some(too_large(alloc, token)?);
    }
    Ok(key)
}

fn too_large(alloc: Global, token: u64) -> Result<UnusableFills> {
    let fill = UnusableFill {
        token,
        reason: "too large",
    };
    Ok(UnusableFills::new(vec![in alloc; fill]?))
}

// Of a response that was made now.
fn meta_until(parts: &Parts, fresh_until: u64) -> CacheMeta {
    let header = ResponseHeader::build(parts.alloc, StatusCode::OK);
    CacheMeta::new(Moment::from_secs(fresh_until), parts.now, 0, 0, header)
}

// Plays rows; those after an empty line are played over parts of their own.
fn run(rt: &impl Abort, alloc: Global, rows: &'static str) {
    for section in rows.split("\n\n") {
        run_section(rt, alloc, section);
    }
}

fn run_section(rt: &impl Abort, alloc: Global, rows: &'static str) {
    match Parts::new(alloc) {
        Ok(parts) => {
            let mut room = Room::new(parts);
            play(rt, alloc, &mut room, rows);
            room.end();
        }
        Err(_refused) => assert!(rt; false),
    }
}

const STORED_READ_AND_PURGED: &str = "
    1 is disabled -> yes
    1 has key -> no
    1 enable
    1 word -> uninitialized
    1 uses -> InUse { eviction: true, predictor: false, lock: true }
    1 may take-key -> yes
    1 key
    1 has named-key -> yes
    1 may look-up -> yes
    1 held -> none
    1 look -> none
    1 held -> permit
    1 may miss -> yes
    1 miss
    1 may take-meta -> yes
    1 may write -> no
    1 meta 60
    1 times -> 60 0 0 0
    1 may write -> yes
    1 has miss-reader -> no
    1 begin
    1 has writer -> yes
    1 held -> none
    1 has reader -> yes
    1 is filling -> yes
    1 write ab
    1 reread -> data ab
    1 whole -> yes
    1 length -> Some(2)
    1 is filling -> yes
    1 finish -> stored 2
    1 is filling -> yes
    1 end-write -> no write
    1 leaves
    0 total -> 2 in 1, weight 2 in 1, 0 writes
    # it is taken as expired, and then as fresh, and read to its end
    2 enable
    2 key
    2 expired
    2 word -> stale
    2 held -> permit
    2 fresh
    2 word -> hit
    2 times -> 60 0 0 0
    2 is reading -> yes
    2 has reader -> yes
    2 weight -> 2
    2 has reader -> yes
    2 length -> Some(2)
    2 whole -> no
    2 read -> data ab
    2 whole -> yes
    2 has reader -> yes
    2 read -> end
    2 leaves
    # it is there to be purged once
    3 enable
    3 key
    3 may purge -> yes
    3 purge-telling -> there
    3 may purge -> yes
    3 purge -> not there
    3 leaves
    0 total -> 0 in 0, weight 0 in 0, 0 writes";

#[test]
fn a_body_is_stored_read_and_purged(rt: HostRuntime) {
    run(&rt, rt.alloc(), STORED_READ_AND_PURGED);
}

// Each call reports the locks and the entry.
const TOLD: &str = "
    1 enable
    1 key
    1 asks -> permit 0
    1 asks -> read 0 for permit 0
    1 may miss -> yes
    1 miss
    1 may take-meta -> yes
    1 meta 60
    1 may write -> yes
    1 begin-telling -> read 0
    1 is filling -> yes
    1 end-write
    1 leaves
    # an empty body is there to be purged beside the request, once
    2 enable
    2 key
    2 may spawn-purge -> yes
    2 purge-beside -> there
    2 may spawn-purge -> yes
    2 purge-beside-telling -> not there

    # A witness is told of what the store has, before anything comes of it, also if that is hidden, and may refuse it.
    5 second
    1 enable
    1 key 0
    1 witnessed -> permit 0
    1 miss
    1 meta 60
    1 begin
    1 write xx
    1 finish -> stored 2
    6 second
    2 enable
    2 key
    2 asks -> permit 1
    2 miss
    2 meta 60
    2 begin
    2 write x
    2 finish -> stored 1
    3 enable
    3 key
    3 witnessed -> found, weighed 1
    3 witnessed refusing -> InternalError
    3 vary 0 -> other
    3 witnessed refusing -> InternalError
    3 held -> none
    3 witnessed -> permit 2, weighed 2
    3 held -> permit
    # A policy defers a key that is not there, and the permit goes.
    4 enable
    4 key 9
    4 witnessed -> permit 3
    4 policy
    4 witnessed -> deferred without permit 3
    4 phase -> Disabled(Deferred)";

const NUMBERS: &str = "
    # The store has one number left: the first write takes it, and no other begins.
    1 last-number
    1 enable
    1 key
    1 look -> none
    1 miss
    1 meta 60
    1 begin
    1 write ab
    2 enable
    2 key 1
    2 look -> none
    2 miss
    2 meta 60
    2 begin -> NumbersExhausted
    2 has writer -> no
    1 finish -> stored 2
    2 begin -> NumbersExhausted
    # the first request still follows its own write
    2 total -> 2 in 1, weight 2 in 1, 1 writes";

#[test]
fn the_last_number_of_a_store_is_given_once(rt: HostRuntime) {
    run(&rt, rt.alloc(), NUMBERS);
}

#[test]
fn calls_tell_what_they_did(rt: HostRuntime) {
    run(&rt, rt.alloc(), TOLD);
}
