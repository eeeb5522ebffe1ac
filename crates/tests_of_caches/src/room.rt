//! Rows over a cache and five requests. A row that begins with a number is a call of that request; one that begins with a word is a
//! whole request, or asks for the cache itself.
use crate::calls::{begins, end, finishes, misses, opens, read, takes, writes};
use crate::requests::{OfTest, Request};
use crate::wholes::{fill, find, purge, renew};
use crate::{fetches, heads, locks, puts, refills, responses};
use pcache_base::moment::Moment;
use pcache_cache::{Cache, CacheRequest, Weighing};
use pcache_evict::eviction::EvictionManager;
use pcache_request::HitStatus;
use pcache_request::cache::LockName;
use test_rows::{Desk, Told, number, some_number, word};

/// Five requests by their numbers, over their cache, and what second it is. A permit ages out after ten seconds.
pub struct Room<M: EvictionManager> {
    pub cache: Cache<M, OfTest>,
    pub one: Request,
    pub two: Request,
    now: Moment,
    three: Request,
    four: Request,
    five: Request,
}

impl<M: EvictionManager> Room<M> {
    /// A cache, with requests that have no key.
    pub fn new(cache: Cache<M, OfTest>) -> Room<M> {
        let alloc = cache.alloc();
        Room {
            cache,
            one: CacheRequest::new(alloc),
            two: CacheRequest::new(alloc),
            now: Moment::EPOCH,
            three: CacheRequest::new(alloc),
            four: CacheRequest::new(alloc),
            five: CacheRequest::new(alloc),
        }
    }

    /// Ends the requests.
    pub fn end(self) {
        let Room {
            mut cache,
            one,
            two,
            now: _,
            three,
            four,
            five,
        } = self;
        let _let_go = cache.end(one);
        let _let_go = cache.end(two);
        let _let_go = cache.end(three);
        let _let_go = cache.end(four);
        let _let_go = cache.end(five);
    }

    /// The cache, and a request by its number.
    pub fn at(&mut self, number: u64) -> (&mut Cache<M, OfTest>, &mut Request) {
        let cache = &mut self.cache;
        match number {
            1 => (cache, &mut self.one),
            2 => (cache, &mut self.two),
            3 => (cache, &mut self.three),
            4 => (cache, &mut self.four),
            _ => (cache, &mut self.five),
        }
    }

    /// Makes calls, and tells the result of each and then what the cache has.
    pub fn tell_all(&mut self, calls: &'static str, told: &mut Told) {
        for call in calls.split(", ") {
            self.tell(call, told);
            told.say(", ");
        }
        tell_totals(&self.cache, told);
    }
}

impl<M: EvictionManager> Desk for Room<M> {
    fn tell(&mut self, call: &'static str, told: &mut Told) {
        match some_number(call, 0) {
            Some(of) => tell_of_request(self, of, call, told),
            None => tell_of_room(self, call, told),
        }
    }
}

fn tell_of_request<M: EvictionManager>(
    room: &mut Room<M>,
    of: u64,
    call: &'static str,
    told: &mut Told,
) {
    let now = room.now;
    match word(call, 1) {
        "gives" => locks::give(room, of, number(call, 2), told),
        "open" | "take" | "read" | "whole" | "length" | "end" => {
            let (cache, request) = room.at(of);
            tell_of_body(cache, request, call, told);
        }
        "miss" | "begin" | "write" | "last" | "finish" => {
            let (cache, request) = room.at(of);
            tell_of_write(cache, request, call, told);
        }
        "limit-head" | "head" | "disable" => {
            let (cache, request) = room.at(of);
            heads::tell(cache, request, call, told);
        }
        "stale" | "renew" | "version" => {
            let (cache, request) = room.at(of);
            responses::tell(cache, request, call, told);
        }
        "look" | "fetch" | "anew" | "varies" | "variant" => {
            let (cache, request) = room.at(of);
            fetches::tell(cache, request, call, told);
        }
        _ => {
            let (cache, request) = room.at(of);
            locks::tell(cache, request, now, call, told);
        }
    }
}

fn tell_of_body<M: EvictionManager>(
    cache: &mut Cache<M, OfTest>,
    request: &mut Request,
    call: &'static str,
    told: &mut Told,
) {
    match word(call, 1) {
        "open" => {
            let name = word(call, 2).as_bytes();
            told.made(Ok(opens(cache.alloc(), request, name, some_number(call, 3))));
        }
        "take" => told.made(takes(cache, request, HitStatus::Fresh)),
        "read" => read(cache, request, told),
        "whole" => told.yes_or_no(cache.is_body_whole(request)),
        "length" => match cache.body_length(request) {
            Some(length) => told.shown(&length),
            None => told.say("none"),
        },
        _ => tell_gone(end(cache, request), told),
    }
}

/// Which lock was let go, if any was.
pub fn tell_gone(name: Option<LockName>, told: &mut Told) {
    match name {
        Some(gone) => {
            told.say("let go ");
            told.number(gone.number);
        }
        None => told.say("ok"),
    }
}

fn tell_of_write<M: EvictionManager>(
    cache: &mut Cache<M, OfTest>,
    request: &mut Request,
    call: &'static str,
    told: &mut Told,
) {
    let text = word(call, 2);
    told.made(match word(call, 1) {
        "miss" => Ok(misses(cache.alloc(), request, text)),
        "begin" => begins(cache, request),
        "write" => writes(cache, request, text.as_bytes(), false),
        "last" => writes(cache, request, text.as_bytes(), true),
        _ => finishes(cache, request),
    });
}

fn tell_of_room<M: EvictionManager>(room: &mut Room<M>, call: &'static str, told: &mut Told) {
    match word(call, 0) {
        "second" => {
            room.now = Moment::from_secs(number(call, 1));
            told.say("ok");
        }
        "totals" => tell_totals(&room.cache, told),
        "store" | "store-each" | "find-each" | "remove" | "late" | "race" | "random" => {
            refills::tell(room, call, told);
        }
        _ => tell_of_whole(&mut room.cache, &mut room.one, call, told),
    }
}

fn tell_of_whole<M: EvictionManager>(
    cache: &mut Cache<M, OfTest>,
    one: &mut Request,
    call: &'static str,
    told: &mut Told,
) {
    let name = word(call, 1).as_bytes();
    match word(call, 0) {
        "fill" => fill(cache, one, name, word(call, 2).as_bytes(), told),
        "find" => find(cache, one, name, told),
        "purge" => purge(cache, one, name, told),
        "renew" => renew(cache, one, name, word(call, 2), told),
        "put" | "put-at-most" | "put-head-at-most" => puts::tell(cache, one, call, told),
        "weighing" => tell_weighing(cache.weighing(), told),
        _ => told.say("no such call"),
    }
}

fn tell_weighing(weighing: Weighing, told: &mut Told) {
    told.say(match weighing {
        Weighing::Bodies => "bodies",
        Weighing::Entries => "entries",
    });
}

// What is stored, what is tracked, and what was evicted.
fn tell_totals<M: EvictionManager>(cache: &Cache<M, OfTest>, told: &mut Told) {
    cache.headline();
    let totals = cache.totals();
    told.shown(&cache.stored_bytes());
    told.say(" in ");
    told.shown(&cache.slots());
    told.say(", ");
    told.shown(&totals.weight);
    told.say(" of ");
    told.shown(&totals.items);
    told.say(" tracked, ");
    told.shown(&totals.evicted_weight);
    told.say(" of ");
    told.shown(&totals.evicted_items);
    told.say(" went");
}
