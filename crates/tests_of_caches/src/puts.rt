//! Puts: one names its key and has the pieces of its response, with a bar between two. A piece may be a purge of a key.
//!
//! Every response is fresh for a second unless it says something else.
ghost use Rattle.pcache_put.specs.Policies.{SaysByDefault};
ghost use Rattle.tests_of_caches.specs.Lifetimes.{IsOneSecond};

use crate::lifetimes::{by_one_second, one_second};
use crate::requests::{List, NOW, OfTest, Request, list_of};
use crate::scenes::run_two;
use crate::wholes::purge;
use bytes::Bytes;
use pcache_base::error::Result;
use pcache_base::moment::Moment;
use pcache_base::reason::NoCacheReason;
use pcache_cache::{Cache, PendingPut};
use pcache_control::{CacheMetaDefaults, RespCacheable};
use pcache_evict::eviction::EvictionManager;
use pcache_meta::header::ResponseHeader;
use pcache_put::policy::{CachePut, HeadLimit};
use pcache_put::report::PutOutcome;
use std::alloc::Global;
use test_rows::{Told, key_of, size, unescape, word};

// A policy that goes by defaults under which every status is fresh for a second.
#[derive(Drop)]
struct OneSecond;

impl CachePut for OneSecond {
    ghost says = { λ p. SaysByDefault (0, 0) IsOneSecond };

    fn cacheable(
        &self,
        alloc: Global,
        header: ResponseHeader,
        now: Moment,
    ) -> Result<RespCacheable> {
        let defaults = CacheMetaDefaults::new(one_second, 0, 0);
        by_one_second(alloc, header, &defaults, now)
    }
}

type Put = PendingPut<HeadLimit<OneSecond>, OfTest>;

// The most bytes of a put's head, and of its body if that is limited.
#[derive(Clone, Copy, Drop)]
struct Most {
    head: usize,
    body: Option<usize>,
}

const ANY: Most = Most {
    head: usize::MAX,
    body: None,
};

fn put_of(alloc: Global, name: &str, most: Most) -> Put {
    let policy = HeadLimit {
        policy: OneSecond,
        max_head_size_bytes: most.head,
    };
    let mut put = PendingPut::new(alloc, policy, key_of(alloc, name.as_bytes(), ""));
    if let Some(limit) = most.body {
        put.put.set_max_file_size_bytes(limit);
    }
    put
}

/// Makes the call of a row.
pub fn tell<M: EvictionManager>(
    cache: &mut Cache<M, OfTest>,
    one: &mut Request,
    call: &'static str,
    told: &mut Told,
) {
    let (most, name) = match word(call, 0) {
        "put-at-most" => {
            let body = Some(size(call, 1));
            (Most { body, ..ANY }, word(call, 2))
        }
        "put-head-at-most" => {
            let head = size(call, 1);
            (Most { head, ..ANY }, word(call, 2))
        }
        _ => (ANY, word(call, 1)),
    };
    let name = name.strip_suffix(":").unwrap_or(name);
    let mut put = put_of(cache.alloc(), name, most);
    for piece in call.split_once(": ").unwrap_or((call, "")).1.split('|') {
        feed(cache, one, &mut put, piece, told);
    }
    finish(cache, &mut put, told);
    cache.end_put(put);
}

// A piece, or a purge between two.
fn feed<M: EvictionManager>(
    cache: &mut Cache<M, OfTest>,
    one: &mut Request,
    put: &mut Put,
    piece: &'static str,
    told: &mut Told,
) {
    match piece.strip_prefix("purge ") {
        Some(name) => purge(cache, one, name.as_bytes(), told),
        None => feed_piece(cache, put, piece, told),
    }
}

fn feed_piece<M: EvictionManager>(
    cache: &mut Cache<M, OfTest>,
    put: &mut Put,
    piece: &'static str,
    told: &mut Told,
) {
    let mut bytes = Vec::new(cache.alloc());
    if unescape(piece, &mut bytes) {
        if let Ok(bytes) = Bytes::from_vec(bytes) {
            tell_fed(cache.cache_put(put, &bytes, NOW), told);
        }
    }
}

// That the put goes on, or the reason why nothing is stored.
fn tell_fed(answer: Result<Option<NoCacheReason>>, told: &mut Told) {
    match answer {
        Ok(None) => told.say("+"),
        Ok(Some(reason)) => told.say(reason.as_str()),
        Err(refused) => told.refused(&refused),
    }
}

fn finish<M: EvictionManager>(cache: &mut Cache<M, OfTest>, put: &mut Put, told: &mut Told) {
    if !cache.may_end_put(put) {
        return told.say(" another's");
    }
    told.say(" ");
    tell_ended(cache.finish_put(put), told);
}

fn tell_ended(ended: Result<PutOutcome>, told: &mut Told) {
    match ended {
        Ok(PutOutcome::Stored(report)) => {
            told.say("stored ");
            told.shown(&report.size);
        }
        Ok(PutOutcome::NotCached(reason)) => told.say(reason.as_str()),
        Err(refused) => told.refused(&refused),
    }
}

const PUTS: &str = r"
    limit 4: put a: HTTP/1.1 200 OK\r\nContent-Length: 2\r\n\r\nhi, find a, find b -> + stored 2, hi, -, 2 in 1, 2 of 1 tracked, 0 of 0 went
    limit 4: put a: HTTP/1.1 200 OK\r\nCont|ent-Length: 4\r\n\r\nr|us|t, find a -> ++++ stored 4, rust, 4 in 1, 4 of 1 tracked, 0 of 0 went
    # a response that says that it is not to be stored
    limit 4: put a: HTTP/1.1 200 OK\r\nContent-Length: 2\r\nCache-Control: no-store\r\n\r\n|hi, find a -> OriginNotCacheOriginNotCache OriginNotCache, -, 0 in 0, 0 of 0 tracked, 0 of 0 went
    # one that ends before its body does
    limit 4: put a: HTTP/1.1 200 OK\r\nContent-Length: 4\r\n\r\n|ru, find a -> ++ IncompleteHttpBody, -, 0 in 0, 0 of 0 tracked, 0 of 0 went
    # what is no response
    limit 4: put a: no response\r\n\r\n, find a -> InvalidHttpHeader InvalidHttpHeader, -, 0 in 0, 0 of 0 tracked, 0 of 0 went
    # a body that is longer than the put may have
    limit 4: put-at-most 3 a: HTTP/1.1 200 OK\r\n\r\nrus|t, find a -> +ResponseTooLarge ResponseTooLarge, -, 0 in 0, 0 of 0 tracked, 0 of 0 went
    # a head that is longer than the put may have, as it would be stored, and one that is just as long
    limit 4: put-head-at-most 34 a: HTTP/1.1 200 OK\r\nContent-Length: 2\r\n\r\nh|i, find a -> ResponseTooLargeResponseTooLarge ResponseTooLarge, -, 0 in 0, 0 of 0 tracked, 0 of 0 went
    limit 4: put-head-at-most 35 a: HTTP/1.1 200 OK\r\nContent-Length: 2\r\n\r\nh|i, find a -> ++ stored 2, hi, 2 in 1, 2 of 1 tracked, 0 of 0 went
    # what is not stored has the reason that the policy gives
    limit 4: put-head-at-most 1 a: HTTP/1.1 200 OK\r\nCache-Control: no-store\r\n\r\nhi -> OriginNotCache OriginNotCache, 0 in 0, 0 of 0 tracked, 0 of 0 went
    # a key that is purged between two pieces
    limit 4: put a: HTTP/1.1 200 OK\r\nContent-Length: 4\r\n\r\n|ru|purge a|st, find a -> ++++ WriteRemoved, -, 0 in 0, 0 of 0 tracked, 0 of 0 went
    # one that fills anew what stands
    limit 4: put a: HTTP/1.1 200 OK\r\n\r\nhi, put a: HTTP/1.1 200 OK\r\n\r\nno, find a -> + stored 2, + stored 2, no, 2 in 1, 2 of 1 tracked, 0 of 0 went
    # no more than four bytes
    limit 4: put a: HTTP/1.1 200 OK\r\n\r\nhi, put b: HTTP/1.1 200 OK\r\n\r\nrust, find a, find b -> + stored 2, + stored 4, -, rust, 4 in 1, 4 of 1 tracked, 2 of 1 went
    limit 4: put a: HTTP/1.1 200 OK\r\n\r\nrust and more, find a -> + stored 13, -, 0 in 0, 0 of 0 tracked, 13 of 1 went
    # what was put is purged
    limit 4: put a: HTTP/1.1 200 OK\r\n\r\nhi, purge a, find a -> + stored 2, +, -, 0 in 0, 0 of 0 tracked, 0 of 0 went";

#[test]
fn a_put_is_stored_within_the_limit(rt: HostRuntime) {
    run_two(&rt, rt.alloc(), PUTS);
}

// A put whose pieces came to another cache may not end here, though both caches have one mark.
fn ends_where_it_was_fed(fed: &mut List, other: &List, put: Put) -> bool {
    let mut put = put;
    let piece = Bytes::from_static(b"HTTP/1.1 200 OK\r\n\r\nhi");
    let is_fed = fed.cache_put(&mut put, &piece, NOW).is_ok();
    let (here, there) = (fed.may_end_put(&put), other.may_end_put(&put));
    fed.end_put(put);
    is_fed && here && !there && fed.slots() == 0
}

fn is_fed_once(alloc: Global) -> Result<bool> {
    let mut fed = list_of(alloc, 9)?;
    let other = list_of(alloc, 9)?;
    Ok(ends_where_it_was_fed(&mut fed, &other, put_of(alloc, "a", ANY)))
}

#[test]
fn a_put_ends_where_it_was_fed(rt: HostRuntime) {
    assert!(rt; matches!(is_fed_once(rt.alloc()), Ok(true)));
}
