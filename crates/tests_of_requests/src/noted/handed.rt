//! Ends of freshness, why something is purged, and heads that were read.
ghost use Rattle.pcache_put.specs.Policies.{SaysByDefault};
ghost use Rattle.tests_of_requests.specs.Lifetimes.{IsSeconds};

use super::*;
use crate::lifetimes::{by_seconds, twenty_seconds};
use bytes::Bytes;
use http::StatusCode;
use pcache_control::{CacheMetaDefaults, RespCacheable};
use pcache_evict::eviction::simple_lru::Manager;
use pcache_meta::header::ResponseHeader;
use pcache_put::context::CachePutCtx;
use pcache_put::policy::CachePut;
use std::cell::Cell;

// Every status is fresh for twenty seconds, by a policy that counts the heads that it is shown.
#[derive(Drop)]
struct Twenty<'a> {
    shown: &'a Cell<u32>,
}

impl CachePut for Twenty<'_> {
    ghost says = { λ p. SaysByDefault (0, 0) (IsSeconds 20) };

    fn cacheable(
        &self,
        alloc: Global,
        header: ResponseHeader,
        now: Moment,
    ) -> Result<RespCacheable> {
        let defaults = CacheMetaDefaults::new(twenty_seconds, 0, 0);
        by_seconds(alloc, header, &defaults, now, 20)
    }

    fn trace_header(&self, header: &ResponseHeader) {
        if header.status == StatusCode::OK {
            self.shown.set(self.shown.get().saturating_add(1));
        }
    }
}

const RESPONSE: &[u8] = b"HTTP/1.1 200 OK\r\n\r\nfresh";

/// Pushes a response in at a second, and tells how many heads its policy was shown.
pub fn push<M: EvictionManager>(
    parts: &mut Parts<M>,
    name: &'static str,
    second: u64,
    told: &mut Told,
) {
    let shown = Cell::new(0u32);
    let key = key_named(parts.alloc, name);
    let mut put = CachePutCtx::new(parts.alloc, Twenty { shown: &shown }, key);
    let response = Bytes::from_static(RESPONSE);
    let fed = put.cache_put(&response, &mut parts.store, Moment::from_secs(second));
    let finished = put.finish(&mut parts.store, &mut parts.manager);
    put.end(&mut parts.store);
    if fed.is_ok() && finished.is_ok() {
        told.shown(&shown.get());
    } else {
        told.say("failed");
    }
}

// The manager gets the end of freshness with each admission and use, the storage what a removal is for, and the policy of a put
// the head, once. Of two bodies of five bytes one is kept.
const HANDED: &str = "
    pushes a 100 -> 1
    handed -> admitted 120, used none, purged None
    pushes b 101 -> 1
    handed -> admitted 121, used none, purged Some(Eviction)
    1 opens b
    1 takes Fresh at 110
    1 ends
    handed -> admitted 121, used 121, purged Some(Eviction)
    1 opens b
    1 purges -> yes
    1 ends
    handed -> admitted 121, used 121, purged Some(Invalidation)
    1 opens c
    1 fills 150
    1 ends
    handed -> admitted 150, used 121, purged Some(Invalidation)";

#[test]
fn parts_are_told_what_belongs_to_a_call(rt: HostRuntime) {
    let alloc = rt.alloc();
    run(&rt, alloc, Manager::new(alloc, Seed::fixed(), 9), HANDED);
}
