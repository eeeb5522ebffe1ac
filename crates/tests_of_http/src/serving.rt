//! Rows of what may be served (RFC 9111 sections 4 and 4.2.4): `lifetime, current age / the request's fields / the
//! response's fields`, in seconds.
use crate::desk::{Desk, Told, number, part, play};
use crate::heads::fields;
use pcache_http::control::{RequestControl, ResponseControl};
use pcache_http::lifetime::Lifetime;
use pcache_http::rules::{CacheKind, Rules};
use pcache_http::serving::{may_follow_error, serve_missing, serve_stored};
use std::alloc::Global;
use std::test::Fail;

#[derive(Drop)]
struct Servers {
    alloc: Global,
    rules: Rules,
    // Whether the validation ended with an error.
    failed: bool,
}

impl Desk for Servers {
    fn tell(&mut self, call: &'static str, told: &mut Told) {
        let Some(asked) = fields(self.alloc, part(call, 1)) else {
            return;
        };
        let Some(said) = fields(self.alloc, part(call, 2)) else {
            return;
        };
        let times = part(call, 0);
        let asked = RequestControl::of(&asked);
        let said = ResponseControl::of(&said);
        self.decide(&asked, &said, seconds(times, 0), seconds(times, 1), told);
    }
}

impl Servers {
    fn decide(
        &self,
        asked: &RequestControl,
        said: &ResponseControl,
        lifetime: u32,
        age: u32,
        told: &mut Told,
    ) {
        let lifetime = Lifetime::Explicit(lifetime);
        if self.failed {
            told.yes_or_no(may_follow_error(&self.rules, said, asked, lifetime, age));
        } else {
            told.named(&serve_stored(&self.rules, said, asked, lifetime, age));
        }
    }
}

fn seconds(text: &'static str, place: usize) -> u32 {
    u32::try_from(number(text, place)).unwrap_or(0)
}

fn desk(alloc: Global, kind: CacheKind, failed: bool) -> Servers {
    let mut rules = Rules::of_a_proxy();
    rules.kind = kind;
    Servers {
        alloc,
        rules,
        failed,
    }
}

#[test]
fn served(rt: HostRuntime) -> Result<(), Fail> {
    let mut desk = desk(rt.alloc(), CacheKind::Shared, false);
    play(&rt, rt.alloc(), &mut desk, SHARED);
    Ok(())
}

#[test]
fn served_by_a_private_cache(rt: HostRuntime) -> Result<(), Fail> {
    let mut desk = desk(rt.alloc(), CacheKind::Private, false);
    play(&rt, rt.alloc(), &mut desk, PRIVATE);
    Ok(())
}

#[test]
fn served_after_an_error(rt: HostRuntime) -> Result<(), Fail> {
    let mut desk = desk(rt.alloc(), CacheKind::Shared, true);
    play(&rt, rt.alloc(), &mut desk, ERRORS);
    Ok(())
}

// Rows of requests for which nothing is stored: the request's fields.
#[derive(Drop)]
struct Missed {
    alloc: Global,
}

impl Desk for Missed {
    fn tell(&mut self, call: &'static str, told: &mut Told) {
        if let Some(asked) = fields(self.alloc, part(call, 0)) {
            told.named(&serve_missing(&RequestControl::of(&asked)));
        }
    }
}

#[test]
fn served_where_nothing_is_stored(rt: HostRuntime) -> Result<(), Fail> {
    let mut desk = Missed { alloc: rt.alloc() };
    play(&rt, rt.alloc(), &mut desk, MISSED);
    Ok(())
}

const SHARED: &str = "\
    # 4.2: fresh while the lifetime is more than the age
    60 0 / / -> Fresh
    60 59 / / -> Fresh
    60 60 / / -> Validate
    0 0 / / -> Validate
    # 5.2.2.4: no-cache in the response, for the whole of it or for some fields
    60 0 / / Cache-Control: no-cache -> Validate
    60 0 / / Cache-Control: no-cache=\"set-cookie\" -> Fresh
    60 0 / / Cache-Control: no-cache=\"set-cookie\", no-cache -> Validate
    # 5.2.2: directives that say nothing of what is fresh
    60 0 / / Cache-Control: must-revalidate -> Fresh
    60 0 / / Cache-Control: proxy-revalidate, s-maxage=60 -> Fresh
    # 5.2.1.4: no-cache in the request
    60 0 / Cache-Control: no-cache / -> Validate
    60 0 / Cache-Control: NO-CACHE, max-age=10 / -> Validate
    # 5.4: Pragma where there is no Cache-Control
    60 0 / Pragma: no-cache / -> Validate
    60 0 / Pragma: x, No-Cache / -> Validate
    60 0 / Pragma: no-cache | Cache-Control: max-age=10 / -> Fresh
    60 0 / Pragma: nothing / -> Fresh
    # 5.2.1.1: max-age
    60 10 / Cache-Control: max-age=10 / -> Fresh
    60 11 / Cache-Control: max-age=10 / -> Validate
    60 0 / Cache-Control: max-age=0 / -> Fresh
    60 1 / Cache-Control: max-age=0 / -> Validate
    60 1 / Cache-Control: max-age=x / -> Validate
    # 5.2.1.3: min-fresh
    60 50 / Cache-Control: min-fresh=10 / -> Fresh
    60 51 / Cache-Control: min-fresh=10 / -> Validate
    # 5.2.1.2: max-stale, with a value and without
    60 70 / Cache-Control: max-stale=10 / -> StaleAccepted
    60 71 / Cache-Control: max-stale=10 / -> Validate
    60 9999 / Cache-Control: max-stale / -> StaleAccepted
    60 61 / Cache-Control: max-stale=x / -> Validate
    60 70 / Cache-Control: max-stale=10, max-age=100 / -> StaleAccepted
    60 70 / Cache-Control: max-stale=10, max-age=65 / -> Validate
    60 70 / Cache-Control: max-stale, min-fresh=5 / -> Validate
    60 70 / Cache-Control: max-stale, no-cache / -> Validate
    # 4.2.4, 5.2.2.2, 5.2.2.8, 5.2.2.10: what prohibits it
    60 61 / Cache-Control: max-stale / Cache-Control: must-revalidate -> Validate
    60 61 / Cache-Control: max-stale / Cache-Control: proxy-revalidate -> Validate
    60 61 / Cache-Control: max-stale / Cache-Control: s-maxage=60 -> Validate
    60 61 / Cache-Control: max-stale / Cache-Control: no-cache -> Validate
    60 61 / Cache-Control: max-stale / Cache-Control: no-cache=\"a\" -> StaleAccepted
    # RFC 5861, 3: stale-while-revalidate
    60 90 / / Cache-Control: max-age=60, stale-while-revalidate=30 -> StaleWhileRevalidating
    60 91 / / Cache-Control: max-age=60, stale-while-revalidate=30 -> Validate
    60 70 / / Cache-Control: stale-while-revalidate=30, no-cache -> Validate
    60 70 / / Cache-Control: stale-while-revalidate=30, must-revalidate -> Validate
    60 70 / / Cache-Control: stale-while-revalidate=30, s-maxage=60 -> Validate
    60 70 / / Cache-Control: stale-while-revalidate=x -> Validate
    60 70 / Cache-Control: no-cache / Cache-Control: stale-while-revalidate=30 -> Validate
    # 5.2.1.1: with max-age and without max-stale no stale response is wanted
    60 70 / Cache-Control: max-age=100 / Cache-Control: stale-while-revalidate=30 -> Validate
    60 70 / Cache-Control: max-age=100, max-stale=10 / Cache-Control: stale-while-revalidate=30 -> StaleWhileRevalidating
    60 75 / Cache-Control: max-stale=10 / Cache-Control: stale-while-revalidate=30 -> Validate
    60 70 / Cache-Control: min-fresh=1 / Cache-Control: stale-while-revalidate=30 -> Validate
    # 5.2.1.7: only-if-cached
    60 0 / Cache-Control: only-if-cached / -> Fresh
    60 61 / Cache-Control: only-if-cached / -> GatewayTimeout
    60 0 / Cache-Control: only-if-cached / Cache-Control: no-cache -> GatewayTimeout
    60 61 / Cache-Control: only-if-cached, max-stale / -> StaleAccepted
";

const PRIVATE: &str = "\
    # 4.2.4: what prohibits it for shared caches alone
    60 61 / Cache-Control: max-stale / Cache-Control: proxy-revalidate -> StaleAccepted
    60 61 / Cache-Control: max-stale / Cache-Control: s-maxage=60 -> StaleAccepted
    60 61 / Cache-Control: max-stale / Cache-Control: must-revalidate -> Validate
    60 70 / / Cache-Control: stale-while-revalidate=30, s-maxage=60 -> StaleWhileRevalidating
";

const ERRORS: &str = "\
    # RFC 5861, 4: its example, 600 seconds fresh and 1,200 more after an error
    600 600 / / Cache-Control: max-age=600, stale-if-error=1200 -> yes
    600 900 / / Cache-Control: max-age=600, stale-if-error=1200 -> yes
    600 1800 / / Cache-Control: max-age=600, stale-if-error=1200 -> yes
    600 1801 / / Cache-Control: max-age=600, stale-if-error=1200 -> no
    600 900 / / Cache-Control: max-age=600 -> no
    # RFC 5861, 4: in the request
    600 700 / Cache-Control: stale-if-error=100 / Cache-Control: max-age=600 -> yes
    600 701 / Cache-Control: stale-if-error=100 / Cache-Control: max-age=600 -> no
    # 4.2.4: what prohibits it
    600 900 / / Cache-Control: stale-if-error=1200, must-revalidate -> no
    600 900 / / Cache-Control: stale-if-error=1200, proxy-revalidate -> no
    600 900 / / Cache-Control: stale-if-error=1200, s-maxage=600 -> no
    600 900 / / Cache-Control: stale-if-error=1200, no-cache -> no
    600 900 / Cache-Control: no-cache / Cache-Control: stale-if-error=1200 -> no
";

const MISSED: &str = "\
    # 5.2.1.7
    Cache-Control: only-if-cached -> NotCached
    Cache-Control: max-stale, Only-If-Cached -> NotCached
    Cache-Control: no-cache -> Fetch
    Pragma: only-if-cached -> Fetch
";
