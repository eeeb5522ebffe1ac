//! Rows of freshness lifetimes (RFC 9111 section 4.2.1): `STATUS / the response's fields`. Responses were received at second
//! 1,000, which is 00:16:40 of the first day of 1970.
use crate::desk::{Desk, Told, part, play};
use crate::heads::fields;
use http::StatusCode;
use pcache_base::moment::Moment;
use pcache_http::control::ResponseControl;
use pcache_http::lifetime::lifetime_of;
use pcache_http::rules::{CacheKind, Heuristic, Repeats, Rules};
use pcache_meta::header::{HttpVersion, ResponseHeader};
use std::alloc::Global;
use std::test::Fail;

#[derive(Drop)]
struct Lifetimes {
    alloc: Global,
    rules: Rules,
}

impl Desk for Lifetimes {
    fn tell(&mut self, call: &'static str, told: &mut Told) {
        let Some(headers) = fields(self.alloc, part(call, 1)) else {
            return;
        };
        let Ok(status) = StatusCode::from_bytes(part(call, 0).as_bytes()) else {
            return;
        };
        let response = ResponseHeader {
            version: HttpVersion::Http11,
            status,
            headers,
        };
        let said = ResponseControl::of(&response.headers);
        let received = Moment::from_secs(1000);
        told.named(&lifetime_of(&self.rules, &said, &response, received));
    }
}

fn desk(alloc: Global, kind: CacheKind, repeats: Repeats, heuristic: Heuristic) -> Lifetimes {
    let rules = Rules {
        kind,
        repeats,
        heuristic,
    };
    Lifetimes { alloc, rules }
}

#[test]
fn lifetimes_in_a_shared_cache(rt: HostRuntime) -> Result<(), Fail> {
    let tenth = Heuristic::Tenth(86400);
    let mut desk = desk(rt.alloc(), CacheKind::Shared, Repeats::First, tenth);
    play(&rt, rt.alloc(), &mut desk, SHARED);
    Ok(())
}

#[test]
fn lifetimes_by_other_rules(rt: HostRuntime) -> Result<(), Fail> {
    let never = Heuristic::Never;
    let mut desk = desk(rt.alloc(), CacheKind::Private, Repeats::Stale, never);
    play(&rt, rt.alloc(), &mut desk, OTHERS);
    Ok(())
}

const SHARED: &str = "\
    # 4.2.1: s-maxage, then max-age, then Expires less Date
    200 / Cache-Control: max-age=60 -> Explicit(60)
    200 / Cache-Control: max-age=60, s-maxage=30 -> Explicit(30)
    200 / Cache-Control: s-maxage=30 | Cache-Control: max-age=60 -> Explicit(30)
    200 / Cache-Control: max-age=60 | Expires: Thu, 01 Jan 1970 00:16:50 GMT -> Explicit(60)
    200 / Cache-Control: s-maxage=0 | Expires: Thu, 01 Jan 1970 00:16:50 GMT -> Explicit(0)
    200 / Expires: Thu, 01 Jan 1970 00:16:50 GMT | Date: Thu, 01 Jan 1970 00:16:30 GMT -> Explicit(20)
    # 4.2: a server's clock that is ahead counts for nothing
    200 / Expires: Thu, 01 Jan 1970 10:00:10 GMT | Date: Thu, 01 Jan 1970 10:00:00 GMT -> Explicit(10)
    # RFC 9110, 6.6.1: without a Date, or with an invalid one, the time of its arrival
    200 / Expires: Thu, 01 Jan 1970 00:16:50 GMT -> Explicit(10)
    200 / Expires: Thu, 01 Jan 1970 00:16:50 GMT | Date: yesterday -> Explicit(10)
    200 / Expires: Thu, 01 Jan 1970 00:16:00 GMT | Date: Thu, 01 Jan 1970 00:16:30 GMT -> Explicit(0)
    # 5.3: an invalid Expires is in the past
    200 / Expires: 0 -> Explicit(0)
    200 / Expires: soon | Last-Modified: Thu, 01 Jan 1970 00:00:00 GMT -> Explicit(0)
    200 / Expires: Thursday, 01-Jan-70 00:16:50 GMT -> Explicit(10)
    200 / Expires: Thu Jan  1 00:16:50 1970 -> Explicit(10)
    # 1.2.2: too large a number
    200 / Cache-Control: max-age=4294967296 -> Explicit(4294967295)
    200 / Cache-Control: max-age=99999999999999999999999 -> Explicit(4294967295)
    200 / Expires: Fri, 31 Dec 9999 23:59:59 GMT -> Explicit(4294967295)
    # 4.2.1: invalid values are stale
    200 / Cache-Control: max-age=a -> Explicit(0)
    200 / Cache-Control: max-age=-5 -> Explicit(0)
    200 / Cache-Control: max-age=1.5 -> Explicit(0)
    200 / Cache-Control: max-age -> Explicit(0)
    200 / Cache-Control: max-age=+5 -> Explicit(0)
    200 / Cache-Control: s-maxage=x, max-age=60 -> Explicit(0)
    # 5.2: a token or a quoted text, names in either case
    200 / Cache-Control: Max-Age=\"60\" -> Explicit(60)
    200 / Cache-Control: MAX-AGE=060 -> Explicit(60)
    200 / Cache-Control: x-max-age=60 | Last-Modified: Thu, 01 Jan 1970 00:15:00 GMT -> Heuristic(10)
    200 / Cache-Control: x=\"max-age=60\" | Last-Modified: Thu, 01 Jan 1970 00:15:00 GMT -> Heuristic(10)
    # 4.2.1: of repeated values the first
    200 / Cache-Control: max-age=60, max-age=5 -> Explicit(60)
    200 / Cache-Control: max-age=5 | Cache-Control: max-age=60 -> Explicit(5)
    200 / Expires: Thu, 01 Jan 1970 00:16:50 GMT | Expires: Thu, 01 Jan 1970 00:26:40 GMT -> Explicit(10)
    # 4.2.2: a tenth of the time since Last-Modified
    200 / Last-Modified: Thu, 01 Jan 1970 00:00:00 GMT -> Heuristic(100)
    200 / Last-Modified: Thu, 01 Jan 1970 00:00:00 GMT | Date: Thu, 01 Jan 1970 00:08:20 GMT -> Heuristic(50)
    200 / Last-Modified: Fri, 02 Jan 1970 00:00:00 GMT -> Heuristic(0)
    200 / Last-Modified: Thu, 01 Jan 1970 00:00:00 GMT | Date: Mon, 05 Jun 2000 00:00:00 GMT -> Heuristic(86400)
    404 / Last-Modified: Thu, 01 Jan 1970 00:00:00 GMT -> Heuristic(100)
    410 / Last-Modified: Thu, 01 Jan 1970 00:00:00 GMT -> Heuristic(100)
    # 4.2.2: not for other statuses, unless it is marked as cacheable, as by public
    302 / Last-Modified: Thu, 01 Jan 1970 00:00:00 GMT -> Unknown
    500 / Last-Modified: Thu, 01 Jan 1970 00:00:00 GMT -> Unknown
    302 / Cache-Control: public | Last-Modified: Thu, 01 Jan 1970 00:00:00 GMT -> Heuristic(100)
    200 / -> Unknown
    200 / Last-Modified: today -> Unknown
    # 4.2.2: never beside an explicit time
    200 / Cache-Control: max-age=5 | Last-Modified: Thu, 01 Jan 1970 00:00:00 GMT -> Explicit(5)
";

const OTHERS: &str = "\
    # 5.2.2.10: s-maxage is for shared caches
    200 / Cache-Control: max-age=60, s-maxage=30 -> Explicit(60)
    200 / Cache-Control: s-maxage=30 -> Unknown
    # 4.2.1: repeated values are stale
    200 / Cache-Control: max-age=60, max-age=5 -> Explicit(0)
    200 / Cache-Control: max-age=60 | Cache-Control: max-age=60 -> Explicit(0)
    200 / Expires: Thu, 01 Jan 1970 00:16:50 GMT | Expires: Thu, 01 Jan 1970 00:16:50 GMT -> Explicit(0)
    # no heuristic
    200 / Last-Modified: Thu, 01 Jan 1970 00:00:00 GMT -> Unknown
";
