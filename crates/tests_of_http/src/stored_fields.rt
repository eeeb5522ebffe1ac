//! Rows of the fields that are stored (RFC 9111 section 3.1): the response's fields, and the names of those that are kept.
use crate::desk::{Desk, Told, play};
use crate::heads::fields;
use http_header::HeaderMap;
use pcache_base::error::Error;
use pcache_http::rules::CacheKind;
use pcache_http::stored_fields::stored_fields;
use std::alloc::Global;
use std::test::Fail;

#[derive(Drop)]
struct Keepers {
    alloc: Global,
    kind: CacheKind,
}

impl Desk for Keepers {
    fn tell(&mut self, call: &'static str, told: &mut Told) {
        let Some(headers) = fields(self.alloc, call) else {
            return;
        };
        match stored_fields(self.kind, &headers) {
            Ok(kept) => tell_names(&kept, told),
            Err(refused) => told.refused(&Error::from(refused)),
        }
    }
}

// The names, in a fixed order, since a map that loses a field moves its last one.
const NAMES: [&str; 8] = [
    "a",
    "b",
    "cache-control",
    "set-cookie",
    "connection",
    "te",
    "upgrade",
    "proxy-authenticate",
];

fn tell_names(kept: &HeaderMap, told: &mut Told) {
    if kept.is_empty() {
        told.say("none");
    }
    for name in NAMES {
        if kept.contains_key(name) {
            told.say(" ");
            told.say(name);
        }
    }
}

#[test]
fn stored_by_a_shared_cache(rt: HostRuntime) -> Result<(), Fail> {
    let mut desk = Keepers {
        alloc: rt.alloc(),
        kind: CacheKind::Shared,
    };
    play(&rt, rt.alloc(), &mut desk, SHARED);
    Ok(())
}

#[test]
fn stored_by_a_private_cache(rt: HostRuntime) -> Result<(), Fail> {
    let mut desk = Keepers {
        alloc: rt.alloc(),
        kind: CacheKind::Private,
    };
    play(&rt, rt.alloc(), &mut desk, PRIVATE);
    Ok(())
}

const SHARED: &str = "\
    # 3.1: all fields, unknown ones too
    A: 1 | B: 2 | Set-Cookie: c -> a b set-cookie
    # RFC 9110, 7.6.1: Connection, what it names, and the fields of a connection
    A: 1 | B: 2 | Connection: close -> a b
    A: 1 | B: 2 | Connection: b -> a
    A: 1 | B: 2 | Connection: close, B -> a
    A: 1 | B: 2 | Connection: a | Connection: x, b -> none
    A: 1 | TE: trailers | Upgrade: h2c -> a
    # 3.1: the fields of a proxy
    A: 1 | Proxy-Authenticate: Basic -> a
    # 5.2.2.4: no-cache with fields
    A: 1 | B: 2 | Cache-Control: no-cache=\"b\" -> a cache-control
    A: 1 | B: 2 | Cache-Control: no-cache=\"a, B\" -> cache-control
    A: 1 | B: 2 | Cache-Control: no-cache=b -> a cache-control
    A: 1 | B: 2 | Cache-Control: no-cache -> a b cache-control
    # 5.2.2.7: private with fields
    A: 1 | Set-Cookie: c | Cache-Control: max-age=9, private=\"set-cookie\" -> a cache-control
    A: 1 | B: 2 | Set-Cookie: c | Cache-Control: private=\"b\" | Cache-Control: no-cache=\"set-cookie\" -> a cache-control
    A: 1 | B: 2 | Cache-Control: private=\"b\", x=\"a\" -> a cache-control
";

const PRIVATE: &str = "\
    # 3.1: private is for shared caches
    A: 1 | Set-Cookie: c | Cache-Control: private=\"set-cookie\" -> a cache-control set-cookie
    A: 1 | Set-Cookie: c | Cache-Control: no-cache=\"set-cookie\" -> a cache-control
";
