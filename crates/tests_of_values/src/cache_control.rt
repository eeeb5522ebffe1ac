//! Lines of Cache-Control: worked rows. A row's lines are between bars. They are hand-computed from RFC 9111
//! (1.2.2, 4.2.1, 5.2), RFC 5861 and RFC 9110 (5.6.1, 5.6.4), some after upstream's tests.
use crate::heads::append;
use crate::rows::{Desk, Told, play, rest, unescape, word};
use http::StatusCode;
use http_header::HeaderMap;
use pcache_base::error::{Error, ErrorType, Result};
use pcache_control::cache_control::{
    CacheControl, Cacheable, DELTA_SECONDS_OVERFLOW_VALUE, DirectiveKey, DirectiveValue,
    InterpretCacheControl, ListValueIter, delta_seconds_overflow_duration,
};
use pcache_meta::header::ResponseHeader;
use std::alloc::{AllocError, Global};
use std::time::Duration;

// The bytes of one line.
#[derive(Drop)]
struct Lines {
    alloc: Global,
    line: Vec<u8>,
}

fn no_lines(alloc: Global) -> Lines {
    Lines {
        alloc,
        line: Vec::new(alloc),
    }
}

impl Desk for Lines {
    fn tell(&mut self, call: &'static str, told: &mut Told) {
        match word(call, 0) {
            "items" | "seconds" | "unquoted" => {
                if unescape(rest(call), &mut self.line) {
                    tell_of_text(self.alloc, self.line.as_slice(), word(call, 0), told);
                }
            }
            "key" => tell_key(self.alloc, word(call, 1), told),
            "owned-key" => tell_owned_key(self.alloc, word(call, 1), told),
            _ => tell_of_lines(self.alloc, &mut self.line, call, told),
        }
    }
}

fn tell_of_lines(alloc: Global, bytes: &mut Vec<u8>, call: &'static str, told: &mut Told) {
    let mut header = ResponseHeader::build(alloc, StatusCode::OK);
    if append_all(alloc, &mut header.headers, bytes, rest(call)) {
        tell_read(CacheControl::from_resp_headers(alloc, &header), call, told);
    }
}

fn append_all(
    alloc: Global,
    headers: &mut HeaderMap,
    bytes: &mut Vec<u8>,
    lines: &'static str,
) -> bool {
    for line in lines.split('|') {
        let is_taken = unescape(line, bytes)
            && append(alloc, headers, "cache-control", bytes.as_slice());
        if !is_taken {
            return false;
        }
    }
    true
}

fn tell_read(cc: Result<Option<CacheControl>, AllocError>, call: &'static str, told: &mut Told) {
    match cc {
        Ok(Some(cc)) => tell_one(cc, word(call, 0), told),
        Ok(None) => told.say("nothing"),
        Err(refused) => told.refused(&Error::from(refused)),
    }
}

fn tell_one(cc: CacheControl, what: &str, told: &mut Told) {
    if what == "float-max-age" {
        tell_number(told, cc.with_float_seconds().max_age());
    } else {
        tell_of(&cc, what, told);
    }
}

fn tell_of(cc: &CacheControl, what: &str, told: &mut Told) {
    match what {
        "lists" => list(cc, told),
        "says" => says(cc, told),
        "private" => told.yes_or_no(cc.private()),
        "no-cache" => told.yes_or_no(cc.no_cache()),
        _ => tell_whether(cc, what, told),
    }
}

fn tell_whether(cc: &CacheControl, what: &str, told: &mut Told) {
    match what {
        "has-max-age" => told.yes_or_no(cc.has_directive(&DirectiveKey::MaxAge)),
        "only-if-cached" => told.yes_or_no(cc.only_if_cached()),
        _ => tell_more_of(cc, what, told),
    }
}

fn tell_more_of(cc: &CacheControl, what: &str, told: &mut Told) {
    match what {
        "no-cache-names" => join(cc.no_cache_field_names(), told),
        "private-names" => join(cc.private_field_names(), told),
        "flags" => flags(cc, told),
        "windows" => windows(cc, told),
        _ => has(cc, what, told),
    }
}

// The directives in order.
fn list(cc: &CacheControl, told: &mut Told) {
    if cc.directives.is_empty() {
        told.say("empty");
    }
    for (key, value) in &cc.directives {
        list_one(key.as_str(), value.as_ref(), told);
    }
}

fn list_one(key: &str, value: Option<&DirectiveValue>, told: &mut Told) {
    told.say(key);
    if let Some(value) = value {
        told.say("=");
        told.bytes(value.0.as_slice());
    }
    told.say(";");
}

// What is said of storing, and for how many seconds.
fn says(cc: &CacheControl, told: &mut Told) {
    told.say(match cc.is_cacheable() {
        Cacheable::Yes => "yes",
        Cacheable::No => "no",
        Cacheable::Default => "default",
    });
    tell_seconds(told, cc.fresh_duration());
}

fn tell_seconds(told: &mut Told, time: Option<Duration>) {
    told.say(" ");
    match time {
        Some(time) => told.number(time.as_secs()),
        None => told.say("none"),
    }
}

// Whether the directive that the call names after a colon is present.
fn has(cc: &CacheControl, what: &str, told: &mut Told) {
    match what.split_once(':') {
        Some((_verb, name)) => told.yes_or_no(cc.has_key(name)),
        None => told.say("no such call"),
    }
}

// The items, each after a slash.
fn join(items: Option<ListValueIter<'_>>, told: &mut Told) {
    if let Some(items) = items {
        for item in items {
            told.say("/");
            told.bytes(item);
        }
    }
}

fn flags(cc: &CacheControl, told: &mut Told) {
    flag(told, cc.no_store(), "no-store ");
    flag(told, cc.must_revalidate(), "must-revalidate ");
    flag(told, cc.proxy_revalidate(), "proxy-revalidate ");
    flag(told, cc.public(), "public ");
    flag(told, cc.allow_caching_authorized_req(), "authorized");
}

fn flag(told: &mut Told, is_set: bool, name: &str) {
    if is_set {
        told.say(name);
    }
}

fn tell_number(told: &mut Told, number: Result<Option<u32>>) {
    told.say(" ");
    match number {
        Ok(Some(number)) => told.number(u64::from(number)),
        Ok(None) => told.say("none"),
        Err(_refused) => told.say("unreadable"),
    }
}

// The numbers, and how long what is stale is served.
fn windows(cc: &CacheControl, told: &mut Told) {
    tell_number(told, cc.max_age());
    tell_number(told, cc.s_maxage());
    tell_number(told, cc.stale_while_revalidate());
    tell_number(told, cc.stale_if_error());
    tell_seconds(told, cc.serve_stale_while_revalidate_duration());
    tell_seconds(told, cc.serve_stale_if_error_duration());
}

fn tell_of_text(alloc: Global, text: &[u8], what: &str, told: &mut Told) {
    if let Ok(text) = Vec::from_slice(alloc, text) {
        tell_value(&DirectiveValue(text), what, told);
    }
}

// Whole seconds and seconds whose parts are cut off, or the items, or the text between quotes.
fn tell_value(value: &DirectiveValue, what: &str, told: &mut Told) {
    match what {
        "items" => join(Some(ListValueIter::from(value)), told),
        "seconds" => {
            tell_parsed(told, value.parse_as_delta_seconds());
            tell_parsed(told, value.parse_as_delta_seconds_floor());
        }
        _ => {
            let is_text = value.parse_as_str().is_ok();
            told.say(if is_text { "text " } else { "bytes " });
            told.bytes(value.parse_as_bytes());
        }
    }
}

fn tell_parsed(told: &mut Told, number: Result<u32>) {
    told.say(" ");
    match number {
        Ok(number) => told.number(u64::from(number)),
        Err(refused) => {
            let is_unreadable = refused.etype() == ErrorType::InternalError;
            told.say(if is_unreadable { "-" } else { "refused" });
        }
    }
}

// Whether the name is known, and how its key prints.
fn tell_key(alloc: Global, name: &'static str, told: &mut Told) {
    if let Ok(key) = DirectiveKey::from_lowercase(alloc, name) {
        let is_known = key.is(name) && is_known(alloc, &key, name);
        told.say(if is_known { "known " } else { "unknown " });
        told.shown(&key);
    }
}

fn tell_owned_key(alloc: Global, name: &'static str, told: &mut Told) {
    if let Ok(name_of_key) = String::from_str(alloc, name) {
        let key = DirectiveKey::from_lowercase_owned(name_of_key);
        let is_known = is_known(alloc, &key, name);
        told.say(if is_known { "known" } else { "unknown" });
    }
}

fn is_known(alloc: Global, key: &DirectiveKey, name: &str) -> bool {
    match String::from_str(alloc, name) {
        Ok(name) => *key != DirectiveKey::Unknown(name),
        Err(_refused) => false,
    }
}

const DIRECTIVES: &str = r#"
    # directives by name
    lists max-age=10;;public -> max-age=10;public;
    lists a\f=1,\t b=2 -> b=2;
    lists a=b=c, d -> a=b;d;
    lists max-age= -> max-age;
    lists private, private="x" -> private="x";
    lists  max-age=5 -> empty
    lists private="a, b -> private;b;
    lists max-age=5; S-MaxAge=7, max-age=6 -> max-age=6;s-maxage=7;
    lists a="b\\",c";,d -> a="b\",c";d;
    # what lines say of storing
    says max-age=10;;public -> yes 10
    says max-age= -> yes none
    says max-age="10" -> yes 10
    says private, private="x" -> default none
    says  max-age=5 -> default none
    says private="a, b -> no none
    says max-age=5; S-MaxAge=7, max-age=6 -> yes 7
    says s-maxage=x, max-age=5 -> yes none
    says s-maxage, max-age=5 -> yes 5
    says no-cache, max-age=5 -> yes 0
    # the last value of a directive counts
    private private="x"|private -> yes
    says private="x"|private -> no none
    private private, private="x" -> no
    # directives are found by their lower-case names
    has:max-age max-age=1 -> yes
    has:Max-Age max-age=1 -> no
    has-max-age max-age=1 -> yes
    only-if-cached max-age=1 -> no
    has:own-name Own-Name=1 -> yes
    # listed field names
    no-cache no-cache="meta1, SeT-Cookie ,meta2", private=a -> no
    no-cache-names no-cache="meta1, SeT-Cookie ,meta2", private=a -> /meta1/SeT-Cookie/meta2
    private-names no-cache="meta1, SeT-Cookie ,meta2", private=a -> /a
    items \t,b\t c  -> //b\t c"#;

#[test]
fn directives_by_name_and_what_they_say(rt: HostRuntime) {
    play(&rt, rt.alloc(), &mut no_lines(rt.alloc()), DIRECTIVES);
}

const NUMBERS: &str = r#"
    # whole seconds, and with parts that are cut off
    seconds 4294967295 -> 4294967295 4294967295
    seconds 4294967296 -> 2147483647 2147483647
    seconds +7 -> 7 7
    seconds 99999999999x -> - -
    seconds -> - -
    seconds + -> - -
    seconds "10" -> 10 10
    seconds -1 -> - -
    seconds 1.9 -> - 1
    seconds .5 -> - 0
    seconds 5. -> - 5
    seconds 4294967295.0 -> - 2147483647
    seconds 1e3 -> - -
    seconds . -> - -
    seconds 1.2.3 -> - -
    # readings of a field
    flags max-age=1.5, s-maxage=x, stale-while-revalidate=30, stale-if-error=60, no-store, must-revalidate, proxy-revalidate -> no-store must-revalidate proxy-revalidate authorized
    windows max-age=1.5, s-maxage=x, stale-while-revalidate=30, stale-if-error=60, no-store, must-revalidate, proxy-revalidate -> unreadable unreadable 30 60 0 0
    float-max-age max-age=1.5, s-maxage=x, stale-while-revalidate=30, stale-if-error=60, no-store, must-revalidate, proxy-revalidate -> 1
    # values without their quotes
    unquoted "a b" -> text a b
    unquoted "\f" -> bytes ÿ"#;

#[test]
fn numbers_of_seconds_and_readings_of_a_field(rt: HostRuntime) {
    let overflow = Duration::from_secs(u64::from(DELTA_SECONDS_OVERFLOW_VALUE));
    assert!(rt; delta_seconds_overflow_duration() == overflow);
    play(&rt, rt.alloc(), &mut no_lines(rt.alloc()), NUMBERS);
}

const KEYS: &str = "
    key max-age -> known max-age
    key s-maxage -> known s-maxage
    key no-cache -> known no-cache
    key no-store -> known no-store
    key private -> known private
    key public -> known public
    key must-revalidate -> known must-revalidate
    key proxy-revalidate -> known proxy-revalidate
    key must-understand -> known must-understand
    key no-transform -> known no-transform
    key immutable -> known immutable
    key stale-while-revalidate -> known stale-while-revalidate
    key stale-if-error -> known stale-if-error
    key only-if-cached -> known only-if-cached
    owned-key own -> unknown";

#[test]
fn keys(rt: HostRuntime) {
    play(&rt, rt.alloc(), &mut no_lines(rt.alloc()), KEYS);
}
