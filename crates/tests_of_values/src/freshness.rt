//! Worked rows of freshness and of requests to the origin. Moments are 1,000 s and some seconds.
//! They are hand-computed from RFC 9111 (3, 4.2, 5.3), RFC 5861 and RFC 9110 (13.1, 14.2).
use crate::heads::append;
use crate::rows::{Desk, Told, play};
use http::{Method, StatusCode};
use http_header::HeaderMap;
use pcache_base::error::Result;
use pcache_base::moment::Moment;
use pcache_control::cache_control::CacheControl;
use pcache_control::defaults::CacheMetaDefaults;
use pcache_control::filters::upstream::request_filter;
use pcache_control::filters::{
    calculate_expires_header_time, calculate_serve_stale_durations, request_cacheable,
    resp_cacheable,
};
use pcache_control::response::RespCacheable;
use pcache_meta::header::{RequestHeader, ResponseHeader};
use pcache_meta::meta::CacheMeta;
use std::alloc::Global;
use std::time::Duration;

fn by_status(status: StatusCode) -> Option<Duration> {
    match status.as_u16() {
        200 => Some(Duration::from_secs(10)),
        404 => Some(Duration::from_secs(5)),
        206 => None,
        _ => Some(Duration::from_secs(1)),
    }
}

fn nothing(_status: StatusCode) -> Option<Duration> {
    None
}

// Rows of responses: after the call come the status, the line of Cache-Control and each of Expires, between bars.
#[derive(Drop)]
struct Answers {
    alloc: Global,
    by_status: CacheMetaDefaults,
    by_nothing: CacheMetaDefaults,
}

impl Desk for Answers {
    fn tell(&mut self, call: &'static str, told: &mut Told) {
        let (verb, text) = call.split_once(' ').unwrap_or((call, ""));
        let (code, fields) = text.split_once('|').unwrap_or((text, ""));
        let mut header = ResponseHeader::build(self.alloc, status(code));
        if set_all_fields(self.alloc, &mut header.headers, verb, fields) {
            self.answer(header, verb, told);
        }
    }
}

impl Answers {
    fn answer(&self, header: ResponseHeader, verb: &str, told: &mut Told) {
        match verb {
            "until" => until(outcome(self.alloc, header, false, &self.by_status), told),
            "until-authorized" => until(outcome(self.alloc, header, true, &self.by_status), told),
            "until-by-nothing" => until(outcome(self.alloc, header, false, &self.by_nothing), told),
            "expires" => expires(&header, told),
            "kept" => tell_kept(outcome(self.alloc, header, false, &self.by_status), told),
            _ => windows(windows_of(self.alloc, &header, &self.by_status), told),
        }
    }
}

fn status(text: &str) -> StatusCode {
    match text {
        "304" => StatusCode::NOT_MODIFIED,
        "404" => StatusCode::NOT_FOUND,
        "206" => StatusCode::PARTIAL_CONTENT,
        "416" => StatusCode::RANGE_NOT_SATISFIABLE,
        _ => StatusCode::OK,
    }
}

// The first text is that of Cache-Control, and those after it of Expires.
fn set_fields(alloc: Global, headers: &mut HeaderMap, fields: &'static str) -> bool {
    let (line, expires) = fields.split_once('|').unwrap_or((fields, ""));
    set(alloc, headers, "cache-control", line) && set_all(alloc, headers, "expires", expires)
}

fn set_all(alloc: Global, headers: &mut HeaderMap, name: &str, texts: &'static str) -> bool {
    for text in texts.split('|') {
        if !set(alloc, headers, name, text) {
            return false;
        }
    }
    true
}

// A field is added, unless its text is empty.
fn set(alloc: Global, headers: &mut HeaderMap, name: &str, text: &str) -> bool {
    text.is_empty() || append(alloc, headers, name, text.as_bytes())
}

// Whether the response is stored at second 1,000.
fn outcome(
    alloc: Global,
    header: ResponseHeader,
    authorized: bool,
    defaults: &CacheMetaDefaults,
) -> Result<RespCacheable> {
    let cc = CacheControl::from_resp_headers(alloc, &header)?;
    let now = Moment::from_secs(1000);
    Ok(resp_cacheable(cc.as_ref(), header, authorized, defaults, now))
}

// The second until which the response is fresh, if it is stored.
fn until(outcome: Result<RespCacheable>, told: &mut Told) {
    match outcome {
        Ok(RespCacheable::Cacheable(meta)) => told.number(meta.fresh_until().secs()),
        Ok(RespCacheable::Uncacheable(_reason)) => told.say("not stored"),
        Err(refused) => told.refused(&refused),
    }
}

fn expires(header: &ResponseHeader, told: &mut Told) {
    let is_none = calculate_expires_header_time(header).is_none();
    told.say(if is_none { "none" } else { "some" });
}

// The two windows.
fn windows_of(
    alloc: Global,
    header: &ResponseHeader,
    defaults: &CacheMetaDefaults,
) -> Result<(u32, u32)> {
    let cc = CacheControl::from_resp_headers(alloc, header)?;
    Ok(calculate_serve_stale_durations(cc.as_ref(), defaults))
}

fn windows(windows: Result<(u32, u32)>, told: &mut Told) {
    match windows {
        Ok((while_updating, in_error)) => {
            told.numbers(&[u64::from(while_updating), u64::from(in_error)]);
        }
        Err(refused) => told.refused(&refused),
    }
}

fn set_all_fields(
    alloc: Global,
    headers: &mut HeaderMap,
    verb: &str,
    fields: &'static str,
) -> bool {
    set_fields(alloc, headers, fields) && (verb != "kept" || set_three(alloc, headers))
}

fn set_three(alloc: Global, headers: &mut HeaderMap) -> bool {
    set(alloc, headers, "set-cookie", "x")
        && set(alloc, headers, "something", "x")
        && set(alloc, headers, "meta1", "x")
}

// Which of the three fields are stored.
fn tell_kept(outcome: Result<RespCacheable>, told: &mut Told) {
    match outcome {
        Ok(RespCacheable::Cacheable(meta)) => tell_fields(meta.headers(), told),
        Ok(RespCacheable::Uncacheable(_reason)) => told.say("not stored"),
        Err(refused) => told.refused(&refused),
    }
}

fn tell_fields(headers: &HeaderMap, told: &mut Told) {
    tell_field(headers, "set-cookie", told);
    tell_field(headers, "something", told);
    tell_field(headers, "meta1", told);
}

fn tell_field(headers: &HeaderMap, name: &str, told: &mut Told) {
    if headers.contains_key(name) {
        told.say(name);
        told.say(" ");
    }
}

const LIFETIMES: &str = r#"
    # by Cache-Control
    until 200|max-age=12345 -> 13345
    until 200|private, max-age=12345 -> not stored
    until 200|no-store, max-age=12345 -> not stored
    until-authorized 200 -> not stored
    until-authorized 200|max-age=10 -> not stored
    until-authorized 200|s-maxage=10 -> 1010
    until-authorized 200|public, max-age=10 -> 1010
    until-authorized 200|must-revalidate -> 1010
    until 200|max-age=0, public -> 999
    until 200|max-age=0|Thu, 01 Jan 1970 00:16:45 GMT -> 999
    until 200|max-age=0|Thu, 01 Jan 1970 01:00:00 GMT -> 999
    # by Expires
    until-by-nothing 200||Thu, 01 Jan 1970 00:16:45 GMT -> 1005
    until-by-nothing 200||Fri, 15 May 2015 15:34:21 GMT -> 1431704061
    until-by-nothing 200||Mon, 13 Feb 0002 12:00:00 GMT -> 0
    until-by-nothing 200||Fri, 01 Dec 99999 16:00:00 GMT -> 0
    until-by-nothing 200||0 -> 0
    # a field that comes twice says nothing
    expires 200||Thu, 01 Jan 1970 00:16:45 GMT -> some
    expires 200||Thu, 01 Jan 1970 00:16:45 GMT|Thu, 01 Jan 1970 00:16:45 GMT -> none
    until-by-nothing 200||Thu, 01 Jan 1970 00:16:45 GMT|Thu, 01 Jan 1970 00:16:45 GMT -> not stored
    # by status
    until 200 -> 1010
    until 304 -> 1010
    until 404 -> 1005
    until 206 -> not stored
    until 206|public, max-age=10 -> 1010
    until 416 -> 1001
    until 206||Thu, 01 Jan 1970 00:16:45 GMT -> 1005
    # stale windows
    windows 200|max-age=10 -> 0 2147483647
    windows 200|max-age=10, stale-while-revalidate=5, stale-if-error=60 -> 5 60
    windows 200|max-age=10, stale-if-error=0 -> 0 0
    windows 200|max-age=10, stale-if-error=60, must-revalidate -> 0 0
    windows 200|max-age=10, stale-if-error=x -> 0 2147483647
    # private fields
    kept 200|private="something", max-age=10 -> set-cookie meta1
    kept 200|max-age=0, no-cache="meta1, SeT-Cookie ,meta2" -> something"#;

#[test]
fn lifetimes_windows_and_private_fields(rt: HostRuntime) {
    let mut answers = Answers {
        alloc: rt.alloc(),
        by_status: CacheMetaDefaults::new(by_status, 0, 2147483647),
        by_nothing: CacheMetaDefaults::new(nothing, 0, 2147483647),
    };
    play(&rt, rt.alloc(), &mut answers, LIFETIMES);
}

// A request, and a meta that is kept for it.
#[derive(Drop)]
struct Asking {
    request: RequestHeader,
    meta: CacheMeta,
}

const LAST_MODIFIED: &str = "Thu, 01 Jan 1970 01:00:00 GMT";

fn asking_by(alloc: Global, method: Method) -> Asking {
    let request = RequestHeader {
        method,
        target: Vec::new(alloc),
        headers: HeaderMap::new(alloc),
    };
    let header = ResponseHeader::build(alloc, StatusCode::OK);
    let now = Moment::from_secs(1000);
    let meta = CacheMeta::new(now, now, 0, 0, header);
    Asking { request, meta }
}

fn has_fields(alloc: Global, headers: &mut HeaderMap, kept: &mut HeaderMap) -> bool {
    set(alloc, headers, "range", "bytes=0-1")
        && set(alloc, headers, "if-match", "\"other\"")
        && set(alloc, kept, "etag", "\"a\"")
        && set(alloc, kept, "last-modified", LAST_MODIFIED)
}

fn is_filled(alloc: Global, asking: &mut Asking) -> bool {
    asking.request.target.push(b'/').is_ok()
        && has_fields(
            alloc,
            &mut asking.request.headers,
            &mut asking.meta.response_header_mut().headers,
        )
}

fn is_passed_on(plain: &mut RequestHeader) -> bool {
    !request_cacheable(plain)
        && request_filter(plain, None).is_ok()
        && plain.method == Method::POST
        && plain.headers.is_empty()
}

#[test]
fn a_request_that_nothing_is_kept_for(rt: HostRuntime) {
    let mut asking = asking_by(rt.alloc(), Method::POST);
    let is_filled = is_filled(rt.alloc(), &mut asking);
    assert!(rt; is_filled && is_passed_on(&mut asking.request));
}

fn has_value(head: &RequestHeader, name: &str, wanted: &[u8]) -> bool {
    match head.headers.get(name) {
        Some(value) => value.as_bytes() == wanted,
        None => false,
    }
}

fn has_conditions(head: &RequestHeader) -> bool {
    !head.headers.contains_key("range")
        && !head.headers.contains_key("if-match")
        && has_value(head, "if-none-match", b"\"a\"")
        && has_value(head, "if-modified-since", LAST_MODIFIED.as_bytes())
}

fn asks_again(head: &mut RequestHeader, meta: &CacheMeta) -> bool {
    request_cacheable(head)
        && request_filter(head, Some(meta)).is_ok()
        && head.method == Method::GET
        && has_conditions(head)
}

#[test]
fn a_request_asks_whether_what_is_kept_is_still_good(rt: HostRuntime) {
    let mut asking = asking_by(rt.alloc(), Method::HEAD);
    let is_filled = is_filled(rt.alloc(), &mut asking);
    assert!(rt; is_filled && asks_again(&mut asking.request, &asking.meta));
}
