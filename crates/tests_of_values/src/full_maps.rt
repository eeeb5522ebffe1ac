//! Heads with as many names as a head can have, and with one more.
use crate::heads::append;
use crate::rows::{Desk, Told, number, play, word};
use http::{Method, StatusCode};
use http_header::HeaderMap;
use pcache_base::error::{ErrorType, Result};
use pcache_base::moment::Moment;
use pcache_control::filters::upstream::request_filter;
use pcache_meta::header::{RequestHeader, ResponseHeader};
use pcache_meta::header_text::reader::header_deserialize;
use pcache_meta::meta::CacheMeta;
use std::alloc::Global;
use std::fmt::Write;

// A request and a text, which each call writes again, and the stored meta.
#[derive(Drop)]
struct Full {
    alloc: Global,
    request: RequestHeader,
    text: String,
    stored: CacheMeta,
}

fn make_full(alloc: Global) -> Full {
    Full {
        alloc,
        request: request(alloc),
        text: String::new(alloc),
        stored: stored(alloc),
    }
}

impl Desk for Full {
    fn tell(&mut self, call: &'static str, told: &mut Told) {
        match word(call, 0) {
            "store" => {
                let kept = &mut self.stored.response_header_mut().headers;
                told.yes_or_no(has_etag_and_date(self.alloc, kept));
            }
            "ask-with" => {
                self.request = request(self.alloc);
                let headers = &mut self.request.headers;
                if fill(self.alloc, headers, &mut self.text, number(call, 1)) {
                    ask(&mut self.request, &self.stored, told);
                }
            }
            _ => {
                if write_text(&mut self.text, number(call, 1)) {
                    tell_read(header_deserialize(self.alloc, self.text.as_bytes()), told);
                }
            }
        }
    }
}

// Adds a name by its number.
fn add(alloc: Global, headers: &mut HeaderMap, name: &mut String, number: u64) -> bool {
    name.clear();
    write!(name, "x{number}").is_ok() && append(alloc, headers, name.as_str(), b"1")
}

fn fill(alloc: Global, headers: &mut HeaderMap, name: &mut String, names: u64) -> bool {
    for number in 0..names {
        if !add(alloc, headers, name, number) {
            return false;
        }
    }
    true
}

fn request(alloc: Global) -> RequestHeader {
    RequestHeader {
        method: Method::GET,
        target: Vec::new(alloc),
        headers: HeaderMap::new(alloc),
    }
}

fn stored(alloc: Global) -> CacheMeta {
    let now = Moment::from_secs(1000);
    CacheMeta::new(now, now, 0, 0, ResponseHeader::build(alloc, StatusCode::OK))
}

fn has_etag_and_date(alloc: Global, kept: &mut HeaderMap) -> bool {
    append(alloc, kept, "etag", b"\"a\"")
        && append(
            alloc,
            kept,
            "last-modified",
            b"Thu, 01 Jan 1970 01:00:00 GMT",
        )
}

// The result of asking whether the stored response is still valid, and how many names the request has
// then.
fn ask(request: &mut RequestHeader, meta: &CacheMeta, told: &mut Told) {
    told.done(request_filter(request, Some(meta)));
    tell_names(&request.headers, told);
}

fn tell_names(headers: &HeaderMap, told: &mut Told) {
    told.say(" ");
    told.shown(&headers.keys_len());
}

// The text of a head with so many names.
fn write_text(text: &mut String, names: u64) -> bool {
    text.clear();
    if text.push_str("HTTP/1.1 200\r\n").is_err() {
        return false;
    }
    for number in 0..names {
        if write!(text, "x{number}: 1\r\n").is_err() {
            return false;
        }
    }
    text.push_str("\r\n").is_ok()
}

fn tell_read(header: Result<ResponseHeader>, told: &mut Told) {
    match header {
        Ok(header) => tell_names(&header.headers, told),
        Err(refused) => told.refused(&refused),
    }
}

// A head has at most 24,576 names.
const FULL: &str = "
    store -> yes
    # a full request has no room to ask, one with room for one field asks in part, and one with room for two asks
    ask-with 24576 -> InternalError 24576
    ask-with 24575 -> InternalError 24576
    ask-with 24574 -> ok 24576
    # a text of as many names is read, and one of one name more is unreadable
    read 24576 -> 24576
    read 24577 -> InternalError";

#[test]
fn full_requests_and_texts(rt: HostRuntime) {
    play(&rt, rt.alloc(), &mut make_full(rt.alloc()), FULL);
}
