//! The text of heads.
//! The rows are hand-computed from RFC 9112 (2.1) and the form in docs/FORMATS.md.
use crate::heads::append;
use crate::rows::{Desk, Told, number, play, rest, unescape, word};
use http::StatusCode;
use http_header::{HeaderMap, HeaderValue};
use pcache_base::error::{Error, Result};
use pcache_meta::header::{HttpVersion, ResponseHeader};
use pcache_meta::header_text::form::is_header_text;
use pcache_meta::header_text::reader::header_deserialize;
use pcache_meta::header_text::writer::header_serialize;
use std::alloc::{AllocError, Global};
use std::fmt::Write;

// The bytes of a text, and a head that is written.
#[derive(Drop)]
struct Heads {
    alloc: Global,
    bytes: Vec<u8>,
    header: ResponseHeader,
}

impl Desk for Heads {
    fn tell(&mut self, call: &'static str, told: &mut Told) {
        match word(call, 0) {
            "read" | "tell" => {
                if unescape(rest(call), &mut self.bytes) {
                    tell_of_text(self.alloc, self.bytes.as_slice(), word(call, 0), told);
                }
            }
            "head" => {
                self.header = head(self.alloc, call);
                told.say("ok");
            }
            "add" => add(self.alloc, &mut self.header.headers, rest(call), told),
            _ => tell_of(self.alloc, &self.header, call, told),
        }
    }
}

fn status(word: &str) -> StatusCode {
    if word == "404" {
        StatusCode::NOT_FOUND
    } else {
        StatusCode::OK
    }
}

fn version(word: &str) -> Option<HttpVersion> {
    match word {
        "0.9" => Some(HttpVersion::Http09),
        "1.0" => Some(HttpVersion::Http10),
        "1.1" => Some(HttpVersion::Http11),
        "2.0" => Some(HttpVersion::Http2),
        "3.0" => Some(HttpVersion::Http3),
        _ => None,
    }
}

fn head(alloc: Global, call: &'static str) -> ResponseHeader {
    let mut header = ResponseHeader::build(alloc, status(word(call, 1)));
    if let Some(version) = version(word(call, 2)) {
        header.version = version;
    }
    header
}

fn add(alloc: Global, headers: &mut HeaderMap, field: &'static str, told: &mut Told) {
    let (name, value) = field.split_once(' ').unwrap_or((field, ""));
    if append(alloc, headers, name, value.as_bytes()) {
        told.say("ok");
    }
}

fn tell_of_text(alloc: Global, bytes: &[u8], verb: &str, told: &mut Told) {
    let is_one = is_header_text(bytes);
    if verb == "tell" {
        told.yes_or_no(is_one);
    } else {
        tell_deserialized(header_deserialize(alloc, bytes), is_one, told);
    }
}

// What is read of the bytes, which count as a head's text exactly when they can be read.
fn tell_deserialized(read: Result<ResponseHeader>, is_one: bool, told: &mut Told) {
    if is_one != read.is_ok() {
        told.say("either read or told: ");
    }
    tell_read(read, told);
}

fn tell_read(read: Result<ResponseHeader>, told: &mut Told) {
    match read {
        Ok(header) => tell_head(&header, told),
        Err(refused) => told.refused(&refused),
    }
}

fn tell_of(alloc: Global, header: &ResponseHeader, call: &'static str, told: &mut Told) {
    match word(call, 0) {
        "copied" => tell_read(header.copied().map_err(Error::from), told),
        "shown" => tell_head(header, told),
        "write" => tell_written(header_serialize(alloc, header), told),
        _ => are_told(String::new(alloc), call, told),
    }
}

fn tell_written(text: Result<Vec<u8>, AllocError>, told: &mut Told) {
    match text {
        Ok(text) => told.bytes(text.as_slice()),
        Err(refused) => told.refused(&Error::from(refused)),
    }
}

// The version, the status, and each value after its name.
fn tell_head(header: &ResponseHeader, told: &mut Told) {
    told.named(&header.version);
    told.numbers(&[u64::from(header.status.as_u16())]);
    for (name, value) in &header.headers {
        tell_field(name.as_str(), value, told);
    }
}

fn tell_field(name: &str, value: &HeaderValue, told: &mut Told) {
    told.say(" ");
    told.say(name);
    told.say("=");
    told.bytes(value.as_bytes());
}

// Whether a text with so many names, and one more line, counts as a head's.
fn are_told(text: String, call: &'static str, told: &mut Told) {
    let mut text = text;
    if many_names(&mut text, number(call, 1), word(call, 2)) {
        told.yes_or_no(is_header_text(text.as_bytes()));
    }
}

fn many_names(text: &mut String, names: u64, line: &'static str) -> bool {
    if text.push_str("HTTP/1.1 200\r\n").is_err() {
        return false;
    }
    for number in 0..names {
        if write!(text, "x{number}: 1\r\n").is_err() {
            return false;
        }
    }
    write!(text, "{line}: 2\r\n\r\n").is_ok()
}

fn no_heads(alloc: Global) -> Heads {
    Heads {
        alloc,
        bytes: Vec::new(alloc),
        header: ResponseHeader::build(alloc, StatusCode::OK),
    }
}

const READ: &str = r"
    # a head that was just made, and its copy
    head 404
    shown -> Http11 404
    copied -> Http11 404
    # a head is written and read
    head 200 1.1
    add foo1 bar1
    write -> HTTP/1.1 200\r\nfoo1: bar1\r\n\r\n
    read HTTP/1.1 200\r\nfoo1: bar1\r\n\r\n -> Http11 200 foo1=bar1
    # values of a name stand together
    head 404 3.0
    add a 1
    add B
    add a  3
    write -> HTTP/3.0 404\r\na: 1\r\na:  3\r\nb: \r\n\r\n
    read HTTP/3.0 404\r\na: 1\r\na:  3\r\nb: \r\n\r\n -> Http3 404 a=1 a= 3 b=
    # each version has its text
    head 200 0.9
    write -> HTTP/0.9 200\r\n\r\n
    read HTTP/0.9 200\r\n\r\n -> Http09 200
    head 200 1.0
    write -> HTTP/1.0 200\r\n\r\n
    read HTTP/1.0 200\r\n\r\n -> Http10 200
    head 200 1.1
    write -> HTTP/1.1 200\r\n\r\n
    read HTTP/1.1 200\r\n\r\n -> Http11 200
    head 200 2.0
    write -> HTTP/2.0 200\r\n\r\n
    read HTTP/2.0 200\r\n\r\n -> Http2 200
    head 200 3.0
    write -> HTTP/3.0 200\r\n\r\n
    read HTTP/3.0 200\r\n\r\n -> Http3 200";

#[test]
fn heads_are_written_and_read(rt: HostRuntime) {
    play(&rt, rt.alloc(), &mut no_heads(rt.alloc()), READ);
}

const TOLD: &str = r"
    # no empty line, a status below 100, a name with an upper-case letter
    read HTTP/1.1 200\r\n -> InternalError
    read HTTP/1.1 099\r\n\r\n -> InternalError
    read HTTP/1.1 200\r\nFoo1: bar1\r\n\r\n -> InternalError
    # no value, no space after the colon, no name, a byte after the end, LF alone
    read HTTP/1.1 200\r\nfoo1\r\n\r\n -> InternalError
    read HTTP/1.1 200\r\nfoo1:bar1\r\n\r\n -> InternalError
    read HTTP/1.1 200\r\n: bar1\r\n\r\n -> InternalError
    read HTTP/1.1 200\r\nfoo1: bar1\r\n\r\nx -> InternalError
    read HTTP/1.1 200\nfoo1: bar1\n\n -> InternalError
    # another version, a reason, a control character in a value
    read HTTP/1.2 200\r\n\r\n -> InternalError
    read HTTP/1.1 200 OK\r\n\r\n -> InternalError
    read HTTP/1.1 200\r\nfoo1: b\1\r\n\r\n -> InternalError
    read -> InternalError
    # a name that comes again after another
    read HTTP/1.1 200\r\na: 1\r\nb: 2\r\na: 3\r\n\r\n -> InternalError
    # heads are told
    tell HTTP/1.1 200\r\n\r\n -> yes
    tell HTTP/3.0 404\r\na: 1\r\na:  3\r\nb: \r\n\r\n -> yes
    tell HTTP/1.1 200\r\na: 1\r\nb: 2\r\nc: 3\r\n\r\n -> yes
    tell HTTP/1.1 200\r\na: 1\r\nA: 2\r\n\r\n -> no
    tell HTTP/1.1 200\r\na: 1\r\nb: 2\r\nb: 3\r\na: 4\r\n\r\n -> no
    tell HTTP/1.1 200\r\na: 1\d\r\n\r\n -> no
    tell HTTP/1.1 200\r\na: \t\f\r\n\r\n -> yes
    # a name that comes again is told after any number of names, which are looked for 64 at once
    many 64 x63 -> yes
    many 64 x0 -> no
    many 65 x0 -> no
    many 65 x64 -> yes
    many 200 x130 -> no
    many 200 y -> yes";

#[test]
fn heads_are_told(rt: HostRuntime) {
    play(&rt, rt.alloc(), &mut no_heads(rt.alloc()), TOLD);
}
