//! The parser of a response that is pushed in, piece by piece.
//! The rows are hand-computed from RFC 9112 (2, 6.3) and RFC 9110 (6.4.1), some after upstream's tests
//! from `test_basic_response` to `test_200_with_zero_content_length_more_data`.
use crate::rows::{Desk, Told, number, play, rest, unescape, word};
use bytes::Bytes;
use pcache_base::error::{ErrorType, Result};
use pcache_meta::header::ResponseHeader;
use pcache_response::response_parse::*;
use std::alloc::Global;
use std::fmt::Write;
use std::process::Abort;

// A parser, the bytes of a piece, and what the parts so far amount to.
#[derive(Drop)]
struct Parses {
    alloc: Global,
    parser: ResponseParse,
    piece: Vec<u8>,
    seen: Seen,
}

#[derive(Drop)]
struct Seen {
    heads: u64,
    bodies: u64,
    head: String,
    body: Vec<u8>,
    whole: bool,
}

fn new_parser(alloc: Global) -> Parses {
    Parses {
        alloc,
        parser: ResponseParse::new(alloc),
        piece: Vec::new(alloc),
        seen: nothing_seen(alloc),
    }
}

fn nothing_seen(alloc: Global) -> Seen {
    Seen {
        heads: 0,
        bodies: 0,
        head: String::new(alloc),
        body: Vec::new(alloc),
        whole: false,
    }
}

impl Desk for Parses {
    fn tell(&mut self, call: &'static str, told: &mut Told) {
        match word(call, 0) {
            "new" => {
                self.parser = ResponseParse::new(self.alloc);
                self.seen = nothing_seen(self.alloc);
                told.say("ok");
            }
            "feed" | "feed-fields" => {
                if put_piece(&mut self.piece, call) {
                    let parts = self.parser.inject_data(self.piece.as_slice());
                    tell_parts(&mut self.seen, parts, told);
                }
            }
            "finish" => told.done(self.parser.finish()),
            _ => tell_seen(&self.seen, told),
        }
    }
}

// The piece of a call, which is its text, or a head of so many fields.
fn put_piece(piece: &mut Vec<u8>, call: &'static str) -> bool {
    if word(call, 0) == "feed" {
        unescape(rest(call), piece)
    } else {
        piece.clear();
        put_fields(piece, number(call, 1))
    }
}

fn put_fields(head: &mut Vec<u8>, fields: u64) -> bool {
    if head.extend_from_slice(b"HTTP/1.1 200 OK\r\n").is_err() {
        return false;
    }
    for _ in 0..fields {
        if head.extend_from_slice(b"a: b\r\n").is_err() {
            return false;
        }
    }
    head.extend_from_slice(b"\r\n").is_ok()
}

// Tells how many parts came of a piece, and sees them.
fn tell_parts(seen: &mut Seen, parts: Result<Vec<ParsePart>>, told: &mut Told) {
    match parts {
        Ok(parts) => {
            told.shown(&parts.len());
            if !see(seen, parts) {
                told.say(", and not seen");
            }
        }
        Err(refused) => told.refused(&refused),
    }
}

fn see(seen: &mut Seen, parts: Vec<ParsePart>) -> bool {
    for part in parts {
        if !see_part(seen, part) {
            return false;
        }
    }
    true
}

fn see_part(seen: &mut Seen, part: ParsePart) -> bool {
    match part {
        ParsePart::Head(head, whole) => {
            seen.heads = seen.heads.saturating_add(1);
            seen.whole = whole;
            see_head(&mut seen.head, &head)
        }
        ParsePart::Body(bytes, whole) => {
            seen.bodies = seen.bodies.saturating_add(1);
            seen.whole = whole;
            seen.body.extend_from_slice(bytes.as_slice()).is_ok()
        }
    }
}

// Version and status, the number of fields, and who served.
fn see_head(seen: &mut String, head: &ResponseHeader) -> bool {
    seen.clear();
    let status = head.status.as_u16();
    let fields = head.headers.len();
    write!(seen, "{:?} {status} of {fields}", head.version).is_ok()
        && see_field(seen, head, "server")
}

fn see_field(seen: &mut String, head: &ResponseHeader, name: &str) -> bool {
    match head.headers.get(name) {
        Some(value) => see_value(seen, value.as_bytes()),
        None => true,
    }
}

fn see_value(seen: &mut String, value: &[u8]) -> bool {
    match str::from_utf8(value) {
        Ok(value) => seen.push_str(" by ").is_ok() && seen.push_str(value).is_ok(),
        Err(_no_text) => false,
    }
}

// The last head, how many heads and bodies came, whether the end is known to have come, and the body.
fn tell_seen(seen: &Seen, told: &mut Told) {
    told.say(seen.head.as_str());
    told.say(", ");
    told.number(seen.heads);
    told.say(" + ");
    told.number(seen.bodies);
    told.say(if seen.whole { ", whole: " } else { ": " });
    told.bytes(seen.body.as_slice());
}

fn run(rt: &impl Abort, alloc: Global, rows: &'static str) {
    play(rt, alloc, &mut new_parser(alloc), rows);
}

const HEADS: &str = r"
    # a basic response
    feed HTTP/1.1 200 OK\r\n\r\n -> 1
    finish
    seen -> Http11 200 of 0, 1 + 0:
    new
    feed HTTP/1.1 200 OK\r\n\r\n -> 1
    feed abc -> 1
    finish
    seen -> Http11 200 of 0, 1 + 1: abc
    # a head in two pieces
    new
    feed HTTP/1.1 200 OK\r\n -> 0
    feed Server: pingora\r\n\r\n -> 1
    seen -> Http11 200 of 1 by pingora, 1 + 0:
    # empty lines before the head
    new
    feed \r\n\n\r -> 0
    feed \nHTTP/1.0 200 OK\n\nab -> 2
    finish
    seen -> Http10 200 of 0, 1 + 1: ab
    # many fields
    new
    feed-fields 256 -> 1
    seen -> Http11 200 of 256, 1 + 0:
    new
    feed-fields 257 -> InvalidHttpHeader";

#[test]
fn heads(rt: HostRuntime) {
    run(&rt, rt.alloc(), HEADS);
}

const INVALID: &str = r"
    feed HTP/1.1 200 OK\r\nServer: pingora\r\n\r\n -> InvalidHttpHeader
    feed HTTP/1.1 200 OK\r\n\r\n -> InvalidHttpHeader
    finish -> InvalidHttpHeader
    new
    feed HTTP/1.1 099 OK\r\n\r\n -> InvalidHttpHeader
    feed HTTP/1.1 200 OK\r\n\r\n -> InvalidHttpHeader
    finish -> InvalidHttpHeader
    new
    feed HTTP/1.1 200 OK\r\nA: a\0b\r\n\r\n -> InvalidHttpHeader
    feed HTTP/1.1 200 OK\r\n\r\n -> InvalidHttpHeader
    finish -> InvalidHttpHeader
    new
    feed HTTP/1.1 200 OK\r\nA : b\r\n\r\n -> InvalidHttpHeader
    feed HTTP/1.1 200 OK\r\n\r\n -> InvalidHttpHeader
    finish -> InvalidHttpHeader
    new
    feed HTTP/1.1 200 OK\r\nA: b\r\n c\r\n\r\n -> InvalidHttpHeader
    feed HTTP/1.1 200 OK\r\n\r\n -> InvalidHttpHeader
    finish -> InvalidHttpHeader
    new
    feed HTTP/2 200\r\n\r\n -> InvalidHttpHeader
    feed HTTP/1.1 200 OK\r\n\r\n -> InvalidHttpHeader
    finish -> InvalidHttpHeader";

#[test]
fn invalid_headers(rt: HostRuntime) {
    run(&rt, rt.alloc(), INVALID);
}

const BODIES: &str = r"
    # of a length
    feed HTTP/1.1 200 OK\r\nContent-Length: 6\r\n\r\nabc -> 2
    seen -> Http11 200 of 1, 1 + 1: abc
    feed def -> 1
    seen -> Http11 200 of 1, 1 + 2, whole: abcdef
    finish
    feed ghi -> 0
    # it ends early
    new
    feed HTTP/1.1 200 OK\r\nContent-Length: 6\r\n\r\nabc -> 2
    finish -> IncompleteHttpBody
    feed def -> IncompleteHttpBody
    # more than its length came
    new
    feed HTTP/1.1 200 OK\r\nContent-Length: +2\r\n\r\nabc -> 2
    feed d -> 0
    seen -> Http11 200 of 1, 1 + 1, whole: ab
    finish
    # in chunks, which are not looked into
    new
    feed HTTP/1.1 200 OK\r\nTransfer-Encoding: chunked\r\n\r\n -> 1
    feed rust -> 1
    seen -> Http11 200 of 1, 1 + 1: rust
    finish
    new
    feed HTTP/1.1 200 OK\r\nTransfer-Encoding: chunked\r\n\r\n -> 1
    feed ru -> 1
    feed st\r\n -> 1
    seen -> Http11 200 of 1, 1 + 2: rust\r\n
    finish";

#[test]
fn bodies(rt: HostRuntime) {
    run(&rt, rt.alloc(), BODIES);
}

const LENGTHS: &str = r"
    # lengths that cannot be read
    feed HTTP/1.1 200 OK\r\nContent-Length: 2x\r\n\r\n -> 1
    feed abc -> 1
    seen -> Http11 200 of 1, 1 + 1: abc
    finish
    new
    feed HTTP/1.1 200 OK\r\nContent-Length:\r\n\r\n -> 1
    feed abc -> 1
    seen -> Http11 200 of 1, 1 + 1: abc
    finish
    new
    feed HTTP/1.1 200 OK\r\nContent-Length: 18446744073709551616\r\n\r\n -> 1
    feed abc -> 1
    seen -> Http11 200 of 1, 1 + 1: abc
    finish
    new
    feed HTTP/1.1 200 OK\r\nContent-Length: \f\r\n\r\n -> 1
    feed abc -> 1
    seen -> Http11 200 of 1, 1 + 1: abc
    finish
    # no body
    new
    feed HTTP/1.1 200 OK\r\nContent-Length: 0\r\n\r\n -> 1
    feed rust -> 0
    seen -> Http11 200 of 1, 1 + 0, whole:
    finish
    new
    feed HTTP/1.1 304 Not Modified\r\n\r\n -> 1
    feed rust -> 0
    seen -> Http11 304 of 0, 1 + 0, whole:
    finish
    new
    feed HTTP/1.1 204 No Content\r\nTransfer-Encoding: chunked\r\n\r\n -> 1
    feed rust -> 0
    seen -> Http11 204 of 1, 1 + 0, whole:
    finish
    new
    feed HTTP/1.1 204 No Content\r\nContent-Length: 4\r\n\r\n -> 1
    feed rust -> 0
    seen -> Http11 204 of 1, 1 + 0, whole:
    finish
    new
    feed HTTP/1.1 200 OK\r\nContent-Length: 0\r\nContent-Length: 9\r\n\r\n -> 1
    feed rust -> 0
    seen -> Http11 200 of 2, 1 + 0, whole:
    finish";

#[test]
fn lengths_that_cannot_be_read_and_no_body(rt: HostRuntime) {
    run(&rt, rt.alloc(), LENGTHS);
}

fn never_ends(parser: &mut ResponseParse) -> bool {
    for _ in 0..100 {
        if !is_awaited(parser.inject_data(b"never ends")) {
            return false;
        }
    }
    match parser.finish() {
        Ok(()) => false,
        Err(refused) => refused.etype() == INCOMPLETE_BODY,
    }
}

fn is_awaited(parts: Result<Vec<ParsePart>>) -> bool {
    match parts {
        Ok(parts) => parts.is_empty(),
        Err(_refused) => false,
    }
}

#[test]
fn a_head_that_never_ends(rt: HostRuntime) {
    assert!(rt; INCOMPLETE_BODY == ErrorType::IncompleteHttpBody);
    assert!(rt; never_ends(&mut ResponseParse::new(rt.alloc())));
}

const WHOLE: &[u8] = b"HTTP/1.1 200 OK\r\nContent-Length: 4\r\n\r\nrustXX";

// Feeds these bytes, and returns whether they were taken.
fn is_fed(parses: &mut Parses, piece: &[u8]) -> bool {
    match parses.parser.inject_data(piece) {
        Ok(parts) => see(&mut parses.seen, parts),
        Err(_refused) => false,
    }
}

fn is_whole(seen: &Seen) -> bool {
    seen.heads == 1
        && seen.head.as_str() == "Http11 200 of 1"
        && seen.body.as_slice() == b"rust".as_slice()
        && seen.whole
}

// Whether the body was seen whole.
fn is_seen(parses: &mut Parses) -> bool {
    is_whole(&parses.seen) && parses.parser.finish().is_ok()
}

fn is_seen_cut(parses: &mut Parses, first: &[u8], second: &[u8]) -> bool {
    is_fed(parses, first) && is_fed(parses, second) && is_seen(parses)
}

fn is_seen_by_bytes(parses: &mut Parses) -> bool {
    for byte in WHOLE {
        if !is_fed(parses, &[*byte]) {
            return false;
        }
    }
    is_seen(parses) && parses.seen.bodies == 4
}

fn is_seen_cut_anywhere(alloc: Global) -> bool {
    for cut in 0..WHOLE.len() {
        let (first, second) = WHOLE.split_at(cut);
        if !is_seen_cut(&mut new_parser(alloc), first, second) {
            return false;
        }
    }
    true
}

#[test]
fn cut_at_every_place(rt: HostRuntime) {
    assert!(rt; is_seen_cut_anywhere(rt.alloc()));
    assert!(rt; is_seen_by_bytes(&mut new_parser(rt.alloc())));
}

const HEAD: &[u8] = b"HTTP/1.1 200 OK\r\n\r\n";

// A head, if there is one, and then so many bytes of its body.
fn piece_of(alloc: Global, head: &[u8], count: usize) -> Result<Bytes> {
    let mut piece = Vec::new(alloc);
    piece.extend_from_slice(head)?;
    for _ in 0..count {
        piece.push(b'x')?;
    }
    Ok(Bytes::from_vec(piece)?)
}

// Whether the part of the body in a piece shares it, of so many bytes behind a head of 19.
fn is_shared(alloc: Global, count: usize) -> Result<bool> {
    let piece = piece_of(alloc, HEAD, count)?;
    let parts = ResponseParse::new(alloc).take_piece(&piece)?;
    Ok(is_held(&piece, &parts, count))
}

// The same of a piece behind the head's.
fn is_shared_alone(alloc: Global, count: usize) -> Result<bool> {
    let piece = piece_of(alloc, b"", count)?;
    let mut parser = ResponseParse::new(alloc);
    parser.take_piece(&Bytes::from_static(HEAD))?;
    let parts = parser.take_piece(&piece)?;
    Ok(is_held(&piece, &parts, count))
}

fn is_held(piece: &Bytes, parts: &PieceParts, count: usize) -> bool {
    match &parts.body {
        Some((bytes, _)) => bytes.len() == count && !piece.is_unique(),
        None => false,
    }
}

// What no contract says: which memory the parts take.
#[test]
fn a_part_shares_the_piece_of_which_it_is_most(rt: HostRuntime) {
    let alloc = rt.alloc();
    assert!(rt; matches!(is_shared(alloc, 151), Ok(false)));
    assert!(rt; matches!(is_shared(alloc, 152), Ok(true)));
    assert!(rt; matches!(is_shared_alone(alloc, 1), Ok(true)));
}
