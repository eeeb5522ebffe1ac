//! Heads of responses from the bytes in which they came (RFC 9112).
ghost use Rattle.std.specs.Prelude.{◌≡◌, ◌⊎◌, ◌≤◌, All, IfErr, IfOk, OnOk, length, map, take};
ghost use Rattle.httparse.specs.Grammar.{ResponseHead};
ghost use Rattle.httparse.specs.Spans.{IsHeaderWithin, IsResponseAt, header_bytes};
ghost use Rattle.pcache_response.specs.Fields.{IsPair, IsShort, append_pair, fields_after};
ghost use Rattle.pcache_response.specs.Head.{version_of};
ghost use Rattle.pcache_c.specs.Received.{IsHeadOf, Receives, RefusesBytes};

use crate::codes::{BAD_VALUE, NONE, OK, UNREADABLE};
use crate::handle::PcacheHandle;
use crate::heads::add_line;
use crate::object::Object;
use http::StatusCode;
use http_header::HeaderMap;
use httparse::Status;
use httparse::spans::{EMPTY_HEADER_SPAN, HeaderSpan, ResponseSpans, parse_response};
use pcache_meta::header::{HttpVersion, ResponseHeader};
use std::alloc::Global;

// How many fields a head may have.
const MAX_FIELDS: usize = 256;

// Where the parts of the head are that the bytes begin with.
fn spans_in(bytes: &[u8], room: &mut [HeaderSpan]) -> Result<ResponseSpans, u32>
    requires { length room.old ≡ 256 }
    ensures found { IfOk result (λ r. (h : ResponseHead)
        × IsResponseAt bytes.now room.new r h
        × (length h.fields ≤ 256)) }
    ensures within { IfOk result (λ r. (r.headers ≤ length room.new)
        × All (IsHeaderWithin (length bytes.now)) (take r.headers room.new)) }
    ensures refused { IfErr result (RefusesBytes bytes.now) }
{
    // Not by the parser of puts, which keeps bytes between pieces, copies those of the body and
    // does not say where the head ended.
    match parse_response(bytes, room) {
        Ok(Status::Complete(spans)) => Ok(spans),
        // No error: the caller keeps the bytes, and asks again once more have come.
        Ok(Status::Partial) => Err(NONE),
        Err(_) => Err(UNREADABLE),
    }
}

// Adds the field that a span covers.
fn add_span(alloc: Global, fields: &mut HeaderMap, bytes: &[u8], span: HeaderSpan) -> u32
    requires { IsHeaderWithin (length bytes.now) span }
    ensures done { result ≡ 0 → fields.new ≡ append_pair fields.old (header_bytes bytes.now span) }
    ensures short { result ≡ 0 → IsShort (header_bytes bytes.now span) }
    ensures long { IsPair (header_bytes bytes.now span)
        → result ≡ 4
        → ¬ (IsShort (header_bytes bytes.now span)) }
    ensures how { (result ≡ 0) ⊎ (result ≡ 4) ⊎ (result ≡ 1) }
{
    add_line(alloc, fields, span.name.of(bytes), span.value.of(bytes))
}

// The fields that the spans cover.
fn fields_in(alloc: Global, bytes: &[u8], spans: &[HeaderSpan]) -> Result<HeaderMap, u32>
    requires within { All (IsHeaderWithin (length bytes.now)) spans.now }
    requires pairs { All IsPair (map (header_bytes bytes.now) spans.now) }
    ensures ok { IfOk result (λ fields.
        fields ≡ fields_after (map (header_bytes bytes.now) spans.now)) }
    ensures short { OnOk result (All IsShort (map (header_bytes bytes.now) spans.now)) }
    ensures long { IfErr result (λ code.
        code ≡ 4 → ¬ (All IsShort (map (header_bytes bytes.now) spans.now))) }
    ensures kind { IfErr result (λ code. (code ≡ 4) ⊎ (code ≡ 1)) }
{
    let mut fields = HeaderMap::new(alloc);
    'spans: for i in 0..spans.len() {
        let code = add_span(alloc, &mut fields, bytes, spans[i]);
        if code != OK {
            return Err(code);
        }
    }
    Ok(fields)
}

fn version_of(minor: u8) -> HttpVersion
    ensures { result ≡ version_of minor }
{
    if minor == 0 {
        HttpVersion::Http10
    } else {
        HttpVersion::Http11
    }
}

// The head that the bytes begin with, and its length.
fn read(alloc: Global, bytes: &[u8]) -> Result<(ResponseHeader, usize), u32>
    ensures head { IfOk result (λ r. IsHeadOf bytes.now r.1 r.0) }
    ensures refused { IfErr result (RefusesBytes bytes.now) }
{
    let mut room = [EMPTY_HEADER_SPAN; MAX_FIELDS];
    let spans = spans_in(bytes, &mut room)?;
    let Ok(status) = StatusCode::from_u16(spans.code) else {
        return Err(UNREADABLE);
    };
    match fields_in(alloc, bytes, &room[..spans.headers]) {
        Ok(headers) => {
            let version = version_of(spans.version);
            let head = ResponseHeader {
                version,
                status,
                headers,
            };
            Ok((head, spans.len))
        }
        Err(BAD_VALUE) => Err(UNREADABLE),
        Err(code) => Err(code),
    }
}

/// The head of a response at the start of the bytes in which it came, and how many bytes it has: what follows it is not read. It has
/// at most 256 fields, whose names are kept in lower case and whose values without the white space around them. Of a head that has
/// not ended there is nothing to hand over: the caller asks again with more bytes.
#[unsafe(no_mangle)]
pub extern "C" fn pcache_head_read(
    alloc: Global,
    handle: &mut PcacheHandle,
    bytes: &[u8],
    taken: &mut usize,
) -> u32
    ensures { Receives bytes.now handle.old handle.new taken.new result }
{
    match read(alloc, bytes) {
        Ok((head, len)) => {
            *taken = len;
            handle.fill(alloc, Object::Head(head))
        }
        Err(code) => code,
    }
}
