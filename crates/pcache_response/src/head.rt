//! Reading the head of a response.
ghost use Rattle.std.specs.Prelude.{◌≡◌, ◌⊎◌, ℕ, ◌+◌, ◌<◌, ◌≤◌, ◌^◌, List, [], length, take, map, All, IsOk, IfOk, IfErr, OnOk, OnErr, IsErrOf};
ghost use Rattle.httparse.specs.Grammar.{ResponseHead, status_code};
ghost use Rattle.httparse.specs.Spans.{AreFieldsAt, IsHeaderWithin, header_bytes};
ghost use Rattle.http_header.specs.Token.{IsToken, lowercase};
ghost use Rattle.http_header.specs.FieldValue.{IsFieldValue, plain_value};
ghost use Rattle.http_header.specs.HeaderMap.{append, value_count};
ghost use Rattle.pcache_response.specs.Head.{IsHead, ReadsHeader, version_of};
ghost use Rattle.pcache_response.specs.Fields.{IsPair, IsShort, append_pair, fields_after};
ghost use Rattle.pcache_base.specs.declared.error.ErrorType.TheVariants.{OutOfMemory, InvalidHttpHeader};

use bytes::Bytes;
use http::StatusCode;
use http_header::{HeaderMap, HeaderMapError, HeaderName, HeaderNameError, HeaderValue};
use httparse::Status;
use httparse::spans::{EMPTY_HEADER_SPAN, HeaderSpan, ResponseSpans, parse_response};
use pcache_base::error::{Error, ErrorType, Result};
use pcache_meta::header::{HttpVersion, ResponseHeader};
use std::alloc::{AllocError, Global};

// How many fields a head may have.
const MAX_FIELDS: usize = 256;

// The longest name, in bytes, that `http_header` accepts.
const MAX_NAME_LEN: usize = 65535;

// The spans of the parts of the head that all of the bytes are.
fn parts_of(bytes: &[u8], room: &mut [HeaderSpan]) -> Result<ResponseSpans>
    ensures found { IfOk result (λ r. (h : ResponseHead)
        × IsHead (length room.old) bytes.now h
        × (r.code ≡ status_code h)
        × (r.version ≡ h.minor)
        × AreFieldsAt bytes.now room.new r.headers h.fields) }
    ensures within { IfOk result (λ r. (r.headers ≤ length room.new)
        × All (IsHeaderWithin (length bytes.now)) (take r.headers room.new)) }
    ensures invalid { OnErr result ((h : ResponseHead) → ¬ (IsHead (length room.old) bytes.now h)) }
    ensures kind { IfErr result (λ e. e ≡ InvalidHttpHeader) }
{
    match parse_response(bytes, room) {
        Ok(Status::Complete(head)) if head.len == bytes.len() => Ok(head),
        _ => Err(Error::new(ErrorType::InvalidHttpHeader)),
    }
}

// The name of a field of the grammar.
fn field_name(alloc: Global, name: &[u8]) -> Result<HeaderName>
    requires { IsToken name.now }
    ensures ok { IfOk result (λ n. n ≡ lowercase name.now) }
    ensures short { OnOk result (length name.now ≤ 65535) }
    ensures long { IfErr result (λ e. e ≡ InvalidHttpHeader → ¬ (length name.now ≤ 65535)) }
    ensures too_long { ¬ (length name.now ≤ 65535) → IsErrOf result InvalidHttpHeader }
    ensures kind { IfErr result (λ e. (e ≡ OutOfMemory) ⊎ (e ≡ InvalidHttpHeader)) }
{
    if name.len() > MAX_NAME_LEN {
        return Err(Error::new(ErrorType::InvalidHttpHeader));
    }
    match HeaderName::from_bytes(alloc, name) {
        Ok(name) => Ok(name),
        Err(HeaderNameError::OutOfMemory) => Err(Error::new(ErrorType::OutOfMemory)),
        Err(HeaderNameError::Invalid) => unreachable!(),
    }
}

// Adds the field that a span covers. Its value shares the bytes, without a copy.
fn add_span(alloc: Global, fields: &mut HeaderMap, bytes: &Bytes, span: HeaderSpan) -> Result<()>
    requires within { IsHeaderWithin (length bytes.now) span }
    requires pair { IsPair (header_bytes bytes.now span) }
    requires names { length fields.old < 24576 }
    requires values { value_count fields.old + 1 < 2 ^ 64 }
    ensures ok { OnOk result (fields.new ≡ append_pair fields.old (header_bytes bytes.now span)) }
    ensures short { OnOk result (IsShort (header_bytes bytes.now span)) }
    ensures long { IfErr result (λ e.
        e ≡ InvalidHttpHeader → ¬ (IsShort (header_bytes bytes.now span))) }
    ensures too_long { ¬ (IsShort (header_bytes bytes.now span))
        → IsErrOf result InvalidHttpHeader }
    ensures kind { IfErr result (λ e. (e ≡ OutOfMemory) ⊎ (e ≡ InvalidHttpHeader)) }
{
    let name = field_name(alloc, span.name.of(bytes.as_slice()))?;
    // Not tested again, since the parser found it valid. The bytes of the head are there already,
    // and a put soon writes its meta as bytes; names come in capitals mostly, and are copied.
    let value = HeaderValue::from_known_valid(bytes.slice(span.value.start..span.value.end)?);
    match fields.append(name, value) {
        Ok(_) => Ok(()),
        Err(HeaderMapError::OutOfMemory) => Err(Error::new(ErrorType::OutOfMemory)),
        Err(HeaderMapError::MaxSizeReached) => unreachable!(),
    }
}

// A map with room for as many names as there are fields.
fn room_for(alloc: Global, fields: usize) -> Result<HeaderMap, AllocError>
    requires { fields ≤ 256 }
    ensures ok { IfOk result (λ map. map ≡ []) }
    ensures none { fields ≡ 0 → IsOk result }
{
    match HeaderMap::with_capacity(alloc, fields) {
        Ok(map) => Ok(map),
        Err(HeaderMapError::OutOfMemory) => Err(AllocError),
        Err(HeaderMapError::MaxSizeReached) => unreachable!(),
    }
}

// The fields that the spans cover.
fn fields_of(alloc: Global, bytes: &Bytes, spans: &[HeaderSpan]) -> Result<HeaderMap>
    requires few { length spans.now ≤ 256 }
    requires within { All (IsHeaderWithin (length bytes.now)) spans.now }
    requires pairs { All IsPair (map (header_bytes bytes.now) spans.now) }
    ensures ok { IfOk result (λ fields.
        fields ≡ fields_after (map (header_bytes bytes.now) spans.now)) }
    ensures short { OnOk result (All IsShort (map (header_bytes bytes.now) spans.now)) }
    ensures long { IfErr result (λ e.
        e ≡ InvalidHttpHeader → ¬ (All IsShort (map (header_bytes bytes.now) spans.now))) }
    ensures kind { IfErr result (λ e. (e ≡ OutOfMemory) ⊎ (e ≡ InvalidHttpHeader)) }
{
    // By the number of fields, once they are found: at most 256, so never too many for the map, and
    // what is no head takes no memory.
    let mut fields = room_for(alloc, spans.len())?;
    'spans: for i in 0..spans.len() {
        add_span(alloc, &mut fields, bytes, spans[i])?;
    }
    Ok(fields)
}

fn version_of(minor: u8) -> HttpVersion
    ensures { result ≡ version_of minor }
{
    if minor == 0 {
        HttpVersion::Http10
    } else {
        HttpVersion::Http11
    }
}

// The head that all of the bytes are.
pub(crate) fn read_header(alloc: Global, bytes: Vec<u8>) -> Result<ResponseHeader>
    ensures ok { IfOk result (ReadsHeader bytes.items) }
    ensures invalid { IfErr result (λ e.
        e ≡ InvalidHttpHeader → (header : _) → ¬ (ReadsHeader bytes.items header)) }
    ensures no_head { ((h : ResponseHead) → ¬ (IsHead 256 bytes.items h))
        → IsErrOf result InvalidHttpHeader }
    ensures kind { IfErr result (λ e. (e ≡ OutOfMemory) ⊎ (e ≡ InvalidHttpHeader)) }
{
    let mut room = [EMPTY_HEADER_SPAN; MAX_FIELDS];
    let head = parts_of(bytes.as_slice(), &mut room)?;
    let Ok(status) = StatusCode::from_u16(head.code) else {
        return Err(Error::new(ErrorType::InvalidHttpHeader));
    };
    let bytes = Bytes::from_vec(bytes)?;
    Ok(ResponseHeader {
        version: version_of(head.version),
        status,
        headers: fields_of(alloc, &bytes, &room[..head.headers])?,
    })
}
