//! Reading the text of a head.
ghost use Rattle.std.specs.Prelude.{◌≡◌, ◌↔◌, ◌≤◌, ◌++◌, IsTrue, ℕ, List, length, take, drop, [], IfOk, IfErr, IsErrOf, ◌⊎◌};
ghost use Rattle.http_header.specs.FieldName.{IsFieldName};
ghost use Rattle.http_header.specs.Token.{lowercase};
ghost use Rattle.http_header.specs.HeaderMap.{RefusesAppend};
ghost use Rattle.pcache_meta.specs.Header.{Header, shown, shown_fields};
ghost use Rattle.pcache_meta.specs.HeaderForm.{IsHeaderText};
ghost use Rattle.pcache_meta.specs.HeaderReading.{BeginsWith, EndsWith, append_at, field_at, fields_at, header_at, line_from, name_at, name_from, ordered_at, status_at, status_line_at, unordered_at, value_at, version_at};
ghost use Rattle.pcache_meta.specs.HeaderText.{SpellsHeader};
ghost use Rattle.pcache_meta.specs.Reading.{Gives, GivesOrWants, mark_at};
ghost use Rattle.pcache_base.specs.declared.error.ErrorType.TheVariants.{InternalError, OutOfMemory};

use crate::header::{HttpVersion, ResponseHeader};
use crate::header_text::form::is_header_text;
use crate::header_text::order::are_lines_of;
use crate::msgpack::reader::unreadable;
use bytes::Bytes;
use http::StatusCode;
use http_header::{
    HeaderMap, HeaderMapError, HeaderName, HeaderNameError, HeaderValue, HeaderValueError, MAX_KEYS,
};
use memchr::memchr;
use pcache_base::error::{Error, ErrorType, Result};
use std::alloc::{AllocError, Global};

// How many bytes come before the first CR, found by one search: they stay in their line.
fn before_return(bytes: &[u8]) -> usize
    ensures within { result ≤ length bytes.now }
    ensures stays { (front : List ℕ)
        → line_from (front ++ take result bytes.now) (drop result bytes.now)
        ≡ line_from front bytes.now }
{
    match memchr(b'\r', bytes) {
        Some(end) => end,
        None => bytes.len(),
    }
}

// The bytes before the first CR LF, and those after it.
pub(super) fn split_line(bytes: &[u8]) -> Result<(&[u8], &[u8])>
    ensures { Gives (λ x. (x.0.now, x.1.now)) result (line_from [] bytes.now) }
{
    let mut i = 0;
    'bytes: while i + 1 < bytes.len() {
        if bytes[i] == b'\r' && bytes[i + 1] == b'\n' {
            return Ok((&bytes[..i], &bytes[i + 2..]));
        }
        i += 1;
        i += before_return(&bytes[i..]);
    }
    Err(unreadable())
}

// The bytes of a text before the first CR LF, and those after it.
fn first_line(text: &Bytes) -> Result<(&[u8], &[u8])>
    ensures { Gives (λ x. (x.0.now, x.1.now)) result (line_from [] text.now) }
{
    split_line(text.as_slice())
}

// The bytes before the first colon, and those after it.
pub(super) fn split_name(bytes: &[u8]) -> Result<(&[u8], &[u8])>
    ensures { Gives (λ x. (x.0.now, x.1.now)) result (name_from [] bytes.now) }
{
    'bytes: for i in 0..bytes.len() {
        if bytes[i] == b':' {
            return Ok((&bytes[..i], &bytes[i + 1..]));
        }
    }
    Err(unreadable())
}

// The version, of the bytes before the first space.
#[tactic(auto, unfolding(crate::specs::HeaderReading::version_at))]
fn version_of(text: &[u8]) -> Result<HttpVersion>
    ensures { Gives (λ v. v) result (version_at text.now) }
{
    if text == b"HTTP/0.9 ".as_slice() {
        Ok(HttpVersion::Http09)
    } else if text == b"HTTP/1.0 ".as_slice() {
        Ok(HttpVersion::Http10)
    } else if text == b"HTTP/1.1 ".as_slice() {
        Ok(HttpVersion::Http11)
    } else if text == b"HTTP/2.0 ".as_slice() {
        Ok(HttpVersion::Http2)
    } else if text == b"HTTP/3.0 ".as_slice() {
        Ok(HttpVersion::Http3)
    } else {
        Err(unreadable())
    }
}

// The status whose three digits these are.
fn status_of(text: &[u8]) -> Result<StatusCode>
    ensures { Gives (λ code. code) result (status_at text.now) }
{
    match StatusCode::from_bytes(text) {
        Ok(code) => {
            // For the prover: a status has three digits (`IsStatusCode`).
            let _number = code.as_u16();
            Ok(code)
        }
        Err(_) => Err(unreadable()),
    }
}

// The version and the status that a line is.
#[tactic(auto, unfolding(crate::specs::HeaderReading::status_line_at, crate::specs::Reading::bytes_at))]
pub(super) fn status_line(text: &[u8]) -> Result<(HttpVersion, StatusCode)>
    ensures { Gives (λ x. x) result (status_line_at text.now) }
{
    if text.len() < 9 {
        return Err(unreadable());
    }
    let (version, status) = text.split_at(9);
    let version = version_of(version)?;
    let status = status_of(status)?;
    Ok((version, status))
}

// The name that these bytes spell in any case. A text begins with them, and a name that is no standard
// one stays a part of it.
#[tactic(auto, using(crate::proofs::HeaderCuts::cut_front, crate::proofs::HeaderCuts::front_within))]
fn found_name(
    alloc: Global,
    text: &Bytes,
    bytes: &[u8],
) -> std::result::Result<HeaderName, HeaderNameError>
    requires { BeginsWith text.now bytes.now }
    ensures ok { IfOk result (λ name. name ≡ lowercase bytes.now) }
    ensures invalid { IsErrOf result HeaderNameError.Invalid → ¬ (IsFieldName bytes.now) }
{
    match HeaderName::standard(bytes) {
        Some(name) => Ok(name),
        None => HeaderName::from_shared(alloc, text.slice(..bytes.len())?),
    }
}

// Whether the bytes are the same.
fn is_same(left: &[u8], right: &[u8]) -> bool
    ensures { IsTrue result ↔ (left.now ≡ right.now) }
{
    left == right
}

// The name that these bytes are, with which a text begins.
fn name_of(alloc: Global, text: &Bytes, bytes: &[u8]) -> Result<HeaderName>
    requires { BeginsWith text.now bytes.now }
    ensures { GivesOrWants (λ name. name) result (name_at bytes.now) }
{
    match found_name(alloc, text, bytes) {
        Ok(name) => {
            if is_same(name.as_bytes(), bytes) {
                Ok(name)
            } else {
                Err(unreadable())
            }
        }
        Err(HeaderNameError::Invalid) => Err(unreadable()),
        Err(HeaderNameError::OutOfMemory) => Err(Error::new(ErrorType::OutOfMemory)),
    }
}

// The value that these bytes are.
fn value_of(bytes: Bytes) -> Result<HeaderValue>
    ensures { GivesOrWants (λ value. value.bytes) result (value_at bytes) }
{
    match HeaderValue::from_shared(bytes) {
        Ok(value) => {
            // For the prover: its bytes are such as a value may have.
            let _bytes = value.as_bytes();
            Ok(value)
        }
        Err(_) => Err(unreadable()),
    }
}

// The value at the end of a line, with which a text begins. It stays a part of the text.
#[tactic(auto, using(crate::proofs::HeaderCuts::cut_end, crate::proofs::HeaderCuts::end_within))]
fn value_in(text: &Bytes, line: &[u8], value: &[u8]) -> Result<HeaderValue>
    requires text { BeginsWith text.now line.now }
    requires line { EndsWith line.now value.now }
    ensures { GivesOrWants (λ v. v.bytes) result (value_at value.now) }
{
    let end = line.len();
    value_of(text.slice(end - value.len()..end)?)
}

// The name and the value that a line is, with which a text begins. They stay parts of the text.
#[tactic(auto, unfolding(crate::specs::HeaderReading::field_at), using(crate::proofs::HeaderCuts::begins_name, crate::proofs::HeaderCuts::ends_value))]
fn field_of(alloc: Global, text: &Bytes, line: &[u8]) -> Result<(HeaderName, HeaderValue)>
    requires { BeginsWith text.now line.now }
    ensures { GivesOrWants (λ f. (f.0, f.1.bytes)) result (field_at line.now) }
{
    let (name, rest) = split_name(line)?;
    let value = behind_space(rest)?;
    let name = name_of(alloc, text, name)?;
    let value = value_in(text, line, value)?;
    Ok((name, value))
}

// The bytes after a space.
#[tactic(auto, unfolding(crate::specs::Reading::mark_at))]
pub(super) fn behind_space(bytes: &[u8]) -> Result<&[u8]>
    ensures { Gives (λ x. x.now) result (mark_at 0x20 bytes.now) }
{
    match bytes {
        [b' ', rest @ ..] => Ok(rest),
        _ => Err(unreadable()),
    }
}

// Adds a value to a map. If the map is full, fails as for bytes that can't be read, even when
// memory runs out.
fn append_field(headers: &mut HeaderMap, name: HeaderName, value: HeaderValue) -> Result<()>
    ensures reads { GivesOrWants (λ _. shown_fields headers.new) result
        (append_at (shown_fields headers.old) (name, value.bytes)) }
    ensures full { RefusesAppend headers.old name → IsErrOf result InternalError }
{
    match headers.append(name, value) {
        Ok(_) => {
            // For the prover: it is a valid map, of at most so many names.
            let _values = headers.len();
            Ok(())
        }
        Err(HeaderMapError::MaxSizeReached) => Err(unreadable()),
        Err(HeaderMapError::OutOfMemory) => Err(Error::new(ErrorType::OutOfMemory)),
    }
}

// A map with room for so many names.
fn room_for(alloc: Global, names: usize) -> Result<HeaderMap, AllocError>
    ensures ok { IfOk result (λ m. m ≡ []) }
{
    match HeaderMap::with_capacity(alloc, names.min(MAX_KEYS)) {
        Ok(headers) => Ok(headers),
        Err(_) => Err(AllocError),
    }
}

// The map that the lines make, up to the empty line. It is made with room for so many names.
#[tactic(auto, using(crate::proofs::HeaderCuts::begins, crate::proofs::HeaderCuts::line_end_within))]
fn read_fields(alloc: Global, text: Bytes, names: usize) -> Result<HeaderMap>
    ensures { GivesOrWants (λ m. shown_fields m) result (fields_at [] text) }
{
    let mut headers = room_for(alloc, names)?;
    let mut rest = text;
    'lines: loop {
        let (line, behind) = first_line(&rest)?;
        if line.is_empty() {
            return if behind.is_empty() {
                Ok(headers)
            } else {
                Err(unreadable())
            };
        }
        let len = line.len();
        let (name, value) = field_of(alloc, &rest, line)?;
        append_field(&mut headers, name, value)?;
        rest.advance(len + 2);
    }
}

// Fails if the lines are in another order than that of the map that they made.
#[tactic(auto, unfolding(crate::specs::HeaderReading::ordered_at))]
fn in_order(bytes: &[u8], headers: &HeaderMap) -> Result<()>
    ensures { Gives (λ _. shown_fields headers.now) result
        (ordered_at bytes.now (shown_fields headers.now)) }
{
    if are_lines_of(bytes, headers) {
        Ok(())
    } else {
        Err(unreadable())
    }
}

// The head that all of the bytes are, read from left to right.
#[tactic(auto, unfolding(crate::specs::HeaderReading::header_at))]
fn read_header(alloc: Global, bytes: &[u8]) -> Result<ResponseHeader>
    ensures { GivesOrWants (λ h. shown h) result (header_at bytes.now) }
{
    let (line, rest) = split_line(bytes)?;
    let (version, status) = status_line(line)?;
    let headers = read_fields(alloc, Bytes::copy_from_slice(alloc, rest)?, 0)?;
    in_order(rest, &headers)?;
    Ok(ResponseHeader {
        version,
        status,
        headers,
    })
}

// The head that all of the bytes are, in whatever order its lines are. Its values stay parts of the text.
#[tactic(auto, unfolding(crate::specs::HeaderReading::unordered_at), using(crate::proofs::HeaderCuts::line_end_within, crate::proofs::HeaderCuts::behind_line))]
fn read_unordered(alloc: Global, text: Bytes, names: usize) -> Result<ResponseHeader>
    ensures { GivesOrWants (λ h. shown h) result (unordered_at text) }
{
    let mut rest = text;
    let (line, _) = first_line(&rest)?;
    let (version, status) = status_line(line)?;
    let end = line.len() + 2;
    rest.advance(end);
    let headers = read_fields(alloc, rest, names)?;
    Ok(ResponseHeader {
        version,
        status,
        headers,
    })
}

/// The head whose text all of the bytes are, as a caller knows: their order is not looked at again. Its map
/// is made with room for so many names. Its
/// values are parts of the text and no copies, so the text stays in memory as long as one of them does.
/// Fails only when memory runs out.
pub fn header_kept(alloc: Global, text: Bytes, names: usize) -> Result<ResponseHeader, AllocError>
    requires { IsHeaderText text }
    ensures ok { (h : Header) → SpellsHeader text h → IfOk result (λ found. shown found ≡ h) }
{
    match read_unordered(alloc, text, names) {
        Ok(head) => Ok(head),
        Err(refused) if refused.etype() == ErrorType::OutOfMemory => Err(AllocError),
        Err(_) => unreachable!(),
    }
}

/// The head whose text all of the bytes are: its lines are grouped by name, in the order in which the
/// names first occur. Fails with `OutOfMemory` only if they are such a text: what was read before
/// memory ran out says nothing of the rest, so the bytes are then checked without memory.
pub fn header_deserialize(alloc: Global, bytes: &[u8]) -> Result<ResponseHeader>
    ensures found { IfOk result (λ h. SpellsHeader bytes.now (shown h)) }
    ensures same { (h : Header)
        → SpellsHeader bytes.now h
        → IfOk result (λ found. shown found ≡ h) }
    ensures refused { IsErrOf result InternalError → (h : Header) → ¬ (SpellsHeader bytes.now h) }
    ensures kinds { IfErr result (λ e. (e ≡ OutOfMemory) ⊎ (e ≡ InternalError)) }
    ensures memory { IfErr result (λ e. e ≡ OutOfMemory → IsHeaderText bytes.now) }
{
    let refused = match read_header(alloc, bytes) {
        Ok(header) => return Ok(header),
        Err(refused) => refused,
    };
    // Memory ran out before all bytes were seen: so they are looked through once more, without any,
    // and bytes that spell no head never fail for memory.
    if refused.etype() == ErrorType::OutOfMemory && is_header_text(bytes) {
        Err(refused)
    } else {
        Err(unreadable())
    }
}
