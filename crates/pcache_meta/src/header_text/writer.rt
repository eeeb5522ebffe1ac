//! Writing the text of a head.
ghost use Rattle.std.specs.Prelude.{◌≡◌, ◌++◌, All, OnOk, IfOk};
ghost use Rattle.http.specs.StatusCode.{IsStatusCode};
ghost use Rattle.http_header.specs.HeaderMap.{pairs, IsHeaderMap};
ghost use Rattle.pcache_meta.specs.Header.{shown};
ghost use Rattle.pcache_meta.specs.HeaderText.{IsField, SpellsHeader, field_line, fields_text, header_text, header_written, line_end, shown_lines, status_text, version_text};

use crate::header::{HttpVersion, ResponseHeader};
use http::StatusCode;
use http_header::{HeaderMap, HeaderName, HeaderValue};
use pcache_base::error::Result;
use std::alloc::{AllocError, Global};

fn version_text(version: HttpVersion) -> &'static [u8]
    ensures { result.now ≡ version_text version }
{
    match version {
        HttpVersion::Http09 => b"HTTP/0.9",
        HttpVersion::Http10 => b"HTTP/1.0",
        HttpVersion::Http11 => b"HTTP/1.1",
        HttpVersion::Http2 => b"HTTP/2.0",
        HttpVersion::Http3 => b"HTTP/3.0",
    }
}

#[tactic(auto, unfolding(crate::specs::HeaderText::field_text, crate::specs::HeaderText::field_line))]
fn put_field(out: &mut Vec<u8>, name: &HeaderName, value: &HeaderValue) -> Result<(), AllocError>
    ensures written { OnOk result (out.new.items
        ≡ out.old.items ++ field_line (name.now, value.now.bytes)) }
    ensures valid { OnOk result (IsField (name.now, value.now.bytes)) }
{
    out.extend_from_slice(name.as_bytes())?;
    // The space also before an empty value: a reader takes exactly one, and what white space a
    // value has at its ends stays.
    out.extend_from_slice(b": ")?;
    out.extend_from_slice(value.as_bytes())?;
    out.extend_from_slice(b"\r\n")?;
    Ok(())
}

#[tactic(auto, unfolding(crate::specs::HeaderText::fields_text))]
fn put_fields(out: &mut Vec<u8>, headers: &HeaderMap) -> Result<(), AllocError>
    ensures written { OnOk result (out.new.items
        ≡ out.old.items ++ fields_text (shown_lines (pairs headers.now))) }
    ensures valid { OnOk result (All IsField (shown_lines (pairs headers.now))) }
{
    'fields: for (name, value) in headers.iter() {
        put_field(out, name, value)?;
    }
    out.extend_from_slice(b"\r\n")?;
    Ok(())
}

// The line of version and status, and its end.
#[tactic(auto, unfolding(crate::specs::HeaderText::status_text))]
fn put_status_line(
    out: &mut Vec<u8>,
    version: HttpVersion,
    status: StatusCode,
) -> Result<(), AllocError>
    ensures written { OnOk result (out.new.items
        ≡ out.old.items ++ (status_text version status ++ line_end)) }
    ensures valid { OnOk result (IsStatusCode status) }
{
    // For the prover: a status has three digits (`IsStatusCode`).
    let _number = status.as_u16();
    out.extend_from_slice(version_text(version))?;
    out.extend_from_slice(b" ")?;
    out.extend_from_slice(status.as_str().as_bytes())?;
    out.extend_from_slice(b"\r\n")?;
    Ok(())
}

// How many bytes the text of a head has, so that exactly this room is reserved once.
fn text_len(headers: &HeaderMap) -> usize {
    let mut len = b"HTTP/1.1 200\r\n\r\n".len();
    for (name, value) in headers.iter() {
        len = len
            .saturating_add(name.as_bytes().len())
            .saturating_add(b": \r\n".len())
            .saturating_add(value.len());
    }
    len
}

#[tactic(auto, unfolding(crate::specs::HeaderText::header_text))]
fn write_header(alloc: Global, header: &ResponseHeader) -> Result<Vec<u8>, AllocError>
    ensures written { IfOk result (λ v. v.items
        ≡ header_text header.now.version header.now.status
        (shown_lines (pairs header.now.headers))) }
    ensures status { OnOk result (IsStatusCode header.now.status) }
    ensures valid { OnOk result (All IsField (shown_lines (pairs header.now.headers))) }
    ensures map { OnOk result (IsHeaderMap header.now.headers) }
{
    // For the prover: it is a valid map, of at most so many names.
    let _values = header.headers.len();
    // Exactly so much, since a stored meta keeps its texts as they were written.
    let mut out = Vec::with_capacity(alloc, text_len(&header.headers))?;
    put_status_line(&mut out, header.version, header.status)?;
    put_fields(&mut out, &header.headers)?;
    Ok(out)
}

/// The text of a head: the line of version and status, and a line for each value, by name, in the
/// map's order.
pub fn header_serialize(alloc: Global, header: &ResponseHeader) -> Result<Vec<u8>, AllocError>
    ensures written { IfOk result (λ v. v.items ≡ header_written (shown header.now)) }
    ensures spelled { IfOk result (λ v. SpellsHeader v.items (shown header.now)) }
{
    Ok(write_header(alloc, header)?)
}
