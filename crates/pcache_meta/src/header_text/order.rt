//! Whether the lines of a head are grouped by name, in the order of the map that they make.
ghost use Rattle.std.specs.Prelude.{◌≡◌, ◌++◌, List, ℕ, IfNone, IfSome, bytes_eq};
ghost use Rattle.http_header.specs.HeaderMap.{pairs};
ghost use Rattle.pcache_meta.specs.Header.{shown_fields};
ghost use Rattle.pcache_meta.specs.HeaderText.{field_line, fields_text};

use http_header::{HeaderMap, HeaderName, HeaderValue};

// The bytes after a text that they begin with.
fn behind<'a>(bytes: &'a [u8], text: &[u8]) -> Option<&'a [u8]>
    ensures some { IfSome result (λ rest. bytes.now ≡ text.now ++ rest.now) }
    ensures none { IfNone result ((rest : List ℕ) → ¬ (bytes.now ≡ text.now ++ rest)) }
{
    bytes.strip_prefix(text)
}

// The bytes after a field's line that they begin with.
fn behind_line<'a>(bytes: &'a [u8], name: &HeaderName, value: &HeaderValue) -> Option<&'a [u8]>
    ensures some { IfSome result (λ rest.
        bytes.now ≡ field_line (name.now, value.now.bytes) ++ rest.now) }
    ensures none { IfNone result ((rest : List ℕ)
        → ¬ (bytes.now ≡ field_line (name.now, value.now.bytes) ++ rest)) }
{
    let Some(first) = behind(bytes, name.as_bytes()) else {
        return None;
    };
    let Some(second) = behind(first, b": ") else {
        return None;
    };
    let Some(third) = behind(second, value.as_bytes()) else {
        return None;
    };
    let Some(rest) = behind(third, b"\r\n") else {
        return None;
    };
    Some(rest)
}

// Whether the bytes are the lines of a map's fields, in its order, and the empty line.
pub(super) fn are_lines_of(bytes: &[u8], headers: &HeaderMap) -> bool
    ensures { result ≡ bytes_eq bytes.now (fields_text (pairs (shown_fields headers.now))) }
{
    let mut rest = bytes;
    'fields: for (name, value) in headers.iter() {
        let Some(behind) = behind_line(rest, name, value) else {
            return false;
        };
        rest = behind;
    }
    rest == b"\r\n".as_slice()
}
