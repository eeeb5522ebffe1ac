//! Whether bytes are the text of a head, decided without taking memory.
ghost use Rattle.std.specs.Prelude.{◌≡◌, ◌↔◌, IsTrue, map};
ghost use Rattle.http_header.specs.FieldName.{IsHeaderName};
ghost use Rattle.http_header.specs.FieldValue.{IsFieldValue};
ghost use Rattle.http_header.specs.Token.{is_value_byte, lowercase};
ghost use Rattle.pcache_meta.specs.HeaderForm.{IsHeaderText, are_fields, are_grouped, are_lines, has_any, is_among, lines_at, name_then_at, starts_with_name};
ghost use Rattle.pcache_meta.specs.HeaderReading.{field_at, name_at, value_at};
ghost use Rattle.pcache_meta.specs.Reading.{Gives};

use crate::header_text::reader::{behind_space, split_line, split_name, status_line};
use crate::msgpack::reader::unreadable;
use http_header::{MAX_HEADER_NAME_LEN, is_token};
use pcache_base::error::Result;

// The most names that a map of header fields can have.
const MAX_NAMES: usize = 24576;

// How many names one pass over the lines looks for.
const AT_ONCE: usize = 64;

// Whether no byte is a letter in upper case.
fn is_lowercase(bytes: &[u8]) -> bool
    ensures { IsTrue result ↔ (lowercase bytes.now ≡ bytes.now) }
{
    bytes.iter().all(|byte| byte.to_ascii_lowercase() == *byte)
}

// Whether the byte may occur in a field's value.
fn is_value_byte(byte: u8) -> bool
    ensures { result ≡ is_value_byte byte }
{
    byte == b'\t' || (byte >= b' ' && byte != 0x7F)
}

// Whether the bytes are a field's name in lower case.
fn is_name(bytes: &[u8]) -> bool
    ensures { IsTrue result ↔ IsHeaderName bytes.now }
{
    bytes.len() <= MAX_HEADER_NAME_LEN && is_token(bytes) && is_lowercase(bytes)
}

// Whether the bytes are a field's value.
fn is_value(bytes: &[u8]) -> bool
    ensures { IsTrue result ↔ IsFieldValue bytes.now }
{
    bytes.iter().all(|byte| is_value_byte(*byte))
}

// The bytes, if they are a name.
fn name_in(bytes: &[u8]) -> Result<&[u8]>
    ensures { Gives (λ name. name.now) result (name_at bytes.now) }
{
    if is_name(bytes) {
        Ok(bytes)
    } else {
        Err(unreadable())
    }
}

// The bytes, if they are a value.
fn value_in(bytes: &[u8]) -> Result<&[u8]>
    ensures { Gives (λ value. value.now) result (value_at bytes.now) }
{
    if is_value(bytes) {
        Ok(bytes)
    } else {
        Err(unreadable())
    }
}

// The name and the value of the field that a line is.
#[tactic(auto, unfolding(crate::specs::HeaderReading::field_at))]
fn parts_of(line: &[u8]) -> Result<(&[u8], &[u8])>
    ensures { Gives (λ f. (f.0.now, f.1.now)) result (field_at line.now) }
{
    let (name, rest) = split_name(line)?;
    let rest = behind_space(rest)?;
    let name = name_in(name)?;
    let value = value_in(rest)?;
    Ok((name, value))
}

// The name of the field that the first line is, and the bytes after that line.
#[tactic(auto, unfolding(crate::specs::HeaderForm::name_then_at))]
fn first_name(bytes: &[u8]) -> Result<(&[u8], &[u8])>
    ensures { Gives (λ x. (x.0.now, x.1.now)) result (name_then_at bytes.now) }
{
    let (line, behind) = split_line(bytes)?;
    let (name, _) = parts_of(line)?;
    Ok((name, behind))
}

// Whether the bytes are lines of fields, and the empty line.
fn are_fields(bytes: &[u8]) -> bool
    ensures { result ≡ are_fields bytes.now }
{
    let mut rest = bytes;
    'lines: while let Ok((_, behind)) = first_name(rest) {
        rest = behind;
    }
    rest == b"\r\n".as_slice()
}

// Whether the first line has the name.
fn starts_with_name(bytes: &[u8], name: &[u8]) -> bool
    ensures { result ≡ starts_with_name name.now (lines_at bytes.now) }
{
    match first_name(bytes) {
        Ok((first, _)) => first == name,
        Err(_) => false,
    }
}

// Whether the name is one of these.
fn is_among(name: &[u8], names: &[&[u8]]) -> bool
    ensures { result ≡ is_among name.now (map (λ n. n.now) names.now) }
{
    'names: for i in 0..names.len() {
        if names[i] == name {
            return true;
        }
    }
    false
}

// Whether one of the lines has one of the names.
fn has_any(bytes: &[u8], names: &[&[u8]]) -> bool
    ensures { result ≡ has_any (map (λ n. n.now) names.now) (lines_at bytes.now) }
{
    let mut rest = bytes;
    'lines: while let Ok((name, behind)) = first_name(rest) {
        if is_among(name, names) {
            return true;
        }
        rest = behind;
    }
    false
}

// Whether the lines have no more names than a map holds, and those of one name are adjacent. There
// is no memory to keep all names in, so the names are taken a few at a time, and the lines after
// them are searched for these.
fn are_grouped(bytes: &[u8]) -> bool
    ensures { result ≡ are_grouped 24576 (lines_at bytes.now) }
{
    let mut rest = bytes;
    let mut room = MAX_NAMES;
    let mut passed: [&[u8]; AT_ONCE] = [bytes; AT_ONCE];
    let mut count = 0;
    'lines: while let Ok((name, behind)) = first_name(rest) {
        rest = behind;
        if starts_with_name(behind, name) {
            continue;
        }
        if room == 0 || is_among(name, &passed[..count]) {
            return false;
        }
        // A pass over the text for each 64 names: whether lines stand together cannot be told in
        // one pass without memory.
        if count == AT_ONCE {
            if has_any(behind, &passed[..count]) {
                return false;
            }
            count = 0;
        }
        passed[count] = name;
        count += 1;
        room -= 1;
    }
    true
}

// Whether the bytes are the lines of a map of fields, and the empty line.
fn are_lines(bytes: &[u8]) -> bool
    ensures { result ≡ are_lines bytes.now }
{
    are_fields(bytes) && are_grouped(bytes)
}

/// Whether all of the bytes are the text of a head. It takes no memory, and therefore more time than
/// reading the head if its lines have many names.
pub fn is_header_text(bytes: &[u8]) -> bool
    ensures { IsTrue result ↔ IsHeaderText bytes.now }
{
    let Ok((line, rest)) = split_line(bytes) else {
        return false;
    };
    let Ok(_first) = status_line(line) else {
        return false;
    };
    are_lines(rest)
}
