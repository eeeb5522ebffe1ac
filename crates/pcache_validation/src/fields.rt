//! The lines of a field, and its date (RFC 9110 sections 5.2 to 5.6).

ghost use Rattle.std.specs.Prelude.{◌≡◌, Option};
ghost use Rattle.std.specs.Option.{option_copied};
ghost use Rattle.http_header.specs.HeaderMap.{get_all};
ghost use Rattle.pcache_meta.specs.Header.{shown_fields};
ghost use Rattle.pcache_validation.specs.Fields.{bytes_of, date_in, date_of, first, has, only, only_of};

use crate::lists::trim_ows;
use http_header::{HeaderMap, HeaderName, HeaderValue};
use httpdate::HttpDate;

/// The value of the first line of a field.
pub fn first<'a>(fields: &'a HeaderMap, name: &HeaderName) -> Option<&'a HeaderValue>
    ensures { bytes_of (option_copied result) ≡ first (shown_fields fields.now) name.now }
{
    fields.get(name)
}

/// Whether there is such a field.
pub fn has(fields: &HeaderMap, name: &HeaderName) -> bool
    ensures { result ≡ has (shown_fields fields.now) name.now }
{
    first(fields, name).is_some()
}

/// The value of a field that may have one member: that of its line, if it has exactly one.
pub fn only<'a>(fields: &'a HeaderMap, name: &HeaderName) -> Option<&'a HeaderValue>
    ensures { bytes_of (option_copied result) ≡ only (shown_fields fields.now) name.now }
{
    only_value(fields, name)
}

fn only_value<'a>(fields: &'a HeaderMap, name: &HeaderName) -> Option<&'a HeaderValue>
    ensures { option_copied result ≡ only_of (get_all fields.now name.now) }
{
    let mut values = fields.get_all(name).iter();
    let value = values.next()?;
    // Which of two is meant is not known, so there is none: a response is then served whole, or
    // asked for again.
    if values.next().is_some() {
        return None;
    }
    Some(value)
}

/// The second of an HTTP-date, in any of its three formats (RFC 9110 section 5.6.7).
#[tactic(auto, unfolding(crate::specs::Fields::date_in))]
pub fn date_in(value: &[u8]) -> Option<u64>
    ensures { result ≡ date_in value.now }
{
    match HttpDate::parse_ascii(trim_ows(value)) {
        Ok(date) => Some(date.unix_secs()),
        Err(_) => None,
    }
}

/// The second of a field that is a date. Several lines count as none.
pub fn date_of(fields: &HeaderMap, name: &HeaderName) -> Option<u64>
    ensures { result ≡ date_of (shown_fields fields.now) name.now }
{
    date_in(only(fields, name)?.as_bytes())
}
