//! The values of directives.

ghost use Rattle.std.specs.Prelude.{◌≡◌, ◌<◌, List, [], ◌∷◌, length, position, reverse, IfSome, IfOk, MatchResult};
ghost use Rattle.std.specs.Option.{option_copied};
ghost use Rattle.std.specs.Str.{IsUtf8};
ghost use Rattle.pcache_control.specs.Seconds.{delta_seconds_of, floor_seconds_of, Reads};
ghost use Rattle.pcache_control.specs.Values.{unquoted, is_comma, is_ows, skip_ows, trim_ows, list_items, items_left};
ghost use Rattle.pcache_base.specs.declared.error.ErrorType.TheVariants.{InternalError};

use crate::seconds::{delta_seconds, floor_seconds};
use pcache_base::error::{Error, ErrorType, Result};
use std::convert::AsSlice;
use std::marker::Model;

/// The value of a directive as it is written in its line, quotes included.
#[derive(Debug, Drop, PartialEq, Eq)]
pub struct DirectiveValue(pub Vec<u8>);

impl AsSlice<u8> for DirectiveValue {
    ghost items = { λ value. value.0.items };

    fn as_slice(&self) -> &[u8] {
        &self.0[..]
    }
}

// The text without one pair of outer quotes.
fn without_quotes(bytes: &[u8]) -> &[u8]
    ensures { result.now ≡ unquoted bytes.now }
{
    match bytes {
        [b'"', inner @ .., b'"'] => inner,
        _ => bytes,
    }
}

impl DirectiveValue {
    /// The value without one pair of outer quotes. A backslash in it means itself.
    pub fn parse_as_bytes(&self) -> &[u8]
        ensures { result.now ≡ unquoted self.now.0.items }
    {
        without_quotes(self.0.as_slice())
    }

    /// The same, as text. Fails with `InternalError` if it is not UTF-8.
    pub fn parse_as_str(&self) -> Result<&str>
        ensures { MatchResult result
            (λ text. (text.now ≡ unquoted self.now.0.items) × IsUtf8 (unquoted self.now.0.items))
            (λ e. (e ≡ InternalError) × ¬ (IsUtf8 (unquoted self.now.0.items))) }
    {
        match str::from_utf8(self.parse_as_bytes()) {
            Ok(text) => Ok(text),
            Err(_) => Err(Error::new(ErrorType::InternalError)),
        }
    }

    /// The value as delta seconds (RFC 9111 section 1.2.2): an optional plus and at least one digit,
    /// also in quotes. A number past 32 bits counts as `DELTA_SECONDS_OVERFLOW_VALUE`. All else
    /// fails with `InternalError`.
    pub fn parse_as_delta_seconds(&self) -> Result<u32>
        ensures { Reads (delta_seconds_of (unquoted self.now.0.items)) result }
    {
        match delta_seconds(self.parse_as_bytes()) {
            Some(seconds) => Ok(seconds),
            None => Err(Error::new(ErrorType::InternalError)),
        }
    }

    /// The value as delta seconds or, if it is not that, as such a number with a point and a
    /// fraction, which is cut off (own). All else fails with `InternalError`.
    pub fn parse_as_delta_seconds_floor(&self) -> Result<u32>
        ensures { Reads (floor_seconds_of (unquoted self.now.0.items)) result }
    {
        match floor_seconds(self.parse_as_bytes()) {
            Some(seconds) => Ok(seconds),
            None => Err(Error::new(ErrorType::InternalError)),
        }
    }
}

/// The items of a list in a directive's value: the bytes between its commas, without spaces and
/// tabs at both ends (RFC 9110 section 5.6.1). An empty item counts too. A contract sees the
/// remaining items.
#[derive(Drop)]
pub struct ListValueIter<'a> {
    rest: Option<&'a [u8]>,
}

impl<'a> Model for ListValueIter<'a> {
    ghost use Rattle.std.specs.Prelude.{ℕ, List};
    ghost use Rattle.std.specs.Option.{option_copied};
    ghost use Rattle.pcache_control.specs.Values.{items_left};

    ghost Value = { List (List ℕ) };

    ghost view = { λ it. items_left (option_copied it.rest) };
}

impl<'a> ListValueIter<'a> {
    /// The items of a value, without its outer quotes.
    pub fn from(value: &'a DirectiveValue) -> ListValueIter<'a>
        ensures { result ≡ list_items (unquoted value.now.0.items) }
    {
        ListValueIter {
            rest: Some(value.parse_as_bytes()),
        }
    }
}

fn is_ows(b: u8) -> bool
    ensures { result ≡ is_ows b }
{
    b == b' ' || b == b'\t'
}

fn trim_start(mut bytes: &[u8]) -> &[u8]
    ensures { result.now ≡ skip_ows bytes.now }
{
    'front: while let [first, rest @ ..] = bytes
        && is_ows(*first)
    {
        bytes = rest;
    }
    bytes
}

fn trim_end(mut bytes: &[u8]) -> &[u8]
    ensures { result.now ≡ reverse (skip_ows (reverse bytes.now)) }
{
    'back: while let [rest @ .., last] = bytes
        && is_ows(*last)
    {
        bytes = rest;
    }
    bytes
}

#[tactic(auto, unfolding(crate::specs::Values::trim_ows))]
pub(crate) fn trim_ows(bytes: &[u8]) -> &[u8]
    ensures { result.now ≡ trim_ows bytes.now }
{
    trim_end(trim_start(bytes))
}

// The index of the first comma.
fn comma(bytes: &[u8]) -> Option<usize>
    ensures place { result ≡ position is_comma bytes.now }
    ensures within { IfSome result (λ at. at < length bytes.now) }
{
    bytes.iter().position(|b| *b == b',')
}

// The bytes before the first comma, and those after it.
fn split_at_comma(bytes: &[u8]) -> (&[u8], Option<&[u8]>)
    ensures { list_items bytes.now ≡ trim_ows result.0.now ∷ items_left (option_copied result.1) }
{
    match comma(bytes) {
        Some(at) => (&bytes[..at], Some(&bytes[at + 1..])),
        None => (bytes, None),
    }
}

impl<'a> Iterator for ListValueIter<'a> {
    ghost use Rattle.std.specs.Iterator.{YieldsFirstRef, item_count};

    type Item = &'a [u8];

    ghost next_gives = { YieldsFirstRef (λ it. it) };

    ghost remaining = { item_count (λ it. it) };

    fn next(&mut self) -> Option<&'a [u8]> {
        let bytes = self.rest?;
        let (item, rest) = split_at_comma(bytes);
        self.rest = rest;
        Some(trim_ows(item))
    }
}
