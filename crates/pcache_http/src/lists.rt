//! The members of lists in fields (RFC 9110 sections 5.3 and 5.6.1).

ghost use Rattle.std.specs.Prelude.{◌≡◌, ◌<◌, ◌↔◌, [], ◌∷◌, List, length, position, reverse, IsTrue, IfSome};
ghost use Rattle.std.specs.List.{list_any};
ghost use Rattle.std.specs.Option.{option_copied};
ghost use Rattle.pcache_control.specs.Maps.{lines_of};
ghost use Rattle.pcache_control.specs.Values.{is_comma, is_ows, skip_ows, trim_ows, list_items, items_left};
ghost use Rattle.pcache_http.specs.Vary.{is_quote, members_in, members_of};

use http_header::{GetAll, HeaderValue, ValueIter};
use std::marker::Model;

fn is_ows(b: u8) -> bool
    ensures { result ≡ is_ows b }
{
    b == b' ' || b == b'\t'
}

fn trim_start(mut bytes: &[u8]) -> &[u8]
    ensures { result.now ≡ skip_ows bytes.now }
{
    'front: while let [first, rest @ ..] = bytes
        && is_ows(*first)
    {
        bytes = rest;
    }
    bytes
}

fn trim_end(mut bytes: &[u8]) -> &[u8]
    ensures { result.now ≡ reverse (skip_ows (reverse bytes.now)) }
{
    'back: while let [rest @ .., last] = bytes
        && is_ows(*last)
    {
        bytes = rest;
    }
    bytes
}

// The bytes without spaces and tabs at both ends.

pub(crate) fn trim_ows(bytes: &[u8]) -> &[u8]
    ensures { result.now ≡ trim_ows bytes.now }
{
    trim_end(trim_start(bytes))
}

// The index of the first comma.
fn comma(bytes: &[u8]) -> Option<usize>
    ensures place { result ≡ position is_comma bytes.now }
    ensures within { IfSome result (λ at. at < length bytes.now) }
{
    bytes.iter().position(|b| *b == b',')
}

// The bytes before the first comma, and those after it.
fn split_at_comma(bytes: &[u8]) -> (&[u8], Option<&[u8]>)
    ensures { list_items bytes.now ≡ trim_ows result.0.now ∷ items_left (option_copied result.1) }
{
    match comma(bytes) {
        Some(at) => (&bytes[..at], Some(&bytes[at + 1..])),
        None => (bytes, None),
    }
}

fn has_quote(bytes: &[u8]) -> bool
    ensures { result ≡ list_any is_quote bytes.now }
{
    bytes.iter().any(|b| *b == b'"')
}

// The first member of a line, and the bytes in which the others are.
#[tactic(auto, unfolding(crate::specs::Vary::members_in))]
fn split_line(line: &[u8]) -> (&[u8], Option<&[u8]>)
    ensures { members_in line.now ≡ trim_ows result.0.now ∷ items_left (option_copied result.1) }
{
    // A comma in quotes may mean itself, so white space round commas tells the variants of such a
    // line apart. The order and case of members are the field's own, and left to callers.
    if has_quote(line) {
        (line, None)
    } else {
        split_at_comma(line)
    }
}

/// The items of a value: the bytes between its commas, without spaces and tabs round them. A contract
/// sees the remaining items.
#[derive(Drop)]
pub struct Items<'a> {
    rest: Option<&'a [u8]>,
}

impl<'a> Model for Items<'a> {
    ghost use Rattle.std.specs.Prelude.{ℕ, List};
    ghost use Rattle.std.specs.Option.{option_copied};
    ghost use Rattle.pcache_control.specs.Values.{items_left};

    ghost Value = { List (List ℕ) };

    ghost view = { λ it. items_left (option_copied it.rest) };
}

impl<'a> Items<'a> {
    /// The items of a value.
    pub fn of(bytes: &'a [u8]) -> Items<'a>
        ensures { result ≡ list_items bytes.now }
    {
        Items { rest: Some(bytes) }
    }
}

impl<'a> Iterator for Items<'a> {
    ghost use Rattle.std.specs.Iterator.{YieldsFirstRef, item_count};

    type Item = &'a [u8];

    ghost next_gives = { YieldsFirstRef (λ it. it) };

    ghost remaining = { item_count (λ it. it) };

    fn next(&mut self) -> Option<&'a [u8]> {
        let Some(bytes) = self.rest else {
            return None;
        };
        let (item, rest) = split_at_comma(bytes);
        self.rest = rest;
        Some(trim_ows(item))
    }
}

/// The members of a list that stands in one or more lines of a field: the parts of a line between its
/// commas, without spaces and tabs round them. An empty member counts too. A line with a quoted text
/// is one member. A contract sees the remaining members.
#[derive(Drop)]
pub struct Members<'a> {
    rest: Option<&'a [u8]>,
    lines: ValueIter<'a, HeaderValue>,
}

impl<'a> Model for Members<'a> {
    ghost use Rattle.std.specs.Prelude.{ℕ, List, ◌++◌};
    ghost use Rattle.std.specs.Option.{option_copied};
    ghost use Rattle.pcache_control.specs.Maps.{lines_of};
    ghost use Rattle.pcache_control.specs.Values.{items_left};
    ghost use Rattle.pcache_http.specs.Vary.{members_of};

    ghost Value = { List (List ℕ) };

    ghost view = { λ m. items_left (option_copied m.rest) ++ members_of (lines_of m.lines) };
}

impl<'a> Members<'a> {
    /// The members of the list in the lines of a field.
    pub fn of(lines: &GetAll<'a, HeaderValue>) -> Members<'a>
        ensures { result ≡ members_of (lines_of lines.now) }
    {
        Members {
            rest: None,
            lines: lines.iter(),
        }
    }
}

impl<'a> Iterator for Members<'a> {
    ghost use Rattle.std.specs.Iterator.{YieldsFirstRef, item_count};

    type Item = &'a [u8];

    ghost next_gives = { YieldsFirstRef (λ m. m) };

    ghost remaining = { item_count (λ m. m) };

    fn next(&mut self) -> Option<&'a [u8]> {
        if let Some(bytes) = self.rest {
            let (member, rest) = split_at_comma(bytes);
            self.rest = rest;
            return Some(trim_ows(member));
        }
        let Some(line) = self.lines.next() else {
            return None;
        };
        let (member, rest) = split_line(line.as_bytes());
        self.rest = rest;
        Some(trim_ows(member))
    }
}

/// Whether two lists have the same members in the same order.
pub(crate) fn same_members(first: Members<'_>, mut second: Members<'_>) -> bool
    ensures { IsTrue result ↔ (first.entry ≡ second.entry) }
{
    'members: for member in first {
        let Some(other) = second.next() else {
            return false;
        };
        if member != other {
            return false;
        }
    }
    second.next().is_none()
}
