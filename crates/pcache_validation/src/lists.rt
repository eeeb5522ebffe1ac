//! Lists in field values (RFC 9110 section 5.6.1).

ghost use Rattle.std.specs.Prelude.{◌≡◌, ◌<◌, ◌+◌, List, [], ◌∷◌, drop, take, false, length, reverse, MatchOption, IfSome};
ghost use Rattle.std.specs.Option.{option_copied};
ghost use Rattle.pcache_validation.specs.Lists.{elements, elements_left, is_ows, parts, quoted_after, separates, skip_ows, trim_ows};

use std::marker::Model;

fn is_ows(b: u8) -> bool
    ensures { result ≡ is_ows b }
{
    b == b' ' || b == b'\t'
}

fn trim_start(mut bytes: &[u8]) -> &[u8]
    ensures { result.now ≡ skip_ows bytes.now }
{
    'front: while let [first, rest @ ..] = bytes
        && is_ows(*first)
    {
        bytes = rest;
    }
    bytes
}

fn trim_end(mut bytes: &[u8]) -> &[u8]
    ensures { result.now ≡ reverse (skip_ows (reverse bytes.now)) }
{
    'back: while let [rest @ .., last] = bytes
        && is_ows(*last)
    {
        bytes = rest;
    }
    bytes
}

/// A field value without the white space before and after it (RFC 9110 section 5.5).
#[tactic(auto, unfolding(crate::specs::Lists::trim_ows))]
pub fn trim_ows(bytes: &[u8]) -> &[u8]
    ensures { result.now ≡ trim_ows bytes.now }
{
    trim_end(trim_start(bytes))
}

// Whether a byte separates two elements: it is a comma that is in no quotes.
fn separates(quoted: bool, b: u8) -> bool
    ensures { result ≡ separates quoted b }
{
    b == b',' && !quoted
}

// Whether what follows a byte is in quotes.
fn quoted_after(quoted: bool, b: u8) -> bool
    ensures { result ≡ quoted_after quoted b }
{
    if b == b'"' { !quoted } else { quoted }
}

// The index of the first comma that is in no quotes.
fn separator(bytes: &[u8]) -> Option<usize>
    ensures parts { MatchOption result (parts false bytes.now ≡ bytes.now ∷ [])
        (λ at. parts false bytes.now ≡ take at bytes.now ∷ parts false (drop (at + 1) bytes.now)) }
    ensures within { IfSome result (λ at. at < length bytes.now) }
{
    let mut quoted = false;
    for (at, b) in bytes.iter().enumerate() {
        if separates(quoted, *b) {
            return Some(at);
        }
        quoted = quoted_after(quoted, *b);
    }
    None
}

// The first element, with the white space around it, and what follows its comma.
fn split_element(bytes: &[u8]) -> (&[u8], Option<&[u8]>)
    ensures { elements bytes.now
        ≡ trim_ows result.0.now ∷ elements_left (option_copied result.1) }
{
    match separator(bytes) {
        Some(at) => (&bytes[..at], Some(&bytes[at + 1..])),
        None => (bytes, None),
    }
}

/// The elements of a list: the bytes between its commas, without the white space around them. A
/// comma in the quotes of an entity tag separates nothing, and an empty element counts too. A
/// contract sees the remaining elements.
#[derive(Drop)]
pub struct Elements<'a> {
    rest: Option<&'a [u8]>,
}

impl<'a> Model for Elements<'a> {
    ghost use Rattle.std.specs.Prelude.{ℕ, List};
    ghost use Rattle.std.specs.Option.{option_copied};
    ghost use Rattle.pcache_validation.specs.Lists.{elements_left};

    ghost Value = { List (List ℕ) };

    ghost view = { λ it. elements_left (option_copied it.rest) };
}

impl<'a> Elements<'a> {
    /// The elements of a field value.
    pub fn of(value: &'a [u8]) -> Elements<'a>
        ensures { result ≡ elements value.now }
    {
        Elements { rest: Some(value) }
    }
}

impl<'a> Iterator for Elements<'a> {
    ghost use Rattle.std.specs.Iterator.{YieldsFirstRef, item_count};

    type Item = &'a [u8];

    ghost next_gives = { YieldsFirstRef (λ it. it) };

    ghost remaining = { item_count (λ it. it) };

    fn next(&mut self) -> Option<&'a [u8]> {
        let bytes = self.rest?;
        let (element, rest) = split_element(bytes);
        self.rest = rest;
        Some(trim_ows(element))
    }
}
