//! Entity tags (RFC 9110 section 8.8.3).

ghost use Rattle.std.specs.Prelude.{◌≡◌, ◌↔◌, List, ℕ, Some, Option};
ghost use Rattle.std.specs.List.{list_all};
ghost use Rattle.std.specs.Option.{option_copied};
ghost use Rattle.pcache_validation.specs.EntityTags.{Tag, Spells, after_mark, characters_in, is_etagc, opaque_in, strongly_match, tag_in, tagged, weakly_match};

use std::marker::Model;

/// An entity tag, in the bytes that it was read from. A contract sees whether it is weak, and the
/// characters between its quotes.
#[derive(Drop)]
pub struct EntityTag<'a> {
    weak: bool,
    opaque: &'a [u8],
}

impl<'a> Model for EntityTag<'a> {
    ghost use Rattle.pcache_validation.specs.EntityTags.{Tag};

    ghost Value = { Tag };

    ghost view = { λ tag. record { weak = tag.weak; opaque = tag.opaque.now } };
}

fn is_etagc(b: u8) -> bool
    ensures { result ≡ is_etagc b }
{
    b == 0x21 || (0x23 <= b && b <= 0x7E) || 0x80 <= b
}

fn are_etagc(bytes: &[u8]) -> bool
    ensures { result ≡ list_all is_etagc bytes.now }
{
    bytes.iter().all(|b| is_etagc(*b))
}

// The bytes, if they are characters of entity tags.
fn characters(bytes: &[u8]) -> Option<&[u8]>
    ensures { option_copied result ≡ characters_in bytes.now }
{
    if are_etagc(bytes) { Some(bytes) } else { None }
}

// What stands between the quotes.
fn opaque(bytes: &[u8]) -> Option<&[u8]>
    ensures { option_copied result ≡ opaque_in bytes.now }
{
    match bytes {
        [b'"', inner @ .., b'"'] => characters(inner),
        _ => None,
    }
}

// The bytes behind the mark of a weak tag, if it stands in front.
fn after_mark(bytes: &[u8]) -> Option<&[u8]>
    ensures { option_copied result ≡ after_mark bytes.now }
{
    match bytes {
        [b'W', b'/', rest @ ..] => Some(rest),
        _ => None,
    }
}

fn tagged(weak: bool, opaque: Option<&[u8]>) -> Option<EntityTag<'_>>
    ensures { result ≡ tagged weak (option_copied opaque.entry) }
{
    match opaque {
        Some(opaque) => Some(EntityTag { weak, opaque }),
        None => None,
    }
}

#[tactic(auto, unfolding(crate::specs::EntityTags::tag_in))]
fn read_tag(bytes: &[u8]) -> Option<EntityTag<'_>>
    ensures { result ≡ tag_in bytes.now }
{
    match after_mark(bytes) {
        Some(rest) => tagged(true, opaque(rest)),
        None => tagged(false, opaque(bytes)),
    }
}

impl<'a> EntityTag<'a> {
    /// The entity tag that the bytes spell: characters in quotes, with `W/` before them if it is
    /// weak. `None` if they spell none.
    pub fn read(bytes: &'a [u8]) -> Option<EntityTag<'a>>
        ensures value { result ≡ tag_in bytes.now }
        ensures grammar { (tag : Tag) → (result ≡ Some tag) ↔ Spells bytes.now tag }
    {
        read_tag(bytes)
    }

    /// Whether it is marked as weak.
    pub fn is_weak(&self) -> bool
        ensures { result ≡ self.now.weak }
    {
        self.weak
    }

    /// The characters between its quotes.
    pub fn opaque(&self) -> &[u8]
        ensures { result.now ≡ self.now.opaque }
    {
        self.opaque
    }

    /// Whether both are equivalent by weak comparison (RFC 9110 section 8.8.3.2).
    pub fn weakly_matches(&self, other: &EntityTag<'_>) -> bool
        ensures { result ≡ weakly_match self.now other.now }
    {
        self.opaque == other.opaque
    }

    /// Whether both are equivalent by strong comparison (RFC 9110 section 8.8.3.2).
    pub fn strongly_matches(&self, other: &EntityTag<'_>) -> bool
        ensures { result ≡ strongly_match self.now other.now }
    {
        !self.weak && !other.weak && self.weakly_matches(other)
    }
}
