//! Validators of a response (RFC 9110 section 8.8).

ghost use Rattle.std.specs.Prelude.{◌≡◌};
ghost use Rattle.pcache_meta.specs.Header.{shown_fields};
ghost use Rattle.pcache_validation.specs.Validators.{entity_tag, has_validator, is_strong, last_modified, validator_of};

use crate::entity_tag::EntityTag;
use crate::fields::{date_of, only};
use crate::lists::trim_ows;
use http_header::{ETAG, HeaderMap, LAST_MODIFIED};

/// Of which kind the validators of a response are.
#[derive(Clone, Copy, Debug, PartialEq, Eq)]
pub enum Validator {
    /// An entity tag that is not marked as weak.
    Strong,
    /// A weak entity tag, or a modification date.
    Weak,
    /// It has none.
    Absent,
}

/// The entity tag of a response. Several lines of ETag, or one that spells none, count as none.
#[tactic(auto, unfolding(crate::specs::Validators::entity_tag))]
pub fn entity_tag(fields: &HeaderMap) -> Option<EntityTag<'_>>
    ensures { result ≡ entity_tag (shown_fields fields.now) }
{
    EntityTag::read(trim_ows(only(fields, &ETAG)?.as_bytes()))
}

/// The second at which a response was last modified, as its Last-Modified says.
#[tactic(auto, unfolding(crate::specs::Validators::last_modified))]
pub fn last_modified(fields: &HeaderMap) -> Option<u64>
    ensures { result ≡ last_modified (shown_fields fields.now) }
{
    date_of(fields, &LAST_MODIFIED)
}

/// Whether a response has a validator.
pub fn has_validator(fields: &HeaderMap) -> bool
    ensures { result ≡ has_validator (shown_fields fields.now) }
{
    entity_tag(fields).is_some() || last_modified(fields).is_some()
}

/// Of which kind the validators of a response are.
pub fn validator_of(fields: &HeaderMap) -> Validator
    ensures { result ≡ validator_of (shown_fields fields.now) }
{
    if is_strong(fields) {
        Validator::Strong
    } else if has_validator(fields) {
        Validator::Weak
    } else {
        Validator::Absent
    }
}

fn is_strong(fields: &HeaderMap) -> bool
    ensures { result ≡ is_strong (shown_fields fields.now) }
{
    match entity_tag(fields) {
        Some(tag) => !tag.is_weak(),
        None => false,
    }
}
