//! Which stored responses a 304 identifies for update (RFC 9111 section 4.3.4).

ghost use Rattle.std.specs.Prelude.{◌≡◌};
ghost use Rattle.pcache_meta.specs.Header.{shown_fields};
ghost use Rattle.pcache_validation.specs.Freshening.{are_both_without, corresponds, has_same_strong, identifies, same_second};

use crate::conditions::{matches_strongly, matches_weakly};
use crate::validators::{Validator, entity_tag, has_validator, last_modified, validator_of};
use http_header::HeaderMap;

// Whether both have the same strong validator.
fn has_same_strong(new: &HeaderMap, stored: &HeaderMap) -> bool
    ensures { result ≡ has_same_strong (shown_fields new.now) (shown_fields stored.now) }
{
    let tag = entity_tag(stored);
    matches_strongly(entity_tag(new), tag.as_ref())
}

// Whether both seconds are there, and are the same.
fn same_second(a: Option<u64>, b: Option<u64>) -> bool
    ensures { result ≡ same_second a b }
{
    match (a, b) {
        (Some(a), Some(b)) => a == b,
        _ => false,
    }
}

// Whether the weak validators of the new response correspond to a stored one.
fn corresponds(new: &HeaderMap, stored: &HeaderMap) -> bool
    ensures { result ≡ corresponds (shown_fields new.now) (shown_fields stored.now) }
{
    let tag = entity_tag(new);
    // A tag decides, and not the date beside it: RFC 9110, section 13.1.3, calls it the more
    // accurate one, and RFC 9111 leaves open what several weak validators must agree on.
    if tag.is_none() {
        return same_second(last_modified(new), last_modified(stored));
    }
    let selected = entity_tag(stored);
    matches_weakly(tag, selected.as_ref())
}

/// Whether a 304 identifies a stored response for update. `alone` says that it is the only one
/// that could have been chosen for the request. With a strong validator each stored response that
/// has the same is identified; with weak ones alone those to which they correspond, of which the
/// most recent is to be updated; without one the stored response must be alone, and without one
/// too.
pub fn identifies(new: &HeaderMap, stored: &HeaderMap, alone: bool) -> bool
    ensures { result ≡ identifies (shown_fields new.now) (shown_fields stored.now) alone }
{
    match validator_of(new) {
        Validator::Strong => has_same_strong(new, stored),
        Validator::Weak => corresponds(new, stored),
        Validator::Absent => alone && !has_validator(stored),
    }
}
