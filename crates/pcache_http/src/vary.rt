//! Which requests a stored response answers by its Vary (RFC 9111 section 4.1).

ghost use Rattle.std.specs.Prelude.{◌≡◌, ◌↔◌, IsTrue, codes};
ghost use Rattle.pcache_http.specs.Vary.{IsMatched, IsAnswered, Selects};

use crate::lists::{Members, same_members};
use http_header::{HeaderMap, VARY};

// Whether the fields of a name match.
fn is_matched(first: &HeaderMap, second: &HeaderMap, name: &[u8]) -> bool
    ensures { IsTrue result ↔ IsMatched first.now second.now name.now }
{
    let first = first.get_all(name);
    let second = second.get_all(name);
    first.iter().next().is_some() == second.iter().next().is_some()
        && same_members(Members::of(&first), Members::of(&second))
}

// Whether a field that Vary nominates lets the stored response be used.
fn is_answered(original: &HeaderMap, presented: &HeaderMap, name: &[u8]) -> bool
    ensures { IsTrue result ↔ IsAnswered original.now presented.now name.now }
{
    name != b"*".as_slice() && is_matched(original, presented, name)
}

/// Whether a stored response may be used for a request by its Vary: all fields that it nominates
/// match those of the request that it was stored for, and it does not nominate `*`.
pub fn selects(stored: &HeaderMap, original: &HeaderMap, presented: &HeaderMap) -> bool
    ensures { IsTrue result ↔ Selects stored.now original.now presented.now }
{
    'names: for name in Members::of(&stored.get_all(&VARY)) {
        if !is_answered(original, presented, name) {
            return false;
        }
    }
    true
}
