//! Owned text that contracts see as the list of its bytes.
//!
//! A `String` in a struct would bring the address and the capacity of its buffer into every
//! contract that compares such structs; a `Text` does not. The tags of users are short: a short
//! text is kept in the value itself, so that a key is copied, compared and dropped without an
//! access to the heap.
ghost use Rattle.std.specs.Prelude.{◌≡◌, IfOk, nat_eq, string_bytes};
ghost use Rattle.std.specs.Ordering.{nat_cmp, as_partial_cmp};
ghost use Rattle.std.specs.Cmp.{partial_equiv_from_equiv, partial_order_from_own_ties};
ghost use Rattle.std.specs.Cmp.Lexicographic.{pointwise, slice_cmp, nat_list_eq_equiv};
ghost use Rattle.std.specs.Cmp.Rules.{comparing, hashing};
ghost use Rattle.std.specs.Hash as fed;
ghost use Rattle.std.proofs.Common.{rules};

use crate::error::Result;
use arrayvec::ArrayString;
use std::alloc::AllocError;
use std::cmp::Ordering;
use std::fmt;
use std::hash::{Hash, Hasher};
use std::marker::Model;

// The most bytes of a short text: with so many it takes as much memory as a `String`.
const SHORT: usize = 16;

// Where the bytes of a text are.
#[derive(Drop)]
pub(crate) enum Kept {
    // In the value: at most 16 of them.
    Inside(ArrayString<16>),
    // On the heap.
    Outside(String),
}

/// An owned text. A contract sees the list of its bytes.
#[derive(Drop)]
pub struct Text {
    place: Kept,
}

impl Model for Text {
    ghost use Rattle.std.specs.Prelude.{ℕ, List};
    ghost use Rattle.pcache_base.specs.Text.{bytes_at};

    ghost Value = { List ℕ };

    ghost view = { λ a. bytes_at a.place };
}

impl Text {
    /// The same text.
    pub fn new(text: String) -> Text
        ensures { result ≡ string_bytes text }
    {
        if text.len() > SHORT {
            return Text {
                place: Kept::Outside(text),
            };
        }
        let mut short = ArrayString::new();
        short.push_str(text.as_str());
        Text {
            place: Kept::Inside(short),
        }
    }

    /// The text.
    pub fn as_str(&self) -> &str
        ensures { result.now ≡ self.now }
    {
        match &self.place {
            Kept::Inside(text) => text.as_str(),
            Kept::Outside(text) => text.as_str(),
        }
    }

    /// A second text with the same bytes. Fails only when memory runs out.
    pub fn copied(&self) -> Result<Text, AllocError>
        ensures ok { IfOk result (λ copy. copy ≡ self.now) }
    {
        self.clone()
    }
}

impl From<String> for Text {
    ghost from_gives = { λ text made. made ≡ string_bytes text };

    fn from(text: String) -> Text {
        Text::new(text)
    }
}

impl Clone for Text {
    ghost is_clone = { λ text copy. copy ≡ text };

    fn clone(&self) -> std::result::Result<Text, AllocError> {
        let place = match &self.place {
            Kept::Inside(text) => Kept::Inside(*text),
            Kept::Outside(text) => Kept::Outside(text.clone()?),
        };
        Ok(Text { place })
    }
}

impl PartialEq for Text {
    ghost eq = { pointwise nat_eq };

    ghost laws = { partial_equiv_from_equiv nat_list_eq_equiv };

    fn eq(&self, other: &Text) -> bool {
        self.as_str() == other.as_str()
    }
}

impl Eq for Text {
    ghost laws = { nat_list_eq_equiv };
}

impl Ord for Text {
    ghost cmp = { slice_cmp nat_cmp };

    ghost total = { Prim.search (comparing, rules) };

    ghost matches_partial_cmp = { Prim.search (comparing, rules) };

    ghost matches_eq = { Prim.search (comparing, rules) };

    fn cmp(&self, other: &Text) -> Ordering {
        self.as_str().cmp(other.as_str())
    }
}

impl PartialOrd for Text {
    ghost partial_cmp = { as_partial_cmp (slice_cmp nat_cmp) };

    ghost laws = { partial_order_from_own_ties (Prim.search (comparing, rules)) (Prim.search (comparing, rules)) };

    fn partial_cmp(&self, other: &Text) -> Option<Ordering> {
        Some(self.cmp(other))
    }
}

impl Hash for Text {
    ghost hash_input = { fed.str };

    ghost respects_eq = { Prim.search (hashing, rules) };

    fn hash<H: Hasher>(&self, state: &mut H) {
        self.as_str().hash(state);
    }
}

impl fmt::Debug for Text {
    fn fmt<W: fmt::Write>(&self, f: &mut fmt::Formatter<W>) -> fmt::Result {
        fmt::Debug::fmt(self.as_str(), f)
    }
}

impl fmt::Display for Text {
    fn fmt<W: fmt::Write>(&self, f: &mut fmt::Formatter<W>) -> fmt::Result {
        f.write_str(self.as_str())
    }
}
