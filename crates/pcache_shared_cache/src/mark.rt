//! The types that name the parts of one cache.

use std::marker::Brand;

/// Names the parts of one cache: the keeper of the log at each place, if it names that place. A request of one cache cannot be
/// used with the parts of another, which have another mark.
///
/// Where a mark names a place, the contract of each call says how the part went on from what the caller had seen of it. Where it
/// names none, it says only what the part did in this call.
///
/// The names are fixed by a type since a keeper's name is no value that a lock could lend. A handle that has no type parameter, as
/// one for C, cannot carry a mark that `over_parts` picked, and takes `Unnamed`.
pub trait Mark {
    ghost use Rattle.std.specs.Prelude.{ℕ, Option};

    ghost names: { ℕ → Option ℕ };
}

/// A caller without a mark parameter uses this one, and chooses at the call what it names.
impl Mark for Brand {
    ghost use Rattle.std.specs.Prelude.{None};

    ghost names = { λ place. None };
}

/// Names no part.
pub struct Unnamed;

impl Mark for Unnamed {
    ghost use Rattle.std.specs.Prelude.{None};

    ghost names = { λ place. None };
}
