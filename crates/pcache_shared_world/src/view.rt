//! The tokens that carry the entries out of the lock. They have no bytes, and their steps neither
//! wait nor take memory.

use atomic_table::{Join, Play, Split, Table, TableRule};
use pcache_world::world::entry::Entry;
use std::alloc::Global;
use std::collections::LinkedList;

/// What a seat knows: the one under the lock knows all entries added since the opening, each other
/// one those that it has added, with their indices. No value of this type is made.
pub struct View<E> {
    /// Whether this is the seat under the lock.
    pub keeps: bool,
    /// All added entries, if it is.
    pub all: LinkedList<E>,
    /// How many parts of the whole it has.
    pub parts: u64,
    /// The entries that it claims, each with its index.
    pub claims: LinkedList<(u64, E)>,
}

/// The invariant of all views.
pub struct Law;

impl<E> TableRule<E, View<E>, ()> for Law {
    ghost use Rattle.std.specs.Prelude.{[]};
    ghost use Rattle.pcache_shared_world.specs.Views.{Kept, keeper, whole};

    ghost holds = { λ _ s. Kept s.views };

    ghost first = { λ _. keeper whole [] [] };
}

/// An entry is added and claimed.
pub struct Adding;

impl<E> Play<E, View<E>> for Adding {
    ghost use Rattle.pcache_shared_world.specs.Views.{Adds};

    ghost then = { Adds };
}

/// All claims are looked at.
pub struct Settling;

impl<E> Play<E, View<E>> for Settling {
    ghost use Rattle.pcache_shared_world.specs.Views.{Settles};

    ghost then = { Settles };
}

/// All that a share knows is moved to a new seat.
pub struct Moving;

impl<E> Split<View<E>> for Moving {
    ghost use Rattle.pcache_shared_world.specs.Views.{nobody};

    ghost left = { λ v. nobody };

    ghost right = { λ v. v };
}

/// One part and the claims are moved from the keeper to a new seat, or back.
pub struct Dealing;

impl<E> Split<View<E>> for Dealing {
    ghost use Rattle.pcache_shared_world.specs.Views.{relieved, slip_of};

    ghost left = { relieved };

    ghost right = { slip_of };
}

impl<E> Join<View<E>> for Dealing {
    ghost use Rattle.pcache_shared_world.specs.Views.{both, nobody};

    ghost both = { both };

    ghost spent = { nobody };
}

/// The table of the seats: one word, and no slots.
pub type Room = Table<Entry, View<Entry>, (), Law, Global>;
