//! The keeper of a log, and what was seen of it.
ghost use Rattle.std.specs.Prelude.{◌≡◌, ◌⊎◌, ℕ, List, [], ◌∷◌, ◌++◌};
ghost use mathlib.Core.List.{IsPrefix};
ghost use base.Stored.{coded_list};
ghost use denote.Sharing.{said};
ghost use Rattle.pcache_keeper.specs.Kept.{had, top};

use std::marker::{Model, PhantomData};

/// What is noted in a log of `E` of a value of this type.
pub trait Noted<E> {
    ghost note: { Self → E };
}

/// The right to say what happened, and all that was said, oldest first. There is one keeper of a log, and no copy of it; its name
/// tells it from other keepers. It lies under a lock, beside the value whose log it keeps.
pub struct Keeper<E> {
    marker: PhantomData<E>,
    pub ghost name: { ℕ },
    pub ghost log: { List E } by { coded_list E.code },
}

impl<E> Model for Keeper<E> {
    ghost also_owns = { λ k. top E.row.coded.code k.name k.log };
}

/// The keeper of this name has reached this log: what it keeps begins with it, now and at all times. It is copied by `again`.
pub struct Seen<E> {
    marker: PhantomData<E>,
    pub ghost name: { ℕ },
    pub ghost log: { List E } by { coded_list E.code },
}

impl<E> Model for Seen<E> {
    ghost also_owns = { λ s. had E.row.coded.code s.name s.log };

    ghost also_shares = { λ s _ κ. said (had E.row.coded.code s.name s.log) κ };
}

// Neither owns what belongs to one thread.
unsafe impl<E> Send for Keeper<E> {}

unsafe impl<E> Send for Seen<E> {}

unsafe impl<E> Sync for Seen<E> {}

impl<E> Drop for Keeper<E> {
    fn drop(self) {
        let Self { marker: _ } = self;
    }
}

impl<E> Drop for Seen<E> {
    fn drop(self) {
        let Self { marker: _ } = self;
    }
}

impl<E> Keeper<E> {
    /// A keeper of a log in which nothing stands.
    pub fn new() -> Keeper<E>
        ensures { result.log ≡ [] }
    {
        Keeper {
            marker: PhantomData,
        }
    }

    /// All that its log has, as something seen.
    pub fn see(&mut self) -> Seen<E>
        ensures seen { (result.name ≡ self.old.name) × (result.log ≡ self.old.log) }
        ensures same { (self.new.name ≡ self.old.name) × (self.new.log ≡ self.old.log) }
    {
        Seen {
            marker: PhantomData,
        }
    }

    // Asks for no equal names, so that a caller whose mark names nothing makes the same calls. It
    // says something only where the names agree.
    /// Whatever was seen of its log is a beginning of it.
    pub fn meets(&mut self, seen: &Seen<E>)
        ensures { (self.new.name ≡ self.old.name)
            × (self.new.log ≡ self.old.log)
            × (seen.now.name ≡ self.old.name → IsPrefix seen.now.log self.old.log) }
    {}

    /// One more note in the log, of the value `_noted`.
    pub fn add<X: Noted<E>>(&mut self, _noted: &X)
        ensures { (self.new.name ≡ self.old.name)
            × (self.new.log ≡ self.old.log ++ X.note _noted.now ∷ []) }
    {}
}

impl<E> Seen<E> {
    /// Afterwards it has seen what both had, if they saw the log of one keeper: of two beginnings of a log one begins the other. What
    /// it has seen then is what one of the two had.
    pub fn sees(&mut self, other: &Seen<E>)
        ensures { (self.new.name ≡ self.old.name)
            × IsPrefix self.old.log self.new.log
            × (other.now.name ≡ self.old.name → IsPrefix other.now.log self.new.log)
            × ((self.new.log ≡ self.old.log) ⊎ (self.new.log ≡ other.now.log)) }
    {}

    /// A copy.
    pub fn again(&self) -> Seen<E>
        ensures { result ≡ self.now }
    {
        Seen {
            marker: PhantomData,
        }
    }
}
