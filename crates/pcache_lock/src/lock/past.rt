//! What was done to a table of locks, which only proofs read. It takes no memory.
ghost use Rattle.std.specs.Prelude.{◌≡◌, List, [], ◌∷◌};
ghost use base.Fml.{ftrue};
ghost use Rattle.pcache_lock.specs.Deeds.{Deed};

use crate::lock::status::LockStatus;
use pcache_base::moment::Moment;
use std::marker::Model;
use std::time::Duration;

/// A list of deeds that stands in a ghost field alone, the newest first.
///
/// Anyone can make one with any deeds; it tells something of a table only as the private field of a
/// type whose invariant ties it to the table.
#[derive(Drop)]
pub struct Past {
    pub ghost deeds: { List Deed },
}

impl Model for Past {
    ghost also_owns = { λ _. ftrue };
}

// It owns nothing, so nothing that belongs to one thread: a table with its past may go to another thread.
unsafe impl Send for Past {}

// With what the call returned, so that laws read the list alone and play no table again. A call
// that failed is no note: what it asked for matters to nobody later.
/// What a call did, told by what it was passed and what it returned.
#[derive(Drop)]
pub enum Note<'a> {
    /// The lock of a key was asked for, and one was given.
    Asked {
        /// Of the key.
        slot: u128,
        stale_writer: bool,
        now: Moment,
        /// Of the lock that was given.
        number: u64,
        is_permit: bool,
    },
    /// A permit was released.
    Released {
        number: u64,
        reason: LockStatus,
    },
    /// A permit or a read lock was let go.
    GivenUp {
        number: u64,
        is_permit: bool,
    },
    /// A read lock of this number was polled.
    Polled {
        number: u64,
        now: Moment,
        /// Whether its permit was found too old.
        is_old: bool,
    },
    /// Tokens were published for a permit.
    Published {
        number: u64,
        tokens: &'a [u64],
    },
    /// A permit was given for no key.
    Made {
        number: u64,
        age_timeout: Duration,
        stale_writer: bool,
        now: Moment,
    },
    /// A read lock was given on the lock with this number.
    ReadLocked(u64),
    /// The final status of a lock was set while its permit was held.
    Unlocked {
        number: u64,
        reason: LockStatus,
    },
}

impl Past {
    ghost use Rattle.pcache_lock.specs.Noted.{deed_of};

    /// No deed.
    pub fn new() -> Past
        ensures { result.deeds ≡ [] }
    {
        Past {}
    }

    /// The past with one more deed.
    #[inline(always)]
    pub fn then(&self, _note: &Note<'_>) -> Past
        ensures { result.deeds ≡ deed_of _note.now ∷ self.now.deeds }
    {
        Past {}
    }
}
