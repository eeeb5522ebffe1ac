//! What was done to a store, which only proofs read. It takes no memory.
ghost use Rattle.std.specs.Prelude.{◌≡◌, ◌∷◌, List, []};
ghost use base.Fml.{ftrue};
ghost use Rattle.pcache_store.specs.Past.{Note};

use pcache_base::moment::Moment;
use pcache_evict::eviction::CacheEntryId;
use pcache_meta::meta::CacheMeta;
use std::marker::Model;

/// A list of notes that stands in a ghost field alone, the newest first.
///
/// Anyone can make one with any notes; it tells something of a store only as the private field of a
/// type whose invariant ties it to the store.
#[derive(Drop)]
pub struct Past {
    pub ghost notes: { List Note },
}

impl Model for Past {
    ghost also_owns = { λ _. ftrue };
}

// It owns nothing, so nothing that belongs to one thread: a store with its past may go to another thread.
unsafe impl Send for Past {}

/// What a call did, told by what it was passed and what it returned.
#[derive(Drop)]
pub enum Step<'a> {
    /// Bytes were added to a write.
    Wrote {
        number: u64,
        bytes: &'a [u8],
        /// Whether its end was announced.
        eof: bool,
    },
    /// A write was finished: its body was stored.
    Finished(u64),
    /// A write was dropped, or its finish failed.
    Dropped(u64),
    /// Everything of a slot was removed, or the write with this number.
    Removed {
        slot: u128,
        id: Option<CacheEntryId>,
    },
    /// The freshness of a slot's complete body was ended, or nothing if there is no slot.
    Expired {
        slot: Option<u128>,
        now: Moment,
    },
    // A step also if none was given, so that each call of a store is one line with no branch.
    /// A reader of this write was given, or none.
    Joined(Option<u64>),
    /// A reader of a write was let go.
    Left(u64),
}

// A type of its own, proved by hand: the borrow checker wants the types of a borrowed enum named in
// each function that makes one.
/// What a call that was passed a meta did with it.
#[derive(Drop)]
pub enum Given<'a> {
    /// A write of a slot began, with this meta.
    Began {
        slot: u128,
        number: u64,
        meta: &'a CacheMeta,
    },
    /// It is the meta of a slot's complete body now.
    Set {
        slot: u128,
        meta: &'a CacheMeta,
    },
}

impl Past {
    ghost use Rattle.pcache_store.specs.Noted.{given_note, note_of};
    ghost use Rattle.pcache_store.specs.Notes.{added};

    /// No note.
    pub fn new() -> Past
        ensures { result.notes ≡ [] }
    {
        Past {}
    }

    /// The past with what a step did, if it did something.
    #[inline(always)]
    pub fn then(&self, _step: &Step<'_>) -> Past
        ensures { result.notes ≡ added (note_of _step.now) self.now.notes }
    {
        Past {}
    }

    /// The past with what was done with a meta.
    #[inline(always)]
    pub fn then_given(&self, _given: &Given<'_>) -> Past
        ensures { result.notes ≡ given_note _given.now ∷ self.now.notes }
    {
        Past {}
    }
}
