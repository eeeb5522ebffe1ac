//! Laws of all legal histories, whatever calls they have.
ghost use Rattle.pcache_history.specs.Headline.{EvictsFairly, FindsExactly, FinishesExactly, FollowsAWrite, FoundIsNumbered, GivesThePermitExactly, HandsOnExactly, IsWithinLimits, IsWrongExactly, LoadsComeFirst, LooksAreTrue, OnePermitWaits, PutsAreWritten, ReadsABeginning, ReadsAreTrue, ReadsTheLast, ReadsTheWhole, ReadsWhatWasFound, TellsExactly, TracksExactly, WaitsAreTrue};
ghost use Rattle.pcache_history.specs.Settling.{SettlesAtOnce};

/// The reply to a call is WrongCall exactly when its condition fails.
pub fn is_wrong_exactly()
    ensures { IsWrongExactly }
{}

/// The reply to a load is WrongCall exactly when a call other than a load came before it, even a save;
/// saving and loading make no event.
pub fn loads_come_first()
    ensures { LoadsComeFirst }
{}

/// A look-up finds what the events before it say of its key.
pub fn looks_are_true()
    ensures { LooksAreTrue }
{}

/// A found meta has the number of the write that is found, or that stored the body, whatever numbers the
/// given metas had.
pub fn found_is_numbered()
    ensures { FoundIsNumbered }
{}

/// A read gives what the events before it say of its reader.
pub fn reads_are_true()
    ensures { ReadsAreTrue }
{}

/// The store finds a key exactly when a write of it, in flight or finished, met no removal since
/// it began.
pub fn finds_exactly()
    ensures { FindsExactly }
{}

/// A write's finish succeeds exactly when it met no removal since it began.
pub fn finishes_exactly()
    ensures { FinishesExactly }
{}

/// A complete hit reads the body of the last finished write of its key.
pub fn hits_read_the_last()
    ensures { ReadsTheLast }
{}

/// The complete bodies sum to at most the limit on weight, and are at most as many as the
/// watermark.
pub fn stored_is_within_limits()
    ensures { IsWithinLimits }
{}

/// What a reader of a write has read is a prefix of the write's body; a reader of a complete body
/// gives its range once.
pub fn reads_a_beginning()
    ensures { ReadsABeginning }
{}

/// Every eviction is fair: nothing is evicted if the limits hold, and no more than they require.
pub fn evicts_fairly()
    ensures { EvictsFairly }
{}

/// Each key that stands has an entry of its own, that of its last finished write, tracked with exactly
/// the length of its body.
pub fn tracks_exactly()
    ensures { TracksExactly }
{}

/// A request for the lock of a key is given the permit exactly when no permit waits for its key.
pub fn gives_the_permit_exactly()
    ensures { GivesThePermitExactly }
{}

/// Of the permits that were given for one key at most one waits.
pub fn one_permit_waits()
    ensures { OnePermitWaits }
{}

/// The reply to a wait on a read lock is decided by how its permit ended, else by its age, else by
/// what was published, else by the time waited; otherwise the wait goes on.
pub fn waits_are_true()
    ensures { WaitsAreTrue }
{}

/// The reply to a look-up says that something was found exactly when a write of the key, in flight
/// or finished, met no removal since it began: of a request that looked for no variant.
pub fn tells_exactly()
    ensures { TellsExactly }
{}

/// A look-up hands on what the store finds, except exactly what was created before the moment from
/// which variants of the key count.
pub fn hands_on_exactly()
    ensures { HandsOnExactly }
{}

/// The write that a request's reader follows was begun.
pub fn follows_a_write()
    ensures { FollowsAWrite }
{}

/// What a reader of a write has given when it returns the end is the whole body of the write.
pub fn reads_the_whole()
    ensures { ReadsTheWhole }
{}

/// What a request reads through a hit is the body that a look-up of it found, since it was opened: that
/// of the last write of the key finished by then.
pub fn reads_what_was_found()
    ensures { ReadsWhatWasFound }
{}

/// The bytes that, by the history, an open put has written, and their meta, are the body of its write
/// and the meta that this began with.
pub fn puts_are_written()
    ensures { PutsAreWritten }
{}

/// The finish of a body that is stored is followed, in its own entry, by the admission of its key with
/// the body's length, or by the purge of its slot if memory ran out.
pub fn settles_at_once()
    ensures { SettlesAtOnce }
{}
