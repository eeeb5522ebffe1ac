//! Laws of all tables of locks, by their pasts.
ghost use Rattle.pcache_lock.specs.PastLaws.{AllGivenAlways, AskFindsTheWaitingAlways, AtMostOneWaitsAlways, GivesByPastAlways, NothingRemainsAlways, OneFetchAtATimeAlways, OneWaitsAlways, WaitsAfterEachDeed};
ghost use Rattle.pcache_lock.specs.PastWaits.{EndsByPastAlways, StatusByPastAlways};
ghost use Rattle.pcache_lock.specs.Waits.{LooksAtEachPublication, WaitsUntilItsEnd};

/// Of the permits that were given for one key at most one waits.
pub fn at_most_one_waits()
    ensures { OneWaitsAlways }
{}

/// If no permit was unlocked while it was held, a request gets the permit exactly when no permit
/// waits for its key, and otherwise a read lock on the one that does.
pub fn request_finds_the_waiting()
    ensures { AskFindsTheWaitingAlways }
{}

/// A permit waits from when it is given until it is released, unlocked, let go or found too old,
/// whatever else happens to other locks. So says each function of tables (`tables`), and each deed
/// (`deeds`).
pub fn permits_wait_until_their_end()
    ensures tables { WaitsUntilItsEnd }
    ensures deeds { WaitsAfterEachDeed }
{}

/// What a reader is told does not depend on how often it polls: the first publication since its
/// first poll that has a match counts, and in it the first match of the reader's list.
pub fn each_publication_is_looked_at()
    ensures { LooksAtEachPublication }
{}

/// A table keeps no lock that neither its permit nor a read lock names, and no entry without its
/// lock.
pub fn nothing_unnamed_remains()
    ensures { NothingRemainsAlways }
{}

/// A request for a key's lock gets the permit exactly when none waits for that key: none was given
/// for it in the table's past and not yet released, let go or found too old. Otherwise it gets a
/// read lock on the one that waits. So does the next request (`next`), and so did each one before
/// (`all`), if in that past no permit was unlocked while it was held.
pub fn gives_the_permit_when_none_waits()
    ensures next { GivesByPastAlways }
    ensures all { AllGivenAlways }
{}

/// By the past of each table at most one permit of a key waits.
pub fn one_waits_in_each_past()
    ensures { AtMostOneWaitsAlways }
{}

/// One fetch at a time: from when a permit is given for a key until it ends (is released, let go,
/// found too old, or unlocked) no other one is given for that key.
pub fn one_fetch_at_a_time()
    ensures { OneFetchAtATimeAlways }
{}

/// How a wait ends. What a poll returns is said by the past of the permit (`returns`): that the wait
/// is over, if the permit was released, let go or unlocked; or else that the permit is too old, if a
/// poll found it so or its age has come; or else that the reader has to wait, or a fill that it cannot
/// use and was told of. The status of the lock says how the permit ended (`status`).
pub fn waits_end_by_the_past()
    ensures returns { EndsByPastAlways }
    ensures status { StatusByPastAlways }
{}
