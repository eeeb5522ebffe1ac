//! The invariant of a cache, and access to its manager.
use crate::cache::Cache;
use pcache_evict::eviction::EvictionManager;

impl<M: EvictionManager, K> Cache<M, K> {
    ghost use Rattle.std.specs.Prelude.{◌≡◌};
    ghost use Rattle.pcache_lock.specs.PastLaws.{AtMostOneWaits, GivesByPast, OneFetchAtATime};
    ghost use Rattle.pcache_store.specs.OneResponse.{MetasAreTheirs};
    ghost use Rattle.pcache_store.specs.PastLaws.{BodiesAreLast, BodiesGetNewer, BodiesGrow, Finds, Finishes, FoundIsOfItsWrite, NewestStands, NothingIsLost, PurgedIsGone, ReadsInOrder};
    ghost use Rattle.pcache_cache.specs.Parts.{IsBounded, IsKept, TracksExactly};
    ghost use Rattle.pcache_cache.specs.Strays.{SumsToStored};

    /// What holds of each cache at all times, whichever calls failed: of its store by the list of all that was done to the store
    /// (`past`), and of its locks by the list of all that was done to those (`deeds`). The contract of each call says what it added
    /// to either. A removal is a purge of the key, or the eviction of the write's entry.
    ///
    /// - `finds`: a look-up finds a key exactly when a write of it, in flight or the one that was finished last, met no removal since
    ///   it began.
    /// - `finishes`: the end of a write in flight can store its body exactly when the write met no removal since it began, and no
    ///   newer body of its key stands (`newer`).
    /// - `purged`: after a purge of a key nothing whose write began before it is found under that key, and no such write can be
    ///   finished.
    /// - `kept`: a body that was finished is there, and its key is found, until its key is purged, its entry is removed, or a later
    ///   write of the key is finished.
    /// - `bodies`: a complete body is that of the write of its key that was finished last, with its meta and each change of it
    ///   since.
    /// - `found`: what is found has the meta and the number of its write.
    /// - `metas`: what is found, head and body, is of one response: the meta is that with which the body's write began, or the last one
    ///   that was set for that very write, and expired if the body was expired since.
    /// - `reads`: a reader of a write is given all bytes of that write and of no other, in order and each once, and the end only
    ///   when it was given all and no more can come.
    /// - `grows`: what was written of a write stays as it is, and more bytes come after it.
    /// - `newest`: what is found is of the newest write of its key that can be found: in flight or the one that was finished last,
    ///   and without a removal since it began.
    /// - `newer`: the end of a write replaced no newer body of its key. It fails (`Superseded`) where one stands.
    /// - `tracked`: each complete body has an entry of its own in the manager, with exactly its weight: its length, or all that is
    ///   kept for it.
    /// - `bounded`: the lengths of the complete bodies sum to at most the manager's limit, and so do their weights, and their number
    ///   is at most its watermark.
    /// - `sums`: where nothing is tracked beside the entries of the complete bodies, the weights of what is tracked sum to those of
    ///   the complete bodies, and their numbers are equal. Of each call that changes what is tracked or complete, the field `only`
    ///   of what it does says that it leaves nothing tracked beside them, if it was made for the key that all requests of the slot have.
    /// - `one`: at most one permit of a key waits: it was given, and not yet released, let go or found too old.
    /// - `gives`: a request for a key's lock gets the permit exactly when none waits for that key, and else a read lock on the one
    ///   that does.
    /// - `fetches`: one fetch at a time. Of two permits that were given for one key the first ended before the second was given.
    ///
    /// The call does nothing.
    pub fn headline(&self)
        ensures finds { Finds self.now.store self.now.past }
        ensures finishes { Finishes self.now.store self.now.past }
        ensures purged { PurgedIsGone self.now.store self.now.past }
        ensures kept { NothingIsLost self.now.store self.now.past }
        ensures bodies { BodiesAreLast self.now.store self.now.past }
        ensures found { FoundIsOfItsWrite self.now.store self.now.past }
        ensures metas { MetasAreTheirs self.now.store self.now.past }
        ensures reads { ReadsInOrder self.now.store self.now.past }
        ensures grows { BodiesGrow self.now.store self.now.past }
        ensures newest { NewestStands self.now.store self.now.past }
        ensures newer { BodiesGetNewer self.now.past }
        ensures tracked { TracksExactly self.now.weighing self.now.store self.now.tracked }
        ensures bounded { IsBounded self.now.weighing self.now.limits self.now.store }
        ensures sums { SumsToStored self.now }
        ensures one { AtMostOneWaits self.now.deeds }
        ensures gives { GivesByPast self.now.locks self.now.deeds }
        ensures fetches { OneFetchAtATime self.now.deeds }
    {
        // Nothing runs here: a caller's proof can ask for these facts at any moment.
        self.store.headline();
        self.lock.headline();
    }

    /// The eviction manager, for its getters and for saving it.
    pub fn manager(&self) -> &M
        ensures tracked { M.tracked result.now ≡ self.now.tracked }
        ensures limits { M.limits result.now ≡ self.now.limits }
        ensures evicted { M.evicted result.now ≡ self.now.evicted }
    {
        // Lent to be read only: a load now would track entries that no call brought in.
        &self.manager
    }

    /// Consumes the cache and returns the eviction manager, for saving it. The bodies are dropped.
    pub fn into_manager(self) -> M
        ensures tracked { M.tracked result ≡ self.tracked }
        ensures limits { M.limits result ≡ self.limits }
        ensures evicted { M.evicted result ≡ self.evicted }
    {
        let Cache {
            alloc: _,
            store: _,
            manager,
            lock: _,
            weighing: _,
            purges: _,
            of: _,
        } = self;
        manager
    }

    /// States the invariant of a cache, for proofs of callers. The call does nothing.
    pub fn is_kept(&self)
        ensures { IsKept self.now.weighing self.now.limits self.now.tracked self.now.store }
    {
        // For the prover: a use of a field brings in the invariant, so `IsKept` of the store and of
        // what is tracked.
        let _store = &self.store;
    }
}
