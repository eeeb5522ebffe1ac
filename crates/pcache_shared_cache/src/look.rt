//! Look-ups, hits, and the end of a request.
use crate::mark::Mark;
use crate::request::{Ended, SharedRequest};
use crate::shared::SharedCache;
use bytes::Bytes;
use pcache_base::error::Result;
use pcache_base::moment::Moment;
use pcache_base::poll::Poll;
use pcache_base::reason::NoCacheReason;
use pcache_evict::eviction::EvictionManager;
use pcache_meta::meta::CacheMeta;
use pcache_request::cache::LockName;
use pcache_request::phase::HitStatus;
use pcache_store::memory::{FoundBody, MemHitHandler};
use std::sync::Wait;
use std::thread::yield_now;

impl<M: EvictionManager, K: Mark, const N: usize> SharedCache<M, K, N> {
    ghost use Rattle.std.specs.Prelude.{◌≡◌, ◌⊎◌, true, false, IfErr, OnErr, IsOk, IsSome, IsTrue, option_map};
    ghost use Rattle.pcache_base.specs.declared.error.ErrorType.TheVariants.{NumbersExhausted, OutOfMemory};
    ghost use Rattle.pcache_request.specs.Alone.{MayEndAlone, reads_alone};
    ghost use Rattle.pcache_request.specs.Phases.{IsDisabled, MayFinishHit, MayLookUp};
    ghost use Rattle.pcache_request.specs.Releasing.{MayDisable, disabled_for};
    ghost use Rattle.pcache_request.specs.Reports.{name_of};
    ghost use Rattle.pcache_request.specs.Requests.{HoldsNothing, asks_for_hit, length_by, whole_by, without_reader};
    ghost use Rattle.pcache_store.specs.Readers.{reader_of};
    ghost use Rattle.pcache_cache.specs.Ending.{Disables, EndsRequest};
    ghost use Rattle.pcache_cache.specs.Looking.{EndsHit, LetsGo, TakesFound};
    ghost use Rattle.pcache_cache.specs.Fetching.{fetch_begun};
    ghost use Rattle.pcache_request.specs.Looking.{Reads};
    ghost use Rattle.pcache_shared_cache.specs.Calls.{FindsBody, LooksUpNoted};
    ghost use Rattle.pcache_shared_cache.specs.Seen.{Begins, Goes, Sees};
    ghost use Rattle.pcache_shared_cache.specs.Turns.{InTurns, ReadsBody};

    /// `Cache::cache_lookup` in the request's part: what its store has for the key; if nothing is handed on, the key's lock is
    /// asked for. No call of a shared request takes a policy into use, so there is none to ask. A pair that is handed on has to
    /// be taken by `cache_found` or let go. It notes that the request's fetch begins (`begin_fetch`).
    /// Requires the phase CacheKey or Stale; ask `phase().may_look_up()` of `cache()`.
    pub fn cache_lookup<R: Wait>(
        &self,
        rt: &R,
        request: &mut SharedRequest<K, N>,
        now: Moment,
    ) -> Result<Option<(CacheMeta, MemHitHandler)>>
        requires { MayLookUp request.old.cache.phase }
        ensures goes { Goes self.now K.names request.old.place request.old.seen request.new.seen
            (LooksUpNoted result now request.old.cache request.new.cache request.new.fetch) }
        ensures same { OnErr result (request.new.cache ≡ request.old.cache) }
        ensures phase { request.new.cache.phase ≡ request.old.cache.phase }
        ensures uses { request.new.cache.uses ≡ request.old.cache.uses }
        ensures place { request.new.place ≡ request.old.place }
    {
        let Some(found) = self.complete_body(rt, request) else {
            return self.look_up(rt, request, now);
        };
        // The part is not locked while the meta is read: most of a look-up's time goes there. Under the lock only shares are taken of
        // what the store keeps. A body that a variant hides is looked up again, since that look-up asks for the key's lock.
        let (meta, hit) = found.read(self.alloc())?;
        if request.request.cache.hides(&meta) {
            hit.let_go_alone();
            return self.look_up(rt, request, now);
        }
        Ok(Some((meta, hit)))
    }

    /// `Cache::begin_fetch`: notes that the request's fetch begins now. A look-up notes it too, so only who fetches without one, or once
    /// more, calls this first.
    pub fn begin_fetch<R: Wait>(&self, rt: &R, request: &mut SharedRequest<K, N>)
        ensures sees { Sees self.now K.names request.old.place request.old.seen request.new.seen
            (λ p. request.new.fetch ≡ fetch_begun request.old.cache.key p.purges) }
        ensures rest { request.new
            ≡ record request.old { seen = request.new.seen; fetch = request.new.fetch } }
    {
        let lock = self.part(request.place());
        let mut guard = lock.lock(rt);
        let part = &mut *guard;
        part.log.shows(&mut request.sight);
        part.cache.begin_fetch(&mut request.request);
    }

    // What the request's look-up finds, if that is a complete body. Its fetch begins; the part stays as it is.
    fn complete_body<R: Wait>(&self, rt: &R, request: &mut SharedRequest<K, N>) -> Option<FoundBody>
        ensures goes { Goes self.now K.names request.old.place request.old.seen request.new.seen
            (FindsBody result request.old.cache request.new.fetch) }
        ensures rest { request.new
            ≡ record request.old { seen = request.new.seen; fetch = request.new.fetch } }
    {
        let mut guard = self.part(request.place()).lock(rt);
        let part = &mut *guard;
        part.cache.begin_fetch(&mut request.request);
        let found = part.cache.complete_body(&request.request);
        part.log.adds(&part.cache, &mut request.sight);
        match found {
            Ok(found) => found,
            // The look-up that follows makes its own copies, and says whether there is memory for
            // them.
            Err(_refused) => None,
        }
    }

    // `cache_lookup`, all of it under the part's lock.
    fn look_up<R: Wait>(
        &self,
        rt: &R,
        request: &mut SharedRequest<K, N>,
        now: Moment,
    ) -> Result<Option<(CacheMeta, MemHitHandler)>>
        requires { MayLookUp request.old.cache.phase }
        ensures goes { Goes self.now K.names request.old.place request.old.seen request.new.seen
            (LooksUpNoted result now request.old.cache request.new.cache request.new.fetch) }
        ensures same { OnErr result (request.new.cache ≡ request.old.cache) }
        ensures phase { request.new.cache.phase ≡ request.old.cache.phase }
        ensures uses { request.new.cache.uses ≡ request.old.cache.uses }
        ensures place { request.new.place ≡ request.old.place }
    {
        let mut guard = self.part(request.place()).lock(rt);
        let part = &mut *guard;
        let result = part
            .cache
            .cache_lookup_without_policy(&mut request.request, now);
        part.log.adds(&part.cache, &mut request.sight);
        result
    }

    /// `Cache::cache_found`: takes the pair that a look-up found.
    /// Requires the phase CacheKey or Stale; ask `phase().may_look_up()` of `cache()`.
    pub fn cache_found<R: Wait>(
        &self,
        rt: &R,
        request: &mut SharedRequest<K, N>,
        meta: CacheMeta,
        hit: MemHitHandler,
        status: HitStatus,
        now: Moment,
    ) -> Result<()>
        requires { MayLookUp request.old.cache.phase }
        ensures goes { Goes self.now K.names request.old.place request.old.seen request.new.seen
            (TakesFound result status meta (reader_of hit) now request.old.cache
            request.new.cache) }
        ensures numbers { IfErr result (λ e.
            e ≡ NumbersExhausted → IsTrue (asks_for_hit status request.old.cache)) }
        ensures same { OnErr result (request.new.cache ≡ request.old.cache) }
        ensures place { request.new.place ≡ request.old.place }
        ensures fetch { request.new.fetch ≡ request.old.fetch }
    {
        let mut guard = self.part(request.place()).lock(rt);
        let part = &mut *guard;
        let result = part
            .cache
            .cache_found(&mut request.request, meta, hit, status, now);
        part.log.adds(&part.cache, &mut request.sight);
        result
    }

    /// `Cache::let_go`: lets go the reader that a look-up of the request found.
    pub fn let_go<R: Wait>(&self, rt: &R, request: &mut SharedRequest<K, N>, hit: MemHitHandler)
        ensures goes { Goes self.now K.names request.old.place request.old.seen request.new.seen
            (LetsGo (reader_of hit)) }
        ensures rest { request.new ≡ record request.old { seen = request.new.seen } }
    {
        let mut guard = self.part(request.place()).lock(rt);
        let part = &mut *guard;
        part.cache.let_go(hit);
        part.log.adds(&part.cache, &mut request.sight);
    }

    /// `Cache::read_body`: reads on. Requires a reader. A request that follows a write gets `Pending` if there is nothing yet,
    /// and may ask again, or call `read_in_turns`. Of a complete body nothing is locked: the reader has its bytes.
    pub fn read_body<R: Wait>(
        &self,
        rt: &R,
        request: &mut SharedRequest<K, N>,
    ) -> Result<Poll<Option<Bytes>>>
        requires { IsSome request.old.cache.reader }
        ensures sees { Sees self.now K.names request.old.place request.old.seen request.new.seen
            (λ p. Reads result request.old.cache request.new.cache p.store) }
        ensures same { OnErr result (request.new.cache ≡ request.old.cache) }
        ensures kind { IfErr result (λ e. e ≡ OutOfMemory) }
        ensures reader { IsSome request.new.cache.reader }
        ensures phase { request.new.cache.phase ≡ request.old.cache.phase }
        ensures place { request.new.place ≡ request.old.place }
        ensures fetch { request.new.fetch ≡ request.old.fetch }
    {
        let lock = self.part(request.place());
        // What needs no part takes no lock. What such a call returns is true of each state of the part, so of the last one seen.
        if request.request.cache.reads_alone() {
            // For the prover: the last state that was seen is a sound one, of which the clauses
            // speak.
            request.sight.headline();
            return request.request.cache.read_body_alone();
        }
        let mut guard = lock.lock(rt);
        let part = &mut *guard;
        let result = part.cache.read_body(&mut request.request);
        part.log.shows(&mut request.sight);
        result
    }

    /// `Cache::is_body_whole`: whether all was given that was to be read; `false` after the end says that the body was cut off. Of
    /// a complete body nothing is locked.
    pub fn is_body_whole<R: Wait>(&self, rt: &R, request: &mut SharedRequest<K, N>) -> bool
        ensures sees { Sees self.now K.names request.old.place request.old.seen request.new.seen
            (λ p. result ≡ whole_by request.old.cache.reader p.store) }
        ensures rest { request.new ≡ record request.old { seen = request.new.seen } }
    {
        let lock = self.part(request.place());
        if request.request.cache.reads_alone() {
            // For the prover: the last state that was seen is a sound one, of which the clauses
            // speak.
            request.sight.headline();
            return request.request.cache.is_body_whole_alone();
        }
        let mut guard = lock.lock(rt);
        let part = &mut *guard;
        part.log.shows(&mut request.sight);
        part.cache.is_body_whole(&request.request)
    }

    /// `Cache::body_length`: the length of the body that is read, if its end is known, in bytes. Of a complete body nothing is
    /// locked.
    pub fn body_length<R: Wait>(&self, rt: &R, request: &mut SharedRequest<K, N>) -> Option<usize>
        ensures sees { Sees self.now K.names request.old.place request.old.seen request.new.seen
            (λ p. result ≡ length_by request.old.cache.reader p.store) }
        ensures rest { request.new ≡ record request.old { seen = request.new.seen } }
    {
        let lock = self.part(request.place());
        if request.request.cache.reads_alone() {
            // For the prover: the last state that was seen is a sound one, of which the clauses
            // speak.
            request.sight.headline();
            return request.request.cache.body_length_alone();
        }
        let mut guard = lock.lock(rt);
        let part = &mut *guard;
        part.log.shows(&mut request.sight);
        part.cache.body_length(&request.request)
    }

    /// Reads on, and asks up to so many times while there is nothing yet. In between other threads can run, and nothing is
    /// locked.
    /// Requires a reader; ask `has_body_reader()` of `cache()`.
    pub fn read_in_turns<R: Wait>(
        &self,
        rt: &R,
        request: &mut SharedRequest<K, N>,
        turns: u32,
    ) -> Result<Poll<Option<Bytes>>>
        requires { IsSome request.old.cache.reader }
        ensures turns { InTurns (ReadsBody self.now K.names) turns request.old request.new result }
        ensures follows { Begins (K.names request.old.place) request.old.seen request.new.seen }
        ensures kind { IfErr result (λ e. e ≡ OutOfMemory) }
        ensures reader { IsSome request.new.cache.reader }
        ensures phase { request.new.cache.phase ≡ request.old.cache.phase }
        ensures place { request.new.place ≡ request.old.place }
        ensures fetch { request.new.fetch ≡ request.old.fetch }
    {
        for _turn in 0..turns {
            match self.read_body(rt, request)? {
                Poll::Pending => yield_now(),
                read => return Ok(read),
            }
        }
        Ok(Poll::Pending)
    }

    /// `Cache::finish_hit_handler`: ends the reader, and does not fail. Of a complete body nothing is locked.
    /// Requires a phase after a look-up (not Disabled, Uninit, CacheKey or Bypass); ask
    /// `phase().may_finish_hit()` of `cache()`.
    pub fn finish_hit_handler<R: Wait>(
        &self,
        rt: &R,
        request: &mut SharedRequest<K, N>,
    ) -> Result<()>
        requires { MayFinishHit request.old.cache.phase }
        ensures goes { reads_alone request.old.cache.reader ≡ false
            → Goes self.now K.names request.old.place request.old.seen request.new.seen
            (EndsHit result request.old.cache request.new.cache) }
        ensures alone { reads_alone request.old.cache.reader ≡ true
            → request.new.seen ≡ request.old.seen }
        ensures request { request.new.cache ≡ without_reader request.old.cache }
        ensures place { request.new.place ≡ request.old.place }
        ensures answer { IsOk result }
        ensures fetch { request.new.fetch ≡ request.old.fetch }
    {
        let lock = self.part(request.place());
        if request.request.cache.reads_alone() {
            // The reader has its bytes: the store counts readers of writes alone, so it need not be
            // told.
            request.request.cache.finish_hit_handler_alone();
            return Ok(());
        }
        let mut guard = lock.lock(rt);
        let part = &mut *guard;
        let result = part.cache.finish_hit_handler(&mut request.request);
        part.log.adds(&part.cache, &mut request.sight);
        result
    }

    /// `Cache::disable`: turns caching off, and gives back all that is held.
    /// Requires a reason other than NeverEnabled, and with a permit held one that its holder can
    /// have; ask `may_disable(reason)` of `cache()`.
    pub fn disable<R: Wait>(
        &self,
        rt: &R,
        request: &mut SharedRequest<K, N>,
        reason: NoCacheReason,
    ) -> Option<LockName>
        requires { MayDisable reason request.old.cache }
        ensures goes { Goes self.now K.names request.old.place request.old.seen request.new.seen
            (Disables result reason request.old.cache request.new.cache) }
        ensures request { request.new.cache ≡ disabled_for reason request.old.cache }
        ensures place { request.new.place ≡ request.old.place }
        ensures off { IsDisabled request.new.cache.phase }
        ensures held { HoldsNothing request.new.cache }
        ensures released { result ≡ option_map name_of request.old.cache.held }
        ensures fetch { request.new.fetch ≡ request.old.fetch }
    {
        let mut guard = self.part(request.place()).lock(rt);
        let part = &mut *guard;
        let result = part.cache.disable(&mut request.request, reason);
        part.log.adds(&part.cache, &mut request.sight);
        result
    }

    /// `Cache::end`: gives back all that a request holds. Nothing is locked, and no more is seen, if that is no lock, no write and no
    /// reader of a write.
    pub fn end<R: Wait>(&self, rt: &R, request: SharedRequest<K, N>) -> Ended<K>
        ensures ends { (MayEndAlone request.cache × (result.sight.log ≡ request.seen))
            ⊎ Goes self.now K.names request.place request.seen result.sight.log
            (EndsRequest result.released request.cache) }
        ensures place { result.sight.place ≡ request.place }
        ensures released { result.released ≡ option_map name_of request.cache.held }
    {
        let lock = self.part(request.place());
        let (request, mut sight) = request.into_both();
        // Such an end leaves any part as it is, so it waits for nobody who has this one.
        if request.cache.may_end_alone() {
            request.end_alone();
            return Ended {
                released: None,
                sight,
            };
        }
        let mut guard = lock.lock(rt);
        let part = &mut *guard;
        let released = part.cache.end(request);
        part.log.adds(&part.cache, &mut sight);
        Ended { released, sight }
    }
}
