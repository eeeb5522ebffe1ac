//! Look-ups, hits, and the end of a request.
use crate::cache::Cache;
use crate::request::CacheRequest;
use bytes::Bytes;
use pcache_base::error::Result;
use pcache_base::moment::Moment;
use pcache_base::poll::Poll;
use pcache_base::reason::NoCacheReason;
use pcache_evict::eviction::EvictionManager;
use pcache_meta::meta::CacheMeta;
use pcache_predict::admission::AdmissionPolicy;
use pcache_request::cache::LockName;
use pcache_request::phase::HitStatus;
use pcache_store::memory::{FoundBody, MemHitHandler};
use pcache_store::storage::HandleHit;
use std::alloc::AllocError;

impl<M: EvictionManager, K> Cache<M, K> {
    ghost use Rattle.std.specs.Prelude.{◌≡◌, ◌⊎◌, false, IfOk, OnErr, OnOk, IsSome, IsTrue};
    ghost use Rattle.pcache_cache.specs.Fetching.{fetch_begun};
    ghost use Rattle.pcache_request.specs.Admissions.{Decides, asks_policy};
    ghost use Rattle.pcache_request.specs.Phases.{MayFinishHit, MayLookUp};
    ghost use Rattle.pcache_request.specs.Releasing.{MayDisable};
    ghost use Rattle.pcache_request.specs.Requests.{length_by, whole_by};
    ghost use Rattle.pcache_store.specs.Readers.{reader_of};
    ghost use Rattle.pcache_cache.specs.Ending.{Disables, EndsRequest};
    ghost use Rattle.pcache_cache.specs.Looking.{EndsHit, KeepsOld, LetsGo, LooksIn, LooksInAsking, LooksUp, LooksUpAsking, TakesFound, body_found, without_old};
    ghost use Rattle.pcache_request.specs.Looking.{Reads};

    /// `HttpCache::cache_lookup_without_policy`: returns what the store has for the request's key, a meta and a reader, unless
    /// a variant hides it; if it returns nothing, the key's lock is asked for. No policy is asked. The caller has to pass a
    /// returned pair to `cache_found` or to `let_go`. Requires the phase CacheKey or Stale; ask `phase().may_look_up()` of the request.
    ///
    /// It notes that the request's fetch begins (`begin_fetch`), and does not find a variant that was written before its URL was
    /// purged: what is stored for that variant is removed first.
    pub fn cache_lookup_without_policy(
        &mut self,
        request: &mut CacheRequest<K>,
        now: Moment,
    ) -> Result<Option<(CacheMeta, MemHitHandler)>>
        requires { MayLookUp request.old.cache.phase }
        ensures takes { LooksUp result now request.old.cache request.new.cache self.old self.new }
        ensures fetch { request.new.fetch ≡ fetch_begun request.old.cache.key self.old.purges }
    {
        self.begin_fetch(request);
        self.remove_old_variant(request)?;
        self.look(request, now)
    }

    // The look-up in what is stored, whenever it was written.
    #[tactic(auto, using(crate::proofs::Own::looked_phase, crate::proofs::Own::looked_uses))]
    fn look(
        &mut self,
        request: &mut CacheRequest<K>,
        now: Moment,
    ) -> Result<Option<(CacheMeta, MemHitHandler)>>
        requires { MayLookUp request.old.cache.phase }
        ensures takes { LooksIn result now request.old.cache request.new.cache self.old self.new }
        ensures fetch { request.new.fetch ≡ request.old.fetch }
    {
        request
            .cache
            .cache_lookup_without_policy(&mut self.store, &mut self.lock, now)
    }

    /// `HttpCache::cache_lookup`: as `cache_lookup_without_policy`, but if the store has nothing, a policy in use is asked
    /// first.
    /// Requires the phase CacheKey or Stale; ask `phase().may_look_up()` of the request.
    pub fn cache_lookup<A: AdmissionPolicy>(
        &mut self,
        request: &mut CacheRequest<K>,
        policy: &mut A,
        now: Moment,
    ) -> Result<Option<(CacheMeta, MemHitHandler)>>
        requires { MayLookUp request.old.cache.phase }
        ensures takes { LooksUpAsking result now request.old.cache request.new.cache self.old
            self.new }
        ensures fetch { request.new.fetch ≡ fetch_begun request.old.cache.key self.old.purges }
        ensures decides { IsTrue (asks_policy (without_old request.old.cache self.old).store
            request.old.cache)
            → KeepsOld result request.old.cache request.new.cache self.old self.new
            ⊎ Decides (λ k d. A.decides policy.old k d policy.new) request.old.cache.key
            request.new.cache.digest.admission }
        ensures same_policy { asks_policy (without_old request.old.cache self.old).store
            request.old.cache
            ≡ false
            → policy.new ≡ policy.old }
    {
        self.begin_fetch(request);
        self.remove_old_variant(request)?;
        self.look_asking(request, policy, now)
    }

    // The look-up in what is stored, whenever it was written.
    fn look_asking<A: AdmissionPolicy>(
        &mut self,
        request: &mut CacheRequest<K>,
        policy: &mut A,
        now: Moment,
    ) -> Result<Option<(CacheMeta, MemHitHandler)>>
        requires { MayLookUp request.old.cache.phase }
        ensures takes { LooksInAsking result now request.old.cache request.new.cache self.old
            self.new }
        ensures fetch { request.new.fetch ≡ request.old.fetch }
        ensures decides { IsTrue (asks_policy self.old.store request.old.cache)
            → Decides (λ k d. A.decides policy.old k d policy.new) request.old.cache.key
            request.new.cache.digest.admission }
        ensures same_policy { asks_policy self.old.store request.old.cache ≡ false
            → policy.new ≡ policy.old }
    {
        request
            .cache
            .cache_lookup(&mut self.store, &mut self.lock, policy, now)
    }

    /// Notes that the request's fetch begins now. Its response is not stored if its key, or its URL, is purged between now and the begin
    /// of the write (`set_miss_handler`). The look-ups of a request note it too, so only who fetches without one, or once more, calls
    /// this first. A fetch whose begin was not noted, or was noted for another URL, counts as one from before all purges.
    pub fn begin_fetch(&self, request: &mut CacheRequest<K>)
        ensures fetch { request.new.fetch ≡ fetch_begun request.old.cache.key self.now.purges }
        ensures cache { request.new.cache ≡ request.old.cache }
    {
        request.fetch = self.purges.begin_fetch(request.cache.key());
    }

    // Removes what is stored for a variant that was written before its URL was purged.
    fn remove_old_variant(&mut self, request: &mut CacheRequest<K>) -> Result<()>
        requires { MayLookUp request.old.cache.phase }
        ensures removed { OnOk result (self.new ≡ without_old request.old.cache self.old) }
        ensures kept { OnErr result (KeepsOld result request.old.cache request.new.cache self.old
            self.new) }
        ensures request { request.new ≡ request.old }
    {
        if !self.purges.is_old_variant(request.cache.key(), &self.store) {
            return Ok(());
        }
        self.remove_key(request)?;
        Ok(())
    }

    /// What a look-up of the request's key finds, if that is a complete body, whether or not a variant hides it; its meta is not
    /// read yet. Such a look-up changes nothing, so a cache behind a lock can be asked under the lock, and the meta read after it.
    /// A variant that was written before its URL was purged is none. Fails only when memory runs out, and then such a body is there.
    pub fn complete_body(&self, request: &CacheRequest<K>) -> Result<Option<FoundBody>, AllocError>
        ensures found { IfOk result (λ f. f
            ≡ body_found request.now.cache.key self.now.store self.now.purges) }
        ensures something { OnErr result
            (IsSome (body_found request.now.cache.key self.now.store self.now.purges)) }
    {
        let key = request.cache.key();
        if self.purges.is_old_variant(key, &self.store) {
            return Ok(None);
        }
        match key {
            Some(key) => self.store.complete_body(key),
            None => Ok(None),
        }
    }

    /// `HttpCache::cache_found_tracked`: takes the pair that a look-up found. An entry that is not tracked stays so: its body was
    /// removed since it was found.
    /// Requires the phase CacheKey or Stale; ask `phase().may_look_up()` of the request.
    pub fn cache_found(
        &mut self,
        request: &mut CacheRequest<K>,
        meta: CacheMeta,
        hit: MemHitHandler,
        status: HitStatus,
        now: Moment,
    ) -> Result<()>
        requires { MayLookUp request.old.cache.phase }
        ensures takes { TakesFound result status meta (reader_of hit) now request.old.cache
            request.new.cache self.old self.new }
        ensures fetch { request.new.fetch ≡ request.old.fetch }
    {
        // Since the look-up the body may have gone, and its entry with it. A plain use would admit
        // that entry again, with no body.
        request.cache.cache_found_tracked(
            &mut self.store,
            &mut self.manager,
            &mut self.lock,
            meta,
            hit,
            status,
            now,
        )
    }

    /// Lets go of the reader that a look-up returned.
    pub fn let_go(&mut self, hit: MemHitHandler)
        ensures takes { LetsGo (reader_of hit) self.old self.new }
    {
        hit.let_go(&mut self.store);
    }

    /// `HttpCache::read_body`: reads the next bytes. Requires a reader. Fails only if there are bytes to give.
    pub fn read_body(&mut self, request: &mut CacheRequest<K>) -> Result<Poll<Option<Bytes>>>
        requires { IsSome request.old.cache.reader }
        ensures takes { Reads result request.old.cache request.new.cache self.old.store }
        ensures rest { self.new ≡ self.old }
        ensures fetch { request.new.fetch ≡ request.old.fetch }
    {
        request.cache.read_body(&mut self.store)
    }

    /// `HttpCache::is_body_whole`: whether the reader has given all that it was to give; `false` at the end means that the body
    /// was cut off.
    pub fn is_body_whole(&self, request: &CacheRequest<K>) -> bool
        ensures { result ≡ whole_by request.now.cache.reader self.now.store }
    {
        request.cache.is_body_whole(&self.store)
    }

    /// `HttpCache::body_length`: the length of the body that is read, if its end is known, in bytes.
    pub fn body_length(&self, request: &CacheRequest<K>) -> Option<usize>
        ensures { result ≡ length_by request.now.cache.reader self.now.store }
    {
        request.cache.body_length(&self.store)
    }

    /// `HttpCache::finish_hit_handler`: ends the reader. It does not fail: the result is that of any storage.
    /// Requires a phase after a look-up (not Disabled, Uninit, CacheKey or Bypass); ask
    /// `phase().may_finish_hit()` of the request.
    pub fn finish_hit_handler(&mut self, request: &mut CacheRequest<K>) -> Result<()>
        requires { MayFinishHit request.old.cache.phase }
        ensures takes { EndsHit result request.old.cache request.new.cache self.old self.new }
        ensures fetch { request.new.fetch ≡ request.old.fetch }
    {
        request.cache.finish_hit_handler(&mut self.store)
    }

    /// `HttpCache::disable`: turns caching off, and releases all that the request holds.
    /// Requires a reason other than NeverEnabled, and with a permit held one that its holder can
    /// have; ask `may_disable(reason)` of the request.
    pub fn disable(
        &mut self,
        request: &mut CacheRequest<K>,
        reason: NoCacheReason,
    ) -> Option<LockName>
        requires { MayDisable reason request.old.cache }
        ensures takes { Disables result reason request.old.cache request.new.cache self.old
            self.new }
        ensures fetch { request.new.fetch ≡ request.old.fetch }
    {
        request
            .cache
            .disable(&mut self.store, &mut self.lock, reason)
    }

    /// `HttpCache::end`: releases all that a request holds.
    pub fn end(&mut self, request: CacheRequest<K>) -> Option<LockName>
        ensures takes { EndsRequest result request.cache self.old self.new }
    {
        request.into_cache().end(&mut self.store, &mut self.lock)
    }
}
