//! Waiting for the locks of other requests, and releasing one's own.
use crate::mark::Mark;
use crate::permit::SharedPermit;
use crate::request::SharedRequest;
use crate::shared::SharedCache;
use pcache_base::error::Result;
use pcache_base::moment::Moment;
use pcache_base::poll::Poll;
use pcache_base::reason::NoCacheReason;
use pcache_evict::eviction::EvictionManager;
use pcache_lock::lock::LockWaitOutcome;
use pcache_request::cache::{LockName, ReleasedLock};
use std::sync::Wait;
use std::thread::yield_now;

impl<M: EvictionManager, K: Mark, const N: usize> SharedCache<M, K, N> {
    ghost use Rattle.std.specs.Prelude.{◌≡◌, [], IfOk, IfErr, OnErr, IsOk, IsSome, None, option_map};
    ghost use Rattle.pcache_base.specs.declared.poll.Poll.TheVariants.{Pending};
    ghost use Rattle.pcache_base.specs.declared.error.ErrorType.TheVariants.{OutOfMemory};
    ghost use Rattle.pcache_lock.specs.declared.lock.permit.Locked.TheVariants.{Write};
    ghost use Rattle.pcache_lock.specs.declared.lock.status.LockStatus.TheVariants.{GiveUp};
    ghost use Rattle.pcache_request.specs.LockUse.{gone_for, handed, permit_in, read_in, unheld};
    ghost use Rattle.pcache_request.specs.Phases.{IsOn};
    ghost use Rattle.pcache_request.specs.Releasing.{MayRelease, status_for};
    ghost use Rattle.pcache_request.specs.Reports.{name_of, released_as};
    ghost use Rattle.pcache_cache.specs.Locking.{Publishes, Releases, TakesPermit, Waits};
    ghost use Rattle.pcache_shared_cache.specs.Seen.{Begins, Goes};
    ghost use Rattle.pcache_shared_cache.specs.Turns.{AsksOfWait, InTurns};

    /// `Cache::cache_lock_wait`: whether the wait for the lock is over, and how it ended. Requires a read lock. The call itself
    /// does not wait.
    pub fn cache_lock_wait<R: Wait>(
        &self,
        rt: &R,
        request: &mut SharedRequest<K, N>,
        now: Moment,
    ) -> Result<Poll<LockWaitOutcome>>
        requires { IsSome (read_in request.old.cache.held) }
        ensures goes { Goes self.now K.names request.old.place request.old.seen request.new.seen
            (Waits result now request.old.cache request.new.cache) }
        ensures goes_on { IfOk result (λ a. a ≡ Pending → IsSome (read_in request.new.cache.held)) }
        ensures same { OnErr result (request.new.cache ≡ request.old.cache) }
        ensures kind { IfErr result (λ e. e ≡ OutOfMemory) }
        ensures place { request.new.place ≡ request.old.place }
        ensures fetch { request.new.fetch ≡ request.old.fetch }
    {
        let mut guard = self.part(request.place()).lock(rt);
        let part = &mut *guard;
        let result = part.cache.cache_lock_wait(&mut request.request, now);
        part.log.adds(&part.cache, &mut request.sight);
        result
    }

    /// Asks up to so many times whether the wait for the lock is over. In between other threads can run, and nothing is locked.
    /// It may be called again while it returns that the wait goes on.
    pub fn wait_in_turns<R: Wait>(
        &self,
        rt: &R,
        request: &mut SharedRequest<K, N>,
        now: Moment,
        turns: u32,
    ) -> Result<Poll<LockWaitOutcome>>
        requires { IsSome (read_in request.old.cache.held) }
        ensures turns { InTurns (AsksOfWait self.now K.names now) turns request.old request.new
            result }
        ensures follows { Begins (K.names request.old.place) request.old.seen request.new.seen }
        ensures goes_on { IfOk result (λ a. a ≡ Pending → IsSome (read_in request.new.cache.held)) }
        ensures kind { IfErr result (λ e. e ≡ OutOfMemory) }
        ensures place { request.new.place ≡ request.old.place }
        ensures fetch { request.new.fetch ≡ request.old.fetch }
    {
        // With one moment for all turns: a caller that waits for long calls again with a later one.
        for _turn in 0..turns {
            match self.cache_lock_wait(rt, request, now)? {
                Poll::Pending => yield_now(),
                told => return Ok(told),
            }
        }
        Ok(Poll::Pending)
    }

    /// `Cache::release_write_lock`: releases the permit with the status of the reason. Ask `may_release` of the request.
    pub fn release_write_lock<R: Wait>(
        &self,
        rt: &R,
        request: &mut SharedRequest<K, N>,
        reason: NoCacheReason,
    ) -> Option<ReleasedLock>
        requires { MayRelease reason request.old.cache.held }
        ensures goes { Goes self.now K.names request.old.place request.old.seen request.new.seen
            (Releases result reason request.old.cache request.new.cache) }
        ensures request { request.new.cache ≡ unheld request.old.cache }
        ensures place { request.new.place ≡ request.old.place }
        ensures released { result
            ≡ option_map (released_as (status_for (λ text. GiveUp) reason)) request.old.cache.held }
        ensures fetch { request.new.fetch ≡ request.old.fetch }
    {
        let mut guard = self.part(request.place()).lock(rt);
        let part = &mut *guard;
        let result = part.cache.release_write_lock(&mut request.request, reason);
        part.log.adds(&part.cache, &mut request.sight);
        result
    }

    /// `Cache::set_write_lock`: holds a permit that another request of the same part had; a lock that was held before is let go.
    /// Returns the lock that was let go. The request has then also seen what the other one had.
    pub fn set_write_lock<R: Wait>(
        &self,
        rt: &R,
        request: &mut SharedRequest<K, N>,
        permit: SharedPermit<K, N>,
    ) -> Option<LockName>
        requires phase { IsOn request.old.cache.phase }
        requires place { permit.place ≡ request.old.place }
        ensures goes { Goes self.now K.names request.old.place request.old.seen request.new.seen
            (TakesPermit result permit.permit request.old.cache request.new.cache) }
        ensures follows { Begins (K.names request.old.place) permit.seen request.new.seen }
        ensures request { request.new.cache ≡ handed permit.permit request.old.cache }
        ensures stays { request.new.place ≡ request.old.place }
        ensures let_go { result ≡ option_map name_of (gone_for permit.permit request.old.cache) }
        ensures fetch { request.new.fetch ≡ request.old.fetch }
    {
        let lock = self.part(request.place());
        let (permit, sight) = permit.into_both();
        let mut guard = lock.lock(rt);
        let part = &mut *guard;
        let result = part.cache.set_write_lock(&mut request.request, permit);
        // What the giver had seen is a beginning of this log, so the receiver is shown that too.
        part.log.meets(&sight);
        part.log.adds(&part.cache, &mut request.sight);
        result
    }

    /// `Cache::lock_publish_fill_tokens`: publishes tokens of what was found out about the fill, if the
    /// permit is held.
    pub fn lock_publish_fill_tokens<R: Wait>(
        &self,
        rt: &R,
        request: &mut SharedRequest<K, N>,
        tokens: &[u64],
    ) -> Result<Option<LockName>>
        ensures goes { Goes self.now K.names request.old.place request.old.seen request.new.seen
            (Publishes result tokens.now request.old.cache) }
        ensures rest { request.new ≡ record request.old { seen = request.new.seen } }
        ensures published { IfOk result (λ l.
            l ≡ option_map (λ w. name_of (Write w)) (permit_in request.old.cache.held)) }
        ensures kind { IfErr result (λ e. e ≡ OutOfMemory) }
        ensures clears { tokens.now ≡ [] → IsOk result }
        ensures none { permit_in request.old.cache.held ≡ None → IsOk result }
    {
        let mut guard = self.part(request.place()).lock(rt);
        let part = &mut *guard;
        let result = part
            .cache
            .lock_publish_fill_tokens(&request.request, tokens);
        part.log.adds(&part.cache, &mut request.sight);
        result
    }
}
