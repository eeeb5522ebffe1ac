//! Waiting for the locks of other requests, and releasing one's own.
use crate::cache::Cache;
use crate::request::CacheRequest;
use pcache_base::error::Result;
use pcache_base::moment::Moment;
use pcache_base::poll::Poll;
use pcache_base::reason::NoCacheReason;
use pcache_evict::eviction::EvictionManager;
use pcache_lock::lock::{LockWaitOutcome, WritePermit};
use pcache_request::cache::{LockName, ReleasedLock};

impl<M: EvictionManager, K> Cache<M, K> {
    ghost use Rattle.std.specs.Prelude.{◌≡◌, IsSome};
    ghost use Rattle.pcache_request.specs.LockUse.{read_in};
    ghost use Rattle.pcache_request.specs.Phases.{IsOn};
    ghost use Rattle.pcache_request.specs.Releasing.{MayRelease};
    ghost use Rattle.pcache_cache.specs.Locking.{Publishes, Releases, TakesPermit, Waits};

    /// `HttpCache::cache_lock_wait`: whether the wait for the lock is over, and how it ended. Requires a read lock.
    pub fn cache_lock_wait(
        &mut self,
        request: &mut CacheRequest<K>,
        now: Moment,
    ) -> Result<Poll<LockWaitOutcome>>
        requires { IsSome (read_in request.old.cache.held) }
        ensures takes { Waits result now request.old.cache request.new.cache self.old self.new }
        ensures fetch { request.new.fetch ≡ request.old.fetch }
    {
        request.cache.cache_lock_wait(&mut self.lock, now)
    }

    /// `HttpCache::release_write_lock`: releases the permit with the status of the reason. Ask `may_release` of the request.
    pub fn release_write_lock(
        &mut self,
        request: &mut CacheRequest<K>,
        reason: NoCacheReason,
    ) -> Option<ReleasedLock>
        requires { MayRelease reason request.old.cache.held }
        ensures takes { Releases result reason request.old.cache request.new.cache self.old
            self.new }
        ensures fetch { request.new.fetch ≡ request.old.fetch }
    {
        request.cache.release_write_lock(&mut self.lock, reason)
    }

    /// `HttpCache::set_write_lock`: holds a permit that another request had.
    /// Requires that caching is on; ask `phase().is_on()` of the request.
    pub fn set_write_lock(
        &mut self,
        request: &mut CacheRequest<K>,
        permit: WritePermit,
    ) -> Option<LockName>
        requires { IsOn request.old.cache.phase }
        ensures takes { TakesPermit result permit request.old.cache request.new.cache self.old
            self.new }
        ensures fetch { request.new.fetch ≡ request.old.fetch }
    {
        request.cache.set_write_lock(&mut self.lock, permit)
    }

    /// `HttpCache::lock_publish_fill_tokens`: publishes tokens of what was found out about the fill, if the
    /// permit is held.
    pub fn lock_publish_fill_tokens(
        &mut self,
        request: &CacheRequest<K>,
        tokens: &[u64],
    ) -> Result<Option<LockName>>
        ensures takes { Publishes result tokens.now request.now.cache self.old self.new }
    {
        request
            .cache
            .lock_publish_fill_tokens(&mut self.lock, tokens)
    }
}
