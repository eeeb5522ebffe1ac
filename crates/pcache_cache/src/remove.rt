//! Removals.
use crate::cache::Cache;
use crate::request::CacheRequest;
use pcache_base::error::Result;
use pcache_base::key::CacheHashKey;
use pcache_base::moment::Moment;
use pcache_evict::eviction::EvictionManager;

impl<M: EvictionManager, K> Cache<M, K> {
    ghost use Rattle.std.specs.Prelude.{◌≡◌};
    ghost use Rattle.pcache_request.specs.Phases.{MayPurge, MaySpawnPurge};
    ghost use Rattle.pcache_cache.specs.Removing.{Expires, Purges, Removes, purges_after};

    /// `HttpCache::purge`: removes what is stored for the key, and its entry from the manager. Returns whether anything was
    /// stored. A response of the key whose fetch is under way is not stored afterwards. If the key has no variance, it is that of a
    /// URL, and of the URL's variants none that was written or fetched before is found any more.
    /// Requires the phase CacheKey; ask `phase().may_purge()` of the request.
    pub fn purge(&mut self, request: &mut CacheRequest<K>) -> Result<bool>
        requires { MayPurge request.old.cache.phase }
        ensures takes { Purges result request.old.cache request.new.cache self.old self.new }
        ensures fetch { request.new.fetch ≡ request.old.fetch }
    {
        let there = self.purge_key(request)?;
        Ok(there)
    }

    /// `HttpCache::spawn_async_purge`: the same in any phase with a key. It is done at once, and the context is not read.
    /// Requires a phase that is neither Disabled nor Uninit; ask `phase().may_spawn_purge()` of the
    /// request.
    pub fn spawn_async_purge(
        &mut self,
        request: &mut CacheRequest<K>,
        _context: &'static str,
    ) -> Result<bool>
        requires { MaySpawnPurge request.old.cache.phase }
        ensures takes { Purges result request.old.cache request.new.cache self.old self.new }
        ensures fetch { request.new.fetch ≡ request.old.fetch }
    {
        self.purge_key(request)
    }

    // Purges the key.
    fn purge_key(&mut self, request: &mut CacheRequest<K>) -> Result<bool>
        requires { MaySpawnPurge request.old.cache.phase }
        ensures takes { Purges result request.old.cache request.new.cache self.old self.new }
        ensures fetch { request.new.fetch ≡ request.old.fetch }
    {
        let next = self.store.next_number();
        let there = self.remove_key(request)?;
        self.note_purge(request, next);
        Ok(there)
    }

    // Notes that the key was purged, when the next write had this number.
    fn note_purge(&mut self, request: &CacheRequest<K>, next: u128)
        ensures { self.new
            ≡ record self.old {
              purges = purges_after request.now.cache.key next self.old.purges;
            } }
    {
        if let Some(key) = request.cache.key() {
            self.purges.purge(key.slot(), next);
        }
    }

    // Removes what is stored for the key, and its entry from the manager. Returns whether anything was stored.
    pub(crate) fn remove_key(&mut self, request: &mut CacheRequest<K>) -> Result<bool>
        requires { MaySpawnPurge request.old.cache.phase }
        ensures takes { Removes result request.old.cache request.new.cache self.old self.new }
        ensures fetch { request.new.fetch ≡ request.old.fetch }
    {
        request
            .cache
            .spawn_async_purge(&mut self.store, &mut self.manager, "")
    }

    /// `HttpCache::expire`: ends the freshness of what is stored for the key. Returns whether there was a
    /// body.
    /// Requires the phase CacheKey; ask `phase().may_purge()` of the request.
    pub fn expire(&mut self, request: &mut CacheRequest<K>, now: Moment) -> Result<bool>
        requires { MayPurge request.old.cache.phase }
        ensures takes { Expires result now request.old.cache request.new.cache self.old self.new }
        ensures fetch { request.new.fetch ≡ request.old.fetch }
    {
        request
            .cache
            .expire(&mut self.store, &mut self.manager, now)
    }
}
