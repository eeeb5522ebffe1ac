//! What all requests of a world share.
use pcache_evict::eviction::EvictionManager;
use pcache_lock::lock::CacheLock;
use pcache_store::memory::MemCache;
use std::marker::Model;

/// The store, the eviction manager and the lock table.
pub(crate) struct Parts<M: EvictionManager> {
    pub(crate) store: MemCache,
    pub(crate) manager: M,
    pub(crate) lock: CacheLock,
}

impl<M: EvictionManager> Model for Parts<M> {
    ghost use Rattle.pcache_world.specs.State.{State};
    ghost use Rattle.pcache_world.specs.StateCode.{state_code};

    ghost Value = { State };

    ghost coded = { state_code };

    ghost view = { λ p. record { store = p.store.state; tracked = M.tracked p.manager; limits = M.limits p.manager; evicted = M.evicted p.manager; locks = p.lock.table } };
}
