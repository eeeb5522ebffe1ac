//! A put of a cache.
ghost use Rattle.std.specs.Prelude.{◌≡◌, [], None, option_map};
ghost use Rattle.pcache_response.specs.Progress.{AtHead};
ghost use Rattle.pcache_put.specs.State.{InHead, HasTaken, write_in};

use pcache_base::key::CacheKey;
use pcache_put::context::CachePutCtx;
use pcache_put::policy::CachePut;
use pcache_store::memory::{MemCache, MemMissHandler};
use std::alloc::Global;
use std::marker::{Model, PhantomData};

/// A put of the cache with the mark `K`: a response that is pushed in, in pieces. Calls that need no part of the cache are
/// those of `put`, which is the put itself; the others are calls of the [`Cache`](crate::Cache) with this mark. It must be
/// spent by `Cache::end_put`.
pub struct PendingPut<C: CachePut, K> {
    /// The put itself.
    pub put: CachePutCtx<C, MemCache>,
    of: PhantomData<K>,
}

impl<C: CachePut, K> PendingPut<C, K> {
    /// A put of a key, with no limit on its body.
    pub fn new(alloc: Global, policy: C, key: CacheKey) -> PendingPut<C, K>
        ensures put { result.put
            ≡ record {
              policy = policy;
              key = key;
              size = None;
              parser = AtHead [];
              stage = InHead;
            } }
        ensures taken { HasTaken (C.says policy) result.put [] None }
    {
        PendingPut {
            put: CachePutCtx::new(alloc, policy, key),
            of: PhantomData,
        }
    }

    /// Ends the put without access to the cache. Returns its write, if one is in flight.
    pub fn into_left(self) -> LeftWrite<K>
        ensures { result ≡ write_in self.put.stage }
    {
        // The policy is dropped here, so that a cache behind a lock can drop it before it locks.
        let PendingPut { put, of: _ } = self;
        LeftWrite {
            writer: put.into_writer(),
            of: PhantomData,
        }
    }
}

/// What an ended put of the cache with the mark `K` left: its write, if one was in flight, whose number a contract sees. It must
/// be passed to `Cache::drop_left`.
pub struct LeftWrite<K> {
    writer: Option<MemMissHandler>,
    of: PhantomData<K>,
}

impl<K> Model for LeftWrite<K> {
    ghost use Rattle.std.specs.Prelude.{ℕ, Option, option_map};

    ghost Value = { Option ℕ };

    ghost view = { λ l. option_map (λ w. w.number) l.writer };
}

impl<K> LeftWrite<K> {
    // The handler of the write.
    pub(crate) fn into_writer(self) -> Option<MemMissHandler>
        ensures { option_map (λ w. w.number) result ≡ self }
    {
        let LeftWrite { writer, of: _ } = self;
        writer
    }
}
