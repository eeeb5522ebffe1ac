//! The cache: a store, a manager and a lock table as one value.
ghost use Rattle.std.specs.Prelude.{◌≡◌};
ghost use Rattle.std.specs.FinMap as map;

use crate::fill::is_own_write;
use crate::purges::Purges;
use crate::request::CacheRequest;
use crate::weighing::Weighing;
use pcache_base::seed::Seed;
use pcache_evict::eviction::EvictionManager;
use pcache_lock::lock::CacheLock;
use pcache_store::memory::MemCache;
use std::alloc::Global;
use std::marker::{Model, PhantomData};
use std::time::Duration;

/// The totals that an eviction manager reports. A total that does not fit is the largest `usize`.
#[derive(Clone, Copy, Debug, PartialEq, Eq)]
pub struct Totals {
    /// The sum of the weights of the tracked entries, in bytes.
    pub weight: usize,
    /// The number of tracked entries.
    pub items: usize,
    /// The sum of the weights, and the number, of all evicted entries.
    pub evicted_weight: usize,
    /// The number of all evicted entries.
    pub evicted_items: usize,
}

/// A store in memory, an eviction manager and a lock table as one value.
///
/// At all times, whichever calls failed: the sum of the weights of the complete bodies is at most the manager's limit, their
/// number is at most its watermark, and each key with a complete body has an entry of its own, tracked with exactly that body's
/// weight: its length, or all that is kept for it ([`Weighing`]).
///
/// Its store prefers the newest response (RFC 9111, 4): a look-up finds what was fetched last, in flight or complete, and the end
/// of a write fails (`Superseded`) if a newer body of its key stands.
///
/// A response whose fetch began before a purge of its key, or of its URL, and whose write begins after it, is not stored, and of a URL's
/// variants none is found whose write began before the URL was purged (own: RFC 9111 has no purge). A look-up notes that the fetch begins; see [`Cache::begin_fetch`].
///
/// `K` is a mark, a type of the caller's that nothing else uses: a request of one cache cannot be used with the parts
/// of another.
#[derive(Drop)]
pub struct Cache<M: EvictionManager, K> {
    pub(crate) alloc: Global,
    pub(crate) store: MemCache,
    pub(crate) manager: M,
    pub(crate) lock: CacheLock,
    pub(crate) weighing: Weighing,
    pub(crate) purges: Purges,
    pub(crate) of: PhantomData<K>,
}

impl<M: EvictionManager, K> Model for Cache<M, K> {
    ghost use Rattle.pcache_lock.specs.PastLaws.{UnlocksNone};
    ghost use Rattle.pcache_store.specs.OneResponse.{SetsNameTheirs};
    ghost use Rattle.pcache_cache.specs.Parts.{Parts, IsKept};
    ghost use Rattle.pcache_cache.specs.PartsCode.{parts_code};

    ghost Value = { Parts };

    ghost coded = { parts_code };

    ghost view = { λ c. record { store = c.store.state; past = c.store.past; weighing = c.weighing; tracked = M.tracked c.manager; limits = M.limits c.manager; evicted = M.evicted c.manager; locks = c.lock.table; deeds = c.lock.past; purges = c.purges } };

    // Facts of the store and of what is tracked, and of no events: a world's invariant speaks of
    // its history, which a server has no room for.
    ghost invariant = { λ c. IsKept c.weighing (M.limits c.manager) (M.tracked c.manager) c.store.state × UnlocksNone c.lock.past × SetsNameTheirs c.store.past };
}

impl<M: EvictionManager, K> Cache<M, K> {
    ghost use Rattle.std.specs.Prelude.{[], ◌≡◌, ◌≤◌, ◌-◌, ◌^◌, ◌↔◌, IfSome, IsTrue, min, true};
    ghost use Rattle.std.specs.Duration.{as_nanos};
    ghost use Rattle.pcache_evict.specs.Tracked.{weight};
    ghost use Rattle.pcache_lock.specs.Locks.{no_locks};
    ghost use Rattle.pcache_store.specs.Totals.{slots, stored_bytes};
    ghost use Rattle.pcache_cache.specs.Fetching.{no_purges};
    ghost use Rattle.pcache_cache.specs.Parts.{MayEnd, TracksExactly};
    ghost use Rattle.pcache_cache.specs.Weighing.{stored_weight};
    ghost use Rattle.pcache_cache.specs.declared.weighing.Weighing.TheVariants.{Bodies};

    /// An empty cache whose entries weigh what their bodies do. Permits age out after `age_timeout`. The store's tables hash under
    /// the seed, on which no result depends. The manager may track entries already, for example loaded ones.
    pub fn new(alloc: Global, seed: Seed, manager: M, age_timeout: Duration) -> Cache<M, K>
        ensures { result
            ≡ record {
              store = record { slots = map.empty; writes = map.empty; next = 0; newest = true };
              past = [];
              weighing = Bodies;
              tracked = M.tracked manager;
              limits = M.limits manager;
              evicted = M.evicted manager;
              locks = no_locks (as_nanos age_timeout);
              deeds = [];
              purges = no_purges;
            } }
    {
        // As in the Rust, whose limits bound the bodies alone.
        Cache::with_weighing(alloc, seed, manager, age_timeout, Weighing::Bodies)
    }

    /// The same with entries that weigh as `weighing` says. Of a manager that tracks entries already these keep the weights that
    /// they have.
    pub fn with_weighing(
        alloc: Global,
        seed: Seed,
        manager: M,
        age_timeout: Duration,
        weighing: Weighing,
    ) -> Cache<M, K>
        ensures { result
            ≡ record {
              store = record { slots = map.empty; writes = map.empty; next = 0; newest = true };
              past = [];
              weighing = weighing;
              tracked = M.tracked manager;
              limits = M.limits manager;
              evicted = M.evicted manager;
              locks = no_locks (as_nanos age_timeout);
              deeds = [];
              purges = no_purges;
            } }
    {
        Cache {
            alloc,
            store: MemCache::newest_first(alloc, seed),
            manager,
            lock: CacheLock::new(alloc, age_timeout),
            weighing,
            purges: Purges::new(),
            of: PhantomData,
        }
    }

    /// What its entries weigh.
    pub fn weighing(&self) -> Weighing
        ensures { result ≡ self.now.weighing }
    {
        self.weighing
    }

    /// The allocator that the cache was made with, for the keys and requests of its callers.
    pub fn alloc(&self) -> Global {
        self.alloc
    }

    /// The sum of the lengths of the complete bodies, in bytes: at most the manager's limit on weight, and so is the sum of their
    /// weights. Each key with a complete body has an entry of its own, tracked with exactly that body's weight.
    pub fn stored_bytes(&self) -> u128
        ensures value { result ≡ stored_bytes self.now.store }
        ensures within { result ≤ self.now.limits.weight }
        ensures weights { stored_weight self.now.weighing self.now.store ≤ self.now.limits.weight }
        ensures tracked { TracksExactly self.now.weighing self.now.store self.now.tracked }
    {
        self.store.stored_bytes()
    }

    /// The number of complete bodies: at most the manager's watermark, if it has one.
    pub fn slots(&self) -> usize
        ensures value { result ≡ slots self.now.store }
        ensures within { IfSome self.now.limits.watermark (λ most. result ≤ most) }
    {
        self.store.slots()
    }

    /// The manager's totals.
    pub fn totals(&self) -> Totals
        ensures weight { result.weight ≡ min (weight self.now.tracked) (2 ^ 64 - 1) }
        ensures items { result.items ≡ map.len self.now.tracked }
        ensures evicted_weight { result.evicted_weight ≡ self.now.evicted.weight }
        ensures evicted_items { result.evicted_items ≡ self.now.evicted.count }
    {
        Totals {
            weight: self.manager.total_size(),
            items: self.manager.total_items(),
            evicted_weight: self.manager.evicted_size(),
            evicted_items: self.manager.evicted_items(),
        }
    }

    /// Whether a request may end its write here: it uses the manager, and has no write, or one of this cache and of its own
    /// key. This holds of each request that began its write here, until the write ends.
    pub fn may_end(&self, request: &CacheRequest<K>) -> bool
        ensures { IsTrue result ↔ MayEnd self.now.store request.now.cache }
    {
        // A test of the store, since a fact about the store cannot be one of the request's type.
        // Straight code does without it: the begin of a write and each piece say that it holds after
        // them.
        request.cache.uses().eviction && is_own_write(&self.store, &request.cache)
    }
}
