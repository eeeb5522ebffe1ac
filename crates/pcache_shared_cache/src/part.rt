//! One part behind its lock.
use crate::log::{PartLog, PartState, Sight};
use crate::mark::Mark;
use crate::opening::NewPart;
use crate::portion::Portion;
use pcache_base::seed::Seed;
use pcache_cache::{Cache, Weighing};
use pcache_evict::eviction::{EvictionManager, EvictionPolicy};
use std::alloc::Global;
use std::hint::spin_loop;
use std::marker::Model;
use std::sync::{Mutex, MutexGuard, Wait};
use std::time::Duration;

// How often a lock is tried before its thread sleeps. A call has its part for about the time of so many tries, and waking a
// sleeping thread takes far longer. The lock hands itself over to a sleeper, so once a thread sleeps the others queue behind it.
const TRIES: u32 = 300;

// One part: a cache, and the log of its states, which ends with the state that it has. The part is a `Cache` and no type of its own,
// since of what a lock lends only the type is known: so what is proved of each `Cache` is known of each part, and nothing is proved
// twice.
#[derive(Drop)]
pub(crate) struct Part<M: EvictionManager, K: Mark> {
    pub(crate) cache: Cache<Portion<M>, K>,
    pub(crate) log: PartLog<K>,
}

impl<M: EvictionManager, K: Mark> Model for Part<M, K> {
    ghost use Rattle.pcache_shared_cache.specs.Seen.{EndsWith, Held};
    ghost use Rattle.pcache_shared_cache.specs.SeenCode.{held_code};

    ghost Value = { Held };

    ghost coded = { held_code };

    ghost view = { λ p. record { place = p.log.place; log = p.log.log; now = p.cache } };

    ghost invariant = { λ p. EndsWith p.log.log p.cache };
}

impl<M: EvictionManager, K: Mark> Part<M, K> {
    ghost use Rattle.std.specs.Prelude.{◌≡◌};

    // The cache itself.
    fn into_cache(self) -> Cache<Portion<M>, K>
        ensures { result ≡ self.now }
    {
        let Part { cache, log: _ } = self;
        cache
    }
}

// One part behind its lock, and its beginning. A contract sees the place of the part, and the state in which it began.
//
// Of the value that a lock lends only the type is known. Therefore the place, the limits and the policy are kept beside the lock
// too, and the part is lent only if it has the same ones. It has them at the first try: `new` puts such a part under the lock, and
// no call changes a manager's limits or its policy.
#[derive(Drop)]
pub(crate) struct PartLock<M: EvictionManager, K: Mark> {
    policy: EvictionPolicy,
    limit: usize,
    watermark: Option<usize>,
    beginning: Sight<K>,
    part: Mutex<Part<M, K>>,
}

impl<M: EvictionManager, K: Mark> Model for PartLock<M, K> {
    ghost use Rattle.pcache_evict.specs.Tracked.{limits_of};
    ghost use Rattle.std.specs.Prelude.{◌≡◌};
    ghost use Rattle.pcache_shared_cache.specs.Seen.{Begun, StartsWith, first_of};
    ghost use Rattle.pcache_shared_cache.specs.SeenCode.{begun_code};

    ghost Value = { Begun };

    ghost coded = { begun_code };

    ghost view = { λ p. record { place = p.beginning.place; first = first_of p.beginning.log } };

    ghost invariant = { λ p. StartsWith p.beginning.log (first_of p.beginning.log) × ((first_of p.beginning.log).limits ≡ limits_of p.policy p.limit p.watermark) };
}

impl<M: EvictionManager, K: Mark> PartLock<M, K> {
    ghost use Rattle.std.specs.Prelude.{◌≡◌, IfSome};
    ghost use Rattle.std.specs.Duration.{as_nanos};
    ghost use Rattle.std.specs.Sync.Mutex.{mutex_guard_value};
    ghost use Rattle.pcache_cache.specs.Parts.{IsKept};
    ghost use Rattle.pcache_store.specs.Totals.{slots, stored_bytes};
    ghost use Rattle.pcache_shared_cache.specs.Managed.{managed, managed_in, opened};
    ghost use Rattle.pcache_shared_cache.specs.Seen.{IsNamed, StartsWith};
    ghost use Rattle.pcache_shared_cache.specs.Shared.{OfPart};

    // An empty part at a place, whose keeper the mark names so if it names the place.
    pub(crate) fn new(
        alloc: Global,
        seed: Seed,
        place: usize,
        new_part: NewPart<M>,
        age_timeout: Duration,
    ) -> PartLock<M, K>
        requires { IsNamed (K.names place) new_part.name }
        ensures place { result.place ≡ place }
        ensures first { result.first
            ≡ opened (as_nanos age_timeout) (managed_in M.tracked M.evicted new_part.portion) }
    {
        let (portion, keeper) = new_part.into_both();
        let policy = portion.policy();
        let limit = portion.limit();
        let watermark = portion.watermark();
        // Always by entries: only servers have parts, so no contract has to carry what a part
        // weighs.
        let cache = Cache::with_weighing(alloc, seed, portion, age_timeout, Weighing::Entries);
        let mut log = PartLog::new(place, keeper, &cache);
        PartLock {
            policy,
            limit,
            watermark,
            beginning: log.see(),
            part: Mutex::new(Part { cache, log }),
        }
    }

    // What was seen of the part as it began.
    pub(crate) fn beginning(&self) -> Sight<K>
        ensures place { result.place ≡ self.now.place }
        ensures starts { StartsWith result.log self.now.first }
    {
        self.beginning.again()
    }

    // The part, for the caller alone until the guard is dropped. It waits while another thread has
    // the part.
    pub(crate) fn lock<R: Wait>(&self, rt: &R) -> MutexGuard<'_, Part<M, K>>
        ensures place { (mutex_guard_value result).place ≡ self.now.place }
        ensures limits { (mutex_guard_value result).now.limits ≡ self.now.first.limits }
        ensures kept { IsKept (mutex_guard_value result).now.weighing
            (mutex_guard_value result).now.limits
            (mutex_guard_value result).now.tracked (mutex_guard_value result).now.store }
    {
        // The first round returns (see the type); the test provides the clauses of the contract.
        for _ in rt.forever() {
            let part = self.take(rt);
            let portion = part.cache.manager();
            if part.log.place() == self.beginning.place()
                && portion.has_limits(self.policy, self.limit, self.watermark)
            {
                part.cache.is_kept();
                return part;
            }
        }
        unreachable!()
    }

    // Tries for a while before it sleeps.
    fn take<R: Wait>(&self, rt: &R) -> MutexGuard<'_, Part<M, K>> {
        for _ in 0..TRIES {
            if let Some(part) = self.part.try_lock() {
                return part;
            }
            spin_loop();
        }
        self.part.lock(rt)
    }

    // The part's manager. It has the limits and the policy that stand beside the lock (see the type), so that this does not wait.
    pub(crate) fn into_portion<R: Wait>(self, rt: &R) -> Portion<M>
        ensures { OfPart self.first.limits (λ p.
            managed_in M.tracked M.evicted result ≡ managed p) }
    {
        let PartLock {
            policy,
            limit,
            watermark,
            beginning: _,
            part,
        } = self;
        let cache = part.into_inner().into_cache();
        cache.is_kept();
        let portion = cache.into_manager();
        if portion.has_limits(policy, limit, watermark) {
            return portion;
        }
        // Never reached. As `lock`, it would not return with a part that has other limits or another policy.
        for _ in rt.forever() {}
        unreachable!()
    }

    // The lengths of the complete bodies, added up.
    pub(crate) fn stored_bytes<R: Wait>(&self, rt: &R) -> usize
        ensures { OfPart self.now.first.limits (λ p. result ≡ stored_bytes p.store) }
    {
        // For the prover: the limit is a `usize`, so the sum, which is within it, fits one.
        let _limit = self.limit;
        let guard = self.lock(rt);
        let part = &*guard;
        part.cache.stored_bytes() as usize
    }

    // The number of complete bodies.
    pub(crate) fn slots<R: Wait>(&self, rt: &R) -> usize
        ensures { OfPart self.now.first.limits (λ p. result ≡ slots p.store) }
    {
        let guard = self.lock(rt);
        let part = &*guard;
        part.cache.slots()
    }
}
