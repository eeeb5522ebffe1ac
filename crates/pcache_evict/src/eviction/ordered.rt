//! Managers whose order of entries is promised, and not only that evictions are fair.
ghost use Rattle.std.specs.Prelude.{◌≡◌, IfOk, IsOk, IsTrue, OnErr, OnOk};
ghost use Rattle.std.specs.FinMap as map;
ghost use Rattle.pcache_evict.specs.Tracked.{IsFair, IsWithin, without, added, incremented, evicted_with};
ghost use Rattle.pcache_evict.specs.Listed.{map_of};
ghost use Rattle.pcache_evict.specs.Policy.{Policy};

use super::{CacheEntryKey, EvictionManager, sharded_lru, simple_lru};
use pcache_base::moment::Moment;
use std::alloc::AllocError;
use std::hash::BuildHasher;

/// A manager that orders its entries by a policy.
///
/// Each call does what the one of `EvictionManager` without `in_order` does, whose clauses it
/// repeats; and it makes of the order what the policy says. A contract sees the order beside the map
/// from entries to weights, which has the same entries.
pub trait OrderedManager: EvictionManager {
    /// What the entries are kept in.
    ghost Order: { Type 0 };

    /// What calls make of it.
    ghost policy: { Policy Order };

    /// The order of a manager's entries.
    ghost order: { Self → Order };

    /// As `admit`.
    fn admit_in_order(
        &mut self,
        item: CacheEntryKey,
        size: usize,
        fresh_until: Moment,
    ) -> Result<Vec<CacheEntryKey>, AllocError>
        ensures order { IfOk result (λ out. policy.Admits (Self.limits self.old)
            (order self.old) item size (order self.new) out.items) }
        ensures limits { Self.limits self.new ≡ Self.limits self.old }
        ensures fair { IfOk result (λ out. IsFair (Self.limits self.old)
            (map.insert (Self.tracked self.old) item size) out.items) }
        ensures tracked { IfOk result (λ out. Self.tracked self.new
            ≡ without out.items (map.insert (Self.tracked self.old) item size)) }
        ensures evicted { IfOk result (λ out. Self.evicted self.new
            ≡ evicted_with (Self.evicted self.old)
            (map.insert (Self.tracked self.old) item size) out.items) }
        ensures err { OnErr result (Self.tracked self.new ≡ Self.tracked self.old) }
        ensures err_evicted { OnErr result (Self.evicted self.new ≡ Self.evicted self.old) };

    /// As `increment_weight`.
    fn increment_in_order(
        &mut self,
        item: &CacheEntryKey,
        delta: usize,
        max_weight: Option<usize>,
    ) -> Result<Vec<CacheEntryKey>, AllocError>
        ensures order { IfOk result (λ out. policy.Increments (Self.limits self.old)
            (order self.old) item.now delta max_weight (order self.new) out.items) }
        ensures limits { Self.limits self.new ≡ Self.limits self.old }
        ensures fair { IfOk result (λ out. IsFair (Self.limits self.old)
            (incremented (Self.tracked self.old) item.now delta max_weight) out.items) }
        ensures tracked { IfOk result (λ out. Self.tracked self.new
            ≡ without out.items (incremented (Self.tracked self.old) item.now delta max_weight)) }
        ensures evicted { IfOk result (λ out. Self.evicted self.new
            ≡ evicted_with (Self.evicted self.old)
            (incremented (Self.tracked self.old) item.now delta max_weight) out.items) }
        ensures within { IsTrue (map.contains_key (Self.tracked self.old) item.now)
            → IsWithin (Self.limits self.old)
            (incremented (Self.tracked self.old) item.now delta max_weight)
            → IsOk result }
        ensures err { OnErr result (Self.tracked self.new ≡ Self.tracked self.old) }
        ensures err_evicted { OnErr result (Self.evicted self.new ≡ Self.evicted self.old) };

    /// As `remove`.
    fn remove_in_order(&mut self, item: &CacheEntryKey)
        ensures order { policy.Removes (order self.old) item.now (order self.new) }
        ensures limits { Self.limits self.new ≡ Self.limits self.old }
        ensures tracked { Self.tracked self.new ≡ map.remove (Self.tracked self.old) item.now }
        ensures evicted { Self.evicted self.new ≡ Self.evicted self.old };

    /// As `access`.
    fn access_in_order(
        &mut self,
        item: &CacheEntryKey,
        size: usize,
        fresh_until: Moment,
    ) -> Result<bool, AllocError>
        ensures order { OnOk result (policy.Accesses (order self.old) item.now size
            (order self.new)) }
        ensures limits { Self.limits self.new ≡ Self.limits self.old }
        ensures was { IfOk result (λ was.
            was ≡ map.contains_key (Self.tracked self.old) item.now) }
        ensures ok { OnOk result (Self.tracked self.new
            ≡ added (Self.tracked self.old) item.now size) }
        ensures there { IsTrue (map.contains_key (Self.tracked self.old) item.now) → IsOk result }
        ensures evicted { Self.evicted self.new ≡ Self.evicted self.old }
        ensures err { OnErr result (Self.tracked self.new ≡ Self.tracked self.old) };

    /// The map has the entries of the order.
    ghost listed: { (m : Self) → Self.tracked m ≡ map_of (policy.entries (order m)) };
}

impl<S: BuildHasher + Copy + Drop> OrderedManager for simple_lru::Manager<S> {
    ghost use Rattle.std.specs.Prelude.{refl};
    ghost use Rattle.pcache_evict.specs.Recency.{Recency};
    ghost use Rattle.pcache_evict.specs.Policy.{lru};

    ghost Order = { Recency };

    ghost policy = { lru };

    ghost order = { λ m. m.entries };

    ghost listed = { λ m. refl };

    fn admit_in_order(
        &mut self,
        item: CacheEntryKey,
        size: usize,
        fresh_until: Moment,
    ) -> Result<Vec<CacheEntryKey>, AllocError> {
        let out = simple_lru::Manager::admit(self, item, size, fresh_until)?;
        Ok(out)
    }

    fn increment_in_order(
        &mut self,
        item: &CacheEntryKey,
        delta: usize,
        max_weight: Option<usize>,
    ) -> Result<Vec<CacheEntryKey>, AllocError> {
        let out = simple_lru::Manager::increment_weight(self, item, delta, max_weight)?;
        Ok(out)
    }

    fn remove_in_order(&mut self, item: &CacheEntryKey) {
        simple_lru::Manager::remove(self, item);
    }

    fn access_in_order(
        &mut self,
        item: &CacheEntryKey,
        size: usize,
        fresh_until: Moment,
    ) -> Result<bool, AllocError> {
        let was = simple_lru::Manager::access(self, item, size, fresh_until)?;
        Ok(was)
    }
}

impl<const N: usize, S: BuildHasher + Copy + Drop> OrderedManager for sharded_lru::Manager<N, S> {
    ghost use Rattle.std.specs.Prelude.{List, refl};
    ghost use Rattle.pcache_evict.specs.Recency.{Recency};
    ghost use Rattle.pcache_evict.specs.Policy.{sharded};

    ghost Order = { List Recency };

    ghost policy = { sharded N };

    ghost order = { λ m. m.shards };

    ghost listed = { λ m. refl };

    fn admit_in_order(
        &mut self,
        item: CacheEntryKey,
        size: usize,
        fresh_until: Moment,
    ) -> Result<Vec<CacheEntryKey>, AllocError> {
        let out = sharded_lru::Manager::admit(self, item, size, fresh_until)?;
        Ok(out)
    }

    fn increment_in_order(
        &mut self,
        item: &CacheEntryKey,
        delta: usize,
        max_weight: Option<usize>,
    ) -> Result<Vec<CacheEntryKey>, AllocError> {
        let out = sharded_lru::Manager::increment_weight(self, item, delta, max_weight)?;
        Ok(out)
    }

    fn remove_in_order(&mut self, item: &CacheEntryKey) {
        sharded_lru::Manager::remove(self, item);
    }

    fn access_in_order(
        &mut self,
        item: &CacheEntryKey,
        size: usize,
        fresh_until: Moment,
    ) -> Result<bool, AllocError> {
        let was = sharded_lru::Manager::access(self, item, size, fresh_until)?;
        Ok(was)
    }
}
