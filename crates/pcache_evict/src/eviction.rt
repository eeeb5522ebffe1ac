//! What an eviction manager is: it tracks the entries of a cache with their weights, and decides
//! which of them leave when there are too many.
ghost use Rattle.std.specs.Prelude.{◌≡◌, ◌^◌, ◌-◌, IfOk, IsOk, IsTrue, OnErr, OnOk, min};
ghost use Rattle.std.specs.FinMap as map;
ghost use Rattle.std.specs.List.{IsDistinct};
ghost use Rattle.std.specs.Map.{keys_of};
ghost use Rattle.pcache_evict.specs.Entry.{entry_cmp, entry_eq};
ghost use Rattle.pcache_evict.specs.Policy.{AllowAsMuch, Rules, Shown};
ghost use Rattle.pcache_evict.specs.Tracked.{Tracked, Limits, Evicted, IsFair, IsWithin, weight, without, added, incremented, evicted_with};

use pcache_base::moment::Moment;
use std::alloc::AllocError;

mod entry_key;
pub mod ordered;
mod policy;
mod recency;
pub mod sharded_lru;
mod shards;
pub mod simple_lru;

pub use entry_key::{CacheEntryKey, CacheEntryKeyRef};
pub use pcache_base::entry_id::CacheEntryId;
pub use policy::EvictionPolicy;

/// Decides which entries leave a cache, by their weights and by how they are used.
///
/// A contract sees the map from entries to weights, the limits on their sum and number, and the
/// policy that the entries go by; and the order of the entries, as the manager shows it, with the
/// rules by which calls change it. Calls fail only when memory runs out, and a failed call leaves
/// the entries and their weights; the order of those that were looked at to find one that goes may
/// have changed.
pub trait EvictionManager: Drop {
    /// The entries, with their weights.
    ghost tracked: { Self → Tracked };

    /// What no call changes: the limits on the weights' sum and on the number of entries, and the
    /// policy by which entries go.
    ghost limits: { Self → Limits };

    /// The weight and the number of all that was evicted.
    ghost evicted: { Self → Evicted };

    /// What calls make of the order of the entries, which no call changes.
    ghost rules: { Self → Rules };

    /// The order of the entries.
    ghost shown: { Self → Shown };

    /// The sum of the entries' weights; the largest `usize` if it is larger.
    fn total_size(&self) -> usize
        ensures { result ≡ min (weight (tracked self.now)) (2 ^ 64 - 1) };

    /// The number of entries.
    fn total_items(&self) -> usize
        ensures { result ≡ map.len (tracked self.now) };

    /// The sum of the weights of all entries evicted so far; the largest `usize` if it is larger.
    fn evicted_size(&self) -> usize
        ensures { result ≡ (evicted self.now).weight };

    /// The number of entries evicted so far; the largest `usize` if it is larger.
    fn evicted_items(&self) -> usize
        ensures { result ≡ (evicted self.now).count };

    /// The entries with their weights, each once.
    fn entries(&self) -> Result<Vec<(CacheEntryKey, usize)>, AllocError>
        ensures all { IfOk result (λ all. map.from_entries all.items ≡ tracked self.now) }
        ensures once { IfOk result (λ all. IsDistinct entry_eq (keys_of all.items)) };

    /// Sets the weight of an entry, and evicts entries only until the limits hold. The entry itself
    /// may be evicted. Returns the evicted entries; `fresh_until` is when the entry goes stale.
    fn admit(
        &mut self,
        item: CacheEntryKey,
        size: usize,
        fresh_until: Moment,
    ) -> Result<Vec<CacheEntryKey>, AllocError>
        ensures limits { limits self.new ≡ limits self.old }
        ensures fair { IfOk result (λ out. IsFair (limits self.old)
            (map.insert (tracked self.old) item size) out.items) }
        ensures tracked { IfOk result (λ out. tracked self.new
            ≡ without out.items (map.insert (tracked self.old) item size)) }
        ensures evicted { IfOk result (λ out. evicted self.new
            ≡ evicted_with (evicted self.old) (map.insert (tracked self.old) item size) out.items) }
        ensures rules { AllowAsMuch (rules self.new) (rules self.old) }
        ensures order { IfOk result (λ out. (rules self.old).Admits (limits self.old)
            (shown self.old) item size (shown self.new) out.items) }
        ensures err { OnErr result (tracked self.new ≡ tracked self.old) }
        ensures err_evicted { OnErr result (evicted self.new ≡ evicted self.old) };

    /// Adds to the weight of an entry, up to `max_weight` (the largest `usize` if that is `None`),
    /// and evicts as `admit` does. A weight never decreases; an entry that is not tracked is added
    /// with this weight, at least 1. Does not fail if the entry is tracked and nothing is evicted.
    fn increment_weight(
        &mut self,
        item: &CacheEntryKey,
        delta: usize,
        max_weight: Option<usize>,
    ) -> Result<Vec<CacheEntryKey>, AllocError>
        ensures limits { limits self.new ≡ limits self.old }
        ensures fair { IfOk result (λ out. IsFair (limits self.old)
            (incremented (tracked self.old) item.now delta max_weight) out.items) }
        ensures tracked { IfOk result (λ out. tracked self.new
            ≡ without out.items (incremented (tracked self.old) item.now delta max_weight)) }
        ensures evicted { IfOk result (λ out. evicted self.new
            ≡ evicted_with (evicted self.old)
            (incremented (tracked self.old) item.now delta max_weight) out.items) }
        ensures within { IsTrue (map.contains_key (tracked self.old) item.now)
            → IsWithin (limits self.old) (incremented (tracked self.old) item.now delta max_weight)
            → IsOk result }
        ensures rules { AllowAsMuch (rules self.new) (rules self.old) }
        ensures order { IfOk result (λ out. (rules self.old).Increments (limits self.old)
            (shown self.old) item.now delta max_weight (shown self.new) out.items) }
        ensures err { OnErr result (tracked self.new ≡ tracked self.old) }
        ensures err_evicted { OnErr result (evicted self.new ≡ evicted self.old) };

    /// Removes an entry, if it is tracked. That is no eviction.
    fn remove(&mut self, item: &CacheEntryKey)
        ensures limits { limits self.new ≡ limits self.old }
        ensures tracked { tracked self.new ≡ map.remove (tracked self.old) item.now }
        ensures rules { AllowAsMuch (rules self.new) (rules self.old) }
        ensures order { (rules self.old).Removes (shown self.old) item.now (shown self.new) }
        ensures evicted { evicted self.new ≡ evicted self.old };

    /// Records a use of an entry and returns whether it was tracked. One that was not is added with
    /// this weight; nothing is evicted, even if the limits no longer hold. Does not fail if the
    /// entry is tracked.
    fn access(
        &mut self,
        item: &CacheEntryKey,
        size: usize,
        fresh_until: Moment,
    ) -> Result<bool, AllocError>
        ensures limits { limits self.new ≡ limits self.old }
        ensures was { IfOk result (λ was. was ≡ map.contains_key (tracked self.old) item.now) }
        ensures ok { OnOk result (tracked self.new ≡ added (tracked self.old) item.now size) }
        ensures there { IsTrue (map.contains_key (tracked self.old) item.now) → IsOk result }
        ensures rules { AllowAsMuch (rules self.new) (rules self.old) }
        ensures order { OnOk result ((rules self.old).Accesses (shown self.old) item.now size
            (shown self.new)) }
        ensures evicted { evicted self.new ≡ evicted self.old }
        ensures err { OnErr result (tracked self.new ≡ tracked self.old) };

    /// Whether an entry is tracked. That does not count as a use.
    fn peek(&self, item: &CacheEntryKey) -> bool
        ensures { result ≡ map.contains_key (tracked self.now) item.now };
}

/// A call on a box goes to the manager inside.
impl EvictionManager for Box<dyn EvictionManager + Send> {
    ghost tracked = { λ b. (EvictionManager-box b).tracked b.value };

    ghost limits = { λ b. (EvictionManager-box b).limits b.value };

    ghost evicted = { λ b. (EvictionManager-box b).evicted b.value };

    ghost rules = { λ b. (EvictionManager-box b).rules b.value };

    ghost shown = { λ b. (EvictionManager-box b).shown b.value };

    fn total_size(&self) -> usize {
        (**self).total_size()
    }

    fn total_items(&self) -> usize {
        (**self).total_items()
    }

    fn evicted_size(&self) -> usize {
        (**self).evicted_size()
    }

    fn evicted_items(&self) -> usize {
        (**self).evicted_items()
    }

    fn entries(&self) -> Result<Vec<(CacheEntryKey, usize)>, AllocError> {
        (**self).entries()
    }

    fn admit(
        &mut self,
        item: CacheEntryKey,
        size: usize,
        fresh_until: Moment,
    ) -> Result<Vec<CacheEntryKey>, AllocError> {
        (**self).admit(item, size, fresh_until)
    }

    fn increment_weight(
        &mut self,
        item: &CacheEntryKey,
        delta: usize,
        max_weight: Option<usize>,
    ) -> Result<Vec<CacheEntryKey>, AllocError> {
        (**self).increment_weight(item, delta, max_weight)
    }

    fn remove(&mut self, item: &CacheEntryKey) {
        (**self).remove(item);
    }

    fn access(
        &mut self,
        item: &CacheEntryKey,
        size: usize,
        fresh_until: Moment,
    ) -> Result<bool, AllocError> {
        (**self).access(item, size, fresh_until)
    }

    fn peek(&self, item: &CacheEntryKey) -> bool {
        (**self).peek(item)
    }
}
