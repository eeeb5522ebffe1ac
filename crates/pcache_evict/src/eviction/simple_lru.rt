//! An eviction manager that evicts the least recently used entries.
ghost use Rattle.std.specs.Prelude.{◌≡◌, ◌-◌, ◌^◌, [], None, is_some, length, OnOk, OnErr, IfOk, IsOk, IsSome, min};
ghost use Rattle.std.specs.Vec.{vec_capacity};
ghost use Rattle.pcache_evict.specs.Recency.{IsWithinAsList, weight, weight_of, others, moved, incremented, accessed, loaded, loaded_all};
ghost use Rattle.pcache_evict.specs.Listed.{Listed, empty_list, Moves, IsEnough, IsOnce};

use super::recency::{RecencyList, raised_weight};
use super::{CacheEntryKey, EvictionManager};
use lru::Iter;
use pcache_base::moment::Moment;
use pcache_base::seed::Seed;
use std::alloc::{AllocError, Global};
use std::hash::BuildHasher;
use std::marker::Model;

/// Entries with weights in the order of their last use, and limits on the sum of the weights and
/// on the number of entries.
///
/// A contract sees the list, most recent first, with the limits and the totals of evictions. Each
/// call takes a constant number of look-ups, and two steps for each entry that it evicts.
#[derive(Drop)]
pub struct Manager<S: BuildHasher = Seed> {
    alloc: Global,
    limit: usize,
    watermark: Option<usize>,
    list: RecencyList<S>,
    evicted_size: usize,
    evicted_items: usize,
}

impl<S: BuildHasher> Model for Manager<S> {
    ghost use Rattle.pcache_evict.specs.declared.eviction.policy.EvictionPolicy.TheVariants.{Lru};
    ghost use Rattle.pcache_evict.specs.Listed.{Listed};
    ghost use Rattle.pcache_evict.specs.Tracked.{limits_of};

    ghost Value = { Listed };

    ghost view = { λ a. record {
      entries = a.list;
      limits = limits_of Lru a.limit a.watermark;
      evicted = record { weight = a.evicted_size; count = a.evicted_items };
    } };
}

impl<S: BuildHasher + Copy + Drop> Manager<S> {
    /// An empty manager whose entries weigh at most `limit` after each eviction. Its table of entries
    /// hashes under the seed, on which no result depends.
    pub fn new(alloc: Global, seed: S, limit: usize) -> Result<Manager<S>, AllocError>
        ensures ok { IfOk result (λ m. m ≡ empty_list limit None) }
    {
        Manager::new_with_watermark(alloc, seed, limit, None)
    }

    /// An empty manager whose entries weigh at most `limit` after each eviction, and number at most
    /// `items_watermark` if that is given.
    pub fn new_with_watermark(
        alloc: Global,
        seed: S,
        limit: usize,
        items_watermark: Option<usize>,
    ) -> Result<Manager<S>, AllocError>
        ensures ok { IfOk result (λ m. m ≡ empty_list limit items_watermark) }
    {
        Ok(Manager {
            alloc,
            limit,
            watermark: items_watermark,
            list: RecencyList::new(alloc, seed)?,
            evicted_size: 0,
            evicted_items: 0,
        })
    }

    /// The sum of the entries' weights; the largest `usize` if it is larger.
    pub fn total_size(&self) -> usize
        ensures value { result ≡ min (weight self.now.entries) (2 ^ 64 - 1) }
        ensures once { IsOnce self.now.entries }
    {
        usize::try_from(self.list.weight()).unwrap_or(usize::MAX)
    }

    /// The number of entries.
    pub fn total_items(&self) -> usize
        ensures value { result ≡ length self.now.entries }
        ensures once { IsOnce self.now.entries }
    {
        self.list.len()
    }

    /// The sum of the weights of all entries evicted so far; the largest `usize` if it is larger.
    pub fn evicted_size(&self) -> usize
        ensures { result ≡ self.now.evicted.weight }
    {
        self.evicted_size
    }

    /// The number of entries evicted so far; the largest `usize` if it is larger.
    pub fn evicted_items(&self) -> usize
        ensures { result ≡ self.now.evicted.count }
    {
        self.evicted_items
    }

    /// The entries with their weights, most recent first.
    pub fn entries(&self) -> Result<Vec<(CacheEntryKey, usize)>, AllocError>
        ensures ok { IfOk result (λ all. all.items ≡ self.now.entries) }
        ensures once { IsOnce self.now.entries }
    {
        self.list.entries(self.alloc)
    }

    /// Whether an entry is tracked. That does not count as a use.
    pub fn peek(&self, item: &CacheEntryKey) -> bool
        ensures { result ≡ is_some (weight_of item.now self.now.entries) }
    {
        self.list.weight_of(item).is_some()
    }

    /// Sets the weight of an entry and moves it to the front; then the last entry is evicted while
    /// the limits do not hold. Returns the evicted entries, the least recently used first.
    /// `fresh_until` is not read.
    pub fn admit(
        &mut self,
        item: CacheEntryKey,
        size: usize,
        _fresh_until: Moment,
    ) -> Result<Vec<CacheEntryKey>, AllocError>
        ensures ok { IfOk result (λ out. Moves self.old
            (moved item size self.old.entries) self.new out.items) }
        ensures err { OnErr result (self.new ≡ self.old) }
    {
        self.put_and_evict(item, size)
    }

    /// Adds to the weight of an entry, up to `max_weight` (the largest `usize` if that is `None`),
    /// and then does as `admit`. A weight never decreases; an entry that is not tracked is added
    /// with this weight, at least 1. Does not fail if the entry is tracked and nothing is evicted.
    pub fn increment_weight(
        &mut self,
        item: &CacheEntryKey,
        delta: usize,
        max_weight: Option<usize>,
    ) -> Result<Vec<CacheEntryKey>, AllocError>
        ensures ok { IfOk result (λ out. Moves self.old
            (incremented item.now delta max_weight self.old.entries) self.new out.items) }
        ensures within { IsSome (weight_of item.now self.old.entries)
            → IsWithinAsList self.old.limits
            (incremented item.now delta max_weight self.old.entries)
            → IsOk result }
        ensures once { IsOnce self.old.entries }
        ensures err { OnErr result (self.new ≡ self.old) }
    {
        if self.list.allows(delta, 0, self.limit, self.watermark)
            && self.list.raise(item, delta, max_weight)
        {
            return Ok(self.keep_limits(Vec::new(self.alloc)));
        }
        let present = self.list.weight_of(item);
        let size = raised_weight(present, delta, max_weight);
        if present.is_some() {
            let rest = self.list.others(item);
            if self.list.fits(item, size, self.limit, self.watermark, rest) {
                self.list.reweigh(item, size, rest.0);
                return Ok(self.keep_limits(Vec::new(self.alloc)));
            }
        }
        let copy = item.copied()?;
        self.put_and_evict(copy, size)
    }

    /// Removes an entry, if it is tracked. That is no eviction.
    pub fn remove(&mut self, item: &CacheEntryKey)
        ensures { self.new ≡ record self.old { entries = others item.now self.old.entries } }
    {
        // No eviction, so the totals of what was evicted stay.
        self.list.remove(item);
    }

    /// Moves an entry to the front, with its weight unchanged, or adds it there with this weight.
    /// Returns whether it was tracked. Nothing is evicted; `fresh_until` is not read. Does not fail
    /// if the entry is tracked.
    pub fn access(
        &mut self,
        item: &CacheEntryKey,
        size: usize,
        _fresh_until: Moment,
    ) -> Result<bool, AllocError>
        ensures was { IfOk result (λ was. was ≡ is_some (weight_of item.now self.old.entries)) }
        ensures ok { OnOk result (self.new
            ≡ record self.old { entries = accessed item.now size self.old.entries }) }
        ensures there { IsSome (weight_of item.now self.old.entries) → IsOk result }
        ensures err { OnErr result (self.new ≡ self.old) }
    {
        if self.list.promote(item) {
            return Ok(true);
        }
        let copy = item.copied()?;
        self.list.put(copy, size)?;
        Ok(false)
    }

    /// Adds an entry that was read from a file: a new one at the back; one that is tracked moves to
    /// the front, with the new weight. Nothing is evicted (own).
    pub fn load_entry(&mut self, item: CacheEntryKey, size: usize) -> Result<(), AllocError>
        ensures ok { OnOk result (self.new
            ≡ record self.old { entries = loaded item size self.old.entries }) }
        ensures err { OnErr result (self.new ≡ self.old) }
    {
        if self.list.weight_of(&item).is_some() {
            return self.list.put(item, size);
        }
        self.list.push_last(item, size)
    }

    /// Adds entries that were read from a file, one after the other, each as `load_entry` does.
    /// They are added to a copy of the list, which then replaces it, so that a failed call changes
    /// nothing (own).
    pub fn load_entries(&mut self, entries: Vec<(CacheEntryKey, usize)>) -> Result<(), AllocError>
        ensures ok { OnOk result (self.new
            ≡ record self.old { entries = loaded_all entries.items self.old.entries }) }
        ensures err { OnErr result (self.new ≡ self.old) }
    {
        // A copy, since an entry that is listed already moves and takes another weight, which could
        // not be undone if memory ran out midway.
        let mut list = self.list.copied(self.alloc)?;
        list.load_all(entries)?;
        self.list = list;
        Ok(())
    }

    /// The entries with their weights, most recent first, which takes no memory (own).
    pub fn iter(&self) -> Iter<'_, CacheEntryKey, usize>
        ensures rest { result ≡ self.now.entries }
        ensures once { IsOnce self.now.entries }
    {
        self.list.iter()
    }

    // The room for the evicted entries is reserved first, so that a failed call changes nothing.
    fn put_and_evict(
        &mut self,
        item: CacheEntryKey,
        size: usize,
    ) -> Result<Vec<CacheEntryKey>, AllocError>
        ensures ok { IfOk result (λ out. Moves self.old
            (moved item size self.old.entries) self.new out.items) }
        ensures err { OnErr result (self.new ≡ self.old) }
    {
        // An entry makes a list heavier by no more than its size, so nobody asks whether it is
        // there if it would fit even as a new one.
        if self.list.allows(size, 1, self.limit, self.watermark) {
            self.list.put(item, size)?;
            return Ok(self.keep_limits(Vec::new(self.alloc)));
        }
        let room = self
            .list
            .room_at_most(&item, size, self.limit, self.watermark);
        let out = match Vec::with_capacity(self.alloc, room) {
            Ok(out) => out,
            // Only then is it looked up: no call is refused for memory that it would not need.
            Err(_) => self.exact_room(&item, size)?,
        };
        self.list.put(item, size)?;
        Ok(self.keep_limits(out))
    }

    // A vector with room for exactly the entries that go when this one is put and the list is then
    // brought within the limits.
    fn exact_room(
        &self,
        item: &CacheEntryKey,
        size: usize,
    ) -> Result<Vec<CacheEntryKey>, AllocError>
        ensures ok { IfOk result (λ out. (out.items ≡ [])
            × IsEnough self.now.limits (moved item.now size self.now.entries) (vec_capacity out)) }
    {
        let rest = self.list.others(item);
        let room = self
            .list
            .room_for(item, size, self.limit, self.watermark, rest);
        Vec::with_capacity(self.alloc, room)
    }

    // Evicts into a vector that has room for all evicted entries. It is inlined: a vector that it
    // returned through memory was read only once all writes before were done, also those to entries
    // for which the processor still waited, which took a quarter of the time of `increment_weight`.
    #[inline(always)]
    fn keep_limits(&mut self, mut out: Vec<CacheEntryKey>) -> Vec<CacheEntryKey>
        requires none { out.items ≡ [] }
        requires room { IsEnough self.old.limits self.old.entries (vec_capacity out) }
        requires once { IsOnce self.old.entries }
        ensures { Moves self.old self.old.entries self.new result.items }
    {
        let gone = self.list.evict(self.limit, self.watermark, &mut out);
        self.evicted_size = self.evicted_size.saturating_add(gone);
        self.evicted_items = self.evicted_items.saturating_add(out.len());
        out
    }
}

impl<S: BuildHasher + Copy + Drop> EvictionManager for Manager<S> {
    ghost use Rattle.pcache_evict.specs.Listed.{map_of};
    ghost use Rattle.pcache_evict.specs.Policy.{lru, one_shown, rules_of};

    ghost tracked = { λ m. map_of m.entries };

    ghost limits = { λ m. m.limits };

    ghost evicted = { λ m. m.evicted };

    ghost rules = { λ _. rules_of one_shown lru };

    ghost shown = { λ m. one_shown m.entries };

    fn total_size(&self) -> usize {
        Manager::total_size(self)
    }

    fn total_items(&self) -> usize {
        Manager::total_items(self)
    }

    fn evicted_size(&self) -> usize {
        Manager::evicted_size(self)
    }

    fn evicted_items(&self) -> usize {
        Manager::evicted_items(self)
    }

    fn entries(&self) -> Result<Vec<(CacheEntryKey, usize)>, AllocError> {
        let all = Manager::entries(self)?;
        Ok(all)
    }

    #[tactic(auto, using(crate::proofs::Rules::same_rules))]
    fn admit(
        &mut self,
        item: CacheEntryKey,
        size: usize,
        fresh_until: Moment,
    ) -> Result<Vec<CacheEntryKey>, AllocError> {
        let out = Manager::admit(self, item, size, fresh_until)?;
        Ok(out)
    }

    #[tactic(auto, using(crate::proofs::Rules::same_rules))]
    fn increment_weight(
        &mut self,
        item: &CacheEntryKey,
        delta: usize,
        max_weight: Option<usize>,
    ) -> Result<Vec<CacheEntryKey>, AllocError> {
        let out = Manager::increment_weight(self, item, delta, max_weight)?;
        Ok(out)
    }

    #[tactic(auto, using(crate::proofs::Rules::same_rules))]
    fn remove(&mut self, item: &CacheEntryKey) {
        Manager::remove(self, item);
    }

    #[tactic(auto, using(crate::proofs::Rules::same_rules))]
    fn access(
        &mut self,
        item: &CacheEntryKey,
        size: usize,
        fresh_until: Moment,
    ) -> Result<bool, AllocError> {
        let was = Manager::access(self, item, size, fresh_until)?;
        Ok(was)
    }

    fn peek(&self, item: &CacheEntryKey) -> bool {
        Manager::peek(self, item)
    }
}
