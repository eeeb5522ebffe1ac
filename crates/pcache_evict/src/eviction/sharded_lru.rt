//! An eviction manager that keeps its entries in shards, and evicts the least recently used ones of
//! each.
ghost use Rattle.std.specs.Prelude.{◌≡◌, ◌-◌, ◌^◌, ◌<◌, [], None, is_some, length, OnOk, OnErr, IfOk, IsOk, IsSome, IsTrue, min, option_copied};
ghost use Rattle.std.specs.Vec.{vec_capacity};
ghost use Rattle.pcache_evict.specs.Tracked.{raised};
ghost use Rattle.pcache_evict.specs.Recency.{IsWithinAsList, weight, weight_of, others, moved, accessed};
ghost use Rattle.pcache_evict.specs.Listed.{IsEnough};
ghost use Rattle.pcache_evict.specs.Shards.{ArePlaced, Sharded, Runs, all, list_at, shard_of, in_shard, reweighed, added_last_all, grown, last_key, empty_shards};
ghost use Rattle.pcache_evict.specs.Chain.{chain};

use super::recency::raised_weight;
use super::shards::RecencyShards;
use super::{CacheEntryKey, EvictionManager};
use lru::Iter;
use pcache_base::moment::Moment;
use pcache_base::seed::Seed;
use std::alloc::{AllocError, Global};
use std::hash::BuildHasher;
use std::marker::Model;

/// Entries with weights in `N` lists, each entry in the list of its key's shard, in the order of
/// their last use; and limits on the sum of all weights and on the number of all entries.
///
/// A contract sees the lists, most recent first, with the limits and the totals of evictions. If
/// the limits do not hold, the last entries of lists are evicted; which list loses one is not
/// promised. Each call takes a constant number of look-ups, two steps for each entry that it
/// evicts, and one for each empty list that it meets while evicting.
#[derive(Drop)]
pub struct Manager<const N: usize, S: BuildHasher = Seed> {
    alloc: Global,
    limit: usize,
    watermark: Option<usize>,
    shards: RecencyShards<S, N>,
    evicted_size: usize,
    evicted_items: usize,
}

impl<const N: usize, S: BuildHasher> Model for Manager<N, S> {
    ghost use Rattle.pcache_evict.specs.declared.eviction.policy.EvictionPolicy.TheVariants.{ShardedLru};
    ghost use Rattle.pcache_evict.specs.Shards.{Sharded};
    ghost use Rattle.pcache_evict.specs.Tracked.{limits_of};

    ghost Value = { Sharded };

    ghost view = { λ a. record {
      shards = a.shards;
      limits = limits_of ShardedLru a.limit a.watermark;
      evicted = record { weight = a.evicted_size; count = a.evicted_items };
    } };
}

impl<const N: usize, S: BuildHasher + Copy + Drop> Manager<N, S> {
    /// An empty manager whose entries weigh at most `limit` after each eviction. The expected number
    /// of entries in a shard has no effect: the lists grow as they are filled. Their tables hash
    /// under the seed, on which no result depends.
    pub fn with_capacity(
        alloc: Global,
        seed: S,
        limit: usize,
        capacity: usize,
    ) -> Result<Manager<N, S>, AllocError>
        requires { 0 < N }
        ensures ok { IfOk result (λ m. m ≡ empty_shards N limit None) }
    {
        Manager::with_capacity_and_watermark(alloc, seed, limit, capacity, None)
    }

    /// An empty manager whose entries weigh at most `limit` after each eviction, and number at most
    /// `watermark` if that is given.
    pub fn with_capacity_and_watermark(
        alloc: Global,
        seed: S,
        limit: usize,
        _capacity: usize,
        watermark: Option<usize>,
    ) -> Result<Manager<N, S>, AllocError>
        requires { 0 < N }
        ensures ok { IfOk result (λ m. m ≡ empty_shards N limit watermark) }
    {
        Ok(Manager {
            alloc,
            limit,
            watermark,
            // Without the capacity, which promises nothing: lists grow as they are filled.
            shards: RecencyShards::new(alloc, seed)?,
            evicted_size: 0,
            evicted_items: 0,
        })
    }

    /// The most that the entries may weigh after an eviction.
    pub fn weight_limit(&self) -> usize
        ensures { result ≡ self.now.limits.weight }
    {
        self.limit
    }

    /// Sets the most that the entries may weigh. Nothing is evicted before the next admission.
    pub fn set_weight_limit(&mut self, limit: usize)
        ensures { self.new
            ≡ record self.old { limits = record self.old.limits { weight = limit } } }
    {
        self.limit = limit;
    }

    /// The number of shards.
    pub fn shards(&self) -> usize
        ensures value { result ≡ N }
        ensures placed { ArePlaced N self.now.shards }
    {
        self.shards.len(); // for the prover: each of the `N` lists has its own entries
        N
    }

    /// The sum of the weights of a shard's entries; the largest `usize` if it is larger.
    pub fn shard_weight(&self, shard: usize) -> usize
        requires { shard < N }
        ensures { result ≡ min (weight (list_at self.now.shards shard)) (2 ^ 64 - 1) }
    {
        let list = self.shards.list(shard);
        usize::try_from(list.weight()).unwrap_or(usize::MAX)
    }

    /// The number of entries of a shard.
    pub fn shard_len(&self, shard: usize) -> usize
        requires { shard < N }
        ensures { result ≡ length (list_at self.now.shards shard) }
    {
        let list = self.shards.list(shard);
        list.len()
    }

    /// The shard of an entry: the combined hash of its key as a number (high byte first), modulo
    /// the number of shards.
    pub fn get_shard_for_key(&self, key: &CacheEntryKey) -> usize
        ensures value { result ≡ shard_of N key.now }
        ensures in_range { result < N }
    {
        self.shards.place_of(key)
    }

    /// The least recently used entry of a shard; `None` if the shard is empty. That does not count
    /// as a use.
    pub fn peek_lru(&self, shard: usize) -> Option<&CacheEntryKey>
        requires { shard < N }
        ensures { option_copied result ≡ last_key (list_at self.now.shards shard) }
    {
        let list = self.shards.list(shard);
        list.last()
    }

    /// The weight of an entry; `None` if it is not tracked. That does not count as a use.
    pub fn peek_weight(&self, item: &CacheEntryKey) -> Option<usize>
        ensures value { result
            ≡ weight_of item.now (list_at self.now.shards (shard_of N item.now)) }
        ensures placed { ArePlaced N self.now.shards }
    {
        self.shards.len(); // for the prover: each of the `N` lists has its own entries
        let list = self.shards.list(self.shards.place_of(item));
        list.weight_of(item)
    }

    /// The sum of all entries' weights; the largest `usize` if it is larger.
    pub fn total_size(&self) -> usize
        ensures value { result ≡ min (weight (all self.now.shards)) (2 ^ 64 - 1) }
        ensures placed { ArePlaced N self.now.shards }
    {
        usize::try_from(self.shards.weight()).unwrap_or(usize::MAX)
    }

    /// The number of all entries.
    pub fn total_items(&self) -> usize
        ensures value { result ≡ length (all self.now.shards) }
        ensures placed { ArePlaced N self.now.shards }
    {
        self.shards.len()
    }

    /// The sum of the weights of all entries evicted so far; the largest `usize` if it is larger.
    pub fn evicted_size(&self) -> usize
        ensures { result ≡ self.now.evicted.weight }
    {
        self.evicted_size
    }

    /// The number of entries evicted so far; the largest `usize` if it is larger.
    pub fn evicted_items(&self) -> usize
        ensures { result ≡ self.now.evicted.count }
    {
        self.evicted_items
    }

    /// The entries with their weights: shard by shard, and in a shard most recent first.
    pub fn entries(&self) -> Result<Vec<(CacheEntryKey, usize)>, AllocError>
        ensures ok { IfOk result (λ entries. entries.items ≡ all self.now.shards) }
        ensures placed { ArePlaced N self.now.shards }
    {
        self.shards.entries(self.alloc)
    }

    /// Whether an entry is tracked. That does not count as a use.
    pub fn peek(&self, item: &CacheEntryKey) -> bool
        ensures value { result
            ≡ is_some (weight_of item.now (list_at self.now.shards (shard_of N item.now))) }
        ensures placed { ArePlaced N self.now.shards }
    {
        self.peek_weight(item).is_some()
    }

    /// Sets the weight of an entry and moves it to the front of its list; then last entries are
    /// evicted while the limits do not hold. Returns the evicted entries. `fresh_until` is not
    /// read.
    pub fn admit(
        &mut self,
        item: CacheEntryKey,
        size: usize,
        _fresh_until: Moment,
    ) -> Result<Vec<CacheEntryKey>, AllocError>
        ensures ok { IfOk result (λ out. Runs N self.old
            (in_shard N item (moved item size) self.old.shards) self.new out.items) }
        ensures placed { ArePlaced N self.old.shards }
        ensures err { OnErr result (self.new ≡ self.old) }
    {
        self.put_and_evict(item, size)
    }

    /// Adds to the weight of an entry, up to `max_weight` (the largest `usize` if that is `None`),
    /// and then evicts as `admit` does. A weight never decreases, and the entry keeps its position;
    /// one that is not tracked is added at the front with this weight, at least 1. Does not fail if
    /// the entry is tracked and nothing is evicted.
    pub fn increment_weight(
        &mut self,
        item: &CacheEntryKey,
        delta: usize,
        max_weight: Option<usize>,
    ) -> Result<Vec<CacheEntryKey>, AllocError>
        ensures ok { IfOk result (λ out. Runs N self.old
            (in_shard N item.now (grown item.now delta max_weight) self.old.shards) self.new
            out.items) }
        ensures within { IsSome (weight_of item.now (list_at self.old.shards (shard_of N item.now)))
            → IsWithinAsList self.old.limits
            (all (in_shard N item.now (grown item.now delta max_weight) self.old.shards))
            → IsOk result }
        ensures placed { ArePlaced N self.old.shards }
        ensures err { OnErr result (self.new ≡ self.old) }
    {
        let present = self.peek_weight(item);
        let size = raised_weight(present, delta, max_weight);
        if present.is_some() {
            return self.set_and_evict(item, size);
        }
        let copy = item.copied()?;
        self.put_and_evict(copy, size)
    }

    /// Removes an entry, if it is tracked. That is no eviction.
    pub fn remove(&mut self, item: &CacheEntryKey)
        ensures ok { self.new
            ≡ record self.old { shards = in_shard N item.now (others item.now) self.old.shards } }
        ensures placed { ArePlaced N self.old.shards }
    {
        self.shards.len(); // for the prover: each of the `N` lists has its own entries
        self.shards.remove(item);
    }

    /// Moves an entry to the front of its list, with its weight unchanged, or adds it there with
    /// this weight. Returns whether it was tracked. Nothing is evicted; `fresh_until` is not read.
    /// Does not fail if the entry is tracked.
    pub fn access(
        &mut self,
        item: &CacheEntryKey,
        size: usize,
        _fresh_until: Moment,
    ) -> Result<bool, AllocError>
        ensures was { IfOk result (λ was.
            was ≡ is_some (weight_of item.now (list_at self.old.shards (shard_of N item.now)))) }
        ensures ok { OnOk result (self.new
            ≡ record self.old {
              shards = in_shard N item.now (accessed item.now size)
                  self.old.shards;
            }) }
        ensures there { IsSome (weight_of item.now (list_at self.old.shards (shard_of N item.now)))
            → IsOk result }
        ensures placed { ArePlaced N self.old.shards }
        ensures err { OnErr result (self.new ≡ self.old) }
    {
        self.shards.len(); // for the prover: each of the `N` lists has its own entries
        if self.shards.promote(item) {
            return Ok(true);
        }
        let copy = item.copied()?;
        self.shards.put(copy, size)?;
        Ok(false)
    }

    /// Adds entries that were read from a file, one after the other: a new one at the back of its
    /// list; one that is tracked is unchanged. Nothing is evicted, and a failed call changes
    /// nothing (own).
    pub fn load_entries(&mut self, entries: Vec<(CacheEntryKey, usize)>) -> Result<(), AllocError>
        ensures ok { OnOk result (self.new
            ≡ record self.old { shards = added_last_all N entries.items self.old.shards }) }
        ensures err { OnErr result (self.new ≡ self.old) }
    {
        self.shards.join_all(self.alloc, entries)
    }

    /// The entries of a shard with their weights, most recent first, which takes no memory (own).
    pub fn iter_shard(&self, shard: usize) -> Iter<'_, CacheEntryKey, usize>
        requires { shard < N }
        ensures rest { result ≡ list_at self.now.shards shard }
        ensures placed { ArePlaced N self.now.shards }
    {
        self.shards.len(); // for the prover: each of the `N` lists has its own entries
        let list = self.shards.list(shard);
        list.iter()
    }

    // The room for the evicted entries is reserved first, so that a failed call changes nothing.
    fn put_and_evict(
        &mut self,
        item: CacheEntryKey,
        size: usize,
    ) -> Result<Vec<CacheEntryKey>, AllocError>
        ensures ok { IfOk result (λ out. Runs N self.old
            (in_shard N item (moved item size) self.old.shards) self.new out.items) }
        ensures placed { ArePlaced N self.old.shards }
        ensures err { OnErr result (self.new ≡ self.old) }
    {
        self.shards.len(); // for the prover: each of the `N` lists has its own entries
        let place = self.shards.place_of(&item);
        let rest = self.shards.others(&item);
        let room = self
            .shards
            .room_for(&item, size, self.limit, self.watermark, rest);
        let out = Vec::with_capacity(self.alloc, room)?;
        self.shards.put(item, size)?;
        Ok(self.keep_limits(place, out))
    }

    // The same for the weight of a tracked entry.
    fn set_and_evict(
        &mut self,
        item: &CacheEntryKey,
        size: usize,
    ) -> Result<Vec<CacheEntryKey>, AllocError>
        requires there { IsSome
            (weight_of item.now (list_at self.old.shards (shard_of N item.now))) }
        ensures ok { IfOk result (λ out. Runs N self.old
            (in_shard N item.now (reweighed item.now size) self.old.shards) self.new out.items) }
        ensures within { IsWithinAsList self.old.limits
            (all (in_shard N item.now (reweighed item.now size) self.old.shards))
            → IsOk result }
        ensures placed { ArePlaced N self.old.shards }
        ensures err { OnErr result (self.new ≡ self.old) }
    {
        self.shards.len(); // for the prover: each of the `N` lists has its own entries
        let place = self.shards.place_of(item);
        let rest = self.shards.others(item);
        let fits = self
            .shards
            .fits(item, size, self.limit, self.watermark, rest);
        if fits {
            self.shards.reweigh(item, size, rest.0);
            return Ok(self.keep_limits(place, Vec::new(self.alloc)));
        }
        let room = self
            .shards
            .room_for(item, size, self.limit, self.watermark, rest);
        let out = Vec::with_capacity(self.alloc, room)?;
        self.shards.reweigh(item, size, rest.0);
        Ok(self.keep_limits(place, out))
    }

    // Evicts into a vector that has room for all evicted entries.
    fn keep_limits(&mut self, place: usize, mut out: Vec<CacheEntryKey>) -> Vec<CacheEntryKey>
        requires within { place < N }
        requires none { out.items ≡ [] }
        requires room { IsEnough self.old.limits (chain N place self.old.shards)
            (vec_capacity out) }
        ensures { Runs N self.old self.old.shards self.new result.items }
    {
        self.shards.len(); // for the prover: each of the `N` lists has its own entries
        let gone = self
            .shards
            .evict(place, self.limit, self.watermark, &mut out);
        self.evicted_size = self.evicted_size.saturating_add(gone);
        self.evicted_items = self.evicted_items.saturating_add(out.len());
        out
    }
}

impl<const N: usize, S: BuildHasher + Copy + Drop> EvictionManager for Manager<N, S> {
    ghost use Rattle.pcache_evict.specs.Listed.{map_of};
    ghost use Rattle.pcache_evict.specs.Shards.{all};
    ghost use Rattle.pcache_evict.specs.Policy.{lists_shown, rules_of, sharded};

    ghost tracked = { λ m. map_of (all m.shards) };

    ghost limits = { λ m. m.limits };

    ghost evicted = { λ m. m.evicted };

    ghost rules = { λ _. rules_of lists_shown (sharded N) };

    ghost shown = { λ m. lists_shown m.shards };

    fn total_size(&self) -> usize {
        Manager::total_size(self)
    }

    fn total_items(&self) -> usize {
        Manager::total_items(self)
    }

    fn evicted_size(&self) -> usize {
        Manager::evicted_size(self)
    }

    fn evicted_items(&self) -> usize {
        Manager::evicted_items(self)
    }

    fn entries(&self) -> Result<Vec<(CacheEntryKey, usize)>, AllocError> {
        let all = Manager::entries(self)?;
        Ok(all)
    }

    #[tactic(auto, using(crate::proofs::Rules::same_rules))]
    fn admit(
        &mut self,
        item: CacheEntryKey,
        size: usize,
        fresh_until: Moment,
    ) -> Result<Vec<CacheEntryKey>, AllocError> {
        let out = Manager::admit(self, item, size, fresh_until)?;
        Ok(out)
    }

    #[tactic(auto, using(crate::proofs::Rules::same_rules))]
    fn increment_weight(
        &mut self,
        item: &CacheEntryKey,
        delta: usize,
        max_weight: Option<usize>,
    ) -> Result<Vec<CacheEntryKey>, AllocError> {
        let out = Manager::increment_weight(self, item, delta, max_weight)?;
        Ok(out)
    }

    #[tactic(auto, using(crate::proofs::Rules::same_rules))]
    fn remove(&mut self, item: &CacheEntryKey) {
        Manager::remove(self, item);
    }

    #[tactic(auto, using(crate::proofs::Rules::same_rules))]
    fn access(
        &mut self,
        item: &CacheEntryKey,
        size: usize,
        fresh_until: Moment,
    ) -> Result<bool, AllocError> {
        let was = Manager::access(self, item, size, fresh_until)?;
        Ok(was)
    }

    fn peek(&self, item: &CacheEntryKey) -> bool {
        Manager::peek(self, item)
    }
}
