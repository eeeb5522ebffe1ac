//! Recency lists in shards.
ghost use Rattle.std.specs.Prelude.{◌≡◌, ◌↔◌, ◌∷◌, ◌++◌, ◌+◌, ◌-◌, ◌<◌, ◌≤◌, ◌^◌, IsTrue, ℕ, [], true, false, None, is_some, length, OnOk, OnErr, IfOk, IfSome, IfNone, IsSome, List, min, slice_set, take, unwrap_or};
ghost use Rattle.std.specs.Vec.{vec_capacity};
ghost use Rattle.pcache_evict.specs.declared.eviction.policy.EvictionPolicy.TheVariants.{ShardedLru};
ghost use Rattle.pcache_evict.specs.Tracked.{limits_of};
ghost use Rattle.pcache_evict.specs.Recency.{Recency, weight, weight_of, others, moved, IsWithinAsList};
ghost use Rattle.pcache_evict.specs.Listed.{IsEnough};
ghost use Rattle.pcache_evict.specs.Shards.{ArePlaced, all, shard_of, list_at, no_entries, in_shard, reweighed, added_last, added_last_all, AreLengths, AreLonger, RunsOut};
ghost use Rattle.pcache_evict.specs.Chain.{span, chain, Pops, Walks, RoomFor, IsFirst, IsFirstFrom};

use super::CacheEntryKey;
use super::recency::{RecencyList, Walk, exceeds};
use pcache_base::key::CacheHashKey;
use std::alloc::{AllocError, Global};
use std::hash::BuildHasher;
use std::marker::Model;

/// The most entries that all shards may have together, which is the most that one list may have.
const MOST_ENTRIES: usize = (1 << 63) - 1;

// Whether shards with so many entries take no more. That counts as a lack of memory, which no machine has left by then.
fn is_full(count: usize) -> bool
    ensures { IsTrue result ↔ (2 ^ 63 - 1 ≤ count) }
{
    // Each entry has the links of its list in memory, at least 16 bytes, and 2^64 addresses have
    // room for fewer than 2^60 of these.
    count >= MOST_ENTRIES
}

/// `N` lists of entries with their weights, each entry in the list of its key's shard. A contract
/// sees the lists.
///
/// Each move takes one look-up.
#[derive(Drop)]
pub(super) struct RecencyShards<S: BuildHasher, const N: usize> {
    // In a vector, since a list takes memory when it is made.
    lists: Vec<RecencyList<S>>,
    weight: u128,
    items: usize,
}

impl<S: BuildHasher, const N: usize> Model for RecencyShards<S, N> {
    ghost use Rattle.std.specs.Prelude.{List};
    ghost use Rattle.pcache_evict.specs.Recency.{Recency};
    ghost use Rattle.pcache_evict.specs.Shards.{AreKept};

    ghost Value = { List Recency };

    ghost view = { λ a. a.lists.items };

    ghost invariant = { λ a. AreKept N a.lists.items a.weight a.items };
}

impl<S: BuildHasher + Copy + Drop, const N: usize> RecencyShards<S, N> {
    /// `N` empty lists. No result depends on the seed.
    pub(super) fn new(alloc: Global, seed: S) -> Result<RecencyShards<S, N>, AllocError>
        requires { 0 < N }
        ensures ok { IfOk result (λ shards. shards ≡ no_entries N) }
    {
        let mut lists = Vec::new(alloc);
        for _place in 0..N {
            lists.push(RecencyList::new(alloc, seed)?)?;
        }
        Ok(RecencyShards {
            lists,
            weight: 0,
            items: 0,
        })
    }

    /// The place of the list that an entry belongs to.
    pub(super) fn place_of(&self, item: &CacheEntryKey) -> usize
        ensures value { result ≡ shard_of N item.now }
        ensures in_range { result < N }
    {
        let _ = &self.lists; // for the prover: there are `N` lists, and `N` is not 0
        (item.key().slot() % N as u128) as usize
    }

    /// The list at a place.
    pub(super) fn list(&self, place: usize) -> &RecencyList<S>
        requires { place < N }
        ensures { result.now ≡ list_at self.now place }
    {
        let lists = &self.lists;
        &lists[place]
    }

    /// The number of entries.
    pub(super) fn len(&self) -> usize
        ensures value { result ≡ length (all self.now) }
        ensures placed { ArePlaced N self.now }
    {
        self.items
    }

    /// The sum of the entries' weights.
    pub(super) fn weight(&self) -> u128
        ensures value { result ≡ weight (all self.now) }
        ensures placed { ArePlaced N self.now }
    {
        self.weight
    }

    /// The weight and the number of the other entries.
    pub(super) fn others(&self, item: &CacheEntryKey) -> (u128, usize)
        ensures sum { result.0 ≡ weight (others item.now (all self.now)) }
        ensures sum_fits { result.0 + 2 ^ 64 < 2 ^ 128 }
        ensures count { result.1 ≡ length (others item.now (all self.now)) }
        ensures count_fits { result.1 < 2 ^ 63 }
        ensures present { (w : ℕ)
            → weight_of item.now (list_at self.now (shard_of N item.now)) ≡ Some w
            → weight (all self.now) ≡ result.0 + w }
    {
        let place = self.place_of(item);
        let list = self.list(place);
        match list.weight_of(item) {
            Some(size) => (self.weight - size as u128, self.items - 1),
            None => (self.weight, self.items),
        }
    }

    /// Sets the weight of an entry and moves it to the front of its list.
    pub(super) fn put(&mut self, item: CacheEntryKey, size: usize) -> Result<(), AllocError>
        ensures ok { OnOk result (self.new ≡ in_shard N item (moved item size) self.old) }
        ensures err { OnErr result (self.new ≡ self.old) }
    {
        let rest = self.others(&item);
        if is_full(rest.1) {
            return Err(AllocError);
        }
        let place = self.place_of(&item);
        let list = &mut self.lists[place];
        list.put(item, size)?;
        self.weight = rest.0 + size as u128;
        self.items = rest.1 + 1;
        Ok(())
    }

    /// Sets the weight of a tracked entry, which keeps its position and takes no memory; `rest` is
    /// the sum of the other entries' weights.
    pub(super) fn reweigh(&mut self, item: &CacheEntryKey, size: usize, rest: u128)
        requires there { IsSome (weight_of item.now (list_at self.old (shard_of N item.now))) }
        requires sum { rest ≡ weight (others item.now (all self.old)) }
        requires fits { rest + 2 ^ 64 < 2 ^ 128 }
        ensures { self.new ≡ in_shard N item.now (reweighed item.now size) self.old }
    {
        let place = self.place_of(item);
        let list = &mut self.lists[place];
        let beside = list.others(item).0;
        list.reweigh_in_place(item, size, beside);
        self.weight = rest + size as u128;
    }

    /// Moves an entry to the front of its list, if it is tracked. Returns whether it is.
    pub(super) fn promote(&mut self, item: &CacheEntryKey) -> bool
        ensures was { result
            ≡ is_some (weight_of item.now (list_at self.old (shard_of N item.now))) }
        ensures there { IfSome (weight_of item.now (list_at self.old (shard_of N item.now)))
            (λ w. self.new ≡ in_shard N item.now (moved item.now w) self.old) }
        ensures missing { result ≡ false → self.new ≡ self.old }
    {
        let place = self.place_of(item);
        let list = &mut self.lists[place];
        list.promote(item)
    }

    /// Removes an entry.
    pub(super) fn remove(&mut self, item: &CacheEntryKey)
        ensures { self.new ≡ in_shard N item.now (others item.now) self.old }
    {
        let rest = self.others(item);
        let place = self.place_of(item);
        let list = &mut self.lists[place];
        list.remove(item);
        self.weight = rest.0;
        self.items = rest.1;
    }

    /// Adds entries that were read from a file, one after the other, each at the back of its list;
    /// one that is tracked is unchanged. A failed call changes nothing: the entries that were added
    /// at the back of the lists are removed again, which takes no memory.
    pub(super) fn join_all(
        &mut self,
        alloc: Global,
        entries: Vec<(CacheEntryKey, usize)>,
    ) -> Result<(), AllocError>
        ensures ok { OnOk result (self.new ≡ added_last_all N entries.items self.old) }
        ensures err { OnErr result (self.new ≡ self.old) }
    {
        // Entries only come in at the backs, so that the lists can be cut back without memory. A
        // copy of all shards for each shard's file would cost their number squared.
        let lens = self.lens(alloc)?;
        if let Err(refused) = self.join_each(entries) {
            self.cut(&lens);
            return Err(refused);
        }
        Ok(())
    }

    /// The numbers of entries of the lists.
    fn lens(&self, alloc: Global) -> Result<Vec<usize>, AllocError>
        ensures ok { IfOk result (λ v. AreLengths N v.items self.now) }
    {
        let mut lens = Vec::new(alloc);
        for list in &self.lists {
            lens.push(list.len())?;
        }
        Ok(lens)
    }

    /// Adds entries until an addition fails.
    fn join_each(&mut self, entries: Vec<(CacheEntryKey, usize)>) -> Result<(), AllocError>
        ensures ok { OnOk result (self.new ≡ added_last_all N entries.items self.old) }
        ensures longer { AreLonger self.old self.new }
    {
        for (item, size) in entries {
            self.join(item, size)?;
        }
        Ok(())
    }

    /// Adds an entry at the back of its list; one that is tracked is unchanged.
    fn join(&mut self, item: CacheEntryKey, size: usize) -> Result<(), AllocError>
        ensures ok { OnOk result (self.new ≡ in_shard N item (added_last item size) self.old) }
        ensures err { OnErr result (self.new ≡ self.old) }
        ensures placed { ArePlaced N self.old }
    {
        self.len(); // for the prover: each of the `N` lists has its own entries
        let list = self.list(self.place_of(&item));
        if list.weight_of(&item).is_some() {
            return Ok(());
        }
        self.push_last(item, size)
    }

    /// Adds a new entry at the back of its list.
    fn push_last(&mut self, item: CacheEntryKey, size: usize) -> Result<(), AllocError>
        requires { weight_of item (list_at self.old (shard_of N item)) ≡ None }
        ensures ok { OnOk result (self.new
            ≡ in_shard N item (λ l. l ++ (item, size) ∷ []) self.old) }
        ensures err { OnErr result (self.new ≡ self.old) }
    {
        if is_full(self.items) {
            return Err(AllocError);
        }
        let shard = self.place_of(&item);
        let list = &mut self.lists[shard];
        list.push_last(item, size)?;
        self.weight += size as u128;
        self.items += 1;
        Ok(())
    }

    /// Removes entries from the back of the lists until they have these lengths.
    fn cut(&mut self, lens: &[usize])
        requires { length lens.now ≡ N }
        ensures { (shards : List Recency) → AreLengths N lens.now shards → AreLonger shards self.old
            → self.new ≡ shards }
    {
        for place in 0..N {
            self.len(); // for the prover: each of the `N` lists has its own entries
            self.truncate(place, lens[place]);
        }
        self.len(); // for the prover: each of the `N` lists has its own entries
    }

    /// Removes entries from the back of a list until it has at most so many.
    fn truncate(&mut self, place: usize, len: usize)
        requires { place < N }
        ensures { self.new ≡ slice_set self.old place (take len (list_at self.old place)) }
    {
        while self.list(place).len() > len {
            self.len(); // for the prover: each of the `N` lists has its own entries
            self.pop(place);
        }
        self.len(); // for the prover: each of the `N` lists has its own entries
    }

    /// Removes the last entry of a list.
    fn pop(&mut self, place: usize)
        requires within { place < N }
        requires some { 0 < length (list_at self.old place) }
        ensures { self.new
            ≡ slice_set self.old place
            (take (length (list_at self.old place) - 1) (list_at self.old place)) }
    {
        let list = &mut self.lists[place];
        let Some((_key, size)) = list.pop_last() else {
            unreachable!()
        };
        self.weight -= size as u128;
        self.items -= 1;
    }

    /// The entries with their weights: shard by shard, and in a shard most recent first.
    pub(super) fn entries(&self, alloc: Global) -> Result<Vec<(CacheEntryKey, usize)>, AllocError>
        ensures ok { IfOk result (λ entries. entries.items ≡ all self.now) }
        ensures placed { ArePlaced N self.now }
    {
        let mut entries = Vec::with_capacity(alloc, self.items)?;
        for list in &self.lists {
            list.copy_into(&mut entries)?;
        }
        Ok(entries)
    }

    /// Whether the limits hold once the weight of a tracked entry is set; the caller passes the
    /// weight and the number of the other entries.
    pub(super) fn fits(
        &self,
        item: &CacheEntryKey,
        size: usize,
        limit: usize,
        watermark: Option<usize>,
        rest: (u128, usize),
    ) -> bool
        requires there { IsSome (weight_of item.now (list_at self.now (shard_of N item.now))) }
        requires sum { rest.0 ≡ weight (others item.now (all self.now)) }
        requires sum_fits { rest.0 + 2 ^ 64 < 2 ^ 128 }
        requires count { rest.1 ≡ length (others item.now (all self.now)) }
        requires count_fits { rest.1 < 2 ^ 63 }
        ensures inside { result ≡ true
            → IsWithinAsList (limits_of ShardedLru limit watermark)
            (all (in_shard N item.now (reweighed item.now size) self.now)) }
        ensures outside { result ≡ false
            → ¬ IsWithinAsList (limits_of ShardedLru limit watermark)
            (all (in_shard N item.now (reweighed item.now size) self.now)) }
    {
        let _ = &self.lists; // for the prover: there are `N` lists, and `N` is not 0
        !exceeds(rest.0 + size as u128, rest.1 + 1, limit, watermark)
    }

    /// How many entries go at most when this one is put, or its weight is set if it is tracked, and
    /// the lists are then brought within the limits; the caller passes the weight and the number of
    /// the other entries.
    pub(super) fn room_for(
        &self,
        item: &CacheEntryKey,
        size: usize,
        limit: usize,
        watermark: Option<usize>,
        rest: (u128, usize),
    ) -> usize
        requires sum { rest.0 ≡ weight (others item.now (all self.now)) }
        requires sum_fits { rest.0 + 2 ^ 64 < 2 ^ 128 }
        requires count { rest.1 ≡ length (others item.now (all self.now)) }
        requires count_fits { rest.1 < 2 ^ 63 }
        ensures { RoomFor N (limits_of ShardedLru limit watermark) item.now size self.now result }
    {
        let _ = &self.lists; // for the prover: there are `N` lists, and `N` is not 0
        let place = self.place_of(item);
        let start = Walk {
            sum: rest.0 + size as u128,
            count: rest.1 + 1,
            room: 0,
        };
        if !exceeds(start.sum, start.count, limit, watermark) {
            return 0;
        }
        let behind = self.walk(item, place + 1, N, limit, watermark, start);
        if !exceeds(behind.sum, behind.count, limit, watermark) {
            return behind.room + 1;
        }
        let end = self.walk(item, 0, place + 1, limit, watermark, behind);
        end.room + 1
    }

    /// Walks over the lists from one place up to another.
    fn walk(
        &self,
        item: &CacheEntryKey,
        from: usize,
        to: usize,
        limit: usize,
        watermark: Option<usize>,
        start: Walk,
    ) -> Walk
        requires order { from ≤ to }
        requires within { to ≤ N }
        requires sum { weight (others item.now (span self.now from (to - from))) ≤ start.sum }
        requires count { length (others item.now (span self.now from (to - from))) ≤ start.count }
        requires fits { start.room + start.count ≤ 2 ^ 63 }
        ensures { Walks (limits_of ShardedLru limit watermark) item.now
            (span self.now from (to - from)) start result }
    {
        let mut walk = start;
        for place in from..to {
            if !exceeds(walk.sum, walk.count, limit, watermark) {
                return walk;
            }
            let list = self.list(place);
            walk = list.walk(item, limit, watermark, walk);
        }
        walk
    }

    /// Removes entries, each the last one of a list, until the limits hold, adds their keys to
    /// `out`, and returns the sum of their weights (the largest `usize` if it is larger). The lists
    /// lose their entries in turn: first the one after this place, last the one at it.
    pub(super) fn evict(
        &mut self,
        place: usize,
        limit: usize,
        watermark: Option<usize>,
        out: &mut Vec<CacheEntryKey>,
    ) -> usize
        requires within { place < N }
        requires none { out.old.items ≡ [] }
        requires room { IsEnough (limits_of ShardedLru limit watermark) (chain N place self.old)
            (vec_capacity out.old) }
        ensures runs { RunsOut (limits_of ShardedLru limit watermark) self.old out.new.items
            self.new }
        ensures gone { result ≡ min (weight (all self.old) - weight (all self.new)) (2 ^ 64 - 1) }
    {
        let before = self.weight();
        while exceeds(self.weight(), self.len(), limit, watermark) {
            let Some(key) = self.pop_first(place) else {
                unreachable!()
            };
            out.push_reserved(key);
        }
        usize::try_from(before - self.weight()).unwrap_or(usize::MAX)
    }

    /// Removes the last entry of the first list in turn that has one.
    fn pop_first(&mut self, place: usize) -> Option<CacheEntryKey>
        requires { place < N }
        ensures some { IfSome result (λ k. Pops N place self.old k self.new) }
        ensures none { IfNone result (all self.old ≡ []) }
    {
        let at = self.first_in_turn(place)?;
        let list = &mut self.lists[at];
        let Some((key, size)) = list.pop_last() else {
            unreachable!()
        };
        self.weight -= size as u128;
        self.items -= 1;
        Some(key)
    }

    /// The place of the first list in turn that has an entry.
    fn first_in_turn(&self, place: usize) -> Option<usize>
        requires { place < N }
        ensures some { IfSome result (λ at. IsFirst N place self.now at) }
        ensures none { IfNone result (all self.now ≡ []) }
    {
        let _ = &self.lists; // for the prover: there are `N` lists, and `N` is not 0
        // Keys are hashes, so evictions take from all lists alike. The list of the new entry comes
        // last, so that this entry is the last to go.
        let behind = self.first_of(place + 1, N);
        if behind.is_some() {
            return behind;
        }
        self.first_of(0, place + 1)
    }

    /// The first place in a range whose list has an entry.
    fn first_of(&self, from: usize, to: usize) -> Option<usize>
        requires { to ≤ N }
        ensures some { IfSome result (λ at. IsFirstFrom self.now from to at) }
        ensures none { IfNone result ((i : ℕ) → from ≤ i → i < to → list_at self.now i ≡ []) }
    {
        for place in from..to {
            if self.list(place).len() > 0 {
                return Some(place);
            }
        }
        None
    }
}
