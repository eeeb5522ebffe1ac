//! Entries with their weights in the order of their last use.
ghost use Rattle.std.specs.Prelude.{◌≡◌, ◌∷◌, ◌++◌, ◌+◌, ◌-◌, ◌<◌, ◌≤◌, ◌^◌, [], true, false, None, is_some, length, OnOk, OnErr, IfOk, IfSome, IfNone, IsSome, min, option_copied};
ghost use Rattle.std.specs.Vec.{vec_capacity};
ghost use Rattle.lru.specs.LruCache.{lru_cache, put_entries};
ghost use Rattle.pcache_evict.specs.declared.eviction.policy.EvictionPolicy.{EvictionPolicy};
ghost use Rattle.pcache_evict.specs.declared.eviction.policy.EvictionPolicy.TheVariants.{Lru};
ghost use Rattle.pcache_evict.specs.Entry.{entry_eq};
ghost use Rattle.pcache_evict.specs.Tracked.{limits_of, raised};
ghost use Rattle.pcache_evict.specs.Recency.{Recency, weight, weight_of, others, moved, incremented, loaded, loaded_all, IsWithinAsList, Evicts};
ghost use Rattle.pcache_evict.specs.Listed.{IsOnce, IsEnough};
ghost use Rattle.pcache_evict.specs.Shards.{reweighed, last_key};
ghost use Rattle.pcache_evict.specs.Chain.{IsWithinTotals, Walks};

use super::CacheEntryKey;
use lru::{Iter, LruCache};
use std::alloc::{AllocError, Global};
use std::hash::BuildHasher;
use std::marker::Model;

/// Entries with their weights, most recent first. A contract sees the list.
///
/// Each move takes one look-up. No entry occurs twice.
#[derive(Drop)]
pub(super) struct RecencyList<S: BuildHasher> {
    cache: Weights<S>,
    weight: u128,
    // Kept beside the table too, since a load works on a copy of the list.
    seed: S,
}

/// The weights of entries, found by a hash of the entry under a seed.
type Weights<S> = LruCache<CacheEntryKey, usize, S>;

impl<S: BuildHasher> Model for RecencyList<S> {
    ghost use Rattle.pcache_evict.specs.Recency.{Recency};
    ghost use Rattle.pcache_evict.specs.Listed.{IsKept};

    ghost Value = { Recency };

    ghost view = { λ a. a.cache.entries };

    ghost invariant = { λ a. IsKept a.cache a.weight };
}

impl<S: BuildHasher + Copy + Drop> RecencyList<S> {
    /// An empty list. No result depends on the seed.
    pub(super) fn new(alloc: Global, seed: S) -> Result<RecencyList<S>, AllocError>
        ensures ok { IfOk result (λ list. list ≡ []) }
    {
        Ok(RecencyList {
            cache: LruCache::unbounded_with_hasher(alloc, seed)?,
            weight: 0,
            seed,
        })
    }

    /// The number of entries.
    pub(super) fn len(&self) -> usize
        ensures value { result ≡ length self.now }
        ensures once { IsOnce self.now }
    {
        self.cache.len()
    }

    /// The sum of the entries' weights.
    pub(super) fn weight(&self) -> u128
        ensures value { result ≡ weight self.now }
        ensures once { IsOnce self.now }
    {
        self.weight
    }

    /// The weight of an entry; `None` if the list does not have it.
    pub(super) fn weight_of(&self, item: &CacheEntryKey) -> Option<usize>
        ensures value { result ≡ weight_of item.now self.now }
        ensures once { IsOnce self.now }
    {
        self.cache.peek(item).copied()
    }

    /// Sets the weight of an entry and moves it to the front.
    pub(super) fn put(&mut self, item: CacheEntryKey, size: usize) -> Result<(), AllocError>
        ensures ok { OnOk result (self.new ≡ moved item size self.old) }
        ensures once { IsOnce self.new }
        ensures err { OnErr result (self.new ≡ self.old) }
    {
        let before = self.cache.put(item, size)?.unwrap_or(0);
        self.cache.len(); // for the prover: the list is valid, so no entry occurs twice
        self.weight = self.weight - before as u128 + size as u128;
        Ok(())
    }

    /// Raises the weight of an entry and moves it to the front, which takes no memory. Returns
    /// whether the list has the entry.
    pub(super) fn raise(
        &mut self,
        item: &CacheEntryKey,
        delta: usize,
        max_weight: Option<usize>,
    ) -> bool
        ensures was { result ≡ is_some (weight_of item.now self.old) }
        ensures there { result ≡ true → self.new ≡ incremented item.now delta max_weight self.old }
        ensures missing { result ≡ false → self.new ≡ self.old }
        ensures once { IsOnce self.new }
    {
        let raised = raise_in(&mut self.cache, item, delta, max_weight);
        self.cache.len(); // for the prover: the list is valid, so no entry occurs twice
        let Some((before, after)) = raised else {
            return false;
        };
        self.weight = self.weight - before as u128 + after as u128;
        true
    }

    /// Sets the weight of an entry of the list and moves it to the front, which takes no memory;
    /// `rest` is the sum of the other entries' weights.
    pub(super) fn reweigh(&mut self, item: &CacheEntryKey, size: usize, rest: u128)
        requires there { IsSome (weight_of item.now self.old) }
        requires sum { rest ≡ weight (others item.now self.old) }
        requires fits { rest + 2 ^ 64 < 2 ^ 128 }
        ensures list { self.new ≡ moved item.now size self.old }
        ensures once { IsOnce self.new }
    {
        set_weight(&mut self.cache, item, size);
        self.cache.len(); // for the prover: the list is valid, so no entry occurs twice
        self.weight = rest + size as u128;
    }

    /// Sets the weight of an entry of the list, which keeps its position and takes no memory;
    /// `rest` is the sum of the other entries' weights.
    pub(super) fn reweigh_in_place(&mut self, item: &CacheEntryKey, size: usize, rest: u128)
        requires there { IsSome (weight_of item.now self.old) }
        requires sum { rest ≡ weight (others item.now self.old) }
        requires fits { rest + 2 ^ 64 < 2 ^ 128 }
        ensures list { self.new ≡ reweighed item.now size self.old }
    {
        write_weight(&mut self.cache, item, size);
        self.cache.len(); // for the prover: the list is valid, so no entry occurs twice
        self.weight = rest + size as u128;
    }

    /// The key of the last entry.
    pub(super) fn last(&self) -> Option<&CacheEntryKey>
        ensures { option_copied result ≡ last_key self.now }
    {
        match self.cache.peek_lru() {
            Some((key, _weight)) => Some(key),
            None => None,
        }
    }

    /// Moves an entry to the front, if the list has it. Returns whether it does.
    pub(super) fn promote(&mut self, item: &CacheEntryKey) -> bool
        ensures was { result ≡ is_some (weight_of item.now self.old) }
        ensures there { IfSome (weight_of item.now self.old) (λ w. self.new
            ≡ moved item.now w self.old) }
        ensures missing { result ≡ false → self.new ≡ self.old }
    {
        let was = self.cache.promote(item);
        self.cache.len(); // for the prover: the list is valid, so no entry occurs twice
        was
    }

    /// Removes an entry.
    pub(super) fn remove(&mut self, item: &CacheEntryKey)
        ensures { self.new ≡ others item.now self.old }
    {
        let gone = self.cache.pop(item).unwrap_or(0);
        self.weight -= gone as u128;
    }

    /// Removes the last entry, and returns it with its weight.
    pub(super) fn pop_last(&mut self) -> Option<(CacheEntryKey, usize)>
        ensures last { IfSome result (λ entry. self.old ≡ self.new ++ entry ∷ []) }
        ensures empty { IfNone result (self.old ≡ []) }
    {
        let (key, size) = self.cache.pop_lru()?;
        self.weight -= size as u128;
        Some((key, size))
    }

    /// Adds a new entry at the back.
    pub(super) fn push_last(&mut self, item: CacheEntryKey, size: usize) -> Result<(), AllocError>
        requires { weight_of item self.old ≡ None }
        ensures ok { OnOk result (self.new ≡ self.old ++ (item, size) ∷ []) }
        ensures err { OnErr result (self.new ≡ self.old) }
    {
        let copy = item.copied()?;
        self.put(item, size)?;
        self.cache.demote(&copy);
        self.cache.len(); // for the prover: the list is valid, so no entry occurs twice
        Ok(())
    }

    /// Adds an entry that was read from a file: a new one at the back; one that the list has moves
    /// to the front, with the new weight.
    pub(super) fn load(&mut self, item: CacheEntryKey, size: usize) -> Result<(), AllocError>
        ensures ok { OnOk result (self.new ≡ loaded item size self.old) }
        ensures err { OnErr result (self.new ≡ self.old) }
    {
        if self.weight_of(&item).is_some() {
            return self.put(item, size);
        }
        self.push_last(item, size)
    }

    /// Adds entries that were read from a file, one after the other. A failed call leaves some of
    /// them added.
    pub(super) fn load_all(
        &mut self,
        entries: Vec<(CacheEntryKey, usize)>,
    ) -> Result<(), AllocError>
        ensures ok { OnOk result (self.new ≡ loaded_all entries.items self.old) }
    {
        for (item, size) in entries {
            self.load(item, size)?;
        }
        Ok(())
    }

    /// A copy of this list.
    pub(super) fn copied(&self, alloc: Global) -> Result<RecencyList<S>, AllocError>
        ensures ok { IfOk result (λ copy. copy ≡ self.now) }
    {
        let mut copy = RecencyList::new(alloc, self.seed)?;
        let mut left = self.iter();
        while let Some((key, size)) = left.next_back() {
            copy.put(key.copied()?, *size)?;
        }
        Ok(copy)
    }

    /// The entries with their weights, most recent first, which takes no memory.
    pub(super) fn iter(&self) -> Iter<'_, CacheEntryKey, usize>
        ensures rest { result ≡ self.now }
        ensures once { IsOnce self.now }
    {
        self.cache.len(); // for the prover: the list is valid, so no entry occurs twice
        self.cache.iter()
    }

    /// The entries with their weights, most recent first.
    pub(super) fn entries(&self, alloc: Global) -> Result<Vec<(CacheEntryKey, usize)>, AllocError>
        ensures ok { IfOk result (λ all. all.items ≡ self.now) }
        ensures once { IsOnce self.now }
    {
        let mut all = Vec::with_capacity(alloc, self.cache.len())?;
        self.copy_into(&mut all)?;
        Ok(all)
    }

    /// Adds copies of the entries with their weights, most recent first.
    pub(super) fn copy_into(&self, all: &mut Vec<(CacheEntryKey, usize)>) -> Result<(), AllocError>
        ensures ok { OnOk result (all.new.items ≡ all.old.items ++ self.now) }
    {
        for (key, size) in self.cache.iter() {
            push_copy(all, key, *size)?;
        }
        Ok(())
    }

    /// Whether the limits hold for every list whose weight and number of entries are larger by at
    /// most so much.
    pub(super) fn allows(
        &self,
        size: usize,
        count: usize,
        limit: usize,
        watermark: Option<usize>,
    ) -> bool
        requires { count < 2 ^ 63 }
        ensures once { IsOnce self.now }
        ensures inside { result ≡ true
            → (l : Recency)
            → weight l ≤ weight self.now + size
            → length l ≤ length self.now + count
            → IsWithinAsList (limits_of Lru limit watermark) l }
    {
        !exceeds(
            self.weight + size as u128,
            self.cache.len() + count,
            limit,
            watermark,
        )
    }

    /// Whether the limits hold once this entry is put; `rest` is the weight and the number of the
    /// other entries.
    pub(super) fn fits(
        &self,
        item: &CacheEntryKey,
        size: usize,
        limit: usize,
        watermark: Option<usize>,
        rest: (u128, usize),
    ) -> bool
        requires sum { rest.0 ≡ weight (others item.now self.now) }
        requires sum_fits { rest.0 + 2 ^ 64 < 2 ^ 128 }
        requires count { rest.1 ≡ length (others item.now self.now) }
        requires count_fits { rest.1 < 2 ^ 63 }
        ensures inside { result ≡ true
            → IsWithinAsList (limits_of Lru limit watermark) (moved item.now size self.now) }
        ensures outside { result ≡ false
            → ¬ IsWithinAsList (limits_of Lru limit watermark) (moved item.now size self.now) }
    {
        !exceeds(rest.0 + size as u128, rest.1 + 1, limit, watermark)
    }

    /// How many entries go at most when this one is put and the list is then brought within the
    /// limits.
    pub(super) fn room_for(
        &self,
        item: &CacheEntryKey,
        size: usize,
        limit: usize,
        watermark: Option<usize>,
        rest: (u128, usize),
    ) -> usize
        requires sum { rest.0 ≡ weight (others item.now self.now) }
        requires sum_fits { rest.0 + 2 ^ 64 < 2 ^ 128 }
        requires count { rest.1 ≡ length (others item.now self.now) }
        requires count_fits { rest.1 < 2 ^ 63 }
        ensures { IsEnough (limits_of Lru limit watermark) (moved item.now size self.now) result }
    {
        let mut sum = rest.0 + size as u128;
        let mut count = rest.1 + 1;
        let mut left = self.cache.iter();
        let mut room = 0;
        while exceeds(sum, count, limit, watermark) {
            let Some((key, gone)) = left.next_back() else {
                return room + 1;
            };
            let same = *item == *key;
            if !same {
                sum -= *gone as u128;
                count -= 1;
                room += 1;
            }
        }
        room
    }

    /// How many entries go at most when this one is put and the list is then brought within the
    /// limits, without looking up whether the list has it; if it does, the number may be too large.
    pub(super) fn room_at_most(
        &self,
        item: &CacheEntryKey,
        size: usize,
        limit: usize,
        watermark: Option<usize>,
    ) -> usize
        ensures { IsEnough (limits_of Lru limit watermark) (moved item.now size self.now) result }
    {
        let start = Walk {
            sum: self.weight + size as u128,
            count: self.cache.len() + 1,
            room: 0,
        };
        self.walk(item, limit, watermark, start).room + 1
    }

    /// Walks over the list from its end while the limits do not hold for what it did not pass. One
    /// entry is neither passed nor counted.
    pub(super) fn walk(
        &self,
        item: &CacheEntryKey,
        limit: usize,
        watermark: Option<usize>,
        start: Walk,
    ) -> Walk
        requires sum { weight (others item.now self.now) ≤ start.sum }
        requires count { length (others item.now self.now) ≤ start.count }
        requires fits { start.room + start.count ≤ 2 ^ 63 }
        ensures { (policy : EvictionPolicy)
            → Walks (limits_of policy limit watermark) item.now self.now start result }
    {
        let mut sum = start.sum;
        let mut count = start.count;
        let mut room = start.room;
        let mut left = self.cache.iter();
        while exceeds(sum, count, limit, watermark) {
            let Some((key, gone)) = left.next_back() else {
                return Walk { sum, count, room };
            };
            let same = *item == *key;
            if !same {
                sum -= *gone as u128;
                count -= 1;
                room += 1;
            }
        }
        Walk { sum, count, room }
    }

    /// Removes the last entries until the limits hold, adds their keys to `out`, and returns the
    /// sum of their weights (the largest `usize` if it is larger).
    pub(super) fn evict(
        &mut self,
        limit: usize,
        watermark: Option<usize>,
        out: &mut Vec<CacheEntryKey>,
    ) -> usize
        requires none { out.old.items ≡ [] }
        requires room { IsEnough (limits_of Lru limit watermark) self.old (vec_capacity out.old) }
        ensures evicts { Evicts (limits_of Lru limit watermark) self.old self.new out.new.items }
        ensures gone { result ≡ min (weight self.old - weight self.new) (2 ^ 64 - 1) }
    {
        // By exact sums: only the totals of what was evicted stop at the largest number.
        let before = self.weight();
        while exceeds(self.weight(), self.len(), limit, watermark) {
            let Some((key, _)) = self.pop_last() else {
                unreachable!()
            };
            out.push_reserved(key);
        }
        usize::try_from(before - self.weight()).unwrap_or(usize::MAX)
    }

    /// The weight and the number of the other entries.
    pub(super) fn others(&self, item: &CacheEntryKey) -> (u128, usize)
        ensures sum { result.0 ≡ weight (others item.now self.now) }
        ensures sum_fits { result.0 + 2 ^ 64 < 2 ^ 128 }
        ensures count { result.1 ≡ length (others item.now self.now) }
        ensures count_fits { result.1 < 2 ^ 63 }
    {
        match self.weight_of(item) {
            Some(size) => (self.weight - size as u128, self.cache.len() - 1),
            None => (self.weight, self.cache.len()),
        }
    }
}

/// The state of a walk that counts the entries that will go.
#[derive(Clone, Copy, Debug)]
pub(super) struct Walk {
    /// The weight of the entries that it has not passed.
    pub(super) sum: u128,
    /// How many entries it has not passed.
    pub(super) count: usize,
    /// How many entries it has passed, for which room is reserved.
    pub(super) room: usize,
}

/// Sets the weight of an entry of the list, and moves it to the front.
fn set_weight<S: BuildHasher>(cache: &mut Weights<S>, item: &CacheEntryKey, size: usize)
    requires { IsSome (weight_of item.now cache.old.entries) }
    ensures { cache.new ≡ lru_cache (put_entries entry_eq cache.old item.now size) cache.old.cap }
{
    let Some(weight) = cache.get_mut(item) else {
        unreachable!()
    };
    *weight = size;
}

/// Raises the weight of an entry, and moves it to the front. Returns its weight before and after, if the list has
/// it. This is a function over the cache alone, since the weight is changed through a borrow of it: so one lemma
/// suffices.
fn raise_in<S: BuildHasher>(
    cache: &mut Weights<S>,
    item: &CacheEntryKey,
    delta: usize,
    max_weight: Option<usize>,
) -> Option<(usize, usize)>
    ensures there { IfSome result (λ p. (weight_of item.now cache.old.entries ≡ Some p.0)
        × (p.1 ≡ raised delta max_weight (Some p.0))
        × (cache.new ≡ lru_cache (put_entries entry_eq cache.old item.now p.1) cache.old.cap)) }
    ensures fits { IfSome result (λ p. p.1 < 2 ^ 64) }
    ensures missing { IfNone result ((weight_of item.now cache.old.entries ≡ None)
        × (cache.new.entries ≡ cache.old.entries)
        × (cache.new.cap ≡ cache.old.cap)) }
{
    let Some(weight) = cache.get_mut(item) else {
        return None;
    };
    let before = *weight;
    let after = raised_weight(Some(before), delta, max_weight);
    *weight = after;
    Some((before, after))
}

/// Adds a copy of an entry.
fn push_copy(
    all: &mut Vec<(CacheEntryKey, usize)>,
    key: &CacheEntryKey,
    size: usize,
) -> Result<(), AllocError>
    ensures ok { OnOk result (all.new.items ≡ all.old.items ++ (key.now, size) ∷ []) }
{
    all.push((key.copied()?, size))?;
    Ok(())
}

/// Sets the weight of an entry of the list in place.
fn write_weight<S: BuildHasher>(cache: &mut Weights<S>, item: &CacheEntryKey, size: usize)
    requires { IsSome (weight_of item.now cache.old.entries) }
    ensures { cache.new ≡ lru_cache (reweighed item.now size cache.old.entries) cache.old.cap }
{
    let Some(weight) = cache.peek_mut(item) else {
        unreachable!()
    };
    *weight = size;
}

/// Whether a weight or a number of entries is above the limits, whatever the policy is.
pub(super) fn exceeds(sum: u128, count: usize, limit: usize, watermark: Option<usize>) -> bool
    ensures over { (policy : EvictionPolicy) → result ≡ true
        → (l : Recency) → sum ≡ weight l → count ≡ length l
        → ¬ IsWithinAsList (limits_of policy limit watermark) l }
    ensures within { (policy : EvictionPolicy) → result ≡ false
        → (l : Recency) → sum ≡ weight l → count ≡ length l
        → IsWithinAsList (limits_of policy limit watermark) l }
    ensures above { (policy : EvictionPolicy) → result ≡ true
        → ¬ IsWithinTotals (limits_of policy limit watermark) sum count }
    ensures small { (policy : EvictionPolicy) → result ≡ false
        → IsWithinTotals (limits_of policy limit watermark) sum count }
{
    if let Some(most) = watermark {
        if count > most {
            return true;
        }
    }
    sum > limit as u128
}

/// The weight after an increment.
pub(super) fn raised_weight(
    present: Option<usize>,
    delta: usize,
    max_weight: Option<usize>,
) -> usize
    ensures { result ≡ raised delta max_weight present }
{
    let most = max_weight.unwrap_or(usize::MAX);
    match present {
        Some(size) => size.saturating_add(delta).min(most).max(size),
        None => delta.min(most).max(1),
    }
}
