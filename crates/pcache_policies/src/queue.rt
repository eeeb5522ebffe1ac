//! Entries in the order in which they came in.
ghost use Rattle.std.specs.Prelude.{◌≡◌, ◌↔◌, IsTrue, ◌∷◌, ◌++◌, ◌*◌, ◌≤◌, ◌<◌, ◌^◌, ◌-◌, [], true, false, None, Some, is_some, length, take, IsSome, OnOk, OnErr, IfOk, IfSome, IfNone};
ghost use Rattle.std.specs.Map.{set_value};
ghost use Rattle.lru.specs.LruCache.{last_entry, lru_cache};
ghost use Rattle.pcache_evict.specs.Entry.{entry_eq};
ghost use Rattle.pcache_evict.specs.Recency.{weight};
ghost use Rattle.pcache_policies.specs.Queue.{Queue, IsOnce, plain, seen_of, rest_of, reseen, unused, used, reused};

use lru::LruCache;
use pcache_evict::eviction::CacheEntryKey;
use std::alloc::{AllocError, Global};
use std::hash::BuildHasher;
use std::marker::Model;

/// The most uses that are counted: what two bits hold.
pub(crate) const MOST_USES: u8 = 3;

/// What a policy knows of an entry.
#[derive(Clone, Copy, Debug)]
pub struct Seen {
    /// What the entry weighs.
    pub weight: usize,
    /// How often it was used, as far as the policy counts.
    pub uses: u8,
}

impl Seen {
    /// The record of an entry that was not used yet.
    pub(crate) fn unused(weight: usize) -> Seen
        ensures { result ≡ unused weight }
    {
        Seen { weight, uses: 0 }
    }

    /// The record of an entry after one more use, with this weight.
    pub(crate) fn used_again(&self, weight: usize) -> Seen
        ensures { result ≡ record (reused self.now) { weight = weight } }
    {
        Seen {
            weight,
            uses: self.uses.saturating_add(1).min(MOST_USES),
        }
    }

    /// The record of an entry that was used once.
    pub(crate) fn used(weight: usize) -> Seen
        ensures { result ≡ used weight }
    {
        Seen { weight, uses: 1 }
    }
}

/// Entries, the newest first, with the sum of their weights. No entry occurs twice.
///
/// A contract sees the list. Each call takes at most one look-up.
#[derive(Drop)]
pub struct Queue<S: BuildHasher> {
    cache: LruCache<CacheEntryKey, Seen, S>,
    weight: u128,
}

impl<S: BuildHasher> Model for Queue<S> {
    ghost use Rattle.pcache_policies.specs.Queue.{Queue, IsKept};

    ghost Value = { Queue };

    ghost view = { λ q. q.cache.entries };

    ghost invariant = { λ q. IsKept q.cache q.weight };
}

impl<S: BuildHasher + Copy + Drop> Queue<S> {
    /// An empty queue. No result depends on the seed.
    pub(crate) fn new(alloc: Global, seed: S) -> Result<Queue<S>, AllocError>
        ensures ok { IfOk result (λ queue. queue ≡ []) }
    {
        Ok(Queue {
            cache: LruCache::unbounded_with_hasher(alloc, seed)?,
            weight: 0,
        })
    }

    /// The number of entries.
    pub(crate) fn len(&self) -> usize
        ensures value { result ≡ length self.now }
        ensures once { IsOnce self.now }
    {
        self.cache.len()
    }

    // Whether there are no entries. Of these a look-up need not hash the key.
    fn is_empty(&self) -> bool
        ensures { IsTrue result ↔ (self.now ≡ []) }
    {
        self.cache.is_empty()
    }

    /// The sum of the entries' weights.
    pub(crate) fn weight(&self) -> u128
        ensures value { result ≡ weight (plain self.now) }
        ensures bound { result ≤ length self.now * (2 ^ 64 - 1) }
    {
        self.weight
    }

    /// What is known of an entry; `None` if the queue does not have it.
    pub(crate) fn get(&self, item: &CacheEntryKey) -> Option<Seen>
        ensures value { result ≡ seen_of item.now self.now }
        ensures fits { IfSome result (λ seen. seen.weight ≤ 2 ^ 64 - 1) }
    {
        if self.is_empty() {
            return None;
        }
        self.cache.peek(item).copied()
    }

    /// Sets what is known of an entry in place, and returns whether the queue has it.
    pub(crate) fn set(&mut self, item: &CacheEntryKey, seen: Seen) -> bool
        ensures was { result ≡ is_some (seen_of item.now self.old) }
        ensures value { self.new ≡ reseen item.now seen self.old }
    {
        if self.is_empty() {
            return false;
        }
        let weight = seen.weight;
        let Some(before) = write_seen(&mut self.cache, item, seen) else {
            return false;
        };
        self.weight = self.weight - before as u128 + weight as u128;
        true
    }

    /// Adds a new entry as the newest.
    pub(crate) fn push(&mut self, item: CacheEntryKey, seen: Seen) -> Result<(), AllocError>
        requires { seen_of item self.old ≡ None }
        ensures ok { OnOk result (self.new ≡ (item, seen) ∷ self.old) }
        ensures err { OnErr result (self.new ≡ self.old) }
    {
        let weight = seen.weight;
        self.cache.put(item, seen)?;
        self.cache.len(); // for the prover: its contract says that the list is valid
        self.weight += weight as u128;
        Ok(())
    }

    /// A copy of the oldest entry.
    pub(crate) fn oldest(&self) -> Result<Option<(CacheEntryKey, Seen)>, AllocError>
        ensures ok { IfOk result (λ entry. entry ≡ last_entry self.now) }
    {
        match self.cache.peek_lru() {
            Some((key, seen)) => Ok(Some((key.copied()?, *seen))),
            None => Ok(None),
        }
    }

    /// Removes the oldest entry, and returns it.
    pub(crate) fn pop(&mut self) -> Option<(CacheEntryKey, Seen)>
        ensures value { result ≡ last_entry self.old }
        ensures last { IfSome result (λ entry. self.old ≡ self.new ++ entry ∷ []) }
        ensures empty { IfNone result ((self.old ≡ []) × (self.new ≡ [])) }
    {
        let (key, seen) = self.cache.pop_lru()?;
        self.weight -= seen.weight as u128;
        Some((key, seen))
    }

    /// Removes the oldest entry, if there is one.
    pub(crate) fn drop_oldest(&mut self)
        ensures { IfSome (last_entry self.old) (λ entry. self.old ≡ self.new ++ entry ∷ []) }
    {
        self.pop();
    }

    /// Sets what is known of an entry of the queue, and moves it to the front.
    pub(crate) fn requeue(&mut self, item: &CacheEntryKey, seen: Seen)
        requires { IsSome (seen_of item.now self.old) }
        ensures { self.new ≡ (item.now, seen) ∷ rest_of item.now self.old }
    {
        self.set(item, seen);
        self.promote(item);
    }

    // Moves an entry of the queue to the front.
    fn promote(&mut self, item: &CacheEntryKey)
        ensures { (v : Seen)
            → seen_of item.now self.old ≡ Some v
            → self.new ≡ (item.now, v) ∷ rest_of item.now self.old }
    {
        self.cache.promote(item);
        self.cache.len(); // for the prover: its contract says that the list is valid
    }

    /// Keeps the `most` newest entries, and drops the others.
    pub(crate) fn keep(&mut self, most: usize)
        ensures { self.new ≡ take most self.old }
    {
        while self.len() > most {
            self.drop_oldest();
        }
    }

    /// Removes an entry, and returns whether the queue had it.
    pub(crate) fn remove(&mut self, item: &CacheEntryKey) -> bool
        ensures was { result ≡ is_some (seen_of item.now self.old) }
        ensures value { self.new ≡ rest_of item.now self.old }
    {
        if self.is_empty() {
            return false;
        }
        let Some(gone) = self.cache.pop(item) else {
            return false;
        };
        self.weight -= gone.weight as u128;
        true
    }

    /// Adds copies of the entries with their weights, the newest first.
    pub(crate) fn copy_into(&self, all: &mut Vec<(CacheEntryKey, usize)>) -> Result<(), AllocError>
        ensures ok { OnOk result (all.new.items ≡ all.old.items ++ plain self.now) }
    {
        for (key, seen) in self.cache.iter() {
            push_copy(all, key, seen.weight)?;
        }
        Ok(())
    }
}

/// Adds a copy of an entry.
fn push_copy(
    all: &mut Vec<(CacheEntryKey, usize)>,
    key: &CacheEntryKey,
    size: usize,
) -> Result<(), AllocError>
    ensures ok { OnOk result (all.new.items ≡ all.old.items ++ (key.now, size) ∷ []) }
{
    all.push((key.copied()?, size))?;
    Ok(())
}

/// Sets what is known of an entry in place. Returns what it weighed before, if the list has it.
fn write_seen<S: BuildHasher>(
    cache: &mut LruCache<CacheEntryKey, Seen, S>,
    item: &CacheEntryKey,
    seen: Seen,
) -> Option<usize>
    ensures there { IfSome result (λ before. (v : Seen)
        × (seen_of item.now cache.old.entries ≡ Some v)
        × (before ≡ v.weight)
        × (cache.new
        ≡ lru_cache (set_value (entry_eq item.now) cache.old.entries seen) cache.old.cap)) }
    ensures missing { IfNone result ((seen_of item.now cache.old.entries ≡ None)
        × (cache.new.entries ≡ cache.old.entries)
        × (cache.new.cap ≡ cache.old.cap)) }
{
    let Some(place) = cache.peek_mut(item) else {
        return None;
    };
    let before = place.weight;
    *place = seen;
    Some(before)
}
