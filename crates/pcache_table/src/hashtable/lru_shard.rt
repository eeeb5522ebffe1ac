//! One shard of a table that drops the least recently used keys.
ghost use Rattle.std.specs.Prelude.{◌≡◌, ◌↔◌, ◌<◌, ◌%◌, IfErr, IfOk, IsTrue, OnErr, OnOk, [], is_some, length, max, nat_eq, option_copied};
ghost use Rattle.std.specs.Map.{lookup};
ghost use Rattle.pcache_table.specs.Sharding.{part_with, part_without};

use lru::LruCache;
use pcache_base::seed::Seed;
use std::alloc::{AllocError, AllocFailed, Global};
use std::hash::BuildHasher;
use std::marker::{Model, PhantomData};
use std::num::NonZeroUsize;

/// One of `N` shards, which has only keys of its own, and at most as many as its capacity. A
/// contract sees its place, its capacity and its entries, the one used last first.
///
/// Only its table (`LruShards`) makes and changes it, or the guard that its lock lends.
#[derive(Drop)]
pub struct LruShard<V, const N: usize, H: BuildHasher = Seed> {
    place: usize,
    cache: LruCache<u128, V, H>,
}

impl<V, const N: usize, H: BuildHasher> Model for LruShard<V, N, H> {
    ghost use Rattle.std.specs.Prelude.{◌<◌};
    ghost use Rattle.pcache_table.specs.Sharding.{LruPart, OwnKeys, lru_part_code};

    ghost Value = { LruPart V };

    ghost coded = { lru_part_code V.code };

    ghost view = { λ s. record { place = s.place; cap = s.cache.cap; entries = s.cache.entries } };

    ghost invariant = { λ s. (s.place < N) × OwnKeys N s.place s.cache.entries };
}

impl<V: Drop, const N: usize, H: BuildHasher + Copy + Drop> LruShard<V, N, H> {
    // An empty shard at a place. A capacity of 0 counts as 1. Only this crate makes shards, so none
    // comes under the lock of another.
    //
    // Fails only when memory runs out.
    pub(crate) fn at(
        alloc: Global,
        seed: H,
        place: usize,
        capacity: usize,
    ) -> Result<LruShard<V, N, H>, AllocError>
        requires { place < N }
        ensures made { IfOk result (λ s.
            s ≡ record { place = place; cap = max capacity 1; entries = [] }) }
    {
        let capacity = capacity.max(1);
        let Some(capacity) = NonZeroUsize::new(capacity) else {
            unreachable!()
        };
        // No room is reserved for the capacity, which may be far more than the number of keys will
        // be.
        let mut cache = LruCache::unbounded_with_hasher(alloc, seed)?;
        cache.resize(capacity);
        Ok(LruShard { place, cache })
    }

    /// Its place among the shards.
    pub fn place(&self) -> usize
        ensures place { result ≡ self.now.place }
        ensures in_range { self.now.place < N }
    {
        self.place
    }

    /// How many keys it may have.
    pub fn capacity(&self) -> usize
        ensures { result ≡ self.now.cap }
    {
        self.cache.cap().get()
    }

    /// Whether a key is one of its own.
    pub fn belongs(&self, key: u128) -> bool
        ensures { IsTrue result ↔ (key % N ≡ self.now.place) }
    {
        let place = self.place;
        (key % N as u128) as usize == place
    }

    /// How many keys it has.
    pub fn len(&self) -> usize
        ensures { result ≡ length self.now.entries }
    {
        self.cache.len()
    }

    /// The value at a key. That does not count as a use.
    pub fn peek(&self, key: u128) -> Option<&V>
        ensures { option_copied result ≡ lookup (nat_eq key) self.now.entries }
    {
        self.cache.peek(&key)
    }

    /// Whether it has a key. That does not count as a use.
    pub fn contains(&self, key: u128) -> bool
        ensures { result ≡ is_some (lookup (nat_eq key) self.now.entries) }
    {
        self.cache.contains(&key)
    }

    // Sets the value at a key of its own and puts it in front; a full shard drops its last key.
    // Returns the old value.
    pub(crate) fn put(&mut self, key: u128, value: V) -> Result<Option<V>, AllocFailed<(u128, V)>>
        requires { key % N ≡ self.old.place }
        ensures before { IfOk result (λ old. old ≡ lookup (nat_eq key) self.old.entries) }
        ensures ok { OnOk result (self.new ≡ part_with key value self.old) }
        ensures err { OnErr result (self.new ≡ self.old) }
        ensures value_returned { IfErr result (λ y. y.value ≡ (key, value)) }
    {
        self.cache.put(key, value)
    }

    // Removes a key, and returns its value.
    pub(crate) fn pop(&mut self, key: u128) -> Option<V>
        ensures before { result ≡ lookup (nat_eq key) self.old.entries }
        ensures gone { self.new ≡ part_without key self.old }
    {
        self.cache.pop(&key)
    }
}
