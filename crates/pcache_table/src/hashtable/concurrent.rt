//! Tables in shards, each behind a lock of its own.
ghost use Rattle.std.specs.Prelude.{◌≡◌, ◌↔◌, ◌<◌, ◌%◌, IfOk, IfSome, IsSome, max};
ghost use Rattle.std.specs.List.{range_with_len};
ghost use Rattle.std.specs.Sync.RwLock.{read_guard_value};
ghost use Rattle.pcache_table.specs.Sharding.{Visits, VisitsEach};

use crate::hashtable::lru_lock::LruLock;
use crate::hashtable::lru_shard::LruShard;
use crate::hashtable::shard::Shard;
use crate::hashtable::shard_lock::ShardLock;
use crate::hashtable::write_guard::WriteGuard;
use pcache_base::seed::Seed;
use std::alloc::{AllocError, Global};
use std::marker::{Model, PhantomData};
use std::sync::{RwLockReadGuard, Wait};

/// A table in `N` shards, which threads read and write side by side. A contract sees the places of
/// its locks; the type of a shard guarantees that all keys in it are its own.
#[derive(Drop)]
pub struct ConcurrentHashTable<V, const N: usize> {
    tables: [ShardLock<V, N>; N],
}

impl<V, const N: usize> Model for ConcurrentHashTable<V, N> {
    ghost use Rattle.std.specs.Prelude.{List, ℕ, ◌<◌, ◌≡◌};
    ghost use Rattle.std.specs.List.{range_with_len};

    ghost Value = { List ℕ };

    ghost view = { λ t. t.tables };

    ghost invariant = { λ t. (0 < N) × (t.tables ≡ range_with_len 0 N) };
}

impl<V, const N: usize> ConcurrentHashTable<V, N> {
    /// `N` empty shards, each at its place.
    pub fn new(alloc: Global) -> ConcurrentHashTable<V, N>
        requires { 0 < N }
        ensures { result ≡ range_with_len 0 N }
    {
        let like = PhantomData::<Shard<V, N>>;
        ConcurrentHashTable {
            tables: std::array::from_fn(
                |place: usize| -> ShardLock<V, N>
                    requires { place < N }
                    ensures { result ≡ place }
                { ShardLock::at(alloc, place, like) },
            ),
        }
    }

    /// The lock of a key's shard.
    pub fn get(&self, key: u128) -> &ShardLock<V, N>
        ensures { result.now ≡ key % N }
    {
        let tables = &self.tables;
        &tables[(key % N as u128) as usize]
    }

    /// The lock of the shard at a place, if there is one.
    pub fn get_shard_at_idx(&self, place: usize) -> Option<&ShardLock<V, N>>
        ensures found { IsSome result ↔ (place < N) }
        ensures place { IfSome result (λ lock. lock.now ≡ place) }
    {
        let tables = &self.tables;
        if place < N {
            Some(&tables[place])
        } else {
            None
        }
    }

    /// The shard of a key, for reading. It waits while another thread writes it.
    pub fn read<R: Wait>(&self, rt: &R, key: u128) -> RwLockReadGuard<'_, Shard<V, N>>
        ensures { (read_guard_value result).place ≡ key % N }
    {
        self.get(key).read(rt)
    }

    /// The shard of a key, for writing. It waits while another thread reads or writes it.
    pub fn write<R: Wait>(&self, rt: &R, key: u128) -> WriteGuard<'_, Shard<V, N>>
        ensures { result.place ≡ key % N }
    {
        self.get(key).write(rt)
    }

    /// Calls `f` with each key and its value: shard by shard in the order of their places, and in a
    /// shard in the order of its keys. It may wait for each shard.
    pub fn for_each<R: Wait, F: FnMut(&u128, &V) + Drop>(&self, rt: &R, mut f: F)
        requires { F.IsAlwaysCallable f }
        ensures { VisitsEach F.FnMut N f }
    {
        let tables = &self.tables;
        for place in 0..N {
            // Each lock once, by the form of this loop: no clause can name the maps that are under
            // the locks.
            let shard = tables[place].read(rt);
            f = visit(&shard, f);
        }
    }
}

/// Calls `f` with each entry of a shard, and returns `f`.
fn visit<V, const N: usize, F: FnMut(&u128, &V)>(shard: &Shard<V, N>, mut f: F) -> F
    requires { F.IsAlwaysCallable f }
    ensures called { Visits F.FnMut N f shard.now result }
    ensures callable { F.IsAlwaysCallable result }
{
    for (key, value) in shard.iter() {
        f(key, value);
    }
    f
}

/// A table in `N` shards that drop the least recently used keys, which threads read and write side
/// by side. A contract sees how many keys each shard may have.
#[derive(Drop)]
pub struct ConcurrentLruCache<V, const N: usize> {
    capacity: usize,
    lrus: Vec<LruLock<V, N>>,
}

impl<V, const N: usize> Model for ConcurrentLruCache<V, N> {
    ghost use Rattle.std.specs.Prelude.{ℕ, ◌<◌, ◌≡◌};
    ghost use Rattle.pcache_table.specs.Sharding.{seats};

    ghost Value = { ℕ };

    ghost view = { λ t. t.capacity };

    ghost invariant = { λ t. (0 < N) × (t.lrus.items ≡ seats N t.capacity) };
}

impl<V: Drop, const N: usize> ConcurrentLruCache<V, N> {
    /// `N` empty shards, each at its place and for as many keys as the capacity. A capacity of 0
    /// counts as 1. No result depends on the seed.
    ///
    /// Fails only when memory runs out.
    pub fn new(
        alloc: Global,
        seed: Seed,
        shard_capacity: usize,
    ) -> Result<ConcurrentLruCache<V, N>, AllocError>
        requires { 0 < N }
        ensures made { IfOk result (λ t. t ≡ max shard_capacity 1) }
    {
        let capacity = shard_capacity.max(1);
        let mut lrus = Vec::new(alloc);
        for place in 0..N {
            lrus.push(LruLock::at(alloc, seed, place, shard_capacity)?)?;
        }
        Ok(ConcurrentLruCache { capacity, lrus })
    }

    /// The lock of a key's shard.
    pub fn get(&self, key: u128) -> &LruLock<V, N>
        ensures { result.now ≡ record { place = key % N; cap = self.now } }
    {
        let lrus = &self.lrus;
        &lrus[(key % N as u128) as usize]
    }

    /// The shard of a key, for reading. It waits while another thread writes it.
    pub fn read<R: Wait>(&self, rt: &R, key: u128) -> RwLockReadGuard<'_, LruShard<V, N>>
        ensures place { (read_guard_value result).place ≡ key % N }
        ensures capacity { (read_guard_value result).cap ≡ self.now }
    {
        let lock = self.get(key);
        lock.read(rt)
    }

    /// The shard of a key, for writing. It waits while another thread reads or writes it.
    pub fn write<R: Wait>(&self, rt: &R, key: u128) -> WriteGuard<'_, LruShard<V, N>>
        ensures place { result.place ≡ key % N }
        ensures capacity { result.cap ≡ self.now }
    {
        let lock = self.get(key);
        lock.write(rt)
    }
}
