//! Tables from 128-bit keys to values, alone (`Table`) and in shards: the shard of a key is the key modulo their number.
ghost use Rattle.std.specs.Prelude.{◌≡◌, None, IsSome, IfSome, ◌↔◌, ◌<◌, ◌%◌, IfErr, IfOk, OnErr, OnOk, option_copied};
ghost use Rattle.std.specs.FinMap as map;
ghost use Rattle.pcache_table.specs.Sharding.{Part, part_of};

pub mod concurrent;
pub mod hashed_table;
pub mod lru_lock;
pub mod lru_shard;
pub mod lru_shards;
pub mod shard;
pub mod shard_lock;
pub mod table;
pub mod write_guard;

pub use concurrent::{ConcurrentHashTable, ConcurrentLruCache};
pub use hashed_table::HashedTable;
pub use lru_lock::LruLock;
pub use lru_shard::LruShard;
pub use lru_shards::LruShards;
pub use shard::Shard;
pub use shard_lock::ShardLock;
use std::alloc::{AllocFailed, Global};
use std::marker::{Model, PhantomData};
pub use table::Table;
pub use write_guard::WriteGuard;

/// A table in `N` shards. A contract sees it as one map.
#[derive(Drop)]
pub struct Shards<V, const N: usize> {
    shards: [Shard<V, N>; N],
}

impl<V, const N: usize> Model for Shards<V, N> {
    ghost use Rattle.std.specs.Prelude.{◌<◌};
    ghost use Rattle.std.specs.Ordering.{nat_cmp};
    ghost use Rattle.std.specs.FinMap as map;
    ghost use Rattle.std.specs.Coded.{coded_ℕ};
    ghost use Rattle.pcache_table.specs.Sharding.{AllPlaced, one_map};

    ghost Value = { map.FinMap nat_cmp V };

    ghost coded = { map.code coded_ℕ V.code };

    ghost view = { λ a. one_map a.shards };

    ghost invariant = { λ a. (0 < N) × AllPlaced N a.shards };
}

impl<V, const N: usize> Shards<V, N> {
    /// `N` empty shards.
    pub fn new(alloc: Global) -> Shards<V, N>
        requires { 0 < N }
        ensures { result ≡ map.empty }
    {
        let like = PhantomData::<Shard<V, N>>;
        Shards {
            shards: std::array::from_fn(
                |place: usize| -> Shard<V, N>
                    requires { place < N }
                    ensures { result ≡ record { place = place; map = map.empty } }
                { Shard::at(alloc, place, like) },
            ),
        }
    }

    /// The shard of a key.
    pub fn get(&self, key: u128) -> &Shard<V, N>
        ensures place { result.now.place ≡ key % N }
        ensures part { result.now.map ≡ part_of N (key % N) self.now }
    {
        let shards = &self.shards;
        &shards[(key % N as u128) as usize]
    }

    /// The shard at a place; `None` if there is no such place.
    pub fn get_shard_at_idx(&self, place: usize) -> Option<&Shard<V, N>>
        ensures found { IsSome result ↔ (place < N) }
        ensures part { IfSome result (λ shard. shard.now.map ≡ part_of N place self.now) }
    {
        let shards = &self.shards;
        if place < N {
            Some(&shards[place])
        } else {
            None
        }
    }

    /// The value at a key.
    pub fn value(&self, key: u128) -> Option<&V>
        ensures { option_copied result ≡ map.get self.now key }
    {
        let shards = &self.shards;
        let shard = &shards[(key % N as u128) as usize];
        shard.get(key)
    }

    /// Sets the value at a key, and returns the old one.
    pub fn insert(&mut self, key: u128, value: V) -> Result<Option<V>, AllocFailed<(u128, V)>>
        ensures before { IfOk result (λ old. old ≡ map.get self.old key) }
        ensures ok { OnOk result (self.new ≡ map.insert self.old key value) }
        ensures err { OnErr result (self.new ≡ self.old) }
        ensures value_returned { IfErr result (λ y. y.value ≡ (key, value)) }
        ensures absent { OnErr result (map.get self.old key ≡ None) }
    {
        let _ = &self.shards; // for the prover: each of the `N` shards is at its place
        let place = (key % N as u128) as usize;
        let shard = &mut self.shards[place];
        shard.insert(key, value)
    }

    /// Removes a key, and returns its value.
    pub fn remove(&mut self, key: u128) -> Option<V>
        ensures before { result ≡ map.get self.old key }
        ensures removed { self.new ≡ map.remove self.old key }
    {
        let _ = &self.shards; // for the prover: each of the `N` shards is at its place
        let place = (key % N as u128) as usize;
        let shard = &mut self.shards[place];
        shard.remove(key)
    }
}
