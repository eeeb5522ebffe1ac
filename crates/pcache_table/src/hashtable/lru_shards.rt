//! Tables in shards that drop the least recently used keys.
ghost use Rattle.std.specs.Prelude.{◌≡◌, ◌<◌, ◌%◌, IfErr, IfOk, OnErr, OnOk, max, nat_eq, option_copied, slice_set};
ghost use Rattle.std.specs.Map.{lookup};
ghost use Rattle.pcache_table.specs.Sharding.{new_lists, list_at, part_with, part_without};

use crate::hashtable::lru_shard::LruShard;
use pcache_base::seed::Seed;
use std::alloc::{AllocError, AllocFailed, Global};
use std::marker::Model;

/// `N` shards, each of which drops its least recently used keys. A contract sees the list of them.
#[derive(Drop)]
pub struct LruShards<V, const N: usize> {
    shards: Vec<LruShard<V, N>>,
}

impl<V, const N: usize> Model for LruShards<V, N> {
    ghost use Rattle.std.specs.Prelude.{List, ◌<◌, ◌≡◌, length};
    ghost use Rattle.pcache_table.specs.Sharding.{AllInPlace, LruPart};

    ghost Value = { List (LruPart V) };

    ghost view = { λ a. a.shards.items };

    ghost invariant = { λ a. (0 < N) × (length a.shards.items ≡ N) × AllInPlace N a.shards.items };
}

impl<V: Drop, const N: usize> LruShards<V, N> {
    /// `N` empty shards, each for as many keys as the capacity. A capacity of 0 counts as 1. No
    /// result depends on the seed.
    ///
    /// Fails only when memory runs out.
    pub fn new(
        alloc: Global,
        seed: Seed,
        shard_capacity: usize,
    ) -> Result<LruShards<V, N>, AllocError>
        requires { 0 < N }
        ensures made { IfOk result (λ s. s ≡ new_lists N (max shard_capacity 1)) }
    {
        let mut shards = Vec::new(alloc);
        for place in 0..N {
            shards.push(LruShard::at(alloc, seed, place, shard_capacity)?)?;
        }
        Ok(LruShards { shards })
    }

    /// The shard of a key.
    pub fn get(&self, key: u128) -> &LruShard<V, N>
        ensures { result.now ≡ list_at self.now (key % N) }
    {
        let shards = &self.shards;
        &shards[(key % N as u128) as usize]
    }

    /// The value at a key. That does not count as a use.
    pub fn peek(&self, key: u128) -> Option<&V>
        ensures { option_copied result ≡ lookup (nat_eq key) (list_at self.now (key % N)).entries }
    {
        self.get(key).peek(key)
    }

    /// Sets the value at a key and puts it in front of its shard; a full shard drops its last key.
    /// Returns the old value.
    pub fn put(&mut self, key: u128, value: V) -> Result<Option<V>, AllocFailed<(u128, V)>>
        ensures before { IfOk result (λ old.
            old ≡ lookup (nat_eq key) (list_at self.old (key % N)).entries) }
        ensures ok { OnOk result (self.new
            ≡ slice_set self.old (key % N) (part_with key value (list_at self.old (key % N)))) }
        ensures err { OnErr result (self.new ≡ self.old) }
        ensures value_returned { IfErr result (λ y. y.value ≡ (key, value)) }
    {
        let _ = &self.shards; // for the prover: each of the `N` shards is at its place
        let place = (key % N as u128) as usize;
        let shard = &mut self.shards[place];
        shard.put(key, value)
    }

    /// Removes a key, and returns its value.
    pub fn pop(&mut self, key: u128) -> Option<V>
        ensures before { result ≡ lookup (nat_eq key) (list_at self.old (key % N)).entries }
        ensures gone { self.new
            ≡ slice_set self.old (key % N) (part_without key (list_at self.old (key % N))) }
    {
        let _ = &self.shards; // for the prover: each of the `N` shards is at its place
        let place = (key % N as u128) as usize;
        let shard = &mut self.shards[place];
        shard.pop(key)
    }
}
