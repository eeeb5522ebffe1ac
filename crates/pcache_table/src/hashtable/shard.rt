//! One shard of a table.
ghost use Rattle.std.specs.Prelude.{◌≡◌, None, ◌↔◌, ◌<◌, ◌%◌, IfErr, IfOk, IsTrue, OnErr, OnOk, option_copied};
ghost use Rattle.std.specs.FinMap as map;
ghost use Rattle.pcache_table.specs.Sharding.{Belongs};

use crate::hashtable::table::Table;
use std::alloc::{AllocFailed, Global};
use std::collections::btree_map::Iter;
use std::marker::{Model, PhantomData};

/// One of `N` shards of a table, which has only keys of its own. A contract sees its place and its
/// map.
///
/// Only its table (`Shards`) makes and changes it, or the guard that its lock lends.
#[derive(Drop)]
pub struct Shard<V, const N: usize> {
    place: usize,
    table: Table<V>,
}

impl<V, const N: usize> Model for Shard<V, N> {
    ghost use Rattle.std.specs.Prelude.{◌<◌};
    ghost use Rattle.pcache_table.specs.Sharding.{Belongs, Part, part_code};

    ghost Value = { Part V };

    ghost coded = { part_code V.code };

    ghost view = { λ s. record { place = s.place; map = s.table } };

    ghost invariant = { λ s. (s.place < N) × Belongs N s.place s.table };
}

impl<V, const N: usize> Shard<V, N> {
    // An empty shard at a place. Only this crate makes shards, so none comes under the lock of
    // another.
    pub(crate) fn at(alloc: Global, place: usize, _like: PhantomData<Shard<V, N>>) -> Shard<V, N>
        requires { place < N }
        ensures { result ≡ record { place = place; map = map.empty } }
    {
        Shard {
            place,
            table: Table::new(alloc),
        }
    }

    /// Its place among the shards.
    pub fn place(&self) -> usize
        ensures place { result ≡ self.now.place }
        ensures in_range { self.now.place < N }
    {
        self.place
    }

    /// Whether a key is one of its own.
    pub fn belongs(&self, key: u128) -> bool
        ensures { IsTrue result ↔ (key % N ≡ self.now.place) }
    {
        let place = self.place;
        (key % N as u128) as usize == place
    }

    /// The value at a key.
    pub fn get(&self, key: u128) -> Option<&V>
        ensures { option_copied result ≡ map.get self.now.map key }
    {
        self.table.get(key)
    }

    /// Its entries, in the order of their keys.
    pub fn iter(&self) -> Iter<'_, u128, V>
        ensures entries { result ≡ map.entries self.now.map }
        ensures own { Belongs N self.now.place self.now.map }
    {
        self.table.iter()
    }

    // Sets the value at a key of its own, and returns the old one.
    pub(crate) fn insert(
        &mut self,
        key: u128,
        value: V,
    ) -> Result<Option<V>, AllocFailed<(u128, V)>>
        requires { key % N ≡ self.old.place }
        ensures before { IfOk result (λ old. old ≡ map.get self.old.map key) }
        ensures ok { OnOk result (self.new
            ≡ record self.old { map = map.insert self.old.map key value }) }
        ensures err { OnErr result (self.new ≡ self.old) }
        ensures value_returned { IfErr result (λ y. y.value ≡ (key, value)) }
        ensures absent { OnErr result (map.get self.old.map key ≡ None) }
    {
        self.table.insert(key, value)
    }

    // Removes a key, and returns its value.
    pub(crate) fn remove(&mut self, key: u128) -> Option<V>
        ensures before { result ≡ map.get self.old.map key }
        ensures removed { self.new ≡ record self.old { map = map.remove self.old.map key } }
    {
        self.table.remove(key)
    }
}
