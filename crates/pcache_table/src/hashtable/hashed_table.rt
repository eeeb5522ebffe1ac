//! A map from numbers to values without an order. Contracts see it as a finite map.
ghost use Rattle.std.specs.Prelude.{◌≡◌, ◌<◌, ◌^◌, None, IfOk, OnOk, OnErr, option_copied, IfErr, OnSome, ◌==◌};
ghost use Rattle.std.specs.Ordering.{nat_cmp};
ghost use Rattle.std.specs.FinMap as map;
ghost use Rattle.std.specs.Coded.{coded_ℕ};
ghost use Rattle.std.specs.Borrow.{LendsSo, sem};
ghost use Rattle.std.specs.Option.{option_copied_mut};
ghost use Rattle.pcache_table.specs.contracts.hashtable.hashed_table.HashedTable.{the_row};

use pcache_base::seed::Seed;
use std::alloc::{AllocFailed, Global};
use std::collections::HashMap;
use std::hash::BuildHasher;
use std::marker::Model;

/// Values by number, found by a hash of the number. On average over the seeds each call takes a
/// constant number of steps, provided that whoever chooses the numbers does not know the seed. Use a
/// `Table` where an order is needed.
#[derive(Drop)]
pub struct HashedTable<V, H: BuildHasher = Seed> {
    entries: HashMap<u128, V, H>,
}

impl<V, H: BuildHasher> Model for HashedTable<V, H> {
    ghost use Rattle.std.specs.Ordering.{nat_cmp};
    ghost use Rattle.std.specs.FinMap as map;
    ghost use Rattle.std.specs.Coded.{coded_ℕ};

    ghost Value = { map.FinMap nat_cmp V };

    ghost coded = { map.code coded_ℕ V.code };

    ghost view = { λ a. map.from_entries a.entries.entries };
}

impl<V, H: BuildHasher + Copy + Drop> HashedTable<V, H> {
    /// A table with no entries. No result depends on the seed.
    pub fn new(alloc: Global, seed: H) -> Self
        ensures { result ≡ map.empty }
    {
        HashedTable {
            entries: HashMap::with_hasher(alloc, seed),
        }
    }

    /// How many entries there are.
    pub fn len(&self) -> usize
        ensures value { result ≡ map.len self.now }
        ensures small { result < 2 ^ 63 }
    {
        self.entries.len()
    }

    /// Whether there are no entries.
    pub fn is_empty(&self) -> bool
        ensures { result ≡ (map.len self.now == 0) }
    {
        self.len() == 0
    }

    /// Whether a number has a value.
    pub fn contains(&self, number: u128) -> bool
        ensures { result ≡ map.contains_key self.now number }
    {
        self.get(number).is_some()
    }

    /// The value of a number.
    pub fn get(&self, number: u128) -> Option<&V>
        ensures { option_copied result ≡ map.get self.now number }
    {
        self.entries.get(&number)
    }

    /// Sets the value of a number, and returns the old one. Fails only when memory runs out, and only
    /// for a new number; then nothing is changed, and the pair is returned.
    pub fn insert(&mut self, number: u128, value: V) -> Result<Option<V>, AllocFailed<(u128, V)>>
        ensures before { IfOk result (λ old. old ≡ map.get self.old number) }
        ensures ok { OnOk result (self.new ≡ map.insert self.old number value) }
        ensures err { OnErr result (self.new ≡ self.old) }
        ensures value_returned { IfErr result (λ y. y.value ≡ (number, value)) }
        ensures absent { OnErr result (map.get self.old number ≡ None) }
    {
        self.entries.insert(number, value)
    }

    /// The value of a number, mutably.
    pub fn get_mut(&mut self, number: u128) -> Option<&mut V>
        ensures* writes_back { sem 𝓛 (LendsSo
            (the_row V.row H.row H.Hasher.row H.BuildHasher H.Hasher.Hasher) V.row self.entry result
            (λ n w. OnSome result (n ≡ map.insert self.old number w)) (λ n. n ≡ self.old)) }
        ensures value { option_copied_mut result ≡ map.get self.old number }
    {
        self.entries.get_mut(&number)
    }

    /// Removes a number, and returns its value.
    pub fn remove(&mut self, number: u128) -> Option<V>
        ensures before { result ≡ map.get self.old number }
        ensures removed { self.new ≡ map.remove self.old number }
    {
        self.entries.remove(&number)
    }
}
