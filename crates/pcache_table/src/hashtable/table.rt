//! A map from numbers to values. Contracts see it as a finite map.
ghost use Rattle.std.specs.Prelude.{◌≡◌, ◌<◌, ◌^◌, ℕ, None, IsSome, IfSome, IfNone, IfOk, OnOk, OnErr, option_copied, IfErr, OnSome, IsTrue, ◌==◌};
ghost use Rattle.std.specs.Ordering.{nat_cmp};
ghost use Rattle.std.specs.FinMap as map;
ghost use Rattle.std.specs.Coded.{coded_ℕ};
ghost use Rattle.std.specs.Borrow.{LendsSo, sem};
ghost use Rattle.std.specs.Option.{option_copied_mut};
ghost use Rattle.pcache_table.specs.Numbers.{least};
ghost use Rattle.pcache_table.specs.contracts.hashtable.table.Table.{the_row};

use std::alloc::{AllocFailed, Global};
use std::collections::BTreeMap;
use std::collections::btree_map::Iter;
use std::marker::Model;

/// Values by number. Each call descends a tree once, so it takes time logarithmic in the number of
/// entries.
#[derive(Drop)]
pub struct Table<V> {
    tree: BTreeMap<u128, V>,
}

impl<V> Model for Table<V> {
    ghost use Rattle.std.specs.Ordering.{nat_cmp};
    ghost use Rattle.std.specs.FinMap as map;
    ghost use Rattle.std.specs.Coded.{coded_ℕ};

    ghost Value = { map.FinMap nat_cmp V };

    ghost coded = { map.code coded_ℕ V.code };

    ghost view = { λ a. map.from_entries a.tree.entries };
}

impl<V> Table<V> {
    /// A table with no entries.
    pub fn new(alloc: Global) -> Self
        ensures { result ≡ map.empty }
    {
        Table {
            tree: BTreeMap::new(alloc),
        }
    }

    /// How many entries there are.
    pub fn len(&self) -> usize
        ensures value { result ≡ map.len self.now }
        ensures small { result < 2 ^ 63 }
    {
        self.tree.len()
    }

    /// Whether there are no entries.
    pub fn is_empty(&self) -> bool
        ensures { result ≡ (map.len self.now == 0) }
    {
        self.len() == 0
    }

    /// Whether a number has a value.
    pub fn contains(&self, number: u128) -> bool
        ensures { result ≡ map.contains_key self.now number }
    {
        self.get(number).is_some()
    }

    /// The value of a number.
    pub fn get(&self, number: u128) -> Option<&V>
        ensures { option_copied result ≡ map.get self.now number }
    {
        self.tree.get(&number)
    }

    /// The least number that has a value.
    pub fn least(&self) -> Option<u128>
        ensures value { result ≡ least self.now }
        ensures there { IfSome result (λ n. IsSome (map.get self.now n)) }
        ensures first { IfSome result (λ n. (q : ℕ) → q < n → map.get self.now q ≡ None) }
        ensures none { IfNone result ((q : ℕ) → map.get self.now q ≡ None) }
    {
        match self.tree.iter().next() {
            Some((number, _value)) => Some(*number),
            None => None,
        }
    }

    /// The entries in the order of their numbers.
    pub fn iter(&self) -> Iter<'_, u128, V>
        ensures { result ≡ map.entries self.now }
    {
        self.tree.iter()
    }

    /// Sets the value of a number, and returns the old one. Fails only when memory runs out, and only
    /// for a new number; then nothing is changed, and the pair is returned.
    pub fn insert(&mut self, number: u128, value: V) -> Result<Option<V>, AllocFailed<(u128, V)>>
        ensures before { IfOk result (λ old. old ≡ map.get self.old number) }
        ensures ok { OnOk result (self.new ≡ map.insert self.old number value) }
        ensures err { OnErr result (self.new ≡ self.old) }
        ensures value_returned { IfErr result (λ y. y.value ≡ (number, value)) }
        ensures absent { OnErr result (map.get self.old number ≡ None) }
    {
        self.tree.insert(number, value)
    }

    /// The value of a number, mutably.
    pub fn get_mut(&mut self, number: u128) -> Option<&mut V>
        ensures* writes_back { sem 𝓛 (LendsSo (the_row V.row) V.row self.entry result
            (λ n w. OnSome result (n ≡ map.insert self.old number w)) (λ n. n ≡ self.old)) }
        ensures value { option_copied_mut result ≡ map.get self.old number }
    {
        self.tree.get_mut(&number)
    }

    /// Removes a number, and returns its value.
    pub fn remove(&mut self, number: u128) -> Option<V>
        ensures before { result ≡ map.get self.old number }
        ensures removed { self.new ≡ map.remove self.old number }
    {
        self.tree.remove(&number)
    }
}
