//! The untouched writes in flight of a key.
ghost use Rattle.std.specs.Prelude.{◌≡◌, ◌==◌, OnErr, OnOk};
ghost use Rattle.std.specs.FinMap as map;
ghost use Rattle.pcache_table.specs.Numbers.{least};
ghost use Rattle.pcache_store.specs.Greatest.{greatest};
ghost use Rattle.pcache_store.specs.Untouched.{greater, is_one, lesser, numbers_in};

use std::alloc::{AllocError, Global};
use std::collections::BTreeMap;
use std::marker::Model;

/// The numbers of a key's writes that are in flight and met no removal. Few keys have more than one such write at a time, so one
/// number is kept outside the tree: a tree allocates a block for its first number, and keeps it after the last one is removed.
#[derive(Drop)]
pub(crate) struct Untouched {
    one: Option<u64>,
    more: BTreeMap<u64, ()>,
}

impl Model for Untouched {
    ghost use Rattle.std.specs.Coded.{coded_ℕ};
    ghost use Rattle.std.specs.FinMap as map;
    ghost use Rattle.std.specs.FinSet as set;
    ghost use Rattle.std.specs.Ordering.{nat_cmp};
    ghost use Rattle.pcache_store.specs.Untouched.{numbers_in, with_one};

    ghost Value = { map.FinMap nat_cmp (Unit {0}) };

    ghost coded = { set.code coded_ℕ };

    ghost view = { λ u. with_one u.one (numbers_in u.more.entries) };
}

// The lesser of a number and another, if there is another.
fn lesser(number: u64, other: Option<u64>) -> u64
    ensures { result ≡ lesser number other }
{
    match other {
        Some(other) if other < number => other,
        _ => number,
    }
}

// The greater of a number and another, if there is another.
fn greater(number: u64, other: Option<u64>) -> u64
    ensures { result ≡ greater number other }
{
    match other {
        Some(other) if number < other => other,
        _ => number,
    }
}

// Whether there are no numbers.
fn none_in(numbers: &BTreeMap<u64, ()>) -> bool
    ensures { result ≡ (map.len (numbers_in numbers.now.entries) == 0) }
{
    numbers.len() == 0
}

// The least of the numbers.
fn least_of(numbers: &BTreeMap<u64, ()>) -> Option<u64>
    ensures { result ≡ least (numbers_in numbers.now.entries) }
{
    match numbers.iter().next() {
        Some((number, _nothing)) => Some(*number),
        None => None,
    }
}

// The greatest of the numbers.
fn greatest_of(numbers: &BTreeMap<u64, ()>) -> Option<u64>
    ensures { result ≡ greatest (numbers_in numbers.now.entries) }
{
    match numbers.last_key_value() {
        Some((number, _nothing)) => Some(*number),
        None => None,
    }
}

// Adds a number.
fn insert_in(numbers: &mut BTreeMap<u64, ()>, number: u64) -> Result<(), AllocError>
    ensures ok { OnOk result (numbers_in numbers.new.entries
        ≡ map.insert (numbers_in numbers.old.entries) number tt) }
    ensures err { OnErr result (numbers_in numbers.new.entries
        ≡ numbers_in numbers.old.entries) }
{
    numbers.insert(number, ())?;
    Ok(())
}

// Whether it is the number that is kept apart.
fn is_one(one: Option<u64>, number: u64) -> bool
    ensures { result ≡ is_one one number }
{
    match one {
        Some(one) => one == number,
        None => false,
    }
}

impl Untouched {
    pub(crate) fn new(alloc: Global) -> Untouched
        ensures { result ≡ map.empty }
    {
        Untouched {
            one: None,
            more: BTreeMap::new(alloc),
        }
    }

    #[tactic(auto, using(crate::proofs::Untouched::some_with))]
    pub(crate) fn is_empty(&self) -> bool
        ensures { result ≡ (map.len self.now == 0) }
    {
        match self.one {
            Some(_) => false,
            None => none_in(&self.more),
        }
    }

    #[tactic(auto, using(crate::proofs::Untouched::least_with))]
    pub(crate) fn least(&self) -> Option<u64>
        ensures { result ≡ least self.now }
    {
        let other = least_of(&self.more);
        match self.one {
            Some(one) => Some(lesser(one, other)),
            None => other,
        }
    }

    #[tactic(auto, using(crate::proofs::Greatest::greatest_with))]
    pub(crate) fn greatest(&self) -> Option<u64>
        ensures { result ≡ greatest self.now }
    {
        let other = greatest_of(&self.more);
        match self.one {
            Some(one) => Some(greater(one, other)),
            None => other,
        }
    }

    #[tactic(auto, using(crate::proofs::Untouched::contained))]
    pub(crate) fn contains(&self, number: u64) -> bool
        ensures { result ≡ map.contains_key self.now number }
    {
        is_one(self.one, number) || self.more.contains_key(&number)
    }

    #[tactic(auto, using(crate::proofs::Untouched::insert_other, crate::proofs::Untouched::insert_again))]
    pub(crate) fn insert(&mut self, number: u64) -> Result<(), AllocError>
        ensures ok { OnOk result (self.new ≡ map.insert self.old number tt) }
        ensures err { OnErr result (self.new ≡ self.old) }
    {
        match self.one {
            None => self.one = Some(number),
            Some(one) if one == number => {}
            Some(_) => {
                insert_in(&mut self.more, number)?;
            }
        }
        Ok(())
    }

    #[tactic(auto, using(crate::proofs::Untouched::taken, crate::proofs::Untouched::left_in))]
    pub(crate) fn remove(&mut self, number: u64)
        ensures { self.new ≡ map.remove self.old number }
    {
        self.more.remove(&number);
        if is_one(self.one, number) {
            self.one = None;
        }
    }
}
