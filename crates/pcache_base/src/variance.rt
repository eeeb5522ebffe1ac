//! What a response varies on: names with values, and the hash of them all.
ghost use Rattle.std.specs.Prelude.{◌≡◌, ◌<◌, ◌↔◌, ℕ, List, ◌++◌, IsTrue, IsNone, IfSome, OnOk, OnErr, nat_eq, string_bytes};
ghost use Rattle.std.specs.Ordering.{nat_cmp, as_partial_cmp};
ghost use Rattle.std.specs.Cmp.{partial_equiv_from_equiv, partial_order_from_own_ties};
ghost use Rattle.std.specs.Cmp.Lexicographic.{pointwise, slice_cmp, nat_list_eq_equiv};
ghost use Rattle.std.specs.Cmp.Rules.{comparing};
ghost use Rattle.std.specs.List.{flat_map};
ghost use Rattle.std.specs.BTreeMap.{IsOrdered};
ghost use Rattle.std.specs.FinMap as map;
ghost use Rattle.std.proofs.Common.{rules};
ghost use Rattle.pcache_base.specs.Blake2b.{blake2b_128};
ghost use Rattle.pcache_base.specs.Hashing.{Holds};
ghost use Rattle.pcache_base.specs.Variance.{spelled, message};

use crate::blake2b::Hasher;
use crate::error::Result;
use crate::key::HashBinary;
use std::alloc::{AllocError, Global};
use std::borrow::{CowSlice, CowStr};
use std::cmp::Ordering;
use std::collections::BTreeMap;
use std::marker::Model;

// A name that is borrowed or owned. A contract sees the list of its bytes.
#[derive(Drop)]
struct Name<'a> {
    text: CowStr<'a, Global>,
}

impl<'a> Model for Name<'a> {
    ghost use Rattle.std.specs.Prelude.{ℕ, List};
    ghost use Rattle.std.specs.Cow.{cow_str_bytes};

    ghost Value = { List ℕ };

    ghost view = { λ a. cow_str_bytes a.text };
}

impl<'a> Name<'a> {
    fn borrowed(text: &'a str) -> Name<'a>
        ensures { result ≡ text.now }
    {
        Name {
            text: CowStr::Borrowed(text),
        }
    }

    fn owned(text: String) -> Name<'a>
        ensures { result ≡ string_bytes text }
    {
        Name {
            text: CowStr::Owned(text),
        }
    }

    fn as_str(&self) -> &str
        ensures { result.now ≡ self.now }
    {
        self.text.as_str()
    }
}

impl<'a> PartialEq for Name<'a> {
    ghost eq = { pointwise nat_eq };

    ghost laws = { partial_equiv_from_equiv nat_list_eq_equiv };

    fn eq(&self, other: &Name<'a>) -> bool {
        self.as_str() == other.as_str()
    }
}

impl<'a> Eq for Name<'a> {
    ghost laws = { nat_list_eq_equiv };
}

impl<'a> Ord for Name<'a> {
    ghost cmp = { slice_cmp nat_cmp };

    ghost total = { Prim.search (comparing, rules) };

    ghost matches_partial_cmp = { Prim.search (comparing, rules) };

    ghost matches_eq = { Prim.search (comparing, rules) };

    fn cmp(&self, other: &Name<'a>) -> Ordering {
        self.as_str().cmp(other.as_str())
    }
}

impl<'a> PartialOrd for Name<'a> {
    ghost partial_cmp = { as_partial_cmp (slice_cmp nat_cmp) };

    ghost laws = { partial_order_from_own_ties (Prim.search (comparing, rules)) (Prim.search (comparing, rules)) };

    fn partial_cmp(&self, other: &Name<'a>) -> Option<Ordering> {
        Some(self.cmp(other))
    }
}

// A value that is borrowed or owned. A contract sees the list of its bytes.
#[derive(Drop)]
struct Value<'a> {
    bytes: CowSlice<'a, u8, Global>,
}

impl<'a> Model for Value<'a> {
    ghost use Rattle.std.specs.Prelude.{ℕ, List};
    ghost use Rattle.std.specs.Cow.{cow_slice_items};

    ghost Value = { List ℕ };

    ghost view = { λ a. cow_slice_items a.bytes };
}

impl<'a> Value<'a> {
    fn borrowed(bytes: &'a [u8]) -> Value<'a>
        ensures { result ≡ bytes.now }
    {
        Value {
            bytes: CowSlice::Borrowed(bytes),
        }
    }

    fn owned(bytes: Vec<u8>) -> Value<'a>
        ensures { result ≡ bytes.items }
    {
        Value {
            bytes: CowSlice::Owned(bytes),
        }
    }

    fn as_slice(&self) -> &[u8]
        ensures { result.now ≡ self.now }
    {
        self.bytes.as_slice()
    }
}

// Adds a name and its value to the message that is hashed.
#[tactic(auto, unfolding(crate::specs::Variance::spelled))]
fn absorb(hasher: &mut Hasher, name: &[u8], value: &[u8])
    ensures { (m : List ℕ)
        → Holds hasher.old m
        → Holds hasher.new (m ++ spelled (name.now, value.now)) }
{
    hasher.update(name);
    hasher.update(&[0]);
    hasher.update(value);
    hasher.update(&[0]);
}

// The hash of all names with their values, in the names' order.
fn hash_of(values: &BTreeMap<Name<'_>, Value<'_>>) -> HashBinary
    ensures hash { result ≡ blake2b_128 (flat_map spelled values.now.entries) }
    ensures ordered { IsOrdered (slice_cmp nat_cmp) values.now }
{
    let mut hasher = Hasher::new();
    'names: for (name, value) in values {
        absorb(&mut hasher, name.as_str().as_bytes(), value.as_slice());
    }
    hasher.finish()
}

/// Gathers what a response varies on, as names with values.
///
/// A contract sees a finite map from names to their last values, so the hash depends on nothing else.
#[derive(Drop)]
pub struct VarianceBuilder<'a> {
    values: BTreeMap<Name<'a>, Value<'a>>,
}

impl<'a> Model for VarianceBuilder<'a> {
    ghost use Rattle.std.specs.Coded.{coded_ℕ, coded_list};
    ghost use Rattle.std.specs.FinMap as map;
    ghost use Rattle.pcache_base.specs.Variance.{Varied};

    ghost Value = { Varied };

    ghost coded = { map.code (coded_list coded_ℕ) (coded_list coded_ℕ) };

    ghost view = { λ b. map.from_entries b.values.entries };
}

impl<'a> VarianceBuilder<'a> {
    /// A builder with no name.
    pub fn new(alloc: Global) -> VarianceBuilder<'a>
        ensures { result ≡ map.empty }
    {
        VarianceBuilder {
            values: BTreeMap::new(alloc),
        }
    }

    fn add(&mut self, name: Name<'a>, value: Value<'a>) -> Result<(), AllocError>
        ensures ok { OnOk result (self.new ≡ map.insert self.old name.entry value.entry) }
        ensures err { OnErr result (self.new ≡ self.old) }
    {
        self.values.insert(name, value)?;
        Ok(())
    }

    /// Sets the value of a name. Fails only when memory runs out, and then changes nothing.
    pub fn add_value(&mut self, name: &'a str, value: &'a [u8]) -> Result<(), AllocError>
        ensures ok { OnOk result (self.new ≡ map.insert self.old name.now value.now) }
        ensures err { OnErr result (self.new ≡ self.old) }
    {
        self.add(Name::borrowed(name), Value::borrowed(value))
    }

    /// Sets the value of a name; the builder owns the value. Fails only when memory runs out, and
    /// then changes nothing.
    pub fn add_owned_value(&mut self, name: &'a str, value: Vec<u8>) -> Result<(), AllocError>
        ensures ok { OnOk result (self.new ≡ map.insert self.old name.now value.items) }
        ensures err { OnErr result (self.new ≡ self.old) }
    {
        self.add(Name::borrowed(name), Value::owned(value))
    }

    /// Sets the value of a name; the builder owns both. Fails only when memory runs out, and then
    /// changes nothing.
    pub fn add_owned_name_value(&mut self, name: String, value: Vec<u8>) -> Result<(), AllocError>
        ensures ok { OnOk result (self.new ≡ map.insert self.old (string_bytes name) value.items) }
        ensures err { OnErr result (self.new ≡ self.old) }
    {
        self.add(Name::owned(name), Value::owned(value))
    }

    /// Whether a name was added.
    pub fn has_variance(&self) -> bool
        ensures { IsTrue result ↔ (0 < map.len self.now) }
    {
        self.values.len() > 0
    }

    /// The hash of the names with their last values: of each name, in byte order, the name, byte 0,
    /// its value and byte 0. `None` if there is no name. Takes no memory.
    pub fn finalize(self) -> Option<HashBinary>
        ensures none { IsNone result ↔ (map.len self.entry ≡ 0) }
        ensures value { IfSome result (λ hash. hash ≡ blake2b_128 (message self.entry)) }
    {
        if self.has_variance() {
            Some(hash_of(&self.values))
        } else {
            None
        }
    }
}
