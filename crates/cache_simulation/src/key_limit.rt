//! The largest sample that has at most so many keys of a trace: the fixed size of SHARDS (Waldspurger,
//! Park, Garthwaite, Ahmad, FAST 2015).
ghost use Rattle.std.specs.Prelude.{◌≡◌, [], ◌∷◌, ℕ, List, OnOk};
ghost use Rattle.cache_simulation.specs.KeyLimit.{HasLowest, IsLargestRate, rank};

use crate::sample::WHOLE;
use std::alloc::{AllocError, Global};
use std::collections::BTreeSet;

// What a remainder is multiplied by, so that a hash has room below it.
const ABOVE: u128 = 1 << 64;

/// The keys that stay longest in a sample as its rate falls: as many as it may have, and one more.
///
/// A key is known by the first eight bytes of its hash, which say in which part it is. A contract sees the
/// hashes that were taken, the last one first (`specs/KeyLimit.antt`).
#[derive(Drop)]
pub struct LowestKeys {
    ranks: BTreeSet<u128>,
    most: u64,
}

impl LowestKeys {
    /// None yet, of a sample that may have so many.
    pub fn new(alloc: Global, most: u64) -> LowestKeys
        ensures none { HasLowest [] result }
        ensures most { result.most ≡ most }
    {
        LowestKeys {
            ranks: BTreeSet::new(alloc),
            most,
        }
    }

    /// Takes the hash of the key of a request. After a failed call it is of no more use.
    pub fn take(&mut self, hash: u64) -> Result<(), AllocError>
        ensures taken { OnOk result ((hashes : List ℕ)
            → HasLowest hashes self.old
            → HasLowest (hash ∷ hashes) self.new) }
        ensures most { self.new.most ≡ self.old.most }
    {
        // By eight bytes of a hash, by which a sample goes anyway. Two of ten million keys share
        // them once in some 400,000 traces, and the sample then has one key more.
        self.ranks.insert(rank(hash))?;
        if self.ranks.len() as u128 > self.most as u128 + 1 {
            self.ranks.pop_last();
        }
        Ok(())
    }

    /// The largest rate at which the sample has at most so many of the keys that were taken; 0 if it has more at
    /// any rate.
    pub fn rate(&self) -> u64
        ensures { (hashes : List ℕ) → HasLowest hashes self.now
            → IsLargestRate self.now.most hashes result }
    {
        if self.ranks.len() as u64 <= self.most {
            return WHOLE;
        }
        match self.ranks.last() {
            Some(rank) => (*rank / ABOVE) as u64,
            None => WHOLE,
        }
    }
}

// How a key is kept: in the order of the remainders.
fn rank(hash: u64) -> u128
    ensures { result ≡ rank hash }
{
    (hash % WHOLE) as u128 * ABOVE + hash as u128
}
