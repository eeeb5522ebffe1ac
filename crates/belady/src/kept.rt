//! What Belady's rule keeps, and the hits of that.
ghost use Rattle.std.specs.Prelude.{◌≡◌, [], IfOk, OnOk, length, ◌≤◌, ◌&&◌, nat_le, if◌then◌else◌};
ghost use Rattle.belady.specs.Belady.{is_hit, after, hits_of};

use std::alloc::{AllocError, Global};
use std::collections::BTreeSet;

/// The bodies that are kept, each known by the number of the request that asks for it next.
#[derive(Drop)]
pub struct Kept {
    awaited: BTreeSet<usize>,
    limit: usize,
    ghost few: { length awaited.keys ≤ limit },
}

impl Kept {
    /// None, with room for so many.
    pub fn new(alloc: Global, limit: usize) -> Kept
        ensures none { result.awaited.keys ≡ [] }
        ensures limit { result.limit ≡ limit }
    {
        Kept {
            awaited: BTreeSet::new(alloc),
            limit,
        }
    }

    /// The request of this number, after which `next` is the next one for its body. Returns whether it
    /// is a hit.
    pub fn ask(&mut self, number: usize, next: Option<usize>) -> Result<bool, AllocError>
        ensures hit { IfOk result (λ hit. hit ≡ is_hit number self.old.awaited.keys) }
        ensures after { OnOk result (self.new.awaited.keys
            ≡ after self.old.limit number next self.old.awaited.keys) }
        ensures limit { self.new.limit ≡ self.old.limit }
    {
        let is_hit = self.awaited.remove(&number);
        if let Some(next) = next {
            self.awaited.insert(next)?;
        }
        if self.awaited.len() > self.limit {
            self.awaited.pop_last();
        }
        Ok(is_hit)
    }
}

/// The hits of a cache with room for so many bodies, of the requests from this number on: `nexts` has for each
/// request the number of the next one for its body.
pub fn most_hits(
    alloc: Global,
    nexts: &[Option<usize>],
    limit: usize,
    from: usize,
) -> Result<usize, AllocError>
    ensures { IfOk result (λ hits. hits ≡ hits_of limit from 0 nexts.now []) }
{
    let mut kept = Kept::new(alloc, limit);
    let mut hits = 0;
    for number in 0..nexts.len() {
        let is_hit = kept.ask(number, nexts[number])?;
        hits += counted(is_hit, number, from);
    }
    Ok(hits)
}

// What a request adds to the hits among those from this number on.
fn counted(is_hit: bool, number: usize, from: usize) -> usize
    ensures value { result ≡ (if nat_le from number && is_hit then 1 else 0) }
    ensures small { result ≤ 1 }
{
    if number >= from && is_hit { 1 } else { 0 }
}
