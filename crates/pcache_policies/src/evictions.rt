//! The totals of evictions, and how the chosen entries are evicted.
ghost use Rattle.std.specs.Prelude.{◌≡◌, ◌+◌, ◌-◌, ◌^◌, ◌≤◌, [], length, min};
ghost use Rattle.std.specs.Vec.{vec_capacity};
ghost use Rattle.pcache_evict.specs.Tracked.{raised};
ghost use Rattle.pcache_evict.specs.Recency.{weight};
ghost use Rattle.pcache_policies.specs.Queue.{plain};
ghost use Rattle.pcache_policies.specs.Ring.{going};

use crate::discipline::Discipline;
use pcache_evict::eviction::CacheEntryKey;

/// The weight and the number of all entries evicted so far; each stops at the largest `usize`.
#[derive(Clone, Copy, Debug)]
pub(crate) struct Evictions {
    pub(crate) weight: usize,
    pub(crate) count: usize,
}

impl Evictions {
    /// The totals before the first eviction.
    pub(crate) fn none() -> Evictions
        ensures { (result.weight ≡ 0) × (result.count ≡ 0) }
    {
        Evictions {
            weight: 0,
            count: 0,
        }
    }

    /// Adds the weight and the number of evicted entries.
    pub(crate) fn add(&mut self, weight: u128, count: usize)
        ensures weight { self.new.weight ≡ min (self.old.weight + weight) (2 ^ 64 - 1) }
        ensures count { self.new.count ≡ min (self.old.count + count) (2 ^ 64 - 1) }
    {
        let gone = usize::try_from(weight).unwrap_or(usize::MAX);
        self.weight = self.weight.saturating_add(gone);
        self.count = self.count.saturating_add(count);
    }
}

/// Evicts what the queue chose into a vector that has room for it.
pub(crate) fn let_go<Q: Discipline<S>, S>(
    queue: &mut Q,
    evicted: &mut Evictions,
    mut out: Vec<CacheEntryKey>,
) -> Vec<CacheEntryKey>
    requires none { out.items ≡ [] }
    requires room { length (Q.leaving queue.old) ≤ vec_capacity out }
    ensures order { Q.order queue.new ≡ Q.left queue.old }
    ensures out { result.items ≡ going (Q.leaving queue.old) }
    ensures long { length result.items ≡ length (Q.leaving queue.old) }
    ensures capacity { vec_capacity result ≡ vec_capacity out }
    ensures weight { evicted.new.weight
        ≡ min (evicted.old.weight + weight (plain (Q.leaving queue.old))) (2 ^ 64 - 1) }
    ensures count { evicted.new.count
        ≡ min (evicted.old.count + length (Q.leaving queue.old)) (2 ^ 64 - 1) }
{
    let (weight, count) = queue.chosen();
    evicted.add(weight, count);
    queue.drain(&mut out);
    out
}

/// The weight after an increment.
pub(crate) fn raised_weight(
    present: Option<usize>,
    delta: usize,
    max_weight: Option<usize>,
) -> usize
    ensures { result ≡ raised delta max_weight present }
{
    let most = max_weight.unwrap_or(usize::MAX);
    match present {
        Some(size) => size.saturating_add(delta).min(most).max(size),
        None => delta.min(most).max(1),
    }
}
