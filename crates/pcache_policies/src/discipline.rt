//! What a manager asks of its queue: which entries go next, what a use makes of one, and where a new
//! one comes in.
ghost use Rattle.std.specs.Prelude.{◌≡◌, ◌++◌, ◌+◌, ◌≤◌, ◌<◌, ◌^◌, [], true, false, None, length, IfOk, OnOk, OnErr};
ghost use Rattle.std.specs.Vec.{vec_capacity};
ghost use Rattle.pcache_evict.specs.Tracked.{limits_of};
ghost use Rattle.pcache_evict.specs.Recency.{weight};
ghost use Rattle.pcache_evict.specs.Listed.{map_of};
ghost use Rattle.pcache_policies.specs.Queue.{Queue as Entries, IsOnce, plain, seen_of};
ghost use Rattle.pcache_policies.specs.Leaving.{HasRoom};
ghost use Rattle.pcache_policies.specs.Ring.{going};
ghost use Rattle.pcache_policies.specs.Managed.{Way, Lawful, entries_in};

use crate::queue::Seen;
use pcache_evict::eviction::CacheEntryKey;
use std::alloc::{AllocError, Global};

/// A queue of entries with weights that goes by a policy.
///
/// A contract sees the order of all entries, the order of those that stay, and the entries that were
/// chosen to go. These are set aside first, and leave once nothing can fail any more; as long as they
/// are there, they are in the order too. Calls fail only when memory runs out.
pub trait Discipline<S>: Drop {
    // A type and no ghost member: the value of a model may name only a bound's associated type yet.
    /// What a contract sees of it.
    type Order;

    /// What the policy says of an order.
    ghost way: { Way Self.Order };

    /// The order of all entries.
    ghost order: { Self → Self.Order };

    /// The order without the entries that were chosen to go.
    ghost left: { Self → Self.Order };

    /// The entries that were chosen to go.
    ghost leaving: { Self → Entries };

    // A function with an empty body: the proof of a trait's law would have to stand in `specs/`,
    // with four files of lemmas that it needs.
    /// For the prover: what the policy says keeps the entries and their weights, but for those that go.
    fn laws()
        ensures { Lawful way };

    /// No entries.
    fn new(alloc: Global, seed: S) -> Result<Self, AllocError>
        ensures ok { IfOk result (λ made. order made ≡ way.none) };

    /// The number of entries.
    fn len(&self) -> usize
        ensures value { result ≡ length (way.whole (order self.now)) }
        ensures once { IsOnce (way.whole (order self.now)) };

    /// The sum of the entries' weights.
    fn weight(&self) -> u128
        ensures value { result ≡ weight (entries_in way (order self.now)) }
        ensures once { IsOnce (way.whole (order self.now)) };

    /// What is known of an entry; `None` if the queue does not have it.
    fn get(&self, item: &CacheEntryKey) -> Option<Seen>
        ensures value { result ≡ seen_of item.now (way.whole (order self.now)) }
        ensures once { IsOnce (way.whole (order self.now)) };

    /// Adds copies of the entries with their weights, the newest first.
    fn copy_into(&self, list: &mut Vec<(CacheEntryKey, usize)>) -> Result<(), AllocError>
        ensures ok { OnOk result
            (list.new.items ≡ list.old.items ++ entries_in way (order self.now)) };

    /// Sets what is known of an entry in place.
    fn set(&mut self, item: &CacheEntryKey, seen: Seen)
        ensures { order self.new ≡ way.reseen_in item.now seen (order self.old) };

    /// Removes an entry.
    fn remove(&mut self, item: &CacheEntryKey)
        ensures { order self.new ≡ way.rest_in item.now (order self.old) };

    /// A use of an entry of which this is known.
    fn note_use(&mut self, item: &CacheEntryKey, seen: Seen)
        ensures { order self.new ≡ way.used item.now seen (order self.old) };

    /// A use of an entry of which this is known, and which has this weight then.
    fn readmit(&mut self, item: &CacheEntryKey, seen: Seen, size: usize)
        ensures { order self.new ≡ way.readmitted item.now seen size (order self.old) };

    /// Whether the key of an entry that is not there is remembered.
    fn knows(&self, item: &CacheEntryKey) -> bool
        ensures { result ≡ way.is_known item.now (order self.now) };

    /// Counts the entries that were chosen but did not go as others.
    fn settle(&mut self) -> Result<(), AllocError>
        ensures order { order self.new ≡ order self.old }
        ensures ok { OnOk result (leaving self.new ≡ []) };

    /// Chooses entries to go until `count` more entries of this total weight fit or no entry is left,
    /// and makes a vector with room for the keys of all of them and of one more.
    fn choose(
        &mut self,
        alloc: Global,
        size: usize,
        count: usize,
        limit: usize,
        watermark: Option<usize>,
    ) -> Result<Vec<CacheEntryKey>, AllocError>
        requires { count < 2 ^ 63 }
        ensures room { IfOk result (λ out. way.MakesRoom (limits_of way.policy limit watermark)
            size count (order self.old) (going (leaving self.new)) (left self.new)) }
        ensures out { IfOk result (λ out.
            (out.items ≡ []) × (length (leaving self.new) + 1 ≤ vec_capacity out)) }
        ensures heavy { IfOk result (λ out. weight (entries_in way (order self.old))
            ≡ weight (entries_in way (left self.new)) + weight (plain (leaving self.new))) }
        ensures same { map_of (entries_in way (order self.new))
            ≡ map_of (entries_in way (order self.old)) };

    /// Whether one more entry of this weight fits beside those that were not chosen.
    fn has_room(&self, size: usize, limit: usize, watermark: Option<usize>) -> bool
        ensures room { result ≡ true
            → HasRoom (limits_of way.policy limit watermark) size 1
            (entries_in way (left self.now)) }
        ensures none { result ≡ false
            → ¬ HasRoom (limits_of way.policy limit watermark) size 1
            (entries_in way (left self.now)) };

    /// Adds a new entry, as one whose key was remembered or not.
    fn enter(&mut self, item: CacheEntryKey, size: usize, known: bool) -> Result<(), AllocError>
        requires { seen_of item (way.whole (order self.old)) ≡ None }
        ensures ok { OnOk result (left self.new ≡ way.entered known item size (left self.old)) }
        ensures leaving { OnOk result (leaving self.new ≡ leaving self.old) }
        ensures err { OnErr result (map_of (entries_in way (order self.new))
            ≡ map_of (entries_in way (order self.old))) };

    /// The weight and the number of the entries that were chosen to go.
    fn chosen(&self) -> (u128, usize)
        ensures weight { result.0 ≡ weight (plain (leaving self.now)) }
        ensures count { result.1 ≡ length (leaving self.now) };

    /// Removes the entries that were chosen to go, and adds their keys to `out`.
    fn drain(&mut self, out: &mut Vec<CacheEntryKey>)
        requires { length out.old.items + length (leaving self.old) ≤ vec_capacity out.old }
        ensures order { order self.new ≡ left self.old }
        ensures out { out.new.items ≡ out.old.items ++ going (leaving self.old) }
        ensures capacity { vec_capacity out.new ≡ vec_capacity out.old };

    /// If none was chosen, all entries stay.
    ghost settled: { (q : Self) → leaving q ≡ [] → order q ≡ left q };
}
