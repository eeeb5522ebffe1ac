//! A list of entries with a hand, in three queues.
ghost use Rattle.std.specs.Prelude.{◌≡◌, ◌≢◌, ◌↔◌, IsTrue, Some, ◌∷◌, ◌++◌, ◌+◌, ◌≤◌, ◌<◌, ◌^◌, ◌-◌, [], true, false, None, is_some, length, IsSome, OnOk, OnErr, IfOk, IfSome, IfNone};
ghost use Rattle.std.specs.Vec.{vec_capacity};
ghost use Rattle.lru.specs.LruCache.{last_entry};
ghost use Rattle.pcache_evict.specs.declared.eviction.entry_key.CacheEntryKey.{CacheEntryKey};
ghost use Rattle.pcache_evict.specs.declared.eviction.policy.EvictionPolicy.{EvictionPolicy};
ghost use Rattle.pcache_evict.specs.Tracked.{limits_of};
ghost use Rattle.pcache_evict.specs.Recency.{weight};
ghost use Rattle.pcache_policies.specs.declared.queue.Seen.{Seen};
ghost use Rattle.pcache_policies.specs.Queue.{Queue as Entries, IsOnce, plain, seen_of, rest_of, reseen, unused};
ghost use Rattle.pcache_policies.specs.Leaving.{HasRoom};
ghost use Rattle.pcache_policies.specs.Sieve.{entered, entries, turned, MakesRoom};
ghost use Rattle.pcache_policies.specs.Ring.{Ring, ring, all, shown, in_turn, left_of, Steps, Chooses, SameEntries, chosen};

use crate::queue::{Queue, Seen};
use pcache_evict::eviction::CacheEntryKey;
use std::alloc::{AllocError, Global};
use std::hash::BuildHasher;
use std::marker::Model;
use std::mem;

/// With so many entries no more can be added.
const FULL: usize = (1 << 63) - 1;

// Whether a ring with so many entries takes no more. That counts as a lack of memory, which no machine has left by then.
fn is_full(count: usize) -> bool
    ensures { IsTrue result ↔ (2 ^ 63 - 1 ≤ count) }
{
    // Each entry has the links of its queue in memory, at least 16 bytes, and 2^64 addresses have
    // room for fewer than 2^60 of these.
    count >= FULL
}

/// The entries ahead of the hand, those that it chose to go, and those that it passed, each the
/// newest first.
///
/// An entry that the hand passes moves from one queue to another, which may take memory. So an
/// entry that is to go is first set aside, and leaves once nothing can fail any more.
#[derive(Drop)]
pub struct Ring<S: BuildHasher> {
    ahead: Queue<S>,
    leaving: Queue<S>,
    passed: Queue<S>,
}

impl<S: BuildHasher> Model for Ring<S> {
    ghost use Rattle.pcache_policies.specs.Ring.{Ring, ring, IsRing};

    ghost Value = { Ring };

    ghost view = { λ r. ring r.ahead r.leaving r.passed };

    ghost invariant = { λ r. IsRing r.ahead r.leaving r.passed };
}

impl<S: BuildHasher + Copy + Drop> Ring<S> {
    /// No entries.
    pub(crate) fn new(alloc: Global, seed: S) -> Result<Ring<S>, AllocError>
        ensures ok { IfOk result (λ made. made ≡ ring [] [] []) }
    {
        Ok(Ring {
            ahead: Queue::new(alloc, seed)?,
            leaving: Queue::new(alloc, seed)?,
            passed: Queue::new(alloc, seed)?,
        })
    }

    /// The number of entries.
    pub(crate) fn len(&self) -> usize
        ensures value { result ≡ length (all self.now) }
        ensures few { result < 2 ^ 63 }
        ensures once { IsOnce (all self.now) }
    {
        self.ahead.len() + (self.leaving.len() + self.passed.len())
    }

    /// The sum of the entries' weights.
    pub(crate) fn weight(&self) -> u128
        ensures value { result ≡ weight (plain (all self.now)) }
        ensures once { IsOnce (all self.now) }
    {
        self.ahead.weight() + (self.leaving.weight() + self.passed.weight())
    }

    /// What is known of an entry; `None` if the ring does not have it.
    pub(crate) fn get(&self, item: &CacheEntryKey) -> Option<Seen>
        ensures value { result ≡ seen_of item.now (all self.now) }
        ensures fits { IfSome result (λ seen. seen.weight ≤ 2 ^ 64 - 1) }
        ensures once { IsOnce (all self.now) }
    {
        if let Some(seen) = self.ahead.get(item) {
            return Some(seen);
        }
        if let Some(seen) = self.leaving.get(item) {
            return Some(seen);
        }
        self.passed.get(item)
    }

    /// Sets what is known of an entry in place.
    pub(crate) fn set(&mut self, item: &CacheEntryKey, seen: Seen)
        ensures { self.new
            ≡ ring (reseen item.now seen self.old.ahead) (reseen item.now seen self.old.leaving)
            (reseen item.now seen self.old.passed) }
    {
        self.ahead.set(item, seen);
        self.leaving.set(item, seen);
        self.passed.set(item, seen);
    }

    /// Removes an entry.
    pub(crate) fn remove(&mut self, item: &CacheEntryKey)
        ensures { self.new
            ≡ ring (rest_of item.now self.old.ahead) (rest_of item.now self.old.leaving)
            (rest_of item.now self.old.passed) }
    {
        self.ahead.remove(item);
        self.leaving.remove(item);
        self.passed.remove(item);
    }

    /// The number of entries chosen to go.
    pub(crate) fn leaving_len(&self) -> usize
        ensures value { result ≡ length self.now.leaving }
        ensures few { result < 2 ^ 63 }
        ensures once { IsOnce (all self.now) }
    {
        self.len(); // for the prover: its contract says that the entries are few
        self.leaving.len()
    }

    /// The weight and the number of the entries chosen to go.
    pub(crate) fn chosen(&self) -> (u128, usize)
        ensures weight { result.0 ≡ weight (plain self.now.leaving) }
        ensures count { result.1 ≡ length self.now.leaving }
    {
        (self.leaving.weight(), self.leaving.len())
    }

    /// Whether the limits hold for the entries that were not chosen, with `count` more of this
    /// total weight. The ring is that of several policies, and looks at none.
    pub(crate) fn has_room(
        &self,
        size: usize,
        count: usize,
        limit: usize,
        watermark: Option<usize>,
    ) -> bool
        requires { count < 2 ^ 63 }
        ensures room { (policy : EvictionPolicy) → result ≡ true
            → HasRoom (limits_of policy limit watermark) size count (entries (left_of self.now)) }
        ensures none { (policy : EvictionPolicy) → result ≡ false
            → ¬ HasRoom (limits_of policy limit watermark) size count (entries (left_of self.now)) }
    {
        let weight = size as u128 + self.ahead.weight() + self.passed.weight();
        let items = count + (self.ahead.len() + self.passed.len());
        weight <= limit as u128 && watermark.is_none_or(|most| items <= most)
    }

    /// Counts the entries that were chosen but did not go as passed.
    pub(crate) fn settle(&mut self) -> Result<(), AllocError>
        ensures shown { shown self.new ≡ shown self.old }
        ensures ok { OnOk result (self.new.leaving ≡ []) }
    {
        // Here and not where the call failed, since a push may want memory.
        while self.settle_one()? {}
        Ok(())
    }

    // One entry that was chosen counts as passed, if there is one.
    fn settle_one(&mut self) -> Result<bool, AllocError>
        ensures shown { shown self.new ≡ shown self.old }
        ensures more { IfOk result (λ more.
            more ≡ true → length self.new.leaving < length self.old.leaving) }
        ensures none { IfOk result (λ more. more ≡ false → self.new.leaving ≡ []) }
    {
        let Some((key, seen)) = self.leaving.oldest()? else {
            return Ok(false);
        };
        self.passed.push(key, seen)?;
        self.leaving.drop_oldest();
        Ok(true)
    }

    /// Chooses entries to evict until `count` more entries of this total weight fit or no entry is
    /// left.
    pub(crate) fn make_room(
        &mut self,
        size: usize,
        count: usize,
        limit: usize,
        watermark: Option<usize>,
    ) -> Result<(), AllocError>
        requires none { self.old.leaving ≡ [] }
        requires few { count < 2 ^ 63 }
        ensures ok { (policy : EvictionPolicy)
            → OnOk result (Chooses (limits_of policy limit watermark) size count self.old
            self.new) }
        ensures same { SameEntries self.old self.new }
    {
        while !self.has_room(size, count, limit, watermark) {
            if !self.step()? {
                return Ok(());
            }
        }
        Ok(())
    }

    /// Chooses entries to evict until `count` more entries of this total weight fit or no entry is
    /// left, and makes a vector with room for the keys of all of them and of one more.
    pub(crate) fn prepare(
        &mut self,
        alloc: Global,
        size: usize,
        count: usize,
        limit: usize,
        watermark: Option<usize>,
    ) -> Result<Vec<CacheEntryKey>, AllocError>
        requires { count < 2 ^ 63 }
        ensures room { (policy : EvictionPolicy) → IfOk result (λ out.
            MakesRoom (limits_of policy limit watermark) size count
            (shown self.old) (chosen self.new) (left_of self.new)) }
        ensures out { IfOk result (λ out.
            (out.items ≡ []) × (length self.new.leaving + 1 ≤ vec_capacity out)) }
        ensures same { SameEntries self.old self.new }
        ensures once { IfOk result (λ out. IsOnce (all self.new)) }
    {
        self.settle()?;
        self.make_room(size, count, limit, watermark)?;
        Vec::with_capacity(alloc, self.leaving_len() + 1)
    }

    // The hand looks at one entry, or turns from the newest to the oldest. Returns whether there was
    // one.
    fn step(&mut self) -> Result<bool, AllocError>
        ensures ok { IfOk result (λ more. Steps self.old more self.new) }
        ensures err { OnErr result (self.new ≡ self.old) }
        ensures once { IsOnce (all self.old) }
    {
        self.len(); // for the prover: its contract says that no entry occurs twice
        let Some((key, seen)) = self.ahead.oldest()? else {
            return Ok(self.turn());
        };
        if seen.uses == 0 {
            return self.choose(key, seen);
        }
        self.pass(key, seen)
    }

    // The entry at the hand is chosen to go.
    fn choose(&mut self, key: CacheEntryKey, seen: Seen) -> Result<bool, AllocError>
        requires last { last_entry self.old.ahead ≡ Some (key, seen) }
        requires idle { seen.uses ≡ 0 }
        ensures ok { IfOk result (λ more. Steps self.old more self.new) }
        ensures err { OnErr result (self.new ≡ self.old) }
    {
        self.choose_ahead(key, seen)?;
        Ok(true)
    }

    // The hand passes the entry that it is at.
    fn pass(&mut self, key: CacheEntryKey, seen: Seen) -> Result<bool, AllocError>
        requires last { last_entry self.old.ahead ≡ Some (key, seen) }
        requires used { seen.uses ≢ 0 }
        ensures ok { IfOk result (λ more. Steps self.old more self.new) }
        ensures err { OnErr result (self.new ≡ self.old) }
    {
        self.pass_unused(key, seen)?;
        Ok(true)
    }

    /// The oldest entry ahead is chosen to go.
    pub(crate) fn choose_ahead(&mut self, key: CacheEntryKey, seen: Seen) -> Result<(), AllocError>
        requires { last_entry self.old.ahead ≡ Some (key, seen) }
        ensures ahead { OnOk result (self.old.ahead ≡ self.new.ahead ++ (key, seen) ∷ []) }
        ensures others { OnOk result ((self.new.leaving ≡ (key, seen) ∷ self.old.leaving)
            × (self.new.passed ≡ self.old.passed)) }
        ensures err { OnErr result (self.new ≡ self.old) }
    {
        self.leaving.push(key, seen)?;
        self.ahead.drop_oldest();
        Ok(())
    }

    /// The oldest entry ahead is passed, its uses forgotten.
    pub(crate) fn pass_unused(&mut self, key: CacheEntryKey, seen: Seen) -> Result<(), AllocError>
        requires { last_entry self.old.ahead ≡ Some (key, seen) }
        ensures ahead { OnOk result (self.old.ahead ≡ self.new.ahead ++ (key, seen) ∷ []) }
        ensures others { OnOk result ((self.new.leaving ≡ self.old.leaving)
            × (self.new.passed ≡ (key, unused seen.weight) ∷ self.old.passed)) }
        ensures err { OnErr result (self.new ≡ self.old) }
    {
        self.passed.push(key, Seen::unused(seen.weight))?;
        self.ahead.drop_oldest();
        Ok(())
    }

    /// The oldest entry that was passed is chosen to go.
    pub(crate) fn choose_passed(&mut self, key: CacheEntryKey, seen: Seen) -> Result<(), AllocError>
        requires { last_entry self.old.passed ≡ Some (key, seen) }
        ensures passed { OnOk result (self.old.passed ≡ self.new.passed ++ (key, seen) ∷ []) }
        ensures others { OnOk result ((self.new.leaving ≡ (key, seen) ∷ self.old.leaving)
            × (self.new.ahead ≡ self.old.ahead)) }
        ensures err { OnErr result (self.new ≡ self.old) }
    {
        self.leaving.push(key, seen)?;
        self.passed.drop_oldest();
        Ok(())
    }

    /// The oldest passed entry becomes the newest passed one, with this record.
    pub(crate) fn pass_again(&mut self, key: &CacheEntryKey, before: Seen, after: Seen)
        requires last { last_entry self.old.passed ≡ Some (key.now, before) }
        requires weight { after.weight ≡ before.weight }
        ensures passed { (rest : Entries)
            × (self.old.passed ≡ rest ++ (key.now, before) ∷ [])
            × (self.new.passed ≡ (key.now, after) ∷ rest) }
        ensures others { (self.new.leaving ≡ self.old.leaving) × (self.new.ahead ≡ self.old.ahead) }
    {
        self.passed.requeue(key, after);
    }

    /// A copy of the oldest entry ahead.
    pub(crate) fn oldest_ahead(&self) -> Result<Option<(CacheEntryKey, Seen)>, AllocError>
        ensures ok { IfOk result (λ entry. entry ≡ last_entry self.now.ahead) }
    {
        self.ahead.oldest()
    }

    /// A copy of the oldest entry that was passed.
    pub(crate) fn oldest_passed(&self) -> Result<Option<(CacheEntryKey, Seen)>, AllocError>
        ensures ok { IfOk result (λ entry. entry ≡ last_entry self.now.passed) }
    {
        self.passed.oldest()
    }

    /// The number of entries ahead, and of passed ones.
    pub(crate) fn lens(&self) -> (usize, usize)
        ensures ahead { result.0 ≡ length self.now.ahead }
        ensures passed { result.1 ≡ length self.now.passed }
        ensures few { result.0 + result.1 < 2 ^ 63 }
    {
        (self.ahead.len(), self.passed.len())
    }

    /// The number of entries that were not chosen.
    pub(crate) fn left_len(&self) -> usize
        ensures { result ≡ length self.now.ahead + length self.now.passed }
    {
        let (ahead, passed) = self.lens();
        ahead + passed
    }

    /// The weight of the entries ahead.
    pub(crate) fn ahead_weight(&self) -> u128
        ensures { result ≡ weight (plain self.now.ahead) }
    {
        self.ahead.weight()
    }

    /// The weight of the entries that were passed.
    pub(crate) fn passed_weight(&self) -> u128
        ensures { result ≡ weight (plain self.now.passed) }
    {
        self.passed.weight()
    }

    /// Whether an entry is ahead.
    pub(crate) fn is_ahead(&self, item: &CacheEntryKey) -> bool
        ensures { result ≡ is_some (seen_of item.now self.now.ahead) }
    {
        self.ahead.get(item).is_some()
    }

    /// An entry ahead becomes the newest there, with this record.
    pub(crate) fn renew_ahead(&mut self, item: &CacheEntryKey, seen: Seen)
        requires { IsSome (seen_of item.now self.old.ahead) }
        ensures { self.new
            ≡ ring ((item.now, seen) ∷ rest_of item.now self.old.ahead) self.old.leaving
            self.old.passed }
    {
        self.ahead.requeue(item, seen);
    }

    /// Adds a new entry as the newest ahead.
    pub(crate) fn add_ahead(&mut self, item: CacheEntryKey, size: usize) -> Result<(), AllocError>
        requires { seen_of item (all self.old) ≡ None }
        ensures ok { OnOk result (self.new
            ≡ ring ((item, unused size) ∷ self.old.ahead) self.old.leaving self.old.passed) }
        ensures err { OnErr result (self.new ≡ self.old) }
    {
        if is_full(self.len()) {
            return Err(AllocError);
        }
        self.ahead.push(item, Seen::unused(size))?;
        Ok(())
    }

    /// Adds a new entry as the newest of the passed ones.
    pub(crate) fn add_passed(&mut self, item: CacheEntryKey, size: usize) -> Result<(), AllocError>
        requires { seen_of item (all self.old) ≡ None }
        ensures ok { OnOk result (self.new
            ≡ ring self.old.ahead self.old.leaving ((item, unused size) ∷ self.old.passed)) }
        ensures err { OnErr result (self.new ≡ self.old) }
    {
        if is_full(self.len()) {
            return Err(AllocError);
        }
        self.passed.push(item, Seen::unused(size))?;
        Ok(())
    }

    // The hand turns from the newest to the oldest.
    fn turn(&mut self) -> bool
        requires { self.old.ahead ≡ [] }
        ensures { Steps self.old result self.new }
    {
        if self.passed.len() == 0 {
            return false;
        }
        mem::swap(&mut self.ahead, &mut self.passed);
        true
    }

    // The hand looks at the oldest entry, if none is ahead of it.
    fn face(&mut self)
        ensures hand { left_of self.new ≡ turned self.old.ahead self.old.passed }
        ensures leaving { self.new.leaving ≡ self.old.leaving }
        ensures same { SameEntries self.old self.new }
        ensures absent { (k : CacheEntryKey)
            → seen_of k (all self.old) ≡ None
            → seen_of k (all self.new) ≡ None }
    {
        if self.ahead.len() == 0 {
            mem::swap(&mut self.ahead, &mut self.passed);
        }
    }

    /// Adds a new entry as the newest.
    pub(crate) fn enter(&mut self, item: CacheEntryKey, size: usize) -> Result<(), AllocError>
        requires { seen_of item (all self.old) ≡ None }
        ensures ok { OnOk result (left_of self.new ≡ entered item size (left_of self.old)) }
        ensures leaving { self.new.leaving ≡ self.old.leaving }
        ensures err { OnErr result (SameEntries self.old self.new) }
    {
        self.face();
        self.add_ahead(item, size)?;
        Ok(())
    }

    /// Removes the chosen entries, and adds their keys to `out`.
    pub(crate) fn drain(&mut self, out: &mut Vec<CacheEntryKey>)
        requires { length out.old.items + length self.old.leaving ≤ vec_capacity out.old }
        ensures ring { self.new ≡ ring self.old.ahead [] self.old.passed }
        ensures out { out.new.items ≡ out.old.items ++ chosen self.old }
        ensures capacity { vec_capacity out.new ≡ vec_capacity out.old }
    {
        while let Some(key) = self.pop_leaving() {
            out.push_reserved(key);
        }
    }

    // Removes the next of the chosen entries.
    fn pop_leaving(&mut self) -> Option<CacheEntryKey>
        ensures last { IfSome result (λ k.
            (v : Seen) × (self.old.leaving ≡ self.new.leaving ++ (k, v) ∷ [])) }
        ensures empty { IfNone result (self.old.leaving ≡ []) }
        ensures others { (self.new.ahead ≡ self.old.ahead) × (self.new.passed ≡ self.old.passed) }
        ensures none { IfNone result (self.new.leaving ≡ []) }
    {
        let (key, _) = self.leaving.pop()?;
        Some(key)
    }

    /// Adds copies of the entries with their weights, those first that were passed.
    pub(crate) fn copy_in_turn(
        &self,
        list: &mut Vec<(CacheEntryKey, usize)>,
    ) -> Result<(), AllocError>
        ensures ok { OnOk result
            (list.new.items ≡ list.old.items ++ plain (in_turn (shown self.now))) }
    {
        self.leaving.copy_into(list)?;
        self.passed.copy_into(list)?;
        self.ahead.copy_into(list)
    }

    /// Adds copies of the entries with their weights, the newest first.
    pub(crate) fn copy_into(&self, list: &mut Vec<(CacheEntryKey, usize)>) -> Result<(), AllocError>
        ensures ok { OnOk result (list.new.items ≡ list.old.items ++ plain (all self.now)) }
    {
        self.ahead.copy_into(list)?;
        self.leaving.copy_into(list)?;
        self.passed.copy_into(list)
    }
}
