//! The eviction manager of every policy here, over a queue that goes by the policy.
ghost use Rattle.std.specs.Prelude.{◌≡◌, ◌-◌, ◌^◌, true, false, None, Some, is_some, length, OnOk, OnErr, IfOk, IsOk, IsSome, min};
ghost use Rattle.pcache_evict.specs.Tracked.{raised};
ghost use Rattle.pcache_evict.specs.Recency.{weight, IsWithinAsList};
ghost use Rattle.pcache_policies.specs.Queue.{IsOnce, seen_of};
ghost use Rattle.pcache_policies.specs.Managed.{entries_in, accessed, empty_manager, Admits, KeepsLimits, Admission, Increment, HasFailed, HasFailedWith};

use crate::discipline::Discipline;
use crate::evictions::{Evictions, let_go, raised_weight};
use crate::queue::Seen;
use pcache_base::moment::Moment;
use pcache_base::seed::Seed;
use pcache_evict::eviction::{CacheEntryKey, EvictionManager};
use std::alloc::{AllocError, Global};
use std::marker::{Model, PhantomData};

/// Entries with weights in a queue, which goes by its policy, and limits on the sum of the weights and
/// on the number of entries.
///
/// Before a new entry is added, room is made: the queue chooses the entries that go. A contract sees
/// the order of the entries, the limits and the totals of evictions; it names what the policy says of
/// an order by the queue's `way`. Each call takes a constant number of look-ups, and some for each
/// entry that is looked at to find those that go.
#[derive(Drop)]
pub struct Manager<Q: Discipline<S>, S = Seed> {
    alloc: Global,
    limit: usize,
    watermark: Option<usize>,
    queue: Q,
    evicted: Evictions,
    seed: PhantomData<S>,
}

impl<Q: Discipline<S>, S> Model for Manager<Q, S> {
    ghost use Rattle.pcache_evict.specs.Tracked.{limits_of};
    ghost use Rattle.pcache_policies.specs.Managed.{Managed};

    ghost Value = { Managed Q.Order };

    ghost view = { λ a. record {
      order = Q.order a.queue;
      limits = limits_of Q.way.policy a.limit a.watermark;
      evicted = record { weight = a.evicted.weight; count = a.evicted.count };
    } };
}

impl<Q: Discipline<S>, S> Manager<Q, S> {
    /// An empty manager whose entries weigh at most `limit` after each eviction. Its lists hash under the
    /// seed, on which no result depends.
    pub fn new(alloc: Global, seed: S, limit: usize) -> Result<Manager<Q, S>, AllocError>
        ensures ok { IfOk result (λ m. m ≡ empty_manager Q.way limit None) }
    {
        Manager::new_with_watermark(alloc, seed, limit, None)
    }

    /// An empty manager whose entries weigh at most `limit` after each eviction, and number at most
    /// `items_watermark` if that is given.
    pub fn new_with_watermark(
        alloc: Global,
        seed: S,
        limit: usize,
        items_watermark: Option<usize>,
    ) -> Result<Manager<Q, S>, AllocError>
        ensures ok { IfOk result (λ m. m ≡ empty_manager Q.way limit items_watermark) }
    {
        Ok(Manager {
            alloc,
            limit,
            watermark: items_watermark,
            queue: Q::new(alloc, seed)?,
            evicted: Evictions::none(),
            seed: PhantomData,
        })
    }

    /// The sum of the entries' weights; the largest `usize` if it is larger.
    pub fn total_size(&self) -> usize
        ensures value { result ≡ min (weight (entries_in Q.way self.now.order)) (2 ^ 64 - 1) }
        ensures once { IsOnce (Q.way.whole self.now.order) }
    {
        usize::try_from(self.queue.weight()).unwrap_or(usize::MAX)
    }

    /// The number of entries.
    pub fn total_items(&self) -> usize
        ensures value { result ≡ length (Q.way.whole self.now.order) }
        ensures once { IsOnce (Q.way.whole self.now.order) }
    {
        self.queue.len()
    }

    /// The sum of the weights of all entries evicted so far; the largest `usize` if it is larger.
    pub fn evicted_size(&self) -> usize
        ensures { result ≡ self.now.evicted.weight }
    {
        self.evicted.weight
    }

    /// The number of entries evicted so far; the largest `usize` if it is larger.
    pub fn evicted_items(&self) -> usize
        ensures { result ≡ self.now.evicted.count }
    {
        self.evicted.count
    }

    /// The entries with their weights, the newest first.
    pub fn entries(&self) -> Result<Vec<(CacheEntryKey, usize)>, AllocError>
        ensures ok { IfOk result (λ list. list.items ≡ entries_in Q.way self.now.order) }
        ensures once { IsOnce (Q.way.whole self.now.order) }
    {
        let mut list = Vec::with_capacity(self.alloc, self.queue.len())?;
        self.queue.copy_into(&mut list)?;
        Ok(list)
    }

    /// Whether an entry is tracked. That does not count as a use.
    pub fn peek(&self, item: &CacheEntryKey) -> bool
        ensures { result ≡ is_some (seen_of item.now (Q.way.whole self.now.order)) }
    {
        self.queue.get(item).is_some()
    }

    /// Makes room for a new entry, which is then added; one that is tracked gets its weight, which is a
    /// use, and then entries go until the limits hold. Returns the evicted entries, in the order in
    /// which they went; an entry above the limit goes itself, last of all. `fresh_until` is not read.
    pub fn admit(
        &mut self,
        item: CacheEntryKey,
        size: usize,
        _fresh_until: Moment,
    ) -> Result<Vec<CacheEntryKey>, AllocError>
        ensures ok { IfOk result (λ out. Admission Q.way (seen_of item (Q.way.whole self.old.order))
            self.old item size self.new out.items) }
        ensures once { IsOnce (Q.way.whole self.old.order) }
        ensures err { OnErr result (HasFailed Q.way self.old self.new) }
    {
        match self.queue.get(&item) {
            Some(before) => self.admit_again(&item, before, size),
            None => self.admit_new(item, size),
        }
    }

    /// Adds to the weight of an entry in place, up to `max_weight` (the largest `usize` if that is
    /// `None`), which is no use; then entries go until the limits hold. A weight never decreases; an
    /// entry that is not tracked is added with this weight, at least 1. Does not fail if the entry is
    /// tracked and nothing is evicted.
    pub fn increment_weight(
        &mut self,
        item: &CacheEntryKey,
        delta: usize,
        max_weight: Option<usize>,
    ) -> Result<Vec<CacheEntryKey>, AllocError>
        ensures ok { IfOk result (λ out.
            Increment Q.way (seen_of item.now (Q.way.whole self.old.order))
            self.old item.now delta max_weight self.new out.items) }
        ensures within { (v : Seen)
            → seen_of item.now (Q.way.whole self.old.order) ≡ Some v
            → IsWithinAsList self.old.limits (entries_in Q.way (Q.way.reseen_in item.now
            (record v { weight = raised delta max_weight (Some v.weight) }) self.old.order))
            → IsOk result }
        ensures once { IsOnce (Q.way.whole self.old.order) }
        ensures err { OnErr result (HasFailed Q.way self.old self.new) }
    {
        match self.queue.get(item) {
            Some(before) => {
                let weight = raised_weight(Some(before.weight), delta, max_weight);
                self.reweigh(item, before, Seen { weight, ..before })
            }
            None => {
                let copy = item.copied()?;
                self.admit_new(copy, raised_weight(None, delta, max_weight))
            }
        }
    }

    /// Removes an entry, if it is tracked. That is no eviction; the others keep their order.
    pub fn remove(&mut self, item: &CacheEntryKey)
        ensures { self.new
            ≡ record self.old { order = Q.way.rest_in item.now self.old.order } }
    {
        self.queue.remove(item);
    }

    /// A use of an entry; one that is not tracked is added with this weight. Returns whether it was
    /// tracked. Nothing is evicted; `fresh_until` is not read. Does not fail if the entry is tracked.
    pub fn access(
        &mut self,
        item: &CacheEntryKey,
        size: usize,
        _fresh_until: Moment,
    ) -> Result<bool, AllocError>
        ensures was { IfOk result (λ was.
            was ≡ is_some (seen_of item.now (Q.way.whole self.old.order))) }
        ensures ok { OnOk result (self.new
            ≡ record self.old {
              order = accessed Q.way (seen_of item.now (Q.way.whole self.old.order)) item.now
                  size self.old.order;
            }) }
        ensures there { IsSome (seen_of item.now (Q.way.whole self.old.order)) → IsOk result }
        ensures once { IsOnce (Q.way.whole self.old.order) }
        ensures err { OnErr result (HasFailed Q.way self.old self.new) }
    {
        let Some(seen) = self.queue.get(item) else {
            return self.add(item, size);
        };
        self.queue.note_use(item, seen);
        Ok(true)
    }

    // Adds a new entry.
    fn add(&mut self, item: &CacheEntryKey, size: usize) -> Result<bool, AllocError>
        requires { seen_of item.now (Q.way.whole self.old.order) ≡ None }
        ensures was { IfOk result (λ was. was ≡ false) }
        ensures ok { OnOk result (self.new
            ≡ record self.old {
              order = Q.way.entered (Q.way.is_known item.now self.old.order) item.now
                  size self.old.order;
            }) }
        ensures err { OnErr result (HasFailed Q.way self.old self.new) }
    {
        let copy = item.copied()?;
        self.queue.settle()?;
        let known = self.queue.knows(item);
        self.queue.enter(copy, size, known)?;
        Ok(false)
    }

    // Makes room, and then adds a new entry; if there is no room although no entry is left, it goes
    // itself.
    fn admit_new(
        &mut self,
        item: CacheEntryKey,
        size: usize,
    ) -> Result<Vec<CacheEntryKey>, AllocError>
        requires { seen_of item (Q.way.whole self.old.order) ≡ None }
        ensures ok { IfOk result (λ out. Admits Q.way self.old item size self.new out.items) }
        ensures err { OnErr result (HasFailed Q.way self.old self.new) }
    {
        Q::laws(); // for the prover: the way is `Lawful`
        let (limit, watermark) = (self.limit, self.watermark);
        // Before room is made: 2Q asks so, since the key may be the oldest ghost, which what goes
        // then would drop.
        let known = self.queue.knows(&item);
        let out = self.queue.choose(self.alloc, size, 1, limit, watermark)?;
        if self.queue.has_room(size, limit, watermark) {
            self.queue.enter(item, size, known)?;
            return Ok(let_go(&mut self.queue, &mut self.evicted, out));
        }
        let mut out = let_go(&mut self.queue, &mut self.evicted, out);
        self.evicted.add(size as u128, 1);
        out.push_reserved(item);
        Ok(out)
    }

    // A use of an entry, which has another weight then; and entries go until the limits hold.
    fn admit_again(
        &mut self,
        item: &CacheEntryKey,
        before: Seen,
        size: usize,
    ) -> Result<Vec<CacheEntryKey>, AllocError>
        requires { seen_of item.now (Q.way.whole self.old.order) ≡ Some before }
        ensures ok { IfOk result (λ out. KeepsLimits Q.way self.old
            (Q.way.readmitted item.now before size self.old.order) self.new out.items) }
        ensures err { OnErr result (HasFailed Q.way self.old self.new) }
    {
        Q::laws(); // for the prover: the way is `Lawful`
        self.total_items(); // for the prover: its contract says that no entry occurs twice
        self.readmit(item, before, size);
        self.keep_limits_or_set(item, before)
    }

    // Sets what is known of an entry in place, and then lets entries go until the limits hold.
    fn reweigh(
        &mut self,
        item: &CacheEntryKey,
        before: Seen,
        after: Seen,
    ) -> Result<Vec<CacheEntryKey>, AllocError>
        requires { seen_of item.now (Q.way.whole self.old.order) ≡ Some before }
        ensures ok { IfOk result (λ out. KeepsLimits Q.way self.old
            (Q.way.reseen_in item.now after self.old.order) self.new out.items) }
        ensures within { IsWithinAsList self.old.limits
            (entries_in Q.way (Q.way.reseen_in item.now after self.old.order))
            → IsOk result }
        ensures err { OnErr result (HasFailed Q.way self.old self.new) }
    {
        Q::laws(); // for the prover: the way is `Lawful`
        self.set(item, after);
        self.keep_limits_or_set(item, before)
    }

    // A use of an entry, which has this weight then.
    fn readmit(&mut self, item: &CacheEntryKey, before: Seen, size: usize)
        ensures { self.new
            ≡ record self.old { order = Q.way.readmitted item.now before size self.old.order } }
    {
        self.queue.readmit(item, before, size);
    }

    // Sets what is known of an entry in place.
    fn set(&mut self, item: &CacheEntryKey, seen: Seen)
        ensures { self.new
            ≡ record self.old { order = Q.way.reseen_in item.now seen self.old.order } }
    {
        self.queue.set(item, seen);
    }

    // Lets entries go until the limits hold. If that fails, what is known of an entry is set.
    fn keep_limits_or_set(
        &mut self,
        item: &CacheEntryKey,
        before: Seen,
    ) -> Result<Vec<CacheEntryKey>, AllocError>
        requires { IsSome (seen_of item.now (Q.way.whole self.old.order)) }
        ensures ok { IfOk result (λ out.
            KeepsLimits Q.way self.old self.old.order self.new out.items) }
        ensures within { IsWithinAsList self.old.limits (entries_in Q.way self.old.order)
            → IsOk result }
        ensures err { OnErr result (HasFailedWith Q.way item.now before self.old self.new) }
    {
        Q::laws(); // for the prover: the way is `Lawful`
        match self.keep_limits() {
            Ok(out) => Ok(out),
            Err(error) => {
                self.set(item, before);
                Err(error)
            }
        }
    }

    // Lets entries go until the limits hold.
    fn keep_limits(&mut self) -> Result<Vec<CacheEntryKey>, AllocError>
        ensures ok { IfOk result (λ out.
            KeepsLimits Q.way self.old self.old.order self.new out.items) }
        ensures within { IsWithinAsList self.old.limits (entries_in Q.way self.old.order)
            → IsOk result }
        ensures err { OnErr result (HasFailed Q.way self.old self.new) }
    {
        Q::laws(); // for the prover: the way is `Lawful`
        if self.is_within() {
            self.evicted.add(0, 0); // for the prover: its contract says that the totals stop at the largest number
            return Ok(Vec::new(self.alloc));
        }
        let (limit, watermark) = (self.limit, self.watermark);
        let out = self.queue.choose(self.alloc, 0, 0, limit, watermark)?;
        Ok(let_go(&mut self.queue, &mut self.evicted, out))
    }

    // Whether the limits hold.
    fn is_within(&self) -> bool
        ensures yes { result ≡ true
            → IsWithinAsList self.now.limits (entries_in Q.way self.now.order) }
        ensures not { result ≡ false
            → ¬ IsWithinAsList self.now.limits (entries_in Q.way self.now.order) }
    {
        self.queue.weight() <= self.limit as u128
            && self.watermark.is_none_or(|most| self.queue.len() <= most)
    }
}

impl<Q: Discipline<S>, S> EvictionManager for Manager<Q, S> {
    ghost use Rattle.pcache_evict.specs.Policy.{rules_of};
    ghost use Rattle.pcache_evict.specs.Listed.{map_of};
    ghost use Rattle.pcache_policies.specs.Managed.{entries_in, policy_of};

    ghost tracked = { λ m. map_of (entries_in Q.way m.order) };

    ghost limits = { λ m. m.limits };

    ghost evicted = { λ m. m.evicted };

    ghost rules = { λ _. rules_of Q.way.shown (policy_of Q.way) };

    ghost shown = { λ m. Q.way.shown m.order };

    fn total_size(&self) -> usize {
        Manager::total_size(self)
    }

    fn total_items(&self) -> usize {
        Manager::total_items(self)
    }

    fn evicted_size(&self) -> usize {
        Manager::evicted_size(self)
    }

    fn evicted_items(&self) -> usize {
        Manager::evicted_items(self)
    }

    fn entries(&self) -> Result<Vec<(CacheEntryKey, usize)>, AllocError> {
        let all = Manager::entries(self)?;
        Ok(all)
    }

    #[tactic(auto, using(crate::proofs::Rules::same_rules))]
    fn admit(
        &mut self,
        item: CacheEntryKey,
        size: usize,
        fresh_until: Moment,
    ) -> Result<Vec<CacheEntryKey>, AllocError> {
        Q::laws(); // for the prover: the way is `Lawful`
        let out = Manager::admit(self, item, size, fresh_until)?;
        Ok(out)
    }

    #[tactic(auto, using(crate::proofs::Rules::same_rules))]
    fn increment_weight(
        &mut self,
        item: &CacheEntryKey,
        delta: usize,
        max_weight: Option<usize>,
    ) -> Result<Vec<CacheEntryKey>, AllocError> {
        Q::laws(); // for the prover: the way is `Lawful`
        let out = Manager::increment_weight(self, item, delta, max_weight)?;
        Ok(out)
    }

    #[tactic(auto, using(crate::proofs::Rules::same_rules))]
    fn remove(&mut self, item: &CacheEntryKey) {
        Q::laws(); // for the prover: the way is `Lawful`
        Manager::remove(self, item);
    }

    #[tactic(auto, using(crate::proofs::Rules::same_rules))]
    fn access(
        &mut self,
        item: &CacheEntryKey,
        size: usize,
        fresh_until: Moment,
    ) -> Result<bool, AllocError> {
        Q::laws(); // for the prover: the way is `Lawful`
        let was = Manager::access(self, item, size, fresh_until)?;
        Ok(was)
    }

    fn peek(&self, item: &CacheEntryKey) -> bool {
        Manager::peek(self, item)
    }
}
