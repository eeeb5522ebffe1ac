//! The log of a part, and what was seen of it.
//!
//! Of what a lock lends only the type is known, so what a caller knows of a part is carried by tokens of no bytes: under the lock,
//! beside the cache, lies the one keeper of the log, and a request has what was seen of it. The log has whole states and not notes: a
//! state has its own two lists, and each of its laws holds by `Cache::headline`, so no second vocabulary is needed.
use crate::mark::Mark;
use crate::portion::Portion;
use pcache_cache::Cache;
use pcache_evict::eviction::EvictionManager;
use pcache_evict::eviction::simple_lru::Manager;
use pcache_keeper::{Keeper, Noted, Seen};
use std::marker::{Model, PhantomData};

/// What the log of a part has as notes: the states of the part, which are seen as those of any cache. No value of it is made.
pub struct PartState {
    state: Cache<Manager, ()>,
}

impl Model for PartState {
    ghost use Rattle.pcache_cache.specs.Parts.{Parts};
    ghost use Rattle.pcache_cache.specs.PartsCode.{parts_code};

    ghost Value = { Parts };

    ghost coded = { parts_code };

    ghost view = { λ s. s.state };
}

/// Its state is what is noted of a cache.
impl<M: EvictionManager, K> Noted<PartState> for Cache<M, K> {
    ghost note = { λ c. c };
}

/// What was seen of one part of a cache with the mark `K`: all states that the part had up to some call. It has no bytes but the
/// place of the part. A request has one, and the end of a request or a put returns one: who takes it by `SharedRequest::sees` knows
/// what those who had it knew, so whoever was told of a purge by its caller knows that it is over.
#[derive(Drop)]
pub struct Sight<K: Mark> {
    place: usize,
    seen: Seen<PartState>,
    of: PhantomData<K>,
}

impl<K: Mark> Model for Sight<K> {
    ghost use Rattle.pcache_shared_cache.specs.Seen.{IsLog, IsNamed, Placed};
    ghost use Rattle.pcache_shared_cache.specs.SeenCode.{placed_code};

    ghost Value = { Placed };

    ghost coded = { placed_code };

    ghost view = { λ s. record { place = s.place; log = s.seen.log } };

    ghost invariant = { λ s. IsNamed (K.names s.place) s.seen.name × IsLog s.seen.log };
}

impl<K: Mark> Sight<K> {
    ghost use Rattle.std.specs.Prelude.{◌≡◌};
    ghost use mathlib.Core.List.{IsPrefix};
    ghost use Rattle.pcache_shared_cache.specs.Seen.{Begins, IsLog};

    /// The place of the part.
    pub fn place(&self) -> usize
        ensures { result ≡ self.now.place }
    {
        self.place
    }

    /// A copy.
    pub fn again(&self) -> Sight<K>
        ensures { result ≡ self.now }
    {
        Sight {
            place: self.place,
            seen: self.seen.again(),
            of: PhantomData,
        }
    }

    /// States what is known of all states that were seen, as `SharedRequest::headline`. The call does nothing.
    pub fn headline(&self)
        ensures { IsLog self.now.log }
    {
        // For the prover: a use of a field brings in the invariant, so `IsLog` of what was seen.
        let _place = self.place;
    }

    /// Afterwards this has seen what both had, if both are of one part, which the mark names. It has no cost.
    pub fn sees(&mut self, other: &Sight<K>)
        ensures place { self.new.place ≡ self.old.place }
        ensures own { IsPrefix self.old.log self.new.log }
        ensures other { other.now.place ≡ self.old.place
            → Begins (K.names self.old.place) other.now.log self.new.log }
    {
        if self.place == other.place {
            // Of two beginnings of one log one begins the other, so nothing has to be asked of the
            // part.
            self.seen.sees(&other.seen);
        }
    }
}

// The log of the part at a place, with the right to add to it.
#[derive(Drop)]
pub(crate) struct PartLog<K: Mark> {
    place: usize,
    keeper: Keeper<PartState>,
    of: PhantomData<K>,
}

impl<K: Mark> Model for PartLog<K> {
    ghost use Rattle.pcache_shared_cache.specs.Seen.{IsLog, IsNamed, Placed};
    ghost use Rattle.pcache_shared_cache.specs.SeenCode.{placed_code};

    ghost Value = { Placed };

    ghost coded = { placed_code };

    ghost view = { λ l. record { place = l.place; log = l.keeper.log } };

    ghost invariant = { λ l. IsNamed (K.names l.place) l.keeper.name × IsLog l.keeper.log };
}

impl<K: Mark> PartLog<K> {
    ghost use Rattle.std.specs.Prelude.{◌≡◌, [], ◌∷◌, ◌++◌};
    ghost use Rattle.pcache_cache.specs.Parts.{Parts};
    ghost use Rattle.pcache_cache.specs.declared.weighing.Weighing.TheVariants.{Entries};
    ghost use Rattle.pcache_shared_cache.specs.Seen.{Begins, EndsWith, IsNamed, Leads, Looks, Moves};

    // The log of a part that begins in the state of this cache.
    pub(crate) fn new<M: EvictionManager>(
        place: usize,
        mut keeper: Keeper<PartState>,
        cache: &Cache<Portion<M>, K>,
    ) -> PartLog<K>
        requires named { IsNamed (K.names place) keeper.name }
        requires empty { keeper.log ≡ [] }
        requires weighing { cache.now.weighing ≡ Entries }
        ensures { result ≡ record { place = place; log = cache.now ∷ [] } }
    {
        // For the prover: the state that is noted is a sound one, as `IsLog` asks of each.
        cache.headline();
        keeper.add(cache);
        PartLog {
            place,
            keeper,
            of: PhantomData,
        }
    }

    // The place of the part.
    pub(crate) fn place(&self) -> usize
        ensures { result ≡ self.now.place }
    {
        self.place
    }

    // All of it, as something seen.
    pub(crate) fn see(&mut self) -> Sight<K>
        ensures same { self.new ≡ self.old }
        ensures seen { result ≡ self.old }
    {
        Sight {
            place: self.place,
            seen: self.keeper.see(),
            of: PhantomData,
        }
    }

    // Lets a caller see all of it. What it had seen is a beginning of it.
    pub(crate) fn shows(&mut self, sight: &mut Sight<K>)
        requires { sight.old.place ≡ self.old.place }
        ensures same { self.new ≡ self.old }
        ensures seen { sight.new ≡ self.old }
        ensures looks { (p : Parts)
            → EndsWith self.old.log p
            → Looks (K.names self.old.place) sight.old.log sight.new.log p }
    {
        self.keeper.meets(&sight.seen);
        sight.seen = self.keeper.see();
    }

    // What was seen of it is a beginning of it.
    pub(crate) fn meets(&mut self, sight: &Sight<K>)
        requires { sight.now.place ≡ self.old.place }
        ensures same { self.new ≡ self.old }
        ensures begins { Begins (K.names self.old.place) sight.now.log self.old.log }
    {
        self.keeper.meets(&sight.seen);
    }

    // Adds the state of the cache, whose last state p the log has, and lets the caller who changed the part see it.
    pub(crate) fn adds<M: EvictionManager>(
        &mut self,
        cache: &Cache<Portion<M>, K>,
        sight: &mut Sight<K>,
    )
        requires place { sight.old.place ≡ self.old.place }
        requires leads { (p : Parts) × EndsWith self.old.log p × Leads p cache.now }
        ensures log { self.new
            ≡ record { place = self.old.place; log = self.old.log ++ cache.now ∷ [] } }
        ensures seen { sight.new ≡ self.new }
        ensures moves { (p : Parts)
            → EndsWith self.old.log p
            → Moves (K.names self.old.place) sight.old.log sight.new.log p cache.now }
    {
        // For the prover: the state that is noted is a sound one, as `IsLog` asks of each.
        cache.headline();
        self.keeper.meets(&sight.seen);
        self.keeper.add(cache);
        sight.seen = self.keeper.see();
    }
}
