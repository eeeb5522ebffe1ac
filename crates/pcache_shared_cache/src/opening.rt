//! Parts that are still to be made, and their names.
ghost use Rattle.std.specs.Prelude.{◌≡◌, ℕ, [], List, None, IfErr, IfOk, map};
ghost use Rattle.pcache_base.specs.declared.error.ErrorType.TheVariants.{OutOfMemory};
ghost use Rattle.pcache_evict.specs.Tracked.{Limits};
ghost use Rattle.pcache_shared_cache.specs.Managed.{managed_limits, unmade_limits, unmade_managed, unmade_name, unmade_portion};
ghost use Rattle.pcache_shared_cache.specs.Seen.{AreNamed};

use crate::log::PartState;
use crate::mark::Mark;
use crate::portion::Portion;
use pcache_base::error::Result;
use pcache_evict::eviction::EvictionManager;
use pcache_keeper::Keeper;
use std::alloc::Global;
use std::marker::{Brand, Model, PhantomData};

/// A part that is to be made: its manager, and the keeper of its log, by whose name a mark can name the part. A contract sees both.
#[derive(Drop)]
pub struct NewPart<M: EvictionManager> {
    portion: Portion<M>,
    keeper: Keeper<PartState>,
}

impl<M: EvictionManager> Model for NewPart<M> {
    ghost use Rattle.std.specs.Prelude.{◌≡◌, []};
    ghost use Rattle.pcache_shared_cache.specs.Managed.{Unmade};

    ghost Value = { Unmade M };

    ghost view = { λ p. record { name = p.keeper.name; portion = p.portion } };

    ghost invariant = { λ p. p.keeper.log ≡ [] };
}

impl<M: EvictionManager> NewPart<M> {
    /// A part with this manager, and with a keeper of its own.
    pub fn new(portion: Portion<M>) -> NewPart<M>
        ensures { result.portion ≡ portion }
    {
        NewPart {
            portion,
            keeper: Keeper::new(),
        }
    }

    // Its manager and its keeper.
    pub(crate) fn into_both(self) -> (Portion<M>, Keeper<PartState>)
        ensures portion { result.0 ≡ self.portion }
        ensures name { result.1.name ≡ self.name }
        ensures empty { result.1.log ≡ [] }
    {
        let NewPart { portion, keeper } = self;
        (portion, keeper)
    }
}

/// Parts with these managers, each with a keeper of its own. Fails when memory runs out.
pub fn new_parts<M: EvictionManager>(
    alloc: Global,
    portions: Vec<Portion<M>>,
) -> Result<Vec<NewPart<M>>>
    ensures parts { IfOk result (λ v. map unmade_portion v.items ≡ portions.items) }
    ensures kind { IfErr result (λ e. e ≡ OutOfMemory) }
{
    let mut parts = Vec::with_capacity(alloc, portions.len())?;
    for portion in portions {
        parts.push_reserved(NewPart::new(portion));
    }
    Ok(parts)
}

/// The parts of one cache with the mark `K`, not made yet, whose names the mark has, if it has any. A contract sees their managers.
#[derive(Drop)]
pub struct Unused<M: EvictionManager, K: Mark> {
    parts: Vec<NewPart<M>>,
    of: PhantomData<K>,
}

impl<M: EvictionManager, K: Mark> Model for Unused<M, K> {
    ghost use Rattle.std.specs.Prelude.{List, map};
    ghost use Rattle.pcache_shared_cache.specs.Managed.{Managed, unmade_managed, unmade_name};
    ghost use Rattle.pcache_shared_cache.specs.Seen.{AreNamed};
    ghost use Rattle.pcache_shared_cache.specs.SeenCode.{managers_code};

    ghost Value = { List Managed };

    ghost coded = { managers_code };

    ghost view = { λ u. map (unmade_managed M.tracked M.evicted) u.parts.items };

    ghost invariant = { λ u. AreNamed K.names (map unmade_name u.parts.items) };
}

impl<M: EvictionManager, K: Mark> Unused<M, K> {
    /// For a mark that names no place.
    pub fn unnamed(parts: Vec<NewPart<M>>) -> Unused<M, K>
        requires { (place : ℕ) → K.names place ≡ None }
        ensures { result ≡ map (unmade_managed M.tracked M.evicted) parts.items }
    {
        Unused {
            parts,
            of: PhantomData,
        }
    }

    // The parts themselves.
    pub(crate) fn into_parts(self) -> Vec<NewPart<M>>
        ensures managers { map (unmade_managed M.tracked M.evicted) result.items ≡ self }
        ensures named { AreNamed K.names (map unmade_name result.items) }
    {
        let Unused { parts, of: _ } = self;
        parts
    }
}

/// What is done with a cache whose parts a mark names: see `over_parts`.
pub trait OverParts<M: EvictionManager> {
    type Out;

    /// What it asks of the limits of the parts, for example their number, and what it gives.
    ghost asks: { Self → List Limits → Type 0 };

    ghost gives: { Self → List Limits → Self.Out → Type 0 };

    /// Is called once, with the parts of a cache that is to be made by `SharedCache::over`.
    fn run<K: Mark>(self, parts: Unused<M, K>) -> Self::Out
        requires { asks self (map managed_limits parts) }
        ensures { gives self (map managed_limits parts) result };
}

/// Runs a program over the parts of one cache, under a mark that names each part. So what each call of the cache says of its part
/// is of that part's own states.
pub fn over_parts<M: EvictionManager, P: OverParts<M>>(parts: Vec<NewPart<M>>, program: P) -> P::Out
    requires { P.asks program (map unmade_limits parts.items) }
    ensures { P.gives program (map unmade_limits parts.items) result }
{
    named::<M, P, Brand>(parts, program)
}

// The same under a mark that has these names. It has no const parameter, since `over_parts` picks the mark.
fn named<M: EvictionManager, P: OverParts<M>, K: Mark>(parts: Vec<NewPart<M>>, program: P) -> P::Out
    requires asked { P.asks program (map unmade_limits parts.items) }
    requires named { AreNamed K.names (map unmade_name parts.items) }
    ensures { P.gives program (map unmade_limits parts.items) result }
{
    program.run::<K>(Unused {
        parts,
        of: PhantomData,
    })
}
