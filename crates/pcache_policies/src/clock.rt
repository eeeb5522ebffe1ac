//! An eviction manager that evicts entries in the order in which they came in, but spares those once
//! that were used: CLOCK (Corbató, A paging experiment with the Multics system, 1968).

use crate::one_queue::{self, Uses};
use crate::queue::Seen;
use pcache_base::seed::Seed;

/// A use sets an entry's bit.
#[derive(Drop)]
pub struct Noticed;

impl Uses for Noticed {
    ghost use Rattle.std.specs.Prelude.{refl};
    ghost use Rattle.pcache_evict.specs.declared.eviction.policy.EvictionPolicy.TheVariants.{Clock};
    ghost use Rattle.pcache_policies.specs.OneQueue.{set_bit};

    ghost policy = { Clock };

    ghost used = { set_bit };

    ghost weighs = { λ v. refl };

    fn after_use(seen: Seen) -> Seen {
        Seen::used(seen.weight)
    }
}

/// A queue whose oldest entry goes; if it was used, its bit is cleared, and it becomes the newest.
pub type Manager<S = Seed> = one_queue::Manager<Noticed, S>;
