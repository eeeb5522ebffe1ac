//! An eviction manager that evicts entries in the order in which they came in: FIFO, first in, first
//! out.

use crate::one_queue::{self, Uses};
use crate::queue::Seen;
use pcache_base::seed::Seed;

/// A use changes nothing.
#[derive(Drop)]
pub struct Unnoticed;

impl Uses for Unnoticed {
    ghost use Rattle.std.specs.Prelude.{refl};
    ghost use Rattle.pcache_evict.specs.declared.eviction.policy.EvictionPolicy.TheVariants.{Fifo};

    ghost policy = { Fifo };

    ghost used = { λ v. v };

    ghost weighs = { λ v. refl };

    fn after_use(seen: Seen) -> Seen {
        seen
    }
}

/// A queue whose oldest entry goes, used or not.
pub type Manager<S = Seed> = one_queue::Manager<Unnoticed, S>;
