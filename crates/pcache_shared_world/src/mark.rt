//! The types that name shared worlds.

use std::marker::Brand;

/// Names one shared world: its table, the world it was made with and the number of its shares. The
/// shared world and its shares carry the same mark, so that a share of another world cannot be used
/// with it.
pub trait Mark {
    ghost use Rattle.pcache_shared_world.specs.Opened.{Opened};

    ghost opened: { Opened };
}

/// A caller without a mark parameter uses this one, and chooses at the call what it names.
impl Mark for Brand {
    ghost use Rattle.pcache_shared_world.specs.Opened.{unopened};

    ghost opened = { unopened };
}
