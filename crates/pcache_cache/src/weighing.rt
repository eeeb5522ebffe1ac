//! What the entry of a body weighs.
ghost use Rattle.std.specs.Prelude.{◌≡◌, None, Some, option_map};
ghost use Rattle.pcache_cache.specs.Weighing.{ending_weight, weight_of};

use pcache_store::memory::{MemCache, MemMissHandler};

/// What an entry weighs in the eviction manager of a cache, which is made with one or the other.
#[derive(Clone, Copy, Debug, PartialEq, Eq)]
pub enum Weighing {
    /// The length of its body, as in the Rust: the limit bounds the bodies alone, and heads and what is kept beside them come on
    /// top, so that many small bodies may take many times the limit.
    Bodies,
    /// All that is kept for it: the length of its body, the length of the text of its head, and [`OVERHEAD`]. So the limit bounds
    /// the memory that stored responses take.
    Entries,
}

/// How many bytes an entry counts for beside its body and the text of its head: its places in the tables of store and manager, its
/// key there, and what its meta says beside the head. That it is as much as an entry takes is measured, and not proved. A long user
/// tag is not counted.
pub const OVERHEAD: usize = 512;

// The weight of the entry of a body of this length, whose head has a text of this length. One that does not fit is the largest.
pub(crate) fn weight_of(weighing: Weighing, lengths: (usize, usize)) -> usize
    ensures { result ≡ weight_of weighing lengths }
{
    let (body, head) = lengths;
    match weighing {
        Weighing::Bodies => body,
        Weighing::Entries => {
            // What the meta says beside its head is within `OVERHEAD` and not counted by its
            // length. So an expiry, which writes it anew, changes no weight.
            let all = body as u128 + head as u128 + OVERHEAD as u128;
            usize::try_from(all).unwrap_or(usize::MAX)
        }
    }
}

// The weight that the entry of a write is admitted with when the write ends; zero without a write.
pub(crate) fn ending_weight(
    weighing: Weighing,
    store: &MemCache,
    writer: Option<&MemMissHandler>,
) -> usize
    ensures { result
        ≡ ending_weight weighing store.now.state (option_map (λ w. w.now.number) writer.entry) }
{
    match writer {
        Some(writer) => weight_of(weighing, writer.lengths(store)),
        None => 0,
    }
}
