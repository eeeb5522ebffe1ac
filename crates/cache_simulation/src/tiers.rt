//! Several caches, each with the keys that go to it, and maybe one behind them, which all of them ask.
ghost use Rattle.std.specs.Prelude.{◌<◌, length};
ghost use Rattle.std.specs.List.{All};

mod calls;

use crate::cache::Cache;
use crate::options::{Policy, Setting};

/// Nodes of one policy and size. A key's requests go to the node that its hash picks, and those that a
/// node does not answer to the shield, if there is one.
///
/// A contract sees which requests each of them got (`specs/Tiers.antt`). After a failed call they are of no more use.
#[derive(Drop)]
pub struct Tiers {
    /// What all caches have in common.
    pub setting: Setting,
    /// The policy of all caches.
    pub policy: Policy,
    /// The size of a node, in bytes.
    pub size: usize,
    pub(crate) nodes: Vec<Cache>,
    // The numbers of the nodes that are there.
    pub(crate) there: Vec<u64>,
    pub(crate) shield: Option<Cache>,
    pub ghost within: { All (λ n. n < length nodes.items) there.items },
}
