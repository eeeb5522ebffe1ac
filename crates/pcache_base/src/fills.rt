//! Fills that a request cannot use, named by tokens that a writer may publish.
ghost use Rattle.std.specs.Prelude.{◌≡◌, IfOk, ◌↔◌, IsTrue, []};
ghost use Rattle.pcache_base.specs.Fills.{first_match};

use crate::error::Result;
use std::alloc::AllocError;
use std::marker::Model;

/// A fill that a request cannot use: the token that its writer would publish, and why not.
#[derive(Clone, Copy, Debug, PartialEq, Eq)]
pub struct UnusableFill {
    /// What the writer publishes.
    pub token: u64,
    /// Why the request cannot use that fill.
    pub reason: &'static str,
}

/// The fills that a request cannot use, in the order in which they are sought. A contract sees them
/// as a list.
#[derive(Debug, Drop)]
pub struct UnusableFills {
    fills: Vec<UnusableFill>,
}

impl Model for UnusableFills {
    ghost use Rattle.std.specs.Prelude.{List};
    ghost use Rattle.pcache_base.specs.declared.fills.UnusableFill.{UnusableFill};

    ghost Value = { List UnusableFill };

    ghost view = { λ a. a.fills.items };
}

impl UnusableFills {
    /// These fills, in this order.
    pub fn new(fills: Vec<UnusableFill>) -> UnusableFills
        ensures { result ≡ fills.items }
    {
        UnusableFills { fills }
    }

    /// The fills, in their order.
    pub fn fills(&self) -> &[UnusableFill]
        ensures { result.now ≡ self.now }
    {
        self.fills.as_slice()
    }

    /// Whether no fill is named.
    pub fn is_empty(&self) -> bool
        ensures { IsTrue result ↔ (self.now ≡ []) }
    {
        self.fills.is_empty()
    }

    /// The first fill whose token is among those that were published.
    pub fn first_match(&self, published: &[u64]) -> Option<UnusableFill>
        ensures { result ≡ first_match published.now self.now }
    {
        for fill in self.fills.as_slice() {
            if published.contains(&fill.token) {
                return Some(*fill);
            }
        }
        None
    }

    /// A second list of the same fills. Fails only when memory runs out.
    pub fn copied(&self) -> Result<UnusableFills, AllocError>
        ensures ok { IfOk result (λ copy. copy ≡ self.now) }
    {
        Ok(UnusableFills {
            fills: self.fills.clone()?,
        })
    }
}
