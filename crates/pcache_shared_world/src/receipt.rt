//! The receipt of a call.

use pcache_world::world::call::{Call, Reply};

/// The receipt of a call of a share: the call and its reply.
#[derive(Drop)]
pub struct Receipt {
    /// The index of its entry in the history; the first call of a world has index 0.
    pub index: usize,
    /// The call.
    pub call: Call,
    /// Its reply.
    pub reply: Reply,
}
