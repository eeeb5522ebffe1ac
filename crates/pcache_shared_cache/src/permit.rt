//! A permit that goes from one request to another.
ghost use Rattle.std.specs.Prelude.{◌≡◌};

use crate::log::Sight;
use crate::mark::Mark;
use pcache_lock::lock::WritePermit;
use std::marker::Model;

/// A permit that was taken out of a request of the cache in `N` parts with the mark `K`. It belongs to the lock table of that
/// request's part, so another request of the same part may hold it. It knows what that request had seen of the part. It must be spent
/// by `SharedCache::set_write_lock`.
pub struct SharedPermit<K: Mark, const N: usize> {
    sight: Sight<K>,
    permit: WritePermit,
}

impl<K: Mark, const N: usize> Model for SharedPermit<K, N> {
    ghost use Rattle.std.specs.Coded.{codes};
    ghost use Rattle.pcache_cache.specs.PartsCode.{parts_code};
    ghost use Rattle.pcache_shared_cache.specs.Shared.{SeatedPermit};

    ghost Value = { SeatedPermit };

    ghost coded = { Prim.hlevel (codes, parts_code) };

    ghost view = { λ p. record { place = p.sight.place; seen = p.sight.log; permit = p.permit } };
}

impl<K: Mark, const N: usize> SharedPermit<K, N> {
    // A permit of the part of which this was seen.
    pub(crate) fn new(sight: Sight<K>, permit: WritePermit) -> SharedPermit<K, N>
        ensures { result ≡ record { place = sight.place; seen = sight.log; permit = permit } }
    {
        SharedPermit { sight, permit }
    }

    /// The place of its part.
    pub fn place(&self) -> usize
        ensures { result ≡ self.now.place }
    {
        self.sight.place()
    }

    // The permit itself, and what was seen.
    pub(crate) fn into_both(self) -> (WritePermit, Sight<K>)
        ensures permit { result.0 ≡ self.permit }
        ensures place { result.1.place ≡ self.place }
        ensures seen { result.1.log ≡ self.seen }
    {
        let SharedPermit { sight, permit } = self;
        (permit, sight)
    }
}
