//! What one part has stored, for callers who have seen it. A sum over all parts (`SharedCache::stored_bytes`) is handed nothing that
//! was seen, so its contract speaks of some states of the parts, and a made-up one would do; here it is of no older state than was
//! seen.
use crate::log::Sight;
use crate::mark::Mark;
use crate::shared::SharedCache;
use pcache_evict::eviction::EvictionManager;
use std::sync::Wait;

impl<M: EvictionManager, K: Mark, const N: usize> SharedCache<M, K, N> {
    ghost use Rattle.std.specs.Prelude.{◌≡◌, ◌<◌, IfSome, slice_get};
    ghost use Rattle.pcache_store.specs.Totals.{slots, stored_bytes};
    ghost use Rattle.pcache_shared_cache.specs.Seen.{Sees, StartsWith};

    /// How the part at a place began, as something seen: for `stored_bytes_of` and `slots_of`, and to be told (`Sight::sees`) what
    /// the part's requests have seen. It takes no lock.
    pub fn beginning(&self, place: usize) -> Sight<K>
        requires { place < N }
        ensures place { result.place ≡ place }
        ensures seen { IfSome (slice_get self.now place) (StartsWith result.log) }
    {
        self.part(place).beginning()
    }

    /// The sum of the lengths of the complete bodies of one part, which are in no state older than those that were seen of it.
    pub fn stored_bytes_of<R: Wait>(&self, rt: &R, sight: &mut Sight<K>) -> u128
        requires { sight.old.place < N }
        ensures sees { Sees self.now K.names sight.old.place sight.old.log sight.new.log
            (λ p. result ≡ stored_bytes p.store) }
        ensures place { sight.new.place ≡ sight.old.place }
    {
        let lock = self.part(sight.place());
        let mut guard = lock.lock(rt);
        let part = &mut *guard;
        part.log.shows(sight);
        part.cache.stored_bytes()
    }

    /// The number of complete bodies of one part, in no state older than those that were seen of it.
    pub fn slots_of<R: Wait>(&self, rt: &R, sight: &mut Sight<K>) -> usize
        requires { sight.old.place < N }
        ensures sees { Sees self.now K.names sight.old.place sight.old.log sight.new.log
            (λ p. result ≡ slots p.store) }
        ensures place { sight.new.place ≡ sight.old.place }
    {
        let lock = self.part(sight.place());
        let mut guard = lock.lock(rt);
        let part = &mut *guard;
        part.log.shows(sight);
        part.cache.slots()
    }
}
