//! The cache, and its getters.
ghost use Rattle.std.specs.Prelude.{◌≡◌, ◌<◌, IfErr, IfOk, length, map};
ghost use Rattle.pcache_base.specs.declared.error.ErrorType.TheVariants.{OutOfMemory};
ghost use Rattle.std.specs.Duration.{as_nanos};
ghost use Rattle.pcache_shared_cache.specs.Managed.{opened, unmade_managed, unmade_name};
ghost use Rattle.pcache_shared_cache.specs.Seen.{AreNamed, ArePlaced, begun_first};

use crate::mark::Mark;
use crate::opening::{NewPart, Unused, new_parts};
use crate::part::PartLock;
use crate::portion::Portion;
use crate::put::SharedPut;
use crate::request::SharedRequest;
use crate::split::place_of;
use pcache_base::error::Result;
use pcache_base::key::CacheKey;
use pcache_base::seed::Seed;
use pcache_evict::eviction::EvictionManager;
use pcache_put::policy::CachePut;
use std::alloc::{AllocError, Global};
use std::marker::Model;
use std::sync::Wait;
use std::time::Duration;

/// A cache in `N` parts, each a `Cache` behind a lock of its own. A key is in the part of its primary hash. Each part has at all
/// times the invariant of a `Cache`, with the part's own limits, against which an entry counts with all that is kept for it
/// (`Weighing::Entries`). A contract sees the states in which the parts began, and not their limits alone, so that `new` can say
/// what the entries of the managers are, and at which age permits get too old.
///
/// `K` is a mark, a type of the caller's that nothing else uses: a request of one cache cannot be used with the parts
/// of another.
#[derive(Drop)]
pub struct SharedCache<M: EvictionManager, K: Mark, const N: usize> {
    alloc: Global,
    parts: Vec<PartLock<M, K>>,
    // Room for the managers that `into_portions` hands out, so that this takes no memory at the
    // end.
    room: Vec<Portion<M>>,
}

impl<M: EvictionManager, K: Mark, const N: usize> Model for SharedCache<M, K, N> {
    ghost use Rattle.std.specs.Prelude.{◌≡◌, ◌<◌, ◌≤◌, [], List, length, map, vec_capacity};
    ghost use Rattle.pcache_cache.specs.Parts.{Parts};
    ghost use Rattle.pcache_shared_cache.specs.Seen.{ArePlaced, begun_first};
    ghost use Rattle.pcache_shared_cache.specs.SeenCode.{firsts_code};

    ghost Value = { List Parts };

    ghost coded = { firsts_code };

    ghost view = { λ c. map begun_first c.parts.items };

    ghost invariant = { λ c. (0 < N) × (length c.parts.items ≡ N) × ArePlaced c.parts.items × (c.room.items ≡ []) × (N ≤ vec_capacity c.room) };
}

impl<M: EvictionManager, K: Mark, const N: usize> SharedCache<M, K, N> {
    ghost use Rattle.std.specs.Prelude.{◌≡◌, ◌<◌, ◌≤◌, ℕ, [], true, false, None, Some, IfErr, IfOk, IfSome, length, map, slice_get, sum_by};
    ghost use Rattle.pcache_base.specs.declared.error.ErrorType.TheVariants.{OutOfMemory};
    ghost use Rattle.pcache_response.specs.Progress.{AtHead};
    ghost use Rattle.pcache_put.specs.State.{HasTaken, InHead};
    ghost use Rattle.pcache_request.specs.Requests.{enabled_with, new_request, with_key};
    ghost use Rattle.pcache_store.specs.Totals.{slots, stored_bytes};
    ghost use Rattle.std.specs.Duration.{as_nanos};
    ghost use Rattle.pcache_shared_cache.specs.Managed.{managed, managed_in, opened};
    ghost use Rattle.pcache_shared_cache.specs.Portions.{place_of, whole_watermark, whole_weight};
    ghost use Rattle.pcache_shared_cache.specs.Seen.{StartsWith, limits_in};
    ghost use Rattle.pcache_shared_cache.specs.Shared.{InParts};

    /// An empty cache with a part for each of `N` managers, under a mark that names no place. Permits age out after `age_timeout`.
    /// The tables hash under the seed, on which no result depends. Fails when memory runs out.
    pub fn new(
        alloc: Global,
        seed: Seed,
        portions: Vec<Portion<M>>,
        age_timeout: Duration,
    ) -> Result<SharedCache<M, K, N>>
        requires some { 0 < N }
        requires count { length portions.items ≡ N }
        requires unnamed { (place : ℕ) → K.names place ≡ None }
        ensures begins { IfOk result (λ c. c
            ≡ map (opened (as_nanos age_timeout))
            (map (managed_in M.tracked M.evicted) portions.items)) }
        ensures kind { IfErr result (λ e. e ≡ OutOfMemory) }
    {
        let new_parts = new_parts(alloc, portions)?;
        SharedCache::over(alloc, seed, Unused::unnamed(new_parts), age_timeout)
    }

    /// The same over parts that the mark names: see `over_parts`.
    pub fn over(
        alloc: Global,
        seed: Seed,
        unused: Unused<M, K>,
        age_timeout: Duration,
    ) -> Result<SharedCache<M, K, N>>
        requires some { 0 < N }
        requires count { length unused ≡ N }
        ensures begins { IfOk result (λ c. c ≡ map (opened (as_nanos age_timeout)) unused) }
        ensures kind { IfErr result (λ e. e ≡ OutOfMemory) }
    {
        let new_parts = unused.into_parts();
        let room = Vec::with_capacity(alloc, new_parts.len())?;
        let parts = locks_of(alloc, seed, new_parts, age_timeout)?;
        Ok(SharedCache { alloc, parts, room })
    }

    /// Takes the cache apart, and hands out the managers of the parts, by place, each with its part's limits: to be saved, or for
    /// `new`. The bodies are gone. It takes no memory. To lend them while threads go on, each would have to be lent under its lock
    /// to the caller's code.
    pub fn into_portions<R: Wait>(self, rt: &R) -> Vec<Portion<M>>
        ensures portions { InParts (limits_in self) (λ ps.
            map (managed_in M.tracked M.evicted) result.items ≡ map managed ps) }
        ensures limits { map (λ p. p.limits) result.items ≡ limits_in self }
    {
        let SharedCache {
            alloc: _,
            parts,
            room: mut portions,
        } = self;
        for part in parts {
            portions.push_reserved(part.into_portion(rt));
        }
        portions
    }

    /// The allocator that the cache was made with, for the keys of its callers.
    pub fn alloc(&self) -> Global {
        self.alloc
    }

    /// A request for a key, with caching turned on, which uses the eviction manager and the lock table. It takes no lock. It has
    /// seen how its part began.
    pub fn request(&self, key: CacheKey) -> SharedRequest<K, N>
        ensures place { result.place ≡ place_of N key }
        ensures seen { IfSome (slice_get self.now result.place) (StartsWith result.seen) }
        ensures request { result.cache
            ≡ with_key key (enabled_with
            (record { eviction = true; predictor = false; lock = true }) new_request) }
        ensures fetch { result.fetch ≡ None }
    {
        // For the prover: a use of a field brings in the invariant: there are `N` parts, each at
        // its place.
        let _parts = &self.parts;
        let sight = self.part(place_of::<N>(&key)).beginning();
        SharedRequest::new(self.alloc, key, sight)
    }

    /// A put of a key, with no limit on its body. It takes no lock. It has seen how its part began.
    pub fn put<C: CachePut>(&self, policy: C, key: CacheKey) -> SharedPut<C, K, N>
        ensures place { result.place ≡ place_of N key }
        ensures seen { IfSome (slice_get self.now result.place) (StartsWith result.seen) }
        ensures put { result.put
            ≡ record {
              policy = policy;
              key = key;
              size = None;
              parser = AtHead [];
              stage = InHead;
            } }
        ensures taken { HasTaken (C.says policy) result.put [] None }
    {
        // For the prover: there are `N` parts, each at its place.
        let _parts = &self.parts;
        let begun = self.part(place_of::<N>(&key)).beginning();
        SharedPut::new(self.alloc, policy, key, begun)
    }

    /// The sum of the lengths of the complete bodies, each part asked in turn: at most the whole limit.
    pub fn stored_bytes<R: Wait>(&self, rt: &R) -> u128
        ensures value { InParts (limits_in self.now) (λ ps.
            result ≡ sum_by (λ p. stored_bytes p.store) ps) }
        ensures within { result ≤ whole_weight (limits_in self.now) }
    {
        let mut total = 0u128;
        for part in &self.parts {
            total += part.stored_bytes(rt) as u128;
        }
        total
    }

    /// The number of complete bodies, each part asked in turn: at most the whole watermark, if each part has one.
    pub fn slots<R: Wait>(&self, rt: &R) -> u128
        ensures value { InParts (limits_in self.now) (λ ps.
            result ≡ sum_by (λ p. slots p.store) ps) }
        ensures within { IfSome (whole_watermark (limits_in self.now)) (λ most. result ≤ most) }
    {
        let mut total = 0u128;
        for part in &self.parts {
            total += part.slots(rt) as u128;
        }
        total
    }

    // The part of a request.
    pub(crate) fn part(&self, place: usize) -> &PartLock<M, K>
        requires { place < N }
        ensures begun { slice_get self.now place ≡ Some result.now.first }
        ensures limits { slice_get (limits_in self.now) place ≡ Some result.now.first.limits }
        ensures place { result.now.place ≡ place }
    {
        let parts = &self.parts;
        &parts[place]
    }
}

// A part behind its lock for each of these, at its place.
fn locks_of<M: EvictionManager, K: Mark>(
    alloc: Global,
    seed: Seed,
    new_parts: Vec<NewPart<M>>,
    age_timeout: Duration,
) -> Result<Vec<PartLock<M, K>>, AllocError>
    requires { AreNamed K.names (map unmade_name new_parts.items) }
    ensures made { IfOk result (λ v. (length v.items ≡ length new_parts.items)
        × ArePlaced v.items
        × (map begun_first v.items
        ≡ map (opened (as_nanos age_timeout))
        (map (unmade_managed M.tracked M.evicted) new_parts.items))) }
{
    let mut parts = Vec::with_capacity(alloc, new_parts.len())?;
    for new_part in new_parts {
        let place = parts.len();
        parts.push_reserved(PartLock::new(alloc, seed, place, new_part, age_timeout));
    }
    Ok(parts)
}
