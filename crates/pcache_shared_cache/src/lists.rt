//! Parts over recency lists.
ghost use Rattle.std.specs.Prelude.{◌≡◌, ◌<◌, IfErr, IfOk, length, map};
ghost use Rattle.pcache_shared_cache.specs.Managed.{listed, no_entries, unmade_limits, unmade_portion};
ghost use Rattle.pcache_base.specs.declared.error.ErrorType.TheVariants.{OutOfMemory};
ghost use Rattle.pcache_evict.specs.declared.eviction.policy.EvictionPolicy.TheVariants.{Lru};
ghost use Rattle.pcache_shared_cache.specs.Portions.{portion_at, portions};

use crate::mark::Mark;
use crate::opening::{NewPart, Unused};
use crate::portion::Portion;
use crate::shared::SharedCache;
use crate::split::{portion_of, portion_of_watermark};
use pcache_base::error::Result;
use pcache_base::seed::Seed;
use pcache_evict::eviction::EvictionPolicy;
use pcache_evict::eviction::simple_lru::Manager;
use std::alloc::{AllocError, Global};
use std::time::Duration;

impl<K: Mark, const N: usize> SharedCache<Manager, K, N> {
    ghost use Rattle.std.specs.Prelude.{◌≡◌, ◌<◌, ℕ, None, IfErr, IfOk, map};
    ghost use Rattle.pcache_base.specs.declared.error.ErrorType.TheVariants.{OutOfMemory};
    ghost use Rattle.std.specs.Duration.{as_nanos};
    ghost use Rattle.pcache_shared_cache.specs.Managed.{no_entries, opened};
    ghost use Rattle.pcache_evict.specs.declared.eviction.policy.EvictionPolicy.TheVariants.{Lru};
    ghost use Rattle.pcache_shared_cache.specs.Portions.{portions, whole_weight};
    ghost use Rattle.pcache_shared_cache.specs.Seen.{limits_in};

    /// An empty cache whose parts evict the least recently used bodies. The limit on what is kept for all responses (body, head and
    /// 512 bytes beside them), and on their number if one is given, is split evenly; the first parts get one more each, for the
    /// remainder. Permits age out after
    /// `age_timeout`. Fails when memory runs out. For marks that name no place; for others take `new_lists` and `SharedCache::over`.
    pub fn with_lists(
        alloc: Global,
        seed: Seed,
        limit: usize,
        watermark: Option<usize>,
        age_timeout: Duration,
    ) -> Result<SharedCache<Manager, K, N>>
        requires some { 0 < N }
        requires unnamed { (place : ℕ) → K.names place ≡ None }
        ensures begins { IfOk result (λ c. c
            ≡ map (opened (as_nanos age_timeout))
            (map no_entries (portions Lru N limit watermark))) }
        ensures limits { IfOk result (λ c. limits_in c ≡ portions Lru N limit watermark) }
        ensures whole { IfOk result (λ c. whole_weight (limits_in c) ≡ limit) }
        ensures kind { IfErr result (λ e. e ≡ OutOfMemory) }
    {
        let lists = new_lists(alloc, seed, limit, watermark, N)?;
        SharedCache::over(alloc, seed, Unused::unnamed(lists), age_timeout)
    }
}

/// So many parts that are to be made, for `over_parts`, which evict the least recently used bodies. The limit on what is kept for
/// all responses, and on their number if one is given, is split evenly; the first parts get one more each, for the remainder. Fails when
/// memory runs out.
pub fn new_lists(
    alloc: Global,
    seed: Seed,
    limit: usize,
    watermark: Option<usize>,
    parts: usize,
) -> Result<Vec<NewPart<Manager>>>
    requires { 0 < parts }
    ensures limits { IfOk result (λ v.
        map unmade_limits v.items ≡ portions Lru parts limit watermark) }
    ensures empty { IfOk result (λ v. map listed (map unmade_portion v.items)
        ≡ map no_entries (portions Lru parts limit watermark)) }
    ensures count { IfOk result (λ v. length v.items ≡ parts) }
    ensures kind { IfErr result (λ e. e ≡ OutOfMemory) }
{
    let mut lists = Vec::with_capacity(alloc, parts)?;
    for place in 0..parts {
        lists.push_reserved(NewPart::new(list_at(alloc, seed, limit, watermark, parts, place)?));
    }
    Ok(lists)
}

// The list of the part at a place, for so many parts.
fn list_at(
    alloc: Global,
    seed: Seed,
    limit: usize,
    watermark: Option<usize>,
    parts: usize,
    place: usize,
) -> Result<Portion<Manager>, AllocError>
    requires { 0 < parts }
    ensures limits { IfOk result (λ p. p.limits ≡ portion_at Lru parts limit watermark place) }
    ensures empty { IfOk result (λ p.
        listed p ≡ no_entries (portion_at Lru parts limit watermark place)) }
{
    let limit = portion_of(limit, parts, place);
    let watermark = portion_of_watermark(watermark, parts, place);
    let list = Manager::new_with_watermark(alloc, seed, limit, watermark)?;
    Ok(Portion::new(list, EvictionPolicy::Lru, limit, watermark))
}
