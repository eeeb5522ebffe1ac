//! The eviction manager of a cache, of the policy that its maker named.
ghost use Rattle.std.specs.Prelude.{◌≡◌, IfOk};
ghost use Rattle.pcache_c.specs.AnyManagers.{HasNone, IsNamed, named_by};

use pcache_base::moment::Moment;
use pcache_base::seed::Seed;
use pcache_evict::eviction::{CacheEntryKey, EvictionManager, simple_lru};
use pcache_policies::{clock, fifo, sieve};
use std::alloc::{AllocError, Global};

/// A policy: which entries go.
#[derive(Clone, Copy)]
pub enum Policy {
    /// That which was used least recently.
    Lru,
    /// The oldest.
    Fifo,
    /// The oldest that was not used since the hand of the clock passed it.
    Clock,
    /// One that was not used since the hand passed it, while those that were stay in their places.
    Sieve,
}

/// A policy by the header's number.
pub(crate) fn policy_of(number: u32) -> Option<Policy>
    ensures { IsNamed number result }
{
    match number {
        0 => Some(Policy::Lru),
        1 => Some(Policy::Fifo),
        2 => Some(Policy::Clock),
        3 => Some(Policy::Sieve),
        _ => None,
    }
}

// No type parameter of the cache, which would make four kinds of objects.
/// A manager of one of the policies. It is no boxed trait object, since a function that makes one and hands it out proves less
/// than it says; nor two `Either`s in one another, whose making and dropping is too much for a check.
#[derive(Drop)]
pub enum AnyManager {
    /// What was used least recently goes.
    Lru(simple_lru::Manager),
    /// The oldest goes.
    Fifo(fifo::Manager),
    /// The oldest goes, unless it was used.
    Clock(clock::Manager),
    /// A hand passes what was used, and what was not goes.
    Sieve(sieve::Manager),
}

impl AnyManager {
    /// A manager of a policy that tracks nothing yet.
    pub(crate) fn new(
        alloc: Global,
        seed: Seed,
        policy: Policy,
        limit: usize,
        watermark: Option<usize>,
    ) -> Result<AnyManager, AllocError>
        ensures policy { IfOk result (λ m. named_by m ≡ policy) }
        ensures none { IfOk result (λ m. HasNone policy limit watermark m) }
    {
        match policy {
            Policy::Lru => {
                let manager = simple_lru::Manager::new_with_watermark(
                    alloc, seed, limit, watermark,
                )?;
                Ok(AnyManager::Lru(manager))
            }
            Policy::Fifo => {
                let manager = fifo::Manager::new_with_watermark(alloc, seed, limit, watermark)?;
                Ok(AnyManager::Fifo(manager))
            }
            Policy::Clock => {
                let manager = clock::Manager::new_with_watermark(alloc, seed, limit, watermark)?;
                Ok(AnyManager::Clock(manager))
            }
            Policy::Sieve => {
                let manager = sieve::Manager::new_with_watermark(alloc, seed, limit, watermark)?;
                Ok(AnyManager::Sieve(manager))
            }
        }
    }
}

impl EvictionManager for AnyManager {
    ghost use Rattle.pcache_c.specs.AnyManagers.{evicted_in, limits_in, named_by, rules_by, shown_in, tracked_in};

    ghost tracked = { tracked_in };

    ghost limits = { limits_in };

    ghost evicted = { evicted_in };

    ghost rules = { λ m. rules_by (named_by m) };

    ghost shown = { shown_in };

    fn total_size(&self) -> usize {
        match self {
            AnyManager::Lru(m) => EvictionManager::total_size(m),
            AnyManager::Fifo(m) => EvictionManager::total_size(m),
            AnyManager::Clock(m) => EvictionManager::total_size(m),
            AnyManager::Sieve(m) => EvictionManager::total_size(m),
        }
    }

    fn total_items(&self) -> usize {
        match self {
            AnyManager::Lru(m) => EvictionManager::total_items(m),
            AnyManager::Fifo(m) => EvictionManager::total_items(m),
            AnyManager::Clock(m) => EvictionManager::total_items(m),
            AnyManager::Sieve(m) => EvictionManager::total_items(m),
        }
    }

    fn evicted_size(&self) -> usize {
        match self {
            AnyManager::Lru(m) => EvictionManager::evicted_size(m),
            AnyManager::Fifo(m) => EvictionManager::evicted_size(m),
            AnyManager::Clock(m) => EvictionManager::evicted_size(m),
            AnyManager::Sieve(m) => EvictionManager::evicted_size(m),
        }
    }

    fn evicted_items(&self) -> usize {
        match self {
            AnyManager::Lru(m) => EvictionManager::evicted_items(m),
            AnyManager::Fifo(m) => EvictionManager::evicted_items(m),
            AnyManager::Clock(m) => EvictionManager::evicted_items(m),
            AnyManager::Sieve(m) => EvictionManager::evicted_items(m),
        }
    }

    fn entries(&self) -> Result<Vec<(CacheEntryKey, usize)>, AllocError> {
        match self {
            AnyManager::Lru(m) => EvictionManager::entries(m),
            AnyManager::Fifo(m) => EvictionManager::entries(m),
            AnyManager::Clock(m) => EvictionManager::entries(m),
            AnyManager::Sieve(m) => EvictionManager::entries(m),
        }
    }

    fn admit(
        &mut self,
        item: CacheEntryKey,
        size: usize,
        fresh_until: Moment,
    ) -> Result<Vec<CacheEntryKey>, AllocError> {
        match self {
            AnyManager::Lru(m) => EvictionManager::admit(m, item, size, fresh_until),
            AnyManager::Fifo(m) => EvictionManager::admit(m, item, size, fresh_until),
            AnyManager::Clock(m) => EvictionManager::admit(m, item, size, fresh_until),
            AnyManager::Sieve(m) => EvictionManager::admit(m, item, size, fresh_until),
        }
    }

    fn increment_weight(
        &mut self,
        item: &CacheEntryKey,
        delta: usize,
        max_weight: Option<usize>,
    ) -> Result<Vec<CacheEntryKey>, AllocError> {
        match self {
            AnyManager::Lru(m) => EvictionManager::increment_weight(m, item, delta, max_weight),
            AnyManager::Fifo(m) => EvictionManager::increment_weight(m, item, delta, max_weight),
            AnyManager::Clock(m) => EvictionManager::increment_weight(m, item, delta, max_weight),
            AnyManager::Sieve(m) => EvictionManager::increment_weight(m, item, delta, max_weight),
        }
    }

    fn remove(&mut self, item: &CacheEntryKey) {
        match self {
            AnyManager::Lru(m) => EvictionManager::remove(m, item),
            AnyManager::Fifo(m) => EvictionManager::remove(m, item),
            AnyManager::Clock(m) => EvictionManager::remove(m, item),
            AnyManager::Sieve(m) => EvictionManager::remove(m, item),
        }
    }

    fn access(
        &mut self,
        item: &CacheEntryKey,
        size: usize,
        fresh_until: Moment,
    ) -> Result<bool, AllocError> {
        match self {
            AnyManager::Lru(m) => EvictionManager::access(m, item, size, fresh_until),
            AnyManager::Fifo(m) => EvictionManager::access(m, item, size, fresh_until),
            AnyManager::Clock(m) => EvictionManager::access(m, item, size, fresh_until),
            AnyManager::Sieve(m) => EvictionManager::access(m, item, size, fresh_until),
        }
    }

    fn peek(&self, item: &CacheEntryKey) -> bool {
        match self {
            AnyManager::Lru(m) => EvictionManager::peek(m, item),
            AnyManager::Fifo(m) => EvictionManager::peek(m, item),
            AnyManager::Clock(m) => EvictionManager::peek(m, item),
            AnyManager::Sieve(m) => EvictionManager::peek(m, item),
        }
    }
}
