//! Removing and expiring what is stored for a request's key.
ghost use Rattle.std.specs.Prelude.{◌≡◌, IfOk, Some};
ghost use Rattle.pcache_base.specs.CompactKey.{compact_of};
ghost use Rattle.pcache_base.specs.Key.{slot};
ghost use Rattle.pcache_store.specs.Purge.{purge_outcome};
ghost use Rattle.pcache_request.specs.Removals.{Purges};
ghost use Rattle.pcache_request.specs.Reports.{untracked};
ghost use Rattle.pcache_request.specs.Requests.{tracked_gone};
ghost use Rattle.pcache_request.specs.Sides.{manager_side, store_side};

use super::{HttpCache, Removal};
use pcache_base::error::Result;
use pcache_base::key::{CacheKey, CompactCacheKey};
use pcache_base::moment::Moment;
use pcache_evict::eviction::{CacheEntryKey, EvictionManager};
use pcache_store::storage::{PurgeOutcome, PurgeTarget, PurgeType, Storage};

// Removes the entry that a removal removed from the storage from a manager in use too, and returns
// it.
fn untrack<E: EvictionManager>(
    eviction: &mut E,
    is_used: bool,
    key: CompactCacheKey,
    outcome: &PurgeOutcome,
) -> Option<CacheEntryKey>
    ensures untracked { result ≡ untracked is_used key outcome.now }
    ensures tracked { E.tracked eviction.new
        ≡ tracked_gone is_used key outcome.now (E.tracked eviction.old) }
    ensures limits { E.limits eviction.new ≡ E.limits eviction.old }
    ensures evicted { E.evicted eviction.new ≡ E.evicted eviction.old }
{
    if !is_used {
        return None;
    }
    match outcome {
        PurgeOutcome::Purged(id) => {
            let entry = CacheEntryKey::from_entry_id(key, *id);
            eviction.remove(&entry);
            Some(entry)
        }
        PurgeOutcome::NotFound | PurgeOutcome::Expired => None,
    }
}

// Removes what is stored for a key, and its entry from a manager in use.
fn remove_key<S: Storage, E: EvictionManager>(
    storage: &mut S,
    eviction: &mut E,
    is_used: bool,
    key: &CacheKey,
) -> Result<Removal>
    ensures outcome { IfOk result (λ r. r.outcome
        ≡ purge_outcome S.guarantees.numbers (S.state storage.old) (Some (slot key.now))) }
    ensures untracked { IfOk result (λ r.
        r.untracked ≡ untracked is_used (compact_of key.now) r.outcome) }
    ensures purges { Purges result S.guarantees.numbers is_used (Some key.now)
        (store_side S.state S.past storage.old) (store_side S.state S.past storage.new)
        (manager_side E.tracked E.limits E.evicted eviction.old)
        (manager_side E.tracked E.limits E.evicted eviction.new) }
{
    let compact = key.to_compact()?;
    let outcome = storage.purge(PurgeTarget::Active(&compact), PurgeType::Invalidation)?;
    let untracked = untrack(eviction, is_used, compact, &outcome);
    Ok(Removal { outcome, untracked })
}

impl<S: Storage> HttpCache<S> {
    ghost use Rattle.std.specs.Prelude.{◌≡◌, IfOk, option_map};
    ghost use Rattle.pcache_base.specs.Key.{slot};
    ghost use Rattle.pcache_store.specs.Purge.{purge_outcome, expire_outcome};
    ghost use Rattle.pcache_request.specs.Phases.{MayPurge, MaySpawnPurge};
    ghost use Rattle.pcache_request.specs.Removals.{Expires, Purges};
    ghost use Rattle.pcache_request.specs.Reports.{untracked_for};
    ghost use Rattle.pcache_request.specs.Requests.{is_removed_by};
    ghost use Rattle.pcache_request.specs.Sides.{manager_side, store_side};

    /// Removes what is stored for the key, and its entry from the manager. Returns whether anything
    /// was stored.
    /// Requires the phase CacheKey; ask `phase().may_purge()`.
    pub fn purge<E: EvictionManager>(&mut self, storage: &mut S, eviction: &mut E) -> Result<bool>
        requires { MayPurge self.old.phase }
        ensures same { self.new ≡ self.old }
        ensures there { IfOk result (λ there. there
            ≡ is_removed_by (purge_outcome S.guarantees.numbers (S.state storage.old)
            (option_map slot self.old.key))) }
        ensures purges { Purges result S.guarantees.numbers self.old.uses.eviction self.old.key
            (store_side S.state S.past storage.old) (store_side S.state S.past storage.new)
            (manager_side E.tracked E.limits E.evicted eviction.old)
            (manager_side E.tracked E.limits E.evicted eviction.new) }
    {
        Ok(self.purge_key(storage, eviction)?.was_there())
    }

    /// `purge` with a result that also says what the storage found, and which entry was removed
    /// from the manager.
    /// Requires the phase CacheKey; ask `phase().may_purge()`.
    pub fn purge_key<E: EvictionManager>(
        &mut self,
        storage: &mut S,
        eviction: &mut E,
    ) -> Result<Removal>
        requires { MayPurge self.old.phase }
        ensures same { self.new ≡ self.old }
        ensures outcome { IfOk result (λ r. r.outcome
            ≡ purge_outcome S.guarantees.numbers (S.state storage.old)
            (option_map slot self.old.key)) }
        ensures untracked { IfOk result (λ r.
            r.untracked ≡ untracked_for self.old.uses.eviction self.old.key r.outcome) }
        ensures purges { Purges result S.guarantees.numbers self.old.uses.eviction self.old.key
            (store_side S.state S.past storage.old) (store_side S.state S.past storage.new)
            (manager_side E.tracked E.limits E.evicted eviction.old)
            (manager_side E.tracked E.limits E.evicted eviction.new) }
    {
        let Some(key) = &self.key else { unreachable!() };
        remove_key(storage, eviction, self.uses.eviction, key)
    }

    /// Removes what is stored for the key, as `purge` does, in any phase with a key. It is done at
    /// once, and the context, which the Rust logs if that fails, is not read.
    /// Requires a phase that is neither Disabled nor Uninit; ask `phase().may_spawn_purge()`.
    pub fn spawn_async_purge<E: EvictionManager>(
        &mut self,
        storage: &mut S,
        eviction: &mut E,
        _context: &'static str,
    ) -> Result<bool>
        requires { MaySpawnPurge self.old.phase }
        ensures same { self.new ≡ self.old }
        ensures there { IfOk result (λ there. there
            ≡ is_removed_by (purge_outcome S.guarantees.numbers (S.state storage.old)
            (option_map slot self.old.key))) }
        ensures purges { Purges result S.guarantees.numbers self.old.uses.eviction self.old.key
            (store_side S.state S.past storage.old) (store_side S.state S.past storage.new)
            (manager_side E.tracked E.limits E.evicted eviction.old)
            (manager_side E.tracked E.limits E.evicted eviction.new) }
    {
        Ok(self.spawn_purge(storage, eviction)?.was_there())
    }

    /// `spawn_async_purge` with a result that also says what the storage found, and which entry was
    /// removed from the manager.
    /// Requires a phase that is neither Disabled nor Uninit; ask `phase().may_spawn_purge()`.
    pub fn spawn_purge<E: EvictionManager>(
        &mut self,
        storage: &mut S,
        eviction: &mut E,
    ) -> Result<Removal>
        requires { MaySpawnPurge self.old.phase }
        ensures same { self.new ≡ self.old }
        ensures outcome { IfOk result (λ r. r.outcome
            ≡ purge_outcome S.guarantees.numbers (S.state storage.old)
            (option_map slot self.old.key)) }
        ensures untracked { IfOk result (λ r.
            r.untracked ≡ untracked_for self.old.uses.eviction self.old.key r.outcome) }
        ensures purges { Purges result S.guarantees.numbers self.old.uses.eviction self.old.key
            (store_side S.state S.past storage.old) (store_side S.state S.past storage.new)
            (manager_side E.tracked E.limits E.evicted eviction.old)
            (manager_side E.tracked E.limits E.evicted eviction.new) }
    {
        let Some(key) = &self.key else { unreachable!() };
        remove_key(storage, eviction, self.uses.eviction, key)
    }

    /// Ends the freshness of what is stored for the key. Returns whether there was a body.
    /// Requires the phase CacheKey; ask `phase().may_purge()`.
    pub fn expire<E: EvictionManager>(
        &mut self,
        storage: &mut S,
        eviction: &mut E,
        now: Moment,
    ) -> Result<bool>
        requires { MayPurge self.old.phase }
        ensures same { self.new ≡ self.old }
        ensures there { IfOk result (λ there. there
            ≡ is_removed_by (expire_outcome (S.state storage.old) (option_map slot self.old.key))) }
        ensures expires { Expires result now self.old.uses.eviction self.old.key
            (store_side S.state S.past storage.old) (store_side S.state S.past storage.new)
            (manager_side E.tracked E.limits E.evicted eviction.old)
            (manager_side E.tracked E.limits E.evicted eviction.new) }
    {
        Ok(self.expire_key(storage, eviction, now)?.was_there())
    }

    /// `expire` with a result that also says what the storage found, and the entry if it was
    /// removed all the same.
    /// Requires the phase CacheKey; ask `phase().may_purge()`.
    pub fn expire_key<E: EvictionManager>(
        &mut self,
        storage: &mut S,
        eviction: &mut E,
        now: Moment,
    ) -> Result<Removal>
        requires { MayPurge self.old.phase }
        ensures same { self.new ≡ self.old }
        ensures outcome { IfOk result (λ r.
            r.outcome ≡ expire_outcome (S.state storage.old) (option_map slot self.old.key)) }
        ensures untracked { IfOk result (λ r.
            r.untracked ≡ untracked_for self.old.uses.eviction self.old.key r.outcome) }
        ensures expires { Expires result now self.old.uses.eviction self.old.key
            (store_side S.state S.past storage.old) (store_side S.state S.past storage.new)
            (manager_side E.tracked E.limits E.evicted eviction.old)
            (manager_side E.tracked E.limits E.evicted eviction.new) }
    {
        let Some(key) = &self.key else { unreachable!() };
        let compact = key.to_compact()?;
        let outcome = storage.expire(self.alloc, PurgeTarget::Active(&compact), now)?;
        let untracked = untrack(eviction, self.uses.eviction, compact, &outcome);
        Ok(Removal { outcome, untracked })
    }
}
