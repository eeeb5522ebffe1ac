//! Taking the pair that a look-up found, where a use adds nothing to what the manager tracks.
ghost use Rattle.std.specs.Prelude.{◌≡◌, OnErr, OnOk, None, Some, cond, true, false};
ghost use Rattle.std.specs.FinMap.{contains_key};
ghost use Rattle.pcache_request.specs.Reports.{IsKeptIn, IsUsedIn, access_of};
ghost use Rattle.pcache_request.specs.Requests.{counts_hit};

use super::{HttpCache, entry_for};
use crate::phase::HitStatus;
use pcache_base::error::{Error, Result};
use pcache_base::key::CacheKey;
use pcache_base::moment::Moment;
use pcache_evict::eviction::{CacheEntryKey, EvictionManager};
use pcache_lock::lock::CacheKeyLock;
use pcache_meta::meta::CacheMeta;
use pcache_store::storage::{HandleHit, Storage};
use std::alloc::AllocError;

// Records a use of an entry that is tracked. An access adds one that is not, which is taken out again: so an entry that is tracked,
// as nearly all are, is looked up once.
fn use_tracked<E: EvictionManager>(
    eviction: &mut E,
    entry: &CacheEntryKey,
    weight: usize,
    fresh_until: Moment,
) -> Result<(), AllocError>
    ensures tracked { E.tracked eviction.new ≡ E.tracked eviction.old }
    ensures order { OnOk result (IsUsedIn (contains_key (E.tracked eviction.old) entry.now)
        (E.rules eviction.old) (E.shown eviction.old)
        (record { entry = entry.now; weight = weight }) (E.shown eviction.new)) }
    ensures limits { E.limits eviction.new ≡ E.limits eviction.old }
    ensures evicted { E.evicted eviction.new ≡ E.evicted eviction.old }
{
    let was_tracked = eviction.access(entry, weight, fresh_until)?;
    if !was_tracked {
        eviction.remove(entry);
    }
    Ok(())
}

// Records the use of a body that counts as accessed and is not treated as a miss.
fn note_use<S: Storage, E: EvictionManager>(
    eviction: &mut E,
    key: &CacheKey,
    meta: &CacheMeta,
    hit: &S::Hit,
    status: HitStatus,
) -> Result<(), AllocError>
    ensures tracked { E.tracked eviction.new ≡ E.tracked eviction.old }
    ensures unused { counts_hit status (S.Hit.reader hit.now) ≡ false
        → eviction.new ≡ eviction.old }
    ensures order { OnOk result (IsKeptIn (E.rules eviction.old) (E.tracked eviction.old)
        (E.shown eviction.old) (cond (counts_hit status (S.Hit.reader hit.now))
        (Some (access_of S.guarantees.numbers key.now (S.Hit.reader hit.now))) None)
        (E.shown eviction.new)) }
    ensures limits { E.limits eviction.new ≡ E.limits eviction.old }
    ensures evicted { E.evicted eviction.new ≡ E.evicted eviction.old }
    ensures counts { OnErr result (counts_hit status (S.Hit.reader hit.now) ≡ true) }
{
    if !hit.should_count_access() || status.is_treated_as_miss() {
        return Ok(());
    }
    let entry = entry_for(key, hit.entry_id())?;
    use_tracked(
        eviction,
        &entry,
        hit.get_eviction_weight(),
        meta.fresh_until(),
    )
}

impl<S: Storage> HttpCache<S> {
    ghost use Rattle.std.specs.Prelude.{◌≡◌, ◌⊎◌, OnOk, OnErr, IsTrue, false};
    ghost use Rattle.pcache_request.specs.Looking.{TakesFound};
    ghost use Rattle.pcache_request.specs.Phases.{MayLookUp};
    ghost use Rattle.pcache_request.specs.Sides.{lock_side, store_side};
    ghost use Rattle.pcache_request.specs.Reports.{IsKeptIn, access_by_hit};
    ghost use Rattle.pcache_request.specs.Requests.{asks_for_hit, counts_found};

    // Records the use of the found entry, if a manager is in use and the hit counts and is not treated as a miss.
    fn use_found<E: EvictionManager>(
        &self,
        eviction: &mut E,
        meta: &CacheMeta,
        hit: &S::Hit,
        status: HitStatus,
    ) -> Result<(), AllocError>
        requires { MayLookUp self.now.phase }
        ensures tracked { E.tracked eviction.new ≡ E.tracked eviction.old }
        ensures unused { counts_found status (S.Hit.reader hit.now) self.now ≡ false
            → eviction.new ≡ eviction.old }
        ensures order { OnOk result (IsKeptIn (E.rules eviction.old) (E.tracked eviction.old)
            (E.shown eviction.old)
            (access_by_hit S.guarantees.numbers status (S.Hit.reader hit.now) self.now)
            (E.shown eviction.new)) }
        ensures limits { E.limits eviction.new ≡ E.limits eviction.old }
        ensures evicted { E.evicted eviction.new ≡ E.evicted eviction.old }
        ensures counts { OnErr result
            (IsTrue (counts_found status (S.Hit.reader hit.now) self.now)) }
    {
        let Some(key) = &self.key else { unreachable!() };
        if !self.uses.eviction {
            return Ok(());
        }
        note_use::<S, E>(eviction, key, meta, hit, status)
    }

    /// `cache_found`, but an entry that is not tracked stays so: the body of a hit may have been removed since it was found, and its
    /// entry with it.
    /// Requires the phase CacheKey or Stale; ask `phase().may_look_up()`.
    pub fn cache_found_tracked<L: CacheKeyLock, E: EvictionManager>(
        &mut self,
        storage: &mut S,
        eviction: &mut E,
        lock: &mut L,
        meta: CacheMeta,
        hit: S::Hit,
        status: HitStatus,
        now: Moment,
    ) -> Result<()>
        requires { MayLookUp self.old.phase }
        ensures takes { TakesFound result status meta (S.Hit.reader hit) now self.old self.new
            (store_side S.state S.past storage.old) (store_side S.state S.past storage.new)
            (lock_side L.table L.past lock.old) (lock_side L.table L.past lock.new) }
        ensures tracked { E.tracked eviction.new ≡ E.tracked eviction.old }
        ensures unused { counts_found status (S.Hit.reader hit) self.old ≡ false
            → eviction.new ≡ eviction.old }
        ensures order { OnOk result (IsKeptIn (E.rules eviction.old) (E.tracked eviction.old)
            (E.shown eviction.old)
            (access_by_hit S.guarantees.numbers status (S.Hit.reader hit) self.old)
            (E.shown eviction.new)) }
        ensures something { OnErr result (IsTrue (counts_found status (S.Hit.reader hit) self.old)
            ⊎ IsTrue (asks_for_hit status self.old)) }
        ensures limits { E.limits eviction.new ≡ E.limits eviction.old }
        ensures evicted { E.evicted eviction.new ≡ E.evicted eviction.old }
    {
        if let Err(refused) = self.use_found(eviction, &meta, &hit, status) {
            hit.let_go(storage);
            return Err(Error::from(refused));
        }
        match self.place_found(storage, lock, meta, hit, status, now) {
            Ok(_asked) => Ok(()),
            Err(refused) => Err(refused),
        }
    }
}
