//! Taking the pair that a look-up found.
ghost use Rattle.std.specs.Prelude.{◌≡◌, IfOk, IfErr, OnOk, OnErr, Some, None, cond, true, false};
ghost use Rattle.pcache_base.specs.declared.error.ErrorType.TheVariants.{OutOfMemory};
ghost use Rattle.pcache_request.specs.Reports.{IsNotedIn, access_of, noted_in};
ghost use Rattle.pcache_request.specs.Requests.{counts_hit, phase_found};

use super::{Access, AskedLock, FoundReport, HttpCache, entry_for, replace_reader, take_lock_if};
use crate::phase::{CachePhase, HitStatus};
use pcache_base::error::{Error, Result};
use pcache_base::key::CacheKey;
use pcache_base::moment::Moment;
use pcache_evict::eviction::EvictionManager;
use pcache_lock::lock::CacheKeyLock;
use pcache_meta::meta::CacheMeta;
use pcache_store::storage::{HandleHit, Storage};
use std::alloc::AllocError;

// Records the use of a body that counts as accessed and is not treated as a miss. Returns the
// access, if it was recorded.
fn note_access<S: Storage, E: EvictionManager>(
    eviction: &mut E,
    key: &CacheKey,
    meta: &CacheMeta,
    hit: &S::Hit,
    status: HitStatus,
) -> Result<Option<Access>, AllocError>
    ensures access { IfOk result (λ a. a ≡ cond (counts_hit status (S.Hit.reader hit.now))
        (Some (access_of S.guarantees.numbers key.now (S.Hit.reader hit.now))) None) }
    ensures tracked { OnOk result (E.tracked eviction.new
        ≡ cond (counts_hit status (S.Hit.reader hit.now))
        (noted_in (E.tracked eviction.old)
        (access_of S.guarantees.numbers key.now (S.Hit.reader hit.now))) (E.tracked eviction.old)) }
    ensures unused { counts_hit status (S.Hit.reader hit.now) ≡ false
        → eviction.new ≡ eviction.old }
    ensures order { IfOk result (λ a. IsNotedIn (E.rules eviction.old) (E.shown eviction.old) a
        (E.shown eviction.new)) }
    ensures err { OnErr result (E.tracked eviction.new ≡ E.tracked eviction.old) }
    ensures limits { E.limits eviction.new ≡ E.limits eviction.old }
    ensures evicted { E.evicted eviction.new ≡ E.evicted eviction.old }
    ensures counts { OnErr result (counts_hit status (S.Hit.reader hit.now) ≡ true) }
{
    if !hit.should_count_access() || status.is_treated_as_miss() {
        return Ok(None);
    }
    let entry = entry_for(key, hit.entry_id())?;
    let weight = hit.get_eviction_weight();
    eviction.access(&entry, weight, meta.fresh_until())?;
    Ok(Some(Access { entry, weight }))
}

// The phase after a found pair with this status.
fn phase_found(status: HitStatus, phase: CachePhase) -> CachePhase
    ensures { result ≡ phase_found status phase }
{
    match status {
        HitStatus::Fresh | HitStatus::ForceFresh => CachePhase::Hit,
        HitStatus::Expired | HitStatus::ForceExpired | HitStatus::ForceExpiredServeStale => {
            CachePhase::Stale
        }
        HitStatus::ForceMiss | HitStatus::FailedHitFilter => phase,
    }
}

impl<S: Storage> HttpCache<S> {
    ghost use Rattle.std.specs.Prelude.{◌≡◌, ◌⊎◌, IfOk, IfErr, OnOk, OnErr, IsTrue, false};
    ghost use Rattle.pcache_base.specs.declared.error.ErrorType.TheVariants.{OutOfMemory};
    ghost use Rattle.pcache_request.specs.Looking.{TakesFound, asked_in};
    ghost use Rattle.pcache_request.specs.Phases.{MayLookUp};
    ghost use Rattle.pcache_request.specs.Sides.{lock_side, store_side};
    ghost use Rattle.pcache_request.specs.Requests.{asks_for_hit, counts_found, tracked_by_hit};
    ghost use Rattle.pcache_request.specs.Reports.{IsNotedIn, asked_by_found, access_by_hit};

    // Records the use of the found entry with the manager, if one is in use and the hit counts and
    // is not treated as a miss. Returns the access.
    fn note_found<E: EvictionManager>(
        &self,
        eviction: &mut E,
        meta: &CacheMeta,
        hit: &S::Hit,
        status: HitStatus,
    ) -> Result<Option<Access>, AllocError>
        requires { MayLookUp self.now.phase }
        ensures access { IfOk result (λ a.
            a ≡ access_by_hit S.guarantees.numbers status (S.Hit.reader hit.now) self.now) }
        ensures tracked { OnOk result (E.tracked eviction.new
            ≡ tracked_by_hit S.guarantees.numbers status (S.Hit.reader hit.now) self.now
            (E.tracked eviction.old)) }
        ensures unused { counts_found status (S.Hit.reader hit.now) self.now ≡ false
            → eviction.new ≡ eviction.old }
        ensures order { IfOk result (λ a. IsNotedIn (E.rules eviction.old) (E.shown eviction.old) a
            (E.shown eviction.new)) }
        ensures err { OnErr result (E.tracked eviction.new ≡ E.tracked eviction.old) }
        ensures limits { E.limits eviction.new ≡ E.limits eviction.old }
        ensures evicted { E.evicted eviction.new ≡ E.evicted eviction.old }
        ensures counts { OnErr result
            (IsTrue (counts_found status (S.Hit.reader hit.now) self.now)) }
    {
        let Some(key) = &self.key else { unreachable!() };
        if !self.uses.eviction {
            return Ok(None);
        }
        note_access::<S, E>(eviction, key, meta, hit, status)
    }

    // Takes the pair that a look-up found, whose use was recorded. Returns the lock that was asked
    // for. If that fails, the hit is let go.
    pub(super) fn place_found<L: CacheKeyLock>(
        &mut self,
        storage: &mut S,
        lock: &mut L,
        meta: CacheMeta,
        hit: S::Hit,
        status: HitStatus,
        now: Moment,
    ) -> Result<Option<AskedLock>>
        requires { MayLookUp self.old.phase }
        ensures asked { IfOk result (λ a. a ≡ asked_by_found status (L.table lock.old) self.old) }
        ensures takes { TakesFound result status meta (S.Hit.reader hit) now self.old self.new
            (store_side S.state S.past storage.old) (store_side S.state S.past storage.new)
            (lock_side L.table L.past lock.old) (lock_side L.table L.past lock.new) }
        ensures asks { OnErr result (IsTrue (asks_for_hit status self.old)) }
    {
        let Some(key) = &self.key else { unreachable!() };
        let phase = phase_found(status, self.phase);
        let asked = match take_lock_if(
            self.alloc,
            self.uses.lock && !status.is_fresh(),
            &mut self.held,
            lock,
            key,
            phase.is_stale(),
            now,
        ) {
            Ok(asked) => asked,
            Err(refused) => {
                hit.let_go(storage);
                return Err(refused);
            }
        };
        self.phase = phase;
        if status.is_treated_as_miss() {
            hit.let_go(storage);
            self.meta = None;
            replace_reader(&mut self.reader, None, storage);
        } else {
            self.traces.start_hit_span(phase, status);
            self.traces.log_meta_in_hit_span(&meta);
            self.meta = Some(meta);
            replace_reader(&mut self.reader, Some(hit), storage);
        }
        Ok(asked)
    }

    /// Takes the pair that a look-up found. Its use is recorded, if a manager is in use and the hit
    /// counts and is not treated as a miss; otherwise the manager is unchanged. A fresh hit is
    /// served; a stale one may be renewed, and one that is treated as a miss is let go: both ask for
    /// the lock if one is in use. Fails only if a use is recorded or the lock asked for. If it fails,
    /// the hit is let go; an access recorded before remains if it was the lock that failed.
    /// Requires the phase CacheKey or Stale; ask `phase().may_look_up()`.
    pub fn cache_found<L: CacheKeyLock, E: EvictionManager>(
        &mut self,
        storage: &mut S,
        eviction: &mut E,
        lock: &mut L,
        meta: CacheMeta,
        hit: S::Hit,
        status: HitStatus,
        now: Moment,
    ) -> Result<()>
        requires { MayLookUp self.old.phase }
        ensures takes { TakesFound result status meta (S.Hit.reader hit) now self.old self.new
            (store_side S.state S.past storage.old) (store_side S.state S.past storage.new)
            (lock_side L.table L.past lock.old) (lock_side L.table L.past lock.new) }
        ensures tracked { OnOk result (E.tracked eviction.new
            ≡ tracked_by_hit S.guarantees.numbers status (S.Hit.reader hit) self.old
            (E.tracked eviction.old)) }
        ensures noted { OnErr result ((E.tracked eviction.new ≡ E.tracked eviction.old)
            ⊎ (E.tracked eviction.new
            ≡ tracked_by_hit S.guarantees.numbers status (S.Hit.reader hit) self.old
            (E.tracked eviction.old))) }
        ensures stays { OnErr result ((E.tracked eviction.new ≡ E.tracked eviction.old)
            ⊎ IsTrue (asks_for_hit status self.old)) }
        ensures unused { counts_found status (S.Hit.reader hit) self.old ≡ false
            → eviction.new ≡ eviction.old }
        ensures order { OnOk result (IsNotedIn (E.rules eviction.old) (E.shown eviction.old)
            (access_by_hit S.guarantees.numbers status (S.Hit.reader hit) self.old)
            (E.shown eviction.new)) }
        ensures something { OnErr result (IsTrue (counts_found status (S.Hit.reader hit) self.old)
            ⊎ IsTrue (asks_for_hit status self.old)) }
        ensures limits { E.limits eviction.new ≡ E.limits eviction.old }
        ensures evicted { E.evicted eviction.new ≡ E.evicted eviction.old }
    {
        let FoundReport { access: _, asked } = self.take_found(
            storage, eviction, lock, meta, hit, status, now,
        )?;
        match asked {
            Ok(_asked) => Ok(()),
            Err(refused) => Err(refused),
        }
    }

    /// `cache_found` with a result that says how far it came: if it fails, it only let the hit go;
    /// otherwise the use was recorded, even if the lock failed and the hit was let go.
    /// Requires the phase CacheKey or Stale; ask `phase().may_look_up()`.
    pub fn take_found<L: CacheKeyLock, E: EvictionManager>(
        &mut self,
        storage: &mut S,
        eviction: &mut E,
        lock: &mut L,
        meta: CacheMeta,
        hit: S::Hit,
        status: HitStatus,
        now: Moment,
    ) -> Result<FoundReport>
        requires { MayLookUp self.old.phase }
        ensures access { IfOk result (λ f.
            f.access ≡ access_by_hit S.guarantees.numbers status (S.Hit.reader hit) self.old) }
        ensures tracked { OnOk result (E.tracked eviction.new
            ≡ tracked_by_hit S.guarantees.numbers status (S.Hit.reader hit) self.old
            (E.tracked eviction.old)) }
        ensures asked { IfOk result (λ f.
            IfOk f.asked (λ a. a ≡ asked_by_found status (L.table lock.old) self.old)) }
        ensures takes { TakesFound (asked_in result) status meta (S.Hit.reader hit) now
            self.old self.new
            (store_side S.state S.past storage.old) (store_side S.state S.past storage.new)
            (lock_side L.table L.past lock.old) (lock_side L.table L.past lock.new) }
        ensures unlocked_asks { IfOk result (λ f.
            OnErr f.asked (IsTrue (asks_for_hit status self.old))) }
        ensures same_tracked { OnErr result (E.tracked eviction.new ≡ E.tracked eviction.old) }
        ensures unused { counts_found status (S.Hit.reader hit) self.old ≡ false
            → eviction.new ≡ eviction.old }
        ensures order { IfOk result (λ f. IsNotedIn (E.rules eviction.old) (E.shown eviction.old)
            f.access (E.shown eviction.new)) }
        ensures counts { OnErr result (IsTrue (counts_found status (S.Hit.reader hit) self.old)) }
        ensures limits { E.limits eviction.new ≡ E.limits eviction.old }
        ensures evicted { E.evicted eviction.new ≡ E.evicted eviction.old }
        ensures kind { IfErr result (λ e. e ≡ OutOfMemory) }
    {
        let access = match self.note_found(eviction, &meta, &hit, status) {
            Ok(access) => access,
            Err(refused) => {
                hit.let_go(storage);
                return Err(Error::from(refused));
            }
        };
        let asked = self.place_found(storage, lock, meta, hit, status, now);
        // The access was noted also if the lock failed, so a history has to hear of it.
        Ok(FoundReport { access, asked })
    }
}
