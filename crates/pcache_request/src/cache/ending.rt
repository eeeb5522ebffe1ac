//! The end of a write, in any call that ends one: its entry and key are made, the storage stores the body, the
//! manager admits the entry, and what is evicted for it is purged.
ghost use Rattle.std.specs.Prelude.{◌≡◌, true, false, IfOk, IfErr, ◌⊎◌, OnErr, OnOk, Some, None, cond};
ghost use Rattle.pcache_base.specs.declared.error.ErrorType.TheVariants.{OutOfMemory};
ghost use Rattle.pcache_base.specs.CompactKey.{compact_of};
ghost use Rattle.pcache_evict.specs.Tracked.{evicted_with};
ghost use Rattle.pcache_store.specs.Purge.{entry_purged};
ghost use Rattle.pcache_store.specs.Refusals.{MayFailFinish};
ghost use Rattle.pcache_store.specs.Store.{dropped, finished, is_superseded, is_untouched};
ghost use Rattle.pcache_request.specs.Finishing.{PurgesAll, Admits, TakesAll, size_reported, with_entry};
ghost use Rattle.pcache_request.specs.Replacing.{tracked_before, weighed, without_entry};
ghost use Rattle.pcache_request.specs.Reports.{entry_stored};
ghost use Rattle.pcache_request.specs.Requests.{entry_of};
ghost use Rattle.pcache_store.specs.Notes.{noted};
ghost use Rattle.pcache_store.specs.Past.{Dropped, Finished};
ghost use Rattle.pcache_request.specs.StorePasts.{EndsPast, entry_past};
ghost use Rattle.pcache_request.specs.WriteEnds.{EndsBody, HoldsNoLock, evicted_by};

use super::entry_for;
use super::finish::{FinishReport, WriteEnd};
use pcache_base::error::{Error, Result};
use pcache_base::key::{CacheKey, CompactCacheKey};
use pcache_base::moment::Moment;
use pcache_evict::eviction::{CacheEntryId, CacheEntryKey, EvictionManager};
use pcache_store::storage::{HandleMiss, MissFinishType, PurgeTarget, PurgeType, Storage};
use std::alloc::{AllocError, Global};

/// How the entry of a new body comes into the manager.
#[derive(Clone, Copy, Debug, PartialEq, Eq)]
pub struct Entering {
    /// The number of the body that the new one replaces, whose entry is taken out first.
    pub replaced: Option<CacheEntryId>,
    /// The weight of the entry, if it is not what the storage returns at the end of the write.
    pub weight: Option<usize>,
}

/// How a write ended.
#[derive(Debug, Drop)]
pub struct EndedWrite {
    /// The outcome.
    pub end: WriteEnd,
    /// The entry of the body, if it was stored and not withdrawn.
    pub entry: Option<CacheEntryKey>,
}

// Purges an entry, and returns whether that failed.
fn has_purge_failed<S: Storage>(storage: &mut S, entry: &CacheEntryKey) -> bool
    ensures refused { result ≡ true → S.state storage.new ≡ S.state storage.old }
    ensures purged { result ≡ false
        → S.state storage.new ≡ entry_purged S.guarantees.numbers (S.state storage.old) entry.now }
    ensures same_past { result ≡ true → S.past storage.new ≡ S.past storage.old }
    ensures past { result ≡ false
        → S.past storage.new ≡ entry_past S.guarantees.numbers (S.past storage.old) entry.now }
    ensures sure { S.guarantees.purges ≡ true → result ≡ false }
{
    storage
        .purge(PurgeTarget::Exact(entry), PurgeType::Eviction)
        .is_err()
}

/// Purges each entry in order, and returns for how many that failed.
pub fn purge_all<S: Storage>(storage: &mut S, entries: &[CacheEntryKey]) -> usize
    ensures purges { PurgesAll S.guarantees.numbers (S.state storage.old) entries.now result
        (S.state storage.new) }
    ensures past { TakesAll (entry_past S.guarantees.numbers) (S.past storage.old) entries.now
        result (S.past storage.new) }
    ensures sure { S.guarantees.purges ≡ true → result ≡ 0 }
{
    let mut failed = 0usize;
    for entry in entries {
        if has_purge_failed(storage, entry) {
            failed += 1;
        }
    }
    failed
}

// Admits the entry of a write with this outcome, if a manager is in use.
fn admit<E: EvictionManager>(
    alloc: Global,
    is_used: bool,
    eviction: &mut E,
    entry: CacheEntryKey,
    kind: MissFinishType,
    fresh_until: Moment,
) -> Result<Vec<CacheEntryKey>, AllocError>
    ensures admits { IfOk result (λ out. Admits is_used (E.limits eviction.old) kind entry
        (E.tracked eviction.old) out.items (E.tracked eviction.new)) }
    ensures evicted { IfOk result (λ out. E.evicted eviction.new
        ≡ cond is_used
        (evicted_with (E.evicted eviction.old) (with_entry kind entry (E.tracked eviction.old))
        out.items) (E.evicted eviction.old)) }
    ensures err { OnErr result (E.tracked eviction.new ≡ E.tracked eviction.old) }
    ensures err_evicted { OnErr result (E.evicted eviction.new ≡ E.evicted eviction.old) }
    ensures limits { E.limits eviction.new ≡ E.limits eviction.old }
{
    if !is_used {
        return Ok(Vec::new(alloc));
    }
    match kind {
        MissFinishType::Created(size) => eviction.admit(entry, size, fresh_until),
        MissFinishType::Appended(size, most) => eviction.increment_weight(&entry, size, most),
    }
}

// Admits the entry of a body that was just stored, and purges what is evicted for it, in order.
fn admit_and_purge<S: Storage, E: EvictionManager>(
    alloc: Global,
    is_used: bool,
    storage: &mut S,
    eviction: &mut E,
    entry: CacheEntryKey,
    kind: MissFinishType,
    fresh_until: Moment,
) -> Result<FinishReport, AllocError>
    ensures size { IfOk result (λ f. f.size ≡ size_reported kind) }
    ensures admits { IfOk result (λ f. Admits is_used (E.limits eviction.old) kind entry
        (E.tracked eviction.old) f.evicted.items (E.tracked eviction.new)) }
    ensures purges { IfOk result (λ f. PurgesAll S.guarantees.numbers (S.state storage.old)
        f.evicted.items f.failed_purges (S.state storage.new)) }
    ensures past { IfOk result (λ f. TakesAll (entry_past S.guarantees.numbers)
        (S.past storage.old) f.evicted.items f.failed_purges (S.past storage.new)) }
    ensures sure { IfOk result (λ f. S.guarantees.purges ≡ true → f.failed_purges ≡ 0) }
    ensures evicted { IfOk result (λ f. E.evicted eviction.new
        ≡ cond is_used
        (evicted_with (E.evicted eviction.old) (with_entry kind entry (E.tracked eviction.old))
        f.evicted.items) (E.evicted eviction.old)) }
    ensures same_store { OnErr result (S.state storage.new ≡ S.state storage.old) }
    ensures same_past { OnErr result (S.past storage.new ≡ S.past storage.old) }
    ensures same_tracked { OnErr result (E.tracked eviction.new ≡ E.tracked eviction.old) }
    ensures same_evicted { OnErr result (E.evicted eviction.new ≡ E.evicted eviction.old) }
    ensures limits { E.limits eviction.new ≡ E.limits eviction.old }
{
    let evicted = admit(alloc, is_used, eviction, entry, kind, fresh_until)?;
    let failed_purges = purge_all(storage, evicted.as_slice());
    Ok(FinishReport {
        size: reported_size(kind),
        evicted,
        failed_purges,
    })
}

// The entry of a key, and the key itself, for a purge.
fn entry_and_key(
    key: &CacheKey,
    id: Option<CacheEntryId>,
) -> Result<(CacheEntryKey, CompactCacheKey), AllocError>
    ensures ok { IfOk result (λ p. (p.0 ≡ entry_of key.now id) × (p.1 ≡ compact_of key.now)) }
{
    let entry = entry_for(key, id)?;
    let compact = key.to_compact()?;
    Ok((entry, compact))
}

// Makes the entry and the key of a write, and then finishes it, which returns what its entry weighs. If that fails, the write
// is dropped.
fn finish_writer<S: Storage>(
    storage: &mut S,
    key: &CacheKey,
    writer: S::Miss,
    weight: Option<usize>,
) -> Result<(CacheEntryKey, CompactCacheKey, MissFinishType)>
    ensures entry { IfOk result (λ p. p.0 ≡ entry_of key.now (S.Miss.entry_number writer)) }
    ensures compact { IfOk result (λ p. p.1 ≡ compact_of key.now) }
    ensures answer { IfOk result (λ p. p.2
        ≡ weighed weight (S.finishes storage.old (S.Miss.write writer))) }
    ensures ok { OnOk result (S.state storage.new
        ≡ finished (S.state storage.old) (S.Miss.write writer)) }
    ensures past { OnOk result (S.past storage.new
        ≡ noted (Some (Finished (S.Miss.write writer))) (S.past storage.old)) }
    ensures untouched { OnOk result (is_untouched (S.state storage.old) (S.Miss.write writer)
        ≡ true) }
    ensures newest { OnOk result (is_superseded (S.state storage.old) (S.Miss.write writer)
        ≡ false) }
    ensures err { OnErr result (S.state storage.new
        ≡ dropped (S.state storage.old) (S.Miss.write writer)) }
    ensures drop_past { OnErr result (S.past storage.new
        ≡ noted (Some (Dropped (S.Miss.write writer))) (S.past storage.old)) }
    ensures kind { IfErr result (λ e.
        (e ≡ OutOfMemory) ⊎ MayFailFinish (S.state storage.old) (S.Miss.write writer) e) }
{
    // Before the finish: a body whose entry memory is refused for would be stored and not tracked.
    let (entry, compact) = match entry_and_key(key, writer.entry_id()) {
        Ok(made) => made,
        Err(refused) => {
            writer.drop_write(storage);
            return Err(Error::from(refused));
        }
    };
    let kind = weighed(writer.finish(storage)?, weight);
    Ok((entry, compact, kind))
}

// What the end of a write returned, with this weight if one is given.
fn weighed(kind: MissFinishType, weight: Option<usize>) -> MissFinishType
    ensures { result ≡ weighed weight kind }
{
    match weight {
        // A storage knows the length of what it stored, and nothing of what else its entry counts
        // for.
        Some(weight) => MissFinishType::Created(weight),
        None => kind,
    }
}

fn reported_size(kind: MissFinishType) -> usize
    ensures { result ≡ size_reported kind }
{
    match kind {
        MissFinishType::Created(size) => size,
        MissFinishType::Appended(size, _) => size,
    }
}

// Takes the entry of the key's body with this number out of the manager, if one is named and a manager is in use. Returns the
// key.
fn remove_replaced<E: EvictionManager>(
    is_used: bool,
    eviction: &mut E,
    key: CompactCacheKey,
    replaced: Option<CacheEntryId>,
) -> CompactCacheKey
    ensures key { result ≡ key }
    ensures tracked { E.tracked eviction.new
        ≡ without_entry is_used key replaced (E.tracked eviction.old) }
    ensures evicted { E.evicted eviction.new ≡ E.evicted eviction.old }
    ensures limits { E.limits eviction.new ≡ E.limits eviction.old }
{
    let Some(id) = replaced else { return key };
    if !is_used {
        return key;
    }
    let entry = CacheEntryKey::identified(key, id);
    eviction.remove(&entry);
    entry.into_key()
}

/// Ends the write of a key and stores its body. Its entry is admitted if a manager is in use, and what is evicted for
/// it is purged, in order. If the end of the write fails, it is dropped; if the admission fails, the body is purged
/// again. The entry and the key are made first, so that a lack of memory for them drops the write.
///
/// If the number of the body that the new one replaces is named, the entry of that body is taken out of the manager once the
/// new body is stored, before the new entry is admitted: at no moment both are tracked. If the write is dropped, the old
/// body stays, and so does its entry. If a weight is given, the entry has it in place of what the storage returns.
pub fn end_writer<S: Storage, E: EvictionManager>(
    alloc: Global,
    is_used: bool,
    storage: &mut S,
    eviction: &mut E,
    key: &CacheKey,
    writer: S::Miss,
    fresh_until: Moment,
    entering: Entering,
) -> EndedWrite
    ensures end { EndsBody S.guarantees is_used (S.Miss.entry_number writer) HoldsNoLock key.now
        (S.Miss.write writer)
        (weighed entering.weight (S.finishes storage.old (S.Miss.write writer)))
        (E.limits eviction.old)
        result.end (S.state storage.old) (S.state storage.new)
        (tracked_before is_used key.now entering.replaced result.end (E.tracked eviction.old))
        (E.tracked eviction.new) }
    ensures past { EndsPast S.guarantees key.now (S.Miss.write writer) result.end
        (S.past storage.old) (S.past storage.new) }
    ensures entry { result.entry
        ≡ entry_stored (Some key.now) (S.Miss.entry_number writer) result.end }
    ensures evicted { E.evicted eviction.new
        ≡ evicted_by is_used (S.Miss.entry_number writer) key.now
        (weighed entering.weight (S.finishes storage.old (S.Miss.write writer)))
        (tracked_before is_used key.now entering.replaced result.end (E.tracked eviction.old))
        (E.evicted eviction.old) result.end }
    ensures limits { E.limits eviction.new ≡ E.limits eviction.old }
{
    let id = writer.entry_id();
    let (entry, compact, kind) = match finish_writer(storage, key, writer, entering.weight) {
        Ok(made) => made,
        Err(refused) => {
            return EndedWrite {
                end: WriteEnd::Dropped(refused),
                entry: None,
            };
        }
    };
    // Not before the finish, which may drop the write and leave the old body; and not after the admission, which would evict others
    // to make room for both.
    let compact = remove_replaced(is_used, eviction, compact, entering.replaced);
    match admit_and_purge(alloc, is_used, storage, eviction, entry, kind, fresh_until) {
        Ok(report) => EndedWrite {
            end: WriteEnd::Stored(report),
            entry: Some(CacheEntryKey::from_entry_id(compact, id)),
        },
        Err(refused) => {
            // A storage that fails here too keeps a body which nothing tracks; that in memory never fails so.
            let _ = storage.purge(PurgeTarget::Active(&compact), PurgeType::Invalidation);
            EndedWrite {
                end: WriteEnd::Withdrawn(Error::from(refused)),
                entry: None,
            }
        }
    }
}
