//! The end of a request's write.
ghost use Rattle.std.specs.Prelude.{◌≡◌};
ghost use Rattle.pcache_lock.specs.Statuses.{IsReason};
ghost use Rattle.pcache_request.specs.WriteEnds.{status_after};

use super::ending::{EndedWrite, Entering, end_writer};
use super::report::{LockName, WriteReport};
use super::{HttpCache, settle};
use pcache_base::error::{Error, Result};
use pcache_evict::eviction::{CacheEntryKey, EvictionManager};
use pcache_lock::lock::{CacheKeyLock, LockStatus};
use pcache_store::storage::Storage;

/// What the end of a write did.
#[derive(Debug, Drop)]
pub struct FinishReport {
    /// The weight of the entry: what the storage returned, or the weight that was given in its place.
    pub size: usize,
    /// The entries that were evicted, in order.
    pub evicted: Vec<CacheEntryKey>,
    /// For how many of these the purge failed.
    pub failed_purges: usize,
}

// Apart from the plain result, for callers who keep a history: a body that was withdrawn was there
// for a moment.
/// The outcome of the end of a request's write.
#[derive(Debug, Drop)]
pub enum WriteEnd {
    /// There was no write.
    Nothing,
    /// The body is stored.
    Stored(FinishReport),
    /// The end failed, and the write was dropped.
    Dropped(Error),
    /// The body was stored, but its admission failed, and its key was purged again.
    Withdrawn(Error),
}

// The status that a permit is released with after its write ended.
fn status_after(end: &WriteEnd) -> LockStatus
    ensures status { result ≡ status_after end.now }
    ensures reason { IsReason result }
{
    match end {
        WriteEnd::Dropped(_) => LockStatus::TransientError,
        WriteEnd::Nothing | WriteEnd::Stored(_) | WriteEnd::Withdrawn(_) => LockStatus::Done,
    }
}

impl<S: Storage> HttpCache<S> {
    ghost use Rattle.std.specs.Prelude.{◌≡◌, OnErr, Ok, None, IsTrue, is_some, cond, option_map};
    ghost use Rattle.pcache_lock.specs.Statuses.{IsReason};
    ghost use Rattle.pcache_request.specs.Phases.{IsFilling};
    ghost use Rattle.pcache_request.specs.Requests.{settled};
    ghost use Rattle.pcache_request.specs.Finishing.{after_finish};
    ghost use Rattle.pcache_request.specs.NoBody.{HasNoBodyFor, IfWithdrawn, LeavesNone};
    ghost use Rattle.pcache_request.specs.WriteEnds.{EndsAs, finishes_of};
    ghost use Rattle.pcache_request.specs.Replacing.{tracked_before_end, weighed};
    ghost use Rattle.pcache_request.specs.Reports.{name_of, entry_stored};
    ghost use Rattle.pcache_request.specs.LockPasts.{settled_deeds};
    ghost use Rattle.pcache_request.specs.Sides.{lock_side, manager_side, store_side};
    ghost use Rattle.pcache_request.specs.Writing.{Finishes};

    // Releases the lock that the request holds, a permit with a status, and returns which lock it
    // was.
    fn settle_held<L: CacheKeyLock>(&mut self, lock: &mut L, status: LockStatus) -> Option<LockName>
        requires { IsReason status }
        ensures released { result ≡ option_map name_of self.old.held }
        ensures request { self.new ≡ record self.old { held = None } }
        ensures table { L.table lock.new ≡ settled status self.old.held (L.table lock.old) }
        ensures deeds { L.past lock.new ≡ settled_deeds status self.old.held (L.past lock.old) }
    {
        settle(self.alloc, &self.key, &mut self.held, lock, status)
    }

    /// Ends the write and stores the body. Its entry is admitted, and what is evicted for it is
    /// purged, in order. If the end of the write fails, the write is dropped and the permit is
    /// released accordingly; if the admission fails, the body is purged again. Returns `None`
    /// without a write.
    /// Requires the phase Miss or Expired; ask `phase().is_filling()`.
    pub fn finish_miss_handler<L: CacheKeyLock, E: EvictionManager>(
        &mut self,
        storage: &mut S,
        eviction: &mut E,
        lock: &mut L,
    ) -> Result<Option<FinishReport>>
        requires { IsFilling self.old.phase }
        ensures request { self.new ≡ after_finish self.old }
        ensures ended { EndsAs result (λ end. Finishes S.guarantees self.old
            (finishes_of (S.finishes storage.old) self.old.write) (E.tracked eviction.old) end
            (store_side S.state S.past storage.old) (store_side S.state S.past storage.new)
            (manager_side E.tracked E.limits E.evicted eviction.old)
            (manager_side E.tracked E.limits E.evicted eviction.new)
            (lock_side L.table L.past lock.old) (lock_side L.table L.past lock.new)) }
        ensures limits { E.limits eviction.new ≡ E.limits eviction.old }

        // If the admission failed, the key has no body in the store after the call.
        ensures withdrawn { IsTrue S.guarantees.purges
            → OnErr result (LeavesNone self.old.key self.old.write (S.state storage.old)
            (S.state storage.new)) }
    {
        let WriteReport {
            end,
            entry: _,
            released: _,
        } = self.end_write(storage, eviction, lock);
        match end {
            WriteEnd::Nothing => Ok(None),
            WriteEnd::Stored(report) => Ok(Some(report)),
            WriteEnd::Dropped(refused) => Err(refused),
            WriteEnd::Withdrawn(refused) => Err(refused),
        }
    }

    /// `finish_miss_handler` that is told the number of the body which the new one replaces, and what the new entry weighs: the
    /// entry of that body is taken out of the manager before the new one's is admitted, so that at no moment both are tracked.
    /// Requires the phase Miss or Expired; ask `phase().is_filling()`.
    pub fn finish_replacing<L: CacheKeyLock, E: EvictionManager>(
        &mut self,
        storage: &mut S,
        eviction: &mut E,
        lock: &mut L,
        entering: Entering,
    ) -> Result<Option<FinishReport>>
        requires { IsFilling self.old.phase }
        ensures request { self.new ≡ after_finish self.old }
        ensures ended { EndsAs result (λ end. Finishes S.guarantees self.old
            (weighed entering.weight (finishes_of (S.finishes storage.old) self.old.write))
            (tracked_before_end self.old self.old.key entering.replaced end
            (E.tracked eviction.old))
            end
            (store_side S.state S.past storage.old) (store_side S.state S.past storage.new)
            (manager_side E.tracked E.limits E.evicted eviction.old)
            (manager_side E.tracked E.limits E.evicted eviction.new)
            (lock_side L.table L.past lock.old) (lock_side L.table L.past lock.new)) }
        ensures limits { E.limits eviction.new ≡ E.limits eviction.old }
        ensures withdrawn { IsTrue S.guarantees.purges
            → OnErr result (LeavesNone self.old.key self.old.write (S.state storage.old)
            (S.state storage.new)) }
    {
        let WriteReport {
            end,
            entry: _,
            released: _,
        } = self.end_write_replacing(storage, eviction, lock, entering);
        match end {
            WriteEnd::Nothing => Ok(None),
            WriteEnd::Stored(report) => Ok(Some(report)),
            WriteEnd::Dropped(error) => Err(error),
            WriteEnd::Withdrawn(error) => Err(error),
        }
    }

    /// `finish_miss_handler` with a result that says how far it came.
    /// Requires the phase Miss or Expired; ask `phase().is_filling()`.
    pub fn end_write<L: CacheKeyLock, E: EvictionManager>(
        &mut self,
        storage: &mut S,
        eviction: &mut E,
        lock: &mut L,
    ) -> WriteReport
        requires { IsFilling self.old.phase }
        ensures request { self.new ≡ after_finish self.old }
        ensures ends { Finishes S.guarantees self.old
            (finishes_of (S.finishes storage.old) self.old.write) (E.tracked eviction.old)
            result.end
            (store_side S.state S.past storage.old) (store_side S.state S.past storage.new)
            (manager_side E.tracked E.limits E.evicted eviction.old)
            (manager_side E.tracked E.limits E.evicted eviction.new)
            (lock_side L.table L.past lock.old) (lock_side L.table L.past lock.new) }
        ensures entry { result.entry ≡ entry_stored self.old.key self.old.entry result.end }
        ensures released { result.released
            ≡ cond (is_some self.old.write) (option_map name_of self.old.held) None }
        ensures limits { E.limits eviction.new ≡ E.limits eviction.old }
        ensures withdrawn { IsTrue S.guarantees.purges
            → IfWithdrawn result.end (HasNoBodyFor (S.state storage.new) self.old.key) }
    {
        // No manager of upstream's is asked which other entries a key has. So the entry of an old
        // body stays, goes when its turn comes, and its purge finds nothing.
        let entering = Entering {
            replaced: None,
            weight: None,
        };
        self.end_write_replacing(storage, eviction, lock, entering)
    }

    /// `end_write` that is told how the new entry comes into the manager, as `finish_replacing`.
    /// Requires the phase Miss or Expired; ask `phase().is_filling()`.
    pub fn end_write_replacing<L: CacheKeyLock, E: EvictionManager>(
        &mut self,
        storage: &mut S,
        eviction: &mut E,
        lock: &mut L,
        entering: Entering,
    ) -> WriteReport
        requires { IsFilling self.old.phase }
        ensures request { self.new ≡ after_finish self.old }
        ensures ends { Finishes S.guarantees self.old
            (weighed entering.weight (finishes_of (S.finishes storage.old) self.old.write))
            (tracked_before_end self.old self.old.key entering.replaced result.end
            (E.tracked eviction.old))
            result.end
            (store_side S.state S.past storage.old) (store_side S.state S.past storage.new)
            (manager_side E.tracked E.limits E.evicted eviction.old)
            (manager_side E.tracked E.limits E.evicted eviction.new)
            (lock_side L.table L.past lock.old) (lock_side L.table L.past lock.new) }
        ensures entry { result.entry ≡ entry_stored self.old.key self.old.entry result.end }
        ensures released { result.released
            ≡ cond (is_some self.old.write) (option_map name_of self.old.held) None }
        ensures limits { E.limits eviction.new ≡ E.limits eviction.old }
        ensures withdrawn { IsTrue S.guarantees.purges
            → IfWithdrawn result.end (HasNoBodyFor (S.state storage.new) self.old.key) }
    {
        let Some(key) = &self.key else { unreachable!() };
        let Some(writer) = self.writer.take() else {
            return WriteReport::new(WriteEnd::Nothing, None, None);
        };
        self.traces.finish_miss_span();
        let Some(meta) = &self.meta else {
            unreachable!()
        };
        let EndedWrite { end, entry } = end_writer(
            self.alloc,
            self.uses.eviction,
            storage,
            eviction,
            key,
            writer,
            meta.fresh_until(),
            entering,
        );
        let released = self.settle_held(lock, status_after(&end));
        WriteReport::new(end, entry, released)
    }
}
