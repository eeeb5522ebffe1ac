//! One request's way through the cache.
//!
//! A request borrows what it works on: the storage, the eviction manager and the lock table. Parts
//! that it does not use are not changed. What it holds (a lock, a reader, a write) has to be given
//! back, so a request is spent by `end`.
ghost use Rattle.std.specs.Prelude.{◌≡◌, IfOk, IfErr, OnOk, OnErr, IsSome, Option, Some, None, option_map, cond, true};
ghost use Rattle.pcache_base.specs.Key.{slot};
ghost use Rattle.pcache_base.specs.declared.error.ErrorType.TheVariants.{OutOfMemory};
ghost use Rattle.std.specs.Option.{option_copied};
ghost use Rattle.pcache_lock.specs.Locks.{MayFailLock, lock_given, holder};
ghost use Rattle.pcache_lock.specs.Statuses.{IsReason};
ghost use Rattle.pcache_store.specs.Store.{find_write, followed};
ghost use Rattle.pcache_store.specs.Tag.{named_by};
ghost use Rattle.pcache_request.specs.Requests.{settled, table_asked, left_by, entry_of, reader_in, whole_by, length_by};
ghost use Rattle.pcache_request.specs.Reports.{name_of, asked_with};
ghost use Rattle.pcache_store.specs.Notes.{look_noted, noted};
ghost use Rattle.pcache_request.specs.LockPasts.{asked_deeds, settled_deeds};
ghost use Rattle.pcache_request.specs.StorePasts.{left_past};

mod admission;
mod alone;
mod disable;
pub mod ending;
mod finish;
mod found;
mod found_tracked;
mod lock_use;
mod lock_wait;
mod look;
mod prediction;
mod purge;
mod report;
mod revalidate;
mod shown;
mod size;
mod stale;
mod variance;
mod witness;

use crate::digest::HttpCacheDigest;
use crate::phase::{CachePhase, HitStatus, InUse};
use crate::trace::CacheTraceCTX;
use bytes::Bytes;
pub use finish::{FinishReport, WriteEnd};
pub use lock_use::{CacheOptionOverrides, LockCtx};
use pcache_base::error::Result;
use pcache_base::key::{CacheKey, HashBinary};
use pcache_base::moment::Moment;
use pcache_base::poll::Poll;
use pcache_base::reason::NoCacheReason;
use pcache_evict::eviction::{CacheEntryId, CacheEntryKey, EvictionManager};
use pcache_lock::lock::{CacheKeyLock, LockStatus, Locked};
use pcache_meta::meta::CacheMeta;
use pcache_response::max_file_size::MaxFileSizeTracker;
use pcache_store::storage::{HandleHit, HandleMiss, Storage};
pub use report::{
    Access, AskedLock, FoundReport, LockName, LookUp, ReleasedLock, Removal, Renewal, WaitReport,
    WriteBegin, WriteReport,
};
use std::alloc::{AllocError, Global};
use std::marker::Model;
pub use witness::{NoWitness, Witness};

/// One request's way through the cache.
pub struct HttpCache<S: Storage> {
    alloc: Global,
    phase: CachePhase,
    uses: InUse,
    key: Option<CacheKey>,
    meta: Option<CacheMeta>,
    held: Option<Locked>,
    reader: Option<S::Hit>,
    writer: Option<S::Miss>,
    lock_ctx: LockCtx,
    waits_since: Option<Moment>,
    valid_after: Option<Moment>,
    stale_variance: Option<HashBinary>,
    size: Option<MaxFileSizeTracker>,
    head_limit: Option<usize>,
    predicted: Option<NoCacheReason>,
    has_policy: bool,
    digest: HttpCacheDigest,
    traces: CacheTraceCTX,
}

impl<S: Storage> Model for HttpCache<S> {
    ghost use Rattle.std.specs.Prelude.{option_map};
    ghost use Rattle.std.specs.Duration.{as_nanos};
    ghost use Rattle.std.specs.Option.{option_and_then};
    ghost use Rattle.pcache_request.specs.Requests.{Request, HasKey, IsClear, IsWriting};

    ghost Value = { Request };

    ghost view = { λ a. record {
      phase = a.phase;
      uses = a.uses;
      key = a.key;
      meta = a.meta;
      held = a.held;
      reader = option_map S.Hit.reader a.reader;
      write = option_map S.Miss.write a.writer;
      entry = option_and_then S.Miss.entry_number a.writer;
      wait_timeout = option_map as_nanos a.lock_ctx.wait_timeout;
      max_retries = a.lock_ctx.max_retries;
      waits_since = a.waits_since;
      valid_after = a.valid_after;
      stale_variance = a.stale_variance;
      size = a.size;
      head_limit = a.head_limit;
      predicted = a.predicted;
      has_policy = a.has_policy;
      digest = a.digest;
    } };

    ghost invariant = { λ a. HasKey a.phase a.key × IsClear a.phase a.held a.reader a.writer × IsWriting a.phase a.meta a.writer };
}

// Puts a linear value into an empty place.
fn put<T>(place: &mut Option<T>, value: T)
    requires { place.old ≡ None }
    ensures { place.new ≡ Some value }
{
    let before = place.replace(value);
    let None = before else { unreachable!() };
}

// The name of the held lock, if there is one.
fn name_of(held: &Option<Locked>) -> Option<LockName>
    ensures { result ≡ option_map name_of held.now }
{
    match held {
        Some(lock) => Some(LockName::of(lock)),
        None => None,
    }
}

// Asks for a key's lock, and lets a lock held before go once the new one was given.
fn take_lock<L: CacheKeyLock>(
    alloc: Global,
    held: &mut Option<Locked>,
    lock: &mut L,
    key: &CacheKey,
    stale_writer: bool,
    now: Moment,
) -> Result<AskedLock>
    ensures asked { IfOk result (λ a.
        a ≡ asked_with stale_writer (L.table lock.old) key.now held.old) }
    ensures table { OnOk result (L.table lock.new
        ≡ table_asked stale_writer now (Some key.now) held.old (L.table lock.old)) }
    ensures deeds { OnOk result (L.past lock.new
        ≡ asked_deeds stale_writer now (L.table lock.old) (Some key.now) held.old
        (L.past lock.old)) }
    ensures held { OnOk result (held.new
        ≡ Some (lock_given (L.table lock.old) stale_writer
        (holder (L.table lock.old) (slot key.now)))) }
    ensures same_table { OnErr result (L.table lock.new ≡ L.table lock.old) }
    ensures same_deeds { OnErr result (L.past lock.new ≡ L.past lock.old) }
    ensures same_held { OnErr result (held.new ≡ held.old) }
    ensures kind { IfErr result (λ e. MayFailLock (L.table lock.old) e) }
{
    let new = lock.lock(alloc, key, stale_writer, now)?;
    let given = LockName::of(&new);
    let replaced = name_of(held);
    if let Some(older) = held.replace(new) {
        lock.drop_lock(older);
    }
    Ok(AskedLock { given, replaced })
}

// Asks for a key's lock, if `asks` holds.
fn take_lock_if<L: CacheKeyLock>(
    alloc: Global,
    asks: bool,
    held: &mut Option<Locked>,
    lock: &mut L,
    key: &CacheKey,
    stale_writer: bool,
    now: Moment,
) -> Result<Option<AskedLock>>
    ensures asked { IfOk result (λ a.
        a ≡ cond asks (Some (asked_with stale_writer (L.table lock.old) key.now held.old)) None) }
    ensures held { OnOk result (held.new
        ≡ cond asks
        (Some (lock_given (L.table lock.old) stale_writer
        (holder (L.table lock.old) (slot key.now)))) held.old) }
    ensures table { OnOk result (L.table lock.new
        ≡ cond asks (table_asked stale_writer now (Some key.now) held.old (L.table lock.old))
        (L.table lock.old)) }
    ensures deeds { OnOk result (L.past lock.new
        ≡ cond asks
        (asked_deeds stale_writer now (L.table lock.old) (Some key.now) held.old (L.past lock.old))
        (L.past lock.old)) }
    ensures same_table { OnErr result (L.table lock.new ≡ L.table lock.old) }
    ensures same_deeds { OnErr result (L.past lock.new ≡ L.past lock.old) }
    ensures same_held { OnErr result (held.new ≡ held.old) }
    ensures kind { IfErr result (λ e. MayFailLock (L.table lock.old) e) }
    ensures asks { OnErr result (asks ≡ true) }
{
    if !asks {
        return Ok(None);
    }
    let asked = take_lock(alloc, held, lock, key, stale_writer, now)?;
    Ok(Some(asked))
}

// Releases the held lock: a permit with a status, which needs no key; a read lock is let go. Returns
// which lock it was.
fn settle<L: CacheKeyLock>(
    alloc: Global,
    key: &Option<CacheKey>,
    held: &mut Option<Locked>,
    lock: &mut L,
    status: LockStatus,
) -> Option<LockName>
    requires { IsReason status }
    ensures released { result ≡ option_map name_of held.old }
    ensures held { held.new ≡ None }
    ensures table { L.table lock.new ≡ settled status held.old (L.table lock.old) }
    ensures deeds { L.past lock.new ≡ settled_deeds status held.old (L.past lock.old) }
{
    let released = name_of(held);
    match held.take() {
        Some(Locked::Write(permit)) => match key {
            Some(key) => lock.release(key, permit, status),
            None => {
                let no_key = CacheKey::new(Vec::new(alloc), String::new(alloc));
                lock.release(&no_key, permit, status);
            }
        },
        Some(Locked::Read(read)) => lock.drop_lock(Locked::Read(read)),
        None => {}
    }
    released
}

// A reader that follows the write with this tag, if the store has one.
fn join_write<S: Storage>(
    alloc: Global,
    storage: &mut S,
    key: &CacheKey,
    tag: Option<&[u8]>,
) -> Result<Option<S::Hit>>
    ensures following { IfOk result (λ r. option_map S.Hit.reader r
        ≡ reader_in (find_write (S.state storage.old) (slot key.now)
        (named_by (option_copied tag.entry)))) }
    ensures ok { OnOk result (S.state storage.new
        ≡ followed (S.state storage.old) (find_write (S.state storage.old) (slot key.now)
        (named_by (option_copied tag.entry)))) }
    ensures past { OnOk result (S.past storage.new
        ≡ noted (look_noted (find_write (S.state storage.old) (slot key.now)
        (named_by (option_copied tag.entry)))) (S.past storage.old)) }
    ensures something { OnErr result (IsSome
        (find_write (S.state storage.old) (slot key.now) (named_by (option_copied tag.entry)))) }
    ensures err { OnErr result (S.state storage.new ≡ S.state storage.old) }
    ensures same_past { OnErr result (S.past storage.new ≡ S.past storage.old) }
    ensures kind { IfErr result (λ e. e ≡ OutOfMemory) }
{
    match storage.lookup_streaming_write(alloc, key, tag)? {
        Some((_meta, hit)) => Ok(Some(hit)),
        None => Ok(None),
    }
}

// The entry of a key, with the number of its body or write if there is one.
fn entry_for(key: &CacheKey, id: Option<CacheEntryId>) -> Result<CacheEntryKey, AllocError>
    ensures ok { IfOk result (λ entry. entry ≡ entry_of key.now id) }
{
    Ok(CacheEntryKey::from_entry_id(key.to_compact()?, id))
}

// Replaces the reader, perhaps by none. The old one is let go.
fn replace_reader<S: Storage>(place: &mut Option<S::Hit>, reader: Option<S::Hit>, storage: &mut S)
    ensures place { place.new ≡ reader }
    ensures store { S.state storage.new
        ≡ left_by (option_map S.Hit.reader place.old) (S.state storage.old) }
    ensures past { S.past storage.new
        ≡ left_past (option_map S.Hit.reader place.old) (S.past storage.old) }
{
    if let Some(older) = std::mem::replace(place, reader) {
        older.let_go(storage);
    }
}

impl<S: Storage> HttpCache<S> {
    ghost use Rattle.std.specs.Prelude.{◌≡◌, ◌↔◌, true, false, cond, IfOk, IfErr, IfSome, OnOk, OnErr, IsOk, IsTrue, IsSome, Option, Some, None, option_map, ◌&&◌};
    ghost use Rattle.std.specs.Borrow.{Lends, LendsIf, sem};
    ghost use Rattle.pcache_base.specs.Key.{slot};
    ghost use Rattle.pcache_base.specs.declared.error.ErrorType.TheVariants.{InternalError, OutOfMemory};
    ghost use Rattle.pcache_lock.specs.declared.lock.status.LockStatus.TheVariants.{Done};
    ghost use Rattle.pcache_store.specs.Store.{sought};
    ghost use Rattle.std.specs.Option.{option_copied, option_and_then};
    ghost use Rattle.pcache_request.specs.LockUse.{enabled_waiting};
    ghost use Rattle.pcache_request.specs.Phases.{IsDisabled, MayTakeKey, MayMiss, IsStale, IsFilling, IsReading, MayFinishHit, is_filling};
    ghost use Rattle.pcache_request.specs.Requests.{HasKey, HoldsNothing, Request, new_request, with_key, missed, MayTakeMeta, with_meta, MayWrite, settled, left_by};
    ghost use Rattle.pcache_request.specs.Reports.{name_of};
    ghost use Rattle.pcache_request.specs.contracts.cache.HttpCache.{the_row};
    ghost use Rattle.pcache_request.specs.Ending.{EndsRequest};
    ghost use Rattle.pcache_request.specs.Looking.{EndsHit, Reads};
    ghost use Rattle.pcache_request.specs.Sides.{lock_side, store_side};
    ghost use Rattle.pcache_request.specs.Writing.{BeginsWrite, TellsWriteBegin};
    ghost use Rattle.pcache_request.specs.LockPasts.{settled_deeds};
    ghost use Rattle.pcache_request.specs.StorePasts.{left_past};

    /// A request for which caching was never turned on.
    pub fn new(alloc: Global) -> HttpCache<S>
        ensures { result ≡ new_request }
    {
        HttpCache {
            alloc,
            phase: CachePhase::Disabled(NoCacheReason::NeverEnabled),
            uses: InUse {
                eviction: false,
                predictor: false,
                lock: false,
            },
            key: None,
            meta: None,
            held: None,
            reader: None,
            writer: None,
            lock_ctx: LockCtx::new(),
            waits_since: None,
            valid_after: None,
            stale_variance: None,
            size: None,
            head_limit: None,
            predicted: None,
            has_policy: false,
            digest: HttpCacheDigest::new(),
            traces: CacheTraceCTX::new(),
        }
    }

    /// Turns caching on, with these parts in use and these options of its lock. All else but the digest is as in a new
    /// request. A disabled request holds nothing, so nothing is lost.
    /// Requires the phase Disabled; ask `phase().is_disabled()`.
    pub fn enable(&mut self, uses: InUse, overrides: Option<CacheOptionOverrides>)
        requires { IsDisabled self.old.phase }
        ensures request { self.new ≡ enabled_waiting uses overrides self.old }
        ensures held { HoldsNothing self.old }
    {
        self.phase = CachePhase::Uninit;
        self.uses = uses;
        self.key = None;
        self.meta = None;
        self.lock_ctx = LockCtx::of(uses.lock, overrides);
        self.waits_since = None;
        self.valid_after = None;
        self.stale_variance = None;
        self.size = None;
        self.head_limit = None;
        self.predicted = None;
        self.has_policy = false;
    }

    /// The phase of the request.
    pub fn phase(&self) -> CachePhase
        ensures { result ≡ self.now.phase }
    {
        self.phase
    }

    /// Which parts are in use.
    pub fn uses(&self) -> InUse
        ensures { result ≡ self.now.uses }
    {
        self.uses
    }

    /// The key, if one is set. There is one in each phase after CacheKey.
    pub fn key(&self) -> Option<&CacheKey>
        ensures value { option_copied result ≡ self.now.key }
        ensures known { HasKey self.now.phase self.now.key }
    {
        self.key.as_ref()
    }

    /// The meta, if there is one.
    pub fn meta(&self) -> Option<&CacheMeta>
        ensures { option_copied result ≡ self.now.meta }
    {
        self.meta.as_ref()
    }

    /// The lock that is held, if there is one.
    pub fn held(&self) -> Option<&Locked>
        ensures { option_copied result ≡ self.now.held }
    {
        self.held.as_ref()
    }

    /// The handler of the write, if there is one, for reading its state.
    pub fn writer(&self) -> Option<&S::Miss>
        ensures write { option_map (λ w. S.Miss.write w.now) result ≡ self.now.write }
        ensures entry { option_and_then (λ w. S.Miss.entry_number w.now) result ≡ self.now.entry }
    {
        self.writer.as_ref()
    }

    /// Sets the key.
    /// Requires the phase Uninit or CacheKey; ask `phase().may_take_key()`.
    pub fn set_cache_key(&mut self, key: CacheKey)
        requires { MayTakeKey self.old.phase }
        ensures { self.new ≡ with_key key self.old }
    {
        self.key = Some(key);
        self.phase = CachePhase::CacheKey;
    }

    /// Goes on as a miss. The write has not begun.
    /// Requires the phase CacheKey, Bypass or Stale; ask `phase().may_miss()`.
    pub fn cache_miss(&mut self)
        requires { MayMiss self.old.phase }
        ensures request { self.new ≡ missed self.old }
        ensures unwritten { self.new.write ≡ None }
    {
        self.phase = CachePhase::Miss;
        self.meta = None;
        self.stale_variance = None;
        self.traces.start_miss_span();
    }

    /// Whether there is a reader.
    pub fn has_body_reader(&self) -> bool
        ensures { IsTrue result ↔ IsSome self.now.reader }
    {
        self.reader.is_some()
    }

    /// Reads on. Fails only when memory runs out, and only if there is a piece to give; then it changes nothing.
    /// Requires a reader; ask `has_body_reader()`.
    pub fn read_body(&mut self, storage: &mut S) -> Result<Poll<Option<Bytes>>>
        requires { IsSome self.old.reader }
        ensures reads { Reads result self.old self.new (S.state storage.old) }
        ensures same_store { S.state storage.new ≡ S.state storage.old }
        ensures same_past { S.past storage.new ≡ S.past storage.old }
    {
        let Some(reader) = &mut self.reader else {
            unreachable!()
        };
        reader.read_body(self.alloc, storage)
    }

    /// Whether the reader has given all that it was to give: of a complete body its range; of a write each byte, and the
    /// write's end was announced, or it was finished. `false` after the end of the read says that the body was cut off. Without
    /// a reader `false`.
    pub fn is_body_whole(&self, storage: &S) -> bool
        ensures { result ≡ whole_by self.now.reader (S.state storage.now) }
    {
        match &self.reader {
            Some(reader) => reader.is_whole(storage),
            None => false,
        }
    }

    /// The length of the body that is read, in bytes, before it is read and whatever the range: that of a complete body, or of
    /// a write whose end was announced or that was finished. `None` as long as a write goes on, if it was cut off, and without
    /// a reader.
    pub fn body_length(&self, storage: &S) -> Option<usize>
        ensures { result ≡ length_by self.now.reader (S.state storage.now) }
    {
        match &self.reader {
            Some(reader) => reader.body_length(storage),
            None => None,
        }
    }

    /// Moves the reader to `start`, from where it gives the body again, to before `end` if that is
    /// given. Fails with `InternalError` if the reader follows a write, the body has no byte at
    /// `start` or `end` is before `start`, and changes nothing then.
    /// Requires a reader; ask `has_body_reader()`.
    pub fn seek(&mut self, start: usize, end: Option<usize>) -> Result<()>
        requires { IsSome self.old.reader }
        ensures ok { OnOk result (self.new
            ≡ record self.old {
              reader = option_and_then (λ r. sought r start end)
                  self.old.reader;
            }) }
        ensures there { OnOk result (IsSome self.new.reader) }
        ensures refused { OnErr result (option_and_then (λ r. sought r start end) self.old.reader
            ≡ None) }
        ensures same { OnErr result (self.new ≡ self.old) }
        ensures kind { IfErr result (λ e. e ≡ InternalError) }
    {
        let Some(reader) = &mut self.reader else {
            unreachable!()
        };
        reader.seek(start, end)
    }

    /// The reader of what was found.
    /// Requires a phase in which a body that was found may be read, and a reader; ask
    /// `phase().is_reading()` and `has_body_reader()`.
    pub fn hit_handler(&mut self) -> &mut S::Hit
        requires phase { IsReading self.old.phase }
        requires reader { IsSome self.old.reader }
        ensures* writes_back { sem 𝓛 (Lends
            (the_row S.row S.Hit.row S.Miss.row S.StoreMeaning S.Hit.HandleHit S.Miss.HandleMiss)
            S.Hit.row self.entry result (λ h. record self.old { reader = Some (S.Hit.reader h) })) }
        ensures value { Some (S.Hit.reader result.now) ≡ self.old.reader }
    {
        self.reader.as_mut().unwrap()
    }

    /// Ends the reader, if there is one, even if this fails, which it does only when memory runs
    /// out.
    /// Requires a phase after a look-up (not Disabled, Uninit, CacheKey or Bypass); ask
    /// `phase().may_finish_hit()`.
    pub fn finish_hit_handler(&mut self, storage: &mut S) -> Result<()>
        requires { MayFinishHit self.old.phase }
        ensures ends { EndsHit self.old self.new
            (store_side S.state S.past storage.old) (store_side S.state S.past storage.new) }
        ensures kind { IfErr result (λ e. e ≡ OutOfMemory) }
        ensures none { self.old.reader ≡ None → IsOk result }
        ensures answer { IfSome self.old.reader (λ r. S.ends_hit storage.old r result) }
    {
        let Some(reader) = self.reader.take() else {
            return Ok(());
        };
        self.traces.finish_hit_span();
        reader.finish(storage)
    }

    /// The reader of the write that fills the cache, in a storage whose writes can be read while they
    /// are made.
    pub fn miss_body_reader(&mut self, storage: &S) -> Option<&mut S::Hit>
        ensures* writes_back { sem 𝓛 (LendsIf
            (the_row S.row S.Hit.row S.Miss.row S.StoreMeaning S.Hit.HandleHit S.Miss.HandleMiss)
            S.Hit.row self.entry result (λ h. record self.old { reader = Some (S.Hit.reader h) })
            self.old) }
        ensures value { option_map (λ r. S.Hit.reader r.now) result
            ≡ cond (is_filling self.old.phase && S.streams storage.now) self.old.reader None }
    {
        if self.phase.is_filling() && storage.support_streaming_partial_write() {
            self.reader.as_mut()
        } else {
            None
        }
    }

    /// Whether `set_cache_meta` may be called.
    pub fn may_take_meta(&self) -> bool
        ensures { IsTrue result ↔ MayTakeMeta self.now }
    {
        match self.phase {
            CachePhase::Miss => true,
            CachePhase::Stale => self.meta.is_some(),
            _ => false,
        }
    }

    /// Sets the meta of the response that is to be stored. If it replaces a stale one, the moment
    /// from which that one's body came is kept, and the request goes on as expired. The write has
    /// not begun.
    /// Requires the phase Miss, or Stale with a meta; ask `may_take_meta()`.
    pub fn set_cache_meta(&mut self, meta: CacheMeta)
        requires { MayTakeMeta self.old }
        ensures request { self.new ≡ with_meta meta self.old }
        ensures unwritten { IsStale self.old.phase → self.new.write ≡ None }
    {
        self.traces.log_meta_in_miss_span(&meta);
        if !self.phase.is_stale() {
            self.meta = Some(meta);
            self.stale_variance = None;
            return;
        }
        let Some(stale) = &self.meta else {
            unreachable!()
        };
        let mut meta = meta;
        meta.set_provenance(stale.provenance());
        self.stale_variance = stale.variance();
        self.meta = Some(meta);
        self.phase = CachePhase::Expired;
    }

    /// Whether `set_miss_handler` may be called.
    pub fn may_write(&self) -> bool
        ensures may { IsTrue result ↔ MayWrite self.now }
        ensures has_key { IsTrue result → IsSome self.now.key }
    {
        self.phase.is_filling() && self.meta.is_some() && self.writer.is_none()
    }

    /// Begins the write. In a storage whose writes can be read while they are made, the permit is
    /// released and the request's reader follows the write; if this fails, the write has begun and
    /// the permit is released. Over any other storage a failed call changes nothing.
    /// Requires a phase that fills, a meta, and no write; ask `may_write()`.
    pub fn set_miss_handler<L: CacheKeyLock>(&mut self, storage: &mut S, lock: &mut L) -> Result<()>
        requires { MayWrite self.old }
        ensures begins { BeginsWrite result (S.streams storage.old) S.guarantees.numbers
            self.old self.new
            (store_side S.state S.past storage.old) (store_side S.state S.past storage.new)
            (lock_side L.table L.past lock.old) (lock_side L.table L.past lock.new) }
    {
        self.begin_write(storage, lock)?.following
    }

    /// `set_miss_handler` with a result that says how far it came: if it fails, nothing is changed;
    /// otherwise the write has begun, even if the reader could not join it.
    /// Requires a phase that fills, a meta, and no write; ask `may_write()`.
    pub fn begin_write<L: CacheKeyLock>(
        &mut self,
        storage: &mut S,
        lock: &mut L,
    ) -> Result<WriteBegin>
        requires { MayWrite self.old }
        ensures begins { TellsWriteBegin result (S.streams storage.old) S.guarantees.numbers
            self.old self.new
            (store_side S.state S.past storage.old) (store_side S.state S.past storage.new)
            (lock_side L.table L.past lock.old) (lock_side L.table L.past lock.new) }
    {
        let Some(key) = &self.key else { unreachable!() };
        let Some(meta) = &self.meta else {
            unreachable!()
        };
        let streams = storage.support_streaming_partial_write();
        let writer = storage.get_miss_handler(self.alloc, key, meta)?;
        put(&mut self.writer, writer);
        if !streams {
            return Ok(WriteBegin {
                released: None,
                following: Ok(()),
            });
        }
        let released = settle(
            self.alloc,
            &self.key,
            &mut self.held,
            lock,
            LockStatus::Done,
        );
        let Some(writer) = &self.writer else {
            unreachable!()
        };
        let following = match join_write(self.alloc, storage, key, writer.streaming_write_tag()) {
            Ok(reader) => {
                replace_reader(&mut self.reader, reader, storage);
                Ok(())
            }
            Err(refused) => Err(refused),
        };
        Ok(WriteBegin {
            released,
            following,
        })
    }

    /// The handler of the write, if there is one.
    /// Requires the phase Miss or Expired; ask `phase().is_filling()`.
    pub fn miss_handler(&mut self) -> Option<&mut S::Miss>
        requires { IsFilling self.old.phase }
        ensures* writes_back { sem 𝓛 (LendsIf
            (the_row S.row S.Hit.row S.Miss.row S.StoreMeaning S.Hit.HandleHit S.Miss.HandleMiss)
            S.Miss.row self.entry result
            (λ w. record self.old { write = Some (S.Miss.write w); entry = S.Miss.entry_number w })
            self.old) }
        ensures value { option_map (λ r. S.Miss.write r.now) result ≡ self.old.write }
        ensures entry { option_and_then (λ r. S.Miss.entry_number r.now) result ≡ self.old.entry }
    {
        let Some(writer) = &mut self.writer else {
            return None;
        };
        Some(writer)
    }

    /// Gives back all that is held: the write is dropped, a permit is dangling, the rest is let go.
    /// Returns the lock that was let go.
    pub fn end<L: CacheKeyLock>(self, storage: &mut S, lock: &mut L) -> Option<LockName>
        ensures ends { EndsRequest result self
            (store_side S.state S.past storage.old) (store_side S.state S.past storage.new)
            (lock_side L.table L.past lock.old) (lock_side L.table L.past lock.new) }
    {
        let HttpCache {
            alloc: _,
            phase: _,
            uses: _,
            key: _,
            meta: _,
            held,
            reader,
            writer,
            lock_ctx: _,
            waits_since: _,
            valid_after: _,
            stale_variance: _,
            size: _,
            head_limit: _,
            predicted: _,
            has_policy: _,
            digest: _,
            traces: _,
        } = self;
        if let Some(writer) = writer {
            writer.drop_write(storage);
        }
        let let_go = name_of(&held);
        if let Some(held) = held {
            lock.drop_lock(held);
        }
        if let Some(reader) = reader {
            reader.let_go(storage);
        }
        let_go
    }
}
