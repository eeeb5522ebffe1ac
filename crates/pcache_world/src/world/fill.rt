//! Calls that fill a key.
ghost use Rattle.std.specs.Prelude.{◌≡◌, ◌+◌, ◌≤◌, ◌∷◌, ◌++◌, false, true, IfOk, Some, [], length, vec_len};
ghost use Rattle.std.specs.Vec.{vec_capacity};
ghost use Rattle.pcache_lock.specs.declared.lock.status.LockStatus.TheVariants.{Done};
ghost use Rattle.pcache_history.specs.Events.{evicted_by};
ghost use Rattle.pcache_history.specs.Ongoing.{kind_of_reply, on_request, began, ended, is_done, row};
ghost use Rattle.pcache_request.specs.Phases.{IsFilling};
ghost use Rattle.pcache_request.specs.Requests.{MayWrite};
ghost use Rattle.pcache_world.specs.Step.{Answers, AnswersOf, refused_end};
ghost use Rattle.pcache_world.specs.PartFacts.{facts_in, no_facts};
ghost use Rattle.pcache_lock.specs.Locks.{no_locks};
ghost use Rattle.pcache_world.specs.Moved.{MovesBeside, MovesParts, MovesRequest, MovesStore, MovesStoreBeside};
ghost use Rattle.pcache_world.specs.LockMoves.{MovesLocksBy, status_finished};
ghost use Rattle.pcache_history.specs.Waiting.{AreOfNoLock};
ghost use Rattle.pcache_history.specs.Due.{IsOfWorld, KeepsIn, KeepsKey};
ghost use Rattle.pcache_history.specs.Rules.{FollowsRule, Begins, Finishes, IsOther, each};
ghost use Rattle.pcache_history.specs.declared.call.Act.TheVariants as acts;
ghost use Rattle.pcache_history.specs.declared.call.RequestAct.TheVariants as asks;
ghost use Rattle.pcache_history.specs.declared.call.Reply.TheVariants as replies;
ghost use Rattle.pcache_history.specs.declared.entry.Event.TheVariants.{Admit, Finish, Release};

use crate::world::notes::note_with_release;
use crate::world::parts::Parts;
use crate::world::request::{OpenRequest, permit_in, write_number};
use bytes::Bytes;
use pcache_base::error::{ErrorType, Result};
use pcache_base::key::CacheHashKey;
use pcache_evict::eviction::{CacheEntryKey, EvictionManager};
use pcache_history::call::Reply;
use pcache_history::entry::{Entries, Event};
use pcache_lock::lock::CacheLock;
use pcache_meta::meta::CacheMeta;
use pcache_put::boxed::Boxed;
use pcache_request::cache::{FinishReport, HttpCache, WriteBegin, WriteEnd, WriteReport};
use pcache_store::memory::MemCache;
use pcache_store::storage::HandleMiss;
use std::alloc::{AllocError, Global};

/// Sets the meta of the response that is to be stored.
pub(crate) fn meta(request: &mut OpenRequest, meta: &CacheMeta) -> Reply
    ensures answers { FollowsRule no_facts (acts.Request (asks.Meta meta.now)) (Some request.old)
        result [] }
    ensures moves { MovesRequest (Some request.old) (Some request.new) }
    ensures keeps { KeepsKey (Some request.old) (Some request.new) }
    ensures row { Some request.new
        ≡ row (acts.Request (asks.Meta meta.now)) result [] (Some request.old) }
    ensures held { request.new.request.held ≡ request.old.request.held }
{
    if !request.cache.may_take_meta() {
        return Reply::WrongCall;
    }
    match meta.copied() {
        Ok(copy) => {
            request.cache.set_cache_meta(copy);
            Reply::Done
        }
        Err(AllocError) => Reply::Refused(ErrorType::OutOfMemory),
    }
}

/// Begins the request's write.
#[tactic(auto, using(crate::proofs::LockSteps::none_noted))]
pub(crate) fn begin(
    request: &mut OpenRequest,
    store: &mut MemCache,
    lock: &mut CacheLock,
    events: &mut Vec<Event>,
) -> Reply
    requires none { events.old.items ≡ [] }
    requires room { 3 ≤ vec_capacity events.old }
    ensures answers { Answers store.old.state lock.old.table (acts.Request asks.Begin) request.old
        result events.new.items }
    ensures moves { MovesStore (Some request.old) store.old.state events.new.items
        (Some request.new) store.new.state }
    ensures keeps { KeepsKey (Some request.old) (Some request.new) }
    ensures row { request.new
        ≡ on_request (began (is_done (kind_of_reply result)) events.new.items) request.old }
    ensures locks { MovesLocksBy 0 Done events.new.items request.old.request lock.old.table
        request.new.request lock.new.table }
{
    if !request.cache.may_write() {
        return Reply::WrongCall;
    }
    begin_write(&mut request.cache, store, lock, events)
}

#[tactic(auto, using(crate::proofs::LockSteps::none_noted))]
fn begin_write(
    cache: &mut HttpCache<MemCache>,
    store: &mut MemCache,
    lock: &mut CacheLock,
    events: &mut Vec<Event>,
) -> Reply
    requires may { MayWrite cache.old }
    requires none { events.old.items ≡ [] }
    requires room { 3 ≤ vec_capacity events.old }
    ensures answers { Begins (facts_in store.old.state lock.old.table cache.old) cache.old result
        events.new.items }
    ensures other { IsOther result }
    ensures moves { MovesStoreBeside cache.old store.old.state events.new.items cache.new
        store.new.state }
    ensures keeps { KeepsIn cache.old cache.new }
    ensures row { cache.new ≡ began (is_done (kind_of_reply result)) events.new.items cache.old }
    ensures locks { MovesLocksBy 0 Done events.new.items cache.old lock.old.table cache.new
        lock.new.table }
{
    let Some(key) = cache.key() else {
        unreachable!()
    };
    let Some(meta) = cache.meta() else {
        unreachable!()
    };
    let slot = key.slot();
    let copy = match boxed_copy(*events.allocator(), meta) {
        Ok(copy) => copy,
        Err(AllocError) => return Reply::Refused(ErrorType::OutOfMemory),
    };
    let WriteBegin {
        released,
        following,
    } = match cache.begin_write(store, lock) {
        Ok(begun) => begun,
        Err(refused) => return Reply::Refused(refused.etype()),
    };
    let Some(write) = write_number(cache) else {
        unreachable!()
    };
    let begin = Event::Begin {
        write,
        slot,
        meta: copy,
    };
    note_with_release(begin, permit_in(released), events);
    match following {
        Ok(()) => Reply::Done,
        Err(refused) => Reply::Refused(refused.etype()),
    }
}

// A copy of a meta, for an event.
fn boxed_copy(alloc: Global, meta: &CacheMeta) -> Result<Boxed<CacheMeta>, AllocError>
    ensures ok { IfOk result (λ copy. copy ≡ meta.now) }
{
    Boxed::new(alloc, meta.copied()?)
}

/// Adds bytes to the request's write.
pub(crate) fn write(
    request: &mut OpenRequest,
    store: &mut MemCache,
    events: &mut Vec<Event>,
    bytes: &Bytes,
    eof: bool,
) -> Reply
    requires none { events.old.items ≡ [] }
    requires room { 3 ≤ vec_capacity events.old }
    ensures answers { Answers store.old.state (no_locks 0) (acts.Request (asks.Write bytes.now eof))
        request.old result events.new.items }
    ensures moves { MovesStore (Some request.old) store.old.state events.new.items
        (Some request.new) store.new.state }
    ensures keeps { KeepsKey (Some request.old) (Some request.new) }
    ensures same { request.new ≡ request.old }
    ensures quiet { AreOfNoLock events.new.items }
{
    if !request.cache.phase().is_filling() {
        return Reply::WrongCall;
    }
    let Some(handler) = request.cache.miss_handler() else {
        return Reply::WrongCall;
    };
    if handler.at_eof(store) {
        return Reply::WrongCall;
    }
    let Ok(given) = bytes.clone() else {
        return Reply::Refused(ErrorType::OutOfMemory);
    };
    let Ok(noted) = bytes.clone() else {
        return Reply::Refused(ErrorType::OutOfMemory);
    };
    let write = handler.number();
    if let Err(refused) = handler.write_body(store, given, eof) {
        return Reply::Refused(refused.etype());
    }
    events.push_reserved(Event::Wrote {
        write,
        bytes: noted,
        eof,
    });
    Reply::Done
}

/// Ends the request's write and stores the body.
#[tactic(auto, using(crate::proofs::LockSteps::none_noted))]
pub(crate) fn finish<M: EvictionManager>(
    request: &mut OpenRequest,
    parts: &mut Parts<M>,
    events: &mut Vec<Event>,
) -> Reply
    requires none { events.old.items ≡ [] }
    requires room { 3 ≤ vec_capacity events.old }
    ensures answers { parts.old.store.newest ≡ false
        → AnswersOf parts.old (acts.Request asks.Finish) request.old result events.new.items }
    ensures moves { IsOfWorld request.old.request
        → MovesParts (Some request.old) parts.old events.new.items (Some request.new) parts.new }
    ensures keeps { KeepsKey (Some request.old) (Some request.new) }
    ensures row { request.new ≡ on_request (ended events.new.items) request.old }
    ensures locks { MovesLocksBy 0 (status_finished events.new.items) events.new.items
        request.old.request parts.old.locks request.new.request parts.new.locks }
    ensures limits { parts.new.limits ≡ parts.old.limits }
    ensures evicted { IsOfWorld request.old.request
        → parts.new.evicted ≡ evicted_by parts.old.tracked parts.old.evicted events.new.items }
{
    if !request.cache.phase().is_filling() {
        return Reply::WrongCall;
    }
    finish_write(
        &mut request.cache,
        &mut parts.store,
        &mut parts.manager,
        &mut parts.lock,
        events,
    )
}

#[tactic(auto, using(crate::proofs::LockSteps::none_noted))]
fn finish_write<M: EvictionManager>(
    cache: &mut HttpCache<MemCache>,
    store: &mut MemCache,
    manager: &mut M,
    lock: &mut CacheLock,
    events: &mut Vec<Event>,
) -> Reply
    requires may { IsFilling cache.old.phase }
    requires none { events.old.items ≡ [] }
    requires room { 3 ≤ vec_capacity events.old }
    ensures answers { store.old.state.newest ≡ false
        → Finishes (facts_in store.old.state lock.old.table cache.old) cache.old cache.old.write
        result events.new.items }
    ensures other { IsOther result }
    ensures moves { MovesBeside (M.limits manager.old) cache.old store.old.state
        (M.tracked manager.old) events.new.items cache.new store.new.state
        (M.tracked manager.new) }
    ensures keeps { KeepsIn cache.old cache.new }
    ensures row { cache.new ≡ ended events.new.items cache.old }
    ensures locks { MovesLocksBy 0 (status_finished events.new.items) events.new.items cache.old
        lock.old.table cache.new lock.new.table }
    ensures limits { M.limits manager.new ≡ M.limits manager.old }
    ensures evicted { IsOfWorld cache.old
        → M.evicted manager.new
        ≡ evicted_by (M.tracked manager.old) (M.evicted manager.old) events.new.items }
{
    let Some(write) = write_number(cache) else {
        return Reply::Nothing;
    };
    let Some(key) = cache.key() else {
        unreachable!()
    };
    let slot = key.slot();
    let WriteReport {
        end,
        entry,
        released,
    } = cache.end_write(store, manager, lock);
    let permit = permit_in(released);
    match end {
        WriteEnd::Nothing => unreachable!(),
        WriteEnd::Stored(report) => {
            let Some(entry) = entry else { unreachable!() };
            note_stored(write, entry, report, permit, events)
        }
        WriteEnd::Dropped(refused) => {
            let kind = refused.etype();
            note_with_release(end_refused(write, kind), permit, events);
            Reply::Refused(kind)
        }
        WriteEnd::Withdrawn(refused) => {
            let is_stored = true;
            note_with_release(Event::Finish { write, is_stored }, permit, events);
            events.push_reserved(Event::Purge { slot });
            Reply::Refused(refused.etype())
        }
    }
}

// Adds the events of a body that was stored and its entry admitted.
pub(crate) fn note_stored(
    write: u64,
    entry: CacheEntryKey,
    report: FinishReport,
    permit: Option<u64>,
    events: &mut Vec<Event>,
) -> Reply
    requires { vec_len events.old + 3 ≤ vec_capacity events.old }
    ensures reply { result ≡ replies.Stored report.size (length report.evicted.items) }
    ensures events { events.new.items
        ≡ (events.old.items ++ Finish write true ∷ each Release permit)
        ++ Admit entry report.size report.evicted.items
        ∷ [] }
{
    let is_stored = true;
    note_with_release(Event::Finish { write, is_stored }, permit, events);
    let FinishReport { size, evicted, .. } = report;
    let count = evicted.len();
    events.push_reserved(Event::Admit {
        entry,
        weight: size,
        evicted: Entries::new(evicted),
    });
    Reply::Stored {
        size,
        evicted: count,
    }
}

// The event of the end of a write that failed: its key was removed since it began, or it was
// dropped.
pub(crate) fn end_refused(write: u64, kind: ErrorType) -> Event
    ensures { result ≡ refused_end write kind }
{
    if kind == ErrorType::WriteRemoved {
        Event::Finish {
            write,
            is_stored: false,
        }
    } else {
        Event::Dropped { write }
    }
}
