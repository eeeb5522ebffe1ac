//! Calls that look a key up and take the found pair.
ghost use Rattle.std.specs.Prelude.{◌≡◌, ◌+◌, ◌≤◌, ◌++◌, vec_len, IfOk, IsSome, OnErr, Some, None, [], option_map};
ghost use Rattle.std.specs.Vec.{vec_capacity};
ghost use Rattle.pcache_base.specs.declared.error.ErrorType.TheVariants.{OutOfMemory};
ghost use Rattle.pcache_store.specs.Readers.{reader_of};
ghost use Rattle.pcache_lock.specs.declared.lock.status.LockStatus.TheVariants.{Done, TransientError};
ghost use Rattle.pcache_history.specs.Ongoing.{asked, carrying, pair_of, looked_by, row, pair_reader, policy_in};
ghost use Rattle.pcache_request.specs.Phases.{MayLookUp, is_key_phase};
ghost use Rattle.pcache_request.specs.Requests.{found_for, left_by};
ghost use Rattle.pcache_world.specs.Step.{Answers, AnswersOf, IsAnswered, RowTaking, asked_answer, asking, asking_if, held_after_look, kind_asked, look_answer, noted_look, noting};
ghost use Rattle.pcache_history.specs.declared.call.Act.TheVariants as acts;
ghost use Rattle.pcache_history.specs.declared.call.RequestAct.TheVariants as asks;
ghost use Rattle.pcache_world.specs.PartFacts.{facts_in};
ghost use Rattle.pcache_world.specs.Moved.{MovesParts, MovesStore, MovesTaking};
ghost use Rattle.pcache_world.specs.LockMoves.{MovesLocksBy};
ghost use Rattle.pcache_history.specs.Due.{KeepsIn, KeepsKey};
ghost use Rattle.pcache_history.specs.Rules.{IsOther, Looks, Takes, look_reply};
ghost use Rattle.pcache_world.specs.Opens.{pair_read};

use crate::world::notes::note_shut;
use crate::world::parts::Parts;
use crate::world::request::{OpenRequest, hold, permit_in, write_number};
use pcache_base::error::{ErrorType, Result};
use pcache_base::key::{CacheHashKey, CacheKey};
use pcache_base::moment::Moment;
use pcache_evict::eviction::EvictionManager;
use pcache_history::call::{LockKind, Reply};
use pcache_history::entry::{Answer, Event};
use pcache_lock::lock::CacheLock;
use pcache_meta::meta::CacheMeta;
use pcache_meta::meta::spelled::SpelledMeta;
use pcache_predict::admission::Decision;
use pcache_put::boxed::Boxed;
use pcache_request::cache::{Access, AskedLock, FoundReport, HttpCache, LookUp, Witness};
use pcache_request::phase::{CachePhase, HitStatus};
use pcache_store::memory::{MemCache, MemHitHandler};
use std::alloc::{AllocError, Global};

/// Looks the request's key up.
#[tactic(auto, using(crate::proofs::LockSteps::none_noted))]
pub(crate) fn look(
    request: &mut OpenRequest,
    store: &mut MemCache,
    lock: &mut CacheLock,
    events: &mut Vec<Event>,
    now: Moment,
    decision: Option<Decision>,
) -> Reply
    requires none { events.old.items ≡ [] }
    requires room { 3 ≤ vec_capacity events.old }
    ensures answers { Answers store.old.state lock.old.table (acts.Request (asks.Look now decision))
        request.old result events.new.items }
    ensures moves { MovesStore (Some request.old) store.old.state events.new.items
        (Some request.new) store.new.state }
    ensures keeps { KeepsKey (Some request.old) (Some request.new) }
    ensures row { Some request.new
        ≡ row (acts.Request (asks.Look now decision)) result events.new.items (Some request.old) }
    ensures locks { MovesLocksBy now TransientError events.new.items request.old.request
        lock.old.table request.new.request lock.new.table }
{
    if !request.cache.phase().may_look_up() {
        return Reply::WrongCall;
    }
    carry(request, decision);
    look_up(request, store, lock, events, now)
}

// Takes a policy into use that always makes this decision, if the request looks its key up for the
// first time.
fn carry(request: &mut OpenRequest, decision: Option<Decision>)
    ensures { request.new ≡ carrying decision request.old }
{
    let Some(decision) = decision else { return };
    if !is_first(request.cache.phase()) {
        return;
    }
    request.cache.set_admission_policy();
    request.carried = Some(decision);
}

// Whether a look-up in this phase is one of a request that found nothing yet.
fn is_first(phase: CachePhase) -> bool
    ensures { result ≡ is_key_phase phase }
{
    matches!(phase, CachePhase::CacheKey)
}

fn look_up(
    request: &mut OpenRequest,
    store: &mut MemCache,
    lock: &mut CacheLock,
    events: &mut Vec<Event>,
    now: Moment,
) -> Reply
    requires may { MayLookUp request.old.request.phase }
    requires none { events.old.items ≡ [] }
    requires room { 3 ≤ vec_capacity events.old }
    ensures answers { Looks (facts_in store.old.state lock.old.table request.old.request)
        request.old result events.new.items }
    ensures other { IsOther result }
    ensures moves { MovesStore (Some request.old) store.old.state events.new.items
        (Some request.new) store.new.state }
    ensures keeps { KeepsKey (Some request.old) (Some request.new) }
    ensures row { request.new ≡ looked_by events.new.items request.old }
    ensures locks { MovesLocksBy now TransientError events.new.items request.old.request
        lock.old.table request.new.request lock.new.table }
{
    let Some(key) = request.cache.key() else {
        unreachable!()
    };
    // Copied before the look-up: once that has an effect, it is too late to fail for memory.
    match kept_meta(*events.allocator(), store, key) {
        Ok(kept) => look_up_keeping(request, store, lock, events, now, kept),
        Err(AllocError) => Reply::Refused(ErrorType::OutOfMemory),
    }
}

// The meta of what a look-up of the key finds, as the store keeps it: a copy of its bytes costs a fifth of a copy of the meta.
fn kept_meta(
    alloc: Global,
    store: &MemCache,
    key: &CacheKey,
) -> Result<Option<Boxed<SpelledMeta>>, AllocError>
    ensures found { IfOk result (λ m.
        m ≡ option_map (λ p. p.0) (found_for store.now.state (Some key.now))) }
    ensures something { OnErr result (IsSome (found_for store.now.state (Some key.now))) }
{
    match store.spelled_meta(key)? {
        Some(meta) => Ok(Some(Boxed::new(alloc, meta)?)),
        None => Ok(None),
    }
}

// Looks the key up, and records what the store has with the meta that it keeps.
fn look_up_keeping(
    request: &mut OpenRequest,
    store: &mut MemCache,
    lock: &mut CacheLock,
    events: &mut Vec<Event>,
    now: Moment,
    kept: Option<Boxed<SpelledMeta>>,
) -> Reply
    requires may { MayLookUp request.old.request.phase }
    requires kept { kept
        ≡ option_map (λ p. p.0) (found_for store.old.state request.old.request.key) }
    requires none { events.old.items ≡ [] }
    requires room { 3 ≤ vec_capacity events.old }
    ensures answers { Looks (facts_in store.old.state lock.old.table request.old.request)
        request.old result events.new.items }
    ensures other { IsOther result }
    ensures moves { MovesStore (Some request.old) store.old.state events.new.items
        (Some request.new) store.new.state }
    ensures keeps { KeepsKey (Some request.old) (Some request.new) }
    ensures row { request.new ≡ looked_by events.new.items request.old }
    ensures locks { MovesLocksBy now TransientError events.new.items request.old.request
        lock.old.table request.new.request lock.new.table }
{
    let Some(key) = request.cache.key() else {
        unreachable!()
    };
    let slot = key.slot();
    let mut note = LookNote {
        slot,
        write: write_number(&request.cache),
        kept,
        answer: Answer::Nothing,
    };
    let mut policy = policy_of(request.carried);
    let looked = match request
        .cache
        .look_up(store, lock, &mut policy, &mut note, now)
    {
        Ok(looked) => looked,
        Err(refused) => return Reply::Refused(refused.etype()),
    };
    note_look(request, looked, note, store, events)
}

// The policy in use: it always makes the decision that was carried last. Before one was carried no policy is in use, and none is
// asked.
fn policy_of(carried: Option<Decision>) -> Decision
    ensures { result ≡ policy_in carried }
{
    carried.unwrap_or(Decision::Ready { observed: 0 })
}

// What a world records of a look-up: the slot of the key, the write that the request had before, the meta that the store keeps,
// and what the store has.
#[derive(Drop)]
struct LookNote {
    slot: u128,
    write: Option<u64>,
    kept: Option<Boxed<SpelledMeta>>,
    answer: Answer,
}

impl Witness<MemCache> for LookNote {
    ghost use Rattle.std.specs.Prelude.{◌≡◌, Some};
    ghost use Rattle.pcache_base.specs.declared.error.ErrorType.TheVariants.{OutOfMemory};
    ghost use Rattle.pcache_history.specs.Ongoing.{pair_of};

    ghost hears = { λ before pair after. (after.slot ≡ before.slot) × (after.write ≡ before.write) × (before.kept ≡ Some pair.0 → pair_of after.answer ≡ Some pair) };

    ghost may_refuse = { λ e. e ≡ OutOfMemory };

    fn found(&mut self, _meta: &CacheMeta, hit: &MemHitHandler) -> Result<()> {
        let Some(meta) = self.kept.take() else {
            return Ok(());
        };
        self.answer = answered(meta, hit)?;
        Ok(())
    }
}

// What a store has: this meta, and what the reader reads.
fn answered(meta: Boxed<SpelledMeta>, hit: &MemHitHandler) -> Result<Answer, AllocError>
    ensures answer { IfOk result (λ a.
        IsAnswered meta (reader_of hit.now) → pair_of a ≡ Some (meta, reader_of hit.now)) }
{
    match hit {
        MemHitHandler::Complete(hit) => Ok(Answer::Complete {
            meta,
            body: hit.body().clone()?,
        }),
        MemHitHandler::Partial(part) => Ok(Answer::Streaming {
            meta,
            write: part.write(),
        }),
    }
}

// Adds the events of a look-up, and holds the pair that it handed on in place of the old one.
fn note_look(
    request: &mut OpenRequest,
    looked: LookUp<MemHitHandler>,
    note: LookNote,
    store: &mut MemCache,
    events: &mut Vec<Event>,
) -> Reply
    requires none { events.old.items ≡ [] }
    requires room { 3 ≤ vec_capacity events.old }
    ensures events { events.new.items ≡ noted_look note.slot note.answer note.write looked }
    ensures reply { result ≡ look_answer note.answer looked }
    ensures request { request.new ≡ held_after_look looked request.old }
    ensures store { store.new.state ≡ left_by (pair_reader request.old.pair) store.old.state }
{
    let LookNote {
        slot,
        write,
        kept: _,
        answer,
    } = note;
    let found = reply_of(&answer);
    // Also if the lock is refused then: by its events alone a history tells whether a policy was asked.
    events.push_reserved(Event::Look { slot, answer });
    match looked {
        LookUp::Found(meta, hit) => {
            hold(&mut request.pair, Some((meta, hit)), store);
            found
        }
        LookUp::NotFound(asked) => {
            hold(&mut request.pair, None, store);
            note_asked(slot, asked, events)
        }
        LookUp::Deferred(released) => {
            hold(&mut request.pair, None, store);
            request.carried = None; // seen by nobody: caching is off now, and `Enable` puts no policy in use
            note_shut(permit_in(released), write, events);
            Reply::NotFound(None)
        }
    }
}

// The reply for what the store has, if it is handed on.
fn reply_of(answer: &Answer) -> Reply
    ensures { result ≡ look_reply answer.now None }
{
    match answer {
        Answer::Nothing => Reply::NotFound(None),
        Answer::Complete { meta: _, body } => Reply::Hit(body.len()),
        Answer::Streaming { meta: _, write: _ } => Reply::Part,
    }
}

// Adds the events of the lock that a look-up asked for, if it did, and returns the reply: which
// lock was given, or the error.
fn note_asked(slot: u128, asked: Result<Option<AskedLock>>, events: &mut Vec<Event>) -> Reply
    requires { vec_len events.old + 2 ≤ vec_capacity events.old }
    ensures events { events.new.items ≡ events.old.items ++ asking_if slot asked }
    ensures reply { result ≡ asked_answer asked }
{
    match asked {
        Ok(asked) => Reply::NotFound(note_lock(slot, asked, events)),
        Err(refused) => Reply::Refused(refused.etype()),
    }
}

// Adds the events of the lock that was asked for, if one was, and of the permit that it replaced.
fn note_lock(slot: u128, asked: Option<AskedLock>, events: &mut Vec<Event>) -> Option<LockKind>
    requires { vec_len events.old + 2 ≤ vec_capacity events.old }
    ensures events { events.new.items ≡ events.old.items ++ asking slot asked }
    ensures kind { result ≡ kind_asked asked }
{
    let AskedLock { given, replaced } = asked?;
    let is_permit = given.is_permit;
    events.push_reserved(Event::Ask {
        slot,
        lock: given.number,
        is_permit,
    });
    if let Some(lock) = permit_in(replaced) {
        events.push_reserved(Event::LetGo { lock });
    }
    if is_permit {
        Some(LockKind::Write)
    } else {
        Some(LockKind::Read)
    }
}

/// Takes the pair that the look-up found.
#[tactic(auto, using(crate::proofs::LockSteps::none_noted))]
pub(crate) fn found<M: EvictionManager>(
    request: &mut OpenRequest,
    parts: &mut Parts<M>,
    events: &mut Vec<Event>,
    status: HitStatus,
    now: Moment,
) -> Reply
    requires none { events.old.items ≡ [] }
    requires room { 3 ≤ vec_capacity events.old }
    ensures answers { AnswersOf parts.old (acts.Request (asks.Found status now)) request.old result
        events.new.items }
    ensures moves { MovesParts (Some request.old) parts.old events.new.items (Some request.new)
        parts.new }
    ensures keeps { KeepsKey (Some request.old) (Some request.new) }
    ensures row { Some request.new
        ≡ row (acts.Request (asks.Found status now)) result events.new.items (Some request.old) }
    ensures locks { MovesLocksBy now Done events.new.items request.old.request parts.old.locks
        request.new.request parts.new.locks }
    ensures limits { parts.new.limits ≡ parts.old.limits }
    ensures evicted { parts.new.evicted ≡ parts.old.evicted }
{
    if !request.cache.phase().may_look_up() {
        return Reply::WrongCall;
    }
    // Out of the request's hands: if the take fails, the pair is let go and not held on.
    let Some(pair) = request.pair.take() else {
        return Reply::WrongCall;
    };
    take(
        &mut request.cache,
        pair,
        &mut parts.store,
        &mut parts.manager,
        &mut parts.lock,
        events,
        status,
        now,
    )
}

// Takes a pair that a look-up gave.
fn take<M: EvictionManager>(
    cache: &mut HttpCache<MemCache>,
    pair: (CacheMeta, MemHitHandler),
    store: &mut MemCache,
    manager: &mut M,
    lock: &mut CacheLock,
    events: &mut Vec<Event>,
    status: HitStatus,
    now: Moment,
) -> Reply
    requires may { MayLookUp cache.old.phase }
    requires none { events.old.items ≡ [] }
    requires room { 3 ≤ vec_capacity events.old }
    ensures answers { Takes (facts_in store.old.state lock.old.table cache.old) status cache.old
        (pair_read pair) result events.new.items }
    ensures other { IsOther result }
    ensures moves { MovesTaking (M.limits manager.old) pair cache.old store.old.state
        (M.tracked manager.old) events.new.items cache.new store.new.state (M.tracked manager.new) }
    ensures keeps { KeepsIn cache.old cache.new }
    ensures row { RowTaking pair (acts.Request (asks.Found status now)) result events.new.items
        cache.old cache.new }
    ensures locks { MovesLocksBy now Done events.new.items cache.old lock.old.table cache.new
        lock.new.table }
    ensures limits { M.limits manager.new ≡ M.limits manager.old }
    ensures evicted { M.evicted manager.new ≡ M.evicted manager.old }
{
    let Some(key) = cache.key() else {
        unreachable!()
    };
    let slot = key.slot();
    let (meta, hit) = pair;
    let FoundReport { access, asked } = match cache.take_found(
        store, manager, lock, meta, hit, status, now,
    ) {
        Ok(taken) => taken,
        Err(refused) => return Reply::Refused(refused.etype()),
    };
    note_access(access, events);
    match asked {
        Ok(asked) => {
            let kind = note_lock(slot, asked, events);
            Reply::Taken(cache.phase(), kind)
        }
        Err(refused) => Reply::Refused(refused.etype()),
    }
}

// Adds the event of an access, if one was recorded.
fn note_access(access: Option<Access>, events: &mut Vec<Event>)
    requires { vec_len events.old + 1 ≤ vec_capacity events.old }
    ensures events { events.new.items ≡ events.old.items ++ noting access }
    ensures len { vec_len events.new ≤ vec_len events.old + 1 }
    ensures capacity { vec_capacity events.new ≡ vec_capacity events.old }
{
    if let Some(Access { entry, weight }) = access {
        events.push_reserved(Event::Access { entry, weight });
    }
}
