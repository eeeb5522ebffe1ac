//! Calls about the lock that a request holds.
ghost use Rattle.std.specs.Prelude.{◌≡◌, ◌+◌, ◌≤◌, ◌++◌, ◌∷◌, if◌then◌else◌, [], IsSome, None, Some, vec_len, ℕ};
ghost use Rattle.std.specs.Vec.{vec_capacity};
ghost use Rattle.pcache_history.specs.Due.{KeepsIn, KeepsKey};
ghost use Rattle.pcache_world.specs.PartFacts.{facts_in, no_facts};
ghost use Rattle.pcache_lock.specs.declared.lock.status.LockStatus.TheVariants.{GiveUp};
ghost use Rattle.pcache_request.specs.LockUse.{read_in};
ghost use Rattle.pcache_request.specs.Releasing.{status_for};
ghost use Rattle.pcache_history.specs.Deeds.{deeds_in};
ghost use Rattle.pcache_history.specs.Ongoing.{kind_of_reply, row, waited_by};
ghost use Rattle.pcache_world.specs.LockMoves.{MovesLocks, MovesLocksBy, MovesLocksIn};
ghost use Rattle.pcache_world.specs.Moved.{MovesRequest, MovesStore, MovesStoreBeside};
ghost use Rattle.pcache_history.specs.Rules.{FollowsRule, IsOther, Waits, wait_reply};
ghost use Rattle.pcache_world.specs.Step.{Answers, IsRow};
ghost use Rattle.pcache_world.specs.Untold.{untold_request};
ghost use Rattle.pcache_history.specs.declared.entry.Event.TheVariants.{Aged};
ghost use Rattle.pcache_history.specs.declared.call.Act.TheVariants as acts;
ghost use Rattle.pcache_history.specs.declared.call.RequestAct.TheVariants as asks;
ghost use Rattle.pcache_store.specs.Store.{Store};

use crate::world::notes::note_release;
use crate::world::request::{OpenRequest, permit_in, permit_released};
use pcache_base::error::ErrorType;
use pcache_base::moment::Moment;
use pcache_base::poll::Poll;
use pcache_base::reason::NoCacheReason;
use pcache_history::call::Reply;
use pcache_history::entry::Event;
use pcache_history::tokens::Tokens;
use pcache_lock::lock::{CacheLock, LockWaitOutcome, Locked};
use pcache_meta::header::ResponseHeader;
use pcache_request::cache::HttpCache;
use pcache_store::memory::MemCache;
use std::alloc::AllocError;

/// Takes the lock into use, or out of it.
pub(crate) fn set_lock(request: &mut OpenRequest, is_used: bool) -> Reply
    ensures answers { FollowsRule no_facts (acts.Request (asks.Lock is_used)) (Some request.old)
        result [] }
    ensures moves { MovesRequest (Some request.old) (Some request.new) }
    ensures keeps { KeepsKey (Some request.old) (Some request.new) }
    ensures row { Some request.new
        ≡ row (acts.Request (asks.Lock is_used)) result [] (Some request.old) }
    ensures held { request.new.request.held ≡ request.old.request.held }
{
    if !request.cache.may_set_cache_lock() {
        return Reply::WrongCall;
    }
    request.cache.set_cache_lock(is_used, None);
    Reply::Done
}

/// Polls the read lock that is held.
#[tactic(auto, using(crate::proofs::LockSteps::none_noted))]
pub(crate) fn wait(
    request: &mut OpenRequest,
    lock: &mut CacheLock,
    events: &mut Vec<Event>,
    now: Moment,
) -> Reply
    requires none { events.old.items ≡ [] }
    requires room { 3 ≤ vec_capacity events.old }
    ensures answers { (s : Store)
        → Answers s lock.old.table (acts.Wait now) request.old result events.new.items }
    ensures moves { (s : Store)
        → MovesStore (Some request.old) s events.new.items (Some request.new) s }
    ensures keeps { KeepsKey (Some request.old) (Some request.new) }
    ensures row { IsRow (acts.Wait now) result events.new.items (Some request.old)
        (Some request.new) }
    ensures locks { MovesLocksIn (acts.Wait now) result events.new.items request.old lock.old.table
        request.new lock.new.table }
{
    let Some(Locked::Read(_)) = request.cache.held() else {
        return Reply::WrongCall;
    };
    wait_on(&mut request.cache, lock, events, now)
}

// Polls the read lock, and adds an event if its permit is too old.
#[tactic(auto, using(crate::proofs::LockSteps::none_noted))]
fn wait_on(
    cache: &mut HttpCache<MemCache>,
    lock: &mut CacheLock,
    events: &mut Vec<Event>,
    now: Moment,
) -> Reply
    requires may { IsSome (read_in cache.old.held) }
    requires none { events.old.items ≡ [] }
    requires room { 3 ≤ vec_capacity events.old }
    ensures answers { (s : Store)
        → Waits (facts_in s lock.old.table cache.old) now cache.old result events.new.items }
    ensures other { IsOther result }
    ensures moves { (s : Store) → MovesStoreBeside cache.old s events.new.items cache.new s }
    ensures keeps { KeepsIn cache.old cache.new }
    ensures row { untold_request cache.new
        ≡ untold_request (waited_by (kind_of_reply result) now cache.old) }
    ensures locks { (r : ℕ)
        → MovesLocks r (deeds_in r (acts.Wait now) (kind_of_reply result) events.new.items None)
        cache.old.held lock.old.table cache.new.held lock.new.table }
{
    let report = match cache.wait(lock, now) {
        Ok(report) => report,
        Err(refused) => return Reply::Refused(refused.etype()),
    };
    note_aged(report.is_too_old, report.lock.number, events);
    reply_of(report.answer)
}

// Adds the event of a permit that was found too old, if it was.
fn note_aged(is_too_old: bool, lock: u64, events: &mut Vec<Event>)
    requires { vec_len events.old + 1 ≤ vec_capacity events.old }
    ensures { events.new.items ≡ events.old.items ++ (if is_too_old then Aged lock ∷ [] else []) }
{
    if is_too_old {
        events.push_reserved(Event::Aged { lock });
    }
}

// The reply to a wait.
fn reply_of(answer: Poll<LockWaitOutcome>) -> Reply
    ensures { result ≡ wait_reply answer }
{
    match answer {
        Poll::Pending => Reply::Waiting,
        Poll::Ready(outcome) => Reply::Waited(outcome),
    }
}

/// Publishes tokens of what was found out about the fill.
pub(crate) fn publish(request: &OpenRequest, lock: &mut CacheLock, tokens: &Tokens) -> Reply
    ensures answers { FollowsRule no_facts (acts.Request (asks.Publish tokens.now))
        (Some request.now) result [] }
    ensures moves { MovesRequest (Some request.now) (Some request.now) }
    ensures locks { MovesLocksIn (acts.Request (asks.Publish tokens.now)) result [] request.now
        lock.old.table request.now lock.new.table }
{
    match request
        .cache
        .lock_publish_fill_tokens(lock, tokens.as_slice())
    {
        Ok(_published) => Reply::Done,
        Err(refused) => Reply::Refused(refused.etype()),
    }
}

/// Releases the lock that is held.
#[tactic(auto, using(crate::proofs::LockSteps::none_noted))]
pub(crate) fn release(
    request: &mut OpenRequest,
    lock: &mut CacheLock,
    events: &mut Vec<Event>,
    reason: NoCacheReason,
) -> Reply
    requires none { events.old.items ≡ [] }
    requires room { 3 ≤ vec_capacity events.old }
    ensures answers { FollowsRule no_facts (acts.Request (asks.Release reason)) (Some request.old)
        result events.new.items }
    ensures moves { (s : Store)
        → MovesStore (Some request.old) s events.new.items (Some request.new) s }
    ensures keeps { KeepsKey (Some request.old) (Some request.new) }
    ensures row { Some request.new
        ≡ row (acts.Request (asks.Release reason)) result events.new.items (Some request.old) }
    ensures locks { MovesLocksBy 0 (status_for (λ text. GiveUp) reason) events.new.items
        request.old.request lock.old.table request.new.request lock.new.table }
{
    if !request.cache.may_release(reason) {
        return Reply::WrongCall;
    }
    let released = request.cache.release_write_lock(lock, reason);
    note_release(permit_released(released), events);
    Reply::Done
}

/// Serves the stale body with another header, and releases the lock that is held.
#[tactic(auto, using(crate::proofs::LockSteps::none_noted))]
pub(crate) fn uncacheable(
    request: &mut OpenRequest,
    lock: &mut CacheLock,
    events: &mut Vec<Event>,
    header: &ResponseHeader,
    reason: NoCacheReason,
) -> Reply
    requires none { events.old.items ≡ [] }
    requires room { 3 ≤ vec_capacity events.old }
    ensures answers { FollowsRule no_facts (acts.Request (asks.Uncacheable header.now reason))
        (Some request.old) result events.new.items }
    ensures moves { (s : Store)
        → MovesStore (Some request.old) s events.new.items (Some request.new) s }
    ensures keeps { KeepsKey (Some request.old) (Some request.new) }
    ensures row { Some request.new
        ≡ row (acts.Request (asks.Uncacheable header.now reason)) result events.new.items
        (Some request.old) }
    ensures locks { MovesLocksBy 0 (status_for (λ text. GiveUp) reason) events.new.items
        request.old.request lock.old.table request.new.request lock.new.table }
{
    if !request.cache.may_revalidate() || !request.cache.may_release(reason) {
        return Reply::WrongCall;
    }
    let copy = match header.copied() {
        Ok(copy) => copy,
        Err(AllocError) => return Reply::Refused(ErrorType::OutOfMemory),
    };
    let released = request.cache.revalidate_uncacheable(lock, copy, reason);
    note_release(permit_in(released), events);
    Reply::Done
}
