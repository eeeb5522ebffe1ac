//! Calls that remove or expire what is stored for a request's key.
ghost use Rattle.std.specs.Prelude.{◌≡◌, ◌+◌, ◌≤◌, ◌∷◌, ◌++◌, Some, [], vec_len};
ghost use Rattle.std.specs.Vec.{vec_capacity};
ghost use Rattle.pcache_request.specs.Requests.{is_removed_by};
ghost use Rattle.pcache_lock.specs.declared.lock.status.LockStatus.TheVariants.{Done};
ghost use Rattle.pcache_history.specs.Due.{IsOfWorld, KeepsKey};
ghost use Rattle.pcache_world.specs.Moved.{MovesParts};
ghost use Rattle.pcache_history.specs.Rules.{expire_reply, purge_reply};
ghost use Rattle.pcache_world.specs.Step.{AnswersOf, untracking};
ghost use Rattle.pcache_world.specs.LockMoves.{MovesLocksBy};
ghost use Rattle.pcache_history.specs.declared.call.Act.TheVariants as acts;
ghost use Rattle.pcache_history.specs.declared.call.RequestAct.TheVariants as asks;
ghost use Rattle.pcache_history.specs.declared.entry.Event.TheVariants.{Purge};

use crate::world::parts::Parts;
use crate::world::request::OpenRequest;
use pcache_base::key::CacheHashKey;
use pcache_base::moment::Moment;
use pcache_evict::eviction::EvictionManager;
use pcache_history::call::Reply;
use pcache_history::entry::Event;
use pcache_request::cache::Removal;

/// Removes what is stored for the request's key.
#[tactic(auto, using(crate::proofs::LockSteps::none_noted))]
pub(crate) fn purge<M: EvictionManager>(
    request: &mut OpenRequest,
    parts: &mut Parts<M>,
    events: &mut Vec<Event>,
) -> Reply
    requires none { events.old.items ≡ [] }
    requires room { 3 ≤ vec_capacity events.old }
    ensures answers { AnswersOf parts.old (acts.Request asks.Purge) request.old result
        events.new.items }
    ensures moves { IsOfWorld request.old.request
        → MovesParts (Some request.old) parts.old events.new.items (Some request.new) parts.new }
    ensures keeps { KeepsKey (Some request.old) (Some request.new) }
    ensures same { request.new ≡ request.old }
    ensures locks { MovesLocksBy 0 Done events.new.items request.old.request parts.old.locks
        request.new.request parts.new.locks }
    ensures limits { parts.new.limits ≡ parts.old.limits }
    ensures evicted { parts.new.evicted ≡ parts.old.evicted }
{
    if !request.cache.phase().may_purge() {
        return Reply::WrongCall;
    }
    let Some(key) = request.cache.key() else {
        unreachable!()
    };
    let slot = key.slot();
    match request
        .cache
        .purge_key(&mut parts.store, &mut parts.manager)
    {
        Ok(removal) => note_removal(slot, removal, events),
        Err(refused) => Reply::Refused(refused.etype()),
    }
}

// Adds the events of a purged key, and of the entry that was removed from the manager with it.
fn note_removal(slot: u128, removal: Removal, events: &mut Vec<Event>) -> Reply
    requires { vec_len events.old + 2 ≤ vec_capacity events.old }
    ensures reply { result ≡ purge_reply (is_removed_by removal.outcome) }
    ensures events { events.new.items
        ≡ events.old.items ++ Purge slot ∷ untracking removal.untracked }
{
    let was_there = removal.was_there();
    events.push_reserved(Event::Purge { slot });
    if let Some(entry) = removal.untracked {
        events.push_reserved(Event::Untrack { entry });
    }
    if was_there {
        Reply::Purged
    } else {
        Reply::Absent
    }
}

/// Ends the freshness of what is stored for the request's key.
#[tactic(auto, using(crate::proofs::LockSteps::none_noted))]
pub(crate) fn expire<M: EvictionManager>(
    request: &mut OpenRequest,
    parts: &mut Parts<M>,
    events: &mut Vec<Event>,
    now: Moment,
) -> Reply
    requires none { events.old.items ≡ [] }
    requires room { 3 ≤ vec_capacity events.old }
    ensures answers { AnswersOf parts.old (acts.Request (asks.Expire now)) request.old result
        events.new.items }
    ensures moves { MovesParts (Some request.old) parts.old events.new.items (Some request.new)
        parts.new }
    ensures keeps { KeepsKey (Some request.old) (Some request.new) }
    ensures same { request.new ≡ request.old }
    ensures locks { MovesLocksBy 0 Done events.new.items request.old.request parts.old.locks
        request.new.request parts.new.locks }
    ensures limits { parts.new.limits ≡ parts.old.limits }
    ensures evicted { parts.new.evicted ≡ parts.old.evicted }
{
    if !request.cache.phase().may_purge() {
        return Reply::WrongCall;
    }
    let Some(key) = request.cache.key() else {
        unreachable!()
    };
    let slot = key.slot();
    match request
        .cache
        .expire(&mut parts.store, &mut parts.manager, now)
    {
        Ok(was_there) => {
            // Also if nothing is stored. It is of the body of this moment: a write in flight keeps the meta that it began with.
            events.push_reserved(Event::Expire { slot, now });
            reply_of(was_there)
        }
        Err(refused) => Reply::Refused(refused.etype()),
    }
}

// The reply to an expiry.
fn reply_of(was_there: bool) -> Reply
    ensures { result ≡ expire_reply was_there }
{
    if was_there {
        Reply::Expired
    } else {
        Reply::Absent
    }
}
