//! Calls that turn caching on and off.
ghost use Rattle.std.specs.Prelude.{◌≡◌, ◌≤◌, Some, []};
ghost use Rattle.std.specs.Vec.{vec_capacity};
ghost use Rattle.pcache_history.specs.Due.{KeepsKey};
ghost use Rattle.pcache_world.specs.PartFacts.{no_facts};
ghost use Rattle.pcache_lock.specs.declared.lock.status.LockStatus.TheVariants.{GiveUp};
ghost use Rattle.pcache_request.specs.Releasing.{status_for};
ghost use Rattle.pcache_history.specs.Ongoing.{row};
ghost use Rattle.pcache_world.specs.Moved.{MovesRequest, MovesStore};
ghost use Rattle.pcache_history.specs.Rules.{FollowsRule};
ghost use Rattle.pcache_world.specs.LockMoves.{MovesLocksBy};
ghost use Rattle.pcache_history.specs.declared.call.Act.TheVariants as acts;
ghost use Rattle.pcache_history.specs.declared.call.RequestAct.TheVariants as asks;

use crate::world::notes::note_shut;
use crate::world::request::{OpenRequest, hold, permit_in, world_use, write_number};
use pcache_base::reason::NoCacheReason;
use pcache_history::call::Reply;
use pcache_history::entry::Event;
use pcache_lock::lock::CacheLock;
use pcache_request::cache::CacheOptionOverrides;
use pcache_store::memory::MemCache;

/// Turns caching on again, with these options of the lock.
pub(crate) fn enable(request: &mut OpenRequest, options: Option<CacheOptionOverrides>) -> Reply
    ensures answers { FollowsRule no_facts (acts.Request (asks.Enable options)) (Some request.old)
        result [] }
    ensures moves { MovesRequest (Some request.old) (Some request.new) }
    ensures keeps { KeepsKey (Some request.old) (Some request.new) }
    ensures row { Some request.new
        ≡ row (acts.Request (asks.Enable options)) result [] (Some request.old) }
    ensures held { request.new.request.held ≡ request.old.request.held }
{
    if !request.cache.phase().is_disabled() {
        return Reply::WrongCall;
    }
    request.cache.enable(world_use(), options);
    Reply::Done
}

/// Turns caching off, and gives back all that is held.
#[tactic(auto, using(crate::proofs::LockSteps::none_noted))]
pub(crate) fn disable(
    request: &mut OpenRequest,
    store: &mut MemCache,
    lock: &mut CacheLock,
    events: &mut Vec<Event>,
    reason: NoCacheReason,
) -> Reply
    requires none { events.old.items ≡ [] }
    requires room { 3 ≤ vec_capacity events.old }
    ensures answers { FollowsRule no_facts (acts.Request (asks.Disable reason)) (Some request.old)
        result events.new.items }
    ensures moves { MovesStore (Some request.old) store.old.state events.new.items
        (Some request.new) store.new.state }
    ensures keeps { KeepsKey (Some request.old) (Some request.new) }
    ensures row { Some request.new
        ≡ row (acts.Request (asks.Disable reason)) result events.new.items (Some request.old) }
    ensures locks { MovesLocksBy 0 (status_for (λ text. GiveUp) reason) events.new.items
        request.old.request lock.old.table request.new.request lock.new.table }
{
    if !request.cache.may_disable(reason) {
        return Reply::WrongCall;
    }
    // Enabled again the request begins anew, and must not take a pair from before.
    hold(&mut request.pair, None, store);
    request.carried = None;
    let dropped = write_number(&request.cache);
    let released = request.cache.disable(store, lock, reason);
    note_shut(permit_in(released), dropped, events);
    Reply::Done
}
