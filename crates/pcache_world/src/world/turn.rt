//! What one call does over the parts of a world.
ghost use Rattle.std.specs.Prelude.{◌≡◌, ◌≤◌, ◌++◌, [], Some, None, IfSome, IsSome, ℕ, false};
ghost use Rattle.std.specs.Vec.{vec_capacity};
ghost use Rattle.pcache_lock.specs.declared.lock.status.LockStatus.TheVariants.{Done};
ghost use Rattle.pcache_history.specs.Deeds.{deeds_by, held_in};
ghost use Rattle.pcache_history.specs.Events.{evicted_by};
ghost use Rattle.pcache_history.specs.Ongoing.{opened, row};
ghost use Rattle.pcache_world.specs.LockMoves.{MovesLocks, MovesLocksIn};
ghost use Rattle.pcache_history.specs.Files.{files_in};
ghost use Rattle.pcache_world.specs.PartFacts.{no_facts};
ghost use Rattle.pcache_world.specs.Evicting.{AddsEvictedIn};
ghost use Rattle.pcache_world.specs.Handing.{ActsOn, open_at};
ghost use Rattle.pcache_world.specs.Moved.{MovesParts, MovesRequest, MovesStore};
ghost use Rattle.pcache_history.specs.Due.{IsOfWorld, KeepsKey};
ghost use Rattle.pcache_history.specs.Rules.{FollowsRule, Replies, drop_of, let_go_of};
ghost use Rattle.pcache_world.specs.Step.{AnswersOf, IsMoved, IsPutIn, IsRequestIn, IsRowed, IsTakenOut, spare_of};
ghost use Rattle.pcache_world.specs.PutsSound.{TellsClosed};
ghost use Rattle.pcache_history.specs.Waiting.{AreOfNoLock};
ghost use Rattle.pcache_history.specs.declared.call.Act.TheVariants as acts;
ghost use Rattle.pcache_history.specs.declared.call.RequestAct.TheVariants as asks;
ghost use Rattle.pcache_history.specs.declared.call.Reply.TheVariants as replies;
ghost use Rattle.pcache_world.specs.Rowed.{AnswersIfSome, MovesLocksAt, MovesPartsAt, MovesStoreAt, PutRowAt, PutTurnAt, TurnsAt, row_at};

use crate::world::give::give;
use crate::world::open::{Kind, Open};
use crate::world::parts::Parts;
use crate::world::policy::PutPolicy;
use crate::world::puts::OpenPut;
use crate::world::request::{OpenRequest, hold, world_use, write_number};
use crate::world::vary::Spare;
use crate::world::{fill, locks, look, puts, reads, remove, switch, vary};
use bytes::Bytes;
use pcache_base::error::ErrorType;
use pcache_base::key::CacheKey;
use pcache_base::moment::Moment;
use pcache_evict::eviction::EvictionManager;
use pcache_history::call::{Act, Call, Reply, RequestAct};
use pcache_history::entry::Event;
use pcache_lock::lock::CacheLock;
use pcache_put::boxed::Boxed;
use pcache_request::cache::{CacheOptionOverrides, HttpCache};
use pcache_store::memory::MemCache;
use std::alloc::{AllocError, Global};
use std::collections::{BTreeMap, btree_map};

/// One call over the parts, of a request or a put: the reply is WrongCall, or the call is made.
pub(crate) fn act<M: EvictionManager, P: PutPolicy>(
    alloc: Global,
    requests: &mut BTreeMap<u64, Open<P>>,
    parts: &mut Parts<M>,
    events: &mut Vec<Event>,
    call: &Call,
    spare: &mut Option<Spare>,
) -> Reply
    requires parts { files_in call.now.act ≡ None }
    requires spare { spare.old ≡ spare_of call.now.act }
    requires none { events.old.items ≡ [] }
    requires room { 3 ≤ vec_capacity events.old }
    ensures acts { ActsOn P.says call.now requests.old.entries parts.old result events.new.items
        requests.new.entries parts.new }
    ensures limits { parts.new.limits ≡ parts.old.limits }
    ensures evicted { AddsEvictedIn call.now.act (open_at call.now.request requests.old.entries)
        parts.old events.new.items parts.new }
{
    let number = call.request;
    match &call.act {
        Act::Open { options } => open(alloc, requests, number, *options),
        Act::End => end(requests, &mut parts.store, &mut parts.lock, events, number),
        Act::Request(act) => on_request(requests, parts, events, number, act, spare),
        Act::Wait { now } => wait(requests, parts, events, number, *now),
        Act::Give { to } => give(requests, &mut parts.lock, events, number, *to),
        Act::Put { key, limit } => open_put(alloc, requests, number, key, *limit),
        Act::Feed { bytes, now } => feed(requests, parts, events, number, bytes, *now),
        Act::Drop => drop_put(requests, &mut parts.store, events, number),
        Act::Close => close_put(requests, parts, events, number),
        Act::Files(_) => unreachable!(),
    }
}

// A call of an open request.
fn on_request<M: EvictionManager, P: PutPolicy>(
    requests: &mut BTreeMap<u64, Open<P>>,
    parts: &mut Parts<M>,
    events: &mut Vec<Event>,
    number: u64,
    act: &RequestAct,
    spare: &mut Option<Spare>,
) -> Reply
    requires spare { spare.old ≡ spare_of (acts.Request act.now) }
    requires none { events.old.items ≡ [] }
    requires room { 3 ≤ vec_capacity events.old }
    ensures turn { TurnsAt P.says number (acts.Request act.now) requests.old.entries parts.old
        result events.new.items requests.new.entries parts.new }
    ensures puts { PutTurnAt P.says number (acts.Request act.now) result events.new.items
        requests.old.entries requests.new.entries }
    ensures requests { IsMoved number requests.old.entries requests.new.entries }
    ensures limits { parts.new.limits ≡ parts.old.limits }
    ensures evicted { AddsEvictedIn (acts.Request act.now) (open_at number requests.old.entries)
        parts.old events.new.items parts.new }
{
    let Some(open) = requests.get_mut(&number) else {
        return Reply::WrongCall;
    };
    match &mut open.kind {
        Kind::Request(request) => {
            request.is_plain(); // for the prover: it is no put
            let reply = turn(request, parts, events, act, spare);
            request.is_plain(); // for the prover: it is no put
            reply
        }
        Kind::Put(put) => {
            put.is_held(); // for the prover: it is a put, which only fills its key
            Reply::WrongCall
        }
    }
}

// A wait of an open request.
fn wait<M: EvictionManager, P: PutPolicy>(
    requests: &mut BTreeMap<u64, Open<P>>,
    parts: &mut Parts<M>,
    events: &mut Vec<Event>,
    number: u64,
    now: Moment,
) -> Reply
    requires none { events.old.items ≡ [] }
    requires room { 3 ≤ vec_capacity events.old }
    ensures turn { TurnsAt P.says number (acts.Wait now) requests.old.entries parts.old result
        events.new.items requests.new.entries parts.new }
    ensures puts { PutTurnAt P.says number (acts.Wait now) result events.new.items
        requests.old.entries requests.new.entries }
    ensures requests { IsMoved number requests.old.entries requests.new.entries }
    ensures limits { parts.new.limits ≡ parts.old.limits }
    ensures evicted { parts.new.evicted ≡ parts.old.evicted }
{
    let Some(open) = requests.get_mut(&number) else {
        return Reply::WrongCall;
    };
    match &mut open.kind {
        Kind::Request(request) => {
            request.is_plain(); // for the prover: it is no put
            let reply = locks::wait(request, &mut parts.lock, events, now);
            request.is_plain(); // for the prover: it is no put
            reply
        }
        Kind::Put(put) => {
            put.is_held(); // for the prover: it is a put, which only fills its key
            Reply::WrongCall
        }
    }
}

// A piece for an open put.
fn feed<M: EvictionManager, P: PutPolicy>(
    requests: &mut BTreeMap<u64, Open<P>>,
    parts: &mut Parts<M>,
    events: &mut Vec<Event>,
    number: u64,
    bytes: &Bytes,
    now: Moment,
) -> Reply
    requires none { events.old.items ≡ [] }
    requires room { 3 ≤ vec_capacity events.old }
    ensures turn { TurnsAt P.says number (acts.Feed bytes.now now) requests.old.entries parts.old
        result events.new.items requests.new.entries parts.new }
    ensures puts { PutTurnAt P.says number (acts.Feed bytes.now now) result events.new.items
        requests.old.entries requests.new.entries }
    ensures requests { IsMoved number requests.old.entries requests.new.entries }
    ensures limits { parts.new.limits ≡ parts.old.limits }
    ensures evicted { parts.new.evicted ≡ parts.old.evicted }
{
    let Some(open) = requests.get_mut(&number) else {
        return Reply::WrongCall;
    };
    match &mut open.kind {
        Kind::Request(request) => {
            request.is_plain(); // for the prover: it is no put
            Reply::WrongCall
        }
        Kind::Put(put) => {
            put.is_held(); // for the prover: it is a put, which only fills its key
            let reply = puts::feed(put, &mut parts.store, events, bytes, now);
            put.is_held(); // for the prover: it is a put, which only fills its key
            reply
        }
    }
}

// Makes the call of an open request, and adds its events.
#[tactic(auto, using(crate::proofs::TurnOf::moves_quietly, crate::proofs::LockSteps::none_noted, crate::proofs::LockSteps::quiet_locks))]
fn turn<M: EvictionManager>(
    request: &mut OpenRequest,
    parts: &mut Parts<M>,
    events: &mut Vec<Event>,
    act: &RequestAct,
    spare: &mut Option<Spare>,
) -> Reply
    requires spare { spare.old ≡ spare_of (acts.Request act.now) }
    requires none { events.old.items ≡ [] }
    requires room { 3 ≤ vec_capacity events.old }
    ensures answers { parts.old.store.newest ≡ false
        → AnswersOf parts.old (acts.Request act.now) request.old result events.new.items }
    ensures moves { IsOfWorld request.old.request
        → MovesParts (Some request.old) parts.old events.new.items (Some request.new) parts.new }
    ensures keeps { KeepsKey (Some request.old) (Some request.new) }
    ensures row { Some request.new
        ≡ row (acts.Request act.now) result events.new.items (Some request.old) }
    ensures locks { MovesLocksIn (acts.Request act.now) result events.new.items request.old
        parts.old.locks request.new parts.new.locks }
    ensures limits { parts.new.limits ≡ parts.old.limits }
    ensures evicted { AddsEvictedIn (acts.Request act.now) (Some request.old) parts.old
        events.new.items parts.new }
{
    match act {
        RequestAct::Enable { options } => switch::enable(request, *options),
        RequestAct::Disable { reason } => {
            switch::disable(request, &mut parts.store, &mut parts.lock, events, *reason)
        }
        RequestAct::Key { key } => set_key(request, key.get()),
        RequestAct::Look { now, decision } => {
            look::look(
                request,
                &mut parts.store,
                &mut parts.lock,
                events,
                *now,
                *decision,
            )
        }
        RequestAct::Vary { variance } => vary::vary(request, *variance),
        RequestAct::Found { status, now } => look::found(request, parts, events, *status, *now),
        RequestAct::Bypass => bypass(request),
        RequestAct::Miss => miss(request, &mut parts.store),
        RequestAct::Meta { meta } => fill::meta(request, meta.get()),
        RequestAct::Begin => fill::begin(request, &mut parts.store, &mut parts.lock, events),
        RequestAct::Write { bytes, eof } => {
            fill::write(request, &mut parts.store, events, bytes, *eof)
        }
        RequestAct::Finish => fill::finish(request, parts, events),
        RequestAct::Read => reads::read(request, &mut parts.store, events),
        RequestAct::Seek { start, end } => reads::seek(request, *start, *end),
        RequestAct::Done => reads::done(request, &mut parts.store),
        RequestAct::Purge => remove::purge(request, parts, events),
        RequestAct::Expire { now } => remove::expire(request, parts, events, *now),
        RequestAct::Lock { is_used } => locks::set_lock(request, *is_used),
        RequestAct::Publish { tokens } => locks::publish(request, &mut parts.lock, tokens),
        RequestAct::Release { reason } => {
            locks::release(request, &mut parts.lock, events, *reason)
        }
        RequestAct::Updating => updating(request),
        RequestAct::Uncacheable { header, reason } => {
            locks::uncacheable(request, &mut parts.lock, events, header.get(), *reason)
        }
        RequestAct::Variance { variance } => {
            vary::variance(request, &mut parts.lock, events, *variance)
        }
        RequestAct::Revalidate { meta } => {
            vary::revalidate(
                request,
                &mut parts.store,
                &mut parts.lock,
                events,
                meta,
                spare,
            )
        }
        RequestAct::Phase => phase(request),
    }
}

// Makes a request, if its number is free.
fn open<P: PutPolicy>(
    alloc: Global,
    requests: &mut BTreeMap<u64, Open<P>>,
    number: u64,
    options: Option<CacheOptionOverrides>,
) -> Reply
    ensures answers { Replies no_facts (acts.Open options) (open_at number requests.old.entries)
        result [] }
    ensures moves { MovesRequest (open_at number requests.old.entries)
        (row_at number (acts.Open options) result [] requests.old.entries) }
    ensures keeps { KeepsKey (open_at number requests.old.entries)
        (row_at number (acts.Open options) result [] requests.old.entries) }
    ensures requests { IsRowed number (acts.Open options) result [] requests.old.entries
        requests.new.entries }
{
    if requests.contains_key(&number) {
        return Reply::WrongCall;
    }
    match requests.entry(number) {
        Ok(btree_map::Entry::Vacant(place)) => {
            place.insert(Open::of_request(opened(alloc, options)));
            Reply::Done
        }
        Ok(btree_map::Entry::Occupied(_)) => unreachable!(),
        Err(_) => Reply::Refused(ErrorType::OutOfMemory),
    }
}

// A request that was just opened, with the manager and the lock in use, and these options of its lock.
fn opened(alloc: Global, options: Option<CacheOptionOverrides>) -> OpenRequest
    ensures { result ≡ opened options }
{
    let mut cache = HttpCache::new(alloc);
    cache.enable(world_use(), options);
    OpenRequest::new(cache)
}

fn set_key(request: &mut OpenRequest, key: &CacheKey) -> Reply
    ensures answers { FollowsRule no_facts (acts.Request (asks.Key key.now)) (Some request.old)
        result [] }
    ensures moves { MovesRequest (Some request.old) (Some request.new) }
    ensures keeps { KeepsKey (Some request.old) (Some request.new) }
    ensures row { Some request.new
        ≡ row (acts.Request (asks.Key key.now)) result [] (Some request.old) }
    ensures held { request.new.request.held ≡ request.old.request.held }
{
    if !request.cache.phase().may_take_key() {
        return Reply::WrongCall;
    }
    match key.copied() {
        Ok(copy) => {
            // A held pair stays: it is then taken under the new key, and the use that is noted is
            // that key's.
            request.cache.set_cache_key(copy);
            Reply::Done
        }
        Err(AllocError) => Reply::Refused(ErrorType::OutOfMemory),
    }
}

// Bypasses the cache.
fn bypass(request: &mut OpenRequest) -> Reply
    ensures answers { FollowsRule no_facts (acts.Request asks.Bypass) (Some request.old) result [] }
    ensures moves { MovesRequest (Some request.old) (Some request.new) }
    ensures keeps { KeepsKey (Some request.old) (Some request.new) }
    ensures row { Some request.new ≡ row (acts.Request asks.Bypass) result [] (Some request.old) }
    ensures held { request.new.request.held ≡ request.old.request.held }
{
    if !request.cache.phase().may_bypass() {
        return Reply::WrongCall;
    }
    request.cache.bypass_without_predictor();
    Reply::Done
}

// Serves the stale body while another request renews it.
fn updating(request: &mut OpenRequest) -> Reply
    ensures answers { FollowsRule no_facts (acts.Request asks.Updating) (Some request.old) result
        [] }
    ensures moves { MovesRequest (Some request.old) (Some request.new) }
    ensures keeps { KeepsKey (Some request.old) (Some request.new) }
    ensures row { Some request.new ≡ row (acts.Request asks.Updating) result [] (Some request.old) }
    ensures held { request.new.request.held ≡ request.old.request.held }
{
    if !request.cache.phase().is_stale() {
        return Reply::WrongCall;
    }
    request.cache.set_stale_updating();
    Reply::Done
}

// Returns the phase.
fn phase(request: &OpenRequest) -> Reply
    ensures answers { FollowsRule no_facts (acts.Request asks.Phase) (Some request.now) result [] }
    ensures moves { MovesRequest (Some request.now) (Some request.now) }
    ensures row { Some request.now ≡ row (acts.Request asks.Phase) result [] (Some request.now) }
{
    Reply::Phase(request.cache.phase())
}

fn miss(request: &mut OpenRequest, store: &mut MemCache) -> Reply
    ensures answers { FollowsRule no_facts (acts.Request asks.Miss) (Some request.old) result [] }
    ensures moves { MovesStore (Some request.old) store.old.state [] (Some request.new)
        store.new.state }
    ensures keeps { KeepsKey (Some request.old) (Some request.new) }
    ensures row { Some request.new ≡ row (acts.Request asks.Miss) result [] (Some request.old) }
    ensures held { request.new.request.held ≡ request.old.request.held }
{
    if !request.cache.phase().may_miss() {
        return Reply::WrongCall;
    }
    request.cache.cache_miss();
    hold(&mut request.pair, None, store);
    Reply::Done
}

// Ends a request, whose number is free then.
fn end<P: PutPolicy>(
    requests: &mut BTreeMap<u64, Open<P>>,
    store: &mut MemCache,
    lock: &mut CacheLock,
    events: &mut Vec<Event>,
    number: u64,
) -> Reply
    requires none { events.old.items ≡ [] }
    requires room { 3 ≤ vec_capacity events.old }
    ensures answers { Replies no_facts acts.End (open_at number requests.old.entries) result
        events.new.items }
    ensures moves { MovesStoreAt number acts.End result events.new.items requests.old.entries
        store.old.state store.new.state }
    ensures keeps { KeepsKey (open_at number requests.old.entries)
        (row_at number acts.End result events.new.items requests.old.entries) }
    ensures requests { IsRowed number acts.End result events.new.items requests.old.entries
        requests.new.entries }
    ensures locks { MovesLocksAt number acts.End result events.new.items requests.old.entries
        lock.old.table lock.new.table }
{
    let Some(request) = take_request(requests, number) else {
        return Reply::WrongCall;
    };
    close(request, store, lock, events);
    Reply::Done
}

// Removes the request with this number from the map, if there is one, and returns it.
fn take_request<P: PutPolicy>(
    requests: &mut BTreeMap<u64, Open<P>>,
    number: u64,
) -> Option<OpenRequest>
    ensures found { IfSome result (λ r.
        (open_at number requests.old.entries ≡ Some r) × (r.put ≡ None)) }
    ensures taken { IfSome result (λ r.
        IsTakenOut number requests.old.entries requests.new.entries) }
    ensures none { result ≡ None → IsRequestIn (open_at number requests.old.entries) → ⊥ }
    ensures kept { result ≡ None → requests.new.entries ≡ requests.old.entries }
{
    let open = requests.get(&number)?;
    if open.is_put() {
        return None;
    }
    Some(requests.remove(&number)?.into_request())
}

// Makes a put, if its number is free.
fn open_put<P: PutPolicy>(
    alloc: Global,
    requests: &mut BTreeMap<u64, Open<P>>,
    number: u64,
    key: &Boxed<CacheKey>,
    limit: Option<usize>,
) -> Reply
    ensures answers { Replies no_facts (acts.Put key.now limit)
        (open_at number requests.old.entries) result [] }
    ensures moves { MovesRequest (open_at number requests.old.entries)
        (row_at number (acts.Put key.now limit) result [] requests.old.entries) }
    ensures keeps { KeepsKey (open_at number requests.old.entries)
        (row_at number (acts.Put key.now limit) result [] requests.old.entries) }
    ensures requests { IsRowed number (acts.Put key.now limit) result [] requests.old.entries
        requests.new.entries }
    ensures puts { PutRowAt P.says number (acts.Put key.now limit) result []
        requests.old.entries }
{
    if requests.contains_key(&number) {
        return Reply::WrongCall;
    }
    let Ok(copy) = key.get().copied() else {
        return Reply::Refused(ErrorType::OutOfMemory);
    };
    match requests.entry(number) {
        Ok(btree_map::Entry::Vacant(place)) => {
            place.insert(Open::of_put(OpenPut::new(alloc, copy, limit)));
            Reply::Done
        }
        Ok(btree_map::Entry::Occupied(_)) => unreachable!(),
        Err(_) => Reply::Refused(ErrorType::OutOfMemory),
    }
}

// Removes the put with this number from the map, if there is one, and returns it.
fn take_put<P: PutPolicy>(requests: &mut BTreeMap<u64, Open<P>>, number: u64) -> Option<OpenPut<P>>
    ensures found { IfSome result (λ p.
        (open_at number requests.old.entries ≡ Some p) × IsSome p.put) }
    ensures taken { IfSome result (λ p.
        IsTakenOut number requests.old.entries requests.new.entries) }
    ensures none { result ≡ None → IsPutIn (open_at number requests.old.entries) → ⊥ }
    ensures kept { result ≡ None → requests.new.entries ≡ requests.old.entries }
{
    let open = requests.get(&number)?;
    if !open.is_put() {
        return None;
    }
    Some(requests.remove(&number)?.into_put())
}

// Ends a put before its response has come.
fn drop_put<P: PutPolicy>(
    requests: &mut BTreeMap<u64, Open<P>>,
    store: &mut MemCache,
    events: &mut Vec<Event>,
    number: u64,
) -> Reply
    requires none { events.old.items ≡ [] }
    requires room { 3 ≤ vec_capacity events.old }
    ensures answers { Replies no_facts acts.Drop (open_at number requests.old.entries) result
        events.new.items }
    ensures moves { MovesStoreAt number acts.Drop result events.new.items requests.old.entries
        store.old.state store.new.state }
    ensures keeps { KeepsKey (open_at number requests.old.entries)
        (row_at number acts.Drop result events.new.items requests.old.entries) }
    ensures requests { IsRowed number acts.Drop result events.new.items requests.old.entries
        requests.new.entries }
    ensures quiet { AreOfNoLock events.new.items }
    ensures held { held_in (row_at number acts.Drop result events.new.items requests.old.entries)
        ≡ held_in (open_at number requests.old.entries) }
{
    let Some(put) = take_put(requests, number) else {
        return Reply::WrongCall;
    };
    puts::drop_put(put, store, events);
    Reply::Done
}

// Ends a put whose response has come.
fn close_put<M: EvictionManager, P: PutPolicy>(
    requests: &mut BTreeMap<u64, Open<P>>,
    parts: &mut Parts<M>,
    events: &mut Vec<Event>,
    number: u64,
) -> Reply
    requires none { events.old.items ≡ [] }
    requires room { 3 ≤ vec_capacity events.old }
    ensures answers { AnswersIfSome P.says acts.Close (open_at number requests.old.entries)
        parts.old result events.new.items }
    ensures moves { MovesPartsAt P.says number acts.Close result events.new.items
        requests.old.entries parts.old parts.new }
    ensures keeps { KeepsKey (open_at number requests.old.entries)
        (row_at number acts.Close result events.new.items requests.old.entries) }
    ensures requests { IsRowed number acts.Close result events.new.items requests.old.entries
        requests.new.entries }
    ensures closes { TellsClosed P.says (open_at number requests.old.entries) result }
    ensures quiet { AreOfNoLock events.new.items }
    ensures held { held_in (row_at number acts.Close result events.new.items requests.old.entries)
        ≡ held_in (open_at number requests.old.entries) }
    ensures lock { parts.new.locks ≡ parts.old.locks }
    ensures limits { parts.new.limits ≡ parts.old.limits }
    ensures evicted { parts.new.evicted
        ≡ evicted_by parts.old.tracked parts.old.evicted events.new.items }
{
    let Some(put) = take_put(requests, number) else {
        return Reply::WrongCall;
    };
    puts::close_put(put, parts, events)
}

// Gives back all that a request holds, and adds the events of that.
fn close(request: OpenRequest, store: &mut MemCache, lock: &mut CacheLock, events: &mut Vec<Event>)
    requires none { events.old.items ≡ [] }
    requires room { 3 ≤ vec_capacity events.old }
    ensures events { events.new.items
        ≡ drop_of request.request.write ++ let_go_of request.request.held }
    ensures moves { MovesStore (Some request) store.old.state events.new.items None
        store.new.state }
    ensures locks { (r : ℕ)
        → MovesLocks r (deeds_by r 0 Done events.new.items) request.request.held lock.old.table None
        lock.new.table }
{
    let dropped = write_number(&request.cache);
    let let_go = request.end(store, lock);
    if let Some(write) = dropped {
        events.push_reserved(Event::Dropped { write });
    }
    if let Some(lock) = let_go {
        events.push_reserved(Event::LetGo { lock });
    }
}
