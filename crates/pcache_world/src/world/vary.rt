//! Calls about the variants of a key, and the meta of a stale body that is still valid.
ghost use Rattle.std.specs.Prelude.{◌≡◌, ◌+◌, ◌≤◌, ◌++◌, [], IfOk, Some, vec_len};
ghost use Rattle.std.specs.Vec.{vec_capacity};
ghost use Rattle.pcache_history.specs.Due.{KeepsKey};
ghost use Rattle.pcache_world.specs.PartFacts.{facts_in, no_facts};
ghost use Rattle.pcache_lock.specs.declared.lock.status.LockStatus.TheVariants.{Done};
ghost use Rattle.pcache_history.specs.Ongoing.{row};
ghost use Rattle.pcache_world.specs.Moved.{MovesRequest, MovesStore, MovesStoreBeside};
ghost use Rattle.pcache_history.specs.Rules.{FollowsRule, IsOther, Renews};
ghost use Rattle.pcache_world.specs.Step.{Answers, renewal_reply, renewing, spare_of};
ghost use Rattle.pcache_world.specs.LockMoves.{MovesLocksBy};
ghost use Rattle.pcache_history.specs.declared.call.Act.TheVariants as acts;
ghost use Rattle.pcache_history.specs.declared.call.RequestAct.TheVariants as asks;
ghost use Rattle.pcache_request.specs.Renewals.{renewed};
ghost use Rattle.pcache_request.specs.Stale.{MayRevalidate};
ghost use Rattle.pcache_store.specs.Store.{Store};

use crate::world::notes::note_release;
use crate::world::request::{OpenRequest, permit_in};
use pcache_base::error::Result;
use pcache_base::key::{CacheHashKey, HashBinary};
use pcache_history::call::{Act, Reply, RequestAct};
use pcache_history::entry::Event;
use pcache_lock::lock::CacheLock;
use pcache_meta::meta::CacheMeta;
use pcache_put::boxed::Boxed;
use pcache_request::cache::{HttpCache, Renewal};
use pcache_store::memory::MemCache;
use std::alloc::AllocError;

/// Makes the next look-up search for this variance.
pub(crate) fn vary(request: &mut OpenRequest, variance: HashBinary) -> Reply
    ensures answers { FollowsRule no_facts (acts.Request (asks.Vary variance)) (Some request.old)
        result [] }
    ensures moves { MovesRequest (Some request.old) (Some request.new) }
    ensures keeps { KeepsKey (Some request.old) (Some request.new) }
    ensures row { Some request.new
        ≡ row (acts.Request (asks.Vary variance)) result [] (Some request.old) }
    ensures held { request.new.request.held ≡ request.old.request.held }
{
    if !request.cache.phase().may_look_up() {
        return Reply::WrongCall;
    }
    let Some((meta, _hit)) = &request.pair else {
        return Reply::WrongCall;
    };
    // The pair stays held: it may still be taken, under the key as it is then.
    if request.cache.cache_vary_lookup(variance, meta) {
        Reply::Same
    } else {
        Reply::Other
    }
}

/// Sets what the response varies on.
#[tactic(auto, using(crate::proofs::LockSteps::none_noted))]
pub(crate) fn variance(
    request: &mut OpenRequest,
    lock: &mut CacheLock,
    events: &mut Vec<Event>,
    variance: Option<HashBinary>,
) -> Reply
    requires none { events.old.items ≡ [] }
    requires room { 3 ≤ vec_capacity events.old }
    ensures answers { FollowsRule no_facts (acts.Request (asks.Variance variance))
        (Some request.old) result events.new.items }
    ensures moves { (s : Store)
        → MovesStore (Some request.old) s events.new.items (Some request.new) s }
    ensures keeps { KeepsKey (Some request.old) (Some request.new) }
    ensures row { Some request.new
        ≡ row (acts.Request (asks.Variance variance)) result events.new.items (Some request.old) }
    ensures locks { MovesLocksBy 0 Done events.new.items request.old.request lock.old.table
        request.new.request lock.new.table }
{
    if !request.cache.may_write() {
        return Reply::WrongCall;
    }
    let released = request.cache.update_variance(lock, variance);
    note_release(permit_in(released), events);
    Reply::Done
}

/// Copies of what a call passes on: the meta of a revalidation, for the request and for its event.
pub(crate) type Spare = (CacheMeta, Boxed<CacheMeta>);

/// The copies that a call needs. They are made before the call: a failure inside it is then the store's, after which the request is
/// revalidated all the same, and the history needs no event to tell the two apart.
pub(crate) fn spare_of(act: &Act) -> Result<Option<Spare>, AllocError>
    ensures ok { IfOk result (λ spare. spare ≡ spare_of act.now) }
{
    match act {
        Act::Request(RequestAct::Revalidate { meta }) => {
            let own = meta.get().copied()?;
            let noted = meta.beside(meta.get().copied()?)?;
            Ok(Some((own, noted)))
        }
        _ => Ok(None),
    }
}

/// Takes the meta of a response that says that the stale body is still valid.
#[tactic(auto, using(crate::proofs::LockSteps::none_noted))]
pub(crate) fn revalidate(
    request: &mut OpenRequest,
    store: &mut MemCache,
    lock: &mut CacheLock,
    events: &mut Vec<Event>,
    meta: &Boxed<CacheMeta>,
    spare: &mut Option<Spare>,
) -> Reply
    requires spare { spare.old ≡ Some (meta.now, meta.now) }
    requires none { events.old.items ≡ [] }
    requires room { 3 ≤ vec_capacity events.old }
    ensures answers { Answers store.old.state lock.old.table
        (acts.Request (asks.Revalidate meta.now)) request.old result events.new.items }
    ensures moves { MovesStore (Some request.old) store.old.state events.new.items
        (Some request.new) store.new.state }
    ensures keeps { KeepsKey (Some request.old) (Some request.new) }
    ensures row { Some request.new
        ≡ row (acts.Request (asks.Revalidate meta.now)) result events.new.items (Some request.old) }
    ensures locks { MovesLocksBy 0 Done events.new.items request.old.request lock.old.table
        request.new.request lock.new.table }
{
    if !request.cache.may_revalidate() {
        return Reply::WrongCall;
    }
    let Some((own, noted)) = spare.take() else {
        unreachable!()
    };
    renew(&mut request.cache, store, lock, events, own, noted)
}

// Takes the new meta, of which one copy is for the request and one for the event.
fn renew(
    cache: &mut HttpCache<MemCache>,
    store: &mut MemCache,
    lock: &mut CacheLock,
    events: &mut Vec<Event>,
    meta: CacheMeta,
    mut noted: Boxed<CacheMeta>,
) -> Reply
    requires may { MayRevalidate cache.old }
    requires same { noted ≡ meta }
    requires none { events.old.items ≡ [] }
    requires room { 3 ≤ vec_capacity events.old }
    ensures answers { Renews (facts_in store.old.state lock.old.table cache.old) meta cache.old
        result events.new.items }
    ensures other { IsOther result }
    ensures request { cache.new ≡ renewed meta cache.old }
    ensures moves { MovesStoreBeside cache.old store.old.state events.new.items cache.new
        store.new.state }
    ensures locks { MovesLocksBy 0 Done events.new.items cache.old lock.old.table cache.new
        lock.new.table }
{
    let Some(key) = cache.key() else {
        unreachable!()
    };
    let Some(old) = cache.meta() else {
        unreachable!()
    };
    let slot = key.slot();
    // The event has the meta that the body has from now on, and not quite that of the call.
    noted.set_provenance(old.provenance());
    noted.set_created(old.created());
    let Renewal { updated, released } = cache.renew_meta(store, lock, meta);
    let reply = note_renewal(slot, noted, updated, events);
    note_release(permit_in(released), events);
    reply
}

// Adds the event of the new meta, if the store set it.
fn note_renewal(
    slot: u128,
    meta: Boxed<CacheMeta>,
    updated: Result<bool>,
    events: &mut Vec<Event>,
) -> Reply
    requires { vec_len events.old + 1 ≤ vec_capacity events.old }
    ensures events { events.new.items ≡ events.old.items ++ renewing slot meta updated }
    ensures reply { result ≡ renewal_reply updated }
    ensures len { vec_len events.new ≤ vec_len events.old + 1 }
    ensures room { vec_capacity events.new ≡ vec_capacity events.old }
{
    match updated {
        Ok(true) => {
            events.push_reserved(Event::Renew { slot, meta });
            Reply::Updated
        }
        Ok(false) => Reply::NotUpdated,
        Err(refused) => Reply::Refused(refused.etype()),
    }
}
