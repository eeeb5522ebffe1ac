//! The call that names two requests: one hands its permit to the other.
ghost use Rattle.std.specs.Prelude.{◌≡◌, ◌≤◌, [], IfSome, IsTrue, ◌↔◌, Some};
ghost use Rattle.std.specs.Vec.{vec_capacity};
ghost use Rattle.pcache_world.specs.Handing.{HandsOver, IsHandedTo, IsTaken, open_at, table_given};
ghost use Rattle.pcache_history.specs.Ongoing.{permit_held};
ghost use Rattle.pcache_history.specs.Rules.{MayTake, each, given_up};
ghost use Rattle.pcache_world.specs.Step.{IsRequestIn};
ghost use Rattle.pcache_history.specs.declared.entry.Event.TheVariants.{LetGo};

use crate::world::open::Open;
use crate::world::policy::PutPolicy;
use pcache_history::call::Reply;
use pcache_history::entry::Event;
use pcache_lock::lock::{CacheLock, WritePermit};
use std::collections::BTreeMap;

/// Hands the permit of one request to another.
pub(crate) fn give<P: PutPolicy>(
    requests: &mut BTreeMap<u64, Open<P>>,
    lock: &mut CacheLock,
    events: &mut Vec<Event>,
    from: u64,
    to: u64,
) -> Reply
    requires none { events.old.items ≡ [] }
    requires room { 3 ≤ vec_capacity events.old }
    ensures { HandsOver from to (λ q. open_at q requests.old.entries) lock.old.table result
        events.new.items (λ q. open_at q requests.new.entries) lock.new.table }
{
    if !takes(requests, to) {
        return Reply::WrongCall;
    }
    let Some(permit) = take(requests, from) else {
        return Reply::WrongCall;
    };
    // They may be one request: the permit is out of its hands, so it lets nothing go.
    // No event tells who holds the permit now: that is a deed (`Handed`), of which laws of locks speak.
    let let_go = hand(requests, lock, permit, to);
    if let Some(lock) = let_go {
        events.push_reserved(Event::LetGo { lock });
    }
    Reply::Done
}

// Whether a request with this number is open, with caching on.
fn takes<P: PutPolicy>(requests: &BTreeMap<u64, Open<P>>, number: u64) -> bool
    ensures { IsTrue result ↔ MayTake (open_at number requests.now.entries) }
{
    match requests.get(&number) {
        Some(open) => open.is_on(),
        None => false,
    }
}

// Takes the permit out of a request, if it holds one.
fn take<P: PutPolicy>(requests: &mut BTreeMap<u64, Open<P>>, number: u64) -> Option<WritePermit>
    ensures permit { result ≡ permit_held (open_at number requests.old.entries) }
    ensures plain { IfSome result (λ _. IsRequestIn (open_at number requests.old.entries)) }
    ensures requests { IsTaken number requests.old.entries requests.new.entries }
{
    let open = requests.get_mut(&number)?;
    open.take_permit()
}

// Hands a permit to a request that is open, with caching on. Returns the number of a permit that is
// let go.
fn hand<P: PutPolicy>(
    requests: &mut BTreeMap<u64, Open<P>>,
    lock: &mut CacheLock,
    permit: WritePermit,
    to: u64,
) -> Option<u64>
    requires { MayTake (open_at to requests.old.entries) }
    ensures let_go { each LetGo result ≡ given_up (Some permit) (open_at to requests.old.entries) }
    ensures requests { IsHandedTo to permit requests.old.entries requests.new.entries }
    ensures table { lock.new.table
        ≡ table_given (Some permit) (open_at to requests.old.entries) lock.old.table }
{
    let Some(open) = requests.get_mut(&to) else {
        unreachable!()
    };
    open.put_permit(lock, permit)
}
