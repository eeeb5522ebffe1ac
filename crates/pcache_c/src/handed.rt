//! A permit that goes from one request of a cache to another.
ghost use Rattle.std.specs.Prelude.{◌↔◌, IsSome, IsTrue};
ghost use Rattle.pcache_c.specs.Handing.{GivesPermit, HandsOn, HandsPermit, HasPermit, IsOpenOn, TakesPermit};
ghost use Rattle.pcache_c.specs.Seats.{request_at};
ghost use Rattle.pcache_request.specs.LockUse.{permit_in};

use crate::codes::{BAD_HANDLE, OK, WRONG_CALL, WRONG_KIND};
use crate::object::Object;
use crate::seats::Seats;
use crate::served::{Open, Served};
use pcache_cache::Fetch;
use pcache_lock::lock::{Locked, WritePermit};

/// Hands the permit of a request to another request of the same cache, whose fetch counts as begun when the giver's did.
pub(crate) fn hand_permit(object: &mut Object, from: u64, to: u64) -> u32
    ensures { HandsPermit from to object.old object.new result }
{
    match object {
        Object::Cache(served) => hand_on(served, from, to),
        _ => WRONG_KIND,
    }
}

// The same within a cache.
fn hand_on(served: &mut Served, from: u64, to: u64) -> u32
    ensures { HandsOn (request_at served.old.seats from) (request_at served.old.seats to) from to
        served.old served.new result }
{
    let Some(giver) = served.seats.get(from) else {
        return BAD_HANDLE;
    };
    let Some(taker) = served.seats.get(to) else {
        return BAD_HANDLE;
    };
    if from == to || !holds_permit(giver) || !taker.request.cache.phase().is_on() {
        return WRONG_CALL;
    }
    let (permit, fetch) = give_permit(&mut served.seats, from);
    take_permit(served, to, permit, fetch);
    OK
}

/// Whether a request holds the permit.
pub(crate) fn holds_permit(giver: &Open) -> bool
    ensures { IsTrue result ↔ IsSome (permit_in giver.now.request.cache.held) }
{
    matches!(giver.request.cache.held(), Some(Locked::Write(_)))
}

// Takes the permit out of the request that holds it, and with it when that request's fetch began.
fn give_permit(seats: &mut Seats<Open>, from: u64) -> (WritePermit, Option<Fetch>)
    requires { HasPermit (request_at seats.old from) }
    ensures { GivesPermit from result.0 result.1 seats.old seats.new }
{
    let Some(giver) = seats.find(from) else {
        unreachable!()
    };
    let permit = giver.request.cache.take_write_lock();
    (permit, giver.request.fetch.take())
}

// Lets a request hold a permit, whose fetch began then. A lock that it held before is let go.
fn take_permit(served: &mut Served, to: u64, permit: WritePermit, fetch: Option<Fetch>)
    requires { IsOpenOn (request_at served.old.seats to) }
    ensures { TakesPermit to permit fetch served.old served.new }
{
    let Some(taker) = served.seats.find(to) else {
        unreachable!()
    };
    taker.request.fetch = fetch;
    let _gone = served.cache.set_write_lock(&mut taker.request, permit);
}
