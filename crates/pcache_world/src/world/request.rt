//! An open request, with the pair that its last look-up gave.
ghost use Rattle.std.specs.Prelude.{◌≡◌, None, Some, option_map};
ghost use Rattle.pcache_store.specs.Readers.{reader_of};
ghost use Rattle.pcache_request.specs.Phases.{IsOn};
ghost use Rattle.pcache_world.specs.Handing.{table_given, without_permit};
ghost use Rattle.pcache_history.specs.Ongoing.{handed_by, permit_held, world_use, pair_reader};
ghost use Rattle.pcache_history.specs.Rules.{each, given_up, permit_of};
ghost use Rattle.pcache_history.specs.declared.entry.Event.TheVariants.{LetGo};
ghost use Rattle.pcache_request.specs.Requests.{left_by, let_go_by};
ghost use Rattle.pcache_world.specs.Step.{permit_in, permit_released, store_ended};

use pcache_lock::lock::{CacheLock, Locked, WritePermit};
use pcache_meta::meta::CacheMeta;
use pcache_predict::admission::Decision;
use pcache_request::cache::{HttpCache, LockName, ReleasedLock};
use pcache_request::phase::InUse;
use pcache_store::memory::{MemCache, MemHitHandler};
use pcache_store::storage::HandleHit;
use std::marker::Model;

/// The pair that a look-up gave: a meta, and the reader of the body or write.
pub(crate) type Pair = (CacheMeta, MemHitHandler);

/// An open request. The pair that its last look-up gave is held until it is taken, or the request
/// looks up again, goes on as a miss or ends. The decision that a look-up carried last is that of the
/// policy in use.
pub struct OpenRequest {
    pub(crate) cache: HttpCache<MemCache>,
    pub(crate) pair: Option<Pair>,
    pub(crate) carried: Option<Decision>,
}

impl Model for OpenRequest {
    ghost use Rattle.std.specs.Prelude.{None, option_map};
    ghost use Rattle.pcache_store.specs.Readers.{reader_of};
    ghost use Rattle.pcache_history.specs.Ongoing.{Ongoing};

    ghost Value = { Ongoing };

    ghost view = { λ a. record { request = a.cache; pair = option_map (λ p. (p.0, reader_of p.1)) a.pair; carried = a.carried; put = None } };
}

impl OpenRequest {
    pub(crate) fn new(cache: HttpCache<MemCache>) -> OpenRequest
        ensures { result ≡ record { request = cache; pair = None; carried = None; put = None } }
    {
        OpenRequest {
            cache,
            pair: None,
            carried: None,
        }
    }

    /// For the prover: states that this is no put. It does nothing.
    pub(crate) fn is_plain(&self)
        ensures { self.now.put ≡ None }
    {
        // For the prover: a use of a field brings in the view, whose `put` is `None`.
        let _ = &self.carried;
    }

    /// Takes the permit out, if one is held.
    pub(crate) fn take_permit(&mut self) -> Option<WritePermit>
        ensures permit { result ≡ permit_held (Some self.old) }
        ensures plain { self.old.put ≡ None }
        ensures left { Some self.new
            ≡ without_permit (permit_held (Some self.old)) (Some self.old) }
    {
        let Some(Locked::Write(_)) = self.cache.held() else {
            return None;
        };
        Some(self.cache.take_write_lock())
    }

    /// Takes a permit; caching is on. Returns the number of a permit that is let go.
    pub(crate) fn put_permit(&mut self, lock: &mut CacheLock, permit: WritePermit) -> Option<u64>
        requires { IsOn self.old.request.phase }
        ensures let_go { each LetGo result ≡ given_up (Some permit) (Some self.old) }
        ensures held { self.new ≡ handed_by (Some permit) self.old }
        ensures table { lock.new.table ≡ table_given (Some permit) (Some self.old) lock.old.table }
    {
        permit_in(self.cache.set_write_lock(lock, permit))
    }

    /// Gives back all that is held, and returns the number of a permit that is let go.
    pub(crate) fn end(self, store: &mut MemCache, lock: &mut CacheLock) -> Option<u64>
        ensures let_go { result ≡ permit_of self.request.held }
        ensures store { store.new.state ≡ store_ended self store.old.state }
        ensures table { lock.new.table ≡ let_go_by self.request.held lock.old.table }
    {
        let OpenRequest {
            cache,
            mut pair,
            carried: _,
        } = self;
        hold(&mut pair, None, store);
        let None = pair else { unreachable!() };
        permit_in(cache.end(store, lock))
    }
}

/// Which parts the requests of a world use while caching is on: the manager and the lock.
pub(crate) fn world_use() -> InUse
    ensures { result ≡ world_use }
{
    InUse {
        eviction: true,
        predictor: false,
        lock: true,
    }
}

/// The number of the write that a request holds, if it holds one; the write's entry has the same
/// number.
pub(crate) fn write_number(cache: &HttpCache<MemCache>) -> Option<u64>
    ensures write { result ≡ cache.now.write }
    ensures entry { result ≡ cache.now.entry }
{
    match cache.writer() {
        Some(writer) => Some(writer.number()),
        None => None,
    }
}

/// Replaces the held pair, perhaps by none. The old one is let go.
pub(crate) fn hold(place: &mut Option<Pair>, pair: Option<Pair>, store: &mut MemCache)
    ensures place { place.new ≡ pair }
    ensures store { store.new.state
        ≡ left_by (pair_reader (option_map (λ p. (p.0, reader_of p.1)) place.old)) store.old.state }
{
    if let Some((_meta, hit)) = std::mem::replace(place, pair) {
        hit.let_go(store);
    }
}

/// The number of a permit that was released.
pub(crate) fn permit_released(released: Option<ReleasedLock>) -> Option<u64>
    ensures { result ≡ permit_released released }
{
    permit_in(Some(released?.lock))
}

/// The number of a lock, if it is a permit.
pub(crate) fn permit_in(lock: Option<LockName>) -> Option<u64>
    ensures { result ≡ permit_in lock }
{
    match lock {
        Some(
            LockName {
                number,
                is_permit: true,
            },
        ) => Some(number),
        _ => None,
    }
}
