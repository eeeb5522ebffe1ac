//! What is open under a number of a world: a request or a put.
ghost use Rattle.std.specs.Prelude.{◌≡◌, ◌↔◌, None, Some, IfSome, IsSome, IsTrue, is_some};
ghost use Rattle.pcache_world.specs.Handing.{table_given, without_permit};
ghost use Rattle.pcache_history.specs.Ongoing.{handed_by, permit_held};
ghost use Rattle.pcache_history.specs.Rules.{MayTake, each, given_up};
ghost use Rattle.pcache_history.specs.declared.entry.Event.TheVariants.{LetGo};

use crate::world::policy::PutPolicy;
use crate::world::puts::OpenPut;
use crate::world::request::OpenRequest;
use pcache_lock::lock::{CacheLock, WritePermit};
use pcache_store::memory::MemCache;
use std::marker::Model;

/// A request or a put.
pub enum Kind<P: PutPolicy> {
    /// A request.
    Request(OpenRequest),
    /// A put.
    Put(OpenPut<P>),
}

/// What is open under a number.
pub struct Open<P: PutPolicy> {
    pub(crate) kind: Kind<P>,
}

impl<P: PutPolicy> Model for Open<P> {
    ghost use Rattle.pcache_history.specs.Ongoing.{Ongoing};
    ghost use Rattle.pcache_world.specs.Opens.{held_of};

    ghost Value = { Ongoing };

    ghost view = { λ a. held_of a.kind };
}

impl<P: PutPolicy> Open<P> {
    /// A request.
    pub(crate) fn of_request(request: OpenRequest) -> Open<P>
        ensures { result ≡ request }
    {
        Open {
            kind: Kind::Request(request),
        }
    }

    /// A put.
    pub(crate) fn of_put(put: OpenPut<P>) -> Open<P>
        ensures { result ≡ put }
    {
        Open {
            kind: Kind::Put(put),
        }
    }

    /// Whether this is a put.
    pub(crate) fn is_put(&self) -> bool
        ensures { result ≡ is_some self.now.put }
    {
        match &self.kind {
            Kind::Request(request) => {
                request.is_plain(); // for the prover: it is no put
                false
            }
            Kind::Put(put) => {
                put.is_held(); // for the prover: it is a put, which only fills its key
                true
            }
        }
    }

    /// Whether this is a request with caching on.
    pub(crate) fn is_on(&self) -> bool
        ensures { IsTrue result ↔ MayTake (Some self.now) }
    {
        match &self.kind {
            Kind::Request(request) => {
                request.is_plain(); // for the prover: it is no put
                request.cache.phase().is_on()
            }
            Kind::Put(put) => {
                put.is_held(); // for the prover: it is a put, which only fills its key
                false
            }
        }
    }

    /// Takes the permit out of a request, if it holds one. A put holds none.
    pub(crate) fn take_permit(&mut self) -> Option<WritePermit>
        ensures permit { result ≡ permit_held (Some self.old) }
        ensures plain { IfSome result (λ _. self.old.put ≡ None) }
        ensures left { Some self.new
            ≡ without_permit (permit_held (Some self.old)) (Some self.old) }
    {
        match &mut self.kind {
            Kind::Request(request) => request.take_permit(),
            Kind::Put(put) => {
                put.is_held(); // for the prover: it is a put, which only fills its key
                None
            }
        }
    }

    /// Hands a permit to a request with caching on. Returns the number of a permit that is let go.
    pub(crate) fn put_permit(&mut self, lock: &mut CacheLock, permit: WritePermit) -> Option<u64>
        requires { MayTake (Some self.old) }
        ensures let_go { each LetGo result ≡ given_up (Some permit) (Some self.old) }
        ensures held { self.new ≡ handed_by (Some permit) self.old }
        ensures table { lock.new.table ≡ table_given (Some permit) (Some self.old) lock.old.table }
    {
        match &mut self.kind {
            Kind::Request(request) => request.put_permit(lock, permit),
            // A put is handed no permit: it waits on nobody, and asks for no lock.
            Kind::Put(put) => {
                put.is_held(); // for the prover: it is a put, which only fills its key
                unreachable!()
            }
        }
    }

    /// The request that this is.
    pub(crate) fn into_request(self) -> OpenRequest
        requires { self.put ≡ None }
        ensures { result ≡ self }
    {
        let Open { kind } = self;
        match kind {
            Kind::Request(request) => request,
            Kind::Put(put) => {
                put.is_held(); // for the prover: it is a put, which only fills its key
                unreachable!()
            }
        }
    }

    /// The put that this is.
    pub(crate) fn into_put(self) -> OpenPut<P>
        requires { IsSome self.put }
        ensures { result ≡ self }
    {
        let Open { kind } = self;
        match kind {
            Kind::Request(request) => {
                request.is_plain(); // for the prover: it is no put
                unreachable!()
            }
            Kind::Put(put) => put,
        }
    }

    /// Gives back all that is held.
    pub(crate) fn end(self, store: &mut MemCache, lock: &mut CacheLock) {
        let Open { kind } = self;
        match kind {
            Kind::Request(request) => {
                let _let_go = request.end(store, lock);
            }
            Kind::Put(put) => put.end(store),
        }
    }
}
