//! Values behind boxes, for the reports of puts and for the calls and events of worlds.
ghost use Rattle.std.specs.Prelude.{◌≡◌, IfOk, Some};
ghost use Rattle.pcache_meta.specs.Meta.{internal_changed};

use pcache_base::error::Result;
use pcache_base::moment::Moment;
use pcache_meta::meta::CacheMeta;
use std::alloc::{AllocError, Global};
use std::marker::Model;

/// A value behind a box, so that a struct that has it has only a pointer in its place. A contract
/// sees the value.
#[derive(Drop)]
pub struct Boxed<T> {
    place: Box<T>,
}

impl<T> Model for Boxed<T> {
    ghost Value = { T };

    ghost view = { λ a. a.place.value };
}

impl<T: Drop> Boxed<T> {
    /// Puts a value behind a box. Fails only when memory runs out.
    pub fn new(alloc: Global, value: T) -> Result<Boxed<T>, AllocError>
        ensures ok { IfOk result (λ boxed. boxed ≡ value) }
    {
        Ok(Boxed {
            place: Box::new(alloc, value)?,
        })
    }

    /// Puts another value behind a box of its own. Fails only when memory runs out.
    pub fn beside(&self, value: T) -> Result<Boxed<T>, AllocError>
        ensures ok { IfOk result (λ boxed. boxed ≡ value) }
    {
        Boxed::new(*Box::allocator(&self.place), value)
    }

    /// The value.
    pub fn get(&self) -> &T
        ensures { result.now ≡ self.now }
    {
        &self.place
    }
}

impl Boxed<CacheMeta> {
    /// Sets when the body was fetched.
    pub fn set_provenance(&mut self, provenance: Moment)
        ensures { self.new
            ≡ internal_changed (λ x. record x { provenance = Some provenance }) self.old }
    {
        self.place.set_provenance(provenance);
    }

    /// Sets when the response was first stored.
    pub fn set_created(&mut self, created: Moment)
        ensures { self.new ≡ internal_changed (λ x. record x { created = created }) self.old }
    {
        self.place.set_created(created);
    }
}
