//! A handle, as C has it.
ghost use Rattle.std.specs.Prelude.{◌≡◌, Option, None, Some, IsTrue, is_some};
ghost use Rattle.std.specs.Coded.{coded_option};
ghost use Rattle.pcache_c.specs.contracts.object.Object.{the_row};
ghost use Rattle.pcache_c.specs.declared.object.Object.{Object};
ghost use Rattle.pcache_c.specs.Handle.{object_at};

use crate::codes::{BAD_HANDLE, NO_MEMORY, OK};
use crate::loose::Loose;
use crate::object::Object;
use std::alloc::Global;
use std::marker::Model;
use std::{mem, ptr};

/// The pointer to an object's box, under a type that C can have, or no object.
#[repr(C)]
#[derive(Drop)]
pub struct ObjectPtr {
    // Of bytes and not of an `Object`: no export may take or return a pointer to a type that is
    // read through a `&`, nor a generic struct of one.
    at: *mut u8,
    /// The object.
    pub ghost value: { Option Object } by { coded_option the_row.coded },
}

impl Model for ObjectPtr {
    ghost also_owns = { λ h. object_at h.at h.value };
}

impl ObjectPtr {
    /// No object.
    pub(crate) fn none() -> ObjectPtr
        ensures { result.value ≡ None }
    {
        ObjectPtr {
            at: ptr::null_mut(),
        }
    }

    /// The pointer of a box.
    pub(crate) fn of(loose: Loose<Object, Global>) -> ObjectPtr
        ensures { result.value ≡ Some loose.value }
    {
        let Loose { at, alloc: _ } = loose;
        ObjectPtr { at: at as *mut u8 }
    }

    /// The box of a pointer.
    pub(crate) fn into_loose(self, alloc: Global) -> Loose<Object, Global>
        requires { IsTrue (is_some self.value) }
        ensures { Some result.value ≡ self.value }
    {
        let ObjectPtr { at } = self;
        Loose {
            at: at as *mut Object,
            alloc,
        }
    }
}

/// The first word of a handle with an object: the letters PCACHE01.
const TAG: u64 = 0x5043_4143_4845_3031;

/// A handle, as C keeps it: an object in a box, or nothing. All zeros means empty.
#[repr(C)]
#[derive(Drop)]
pub struct PcacheHandle {
    tag: u64,
    /// The object.
    pub held: ObjectPtr,
    // A field and no invariant: in an export a struct that has one and no view is refused.
    ghost tied: { tag ≡ 5783538103704956977 → IsTrue (is_some held.value) },
}

impl PcacheHandle {
    ghost use Rattle.std.specs.Prelude.{◌≡◌, ◌↔◌, None, Some, IsSome, IsTrue, option_map};
    ghost use Rattle.pcache_c.specs.Handles.{Fills, object_of};

    /// Whether there is an object.
    pub(crate) fn is_live(&self) -> bool
        ensures { IsTrue result ↔ IsSome (object_of self.now) }
    {
        self.tag == TAG
    }

    /// Takes the object out, if there is one.
    pub(crate) fn take(&mut self, alloc: Global) -> Option<Box<Object>>
        ensures taken { option_map (λ object. object.value) result ≡ object_of self.old }
        ensures none { object_of self.new ≡ None }
    {
        if self.tag != TAG {
            return None;
        }
        // The object is out of its handle while a call runs: so a call that is given one handle twice finds nothing in the second.
        self.tag = 0;
        let held = mem::replace(&mut self.held, ObjectPtr::none());
        Some(held.into_loose(alloc).into_box())
    }

    /// Puts an object into a handle that has none.
    pub(crate) fn fill(&mut self, alloc: Global, object: Object) -> u32
        ensures { Fills object self.old self.new result }
    {
        if self.is_live() {
            return BAD_HANDLE;
        }
        match Box::new(alloc, object) {
            Ok(object) => {
                self.put(object);
                OK
            }
            Err(_) => NO_MEMORY,
        }
    }

    /// Puts an object into the handle.
    pub(crate) fn put(&mut self, object: Box<Object>)
        ensures { object_of self.new ≡ Some object.value }
    {
        self.held = ObjectPtr::of(Loose::of(object));
        self.tag = TAG;
    }
}
