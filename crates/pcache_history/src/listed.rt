//! Lists in calls and events.
ghost use Rattle.std.specs.Prelude.{◌≡◌, IfOk};

use pcache_base::error::Result;
use std::alloc::AllocError;
use std::marker::Model;

/// An immutable list of values. A contract sees the list, and not its address.
#[derive(Debug, Drop)]
pub struct Listed<T> {
    list: Vec<T>,
}

impl<T> Model for Listed<T> {
    ghost use Rattle.std.specs.Prelude.{List};

    ghost Value = { List T };

    ghost view = { λ a. a.list.items };
}

impl<T> Listed<T> {
    /// These values, in this order.
    pub fn new(list: Vec<T>) -> Listed<T>
        ensures { result ≡ list.items }
    {
        Listed { list }
    }

    /// The values, in their order.
    pub fn as_slice(&self) -> &[T]
        ensures { result.now ≡ self.now }
    {
        self.list.as_slice()
    }
}

impl Listed<u64> {
    /// A copy of this list of numbers. Fails only when memory runs out.
    pub fn copied(&self) -> Result<Listed<u64>, AllocError>
        ensures ok { IfOk result (λ copy. copy ≡ self.now) }
    {
        Ok(Listed {
            list: self.list.clone()?,
        })
    }
}
