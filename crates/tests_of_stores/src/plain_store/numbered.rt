//! The writes by number, each of which is given once.
ghost use Rattle.std.specs.Prelude.{◌≡◌, ◌<◌, ◌≤◌, ◌+◌, ◌-◌, ◌^◌, Option, Some, None, IsSome, IfSome, ◌↔◌, IfOk, IfErr, OnOk, OnErr, option_map, option_copied};
ghost use Rattle.std.specs.FinMap as map;
ghost use Rattle.pcache_base.specs.declared.error.ErrorType.TheVariants.{OutOfMemory};
ghost use Rattle.pcache_store.specs.Store.{followed_on, left_on, wrote_on, grounded_on};
ghost use Rattle.pcache_store.specs.Drafts.{closed_on};

use crate::plain_store::writes::{PlainWrite, close, join, land, leave, write};
use bytes::Bytes;
use pcache_base::error::Result;
use pcache_meta::meta::CacheMeta;
use pcache_table::hashtable::Table;
use std::alloc::Global;
use std::marker::Model;

/// The writes that a handler or a reader names, and the number of the next one.
#[derive(Drop)]
pub struct PlainWrites {
    writes: Table<PlainWrite>,
    next: u128,
    ghost numbers: { next ≤ 2 ^ 64 },
}

impl Model for PlainWrites {
    ghost use Rattle.pcache_store.specs.Drafts.{Numbered, numbered_code, AreBefore};

    ghost Value = { Numbered };

    ghost coded = { numbered_code };

    ghost view = { λ a. record { writes = a.writes; next = a.next } };

    ghost invariant = { λ a. AreBefore a.writes a.next };
}

impl PlainWrites {
    /// No write yet.
    pub fn new(alloc: Global) -> PlainWrites
        ensures { result ≡ record { writes = map.empty; next = 0 } }
    {
        PlainWrites {
            writes: Table::new(alloc),
            next: 0,
        }
    }

    /// The write with a number.
    pub fn get(&self, number: u128) -> Option<&PlainWrite>
        ensures { option_copied result ≡ map.get self.now.writes number }
    {
        self.writes.get(number)
    }

    /// The number of the next write, if it has 64 bits.
    pub fn next(&self) -> Option<u64>
        ensures value { IfSome result (λ n. n ≡ self.now.next) }
        ensures some { IsSome result ↔ (self.now.next < 2 ^ 64) }
    {
        u64::try_from(self.next).ok()
    }

    /// Begins a write.
    pub fn begin(&mut self, draft: PlainWrite) -> Result<()>
        requires { self.old.next < 2 ^ 64 }
        ensures unused { map.get self.old.writes self.old.next ≡ None }
        ensures ok { OnOk result (self.new
            ≡ record {
              writes = map.insert self.old.writes self.old.next draft;
              next = self.old.next + 1;
            }) }
        ensures kind { IfErr result (λ e. e ≡ OutOfMemory) }
        ensures err { OnErr result (self.new ≡ self.old) }
    {
        self.writes.insert(self.next, draft)?;
        self.next += 1;
        Ok(())
    }

    /// Undoes the begin of the last write.
    pub fn take_back(&mut self)
        requires { 0 < self.old.next }
        ensures { self.new
            ≡ record {
              writes = map.remove self.old.writes (self.old.next - 1);
              next = self.old.next - 1;
            } }
    {
        self.next -= 1;
        self.writes.remove(self.next);
    }

    /// Adds bytes to a write.
    pub fn write(&mut self, number: u128, bytes: &Bytes, eof: bool) -> Result<()>
        ensures ok { OnOk result (self.new
            ≡ record self.old {
              writes = wrote_on self.old.writes number bytes.now eof
                  (map.get self.old.writes number);
            }) }
        ensures kind { IfErr result (λ e. e ≡ OutOfMemory) }
        ensures err { OnErr result (self.new ≡ self.old) }
    {
        write(&mut self.writes, number, bytes, eof)
    }

    /// One more reader of a write, and its meta.
    pub fn join(&mut self, alloc: Global, number: u128) -> Result<Option<CacheMeta>>
        ensures meta { IfOk result (λ m.
            m ≡ option_map (λ w. w.meta) (map.get self.old.writes number)) }
        ensures ok { OnOk result (self.new
            ≡ record self.old {
              writes = followed_on self.old.writes number
                  (map.get self.old.writes number);
            }) }
        ensures something { OnErr result (IsSome (map.get self.old.writes number)) }
        ensures kind { IfErr result (λ e. e ≡ OutOfMemory) }
        ensures err { OnErr result (self.new ≡ self.old) }
    {
        join(&mut self.writes, alloc, number)
    }

    /// One reader less.
    pub fn leave(&mut self, number: u128)
        ensures { self.new
            ≡ record self.old {
              writes = left_on self.old.writes number
                  (map.get self.old.writes number);
            } }
    {
        leave(&mut self.writes, number);
    }

    /// A write whose handler is gone.
    pub fn land(&mut self, number: u128)
        ensures { self.new
            ≡ record self.old {
              writes = grounded_on self.old.writes number
                  (map.get self.old.writes number);
            } }
    {
        land(&mut self.writes, number);
    }

    /// A write whose body was stored.
    pub fn close(&mut self, number: u128)
        ensures { self.new
            ≡ record self.old {
              writes = closed_on self.old.writes number
                  (map.get self.old.writes number);
            } }
    {
        close(&mut self.writes, number);
    }
}
