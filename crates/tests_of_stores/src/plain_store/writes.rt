//! Writes by number, in a plain map.
ghost use Rattle.std.specs.Prelude.{◌≡◌, ◌<◌, ◌≤◌, ◌+◌, ◌-◌, ◌++◌, ◌&&◌, not, Option, Some, None, IsSome, IfOk, IfErr, OnOk, OnErr, option_map, length, drop, true, false};
ghost use Rattle.std.specs.FinMap as map;
ghost use Rattle.pcache_base.specs.declared.error.ErrorType.TheVariants.{OutOfMemory};
ghost use Rattle.pcache_store.specs.Store.{new_write, is_named, wrote_on, followed_on, left_on, grounded_on};
ghost use Rattle.pcache_store.specs.Drafts.{closed_on};

use crate::plain_store::slots::PlainBody;
use bytes::Bytes;
use pcache_base::error::{Error, ErrorType, Result};
use pcache_meta::meta::CacheMeta;
use pcache_meta::meta::spelled::SpelledMeta;
use pcache_table::hashtable::Table;
use std::alloc::Global;
use std::marker::Model;

/// A write, while its handler or a reader names it.
#[derive(Drop)]
pub struct PlainWrite {
    slot: u128,
    meta: SpelledMeta,
    text: Vec<u8>,
    told: bool,
    flying: bool,
    readers: u64,
}

impl Model for PlainWrite {
    ghost use Rattle.pcache_store.specs.Store.{Written};
    ghost use Rattle.pcache_store.specs.StoreCode.{written_code};

    ghost Value = { Written };

    ghost coded = { written_code };

    ghost view = { λ w. record { slot = w.slot; meta = w.meta; bytes = w.text.items; told = w.told; flying = w.flying; readers = w.readers } };
}

impl PlainWrite {
    /// A new write of a slot.
    pub fn new(alloc: Global, slot: u128, meta: SpelledMeta) -> PlainWrite
        ensures { result ≡ new_write slot meta }
    {
        PlainWrite {
            slot,
            meta,
            text: Vec::new(alloc),
            told: false,
            flying: true,
            readers: 0,
        }
    }

    /// The slot of its key.
    pub fn slot(&self) -> u128
        ensures { result ≡ self.now.slot }
    {
        self.slot
    }

    /// The number of its bytes.
    pub fn len(&self) -> usize
        ensures { result ≡ length self.now.bytes }
    {
        self.text.len()
    }

    /// Whether its end is known.
    pub fn is_told(&self) -> bool
        ensures { result ≡ self.now.told }
    {
        self.told
    }

    /// Whether it is in flight.
    pub fn is_flying(&self) -> bool
        ensures { result ≡ self.now.flying }
    {
        self.flying
    }

    /// Whether more bytes may come.
    pub fn is_open(&self) -> bool
        ensures { result ≡ (self.now.flying && not self.now.told) }
    {
        self.flying && !self.told
    }

    fn is_named(&self) -> bool
        ensures { result ≡ is_named self.now }
    {
        self.flying || self.readers > 0
    }

    /// The bytes from a place on.
    pub fn rest(&self, alloc: Global, place: usize) -> Result<Bytes>
        requires { place ≤ length self.now.bytes }
        ensures ok { IfOk result (λ b. b ≡ drop place self.now.bytes) }
        ensures kind { IfErr result (λ e. e ≡ OutOfMemory) }
    {
        Ok(Bytes::copy_from_slice(alloc, &self.text.as_slice()[place..])?)
    }

    /// The write as a complete body.
    pub fn to_body(&self, alloc: Global) -> Result<PlainBody>
        ensures ok { IfOk result (λ b.
            b ≡ record { meta = self.now.meta; bytes = self.now.bytes }) }
        ensures kind { IfErr result (λ e. e ≡ OutOfMemory) }
    {
        let meta = self.meta.copied()?;
        let bytes = Bytes::copy_from_slice(alloc, self.text.as_slice())?;
        Ok(PlainBody { meta, bytes })
    }

    fn write(&mut self, bytes: &Bytes, eof: bool) -> Result<()>
        ensures ok { OnOk result (self.new
            ≡ record self.old { bytes = self.old.bytes ++ bytes.now; told = eof }) }
        ensures kind { IfErr result (λ e. e ≡ OutOfMemory) }
        ensures err { OnErr result (self.new ≡ self.old) }
    {
        self.text.extend_from_slice(bytes.as_slice())?;
        self.told = eof;
        Ok(())
    }

    fn join(&mut self, alloc: Global) -> Result<CacheMeta>
        ensures meta { IfOk result (λ m. m ≡ self.old.meta) }
        ensures ok { OnOk result (self.new ≡ record self.old { readers = self.old.readers + 1 }) }
        ensures kind { IfErr result (λ e. e ≡ OutOfMemory) }
        ensures err { OnErr result (self.new ≡ self.old) }
    {
        let Some(readers) = self.readers.checked_add(1) else {
            return Err(Error::new(ErrorType::OutOfMemory));
        };
        let meta = self.meta.meta(alloc)?;
        self.readers = readers;
        Ok(meta)
    }

    fn leave(&mut self)
        ensures { self.new ≡ record self.old { readers = self.old.readers - 1 } }
    {
        self.readers = self.readers.saturating_sub(1);
    }

    fn land(&mut self)
        ensures { self.new ≡ record self.old { flying = false } }
    {
        self.flying = false;
    }

    fn close(&mut self)
        ensures { self.new ≡ record self.old { flying = false; told = true } }
    {
        self.flying = false;
        self.told = true;
    }
}

/// More bytes of a write.
pub fn write(writes: &mut Table<PlainWrite>, number: u128, bytes: &Bytes, eof: bool) -> Result<()>
    ensures ok { OnOk result (writes.new
        ≡ wrote_on writes.old number bytes.now eof (map.get writes.old number)) }
    ensures kind { IfErr result (λ e. e ≡ OutOfMemory) }
    ensures err { OnErr result (writes.new ≡ writes.old) }
{
    let Some(draft) = writes.get_mut(number) else {
        return Ok(());
    };
    draft.write(bytes, eof)
}

/// A reader more of a write, and its meta.
pub fn join(
    writes: &mut Table<PlainWrite>,
    alloc: Global,
    number: u128,
) -> Result<Option<CacheMeta>>
    ensures meta { IfOk result (λ m. m ≡ option_map (λ w. w.meta) (map.get writes.old number)) }
    ensures ok { OnOk result (writes.new
        ≡ followed_on writes.old number (map.get writes.old number)) }
    ensures something { OnErr result (IsSome (map.get writes.old number)) }
    ensures kind { IfErr result (λ e. e ≡ OutOfMemory) }
    ensures err { OnErr result (writes.new ≡ writes.old) }
{
    let Some(draft) = writes.get_mut(number) else {
        return Ok(None);
    };
    match draft.join(alloc) {
        Ok(meta) => Ok(Some(meta)),
        Err(refused) => Err(refused),
    }
}

/// A reader less.
pub fn leave(writes: &mut Table<PlainWrite>, number: u128)
    ensures { writes.new ≡ left_on writes.old number (map.get writes.old number) }
{
    let Some(draft) = writes.get_mut(number) else {
        return;
    };
    draft.leave();
    if draft.is_named() {
        return;
    }
    writes.remove(number);
}

/// A write whose handler is gone.
pub fn land(writes: &mut Table<PlainWrite>, number: u128)
    ensures { writes.new ≡ grounded_on writes.old number (map.get writes.old number) }
{
    let Some(draft) = writes.get_mut(number) else {
        return;
    };
    draft.land();
    if draft.is_named() {
        return;
    }
    writes.remove(number);
}

/// A write whose body was stored.
pub fn close(writes: &mut Table<PlainWrite>, number: u128)
    ensures { writes.new ≡ closed_on writes.old number (map.get writes.old number) }
{
    let Some(draft) = writes.get_mut(number) else {
        return;
    };
    draft.close();
    if draft.is_named() {
        return;
    }
    writes.remove(number);
}
