//! The slots of keys, in a plain map.
ghost use Rattle.std.specs.Prelude.{◌≡◌, Option, Some, None, IsSome, IfOk, IfErr, OnOk, OnErr, length, option_map, is_some, true};
ghost use Rattle.std.specs.FinMap as map;
ghost use Rattle.pcache_base.specs.declared.error.ErrorType.TheVariants.{OutOfMemory};
ghost use Rattle.pcache_meta.specs.Meta as meta_of;
ghost use Rattle.pcache_store.specs.Store.{opened, opened_in, is_idle, shut_on, stored_on, complete_body, with_meta, meta_changed_on};

use bytes::Bytes;
use pcache_base::error::Result;
use pcache_base::moment::Moment;
use pcache_meta::meta::spelled::SpelledMeta;
use pcache_table::hashtable::Table;
use std::alloc::Global;
use std::marker::Model;

/// A complete body and its meta.
#[derive(Drop)]
pub struct PlainBody {
    pub(super) meta: SpelledMeta,
    pub(super) bytes: Bytes,
}

impl Model for PlainBody {
    ghost use Rattle.pcache_store.specs.Store.{Stored};
    ghost use Rattle.pcache_store.specs.StoreCode.{stored_code};

    ghost Value = { Stored };

    ghost coded = { stored_code };

    ghost view = { λ b. record { meta = b.meta; bytes = b.bytes } };
}

/// The slot of a key: its complete body, and the numbers of its writes in flight that met no removal.
#[derive(Drop)]
pub struct PlainSlot {
    pub(super) body: Option<PlainBody>,
    pub(super) untouched: Table<()>,
}

impl Model for PlainSlot {
    ghost use Rattle.pcache_store.specs.Store.{Slot};
    ghost use Rattle.pcache_store.specs.StoreCode.{slot_code};

    ghost Value = { Slot };

    ghost coded = { slot_code };

    ghost view = { λ s. record { body = s.body; untouched = s.untouched } };
}

impl PlainSlot {
    fn new(alloc: Global) -> PlainSlot
        ensures { result ≡ record { body = None; untouched = map.empty } }
    {
        PlainSlot {
            body: None,
            untouched: Table::new(alloc),
        }
    }

    fn is_idle(&self) -> bool
        ensures { result ≡ is_idle self.now }
    {
        self.body.is_none() && self.untouched.is_empty()
    }

    fn open(&mut self, number: u128) -> Result<()>
        ensures ok { OnOk result (self.new ≡ opened_in self.old number) }
        ensures kind { IfErr result (λ e. e ≡ OutOfMemory) }
        ensures err { OnErr result (self.new ≡ self.old) }
    {
        self.untouched.insert(number, ())?;
        Ok(())
    }

    fn shut(&mut self, number: u128)
        ensures { self.new ≡ record self.old { untouched = map.remove self.old.untouched number } }
    {
        self.untouched.remove(number);
    }

    fn store(&mut self, number: u128, body: PlainBody)
        ensures { self.new
            ≡ record { body = Some body; untouched = map.remove self.old.untouched number } }
    {
        self.untouched.remove(number);
        self.body = Some(body);
    }

    fn set_meta(&mut self, meta: SpelledMeta) -> bool
        ensures there { result ≡ is_some self.old.body }
        ensures slot { self.new ≡ with_meta (λ _. meta) self.old self.old.body }
    {
        let Some(body) = &mut self.body else {
            return false;
        };
        body.meta = meta;
        true
    }

    fn expire(&mut self, alloc: Global, now: Moment) -> Result<bool>
        ensures there { IfOk result (λ b. b ≡ is_some self.old.body) }
        ensures slot { OnOk result (self.new
            ≡ with_meta (meta_of.expired_at now) self.old self.old.body) }
        ensures something { OnErr result (is_some self.old.body ≡ true) }
        ensures kind { IfErr result (λ e. e ≡ OutOfMemory) }
        ensures err { OnErr result (self.new ≡ self.old) }
    {
        let Some(body) = &mut self.body else {
            return Ok(false);
        };
        let mut meta = body.meta.meta(alloc)?;
        meta.expire_at(now);
        body.meta = SpelledMeta::new(alloc, &meta)?;
        Ok(true)
    }
}

/// A write of the key begins.
pub fn open(slots: &mut Table<PlainSlot>, alloc: Global, key: u128, number: u128) -> Result<()>
    ensures ok { OnOk result (slots.new ≡ opened slots.old key number) }
    ensures kind { IfErr result (λ e. e ≡ OutOfMemory) }
    ensures err { OnErr result (slots.new ≡ slots.old) }
{
    if let Some(slot) = slots.get_mut(key) {
        slot.open(number)?;
        return Ok(());
    }
    let mut slot = PlainSlot::new(alloc);
    slot.open(number)?;
    slots.insert(key, slot)?;
    Ok(())
}

/// A write of the key ends, and nothing is stored.
pub fn shut(slots: &mut Table<PlainSlot>, key: u128, number: u128)
    ensures { slots.new ≡ shut_on slots.old key number (map.get slots.old key) }
{
    let Some(slot) = slots.get_mut(key) else {
        return;
    };
    slot.shut(number);
    if slot.is_idle() {
        slots.remove(key);
        return;
    }
}

/// A write of the key ends, and its body is stored.
pub fn store(slots: &mut Table<PlainSlot>, key: u128, number: u128, body: PlainBody)
    ensures { slots.new ≡ stored_on slots.old key number body (map.get slots.old key) }
{
    let Some(slot) = slots.get_mut(key) else {
        return;
    };
    slot.store(number, body);
}

/// Sets the meta of the complete body, and returns whether there is one.
pub fn set_meta(slots: &mut Table<PlainSlot>, key: u128, meta: SpelledMeta) -> bool
    ensures there { result ≡ is_some (complete_body (map.get slots.old key)) }
    ensures slots { slots.new ≡ meta_changed_on (λ _. meta) slots.old key (map.get slots.old key) }
{
    let Some(slot) = slots.get_mut(key) else {
        return false;
    };
    slot.set_meta(meta)
}

/// Ends the freshness of the complete body, and returns whether there is one.
pub fn expire(slots: &mut Table<PlainSlot>, alloc: Global, key: u128, now: Moment) -> Result<bool>
    ensures there { IfOk result (λ b. b ≡ is_some (complete_body (map.get slots.old key))) }
    ensures slots { OnOk result (slots.new
        ≡ meta_changed_on (meta_of.expired_at now) slots.old key (map.get slots.old key)) }
    ensures something { OnErr result (is_some (complete_body (map.get slots.old key)) ≡ true) }
    ensures kind { IfErr result (λ e. e ≡ OutOfMemory) }
    ensures err { OnErr result (slots.new ≡ slots.old) }
{
    let Some(slot) = slots.get_mut(key) else {
        return Ok(false);
    };
    slot.expire(alloc, now)
}
