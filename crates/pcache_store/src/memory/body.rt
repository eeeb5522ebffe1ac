//! The slot of a key.
ghost use Rattle.std.specs.Prelude.{◌≡◌, ◌<◌, ◌^◌, ℕ, Option, Some, None, List, IfOk, OnOk, OnErr, length, option_map, is_some, is_none, true};
ghost use Rattle.std.specs.FinMap as map;
ghost use Rattle.pcache_meta.specs.Meta as meta_of;
ghost use Rattle.pcache_store.specs.Kept.{head_size};
ghost use Rattle.pcache_store.specs.Store.{opened_in, first_in, found_body, is_idle, is_later, later_than, with_meta, has_write, number_of_body, body_with, slot_without};

use crate::memory::found::FoundBody;
use crate::memory::untouched::Untouched;
use bytes::Bytes;
use pcache_base::entry_id::CacheEntryId;
use pcache_base::error::Result;
use pcache_base::moment::Moment;
use pcache_meta::meta::spelled::SpelledMeta;
use std::alloc::{AllocError, Global};
use std::marker::Model;

/// A complete body and its meta, which is kept as the bytes that spell it.
#[derive(Drop)]
pub(crate) struct Body {
    meta: SpelledMeta,
    bytes: Bytes,
}

impl Model for Body {
    ghost use Rattle.pcache_store.specs.Store.{Stored};
    ghost use Rattle.pcache_store.specs.StoreCode.{stored_code};

    ghost Value = { Stored };

    ghost coded = { stored_code };

    ghost view = { λ b. record { meta = b.meta; bytes = b.bytes } };
}

impl Body {
    pub(crate) fn new(meta: SpelledMeta, bytes: Bytes) -> Body
        ensures { result ≡ record { meta = meta; bytes = bytes } }
    {
        Body { meta, bytes }
    }

    pub(crate) fn len(&self) -> usize
        ensures value { result ≡ length self.now.bytes }
        ensures small { result < 2 ^ 63 }
    {
        self.bytes.len()
    }

    // The meta as it is kept: a copy of its bytes, which are not read.
    pub(crate) fn spelled(&self) -> Result<SpelledMeta, AllocError>
        ensures ok { IfOk result (λ m. m ≡ self.now.meta) }
    {
        Ok(self.meta.copied()?)
    }

    // The length of the text of its head, as it is kept.
    pub(crate) fn head_len(&self) -> usize
        ensures { result ≡ head_size self.now.meta }
    {
        head_len(&self.meta)
    }

    // Shares of the meta, which is not read, and of the bytes.
    pub(crate) fn found(&self) -> Result<FoundBody, AllocError>
        ensures ok { IfOk result (λ f. Some f ≡ found_body (Some self.now)) }
    {
        let meta = self.meta.copied()?;
        let bytes = self.bytes.clone()?;
        Ok(FoundBody::new(meta, bytes))
    }

    // The number of the write that stored the body.
    pub(crate) fn entry_id(&self) -> Option<CacheEntryId>
        ensures { result ≡ self.now.meta.entry_id }
    {
        self.meta.entry_id()
    }

    pub(crate) fn set_meta(&mut self, meta: SpelledMeta)
        ensures { self.new ≡ record self.old { meta = meta } }
    {
        self.meta = meta;
    }

    // Ends the freshness: the bytes of the meta are written again.
    pub(crate) fn expire_at(&mut self, alloc: Global, now: Moment) -> Result<(), AllocError>
        ensures ok { OnOk result (self.new
            ≡ record self.old { meta = meta_of.expired_at now self.old.meta }) }
        ensures err { OnErr result (self.new ≡ self.old) }
    {
        let mut meta = self.meta.meta(alloc)?;
        meta.expire_at(now);
        self.meta = SpelledMeta::new(alloc, &meta)?;
        Ok(())
    }
}

// The length of the text of a meta's head, as it is kept.
pub(crate) fn head_len(meta: &SpelledMeta) -> usize
    ensures { result ≡ head_size meta.now }
{
    let (_internal, header) = meta.strings();
    header.len()
}

// A write's number, if it is greater than that of a complete body's write.
fn later_than(body: Option<CacheEntryId>, number: Option<u64>) -> Option<u64>
    ensures { result ≡ later_than body number }
{
    let Some(body) = body else {
        return number;
    };
    let Some(number) = number else {
        return None;
    };
    if body.get() < number {
        Some(number)
    } else {
        None
    }
}

// Whether there is a number, and it is greater.
pub(crate) fn is_later(number: u64, other: Option<CacheEntryId>) -> bool
    ensures { result ≡ is_later number other }
{
    match other {
        Some(other) => number < other.get(),
        None => false,
    }
}

/// The slot of a key: its complete body, and the numbers of its writes in flight that met no
/// removal.
#[derive(Drop)]
pub(crate) struct KeySlot {
    body: Option<Body>,
    untouched: Untouched,
}

impl Model for KeySlot {
    ghost use Rattle.pcache_store.specs.Store.{Slot};
    ghost use Rattle.pcache_store.specs.StoreCode.{slot_code};

    ghost Value = { Slot };

    ghost coded = { slot_code };

    ghost view = { λ s. record { body = s.body; untouched = s.untouched } };
}

impl KeySlot {
    pub(crate) fn new(alloc: Global) -> KeySlot
        ensures { result ≡ record { body = None; untouched = map.empty } }
    {
        KeySlot {
            body: None,
            untouched: Untouched::new(alloc),
        }
    }

    pub(crate) fn body(&self) -> Option<&Body>
        ensures { option_map (λ b. b.now) result ≡ self.now.body }
    {
        self.body.as_ref()
    }

    // The write in flight that a look-up finds, if it finds one; it may prefer the newest response.
    pub(crate) fn first(&self, newest: bool) -> Option<u64>
        ensures { result ≡ first_in newest self.now }
    {
        if newest {
            later_than(self.entry_id(), self.untouched.greatest())
        } else {
            self.untouched.least()
        }
    }

    pub(crate) fn is_untouched(&self, number: u64) -> bool
        ensures { result ≡ map.contains_key self.now.untouched number }
    {
        self.untouched.contains(number)
    }

    pub(crate) fn is_idle(&self) -> bool
        ensures { result ≡ is_idle self.now }
    {
        self.body.is_none() && self.untouched.is_empty()
    }

    pub(crate) fn open(&mut self, number: u64) -> Result<(), AllocError>
        ensures ok { OnOk result (self.new ≡ opened_in self.old number) }
        ensures err { OnErr result (self.new ≡ self.old) }
    {
        self.untouched.insert(number)
    }

    pub(crate) fn shut(&mut self, number: u64)
        ensures { self.new ≡ record self.old { untouched = map.remove self.old.untouched number } }
    {
        self.untouched.remove(number);
    }

    // Stores a body, and returns the one that it replaces.
    pub(crate) fn store(&mut self, number: u64, body: Body) -> Option<Body>
        ensures before { result ≡ self.old.body }
        ensures after { self.new
            ≡ record { body = Some body; untouched = map.remove self.old.untouched number } }
    {
        self.untouched.remove(number);
        self.body.replace(body)
    }

    // Sets the body's meta, and returns whether there is a body.
    pub(crate) fn set_meta(&mut self, meta: SpelledMeta) -> bool
        ensures there { result ≡ is_some self.old.body }
        ensures slot { self.new ≡ with_meta (λ _. meta) self.old self.old.body }
    {
        let Some(body) = &mut self.body else {
            return false;
        };
        body.set_meta(meta);
        true
    }

    // Ends the body's freshness, and returns whether there is a body.
    pub(crate) fn expire(&mut self, alloc: Global, now: Moment) -> Result<bool, AllocError>
        ensures there { IfOk result (λ b. b ≡ is_some self.old.body) }
        ensures slot { OnOk result (self.new
            ≡ with_meta (meta_of.expired_at now) self.old self.old.body) }
        ensures something { OnErr result (is_some self.old.body ≡ true) }
        ensures err { OnErr result (self.new ≡ self.old) }
    {
        let Some(body) = &mut self.body else {
            return Ok(false);
        };
        body.expire_at(alloc, now)?;
        Ok(true)
    }

    // The number of the write that stored the complete body, if there is one.
    pub(crate) fn entry_id(&self) -> Option<CacheEntryId>
        ensures { result ≡ number_of_body self.now.body }
    {
        self.body.as_ref()?.entry_id()
    }

    // Whether this write is in flight and met no removal, or stored the complete body.
    pub(crate) fn has_write(&self, id: CacheEntryId) -> bool
        ensures { result ≡ has_write id (Some self.now) }
    {
        self.untouched.contains(id.get()) || self.entry_id() == Some(id)
    }

    // Removes a write, and returns its body if it is complete.
    pub(crate) fn remove_write(&mut self, id: CacheEntryId) -> Option<Body>
        ensures body { result ≡ body_with id self.old.body }
        ensures after { self.new ≡ slot_without id self.old }
    {
        self.untouched.remove(id.get());
        if self.entry_id() == Some(id) {
            self.body.take()
        } else {
            None
        }
    }

    pub(crate) fn into_body(self) -> Option<Body>
        ensures { result ≡ self.body }
    {
        let KeySlot { body, untouched } = self;
        drop(untouched);
        body
    }
}
