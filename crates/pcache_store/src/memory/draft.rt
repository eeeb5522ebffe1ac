//! The record of a write.
ghost use Rattle.std.specs.Prelude.{◌≡◌, ◌<◌, ◌≤◌, ◌+◌, ◌-◌, ◌^◌, ◌++◌, ◌&&◌, not, ℕ, Option, Some, None, List, IfOk, OnOk, OnErr, length, drop, true, false};
ghost use Rattle.pcache_store.specs.Kept.{head_size};
ghost use Rattle.pcache_store.specs.Store.{new_write, is_named};

use crate::memory::body::{Body, head_len};
use crate::memory::draft_text::DraftText;
use bytes::Bytes;
use pcache_base::entry_id::CacheEntryId;
use pcache_base::error::{Error, ErrorType, Result};
use pcache_meta::meta::CacheMeta;
use pcache_meta::meta::spelled::SpelledMeta;
use std::alloc::{AllocError, Global};
use std::marker::Model;

/// The record of a write, kept while its handler or a reader names it. Its meta is kept as the bytes
/// that spell it.
#[derive(Drop)]
pub(crate) struct Draft {
    slot: u128,
    meta: SpelledMeta,
    text: DraftText,
    told: bool,
    flying: bool,
    readers: u64,
}

impl Model for Draft {
    ghost use Rattle.pcache_store.specs.Store.{Written};
    ghost use Rattle.pcache_store.specs.StoreCode.{written_code};

    ghost Value = { Written };

    ghost coded = { written_code };

    ghost view = { λ w. record { slot = w.slot; meta = w.meta; bytes = w.text; told = w.told; flying = w.flying; readers = w.readers } };
}

impl Draft {
    pub(crate) fn new(alloc: Global, slot: u128, meta: SpelledMeta) -> Draft
        ensures { result ≡ new_write slot meta }
    {
        Draft {
            slot,
            meta,
            text: DraftText::new(alloc),
            told: false,
            flying: true,
            readers: 0,
        }
    }

    pub(crate) fn slot(&self) -> u128
        ensures { result ≡ self.now.slot }
    {
        self.slot
    }

    // The meta as it is kept: a copy of its bytes, which are not read.
    pub(crate) fn spelled(&self) -> Result<SpelledMeta, AllocError>
        ensures ok { IfOk result (λ m. m ≡ self.now.meta) }
    {
        Ok(self.meta.copied()?)
    }

    // The length of the text of its head, as it is kept.
    pub(crate) fn head_len(&self) -> usize
        ensures { result ≡ head_size self.now.meta }
    {
        head_len(&self.meta)
    }

    // The number that the meta has.
    pub(crate) fn entry_id(&self) -> Option<CacheEntryId>
        ensures { result ≡ self.now.meta.entry_id }
    {
        self.meta.entry_id()
    }

    pub(crate) fn len(&self) -> usize
        ensures { result ≡ length self.now.bytes }
    {
        self.text.len()
    }

    pub(crate) fn is_told(&self) -> bool
        ensures { result ≡ self.now.told }
    {
        self.told
    }

    pub(crate) fn is_flying(&self) -> bool
        ensures { result ≡ self.now.flying }
    {
        self.flying
    }

    // Whether more bytes may come.
    pub(crate) fn is_open(&self) -> bool
        ensures { result ≡ (self.now.flying && not self.now.told) }
    {
        self.flying && !self.told
    }

    pub(crate) fn is_named(&self) -> bool
        ensures { result ≡ is_named self.now }
    {
        self.flying || self.readers > 0
    }

    // The bytes from an index on.
    pub(crate) fn rest(&self, alloc: Global, place: usize) -> Result<Bytes, AllocError>
        requires { place ≤ length self.now.bytes }
        ensures ok { IfOk result (λ b. b ≡ drop place self.now.bytes) }
    {
        self.text.rest(alloc, place)
    }

    pub(crate) fn write(&mut self, alloc: Global, bytes: Bytes, eof: bool) -> Result<(), AllocError>
        ensures ok { OnOk result (self.new
            ≡ record self.old { bytes = self.old.bytes ++ bytes; told = eof }) }
        ensures err { OnErr result (self.new ≡ self.old) }
    {
        self.text.extend(alloc, bytes, self.readers > 0)?;
        self.told = eof;
        Ok(())
    }

    // Counts one more reader, and returns the meta, read back. The number of readers of one write, each of
    // which is kept somewhere, never reaches 2^64; before that memory would run out.
    pub(crate) fn follow(&mut self, alloc: Global) -> Result<CacheMeta, AllocError>
        ensures meta { IfOk result (λ m. m ≡ self.old.meta) }
        ensures ok { OnOk result (self.new ≡ record self.old { readers = self.old.readers + 1 }) }
        ensures err { OnErr result (self.new ≡ self.old) }
    {
        let Some(readers) = self.readers.checked_add(1) else {
            return Err(AllocError);
        };
        self.text.settle(alloc)?;
        let meta = self.meta.meta(alloc)?;
        self.readers = readers;
        Ok(meta)
    }

    pub(crate) fn leave(&mut self)
        ensures { self.new ≡ record self.old { readers = self.old.readers - 1 } }
    {
        self.readers = self.readers.saturating_sub(1);
    }

    pub(crate) fn land(&mut self)
        ensures { self.new ≡ record self.old { flying = false } }
    {
        self.flying = false;
    }

    // Records that its body was stored. That announces its end, since many writers finish without `eof`.
    pub(crate) fn tell(&mut self)
        ensures { self.new ≡ record self.old { told = true } }
    {
        self.told = true;
    }

    // The write as a complete body, with which it shares its bytes from now on.
    pub(crate) fn to_body(&mut self, alloc: Global) -> Result<Body, AllocError>
        ensures ok { IfOk result (λ b.
            b ≡ record { meta = self.old.meta; bytes = self.old.bytes }) }
        ensures same { self.new ≡ self.old }
    {
        let meta = self.meta.copied()?;
        let bytes = self.text.share(alloc)?;
        Ok(Body::new(meta, bytes))
    }

    // The write as a complete body, for a write without readers: nobody else has its meta, which is moved and not copied.
    pub(crate) fn into_body(self, alloc: Global) -> Result<Body, AllocError>
        ensures ok { IfOk result (λ b. b ≡ record { meta = self.meta; bytes = self.bytes }) }
    {
        let Draft { meta, mut text, .. } = self;
        let bytes = text.share(alloc)?;
        Ok(Body::new(meta, bytes))
    }
}
