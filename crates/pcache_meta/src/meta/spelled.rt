//! Metas kept as bytes.
ghost use Rattle.std.specs.Prelude.{◌≡◌, ◌≤◌, length, take, drop, IfOk};
ghost use Rattle.pcache_meta.specs.HeaderText.{header_written};
ghost use Rattle.pcache_meta.specs.Meta.{with_entry_id};
ghost use Rattle.pcache_meta.specs.MetaBytes.{SpellsMeta};
ghost use Rattle.pcache_meta.specs.MetaWriting.{internal_written};

use crate::header_text::reader::header_kept;
use crate::header_text::writer::header_serialize;
use crate::meta::CacheMeta;
use crate::meta::codec::deserialize_internal;
use crate::meta::internal_meta::InternalMetaLatest;
use bytes::Bytes;
use pcache_base::entry_id::CacheEntryId;
use pcache_base::error::Result;
use std::alloc::{AllocError, Global};
use std::marker::Model;

/// A meta kept as the two byte strings that `CacheMeta::serialize` gives of it, one behind the other in
/// one shared text, so a copy copies no byte.
///
/// A contract sees the meta that they spell.
#[derive(Drop)]
pub struct SpelledMeta {
    text: Bytes,
    split: usize,
    // So that the map is made with room for all of its names at once.
    names: usize,
    // The number that the text says, so that nobody reads the text for it.
    entry_id: Option<CacheEntryId>,
}

impl Model for SpelledMeta {
    ghost use Rattle.std.specs.Prelude.{◌≡◌};
    ghost use Rattle.pcache_meta.specs.Meta.{Meta};
    ghost use Rattle.pcache_meta.specs.MetaKept.{IsKept, kept_at};

    ghost Value = { Meta };

    ghost view = { λ s. kept_at s.split s.text };

    ghost invariant = { λ s. IsKept s.split s.text × (s.entry_id ≡ (kept_at s.split s.text).entry_id) };
}

impl SpelledMeta {
    /// Keeps the byte strings of a meta. Fails only when memory runs out.
    pub fn new(alloc: Global, meta: &CacheMeta) -> Result<SpelledMeta, AllocError>
        ensures ok { IfOk result (λ kept. kept ≡ meta.now) }
    {
        SpelledMeta::with_entry_id(alloc, meta, meta.entry_id())
    }

    /// Keeps the byte strings of a meta with this number of a write, whatever number the meta has. Fails only when
    /// memory runs out.
    pub fn with_entry_id(
        alloc: Global,
        meta: &CacheMeta,
        entry_id: Option<CacheEntryId>,
    ) -> Result<SpelledMeta, AllocError>
        ensures ok { IfOk result (λ kept. kept ≡ with_entry_id entry_id meta.now) }
    {
        let said = InternalMetaLatest {
            entry_id,
            ..meta.internal
        };
        let mut text = said.serialize(alloc)?;
        let header = header_serialize(alloc, &meta.header)?;
        let split = text.len();
        text.reserve_exact(header.len())?;
        text.extend_from_slice(header.as_slice())?;
        match Bytes::from_vec(text) {
            Ok(text) => Ok(SpelledMeta {
                text,
                split,
                names: meta.header.headers.keys_len(),
                entry_id: said.entry_id,
            }),
            Err(_) => Err(AllocError),
        }
    }

    /// The number of the write that stored the body, if the meta names one.
    pub fn entry_id(&self) -> Option<CacheEntryId>
        ensures { result ≡ self.now.entry_id }
    {
        self.entry_id
    }

    /// The two byte strings: what the meta says beside its head, and the text of its head.
    pub fn strings(&self) -> (&[u8], &[u8])
        ensures internal { result.0.now ≡ internal_written self.now.internal }
        ensures header { result.1.now ≡ header_written self.now.header }
        ensures spelled { SpellsMeta result.0.now result.1.now self.now }
    {
        parts_of(&self.text, self.split)
    }

    /// The meta, read back. Its values are parts of one copy of the head's text, which is its own: so many
    /// who read a meta at once do not meet at one count of owners. Fails only when memory runs out.
    pub fn meta(&self, alloc: Global) -> Result<CacheMeta, AllocError>
        ensures ok { IfOk result (λ m. m ≡ self.now) }
    {
        let (internal, head) = self.strings();
        let Ok(internal) = deserialize_internal(internal) else {
            unreachable!();
        };
        // The order of the lines is not looked at again: by the invariant the text is the written
        // one. No map is kept, since it takes several times the text, and each request may change
        // its own.
        let header = header_kept(alloc, Bytes::copy_from_slice(alloc, head)?, self.names)?;
        Ok(CacheMeta { internal, header })
    }

    /// A copy of the same meta, which shares its text. Fails only when the text has as many owners as
    /// can be counted.
    pub fn copied(&self) -> Result<SpelledMeta, AllocError>
        ensures ok { IfOk result (λ copy. copy ≡ self.now) }
    {
        Ok(SpelledMeta {
            text: self.text.clone()?,
            split: self.split,
            names: self.names,
            entry_id: self.entry_id,
        })
    }
}

// The bytes of a text before a place, and those from there on.
fn parts_of(text: &Bytes, split: usize) -> (&[u8], &[u8])
    requires { split ≤ length text.now }
    ensures front { result.0.now ≡ take split text.now }
    ensures rest { result.1.now ≡ drop split text.now }
{
    text.as_slice().split_at(split)
}
