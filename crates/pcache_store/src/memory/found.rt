//! A complete body as a look-up finds it, before its meta is read.
ghost use Rattle.std.specs.Prelude.{◌≡◌, IfOk, length, false};
ghost use Rattle.pcache_store.specs.Readers.{reader_of};
ghost use Rattle.pcache_store.specs.Store.{Whole};

use crate::memory::hit::{CompleteHit, MemHitHandler};
use bytes::Bytes;
use pcache_base::error::Result;
use pcache_meta::meta::CacheMeta;
use pcache_meta::meta::spelled::SpelledMeta;
use std::alloc::{AllocError, Global};
use std::marker::Model;

/// A complete body that a look-up finds, whose meta was not read yet: shares of what the store keeps. So it can be
/// taken while the store is locked, and read when it is not.
///
/// A contract sees the pair that the look-up returns: the meta, and the reader.
#[derive(Drop)]
pub struct FoundBody {
    meta: SpelledMeta,
    body: Bytes,
}

impl Model for FoundBody {
    ghost use Rattle.std.specs.Prelude.{length, false};
    ghost use Rattle.pcache_meta.specs.Meta.{Meta};
    ghost use Rattle.pcache_store.specs.Store.{Reader, Whole};

    ghost Value = { Meta × Reader };

    ghost view = { λ f. (f.meta, Whole f.meta.entry_id f.body 0 (length f.body) false) };
}

impl FoundBody {
    pub(crate) fn new(meta: SpelledMeta, body: Bytes) -> FoundBody
        ensures { result ≡ (meta, Whole meta.entry_id body 0 (length body) false) }
    {
        FoundBody { meta, body }
    }

    /// Reads the meta, as `CacheMeta::deserialize` of its bytes, and returns it with a reader of the body. Fails only when memory
    /// runs out.
    pub fn read(self, alloc: Global) -> Result<(CacheMeta, MemHitHandler), AllocError>
        ensures read { IfOk result (λ p. (p.0, reader_of p.1) ≡ self) }
    {
        let FoundBody { meta, body } = self;
        let number = meta.entry_id();
        let meta = meta.meta(alloc)?;
        let hit = CompleteHit::new(number, body);
        Ok((meta, MemHitHandler::Complete(hit)))
    }
}
