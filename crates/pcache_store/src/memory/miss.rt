//! Handlers of writes of the store in memory.
ghost use Rattle.std.specs.Prelude.{◌≡◌, ◌<◌, ◌^◌, Some, None, ℕ};
ghost use Rattle.std.specs.FinMap as map;
ghost use Rattle.pcache_store.specs.Kept.{write_lengths};
ghost use Rattle.pcache_store.specs.Tag.{number_of_tag};

use crate::memory::MemCache;
use crate::storage::streaming_write::U64WriteId;
use crate::storage::{HandleMiss, MissFinishType};
use bytes::Bytes;
use pcache_base::error::Result;
use pcache_evict::eviction::CacheEntryId;

/// The handler of a write, which must be finished or dropped.
pub struct MemMissHandler {
    number: u64,
    slot: u128,
    tag: U64WriteId,
    ghost named: { number_of_tag tag ≡ Some number },
}

impl MemMissHandler {
    // The handler of a write of this slot.
    pub(crate) fn new(slot: u128, number: u64) -> MemMissHandler
        ensures { result.number ≡ number }
    {
        MemMissHandler {
            number,
            slot,
            tag: U64WriteId::from(number),
        }
    }

    /// The number of the write.
    pub fn number(&self) -> u64
        ensures { result ≡ self.now.number }
    {
        self.number
    }

    /// The lengths of the write's body so far and of the text of its head, in bytes.
    pub fn lengths(&self, store: &MemCache) -> (usize, usize)
        ensures { result ≡ write_lengths (map.get store.now.state.writes self.now.number) }
    {
        store.write_lengths(self.slot, self.number)
    }
}

impl HandleMiss<MemCache> for MemMissHandler {
    ghost write = { λ h. h.number };

    ghost entry_number = { λ h. Some h.number };

    fn write_body(&mut self, store: &mut MemCache, bytes: Bytes, eof: bool) -> Result<()> {
        Ok(store.write(self.slot, self.number, bytes, eof)?)
    }

    fn at_eof(&self, store: &MemCache) -> bool {
        match store.draft(self.slot, self.number) {
            Some(draft) => draft.is_told(),
            None => false,
        }
    }

    fn finish(self, store: &mut MemCache) -> Result<MissFinishType> {
        let MemMissHandler {
            number,
            slot,
            tag: _,
        } = self;
        store.finish(slot, number)
    }

    fn drop_write(self, store: &mut MemCache) {
        let MemMissHandler {
            number,
            slot,
            tag: _,
        } = self;
        store.drop_write(slot, number);
    }

    fn streaming_write_tag(&self) -> Option<&[u8]> {
        Some(self.tag.as_bytes())
    }

    fn entry_id(&self) -> Option<CacheEntryId> {
        Some(CacheEntryId::new(self.number))
    }
}
