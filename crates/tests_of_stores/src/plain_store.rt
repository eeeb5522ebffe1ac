//! A storage of another kind, as a second user of the trait: bodies and writes are in plain maps, no write is offered to
//! readers while it is made, and entries have no numbers.
ghost use Rattle.std.specs.Prelude.{◌≡◌, ◌≤◌, unwrap_or, Option, Some, None, IsOk, IsSome, IfOk, IfErr, OnOk, OnErr, length, slice_range, option_map, option_copied, cond, is_some, false, true};
ghost use Rattle.std.specs.FinMap as map;
ghost use Rattle.pcache_base.specs.CompactKey.{compact_slot};
ghost use Rattle.pcache_base.specs.declared.error.ErrorType.TheVariants.{OutOfMemory, InternalError};
ghost use Rattle.pcache_meta.specs.Meta.{Meta};
ghost use Rattle.pcache_store.specs.Finishes.{created};
ghost use Rattle.pcache_store.specs.Purge.{target_key};
ghost use Rattle.pcache_store.specs.Refusals.{MayFailFinish};
ghost use Rattle.pcache_store.specs.Store.{Reader, Whole, Part, found_part, joined, left, wrote, dropped, finished, is_superseded, is_untouched, is_untouched_in, sought};
ghost use Rattle.pcache_store.specs.Tag.{named_by, number_of_tag};

mod numbered;
mod slots;
mod used;
mod writes;

use bytes::Bytes;
use numbered::PlainWrites;
use pcache_base::entry_id::CacheEntryId;
use pcache_base::error::{Error, ErrorType, Result};
use pcache_base::key::{CacheHashKey, CacheKey};
use pcache_base::moment::Moment;
use pcache_base::poll::Poll;
use pcache_meta::meta::CacheMeta;
use pcache_meta::meta::spelled::SpelledMeta;
use pcache_store::storage::streaming_write::U64WriteId;
use pcache_store::storage::{
    HandleHit, HandleMiss, MissFinishType, PurgeOutcome, PurgeTarget, PurgeType, Storage,
    StoreMeaning,
};
use pcache_table::hashtable::Table;
use slots::{PlainSlot, expire, open, set_meta, shut, store};
use std::alloc::Global;
use std::marker::Model;
use writes::PlainWrite;

/// A store with plain maps.
#[derive(Drop)]
pub struct PlainStore {
    alloc: Global,
    slots: Table<PlainSlot>,
    writes: PlainWrites,
}

impl Model for PlainStore {
    ghost use Rattle.std.specs.Prelude.{false};
    ghost use Rattle.pcache_store.specs.Store.{Store};
    ghost use Rattle.pcache_store.specs.StoreCode.{store_code};

    ghost Value = { Store };

    ghost coded = { store_code };

    ghost view = { λ a. record { slots = a.slots; writes = a.writes.writes; next = a.writes.next; newest = false } };
}

/// A reader of a complete body, which gives a range of it in one piece.
#[derive(Drop)]
pub struct RangeHit {
    id: Option<CacheEntryId>,
    body: Bytes,
    start: usize,
    stop: usize,
    done: bool,
    ghost in_range: { (start ≤ stop) × (stop ≤ length body) },
}

/// What a look-up of it gives: a reader of a complete body, or else of a write, of which it has read so many bytes.
pub struct PlainHit {
    range: Option<RangeHit>,
    write: u128,
    place: usize,
}

/// The handler of a write to it.
pub struct PlainMiss {
    number: u64,
    tag: U64WriteId,
    ghost named: { number_of_tag tag ≡ Some number },
}

impl PlainMiss {
    fn new(number: u64) -> PlainMiss
        ensures { result.number ≡ number }
    {
        PlainMiss {
            number,
            tag: U64WriteId::from(number),
        }
    }
}

impl RangeHit {
    fn new(id: Option<CacheEntryId>, body: Bytes) -> RangeHit
        ensures id { result.id ≡ id }
        ensures body { result.body ≡ body }
        ensures start { result.start ≡ 0 }
        ensures stop { result.stop ≡ length body }
        ensures done { result.done ≡ false }
    {
        let stop = body.len();
        RangeHit {
            id,
            body,
            start: 0,
            stop,
            done: false,
        }
    }

    fn read(&mut self) -> Result<Option<Bytes>>
        ensures read { IfOk result (λ r. r
            ≡ cond self.old.done None
            (Some (slice_range self.old.body self.old.start self.old.stop))) }
        ensures id { self.new.id ≡ self.old.id }
        ensures body { self.new.body ≡ self.old.body }
        ensures start { self.new.start ≡ self.old.start }
        ensures stop { self.new.stop ≡ self.old.stop }
        ensures ok { OnOk result (self.new.done ≡ true) }
        ensures something { OnErr result (self.old.done ≡ false) }
        ensures kind { IfErr result (λ e. e ≡ OutOfMemory) }
        ensures err { OnErr result (self.new.done ≡ self.old.done) }
    {
        if self.done {
            return Ok(None);
        }
        let piece = self.body.slice(self.start..self.stop)?;
        self.done = true;
        Ok(Some(piece))
    }

    fn seek(&mut self, start: usize, end: Option<usize>) -> Result<()>
        ensures ok { OnOk result (Some
            (Whole self.new.id self.new.body self.new.start self.new.stop self.new.done)
            ≡ sought (Whole self.old.id self.old.body self.old.start self.old.stop self.old.done)
            start end) }
        ensures refused { OnErr result (sought
            (Whole self.old.id self.old.body self.old.start self.old.stop self.old.done) start
            end
            ≡ None) }
        ensures kind { IfErr result (λ e. e ≡ InternalError) }
        ensures id { self.new.id ≡ self.old.id }
        ensures body { self.new.body ≡ self.old.body }
        ensures err { OnErr result (self.new ≡ self.old) }
    {
        let length = self.body.len();
        let stop = match end {
            Some(end) if end < start => return Err(Error::new(ErrorType::InternalError)),
            Some(end) => end.min(length),
            None => length,
        };
        if start >= length {
            return Err(Error::new(ErrorType::InternalError));
        }
        self.start = start;
        self.stop = stop;
        self.done = false;
        Ok(())
    }
}

impl PlainHit {
    fn of_body(hit: RangeHit) -> PlainHit
        ensures { unwrap_or (option_map (λ r. Whole r.id r.body r.start r.stop r.done) result.range)
            (Part result.write result.place)
            ≡ Whole hit.id hit.body hit.start hit.stop hit.done }
    {
        PlainHit {
            range: Some(hit),
            write: 0,
            place: 0,
        }
    }

    fn of_write(write: u128) -> PlainHit
        ensures { unwrap_or (option_map (λ r. Whole r.id r.body r.start r.stop r.done) result.range)
            (Part result.write result.place)
            ≡ Part write 0 }
    {
        PlainHit {
            range: None,
            write,
            place: 0,
        }
    }

    fn leave(self, store: &mut PlainStore)
        ensures { store.new
            ≡ left store.old (unwrap_or
            (option_map (λ r. Whole r.id r.body r.start r.stop r.done) self.range)
            (Part self.write self.place)) }
    {
        let PlainHit {
            range,
            write,
            place: _,
        } = self;
        match range {
            Some(hit) => drop(hit),
            None => store.writes.leave(write),
        }
    }
}

// The number of the write that a tag names.
fn number_named_by(tag: Option<&[u8]>) -> Option<u128>
    ensures { result ≡ named_by (option_copied tag.entry) }
{
    let Some(tag) = tag else {
        return None;
    };
    match U64WriteId::try_from(tag) {
        Ok(id) => Some(u64::from(id) as u128),
        Err(_) => None,
    }
}

impl PlainStore {
    /// A store with nothing in it.
    pub fn new(alloc: Global) -> PlainStore
        ensures { result
            ≡ record { slots = map.empty; writes = map.empty; next = 0; newest = false } }
    {
        PlainStore {
            alloc,
            slots: Table::new(alloc),
            writes: PlainWrites::new(alloc),
        }
    }

    fn follow(&mut self, alloc: Global, number: u128) -> Result<Option<(CacheMeta, PlainHit)>>
        ensures found { IfOk result (λ r. option_map {U = Meta × Reader}
            (λ p. (
              p.0,
              unwrap_or
                  (option_map (λ r. Whole r.id r.body r.start r.stop r.done) p.1.range)
                  (Part p.1.write p.1.place),
            )) r
            ≡ found_part number (map.get self.old.writes number)) }
        ensures ok { OnOk result (self.new ≡ joined self.old number) }
        ensures something { OnErr result (IsSome (map.get self.old.writes number)) }
        ensures kind { IfErr result (λ e. e ≡ OutOfMemory) }
        ensures err { OnErr result (self.new ≡ self.old) }
    {
        match self.writes.join(alloc, number) {
            Ok(Some(meta)) => Ok(Some((meta, PlainHit::of_write(number)))),
            Ok(None) => Ok(None),
            Err(refused) => Err(refused),
        }
    }

    fn drop_numbered(&mut self, number: u128)
        ensures { self.new ≡ dropped self.old number }
    {
        let Some(draft) = self.writes.get(number) else {
            return;
        };
        let slot = draft.slot();
        shut(&mut self.slots, slot, number);
        self.writes.land(number);
    }

    fn is_untouched_in(&self, slot: u128, number: u128) -> bool
        ensures { result ≡ is_untouched_in number (map.get self.now.slots slot) }
    {
        match self.slots.get(slot) {
            Some(held) => held.untouched.contains(number),
            None => false,
        }
    }

    fn finish(&mut self, number: u128) -> Result<MissFinishType>
        ensures answer { IfOk result (λ f. f ≡ created self.old number) }
        ensures ok { OnOk result (self.new ≡ finished self.old number) }
        ensures untouched { OnOk result (is_untouched self.old number ≡ true) }
        ensures newest { OnOk result (is_superseded self.old number ≡ false) }
        ensures kind { IfErr result (λ e. MayFailFinish self.old number e) }
        ensures err { OnErr result (self.new ≡ dropped self.old number) }
    {
        let Some(draft) = self.writes.get(number) else {
            return Err(Error::new(ErrorType::WriteRemoved));
        };
        let slot = draft.slot();
        if !self.is_untouched_in(slot, number) {
            self.drop_numbered(number);
            return Err(Error::new(ErrorType::WriteRemoved));
        }
        let size = draft.len();
        match draft.to_body(self.alloc) {
            Ok(body) => {
                store(&mut self.slots, slot, number, body);
                self.writes.close(number);
                Ok(MissFinishType::Created(size))
            }
            Err(refused) => {
                self.drop_numbered(number);
                Err(refused)
            }
        }
    }
}

impl StoreMeaning for PlainStore {
    ghost state = { λ s. s };

    // It keeps no past.
    ghost past = { λ _. None };

    ghost streams = { λ _. false };

    ghost finishes = { created };

    ghost guarantees = { record { purges = true; numbers = false } };

    ghost ends_hit = { λ _ reader result. IsOk result };
}

impl Storage for PlainStore {
    type Hit = PlainHit;

    type Miss = PlainMiss;

    fn lookup(&mut self, alloc: Global, key: &CacheKey) -> Result<Option<(CacheMeta, PlainHit)>> {
        let Some(held) = self.slots.get(key.slot()) else {
            return Ok(None);
        };
        if let Some(number) = held.untouched.least() {
            return self.follow(alloc, number);
        }
        let Some(body) = &held.body else {
            return Ok(None);
        };
        let meta = body.meta.meta(alloc)?;
        let hit = RangeHit::new(meta.entry_id(), body.bytes.clone()?);
        Ok(Some((meta, PlainHit::of_body(hit))))
    }

    fn lookup_streaming_write(
        &mut self,
        alloc: Global,
        key: &CacheKey,
        streaming_write_tag: Option<&[u8]>,
    ) -> Result<Option<(CacheMeta, PlainHit)>> {
        let Some(number) = number_named_by(streaming_write_tag) else {
            return Ok(None);
        };
        let slot = key.slot();
        let Some(draft) = self.writes.get(number) else {
            return Ok(None);
        };
        if !draft.is_flying() || draft.slot() != slot {
            return Ok(None);
        }
        self.follow(alloc, number)
    }

    fn get_miss_handler(
        &mut self,
        alloc: Global,
        key: &CacheKey,
        meta: &CacheMeta,
    ) -> Result<PlainMiss> {
        let Some(number) = self.writes.next() else {
            return Err(Error::new(ErrorType::NumbersExhausted));
        };
        let slot = key.slot();
        let meta = SpelledMeta::with_entry_id(alloc, meta, Some(CacheEntryId::new(number)))?;
        let draft = PlainWrite::new(alloc, slot, meta);
        self.writes.begin(draft)?;
        if let Err(refused) = open(&mut self.slots, alloc, slot, number as u128) {
            self.writes.take_back();
            return Err(refused);
        }
        Ok(PlainMiss::new(number))
    }

    fn purge(&mut self, target: PurgeTarget<'_>, _purge_type: PurgeType) -> Result<PurgeOutcome> {
        let key = match target {
            PurgeTarget::Active(key) => key,
            PurgeTarget::Exact(entry) => match entry.entry_id() {
                None => entry.key(),
                Some(_) => return Ok(PurgeOutcome::NotFound),
            },
        };
        match self.slots.remove(key.slot()) {
            Some(_) => Ok(PurgeOutcome::Purged(None)),
            None => Ok(PurgeOutcome::NotFound),
        }
    }

    fn expire(
        &mut self,
        alloc: Global,
        target: PurgeTarget<'_>,
        now: Moment,
    ) -> Result<PurgeOutcome> {
        let key = match target {
            PurgeTarget::Active(key) => key,
            PurgeTarget::Exact(entry) => match entry.entry_id() {
                None => entry.key(),
                Some(_) => return Ok(PurgeOutcome::NotFound),
            },
        };
        if expire(&mut self.slots, alloc, key.slot(), now)? {
            Ok(PurgeOutcome::Expired)
        } else {
            Ok(PurgeOutcome::NotFound)
        }
    }

    fn update_meta(&mut self, alloc: Global, key: &CacheKey, meta: &CacheMeta) -> Result<bool> {
        let slot = key.slot();
        let Some(held) = self.slots.get(slot) else {
            return Ok(false);
        };
        let Some(body) = &held.body else {
            return Ok(false);
        };
        let meta = SpelledMeta::with_entry_id(alloc, meta, body.meta.entry_id())?;
        Ok(set_meta(&mut self.slots, slot, meta))
    }

    fn support_streaming_partial_write(&self) -> bool {
        false
    }
}

impl HandleHit<PlainStore> for PlainHit {
    ghost reader = { λ h. unwrap_or (option_map (λ r. Whole r.id r.body r.start r.stop r.done) h.range) (Part h.write h.place) };

    fn read_body(&mut self, alloc: Global, store: &mut PlainStore) -> Result<Poll<Option<Bytes>>> {
        if let Some(hit) = &mut self.range {
            return match hit.read() {
                Ok(piece) => Ok(Poll::Ready(piece)),
                Err(refused) => Err(refused),
            };
        }
        let Some(draft) = store.writes.get(self.write) else {
            return Ok(Poll::Ready(None));
        };
        let written = draft.len();
        if self.place < written {
            let piece = draft.rest(alloc, self.place)?;
            self.place = written;
            return Ok(Poll::Ready(Some(piece)));
        }
        if draft.is_open() {
            return Ok(Poll::Pending);
        }
        Ok(Poll::Ready(None))
    }

    fn is_whole(&self, store: &PlainStore) -> bool {
        if let Some(hit) = &self.range {
            return hit.done;
        }
        match store.writes.get(self.write) {
            Some(draft) => draft.is_told() && draft.len() <= self.place,
            None => false,
        }
    }

    fn body_length(&self, store: &PlainStore) -> Option<usize> {
        if let Some(hit) = &self.range {
            return Some(hit.body.len());
        }
        match store.writes.get(self.write) {
            Some(draft) if draft.is_told() => Some(draft.len()),
            _ => None,
        }
    }

    fn finish(self, store: &mut PlainStore) -> Result<()> {
        self.leave(store);
        Ok(())
    }

    fn let_go(self, store: &mut PlainStore) {
        self.leave(store);
    }

    fn can_seek(&self) -> bool {
        self.range.is_some()
    }

    fn seek(&mut self, start: usize, end: Option<usize>) -> Result<()> {
        match &mut self.range {
            Some(hit) => hit.seek(start, end),
            None => Err(Error::new(ErrorType::InternalError)),
        }
    }

    fn should_count_access(&self) -> bool {
        self.range.is_some()
    }

    fn get_eviction_weight(&self) -> usize {
        match &self.range {
            Some(hit) => hit.body.len(),
            None => 0,
        }
    }

    fn entry_id(&self) -> Option<CacheEntryId> {
        None
    }
}

impl HandleMiss<PlainStore> for PlainMiss {
    ghost write = { λ h. h.number };

    ghost entry_number = { λ h. None };

    fn write_body(&mut self, store: &mut PlainStore, bytes: Bytes, eof: bool) -> Result<()> {
        store.writes.write(self.number as u128, &bytes, eof)
    }

    fn at_eof(&self, store: &PlainStore) -> bool {
        match store.writes.get(self.number as u128) {
            Some(draft) => draft.is_told(),
            None => false,
        }
    }

    fn finish(self, store: &mut PlainStore) -> Result<MissFinishType> {
        let PlainMiss { number, tag: _ } = self;
        store.finish(number as u128)
    }

    fn drop_write(self, store: &mut PlainStore) {
        let PlainMiss { number, tag: _ } = self;
        store.drop_numbered(number as u128);
    }

    fn streaming_write_tag(&self) -> Option<&[u8]> {
        Some(self.tag.as_bytes())
    }

    fn entry_id(&self) -> Option<CacheEntryId> {
        None
    }
}
