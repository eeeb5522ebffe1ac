//! The traits of a store of bodies, and the types of its calls.
//!
//! Each call of a handler borrows the store. The effect of a call is stated over the meaning of the
//! store (`Store`: its slots by key and its writes by number), whatever its representation; and, of
//! a store that keeps one, over the list of all that was done to it (`past`).
ghost use Rattle.std.specs.Prelude.{◌≡◌, ◌<◌, ◌^◌, ℕ, Bool, false, true, Option, Some, None, List, Result, IfOk, OnOk, OnErr, IfErr, IsOk, IsTrue, IsSome, ◌↔◌, option_map, is_some, option_copied};
ghost use Rattle.std.specs.FinMap as map;
ghost use Rattle.pcache_base.specs.Key.{slot};
ghost use Rattle.pcache_meta.specs.Meta.{Meta};
ghost use Rattle.pcache_base.specs.declared.error.ErrorType.{ErrorType};
ghost use Rattle.pcache_base.specs.declared.error.ErrorType.TheVariants.{OutOfMemory, InternalError};
ghost use Rattle.pcache_evict.specs.EntryRef.{referred};
ghost use Rattle.pcache_store.specs.Notes.{expiry_noted, leave_noted, look_noted, noted, purge_noted};
ghost use Rattle.pcache_store.specs.Past.{Began, Dropped, Finished, MetaSet, Note, Wrote};
ghost use Rattle.pcache_store.specs.declared.storage.MissFinishType.{MissFinishType};
ghost use Rattle.pcache_store.specs.declared.storage.PurgeOutcome.TheVariants.{Expired};
ghost use Rattle.pcache_store.specs.Purge.{target_key, removed_entry, IsNumberOf, entry_given, entry_read, target_purged, target_outcome, slot_expired, expired_at, expire_outcome};
ghost use Rattle.pcache_store.specs.Refusals.{MayFailWrite, MayFailFinish};
ghost use Rattle.pcache_store.specs.Store.{Store, Reader, Guarantees, find, find_write, followed, left, begun, wrote, dropped, finished, is_superseded, is_untouched, complete_body, meta_set, is_told, gives_piece, read_of, reader_after, sought, can_seek, counts_access, reader_weight, is_whole, body_length};
ghost use Rattle.pcache_store.specs.Tag.{named_by};

use bytes::Bytes;
use pcache_base::error::Result;
use pcache_base::key::{CacheKey, CompactCacheKey};
use pcache_base::moment::Moment;
use pcache_base::poll::Poll;
use pcache_evict::eviction::{CacheEntryId, CacheEntryKey, CacheEntryKeyRef};
use pcache_meta::meta::CacheMeta;
use std::alloc::Global;
use std::fmt;

pub mod streaming_write;

/// Why something is removed.
#[derive(Clone, Copy, Debug, PartialEq, Eq)]
pub enum PurgeType {
    /// To make room.
    Eviction,
    /// Because it is no longer valid.
    Invalidation,
}

/// What is done with something that is no longer valid.
#[derive(Clone, Copy, Debug, PartialEq, Eq)]
pub enum PurgeAction {
    /// It is removed.
    Delete,
    /// It stays, and becomes stale.
    Expire,
}

/// What a removal is for.
#[derive(Clone, Copy, Debug, PartialEq, Eq)]
pub enum PurgeTarget<'a> {
    /// Everything that is stored for a key.
    Active(&'a CompactCacheKey),
    /// One entry, and nothing if that entry is not stored.
    Exact(&'a CacheEntryKey),
}

impl<'a> PurgeTarget<'a> {
    /// The key that the target names.
    pub fn key(self) -> &'a CompactCacheKey
        ensures { result.now ≡ target_key self.entry }
    {
        match self {
            PurgeTarget::Active(key) => key,
            PurgeTarget::Exact(entry) => entry.key(),
        }
    }

    /// The entry that a removal of this target removed, if it returned this number.
    pub fn removed_entry(self, id: Option<CacheEntryId>) -> CacheEntryKeyRef<'a>
        requires { IsNumberOf self id }
        ensures { referred result ≡ removed_entry self.entry id }
    {
        match self {
            PurgeTarget::Active(key) => CacheEntryKeyRef::from_entry_id(key, id),
            PurgeTarget::Exact(entry) => CacheEntryKeyRef::from(entry),
        }
    }
}

/// `active entry for KEY`, or the entry.
impl fmt::Display for PurgeTarget<'_> {
    fn fmt<W: fmt::Write>(&self, f: &mut fmt::Formatter<W>) -> fmt::Result {
        match self {
            PurgeTarget::Active(key) => write!(f, "active entry for {key}"),
            PurgeTarget::Exact(entry) => write!(f, "{entry}"),
        }
    }
}

/// What a removal found.
#[derive(Clone, Copy, Debug, PartialEq, Eq)]
pub enum PurgeOutcome {
    /// Nothing was stored.
    NotFound,
    /// It was removed. The number is that of the removed entry, if entries have numbers.
    Purged(Option<CacheEntryId>),
    /// It is still stored, and stale.
    Expired,
}

/// How a write ended.
#[derive(Clone, Copy, Debug, PartialEq, Eq)]
pub enum MissFinishType {
    /// A new body was stored, of this weight.
    Created(usize),
    /// A body grew by the first weight; the second is the most that it may weigh.
    Appended(usize, Option<usize>),
}

/// The meaning of a store, in contracts.
pub trait StoreMeaning {
    /// Its slots and writes.
    ghost state: { Self → Store };

    /// What was done to it, the newest first; of a storage that keeps no past always `None`.
    ghost past: { Self → Option (List Note) };

    /// Whether a write can be read while it is made.
    ghost streams: { Self → Bool };

    /// What the end of a write returns, if it succeeds.
    ghost finishes: { Self → ℕ → MissFinishType };

    /// Whether removals always succeed, and whether an entry has the number of the write that fills it.
    ghost guarantees: { Guarantees };

    // A relation: a storage that asks for memory there cannot know the result before.
    /// What the end of a reader may return: success, or the error.
    ghost ends_hit: { Self → Reader → Result (Unit {0}) ErrorType → Type 0 };
}

/// A store of complete bodies, and of writes that fill it.
///
/// A failed call changes nothing. Each call that succeeds adds what it did to the past, of a storage
/// that keeps one: at most one note, and none if it only looked.
pub trait Storage: StoreMeaning + Sized {
    /// The reader of a body or of a write.
    type Hit: HandleHit<Self>;

    /// The handler of a write.
    type Miss: HandleMiss<Self>;

    /// A reader of what is stored for a key, and its meta: the earliest begun write in flight that
    /// met no removal, or else the complete body. If the store prefers the newest response, the write
    /// in flight that began last, unless the complete body is of a later one. Fails only when memory
    /// runs out, and only if there is something to read.
    fn lookup(&mut self, alloc: Global, key: &CacheKey) -> Result<Option<(CacheMeta, Self::Hit)>>
        ensures found { IfOk result (λ r. option_map (λ p. (p.0, Self.Hit.reader p.1)) r
            ≡ find (Self.state self.old) (slot key.now)) }
        ensures ok { OnOk result (Self.state self.new
            ≡ followed (Self.state self.old) (find (Self.state self.old) (slot key.now))) }
        ensures past { OnOk result (Self.past self.new
            ≡ noted (look_noted (find (Self.state self.old) (slot key.now)))
            (Self.past self.old)) }
        ensures something { OnErr result (IsSome (find (Self.state self.old) (slot key.now))) }
        ensures kind { IfErr result (λ e. e ≡ OutOfMemory) }
        ensures err { OnErr result (Self.state self.new ≡ Self.state self.old) }
        ensures same_past { OnErr result (Self.past self.new ≡ Self.past self.old) };

    /// A reader of the write that a tag names, if it is in flight and of the key, and its meta.
    /// Fails only when memory runs out, and only if there is such a write.
    fn lookup_streaming_write(
        &mut self,
        alloc: Global,
        key: &CacheKey,
        streaming_write_tag: Option<&[u8]>,
    ) -> Result<Option<(CacheMeta, Self::Hit)>>
        ensures found { IfOk result (λ r. option_map (λ p. (p.0, Self.Hit.reader p.1)) r
            ≡ find_write (Self.state self.old) (slot key.now)
            (named_by (option_copied streaming_write_tag.entry))) }
        ensures ok { OnOk result (Self.state self.new
            ≡ followed (Self.state self.old) (find_write (Self.state self.old) (slot key.now)
            (named_by (option_copied streaming_write_tag.entry)))) }
        ensures past { OnOk result (Self.past self.new
            ≡ noted (look_noted (find_write (Self.state self.old) (slot key.now)
            (named_by (option_copied streaming_write_tag.entry)))) (Self.past self.old)) }
        ensures something { OnErr result (IsSome (find_write (Self.state self.old) (slot key.now)
            (named_by (option_copied streaming_write_tag.entry)))) }
        ensures kind { IfErr result (λ e. e ≡ OutOfMemory) }
        ensures err { OnErr result (Self.state self.new ≡ Self.state self.old) }
        ensures same_past { OnErr result (Self.past self.new ≡ Self.past self.old) };

    /// Begins a write of a key. The meta is kept with the write's number, whatever number it had. Fails when
    /// memory runs out, and exactly if all 64-bit numbers of writes are used.
    fn get_miss_handler(
        &mut self,
        alloc: Global,
        key: &CacheKey,
        meta: &CacheMeta,
    ) -> Result<Self::Miss>
        ensures write { IfOk result (λ m. Self.Miss.write m ≡ (Self.state self.old).next) }
        ensures entry { IfOk result (λ m. Self.Miss.entry_number m
            ≡ entry_given Self.guarantees.numbers (Self.state self.old).next) }
        ensures ok { OnOk result (Self.state self.new
            ≡ begun (Self.state self.old) (slot key.now) meta.now) }
        ensures past { OnOk result (Self.past self.new
            ≡ noted (Some (Began (slot key.now) (Self.state self.old).next meta.now))
            (Self.past self.old)) }
        ensures numbers { OnOk result ((Self.state self.old).next < 2 ^ 64) }
        ensures kind { IfErr result (λ e. MayFailWrite (Self.state self.old) e) }
        ensures err { OnErr result (Self.state self.new ≡ Self.state self.old) }
        ensures same_past { OnErr result (Self.past self.new ≡ Self.past self.old) };

    /// Removes what a target names: the complete body and every write in flight of its key; for an entry with a number
    /// only the write with this number, in flight or complete, whatever the user tag of the entry's key. Returns the
    /// number of the complete body or write that was removed, and none for an entry without a number. Fails only when
    /// memory runs out.
    fn purge(&mut self, target: PurgeTarget<'_>, purge_type: PurgeType) -> Result<PurgeOutcome>
        ensures answer { IfOk result (λ o.
            o ≡ target_outcome Self.guarantees.numbers (Self.state self.old) target.entry) }
        ensures ok { OnOk result (Self.state self.new
            ≡ target_purged Self.guarantees.numbers (Self.state self.old) target.entry) }
        ensures past { OnOk result (Self.past self.new
            ≡ noted (purge_noted Self.guarantees.numbers target.entry) (Self.past self.old)) }
        ensures sure { IsTrue Self.guarantees.purges → IsOk result }
        ensures kind { IfErr result (λ e. e ≡ OutOfMemory) }
        ensures err { OnErr result (Self.state self.new ≡ Self.state self.old) }
        ensures same_past { OnErr result (Self.past self.new ≡ Self.past self.old) };

    /// Ends the freshness of the complete body that a target names, if it ends later than now. An entry with a number
    /// names the body of the write with this number. Fails only when memory runs out, and only if there is one.
    fn expire(
        &mut self,
        alloc: Global,
        target: PurgeTarget<'_>,
        now: Moment,
    ) -> Result<PurgeOutcome>
        ensures answer { IfOk result (λ o. o
            ≡ expire_outcome (Self.state self.old)
            (slot_expired Self.guarantees.numbers (Self.state self.old) target.entry)) }
        ensures ok { OnOk result (Self.state self.new
            ≡ expired_at now (Self.state self.old)
            (slot_expired Self.guarantees.numbers (Self.state self.old) target.entry)) }
        ensures past { OnOk result (Self.past self.new
            ≡ noted (expiry_noted now
            (slot_expired Self.guarantees.numbers (Self.state self.old) target.entry))
            (Self.past self.old)) }
        ensures something { OnErr result (expire_outcome (Self.state self.old)
            (slot_expired Self.guarantees.numbers (Self.state self.old) target.entry)
            ≡ Expired) }
        ensures kind { IfErr result (λ e. e ≡ OutOfMemory) }
        ensures err { OnErr result (Self.state self.new ≡ Self.state self.old) }
        ensures same_past { OnErr result (Self.past self.new ≡ Self.past self.old) };

    /// Sets the meta of a key's complete body, and returns whether there is one. The body keeps the number of the write that
    /// stored it, whatever number the new meta has. Fails only when memory runs out, and only if there is one.
    fn update_meta(&mut self, alloc: Global, key: &CacheKey, meta: &CacheMeta) -> Result<bool>
        ensures there { IfOk result (λ b.
            b ≡ is_some (complete_body (map.get (Self.state self.old).slots (slot key.now)))) }
        ensures ok { OnOk result (Self.state self.new
            ≡ meta_set meta.now (Self.state self.old) (slot key.now)) }
        ensures past { OnOk result (Self.past self.new
            ≡ noted (Some (MetaSet (slot key.now) meta.now)) (Self.past self.old)) }
        ensures something { OnErr result (is_some
            (complete_body (map.get (Self.state self.old).slots (slot key.now)))
            ≡ true) }
        ensures kind { IfErr result (λ e. e ≡ OutOfMemory) }
        ensures err { OnErr result (Self.state self.new ≡ Self.state self.old) }
        ensures same_past { OnErr result (Self.past self.new ≡ Self.past self.old) };

    /// Whether a write can be read while it is made.
    fn support_streaming_partial_write(&self) -> bool
        ensures { result ≡ Self.streams self.now };
}

/// The reader of a complete body or of a write. It must be finished or let go.
pub trait HandleHit<S: StoreMeaning> {
    /// What it reads, and how far it has read.
    ghost reader: { Self → Reader };

    /// Reads on: a piece, the end (`None`), or `Pending` if more may come. Fails only when memory
    /// runs out, and only if there is a piece; then the reader is unchanged.
    fn read_body(&mut self, alloc: Global, store: &mut S) -> Result<Poll<Option<Bytes>>>
        ensures read { IfOk result (λ p. p ≡ read_of (S.state store.old) (reader self.old)) }
        ensures ok { OnOk result (reader self.new
            ≡ reader_after (S.state store.old) (reader self.old)) }
        ensures something { OnErr result (gives_piece
            (read_of (S.state store.old) (reader self.old))
            ≡ true) }
        ensures kind { IfErr result (λ e. e ≡ OutOfMemory) }
        ensures err { OnErr result (reader self.new ≡ reader self.old) }
        ensures same { S.state store.new ≡ S.state store.old }
        ensures same_past { S.past store.new ≡ S.past store.old };

    // Asked beside the read, and no third case of its answer: who does not ask reads as before.
    /// Whether it has given all that it was to give: of a complete body its range; of a write each byte, and the write's end
    /// was announced, or it was finished. After the end that `read_body` gives, `false` says that the body was cut off.
    fn is_whole(&self, store: &S) -> bool
        ensures { result ≡ is_whole (S.state store.now) (reader self.now) };

    /// The length of the body in bytes, whatever the range: that of a complete body, or of a write whose end was announced or
    /// that was finished. `None` as long as a write goes on, and if it was cut off.
    fn body_length(&self, store: &S) -> Option<usize>
        ensures { result ≡ body_length (S.state store.now) (reader self.now) };

    /// Ends the reader, even if this fails, which it does only when memory runs out.
    fn finish(self, store: &mut S) -> Result<()>
        ensures gone { S.state store.new ≡ left (S.state store.old) (reader self) }
        ensures past { S.past store.new ≡ noted (leave_noted (reader self)) (S.past store.old) }
        ensures kind { IfErr result (λ e. e ≡ OutOfMemory) }
        ensures answer { S.ends_hit store.old (reader self) result };

    /// Lets the reader go.
    fn let_go(self, store: &mut S)
        ensures gone { S.state store.new ≡ left (S.state store.old) (reader self) }
        ensures past { S.past store.new ≡ noted (leave_noted (reader self)) (S.past store.old) };

    /// Whether the reader can be moved to another range of the body.
    fn can_seek(&self) -> bool
        ensures { result ≡ can_seek (reader self.now) };

    /// The same, for one of several ranges.
    fn can_seek_multipart(&self) -> bool
        ensures { result ≡ can_seek (reader self.now) }
    {
        self.can_seek()
    }

    /// Moves the reader to the bytes from `start` to before `end` (to the body's end if `end` is
    /// `None` or past it), which it then reads again. Fails if the reader can't seek, `start` is at
    /// or past the body's length, or `end` is before `start`.
    fn seek(&mut self, start: usize, end: Option<usize>) -> Result<()>
        ensures ok { OnOk result (Some (reader self.new) ≡ sought (reader self.old) start end) }
        ensures refused { OnErr result (sought (reader self.old) start end ≡ None) }
        ensures kind { IfErr result (λ e. e ≡ InternalError) }
        ensures err { OnErr result (reader self.new ≡ reader self.old) };

    /// The same, for one of several ranges.
    fn seek_multipart(&mut self, start: usize, end: Option<usize>) -> Result<()>
        ensures ok { OnOk result (Some (reader self.new) ≡ sought (reader self.old) start end) }
        ensures refused { OnErr result (sought (reader self.old) start end ≡ None) }
        ensures kind { IfErr result (λ e. e ≡ InternalError) }
        ensures err { OnErr result (reader self.new ≡ reader self.old) }
    {
        self.seek(start, end)
    }

    /// Whether the hit counts as a use of its entry: a complete body does.
    fn should_count_access(&self) -> bool
        ensures { result ≡ counts_access (reader self.now) };

    /// The weight of the entry: the length of a complete body in bytes, and 0 for a write.
    fn get_eviction_weight(&self) -> usize
        ensures { result ≡ reader_weight (reader self.now) };

    /// The number of the entry, if entries have numbers.
    fn entry_id(&self) -> Option<CacheEntryId>
        ensures { result ≡ entry_read S.guarantees.numbers (reader self.now) };
}

/// The handler of a write. It must be finished or dropped.
pub trait HandleMiss<S: StoreMeaning> {
    /// The number of the write.
    ghost write: { Self → ℕ };

    /// The number of its entry, if entries have numbers.
    ghost entry_number: { Self → Option ℕ };

    /// Adds bytes to the write, and with `eof` announces that they are the last. A write whose key
    /// was removed is written like any other. Fails only when memory runs out.
    fn write_body(&mut self, store: &mut S, bytes: Bytes, eof: bool) -> Result<()>
        requires { is_told (map.get (S.state store.old).writes (write self.old)) ≡ false }
        ensures ok { OnOk result (S.state store.new
            ≡ wrote (S.state store.old) (write self.old) bytes eof) }
        ensures past { OnOk result (S.past store.new
            ≡ noted (Some (Wrote (write self.old) bytes eof)) (S.past store.old)) }
        ensures kind { IfErr result (λ e. e ≡ OutOfMemory) }
        ensures err { OnErr result (S.state store.new ≡ S.state store.old) }
        ensures same_past { OnErr result (S.past store.new ≡ S.past store.old) }
        ensures same { write self.new ≡ write self.old }
        ensures entry { entry_number self.new ≡ entry_number self.old };

    /// Whether the end was announced (`eof`).
    fn at_eof(&self, store: &S) -> bool
        ensures { result ≡ is_told (map.get (S.state store.now).writes (write self.now)) };

    /// Ends the write: its body replaces an older one. Fails when memory runs out, and exactly if
    /// the key was removed since the write began, or the store prefers the newest response and the
    /// complete body of the key is of a later write; the write is dropped then.
    fn finish(self, store: &mut S) -> Result<MissFinishType>
        ensures answer { IfOk result (λ f. f ≡ S.finishes store.old (write self)) }
        ensures ok { OnOk result (S.state store.new ≡ finished (S.state store.old) (write self)) }
        ensures untouched { OnOk result (is_untouched (S.state store.old) (write self) ≡ true) }
        ensures newest { OnOk result (is_superseded (S.state store.old) (write self) ≡ false) }
        ensures kind { IfErr result (λ e. MayFailFinish (S.state store.old) (write self) e) }
        ensures err { OnErr result (S.state store.new ≡ dropped (S.state store.old) (write self)) }
        ensures past { OnOk result (S.past store.new
            ≡ noted (Some (Finished (write self))) (S.past store.old)) }
        ensures drop_past { OnErr result (S.past store.new
            ≡ noted (Some (Dropped (write self))) (S.past store.old)) };

    /// Ends the write, and stores nothing.
    fn drop_write(self, store: &mut S)
        ensures gone { S.state store.new ≡ dropped (S.state store.old) (write self) }
        ensures past { S.past store.new
            ≡ noted (Some (Dropped (write self))) (S.past store.old) };

    /// The tag that names the write, for readers of a write in flight.
    fn streaming_write_tag(&self) -> Option<&[u8]>
        ensures { named_by (option_copied result) ≡ Some (write self.now) };

    /// The number of the entry, if entries have numbers.
    fn entry_id(&self) -> Option<CacheEntryId>
        ensures { result ≡ entry_number self.now };
}

/// The reader that a store gives.
pub type HitHandler<S> = <S as Storage>::Hit;

/// The handler of a write that a store gives.
pub type MissHandler<S> = <S as Storage>::Miss;
