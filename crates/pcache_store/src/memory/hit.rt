//! Readers of the store in memory.
ghost use Rattle.std.specs.Prelude.{◌≡◌, ◌≤◌, ◌<◌, ℕ, Option, Some, None, IsOk, IfOk, IfErr, OnOk, OnErr, length, slice_range, cond, false, true};
ghost use Rattle.pcache_base.specs.declared.error.ErrorType.TheVariants.{InternalError};
ghost use Rattle.pcache_store.specs.Store.{Whole, sought};

use crate::memory::MemCache;
use crate::storage::HandleHit;
use bytes::Bytes;
use pcache_base::error::{Error, ErrorType, Result};
use pcache_base::poll::Poll;
use pcache_evict::eviction::CacheEntryId;
use std::alloc::{AllocError, Global};

/// A reader of a complete body: it gives a range of it in one piece, and then the end.
pub struct CompleteHit {
    id: Option<CacheEntryId>,
    body: Bytes,
    start: usize,
    stop: usize,
    done: bool,
    ghost in_range: { (start ≤ stop) × (stop ≤ length body) },
}

impl CompleteHit {
    // A reader of the whole body, which the write with this number stored.
    pub(crate) fn new(id: Option<CacheEntryId>, body: Bytes) -> CompleteHit
        ensures id { result.id ≡ id }
        ensures body { result.body ≡ body }
        ensures start { result.start ≡ 0 }
        ensures stop { result.stop ≡ length body }
        ensures done { result.done ≡ false }
    {
        let stop = body.len();
        CompleteHit {
            id,
            body,
            start: 0,
            stop,
            done: false,
        }
    }

    /// The whole body.
    pub fn body(&self) -> &Bytes
        ensures { result.now ≡ self.now.body }
    {
        &self.body
    }

    fn read(&mut self) -> Result<Option<Bytes>, AllocError>
        ensures read { IfOk result (λ r. r
            ≡ cond self.old.done None
            (Some (slice_range self.old.body self.old.start self.old.stop))) }
        ensures id { self.new.id ≡ self.old.id }
        ensures body { self.new.body ≡ self.old.body }
        ensures start { self.new.start ≡ self.old.start }
        ensures stop { self.new.stop ≡ self.old.stop }
        ensures ok { OnOk result (self.new.done ≡ true) }
        ensures something { OnErr result (self.old.done ≡ false) }
        ensures err { OnErr result (self.new.done ≡ self.old.done) }
    {
        if self.done {
            return Ok(None);
        }
        let piece = self.body.slice(self.start..self.stop)?;
        self.done = true;
        Ok(Some(piece))
    }

    fn seek(&mut self, start: usize, end: Option<usize>) -> Result<()>
        ensures ok { OnOk result (Some
            (Whole self.new.id self.new.body self.new.start self.new.stop self.new.done)
            ≡ sought (Whole self.old.id self.old.body self.old.start self.old.stop self.old.done)
            start end) }
        ensures refused { OnErr result (sought
            (Whole self.old.id self.old.body self.old.start self.old.stop self.old.done) start
            end
            ≡ None) }
        ensures kind { IfErr result (λ e. e ≡ InternalError) }
        ensures id { self.new.id ≡ self.old.id }
        ensures body { self.new.body ≡ self.old.body }
        ensures err { OnErr result (self.new ≡ self.old) }
    {
        let length = self.body.len();
        let stop = match end {
            Some(end) if end < start => return Err(Error::new(ErrorType::InternalError)),
            Some(end) => end.min(length),
            None => length,
        };
        if start >= length {
            return Err(Error::new(ErrorType::InternalError));
        }
        self.start = start;
        self.stop = stop;
        self.done = false;
        Ok(())
    }

    fn end(self) {
        let CompleteHit {
            id: _,
            body,
            start: _,
            stop: _,
            done: _,
        } = self;
        drop(body);
    }
}

/// A reader of a write, also of one whose handler is gone: it gives all unread bytes, and the end
/// once no more can come.
pub struct PartialHit {
    write: u64,
    slot: u128,
    place: usize,
}

impl PartialHit {
    // A reader of a write of this slot, which has read nothing yet.
    pub(crate) fn new(slot: u128, write: u64) -> PartialHit
        ensures write { result.write ≡ write }
        ensures slot { result.slot ≡ slot }
        ensures place { result.place ≡ 0 }
    {
        PartialHit {
            write,
            slot,
            place: 0,
        }
    }

    /// The number of the write.
    pub fn write(&self) -> u64
        ensures { result ≡ self.now.write }
    {
        self.write
    }
}

/// What a look-up of the store in memory gives: a reader, which must be finished or let go.
pub enum MemHitHandler {
    /// Of a complete body.
    Complete(CompleteHit),
    /// Of a write.
    Partial(PartialHit),
}

impl MemHitHandler {
    ghost use Rattle.std.specs.Prelude.{option_map};
    ghost use Rattle.pcache_store.specs.Notes.{added, joined_by, leave_noted};
    ghost use Rattle.pcache_store.specs.Past.{Joined};
    ghost use Rattle.pcache_store.specs.Readers.{reader_of};
    ghost use Rattle.pcache_store.specs.Store.{left};

    // The number of the write that it reads, if it reads one.
    pub(crate) fn write_followed(&self) -> Option<u64>
        ensures { option_map Joined result ≡ joined_by (reader_of self.now) }
    {
        match self {
            MemHitHandler::Complete(_hit) => None,
            MemHitHandler::Partial(part) => Some(part.write),
        }
    }

    fn leave(self, store: &mut MemCache)
        ensures state { store.new.state ≡ left store.old.state (reader_of self) }
        ensures past { store.new.past ≡ added (leave_noted (reader_of self)) store.old.past }
    {
        match self {
            MemHitHandler::Complete(hit) => hit.end(),
            MemHitHandler::Partial(part) => {
                let PartialHit {
                    write,
                    slot,
                    place: _,
                } = part;
                store.leave(slot, write);
            }
        }
    }
}

impl MemHitHandler {
    ghost use Rattle.pcache_store.specs.Readers.{needs_no_store, reader_of};
    ghost use Rattle.pcache_store.specs.Store.{Store, body_length, gives_piece, is_whole, left, read_of, reader_after};

    /// Whether it needs no store: it reads a complete body, whose bytes it has.
    pub fn needs_no_store(&self) -> bool
        ensures { result ≡ needs_no_store (reader_of self.now) }
    {
        !matches!(self, MemHitHandler::Partial(_))
    }

    /// `read_body` without the store: it gives what it would give with any store.
    /// Requires a reader of a complete body; ask `needs_no_store()`.
    pub fn read_body_alone(&mut self) -> Result<Poll<Option<Bytes>>, AllocError>
        requires { needs_no_store (reader_of self.old) ≡ true }
        ensures read { IfOk result (λ p. (s : Store) → p ≡ read_of s (reader_of self.old)) }
        ensures ok { OnOk result ((s : Store)
            → reader_of self.new ≡ reader_after s (reader_of self.old)) }
        ensures something { OnErr result ((s : Store)
            → gives_piece (read_of s (reader_of self.old)) ≡ true) }
        ensures err { OnErr result (reader_of self.new ≡ reader_of self.old) }
    {
        let MemHitHandler::Complete(hit) = self else {
            unreachable!()
        };
        Ok(Poll::Ready(hit.read()?))
    }

    /// `is_whole` without the store: whether its range was given. Requires a reader of a complete body; ask
    /// `needs_no_store()`.
    pub fn is_whole_alone(&self) -> bool
        requires { needs_no_store (reader_of self.now) ≡ true }
        ensures { (s : Store) → result ≡ is_whole s (reader_of self.now) }
    {
        match self {
            MemHitHandler::Complete(hit) => hit.done,
            MemHitHandler::Partial(_part) => unreachable!(),
        }
    }

    /// `body_length` without the store. Requires a reader of a complete body; ask `needs_no_store()`.
    pub fn body_length_alone(&self) -> usize
        requires { needs_no_store (reader_of self.now) ≡ true }
        ensures { (s : Store) → Some result ≡ body_length s (reader_of self.now) }
    {
        match self {
            MemHitHandler::Complete(hit) => hit.body.len(),
            MemHitHandler::Partial(_part) => unreachable!(),
        }
    }

    /// `let_go` without the store: any store would stay as it is.
    /// Requires a reader of a complete body; ask `needs_no_store()`.
    pub fn let_go_alone(self)
        requires { needs_no_store (reader_of self) ≡ true }
        ensures { (s : Store) → left s (reader_of self) ≡ s }
    {
        match self {
            MemHitHandler::Complete(hit) => hit.end(),
            MemHitHandler::Partial(_part) => unreachable!(),
        }
    }
}

impl HandleHit<MemCache> for MemHitHandler {
    ghost use Rattle.pcache_store.specs.Notes.{added, leave_noted};
    ghost use Rattle.pcache_store.specs.Readers.{reader_of};
    ghost use Rattle.pcache_store.specs.Store.{left};

    ghost reader = { reader_of };

    fn read_body(&mut self, alloc: Global, store: &mut MemCache) -> Result<Poll<Option<Bytes>>> {
        match self {
            MemHitHandler::Complete(hit) => Ok(Poll::Ready(hit.read()?)),
            MemHitHandler::Partial(part) => {
                let Some(draft) = store.draft(part.slot, part.write) else {
                    return Ok(Poll::Ready(None));
                };
                let written = draft.len();
                if part.place < written {
                    let piece = draft.rest(alloc, part.place)?;
                    part.place = written;
                    return Ok(Poll::Ready(Some(piece)));
                }
                if draft.is_open() {
                    return Ok(Poll::Pending);
                }
                Ok(Poll::Ready(None))
            }
        }
    }

    fn is_whole(&self, store: &MemCache) -> bool {
        match self {
            MemHitHandler::Complete(hit) => hit.done,
            MemHitHandler::Partial(part) => match store.draft(part.slot, part.write) {
                // Also if the write was dropped once its end was announced: all its bytes had come.
                Some(draft) => draft.is_told() && draft.len() <= part.place,
                None => false,
            },
        }
    }

    fn body_length(&self, store: &MemCache) -> Option<usize> {
        match self {
            // Of the whole body and not of the range, since a `Content-Range` names both.
            MemHitHandler::Complete(hit) => Some(hit.body.len()),
            MemHitHandler::Partial(part) => match store.draft(part.slot, part.write) {
                Some(draft) if draft.is_told() => Some(draft.len()),
                _ => None,
            },
        }
    }

    /// Never fails.
    fn finish(self, store: &mut MemCache) -> Result<()>
        ensures gone { store.new.state ≡ left store.old.state (reader_of self) }
        ensures past { store.new.past ≡ added (leave_noted (reader_of self)) store.old.past }
        ensures ok { IsOk result }
    {
        self.leave(store);
        Ok(())
    }

    fn let_go(self, store: &mut MemCache) {
        self.leave(store);
    }

    fn can_seek(&self) -> bool {
        matches!(self, MemHitHandler::Complete(_))
    }

    fn seek(&mut self, start: usize, end: Option<usize>) -> Result<()> {
        match self {
            MemHitHandler::Complete(hit) => hit.seek(start, end),
            MemHitHandler::Partial(_) => Err(Error::new(ErrorType::InternalError)),
        }
    }

    fn should_count_access(&self) -> bool {
        match self {
            MemHitHandler::Complete(_) => true,
            MemHitHandler::Partial(_) => false,
        }
    }

    fn get_eviction_weight(&self) -> usize {
        match self {
            MemHitHandler::Complete(hit) => hit.body.len(),
            MemHitHandler::Partial(_) => 0,
        }
    }

    fn entry_id(&self) -> Option<CacheEntryId> {
        match self {
            MemHitHandler::Complete(hit) => hit.id,
            MemHitHandler::Partial(part) => Some(CacheEntryId::new(part.write)),
        }
    }
}
