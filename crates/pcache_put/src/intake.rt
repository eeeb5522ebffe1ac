//! How a put takes in its pieces: each is read first, for which no storage is needed, and then stored.
ghost use Rattle.std.specs.Prelude.{◌≡◌, ◌≢◌, ◌⊎◌, Ok, ◌↔◌, ◌++◌, ◌∷◌, [], List, ℕ, true, false, IsTrue, IfOk, IfErr, IfSome, OnOk, OnErr, Option, Some, None, option_map};
ghost use Rattle.std.specs.FinMap as map;
ghost use Rattle.pcache_base.specs.Key.{slot};
ghost use Rattle.pcache_base.specs.declared.error.ErrorType.TheVariants.{OutOfMemory, InternalError, InvalidHttpHeader, ResponseTooLarge};
ghost use Rattle.pcache_meta.specs.Meta.{Meta};
ghost use Rattle.pcache_response.specs.Progress.{HasFailed};
ghost use Rattle.pcache_response.specs.Response.{IsUnreadable};
ghost use Rattle.pcache_request.specs.Replacing.{weighed_each};
ghost use Rattle.pcache_store.specs.Notes.{noted};
ghost use Rattle.pcache_store.specs.Past.{Began};
ghost use Rattle.pcache_store.specs.Purge.{entry_given};
ghost use Rattle.pcache_store.specs.Refusals.{MayFailWrite};
ghost use Rattle.pcache_store.specs.Store.{Store, begun, is_told};
ghost use Rattle.pcache_put.specs.Openings.{IsVerdict, IsBegun, IsDue, HasOpened};
ghost use Rattle.pcache_put.specs.Pasts.{EndsPutPast, past_at, past_wrote};
ghost use Rattle.pcache_put.specs.Puts.{Piece, IsResult, and_piece, joined};
ghost use Rattle.pcache_put.specs.Readings.{BodyDue, IfUnread, IsBegunRead, IsOfBody, IsOfHead, MayFailOnceRead};
ghost use Rattle.pcache_put.specs.Stages.{stage_of};
ghost use Rattle.pcache_put.specs.State.{Accepted, InHead, InBody, Filled, HeadTaken, BodyRead, BodyTaken, Counts, limit_of, TakenBy};
ghost use Rattle.pcache_put.specs.Steps.{counted_part, IsAllowed, IsBegunBefore, IfRefused, MayFailFill, written, store_wrote, store_at, stage_at, filled_on, filled_wrote, EndsPiece, EndsPut, TellsResult, entry_reported, evicted_ended, tracked_before_put, MayFailPiece, is_done};
ghost use Rattle.pcache_put.specs.declared.reading.ReadPiece.TheVariants.{Brings};
ghost use Rattle.pcache_put.specs.declared.report.PieceEnd.TheVariants.{GoesOn};

use crate::boxed::Boxed;
use crate::brought::Brought;
use crate::policy::{CachePut, judge};
use crate::reading::{BodyPart, ReadPiece};
use crate::report::{PutEnd, Written};
use crate::stage::{Filling, SPENT, Stage, Taken, declines, goes_on, refuses};
use bytes::Bytes;
use pcache_base::error::{Error, Result};
use pcache_base::key::CacheKey;
use pcache_base::moment::Moment;
use pcache_base::reason::NoCacheReason;
use pcache_control::RespCacheable;
use pcache_evict::eviction::{CacheEntryKey, EvictionManager};
use pcache_meta::header::ResponseHeader;
use pcache_meta::meta::CacheMeta;
use pcache_request::cache::WriteEnd;
use pcache_request::cache::ending::{EndedWrite, Entering, end_writer};
use pcache_response::max_file_size::{ERR_RESPONSE_TOO_LARGE, MaxFileSizeTracker};
use pcache_response::response_parse::ResponseParse;
use pcache_store::storage::{HandleMiss, Storage};
use std::alloc::Global;

// All of a put except its stage.
#[derive(Drop)]
pub(crate) struct Intake<C> {
    pub(crate) alloc: Global,
    pub(crate) policy: C,
    pub(crate) key: CacheKey,
    pub(crate) size: Option<MaxFileSizeTracker>,
    pub(crate) parser: ResponseParse,
}

// Counts the bytes of a part, if they are limited, and returns whether they are still allowed.
fn allows(size: &mut Option<MaxFileSizeTracker>, part: &BodyPart) -> bool
    ensures size { size.new ≡ counted_part size.old (Some part.now) }
    ensures allowed { IsTrue result ↔ IsAllowed size.new }
{
    match size {
        Some(size) => size.add_body_bytes(part.bytes.len()),
        None => true,
    }
}

// Writes a part of the body, if the limit allows it.
fn write_part<S: Storage>(
    size: &mut Option<MaxFileSizeTracker>,
    storage: &mut S,
    writer: &mut S::Miss,
    part: Option<BodyPart>,
) -> Result<Option<Written>>
    ensures wrote { IfOk result (λ w. w ≡ option_map written part) }
    ensures ok { IfOk result (λ w. S.state storage.new
        ≡ store_wrote (Some (S.Miss.write writer.old)) w (S.state storage.old)) }
    ensures past { IfOk result (λ w. S.past storage.new
        ≡ past_wrote (Some (S.Miss.write writer.old)) w (S.past storage.old)) }
    ensures size { size.new ≡ counted_part size.old part }
    ensures allowed { OnOk result (IfSome part (λ _. IsAllowed size.new)) }
    ensures over { IfErr result (λ e. e ≡ ResponseTooLarge → ¬ (IsAllowed size.new)) }
    ensures fits { IfErr result (λ e. e ≢ ResponseTooLarge → IsAllowed size.new) }
    ensures nothing { part ≡ None → result ≡ Ok None }
    ensures kind { IfErr result (λ e.
        MayFailFill (S.state storage.old) (S.Miss.write writer.old) e) }
    ensures err { OnErr result (S.state storage.new ≡ S.state storage.old) }
    ensures same_past { OnErr result (S.past storage.new ≡ S.past storage.old) }
    ensures same { S.Miss.write writer.new ≡ S.Miss.write writer.old }
    ensures entry { S.Miss.entry_number writer.new ≡ S.Miss.entry_number writer.old }
{
    let Some(part) = part else {
        return Ok(None);
    };
    // Counted with the writing and not with the reading, so that a first piece that is too long
    // begins its write, drops it, and uses up its number.
    if !allows(size, &part) {
        return Err(Error::new(ERR_RESPONSE_TOO_LARGE));
    }
    // This write already saw `eof`: the caller passed a storage other than the put's own.
    if writer.at_eof(storage) {
        return Err(Error::new(SPENT));
    }
    let BodyPart { bytes, is_last } = part;
    // For the report. It shares the bytes, and copies none.
    let copy = bytes.clone()?;
    writer.write_body(storage, bytes, is_last)?;
    Ok(Some(Written {
        bytes: copy,
        eof: is_last,
    }))
}

impl<C: CachePut> Intake<C> {
    // The largest number of bytes of the body, if it is limited.
    fn limit(&self) -> Option<usize>
        ensures { result ≡ limit_of self.now.size }
    {
        match &self.size {
            Some(size) => Some(size.max_file_size_bytes()),
            None => None,
        }
    }

    // What is read of a piece in which the head ends.
    fn open(&self, header: ResponseHeader, body: Option<BodyPart>, now: Moment) -> Result<ReadPiece>
        ensures begun { IfOk result (IsBegun
            (IsVerdict (C.says self.now.policy) (limit_of self.now.size) header now) body) }
        ensures head { IfOk result IsOfHead }
        ensures read { IfOk result (λ o. IfUnread o (λ _. ⊥)) }
        ensures kind { IfErr result (λ e. e ≡ OutOfMemory) }
    {
        match judge(self.alloc, &self.policy, self.limit(), header, now)? {
            RespCacheable::Cacheable(meta) => {
                Ok(ReadPiece::Begins(Boxed::new(self.alloc, meta)?, body))
            }
            RespCacheable::Uncacheable(reason) => Ok(ReadPiece::Declined(reason)),
        }
    }

    // Reads a piece of the head, if it can be read.
    fn read_opening(&mut self, piece: &Bytes, now: Moment) -> Result<ReadPiece>
        ensures same { self.new ≡ record self.old { parser = self.new.parser } }
        ensures head { IfOk result IsOfHead }
        ensures opened { IfOk result (λ o. (pieces : List Piece)
            → HeadTaken self.old.size self.old.parser pieces
            → HasOpened (C.says self.old.policy) self.old.size self.new.parser
            (and_piece pieces piece.now now) o) }
        ensures read { IfOk result (λ o. IfUnread o (λ _. ⊥)) }
        ensures invalid { IfErr result (λ e. e ≡ InvalidHttpHeader
            → (pieces : List Piece)
            → HeadTaken self.old.size self.old.parser pieces
            → IsUnreadable (joined (and_piece pieces piece.now now))) }
        ensures kind { IfErr result (λ e.
            (e ≡ InvalidHttpHeader) ⊎ (e ≡ OutOfMemory) ⊎ (self.old.parser ≡ HasFailed e)) }
    {
        // The bytes of a head that has not ended have no bound: it would have to lie above every
        // head that can be read, and the grammar has no such. Who takes puts from outside limits
        // them before.
        let parts = self.parser.take_piece(piece)?;
        let Brought { head, body } = Brought::from_parts(parts);
        match head {
            Some(header) => self.open(header, body, now),
            None => Ok(ReadPiece::Unfinished),
        }
    }

    // Reads a piece of the body, if it can be read, and returns what is to be written of it.
    fn read_body(&mut self, piece: &Bytes) -> Result<Option<BodyPart>>
        ensures same { self.new ≡ record self.old { parser = self.new.parser } }
        ensures due { IfOk result (λ part. (pieces : List Piece) (now : ℕ) (meta : Meta)
            (body : List ℕ)
            → BodyRead (C.says self.old.policy) (limit_of self.old.size) self.old.parser meta pieces
            body
            → IsDue (C.says self.old.policy) (limit_of self.old.size) self.new.parser meta
            (and_piece pieces piece.now now) body part) }
        ensures invalid { IfErr result (λ e. e ≡ InvalidHttpHeader
            → (pieces : List Piece) (meta : Meta) (body : List ℕ)
            → ¬ (BodyRead (C.says self.old.policy) (limit_of self.old.size) self.old.parser meta
            pieces body)) }
        ensures whole { is_done self.old.parser ≡ true → result ≡ Ok None }
        ensures kind { IfErr result (λ e.
            (e ≡ InvalidHttpHeader) ⊎ (e ≡ OutOfMemory) ⊎ (self.old.parser ≡ HasFailed e)) }
    {
        let parts = self.parser.take_piece(piece)?;
        let brought = Brought::from_parts(parts);
        Ok(brought.body)
    }

    // Writes the part of the body, if there is one.
    fn fill<S: Storage>(
        &mut self,
        filling: Filling<S::Miss>,
        began: Option<Boxed<CacheMeta>>,
        part: Option<BodyPart>,
        storage: &mut S,
    ) -> Taken<S::Miss>
        ensures same { self.new ≡ record self.old { size = self.new.size } }
        ensures limit { limit_of self.new.size ≡ limit_of self.old.size }
        ensures began { result.report.began ≡ began }
        ensures store { S.state storage.new
            ≡ store_wrote (Some (S.Miss.write filling.writer)) result.report.wrote
            (S.state storage.old) }
        ensures past { S.past storage.new
            ≡ past_wrote (Some (S.Miss.write filling.writer)) result.report.wrote
            (S.past storage.old) }
        ensures ends { EndsPiece S.Miss.write result.report.end
            (InBody (S.Miss.write filling.writer) (S.Miss.entry_number filling.writer)
            filling.fresh_until) (stage_of S.Miss.write S.Miss.entry_number result.stage) }
        ensures last { IfSome result.report.wrote (λ w.
            (b : BodyPart) × (part ≡ Some b) × (w.eof ≡ b.is_last)) }
        ensures taken { (pieces : List Piece) (meta : Meta) (body : List ℕ)
            → filling.fresh_until ≡ meta.fresh_until
            → IsDue (C.says self.old.policy) (limit_of self.old.size) self.old.parser meta pieces
            body part
            → Counts self.old.size body
            → TakenBy (C.says self.old.policy) self.new.size self.new.parser
            (stage_of S.Miss.write S.Miss.entry_number result.stage) pieces
            (filled_wrote result.report.wrote (Some (record { meta = meta; body = body }))) }
        ensures nothing { part ≡ None
            → result.report ≡ record { began = began; wrote = None; end = GoesOn } }
        ensures refused { IfRefused result.report.end (λ _. result.report.wrote ≡ None) }
        ensures kind { IfRefused result.report.end
            (MayFailFill (S.state storage.old) (S.Miss.write filling.writer)) }
    {
        let Filling {
            mut writer,
            fresh_until,
        } = filling;
        match write_part(&mut self.size, storage, &mut writer, part) {
            Ok(wrote) => {
                let filling = Filling {
                    writer,
                    fresh_until,
                };
                goes_on(Stage::Body(filling), began, wrote)
            }
            Err(refused) => refuses(refused, began, Some(writer)),
        }
    }

    // Reads a piece while the head has not ended.
    pub(crate) fn read_head(&mut self, piece: &Bytes, now: Moment) -> ReadPiece
        ensures same { self.new ≡ record self.old { parser = self.new.parser } }
        ensures head { IsOfHead result }
        ensures opened { (pieces : List Piece)
            → HeadTaken self.old.size self.old.parser pieces
            → HasOpened (C.says self.old.policy) self.old.size self.new.parser
            (and_piece pieces piece.now now) result }
        ensures kind { IfUnread result (λ e.
            (e ≡ InvalidHttpHeader) ⊎ (e ≡ OutOfMemory) ⊎ (self.old.parser ≡ HasFailed e)) }
    {
        match self.read_opening(piece, now) {
            Ok(read) => read,
            Err(refused) => ReadPiece::Refused(refused),
        }
    }

    // Reads a piece while the body is written.
    pub(crate) fn read_more(&mut self, piece: &Bytes) -> ReadPiece
        ensures same { self.new ≡ record self.old { parser = self.new.parser } }
        ensures body { IsOfBody result }
        ensures due { (pieces : List Piece) (now fresh_until : ℕ) (f : Option Filled)
            → BodyTaken (C.says self.old.policy) self.old.size self.old.parser fresh_until pieces f
            → BodyDue (C.says self.old.policy) self.old.size self.new.parser fresh_until
            (and_piece pieces piece.now now) f result }
        ensures whole { is_done self.old.parser ≡ true → result ≡ Brings None }
        ensures kind { IfUnread result (λ e.
            (e ≡ InvalidHttpHeader) ⊎ (e ≡ OutOfMemory) ⊎ (self.old.parser ≡ HasFailed e)) }
    {
        match self.read_body(piece) {
            Ok(part) => ReadPiece::Brings(part),
            Err(refused) => ReadPiece::Refused(refused),
        }
    }

    // Begins the write of a response that is to be stored with this meta.
    fn begin<S: Storage>(&self, meta: &CacheMeta, storage: &mut S) -> Result<Filling<S::Miss>>
        ensures write { IfOk result (λ f. S.Miss.write f.writer ≡ (S.state storage.old).next) }
        ensures entry { IfOk result (λ f. S.Miss.entry_number f.writer
            ≡ entry_given S.guarantees.numbers (S.state storage.old).next) }
        ensures fresh { IfOk result (λ f. f.fresh_until ≡ meta.now.fresh_until) }
        ensures store { OnOk result (S.state storage.new
            ≡ begun (S.state storage.old) (slot self.now.key) meta.now) }
        ensures past { OnOk result (S.past storage.new
            ≡ noted (Some (Began (slot self.now.key) (S.state storage.old).next meta.now))
            (S.past storage.old)) }
        ensures err { OnErr result (S.state storage.new ≡ S.state storage.old) }
        ensures same_past { OnErr result (S.past storage.new ≡ S.past storage.old) }
        ensures kind { IfErr result (MayFailWrite (S.state storage.old)) }
    {
        let writer = storage.get_miss_handler(self.alloc, &self.key, meta)?;
        Ok(Filling {
            writer,
            fresh_until: meta.fresh_until(),
        })
    }

    // Begins a write, and writes the part of its body that was read.
    fn begin_with<S: Storage>(
        &mut self,
        meta: Boxed<CacheMeta>,
        part: Option<BodyPart>,
        storage: &mut S,
    ) -> Taken<S::Miss>
        ensures same { self.new ≡ record self.old { size = self.new.size } }
        ensures limit { limit_of self.new.size ≡ limit_of self.old.size }
        ensures store { S.state storage.new
            ≡ store_at S.guarantees.numbers self.old.key InHead result.report.began
            result.report.wrote (S.state storage.old) }
        ensures past { S.past storage.new
            ≡ past_at S.guarantees.numbers self.old.key InHead result.report.began
            result.report.wrote (S.state storage.old) (S.past storage.old) }
        ensures ends { EndsPiece S.Miss.write result.report.end
            (stage_at S.guarantees.numbers (S.state storage.old) InHead result.report.began)
            (stage_of S.Miss.write S.Miss.entry_number result.stage) }
        ensures last { IfSome result.report.wrote (λ w.
            (b : BodyPart) × (part ≡ Some b) × (w.eof ≡ b.is_last)) }
        ensures taken { (pieces : List Piece)
            → IsDue (C.says self.old.policy) (limit_of self.old.size) self.old.parser meta pieces []
            part
            → Counts self.old.size []
            → TakenBy (C.says self.old.policy) self.new.size self.new.parser
            (stage_of S.Miss.write S.Miss.entry_number result.stage) pieces
            (filled_on result.report.began result.report.wrote None) }
        ensures refused { IfRefused result.report.end (λ _. result.report.wrote ≡ None) }
        ensures begun { IfSome result.report.began (λ m. m ≡ meta) }
        ensures whether { IfRefused result.report.end (λ e.
            IsBegunBefore InHead e result.report.began) }
        ensures kind { IfRefused result.report.end (MayFailPiece InHead (S.state storage.old)) }
    {
        match self.begin(meta.get(), storage) {
            Ok(filling) => self.fill(filling, Some(meta), part, storage),
            Err(refused) => refuses(refused, None, None),
        }
    }

    // Stores what was read while the head had not ended.
    pub(crate) fn store_head<S: Storage>(
        &mut self,
        read: ReadPiece,
        storage: &mut S,
    ) -> Taken<S::Miss>
        requires head { IsOfHead read }
        ensures same { self.new ≡ record self.old { size = self.new.size } }
        ensures limit { limit_of self.new.size ≡ limit_of self.old.size }
        ensures store { S.state storage.new
            ≡ store_at S.guarantees.numbers self.old.key InHead result.report.began
            result.report.wrote (S.state storage.old) }
        ensures past { S.past storage.new
            ≡ past_at S.guarantees.numbers self.old.key InHead result.report.began
            result.report.wrote (S.state storage.old) (S.past storage.old) }
        ensures ends { EndsPiece S.Miss.write result.report.end
            (stage_at S.guarantees.numbers (S.state storage.old) InHead result.report.began)
            (stage_of S.Miss.write S.Miss.entry_number result.stage) }
        ensures last { (pieces : List Piece)
            → HasOpened (C.says self.old.policy) self.old.size self.old.parser pieces read
            → IfSome result.report.wrote (λ w. w.eof ≡ is_done self.new.parser) }
        ensures taken { (pieces : List Piece)
            → HasOpened (C.says self.old.policy) self.old.size self.old.parser pieces read
            → TakenBy (C.says self.old.policy) self.new.size self.new.parser
            (stage_of S.Miss.write S.Miss.entry_number result.stage) pieces
            (filled_on result.report.began result.report.wrote None) }
        ensures refused { IfRefused result.report.end (λ _. result.report.wrote ≡ None) }
        ensures begun { (pieces : List Piece)
            → HasOpened (C.says self.old.policy) self.old.size self.old.parser pieces read
            → IfSome result.report.began (λ m.
            Accepted (C.says self.old.policy) (limit_of self.old.size) m pieces) }
        ensures whether { IfRefused result.report.end (λ e.
            IsBegunRead InHead read e result.report.began) }
        ensures kind { IfRefused result.report.end
            (MayFailOnceRead InHead (S.state storage.old) read) }
    {
        match read {
            ReadPiece::Begins(meta, part) => self.begin_with(meta, part, storage),
            ReadPiece::Unfinished => goes_on(Stage::Head, None, None),
            ReadPiece::Declined(reason) => declines(reason),
            ReadPiece::Refused(refused) => refuses(refused, None, None),
            ReadPiece::Brings(_) | ReadPiece::Ignored => unreachable!(),
        }
    }

    // Stores what was read while the body is written.
    pub(crate) fn store_body<S: Storage>(
        &mut self,
        read: ReadPiece,
        filling: Filling<S::Miss>,
        storage: &mut S,
    ) -> Taken<S::Miss>
        requires body { IsOfBody read }
        ensures same { self.new ≡ record self.old { size = self.new.size } }
        ensures limit { limit_of self.new.size ≡ limit_of self.old.size }
        ensures began { result.report.began ≡ None }
        ensures store { S.state storage.new
            ≡ store_wrote (Some (S.Miss.write filling.writer)) result.report.wrote
            (S.state storage.old) }
        ensures past { S.past storage.new
            ≡ past_wrote (Some (S.Miss.write filling.writer)) result.report.wrote
            (S.past storage.old) }
        ensures ends { EndsPiece S.Miss.write result.report.end
            (InBody (S.Miss.write filling.writer) (S.Miss.entry_number filling.writer)
            filling.fresh_until) (stage_of S.Miss.write S.Miss.entry_number result.stage) }
        ensures last { (pieces : List Piece) (f : Option Filled)
            → BodyDue (C.says self.old.policy) self.old.size self.old.parser filling.fresh_until
            pieces f read
            → IfSome result.report.wrote (λ w. w.eof ≡ is_done self.new.parser) }
        ensures taken { (pieces : List Piece) (f : Option Filled)
            → BodyDue (C.says self.old.policy) self.old.size self.old.parser filling.fresh_until
            pieces f read
            → TakenBy (C.says self.old.policy) self.new.size self.new.parser
            (stage_of S.Miss.write S.Miss.entry_number result.stage) pieces
            (filled_wrote result.report.wrote f) }
        ensures nothing { read ≡ Brings None
            → result.report ≡ record { began = None; wrote = None; end = GoesOn } }
        ensures refused { IfRefused result.report.end (λ _. result.report.wrote ≡ None) }
        ensures kind { IfRefused result.report.end (MayFailOnceRead
            (InBody (S.Miss.write filling.writer) (S.Miss.entry_number filling.writer)
            filling.fresh_until) (S.state storage.old) read) }
    {
        match read {
            ReadPiece::Brings(part) => self.fill(filling, None, part, storage),
            ReadPiece::Refused(refused) => {
                let Filling {
                    writer,
                    fresh_until: _,
                } = filling;
                refuses(refused, None, Some(writer))
            }
            ReadPiece::Unfinished
            | ReadPiece::Declined(_)
            | ReadPiece::Begins(_, _)
            | ReadPiece::Ignored => unreachable!(),
        }
    }

    // Ends the write. If the response ended before its body did, the write is dropped; else it ends as
    // any write does, and is passed how its entry comes into the manager.
    pub(crate) fn end_body<S: Storage, E: EvictionManager>(
        &mut self,
        storage: &mut S,
        eviction: &mut E,
        filling: Filling<S::Miss>,
        entering: Entering,
    ) -> (PutEnd, Option<CacheEntryKey>)
        ensures same { self.new ≡ record self.old { parser = self.new.parser } }
        ensures ends { EndsPut S.guarantees self.old.key self.old.parser
            (weighed_each entering.weight (S.finishes storage.old))
            (E.limits eviction.old)
            (InBody (S.Miss.write filling.writer) (S.Miss.entry_number filling.writer)
            filling.fresh_until) result.0 (S.state storage.old) (S.state storage.new)
            (tracked_before_put self.old.key entering.replaced result.0 (E.tracked eviction.old))
            (E.tracked eviction.new) }
        ensures past { EndsPutPast S.guarantees self.old.key
            (InBody (S.Miss.write filling.writer) (S.Miss.entry_number filling.writer)
            filling.fresh_until) result.0 (S.past storage.old) (S.past storage.new) }
        ensures entry { result.1
            ≡ entry_reported self.old.key
            (InBody (S.Miss.write filling.writer) (S.Miss.entry_number filling.writer)
            filling.fresh_until) result.0 }
        ensures evicted { E.evicted eviction.new
            ≡ evicted_ended self.old.key (weighed_each entering.weight (S.finishes storage.old))
            (InBody (S.Miss.write filling.writer) (S.Miss.entry_number filling.writer)
            filling.fresh_until)
            (tracked_before_put self.old.key entering.replaced result.0 (E.tracked eviction.old))
            (E.evicted eviction.old) result.0 }
        ensures limits { E.limits eviction.new ≡ E.limits eviction.old }
        ensures tells { (pieces : List Piece) (f : Option Filled)
            → BodyTaken (C.says self.old.policy) self.old.size self.old.parser filling.fresh_until
            pieces f
            → TellsResult (IsResult (C.says self.old.policy) (limit_of self.old.size) pieces) f
            result.0 }
    {
        let Filling {
            writer,
            fresh_until,
        } = filling;
        if let Err(early) = self.parser.finish() {
            writer.drop_write(storage);
            return (PutEnd::Dropped(early), None);
        }
        let EndedWrite { end, entry } = end_writer(
            self.alloc,
            true,
            storage,
            eviction,
            &self.key,
            writer,
            fresh_until,
            entering,
        );
        match end {
            WriteEnd::Stored(report) => (PutEnd::Stored(report), entry),
            WriteEnd::Dropped(refused) => (PutEnd::Dropped(refused), entry),
            WriteEnd::Withdrawn(refused) => (PutEnd::Withdrawn(refused), entry),
            WriteEnd::Nothing => unreachable!(),
        }
    }
}
