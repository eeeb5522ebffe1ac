//! A put: a response that is pushed into the cache, in pieces.
//!
//! Each call of a put borrows the storage and the eviction manager. A put may hold a write, so it is spent by
//! `end`.
ghost use Rattle.std.specs.Prelude.{◌≡◌, option_map};
ghost use Rattle.pcache_request.specs.Requests.{dropped_by};
ghost use Rattle.pcache_request.specs.StorePasts.{dropped_past};
ghost use Rattle.pcache_base.specs.declared.error.ErrorType.TheVariants.{InternalError};
ghost use Rattle.pcache_put.specs.Endings.{stage_left};

use crate::intake::Intake;
use crate::policy::CachePut;
use crate::reading::ReadPiece;
use crate::report::{PieceEnd, PieceReport, PutEnd, PutOutcome, PutReport};
use crate::stage::{Filling, Stage, Taken, declines, put_stage, refuses, stage_after, take_stage};
use bytes::Bytes;
use pcache_base::error::{Error, Result};
use pcache_base::key::CacheKey;
use pcache_base::moment::Moment;
use pcache_base::reason::NoCacheReason;
use pcache_evict::eviction::{CacheEntryKey, EvictionManager};
use pcache_request::cache::ending::Entering;
use pcache_response::max_file_size::MaxFileSizeTracker;
use pcache_response::response_parse::{INCOMPLETE_BODY, ResponseParse};
use pcache_store::storage::{HandleMiss, Storage};
use std::alloc::Global;
use std::marker::Model;

/// A response that is pushed into the cache for a key, in pieces.
///
/// The head decides, at the moment of the piece that ends it: the policy says whether the response is stored, and with what
/// meta. The body is written as it comes. Only the piece that completes a body of known length is announced as the last.
/// Once nothing is to be stored, later pieces are ignored, and each returns the reason. After a failure every later call
/// fails with the same kind; a call after the end that stored the body fails with `InternalError`, as a mistake of the
/// caller.
pub struct CachePutCtx<C: CachePut, S: Storage> {
    intake: Intake<C>,
    stage: Stage<S::Miss>,
}

impl<C: CachePut, S: Storage> Model for CachePutCtx<C, S> {
    ghost use Rattle.pcache_put.specs.State.{Put};

    ghost Value = { Put C };

    ghost use Rattle.pcache_put.specs.Stages.{stage_of};

    ghost view = { λ p. record {
      policy = p.intake.policy;
      key = p.intake.key;
      size = p.intake.size;
      parser = p.intake.parser;
      stage = stage_of S.Miss.write S.Miss.entry_number p.stage;
    } };
}

// Puts the stage back, and returns the report on the piece.
fn stand<M>(place: &mut Stage<M>, taken: Taken<M>) -> PieceReport<M>
    requires { place.old ≡ Stage.Over InternalError }
    ensures place { place.new ≡ taken.stage }
    ensures report { result ≡ taken.report }
{
    let Taken { stage, report } = taken;
    put_stage(place, stage);
    report
}

// Drops a write, if there is one.
fn drop_writer<S: Storage>(storage: &mut S, writer: Option<S::Miss>)
    ensures store { S.state storage.new
        ≡ dropped_by (option_map S.Miss.write writer) (S.state storage.old) }
    ensures past { S.past storage.new
        ≡ dropped_past (option_map S.Miss.write writer) (S.past storage.old) }
{
    if let Some(writer) = writer {
        writer.drop_write(storage);
    }
}

// Ends a put: no more pieces are taken in.
fn leave<M>(place: &mut Stage<M>, end: PutEnd, entry: Option<CacheEntryKey>) -> PutReport
    requires { place.old ≡ Stage.Over InternalError }
    ensures place { place.new ≡ stage_left end }
    ensures report { result ≡ record { end = end; entry = entry } }
{
    put_stage(place, stage_after(&end));
    PutReport { end, entry }
}

impl<C: CachePut, S: Storage> CachePutCtx<C, S> {
    ghost use Rattle.std.specs.Prelude.{◌≡◌, ◌⊎◌, ◌++◌, ◌∷◌, [], List, Ok, true, IfSome, IsTrue, OnOk, OnErr, IfErr, Option, Some, None, option_map};
    ghost use Rattle.pcache_base.specs.declared.error.ErrorType.TheVariants.{InternalError};
    ghost use Rattle.pcache_meta.specs.Meta.{Meta};
    ghost use Rattle.pcache_response.specs.Progress.{AtHead, HasFailed};
    ghost use Rattle.pcache_request.specs.NoBody.{HasNoBody, LeavesNone};
    ghost use Rattle.pcache_request.specs.Replacing.{weighed_each};
    ghost use Rattle.pcache_request.specs.Requests.{dropped_by};
    ghost use Rattle.pcache_request.specs.StorePasts.{dropped_past};
    ghost use Rattle.pcache_put.specs.Pasts.{EndsPutPast, past_at, past_left};
    ghost use Rattle.pcache_put.specs.Puts.{Piece, IsResult, and_piece};
    ghost use Rattle.pcache_put.specs.Readings.{BringsNothing, HasRead, IfUnread, IsBegunRead, IsReadAt, MayFailRead, MayFailOnceRead, ReadsPiece};
    ghost use Rattle.pcache_store.specs.Store.{Store};
    ghost use Rattle.std.specs.Option.{option_and_then};
    ghost use Rattle.pcache_put.specs.State.{Accepted, InHead, Filled, HasTaken, entry_in, limit_of, write_in};
    ghost use Rattle.pcache_put.specs.Steps.{Done, HasWholeBody, store_at, store_left, stage_at, filled_on, BeginsAtHead, EndsPiece, TakesPiece, IsStageAfter, RepeatsResult, ReturnsAgain, IfRefused, IsBegunBefore, MayFailPiece, is_done, EndsPut, EndsAs, stage_ended, entry_reported, evicted_ended, tracked_before_put, IfWithdrawn, TellsResult};

    /// A put of a key, with no limit on its body.
    pub fn new(alloc: Global, policy: C, key: CacheKey) -> CachePutCtx<C, S>
        ensures put { result
            ≡ record {
              policy = policy;
              key = key;
              size = None;
              parser = AtHead [];
              stage = InHead;
            } }
        ensures taken { HasTaken (C.says policy) result [] None }
    {
        CachePutCtx {
            intake: Intake {
                alloc,
                policy,
                key,
                size: None,
                parser: ResponseParse::new(alloc),
            },
            stage: Stage::Head,
        }
    }

    /// Limits the number of the body's bytes, and sets their count to zero; to be called before the body begins.
    pub fn set_max_file_size_bytes(&mut self, max_file_size_bytes: usize)
        ensures put { self.new
            ≡ record self.old { size = Some (record { bytes = 0; limit = max_file_size_bytes }) } }
        ensures taken { (pieces : List Piece)
            → self.old.stage ≡ InHead
            → HasTaken (C.says self.old.policy) self.old pieces None
            → HasTaken (C.says self.old.policy) self.new pieces None }
    {
        self.intake.size = Some(MaxFileSizeTracker::new(max_file_size_bytes));
    }

    /// The key.
    pub fn key(&self) -> &CacheKey
        ensures { result.now ≡ self.now.key }
    {
        &self.intake.key
    }

    /// The handler of the write, if one is in flight.
    pub fn writer(&self) -> Option<&S::Miss>
        ensures write { option_map (λ w. S.Miss.write w.now) result ≡ write_in self.now.stage }
        ensures entry { option_and_then (λ w. S.Miss.entry_number w.now) result
            ≡ entry_in self.now.stage }
    {
        match &self.stage {
            Stage::Body(filling) => Some(&filling.writer),
            Stage::Head | Stage::Declined(_) | Stage::Over(_) => None,
        }
    }

    /// Takes in the next piece of the response, at a moment. Returns why nothing is stored, once that is so.
    ///
    /// The part of the body shares the piece, and is handed to the storage so; `ResponseParse::take_piece` says when it is a copy. Of
    /// a body in one piece the storage may keep the piece, and what it was cut from, as long as the body.
    ///
    /// Fails when memory runs out, if all numbers of writes are used, if the head can't be read, and if the body is longer
    /// than its limit. The write is dropped then. Bytes after a whole body are ignored, without an error.
    pub fn cache_put(
        &mut self,
        piece: &Bytes,
        storage: &mut S,
        now: Moment,
    ) -> Result<Option<NoCacheReason>>
        ensures step { (d : Done)
            × TakesPiece (C.says self.old.policy) self.old self.new
            (record { bytes = piece.now; now = now }) d
            × (S.state storage.new
            ≡ store_left result
            (stage_at S.guarantees.numbers (S.state storage.old) self.old.stage d.began)
            (store_at S.guarantees.numbers self.old.key self.old.stage d.began d.wrote
            (S.state storage.old)))
            × (S.past storage.new
            ≡ past_left result
            (stage_at S.guarantees.numbers (S.state storage.old) self.old.stage d.began)
            (past_at S.guarantees.numbers self.old.key self.old.stage d.began d.wrote
            (S.state storage.old) (S.past storage.old))) }
        ensures stands { IsStageAfter result self.new.stage }
        ensures again { RepeatsResult self.old.stage result }
        ensures ignored { HasWholeBody self.old.stage self.old.parser
            → (result ≡ Ok None)
            × (self.new.stage ≡ self.old.stage)
            × (S.state storage.new ≡ S.state storage.old)
            × (S.past storage.new ≡ S.past storage.old) }
        ensures kind { IfErr result (λ e.
            MayFailPiece self.old.stage (S.state storage.old) e ⊎ (self.old.parser ≡ HasFailed e)) }
    {
        let PieceReport {
            began: _,
            wrote: _,
            end,
        } = self.take_piece(piece, storage, now);
        match end {
            PieceEnd::GoesOn => Ok(None),
            PieceEnd::NotCached(reason) => Ok(Some(reason)),
            PieceEnd::Refused(refused, writer) => {
                drop_writer(storage, writer);
                Err(refused)
            }
        }
    }

    /// `cache_put` with a result that says what it did. A write that it would drop is returned, for
    /// the caller to drop, who may want its number first.
    pub fn take_piece(
        &mut self,
        piece: &Bytes,
        storage: &mut S,
        now: Moment,
    ) -> PieceReport<S::Miss>
        ensures policy { self.new.policy ≡ self.old.policy }
        ensures key { self.new.key ≡ self.old.key }
        ensures limit { limit_of self.new.size ≡ limit_of self.old.size }

        // What the piece did: a write began, and bytes were written.
        ensures store { S.state storage.new
            ≡ store_at S.guarantees.numbers self.old.key self.old.stage result.began result.wrote
            (S.state storage.old) }
        ensures past { S.past storage.new
            ≡ past_at S.guarantees.numbers self.old.key self.old.stage result.began result.wrote
            (S.state storage.old) (S.past storage.old) }
        ensures began { BeginsAtHead self.old.stage result.began }
        ensures ends { EndsPiece S.Miss.write result.end
            (stage_at S.guarantees.numbers (S.state storage.old) self.old.stage result.began)
            self.new.stage }

        // The put has taken in this piece too; and the end is announced for the bytes that complete a body.
        ensures taken { (pieces : List Piece) (f : Option Filled)
            → HasTaken (C.says self.old.policy) self.old pieces f
            → HasTaken (C.says self.old.policy) self.new (and_piece pieces piece.now now)
            (filled_on result.began result.wrote f) }
        ensures last { (pieces : List Piece) (f : Option Filled)
            → HasTaken (C.says self.old.policy) self.old pieces f
            → IfSome result.wrote (λ w. w.eof ≡ is_done self.new.parser) }

        // A write begins with the meta that the policy gives the response. A piece that fails has written nothing, though its write
        // may have begun.
        ensures begun { (pieces : List Piece) (f : Option Filled)
            → HasTaken (C.says self.old.policy) self.old pieces f
            → IfSome result.began (λ m. Accepted (C.says self.old.policy) (limit_of self.old.size) m
            (and_piece pieces piece.now now)) }
        ensures refused { IfRefused result.end (λ _. result.wrote ≡ None) }
        ensures whether { IfRefused result.end (λ e.
            IsBegunBefore self.old.stage e result.began ⊎ (self.old.parser ≡ HasFailed e)) }

        // A reason is returned again, and so is an error. Bytes after a whole body are ignored.
        ensures again { ReturnsAgain self.old.stage result.end }
        ensures ignored { HasWholeBody self.old.stage self.old.parser
            → result ≡ record { began = None; wrote = None; end = PieceEnd.GoesOn } }
        ensures kind { IfRefused result.end (λ e.
            MayFailPiece self.old.stage (S.state storage.old) e ⊎ (self.old.parser ≡ HasFailed e)) }
    {
        // Handed on as a value: kept in the put it would be one more field of the put's view.
        let read = self.read_piece(piece, now);
        self.store_piece(read, storage)
    }

    /// The first half of `take_piece`, which needs no storage: reads the next piece of the response, at a moment, and asks the policy
    /// once the head has come. What was read shares the piece, as `cache_put` says, and is to be stored by `store_piece` next.
    pub fn read_piece(&mut self, piece: &Bytes, now: Moment) -> ReadPiece
        ensures read { ReadsPiece (C.says self.old.policy) self.old self.new
            (record { bytes = piece.now; now = now }) result }
        ensures at { IsReadAt self.new.stage result }
        ensures ignored { HasWholeBody self.old.stage self.old.parser
            → BringsNothing self.new.stage result }
        ensures kind { IfUnread result (MayFailRead self.old.stage self.old.parser) }
    {
        match &self.stage {
            Stage::Head => self.intake.read_head(piece, now),
            Stage::Body(_) => self.intake.read_more(piece),
            Stage::Declined(_) | Stage::Over(_) => ReadPiece::Ignored,
        }
    }

    /// The second half of `take_piece`: stores what was read. Requires that this put read it by `read_piece`, with no other call of
    /// the put in between.
    pub fn store_piece(&mut self, read: ReadPiece, storage: &mut S) -> PieceReport<S::Miss>
        requires at { IsReadAt self.old.stage read }
        ensures policy { self.new.policy ≡ self.old.policy }
        ensures key { self.new.key ≡ self.old.key }
        ensures parsed { self.new.parser ≡ self.old.parser }
        ensures limit { limit_of self.new.size ≡ limit_of self.old.size }

        // What was done: a write began, and bytes were written.
        ensures store { S.state storage.new
            ≡ store_at S.guarantees.numbers self.old.key self.old.stage result.began result.wrote
            (S.state storage.old) }
        ensures past { S.past storage.new
            ≡ past_at S.guarantees.numbers self.old.key self.old.stage result.began result.wrote
            (S.state storage.old) (S.past storage.old) }
        ensures began { BeginsAtHead self.old.stage result.began }
        ensures ends { EndsPiece S.Miss.write result.end
            (stage_at S.guarantees.numbers (S.state storage.old) self.old.stage result.began)
            self.new.stage }

        // The put has taken in what it has read; and the end is announced with the bytes that complete a body.
        ensures taken { (pieces : List Piece) (f : Option Filled)
            → HasRead (C.says self.old.policy) self.old pieces f read
            → HasTaken (C.says self.old.policy) self.new pieces
            (filled_on result.began result.wrote f) }
        ensures last { (pieces : List Piece) (f : Option Filled)
            → HasRead (C.says self.old.policy) self.old pieces f read
            → IfSome result.wrote (λ w. w.eof ≡ is_done self.new.parser) }

        // A write begins with the meta that was read. A piece that fails has written nothing, though its write may have begun.
        ensures begun { (pieces : List Piece) (f : Option Filled)
            → HasRead (C.says self.old.policy) self.old pieces f read
            → IfSome result.began (λ m.
            Accepted (C.says self.old.policy) (limit_of self.old.size) m pieces) }
        ensures refused { IfRefused result.end (λ _. result.wrote ≡ None) }
        ensures whether { IfRefused result.end (λ e.
            IsBegunRead self.old.stage read e result.began) }

        ensures again { ReturnsAgain self.old.stage result.end }
        ensures ignored { BringsNothing self.old.stage read
            → result ≡ record { began = None; wrote = None; end = PieceEnd.GoesOn } }
        ensures kind { IfRefused result.end
            (MayFailOnceRead self.old.stage (S.state storage.old) read) }
    {
        match take_stage(&mut self.stage) {
            Stage::Head => {
                let taken = self.intake.store_head(read, storage);
                stand(&mut self.stage, taken)
            }
            Stage::Body(filling) => {
                let taken = self.intake.store_body(read, filling, storage);
                stand(&mut self.stage, taken)
            }
            Stage::Declined(reason) => stand(&mut self.stage, declines(reason)),
            Stage::Over(kind) => stand(&mut self.stage, refuses(Error::new(kind), None, None)),
        }
    }

    /// Ends the put after all pieces have come: the body is stored and its entry admitted, and what is evicted for it is
    /// purged, in order. If the put ends too early, or the end of its write fails, nothing is stored, and the write is
    /// dropped; if the admission fails, the body is purged again.
    pub fn finish<E: EvictionManager>(
        &mut self,
        storage: &mut S,
        eviction: &mut E,
    ) -> Result<PutOutcome>

        // In one way: for the store, its past, the manager's totals and the put; and the outcome is that of the put's bytes, all
        // pieces together.
        ensures ended { EndsAs result (λ end. EndsPut S.guarantees self.old.key self.old.parser
            (S.finishes storage.old) (E.limits eviction.old) self.old.stage end
            (S.state storage.old) (S.state storage.new) (E.tracked eviction.old)
            (E.tracked eviction.new)
            × EndsPutPast S.guarantees self.old.key self.old.stage end (S.past storage.old)
            (S.past storage.new)
            × (E.evicted eviction.new
            ≡ evicted_ended self.old.key (S.finishes storage.old) self.old.stage
            (E.tracked eviction.old) (E.evicted eviction.old) end)
            × (self.new.stage ≡ stage_ended end)
            × ((pieces : List Piece) (f : Option Filled)
            → HasTaken (C.says self.old.policy) self.old pieces f
            → TellsResult (IsResult (C.says self.old.policy) (limit_of self.old.size) pieces) f
            end)) }
        ensures limits { E.limits eviction.new ≡ E.limits eviction.old }

        // If the admission failed, the key has no body in the store after the call.
        ensures withdrawn { IsTrue S.guarantees.purges
            → OnErr result (LeavesNone (Some self.old.key) (write_in self.old.stage)
            (S.state storage.old) (S.state storage.new)) }
    {
        let PutReport { end, entry: _ } = self.end_put(storage, eviction);
        match end {
            PutEnd::NotCached(reason) => Ok(PutOutcome::NotCached(reason)),
            PutEnd::Stored(report) => Ok(PutOutcome::Stored(report)),
            PutEnd::Refused(refused) => Err(refused),
            PutEnd::Dropped(refused) => Err(refused),
            PutEnd::Withdrawn(refused) => Err(refused),
        }
    }

    /// `finish` that is told the number of the body which the new one replaces, and what the new entry weighs: the entry of that
    /// body is taken out of the manager before the new one's is admitted, so that at no moment both are tracked.
    pub fn finish_replacing<E: EvictionManager>(
        &mut self,
        storage: &mut S,
        eviction: &mut E,
        entering: Entering,
    ) -> Result<PutOutcome>

        // In one way: for the store, its past, the manager's totals and the put; and the outcome is that of the put's bytes, all
        // pieces together.
        ensures ended { EndsAs result (λ end. EndsPut S.guarantees self.old.key self.old.parser
            (weighed_each entering.weight (S.finishes storage.old))
            (E.limits eviction.old) self.old.stage end
            (S.state storage.old) (S.state storage.new)
            (tracked_before_put self.old.key entering.replaced end (E.tracked eviction.old))
            (E.tracked eviction.new)
            × EndsPutPast S.guarantees self.old.key self.old.stage end (S.past storage.old)
            (S.past storage.new)
            × (E.evicted eviction.new
            ≡ evicted_ended self.old.key (weighed_each entering.weight (S.finishes storage.old))
            self.old.stage
            (tracked_before_put self.old.key entering.replaced end (E.tracked eviction.old))
            (E.evicted eviction.old) end)
            × (self.new.stage ≡ stage_ended end)
            × ((pieces : List Piece) (f : Option Filled)
            → HasTaken (C.says self.old.policy) self.old pieces f
            → TellsResult (IsResult (C.says self.old.policy) (limit_of self.old.size) pieces) f
            end)) }
        ensures limits { E.limits eviction.new ≡ E.limits eviction.old }

        // If the admission failed, the key has no body in the store after the call.
        ensures withdrawn { IsTrue S.guarantees.purges
            → OnErr result (LeavesNone (Some self.old.key) (write_in self.old.stage)
            (S.state storage.old) (S.state storage.new)) }
    {
        let PutReport { end, entry: _ } = self.end_put_replacing(storage, eviction, entering);
        match end {
            PutEnd::NotCached(why) => Ok(PutOutcome::NotCached(why)),
            PutEnd::Stored(report) => Ok(PutOutcome::Stored(report)),
            PutEnd::Refused(error) => Err(error),
            PutEnd::Dropped(error) => Err(error),
            PutEnd::Withdrawn(error) => Err(error),
        }
    }

    /// `finish` with a result that says how far it came.
    pub fn end_put<E: EvictionManager>(&mut self, storage: &mut S, eviction: &mut E) -> PutReport
        ensures policy { self.new.policy ≡ self.old.policy }
        ensures key { self.new.key ≡ self.old.key }
        ensures ends { EndsPut S.guarantees self.old.key self.old.parser (S.finishes storage.old)
            (E.limits eviction.old) self.old.stage result.end (S.state storage.old)
            (S.state storage.new) (E.tracked eviction.old) (E.tracked eviction.new) }
        ensures past { EndsPutPast S.guarantees self.old.key self.old.stage result.end
            (S.past storage.old) (S.past storage.new) }
        ensures entry { result.entry ≡ entry_reported self.old.key self.old.stage result.end }
        ensures evicted { E.evicted eviction.new
            ≡ evicted_ended self.old.key (S.finishes storage.old) self.old.stage
            (E.tracked eviction.old) (E.evicted eviction.old) result.end }
        ensures limits { E.limits eviction.new ≡ E.limits eviction.old }
        ensures stage { self.new.stage ≡ stage_ended result.end }

        // The outcome of the put is that of its bytes, all pieces together.
        ensures tells { (pieces : List Piece) (f : Option Filled)
            → HasTaken (C.says self.old.policy) self.old pieces f
            → TellsResult (IsResult (C.says self.old.policy) (limit_of self.old.size) pieces) f
            result.end }
        ensures withdrawn { IsTrue S.guarantees.purges
            → IfWithdrawn result.end (HasNoBody (S.state storage.new) self.old.key) }
    {
        let entering = Entering {
            replaced: None,
            weight: None,
        };
        self.end_put_replacing(storage, eviction, entering)
    }

    /// `end_put` that is told how the new entry comes into the manager, as `finish_replacing`.
    pub fn end_put_replacing<E: EvictionManager>(
        &mut self,
        storage: &mut S,
        eviction: &mut E,
        entering: Entering,
    ) -> PutReport
        ensures policy { self.new.policy ≡ self.old.policy }
        ensures key { self.new.key ≡ self.old.key }
        ensures ends { EndsPut S.guarantees self.old.key self.old.parser
            (weighed_each entering.weight (S.finishes storage.old))
            (E.limits eviction.old) self.old.stage result.end (S.state storage.old)
            (S.state storage.new)
            (tracked_before_put self.old.key entering.replaced result.end (E.tracked eviction.old))
            (E.tracked eviction.new) }
        ensures past { EndsPutPast S.guarantees self.old.key self.old.stage result.end
            (S.past storage.old) (S.past storage.new) }
        ensures entry { result.entry ≡ entry_reported self.old.key self.old.stage result.end }
        ensures evicted { E.evicted eviction.new
            ≡ evicted_ended self.old.key (weighed_each entering.weight (S.finishes storage.old))
            self.old.stage
            (tracked_before_put self.old.key entering.replaced result.end (E.tracked eviction.old))
            (E.evicted eviction.old) result.end }
        ensures limits { E.limits eviction.new ≡ E.limits eviction.old }
        ensures stage { self.new.stage ≡ stage_ended result.end }

        // The outcome of the put is that of its bytes, all pieces together.
        ensures tells { (pieces : List Piece) (f : Option Filled)
            → HasTaken (C.says self.old.policy) self.old pieces f
            → TellsResult (IsResult (C.says self.old.policy) (limit_of self.old.size) pieces) f
            result.end }
        ensures withdrawn { IsTrue S.guarantees.purges
            → IfWithdrawn result.end (HasNoBody (S.state storage.new) self.old.key) }
    {
        match take_stage(&mut self.stage) {
            Stage::Head => leave(
                &mut self.stage,
                PutEnd::Refused(Error::new(INCOMPLETE_BODY)),
                None,
            ),
            Stage::Body(filling) => {
                let (end, entry) = self.intake.end_body(storage, eviction, filling, entering);
                leave(&mut self.stage, end, entry)
            }
            Stage::Declined(reason) => leave(&mut self.stage, PutEnd::NotCached(reason), None),
            Stage::Over(kind) => leave(&mut self.stage, PutEnd::Refused(Error::new(kind)), None),
        }
    }

    /// Ends the put, and drops a write that is still in flight.
    pub fn end(self, storage: &mut S)
        ensures store { S.state storage.new
            ≡ dropped_by (write_in self.stage) (S.state storage.old) }
        ensures past { S.past storage.new
            ≡ dropped_past (write_in self.stage) (S.past storage.old) }
    {
        let writer = self.into_writer();
        drop_writer(storage, writer);
    }

    /// Ends the put, and returns the write that is still in flight, if there is one. The caller drops it.
    pub fn into_writer(self) -> Option<S::Miss>
        ensures { option_map S.Miss.write result ≡ write_in self.stage }
    {
        let CachePutCtx { intake: _, stage } = self;
        match stage {
            Stage::Body(filling) => {
                let Filling {
                    writer,
                    fresh_until: _,
                } = filling;
                Some(writer)
            }
            Stage::Head | Stage::Declined(_) | Stage::Over(_) => None,
        }
    }
}
