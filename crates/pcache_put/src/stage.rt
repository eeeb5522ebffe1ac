//! The stage of a put.
ghost use Rattle.std.specs.Prelude.{◌≡◌, None, Some};
ghost use Rattle.pcache_base.specs.declared.error.ErrorType.TheVariants.{InternalError};
ghost use Rattle.pcache_put.specs.Endings.{stage_left};

use crate::boxed::Boxed;
use crate::report::{PieceEnd, PieceReport, PutEnd, Written};
use pcache_base::error::{Error, ErrorType};
use pcache_base::moment::Moment;
use pcache_base::reason::NoCacheReason;
use pcache_meta::meta::CacheMeta;
use std::mem;

// A write in flight.
pub(crate) struct Filling<M> {
    pub(crate) writer: M,
    pub(crate) fresh_until: Moment,
}

// What a put does next.
// One value, so that a put never has a reason and a write together.
pub(crate) enum Stage<M> {
    // The head has not ended.
    Head,
    // The body is written.
    Body(Filling<M>),
    // Nothing is stored, for this reason.
    Declined(NoCacheReason),
    // Every call fails with this kind.
    Over(ErrorType),
}

// The kind of the stage that replaces the real one while a call works with it, and after a body was stored, when
// another call is a mistake of the caller.
pub(crate) const SPENT: ErrorType = ErrorType::InternalError;

// Takes the stage out.
pub(crate) fn take_stage<M>(place: &mut Stage<M>) -> Stage<M>
    ensures taken { result ≡ place.old }
    ensures place { place.new ≡ Stage.Over InternalError }
{
    mem::replace(place, Stage::Over(SPENT))
}

// Puts a stage back after the old one was taken out.
pub(crate) fn put_stage<M>(place: &mut Stage<M>, stage: Stage<M>)
    requires { place.old ≡ Stage.Over InternalError }
    ensures { place.new ≡ stage }
{
    let before = mem::replace(place, stage);
    let Stage::Over(_) = before else {
        unreachable!()
    };
}

// The stage of a put after a piece, and the report on the piece.
pub(crate) struct Taken<M> {
    pub(crate) stage: Stage<M>,
    pub(crate) report: PieceReport<M>,
}

// The put goes on.
pub(crate) fn goes_on<M>(
    stage: Stage<M>,
    began: Option<Boxed<CacheMeta>>,
    wrote: Option<Written>,
) -> Taken<M>
    ensures { result
        ≡ record {
          stage = stage;
          report = record { began = began; wrote = wrote; end = PieceEnd.GoesOn };
        } }
{
    Taken {
        stage,
        report: PieceReport {
            began,
            wrote,
            end: PieceEnd::GoesOn,
        },
    }
}

// Nothing is stored.
pub(crate) fn declines<M>(reason: NoCacheReason) -> Taken<M>
    ensures { result
        ≡ record {
          stage = Stage.Declined reason;
          report = record { began = None; wrote = None; end = PieceEnd.NotCached reason };
        } }
{
    Taken {
        stage: Stage::Declined(reason),
        report: PieceReport {
            began: None,
            wrote: None,
            end: PieceEnd::NotCached(reason),
        },
    }
}

// This call and every later one fail.
pub(crate) fn refuses<M>(
    refused: Error,
    began: Option<Boxed<CacheMeta>>,
    writer: Option<M>,
) -> Taken<M>
    ensures { result
        ≡ record {
          stage = Stage.Over refused;
          report = record {
            began = began;
            wrote = None;
            end = PieceEnd.Refused refused writer;
          };
        } }
{
    Taken {
        stage: Stage::Over(refused.etype()),
        report: PieceReport {
            began,
            wrote: None,
            end: PieceEnd::Refused(refused, writer),
        },
    }
}

// The stage of a put after it ended so. After a body was stored, another call is a mistake of the
// caller: it fails, so that no caller has to prove that it makes none.
pub(crate) fn stage_after<M>(end: &PutEnd) -> Stage<M>
    ensures { result ≡ stage_left end.now }
{
    match end {
        PutEnd::NotCached(reason) => Stage::Declined(*reason),
        PutEnd::Stored(_) => Stage::Over(SPENT),
        PutEnd::Refused(refused) => Stage::Over(refused.etype()),
        PutEnd::Dropped(refused) => Stage::Over(refused.etype()),
        PutEnd::Withdrawn(refused) => Stage::Over(refused.etype()),
    }
}
