//! What a decision is told by: what it goes by besides heads, and its numbers.
ghost use Rattle.std.specs.Prelude.{◌≡◌};
ghost use Rattle.pcache_c.specs.Codes.{OnGood, moment_at};
ghost use Rattle.pcache_c.specs.Decisions.{GivesKept, answer_number, body_of, decision_numbers, meta_kept, numbers, outcome_numbers, outcome_with, refusal_number, reuse_number, rules_of, seconds_after, stale_numbers, storing_number, terms_at};

use crate::codes::OK;
use crate::handle::PcacheHandle;
use crate::metas::{PcacheMoment, moment_of};
use crate::object::Object;
use pcache_base::moment::Moment;
use pcache_decisions::requests::{Answer, Decision, Reuse};
use pcache_decisions::responses::{Kept, Outcome, Stale};
use pcache_http::rules::{CacheKind, Heuristic, Repeats, Rules};
use pcache_http::storing::{NotStoredFor, Storing};
use pcache_meta::meta::CacheMeta;
use pcache_validation::updating::StoredBody;
use std::alloc::Global;
use std::time::Duration;

/// What a decision goes by besides heads.
#[repr(C)]
#[derive(Clone, Copy)]
pub struct PcacheTerms {
    /// The moment of the decision: of a response, when it was received.
    pub at: PcacheMoment,
    /// When the request was sent that the stored response answered, or the last one that validated it.
    pub requested: PcacheMoment,
    /// Whether the cache is that of one user, and not shared.
    pub is_private: u32,
    /// Whether a response is stale that says its lifetime twice; else the first one counts.
    pub repeated_is_stale: u32,
    /// The most seconds that a lifetime is guessed to be, or 0 for no guess.
    pub most_guessed_secs: u32,
    /// Whether the stored response is the only one that could be chosen for the request.
    pub is_alone: u32,
    /// Whether its body was processed before it was stored, as decoded.
    pub is_processed: u32,
}

/// The same, as the decisions take it.
#[derive(Clone, Copy)]
pub(crate) struct Terms {
    pub(crate) at: Moment,
    pub(crate) requested: Moment,
    pub(crate) rules: Rules,
    pub(crate) alone: bool,
    pub(crate) body: StoredBody,
}

fn rules_of(said: &PcacheTerms) -> Rules
    ensures { result ≡ rules_of said.now }
{
    let kind = if said.is_private == 0 {
        CacheKind::Shared
    } else {
        CacheKind::Private
    };
    let repeats = if said.repeated_is_stale == 0 {
        Repeats::First
    } else {
        Repeats::Stale
    };
    let heuristic = if said.most_guessed_secs == 0 {
        Heuristic::Never
    } else {
        Heuristic::Tenth(said.most_guessed_secs)
    };
    Rules {
        kind,
        repeats,
        heuristic,
    }
}

fn body_of(said: &PcacheTerms) -> StoredBody
    ensures { result ≡ body_of said.now }
{
    if said.is_processed == 0 {
        StoredBody::AsReceived
    } else {
        StoredBody::Processed
    }
}

/// The terms that are said; `None` if one of their moments is none.
pub(crate) fn terms_of(said: &PcacheTerms) -> Option<Terms>
    ensures { result ≡ terms_at said.now }
{
    let at = moment_of(said.at.secs, said.at.nanos)?;
    let requested = moment_of(said.requested.secs, said.requested.nanos)?;
    Some(Terms {
        at,
        requested,
        rules: rules_of(said),
        alone: said.is_alone != 0,
        body: body_of(said),
    })
}

/// What becomes of a request. A number counts only where it is said to.
#[repr(C)]
#[derive(Clone, Copy)]
pub struct PcacheDecision {
    /// 0: it is answered with what is stored. 1: it is forwarded with the validators of what is stored.
    /// 2: it is forwarded as it is. 3: it is answered with 504.
    pub does: u32,
    /// At 0, why: 0 it is fresh, 1 it may be stale while it is validated, 2 the client accepts it stale.
    pub reuse: u32,
    /// At 0, what the client gets of it: 0 the whole, 1 the range that it asks for, 2 a 304.
    pub answer: u32,
    /// At 0, the Age to send.
    pub age: u32,
}

fn reuse_number(reuse: Reuse) -> u32
    ensures { result ≡ reuse_number reuse }
{
    match reuse {
        Reuse::Fresh => 0,
        Reuse::WhileRevalidating => 1,
        Reuse::AcceptedStale => 2,
    }
}

fn answer_number(answer: Answer) -> u32
    ensures { result ≡ answer_number answer }
{
    match answer {
        Answer::Full => 0,
        Answer::Range => 1,
        Answer::NotModified => 2,
    }
}

fn decision_of(does: u32) -> PcacheDecision
    ensures { result ≡ numbers does 0 0 0 }
{
    PcacheDecision {
        does,
        reuse: 0,
        answer: 0,
        age: 0,
    }
}

/// A decision in numbers.
pub(crate) fn told(decision: &Decision<'_>) -> PcacheDecision
    ensures { result ≡ decision_numbers decision.now }
{
    match decision {
        Decision::Serve(served) => PcacheDecision {
            does: 0,
            reuse: reuse_number(served.reuse),
            answer: answer_number(served.answer),
            age: served.age,
        },
        Decision::Validate(_) => decision_of(1),
        Decision::Fetch => decision_of(2),
        Decision::OnlyIfCached504 => decision_of(3),
    }
}

/// What becomes of a response. A number counts only where it is said to.
#[repr(C)]
#[derive(Clone, Copy)]
pub struct PcacheOutcome {
    /// 0: it is passed on and stored, with the meta that was handed over. 1: it is a 304, and the stored
    /// response with this meta answers the request. 2: the request is sent again, without conditions. 3: it
    /// is an error, and the stored response answers in its place. 4: it answers a HEAD and is passed on, and
    /// the meta is now that of the stored response. 5: the same, and the stored response is stale from now
    /// on. 6: it is passed on, and what is stored for its target is purged, with what it takes away besides.
    /// 7: it is passed on and not stored.
    pub does: u32,
    /// At 7, why it is not stored; at 1, why the meta is not stored, or 0 if it is.
    pub reason: u32,
    /// At 1 and 3, what the client gets: 0 the whole, 1 the range that it asks for, 2 a 304.
    pub answer: u32,
    /// At 3, the Age to send.
    pub age: u32,
}

fn refusal_number(reason: NotStoredFor) -> u32
    ensures { result ≡ refusal_number reason }
{
    match reason {
        NotStoredFor::MethodNotUnderstood => 1,
        NotStoredFor::StatusNotFinal => 2,
        NotStoredFor::StatusNotUnderstood => 3,
        NotStoredFor::NoStoreAsked => 4,
        NotStoredFor::NoStoreSaid => 5,
        NotStoredFor::PrivateSaid => 6,
        NotStoredFor::Authorized => 7,
        NotStoredFor::NothingAllowsIt => 8,
    }
}

fn storing_number(storing: Storing) -> u32
    ensures { result ≡ storing_number storing }
{
    match storing {
        Storing::Stored => 0,
        Storing::NotStored(reason) => refusal_number(reason),
    }
}

// An outcome with these numbers.
fn outcome_of(does: u32, reason: u32, answer: u32, age: u32) -> PcacheOutcome
    ensures { result ≡ outcome_with does reason answer age }
{
    PcacheOutcome {
        does,
        reason,
        answer,
        age,
    }
}

/// An outcome in numbers.
pub(crate) fn outcome_told(outcome: &Outcome) -> PcacheOutcome
    ensures { result ≡ outcome_numbers outcome.now }
{
    match outcome {
        Outcome::Store(_) => outcome_of(0, 0, 0, 0),
        Outcome::Freshen(freshened) => {
            let reason = storing_number(freshened.storing);
            outcome_of(1, reason, answer_number(freshened.answer), 0)
        }
        Outcome::FetchAgain => outcome_of(2, 0, 0, 0),
        Outcome::ServeStale(stale) => stale_told(stale),
        Outcome::Update(_) => outcome_of(4, 0, 0, 0),
        Outcome::MarkStale => outcome_of(5, 0, 0, 0),
        Outcome::Invalidate => outcome_of(6, 0, 0, 0),
        Outcome::PassOn(reason) => outcome_of(7, refusal_number(*reason), 0, 0),
    }
}

/// The numbers of a stored response that answers in place of an error.
pub(crate) fn stale_told(stale: &Stale) -> PcacheOutcome
    ensures { result ≡ stale_numbers stale.now }
{
    outcome_of(3, 0, answer_number(stale.answer), stale.age)
}

// No constant names the largest moment; the last whole second serves as never.
const FOREVER_SECS: u64 = 18_446_744_073_709_551_615;

// Until when a response is fresh for so many seconds from a moment on.
fn fresh_until(seconds: u32, now: Moment) -> Moment
    ensures { result ≡ seconds_after now seconds }
{
    let fresh = Duration::from_secs(u64::from(seconds));
    now.checked_add(fresh)
        .unwrap_or(Moment::from_secs(FOREVER_SECS))
}

/// The meta of what is stored from a moment on. Its windows are none: by Cache-Control it is decided
/// anew at each request.
fn meta_kept(kept: Kept, now: Moment) -> CacheMeta
    ensures { result ≡ meta_kept kept now }
{
    let until = fresh_until(kept.lifetime.seconds(), now);
    CacheMeta::new(until, now, 0, 0, kept.head)
}

/// Puts the meta of an outcome that has one into its handle.
pub(crate) fn give(alloc: Global, outcome: Outcome, now: Moment, meta: &mut PcacheHandle) -> u32
    ensures { GivesKept outcome now meta.old meta.new result }
{
    match outcome {
        Outcome::Store(kept) | Outcome::Update(kept) => {
            meta.fill(alloc, Object::Meta(meta_kept(kept, now)))
        }
        Outcome::Freshen(freshened) => {
            meta.fill(alloc, Object::Meta(meta_kept(freshened.kept, now)))
        }
        _ => OK,
    }
}
