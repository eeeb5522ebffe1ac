//! What becomes of a request (RFC 9111 section 4).

ghost use Rattle.std.specs.Prelude.{◌≡◌, ◌↔◌, IsTrue, IfSome};
ghost use Rattle.std.specs.Option.{option_copied};
ghost use Rattle.pcache_validation.specs.Unsafe.{IsSafe};
ghost use Rattle.pcache_decisions.specs.Requests.{ByNothing, ByStored, DecidesByNothing, DecidesByStored, GivesAnswer, IsAskedWith, IsNotModified};
ghost use Rattle.pcache_decisions.specs.Stored.{IsMissing, MayAnswer};

use crate::stored::{StoredResponse, age_at, lifetime_in, may_answer};
use http_header::HeaderValue;
use pcache_base::moment::Moment;
use pcache_http::control::{RequestControl, ResponseControl};
use pcache_http::rules::Rules;
use pcache_http::serving::{Missing, Serving, serve_missing, serve_stored};
use pcache_meta::header::{RequestHeader, ResponseHeader};
use pcache_validation::asking::{if_modified_since, if_none_match};
use pcache_validation::conditions::{Answered, answer_from, range_from};
use pcache_validation::unsafe_methods::is_safe;

/// Why a stored response is served as it is.
#[derive(Clone, Copy, Debug, PartialEq, Eq)]
pub enum Reuse {
    /// It is fresh.
    Fresh,
    /// It is stale, and is to be revalidated meanwhile (RFC 5861 section 3).
    WhileRevalidating,
    /// It is stale, and the client accepts that (RFC 9111 section 5.2.1.2).
    AcceptedStale,
}

/// What the client gets of a stored response.
#[derive(Clone, Copy, Debug, PartialEq, Eq)]
pub enum Answer {
    /// A 304 (Not Modified) for its own condition (RFC 9111 section 4.3.2), with the fields that
    /// `pcache_validation::not_modified` says.
    NotModified,
    /// The range that it asks for, if that can be satisfied (RFC 9110 section 14.2).
    Range,
    /// The stored response whole.
    Full,
}

/// How a stored response is served.
#[derive(Clone, Copy, Debug, PartialEq, Eq)]
pub struct Served {
    /// Why it may be; `WhileRevalidating` asks for a validation too.
    pub reuse: Reuse,
    /// The Age to send, in seconds (RFC 9111 section 5.1).
    pub age: u32,
    /// What the client gets of it.
    pub answer: Answer,
}

/// With which conditions a stored response is validated (RFC 9111 section 4.3.1). They stand in place of
/// the client's own conditions, which the validated response answers afterwards. Without either the
/// request is sent without a condition.
#[derive(Clone, Copy)]
pub struct Validation<'a> {
    /// The value of If-None-Match, if it is sent.
    pub if_none_match: Option<&'a HeaderValue>,
    /// The value of If-Modified-Since, if it is sent.
    pub if_modified_since: Option<&'a HeaderValue>,
}

/// What becomes of a request.
#[derive(Clone, Copy)]
pub enum Decision<'a> {
    /// It is answered with the stored response.
    Serve(Served),
    /// It is forwarded with these conditions.
    Validate(Validation<'a>),
    /// It is forwarded as it is.
    Fetch,
    /// It is answered with 504 (Gateway Timeout): the client wants only a stored response, and none may
    /// be served (RFC 9111 section 5.2.1.7).
    OnlyIfCached504,
}

// Whether the client's own condition is false for a response that was received at this moment.
fn is_not_modified(request: &RequestHeader, head: &ResponseHeader, received: Moment) -> bool
    ensures { IsTrue result ↔ IsNotModified request.now head.now received }
{
    match answer_from(request, head, received) {
        Answered::NotModified => true,
        Answered::Full => false,
    }
}

// What the client gets of a response that was received at this moment.
pub(crate) fn answer_of(request: &RequestHeader, head: &ResponseHeader, received: Moment) -> Answer
    ensures { GivesAnswer request.now head.now received result }
{
    if is_not_modified(request, head, received) {
        Answer::NotModified
    } else if range_from(request, &head.headers) {
        Answer::Range
    } else {
        Answer::Full
    }
}

// With which conditions a stored response is validated.
fn validation_of<'a>(stored: &StoredResponse<'a>) -> Validation<'a>
    ensures { IsAskedWith stored.now result }
{
    Validation {
        if_none_match: if_none_match(&stored.head.headers),
        if_modified_since: if_modified_since(&stored.head.headers),
    }
}

// How a stored response is served that may be.
fn serve_as(request: &RequestHeader, stored: &StoredResponse<'_>, reuse: Reuse, age: u32) -> Served
    ensures reuse { result.reuse ≡ reuse }
    ensures age { result.age ≡ age }
    ensures answer { GivesAnswer request.now stored.now.head.now stored.now.received result.answer }
{
    Served {
        reuse,
        age,
        answer: answer_of(request, stored.head, stored.received),
    }
}

// What is decided by a stored response that may answer, when its Cache-Control and that of the request
// say this.
fn by_stored<'a>(
    rules: &Rules,
    request: &RequestHeader,
    asked: &RequestControl,
    said: &ResponseControl,
    stored: &StoredResponse<'a>,
    now: Moment,
) -> Decision<'a>
    ensures { ByStored rules.now request.now asked.now said.now stored.now now result }
{
    let age = age_at(stored, now);
    let lifetime = lifetime_in(rules, said, stored);
    match serve_stored(rules, said, asked, lifetime, age) {
        Serving::Fresh => Decision::Serve(serve_as(request, stored, Reuse::Fresh, age)),
        Serving::StaleWhileRevalidating => {
            Decision::Serve(serve_as(request, stored, Reuse::WhileRevalidating, age))
        }
        Serving::StaleAccepted => {
            Decision::Serve(serve_as(request, stored, Reuse::AcceptedStale, age))
        }
        Serving::Validate => Decision::Validate(validation_of(stored)),
        Serving::GatewayTimeout => Decision::OnlyIfCached504,
    }
}

// What is decided by a stored response that may answer.
fn decide_by_stored<'a>(
    rules: &Rules,
    request: &RequestHeader,
    stored: &StoredResponse<'a>,
    now: Moment,
) -> Decision<'a>
    ensures { DecidesByStored rules.now request.now stored.now now result }
{
    let asked = RequestControl::of(&request.headers);
    let said = ResponseControl::of(&stored.head.headers);
    by_stored(rules, request, &asked, &said, stored, now)
}

// What is decided when nothing is stored that may answer.
fn decide_by_nothing<'a>(request: &RequestHeader) -> Decision<'a>
    ensures { DecidesByNothing request.now result }
{
    let asked = RequestControl::of(&request.headers);
    match serve_missing(&asked) {
        Missing::Fetch => Decision::Fetch,
        Missing::NotCached => Decision::OnlyIfCached504,
    }
}

/// What becomes of a request at a moment, for which the cache may have stored a response.
///
/// One with an unsafe method is forwarded. A GET or HEAD is answered with the stored response if that
/// may be served as it is, and else forwarded with its validators. Without a stored response that may
/// answer, the request is forwarded as it is. No request for memory is made.
pub fn decide_request<'a>(
    rules: &Rules,
    request: &RequestHeader,
    stored: Option<&StoredResponse<'a>>,
    now: Moment,
) -> Decision<'a>
    ensures written_through { ¬ (IsSafe request.now.method) → result ≡ Decision.Fetch }
    ensures stored { IfSome (option_copied stored.entry) (λ s. MayAnswer request.now s
        → DecidesByStored rules.now request.now s now result) }
    ensures missing { IsSafe request.now.method
        → IsMissing request.now (option_copied stored.entry)
        → DecidesByNothing request.now result }
{
    if !is_safe(&request.method) {
        return Decision::Fetch;
    }
    let Some(stored) = stored else {
        return decide_by_nothing(request);
    };
    if may_answer(request, stored) {
        decide_by_stored(rules, request, stored, now)
    } else {
        decide_by_nothing(request)
    }
}
