//! What becomes of a response (RFC 9111 sections 3, 4.3.3, 4.3.4, 4.3.5 and 4.4).

ghost use Rattle.std.specs.Prelude.{◌≡◌, ◌⊎◌, ◌↔◌, IsTrue, IfOk, IfErr, IfSome, None, Some, false, true};
ghost use Rattle.std.specs.Option.{option_copied};
ghost use Rattle.pcache_base.specs.declared.error.ErrorType.TheVariants.{InternalError, OutOfMemory};
ghost use Rattle.pcache_http.specs.Storing.{as_get};
ghost use Rattle.pcache_validation.specs.Answers.{IsError, IsUnchanged};
ghost use Rattle.pcache_validation.specs.Unsafe.{IsSafe};
ghost use Rattle.pcache_decisions.specs.Responses.{AreFreshened, By304, ByError, ByStoring, ByUnsafe, ByUpdate, DecidesByHead, DecidesByValidated, DecidesStoring, FailsToUpdate, FailsWith, FitsStored, FollowsError, IsFreshenedTo, IsHead, IsIdentified, IsKeptOf, IsLifetimeOf, IsServedStale, IsUpdatedBy, StoresBy, without_old_age};

use crate::requests::{Answer, answer_of};
use crate::stored::{StoredResponse, age_at, lifetime_in};
use http::{Method, StatusCode};
use http_header::{AGE, HeaderMap};
use pcache_base::error::Result;
use pcache_base::moment::Moment;
use pcache_http::control::{RequestControl, ResponseControl};
use pcache_http::lifetime::{Lifetime, lifetime_of};
use pcache_http::rules::{CacheKind, Rules};
use pcache_http::serving::may_follow_error;
use pcache_http::stored_fields::stored_fields;
use pcache_http::storing::{NotStoredFor, Storing, may_store, may_store_as_get};
use pcache_meta::header::{RequestHeader, ResponseHeader};
use pcache_validation::answers::is_error;
use pcache_validation::fields::has;
use pcache_validation::freshening::identifies;
use pcache_validation::heads::{self, after_head_of};
use pcache_validation::unsafe_methods::{invalidates, is_safe};
use pcache_validation::updating::{StoredBody, updated};
use std::alloc::AllocError;

/// The stored response with whose validators a request was sent.
#[derive(Clone, Copy)]
pub struct Validating<'a> {
    /// The stored response.
    pub stored: StoredResponse<'a>,
    /// Whether it is the only one that could have been chosen for the request (RFC 9111 section
    /// 4.3.4).
    pub alone: bool,
    /// How its body is stored.
    pub body: StoredBody,
}

/// What is stored of a response.
#[derive(Drop)]
pub struct Kept {
    /// Its head, with the fields that are stored.
    pub head: ResponseHeader,
    /// For how long it is fresh.
    pub lifetime: Lifetime,
}

/// A stored response that a 304 updates.
#[derive(Drop)]
pub struct Freshened {
    /// The updated response, which answers the request.
    pub kept: Kept,
    /// Whether it is stored in place of the stored response. If not, it answers this request alone, and
    /// what is stored stays as it was.
    pub storing: Storing,
    /// What the client gets of it.
    pub answer: Answer,
}

/// How a stored response is served in place of an error.
#[derive(Clone, Copy, Debug, PartialEq, Eq)]
pub struct Stale {
    /// The Age to send, in seconds (RFC 9111 section 5.1).
    pub age: u32,
    /// What the client gets of it.
    pub answer: Answer,
}

/// What becomes of a response.
#[derive(Drop)]
pub enum Outcome {
    /// It is passed on and stored, in place of the stored response if there is one.
    Store(Kept),
    /// It is a 304 that updates the stored response.
    Freshen(Freshened),
    /// It is a 304 to the conditions of the cache that does not fit the stored response. The request
    /// is to be sent again, without a condition.
    FetchAgain,
    /// It is an error, and the stored response answers the request in its place.
    ServeStale(Stale),
    /// It answers a HEAD and is passed on. It updates the stored response, whose head is now this one.
    Update(Kept),
    /// It answers a HEAD and is passed on. The stored response is another one, and is stale from now
    /// on: it may be removed, but not be served without validation.
    MarkStale,
    /// It is passed on, and what is stored for the target URI is invalidated, with what
    /// `pcache_validation::unsafe_methods::taken_away` says (RFC 9111 section 4.4).
    Invalidate,
    /// It is passed on and not stored, for this reason.
    PassOn(NotStoredFor),
}

// For how long a head is fresh that was received at a moment.
fn lifetime_as_stored(rules: &Rules, head: &ResponseHeader, received: Moment) -> Lifetime
    ensures { IsLifetimeOf rules.now head.now received result }
{
    let said = ResponseControl::of(&head.headers);
    lifetime_of(rules, &said, head, received)
}

// A head that is stored from this moment on.
fn kept_from(rules: &Rules, head: ResponseHeader, received: Moment) -> Kept
    ensures head { result.head ≡ head }
    ensures lifetime { IsLifetimeOf rules.now result.head received result.lifetime }
{
    let lifetime = lifetime_as_stored(rules, &head, received);
    Kept { head, lifetime }
}

// What is stored of a response.
fn kept_of(rules: &Rules, response: &ResponseHeader, received: Moment) -> Result<Kept, AllocError>
    ensures ok { IfOk result (IsKeptOf rules.now response.now received) }
{
    let headers = stored_fields(rules.kind, &response.headers)?;
    let head = ResponseHeader {
        version: response.version,
        status: response.status,
        headers,
    };
    Ok(kept_from(rules, head, received))
}

// The updated fields, without a stored Age if the newer response brings none.
fn without_old_age(brought: &HeaderMap, updated: HeaderMap) -> HeaderMap
    ensures { result ≡ without_old_age brought.now updated }
{
    if has(brought, &AGE) {
        return updated;
    }
    let mut headers = updated;
    // The age counts from the 304 on (RFC 9111 section 4.2.3), and the old Age would make what was
    // freshened look older than it is.
    let _removed = headers.remove("age");
    headers
}

// The stored fields as a 304 updates them.
fn fresh_fields(kind: CacheKind, validated: &Validating<'_>, new: &HeaderMap) -> Result<HeaderMap>
    ensures ok { IfOk result (AreFreshened kind validated.now new.now) }
    ensures kind { IfErr result (FailsToUpdate kind validated.now new.now) }
{
    let brought = stored_fields(kind, new)?;
    let updated = updated(&validated.stored.head.headers, &brought, validated.body)?;
    Ok(without_old_age(&brought, updated))
}

// The stored response as a 304 updates it.
fn updated_by(
    rules: &Rules,
    validated: &Validating<'_>,
    response: &ResponseHeader,
    received: Moment,
) -> Result<Kept>
    ensures ok { IfOk result (IsUpdatedBy rules.now validated.now response.now received) }
    ensures kind { IfErr result
        (FailsToUpdate rules.now.kind validated.now response.now.headers) }
{
    let headers = fresh_fields(rules.kind, validated, &response.headers)?;
    let head = ResponseHeader {
        version: validated.stored.head.version,
        status: validated.stored.head.status,
        headers,
    };
    Ok(kept_from(rules, head, received))
}

// Whether the head of a stored response may be stored for a request, as what is stored answers a GET.
fn stores(kind: CacheKind, request: &RequestHeader, head: &ResponseHeader) -> Storing
    ensures { StoresBy kind (as_get request.now) head.now result }
{
    let asked = RequestControl::of(&request.headers);
    let said = ResponseControl::of(&head.headers);
    may_store_as_get(kind, request, &asked, head, &said)
}

// The updated response, and what becomes of it.
fn freshened_to(
    rules: &Rules,
    request: &RequestHeader,
    validated: &Validating<'_>,
    response: &ResponseHeader,
    received: Moment,
) -> Result<Freshened>
    ensures ok { IfOk result
        (IsFreshenedTo rules.now request.now validated.now response.now received) }
    ensures kind { IfErr result
        (FailsToUpdate rules.now.kind validated.now response.now.headers) }
{
    let kept = updated_by(rules, validated, response, received)?;
    // By the same gates as a full response: with `no-store` in the 304 or the request, what it
    // updates answers this request alone.
    let storing = stores(rules.kind, request, &kept.head);
    let answer = answer_of(request, &kept.head, received);
    Ok(Freshened {
        kept,
        storing,
        answer,
    })
}

// What becomes of a response to an unsafe method.
fn by_unsafe(request: &RequestHeader, response: &ResponseHeader) -> Outcome
    ensures { ByUnsafe request.now response.now result }
{
    if invalidates(&request.method, response.status) {
        Outcome::Invalidate
    } else {
        Outcome::PassOn(NotStoredFor::MethodNotUnderstood)
    }
}

// What becomes of a 304 to the conditions of the cache.
fn by_304(
    rules: &Rules,
    request: &RequestHeader,
    validated: &Validating<'_>,
    response: &ResponseHeader,
    received: Moment,
) -> Result<Outcome>
    ensures ok { IfOk result
        (By304 rules.now request.now validated.now response.now received) }
    ensures kind { IfErr result
        (FailsToUpdate rules.now.kind validated.now response.now.headers) }
    ensures identified { IfErr result (λ _. IsIdentified validated.now response.now) }
{
    let stored = &validated.stored.head.headers;
    if !identifies(&response.headers, stored, validated.alone) {
        // Its client asked without a condition, so that the 304 cannot be passed on (section
        // 4.3.4).
        return Ok(Outcome::FetchAgain);
    }
    let freshened = freshened_to(rules, request, validated, response, received)?;
    Ok(Outcome::Freshen(freshened))
}

// What becomes of a response when its Cache-Control and that of the request say this.
fn by_storing(
    rules: &Rules,
    request: &RequestHeader,
    asked: &RequestControl,
    response: &ResponseHeader,
    said: &ResponseControl,
    received: Moment,
) -> Result<Outcome, AllocError>
    ensures ok { IfOk result
        (ByStoring rules.now request.now asked.now response.now said.now received) }
{
    match may_store(rules.kind, request, asked, response, said) {
        Storing::Stored => Ok(Outcome::Store(kept_of(rules, response, received)?)),
        Storing::NotStored(reason) => Ok(Outcome::PassOn(reason)),
    }
}

// What becomes of a response that is stored or passed on.
fn decide_storing(
    rules: &Rules,
    request: &RequestHeader,
    response: &ResponseHeader,
    received: Moment,
) -> Result<Outcome, AllocError>
    ensures ok { IfOk result (DecidesStoring rules.now request.now response.now received) }
{
    let asked = RequestControl::of(&request.headers);
    let said = ResponseControl::of(&response.headers);
    Ok(by_storing(rules, request, &asked, response, &said, received)?)
}

// Whether the stored response may be served in place of an error.
fn follows_error(
    rules: &Rules,
    request: &RequestHeader,
    stored: &StoredResponse<'_>,
    now: Moment,
) -> bool
    ensures { FollowsError rules.now request.now stored.now now result }
{
    let asked = RequestControl::of(&request.headers);
    let said = ResponseControl::of(&stored.head.headers);
    let lifetime = lifetime_in(rules, &said, stored);
    may_follow_error(rules, &said, &asked, lifetime, age_at(stored, now))
}

fn stale_of(request: &RequestHeader, stored: &StoredResponse<'_>, now: Moment) -> Stale
    ensures { IsServedStale request.now stored.now now result }
{
    Stale {
        age: age_at(stored, now),
        answer: answer_of(request, stored.head, stored.received),
    }
}

/// How a stored response answers a request whose validation failed at this moment, as when no answer
/// came; `None` if it may not, so that the request is answered with an error (RFC 9111 section 4.3.3,
/// RFC 5861 section 4).
pub fn after_failure(
    rules: &Rules,
    request: &RequestHeader,
    stored: &StoredResponse<'_>,
    now: Moment,
) -> Option<Stale>
    ensures served { IfSome result (IsServedStale request.now stored.now now) }
    ensures may { IfSome result
        (λ _. FollowsError rules.now request.now stored.now now true) }
    ensures none { result ≡ None → FollowsError rules.now request.now stored.now now false }
{
    if follows_error(rules, request, stored, now) {
        Some(stale_of(request, stored, now))
    } else {
        None
    }
}

// What becomes of an error at validation.
fn by_error(
    rules: &Rules,
    request: &RequestHeader,
    stored: &StoredResponse<'_>,
    response: &ResponseHeader,
    received: Moment,
) -> Result<Outcome, AllocError>
    ensures ok { IfOk result (ByError rules.now request.now stored.now response.now received) }
{
    if follows_error(rules, request, stored, received) {
        return Ok(Outcome::ServeStale(stale_of(request, stored, received)));
    }
    decide_storing(rules, request, response, received)
}

fn is_unchanged(status: StatusCode) -> bool
    ensures { IsTrue result ↔ IsUnchanged (Some status) }
{
    status == StatusCode::NOT_MODIFIED
}

// What becomes of the answer to a HEAD that fits the stored response.
fn by_update(
    rules: &Rules,
    request: &RequestHeader,
    validated: &Validating<'_>,
    response: &ResponseHeader,
    received: Moment,
) -> Result<Outcome>
    ensures ok { IfOk result
        (ByUpdate rules.now request.now validated.now response.now received) }
    ensures kind { IfErr result
        (FailsToUpdate rules.now.kind validated.now response.now.headers) }
{
    let kept = updated_by(rules, validated, response, received)?;
    match stores(rules.kind, request, &kept.head) {
        Storing::Stored => Ok(Outcome::Update(kept)),
        Storing::NotStored(reason) => Ok(Outcome::PassOn(reason)),
    }
}

// What becomes of the answer to a HEAD.
fn by_head(
    rules: &Rules,
    request: &RequestHeader,
    validated: &Validating<'_>,
    response: &ResponseHeader,
    received: Moment,
) -> Result<Outcome>
    ensures ok { IfOk result
        (DecidesByHead rules.now request.now validated.now response.now received) }
    ensures kind { IfErr result
        (FailsToUpdate rules.now.kind validated.now response.now.headers) }
    ensures update { IfErr result
        (λ e. (e ≡ OutOfMemory) ⊎ ((e ≡ InternalError) × FitsStored validated.now response.now)) }
{
    match after_head_of(response, &validated.stored.head.headers) {
        heads::Freshened::Updated => by_update(rules, request, validated, response, received),
        heads::Freshened::Stale => Ok(Outcome::MarkStale),
        heads::Freshened::Untouched => { Ok(decide_storing(rules, request, response, received)?) }
    }
}

fn is_head(request: &RequestHeader) -> bool
    ensures { IsTrue result ↔ IsHead request.now }
{
    request.method == Method::HEAD
}

// What becomes of the answer to a validation.
fn by_validated(
    rules: &Rules,
    request: &RequestHeader,
    validated: &Validating<'_>,
    response: &ResponseHeader,
    received: Moment,
) -> Result<Outcome>
    ensures ok { IfOk result
        (DecidesByValidated rules.now request.now validated.now response.now received) }
    ensures kind { IfErr result (FailsWith rules.now request.now validated.now response.now) }
{
    if is_unchanged(response.status) {
        by_304(rules, request, validated, response, received)
    } else if is_error(&Some(response.status)) {
        Ok(by_error(rules, request, &validated.stored, response, received)?)
    } else if is_head(request) {
        by_head(rules, request, validated, response, received)
    } else {
        Ok(decide_storing(rules, request, response, received)?)
    }
}

/// What becomes of the response to a request that was forwarded, and was received at this moment.
/// `validated` is the stored response for which `decide_request` said `Validate`; `None` if it said
/// `Fetch`, or if the request was sent again without conditions.
///
/// A response to an unsafe method invalidates. A 304 to the conditions of the cache updates the stored
/// response, or has the request sent again. In place of an error the stored response may be served. A
/// 200 to a HEAD updates the stored response, or makes it stale. Any other response is stored, if it
/// may be.
///
/// Allocates what is stored. Fails with `OutOfMemory`; with `InternalError` only if the response
/// updates the stored one, and both have together more names than the 24,576 that a head has room for.
/// After an unsafe method never.
pub fn decide_response(
    rules: &Rules,
    request: &RequestHeader,
    validated: Option<&Validating<'_>>,
    response: &ResponseHeader,
    received: Moment,
) -> Result<Outcome>
    ensures is_unsafe { ¬ (IsSafe request.now.method)
        → IfOk result (ByUnsafe request.now response.now) }
    ensures validated { IsSafe request.now.method
        → IfSome (option_copied validated.entry) (λ v. IfOk result
        (DecidesByValidated rules.now request.now v response.now received)) }
    ensures fetched { IsSafe request.now.method → option_copied validated.entry ≡ None
        → IfOk result (DecidesStoring rules.now request.now response.now received) }
    ensures safe { IfErr result (λ _. IsSafe request.now.method) }
    ensures kind { IfSome (option_copied validated.entry) (λ v. IfErr result
        (FailsWith rules.now request.now v response.now)) }
    ensures fetched_kind { option_copied validated.entry ≡ None
        → IfErr result (λ e. e ≡ OutOfMemory) }
{
    if !is_safe(&request.method) {
        return Ok(by_unsafe(request, response));
    }
    match validated {
        Some(validated) => by_validated(rules, request, validated, response, received),
        None => Ok(decide_storing(rules, request, response, received)?),
    }
}
