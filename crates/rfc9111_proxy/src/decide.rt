//! What RFC 9111 says of a request: nothing but the two calls of `pingora_cache::decisions`.
use crate::asked::Asked;
use crate::kept::original_of;
use pcache_http::rules::Rules;
use pcache_validation::updating::StoredBody;
use pingora_cache::CacheMeta;
use pingora_cache::decisions::requests::{Decision, Served, decide_request};
use pingora_cache::decisions::responses::{
    Outcome, Stale, Validating, after_failure, decide_response,
};
use pingora_cache::decisions::stored::StoredResponse;
use pingora_cache::error::Result;
use pingora_cache::header::ResponseHeader;
use std::alloc::Global;

/// What is to be done for a request.
#[derive(Drop)]
pub enum Step {
    /// It is answered with what is stored.
    Serve(Served),
    /// It is answered with 504: the client wants only what is stored.
    OnlyIfCached504,
    /// The origin answered, and this becomes of its answer.
    Answered(Outcome),
    /// The origin did not answer, and what is stored answers in its place.
    Stale(Stale),
    /// The origin did not answer, and nothing may answer in its place.
    NoAnswer,
}

/// What is to be done with this meta stored. A response with a Vary may have been stored for a request with other fields, and then
/// answers this one not: its meta says which fields that request had.
pub fn with_stored(alloc: Global, asked: &Asked, meta: &CacheMeta) -> Result<Step> {
    let original = original_of(alloc, meta.response_header())?;
    let stored = Validating {
        stored: StoredResponse {
            head: &original.head,
            original: &original.asked,
            requested: meta.updated(),
            received: meta.updated(),
        },
        alone: true,
        body: StoredBody::AsReceived,
    };
    match decide_request(
        &Rules::of_a_proxy(),
        &asked.head,
        Some(&stored.stored),
        asked.now,
    ) {
        Decision::Serve(served) => Ok(Step::Serve(served)),
        Decision::Validate(_) => validated(asked, &stored),
        Decision::Fetch => fetched(asked),
        Decision::OnlyIfCached504 => Ok(Step::OnlyIfCached504),
    }
}

/// What is to be done with nothing stored.
pub fn without_stored(asked: &Asked) -> Result<Step> {
    match decide_request(&Rules::of_a_proxy(), &asked.head, None, asked.now) {
        Decision::OnlyIfCached504 => Ok(Step::OnlyIfCached504),
        _ => fetched(asked),
    }
}

// The origin is asked with the validators of what is stored.
fn validated(asked: &Asked, stored: &Validating<'_>) -> Result<Step> {
    match &asked.answer {
        Some(answer) => answered(asked, Some(stored), answer),
        None => Ok(failed(asked, &stored.stored)),
    }
}

// The origin is asked as the client asked.
fn fetched(asked: &Asked) -> Result<Step> {
    match &asked.answer {
        Some(answer) => answered(asked, None, answer),
        None => Ok(Step::NoAnswer),
    }
}

fn answered(
    asked: &Asked,
    stored: Option<&Validating<'_>>,
    answer: &ResponseHeader,
) -> Result<Step> {
    let rules = Rules::of_a_proxy();
    let outcome = decide_response(&rules, &asked.head, stored, answer, asked.now)?;
    Ok(Step::Answered(outcome))
}

fn failed(asked: &Asked, stored: &StoredResponse<'_>) -> Step {
    match after_failure(&Rules::of_a_proxy(), &asked.head, stored, asked.now) {
        Some(stale) => Step::Stale(stale),
        None => Step::NoAnswer,
    }
}
