//! What HTTP's rules of caching decide of a request and of a response (RFC 9111), as codes and metas.
ghost use Rattle.std.specs.Prelude.{◌≡◌, None, option_map};
ghost use Rattle.std.specs.Option.{option_copied};
ghost use Rattle.pcache_validation.specs.Fields.{bytes_of};
ghost use Rattle.pcache_c.specs.Decisions.{DecidesMissing, DecidesStored, GivesKept, IsFetched, Leaves, IsLent, IsValidated, MayFailFetched, MayFailValidated, OnAnswer, OnHead, OnLent, OnStored, OnTerms, OnValidating, ServesFailed, TellsOf, WritesValidators, bytes_or_none, original_of, outcome_numbers};
ghost use Rattle.pcache_c.specs.Handles.{AsksOf, IsSame, OnKind, object_of};
ghost use Rattle.pcache_c.specs.Objects.{as_asked, as_head, as_meta};

use crate::codes::{BAD_HANDLE, BAD_VALUE, NONE, OK, WRONG_KIND, code_of};
use crate::decided::{
    PcacheDecision, PcacheOutcome, PcacheTerms, Terms, give, outcome_told, stale_told, terms_of,
    told,
};
use crate::handle::PcacheHandle;
use crate::metas::write_both;
use crate::object::Object;
use http_header::{HeaderMap, HeaderValue};
use pcache_base::error::Result;
use pcache_base::moment::Moment;
use pcache_decisions::requests::decide_request;
use pcache_decisions::responses::{Outcome, Validating, after_failure, decide_response};
use pcache_decisions::stored::{StoredResponse, of_meta};
use pcache_http::rules::Rules;
use pcache_meta::header::{RequestHeader, ResponseHeader};
use pcache_meta::meta::CacheMeta;
use pcache_validation::asking::{if_modified_since, if_none_match};
use std::alloc::Global;

// ---- the objects of handles

fn asked_in(object: &Object) -> Option<&RequestHeader>
    ensures { option_copied result ≡ as_asked object.now }
{
    match object {
        Object::Asked(head) => Some(head),
        _ => None,
    }
}

fn meta_in(object: &Object) -> Option<&CacheMeta>
    ensures { option_copied result ≡ as_meta object.now }
{
    match object {
        Object::Meta(meta) => Some(meta),
        _ => None,
    }
}

fn head_in(object: &Object) -> Option<&ResponseHeader>
    ensures { option_copied result ≡ as_head object.now }
{
    match object {
        Object::Head(head) => Some(head),
        _ => None,
    }
}

// The fields of the request that a stored response answered: those of this one, if no other is there.
fn original_in<'a>(
    request: &'a RequestHeader,
    original: &'a Option<Box<Object>>,
) -> Option<&'a HeaderMap>
    ensures { option_copied result
        ≡ original_of (option_map (λ o. o.value) original.now) request.now }
{
    let Some(original) = original else {
        return Some(&request.headers);
    };
    let original = asked_in(&**original)?;
    Some(&original.headers)
}

// What is stored, as the decisions take it.
fn lent<'a>(terms: &Terms, meta: &'a CacheMeta, original: &'a HeaderMap) -> StoredResponse<'a>
    ensures { IsLent terms.now meta.now original.now result }
{
    of_meta(meta, original, terms.requested)
}

// Puts back what was taken out of a handle, if there was something.
fn put_back(handle: &mut PcacheHandle, held: Option<Box<Object>>)
    ensures { object_of handle.old ≡ None
        → object_of handle.new ≡ option_map (λ object. object.value) held }
{
    if let Some(object) = held {
        handle.put(object);
    }
}

// ---- what becomes of a request

fn missing(request: &RequestHeader) -> PcacheDecision
    ensures { DecidesMissing request.now result }
{
    // (what is stored would go by rules and the time)
    let now = Moment::from_secs(0);
    told(&decide_request(&Rules::of_a_proxy(), request, None, now))
}

fn decide_missing(request: &Object, out: &mut PcacheDecision) -> u32
    ensures { OnKind (as_asked request.now) result (out.new ≡ out.old) (λ r.
        (result ≡ 0) × DecidesMissing r out.new) }
{
    let Some(request) = asked_in(request) else {
        return WRONG_KIND;
    };
    *out = missing(request);
    OK
}

/// What becomes of a request for which nothing is stored.
#[unsafe(no_mangle)]
pub extern "C" fn pcache_decide_missing(
    alloc: Global,
    request: &mut PcacheHandle,
    out: &mut PcacheDecision,
) -> u32
    ensures decides { AsksOf as_asked request.old result (out.new ≡ out.old) (λ r.
        (result ≡ 0) × DecidesMissing r out.new) }
    ensures same { IsSame request.old request.new }
{
    let Some(object) = request.take(alloc) else {
        return BAD_HANDLE;
    };
    let code = decide_missing(&*object, out);
    request.put(object);
    code
}

fn decide_by(terms: &Terms, request: &RequestHeader, stored: &StoredResponse<'_>) -> PcacheDecision
    ensures { DecidesStored terms.now request.now stored.now result }
{
    told(&decide_request(&terms.rules, request, Some(stored), terms.at))
}

fn decide_stored<'a>(
    terms: &Terms,
    request: &'a Object,
    meta: &'a Object,
    original: &'a Option<Box<Object>>,
    out: &mut PcacheDecision,
) -> u32
    ensures { OnKind (as_asked request.now) result (out.new ≡ out.old) (λ r.
        OnKind (as_meta meta.now) result (out.new ≡ out.old) (λ m.
        OnKind (original_of (option_map (λ object. object.value) original.now) r) result
        (out.new ≡ out.old)
        (λ f. (result ≡ 0) × OnLent terms.now m f (λ s. DecidesStored terms.now r s out.new)))) }
{
    let Some(request) = asked_in(request) else {
        return WRONG_KIND;
    };
    let Some(meta) = meta_in(meta) else {
        return WRONG_KIND;
    };
    let Some(original) = original_in(request, original) else {
        return WRONG_KIND;
    };
    let stored = lent(terms, meta, original);
    *out = decide_by(terms, request, &stored);
    OK
}

/// What becomes of a request for which a response with this meta is stored. The third handle has the
/// head of the request that the stored response answered, or nothing if that had the same fields as
/// this one, as where the key tells them.
#[unsafe(no_mangle)]
pub extern "C" fn pcache_decide_stored(
    alloc: Global,
    terms: &PcacheTerms,
    request: &mut PcacheHandle,
    meta: &mut PcacheHandle,
    original: &mut PcacheHandle,
    out: &mut PcacheDecision,
) -> u32
    ensures decides { OnTerms terms.now result (out.new ≡ out.old) (λ t.
        OnStored request.old meta.old original.old result (out.new ≡ out.old) (λ r m f.
        (result ≡ 0) × OnLent t m f (λ s. DecidesStored t r s out.new))) }
    ensures request { IsSame request.old request.new }
    ensures meta { IsSame meta.old meta.new }
    ensures original { IsSame original.old original.new }
{
    let Some(terms) = terms_of(terms) else {
        return BAD_VALUE;
    };
    let Some(asked) = request.take(alloc) else {
        return BAD_HANDLE;
    };
    let Some(stored) = meta.take(alloc) else {
        request.put(asked);
        return BAD_HANDLE;
    };
    let held = original.take(alloc);
    let code = decide_stored(&terms, &*asked, &*stored, &held, out);
    request.put(asked);
    meta.put(stored);
    put_back(original, held);
    code
}

// The bytes of a value, or none.
fn bytes_in(value: Option<&HeaderValue>) -> &[u8]
    ensures { result.now ≡ bytes_or_none (bytes_of (option_copied value.entry)) }
{
    match value {
        Some(value) => value.as_bytes(),
        None => b"",
    }
}

fn write_validators(
    meta: &CacheMeta,
    tag: &mut [u8],
    since: &mut [u8],
    tag_len: &mut usize,
    since_len: &mut usize,
) -> u32
    ensures { WritesValidators meta.now tag.old tag.new since.old since.new tag_len.new
        since_len.new result }
{
    let head = meta.response_header();
    let first = bytes_in(if_none_match(&head.headers));
    let second = bytes_in(if_modified_since(&head.headers));
    *tag_len = first.len();
    *since_len = second.len();
    write_both(first, second, tag, since)
}

fn validators(
    meta: &Object,
    tag: &mut [u8],
    since: &mut [u8],
    tag_len: &mut usize,
    since_len: &mut usize,
) -> u32
    ensures { OnKind (as_meta meta.now) result ((tag.new ≡ tag.old) × (since.new ≡ since.old))
        (λ m. WritesValidators m tag.old tag.new since.old since.new tag_len.new since_len.new
        result) }
{
    match meta_in(meta) {
        Some(meta) => write_validators(meta, tag, since, tag_len, since_len),
        None => WRONG_KIND,
    }
}

/// The validators of what is stored, to two buffers: what is sent in If-None-Match, and in
/// If-Modified-Since. One of no bytes is not sent. Their lengths are said first: if a buffer is too
/// short, nothing is written and the value is bad.
#[unsafe(no_mangle)]
pub extern "C" fn pcache_meta_validators(
    alloc: Global,
    meta: &mut PcacheHandle,
    tag: &mut [u8],
    since: &mut [u8],
    tag_len: &mut usize,
    since_len: &mut usize,
) -> u32
    ensures writes { AsksOf as_meta meta.old result
        ((tag.new ≡ tag.old) × (since.new ≡ since.old))
        (λ m. WritesValidators m tag.old tag.new since.old since.new tag_len.new since_len.new
        result) }
    ensures same { IsSame meta.old meta.new }
{
    let Some(object) = meta.take(alloc) else {
        return BAD_HANDLE;
    };
    let code = validators(&*object, tag, since, tag_len, since_len);
    meta.put(object);
    code
}

// ---- what becomes of a response

// Tells an outcome, and hands over its meta.
fn tell(
    alloc: Global,
    outcome: Outcome,
    now: Moment,
    kept: &mut PcacheHandle,
    out: &mut PcacheOutcome,
) -> u32
    ensures numbers { out.new ≡ outcome_numbers outcome }
    ensures meta { GivesKept outcome now kept.old kept.new result }
{
    *out = outcome_told(&outcome);
    give(alloc, outcome, now, kept)
}

fn fetched(
    alloc: Global,
    terms: &Terms,
    request: &RequestHeader,
    response: &ResponseHeader,
    kept: &mut PcacheHandle,
    out: &mut PcacheOutcome,
) -> u32
    ensures { TellsOf (IsFetched terms.now request.now response.now)
        (MayFailFetched request.now) terms.now.at kept.old kept.new out.old out.new result }
{
    match decide_response(&terms.rules, request, None, response, terms.at) {
        Ok(outcome) => tell(alloc, outcome, terms.at, kept, out),
        Err(e) => code_of(e),
    }
}

fn decide_fetched(
    alloc: Global,
    terms: &Terms,
    request: &Object,
    response: &Object,
    kept: &mut PcacheHandle,
    out: &mut PcacheOutcome,
) -> u32
    ensures { OnKind (as_asked request.now) result (Leaves kept.old kept.new out.old out.new) (λ r.
        OnKind (as_head response.now) result (Leaves kept.old kept.new out.old out.new) (λ h.
        TellsOf (IsFetched terms.now r h) (MayFailFetched r) terms.now.at kept.old kept.new
        out.old out.new result)) }
{
    let Some(request) = asked_in(request) else {
        return WRONG_KIND;
    };
    let Some(response) = head_in(response) else {
        return WRONG_KIND;
    };
    fetched(alloc, terms, request, response, kept, out)
}

/// What becomes of the response to a request that was forwarded as it is. If something is kept of it, the
/// first handle gets the meta to store it with.
#[unsafe(no_mangle)]
pub extern "C" fn pcache_decide_fetched(
    alloc: Global,
    kept: &mut PcacheHandle,
    terms: &PcacheTerms,
    request: &mut PcacheHandle,
    response: &mut PcacheHandle,
    out: &mut PcacheOutcome,
) -> u32
    ensures decides { OnTerms terms.now result (Leaves kept.old kept.new out.old out.new) (λ t.
        OnAnswer request.old response.old result (Leaves kept.old kept.new out.old out.new)
        (λ r h. TellsOf (IsFetched t r h) (MayFailFetched r) t.at kept.old kept.new out.old out.new
        result)) }
    ensures request { IsSame request.old request.new }
    ensures response { IsSame response.old response.new }
{
    let Some(terms) = terms_of(terms) else {
        return BAD_VALUE;
    };
    let Some(asked) = request.take(alloc) else {
        return BAD_HANDLE;
    };
    let Some(answer) = response.take(alloc) else {
        request.put(asked);
        return BAD_HANDLE;
    };
    let code = decide_fetched(alloc, &terms, &*asked, &*answer, kept, out);
    request.put(asked);
    response.put(answer);
    code
}

fn validated(
    alloc: Global,
    terms: &Terms,
    request: &RequestHeader,
    validated: &Validating<'_>,
    response: &ResponseHeader,
    kept: &mut PcacheHandle,
    out: &mut PcacheOutcome,
) -> u32
    ensures { TellsOf (IsValidated terms.now request.now validated.now response.now)
        (MayFailValidated terms.now request.now validated.now response.now) terms.now.at kept.old
        kept.new out.old out.new result }
{
    match decide_response(&terms.rules, request, Some(validated), response, terms.at) {
        Ok(outcome) => tell(alloc, outcome, terms.at, kept, out),
        Err(e) => code_of(e),
    }
}

fn decide_validated<'a>(
    alloc: Global,
    terms: &Terms,
    request: &'a Object,
    meta: &'a Object,
    original: &'a Option<Box<Object>>,
    response: &ResponseHeader,
    kept: &mut PcacheHandle,
    out: &mut PcacheOutcome,
) -> u32
    ensures { OnKind (as_asked request.now) result (Leaves kept.old kept.new out.old out.new) (λ r.
        OnKind (as_meta meta.now) result (Leaves kept.old kept.new out.old out.new) (λ m.
        OnKind (original_of (option_map (λ object. object.value) original.now) r) result
        (Leaves kept.old kept.new out.old out.new)
        (λ f. OnValidating terms.now m f (λ s. TellsOf (IsValidated terms.now r s response.now)
        (MayFailValidated terms.now r s response.now) terms.now.at kept.old kept.new out.old
        out.new result)))) }
{
    let Some(request) = asked_in(request) else {
        return WRONG_KIND;
    };
    let Some(meta) = meta_in(meta) else {
        return WRONG_KIND;
    };
    let Some(original) = original_in(request, original) else {
        return WRONG_KIND;
    };
    let stored: StoredResponse<'_> = lent(terms, meta, original);
    let stored = Validating {
        stored,
        alone: terms.alone,
        body: terms.body,
    };
    validated(alloc, terms, request, &stored, response, kept, out)
}

// With the head of the response at hand.
fn decide_answered(
    alloc: Global,
    terms: &Terms,
    response: &ResponseHeader,
    request: &mut PcacheHandle,
    meta: &mut PcacheHandle,
    original: &mut PcacheHandle,
    kept: &mut PcacheHandle,
    out: &mut PcacheOutcome,
) -> u32
    ensures decides { OnStored request.old meta.old original.old result
        (Leaves kept.old kept.new out.old out.new) (λ r m f. OnValidating terms.now m f (λ s.
        TellsOf (IsValidated terms.now r s response.now)
        (MayFailValidated terms.now r s response.now) terms.now.at kept.old kept.new out.old
        out.new result)) }
    ensures request { IsSame request.old request.new }
    ensures meta { IsSame meta.old meta.new }
    ensures original { IsSame original.old original.new }
{
    let Some(asked) = request.take(alloc) else {
        return BAD_HANDLE;
    };
    let Some(stored) = meta.take(alloc) else {
        request.put(asked);
        return BAD_HANDLE;
    };
    let held = original.take(alloc);
    let code = decide_validated(alloc, terms, &*asked, &*stored, &held, response, kept, out);
    request.put(asked);
    meta.put(stored);
    put_back(original, held);
    code
}

fn decide_on(
    alloc: Global,
    terms: &Terms,
    response: &Object,
    request: &mut PcacheHandle,
    meta: &mut PcacheHandle,
    original: &mut PcacheHandle,
    kept: &mut PcacheHandle,
    out: &mut PcacheOutcome,
) -> u32
    ensures decides { OnKind (as_head response.now) result
        (Leaves kept.old kept.new out.old out.new) (λ h.
        OnStored request.old meta.old original.old result
        (Leaves kept.old kept.new out.old out.new) (λ r m f. OnValidating terms.now m f (λ s.
        TellsOf (IsValidated terms.now r s h) (MayFailValidated terms.now r s h) terms.now.at
        kept.old kept.new out.old out.new result))) }
    ensures request { IsSame request.old request.new }
    ensures meta { IsSame meta.old meta.new }
    ensures original { IsSame original.old original.new }
{
    let Some(head) = head_in(response) else {
        return WRONG_KIND;
    };
    decide_answered(alloc, terms, head, request, meta, original, kept, out)
}

/// What becomes of the response to a request that was forwarded with the validators of what is stored
/// (`pcache_meta_validators`). If something is kept of it, the first handle gets the meta that what is
/// stored has from now on. The other handles are those of `pcache_decide_stored`.
#[unsafe(no_mangle)]
pub extern "C" fn pcache_decide_validated(
    alloc: Global,
    kept: &mut PcacheHandle,
    terms: &PcacheTerms,
    request: &mut PcacheHandle,
    meta: &mut PcacheHandle,
    original: &mut PcacheHandle,
    response: &mut PcacheHandle,
    out: &mut PcacheOutcome,
) -> u32
    ensures decides { OnTerms terms.now result (Leaves kept.old kept.new out.old out.new) (λ t.
        OnHead response.old result (Leaves kept.old kept.new out.old out.new) (λ h.
        OnStored request.old meta.old original.old result
        (Leaves kept.old kept.new out.old out.new) (λ r m f. OnValidating t m f (λ s.
        TellsOf (IsValidated t r s h) (MayFailValidated t r s h) t.at kept.old kept.new out.old
        out.new result)))) }
    ensures request { IsSame request.old request.new }
    ensures meta { IsSame meta.old meta.new }
    ensures original { IsSame original.old original.new }
    ensures response { IsSame response.old response.new }
{
    let Some(terms) = terms_of(terms) else {
        return BAD_VALUE;
    };
    let Some(answer) = response.take(alloc) else {
        return BAD_HANDLE;
    };
    let code = decide_on(alloc, &terms, &*answer, request, meta, original, kept, out);
    response.put(answer);
    code
}

fn failed(
    terms: &Terms,
    request: &RequestHeader,
    stored: &StoredResponse<'_>,
    out: &mut PcacheOutcome,
) -> u32
    ensures { ServesFailed terms.now request.now stored.now out.old out.new result }
{
    match after_failure(&terms.rules, request, stored, terms.at) {
        Some(stale) => {
            *out = stale_told(&stale);
            OK
        }
        None => NONE,
    }
}

fn decide_failed<'a>(
    terms: &Terms,
    request: &'a Object,
    meta: &'a Object,
    original: &'a Option<Box<Object>>,
    out: &mut PcacheOutcome,
) -> u32
    ensures { OnKind (as_asked request.now) result (out.new ≡ out.old) (λ r.
        OnKind (as_meta meta.now) result (out.new ≡ out.old) (λ m.
        OnKind (original_of (option_map (λ object. object.value) original.now) r) result
        (out.new ≡ out.old)
        (λ f. OnLent terms.now m f (λ s. ServesFailed terms.now r s out.old out.new result)))) }
{
    let Some(request) = asked_in(request) else {
        return WRONG_KIND;
    };
    let Some(meta) = meta_in(meta) else {
        return WRONG_KIND;
    };
    let Some(original) = original_in(request, original) else {
        return WRONG_KIND;
    };
    let stored = lent(terms, meta, original);
    failed(terms, request, &stored, out)
}

/// Whether what is stored may answer a request whose validation failed, as when no answer came: its
/// numbers are those of `does` 3. If it may not, there is nothing to say. The handles are those of
/// `pcache_decide_stored`.
#[unsafe(no_mangle)]
pub extern "C" fn pcache_decide_failed(
    alloc: Global,
    terms: &PcacheTerms,
    request: &mut PcacheHandle,
    meta: &mut PcacheHandle,
    original: &mut PcacheHandle,
    out: &mut PcacheOutcome,
) -> u32
    ensures decides { OnTerms terms.now result (out.new ≡ out.old) (λ t.
        OnStored request.old meta.old original.old result (out.new ≡ out.old) (λ r m f.
        OnLent t m f (λ s. ServesFailed t r s out.old out.new result))) }
    ensures request { IsSame request.old request.new }
    ensures meta { IsSame meta.old meta.new }
    ensures original { IsSame original.old original.new }
{
    let Some(terms) = terms_of(terms) else {
        return BAD_VALUE;
    };
    let Some(asked) = request.take(alloc) else {
        return BAD_HANDLE;
    };
    let Some(stored) = meta.take(alloc) else {
        request.put(asked);
        return BAD_HANDLE;
    };
    let held = original.take(alloc);
    let code = decide_failed(&terms, &*asked, &*stored, &held, out);
    request.put(asked);
    meta.put(stored);
    put_back(original, held);
    code
}
