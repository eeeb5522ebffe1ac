//! What a client's own conditions get from a stored response (RFC 9111 section 4.3.2; RFC 9110 sections 13.1 and 13.2).

ghost use Rattle.std.specs.Prelude.{◌≡◌, ◌↔◌, IsTrue, codes, option_and_then};
ghost use Rattle.std.specs.List.{list_any};
ghost use Rattle.std.specs.Option.{option_copied, option_map};
ghost use Rattle.http_header.specs.FieldValue.{FieldValue};
ghost use Rattle.http_header.specs.HeaderMap.{get_all};
ghost use Rattle.pcache_meta.specs.Header.{shown_fields};
ghost use Rattle.pcache_validation.specs.EntityTags.{tag_in};
ghost use Rattle.pcache_validation.specs.Fields.{bytes_of, lines, only};
ghost use Rattle.pcache_validation.specs.Lists.{trim_ows};
ghost use Rattle.pcache_validation.specs.Conditions.{condition_is_false, is_earlier_or_equal, is_star, lists_tag, matches_strongly, matches_weakly, modified_at, moment_of, none_match_is_false, range_condition_holds, since_is_false, GetsNotModified, IsEvaluated, SelectsRepresentation, ServesRange};

use crate::entity_tag::EntityTag;
use crate::fields::{date_of, has, only};
use crate::lists::{Elements, trim_ows};
use crate::validators::{entity_tag, last_modified};
use http::{Method, StatusCode};
use http_header::{
    DATE, HeaderMap, HeaderValue, IF_MODIFIED_SINCE, IF_NONE_MATCH, IF_RANGE, LAST_MODIFIED, RANGE,
};
use pcache_base::moment::Moment;
use pcache_meta::header::{RequestHeader, ResponseHeader};
use pcache_meta::meta::CacheMeta;

/// What a request gets of a stored response.
#[derive(Clone, Copy, Debug, PartialEq, Eq)]
pub enum Answered {
    /// A 304 (Not Modified): the client has what is stored.
    NotModified,
    /// The stored response itself.
    Full,
}

// Whether the value, in its one line, is `*`.
fn is_star(value: Option<&HeaderValue>) -> bool
    ensures { result ≡ is_star (bytes_of (option_copied value.entry)) }
{
    match value {
        Some(value) => trim_ows(value.as_bytes()) == b"*".as_slice(),
        None => false,
    }
}

/// Whether a listed entity tag and that of the selected response are there, and match by weak
/// comparison.
pub fn matches_weakly(listed: Option<EntityTag<'_>>, selected: Option<&EntityTag<'_>>) -> bool
    ensures { result ≡ matches_weakly listed.entry (option_copied selected.entry) }
{
    match (listed, selected) {
        (Some(listed), Some(selected)) => listed.weakly_matches(selected),
        _ => false,
    }
}

/// Whether both entity tags are there, and match by strong comparison.
pub fn matches_strongly(a: Option<EntityTag<'_>>, b: Option<&EntityTag<'_>>) -> bool
    ensures { result ≡ matches_strongly a.entry (option_copied b.entry) }
{
    match (a, b) {
        (Some(a), Some(b)) => a.strongly_matches(b),
        _ => false,
    }
}

// Whether a line of If-None-Match lists the entity tag.
fn lists_tag(selected: Option<&EntityTag<'_>>, line: &[u8]) -> bool
    ensures { result ≡ lists_tag (option_copied selected.entry) line.now }
{
    for element in Elements::of(line) {
        // Each element by itself, so that a list matches by those that are entity tags.
        if matches_weakly(EntityTag::read(element), selected) {
            return true;
        }
    }
    false
}

// Whether one of the lines of If-None-Match lists the entity tag.
fn a_line_lists(request: &HeaderMap, selected: Option<&EntityTag<'_>>) -> bool
    ensures { result
        ≡ list_any (lists_tag (option_copied selected.entry))
        (lines (shown_fields request.now) (codes "if-none-match")) }
{
    a_value_lists(request, selected)
}

fn a_value_lists(request: &HeaderMap, selected: Option<&EntityTag<'_>>) -> bool
    ensures { result
        ≡ list_any (λ (line : FieldValue). lists_tag (option_copied selected.entry) line.bytes)
        (get_all request.now (codes "if-none-match")) }
{
    for line in request.get_all(&IF_NONE_MATCH).iter() {
        if lists_tag(selected, line.as_bytes()) {
            return true;
        }
    }
    false
}

/// Whether the condition of If-None-Match is false for a stored response: its value is `*`, or one
/// of the entity tags that it lists matches that of the response by weak comparison (RFC 9110
/// section 13.1.2).
pub fn none_match_is_false(request: &HeaderMap, stored: &HeaderMap) -> bool
    ensures { result ≡ none_match_is_false (shown_fields request.now) (shown_fields stored.now) }
{
    let tag = entity_tag(stored);
    is_star(only(request, &IF_NONE_MATCH)) || a_line_lists(request, tag.as_ref())
}

// A second, as a moment.
fn moment_of(secs: Option<u64>) -> Option<Moment>
    ensures { result ≡ option_map moment_of secs }
{
    match secs {
        Some(secs) => Some(Moment::from_secs(secs)),
        None => None,
    }
}

/// When a stored response was last modified: by its Last-Modified and, without one, by its Date
/// or, without a Date, by the moment at which it was received (RFC 9111 section 4.3.2).
pub fn modified_at(stored: &HeaderMap, received: Moment) -> Option<Moment>
    ensures { result ≡ modified_at (shown_fields stored.now) received }
{
    if has(stored, &LAST_MODIFIED) {
        // One that is no date hides Date: the response says that it was modified, and not when.
        return moment_of(last_modified(stored));
    }
    Some(moment_of(date_of(stored, &DATE)).unwrap_or(received))
}

// Whether the modification date is earlier than or equal to the date of the condition.
fn is_earlier_or_equal(modified: Option<Moment>, since: Option<u64>) -> bool
    ensures { result ≡ is_earlier_or_equal modified since }
{
    match (modified, since) {
        (Some(modified), Some(since)) => modified <= Moment::from_secs(since),
        _ => false,
    }
}

/// Whether the condition of If-Modified-Since is false for a stored response, which was received at
/// this moment: the response was not modified after the date of the field (RFC 9110 section
/// 13.1.3). It is true if the field is no date, or has several lines.
pub fn since_is_false(request: &HeaderMap, stored: &HeaderMap, received: Moment) -> bool
    ensures { result
        ≡ since_is_false (shown_fields request.now) (shown_fields stored.now) received }
{
    is_earlier_or_equal(
        modified_at(stored, received),
        date_of(request, &IF_MODIFIED_SINCE),
    )
}

// If-None-Match decides; without one, If-Modified-Since does.
fn condition_is_false(request: &HeaderMap, stored: &HeaderMap, received: Moment) -> bool
    ensures { result
        ≡ condition_is_false (shown_fields request.now) (shown_fields stored.now) received }
{
    if has(request, &IF_NONE_MATCH) {
        none_match_is_false(request, stored)
    } else {
        since_is_false(request, stored, received)
    }
}

fn selects_representation(method: &Method) -> bool
    ensures { IsTrue result ↔ SelectsRepresentation method.now }
{
    *method == Method::GET || *method == Method::HEAD
}

fn is_evaluated(status: StatusCode) -> bool
    ensures { IsTrue result ↔ IsEvaluated status }
{
    status == StatusCode::OK || status == StatusCode::PARTIAL_CONTENT
}

/// What a client's request gets of a stored response that may be served, by its head and the moment
/// at which it was received: a 304 if the request's condition is false, and else the response.
/// If-None-Match decides; without one, If-Modified-Since does. Other conditions are not a cache's to
/// evaluate.
pub fn answer_from(request: &RequestHeader, stored: &ResponseHeader, received: Moment) -> Answered
    ensures { (result ≡ Answered.NotModified)
        ↔ GetsNotModified request.now.method (shown_fields request.now.headers)
        stored.now.status (shown_fields stored.now.headers) received }
{
    if selects_representation(&request.method)
        && is_evaluated(stored.status)
        && condition_is_false(&request.headers, &stored.headers, received)
    {
        Answered::NotModified
    } else {
        Answered::Full
    }
}

/// The same of a stored response whose meta a store has: the moment at which it was received is that
/// of its last update.
pub fn answer_to(request: &RequestHeader, stored: &CacheMeta) -> Answered
    ensures { (result ≡ Answered.NotModified)
        ↔ GetsNotModified request.now.method (shown_fields request.now.headers)
        stored.now.header.status stored.now.header.fields stored.now.updated }
{
    answer_from(request, stored.response_header(), stored.updated())
}

// Whether the entity tag of an If-Range matches that of a stored response by strong comparison.
fn range_condition_holds(request: &HeaderMap, stored: &HeaderMap) -> bool
    ensures { result ≡ range_condition_holds (shown_fields request.now) (shown_fields stored.now) }
{
    let tag = entity_tag(stored);
    // By its tag alone: a date is a strong validator only by what is known of the origin's clock
    // (RFC 9110 section 8.8.2.2).
    matches_strongly(condition_tag(request), tag.as_ref())
}

// The entity tag of an If-Range.
fn condition_tag(request: &HeaderMap) -> Option<EntityTag<'_>>
    ensures { result
        ≡ option_and_then (λ value. tag_in (trim_ows value))
        (only (shown_fields request.now) (codes "if-range")) }
{
    EntityTag::read(trim_ows(only(request, &IF_RANGE)?.as_bytes()))
}

/// Whether the range that a request asks for may be served of a stored response with these fields, if
/// it can be: the request is a GET with a Range, and it has no If-Range or one whose entity tag
/// matches by strong comparison. Else the whole response is served. A date in If-Range never counts
/// as a match.
pub fn range_from(request: &RequestHeader, stored: &HeaderMap) -> bool
    ensures { IsTrue result
        ↔ ServesRange request.now.method (shown_fields request.now.headers)
        (shown_fields stored.now) }
{
    request.method == Method::GET
        && has(&request.headers, &RANGE)
        && (!has(&request.headers, &IF_RANGE) || range_condition_holds(&request.headers, stored))
}

/// The same of a stored response whose meta a store has.
pub fn serves_range(request: &RequestHeader, stored: &CacheMeta) -> bool
    ensures { IsTrue result
        ↔ ServesRange request.now.method (shown_fields request.now.headers)
        stored.now.header.fields }
{
    range_from(request, stored.headers())
}
