//! Which responses may be stored (RFC 9111 section 3).

ghost use Rattle.std.specs.Prelude.{◌≡◌, codes};
ghost use Rattle.http_header.specs.HeaderMap.{get_all};
ghost use Rattle.http_header.specs.Token.{lowercase};
ghost use Rattle.pcache_http.specs.Storing.{IsStoring, is_shared, is_whole, has_field, is_method_understood, is_final, is_status_understood, keeps_to_status, forbids_storing, is_for_one_user, allows_authorized, is_kept_for_its_user, is_heuristically_cacheable, allows_storing, as_get};

use crate::control::{Reach, RequestControl, ResponseControl};
use crate::rules::CacheKind;
use http::{Method, StatusCode};
use http_header::HeaderMap;
use pcache_meta::header::{RequestHeader, ResponseHeader};

/// Why a response may not be stored: the condition of RFC 9111 section 3 that does not hold.
#[derive(Clone, Copy, Debug, PartialEq, Eq)]
pub enum NotStoredFor {
    /// The method of its request is not GET.
    MethodNotUnderstood,
    /// Its status is an interim one.
    StatusNotFinal,
    /// Its status is 206, 304, or with `must-understand` one that is not understood.
    StatusNotUnderstood,
    /// The request has `no-store`.
    NoStoreAsked,
    /// The response has `no-store`.
    NoStoreSaid,
    /// It is for one user, and the cache is shared.
    PrivateSaid,
    /// The request has an Authorization, the cache is shared, and no directive allows it.
    Authorized,
    /// Nothing in it allows it: no directive, no Expires, and not its status.
    NothingAllowsIt,
}

/// Whether a response may be stored.
#[derive(Clone, Copy, Debug, PartialEq, Eq)]
pub enum Storing {
    /// It may be.
    Stored,
    /// It may not, for this reason.
    NotStored(NotStoredFor),
}

pub(crate) fn is_shared(kind: CacheKind) -> bool
    ensures { result ≡ is_shared kind }
{
    matches!(kind, CacheKind::Shared)
}

pub(crate) fn is_whole(reach: Reach) -> bool
    ensures { result ≡ is_whole reach }
{
    matches!(reach, Reach::Whole)
}

// Whether there is a field of this name.
pub(crate) fn has_field(headers: &HeaderMap, name: &str) -> bool
    ensures { result ≡ has_field headers.now (lowercase name.now) }
{
    headers.get_all(name).iter().next().is_some()
}

#[tactic(auto, unfolding(crate::specs::Storing::is_method_understood))]
fn is_method_understood(method: &Method) -> bool
    ensures { result ≡ is_method_understood method.now }
{
    // RFC 9111 also lets responses to HEAD and POST be stored. What is stored here has a content,
    // and its key has no method.
    *method == Method::GET
}

#[tactic(auto, unfolding(crate::specs::Storing::is_final))]
fn is_final(status: StatusCode) -> bool
    ensures { result ≡ is_final status }
{
    status.as_u16() >= 200
}

// The final statuses of RFC 9110 section 15 but 206 and 304.
const UNDERSTOOD: [u16; 40] = [
    200, 201, 202, 203, 204, 205, 300, 301, 302, 303, 305, 307, 308, 400, 401, 402, 403, 404, 405,
    406, 407, 408, 409, 410, 411, 412, 413, 414, 415, 416, 417, 421, 422, 426, 500, 501, 502, 503,
    504, 505,
];

// The statuses that RFC 9110 section 15.1 lists.
const HEURISTIC: [u16; 12] = [200, 203, 204, 206, 300, 301, 308, 404, 405, 410, 414, 501];

/// Whether this is a final status whose requirements for caches are kept: those of RFC 9110 section
/// 15 but 206 and 304.
#[tactic(auto, unfolding(crate::specs::Storing::is_status_understood))]
pub fn is_status_understood(status: StatusCode) -> bool
    ensures { result ≡ is_status_understood status }
{
    let code = status.as_u16();
    UNDERSTOOD.iter().any(|known| *known == code)
}

/// Whether RFC 9110 section 15.1 lets a cache guess how long a response of this status is fresh.
#[tactic(auto, unfolding(crate::specs::Storing::is_heuristically_cacheable))]
pub fn is_heuristically_cacheable(status: StatusCode) -> bool
    ensures { result ≡ is_heuristically_cacheable status }
{
    let code = status.as_u16();
    HEURISTIC.iter().any(|known| *known == code)
}

#[tactic(auto, unfolding(crate::specs::Storing::keeps_to_status))]
fn keeps_to_status(said: &ResponseControl, status: StatusCode) -> bool
    ensures { result ≡ keeps_to_status said.now status }
{
    let code = status.as_u16();
    // Never stored, with or without `must-understand`: parts are not combined, and a 304 freshens
    // what is stored.
    !(code == 206 || code == 304 || said.must_understand) || is_status_understood(status)
}

#[tactic(auto, unfolding(crate::specs::Storing::forbids_storing, crate::specs::Storing::ignores_no_store))]
fn forbids_storing(said: &ResponseControl, status: StatusCode) -> bool
    ensures { result ≡ forbids_storing said.now status }
{
    said.no_store && !(said.must_understand && is_status_understood(status))
}

#[tactic(auto, unfolding(crate::specs::Storing::is_for_one_user))]
fn is_for_one_user(kind: CacheKind, said: &ResponseControl) -> bool
    ensures { result ≡ is_for_one_user kind said.now }
{
    is_shared(kind) && is_whole(said.private)
}

#[tactic(auto, unfolding(crate::specs::Storing::allows_authorized))]
fn allows_authorized(said: &ResponseControl) -> bool
    ensures { result ≡ allows_authorized said.now }
{
    said.must_revalidate || said.public || said.s_maxage.is_there()
}

#[tactic(auto, unfolding(crate::specs::Storing::is_kept_for_its_user))]
fn is_kept_for_its_user(kind: CacheKind, asked: &HeaderMap, said: &ResponseControl) -> bool
    ensures { result ≡ is_kept_for_its_user kind asked.now said.now }
{
    is_shared(kind) && has_field(asked, "authorization") && !allows_authorized(said)
}

#[tactic(auto, unfolding(crate::specs::Storing::allows_storing))]
fn allows_storing(
    kind: CacheKind,
    said: &ResponseControl,
    headers: &HeaderMap,
    status: StatusCode,
) -> bool
    ensures { result ≡ allows_storing kind said.now headers.now status }
{
    said.public
        || (!is_shared(kind) && !matches!(said.private, Reach::Nothing))
        || has_field(headers, "expires")
        || said.max_age.is_there()
        || (is_shared(kind) && said.s_maxage.is_there())
        || is_heuristically_cacheable(status)
}

/// Whether a response may be stored that would be one to this request if that were a GET, whatever
/// its method (RFC 9111 sections 3 and 4.3.5): so it is asked of a stored response that the answer to a
/// HEAD updates.
#[tactic(auto, using(crate::proofs::AsGet::get_is_understood))]
pub fn may_store_as_get(
    kind: CacheKind,
    request: &RequestHeader,
    asked: &RequestControl,
    response: &ResponseHeader,
    said: &ResponseControl,
) -> Storing
    ensures { IsStoring kind (as_get request.now) asked.now response.now said.now result }
{
    if !is_final(response.status) {
        return Storing::NotStored(NotStoredFor::StatusNotFinal);
    }
    if !keeps_to_status(said, response.status) {
        return Storing::NotStored(NotStoredFor::StatusNotUnderstood);
    }
    if asked.no_store {
        return Storing::NotStored(NotStoredFor::NoStoreAsked);
    }
    if forbids_storing(said, response.status) {
        return Storing::NotStored(NotStoredFor::NoStoreSaid);
    }
    if is_for_one_user(kind, said) {
        return Storing::NotStored(NotStoredFor::PrivateSaid);
    }
    if is_kept_for_its_user(kind, &request.headers, said) {
        return Storing::NotStored(NotStoredFor::Authorized);
    }
    if !allows_storing(kind, said, &response.headers, response.status) {
        return Storing::NotStored(NotStoredFor::NothingAllowsIt);
    }
    Storing::Stored
}

/// Whether a response to a request may be stored (RFC 9111 section 3); `asked` and `said` are what
/// the Cache-Control of each says. Neither partial responses nor those to other methods than GET
/// are stored.
pub fn may_store(
    kind: CacheKind,
    request: &RequestHeader,
    asked: &RequestControl,
    response: &ResponseHeader,
    said: &ResponseControl,
) -> Storing
    ensures { IsStoring kind request.now asked.now response.now said.now result }
{
    if !is_method_understood(&request.method) {
        return Storing::NotStored(NotStoredFor::MethodNotUnderstood);
    }
    may_store_as_get(kind, request, asked, response, said)
}
