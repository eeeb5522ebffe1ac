//! A stored response, as a cache lends it (RFC 9111 sections 4, 4.1 and 4.2.3).

ghost use Rattle.std.specs.Prelude.{◌≡◌, ◌↔◌, IsTrue};
ghost use Rattle.pcache_meta.specs.Header.{shown};
ghost use Rattle.pcache_validation.specs.Conditions.{SelectsRepresentation};
ghost use Rattle.pcache_decisions.specs.Stored.{MayAnswer, age_at, lifetime_in};

use http::Method;
use http_header::HeaderMap;
use pcache_base::moment::Moment;
use pcache_http::age::{corrected_initial_age, current_age};
use pcache_http::control::ResponseControl;
use pcache_http::lifetime::{Lifetime, lifetime_of};
use pcache_http::rules::Rules;
use pcache_http::vary::selects;
use pcache_meta::header::{RequestHeader, ResponseHeader};
use pcache_meta::meta::CacheMeta;

/// A stored response. That it has the target URI of a request is for the key that it is stored under.
#[derive(Clone, Copy)]
pub struct StoredResponse<'a> {
    /// Its head.
    pub head: &'a ResponseHeader,
    /// The fields of the request that it was stored for, of which its Vary nominates some.
    pub original: &'a HeaderMap,
    /// When that request was sent, or the last one that validated the response.
    pub requested: Moment,
    /// When the response was received, or last validated.
    pub received: Moment,
}

/// A stored response of which a store lends its meta: its last update is when it was received.
pub fn of_meta<'a>(
    meta: &'a CacheMeta,
    original: &'a HeaderMap,
    requested: Moment,
) -> StoredResponse<'a>
    ensures head { shown result.head.now ≡ meta.now.header }
    ensures original { result.original.now ≡ original.now }
    ensures requested { result.requested ≡ requested }
    ensures received { result.received ≡ meta.now.updated }
{
    StoredResponse {
        head: meta.response_header(),
        original,
        requested,
        received: meta.updated(),
    }
}

/// How old a stored response is at a moment, in seconds, which is the Age to send (RFC 9111 sections
/// 4.2.3 and 5.1).
pub fn age_at(stored: &StoredResponse<'_>, now: Moment) -> u32
    ensures { result ≡ age_at stored.now now }
{
    let initial = corrected_initial_age(&stored.head.headers, stored.requested, stored.received);
    current_age(initial, stored.received, now)
}

/// For how long a stored response is fresh whose Cache-Control says this (RFC 9111 section 4.2.1).
pub fn lifetime_in(rules: &Rules, said: &ResponseControl, stored: &StoredResponse<'_>) -> Lifetime
    ensures { result ≡ lifetime_in rules.now said.now stored.now }
{
    lifetime_of(rules, said, stored.head, stored.received)
}

fn selects_representation(method: &Method) -> bool
    ensures { IsTrue result ↔ SelectsRepresentation method.now }
{
    *method == Method::GET || *method == Method::HEAD
}

/// Whether a stored response may answer a request: that is a GET or a HEAD, and all fields that its
/// Vary nominates match (RFC 9111 sections 4 and 4.1).
pub fn may_answer(request: &RequestHeader, stored: &StoredResponse<'_>) -> bool
    ensures { IsTrue result ↔ MayAnswer request.now stored.now }
{
    selects_representation(&request.method)
        && selects(&stored.head.headers, stored.original, &request.headers)
}
