//! Whether a stored response may be served (RFC 9111 sections 4 and 4.2.4).

ghost use Rattle.std.specs.Prelude.{◌≡◌};
ghost use Rattle.pcache_http.specs.Serving.{is_fresh, staleness, wants_validation, prohibits_stale, is_at_most, accepts_age, lasts, accepts_rest, bounds, allows_by, permits_stale, accepts_stale, is_open, is_acceptable, may_be_reused, may_be_stale, is_while_revalidating, is_accepted_stale, may_be_served, Serves, missing_for, may_follow_error};

use crate::control::{RequestControl, ResponseControl};
use crate::lifetime::Lifetime;
use crate::rules::{CacheKind, Repeats, Rules};
use crate::seconds::{Amount, Number};
use crate::storing::{is_shared, is_whole};

/// What becomes of a stored response that a request selects.
#[derive(Clone, Copy, Debug, PartialEq, Eq)]
pub enum Serving {
    /// It is served: it is fresh.
    Fresh,
    /// It is served though it is stale, and revalidated meanwhile (RFC 5861 section 3).
    StaleWhileRevalidating,
    /// It is served though it is stale: the client accepts it (RFC 9111 section 5.2.1.2).
    StaleAccepted,
    /// It is served only once the origin validated it.
    Validate,
    /// It is not served, and the client wants only a stored response: 504 (section 5.2.1.7).
    GatewayTimeout,
}

/// What becomes of a request for which nothing is stored.
#[derive(Clone, Copy, Debug, PartialEq, Eq)]
pub enum Missing {
    /// It is forwarded.
    Fetch,
    /// The client wants only a stored response: 504 (RFC 9111 section 5.2.1.7).
    NotCached,
}

/// Whether a response of this age is fresh.
#[tactic(auto, unfolding(crate::specs::Serving::is_fresh))]
pub fn is_fresh(lifetime: Lifetime, age: u32) -> bool
    ensures { result ≡ is_fresh lifetime age }
{
    age < lifetime.seconds()
}

// For how long a response of this age has been stale.
fn staleness(lifetime: Lifetime, age: u32) -> u32
    ensures { result ≡ staleness lifetime age }
{
    age.saturating_sub(lifetime.seconds())
}

/// Whether a directive prohibits that a stale response is served (RFC 9111 section 4.2.4).
#[tactic(auto, unfolding(crate::specs::Serving::prohibits_stale))]
pub fn prohibits_stale(kind: CacheKind, said: &ResponseControl) -> bool
    ensures { result ≡ prohibits_stale kind said.now }
{
    is_whole(said.no_cache)
        || said.must_revalidate
        || (is_shared(kind) && (said.proxy_revalidate || said.s_maxage.is_there()))
}

#[tactic(auto, unfolding(crate::specs::Serving::accepts_age))]
fn accepts_age(asked: &RequestControl, age: u32) -> bool
    ensures { result ≡ accepts_age asked.now age }
{
    match asked.max_age.time(Repeats::First) {
        Some(most) => age <= most,
        None => true,
    }
}

#[tactic(auto, unfolding(crate::specs::Serving::accepts_rest))]
fn accepts_rest(asked: &RequestControl, lifetime: Lifetime, age: u32) -> bool
    ensures { result ≡ accepts_rest asked.now lifetime age }
{
    match asked.min_fresh.time(Repeats::First) {
        Some(more) => u64::from(age) + u64::from(more) <= u64::from(lifetime.seconds()),
        None => true,
    }
}

fn bounds(amount: Amount, by: u32) -> bool
    ensures { result ≡ bounds amount by }
{
    match amount {
        Amount::Bare => true,
        Amount::Seconds(most) => by <= most,
        // An invalid `max-stale` accepts nothing.
        Amount::Invalid => false,
    }
}

fn allows_by(otherwise: bool, most: Number, by: u32) -> bool
    ensures { result ≡ allows_by otherwise most by }
{
    match most {
        Number::Absent => otherwise,
        Number::Once(amount) | Number::Repeated(amount) => bounds(amount, by),
    }
}

#[tactic(auto, unfolding(crate::specs::Serving::permits_stale))]
fn permits_stale(asked: &RequestControl, by: u32) -> bool
    ensures { result ≡ permits_stale asked.now by }
{
    allows_by(false, asked.max_stale, by)
}

#[tactic(auto, unfolding(crate::specs::Serving::accepts_stale))]
fn accepts_stale(asked: &RequestControl, by: u32) -> bool
    ensures { result ≡ accepts_stale asked.now by }
{
    allows_by(!asked.max_age.is_there(), asked.max_stale, by)
}

fn is_open(window: Option<u32>, by: u32) -> bool
    ensures { result ≡ is_open window by }
{
    match window {
        Some(most) => by <= most,
        None => false,
    }
}

#[tactic(auto, unfolding(crate::specs::Serving::is_acceptable))]
fn is_acceptable(asked: &RequestControl, lifetime: Lifetime, age: u32) -> bool
    ensures { result ≡ is_acceptable asked.now lifetime age }
{
    !asked.no_cache && accepts_age(asked, age) && accepts_rest(asked, lifetime, age)
}

#[tactic(auto, unfolding(crate::specs::Serving::may_be_reused, crate::specs::Serving::wants_validation))]
fn may_be_reused(
    said: &ResponseControl,
    asked: &RequestControl,
    lifetime: Lifetime,
    age: u32,
) -> bool
    ensures { result ≡ may_be_reused said.now asked.now lifetime age }
{
    is_fresh(lifetime, age) && !is_whole(said.no_cache) && is_acceptable(asked, lifetime, age)
}

#[tactic(auto, unfolding(crate::specs::Serving::may_be_stale))]
fn may_be_stale(
    kind: CacheKind,
    said: &ResponseControl,
    asked: &RequestControl,
    lifetime: Lifetime,
    age: u32,
) -> bool
    ensures { result ≡ may_be_stale kind said.now asked.now lifetime age }
{
    !is_fresh(lifetime, age) && !prohibits_stale(kind, said) && is_acceptable(asked, lifetime, age)
}

#[tactic(auto, unfolding(crate::specs::Serving::is_while_revalidating))]
fn is_while_revalidating(
    rules: &Rules,
    said: &ResponseControl,
    asked: &RequestControl,
    lifetime: Lifetime,
    age: u32,
) -> bool
    ensures { result ≡ is_while_revalidating rules.now said.now asked.now lifetime age }
{
    let by = staleness(lifetime, age);
    may_be_stale(rules.kind, said, asked, lifetime, age)
        && is_open(said.stale_while_revalidate.time(rules.repeats), by)
        // Of two wishes the stricter one: a request's `max-stale` bounds this too.
        && accepts_stale(asked, by)
}

#[tactic(auto, unfolding(crate::specs::Serving::is_accepted_stale))]
fn is_accepted_stale(
    rules: &Rules,
    said: &ResponseControl,
    asked: &RequestControl,
    lifetime: Lifetime,
    age: u32,
) -> bool
    ensures { result ≡ is_accepted_stale rules.now said.now asked.now lifetime age }
{
    may_be_stale(rules.kind, said, asked, lifetime, age)
        && permits_stale(asked, staleness(lifetime, age))
}

/// What becomes of a stored response that a request selects (RFC 9111 sections 4 and 4.2.4): `said`
/// is what the Cache-Control of the response says, `asked` what that of the request says, and `age`
/// the current age of the response in seconds.
#[tactic(auto, unfolding(crate::specs::Serving::may_be_served))]
pub fn serve_stored(
    rules: &Rules,
    said: &ResponseControl,
    asked: &RequestControl,
    lifetime: Lifetime,
    age: u32,
) -> Serving
    ensures { Serves rules.now said.now asked.now lifetime age result }
{
    if may_be_reused(said, asked, lifetime, age) {
        return Serving::Fresh;
    }
    if is_while_revalidating(rules, said, asked, lifetime, age) {
        return Serving::StaleWhileRevalidating;
    }
    if is_accepted_stale(rules, said, asked, lifetime, age) {
        return Serving::StaleAccepted;
    }
    if asked.only_if_cached {
        Serving::GatewayTimeout
    } else {
        Serving::Validate
    }
}

/// What becomes of a request for which nothing is stored.
pub fn serve_missing(asked: &RequestControl) -> Missing
    ensures { result ≡ missing_for asked.now }
{
    if asked.only_if_cached {
        Missing::NotCached
    } else {
        Missing::Fetch
    }
}

/// Whether a stored response may be served in place of an error at its validation (RFC 5861 section
/// 4).
#[tactic(auto, unfolding(crate::specs::Serving::may_follow_error))]
pub fn may_follow_error(
    rules: &Rules,
    said: &ResponseControl,
    asked: &RequestControl,
    lifetime: Lifetime,
    age: u32,
) -> bool
    ensures { result ≡ may_follow_error rules.now said.now asked.now lifetime age }
{
    let by = staleness(lifetime, age);
    !prohibits_stale(rules.kind, said)
        // Also `no-cache` of a request, which asks for no stale response after an error either.
        && !asked.no_cache
        && (is_open(said.stale_if_error.time(rules.repeats), by)
            || is_open(asked.stale_if_error.time(Repeats::First), by))
}
