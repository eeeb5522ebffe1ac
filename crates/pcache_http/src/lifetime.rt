//! For how long a response is fresh (RFC 9111 section 4.2.1).

ghost use Rattle.std.specs.Prelude.{◌≡◌, ◌/◌, ◌<◌, ◌^◌, ℕ, IfSome, codes, ◌-◌, ◌≤◌};
ghost use Rattle.std.specs.Option.{option_copied};
ghost use Rattle.http_header.specs.HeaderMap.{get, get_all};
ghost use Rattle.pcache_http.specs.Age.{second};
ghost use Rattle.pcache_http.specs.Seconds.{counted};
ghost use Rattle.pcache_http.specs.Lifetime.{date_shown, date_in, date_value, amount_until, expiry_of, or_else, explicit_lifetime, allows_heuristics, tenth_since, heuristic_lifetime, lifetime_of, lifetime_seconds};

use crate::control::ResponseControl;
use crate::lists::trim_ows;
use crate::rules::{Heuristic, Rules};
use crate::seconds::{Amount, Number};
use crate::storing::{is_heuristically_cacheable, is_shared};
use http_header::{DATE, EXPIRES, HeaderMap, HeaderName, HeaderValue, LAST_MODIFIED};
use httpdate::HttpDate;
use pcache_base::moment::Moment;
use pcache_meta::header::ResponseHeader;

/// For how many seconds a response is fresh, from when it was made on.
#[derive(Clone, Copy, Debug, PartialEq, Eq)]
pub enum Lifetime {
    /// It says so (RFC 9111 section 4.2.1).
    Explicit(u32),
    /// It is guessed (section 4.2.2).
    Heuristic(u32),
    /// Nothing gives a time.
    Unknown,
}

impl Lifetime {
    ghost use Rattle.std.specs.Prelude.{◌≡◌};
    ghost use Rattle.pcache_http.specs.Lifetime.{lifetime_seconds};

    /// Its seconds; none if nothing gives a time.
    pub fn seconds(self) -> u32
        ensures { result ≡ lifetime_seconds self }
    {
        match self {
            Lifetime::Explicit(seconds) | Lifetime::Heuristic(seconds) => seconds,
            Lifetime::Unknown => 0,
        }
    }
}

// The second that a date in a field shows.
#[tactic(auto, unfolding(crate::specs::Lifetime::date_shown))]
fn date_shown(value: &HeaderValue) -> Option<u64>
    ensures { result ≡ date_shown value.now.bytes }
{
    match HttpDate::parse_ascii(trim_ows(value.as_bytes())) {
        Ok(date) => Some(date.unix_secs()),
        Err(_) => None,
    }
}

fn date_in(headers: &HeaderMap, name: &HeaderName) -> Option<u64>
    ensures { result ≡ date_in (get headers.now name.now) }
{
    date_shown(headers.get(name)?)
}

/// The second of a response's Date, or of its arrival if it has no valid one (RFC 9110 section
/// 6.6.1).
#[tactic(auto, unfolding(crate::specs::Lifetime::date_value))]
pub fn date_value(headers: &HeaderMap, received: Moment) -> u64
    ensures { result ≡ date_value headers.now (received / second) }
{
    date_in(headers, &DATE).unwrap_or(received.secs())
}

// The time from a date to an Expires.
fn expiry(date: u64, value: &HeaderValue) -> Amount
    ensures { result ≡ expiry_of date value.now }
{
    match date_shown(value) {
        Some(expires) => Amount::Seconds(expires.saturating_sub(date).min(4294967295) as u32),
        None => Amount::Invalid,
    }
}

// How often Expires is there, and the time up to the first one.
fn expiries(date: u64, headers: &HeaderMap) -> Number
    ensures { result ≡ counted (expiry_of date) (get_all headers.now (codes "expires")) }
{
    let mut values = headers.get_all(&EXPIRES).iter();
    let Some(first) = values.next() else {
        return Number::Absent;
    };
    let amount = expiry(date, first);
    if values.next().is_some() {
        Number::Repeated(amount)
    } else {
        Number::Once(amount)
    }
}

// The lifetime that a response gives itself.
#[tactic(auto, unfolding(crate::specs::Lifetime::explicit_lifetime))]
fn explicit_lifetime(
    rules: &Rules,
    said: &ResponseControl,
    date: u64,
    headers: &HeaderMap,
) -> Option<u32>
    ensures { result ≡ explicit_lifetime rules.now said.now date headers.now }
{
    if is_shared(rules.kind)
        && let Some(seconds) = said.s_maxage.time(rules.repeats)
    {
        return Some(seconds);
    }
    if let Some(seconds) = said.max_age.time(rules.repeats) {
        return Some(seconds);
    }
    expiries(date, headers).time(rules.repeats)
}

#[tactic(auto, unfolding(crate::specs::Lifetime::allows_heuristics))]
fn allows_heuristics(said: &ResponseControl, response: &ResponseHeader) -> bool
    ensures { result ≡ allows_heuristics said.now response.now.status }
{
    said.public || is_heuristically_cacheable(response.status)
}

// The lifetime that is guessed.
#[tactic(auto, unfolding(crate::specs::Lifetime::heuristic_lifetime))]
fn heuristic_lifetime(
    heuristic: Heuristic,
    said: &ResponseControl,
    date: u64,
    response: &ResponseHeader,
) -> Option<u32>
    ensures { result ≡ heuristic_lifetime heuristic said.now date response.now }
{
    let Heuristic::Tenth(most) = heuristic else {
        return None;
    };
    if !allows_heuristics(said, response) {
        return None;
    }
    let modified = date_in(&response.headers, &LAST_MODIFIED)?;
    Some((date.saturating_sub(modified) / 10).min(u64::from(most)) as u32)
}

/// For how long a response is fresh that was received at a moment: by `s-maxage` in a shared cache,
/// by `max-age`, by its Expires less its Date, or by the heuristic of the rules; `said` is what its
/// Cache-Control says.
pub fn lifetime_of(
    rules: &Rules,
    said: &ResponseControl,
    response: &ResponseHeader,
    received: Moment,
) -> Lifetime
    ensures { result ≡ lifetime_of rules.now said.now response.now (received / second) }
{
    let date = date_value(&response.headers, received);
    if let Some(seconds) = explicit_lifetime(rules, said, date, &response.headers) {
        return Lifetime::Explicit(seconds);
    }
    match heuristic_lifetime(rules.heuristic, said, date, response) {
        Some(seconds) => Lifetime::Heuristic(seconds),
        None => Lifetime::Unknown,
    }
}
