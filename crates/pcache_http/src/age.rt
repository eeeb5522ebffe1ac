//! How old a response is (RFC 9111 section 4.2.3).

ghost use Rattle.std.specs.Prelude.{◌≡◌, ◌<◌, ◌≤◌, ◌*◌, ◌+◌, ◌^◌, codes};
ghost use Rattle.http_header.specs.HeaderMap.{get};
ghost use Rattle.pcache_http.specs.Age.{second, age_value, apparent_age, corrected_age_value, corrected_initial_age, current_age};

use crate::lifetime::date_value;
use crate::lists::Members;
use crate::seconds::delta_seconds;
use http_header::{AGE, HeaderMap};
use pcache_base::moment::Moment;

const SECOND: u128 = 1_000_000_000;

/// The seconds of a response's Age: of a list the first member, and none if it is no number.
#[tactic(auto, unfolding(crate::specs::Age::age_value))]
pub fn age_value(headers: &HeaderMap) -> u32
    ensures { result ≡ age_value headers.now }
{
    let Some(member) = Members::of(&headers.get_all(&AGE)).next() else {
        return 0;
    };
    delta_seconds(member).unwrap_or(0)
}

// How long before its arrival the response was made, as its Date says, in nanoseconds.
#[tactic(auto, unfolding(crate::specs::Age::apparent_age))]
fn apparent_age(headers: &HeaderMap, response_time: Moment) -> u128
    ensures is { result ≡ apparent_age headers.now response_time }
    ensures bound { result < 2 ^ 100 }
{
    let date = u128::from(date_value(headers, response_time));
    response_time.as_nanos().saturating_sub(date * SECOND)
}

// How old the response was on its way, as its Age says, in nanoseconds.
#[tactic(auto, unfolding(crate::specs::Age::corrected_age_value))]
fn corrected_age_value(headers: &HeaderMap, request_time: Moment, response_time: Moment) -> u128
    ensures is { result ≡ corrected_age_value headers.now request_time response_time }
    ensures bound { result < 2 ^ 100 }
{
    let delay = response_time
        .as_nanos()
        .saturating_sub(request_time.as_nanos());
    u128::from(age_value(headers)) * SECOND + delay
}

/// How old a response was when it was received, in nanoseconds: the more of what its Date and what
/// its Age with the response's delay say (RFC 9111 section 4.2.3).
#[tactic(auto, unfolding(crate::specs::Age::corrected_initial_age))]
pub fn corrected_initial_age(
    headers: &HeaderMap,
    request_time: Moment,
    response_time: Moment,
) -> u128
    ensures is { result ≡ corrected_initial_age headers.now request_time response_time }
    ensures bound { result < 2 ^ 100 }
{
    let apparent = apparent_age(headers, response_time);
    apparent.max(corrected_age_value(headers, request_time, response_time))
}

/// How old a response is now, in whole seconds, which is the Age to send (RFC 9111 sections 4.2.3 and
/// 5.1): how old it was when it was received, and the time since then. At most 4294967295.
pub fn current_age(initial_age: u128, response_time: Moment, now: Moment) -> u32
    requires { initial_age < 2 ^ 100 }
    ensures { result ≡ current_age initial_age response_time now }
{
    let resident = now.as_nanos().saturating_sub(response_time.as_nanos());
    // Cut off once, at the end: a lifetime is whole, so it is more than the exact age exactly if it
    // is more than the cut one.
    ((initial_age + resident) / SECOND).min(4294967295) as u32
}
