//! A number of seconds in a directive's value (RFC 9111 section 1.2.2).

ghost use Rattle.std.specs.Prelude.{◌≡◌, ◌*◌, ◌<◌, List, length, min, position, Some, None, IfSome, if◌then◌else◌, ◌^◌};
ghost use Rattle.std.specs.Duration.{as_nanos};
ghost use Rattle.std.specs.Str.Parse.{digits_value, without_leading_plus};
ghost use Rattle.pcache_control.specs.Seconds.{all_digits, delta_seconds_of, floor_seconds_of, is_point, overflow_seconds, pointed_seconds_of};

use std::time::Duration;

/// The value that a number of seconds past 32 bits counts as: 2^31 - 1, about 68 years.
pub const DELTA_SECONDS_OVERFLOW_VALUE: u32 = 2147483647;

/// `DELTA_SECONDS_OVERFLOW_VALUE` as a duration.
pub const fn delta_seconds_overflow_duration() -> Duration
    ensures { as_nanos result ≡ overflow_seconds * 1_000_000_000 }
{
    Duration::from_secs(DELTA_SECONDS_OVERFLOW_VALUE as u64)
}

// The least number past 32 bits, as which longer runs of digits count.
const LIMIT: u64 = 4294967296;

// The number that these digits spell, at most the limit; `None` if a byte is no digit.
fn digits(bytes: &[u8]) -> Option<u64>
    ensures { result ≡
        (if all_digits bytes.now then Some (min (digits_value 10 bytes.now) 4294967296) else None) }
{
    let mut value: u64 = 0;
    'digits: for b in bytes {
        if !b.is_ascii_digit() {
            return None;
        }
        value = (value * 10 + (*b - b'0') as u64).min(LIMIT);
    }
    Some(value)
}

fn without_plus(bytes: &[u8]) -> &[u8]
    ensures { result.now ≡ without_leading_plus bytes.now }
{
    match bytes {
        [b'+', rest @ ..] => rest,
        _ => bytes,
    }
}

/// The seconds that the bytes spell: an optional plus and at least one digit. A number past 32 bits
/// counts as `DELTA_SECONDS_OVERFLOW_VALUE`.
#[tactic(auto, unfolding(crate::specs::Seconds::delta_seconds_of))]
pub fn delta_seconds(bytes: &[u8]) -> Option<u32>
    ensures { result ≡ delta_seconds_of bytes.now }
{
    let text = without_plus(bytes);
    if text.is_empty() {
        return None;
    }
    let value = digits(text)?;
    Some(if value < LIMIT {
        value as u32
    } else {
        DELTA_SECONDS_OVERFLOW_VALUE
    })
}

// The index of the first point.
fn point(bytes: &[u8]) -> Option<usize>
    ensures place { result ≡ position is_point bytes.now }
    ensures within { IfSome result (λ at. at < length bytes.now) }
{
    bytes.iter().position(|b| *b == b'.')
}

// The whole seconds of digits with one point among them.
#[tactic(auto, unfolding(crate::specs::Seconds::pointed_seconds_of))]
fn pointed_seconds(bytes: &[u8]) -> Option<u32>
    ensures { result ≡ pointed_seconds_of bytes.now }
{
    let at = point(bytes)?;
    let whole = &bytes[..at];
    let fraction = &bytes[at + 1..];
    if whole.is_empty() && fraction.is_empty() {
        return None;
    }
    let value = digits(whole)?;
    let _fraction = digits(fraction)?;
    Some(value.min(2147483647) as u32)
}

/// The seconds that the bytes spell, with a fraction cut off: as `delta_seconds` reads them, or else
/// an optional plus and digits with one point among them, at least one digit (own). A number with a
/// point counts as `DELTA_SECONDS_OVERFLOW_VALUE` at most.
#[tactic(auto, unfolding(crate::specs::Seconds::floor_seconds_of))]
pub fn floor_seconds(bytes: &[u8]) -> Option<u32>
    ensures { result ≡ floor_seconds_of bytes.now }
{
    match delta_seconds(bytes) {
        Some(seconds) => Some(seconds),
        None => pointed_seconds(without_plus(bytes)),
    }
}
