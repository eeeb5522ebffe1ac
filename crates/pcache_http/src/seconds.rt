//! Numbers of seconds in directives (RFC 9111 section 1.2.2).

ghost use Rattle.std.specs.Prelude.{◌≡◌, Some, None, if◌then◌else◌, min};
ghost use Rattle.std.specs.Option.{option_copied};
ghost use Rattle.std.specs.Str.Parse.{digits_value};
ghost use Rattle.pcache_control.specs.Seconds.{all_digits};
ghost use Rattle.pcache_control.specs.Values.{unquoted};
ghost use Rattle.pcache_http.specs.Seconds.{amount_of, delta_seconds, time_given, time_of, largest};

use crate::rules::Repeats;

/// What a directive with a number of seconds says.
#[derive(Clone, Copy, Debug, PartialEq, Eq)]
pub enum Amount {
    /// It has no value.
    Bare,
    /// Its value is no number of seconds.
    Invalid,
    /// So many seconds.
    Seconds(u32),
}

/// How often a directive or a field is there, and what its first value says.
#[derive(Clone, Copy, Debug, PartialEq, Eq)]
pub enum Number {
    /// It is not there.
    Absent,
    /// It is there once.
    Once(Amount),
    /// It is there more than once.
    Repeated(Amount),
}

// The largest number of seconds, as which longer runs of digits count: 32 bits have 136 years, and
// sums of them fit 64 bits.
const LARGEST: u64 = 4294967295;

// The number that these digits spell, at most the largest; `None` if a byte is no digit.
fn digits(bytes: &[u8]) -> Option<u32>
    ensures { result ≡
        (if all_digits bytes.now then Some (min (digits_value 10 bytes.now) 4294967295) else None) }
{
    let mut value: u64 = 0;
    'digits: for b in bytes {
        if !b.is_ascii_digit() {
            return None;
        }
        value = (value * 10 + (*b - b'0') as u64).min(LARGEST);
    }
    Some(value as u32)
}

/// The seconds that these bytes spell: one or more digits. A number that is too large counts as
/// 4294967295 (RFC 9111 section 1.2.2).
#[tactic(auto, unfolding(crate::specs::Seconds::delta_seconds))]
pub fn delta_seconds(bytes: &[u8]) -> Option<u32>
    ensures { result ≡ delta_seconds bytes.now }
{
    if bytes.is_empty() {
        return None;
    }
    digits(bytes)
}

// The text without one pair of outer quotes.
pub(crate) fn without_quotes(bytes: &[u8]) -> &[u8]
    ensures { result.now ≡ unquoted bytes.now }
{
    match bytes {
        [b'"', inner @ .., b'"'] => inner,
        _ => bytes,
    }
}

// What the value of a directive says.
pub(crate) fn amount_of(value: Option<&[u8]>) -> Amount
    ensures { result ≡ amount_of (option_copied value.entry) }
{
    let Some(bytes) = value else {
        return Amount::Bare;
    };
    match delta_seconds(without_quotes(bytes)) {
        Some(seconds) => Amount::Seconds(seconds),
        None => Amount::Invalid,
    }
}

// The time that a directive gives; what is no number gives none.
fn time_given(amount: Amount) -> u32
    ensures { result ≡ time_given amount }
{
    match amount {
        Amount::Seconds(seconds) => seconds,
        // What is invalid is stale (RFC 9111 section 4.2.1).
        Amount::Bare | Amount::Invalid => 0,
    }
}

impl Number {
    ghost use Rattle.std.specs.Prelude.{◌≡◌};
    ghost use Rattle.pcache_http.specs.Seconds.{time_of};
    ghost use Rattle.pcache_http.specs.Storing.{is_there};

    /// The seconds that it gives: those of its first value, and 0 if that is no number, or if it is
    /// repeated and the rule says that this counts as stale. `None` if it is not there.
    pub fn time(self, rule: Repeats) -> Option<u32>
        ensures { result ≡ time_of rule self }
    {
        match self {
            Number::Absent => None,
            Number::Once(amount) => Some(time_given(amount)),
            Number::Repeated(amount) => match rule {
                Repeats::First => Some(time_given(amount)),
                Repeats::Stale => Some(0),
            },
        }
    }

    /// Whether it is there.
    pub fn is_there(self) -> bool
        ensures { result ≡ is_there self }
    {
        match self {
            Number::Absent => false,
            Number::Once(_) | Number::Repeated(_) => true,
        }
    }
}
