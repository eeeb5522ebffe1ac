//! What the answer to a validation means (RFC 9111 section 4.3.3; RFC 5861 section 4).

ghost use Rattle.std.specs.Prelude.{◌≡◌, ◌↔◌, Bool, true, IsTrue};
ghost use Rattle.pcache_validation.specs.Answers.{IsError, IsUnchanged, MayActAsFailed};

use http::StatusCode;
use pcache_base::moment::Moment;
use pcache_meta::meta::CacheMeta;

/// What a cache may do with the answer to its validation of a stored response.
#[derive(Clone, Copy, Debug, PartialEq, Eq)]
pub enum Validated {
    /// A 304: the stored response can be updated and reused.
    Unchanged,
    /// An error, after which the stored response may be served although it is stale.
    ServeStale,
    /// Any other answer, or none: what came is passed on, and a full response may be stored in place
    /// of the stored one.
    PassOn,
}

/// Whether an answer of this status counts as an error: 500, 502, 503, 504, or that none came (RFC
/// 5861 section 4).
pub fn is_error(status: &Option<StatusCode>) -> bool
    ensures { IsTrue result ↔ IsError status.now }
{
    match status {
        Some(status) => {
            *status == StatusCode::INTERNAL_SERVER_ERROR
                || *status == StatusCode::BAD_GATEWAY
                || *status == StatusCode::SERVICE_UNAVAILABLE
                || *status == StatusCode::GATEWAY_TIMEOUT
        }
        None => true,
    }
}

fn is_unchanged(status: &Option<StatusCode>) -> bool
    ensures { IsTrue result ↔ IsUnchanged status.now }
{
    match status {
        Some(status) => *status == StatusCode::NOT_MODIFIED,
        None => false,
    }
}

/// What the answer to the validation of a stored response means, by its status; `None` is that no
/// answer came. After an error (500, 502, 503, 504 or no answer) the stored response may be served
/// stale until its window for errors ends, unless a directive of it prohibits that.
pub fn after_validation(
    status: Option<StatusCode>,
    stored: &CacheMeta,
    prohibited: bool,
    now: Moment,
) -> Validated
    ensures unchanged { (result ≡ Validated.Unchanged) ↔ IsUnchanged status }
    ensures stale { (result ≡ Validated.ServeStale)
        ↔ MayActAsFailed status stored.now prohibited now }
{
    if is_unchanged(&status) {
        Validated::Unchanged
    } else if is_error(&status) && !prohibited && stored.serve_stale_if_error(now) {
        Validated::ServeStale
    } else {
        Validated::PassOn
    }
}
