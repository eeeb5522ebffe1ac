//! With which validators a cache asks again (RFC 9111 section 4.3.1).

ghost use Rattle.std.specs.Prelude.{◌≡◌};
ghost use Rattle.std.specs.Option.{option_copied};
ghost use Rattle.pcache_meta.specs.Header.{shown_fields};
ghost use Rattle.pcache_validation.specs.Fields.{bytes_of};
ghost use Rattle.pcache_validation.specs.Asking.{sent_date, sent_since, sent_tag};

use crate::fields::{date_of, first, has};
use crate::validators::entity_tag;
use http_header::{DATE, ETAG, HeaderMap, HeaderName, HeaderValue, LAST_MODIFIED};

/// The value of If-None-Match with which to ask again for a stored response: its ETag, if that
/// spells an entity tag.
pub fn if_none_match(stored: &HeaderMap) -> Option<&HeaderValue>
    ensures { bytes_of (option_copied result) ≡ sent_tag (shown_fields stored.now) }
{
    // A sender may not send what the grammar does not have.
    if entity_tag(stored).is_none() {
        return None;
    }
    first(stored, &ETAG)
}

// The value of a field that is a date.
fn date_line<'a>(stored: &'a HeaderMap, name: &HeaderName) -> Option<&'a HeaderValue>
    ensures { bytes_of (option_copied result) ≡ sent_date (shown_fields stored.now) name.now }
{
    if date_of(stored, name).is_none() {
        return None;
    }
    first(stored, name)
}

/// The value of If-Modified-Since with which to ask again for a stored response: its Last-Modified
/// or, if it has none, its Date. A value that is no date is not sent.
pub fn if_modified_since(stored: &HeaderMap) -> Option<&HeaderValue>
    ensures { bytes_of (option_copied result) ≡ sent_since (shown_fields stored.now) }
{
    if has(stored, &LAST_MODIFIED) {
        date_line(stored, &LAST_MODIFIED)
    } else {
        date_line(stored, &DATE)
    }
}
