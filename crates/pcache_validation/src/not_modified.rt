//! Which fields of a stored response a 304 that is made of it has (RFC 9110 section 15.4.5).

ghost use Rattle.std.specs.Prelude.{◌↔◌, IsTrue};
ghost use Rattle.pcache_meta.specs.Header.{shown_fields};
ghost use Rattle.pcache_validation.specs.NotModified.{IsOwed, IsSent};

use crate::fields::has;
use http_header::{
    CACHE_CONTROL, CONTENT_LOCATION, DATE, ETAG, EXPIRES, HeaderMap, HeaderName, LAST_MODIFIED,
    VARY,
};

// Whether a 304 has the field if a 200 would have it.
fn is_owed(name: &HeaderName) -> bool
    ensures { IsTrue result ↔ IsOwed name.now }
{
    *name == CONTENT_LOCATION
        || *name == DATE
        || *name == ETAG
        || *name == VARY
        || *name == CACHE_CONTROL
        || *name == EXPIRES
}

/// Whether a field of a stored response is sent with the 304 that is made of it: Content-Location,
/// Date, ETag, Vary, Cache-Control and Expires are, and Last-Modified if there is no ETag. The Age
/// of the stored response is sent besides (RFC 9111 section 5.1).
pub fn is_sent(stored: &HeaderMap, name: &HeaderName) -> bool
    ensures { IsTrue result ↔ IsSent (shown_fields stored.now) name.now }
{
    is_owed(name) || (*name == LAST_MODIFIED && !has(stored, &ETAG))
}
