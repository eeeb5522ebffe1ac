//! What the answer to a HEAD does to a stored response (RFC 9111 section 4.3.5).

ghost use Rattle.std.specs.Prelude.{◌≡◌, ◌↔◌, IsTrue};
ghost use Rattle.std.specs.Option.{option_copied};
ghost use Rattle.pcache_meta.specs.Header.{shown_fields};
ghost use Rattle.pcache_validation.specs.Fields.{bytes_of};
ghost use Rattle.pcache_validation.specs.Heads.{agrees_on, same_value, Agrees, MakesStale, Updates};

use crate::fields::{has, only};
use http_header::{CONTENT_LENGTH, ETAG, HeaderMap, HeaderName, HeaderValue, LAST_MODIFIED};
use pcache_meta::header::ResponseHeader;
use pcache_meta::meta::CacheMeta;

/// What the answer to a HEAD does to a stored response of GET that could have been chosen for it.
#[derive(Clone, Copy, Debug, PartialEq, Eq)]
pub enum Freshened {
    /// It is updated with the fields of the answer.
    Updated,
    /// It is considered stale from now on.
    Stale,
    /// It stays as it is.
    Untouched,
}

// Whether both values are there, and are the same.
fn same_value(a: Option<&HeaderValue>, b: Option<&HeaderValue>) -> bool
    ensures { result
        ≡ same_value (bytes_of (option_copied a.entry)) (bytes_of (option_copied b.entry)) }
{
    match (a, b) {
        (Some(a), Some(b)) => a.as_bytes() == b.as_bytes(),
        _ => false,
    }
}

fn agrees_on(name: &HeaderName, head: &HeaderMap, stored: &HeaderMap) -> bool
    ensures { result ≡ agrees_on name.now (shown_fields head.now) (shown_fields stored.now) }
{
    !has(head, name) || same_value(only(head, name), only(stored, name))
}

fn agrees(head: &HeaderMap, stored: &HeaderMap) -> bool
    ensures { IsTrue result ↔ Agrees (shown_fields head.now) (shown_fields stored.now) }
{
    agrees_on(&ETAG, head, stored)
        && agrees_on(&LAST_MODIFIED, head, stored)
        // One without a Content-Length differs too: its body's length is not in its head.
        && agrees_on(&CONTENT_LENGTH, head, stored)
}

/// What the answer to a HEAD does to a stored response with these fields: a 200 updates it if each
/// validator and the Content-Length, as far as they came, have the values that are stored, and else
/// makes it stale.
pub fn after_head_of(head: &ResponseHeader, stored: &HeaderMap) -> Freshened
    ensures updated { (result ≡ Freshened.Updated)
        ↔ Updates head.now.status (shown_fields head.now.headers) (shown_fields stored.now) }
    ensures stale { (result ≡ Freshened.Stale)
        ↔ MakesStale head.now.status (shown_fields head.now.headers) (shown_fields stored.now) }
{
    if head.status.as_u16() != 200 {
        Freshened::Untouched
    } else if agrees(&head.headers, stored) {
        Freshened::Updated
    } else {
        Freshened::Stale
    }
}

/// What the answer to a HEAD does to a stored response of which a store lends its meta.
pub fn after_head(head: &ResponseHeader, stored: &CacheMeta) -> Freshened
    ensures updated { (result ≡ Freshened.Updated)
        ↔ Updates head.now.status (shown_fields head.now.headers) stored.now.header.fields }
    ensures stale { (result ≡ Freshened.Stale)
        ↔ MakesStale head.now.status (shown_fields head.now.headers) stored.now.header.fields }
{
    after_head_of(head, stored.headers())
}
