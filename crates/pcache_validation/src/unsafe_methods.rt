//! What a response to an unsafe method takes away (RFC 9111 section 4.4).

ghost use Rattle.std.specs.Prelude.{◌≡◌, ◌↔◌, IsTrue, IfOk, IfSome, Ok, None, codes};
ghost use Rattle.pcache_meta.specs.Header.{shown_fields};
ghost use Rattle.pcache_validation.specs.Fields.{only};
ghost use Rattle.pcache_validation.specs.Unsafe.{AreOfOneOrigin, Invalidates, IsNamedBy, IsNoError, IsOfOrigin, IsSafe};
ghost use Rattle.url.specs.Parser.{IsOutOfRoom};
ghost use Rattle.url.specs.Parts.{Parts};

use crate::fields::only;
use http::{Method, StatusCode};
use http_header::{CONTENT_LOCATION, HeaderMap, HeaderName, LOCATION};
use pcache_base::error::Result;
use std::alloc::AllocError;
use url::{ParseError, Url};

/// Whether a method is safe: GET, HEAD, OPTIONS and TRACE are (RFC 9110 section 9.2.1). One whose
/// safety is unknown counts as unsafe.
pub fn is_safe(method: &Method) -> bool
    ensures { IsTrue result ↔ IsSafe method.now }
{
    *method == Method::GET
        || *method == Method::HEAD
        || *method == Method::OPTIONS
        || *method == Method::TRACE
}

fn is_no_error(status: StatusCode) -> bool
    ensures { IsTrue result ↔ IsNoError status }
{
    200 <= status.as_u16() && status.as_u16() < 400
}

/// Whether a response of this status, to a request of this method, invalidates what is stored for
/// the target URI: the method is unsafe, and the status is one of success or redirection.
pub fn invalidates(method: &Method, status: StatusCode) -> bool
    ensures { IsTrue result ↔ Invalidates method.now status }
{
    !is_safe(method) && is_no_error(status)
}

/// Whether two URIs are of the same origin: the same scheme, host and port (RFC 9110 section
/// 4.3.1).
pub fn is_same_origin(a: &Url, b: &Url) -> bool
    ensures { IsTrue result ↔ AreOfOneOrigin a.now b.now }
{
    a.scheme() == b.scheme()
        && a.host_str() == b.host_str()
        && a.port_or_known_default() == b.port_or_known_default()
}

// Whether a URL could not be made for lack of memory, or is too long.
fn is_out_of_room(error: ParseError) -> bool
    ensures { IsTrue result ↔ IsOutOfRoom error }
{
    match error {
        ParseError::OutOfMemory => true,
        ParseError::Overflow => true,
        _ => false,
    }
}

/// The URI that a reference of the response names, if it is of the origin of the target URI, against
/// which it is resolved. What is no reference names none. Fails only if there is no room for the URI.
pub fn of_origin(target: &Url, reference: &[u8]) -> Result<Option<Url>, AllocError>
    ensures found { IfOk result (λ found. IfSome found (IsOfOrigin target.now reference.now)) }
    ensures none { result ≡ Ok None
        → (uri : Parts)
        → ¬ (IsOfOrigin target.now reference.now uri) }
{
    let Ok(text) = str::from_utf8(reference) else {
        return Ok(None);
    };
    match target.join(text) {
        Ok(uri) => {
            if is_same_origin(target, &uri) {
                Ok(Some(uri))
            } else {
                Ok(None)
            }
        }
        Err(error) => {
            if is_out_of_room(error) {
                Err(AllocError)
            } else {
                Ok(None)
            }
        }
    }
}

// The URI that the one line of a field names, if it is of the origin of the target URI.
fn named_by(target: &Url, fields: &HeaderMap, name: &HeaderName) -> Result<Option<Url>, AllocError>
    ensures found { IfOk result
        (IsNamedBy target.now (only (shown_fields fields.now) name.now)) }
{
    match only(fields, name) {
        Some(reference) => of_origin(target, reference.as_bytes()),
        None => Ok(None),
    }
}

/// Which URIs besides the target URI a response to an unsafe method may invalidate: what its
/// Location and its Content-Location name, if that is of the origin of the target URI.
#[derive(Drop)]
pub struct Invalidated {
    /// What Location names.
    pub location: Option<Url>,
    /// What Content-Location names.
    pub content_location: Option<Url>,
}

/// Which URIs besides the target URI a response invalidates, if it is one that `invalidates` says
/// invalidates the target. Allocates for each URI; fails only if there is no room for one.
pub fn taken_away(target: &Url, response: &HeaderMap) -> Result<Invalidated, AllocError>
    ensures location { IfOk result (λ found. IsNamedBy target.now
        (only (shown_fields response.now) (codes "location")) found.location) }
    ensures content_location { IfOk result (λ found. IsNamedBy target.now
        (only (shown_fields response.now) (codes "content-location")) found.content_location) }
{
    let location = named_by(target, response, &LOCATION)?;
    let content_location = named_by(target, response, &CONTENT_LOCATION)?;
    Ok(Invalidated {
        location,
        content_location,
    })
}
