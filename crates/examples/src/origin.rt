//! The responses of the origin, in place of a connection to one.
use bytes::Bytes;
use http::StatusCode;
use http_header::{CACHE_CONTROL, HeaderMapError, HeaderValue};
use pingora_cache::cache_control::CacheControl;
use pingora_cache::error::{Error, ErrorType, Result};
use pingora_cache::filters::resp_cacheable;
use pingora_cache::header::ResponseHeader;
use pingora_cache::moment::Moment;
use pingora_cache::{CacheMetaDefaults, RespCacheable};
use std::alloc::Global;
use std::time::Duration;

// A response that says nothing of its lifetime is not stored.
fn no_default(_status: StatusCode) -> Option<Duration> {
    None
}

/// The body of a path.
pub fn body(path: &str) -> Bytes {
    Bytes::from_static(match path {
        "/news" => b"today's news".as_slice(),
        _ => b"something".as_slice(),
    })
}

/// Whether a path's response, received at a moment, is stored: its meta, or the reason why not.
pub fn outcome(alloc: Global, path: &str, now: Moment) -> Result<RespCacheable> {
    let header = header(alloc, path)?;
    let control = CacheControl::from_resp_headers(alloc, &header)?;
    let defaults = CacheMetaDefaults::new(no_default, 0, 0);
    Ok(resp_cacheable(control.as_ref(), header, false, &defaults, now))
}

// The head of a path's response: news are fresh for a minute, an account is private to its user.
fn header(alloc: Global, path: &str) -> Result<ResponseHeader> {
    let control = match path {
        "/account" => HeaderValue::from_static("private"),
        _ => HeaderValue::from_static("max-age=60"),
    };
    let mut header = ResponseHeader::build(alloc, StatusCode::OK);
    match header.headers.append(CACHE_CONTROL, control) {
        Ok(_) => Ok(header),
        Err(refused) => Err(refusal(refused)),
    }
}

fn refusal(refused: HeaderMapError) -> Error {
    match refused {
        HeaderMapError::MaxSizeReached => Error::new(ErrorType::InternalError),
        HeaderMapError::OutOfMemory => Error::new(ErrorType::OutOfMemory),
    }
}
