//! Heads that rows spell: fields stand between ` & `, each a name, a colon with a space, and a value.
use crate::heads::append_as;
use http::{Method, StatusCode};
use http_header::HeaderMap;
use pcache_base::moment::Moment;
use pcache_meta::header::{RequestHeader, ResponseHeader};
use pcache_meta::meta::CacheMeta;
use std::alloc::Global;

fn append_all(alloc: Global, headers: &mut HeaderMap, text: &'static str) -> bool {
    for field in text.split(" & ") {
        let (name, value) = field.split_once(": ").unwrap_or((field, ""));
        if !name.is_empty() && !append_as(alloc, headers, name, value.as_bytes()) {
            return false;
        }
    }
    true
}

/// The fields that a text spells; `None` if it spells none.
pub fn fields(alloc: Global, text: &'static str) -> Option<HeaderMap> {
    let mut headers = HeaderMap::new(alloc);
    if append_all(alloc, &mut headers, text) {
        Some(headers)
    } else {
        None
    }
}

/// A status that is written as a number; 200 if it is none.
pub fn status(text: &str) -> StatusCode {
    match StatusCode::from_u16(text.parse::<u16>().unwrap_or(200)) {
        Ok(status) => status,
        Err(_) => StatusCode::OK,
    }
}

/// A request of this method with these fields.
pub fn request(alloc: Global, method: &str, text: &'static str) -> Option<RequestHeader> {
    let Ok(method) = Method::from_bytes(alloc, method.as_bytes()) else {
        return None;
    };
    Some(RequestHeader {
        method,
        target: Vec::new(alloc),
        headers: fields(alloc, text)?,
    })
}

/// A response of this status with these fields.
pub fn response(alloc: Global, code: &str, text: &'static str) -> Option<ResponseHeader> {
    let headers = fields(alloc, text)?;
    let mut header = ResponseHeader::build(alloc, status(code));
    header.headers = headers;
    Some(header)
}

/// A stored response of this status with these fields, which was received at second 1,000, is fresh
/// until then, and may be served stale after an error for a minute.
pub fn stored(alloc: Global, code: &str, text: &'static str) -> Option<CacheMeta> {
    let received = Moment::from_secs(1000);
    let header = response(alloc, code, text)?;
    Some(CacheMeta::new(received, received, 0, 60, header))
}
