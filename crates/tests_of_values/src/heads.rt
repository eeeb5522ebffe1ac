//! Fields of heads, for the tests that need some.
use http_header::{HeaderMap, HeaderName, HeaderValue};
use std::alloc::Global;

/// Appends a field, and returns whether it was taken.
pub fn append(alloc: Global, headers: &mut HeaderMap, name: &str, value: &[u8]) -> bool {
    let Ok(name) = HeaderName::from_bytes(alloc, name.as_bytes()) else {
        return false;
    };
    append_to(alloc, headers, name, value)
}

fn append_to(alloc: Global, headers: &mut HeaderMap, name: HeaderName, value: &[u8]) -> bool {
    match HeaderValue::from_bytes(alloc, value) {
        Ok(value) => headers.append(name, value).is_ok(),
        Err(_refused) => false,
    }
}
