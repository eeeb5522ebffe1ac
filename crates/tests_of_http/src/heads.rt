//! Heads that rows spell: fields as in a message, with bars between them.
use http_header::{HeaderMap, HeaderName, HeaderValue};
use std::alloc::Global;

/// The fields of a text as `name: value | name: value`; `None` if it is no such text, or memory ran out.
pub fn fields(alloc: Global, text: &'static str) -> Option<HeaderMap> {
    let mut headers = HeaderMap::new(alloc);
    for field in text.split('|') {
        if !append(alloc, &mut headers, field.trim()) {
            return None;
        }
    }
    Some(headers)
}

// Appends a field, and returns whether it was taken. An empty text is none.
fn append(alloc: Global, headers: &mut HeaderMap, field: &'static str) -> bool {
    if field.is_empty() {
        return true;
    }
    let (name, value) = field.split_once(':').unwrap_or((field, ""));
    append_as(alloc, headers, name, value.trim().as_bytes())
}

/// Appends a field of this name, and returns whether it was taken.
pub fn append_as(alloc: Global, headers: &mut HeaderMap, name: &str, value: &[u8]) -> bool {
    let Ok(name) = HeaderName::from_bytes(alloc, name.as_bytes()) else {
        return false;
    };
    append_to(alloc, headers, name, value)
}

fn append_to(alloc: Global, headers: &mut HeaderMap, name: HeaderName, value: &[u8]) -> bool {
    match HeaderValue::from_bytes(alloc, value) {
        Ok(value) => headers.append(name, value).is_ok(),
        Err(_refused) => false,
    }
}
