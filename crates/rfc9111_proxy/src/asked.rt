//! A line of the input: a request, and what the origin would answer to it.
use http::{Method, StatusCode};
use http_header::{HeaderMap, HeaderName, HeaderValue};
use pingora_cache::header::{HttpVersion, RequestHeader, ResponseHeader};
use pingora_cache::moment::Moment;
use std::alloc::Global;

/// A request, and what the origin would answer.
#[derive(Drop)]
pub struct Asked {
    /// When the request comes, and when the origin answers.
    pub now: Moment,
    /// The request.
    pub head: RequestHeader,
    /// The answer of the origin; `None` if there is none.
    pub answer: Option<ResponseHeader>,
}

/// The request of a line; `None` if it is none, or memory ran out.
pub fn read(alloc: Global, line: &str) -> Option<Asked> {
    let (asked, answered) = line.split_once("=>").unwrap_or((line, ""));
    let (words, fields) = asked.split_once('|').unwrap_or((asked, ""));
    let mut words = words.split_ascii_whitespace();
    let now = Moment::from_secs(words.next()?.parse().ok()?);
    let method = Method::from_bytes(alloc, words.next()?.as_bytes()).ok()?;
    let target = words.next()?.as_bytes().to_vec(alloc).ok()?;
    let headers = fields_of(alloc, fields)?;
    let answer = read_answer(alloc, answered)?;
    Some(Asked {
        now,
        head: RequestHeader {
            method,
            target,
            headers,
        },
        answer,
    })
}

// The answer of a text; `Some(None)` if it is empty.
fn read_answer(alloc: Global, text: &str) -> Option<Option<ResponseHeader>> {
    if text.is_empty() {
        return Some(None);
    }
    let (status, fields) = text.split_once('|').unwrap_or((text, ""));
    let status = StatusCode::from_bytes(status.trim().as_bytes()).ok()?;
    let headers = fields_of(alloc, fields)?;
    Some(Some(ResponseHeader {
        version: HttpVersion::Http11,
        status,
        headers,
    }))
}

// The fields of a text, with bars between them.
fn fields_of(alloc: Global, text: &str) -> Option<HeaderMap> {
    let mut headers = HeaderMap::new(alloc);
    for field in text.split('|') {
        append(alloc, &mut headers, field.trim())?;
    }
    Some(headers)
}

// Appends a field; an empty text is none.
fn append(alloc: Global, headers: &mut HeaderMap, field: &str) -> Option<()> {
    if field.is_empty() {
        return Some(());
    }
    let (name, value) = field.split_once(':')?;
    let name = HeaderName::from_bytes(alloc, name.as_bytes()).ok()?;
    let value = HeaderValue::from_bytes(alloc, value.trim().as_bytes()).ok()?;
    headers.append(name, value).ok()?;
    Some(())
}
