//! What is kept of a response beside its head: the fields of its request that its Vary nominates, by which a later request is told to
//! have the same ones (RFC 9111, 4.1). They stand in the head that is stored, under names that begin with `pcache-asked-`; what an origin
//! sends under such a name is not stored.
use http_header::{HeaderMap, HeaderMapError, HeaderName, HeaderValue, VARY};
use pcache_http::lists::Members;
use pingora_cache::error::{Error, ErrorType, Result};
use pingora_cache::header::ResponseHeader;
use std::alloc::Global;

// The beginning of the names of kept fields.
const MARK: &str = "pcache-asked-";

/// The head of a response as it came, and the kept fields of its request.
#[derive(Drop)]
pub struct Original {
    /// The head of the response.
    pub head: ResponseHeader,
    /// What the request that it was stored for said in the fields that its Vary nominates.
    pub asked: HeaderMap,
}

fn add(headers: &mut HeaderMap, name: HeaderName, value: HeaderValue) -> Result<()> {
    match headers.append(name, value) {
        Ok(_) => Ok(()),
        Err(HeaderMapError::OutOfMemory) => Err(Error::new(ErrorType::OutOfMemory)),
        Err(_) => Err(Error::new(ErrorType::InternalError)),
    }
}

/// The fields of a response that is stored for a request with these fields.
pub fn with_asked(alloc: Global, headers: &HeaderMap, asked: &HeaderMap) -> Result<HeaderMap> {
    let mut kept = HeaderMap::new(alloc);
    for (name, value) in headers.iter() {
        if !name.as_str().starts_with(MARK) {
            add(&mut kept, name.clone()?, value.clone()?)?;
        }
    }
    for name in Members::of(&headers.get_all(&VARY)) {
        add_asked(alloc, &mut kept, asked, name)?;
    }
    Ok(kept)
}

// Adds what a request said in a field, under the field's kept name, unless that is there.
fn add_asked(alloc: Global, kept: &mut HeaderMap, asked: &HeaderMap, name: &[u8]) -> Result<()> {
    let mut marked = MARK.as_bytes().to_vec(alloc)?;
    marked.extend_from_slice(name)?;
    let Ok(marked) = HeaderName::from_bytes(alloc, marked.as_slice()) else {
        return Ok(());
    };
    if kept.contains_key(&marked) {
        return Ok(());
    }
    for value in asked.get_all(name).iter() {
        add(kept, marked.clone()?, value.clone()?)?;
    }
    Ok(())
}

/// The head of a stored response, and what is kept of its request.
pub fn original_of(alloc: Global, stored: &ResponseHeader) -> Result<Original> {
    let mut headers = HeaderMap::new(alloc);
    let mut asked = HeaderMap::new(alloc);
    for (name, value) in stored.headers.iter() {
        match name.as_str().strip_prefix(MARK) {
            Some(kept) => {
                if let Ok(name) = HeaderName::from_bytes(alloc, kept.as_bytes()) {
                    add(&mut asked, name, value.clone()?)?;
                }
            }
            None => add(&mut headers, name.clone()?, value.clone()?)?,
        }
    }
    let head = ResponseHeader {
        version: stored.version,
        status: stored.status,
        headers,
    };
    Ok(Original { head, asked })
}
