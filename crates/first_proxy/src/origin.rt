//! In place of the origin: a proxy fetches the body over a connection.
use bytes::Bytes;
use pingora_cache::error::Result;
use std::alloc::Global;

/// The body of a path.
pub fn fetch(alloc: Global, path: &str) -> Result<Bytes> {
    let text = format!(in alloc; "the news of {path}")?;
    Ok(Bytes::from_vec(text.into_bytes())?)
}
