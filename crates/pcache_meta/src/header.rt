//! Heads of requests and responses.
ghost use Rattle.std.specs.Prelude.{◌≡◌, IfOk, []};

use http::{Method, StatusCode};
use http_header::HeaderMap;
use pcache_base::error::Result;
use std::alloc::{AllocError, Global};

// Of our own, since the constants of `http::Version` state nothing.
/// A version of HTTP.
#[derive(Clone, Copy, Debug, PartialEq, Eq, PartialOrd, Ord)]
pub enum HttpVersion {
    /// HTTP/0.9.
    Http09,
    /// HTTP/1.0.
    Http10,
    /// HTTP/1.1.
    Http11,
    /// HTTP/2.
    Http2,
    /// HTTP/3.
    Http3,
}

/// The head of a response.
#[derive(Drop)]
pub struct ResponseHeader {
    /// The version of HTTP.
    pub version: HttpVersion,
    /// The status code.
    pub status: StatusCode,
    /// The fields.
    pub headers: HeaderMap,
}

/// The head of a response.
pub type RespHeader = ResponseHeader;

impl ResponseHeader {
    ghost use Rattle.pcache_meta.specs.declared.header.HttpVersion.TheVariants.{Http11};

    /// A head of HTTP/1.1 with this status and no fields.
    pub fn build(alloc: Global, status: StatusCode) -> ResponseHeader
        ensures { result ≡ record { version = Http11; status = status; headers = [] } }
    {
        ResponseHeader {
            version: HttpVersion::Http11,
            status,
            headers: HeaderMap::new(alloc),
        }
    }

    /// A copy of this head. Fails only when memory runs out.
    pub fn copied(&self) -> Result<ResponseHeader, AllocError>
        ensures ok { IfOk result (λ copy. copy ≡ self.now) }
    {
        Ok(ResponseHeader {
            version: self.version,
            status: self.status,
            headers: self.headers.clone()?,
        })
    }
}

/// The head of a request.
#[derive(Drop)]
pub struct RequestHeader {
    /// The method.
    pub method: Method,
    /// The request target (RFC 9112 section 3.2), as bytes.
    pub target: Vec<u8>,
    /// The fields.
    pub headers: HeaderMap,
}

/// The head of a request.
pub type ReqHeader = RequestHeader;
