//! Keys and metas that several tests use.
use http::StatusCode;
use pcache_base::error::Result;
use pcache_base::key::CacheKey;
use pcache_base::moment::Moment;
use pcache_meta::header::ResponseHeader;
use pcache_meta::meta::CacheMeta;
use std::alloc::Global;

/// A key whose primary bytes are the name.
pub fn key_of(alloc: Global, name: &str) -> Result<CacheKey> {
    let primary = name.as_bytes().to_vec(alloc)?;
    Ok(CacheKey::new(primary, String::from_str(alloc, "1")?))
}

/// The meta of a response that is fresh until this second.
pub fn meta_until(alloc: Global, fresh_until: u64) -> CacheMeta {
    let header = ResponseHeader::build(alloc, StatusCode::OK);
    let until = Moment::from_secs(fresh_until);
    CacheMeta::new(until, Moment::EPOCH, 30, 30, header)
}
