//! The objects of handles.

use crate::managers::Managed;
use crate::served::Served;
use bytes::Bytes;
use pcache_base::variance::VarianceBuilder;
use pcache_control::cache_control::CacheControl;
use pcache_evict::eviction::{sharded_lru, simple_lru};
use pcache_meta::header::{RequestHeader, ResponseHeader};
use pcache_meta::meta::CacheMeta;

/// The object of a handle. One type has all kinds, so that the three functions that follow a handle's pointer are proved by hand
/// once; so each object has the room of the largest kind.
#[derive(Drop)]
pub enum Object {
    /// A variance in progress.
    Variance(VarianceBuilder<'static>),
    /// The head of a request.
    Asked(RequestHeader),
    /// The head of a response.
    Head(ResponseHeader),
    /// What Cache-Control says.
    Control(CacheControl),
    /// The meta of a stored response.
    Meta(CacheMeta),
    /// An eviction manager with one list.
    Simple(Managed<simple_lru::Manager>),
    // Always 16: their number is a parameter of the type.
    /// An eviction manager in 16 shards.
    Sharded(Managed<sharded_lru::Manager<16>>),
    /// A cache with its open requests. It is some thousands of bytes long, so it has a box of its own: an object of another kind,
    /// which a hit makes and frees several of, is not as long as that.
    Cache(Box<Served>),
    // An object of its own, so that they have one owner and an end like all else.
    /// Bytes that were read of a body, and are not copied.
    View(Bytes),
}
