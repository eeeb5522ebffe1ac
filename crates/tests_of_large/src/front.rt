//! What the rows ask of a cache and of one in parts alike. Requests stand by their numbers, from 0 in the order in which they are
//! opened, and the last one ends first.
use bytes::Bytes;
use http::StatusCode;
use pcache_base::error::Result;
use pcache_base::key::CacheKey;
use pcache_base::moment::Moment;
use pcache_meta::header::ResponseHeader;
use pcache_meta::meta::CacheMeta;
use std::alloc::Global;

/// The moment of all calls.
pub const NOW: Moment = Moment::EPOCH;

/// What a request has after it looked its key up.
#[derive(Clone, Copy, PartialEq, Eq)]
pub enum Found {
    /// A reader of a body, or of a write.
    Reader,
    /// The permit to fill the key.
    Permit,
    /// A read lock.
    ReadLock,
    /// Nothing.
    Nothing,
}

/// A cache, as the rows see it.
pub trait Front: Drop {
    /// Its allocator.
    fn alloc(&self) -> Global;

    /// Opens one more request, looks its key up, and takes what is found.
    fn open(&mut self, key: CacheKey) -> Result<Found>;

    /// Begins the write of a request that found nothing. Returns whether it may.
    fn begin(&mut self, number: usize) -> Result<bool>;

    /// Adds a piece to its write. Returns whether it was taken.
    fn write(&mut self, number: usize, bytes: Bytes) -> Result<bool>;

    /// Ends its write. Returns whether the body is stored.
    fn finish(&mut self, number: usize) -> Result<bool>;

    /// Reads on; nothing at the end of the body, or if no more is there yet.
    fn read(&mut self, number: usize) -> Result<Option<Bytes>>;

    /// Ends the last request, if there is one.
    fn end(&mut self) -> bool;

    /// Purges a key. Returns whether anything was stored.
    fn purge(&mut self, key: CacheKey) -> Result<bool>;

    /// How many slots have a body.
    fn slots(&self) -> u128;
}

/// The key with this number. All of them are in one shard of a store and of a lock table, which have 16, and in one part.
pub fn key_of(alloc: Global, number: u64) -> CacheKey {
    let mut key = CacheKey::new(Vec::new(alloc), String::new(alloc));
    key.set_primary_bin_override((u128::from(number) << 4).to_be_bytes());
    key
}

/// The meta of a response that is fresh for a minute.
pub fn meta_of(alloc: Global) -> CacheMeta {
    let header = ResponseHeader::build(alloc, StatusCode::OK);
    CacheMeta::new(Moment::from_secs(60), NOW, 0, 0, header)
}
