//! Targets of purges, and numbers of writes.
use crate::managers::key_of;
use crate::rows::Told;
use pcache_base::error::ErrorType;
use pcache_base::key::CompactCacheKey;
use pcache_evict::eviction::{CacheEntryId, CacheEntryKey, CacheEntryKeyRef};
use pcache_store::storage::PurgeTarget;
use pcache_store::storage::streaming_write::{U32WriteId, U64WriteId};
use std::alloc::Global;

fn key(alloc: Global) -> CompactCacheKey {
    key_of(alloc, 0xab, "1")
}

// The key's entry of number 42.
fn entry(alloc: Global) -> CacheEntryKey {
    CacheEntryKey::identified(key(alloc), CacheEntryId::new(42))
}

fn is_named(key: &CompactCacheKey, entry: &CacheEntryKey) -> bool {
    let (target, active) = (PurgeTarget::Exact(entry), PurgeTarget::Active(key));
    active.key() == target.key() && active != target
}

// Whether what is removed is the entry of number 42, of the one that a target names and of a key's active one.
fn is_removed(key: &CompactCacheKey, same: CompactCacheKey) -> bool {
    let id = CacheEntryId::new(42);
    let entry = CacheEntryKey::identified(same, id);
    let (target, active) = (PurgeTarget::Exact(&entry), PurgeTarget::Active(key));
    let removed = [
        target.removed_entry(None) == CacheEntryKeyRef::from(&entry),
        target.removed_entry(Some(id)) == CacheEntryKeyRef::from(&entry),
        active.removed_entry(Some(id)) == CacheEntryKeyRef::from(&entry),
    ];
    removed == [true; 3]
}

#[test]
fn a_removed_entry_is_the_one_named(rt: HostRuntime) {
    let alloc = rt.alloc();
    assert!(rt; is_removed(&key(alloc), key(alloc)) && is_named(&key(alloc), &entry(alloc)));
}

fn prints_as(told: &mut Told, target: PurgeTarget<'_>, wanted: &str) -> bool {
    told.clear();
    told.shown(&target);
    told.is(wanted)
}

fn are_printed(told: &mut Told, key: &CompactCacheKey, entry: &CacheEntryKey) -> bool {
    let active = "active entry for abababababababababababababababab, user_tag: 1";
    let exact = "abababababababababababababababab, user_tag: 1, entry ID: 2a";
    prints_as(told, PurgeTarget::Active(key), active)
        && prints_as(told, PurgeTarget::Exact(entry), exact)
}

#[test]
fn targets_are_printed(rt: HostRuntime) {
    let alloc = rt.alloc();
    assert!(rt; are_printed(&mut Told::new(alloc), &key(alloc), &entry(alloc)));
}

fn long_of(bytes: &[u8]) -> Option<u64> {
    match U64WriteId::try_from(bytes) {
        Ok(id) => Some(u64::from(id)),
        Err(_refused) => None,
    }
}

fn short_of(bytes: &[u8]) -> Option<u32> {
    match U32WriteId::try_from(bytes) {
        Ok(id) => Some(u32::from(id)),
        Err(_refused) => None,
    }
}

fn are_read() -> bool {
    long_of([0, 0, 0, 0, 0, 0, 1, 0].as_slice()) == Some(256)
        && short_of([1, 0, 0, 0].as_slice()) == Some(0x0100_0000)
}

fn are_written() -> bool {
    let long = U64WriteId::from(0x0102_0304_0506_0708_u64);
    let short = U32WriteId::from(7);
    long.as_bytes() == [1, 2, 3, 4, 5, 6, 7, 8].as_slice()
        && short.as_bytes() == [0, 0, 0, 7].as_slice()
}

fn is_too_short() -> bool {
    match U64WriteId::try_from([0; 4].as_slice()) {
        Ok(_id) => false,
        Err(refused) => refused.etype() == ErrorType::InternalError,
    }
}

#[test]
fn numbers_of_writes_are_bytes(rt: HostRuntime) {
    assert!(rt; are_written() && are_read() && is_too_short());
}
