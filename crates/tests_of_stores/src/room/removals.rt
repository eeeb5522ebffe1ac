//! Removals and expiries of rows: of a key, or of the entry with a number, or of a key's only entry.
use super::Kept;
use super::keys::{compact_named, entry_named};
use crate::rows::{Told, number, some_number, word};
use pcache_base::error::Result;
use pcache_base::key::CompactCacheKey;
use pcache_base::moment::Moment;
use pcache_evict::eviction::CacheEntryKey;
use pcache_store::storage::{PurgeOutcome, PurgeTarget, PurgeType};
use std::alloc::Global;

/// Makes the call of a row.
pub fn tell<S: Kept>(alloc: Global, store: &mut S, call: &'static str, told: &mut Told) {
    let name = word(call, 1);
    match word(call, 0) {
        "purge" | "expire" => match compact_named(alloc, name) {
            Ok(key) => tell_of_key(alloc, store, &key, call, told),
            Err(refused) => told.refused(&refused),
        },
        "expire-exact" => {
            let entry = entry_named(alloc, name, some_number(call, 3));
            tell_of_entry(alloc, store, entry, call, told);
        }
        _ => {
            let entry = entry_named(alloc, name, some_number(call, 2));
            tell_of_entry(alloc, store, entry, call, told);
        }
    }
}

fn tell_of_key<S: Kept>(
    alloc: Global,
    store: &mut S,
    key: &CompactCacheKey,
    call: &'static str,
    told: &mut Told,
) {
    let target = PurgeTarget::Active(key);
    match word(call, 0) {
        "purge" => tell_removed(store.purge(target, PurgeType::Invalidation), told),
        _ => {
            let now = Moment::from_secs(number(call, 2));
            tell_removed(store.expire(alloc, target, now), told);
        }
    }
}

fn tell_of_entry<S: Kept>(
    alloc: Global,
    store: &mut S,
    entry: Result<CacheEntryKey>,
    call: &'static str,
    told: &mut Told,
) {
    match entry {
        Ok(entry) => tell_of_exact(alloc, store, PurgeTarget::Exact(&entry), call, told),
        Err(refused) => told.refused(&refused),
    }
}

fn tell_of_exact<S: Kept>(
    alloc: Global,
    store: &mut S,
    target: PurgeTarget<'_>,
    call: &'static str,
    told: &mut Told,
) {
    match word(call, 0) {
        "purge-exact" => tell_removed(store.purge(target, PurgeType::Eviction), told),
        "purge-entry" => tell_removed(store.purge(target, PurgeType::Invalidation), told),
        _ => {
            let now = Moment::from_secs(number(call, 2));
            tell_removed(store.expire(alloc, target, now), told);
        }
    }
}

fn tell_removed(outcome: Result<PurgeOutcome>, told: &mut Told) {
    match outcome {
        Ok(outcome) => told.named(&outcome),
        Err(refused) => told.refused(&refused),
    }
}
