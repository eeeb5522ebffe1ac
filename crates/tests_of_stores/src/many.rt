//! Stores and managers take many keys: no small number of them is the most.
use crate::managers::NEVER_READ;
use crate::room::metas::meta_until;
use pcache_base::key::CacheKey;
use pcache_base::seed::Seed;
use pcache_evict::eviction::sharded_lru::Manager;
use pcache_evict::eviction::{CacheEntryKey, EvictionManager};
use pcache_store::memory::MemCache;
use pcache_store::storage::{HandleMiss, Storage};
use std::alloc::Global;
use test_rows::key_of;

fn key_number(alloc: Global, number: u32) -> CacheKey {
    key_of(alloc, number.to_be_bytes().as_slice(), "")
}

fn stores_one(alloc: Global, store: &mut MemCache, number: u32) -> bool {
    let key = key_number(alloc, number);
    match store.get_miss_handler(alloc, &key, &meta_until(alloc, 60)) {
        Ok(writer) => writer.finish(store).is_ok(),
        Err(_refused) => false,
    }
}

const KEYS: u32 = 3_000;

fn takes_keys(alloc: Global, store: &mut MemCache) -> bool {
    for number in 0..KEYS {
        if !stores_one(alloc, store, number) {
            return false;
        }
    }
    store.slots() == 3_000
}

// Begins so many writes, each inside the one before, and returns how many records the store has
// then.
fn records_inside(alloc: Global, store: &mut MemCache, depth: u32) -> usize {
    if depth == 0 {
        return store.write_records();
    }
    let key = key_number(alloc, depth);
    match store.get_miss_handler(alloc, &key, &meta_until(alloc, 60)) {
        Ok(writer) => {
            let inside = records_inside(alloc, store, depth - 1);
            writer.drop_write(store);
            inside
        }
        Err(_refused) => 0,
    }
}

fn admits_one(alloc: Global, manager: &mut Manager<4>, number: u32) -> bool {
    match key_number(alloc, number).to_compact() {
        Ok(key) => {
            let entry = CacheEntryKey::from_entry_id(key, None);
            manager.admit(entry, 1, NEVER_READ).is_ok()
        }
        Err(_refused) => false,
    }
}

fn takes_entries(alloc: Global, manager: &mut Manager<4>) -> bool {
    for number in 0..KEYS {
        if !admits_one(alloc, manager, number) {
            return false;
        }
    }
    manager.total_items() == 3_000
}

#[test]
fn a_store_takes_many_keys_and_writes(rt: HostRuntime) {
    let alloc = rt.alloc();
    let takes = takes_keys(alloc, &mut MemCache::new(alloc, Seed::fixed()));
    let records = records_inside(alloc, &mut MemCache::new(alloc, Seed::fixed()), 300);
    assert!(rt; takes && records == 300);
}

#[test]
fn a_manager_in_shards_takes_many_entries(rt: HostRuntime) {
    let alloc = rt.alloc();
    let is_good = match Manager::<4>::with_capacity(alloc, Seed::fixed(), 1_000_000, 0) {
        Ok(mut manager) => takes_entries(alloc, &mut manager),
        Err(_refused) => false,
    };
    assert!(rt; is_good);
}
