//! Files of more than 64 KiB, which no single read gives whole.
use crate::files::failing::Failing;
use pcache_base::error::Result;
use pcache_base::key::CompactCacheKey;
use pcache_base::seed::Seed;
use pcache_base::text::Text;
use pcache_evict::eviction::{
    CacheEntryId, CacheEntryKey, EvictionManager, sharded_lru, simple_lru,
};
use pcache_files::saved::SavedManager;
use pcache_files::sharded_lru::serialize_shard;
use pcache_files::simple_lru::serialize;
use std::alloc::Global;
use std::fs;
use std::fs::Files;
use std::sync::atomic::AtomicU64;

// How many entries a large list has, of 24 bytes or more each.
const MANY: u64 = 6_000;

// An entry whose primary hash ends in a number, of each tenth with the number of a write.
fn numbered(alloc: Global, number: u64) -> Result<CacheEntryKey> {
    let [a, b, c, d, e, f, g, h] = number.to_be_bytes();
    let key = CompactCacheKey {
        primary: [0, 1, 2, 3, 4, 5, 6, 7, a, b, c, d, e, f, g, h],
        variance: None,
        user_tag: Text::new(String::from_str(alloc, "1")?),
    };
    let id = if number % 10 == 0 {
        Some(CacheEntryId::new(number))
    } else {
        None
    };
    Ok(CacheEntryKey::from_entry_id(key, id))
}

fn many(alloc: Global) -> Result<Vec<(CacheEntryKey, usize)>> {
    let mut entries = Vec::new(alloc);
    for number in 0..MANY {
        entries.push((numbered(alloc, number)?, (number & 0x3FF) as usize))?;
    }
    Ok(entries)
}

// A manager with one list of nothing.
fn one_list(alloc: Global) -> Result<simple_lru::Manager> {
    Ok(simple_lru::Manager::new(alloc, Seed::fixed(), usize::MAX)?)
}

// A manager with two lists of nothing.
fn two_lists(alloc: Global) -> Result<sharded_lru::Manager<2>> {
    Ok(sharded_lru::Manager::<2>::with_capacity(alloc, Seed::fixed(), usize::MAX, 1)?)
}

// Whether a file has more than 64 KiB.
fn is_large<R: Files>(files: &R, path: &str) -> bool {
    match fs::metadata(files, path) {
        Ok(told) => told.len() > 65_536,
        Err(_) => false,
    }
}

fn is_same(one: Result<Vec<u8>>, other: Result<Vec<u8>>) -> bool {
    match one {
        Ok(one) => is_as(other, one.as_slice()),
        Err(_refused) => false,
    }
}

fn is_as(bytes: Result<Vec<u8>>, wanted: &[u8]) -> bool {
    match bytes {
        Ok(bytes) => bytes.as_slice() == wanted,
        Err(_refused) => false,
    }
}

// Whether what is saved of one manager is loaded into another, which holds so many entries then.
fn goes_round<R: Files, M: SavedManager>(
    alloc: Global,
    files: &R,
    saved: &M,
    loaded: &mut M,
    dir: &str,
) -> bool {
    saved.save(alloc, files, dir, 1).is_ok()
        && matches!(loaded.load(alloc, files, dir), Ok(0))
        && loaded.total_items() as u64 == MANY
}

fn list_goes_round<R: Files>(
    alloc: Global,
    files: &R,
    saved: &simple_lru::Manager,
    loaded: Result<simple_lru::Manager>,
) -> bool {
    match loaded {
        Ok(loaded) => {
            let mut loaded = loaded;
            goes_round(alloc, files, saved, &mut loaded, "large")
                && is_same(serialize(alloc, saved), serialize(alloc, &loaded))
        }
        Err(_refused) => false,
    }
}

fn shards_go_round<R: Files>(
    alloc: Global,
    files: &R,
    saved: &sharded_lru::Manager<2>,
    loaded: Result<sharded_lru::Manager<2>>,
) -> bool {
    match loaded {
        Ok(loaded) => {
            let mut loaded = loaded;
            goes_round(alloc, files, saved, &mut loaded, "large_shards")
                && is_same(
                    serialize_shard(alloc, saved, 0),
                    serialize_shard(alloc, &loaded, 0),
                )
                && is_same(
                    serialize_shard(alloc, saved, 1),
                    serialize_shard(alloc, &loaded, 1),
                )
        }
        Err(_refused) => false,
    }
}

fn many_in_one_list(alloc: Global) -> Result<simple_lru::Manager> {
    let mut manager = one_list(alloc)?;
    manager.load_entries(many(alloc)?)?;
    Ok(manager)
}

fn many_in_two_lists(alloc: Global) -> Result<sharded_lru::Manager<2>> {
    let mut manager = two_lists(alloc)?;
    manager.load_entries(many(alloc)?)?;
    Ok(manager)
}

// Whether a large list goes round by these files, of which each call is interrupted once and made again, and takes or
// gives at most a thousand bytes, and then by the files themselves.
fn list_in_pieces<R: Files>(alloc: Global, files: &R) -> bool {
    let calls = AtomicU64::new(0);
    match many_in_one_list(alloc) {
        Ok(saved) => {
            list_goes_round(
                alloc,
                &Failing::slow(files, &calls),
                &saved,
                one_list(alloc),
            ) && is_large(files, "large/simple_lru.data")
                && list_goes_round(alloc, files, &saved, one_list(alloc))
        }
        Err(_refused) => false,
    }
}

fn shards_in_pieces<R: Files>(alloc: Global, files: &R) -> bool {
    let calls = AtomicU64::new(0);
    match many_in_two_lists(alloc) {
        Ok(saved) => {
            shards_go_round(
                alloc,
                &Failing::slow(files, &calls),
                &saved,
                two_lists(alloc),
            ) && is_large(files, "large_shards/lru.data.0")
                && is_large(files, "large_shards/lru.data.1")
                && shards_go_round(alloc, files, &saved, two_lists(alloc))
        }
        Err(_refused) => false,
    }
}

#[test]
fn a_large_list_in_short_pieces(rt: HostRuntime) {
    let _ = fs::remove_dir_all(&rt, "large");
    let does = list_in_pieces(rt.alloc(), &rt) && fs::remove_dir_all(&rt, "large").is_ok();
    assert!(rt; does);
}

#[test]
fn large_shards_in_short_pieces(rt: HostRuntime) {
    let _ = fs::remove_dir_all(&rt, "large_shards");
    let do_so = shards_in_pieces(rt.alloc(), &rt)
        && fs::remove_dir_all(&rt, "large_shards").is_ok();
    assert!(rt; do_so);
}
