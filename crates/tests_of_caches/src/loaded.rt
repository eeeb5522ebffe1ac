//! A cache over a manager that was loaded: its entries have no bodies yet, and are evicted when room is
//! needed.
use crate::requests::{List, OfTest};
use crate::room::Room;
use crate::rows::play;
use pcache_base::error::Result;
use pcache_base::moment::Moment;
use pcache_base::seed::Seed;
use pcache_cache::Cache;
use pcache_evict::eviction::simple_lru::Manager;
use pcache_evict::eviction::{CacheEntryKey, EvictionManager};
use pcache_files::saved::SavedManager;
use std::alloc::Global;
use std::fs;
use std::process::Abort;
use std::time::Duration;
use test_rows::key_of;

const FOLDER: &str = "loaded";

// The entry of a key as a whole, whichever write fills it.
fn entry_of(alloc: Global, name: &str) -> Result<CacheEntryKey> {
    Ok(CacheEntryKey::key_only(key_of(alloc, name.as_bytes(), "").to_compact()?))
}

fn admit(alloc: Global, manager: &mut Manager, name: &str) -> Result<()> {
    let _evicted = manager.admit(entry_of(alloc, name)?, 3, Moment::EPOCH)?;
    Ok(())
}

// Saves a list of two entries of three bytes each.
fn save_two(alloc: Global, files: &HostRuntime) -> Result<()> {
    let mut manager = Manager::new(alloc, Seed::fixed(), 9)?;
    admit(alloc, &mut manager, "a")?;
    admit(alloc, &mut manager, "b")?;
    manager.save(alloc, files, FOLDER, 1)
}

// A cache in which bodies may have five bytes together, over what was saved.
fn loaded(alloc: Global, files: &HostRuntime) -> Result<List> {
    let mut manager = Manager::new(alloc, Seed::fixed(), 5)?;
    let _ = manager.load(alloc, files, FOLDER)?;
    Ok(Cache::<Manager, OfTest>::new(alloc, Seed::fixed(), manager, Duration::from_secs(10)))
}

// Plays rows over what was saved, and saves it again. Returns whether it was loaded and saved.
fn is_played(rt: &impl Abort, alloc: Global, files: &HostRuntime, rows: &'static str) -> bool {
    match loaded(alloc, files) {
        Ok(cache) => {
            let mut room = Room::new(cache);
            play(rt, alloc, &mut room, rows);
            let is_saved = room.cache.manager().save(alloc, files, FOLDER, 2).is_ok();
            room.end();
            is_saved
        }
        Err(_refused) => false,
    }
}

const LOADED: &str = "
    # nothing is stored, and six bytes are tracked, one more than there is room for
    totals -> 0 in 0, 6 of 2 tracked, 0 of 0 went
    find a -> -
    # the first body is stored, and the least recently used entry is evicted: three and two bytes are within the limit
    fill c hi -> +
    find c -> hi
    totals -> 2 in 1, 5 of 2 tracked, 3 of 1 went";

const AGAIN: &str = "
    totals -> 0 in 0, 5 of 2 tracked, 0 of 0 went";

#[test]
fn what_was_loaded_goes_as_room_is_wanted(rt: HostRuntime) {
    let alloc = rt.alloc();
    let _ = fs::remove_dir_all(&rt, FOLDER);
    let is_there = save_two(alloc, &rt).is_ok()
        && is_played(&rt, alloc, &rt, LOADED)
        && is_played(&rt, alloc, &rt, AGAIN);
    assert!(rt; is_there && fs::remove_dir_all(&rt, FOLDER).is_ok());
}
