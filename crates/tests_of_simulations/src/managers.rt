//! What runs do not call of the managers.
use pcache_base::key::CompactCacheKey;
use pcache_base::moment::Moment;
use pcache_base::seed::Seed;
use pcache_base::text::Text;
use pcache_evict::eviction::{CacheEntryKey, EvictionManager};
use pcache_policies::{clock, fifo, s3_fifo, sieve, two_queues};
use std::alloc::{AllocError, Global};

const NEVER_READ: Moment = Moment::EPOCH;

fn entry(alloc: Global, name: u8) -> CacheEntryKey {
    CacheEntryKey::key_only(CompactCacheKey {
        primary: [name; 16],
        variance: None,
        user_tag: Text::new(String::new(alloc)),
    })
}

// Whether exactly this entry was evicted, or none.
fn is_gone(gone: Result<Vec<CacheEntryKey>, AllocError>, entry: Option<&CacheEntryKey>) -> bool {
    match gone {
        Ok(gone) => gone.first() == entry && gone.len() < 2,
        Err(_refused) => false,
    }
}

// Brings in one of two entries, and uses the other, for which there is room.
fn takes_both<E: EvictionManager>(manager: &mut E, a: &CacheEntryKey, b: &CacheEntryKey) -> bool {
    let Ok(copy) = a.copied() else {
        return false;
    };
    is_gone(manager.admit(copy, 2, NEVER_READ), None)
        && matches!(manager.access(b, 1, NEVER_READ), Ok(false))
        && manager.peek(b)
}

// Whether the older one is evicted when the other's weight is raised from 1 to 4.
fn is_raised<E: EvictionManager>(manager: &mut E, a: &CacheEntryKey, b: &CacheEntryKey) -> bool {
    is_gone(manager.increment_weight(b, 3, None), Some(a))
        && manager.total_size() == 4
        && manager.total_items() == 1
        && manager.evicted_size() == 2
        && manager.evicted_items() == 1
}

fn is_emptied<E: EvictionManager>(manager: &mut E, b: &CacheEntryKey) -> bool {
    manager.remove(b);
    match manager.entries() {
        Ok(entries) => entries.is_empty(),
        Err(_refused) => false,
    }
}

// Whether a manager with room for a weight of 4, and for two entries, does all that.
fn is_one<E: EvictionManager>(alloc: Global, manager: Result<E, AllocError>) -> bool {
    let (a, b) = (entry(alloc, b'a'), entry(alloc, b'b'));
    match manager {
        Ok(mut manager) => {
            takes_both(&mut manager, &a, &b)
                && is_raised(&mut manager, &a, &b)
                && is_emptied(&mut manager, &b)
        }
        Err(_refused) => false,
    }
}

#[test]
fn sieve_is_a_manager(rt: HostRuntime) {
    let alloc = rt.alloc();
    let manager = sieve::Manager::new_with_watermark(alloc, Seed::fixed(), 4, Some(2));
    assert!(rt; is_one(alloc, manager));
}

#[test]
fn s3_fifo_is_a_manager(rt: HostRuntime) {
    let alloc = rt.alloc();
    let manager = s3_fifo::Manager::new_with_watermark(alloc, Seed::fixed(), 4, Some(2));
    assert!(rt; is_one(alloc, manager));
}

#[test]
fn fifo_is_a_manager(rt: HostRuntime) {
    let alloc = rt.alloc();
    let manager = fifo::Manager::new_with_watermark(alloc, Seed::fixed(), 4, Some(2));
    assert!(rt; is_one(alloc, manager));
}

#[test]
fn clock_is_a_manager(rt: HostRuntime) {
    let alloc = rt.alloc();
    let manager = clock::Manager::new_with_watermark(alloc, Seed::fixed(), 4, Some(2));
    assert!(rt; is_one(alloc, manager));
}

#[test]
fn two_queues_are_a_manager(rt: HostRuntime) {
    let alloc = rt.alloc();
    let manager = two_queues::Manager::new_with_watermark(alloc, Seed::fixed(), 4, Some(2));
    assert!(rt; is_one(alloc, manager));
}
