//! How often the calls on a cache were hits, misses, waits and fills.
ghost use Rattle.std.specs.Prelude.{◌≡◌};
ghost use Rattle.pcache_c.specs.Counts.{filled, missed, nothing_counted, taken_as, waited, when_done};
ghost use Rattle.pcache_c.specs.Handles.{AsksOf, IsSame, OnKind};
ghost use Rattle.pcache_c.specs.Objects.{as_cache};

use crate::codes::{BAD_HANDLE, OK, WRONG_KIND};
use crate::handle::PcacheHandle;
use crate::object::Object;
use pcache_request::phase::HitStatus;
use std::alloc::Global;

// Beside the cache and not in it, since upstream's has no counts: they are made where a call ends,
// by its code.
/// What a cache has counted since it was made. A count stops at the largest number.
#[repr(C)]
#[derive(Clone, Copy)]
pub struct PcacheCounted {
    /// Takes of what a look-up found, as fresh.
    pub hits: u64,
    /// Takes of what a look-up found, as expired.
    pub stale_hits: u64,
    /// Requests that went on as a miss, to fill their key. One that took a stale body before is in both counts.
    pub misses: u64,
    /// Waits for a lock that ended, in whichever way.
    pub waits: u64,
    /// Writes that ended with their body stored.
    pub fills: u64,
}

impl PcacheCounted {
    /// Nothing was counted yet.
    pub(crate) fn none() -> PcacheCounted
        ensures { result ≡ nothing_counted }
    {
        PcacheCounted {
            hits: 0,
            stale_hits: 0,
            misses: 0,
            waits: 0,
            fills: 0,
        }
    }

    /// Counts a take that ended with this code. What was let go is no hit.
    pub(crate) fn count_take(&mut self, code: u32, status: HitStatus)
        ensures { self.new ≡ when_done code (taken_as status) self.old }
    {
        // Not when it is found: what a look-up found may still be passed over.
        if code != OK {
            return;
        }
        match status {
            HitStatus::Fresh | HitStatus::ForceFresh => {
                self.hits = self.hits.saturating_add(1);
            }
            HitStatus::Expired | HitStatus::ForceExpired | HitStatus::ForceExpiredServeStale => {
                self.stale_hits = self.stale_hits.saturating_add(1);
            }
            HitStatus::ForceMiss | HitStatus::FailedHitFilter => {}
        }
    }

    /// Counts a miss that ended with this code.
    pub(crate) fn count_miss(&mut self, code: u32)
        ensures { self.new ≡ when_done code missed self.old }
    {
        // Not when a look-up finds nothing: the request may wait first, and be served then.
        if code == OK {
            self.misses = self.misses.saturating_add(1);
        }
    }

    /// Counts a wait that this was said of: one that goes on is not counted yet.
    pub(crate) fn count_wait(&mut self, code: u32, outcome: u32)
        ensures { self.new ≡ when_done code (waited outcome) self.old }
    {
        // Once, when it ends, however often it was polled.
        if code == OK && outcome != 0 {
            self.waits = self.waits.saturating_add(1);
        }
    }

    /// Counts the end of a write with this code.
    pub(crate) fn count_fill(&mut self, code: u32)
        ensures { self.new ≡ when_done code filled self.old }
    {
        if code == OK {
            self.fills = self.fills.saturating_add(1);
        }
    }
}

fn counted_of(object: &Object, out: &mut PcacheCounted) -> u32
    ensures { OnKind (as_cache object.now) result (out.new ≡ out.old) (λ s.
        (result ≡ 0) × (out.new ≡ s.counts)) }
{
    match object {
        Object::Cache(served) => {
            *out = served.counts;
            OK
        }
        _ => WRONG_KIND,
    }
}

/// What a cache has counted since it was made: the calls of `pcache_request_take` that took what was found as fresh, and those that
/// took it as expired; of `pcache_request_miss`; of `pcache_request_wait` that said how a wait ended; and of `pcache_request_finish`
/// that stored a body. Only a call that returned PCACHE_OK counts, and no other call changes a count.
#[unsafe(no_mangle)]
pub extern "C" fn pcache_cache_counted(
    alloc: Global,
    cache: &mut PcacheHandle,
    out: &mut PcacheCounted,
) -> u32
    ensures says { AsksOf as_cache cache.old result (out.new ≡ out.old) (λ s.
        (result ≡ 0) × (out.new ≡ s.counts)) }
    ensures same { IsSame cache.old cache.new }
{
    let Some(object) = cache.take(alloc) else {
        return BAD_HANDLE;
    };
    let code = counted_of(&*object, out);
    cache.put(object);
    code
}
