//! A cache with its open requests, as one object.
ghost use Rattle.std.specs.Prelude.{◌≡◌, ℕ, None, option_map};
ghost use Rattle.std.specs.Duration.{as_nanos};
ghost use Rattle.pcache_store.specs.Readers.{reader_of};
ghost use Rattle.pcache_c.specs.AnyManagers.{evicted_in, limits_in, tracked_in};
ghost use Rattle.pcache_c.specs.Counts.{nothing_counted};
ghost use Rattle.pcache_c.specs.Opening.{EndsNumber, EndsRequest, IsNew, OpensRequest, new_cache};
ghost use Rattle.pcache_c.specs.Requests.{LetsGoFound};
ghost use Rattle.pcache_c.specs.Seats.{request_at, round_at};

use crate::any_manager::AnyManager;
use crate::codes::{BAD_HANDLE, NO_MEMORY, OK};
use crate::counts::PcacheCounted;
use crate::seats::{Seat, Seats};
use bytes::Bytes;
use pcache_base::key::CacheKey;
use pcache_base::seed::Seed;
use pcache_cache::{Cache, CacheRequest, Weighing};
use pcache_meta::meta::CacheMeta;
use pcache_store::memory::MemHitHandler;
use std::alloc::Global;
use std::time::Duration;

/// The mark of the cache of a handle, and of its requests.
pub(crate) struct OfHandle;

/// A cache over a manager of one of several policies.
pub(crate) type AnyCache = Cache<AnyManager, OfHandle>;

/// An open request, with the pair that its look-up found and the bytes that were read and not
/// returned yet.
pub(crate) struct Open {
    pub(crate) request: CacheRequest<OfHandle>,
    pub(crate) found: Option<(CacheMeta, MemHitHandler)>,
    pub(crate) piece: Bytes,
    // The index of the first byte of the piece that was not returned.
    pub(crate) next_byte: usize,
}

impl Open {
    // Gives back all that the request holds.
    fn end(self, cache: &mut AnyCache)
        ensures { EndsRequest cache.old cache.new self }
    {
        let Open {
            request,
            found,
            piece,
            next_byte: _,
        } = self;
        drop(piece);
        let_go(cache, found);
        cache.end(request);
    }
}

/// Lets go what a look-up found.
pub(crate) fn let_go(cache: &mut AnyCache, found: Option<(CacheMeta, MemHitHandler)>)
    ensures { LetsGoFound (option_map (λ q. (q.0, reader_of q.1)) found) cache.old cache.new }
{
    if let Some((_meta, hit)) = found {
        cache.let_go(hit);
    }
}

/// A cache with its open requests, and what it counted.
pub struct Served {
    pub(crate) cache: AnyCache,
    pub(crate) seats: Seats<Open>,
    pub(crate) counts: PcacheCounted,
}

impl Served {
    pub(crate) fn new(
        alloc: Global,
        seed: Seed,
        manager: AnyManager,
        age_timeout: Duration,
        weighing: Weighing,
    ) -> Served
        ensures cache { result.cache ≡ new_cache weighing (tracked_in manager) (limits_in manager)
            (evicted_in manager) (as_nanos age_timeout) }
        ensures counts { result.counts ≡ nothing_counted }
        ensures none { (number : ℕ) → request_at result.seats number ≡ None }
        ensures rounds { (place : ℕ) → round_at result.seats place ≡ 0 }
    {
        Served {
            cache: Cache::with_weighing(alloc, seed, manager, age_timeout, weighing),
            seats: Seats::new(alloc),
            counts: PcacheCounted::none(),
        }
    }

    /// Opens a request of a key, and says its number.
    pub(crate) fn open(&mut self, alloc: Global, key: CacheKey, number: &mut u64) -> u32
        ensures { OpensRequest key self.old self.new number.new result }
    {
        let Some(place) = self.seats.free_place() else {
            return NO_MEMORY;
        };
        *number = self.seats.put(place, new_open(alloc, key));
        OK
    }

    /// Ends a request, which gives back all that it holds.
    pub(crate) fn end(&mut self, number: u64) -> u32
        ensures { EndsNumber number self.old self.new result }
    {
        match self.seats.take(number) {
            Some(open) => {
                open.end(&mut self.cache);
                OK
            }
            None => BAD_HANDLE,
        }
    }
}

// A request that was just opened.
fn new_open(alloc: Global, key: CacheKey) -> Open
    ensures { IsNew key result }
{
    let mut request = CacheRequest::new(alloc);
    request.cache.set_cache_key(key);
    Open {
        request,
        found: None,
        piece: Bytes::new(),
        next_byte: 0,
    }
}

// Ending a cache ends its requests.
impl Drop for Served {
    fn drop(self) {
        let Served {
            mut cache,
            seats: Seats {
                mut seats,
                first_free: _,
            },
            counts: _,
        } = self;
        'seats: while let Some(seat) = seats.pop() {
            let Seat {
                round: _,
                next_free: _,
                request,
            } = seat;
            if let Some(open) = request {
                open.end(&mut cache);
            }
        }
        seats.into_iter().destroy_empty();
        drop(cache);
    }
}
