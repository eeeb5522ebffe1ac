//! A cache as a front.
use crate::front::{Found, Front, NOW, meta_of};
use crate::rows::play;
use crate::scene::{ROWS, scene_of};
use bytes::Bytes;
use pcache_base::error::Result;
use pcache_base::key::CacheKey;
use pcache_base::poll::Poll;
use pcache_base::seed::Seed;
use pcache_cache::{Cache, CacheRequest};
use pcache_evict::eviction::simple_lru::Manager;
use pcache_request::HitStatus;
use std::alloc::Global;
use std::time::Duration;

// Names the cache.
struct Here;

type Request = CacheRequest<Here>;

type Whole = Cache<Manager, Here>;

// A cache with its open requests.
struct Alone {
    cache: Whole,
    open: Vec<Request>,
}

impl Drop for Alone {
    fn drop(self) {
        let Alone { mut cache, open } = self;
        end_all(&mut cache, open);
    }
}

fn end_all(cache: &mut Whole, open: Vec<Request>) {
    let mut open = open;
    'open: while let Some(request) = open.pop() {
        cache.end(request);
    }
    open.destroy_empty();
}

fn look(cache: &mut Whole, request: &mut Request) -> Result<Found> {
    if !request.cache.phase().may_look_up() {
        return Ok(Found::Nothing);
    }
    if let Some((meta, hit)) = cache.cache_lookup_without_policy(request, NOW)? {
        cache.cache_found(request, meta, hit, HitStatus::Fresh, NOW)?;
        return Ok(Found::Reader);
    }
    Ok(match request.cache.held() {
        Some(held) if held.is_write() => Found::Permit,
        Some(_) => Found::ReadLock,
        None => Found::Nothing,
    })
}

fn begin(cache: &mut Whole, request: &mut Request) -> Result<bool> {
    if !request.cache.phase().may_miss() {
        return Ok(false);
    }
    request.cache.cache_miss();
    request.cache.set_cache_meta(meta_of(cache.alloc()));
    if !request.cache.may_write() {
        return Ok(false);
    }
    cache.set_miss_handler(request)?;
    Ok(true)
}

impl Front for Alone {
    fn alloc(&self) -> Global {
        self.cache.alloc()
    }

    fn open(&mut self, key: CacheKey) -> Result<Found> {
        self.open.reserve(1)?;
        let mut request = CacheRequest::new(self.cache.alloc());
        request.cache.set_cache_key(key);
        let found = look(&mut self.cache, &mut request);
        self.open.push_reserved(request);
        found
    }

    fn begin(&mut self, number: usize) -> Result<bool> {
        match self.open.get_mut(number) {
            Some(request) => begin(&mut self.cache, request),
            None => Ok(false),
        }
    }

    fn write(&mut self, number: usize, bytes: Bytes) -> Result<bool> {
        match self.open.get_mut(number) {
            Some(request) if request.cache.phase().is_filling() => {
                self.cache.write_body(request, bytes, false)
            }
            _ => Ok(false),
        }
    }

    fn finish(&mut self, number: usize) -> Result<bool> {
        match self.open.get_mut(number) {
            Some(request) if request.cache.phase().is_filling() && self.cache.may_end(request) => {
                Ok(self.cache.finish_miss_handler(request)?.is_some())
            }
            _ => Ok(false),
        }
    }

    fn read(&mut self, number: usize) -> Result<Option<Bytes>> {
        match self.open.get_mut(number) {
            Some(request) if request.cache.has_body_reader() => {
                Ok(piece_of(self.cache.read_body(request)?))
            }
            _ => Ok(None),
        }
    }

    fn end(&mut self) -> bool {
        match self.open.pop() {
            Some(request) => {
                self.cache.end(request);
                true
            }
            None => false,
        }
    }

    fn purge(&mut self, key: CacheKey) -> Result<bool> {
        let mut request: Request = CacheRequest::new(self.cache.alloc());
        request.cache.set_cache_key(key);
        let was_there = self.cache.purge(&mut request);
        self.cache.end(request);
        was_there
    }

    fn slots(&self) -> u128 {
        self.cache.slots() as u128
    }
}

/// The bytes of a read, if it gave some.
pub fn piece_of(read: Poll<Option<Bytes>>) -> Option<Bytes> {
    match read {
        Poll::Ready(piece) => piece,
        Poll::Pending => None,
    }
}

fn make_alone(alloc: Global) -> Result<Alone> {
    let seed = Seed::fixed();
    let manager = Manager::new(alloc, seed, 1 << 21)?;
    Ok(Alone {
        cache: Cache::new(alloc, seed, manager, Duration::from_secs(10)),
        open: Vec::new(alloc),
    })
}

#[test]
fn large_things_in_a_cache(rt: HostRuntime) -> Result<()> {
    let alloc = rt.alloc();
    play(&rt, alloc, scene_of(make_alone(alloc)?)?, ROWS);
    Ok(())
}
