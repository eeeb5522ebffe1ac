//! A cache in four parts as a front.
use crate::cache::piece_of;
use crate::front::{Found, Front, NOW, meta_of};
use crate::rows::play;
use crate::scene::{ROWS, scene_of};
use bytes::Bytes;
use pcache_base::error::Result;
use pcache_base::key::CacheKey;
use pcache_base::seed::Seed;
use pcache_evict::eviction::simple_lru::Manager;
use pcache_request::HitStatus;
use pcache_shared_cache::{SharedCache, SharedRequest, Unnamed};
use std::alloc::Global;
use std::sync::Wait;
use std::time::Duration;

type Parts = SharedCache<Manager, Unnamed, 4>;

type Request = SharedRequest<Unnamed, 4>;

// A cache in four parts with its open requests.
struct InParts<'a, R: Wait> {
    rt: &'a R,
    cache: Parts,
    open: Vec<Request>,
}

impl<'a, R: Wait> Drop for InParts<'a, R> {
    fn drop(self) {
        let InParts { rt, cache, open } = self;
        end_all(rt, &cache, open);
    }
}

fn end_all<R: Wait>(rt: &R, cache: &Parts, open: Vec<Request>) {
    let mut open = open;
    'open: while let Some(request) = open.pop() {
        cache.end(rt, request);
    }
    open.destroy_empty();
}

fn look<R: Wait>(rt: &R, cache: &Parts, request: &mut Request) -> Result<Found> {
    if !request.cache().phase().may_look_up() {
        return Ok(Found::Nothing);
    }
    if let Some((meta, hit)) = cache.cache_lookup(rt, request, NOW)? {
        cache.cache_found(rt, request, meta, hit, HitStatus::Fresh, NOW)?;
        return Ok(Found::Reader);
    }
    Ok(match request.cache().held() {
        Some(held) if held.is_write() => Found::Permit,
        Some(_) => Found::ReadLock,
        None => Found::Nothing,
    })
}

fn begin<R: Wait>(rt: &R, cache: &Parts, request: &mut Request) -> Result<bool> {
    if !request.cache().phase().may_miss() {
        return Ok(false);
    }
    request.cache_miss();
    request.set_cache_meta(meta_of(cache.alloc()));
    if !request.cache().may_write() {
        return Ok(false);
    }
    cache.set_miss_handler(rt, request)?;
    Ok(true)
}

impl<'a, R: Wait> Front for InParts<'a, R> {
    fn alloc(&self) -> Global {
        self.cache.alloc()
    }

    fn open(&mut self, key: CacheKey) -> Result<Found> {
        self.open.reserve(1)?;
        let mut request = self.cache.request(key);
        let found = look(self.rt, &self.cache, &mut request);
        self.open.push_reserved(request);
        found
    }

    fn begin(&mut self, number: usize) -> Result<bool> {
        match self.open.get_mut(number) {
            Some(request) => begin(self.rt, &self.cache, request),
            None => Ok(false),
        }
    }

    fn write(&mut self, number: usize, bytes: Bytes) -> Result<bool> {
        match self.open.get_mut(number) {
            Some(request) if request.cache().phase().is_filling() => {
                self.cache.write_body(self.rt, request, bytes, false)
            }
            _ => Ok(false),
        }
    }

    fn finish(&mut self, number: usize) -> Result<bool> {
        match self.open.get_mut(number) {
            Some(request) if request.cache().phase().is_filling() => {
                Ok(self.cache.finish_miss_handler(self.rt, request)?.is_some())
            }
            _ => Ok(false),
        }
    }

    fn read(&mut self, number: usize) -> Result<Option<Bytes>> {
        match self.open.get_mut(number) {
            Some(request) if request.cache().has_body_reader() => {
                Ok(piece_of(self.cache.read_body(self.rt, request)?))
            }
            _ => Ok(None),
        }
    }

    fn end(&mut self) -> bool {
        match self.open.pop() {
            Some(request) => {
                self.cache.end(self.rt, request);
                true
            }
            None => false,
        }
    }

    fn purge(&mut self, key: CacheKey) -> Result<bool> {
        let mut request = self.cache.request(key);
        let was_there = self.cache.purge(self.rt, &mut request);
        self.cache.end(self.rt, request);
        was_there
    }

    fn slots(&self) -> u128 {
        self.cache.slots(self.rt)
    }
}

// Each part has room for one body of 2^21 bytes with what is kept beside it, and for no entry more.
const LIMIT: usize = 4 * ((1 << 21) + 1_000);

fn make_parts<R: Wait>(rt: &R, alloc: Global) -> Result<InParts<'_, R>> {
    Ok(InParts {
        rt,
        cache: Parts::with_lists(alloc, Seed::fixed(), LIMIT, None, Duration::from_secs(10))?,
        open: Vec::new(alloc),
    })
}

#[test]
fn large_things_in_parts(rt: HostRuntime) -> Result<()> {
    let alloc = rt.alloc();
    play(&rt, alloc, scene_of(make_parts(&rt, alloc)?)?, ROWS);
    Ok(())
}
