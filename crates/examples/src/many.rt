//! Many open requests: a `Vec` of values that must be spent.
ghost use Rattle.std.specs.Prelude.{◌≡◌, ◌<◌, vec_len};
ghost use Rattle.pingora_cache.specs.Words.{CacheKey};

use crate::front::{FrontCache, Request, request_for};
use crate::waiting::{self, Next};
use pingora_cache::error::{Error, ErrorType, Result};
use pingora_cache::moment::Moment;

/// Adds a request. If there is no memory for it, `push` returns it, and it is ended here.
pub fn add(cache: &mut FrontCache, requests: &mut Vec<Request>, request: Request) -> Result<()> {
    match requests.push(request) {
        Ok(()) => Ok(()),
        Err(refused) => {
            cache.end(refused.value);
            Err(Error::new(ErrorType::OutOfMemory))
        }
    }
}

/// Polls each request once, and ends those whose wait is over. Returns how many these were.
pub fn poll_all(cache: &mut FrontCache, requests: &mut Vec<Request>, now: Moment) -> Result<usize> {
    let mut over = 0usize;
    let mut place = 0usize;
    for _ in 0..requests.len() {
        if place >= requests.len() {
            break;
        }
        if poll_at(cache, requests, place, now)? {
            over = over.saturating_add(1);
        } else {
            place = place.saturating_add(1);
        }
    }
    Ok(over)
}

// Polls the request at a place. If its wait is over, it is removed and ended; the later ones move
// up.
fn poll_at(
    cache: &mut FrontCache,
    requests: &mut Vec<Request>,
    place: usize,
    now: Moment,
) -> Result<bool>
    requires { place < vec_len requests.old }
{
    if matches!(waiting::poll(cache, &mut requests[place], now)?, Next::Wait) {
        return Ok(false);
    }
    let request = requests.remove(place);
    cache.end(request);
    Ok(true)
}

/// Ends all remaining requests. A vector of values that must be spent is itself spent by `destroy_empty`, once
/// it is empty.
pub fn end_all(cache: &mut FrontCache, requests: Vec<Request>) {
    let mut requests = requests;
    'requests: while let Some(request) = requests.pop() {
        cache.end(request);
    }
    requests.destroy_empty();
}

/// One request holds the permit of a path, and `count` others wait for it. Returns how many waits were over before and after the
/// permit was given back.
pub fn wait_together(
    cache: &mut FrontCache,
    path: &str,
    count: u32,
    now: Moment,
) -> Result<(usize, usize)> {
    let mut requests = Vec::new(cache.alloc());
    let told = fill_and_wait(cache, &mut requests, path, count, now);
    end_all(cache, requests);
    told
}

fn fill_and_wait(
    cache: &mut FrontCache,
    requests: &mut Vec<Request>,
    path: &str,
    count: u32,
    now: Moment,
) -> Result<(usize, usize)> {
    let filler = looking(cache, path, now)?;
    let before = match add_waiting(cache, requests, path, count, now) {
        Ok(()) => poll_all(cache, requests, now),
        Err(refused) => Err(refused),
    };
    cache.end(filler);
    Ok((before?, poll_all(cache, requests, now)?))
}

fn add_waiting(
    cache: &mut FrontCache,
    requests: &mut Vec<Request>,
    path: &str,
    count: u32,
    now: Moment,
) -> Result<()> {
    for _ in 0..count {
        let request = looking(cache, path, now)?;
        add(cache, requests, request)?;
    }
    Ok(())
}

// A request that looked its key up: the first one holds the permit, and those after it a read lock.
fn looking(cache: &mut FrontCache, path: &str, now: Moment) -> Result<Request> {
    let mut request = request_for(cache.alloc(), path)?;
    match waiting::look(cache, &mut request, now) {
        Ok(()) => Ok(request),
        Err(refused) => {
            cache.end(request);
            Err(refused)
        }
    }
}
