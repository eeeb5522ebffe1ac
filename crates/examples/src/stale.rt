//! Stale-while-revalidate: a stale body is served at once, while one request renews it.
ghost use Rattle.std.specs.Prelude.{◌≡◌, IfOk, IfSome, IsSome, true};
ghost use Rattle.pingora_cache.specs.Words.{permit_in};
ghost use Rattle.pingora_cache.specs.Words.{CacheKey, Stale};

use crate::front::{FrontCache, Request, fill, request_for};
use bytes::Bytes;
use pingora_cache::error::Result;
use pingora_cache::moment::Moment;
use pingora_cache::poll::Poll;
use pingora_cache::{CachePhase, HitStatus};

/// How a request was served, with the length of the body.
#[derive(Clone, Copy, Debug)]
pub enum Answer {
    /// A fresh body.
    Fresh(usize),
    /// A stale body.
    Stale(usize),
    /// The origin has to be asked.
    Nothing,
}

/// Looks a path up and serves the body that is stored, even if it is stale for a short time. Returns how, and with a stale
/// body perhaps a request that has to renew it: the caller runs that one later, and ends it.
pub fn serve(cache: &mut FrontCache, path: &str, now: Moment) -> Result<(Answer, Option<Request>)>
    ensures renewal { IfOk result (λ p. IfSome p.1 (λ r. r.cache.phase ≡ CacheKey)) }
    ensures uses { IfOk result (λ p. IfSome p.1 (λ r. r.cache.uses.eviction ≡ true)) }
{
    let mut request = request_for(cache.alloc(), path)?;
    let served = serve_in(cache, &mut request, path, now);
    cache.end(request);
    served
}

fn serve_in(
    cache: &mut FrontCache,
    request: &mut Request,
    path: &str,
    now: Moment,
) -> Result<(Answer, Option<Request>)>
    requires { request.old.cache.phase ≡ CacheKey }
    ensures renewal { IfOk result (λ p. IfSome p.1 (λ r. r.cache.phase ≡ CacheKey)) }
    ensures uses { IfOk result (λ p. IfSome p.1 (λ r. r.cache.uses.eviction ≡ true)) }
{
    let answer = look_for(cache, request, now)?;
    if !matches!(answer, Answer::Stale(_)) {
        return Ok((answer, None));
    }
    let renewal = renewal_of(cache, request, path)?;
    Ok((answer, renewal))
}

fn end_if_any(cache: &mut FrontCache, request: Option<Request>) {
    if let Some(request) = request {
        cache.end(request);
    }
}

fn look_for(cache: &mut FrontCache, request: &mut Request, now: Moment) -> Result<Answer>
    requires { request.old.cache.phase ≡ CacheKey }
{
    let Some((meta, hit)) = cache.cache_lookup_without_policy(request, now)? else {
        return Ok(Answer::Nothing);
    };
    if meta.is_fresh(now) {
        cache.cache_found(request, meta, hit, HitStatus::Fresh, now)?;
        return Ok(Answer::Fresh(read_one(cache, request)?));
    }
    cache.cache_found(request, meta, hit, HitStatus::Expired, now)?;
    serve_stale(cache, request, now)
}

// A stale body may be served while another request renews it, and for as long as its meta says.
fn serve_stale(cache: &mut FrontCache, request: &mut Request, now: Moment) -> Result<Answer> {
    if !request.cache.can_serve_stale_updating(now) {
        return Ok(Answer::Nothing);
    }
    Ok(Answer::Stale(read_one(cache, request)?))
}

// The length of the first piece: a complete body comes in one.
fn read_one(cache: &mut FrontCache, request: &mut Request) -> Result<usize> {
    if !request.cache.has_body_reader() {
        return Ok(0);
    }
    match cache.read_body(request)? {
        Poll::Ready(Some(bytes)) => Ok(bytes.len()),
        _ => Ok(0),
    }
}

// A request for the path that holds the permit of this one.
fn hand_over(cache: &mut FrontCache, request: &mut Request, path: &str) -> Result<Request>
    requires { IsSome (permit_in request.old.cache.held) }
    ensures same_phase { request.new.cache.phase ≡ request.old.cache.phase }
    ensures phase { IfOk result (λ r. r.cache.phase ≡ CacheKey) }
    ensures uses { IfOk result (λ r. r.cache.uses.eviction ≡ true) }
{
    let mut renewal = request_for(cache.alloc(), path)?;
    let permit = request.cache.take_write_lock();
    cache.set_write_lock(&mut renewal, permit);
    Ok(renewal)
}

// The holder of the permit of a stale body hands it to another request of its own. That one needs no look-up: it fills the
// key again.
fn renewal_of(cache: &mut FrontCache, request: &mut Request, path: &str) -> Result<Option<Request>>
    ensures renewal { IfOk result (λ p. IfSome p (λ r. r.cache.phase ≡ CacheKey)) }
    ensures uses { IfOk result (λ p. IfSome p (λ r. r.cache.uses.eviction ≡ true)) }
{
    if !matches!(request.cache.phase(), CachePhase::Stale) {
        return Ok(None);
    }
    if !request.cache.is_cache_lock_writer() {
        request.cache.set_stale_updating();
        return Ok(None);
    }
    let renewal = hand_over(cache, request, path)?;
    request.cache.set_stale_updating();
    Ok(Some(renewal))
}

/// Fills the key with a request that was handed the permit, and ends the request. Returns whether
/// the body is stored.
pub fn renew(cache: &mut FrontCache, renewal: Request, body: Bytes, now: Moment) -> Result<bool>
    requires phase { renewal.cache.phase ≡ CacheKey }
    requires uses { renewal.cache.uses.eviction ≡ true }
{
    let mut renewal = renewal;
    // It looked nothing up, so it says itself that its fetch begins.
    cache.begin_fetch(&mut renewal);
    let stored = fill(cache, &mut renewal, body, now);
    cache.end(renewal);
    stored
}

/// Stores a body, which is fresh for a minute, and requests it after 61, 62 and 63 seconds. The first request renews it before
/// the third one comes.
pub fn play(cache: &mut FrontCache, path: &str) -> Result<[Answer; 3]> {
    store_old(cache, path)?;
    let (first, renewal) = serve(cache, path, Moment::from_secs(61))?;
    let second = serve_alone(cache, path, Moment::from_secs(62));
    renew_if_any(cache, renewal)?;
    let third = serve_alone(cache, path, Moment::from_secs(63))?;
    Ok([first, second?, third])
}

fn store_old(cache: &mut FrontCache, path: &str) -> Result<bool> {
    let request = request_for(cache.alloc(), path)?;
    renew(
        cache,
        request,
        Bytes::from_static(b"today's news"),
        Moment::EPOCH,
    )
}

fn renew_if_any(cache: &mut FrontCache, renewal: Option<Request>) -> Result<()>
    requires phase { IfSome renewal (λ r. r.cache.phase ≡ CacheKey) }
    requires uses { IfSome renewal (λ r. r.cache.uses.eviction ≡ true) }
{
    if let Some(renewal) = renewal {
        let new = Bytes::from_static(b"news of tomorrow");
        renew(cache, renewal, new, Moment::from_secs(62))?;
    }
    Ok(())
}

// Serves a path, and renews nothing.
fn serve_alone(cache: &mut FrontCache, path: &str, now: Moment) -> Result<Answer> {
    let (answer, renewal) = serve(cache, path, now)?;
    end_if_any(cache, renewal);
    Ok(answer)
}
