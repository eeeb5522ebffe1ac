//! The way of a request: what was decided of it is done to the cache.
ghost use Rattle.std.specs.Prelude.{◌≡◌, true};
ghost use Rattle.pingora_cache.specs.Words.{CacheKey, MayMiss};

use crate::asked::Asked;
use crate::decide::{Step, with_stored, without_stored};
use crate::front::{ProxyCache, Request, meta_of, request_for};
use bytes::Bytes;
use http::Method;
use pcache_http::storing::{NotStoredFor, Storing};
use pingora_cache::HitStatus;
use pingora_cache::decisions::requests::{Answer, Reuse, Served};
use pingora_cache::decisions::responses::{Freshened, Kept, Outcome};
use pingora_cache::error::Result;

/// What the proxy did.
#[derive(Clone, Copy, Debug)]
pub enum Told {
    /// It answered with what is stored: why it might, with which Age, and how.
    FromCache(Reuse, u32, Answer),
    /// It answered with what is stored, in place of an error, with this Age.
    InPlaceOfAnError(u32),
    /// It passed the answer on and stored it; it is fresh for so many seconds.
    Stored(u32),
    /// What is stored was updated, and is fresh for so many seconds.
    Updated(u32),
    /// It passed the answer on and did not store it.
    PassedOn(NotStoredFor),
    /// It passed the answer on, and removed what was stored, if there was something.
    Removed(bool),
    /// It has to ask the origin again, without conditions.
    AsksAgain,
    /// It answered with 504: the client wants only what is stored.
    OnlyIfCached504,
    /// The origin does not answer, and nothing may answer in its place.
    NoAnswer,
    /// Another request fetches the response.
    Waits,
}

/// Serves a request.
pub fn serve(cache: &mut ProxyCache, asked: &Asked) -> Result<Told> {
    let mut request = request_for(cache.alloc(), &asked.head.target)?;
    let told = if asked.head.method == Method::GET || asked.head.method == Method::HEAD {
        look_up(cache, &mut request, asked)
    } else {
        pass_through(cache, &mut request, asked)
    };
    cache.end(request); // gives back what the request holds, also after an error
    told
}

// A method that no stored response answers.
fn pass_through(cache: &mut ProxyCache, request: &mut Request, asked: &Asked) -> Result<Told>
    requires phase { request.old.cache.phase ≡ CacheKey }
    requires uses { request.old.cache.uses.eviction ≡ true }
{
    let step = without_stored(asked)?;
    done(cache, request, asked, step)
}

fn look_up(cache: &mut ProxyCache, request: &mut Request, asked: &Asked) -> Result<Told>
    requires phase { request.old.cache.phase ≡ CacheKey }
    requires uses { request.old.cache.uses.eviction ≡ true }
{
    let Some((meta, hit)) = cache.cache_lookup_without_policy(request, asked.now)? else {
        let step = without_stored(asked)?;
        return done(cache, request, asked, step);
    };
    match with_stored(cache.alloc(), asked, &meta) {
        Ok(Step::Serve(served)) => {
            cache.cache_found(request, meta, hit, HitStatus::Fresh, asked.now)?;
            Ok(from_cache(served))
        }
        Ok(step) => {
            cache.cache_found(request, meta, hit, HitStatus::Expired, asked.now)?;
            done(cache, request, asked, step)
        }
        Err(refused) => {
            cache.let_go(hit);
            Err(refused)
        }
    }
}

// A proxy sends the body besides (`read` of `first_proxy`).
fn from_cache(served: Served) -> Told {
    Told::FromCache(served.reuse, served.age, served.answer)
}

fn done(cache: &mut ProxyCache, request: &mut Request, asked: &Asked, step: Step) -> Result<Told>
    requires phase { MayMiss request.old.cache.phase }
    requires uses { request.old.cache.uses.eviction ≡ true }
{
    match step {
        Step::Serve(served) => Ok(from_cache(served)),
        Step::OnlyIfCached504 => Ok(Told::OnlyIfCached504),
        Step::Answered(outcome) => by_outcome(cache, request, asked, outcome),
        Step::Stale(stale) => Ok(Told::InPlaceOfAnError(stale.age)),
        Step::NoAnswer => Ok(Told::NoAnswer),
    }
}

fn by_outcome(
    cache: &mut ProxyCache,
    request: &mut Request,
    asked: &Asked,
    outcome: Outcome,
) -> Result<Told>
    requires phase { MayMiss request.old.cache.phase }
    requires uses { request.old.cache.uses.eviction ≡ true }
{
    match outcome {
        Outcome::Store(kept) => store(cache, request, kept, asked),
        Outcome::Freshen(freshened) => freshen(cache, request, freshened, asked),
        Outcome::Update(kept) => update(cache, request, kept, asked),
        Outcome::FetchAgain => Ok(Told::AsksAgain),
        Outcome::ServeStale(stale) => Ok(Told::InPlaceOfAnError(stale.age)),
        Outcome::MarkStale | Outcome::Invalidate => remove(cache, request),
        Outcome::PassOn(reason) => Ok(Told::PassedOn(reason)),
    }
}

// The body would come from the origin in pieces.
fn store(cache: &mut ProxyCache, request: &mut Request, kept: Kept, asked: &Asked) -> Result<Told>
    requires phase { MayMiss request.old.cache.phase }
    requires uses { request.old.cache.uses.eviction ≡ true }
{
    if !request.cache.is_cache_lock_writer() {
        return Ok(Told::Waits);
    }
    let seconds = kept.lifetime.seconds();
    let meta = meta_of(cache.alloc(), kept, &asked.head.headers, asked.now)?;
    request.cache.cache_miss();
    request.cache.set_cache_meta(meta);
    cache.set_miss_handler(request)?;
    cache.write_body(request, Bytes::from_static(b"a page"), true)?;
    cache.finish_miss_handler(request)?;
    Ok(Told::Stored(seconds))
}

// A 304 answers the client with what it makes of the stored response, also if that may not be stored.
fn freshen(
    cache: &mut ProxyCache,
    request: &mut Request,
    freshened: Freshened,
    asked: &Asked,
) -> Result<Told> {
    match freshened.storing {
        Storing::Stored => update(cache, request, freshened.kept, asked),
        Storing::NotStored(reason) => Ok(Told::PassedOn(reason)),
    }
}

fn update(
    cache: &mut ProxyCache,
    request: &mut Request,
    kept: Kept,
    asked: &Asked,
) -> Result<Told> {
    let seconds = kept.lifetime.seconds();
    let meta = meta_of(cache.alloc(), kept, &asked.head.headers, asked.now)?;
    if request.cache.may_revalidate() {
        cache.revalidate_cache_meta(request, meta)?;
    }
    Ok(Told::Updated(seconds))
}

// The URIs of Location and Content-Location go too (`taken_away` of `pcache_validation`), by requests of
// their own.
fn remove(cache: &mut ProxyCache, request: &mut Request) -> Result<Told> {
    if !request.cache.phase().may_spawn_purge() {
        return Ok(Told::Removed(false));
    }
    let was_there = cache.spawn_async_purge(request, "invalidated")?;
    Ok(Told::Removed(was_there))
}
