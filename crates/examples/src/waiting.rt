//! A request that has to wait, since another one fills its key.
ghost use Rattle.std.specs.Prelude.{◌≡◌};
ghost use Rattle.pingora_cache.specs.Words.{CacheKey};

use crate::front::{FrontCache, Request, request_for};
use pingora_cache::NoCacheReason;
use pingora_cache::error::Result;
use pingora_cache::lock::LockWaitOutcome;
use pingora_cache::moment::Moment;
use pingora_cache::poll::Poll;

/// What to do next.
#[derive(Clone, Copy, Debug)]
pub enum Next {
    /// Another request still fills the key: poll again later.
    Wait,
    /// The key was filled, or another request may fill it: look it up again.
    LookAgain,
    /// Nobody will fill the key for this request: ask the origin, and store nothing.
    Pass(NoCacheReason),
}

/// What to do at each outcome of a wait.
pub fn next_after(outcome: LockWaitOutcome) -> Next {
    match outcome {
        LockWaitOutcome::Done
        | LockWaitOutcome::TransientError
        | LockWaitOutcome::Dangling
        | LockWaitOutcome::AgeTimeout => Next::LookAgain,
        LockWaitOutcome::GiveUp => Next::Pass(NoCacheReason::CacheLockGiveUp),
        LockWaitOutcome::WaitTimeout => Next::Pass(NoCacheReason::CacheLockTimeout),
        LockWaitOutcome::Abandoned { reason, token: _ } => Next::Pass(reason),
    }
}

/// Asks once whether the wait of a request is over. A request that should pass is disabled: it stores nothing from then
/// on.
pub fn poll(cache: &mut FrontCache, request: &mut Request, now: Moment) -> Result<Next> {
    if !matches!(request.cache.held(), Some(held) if !held.is_write()) {
        return Ok(Next::LookAgain);
    }
    let next = match cache.cache_lock_wait(request, now)? {
        Poll::Pending => Next::Wait,
        Poll::Ready(outcome) => next_after(outcome),
    };
    if let Next::Pass(reason) = next
        && request.cache.may_disable(reason)
    {
        cache.disable(request, reason);
    }
    Ok(next)
}

/// One request gets the permit of a path and another waits for it. The first stores nothing, for this reason. Returns what the
/// other one has to do before and after that.
pub fn wait_for(
    cache: &mut FrontCache,
    path: &str,
    reason: NoCacheReason,
    now: Moment,
) -> Result<(Next, Next)> {
    let mut filler = request_for(cache.alloc(), path)?;
    let told = begin_both(cache, &mut filler, path, reason, now);
    cache.end(filler);
    told
}

fn begin_both(
    cache: &mut FrontCache,
    filler: &mut Request,
    path: &str,
    reason: NoCacheReason,
    now: Moment,
) -> Result<(Next, Next)>
    requires { filler.old.cache.phase ≡ CacheKey }
{
    let mut waiter = request_for(cache.alloc(), path)?;
    let told = play_both(cache, filler, &mut waiter, reason, now);
    cache.end(waiter);
    told
}

fn play_both(
    cache: &mut FrontCache,
    filler: &mut Request,
    waiter: &mut Request,
    reason: NoCacheReason,
    now: Moment,
) -> Result<(Next, Next)>
    requires filler { filler.old.cache.phase ≡ CacheKey }
    requires waiter { waiter.old.cache.phase ≡ CacheKey }
{
    look(cache, filler, now)?;
    look(cache, waiter, now)?;
    let before = poll(cache, waiter, now)?;
    if filler.cache.may_release(reason) {
        cache.release_write_lock(filler, reason);
    }
    let after = poll(cache, waiter, now)?;
    Ok((before, after))
}

/// Looks the key up. A found pair is let go; if nothing is found, the request holds the permit or a read lock.
pub fn look(cache: &mut FrontCache, request: &mut Request, now: Moment) -> Result<()>
    requires { request.old.cache.phase ≡ CacheKey }
{
    if let Some((_meta, hit)) = cache.cache_lookup_without_policy(request, now)? {
        cache.let_go(hit);
    }
    Ok(())
}
