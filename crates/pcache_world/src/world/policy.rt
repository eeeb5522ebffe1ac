//! What decides which pushed responses a world stores.
ghost use Rattle.std.specs.Prelude.{◌≡◌, ℕ, None, IfErr, IfOk, Option};
ghost use Rattle.std.specs.declared.time.Duration.{Duration};
ghost use Rattle.pcache_base.specs.declared.error.ErrorType.TheVariants.{OutOfMemory};
ghost use Rattle.pcache_control.specs.declared.response.RespCacheable.{RespCacheable};
ghost use Rattle.pcache_meta.specs.declared.header.ResponseHeader.{ResponseHeader};
ghost use Rattle.pcache_put.specs.Policies.{SaysByDefault};

use http::StatusCode;
use pcache_base::error::Result;
use pcache_base::moment::Moment;
use pcache_control::{CacheMetaDefaults, FreshDurationByStatusFn, RespCacheable};
use pcache_meta::header::ResponseHeader;
use pcache_put::policy::{CachePut, default_cacheable};
use std::alloc::Global;
use std::marker::PhantomData;
use std::time::Duration;

// A type and no value: no contract of a history may name a value that the world keeps to itself,
// and a world whose contracts saw it could not be behind a lock.
/// Decides whether a response that is pushed into a world is stored. All puts of a world follow one
/// policy, which its type names.
pub trait PutPolicy {
    ghost use Rattle.std.specs.Prelude.{ℕ};
    ghost use Rattle.pcache_control.specs.declared.response.RespCacheable.{RespCacheable};
    ghost use Rattle.pcache_meta.specs.declared.header.ResponseHeader.{ResponseHeader};

    /// What it may decide on a head at a moment. Nothing else matters.
    ghost says: { ResponseHeader → ℕ → RespCacheable → Type 0 };

    /// Whether the response with this head is stored, and with what meta. Most policies use
    /// `default_cacheable`. Fails only when memory runs out.
    fn cacheable(alloc: Global, header: ResponseHeader, now: Moment) -> Result<RespCacheable>
        ensures says { IfOk result (says header now) }
        ensures kind { IfErr result (λ e. e ≡ OutOfMemory) };
}

/// The policy of a world, as a value that its puts have.
#[derive(Drop)]
pub struct ByType<P> {
    of: PhantomData<P>,
}

impl<P: PutPolicy> ByType<P> {
    pub(crate) fn new() -> ByType<P> {
        ByType { of: PhantomData }
    }
}

impl<P: PutPolicy> CachePut for ByType<P> {
    ghost says = { λ _. P.says };

    fn cacheable(
        &self,
        alloc: Global,
        header: ResponseHeader,
        now: Moment,
    ) -> Result<RespCacheable> {
        P::cacheable(alloc, header, now)
    }
}

/// The policy that goes only by what a response says of itself: by default it is not fresh, and not
/// served stale.
pub struct BySelf;

// No status has a default lifetime.
fn no_default(_status: StatusCode) -> Option<Duration>
    ensures { result ≡ None }
{
    None
}

// The decision on a response by defaults that give no lifetime and no window.
fn by_none(
    alloc: Global,
    header: ResponseHeader,
    defaults: &CacheMetaDefaults,
    now: Moment,
) -> Result<RespCacheable>
    requires none { (status : ℕ) (lifetime : Option Duration)
        → FreshDurationByStatusFn.post defaults.now.fresh_sec_fn status lifetime
        → lifetime ≡ None }
    requires revalidating { defaults.now.stale_while_revalidate_sec ≡ 0 }
    requires erring { defaults.now.stale_if_error_sec ≡ 0 }
    ensures says { IfOk result
        (SaysByDefault (0, 0) (λ status lifetime. lifetime ≡ None) header now) }
    ensures kind { IfErr result (λ e. e ≡ OutOfMemory) }
{
    default_cacheable(alloc, header, defaults, now)
}

impl PutPolicy for BySelf {
    ghost says = { λ header now answer. SaysByDefault (0, 0) (λ status lifetime. lifetime ≡ None) header now answer };

    fn cacheable(alloc: Global, header: ResponseHeader, now: Moment) -> Result<RespCacheable> {
        let defaults = CacheMetaDefaults::new(no_default, 0, 0);
        by_none(alloc, header, &defaults, now)
    }
}
