//! What the policies of tests say: defaults that give each status so many seconds, and no window.
ghost use Rattle.std.specs.Prelude.{◌≡◌, ℕ, IfErr, IfOk, Option};
ghost use Rattle.std.specs.declared.time.Duration.{Duration};
ghost use Rattle.pcache_base.specs.declared.error.ErrorType.TheVariants.{OutOfMemory};
ghost use Rattle.pcache_put.specs.Policies.{SaysByDefault};
ghost use Rattle.tests_of_requests.specs.Lifetimes.{IsSeconds};

use http::StatusCode;
use pcache_base::error::Result;
use pcache_base::moment::Moment;
use pcache_control::{CacheMetaDefaults, FreshDurationByStatusFn, RespCacheable};
use pcache_meta::header::ResponseHeader;
use pcache_put::policy::default_cacheable;
use std::alloc::Global;
use std::time::Duration;

/// Every status is fresh for a second.
pub(crate) fn one_second(_status: StatusCode) -> Option<Duration>
    ensures { IsSeconds 1 0 result }
{
    Some(Duration::from_secs(1))
}

/// Every status is fresh for twenty seconds.
pub(crate) fn twenty_seconds(_status: StatusCode) -> Option<Duration>
    ensures { IsSeconds 20 0 result }
{
    Some(Duration::from_secs(20))
}

/// What is said of a response by such defaults.
pub(crate) fn by_seconds(
    alloc: Global,
    header: ResponseHeader,
    defaults: &CacheMetaDefaults,
    now: Moment,
    seconds: u64,
) -> Result<RespCacheable>
    requires lasts { (status : ℕ) (lifetime : Option Duration)
        → FreshDurationByStatusFn.post defaults.now.fresh_sec_fn status lifetime
        → IsSeconds seconds status lifetime }
    requires revalidating { defaults.now.stale_while_revalidate_sec ≡ 0 }
    requires erring { defaults.now.stale_if_error_sec ≡ 0 }
    ensures says { IfOk result (SaysByDefault (0, 0) (IsSeconds seconds) header now) }
    ensures kind { IfErr result (λ e. e ≡ OutOfMemory) }
{
    let _ = seconds; // it is what the contract speaks of
    default_cacheable(alloc, header, defaults, now)
}
