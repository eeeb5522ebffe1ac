//! The policy of the puts of a script.
ghost use Rattle.std.specs.Prelude.{◌≡◌, ℕ, IfErr, IfOk, Option, Some, option_map};
ghost use Rattle.std.specs.Duration.{as_nanos};
ghost use Rattle.std.specs.declared.time.Duration.{Duration};
ghost use Rattle.pcache_base.specs.declared.error.ErrorType.TheVariants.{OutOfMemory};
ghost use Rattle.pcache_put.specs.Policies.{SaysByDefault};
ghost use Rattle.cache_script.specs.Lifetimes.{IsOneSecond};

use http::StatusCode;
use pcache_base::error::Result;
use pcache_base::moment::Moment;
use pcache_control::defaults::FreshDurationByStatusFn;
use pcache_control::{CacheMetaDefaults, RespCacheable};
use pcache_meta::header::ResponseHeader;
use pcache_put::policy::default_cacheable;
use pcache_world::world::policy::PutPolicy;
use std::alloc::Global;
use std::time::Duration;

/// A response of any status is fresh for a second if it says nothing else, and is never served
/// stale.
pub struct OneSecond;

fn one_second(_status: StatusCode) -> Option<Duration>
    ensures { option_map as_nanos result ≡ Some 1_000_000_000 }
{
    Some(Duration::from_secs(1))
}

// The decision on a response by defaults that give each status a second, and no window.
fn by_one_second(
    alloc: Global,
    header: ResponseHeader,
    defaults: &CacheMetaDefaults,
    now: Moment,
) -> Result<RespCacheable>
    requires one { (status : ℕ) (lifetime : Option Duration)
        → FreshDurationByStatusFn.post defaults.now.fresh_sec_fn status lifetime
        → IsOneSecond status lifetime }
    requires revalidating { defaults.now.stale_while_revalidate_sec ≡ 0 }
    requires erring { defaults.now.stale_if_error_sec ≡ 0 }
    ensures says { IfOk result (SaysByDefault (0, 0) IsOneSecond header now) }
    ensures kind { IfErr result (λ e. e ≡ OutOfMemory) }
{
    default_cacheable(alloc, header, defaults, now)
}

impl PutPolicy for OneSecond {
    ghost says = { SaysByDefault (0, 0) IsOneSecond };

    fn cacheable(alloc: Global, header: ResponseHeader, now: Moment) -> Result<RespCacheable> {
        let defaults = CacheMetaDefaults::new(one_second, 0, 0);
        by_one_second(alloc, header, &defaults, now)
    }
}
