//! Defaults for a response that says nothing of its lifetime.

ghost use Rattle.std.specs.Prelude.{◌≡◌, ◌==◌, if◌then◌else◌};
ghost use Rattle.pcache_control.specs.Defaults.{asked_status};

use http::StatusCode;
use std::time::Duration;

/// How long a response of a status is fresh by default; `None` if it may not be stored.
pub type FreshDurationByStatusFn = fn(StatusCode) -> Option<Duration>;

/// Defaults for a response that says nothing: lifetimes by status, and windows in which a stale
/// response may be served.
#[derive(Drop)]
pub struct CacheMetaDefaults {
    /// Lifetimes by status.
    pub fresh_sec_fn: FreshDurationByStatusFn,
    /// Seconds in which a stale response may be served while it is revalidated.
    pub stale_while_revalidate_sec: u32,
    /// Seconds in which a stale response may be served after an error.
    pub stale_if_error_sec: u32,
    pub ghost callable: { FreshDurationByStatusFn.IsAlwaysCallable fresh_sec_fn },
}

impl CacheMetaDefaults {
    /// Defaults of a function that may be called with every status, and of two windows in seconds.
    pub const fn new(
        fresh_sec_fn: FreshDurationByStatusFn,
        stale_while_revalidate_sec: u32,
        stale_if_error_sec: u32,
    ) -> CacheMetaDefaults
        requires { IsAlwaysCallable fresh_sec_fn }
        ensures function { result.fresh_sec_fn ≡ fresh_sec_fn }
        ensures while_revalidating { result.stale_while_revalidate_sec
            ≡ stale_while_revalidate_sec }
        ensures after_error { result.stale_if_error_sec ≡ stale_if_error_sec }
    {
        CacheMetaDefaults {
            fresh_sec_fn,
            stale_while_revalidate_sec,
            stale_if_error_sec,
        }
    }

    /// The default lifetime of a status. A 304 confirms the response that it revalidates, so it
    /// gets the lifetime of 200.
    pub fn fresh_sec(&self, resp_status: StatusCode) -> Option<Duration>
        ensures { FreshDurationByStatusFn.post self.now.fresh_sec_fn (asked_status resp_status)
            result }
    {
        let asked = if resp_status == StatusCode::NOT_MODIFIED {
            StatusCode::OK
        } else {
            resp_status
        };
        (self.fresh_sec_fn)(asked)
    }

    /// The default window, in seconds, in which a stale response may be served while it is
    /// revalidated.
    pub fn serve_stale_while_revalidate_sec(&self) -> u32
        ensures { result ≡ self.now.stale_while_revalidate_sec }
    {
        self.stale_while_revalidate_sec
    }

    /// The default window, in seconds, in which a stale response may be served after an error.
    pub fn serve_stale_if_error_sec(&self) -> u32
        ensures { result ≡ self.now.stale_if_error_sec }
    {
        self.stale_if_error_sec
    }
}
