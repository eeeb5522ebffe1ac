//! Which requests and responses may be cached, and how requests go to the origin.

ghost use Rattle.std.specs.Prelude.{◌≡◌, ◌↔◌, ◌⊎◌, IsTrue, IfSome, Option, codes, option_and_then};
ghost use Rattle.std.specs.Duration.{as_nanos};
ghost use Rattle.std.specs.Option.{option_map, option_copied};
ghost use Rattle.pcache_control.specs.Defaults.{asked_status};
ghost use Rattle.pcache_control.specs.Filters.{end_of, expires_at, expires_of, forbids, said_moment, FreshUntil, window, windows};
ghost use Rattle.pcache_control.specs.Responses.{IsDecision};

pub mod upstream;

use crate::cache_control::{CacheControl, Cacheable};
use crate::defaults::{CacheMetaDefaults, FreshDurationByStatusFn};
use crate::interpret::InterpretCacheControl;
use crate::response::RespCacheable;
use crate::seconds::DELTA_SECONDS_OVERFLOW_VALUE;
use crate::value::trim_ows;
use http::Method;
use http_header::HeaderValue;
use httpdate::HttpDate;
use pcache_base::moment::Moment;
use pcache_base::reason::NoCacheReason;
use pcache_meta::header::{ReqHeader, RespHeader, ResponseHeader};
use pcache_meta::meta::CacheMeta;
use std::time::Duration;

/// Whether a request's response may come from the cache: its method is GET or HEAD.
pub fn request_cacheable(req_header: &ReqHeader) -> bool
    ensures { IsTrue result
        ↔ ((req_header.now.method ≡ codes "GET") ⊎ (req_header.now.method ≡ codes "HEAD")) }
{
    req_header.method == Method::GET || req_header.method == Method::HEAD
}

// The moment at which a lifetime that begins now ends; `None` if it is out of range. A lifetime of
// zero ended one second ago, so that the response counts as stale.
fn end_of(now: Moment, lifetime: Duration) -> Option<Moment>
    ensures { result ≡ end_of now (as_nanos lifetime) }
{
    if lifetime.is_zero() {
        now.checked_sub(Duration::from_secs(1))
    } else {
        now.checked_add(lifetime)
    }
}

// The moment of an Expires. A value that is no date means a moment in the past (RFC 9111 section
// 5.3): the epoch.
fn expires_at(value: &HeaderValue) -> Moment
    ensures { result ≡ expires_at value.now.bytes }
{
    match HttpDate::parse_ascii(trim_ows(value.as_bytes())) {
        Ok(date) => Moment::from_secs(date.unix_secs()),
        Err(_) => Moment::EPOCH,
    }
}

/// The moment of a response's one Expires, which is the epoch if its value is no date. Several
/// Expires fields count as none.
#[tactic(auto, unfolding(crate::specs::Filters::expires_of))]
pub fn calculate_expires_header_time(resp_header: &RespHeader) -> Option<Moment>
    ensures { result ≡ expires_of resp_header.now.headers }
{
    let mut values = resp_header.headers.get_all("expires").iter();
    let value = values.next()?;
    if values.next().is_some() {
        return None;
    }
    Some(expires_at(value))
}

// Whether Cache-Control forbids storing the response.
#[tactic(auto, unfolding(crate::specs::Filters::forbids))]
fn forbids(cache_control: Option<&CacheControl>, authorization_present: bool) -> bool
    ensures { result ≡ forbids (option_copied cache_control.entry) authorization_present }
{
    match cache_control {
        Some(cc) => {
            (authorization_present && !cc.allow_caching_authorized_req())
                || cc.is_cacheable() == Cacheable::No
        }
        None => authorization_present,
    }
}

// The end of freshness that Cache-Control gives, or else Expires.
#[tactic(auto, unfolding(crate::specs::Filters::said_moment))]
fn said_moment(
    now: Moment,
    cache_control: Option<&CacheControl>,
    resp_header: &RespHeader,
) -> Option<Moment>
    ensures { result ≡ said_moment now (option_copied cache_control.entry) resp_header.now.headers }
{
    if let Some(cc) = cache_control
        && let Some(lifetime) = cc.fresh_duration()
        && let Some(moment) = end_of(now, lifetime)
    {
        return Some(moment);
    }
    calculate_expires_header_time(resp_header)
}

/// Until when a response is fresh: by Cache-Control, else by Expires, else by the default of its
/// status. If a source gives a moment out of range, the next one decides. `None` if the response
/// may not be stored.
pub fn calculate_fresh_until(
    now: Moment,
    cache_control: Option<&CacheControl>,
    resp_header: &RespHeader,
    authorization_present: bool,
    defaults: &CacheMetaDefaults,
) -> Option<Moment>
    ensures { FreshUntil now (option_copied cache_control.entry) resp_header.now.headers
        authorization_present
        (FreshDurationByStatusFn.post defaults.now.fresh_sec_fn
        (asked_status resp_header.now.status)) result }
{
    if forbids(cache_control, authorization_present) {
        return None;
    }
    if let Some(moment) = said_moment(now, cache_control, resp_header) {
        return Some(moment);
    }
    end_of(now, defaults.fresh_sec(resp_header.status)?)
}

// A window in whole seconds: the given one, the overflow value if that does not fit 32 bits, and
// the default if none is given.
fn window(said: Option<Duration>, default: u32) -> u32
    ensures { result ≡ window (option_map as_nanos said) default }
{
    match said {
        Some(duration) => u32::try_from(duration.as_secs()).unwrap_or(DELTA_SECONDS_OVERFLOW_VALUE),
        None => default,
    }
}

/// For how many whole seconds a stale response may be served while it is revalidated, and after an
/// error: as the directives say, else the defaults. A number of seconds past 32 bits counts as
/// `DELTA_SECONDS_OVERFLOW_VALUE`.
pub fn calculate_serve_stale_durations<C: InterpretCacheControl>(
    cache_control: Option<&C>,
    defaults: &CacheMetaDefaults,
) -> (u32, u32)
    ensures { result ≡ windows
        (option_and_then C.stale_while_revalidating (option_copied cache_control.entry))
        (option_and_then C.stale_after_error (option_copied cache_control.entry))
        (defaults.now.stale_while_revalidate_sec, defaults.now.stale_if_error_sec) }
{
    let (while_revalidating, after_error) = match cache_control {
        Some(cc) => (
            cc.serve_stale_while_revalidate_duration(),
            cc.serve_stale_if_error_duration(),
        ),
        None => (None, None),
    };
    (
        window(
            while_revalidating,
            defaults.serve_stale_while_revalidate_sec(),
        ),
        window(after_error, defaults.serve_stale_if_error_sec()),
    )
}

/// Whether a response is to be stored, and with what meta. Fields that `private` and `no-cache` list
/// are removed from its head. If no source gives an end of freshness, it is `OriginNotCache`.
pub fn resp_cacheable(
    cache_control: Option<&CacheControl>,
    mut resp_header: ResponseHeader,
    authorization_present: bool,
    defaults: &CacheMetaDefaults,
    now: Moment,
) -> RespCacheable
    ensures { IsDecision now (option_copied cache_control.entry)
        (defaults.now.stale_while_revalidate_sec, defaults.now.stale_if_error_sec)
        resp_header authorization_present
        (FreshDurationByStatusFn.post defaults.now.fresh_sec_fn (asked_status resp_header.status))
        result }
{
    let fresh_until = calculate_fresh_until(
        now,
        cache_control,
        &resp_header,
        authorization_present,
        defaults,
    );
    let Some(fresh_until) = fresh_until else {
        return RespCacheable::Uncacheable(NoCacheReason::OriginNotCache);
    };
    let (while_revalidating, after_error) = calculate_serve_stale_durations(
        cache_control,
        defaults,
    );
    if let Some(cc) = cache_control {
        cc.strip_private_headers(&mut resp_header);
    }
    RespCacheable::Cacheable(CacheMeta::new(
        fresh_until,
        now,
        while_revalidating,
        after_error,
        resp_header,
    ))
}
