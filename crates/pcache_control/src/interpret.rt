//! What Cache-Control says of a response: whether and for how long it may be kept.

ghost use Rattle.std.specs.Prelude.{◌≡◌, ℕ, Bool, Option, Some};
ghost use Rattle.std.specs.Option.{option_map};
ghost use Rattle.std.specs.Duration.{as_nanos};
ghost use Rattle.pcache_meta.specs.declared.header.ResponseHeader.{ResponseHeader};
ghost use Rattle.pcache_control.specs.declared.cache_control.Cacheable.{Cacheable};
ghost use Rattle.pcache_control.specs.declared.key.DirectiveKey.TheVariants.{StaleWhileRevalidate, StaleIfError};
ghost use Rattle.pcache_control.specs.Control.{as_duration, cacheable_of, allows_authorized, forbids_stale, fresh_seconds, stale_seconds, stripped, without_fields};

use crate::cache_control::{CacheControl, Cacheable};
use crate::key::DirectiveKey;
use crate::value::ListValueIter;
use http_header::HeaderMap;
use pcache_meta::header::ResponseHeader;
use std::time::Duration;

/// What directives say of a response, whichever field they come from.
pub trait InterpretCacheControl {
    // What the calls return; durations are in nanoseconds.
    ghost cacheable: { Self → Cacheable };

    ghost authorized: { Self → Bool };

    ghost fresh: { Self → Option ℕ };

    ghost stale_while_revalidating: { Self → Option ℕ };

    ghost stale_after_error: { Self → Option ℕ };

    ghost without_private: { Self → ResponseHeader → ResponseHeader };

    /// Whether the response may be stored.
    fn is_cacheable(&self) -> Cacheable
        ensures { result ≡ cacheable self.now };

    /// Whether the response may be stored if its request had an Authorization
    /// (RFC 9111 section 3.5).
    fn allow_caching_authorized_req(&self) -> bool
        ensures { result ≡ authorized self.now };

    /// For how long the response is fresh, if the directives say so (RFC 9111 section 4.2.1).
    fn fresh_duration(&self) -> Option<Duration>
        ensures { option_map as_nanos result ≡ fresh self.now };

    /// For how long a stale response may be served while it is revalidated, if the directives say
    /// (RFC 5861 section 3).
    fn serve_stale_while_revalidate_duration(&self) -> Option<Duration>
        ensures { option_map as_nanos result ≡ stale_while_revalidating self.now };

    /// For how long a stale response may be served after an error, if the directives say
    /// (RFC 5861 section 4).
    fn serve_stale_if_error_duration(&self) -> Option<Duration>
        ensures { option_map as_nanos result ≡ stale_after_error self.now };

    /// Removes the fields from the response's head that a shared cache may not store.
    fn strip_private_headers(&self, resp_header: &mut ResponseHeader)
        ensures { resp_header.new ≡ without_private self.now resp_header.old };
}

// Removes the fields of these names. A name that is no field name removes nothing.
fn remove_fields(headers: &mut HeaderMap, names: ListValueIter<'_>)
    ensures { headers.new ≡ without_fields headers.old (Some names.entry) }
{
    'names: for name in names {
        let _removed = headers.remove(name);
    }
}

impl CacheControl {
    // Whether the directives forbid serving a stale response.
    fn forbids_stale(&self) -> bool
        ensures { result ≡ forbids_stale self.now }
    {
        self.must_revalidate()
            || self.proxy_revalidate()
            || self.has_directive(&DirectiveKey::SMaxAge)
    }

    // For how many seconds the response is fresh.
    #[tactic(auto, unfolding(crate::specs::Control::fresh_seconds))]
    fn fresh_seconds(&self) -> Option<u32>
        ensures { result ≡ fresh_seconds self.now }
    {
        if self.no_cache() {
            return Some(0);
        }
        match self.s_maxage() {
            Err(_) => None,
            Ok(Some(seconds)) => Some(seconds),
            Ok(None) => self.max_age().unwrap_or(None),
        }
    }
}

// Seconds as a duration.
fn as_duration(seconds: Option<u32>) -> Option<Duration>
    ensures { option_map as_nanos result ≡ as_duration seconds }
{
    match seconds {
        Some(seconds) => Some(Duration::from_secs(u64::from(seconds))),
        None => None,
    }
}

impl InterpretCacheControl for CacheControl {
    ghost cacheable = { cacheable_of };

    ghost authorized = { allows_authorized };

    ghost fresh = { λ cc. as_duration (fresh_seconds cc) };

    ghost stale_while_revalidating = { λ cc. as_duration (stale_seconds cc StaleWhileRevalidate) };

    ghost stale_after_error = { λ cc. as_duration (stale_seconds cc StaleIfError) };

    ghost without_private = { stripped };

    #[tactic(auto, unfolding(crate::specs::Control::cacheable_of))]
    fn is_cacheable(&self) -> Cacheable {
        if self.no_store() || self.private() {
            return Cacheable::No;
        }
        if self.has_directive(&DirectiveKey::SMaxAge)
            || self.has_directive(&DirectiveKey::MaxAge)
            || self.public()
        {
            return Cacheable::Yes;
        }
        Cacheable::Default
    }

    #[tactic(auto, unfolding(crate::specs::Control::allows_authorized))]
    fn allow_caching_authorized_req(&self) -> bool {
        self.must_revalidate() || self.public() || self.has_directive(&DirectiveKey::SMaxAge)
    }

    fn fresh_duration(&self) -> Option<Duration> {
        as_duration(self.fresh_seconds())
    }

    #[tactic(auto, unfolding(crate::specs::Control::stale_seconds))]
    fn serve_stale_while_revalidate_duration(&self) -> Option<Duration> {
        if self.forbids_stale() {
            return Some(Duration::ZERO);
        }
        as_duration(self.stale_while_revalidate().unwrap_or(None))
    }

    #[tactic(auto, unfolding(crate::specs::Control::stale_seconds))]
    fn serve_stale_if_error_duration(&self) -> Option<Duration> {
        if self.forbids_stale() {
            return Some(Duration::ZERO);
        }
        as_duration(self.stale_if_error().unwrap_or(None))
    }

    #[tactic(auto, unfolding(crate::specs::Control::stripped))]
    fn strip_private_headers(&self, resp_header: &mut ResponseHeader) {
        if let Some(names) = self.private_field_names() {
            remove_fields(&mut resp_header.headers, names);
        }
        if let Some(names) = self.no_cache_field_names() {
            remove_fields(&mut resp_header.headers, names);
        }
    }
}
