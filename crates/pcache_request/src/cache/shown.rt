//! The getters of a request, by its phase.
use super::HttpCache;
use crate::phase::CachePhase;
use pcache_base::key::CacheKey;
use pcache_base::moment::Moment;
use pcache_base::reason::NoCacheReason;
use pcache_meta::meta::CacheMeta;
use pcache_meta::trace::{Span, SpanHandle};
use pcache_store::storage::Storage;
use std::time::Duration;

impl<S: Storage> HttpCache<S> {
    ghost use Rattle.std.specs.Prelude.{◌≡◌, ◌↔◌, IsTrue, IsSome, Some, None, is_some, option_copied, option_map, cond};
    ghost use Rattle.std.specs.Duration.{as_nanos};
    ghost use Rattle.pcache_request.specs.Requests.{with_look_up_time};
    ghost use Rattle.pcache_request.specs.Shown.{is_enabled, is_bypassing, has_used_upstream, shown_key, shown_meta, read_meta, stale_meta, ServesAfterError, ServesWhileUpdating};
    ghost use Rattle.pcache_request.specs.Phases.{is_on};

    /// Whether the cache is on, and not bypassed.
    pub fn enabled(&self) -> bool
        ensures { result ≡ is_enabled self.now.phase }
    {
        !matches!(self.phase, CachePhase::Disabled(_) | CachePhase::Bypass)
    }

    /// Whether the cache is bypassed.
    pub fn bypassing(&self) -> bool
        ensures { result ≡ is_bypassing self.now.phase }
    {
        matches!(self.phase, CachePhase::Bypass)
    }

    /// Whether the origin was asked.
    pub fn upstream_used(&self) -> bool
        ensures { result ≡ has_used_upstream self.now.phase }
    {
        matches!(
            self.phase,
            CachePhase::Disabled(_)
                | CachePhase::Bypass
                | CachePhase::Miss
                | CachePhase::Expired
                | CachePhase::Revalidated
                | CachePhase::RevalidatedNoCache(_)
        )
    }

    /// The key, if one is set and caching was turned on.
    pub fn maybe_cache_key(&self) -> Option<&CacheKey>
        ensures { option_copied result ≡ shown_key self.now }
    {
        match self.phase {
            CachePhase::Disabled(NoCacheReason::NeverEnabled) | CachePhase::Uninit => None,
            _ => self.key.as_ref(),
        }
    }

    /// The key.
    /// Requires a key, and that caching was enabled; ask `maybe_cache_key()`.
    pub fn cache_key(&self) -> &CacheKey
        requires { IsSome (shown_key self.now) }
        ensures { Some result.now ≡ shown_key self.now }
    {
        let Some(key) = self.maybe_cache_key() else {
            unreachable!()
        };
        key
    }

    /// The meta of the response that was found or is to be stored.
    pub fn maybe_cache_meta(&self) -> Option<&CacheMeta>
        ensures { option_copied result ≡ shown_meta self.now }
    {
        match self.phase {
            CachePhase::Hit
            | CachePhase::Miss
            | CachePhase::Stale
            | CachePhase::StaleUpdating
            | CachePhase::Expired
            | CachePhase::Revalidated
            | CachePhase::RevalidatedNoCache(_) => self.meta.as_ref(),
            _ => None,
        }
    }

    // The meta of the body that is read.
    fn read_meta(&self) -> Option<&CacheMeta>
        ensures { option_copied result ≡ read_meta self.now }
    {
        if matches!(self.phase, CachePhase::Miss) && self.reader.is_none() {
            return None;
        }
        self.maybe_cache_meta()
    }

    /// Whether `cache_meta` may be called: there is a meta, and in Miss also a reader.
    pub fn has_cache_meta(&self) -> bool
        ensures { IsTrue result ↔ IsSome (read_meta self.now) }
    {
        self.read_meta().is_some()
    }

    /// The meta of the body that is read.
    /// Requires a meta, and in Miss a reader; ask `has_cache_meta()`.
    pub fn cache_meta(&self) -> &CacheMeta
        requires { IsSome (read_meta self.now) }
        ensures { Some result.now ≡ read_meta self.now }
    {
        let Some(meta) = self.read_meta() else {
            unreachable!()
        };
        meta
    }

    // The meta of a stale body.
    fn stale_meta(&self) -> Option<&CacheMeta>
        ensures { option_copied result ≡ stale_meta self.now }
    {
        match self.phase {
            CachePhase::Stale | CachePhase::StaleUpdating => self.meta.as_ref(),
            _ => None,
        }
    }

    /// Whether the body is stale, and may be served now in place of an error.
    pub fn can_serve_stale_error(&self, now: Moment) -> bool
        ensures { IsTrue result ↔ ServesAfterError now (stale_meta self.now) }
    {
        let Some(meta) = self.stale_meta() else {
            return false;
        };
        meta.serve_stale_if_error(now)
    }

    /// Whether the body is stale, and may be served now while another request renews it.
    pub fn can_serve_stale_updating(&self, now: Moment) -> bool
        ensures { IsTrue result ↔ ServesWhileUpdating now (stale_meta self.now) }
    {
        let Some(meta) = self.stale_meta() else {
            return false;
        };
        meta.serve_stale_while_revalidate(now)
    }

    /// Uses this span for all of the request's calls, if caching is on.
    pub fn enable_tracing(&mut self, cache_span: Span)
        ensures { self.new ≡ self.old }
    {
        if self.phase.is_on() {
            self.traces.enable(cache_span);
        }
    }

    /// The handle of the span of all the request's calls, if caching is on.
    pub fn get_cache_span(&self) -> Option<SpanHandle>
        ensures { is_some result ≡ is_on self.now.phase }
    {
        if !self.phase.is_on() {
            return None;
        }
        Some(self.traces.get_cache_span())
    }

    /// The handle of the span of what the request stores, if caching is on.
    pub fn get_miss_span(&self) -> Option<SpanHandle>
        ensures { is_some result ≡ is_on self.now.phase }
    {
        if !self.phase.is_on() {
            return None;
        }
        Some(self.traces.get_miss_span())
    }

    /// The handle of the span of what the request found, if caching is on.
    pub fn get_hit_span(&self) -> Option<SpanHandle>
        ensures { is_some result ≡ is_on self.now.phase }
    {
        if !self.phase.is_on() {
            return None;
        }
        Some(self.traces.get_hit_span())
    }

    /// Adds the time that a look-up took, as the caller measured it.
    pub fn record_lookup_duration(&mut self, duration: Duration)
        ensures { self.new ≡ with_look_up_time (as_nanos duration) self.old }
    {
        self.digest.add_lookup_duration(duration);
    }

    /// The time that the look-ups took so far, if it was recorded.
    pub fn lookup_duration(&self) -> Option<Duration>
        ensures { option_map as_nanos result ≡ self.now.digest.look_ups }
    {
        self.digest.lookup_duration
    }

    /// Whether the storage's writes can be read while they are made, if caching is on.
    pub fn support_streaming_partial_write(&self, storage: &S) -> Option<bool>
        ensures { result ≡ cond (is_on self.now.phase) (Some (S.streams storage.now)) None }
    {
        if matches!(self.phase, CachePhase::Disabled(_)) {
            return None;
        }
        Some(storage.support_streaming_partial_write())
    }
}
