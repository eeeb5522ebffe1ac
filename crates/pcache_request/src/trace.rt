//! The spans of one request. None has an effect.
//!
//! The calls are made where a tracing back end would record the request's course.

use crate::phase::{CachePhase, HitStatus};
use pcache_base::moment::Moment;
use pcache_lock::lock::{CacheKeyLock, LockWaitOutcome, ReadLock};
use pcache_meta::meta::CacheMeta;
use pcache_meta::trace::{Span, SpanHandle, Tag, tag_span_with_meta};

/// The spans of one request: of all its calls, of what it found, and of what it stores.
#[derive(Clone, Copy, Debug, PartialEq, Eq)]
pub(crate) struct CacheTraceCTX {
    cache_span: Span,
    miss_span: Span,
    hit_span: Span,
}

impl CacheTraceCTX {
    /// Spans that record nothing.
    pub(crate) fn new() -> CacheTraceCTX {
        CacheTraceCTX {
            cache_span: Span::inactive(),
            miss_span: Span::inactive(),
            hit_span: Span::inactive(),
        }
    }

    /// Uses this span for all of the request's calls.
    pub(crate) fn enable(&mut self, cache_span: Span) {
        self.cache_span = cache_span;
    }

    pub(crate) fn get_cache_span(&self) -> SpanHandle {
        self.cache_span.handle()
    }

    fn child(&self, name: &'static str) -> Span {
        self.cache_span.child(name, |options| options.start())
    }

    pub(crate) fn start_miss_span(&mut self) {
        self.miss_span = self.child("miss");
    }

    pub(crate) fn get_miss_span(&self) -> SpanHandle {
        self.miss_span.handle()
    }

    /// The request has no clock of its own; the closure is that of a back end, and is not called.
    pub(crate) fn finish_miss_span(&mut self) {
        self.miss_span.set_finish_time(|| Moment::EPOCH);
    }

    pub(crate) fn start_hit_span(&mut self, phase: CachePhase, status: HitStatus) {
        self.hit_span = self.child("hit");
        self.hit_span.set_tag(|| Tag::new("phase", phase.as_str()));
        self.hit_span
            .set_tag(|| Tag::new("status", status.as_str()));
    }

    pub(crate) fn get_hit_span(&self) -> SpanHandle {
        self.hit_span.handle()
    }

    /// The request has no clock of its own; the closure is that of a back end, and is not called.
    pub(crate) fn finish_hit_span(&mut self) {
        self.hit_span.set_finish_time(|| Moment::EPOCH);
    }

    /// Has a lock table tag a span of its own with how a wait for a read lock ended.
    pub(crate) fn trace_lock_wait<L: CacheKeyLock>(
        &self,
        lock: &L,
        read: &ReadLock,
        outcome: LockWaitOutcome,
    ) {
        let mut span = self.child("cache_lock");
        lock.trace_lock_wait(&mut span, read, outcome.lock_status());
    }

    pub(crate) fn log_meta_in_hit_span(&mut self, meta: &CacheMeta) {
        tag_span_with_meta(&mut self.hit_span, meta);
    }

    pub(crate) fn log_meta_in_miss_span(&mut self, meta: &CacheMeta) {
        tag_span_with_meta(&mut self.miss_span, meta);
    }
}
