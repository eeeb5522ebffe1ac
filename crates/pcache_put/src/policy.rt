//! What decides whether a pushed response is stored.
ghost use Rattle.std.specs.Prelude.{◌≡◌, ℕ, Option, IfOk, IfErr};
ghost use Rattle.pcache_base.specs.declared.error.ErrorType.TheVariants.{OutOfMemory};
ghost use Rattle.pcache_control.specs.declared.response.RespCacheable.{RespCacheable};
ghost use Rattle.pcache_meta.specs.declared.header.ResponseHeader.{ResponseHeader};
ghost use Rattle.pcache_put.specs.Policies.{SaysByDefault, SaysWithin, Judges, Declares, is_above, with_short_head};

use http_header::CONTENT_LENGTH;
use pcache_base::error::Result;
use pcache_base::moment::Moment;
use pcache_base::reason::NoCacheReason;
use pcache_control::cache_control::CacheControl;
use pcache_control::filters::resp_cacheable;
use pcache_control::{CacheMetaDefaults, FreshDurationByStatusFn, RespCacheable};
use pcache_meta::header::ResponseHeader;
use pcache_meta::header_text::writer::header_serialize;
use pcache_meta::meta::CacheMeta;
use pcache_response::response_parse::spelled_length;
use std::alloc::Global;

/// Decides whether a pushed response is stored.
pub trait CachePut: Drop {
    // A relation: what a Cache-Control line says is one, and so is what a function pointer returns.
    /// What it may decide on a head at a moment. Nothing else matters, so the decision does not depend on earlier
    /// calls.
    ghost says: { Self → ResponseHeader → ℕ → RespCacheable → Type 0 };

    // Without a default body, which would have to meet every `says`.
    /// Whether the response with this head is stored, and with what meta. Most policies use `default_cacheable`. Fails
    /// only when memory runs out.
    fn cacheable(&self, alloc: Global, header: ResponseHeader, now: Moment) -> Result<RespCacheable>
        ensures says { IfOk result (says self.now header now) }
        ensures kind { IfErr result (λ e. e ≡ OutOfMemory) };

    /// Is called with each head that was read. It takes `&self`, so what it does cannot change the decision.
    fn trace_header(&self, _header: &ResponseHeader) {}
}

/// Whether a response with this head is stored, as its Cache-Control, its Expires and these defaults say, if its request
/// had no Authorization. Fails only when memory runs out.
pub fn default_cacheable(
    alloc: Global,
    header: ResponseHeader,
    defaults: &CacheMetaDefaults,
    now: Moment,
) -> Result<RespCacheable>
    ensures says { IfOk result (SaysByDefault
        (defaults.now.stale_while_revalidate_sec, defaults.now.stale_if_error_sec)
        (FreshDurationByStatusFn.post defaults.now.fresh_sec_fn) header now) }
    ensures kind { IfErr result (λ e. e ≡ OutOfMemory) }
{
    let cache_control = CacheControl::from_resp_headers(alloc, &header)?;
    Ok(resp_cacheable(cache_control.as_ref(), header, false, defaults, now))
}

/// The policy that goes by the response and by defaults alone.
#[derive(Drop)]
pub struct ByDefaults {
    /// The defaults for a response that says nothing of its lifetime.
    pub defaults: CacheMetaDefaults,
}

impl ByDefaults {
    // No method of a trait may return what holds a function pointer, so this is not one of `CachePut`.
    /// The defaults for a response that says nothing of its lifetime.
    pub fn cache_defaults(&self) -> &CacheMetaDefaults
        ensures { result.now ≡ self.now.defaults }
    {
        &self.defaults
    }
}

impl CachePut for ByDefaults {
    ghost says = { λ p. SaysByDefault (p.defaults.stale_while_revalidate_sec, p.defaults.stale_if_error_sec) (FreshDurationByStatusFn.post p.defaults.fresh_sec_fn) };

    fn cacheable(
        &self,
        alloc: Global,
        header: ResponseHeader,
        now: Moment,
    ) -> Result<RespCacheable> {
        default_cacheable(alloc, header, &self.defaults, now)
    }
}

/// A policy with a limit on heads: of what the policy stores, a response whose stored head is longer is not stored, for
/// `ResponseTooLarge`. It is for heads what `CachePutCtx::set_max_file_size_bytes` is for bodies, and what a request asks by
/// `is_head_within`. The length is that of the head's text as a store keeps it, in bytes; it is asked before a write begins.
#[derive(Drop)]
pub struct HeadLimit<C: CachePut> {
    /// What decides on a response whose head is short enough.
    pub policy: C,
    /// The most bytes that the text of a stored head may have.
    pub max_head_size_bytes: usize,
}

impl<C: CachePut> CachePut for HeadLimit<C> {
    ghost says = { λ p. SaysWithin p.max_head_size_bytes (C.says p.policy) };

    fn cacheable(
        &self,
        alloc: Global,
        header: ResponseHeader,
        now: Moment,
    ) -> Result<RespCacheable> {
        let said = self.policy.cacheable(alloc, header, now)?;
        if_short(alloc, said, self.max_head_size_bytes)
    }

    fn trace_header(&self, header: &ResponseHeader) {
        self.policy.trace_header(header);
    }
}

// The decision, unless the head that would be stored is longer than this.
fn if_short(alloc: Global, said: RespCacheable, most: usize) -> Result<RespCacheable>
    ensures short { IfOk result (λ verdict. verdict ≡ with_short_head most said) }
    ensures kind { IfErr result (λ e. e ≡ OutOfMemory) }
{
    match said {
        RespCacheable::Cacheable(meta) => {
            // Spelled for this alone, since no write has begun. A limit that is a call of the put
            // would stand in each definition of what comes of a put.
            let text = header_serialize(alloc, meta.response_header())?;
            if text.len() > most {
                return Ok(RespCacheable::Uncacheable(NoCacheReason::ResponseTooLarge));
            }
            Ok(RespCacheable::Cacheable(meta))
        }
        RespCacheable::Uncacheable(reason) => Ok(RespCacheable::Uncacheable(reason)),
    }
}

// The length of the body that a meta's head declares.
fn declared_length(meta: &CacheMeta) -> Option<usize>
    ensures { Declares meta.now result }
{
    match meta.headers().get(CONTENT_LENGTH) {
        Some(value) => spelled_length(value.as_bytes()),
        None => None,
    }
}

// Whether the meta's head declares a longer body than is allowed.
fn declares_more(meta: &CacheMeta, limit: Option<usize>) -> bool
    ensures { (length : Option ℕ) × Declares meta.now length × (result ≡ is_above limit length) }
{
    match (limit, declared_length(meta)) {
        (Some(limit), Some(length)) => length > limit,
        _ => false,
    }
}

// The decision on the response with this head, whose body may have at most so many bytes.
pub(crate) fn judge<C: CachePut>(
    alloc: Global,
    policy: &C,
    limit: Option<usize>,
    header: ResponseHeader,
    now: Moment,
) -> Result<RespCacheable>
    ensures judged { IfOk result (λ verdict. (answer : RespCacheable)
        × C.says policy.now header now answer
        × Judges limit answer verdict) }
    ensures kind { IfErr result (λ e. e ≡ OutOfMemory) }
{
    policy.trace_header(&header);
    match policy.cacheable(alloc, header, now)? {
        RespCacheable::Cacheable(meta) => {
            if declares_more(&meta, limit) {
                return Ok(RespCacheable::Uncacheable(NoCacheReason::ResponseTooLarge));
            }
            Ok(RespCacheable::Cacheable(meta))
        }
        RespCacheable::Uncacheable(reason) => Ok(RespCacheable::Uncacheable(reason)),
    }
}
