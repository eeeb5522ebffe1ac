//! The calls on a request, by its number in the cache of an object.
//!
//! Where a call leaves the cache and the counts alone, they are bound all the same (`_cache`): of a box that is
//! borrowed in part the prover does not know what the rest is afterwards.
ghost use Rattle.std.specs.Prelude.{◌≡◌, ◌≢◌, ◌*◌, None};
ghost use Rattle.pcache_meta.specs.Header.{shown};
ghost use Rattle.pcache_c.specs.Codes.{code_in};
ghost use Rattle.pcache_c.specs.Counts.{filled, missed, taken_as, waited, when_done};
ghost use Rattle.pcache_c.specs.Fills.{Publishes, SaysAbandoned};
ghost use Rattle.pcache_c.specs.Opening.{Ends, Opens};
ghost use Rattle.pcache_c.specs.Reached.{CountsOnNumber, OnNumber};
ghost use Rattle.pcache_c.specs.Requests.{Adds, Begins, BeginsFetch, CopyOf, EndsHit, Expires, Finishes, IsUnchanged, LimitsWaits, Looks, LooksForVariant, Misses, Passes, Purges, Reads, Releases, Renews, SaysHeld, SaysLength, SaysPhase, SaysWaited, Seeks, ServesOn, ServesUpdating, SetsMeta, Takes, TurnsOff, Varies, Views, Waits, meta_shown};
ghost use Rattle.pcache_c.specs.Sizes.{CountsBody, LimitsBody, LimitsHead, SaysHeadIsTooLong};
ghost use Rattle.pcache_c.specs.Handles.{object_of};

use crate::codes::{BAD_HANDLE, OK, WRONG_KIND};
use crate::handle::PcacheHandle;
use crate::object::Object;
use crate::served::Served;
use crate::{fills, requests, sizes};
use pcache_base::key::{CacheKey, HashBinary};
use pcache_base::moment::Moment;
use pcache_base::reason::NoCacheReason;
use pcache_meta::header::ResponseHeader;
use pcache_meta::meta::CacheMeta;
use pcache_request::phase::HitStatus;
use std::alloc::Global;

/// Opens a request of a key, and says its number.
pub(crate) fn open(object: &mut Object, alloc: Global, key: CacheKey, number: &mut u64) -> u32
    ensures { Opens key object.old object.new number.new result }
{
    match object {
        Object::Cache(served) => served.open(alloc, key, number),
        _ => WRONG_KIND,
    }
}

/// Ends a request.
pub(crate) fn end(object: &mut Object, number: u64) -> u32
    ensures { Ends number object.old object.new result }
{
    match object {
        Object::Cache(served) => served.end(number),
        _ => WRONG_KIND,
    }
}

/// The number of where the request stands.
pub(crate) fn phase(object: &mut Object, number: u64, out: &mut u32) -> u32
    ensures { OnNumber number object.old object.new result (λ c d o p.
        SaysPhase c d o p out.new result) }
{
    let Object::Cache(boxed) = object else {
        return WRONG_KIND;
    };
    let Served {
        cache: _cache,
        seats,
        counts: _counts,
    } = &mut **boxed;
    let Some(request) = seats.find(number) else {
        return BAD_HANDLE;
    };
    *out = requests::number_of_phase(request.request.cache.phase());
    OK
}

/// The number of what the request holds of its lock.
pub(crate) fn held(object: &mut Object, number: u64, out: &mut u32) -> u32
    ensures { OnNumber number object.old object.new result (λ c d o p.
        SaysHeld c d o p out.new result) }
{
    let Object::Cache(boxed) = object else {
        return WRONG_KIND;
    };
    let Served {
        cache: _cache,
        seats,
        counts: _counts,
    } = &mut **boxed;
    let Some(request) = seats.find(number) else {
        return BAD_HANDLE;
    };
    *out = requests::number_of_held(request);
    OK
}

/// Asks the store.
pub(crate) fn look(object: &mut Object, number: u64, now: Moment, found: &mut u32) -> u32
    ensures { OnNumber number object.old object.new result (λ c d o p.
        Looks now c d o p found.new result) }
{
    let Object::Cache(boxed) = object else {
        return WRONG_KIND;
    };
    let served = &mut **boxed;
    let Some(request) = served.seats.find(number) else {
        return BAD_HANDLE;
    };
    requests::look(&mut served.cache, request, now, found)
}

/// Takes what a look-up found.
pub(crate) fn take(object: &mut Object, number: u64, status: HitStatus, now: Moment) -> u32
    ensures { CountsOnNumber number object.old object.new result
        (when_done result (taken_as status)) (λ c d o p. Takes status now c d o p result) }
{
    let Object::Cache(boxed) = object else {
        return WRONG_KIND;
    };
    let served = &mut **boxed;
    let Some(request) = served.seats.find(number) else {
        return BAD_HANDLE;
    };
    let code = requests::take(&mut served.cache, request, status, now);
    served.counts.count_take(code, status);
    code
}

/// Lets go what a look-up found.
pub(crate) fn pass(object: &mut Object, number: u64) -> u32
    ensures { OnNumber number object.old object.new result (λ c d o p. Passes c d o p result) }
{
    let Object::Cache(boxed) = object else {
        return WRONG_KIND;
    };
    let served = &mut **boxed;
    let Some(request) = served.seats.find(number) else {
        return BAD_HANDLE;
    };
    requests::pass(&mut served.cache, request)
}

/// Looks for the variant of what a look-up found.
pub(crate) fn look_for(
    object: &mut Object,
    number: u64,
    variance: HashBinary,
    same: &mut u32,
) -> u32
    ensures { OnNumber number object.old object.new result (λ c d o p.
        LooksForVariant variance c d o p same.new result) }
{
    let Object::Cache(boxed) = object else {
        return WRONG_KIND;
    };
    let served = &mut **boxed;
    let Some(request) = served.seats.find(number) else {
        return BAD_HANDLE;
    };
    requests::look_for(&mut served.cache, request, variance, same)
}

/// Goes on as a miss.
pub(crate) fn miss(object: &mut Object, number: u64) -> u32
    ensures { CountsOnNumber number object.old object.new result (when_done result missed)
        (λ c d o p. (d ≡ c) × Misses o p result) }
{
    let Object::Cache(boxed) = object else {
        return WRONG_KIND;
    };
    let served = &mut **boxed;
    let Some(request) = served.seats.find(number) else {
        return BAD_HANDLE;
    };
    let code = requests::miss(request);
    served.counts.count_miss(code);
    code
}

/// Takes a copy of a meta for what is to be stored.
pub(crate) fn set_meta(object: &mut Object, number: u64, meta: &CacheMeta) -> u32
    ensures { OnNumber number object.old object.new result (λ c d o p.
        (d ≡ c) × SetsMeta meta.now o p result) }
{
    let Object::Cache(boxed) = object else {
        return WRONG_KIND;
    };
    let Served {
        cache: _cache,
        seats,
        counts: _counts,
    } = &mut **boxed;
    let Some(request) = seats.find(number) else {
        return BAD_HANDLE;
    };
    requests::set_meta(request, meta)
}

/// Renews a stale body.
pub(crate) fn renew(object: &mut Object, number: u64, meta: &CacheMeta, set: &mut u32) -> u32
    ensures { OnNumber number object.old object.new result (λ c d o p.
        Renews meta.now set.new c d o p result) }
{
    let Object::Cache(boxed) = object else {
        return WRONG_KIND;
    };
    let served = &mut **boxed;
    let Some(request) = served.seats.find(number) else {
        return BAD_HANDLE;
    };
    requests::renew(&mut served.cache, request, meta, set)
}

/// Notes that the request's fetch begins now.
pub(crate) fn begin_fetch(object: &mut Object, number: u64) -> u32
    ensures { OnNumber number object.old object.new result (λ c d o p. BeginsFetch c d o p result) }
{
    let Object::Cache(boxed) = object else {
        return WRONG_KIND;
    };
    let served = &mut **boxed;
    let Some(request) = served.seats.find(number) else {
        return BAD_HANDLE;
    };
    requests::begin_fetch(&mut served.cache, request)
}

/// Serves a stale body while another request renews it.
pub(crate) fn serve_updating(object: &mut Object, number: u64) -> u32
    ensures { OnNumber number object.old object.new result (λ c d o p.
        (d ≡ c) × ServesUpdating o p result) }
{
    let Object::Cache(boxed) = object else {
        return WRONG_KIND;
    };
    let Served {
        cache: _cache,
        seats,
        counts: _counts,
    } = &mut **boxed;
    let Some(request) = seats.find(number) else {
        return BAD_HANDLE;
    };
    requests::serve_updating(request)
}

/// Serves a stale body on with another head.
pub(crate) fn serve_on(
    object: &mut Object,
    number: u64,
    head: &ResponseHeader,
    reason: NoCacheReason,
) -> u32
    ensures { OnNumber number object.old object.new result (λ c d o p.
        ServesOn (shown head.now) reason c d o p result) }
{
    let Object::Cache(boxed) = object else {
        return WRONG_KIND;
    };
    let served = &mut **boxed;
    let Some(request) = served.seats.find(number) else {
        return BAD_HANDLE;
    };
    requests::serve_on(&mut served.cache, request, head, reason)
}

/// Sets what the response varies on.
pub(crate) fn vary(object: &mut Object, number: u64, variance: Option<HashBinary>) -> u32
    ensures { OnNumber number object.old object.new result (λ c d o p.
        Varies variance c d o p result) }
{
    let Object::Cache(boxed) = object else {
        return WRONG_KIND;
    };
    let served = &mut **boxed;
    let Some(request) = served.seats.find(number) else {
        return BAD_HANDLE;
    };
    requests::vary(&mut served.cache, request, variance)
}

/// Begins the write.
pub(crate) fn begin(object: &mut Object, number: u64) -> u32
    ensures { OnNumber number object.old object.new result (λ c d o p. Begins c d o p result) }
{
    let Object::Cache(boxed) = object else {
        return WRONG_KIND;
    };
    let served = &mut **boxed;
    let Some(request) = served.seats.find(number) else {
        return BAD_HANDLE;
    };
    requests::begin(&mut served.cache, request)
}

/// Adds bytes to the write.
pub(crate) fn write(object: &mut Object, number: u64, alloc: Global, bytes: &[u8], eof: bool) -> u32
    ensures { OnNumber number object.old object.new result (λ c d o p.
        Adds bytes.now eof c d o p result) }
{
    let Object::Cache(boxed) = object else {
        return WRONG_KIND;
    };
    let served = &mut **boxed;
    let Some(request) = served.seats.find(number) else {
        return BAD_HANDLE;
    };
    requests::write(alloc, &mut served.cache, request, bytes, eof)
}

/// Ends the write.
pub(crate) fn finish(
    object: &mut Object,
    number: u64,
    stored: &mut usize,
    evicted: &mut usize,
) -> u32
    ensures { CountsOnNumber number object.old object.new result (when_done result filled)
        (λ c d o p. Finishes stored.new evicted.new c d o p result) }
{
    let Object::Cache(boxed) = object else {
        return WRONG_KIND;
    };
    let served = &mut **boxed;
    let Some(request) = served.seats.find(number) else {
        return BAD_HANDLE;
    };
    let code = requests::finish(&mut served.cache, request, stored, evicted);
    served.counts.count_fill(code);
    code
}

/// Reads on.
pub(crate) fn read(
    object: &mut Object,
    number: u64,
    out: &mut [u8],
    len: &mut usize,
    more: &mut u32,
) -> u32
    ensures reads { OnNumber number object.old object.new result (λ c d o p.
        Reads out.old out.new len.new more.new c d o p result) }
    ensures left { result ≢ 0 → out.new ≡ out.old }
{
    let Object::Cache(boxed) = object else {
        return WRONG_KIND;
    };
    let served = &mut **boxed;
    let Some(request) = served.seats.find(number) else {
        return BAD_HANDLE;
    };
    requests::read(&mut served.cache, request, out, len, more)
}

/// Reads on without a copy.
pub(crate) fn view(
    object: &mut Object,
    number: u64,
    alloc: Global,
    view: &mut PcacheHandle,
    at: &mut *const u8,
    len: &mut usize,
    more: &mut u32,
) -> u32
    requires { object_of view.old ≡ None }
    ensures views { OnNumber number object.old object.new result (λ c d o p.
        Views (object_of view.new) len.new more.new c d o p result) }
    ensures left { result ≢ 0 → object_of view.new ≡ None }
{
    let Object::Cache(boxed) = object else {
        return WRONG_KIND;
    };
    let served = &mut **boxed;
    let Some(request) = served.seats.find(number) else {
        return BAD_HANDLE;
    };
    requests::view(alloc, &mut served.cache, request, view, at, len, more)
}

/// The length of the body that is read.
pub(crate) fn length(object: &mut Object, number: u64, out: &mut usize) -> u32
    ensures { OnNumber number object.old object.new result (λ c d o p.
        SaysLength c d o p out.new result) }
{
    let Object::Cache(boxed) = object else {
        return WRONG_KIND;
    };
    let served = &mut **boxed;
    let Some(request) = served.seats.find(number) else {
        return BAD_HANDLE;
    };
    requests::length(&served.cache, request, out)
}

/// Moves the reader to a range.
pub(crate) fn seek(object: &mut Object, number: u64, start: usize, end: usize) -> u32
    ensures { OnNumber number object.old object.new result (λ c d o p.
        (d ≡ c) × Seeks start end o p result) }
{
    let Object::Cache(boxed) = object else {
        return WRONG_KIND;
    };
    let Served {
        cache: _cache,
        seats,
        counts: _counts,
    } = &mut **boxed;
    let Some(request) = seats.find(number) else {
        return BAD_HANDLE;
    };
    requests::seek(request, start, end)
}

/// Ends the reader.
pub(crate) fn finish_hit(object: &mut Object, number: u64) -> u32
    ensures { OnNumber number object.old object.new result (λ c d o p. EndsHit c d o p result) }
{
    let Object::Cache(boxed) = object else {
        return WRONG_KIND;
    };
    let served = &mut **boxed;
    let Some(request) = served.seats.find(number) else {
        return BAD_HANDLE;
    };
    requests::finish_hit(&mut served.cache, request)
}

/// Whether the wait is over.
pub(crate) fn wait(object: &mut Object, number: u64, now: Moment, outcome: &mut u32) -> u32
    ensures { CountsOnNumber number object.old object.new result
        (when_done result (waited outcome.new)) (λ c d o p.
        Waits now outcome.new c d o p result) }
{
    let Object::Cache(boxed) = object else {
        return WRONG_KIND;
    };
    let served = &mut **boxed;
    let Some(request) = served.seats.find(number) else {
        return BAD_HANDLE;
    };
    let code = requests::wait(&mut served.cache, request, now, outcome);
    served.counts.count_wait(code, *outcome);
    code
}

/// Sets how long the request waits at most.
pub(crate) fn limit_waits(object: &mut Object, number: u64, most_millis: u64) -> u32
    ensures { OnNumber number object.old object.new result (λ c d o p.
        (d ≡ c) × LimitsWaits (most_millis * 1000000) o p result) }
{
    let Object::Cache(boxed) = object else {
        return WRONG_KIND;
    };
    let Served {
        cache: _cache,
        seats,
        counts: _counts,
    } = &mut **boxed;
    let Some(request) = seats.find(number) else {
        return BAD_HANDLE;
    };
    requests::limit_waits(request, most_millis)
}

/// How long the request waited.
pub(crate) fn waited(object: &mut Object, number: u64, secs: &mut u64, nanos: &mut u32) -> u32
    ensures { OnNumber number object.old object.new result (λ c d o p.
        SaysWaited c d o p secs.new nanos.new result) }
{
    let Object::Cache(boxed) = object else {
        return WRONG_KIND;
    };
    let Served {
        cache: _cache,
        seats,
        counts: _counts,
    } = &mut **boxed;
    let Some(request) = seats.find(number) else {
        return BAD_HANDLE;
    };
    requests::waited(request, secs, nanos)
}

/// Releases the permit.
pub(crate) fn release(object: &mut Object, number: u64, reason: NoCacheReason) -> u32
    ensures { OnNumber number object.old object.new result (λ c d o p.
        Releases reason c d o p result) }
{
    let Object::Cache(boxed) = object else {
        return WRONG_KIND;
    };
    let served = &mut **boxed;
    let Some(request) = served.seats.find(number) else {
        return BAD_HANDLE;
    };
    requests::release(&mut served.cache, request, reason)
}

/// Turns caching off.
pub(crate) fn disable(object: &mut Object, number: u64, reason: NoCacheReason) -> u32
    ensures { OnNumber number object.old object.new result (λ c d o p.
        TurnsOff reason c d o p result) }
{
    let Object::Cache(boxed) = object else {
        return WRONG_KIND;
    };
    let served = &mut **boxed;
    let Some(request) = served.seats.find(number) else {
        return BAD_HANDLE;
    };
    requests::disable(&mut served.cache, request, reason)
}

/// Removes what stands under the key.
pub(crate) fn purge(object: &mut Object, number: u64, was: &mut u32) -> u32
    ensures { OnNumber number object.old object.new result (λ c d o p.
        Purges was.new c d o p result) }
{
    let Object::Cache(boxed) = object else {
        return WRONG_KIND;
    };
    let served = &mut **boxed;
    let Some(request) = served.seats.find(number) else {
        return BAD_HANDLE;
    };
    requests::purge(&mut served.cache, request, was)
}

/// Ends the freshness of what stands under the key.
pub(crate) fn expire(object: &mut Object, number: u64, now: Moment, was: &mut u32) -> u32
    ensures { OnNumber number object.old object.new result (λ c d o p.
        Expires now was.new c d o p result) }
{
    let Object::Cache(boxed) = object else {
        return WRONG_KIND;
    };
    let served = &mut **boxed;
    let Some(request) = served.seats.find(number) else {
        return BAD_HANDLE;
    };
    requests::expire(&mut served.cache, request, now, was)
}

/// A copy of the meta of what a look-up found, else of the request's own.
pub(crate) fn meta_of(object: &mut Object, number: u64) -> Result<CacheMeta, u32>
    ensures { OnNumber number object.old object.new (code_in result) (λ c d o p.
        IsUnchanged c d o p × CopyOf (meta_shown o) result) }
{
    let Object::Cache(boxed) = object else {
        return Err(WRONG_KIND);
    };
    let Served {
        cache: _cache,
        seats,
        counts: _counts,
    } = &mut **boxed;
    let Some(request) = seats.find(number) else {
        return Err(BAD_HANDLE);
    };
    requests::meta_of(request)
}

/// Publishes tokens of what was found out about the fill.
pub(crate) fn publish(object: &mut Object, number: u64, tokens: &[u64]) -> u32
    ensures { OnNumber number object.old object.new result (λ c d o p.
        Publishes tokens.now c d o p result) }
{
    let Object::Cache(boxed) = object else {
        return WRONG_KIND;
    };
    let served = &mut **boxed;
    let Some(request) = served.seats.find(number) else {
        return BAD_HANDLE;
    };
    fills::publish(&mut served.cache, request, tokens)
}

/// The token of the fill for which a wait was abandoned last.
pub(crate) fn abandoned(object: &mut Object, number: u64, token: &mut u64) -> u32
    ensures { OnNumber number object.old object.new result (λ c d o p.
        SaysAbandoned c d o p token.new result) }
{
    let Object::Cache(boxed) = object else {
        return WRONG_KIND;
    };
    let Served {
        cache: _cache,
        seats,
        counts: _counts,
    } = &mut **boxed;
    let Some(request) = seats.find(number) else {
        return BAD_HANDLE;
    };
    fills::abandoned(request, token)
}

/// Sets how many bytes a body has at most.
pub(crate) fn limit_body(object: &mut Object, number: u64, most: usize) -> u32
    ensures { OnNumber number object.old object.new result (λ c d o p.
        (d ≡ c) × LimitsBody most o p result) }
{
    let Object::Cache(boxed) = object else {
        return WRONG_KIND;
    };
    let Served {
        cache: _cache,
        seats,
        counts: _counts,
    } = &mut **boxed;
    let Some(request) = seats.find(number) else {
        return BAD_HANDLE;
    };
    sizes::limit_body(request, most)
}

/// Counts bytes of the body.
pub(crate) fn count_body(object: &mut Object, number: u64, count: usize, within: &mut u32) -> u32
    ensures { OnNumber number object.old object.new result (λ c d o p.
        (d ≡ c) × CountsBody count within.new o p result) }
{
    let Object::Cache(boxed) = object else {
        return WRONG_KIND;
    };
    let Served {
        cache: _cache,
        seats,
        counts: _counts,
    } = &mut **boxed;
    let Some(request) = seats.find(number) else {
        return BAD_HANDLE;
    };
    sizes::count_body(request, count, within)
}

/// Sets how many bytes a head has at most.
pub(crate) fn limit_head(object: &mut Object, number: u64, most: usize) -> u32
    ensures { OnNumber number object.old object.new result (λ c d o p.
        (d ≡ c) × LimitsHead most o p result) }
{
    let Object::Cache(boxed) = object else {
        return WRONG_KIND;
    };
    let Served {
        cache: _cache,
        seats,
        counts: _counts,
    } = &mut **boxed;
    let Some(request) = seats.find(number) else {
        return BAD_HANDLE;
    };
    sizes::limit_head(request, most)
}

/// Whether the head of the request's write is too long.
pub(crate) fn exceeds_head(object: &mut Object, number: u64, out: &mut u32) -> u32
    ensures { OnNumber number object.old object.new result (λ c d o p.
        SaysHeadIsTooLong c d o p out.new result) }
{
    let Object::Cache(boxed) = object else {
        return WRONG_KIND;
    };
    let served = &mut **boxed;
    let Some(request) = served.seats.find(number) else {
        return BAD_HANDLE;
    };
    *out = sizes::is_head_too_long(&served.cache, request);
    OK
}
