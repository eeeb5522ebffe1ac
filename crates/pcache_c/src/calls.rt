//! The calls on a request, for C.
ghost use Rattle.std.specs.Prelude.{◌≡◌, ◌≢◌, ◌*◌, Option};
ghost use Rattle.pcache_base.specs.declared.reason.NoCacheReason.{NoCacheReason};
ghost use Rattle.pcache_request.specs.declared.phase.HitStatus.{HitStatus};
ghost use Rattle.pcache_c.specs.Codes.{OnGood, hash_at, is_flag, moment_at, nonempty, variance_at};
ghost use Rattle.pcache_c.specs.Counts.{filled, missed, taken_as, waited, when_done};
ghost use Rattle.pcache_c.specs.Handles.{IsSame, OnEmpty, OnHandle, object_of};
ghost use Rattle.pcache_c.specs.Handing.{HandsPermit};
ghost use Rattle.pcache_c.specs.Numbers.{IsNumber, reason_number, status_number};
ghost use Rattle.pcache_c.specs.Reached.{CountsOnRequest, OnRequest};
ghost use Rattle.pcache_c.specs.Requests.{Adds, Begins, BeginsFetch, EndsHit, Expires, Finishes, LimitsWaits, Looks, LooksForVariant, Misses, Passes, Purges, Reads, Releases, SaysLength, SaysWaited, Seeks, ServesUpdating, Takes, TurnsOff, Varies, Views, Waits};

use crate::codes::{BAD_HANDLE, BAD_VALUE};
use crate::handle::PcacheHandle;
use crate::hashes::{hash_from, variance_from};
use crate::metas::moment_of;
use crate::{handed, reached, requests};
use std::alloc::Global;

/// Asks the store at a moment, and the lock table if nothing is handed on. Says whether something was
/// found, 1 or 0: that stays with the request until it is taken or passed.
#[unsafe(no_mangle)]
pub extern "C" fn pcache_request_look(
    alloc: Global,
    cache: &mut PcacheHandle,
    request: u64,
    now_secs: u64,
    now_nanos: u32,
    found: &mut u32,
) -> u32
    ensures { OnGood (moment_at now_secs now_nanos) result (IsSame cache.old cache.new)
        (λ now. OnRequest request cache.old cache.new result (λ c d o p.
        Looks now c d o p found.new result)) }
{
    let Some(now) = moment_of(now_secs, now_nanos) else {
        return BAD_VALUE;
    };
    let Some(mut object) = cache.take(alloc) else {
        return BAD_HANDLE;
    };
    let code = reached::look(&mut *object, request, now, found);
    cache.put(object);
    code
}

/// Takes what a look-up found, as what it is worth by the number that the header has.
#[unsafe(no_mangle)]
pub extern "C" fn pcache_request_take(
    alloc: Global,
    cache: &mut PcacheHandle,
    request: u64,
    status: u32,
    now_secs: u64,
    now_nanos: u32,
) -> u32
    ensures { OnGood (moment_at now_secs now_nanos) result (IsSame cache.old cache.new)
        (λ now. (s : Option HitStatus)
        × IsNumber status_number 7 status s
        × OnGood s result (IsSame cache.old cache.new) (λ worth. CountsOnRequest request cache.old
        cache.new result (when_done result (taken_as worth)) (λ c d o p.
        Takes worth now c d o p result))) }
{
    let Some(now) = moment_of(now_secs, now_nanos) else {
        return BAD_VALUE;
    };
    let Some(status) = requests::status_of(status) else {
        return BAD_VALUE;
    };
    let Some(mut object) = cache.take(alloc) else {
        return BAD_HANDLE;
    };
    let code = reached::take(&mut *object, request, status, now);
    cache.put(object);
    code
}

/// Lets go what a look-up found.
#[unsafe(no_mangle)]
pub extern "C" fn pcache_request_pass(alloc: Global, cache: &mut PcacheHandle, request: u64) -> u32
    ensures { OnRequest request cache.old cache.new result (λ c d o p. Passes c d o p result) }
{
    let Some(mut object) = cache.take(alloc) else {
        return BAD_HANDLE;
    };
    let code = reached::pass(&mut *object, request);
    cache.put(object);
    code
}

/// Looks for the variant with this hash of 16 bytes, given what a look-up found: says whether that has it, 1 or 0. If it has not,
/// it is let go, and the next look-up is for the variant; if it has, it stays to be taken. From then on what was stored before the
/// body of that meta came is not found, so a purge of the key reaches all its variants.
#[unsafe(no_mangle)]
pub extern "C" fn pcache_request_look_for(
    alloc: Global,
    cache: &mut PcacheHandle,
    request: u64,
    variance: &[u8],
    same: &mut u32,
) -> u32
    ensures { OnGood (hash_at variance.now) result (IsSame cache.old cache.new) (λ v.
        OnRequest request cache.old cache.new result (λ c d o p.
        LooksForVariant v c d o p same.new result)) }
{
    let Some(variance) = hash_from(variance) else {
        return BAD_VALUE;
    };
    let Some(mut object) = cache.take(alloc) else {
        return BAD_HANDLE;
    };
    let code = reached::look_for(&mut *object, request, variance, same);
    cache.put(object);
    code
}

/// Goes on as a miss.
#[unsafe(no_mangle)]
pub extern "C" fn pcache_request_miss(alloc: Global, cache: &mut PcacheHandle, request: u64) -> u32
    ensures { CountsOnRequest request cache.old cache.new result (when_done result missed)
        (λ c d o p. (d ≡ c) × Misses o p result) }
{
    let Some(mut object) = cache.take(alloc) else {
        return BAD_HANDLE;
    };
    let code = reached::miss(&mut *object, request);
    cache.put(object);
    code
}

/// Notes that the request's fetch begins now, which a look-up notes too.
#[unsafe(no_mangle)]
pub extern "C" fn pcache_request_begin_fetch(
    alloc: Global,
    cache: &mut PcacheHandle,
    request: u64,
) -> u32
    ensures { OnRequest request cache.old cache.new result (λ c d o p.
        BeginsFetch c d o p result) }
{
    let Some(mut object) = cache.take(alloc) else {
        return BAD_HANDLE;
    };
    let code = reached::begin_fetch(&mut *object, request);
    cache.put(object);
    code
}

/// Serves a stale body while another request renews it.
#[unsafe(no_mangle)]
pub extern "C" fn pcache_request_serve_updating(
    alloc: Global,
    cache: &mut PcacheHandle,
    request: u64,
) -> u32
    ensures { OnRequest request cache.old cache.new result (λ c d o p.
        (d ≡ c) × ServesUpdating o p result) }
{
    let Some(mut object) = cache.take(alloc) else {
        return BAD_HANDLE;
    };
    let code = reached::serve_updating(&mut *object, request);
    cache.put(object);
    code
}

/// Sets what the response varies on: a hash of 16 bytes, or of none for nothing.
#[unsafe(no_mangle)]
pub extern "C" fn pcache_request_vary(
    alloc: Global,
    cache: &mut PcacheHandle,
    request: u64,
    variance: &[u8],
) -> u32
    ensures { OnGood (variance_at variance.now) result (IsSame cache.old cache.new) (λ v.
        OnRequest request cache.old cache.new result (λ c d o p. Varies v c d o p result)) }
{
    let variance = match variance_from(variance) {
        Ok(variance) => variance,
        Err(code) => return code,
    };
    let Some(mut object) = cache.take(alloc) else {
        return BAD_HANDLE;
    };
    let code = reached::vary(&mut *object, request, variance);
    cache.put(object);
    code
}

/// Begins the write. From here on others read the body while it comes.
#[unsafe(no_mangle)]
pub extern "C" fn pcache_request_begin(alloc: Global, cache: &mut PcacheHandle, request: u64) -> u32
    ensures { OnRequest request cache.old cache.new result (λ c d o p. Begins c d o p result) }
{
    let Some(mut object) = cache.take(alloc) else {
        return BAD_HANDLE;
    };
    let code = reached::begin(&mut *object, request);
    cache.put(object);
    code
}

/// Adds bytes to the write, and says whether they are the last.
#[unsafe(no_mangle)]
pub extern "C" fn pcache_request_write(
    alloc: Global,
    cache: &mut PcacheHandle,
    request: u64,
    bytes: &[u8],
    eof: u32,
) -> u32
    ensures { OnRequest request cache.old cache.new result (λ c d o p.
        Adds bytes.now (is_flag eof) c d o p result) }
{
    let Some(mut object) = cache.take(alloc) else {
        return BAD_HANDLE;
    };
    let code = reached::write(&mut *object, request, alloc, bytes, eof != 0);
    cache.put(object);
    code
}

/// Ends the write and stores the body. Says what its entry weighs, and how many entries were evicted
/// for it, whose bodies are gone. There is nothing to end without a write.
#[unsafe(no_mangle)]
pub extern "C" fn pcache_request_finish(
    alloc: Global,
    cache: &mut PcacheHandle,
    request: u64,
    stored: &mut usize,
    evicted: &mut usize,
) -> u32
    ensures { CountsOnRequest request cache.old cache.new result (when_done result filled)
        (λ c d o p. Finishes stored.new evicted.new c d o p result) }
{
    let Some(mut object) = cache.take(alloc) else {
        return BAD_HANDLE;
    };
    let code = reached::finish(&mut *object, request, stored, evicted);
    cache.put(object);
    code
}

/// Reads on, to a buffer that has room for a byte at least. Says how many bytes it wrote, and what is
/// to come: 1 if it wrote some, 0 at the end, 3 where the body was cut off (its write was dropped before its end was announced),
/// 2 if nothing is there yet.
#[unsafe(no_mangle)]
pub extern "C" fn pcache_request_read(
    alloc: Global,
    cache: &mut PcacheHandle,
    request: u64,
    out: &mut [u8],
    len: &mut usize,
    more: &mut u32,
) -> u32
    ensures reads { OnGood (nonempty out.old) result (IsSame cache.old cache.new)
        (λ room. OnRequest request cache.old cache.new result (λ c d o p.
        Reads room out.new len.new more.new c d o p result)) }
    ensures left { result ≢ 0 → out.new ≡ out.old }
{
    if out.is_empty() {
        return BAD_VALUE;
    }
    let Some(mut object) = cache.take(alloc) else {
        return BAD_HANDLE;
    };
    let code = reached::read(&mut *object, request, out, len, more);
    cache.put(object);
    code
}

/// Reads on without a copy: the bytes that come next, all that were read, are kept in the handle `view`, which has to be empty,
/// and lie at `at` until it is ended, whatever becomes of the request and of the cache. Says how many they are, and what is to
/// come, as `pcache_request_read` does; where that is not 1, the handle stays empty. Bytes for which there is no memory come
/// next.
#[unsafe(no_mangle)]
pub extern "C" fn pcache_request_view(
    alloc: Global,
    cache: &mut PcacheHandle,
    request: u64,
    view: &mut PcacheHandle,
    at: &mut *const u8,
    len: &mut usize,
    more: &mut u32,
) -> u32
    ensures views { OnEmpty (object_of view.old) result (IsSame cache.old cache.new)
        (OnRequest request cache.old cache.new result (λ c d o p.
        Views (object_of view.new) len.new more.new c d o p result)) }
    ensures left { result ≢ 0 → IsSame view.old view.new }
{
    if view.is_live() {
        return BAD_HANDLE;
    }
    let Some(mut object) = cache.take(alloc) else {
        return BAD_HANDLE;
    };
    let code = reached::view(&mut *object, request, alloc, view, at, len, more);
    cache.put(object);
    code
}

/// The length of the body that is read, before it is read, in bytes: of a complete body, whatever its range, and of a write whose
/// end was announced, or that was finished. There is none as long as a write goes on, if it was cut off, and without a reader.
#[unsafe(no_mangle)]
pub extern "C" fn pcache_request_body_length(
    alloc: Global,
    cache: &mut PcacheHandle,
    request: u64,
    len: &mut usize,
) -> u32
    ensures { OnRequest request cache.old cache.new result (λ c d o p.
        SaysLength c d o p len.new result) }
{
    let Some(mut object) = cache.take(alloc) else {
        return BAD_HANDLE;
    };
    let code = reached::length(&mut *object, request, len);
    cache.put(object);
    code
}

/// Moves the reader of a complete body to the bytes from `start` to before `end` (to the body's end if `end` is past it), which
/// it then reads again. A `start` at or past the body's length, an `end` before `start`, and a reader of a write are a bad value.
#[unsafe(no_mangle)]
pub extern "C" fn pcache_request_seek(
    alloc: Global,
    cache: &mut PcacheHandle,
    request: u64,
    start: usize,
    end: usize,
) -> u32
    ensures { OnRequest request cache.old cache.new result (λ c d o p.
        (d ≡ c) × Seeks start end o p result) }
{
    let Some(mut object) = cache.take(alloc) else {
        return BAD_HANDLE;
    };
    let code = reached::seek(&mut *object, request, start, end);
    cache.put(object);
    code
}

/// Ends the reader.
#[unsafe(no_mangle)]
pub extern "C" fn pcache_request_finish_hit(
    alloc: Global,
    cache: &mut PcacheHandle,
    request: u64,
) -> u32
    ensures { OnRequest request cache.old cache.new result (λ c d o p. EndsHit c d o p result) }
{
    let Some(mut object) = cache.take(alloc) else {
        return BAD_HANDLE;
    };
    let code = reached::finish_hit(&mut *object, request);
    cache.put(object);
    code
}

/// Whether the wait for the lock is over at a moment: 0 if it is not, else how it ended by the number
/// that the header has.
#[unsafe(no_mangle)]
pub extern "C" fn pcache_request_wait(
    alloc: Global,
    cache: &mut PcacheHandle,
    request: u64,
    now_secs: u64,
    now_nanos: u32,
    outcome: &mut u32,
) -> u32
    ensures { OnGood (moment_at now_secs now_nanos) result (IsSame cache.old cache.new)
        (λ now. CountsOnRequest request cache.old cache.new result
        (when_done result (waited outcome.new)) (λ c d o p.
        Waits now outcome.new c d o p result)) }
{
    let Some(now) = moment_of(now_secs, now_nanos) else {
        return BAD_VALUE;
    };
    let Some(mut object) = cache.take(alloc) else {
        return BAD_HANDLE;
    };
    let code = reached::wait(&mut *object, request, now, outcome);
    cache.put(object);
    code
}

/// Sets how many milliseconds a request waits for locks at most, over all its waits, before it holds one. A wait that is longer ends
/// at the next time that the request asks, by PCACHE_WAS_WAIT_TIMEOUT.
#[unsafe(no_mangle)]
pub extern "C" fn pcache_request_limit_waits(
    alloc: Global,
    cache: &mut PcacheHandle,
    request: u64,
    most_millis: u64,
) -> u32
    ensures { OnRequest request cache.old cache.new result (λ c d o p.
        (d ≡ c) × LimitsWaits (most_millis * 1000000) o p result) }
{
    let Some(mut object) = cache.take(alloc) else {
        return BAD_HANDLE;
    };
    let code = reached::limit_waits(&mut *object, request, most_millis);
    cache.put(object);
    code
}

/// How long a request waited for locks, over all its waits that ended, in seconds and nanoseconds. There is none before a wait ended.
#[unsafe(no_mangle)]
pub extern "C" fn pcache_request_waited(
    alloc: Global,
    cache: &mut PcacheHandle,
    request: u64,
    secs: &mut u64,
    nanos: &mut u32,
) -> u32
    ensures { OnRequest request cache.old cache.new result (λ c d o p.
        SaysWaited c d o p secs.new nanos.new result) }
{
    let Some(mut object) = cache.take(alloc) else {
        return BAD_HANDLE;
    };
    let code = reached::waited(&mut *object, request, secs, nanos);
    cache.put(object);
    code
}

/// Releases the permit, with what the reason tells those who wait.
#[unsafe(no_mangle)]
pub extern "C" fn pcache_request_release(
    alloc: Global,
    cache: &mut PcacheHandle,
    request: u64,
    reason: u32,
) -> u32
    ensures { (r : Option NoCacheReason)
        × IsNumber reason_number 13 reason r
        × OnGood r result (IsSame cache.old cache.new) (λ why.
        OnRequest request cache.old cache.new result (λ c d o p. Releases why c d o p result)) }
{
    let Some(reason) = requests::reason_of(reason) else {
        return BAD_VALUE;
    };
    let Some(mut object) = cache.take(alloc) else {
        return BAD_HANDLE;
    };
    let code = reached::release(&mut *object, request, reason);
    cache.put(object);
    code
}

/// Hands the permit of a request to another request of the same cache, which holds it from then on. A lock that this one held is
/// let go. It is a wrong call where the first request holds no permit, where caching of the second is not on, and where the two are
/// one. Keys are not compared: the second request has to be of the same key, since it is that key's lock that it then holds.
#[unsafe(no_mangle)]
pub extern "C" fn pcache_request_hand_permit(
    alloc: Global,
    cache: &mut PcacheHandle,
    request: u64,
    to: u64,
) -> u32
    ensures { OnHandle cache.old cache.new result (λ a b. HandsPermit request to a b result) }
{
    let Some(mut object) = cache.take(alloc) else {
        return BAD_HANDLE;
    };
    let code = handed::hand_permit(&mut *object, request, to);
    cache.put(object);
    code
}

/// Turns caching off for a request, and gives back all that it holds.
#[unsafe(no_mangle)]
pub extern "C" fn pcache_request_disable(
    alloc: Global,
    cache: &mut PcacheHandle,
    request: u64,
    reason: u32,
) -> u32
    ensures { (r : Option NoCacheReason)
        × IsNumber reason_number 13 reason r
        × OnGood r result (IsSame cache.old cache.new) (λ why.
        OnRequest request cache.old cache.new result (λ c d o p. TurnsOff why c d o p result)) }
{
    let Some(reason) = requests::reason_of(reason) else {
        return BAD_VALUE;
    };
    let Some(mut object) = cache.take(alloc) else {
        return BAD_HANDLE;
    };
    let code = reached::disable(&mut *object, request, reason);
    cache.put(object);
    code
}

/// Removes what stands under a request's key: the body, and what is being written. Says whether
/// anything was there, 1 or 0.
#[unsafe(no_mangle)]
pub extern "C" fn pcache_request_purge(
    alloc: Global,
    cache: &mut PcacheHandle,
    request: u64,
    was: &mut u32,
) -> u32
    ensures { OnRequest request cache.old cache.new result (λ c d o p.
        Purges was.new c d o p result) }
{
    let Some(mut object) = cache.take(alloc) else {
        return BAD_HANDLE;
    };
    let code = reached::purge(&mut *object, request, was);
    cache.put(object);
    code
}

/// Ends the freshness of what stands under a request's key. Says whether a body was there, 1 or 0.
#[unsafe(no_mangle)]
pub extern "C" fn pcache_request_expire(
    alloc: Global,
    cache: &mut PcacheHandle,
    request: u64,
    now_secs: u64,
    now_nanos: u32,
    was: &mut u32,
) -> u32
    ensures { OnGood (moment_at now_secs now_nanos) result (IsSame cache.old cache.new)
        (λ now. OnRequest request cache.old cache.new result (λ c d o p.
        Expires now was.new c d o p result)) }
{
    let Some(now) = moment_of(now_secs, now_nanos) else {
        return BAD_VALUE;
    };
    let Some(mut object) = cache.take(alloc) else {
        return BAD_HANDLE;
    };
    let code = reached::expire(&mut *object, request, now, was);
    cache.put(object);
    code
}
