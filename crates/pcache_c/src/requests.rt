//! What the requests of a cache do. Each call tests what the call that it makes requires, and says by a code how it went.
ghost use Rattle.std.specs.Prelude.{◌≡◌, ◌*◌, [], IfOk, None};
ghost use Rattle.pcache_c.specs.Numbers.{IsNumber, held_number, outcome_number, phase_number, reason_number, status_number};
ghost use Rattle.pcache_c.specs.Requests.{Adds, Begins, BeginsFetch, CopyOf, EndsHit, Expires, Fetches, Finishes, HandsOut, HandsOver, LimitsWaits, Looks, LooksForVariant, Misses, Passes, Purges, Reads, Releases, Renews, SaysKnown, SaysTime, Seeks, ServesOn, ServesUpdating, SetsMeta, Takes, TurnsOff, Varies, Views, Waits, end_number, meta_shown, rest_of};
ghost use Rattle.core.specs.Ptr.{as_ptr};
ghost use Rattle.pcache_meta.specs.Header.{shown};
ghost use Rattle.pcache_c.specs.Handles.{object_of};
ghost use Rattle.pcache_request.specs.Requests.{length_by};

use crate::codes::{BAD_VALUE, NO_MEMORY, NONE, OK, WRONG_CALL, code_of};
use crate::handle::PcacheHandle;
use crate::object::Object;
use crate::served::{AnyCache, Open, let_go};
use bytes::Bytes;
use pcache_base::key::HashBinary;
use pcache_base::moment::Moment;
use pcache_base::poll::Poll;
use pcache_base::reason::NoCacheReason;
use pcache_lock::lock::{LockWaitOutcome, Locked};
use pcache_meta::header::ResponseHeader;
use pcache_meta::meta::CacheMeta;
use pcache_request::cache::CacheOptionOverrides;
use pcache_request::phase::{CachePhase, HitStatus};
use std::alloc::{AllocError, Global};
use std::mem;
use std::time::Duration;

/// The number of a phase, as the header has them.
pub(crate) fn number_of_phase(phase: CachePhase) -> u32
    ensures { result ≡ phase_number phase }
{
    match phase {
        CachePhase::Disabled(_) => 0,
        CachePhase::Uninit => 1,
        CachePhase::Bypass => 2,
        CachePhase::CacheKey => 3,
        CachePhase::Hit => 4,
        CachePhase::Miss => 5,
        CachePhase::Stale => 6,
        CachePhase::StaleUpdating => 7,
        CachePhase::Expired => 8,
        CachePhase::Revalidated => 9,
        CachePhase::RevalidatedNoCache(_) => 10,
    }
}

/// What a hit is worth, by the header's number.
pub(crate) fn status_of(number: u32) -> Option<HitStatus>
    ensures { IsNumber status_number 7 number result }
{
    match number {
        0 => Some(HitStatus::Expired),
        1 => Some(HitStatus::ForceExpired),
        2 => Some(HitStatus::ForceExpiredServeStale),
        3 => Some(HitStatus::ForceMiss),
        4 => Some(HitStatus::FailedHitFilter),
        5 => Some(HitStatus::Fresh),
        6 => Some(HitStatus::ForceFresh),
        _ => None,
    }
}

/// Why nothing is stored, by the header's number.
pub(crate) fn reason_of(number: u32) -> Option<NoCacheReason>
    ensures { IsNumber reason_number 13 number result }
{
    match number {
        0 => Some(NoCacheReason::NeverEnabled),
        1 => Some(NoCacheReason::OriginNotCache),
        2 => Some(NoCacheReason::ResponseTooLarge),
        3 => Some(NoCacheReason::PredictedResponseTooLarge),
        4 => Some(NoCacheReason::StorageError),
        5 => Some(NoCacheReason::InternalError),
        6 => Some(NoCacheReason::Deferred),
        7 => Some(NoCacheReason::DeclinedToUpstream),
        8 => Some(NoCacheReason::UpstreamError),
        9 => Some(NoCacheReason::CacheLockGiveUp),
        10 => Some(NoCacheReason::CacheLockTimeout),
        11 => Some(NoCacheReason::CacheLockRetryLimit),
        12 => Some(NoCacheReason::Custom("")),
        _ => None,
    }
}

/// How a wait ended, by the header's numbers: 0 if it goes on.
fn number_of_outcome(outcome: Poll<LockWaitOutcome>) -> u32
    ensures { result ≡ outcome_number outcome }
{
    match outcome {
        Poll::Pending => 0,
        Poll::Ready(LockWaitOutcome::Done) => 1,
        Poll::Ready(LockWaitOutcome::TransientError) => 2,
        Poll::Ready(LockWaitOutcome::Dangling) => 3,
        Poll::Ready(LockWaitOutcome::WaitTimeout) => 4,
        Poll::Ready(LockWaitOutcome::AgeTimeout) => 5,
        Poll::Ready(LockWaitOutcome::GiveUp) => 6,
        Poll::Ready(LockWaitOutcome::Abandoned { .. }) => 7,
    }
}

/// Asks the store, and the lock table if nothing is handed on. Says whether something was found, which stays with the
/// request until it is taken or passed.
pub(crate) fn look(cache: &mut AnyCache, opened: &mut Open, now: Moment, found: &mut u32) -> u32
    ensures { Looks now cache.old cache.new opened.old opened.new found.new result }
{
    if opened.found.is_some() || !opened.request.cache.phase().may_look_up() {
        return WRONG_CALL;
    }
    match cache.cache_lookup_without_policy(&mut opened.request, now) {
        Ok(pair) => {
            *found = u32::from(pair.is_some());
            if let Some((_meta, hit)) = mem::replace(&mut opened.found, pair) {
                cache.let_go(hit);
            }
            OK
        }
        Err(e) => code_of(e),
    }
}

/// Notes that the request's fetch begins now.
pub(crate) fn begin_fetch(cache: &mut AnyCache, opened: &mut Open) -> u32
    ensures { BeginsFetch cache.old cache.new opened.old opened.new result }
{
    cache.begin_fetch(&mut opened.request);
    OK
}

// Forgets bytes that were read and not returned: they are of another body than the one that is read
// from then on.
fn forget_piece(opened: &mut Open)
    ensures piece { opened.new.piece ≡ [] }
    ensures request { opened.new.request ≡ opened.old.request }
    ensures found { opened.new.found ≡ opened.old.found }
{
    opened.piece = Bytes::new();
    opened.next_byte = 0;
}

/// Takes the pair that a look-up found. Bytes that were read before are no longer returned.
pub(crate) fn take(cache: &mut AnyCache, opened: &mut Open, status: HitStatus, now: Moment) -> u32
    ensures { Takes status now cache.old cache.new opened.old opened.new result }
{
    if !opened.request.cache.phase().may_look_up() {
        return WRONG_CALL;
    }
    let Some((meta, hit)) = opened.found.take() else {
        return NONE;
    };
    match cache.cache_found(&mut opened.request, meta, hit, status, now) {
        Ok(()) => {
            forget_piece(opened);
            OK
        }
        Err(e) => code_of(e),
    }
}

/// Lets go the pair that a look-up found.
pub(crate) fn pass(cache: &mut AnyCache, opened: &mut Open) -> u32
    ensures { Passes cache.old cache.new opened.old opened.new result }
{
    match opened.found.take() {
        Some((_meta, hit)) => {
            cache.let_go(hit);
            OK
        }
        None => NONE,
    }
}

/// Looks for the variant of what a look-up found: says whether it is the one, 1 or 0. If not, it is let go, and the next look-up is
/// for the variant: a caller who had to let it go, and forgot to, would serve the wrong one.
pub(crate) fn look_for(
    cache: &mut AnyCache,
    opened: &mut Open,
    variance: HashBinary,
    same: &mut u32,
) -> u32
    ensures { LooksForVariant variance cache.old cache.new opened.old opened.new same.new result }
{
    if !opened.request.cache.phase().may_look_up() {
        return WRONG_CALL;
    }
    let Some((meta, _)) = &opened.found else {
        return NONE;
    };
    let is_same = opened.request.cache.cache_vary_lookup(variance, meta);
    *same = u32::from(is_same);
    if !is_same {
        let_go(cache, opened.found.take());
    }
    OK
}

/// Goes on as a miss.
pub(crate) fn miss(opened: &mut Open) -> u32
    ensures { Misses opened.old opened.new result }
{
    if opened.found.is_some() || !opened.request.cache.phase().may_miss() {
        return WRONG_CALL;
    }
    opened.request.cache.cache_miss();
    OK
}

/// Sets a copy of a meta as that of the response that is to be stored.
pub(crate) fn set_meta(opened: &mut Open, meta: &CacheMeta) -> u32
    ensures { SetsMeta meta.now opened.old opened.new result }
{
    if !opened.request.cache.may_take_meta() {
        return WRONG_CALL;
    }
    match meta.copied() {
        Ok(meta) => {
            opened.request.cache.set_cache_meta(meta);
            OK
        }
        Err(_) => NO_MEMORY,
    }
}

/// A copy of the meta of what a look-up found, else of the request's own.
pub(crate) fn meta_of(opened: &Open) -> Result<CacheMeta, u32>
    ensures { CopyOf (meta_shown opened.now) result }
{
    let meta = match (&opened.found, opened.request.cache.meta()) {
        (Some((meta, _)), _) => meta,
        (None, Some(meta)) => meta,
        (None, None) => return Err(NONE),
    };
    match meta.copied() {
        Ok(meta) => Ok(meta),
        Err(_) => Err(NO_MEMORY),
    }
}

/// Serves a stale body on, of which the origin said that it is good, with this meta's dates and head. Says whether the meta was set for
/// what is stored, 1 or 0.
pub(crate) fn renew(cache: &mut AnyCache, opened: &mut Open, meta: &CacheMeta, set: &mut u32) -> u32
    ensures { Renews meta.now set.new cache.old cache.new opened.old opened.new result }
{
    if !opened.request.cache.may_revalidate() {
        return WRONG_CALL;
    }
    let meta = match meta.copied() {
        Ok(meta) => meta,
        Err(_) => return NO_MEMORY,
    };
    match cache.revalidate_cache_meta(&mut opened.request, meta) {
        Ok(there) => {
            *set = u32::from(there);
            OK
        }
        Err(e) => code_of(e),
    }
}

/// Serves a stale body while another request renews it.
pub(crate) fn serve_updating(opened: &mut Open) -> u32
    ensures { ServesUpdating opened.old opened.new result }
{
    if !opened.request.cache.phase().is_stale() {
        return WRONG_CALL;
    }
    opened.request.cache.set_stale_updating();
    OK
}

/// Serves a stale body on with the head of an answer that says that it is good, and that is not stored.
pub(crate) fn serve_on(
    cache: &mut AnyCache,
    opened: &mut Open,
    head: &ResponseHeader,
    reason: NoCacheReason,
) -> u32
    ensures { ServesOn (shown head.now) reason cache.old cache.new opened.old opened.new result }
{
    if !opened.request.cache.may_revalidate() || !opened.request.cache.may_release(reason) {
        return WRONG_CALL;
    }
    match head.copied() {
        Ok(head) => {
            cache.revalidate_uncacheable(&mut opened.request, head, reason);
            OK
        }
        Err(_) => NO_MEMORY,
    }
}

/// Sets what the response varies on.
pub(crate) fn vary(cache: &mut AnyCache, opened: &mut Open, variance: Option<HashBinary>) -> u32
    ensures { Varies variance cache.old cache.new opened.old opened.new result }
{
    if !opened.request.cache.may_write() {
        return WRONG_CALL;
    }
    cache.update_variance(&mut opened.request, variance);
    OK
}

/// Begins the write, which the request reads from then on.
pub(crate) fn begin(cache: &mut AnyCache, opened: &mut Open) -> u32
    ensures { Begins cache.old cache.new opened.old opened.new result }
{
    if !opened.request.cache.may_write() {
        return WRONG_CALL;
    }
    match cache.set_miss_handler(&mut opened.request) {
        Ok(()) => {
            forget_piece(opened);
            OK
        }
        Err(e) => code_of(e),
    }
}

/// Adds bytes to the write.
pub(crate) fn write(
    alloc: Global,
    cache: &mut AnyCache,
    opened: &mut Open,
    bytes: &[u8],
    eof: bool,
) -> u32
    ensures { Adds bytes.now eof cache.old cache.new opened.old opened.new result }
{
    if !opened.request.cache.phase().is_filling() {
        return WRONG_CALL;
    }
    let Ok(bytes) = Bytes::copy_from_slice(alloc, bytes) else {
        return NO_MEMORY;
    };
    match cache.write_body(&mut opened.request, bytes, eof) {
        Ok(true) => OK,
        Ok(false) => WRONG_CALL,
        Err(e) => code_of(e),
    }
}

/// Ends the write. Says how many bytes were stored, and how many entries were evicted for them.
pub(crate) fn finish(
    cache: &mut AnyCache,
    opened: &mut Open,
    stored: &mut usize,
    evicted: &mut usize,
) -> u32
    ensures { Finishes stored.new evicted.new cache.old cache.new opened.old opened.new result }
{
    if !opened.request.cache.phase().is_filling() || !cache.may_end(&opened.request) {
        return WRONG_CALL;
    }
    match cache.finish_miss_handler(&mut opened.request) {
        Ok(Some(report)) => {
            *stored = report.size;
            *evicted = report.evicted.len();
            OK
        }
        Ok(None) => NONE,
        Err(e) => code_of(e),
    }
}

/// Hands over bytes of the body that is read, as many as there are and have room. Says how many, and what is to come: 1 if
/// there were some, 0 at the end, 3 where the body was cut off, 2 if nothing is there yet.
pub(crate) fn read(
    cache: &mut AnyCache,
    opened: &mut Open,
    out: &mut [u8],
    len: &mut usize,
    more: &mut u32,
) -> u32
    ensures { Reads out.old out.new len.new more.new cache.old cache.new opened.old opened.new
        result }
{
    if opened.next_byte >= opened.piece.len() {
        return read_on(cache, opened, out, len, more);
    }
    *len = hand_over(opened, out);
    *more = 1;
    OK
}

// The same if nothing is left of what was read.
fn read_on(
    cache: &mut AnyCache,
    opened: &mut Open,
    out: &mut [u8],
    len: &mut usize,
    more: &mut u32,
) -> u32
    requires { rest_of opened.old ≡ [] }
    ensures { Reads out.old out.new len.new more.new cache.old cache.new opened.old opened.new
        result }
{
    if !opened.request.cache.has_body_reader() {
        return WRONG_CALL;
    }
    match cache.read_body(&mut opened.request) {
        Ok(Poll::Ready(Some(piece))) => {
            opened.piece = piece;
            opened.next_byte = 0;
            *len = hand_over(opened, out);
            *more = 1;
        }
        Ok(Poll::Ready(None)) => {
            (*len, *more) = (0, number_of_end(cache.is_body_whole(&opened.request)));
        }
        Ok(Poll::Pending) => (*len, *more) = (0, 2),
        Err(e) => return code_of(e),
    }
    OK
}

// The number of an end, as the header has them.
fn number_of_end(is_whole: bool) -> u32
    ensures { result ≡ end_number is_whole }
{
    if is_whole { 0 } else { 3 }
}

// Copies what has room, and returns how much.
fn hand_over(opened: &mut Open, out: &mut [u8]) -> usize
    ensures bytes { HandsOver (rest_of opened.old) out.old out.new (rest_of opened.new) result }
    ensures rest { opened.new ≡ record opened.old { next_byte = opened.new.next_byte } }
{
    let Some(rest) = opened.piece.as_slice().get(opened.next_byte..) else {
        return 0;
    };
    let count = rest.len().min(out.len());
    out[..count].copy_from_slice(&rest[..count]);
    opened.next_byte += count;
    count
}

/// Hands out the bytes of the body that come next, all that were read, in a handle that has nothing, without a copy. Says where
/// they are, how many, and what is to come, as `read` does.
pub(crate) fn view(
    alloc: Global,
    cache: &mut AnyCache,
    opened: &mut Open,
    view: &mut PcacheHandle,
    at: &mut *const u8,
    len: &mut usize,
    more: &mut u32,
) -> u32
    requires { object_of view.old ≡ None }
    ensures { Views (object_of view.new) len.new more.new cache.old cache.new opened.old opened.new
        result }
{
    if opened.next_byte >= opened.piece.len() {
        return view_on(alloc, cache, opened, view, at, len, more);
    }
    *more = 1;
    hand_out(alloc, opened, view, at, len)
}

// The same if nothing is left of what was read.
fn view_on(
    alloc: Global,
    cache: &mut AnyCache,
    opened: &mut Open,
    view: &mut PcacheHandle,
    at: &mut *const u8,
    len: &mut usize,
    more: &mut u32,
) -> u32
    requires rest { rest_of opened.old ≡ [] }
    requires empty { object_of view.old ≡ None }
    ensures { Views (object_of view.new) len.new more.new cache.old cache.new opened.old opened.new
        result }
{
    let code = fetch(cache, opened, more);
    if code != OK || *more != 1 {
        *len = 0;
        return code;
    }
    hand_out(alloc, opened, view, at, len)
}

// Reads a piece, which stays with the request. Says what is to come, as `read` does.
fn fetch(cache: &mut AnyCache, opened: &mut Open, more: &mut u32) -> u32
    requires { rest_of opened.old ≡ [] }
    ensures { Fetches more.new cache.old cache.new opened.old opened.new result }
{
    if !opened.request.cache.has_body_reader() {
        return WRONG_CALL;
    }
    match cache.read_body(&mut opened.request) {
        Ok(Poll::Ready(Some(piece))) => {
            opened.piece = piece;
            opened.next_byte = 0;
            *more = 1;
        }
        Ok(Poll::Ready(None)) => *more = number_of_end(cache.is_body_whole(&opened.request)),
        Ok(Poll::Pending) => *more = 2,
        Err(e) => return code_of(e),
    }
    OK
}

// What is left of the piece, which is shared.
fn rest_shared(opened: &Open) -> Result<Bytes, AllocError>
    ensures { IfOk result (λ b. b ≡ rest_of opened.now) }
{
    let mut rest = opened.piece.clone()?;
    rest.advance(opened.next_byte.min(rest.len()));
    Ok(rest)
}

// Where the bytes begin.
fn start_of(bytes: &[u8]) -> *const u8
    ensures { result ≡ as_ptr bytes.entry }
{
    // When the handle is filled. No clause says that they stay there, since those of shared bytes
    // name no address.
    bytes.as_ptr()
}

// Hands out what is left of the piece. If there is no memory for it, it stays.
fn hand_out(
    alloc: Global,
    opened: &mut Open,
    view: &mut PcacheHandle,
    at: &mut *const u8,
    len: &mut usize,
) -> u32
    requires { object_of view.old ≡ None }
    ensures { HandsOut (object_of view.new) len.new opened.old opened.new result }
{
    let Ok(rest) = rest_shared(opened) else {
        return NO_MEMORY;
    };
    let (start, count) = (start_of(rest.as_slice()), rest.len());
    let code = view.fill(alloc, Object::View(rest));
    if code == OK {
        (*at, *len) = (start, count);
        forget_piece(opened);
    }
    code
}

/// The length of the body that is read.
pub(crate) fn length(cache: &AnyCache, opened: &Open, out: &mut usize) -> u32
    ensures { SaysKnown (length_by opened.now.request.cache.reader cache.now.store) out.new result }
{
    match cache.body_length(&opened.request) {
        Some(length) => {
            *out = length;
            OK
        }
        None => NONE,
    }
}

/// Moves the reader to the bytes from `start` to before `end`.
pub(crate) fn seek(opened: &mut Open, start: usize, end: usize) -> u32
    ensures { Seeks start end opened.old opened.new result }
{
    if !opened.request.cache.has_body_reader() {
        return WRONG_CALL;
    }
    match opened.request.cache.seek(start, Some(end)) {
        Ok(()) => {
            forget_piece(opened);
            OK
        }
        Err(_) => BAD_VALUE,
    }
}

/// Ends the reader.
pub(crate) fn finish_hit(cache: &mut AnyCache, opened: &mut Open) -> u32
    ensures { EndsHit cache.old cache.new opened.old opened.new result }
{
    if !opened.request.cache.phase().may_finish_hit() {
        return WRONG_CALL;
    }
    forget_piece(opened);
    match cache.finish_hit_handler(&mut opened.request) {
        Ok(()) => OK,
        Err(e) => code_of(e),
    }
}

/// What the request holds of its key's lock: 0 for nothing, 1 for the permit, 2 for a read lock.
pub(crate) fn number_of_held(opened: &Open) -> u32
    ensures { result ≡ held_number opened.now.request.cache.held }
{
    match opened.request.cache.held() {
        None => 0,
        Some(Locked::Write(_)) => 1,
        Some(Locked::Read(_)) => 2,
    }
}

/// Whether the wait for the lock is over: says 0 if it is not, else how it ended.
pub(crate) fn wait(cache: &mut AnyCache, opened: &mut Open, now: Moment, outcome: &mut u32) -> u32
    ensures { Waits now outcome.new cache.old cache.new opened.old opened.new result }
{
    if !opened.request.cache.phase().is_on() || !opened.request.cache.is_cache_locked() {
        return WRONG_CALL;
    }
    match cache.cache_lock_wait(&mut opened.request, now) {
        Ok(polled) => {
            *outcome = number_of_outcome(polled);
            OK
        }
        Err(e) => code_of(e),
    }
}

/// Sets how long the request waits for locks at most.
pub(crate) fn limit_waits(opened: &mut Open, most_millis: u64) -> u32
    ensures { LimitsWaits (most_millis * 1000000) opened.old opened.new result }
{
    if !opened.request.cache.may_set_cache_lock() {
        return WRONG_CALL;
    }
    let limits = CacheOptionOverrides {
        wait_timeout: Some(Duration::from_millis(most_millis)),
        max_lock_retries: None,
    };
    opened.request.cache.set_cache_lock(true, Some(limits));
    OK
}

/// How long the request waited for locks, over all its waits that ended.
pub(crate) fn waited(opened: &Open, secs: &mut u64, nanos: &mut u32) -> u32
    ensures { SaysTime opened.now.request.cache.digest.waits secs.new nanos.new result }
{
    match opened.request.cache.lock_duration() {
        Some(waited) => {
            (*secs, *nanos) = (waited.as_secs(), waited.subsec_nanos());
            OK
        }
        None => NONE,
    }
}

/// Releases the permit, with the status of the reason.
pub(crate) fn release(cache: &mut AnyCache, opened: &mut Open, reason: NoCacheReason) -> u32
    ensures { Releases reason cache.old cache.new opened.old opened.new result }
{
    if !opened.request.cache.may_release(reason) {
        return WRONG_CALL;
    }
    match cache.release_write_lock(&mut opened.request, reason) {
        Some(_) => OK,
        None => NONE,
    }
}

/// Turns caching off for this request, and gives back all that it holds.
pub(crate) fn disable(cache: &mut AnyCache, opened: &mut Open, reason: NoCacheReason) -> u32
    ensures { TurnsOff reason cache.old cache.new opened.old opened.new result }
{
    if !opened.request.cache.may_disable(reason) {
        return WRONG_CALL;
    }
    let_go(cache, opened.found.take());
    forget_piece(opened);
    cache.disable(&mut opened.request, reason);
    OK
}

/// Removes what stands under the request's key. Says whether anything was there, 1 or 0.
pub(crate) fn purge(cache: &mut AnyCache, opened: &mut Open, was: &mut u32) -> u32
    ensures { Purges was.new cache.old cache.new opened.old opened.new result }
{
    if !opened.request.cache.phase().may_purge() {
        return WRONG_CALL;
    }
    match cache.purge(&mut opened.request) {
        Ok(there) => {
            *was = u32::from(there);
            OK
        }
        Err(e) => code_of(e),
    }
}

/// Ends the freshness of what stands under the request's key. Says whether a body was there, 1 or 0.
pub(crate) fn expire(cache: &mut AnyCache, opened: &mut Open, now: Moment, was: &mut u32) -> u32
    ensures { Expires now was.new cache.old cache.new opened.old opened.new result }
{
    if !opened.request.cache.phase().may_purge() {
        return WRONG_CALL;
    }
    match cache.expire(&mut opened.request, now) {
        Ok(there) => {
            *was = u32::from(there);
            OK
        }
        Err(e) => code_of(e),
    }
}
