//! The limits that a request has on a body's length and on a head's. Nothing is refused by them: who sets one asks, and turns
//! caching off for a response that is too large.
ghost use Rattle.std.specs.Prelude.{◌≡◌, ◌*◌};
ghost use Rattle.std.specs.Int.{from_bool};
ghost use Rattle.pcache_cache.specs.Weighing.{written_head};
ghost use Rattle.pcache_request.specs.Sizes.{exceeds_head};
ghost use Rattle.pcache_c.specs.Reached.{OnRequest};
ghost use Rattle.pcache_c.specs.Sizes.{CountsBody, LimitsBody, LimitsHead, SaysHeadIsTooLong};

use crate::codes::{BAD_HANDLE, OK, WRONG_CALL};
use crate::handle::PcacheHandle;
use crate::reached;
use crate::served::{AnyCache, Open};
use std::alloc::Global;

/// Sets how many bytes a body has at most.
pub(crate) fn limit_body(opened: &mut Open, most: usize) -> u32
    ensures { LimitsBody most opened.old opened.new result }
{
    if !opened.request.cache.phase().is_on() {
        return WRONG_CALL;
    }
    opened.request.cache.set_max_file_size_bytes(most);
    OK
}

/// Counts bytes of the body, and says whether those so far are within the limit, 1 or 0.
pub(crate) fn count_body(opened: &mut Open, count: usize, within: &mut u32) -> u32
    ensures { CountsBody count within.new opened.old opened.new result }
{
    if !opened.request.cache.phase().was_enabled() {
        return WRONG_CALL;
    }
    let is_within = opened
        .request
        .cache
        .track_body_bytes_for_max_file_size(count);
    *within = u32::from(is_within);
    OK
}

/// Sets how many bytes a head has at most.
pub(crate) fn limit_head(opened: &mut Open, most: usize) -> u32
    ensures { LimitsHead most opened.old opened.new result }
{
    if !opened.request.cache.phase().is_on() {
        return WRONG_CALL;
    }
    opened.request.cache.set_max_head_size_bytes(most);
    OK
}

/// Whether the head of the request's write is longer than it may be, 1 or 0.
pub(crate) fn is_head_too_long(cache: &AnyCache, opened: &Open) -> u32
    ensures { result
        ≡ from_bool (exceeds_head opened.now.request.cache.head_limit
        (written_head cache.now.store opened.now.request.cache.write)) }
{
    u32::from(cache.exceeded_max_head_size(&opened.request))
}

/// Sets how many bytes the body that a request fills has at most, and counts none so far. Without a limit it may have any number.
#[unsafe(no_mangle)]
pub extern "C" fn pcache_request_limit_body(
    alloc: Global,
    cache: &mut PcacheHandle,
    request: u64,
    most: usize,
) -> u32
    ensures { OnRequest request cache.old cache.new result (λ c d o p.
        (d ≡ c) × LimitsBody most o p result) }
{
    let Some(mut object) = cache.take(alloc) else {
        return BAD_HANDLE;
    };
    let code = reached::limit_body(&mut *object, request, most);
    cache.put(object);
    code
}

/// Counts so many bytes more of the body, and says whether those so far are within the limit, 1 or 0. A caller counts each piece
/// before it is written; where the answer is 0, nothing is to be stored.
#[unsafe(no_mangle)]
pub extern "C" fn pcache_request_count_body(
    alloc: Global,
    cache: &mut PcacheHandle,
    request: u64,
    count: usize,
    within: &mut u32,
) -> u32
    ensures { OnRequest request cache.old cache.new result (λ c d o p.
        (d ≡ c) × CountsBody count within.new o p result) }
{
    let Some(mut object) = cache.take(alloc) else {
        return BAD_HANDLE;
    };
    let code = reached::count_body(&mut *object, request, count, within);
    cache.put(object);
    code
}

/// Sets how many bytes the head of the response that a request fills has at most, as the text that is stored.
#[unsafe(no_mangle)]
pub extern "C" fn pcache_request_limit_head(
    alloc: Global,
    cache: &mut PcacheHandle,
    request: u64,
    most: usize,
) -> u32
    ensures { OnRequest request cache.old cache.new result (λ c d o p.
        (d ≡ c) × LimitsHead most o p result) }
{
    let Some(mut object) = cache.take(alloc) else {
        return BAD_HANDLE;
    };
    let code = reached::limit_head(&mut *object, request, most);
    cache.put(object);
    code
}

/// Whether the head that a request's write stores is longer than the limit, 1 or 0. Without a limit, and before the write begins,
/// it is not.
#[unsafe(no_mangle)]
pub extern "C" fn pcache_request_exceeds_head(
    alloc: Global,
    cache: &mut PcacheHandle,
    request: u64,
    exceeds: &mut u32,
) -> u32
    ensures { OnRequest request cache.old cache.new result (λ c d o p.
        SaysHeadIsTooLong c d o p exceeds.new result) }
{
    let Some(mut object) = cache.take(alloc) else {
        return BAD_HANDLE;
    };
    let code = reached::exceeds_head(&mut *object, request, exceeds);
    cache.put(object);
    code
}
