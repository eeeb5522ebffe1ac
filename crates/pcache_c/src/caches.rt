//! A cache with its requests: a store in memory, an eviction manager of one of four policies, and a lock table.

ghost use Rattle.std.specs.Prelude.{◌≡◌, ◌≢◌, ◌⊎◌, ◌*◌, IfErr, IfOk, IsUtf8, OnOk, Option};
ghost use Rattle.pcache_base.specs.declared.reason.NoCacheReason.{NoCacheReason};
ghost use Rattle.pcache_cache.specs.declared.weighing.Weighing.TheVariants.{Bodies, Entries};
ghost use Rattle.pcache_c.specs.AnyManagers.{IsNamed};
ghost use Rattle.pcache_c.specs.declared.any_manager.Policy.{Policy};
ghost use Rattle.pcache_c.specs.declared.any_manager.Policy.TheVariants.{Lru};
ghost use Rattle.pcache_c.specs.Caches.{CopiesMeta, GetsCache, MakesCache, SaysCounts, key_with, weighing_at};
ghost use Rattle.pcache_c.specs.Codes.{OnGood, OnText, bad_value, hash_at, no_memory, watermark_at};
ghost use Rattle.pcache_c.specs.Handles.{AsksOf, IsSame, OnHandle, OnKind};
ghost use Rattle.pcache_c.specs.Objects.{as_cache, as_head, as_meta};
ghost use Rattle.pcache_c.specs.Numbers.{IsNumber, reason_number};
ghost use Rattle.pcache_c.specs.Opening.{Ends, Opens};
ghost use Rattle.pcache_meta.specs.Header.{shown};
ghost use Rattle.pcache_c.specs.Reached.{OnRequest};
ghost use Rattle.pcache_c.specs.Requests.{IsUnchanged, Renews, SaysHeld, SaysPhase, ServesOn, SetsMeta, meta_shown};

use crate::any_manager::{AnyManager, Policy, policy_of};
use crate::codes::{BAD_HANDLE, BAD_VALUE, NO_MEMORY, OK, WRONG_KIND};
use crate::handle::PcacheHandle;
use crate::managers::{seed_of, watermark_of};
use crate::object::Object;
use crate::reached;
use crate::requests::reason_of;
use crate::served::Served;
use pcache_base::key::CacheKey;
use pcache_base::reason::NoCacheReason;
use pcache_cache::Weighing;
use std::alloc::{AllocError, Global};
use std::time::Duration;

/// The counts of a cache. A sum that does not fit is the largest number.
#[repr(C)]
#[derive(Clone, Copy)]
pub struct PcacheCacheCounts {
    /// The sum of the lengths of the complete bodies, in bytes: at most the limit.
    pub stored_bytes: u64,
    /// The number of complete bodies: at most the watermark, if there is one.
    pub bodies: usize,
    /// The sum of the weights of the entries that the manager tracks.
    pub weight: usize,
    /// The number of these entries.
    pub entries: usize,
    /// The sum of the weights of all evicted entries.
    pub evicted_weight: usize,
    /// The number of entries that were evicted.
    pub evicted_entries: usize,
}

/// A cache whose complete bodies have at most `limit` bytes together, and number at most
/// `watermark` unless that is 0. Heads, and what is kept beside them, come on top: where they matter, take
/// `pcache_cache_new_bounded`. A permit ages out after so many milliseconds. The seed is 16 bytes
/// that the caller drew at random.
#[unsafe(no_mangle)]
pub extern "C" fn pcache_cache_new(
    alloc: Global,
    cache: &mut PcacheHandle,
    seed: &[u8],
    limit: usize,
    watermark: usize,
    age_timeout_millis: u64,
) -> u32
    ensures { OnGood (hash_at seed.now) result (IsSame cache.old cache.new) (λ s. MakesCache Lru
        Bodies limit (watermark_at watermark) (age_timeout_millis * 1000000) cache.old cache.new
        result) }
{
    cache_weighing(
        alloc,
        cache,
        seed,
        limit,
        watermark,
        age_timeout_millis,
        Policy::Lru,
        Weighing::Bodies,
    )
}

/// A cache whose stored responses take at most `limit` bytes of memory together: each counts with its
/// body, the text of its head, and 512 bytes for all that is kept beside these. Else it is as that of
/// `pcache_cache_new`.
#[unsafe(no_mangle)]
pub extern "C" fn pcache_cache_new_bounded(
    alloc: Global,
    cache: &mut PcacheHandle,
    seed: &[u8],
    limit: usize,
    watermark: usize,
    age_timeout_millis: u64,
) -> u32
    ensures { OnGood (hash_at seed.now) result (IsSame cache.old cache.new) (λ s. MakesCache Lru
        Entries limit (watermark_at watermark) (age_timeout_millis * 1000000) cache.old cache.new
        result) }
{
    cache_weighing(
        alloc,
        cache,
        seed,
        limit,
        watermark,
        age_timeout_millis,
        Policy::Lru,
        Weighing::Entries,
    )
}

/// A cache as that of `pcache_cache_new`, or of `pcache_cache_new_bounded` if `bounded` is not 0, whose entries go by a policy by the
/// header's number: LRU, FIFO, CLOCK or SIEVE.
#[unsafe(no_mangle)]
pub extern "C" fn pcache_cache_new_with(
    alloc: Global,
    cache: &mut PcacheHandle,
    seed: &[u8],
    policy: u32,
    bounded: u32,
    limit: usize,
    watermark: usize,
    age_timeout_millis: u64,
) -> u32
    ensures { (p : Option Policy) × IsNamed policy p
        × OnGood p result (IsSame cache.old cache.new) (λ named.
        OnGood (hash_at seed.now) result (IsSame cache.old cache.new) (λ s.
        MakesCache named (weighing_at bounded) limit (watermark_at watermark)
        (age_timeout_millis * 1000000) cache.old cache.new result)) }
{
    let Some(policy) = policy_of(policy) else {
        return BAD_VALUE;
    };
    let weighing = weighing_of(bounded);
    cache_weighing(
        alloc,
        cache,
        seed,
        limit,
        watermark,
        age_timeout_millis,
        policy,
        weighing,
    )
}

// What entries weigh, by the flag of a bounded cache.
fn weighing_of(bounded: u32) -> Weighing
    ensures { result ≡ weighing_at bounded }
{
    if bounded == 0 {
        Weighing::Bodies
    } else {
        Weighing::Entries
    }
}

// A cache whose entries go by a policy, and weigh so.
fn cache_weighing(
    alloc: Global,
    cache: &mut PcacheHandle,
    seed: &[u8],
    limit: usize,
    watermark: usize,
    age_timeout_millis: u64,
    policy: Policy,
    weighing: Weighing,
) -> u32
    ensures { OnGood (hash_at seed.now) result (IsSame cache.old cache.new) (λ s. MakesCache policy
        weighing limit (watermark_at watermark) (age_timeout_millis * 1000000) cache.old cache.new
        result) }
{
    let Some(seed) = seed_of(seed) else {
        return BAD_VALUE;
    };
    let age_timeout = Duration::from_millis(age_timeout_millis);
    // Always an empty one: the store is empty too, so the entries of a saved list would have no
    // bodies, and take room until their turn came.
    match AnyManager::new(alloc, seed, policy, limit, watermark_of(watermark)) {
        Ok(manager) => {
            let served = Served::new(alloc, seed, manager, age_timeout, weighing);
            keep(alloc, cache, served)
        }
        Err(AllocError) => NO_MEMORY,
    }
}

// Puts a cache into a handle that has none.
fn keep(alloc: Global, handle: &mut PcacheHandle, served: Served) -> u32
    ensures { GetsCache served handle.old handle.new result }
{
    match Box::new(alloc, served) {
        Ok(served) => handle.fill(alloc, Object::Cache(served)),
        Err(_) => NO_MEMORY,
    }
}

fn totals(served: &Served, out: &mut PcacheCacheCounts) -> u32
    ensures done { result ≡ 0 }
    ensures says { SaysCounts served.now.cache out.new }
{
    let totals = served.cache.totals();
    out.stored_bytes = u64::try_from(served.cache.stored_bytes()).unwrap_or(u64::MAX);
    out.bodies = served.cache.slots();
    out.weight = totals.weight;
    out.entries = totals.items;
    out.evicted_weight = totals.evicted_weight;
    out.evicted_entries = totals.evicted_items;
    OK
}

fn totals_of(object: &Object, out: &mut PcacheCacheCounts) -> u32
    ensures { OnKind (as_cache object.now) result (out.new ≡ out.old) (λ s.
        (result ≡ 0) × SaysCounts s.cache out.new) }
{
    match object {
        Object::Cache(served) => totals(served, out),
        _ => WRONG_KIND,
    }
}

/// What a cache has.
#[unsafe(no_mangle)]
pub extern "C" fn pcache_cache_totals(
    alloc: Global,
    cache: &mut PcacheHandle,
    out: &mut PcacheCacheCounts,
) -> u32
    ensures says { AsksOf as_cache cache.old result (out.new ≡ out.old) (λ s.
        (result ≡ 0) × SaysCounts s.cache out.new) }
    ensures same { IsSame cache.old cache.new }
{
    let Some(object) = cache.take(alloc) else {
        return BAD_HANDLE;
    };
    let code = totals_of(&*object, out);
    cache.put(object);
    code
}

/// A key of these bytes, for the user with this tag.
pub(crate) fn key_from(alloc: Global, key: &[u8], tag: &[u8]) -> Result<CacheKey, u32>
    ensures key { IfOk result (λ k. k ≡ key_with key.now tag.now) }
    ensures text { OnOk result (IsUtf8 tag.now) }
    ensures refused { IfErr result (λ k.
        ((k ≡ bad_value) × (¬ IsUtf8 tag.now)) ⊎ ((k ≡ no_memory) × IsUtf8 tag.now)) }
{
    let Ok(tag) = std::str::from_utf8(tag) else {
        return Err(BAD_VALUE);
    };
    let Ok(tag) = tag.to_string(alloc) else {
        return Err(NO_MEMORY);
    };
    match Vec::from_slice(alloc, key) {
        Ok(primary) => Ok(CacheKey::new(primary, tag)),
        Err(_) => Err(NO_MEMORY),
    }
}

/// Opens a request for a key, for the user with this tag, which is UTF-8. Reports its number; it has to be ended, and is
/// ended with its cache.
#[unsafe(no_mangle)]
pub extern "C" fn pcache_request_new(
    alloc: Global,
    cache: &mut PcacheHandle,
    key: &[u8],
    tag: &[u8],
    request: &mut u64,
) -> u32
    ensures opens { OnText tag.now result (IsSame cache.old cache.new) (OnHandle cache.old cache.new
        result (λ a b. Opens (key_with key.now tag.now) a b request.new result)) }
{
    let key = match key_from(alloc, key, tag) {
        Ok(key) => key,
        Err(code) => return code,
    };
    let Some(mut object) = cache.take(alloc) else {
        return BAD_HANDLE;
    };
    let code = reached::open(&mut *object, alloc, key, request);
    cache.put(object);
    code
}

/// Ends a request, which gives back all that it holds. A permit that was not released is dangling.
#[unsafe(no_mangle)]
pub extern "C" fn pcache_request_end(alloc: Global, cache: &mut PcacheHandle, request: u64) -> u32
    ensures { OnHandle cache.old cache.new result (λ a b. Ends request a b result) }
{
    let Some(mut object) = cache.take(alloc) else {
        return BAD_HANDLE;
    };
    let code = reached::end(&mut *object, request);
    cache.put(object);
    code
}

/// The phase of a request, as the header's number.
#[unsafe(no_mangle)]
pub extern "C" fn pcache_request_phase(
    alloc: Global,
    cache: &mut PcacheHandle,
    request: u64,
    phase: &mut u32,
) -> u32
    ensures { OnRequest request cache.old cache.new result (λ c d o p.
        SaysPhase c d o p phase.new result) }
{
    let Some(mut object) = cache.take(alloc) else {
        return BAD_HANDLE;
    };
    let code = reached::phase(&mut *object, request, phase);
    cache.put(object);
    code
}

/// The lock that a request holds: 0 for nothing, 1 for the permit, 2 for a read lock.
#[unsafe(no_mangle)]
pub extern "C" fn pcache_request_held(
    alloc: Global,
    cache: &mut PcacheHandle,
    request: u64,
    held: &mut u32,
) -> u32
    ensures { OnRequest request cache.old cache.new result (λ c d o p.
        SaysHeld c d o p held.new result) }
{
    let Some(mut object) = cache.take(alloc) else {
        return BAD_HANDLE;
    };
    let code = reached::held(&mut *object, request, held);
    cache.put(object);
    code
}

/// A copy of the meta of what a look-up found, else of what the request serves or fills.
#[unsafe(no_mangle)]
pub extern "C" fn pcache_request_meta(
    alloc: Global,
    cache: &mut PcacheHandle,
    request: u64,
    meta: &mut PcacheHandle,
) -> u32
    ensures copies { OnRequest request cache.old cache.new result (λ c d o p.
        IsUnchanged c d o p × CopiesMeta (meta_shown o) meta.old meta.new result) }
    ensures left { result ≢ 0 → IsSame meta.old meta.new }
{
    let Some(mut object) = cache.take(alloc) else {
        return BAD_HANDLE;
    };
    let copied = reached::meta_of(&mut *object, request);
    cache.put(object);
    match copied {
        Ok(copy) => meta.fill(alloc, Object::Meta(copy)),
        Err(code) => code,
    }
}

// The same with the meta itself.
fn set_meta_to(alloc: Global, cache: &mut PcacheHandle, request: u64, object: &Object) -> u32
    ensures { OnKind (as_meta object.now) result (IsSame cache.old cache.new) (λ m.
        OnRequest request cache.old cache.new result (λ c d o p. (d ≡ c) × SetsMeta m o p result)) }
{
    let Object::Meta(meta) = object else {
        return WRONG_KIND;
    };
    let Some(mut object) = cache.take(alloc) else {
        return BAD_HANDLE;
    };
    let code = reached::set_meta(&mut *object, request, meta);
    cache.put(object);
    code
}

/// Takes a copy of a meta for what is to be stored.
#[unsafe(no_mangle)]
pub extern "C" fn pcache_request_set_meta(
    alloc: Global,
    cache: &mut PcacheHandle,
    request: u64,
    meta: &mut PcacheHandle,
) -> u32
    ensures does { AsksOf as_meta meta.old result (IsSame cache.old cache.new) (λ m.
        OnRequest request cache.old cache.new result (λ c d o p. (d ≡ c) × SetsMeta m o p result)) }
    ensures meta { IsSame meta.old meta.new }
{
    let Some(object) = meta.take(alloc) else {
        return BAD_HANDLE;
    };
    let code = set_meta_to(alloc, cache, request, &*object);
    meta.put(object);
    code
}

// The same with the meta itself.
fn renew_to(
    alloc: Global,
    cache: &mut PcacheHandle,
    request: u64,
    object: &Object,
    set: &mut u32,
) -> u32
    ensures { OnKind (as_meta object.now) result (IsSame cache.old cache.new) (λ m.
        OnRequest request cache.old cache.new result (λ c d o p.
        Renews m set.new c d o p result)) }
{
    let Object::Meta(meta) = object else {
        return WRONG_KIND;
    };
    let Some(mut object) = cache.take(alloc) else {
        return BAD_HANDLE;
    };
    let code = reached::renew(&mut *object, request, meta, set);
    cache.put(object);
    code
}

/// Renews the stale body that the request found, of which the origin said that it is good, by the meta of that answer. Says whether that
/// body still stands under the key, 1 or 0: if not, nothing that is stored has another meta than before.
#[unsafe(no_mangle)]
pub extern "C" fn pcache_request_renew(
    alloc: Global,
    cache: &mut PcacheHandle,
    request: u64,
    meta: &mut PcacheHandle,
    set: &mut u32,
) -> u32
    ensures does { AsksOf as_meta meta.old result (IsSame cache.old cache.new) (λ m.
        OnRequest request cache.old cache.new result (λ c d o p.
        Renews m set.new c d o p result)) }
    ensures meta { IsSame meta.old meta.new }
{
    let Some(object) = meta.take(alloc) else {
        return BAD_HANDLE;
    };
    let code = renew_to(alloc, cache, request, &*object, set);
    meta.put(object);
    code
}

// The same with the head itself.
fn serve_on_to(
    alloc: Global,
    cache: &mut PcacheHandle,
    request: u64,
    object: &Object,
    reason: NoCacheReason,
) -> u32
    ensures { OnKind (as_head object.now) result (IsSame cache.old cache.new) (λ h.
        OnRequest request cache.old cache.new result (λ c d o p.
        ServesOn (shown h) reason c d o p result)) }
{
    let Object::Head(head) = object else {
        return WRONG_KIND;
    };
    let Some(mut object) = cache.take(alloc) else {
        return BAD_HANDLE;
    };
    let code = reached::serve_on(&mut *object, request, head, reason);
    cache.put(object);
    code
}

/// Serves a stale body on, of which the origin said that it is good, with a copy of the head of that answer, which is not stored, for
/// a reason by the number that the header has. A permit is released with what the reason tells those who wait. What is stored stays.
#[unsafe(no_mangle)]
pub extern "C" fn pcache_request_serve_on(
    alloc: Global,
    cache: &mut PcacheHandle,
    request: u64,
    head: &mut PcacheHandle,
    reason: u32,
) -> u32
    ensures does { (r : Option NoCacheReason)
        × IsNumber reason_number 13 reason r
        × OnGood r result (IsSame cache.old cache.new) (λ why.
        AsksOf as_head head.old result (IsSame cache.old cache.new) (λ h.
        OnRequest request cache.old cache.new result (λ c d o p.
        ServesOn (shown h) why c d o p result))) }
    ensures head { IsSame head.old head.new }
{
    let Some(reason) = reason_of(reason) else {
        return BAD_VALUE;
    };
    let Some(object) = head.take(alloc) else {
        return BAD_HANDLE;
    };
    let code = serve_on_to(alloc, cache, request, &*object, reason);
    head.put(object);
    code
}
