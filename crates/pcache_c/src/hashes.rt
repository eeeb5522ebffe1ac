//! The hashes of keys, and what a response varies on.
ghost use Rattle.std.specs.Prelude.{◌≡◌, ◌≤◌, ◌++◌, None, Ok, drop, length, ⊤};
ghost use Rattle.pcache_c.specs.Codes.{OnGood, code_in, hash_at, variance_at};
ghost use Rattle.pcache_c.specs.Handles.{ChangesOf, Fills, IsSame, Turns, object_of};
ghost use Rattle.pcache_c.specs.Managers.{IsWritten};
ghost use Rattle.pcache_c.specs.Objects.{as_variance};
ghost use Rattle.pcache_c.specs.Values.{AddsTo, EndsHandle, EndsVariance, MakesCombined, MakesHash, SaysVariance, empty_variance};

use crate::codes::{BAD_HANDLE, BAD_VALUE, NO_MEMORY, NONE, OK, WRONG_KIND};
use crate::handle::PcacheHandle;
use crate::object::Object;
use pcache_base::key::{CacheHashKey, CompactCacheKey, HashBinary, hash_key};
use pcache_base::text::Text;
use pcache_base::variance::VarianceBuilder;
use std::alloc::Global;

/// A hash from exactly 16 bytes: an array does not cross by value.
pub(crate) fn hash_from(bytes: &[u8]) -> Option<HashBinary>
    ensures { result ≡ hash_at bytes.now }
{
    if bytes.len() != 16 {
        return None;
    }
    let mut hash = [0; 16];
    hash.copy_from_slice(bytes);
    Some(hash)
}

/// A variance from exactly 16 bytes, or none from no bytes.
pub(crate) fn variance_from(bytes: &[u8]) -> Result<Option<HashBinary>, u32>
    ensures { OnGood (variance_at bytes.now) (code_in result) ⊤ (λ v. result ≡ Ok v) }
{
    if bytes.is_empty() {
        return Ok(None);
    }
    match hash_from(bytes) {
        Some(hash) => Ok(Some(hash)),
        None => Err(BAD_VALUE),
    }
}

/// Writes bytes to the start of a buffer that is long enough.
pub(crate) fn copy_out(bytes: &[u8], out: &mut [u8]) -> u32
    ensures { IsWritten bytes.now out.old out.new result }
{
    if out.len() < bytes.len() {
        return BAD_VALUE;
    }
    put(bytes, out);
    OK
}

/// Writes bytes to the start of a buffer that has room for them.
pub(crate) fn put(bytes: &[u8], out: &mut [u8])
    requires { length bytes.now ≤ length out.old }
    ensures { out.new ≡ bytes.now ++ drop (length bytes.now) out.old }
{
    out[..bytes.len()].copy_from_slice(bytes);
}

/// The hash of bytes, to a buffer of 16: BLAKE2b with 16 bytes out (RFC 7693).
#[unsafe(no_mangle)]
pub extern "C" fn pcache_hash_key(key: &[u8], out: &mut [u8]) -> u32
    ensures { OnGood (hash_at out.old) result (out.new ≡ out.old) (λ room.
        MakesHash key.now out.new result) }
{
    if out.len() != 16 {
        return BAD_VALUE;
    }
    out.copy_from_slice(&hash_key(key));
    OK
}

/// The combined hash of a primary hash and a variance, to a buffer of 16. No bytes mean no
/// variance; then the combined hash is the primary one.
#[unsafe(no_mangle)]
pub extern "C" fn pcache_combined_hash(
    alloc: Global,
    primary: &[u8],
    variance: &[u8],
    out: &mut [u8],
) -> u32
    ensures { OnGood (hash_at primary.now) result (out.new ≡ out.old) (λ p. OnGood
        (variance_at variance.now) result (out.new ≡ out.old)
        (λ v. OnGood (hash_at out.old) result (out.new ≡ out.old) (λ room.
        MakesCombined p v out.new result))) }
{
    let Some(primary) = hash_from(primary) else {
        return BAD_VALUE;
    };
    let variance = match variance_from(variance) {
        Ok(variance) => variance,
        Err(code) => return code,
    };
    if out.len() != 16 {
        return BAD_VALUE;
    }
    let key = CompactCacheKey {
        primary,
        variance,
        user_tag: Text::new(String::new(alloc)),
    };
    out.copy_from_slice(&key.combined_bin());
    OK
}

/// Begins a variance.
#[unsafe(no_mangle)]
pub extern "C" fn pcache_variance_new(alloc: Global, handle: &mut PcacheHandle) -> u32
    ensures { Fills empty_variance handle.old handle.new result }
{
    handle.fill(alloc, Object::Variance(VarianceBuilder::new(alloc)))
}

// Adds a name with its value to a variance.
fn add_to(alloc: Global, builder: &mut VarianceBuilder<'static>, name: &[u8], value: &[u8]) -> u32
    ensures { AddsTo name.now value.now builder.old builder.new result }
{
    let Ok(name) = std::str::from_utf8(name) else {
        return BAD_VALUE;
    };
    let Ok(name) = name.to_string(alloc) else {
        return NO_MEMORY;
    };
    let Ok(value) = Vec::from_slice(alloc, value) else {
        return NO_MEMORY;
    };
    match builder.add_owned_name_value(name, value) {
        Ok(()) => OK,
        Err(_) => NO_MEMORY,
    }
}

fn add(alloc: Global, object: &mut Object, name: &[u8], value: &[u8]) -> u32
    ensures { Turns as_variance object.old object.new result (λ v w.
        AddsTo name.now value.now v w result) }
{
    match object {
        Object::Variance(builder) => add_to(alloc, builder, name, value),
        _ => WRONG_KIND,
    }
}

/// Adds what a response varies on: a name, which is text, and its value. The last value of a name
/// stands.
#[unsafe(no_mangle)]
pub extern "C" fn pcache_variance_add(
    alloc: Global,
    handle: &mut PcacheHandle,
    name: &[u8],
    value: &[u8],
) -> u32
    ensures { ChangesOf as_variance handle.old handle.new result (λ v w.
        AddsTo name.now value.now v w result) }
{
    let Some(mut object) = handle.take(alloc) else {
        return BAD_HANDLE;
    };
    let code = add(alloc, &mut *object, name, value);
    handle.put(object);
    code
}

// Ends a variance, which says its hash.
fn finish(builder: VarianceBuilder<'static>, out: &mut [u8]) -> u32
    requires { length out.old ≡ 16 }
    ensures { SaysVariance builder.entry out.old out.new result }
{
    match builder.finalize() {
        Some(hash) => {
            out.copy_from_slice(&hash);
            OK
        }
        None => NONE,
    }
}

/// Ends a variance: its hash goes to a buffer of 16. There is none if nothing was added.
#[unsafe(no_mangle)]
pub extern "C" fn pcache_variance_finish(
    alloc: Global,
    handle: &mut PcacheHandle,
    out: &mut [u8],
) -> u32
    ensures { OnGood (hash_at out.old) result ((out.new ≡ out.old) × IsSame handle.old handle.new)
        (λ room.
        EndsVariance (object_of handle.old) (object_of handle.new) out.old out.new result) }
{
    if out.len() != 16 {
        return BAD_VALUE;
    }
    let Some(object) = handle.take(alloc) else {
        return BAD_HANDLE;
    };
    if !matches!(&*object, Object::Variance(_)) {
        handle.put(object);
        return WRONG_KIND;
    }
    match Box::into_inner(object) {
        Object::Variance(builder) => finish(builder, out),
        _ => WRONG_KIND,
    }
}

/// Ends a handle of any kind. Its object is freed.
#[unsafe(no_mangle)]
pub extern "C" fn pcache_end(alloc: Global, handle: &mut PcacheHandle) -> u32
    ensures none { object_of handle.new ≡ None }
    ensures code { EndsHandle (object_of handle.old) result }
{
    match handle.take(alloc) {
        Some(_) => OK,
        None => BAD_HANDLE,
    }
}
