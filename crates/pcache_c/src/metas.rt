//! Metas of stored responses, and their bytes.
ghost use Rattle.std.specs.Prelude.{◌≡◌, length};
ghost use Rattle.pcache_c.specs.Codes.{OnGood, hash_at, moment_at, variance_at};
ghost use Rattle.pcache_c.specs.Handles.{AsksOf, ChangesOf, IsSame, OnKind, Turns};
ghost use Rattle.pcache_c.specs.Objects.{as_head, as_meta};
ghost use Rattle.pcache_c.specs.Values.{AreWritten, MakesMeta, ReadsMeta, SavesMeta, SaysHash, SaysMeta, SaysMoment, SaysServable, VariesMeta, meta_said};

use crate::codes::{BAD_HANDLE, BAD_VALUE, NO_MEMORY, NONE, OK, WRONG_KIND, code_of};
use crate::handle::PcacheHandle;
use crate::hashes::{put, variance_from};
use crate::object::Object;
use pcache_base::key::HashBinary;
use pcache_base::moment::Moment;
use pcache_meta::header::ResponseHeader;
use pcache_meta::meta::CacheMeta;
use std::alloc::Global;

/// The moment of seconds and nanoseconds; `None` if the nanoseconds are a second or more.
pub(crate) fn moment_of(secs: u64, nanos: u32) -> Option<Moment>
    ensures { result ≡ moment_at secs nanos }
{
    Moment::new(secs, nanos)
}

/// A moment: seconds and nanoseconds since 1970-01-01 00:00:00 UTC.
#[repr(C)]
#[derive(Clone, Copy)]
pub struct PcacheMoment {
    /// The whole seconds.
    pub secs: u64,
    /// The nanoseconds past them.
    pub nanos: u32,
}

impl PcacheMoment {
    fn of(moment: Moment) -> PcacheMoment
        ensures { SaysMoment moment result }
    {
        PcacheMoment {
            secs: moment.secs(),
            nanos: moment.nanos(),
        }
    }
}

/// The content of a meta beside its head.
#[repr(C)]
#[derive(Clone, Copy)]
pub struct PcacheMeta {
    /// When the response was first stored.
    pub created: PcacheMoment,
    /// When it was last revalidated.
    pub updated: PcacheMoment,
    /// Until when it is fresh.
    pub fresh_until: PcacheMoment,
    /// The seconds in which it may be served stale while it is revalidated.
    pub stale_while_revalidate_secs: u32,
    /// The seconds in which it may be served stale after an error.
    pub stale_if_error_secs: u32,
}

fn new_meta(alloc: Global, head: &ResponseHeader, said: &PcacheMeta, meta: &mut PcacheHandle) -> u32
    ensures { OnGood (moment_at said.now.created.secs said.now.created.nanos) result
        (IsSame meta.old meta.new)
        (λ created. OnGood (moment_at said.now.fresh_until.secs said.now.fresh_until.nanos) result
        (IsSame meta.old meta.new)
        (λ until.
        MakesMeta (meta_said created until said.now head.now) meta.old meta.new result)) }
{
    let Some(created) = moment_of(said.created.secs, said.created.nanos) else {
        return BAD_VALUE;
    };
    let Some(fresh_until) = moment_of(said.fresh_until.secs, said.fresh_until.nanos) else {
        return BAD_VALUE;
    };
    let head = match head.copied() {
        Ok(head) => head,
        Err(_) => return NO_MEMORY,
    };
    let made = CacheMeta::new(
        fresh_until,
        created,
        said.stale_while_revalidate_secs,
        said.stale_if_error_secs,
        head,
    );
    meta.fill(alloc, Object::Meta(made))
}

fn make(alloc: Global, object: &Object, said: &PcacheMeta, meta: &mut PcacheHandle) -> u32
    ensures { OnKind (as_head object.now) result (IsSame meta.old meta.new) (λ h. OnGood
        (moment_at said.now.created.secs said.now.created.nanos) result (IsSame meta.old meta.new)
        (λ created. OnGood (moment_at said.now.fresh_until.secs said.now.fresh_until.nanos) result
        (IsSame meta.old meta.new)
        (λ until. MakesMeta (meta_said created until said.now h) meta.old meta.new result))) }
{
    match object {
        Object::Head(head) => new_meta(alloc, head, said, meta),
        _ => WRONG_KIND,
    }
}

/// A meta of what is said, for a response with this head. When it was updated is not read.
#[unsafe(no_mangle)]
pub extern "C" fn pcache_meta_new(
    alloc: Global,
    meta: &mut PcacheHandle,
    head: &mut PcacheHandle,
    said: &PcacheMeta,
) -> u32
    ensures makes { AsksOf as_head head.old result (IsSame meta.old meta.new) (λ h. OnGood
        (moment_at said.now.created.secs said.now.created.nanos) result (IsSame meta.old meta.new)
        (λ created. OnGood (moment_at said.now.fresh_until.secs said.now.fresh_until.nanos) result
        (IsSame meta.old meta.new)
        (λ until. MakesMeta (meta_said created until said.now h) meta.old meta.new result))) }
    ensures head { IsSame head.old head.new }
{
    let Some(object) = head.take(alloc) else {
        return BAD_HANDLE;
    };
    let code = make(alloc, &*object, said, meta);
    head.put(object);
    code
}

/// The meta that two byte strings spell: what it says beside its head, and its head.
#[unsafe(no_mangle)]
pub extern "C" fn pcache_meta_read(
    alloc: Global,
    meta: &mut PcacheHandle,
    internal: &[u8],
    header: &[u8],
) -> u32
    ensures { ReadsMeta internal.now header.now meta.old meta.new result }
{
    match CacheMeta::deserialize(alloc, internal, header) {
        Ok(read) => meta.fill(alloc, Object::Meta(read)),
        Err(e) => code_of(e),
    }
}

fn say(meta: &CacheMeta, out: &mut PcacheMeta) -> u32
    ensures done { result ≡ 0 }
    ensures says { SaysMeta meta.now out.new }
{
    out.created = PcacheMoment::of(meta.created());
    out.updated = PcacheMoment::of(meta.updated());
    out.fresh_until = PcacheMoment::of(meta.fresh_until());
    out.stale_while_revalidate_secs = meta.stale_while_revalidate_sec();
    out.stale_if_error_secs = meta.stale_if_error_sec();
    OK
}

fn says(object: &Object, out: &mut PcacheMeta) -> u32
    ensures { OnKind (as_meta object.now) result (out.new ≡ out.old) (λ m.
        (result ≡ 0) × SaysMeta m out.new) }
{
    match object {
        Object::Meta(meta) => say(meta, out),
        _ => WRONG_KIND,
    }
}

/// What a meta says, beside its head.
#[unsafe(no_mangle)]
pub extern "C" fn pcache_meta_says(
    alloc: Global,
    meta: &mut PcacheHandle,
    out: &mut PcacheMeta,
) -> u32
    ensures says { AsksOf as_meta meta.old result (out.new ≡ out.old) (λ m.
        (result ≡ 0) × SaysMeta m out.new) }
    ensures same { IsSame meta.old meta.new }
{
    let Some(object) = meta.take(alloc) else {
        return BAD_HANDLE;
    };
    let code = says(&*object, out);
    meta.put(object);
    code
}

/// Whether a response may be served at a moment: 1 or 0 each.
#[repr(C)]
#[derive(Clone, Copy)]
pub struct PcacheServable {
    /// It is fresh.
    pub fresh: u32,
    /// It may be served stale while it is revalidated.
    pub while_revalidating: u32,
    /// It may be served stale after an error.
    pub after_error: u32,
}

fn serve(meta: &CacheMeta, now: Moment, out: &mut PcacheServable) -> u32
    ensures done { result ≡ 0 }
    ensures says { SaysServable meta.now now out.new }
{
    out.fresh = u32::from(meta.is_fresh(now));
    out.while_revalidating = u32::from(meta.serve_stale_while_revalidate(now));
    out.after_error = u32::from(meta.serve_stale_if_error(now));
    OK
}

fn servable(object: &Object, now: Moment, out: &mut PcacheServable) -> u32
    ensures { OnKind (as_meta object.now) result (out.new ≡ out.old) (λ m.
        (result ≡ 0) × SaysServable m now out.new) }
{
    match object {
        Object::Meta(meta) => serve(meta, now, out),
        _ => WRONG_KIND,
    }
}

/// Whether the response of a meta may be served at a moment.
#[unsafe(no_mangle)]
pub extern "C" fn pcache_meta_servable(
    alloc: Global,
    meta: &mut PcacheHandle,
    now_secs: u64,
    now_nanos: u32,
    out: &mut PcacheServable,
) -> u32
    ensures says { OnGood (moment_at now_secs now_nanos) result (out.new ≡ out.old) (λ now. AsksOf
        as_meta meta.old result (out.new ≡ out.old)
        (λ m. (result ≡ 0) × SaysServable m now out.new)) }
    ensures same { IsSame meta.old meta.new }
{
    let Some(now) = moment_of(now_secs, now_nanos) else {
        return BAD_VALUE;
    };
    let Some(object) = meta.take(alloc) else {
        return BAD_HANDLE;
    };
    let code = servable(&*object, now, out);
    meta.put(object);
    code
}

/// Writes two byte strings to two buffers, if both have room.
pub(crate) fn write_both(first: &[u8], second: &[u8], internal: &mut [u8], header: &mut [u8]) -> u32
    ensures { AreWritten first.now second.now internal.old internal.new header.old header.new
        result }
{
    if internal.len() < first.len() {
        return BAD_VALUE;
    }
    if header.len() < second.len() {
        return BAD_VALUE;
    }
    put(first, internal);
    put(second, header);
    OK
}

fn write_meta(
    alloc: Global,
    meta: &CacheMeta,
    internal: &mut [u8],
    header: &mut [u8],
    internal_len: &mut usize,
    header_len: &mut usize,
) -> u32
    ensures { SavesMeta meta.now internal.old internal.new header.old header.new internal_len.new
        header_len.new result }
{
    match meta.serialize(alloc) {
        Ok((first, second)) => {
            *internal_len = first.len();
            *header_len = second.len();
            write_both(first.as_slice(), second.as_slice(), internal, header)
        }
        Err(_) => NO_MEMORY,
    }
}

fn write(
    alloc: Global,
    object: &Object,
    internal: &mut [u8],
    header: &mut [u8],
    internal_len: &mut usize,
    header_len: &mut usize,
) -> u32
    ensures { OnKind (as_meta object.now) result
        ((internal.new ≡ internal.old) × (header.new ≡ header.old))
        (λ m. SavesMeta m internal.old internal.new header.old header.new internal_len.new
        header_len.new result) }
{
    match object {
        Object::Meta(meta) => write_meta(alloc, meta, internal, header, internal_len, header_len),
        _ => WRONG_KIND,
    }
}

/// The two byte strings of a meta, to two buffers. Their lengths are said first: if a buffer is too
/// short, nothing is written and the value is bad.
#[unsafe(no_mangle)]
pub extern "C" fn pcache_meta_write(
    alloc: Global,
    meta: &mut PcacheHandle,
    internal: &mut [u8],
    header: &mut [u8],
    internal_len: &mut usize,
    header_len: &mut usize,
) -> u32
    ensures writes { AsksOf as_meta meta.old result
        ((internal.new ≡ internal.old) × (header.new ≡ header.old))
        (λ m. SavesMeta m internal.old internal.new header.old header.new internal_len.new
        header_len.new result) }
    ensures same { IsSame meta.old meta.new }
{
    let Some(object) = meta.take(alloc) else {
        return BAD_HANDLE;
    };
    let code = write(alloc, &*object, internal, header, internal_len, header_len);
    meta.put(object);
    code
}

fn vary_meta(meta: &mut CacheMeta, variance: Option<HashBinary>) -> u32
    ensures { VariesMeta variance meta.old meta.new result }
{
    match variance {
        Some(variance) => meta.set_variance(variance),
        None => meta.remove_variance(),
    }
    OK
}

fn vary(object: &mut Object, variance: Option<HashBinary>) -> u32
    ensures { Turns as_meta object.old object.new result (λ m n. VariesMeta variance m n result) }
{
    match object {
        Object::Meta(meta) => vary_meta(meta, variance),
        _ => WRONG_KIND,
    }
}

/// Sets what the response of a meta varies on: a hash of 16 bytes, or of none for nothing. A meta that renews a stored one has to have
/// its variance, or the stored one is found as another variant from then on.
#[unsafe(no_mangle)]
pub extern "C" fn pcache_meta_vary(alloc: Global, meta: &mut PcacheHandle, variance: &[u8]) -> u32
    ensures { OnGood (variance_at variance.now) result (IsSame meta.old meta.new) (λ v. ChangesOf
        as_meta meta.old meta.new result (λ m n. VariesMeta v m n result)) }
{
    let variance = match variance_from(variance) {
        Ok(variance) => variance,
        Err(code) => return code,
    };
    let Some(mut object) = meta.take(alloc) else {
        return BAD_HANDLE;
    };
    let code = vary(&mut *object, variance);
    meta.put(object);
    code
}

fn say_hash(hash: Option<HashBinary>, out: &mut [u8]) -> u32
    requires { length out.old ≡ 16 }
    ensures { SaysHash hash out.old out.new result }
{
    match hash {
        Some(hash) => {
            out.copy_from_slice(&hash);
            OK
        }
        None => NONE,
    }
}

fn variance_of(object: &Object, out: &mut [u8]) -> u32
    requires { length out.old ≡ 16 }
    ensures { OnKind (as_meta object.now) result (out.new ≡ out.old) (λ m.
        SaysHash m.variance out.old out.new result) }
{
    match object {
        Object::Meta(meta) => say_hash(meta.variance(), out),
        _ => WRONG_KIND,
    }
}

/// What the response of a meta varies on, to a buffer of 16: there is nothing to hand over if it varies on nothing.
#[unsafe(no_mangle)]
pub extern "C" fn pcache_meta_variance(
    alloc: Global,
    meta: &mut PcacheHandle,
    out: &mut [u8],
) -> u32
    ensures says { OnGood (hash_at out.old) result (out.new ≡ out.old) (λ room. AsksOf as_meta
        meta.old result (out.new ≡ out.old) (λ m. SaysHash m.variance out.old out.new result)) }
    ensures same { IsSame meta.old meta.new }
{
    if out.len() != 16 {
        return BAD_VALUE;
    }
    let Some(object) = meta.take(alloc) else {
        return BAD_HANDLE;
    };
    let code = variance_of(&*object, out);
    meta.put(object);
    code
}
