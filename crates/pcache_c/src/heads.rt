//! Heads of responses, what Cache-Control says of them, and whether they are to be stored.
ghost use Rattle.std.specs.Prelude.{◌≡◌, ℕ, None, Option, option_map};
ghost use Rattle.std.specs.Duration.{as_nanos};
ghost use Rattle.std.specs.Option.{option_copied};
ghost use Rattle.std.specs.declared.time.Duration.{Duration};
ghost use Rattle.pcache_control.specs.Responses.{IsDecision};
ghost use Rattle.pcache_c.specs.Codes.{OnGood, is_flag, moment_at};
ghost use Rattle.pcache_c.specs.Handles.{AsksOf, ChangesOf, IsSame, OnKind, Turns};
ghost use Rattle.pcache_c.specs.Objects.{as_control, as_head};
ghost use Rattle.pcache_c.specs.Values.{AddsField, AddsLine, Decides, IsSeconds, MakesHead, ReadsControl, SaysControl};

use crate::codes::{BAD_HANDLE, BAD_VALUE, NO_MEMORY, NONE, OK, WRONG_KIND};
use crate::handle::PcacheHandle;
use crate::metas::moment_of;
use crate::object::Object;
use http::StatusCode;
use http_header::{HeaderMap, HeaderName, HeaderNameError, HeaderValue, HeaderValueError};
use pcache_base::moment::Moment;
use pcache_control::cache_control::{CacheControl, Cacheable};
use pcache_control::defaults::{CacheMetaDefaults, FreshDurationByStatusFn};
use pcache_control::filters::resp_cacheable;
use pcache_control::interpret::InterpretCacheControl;
use pcache_control::response::RespCacheable;
use pcache_meta::header::ResponseHeader;
use std::alloc::Global;
use std::time::Duration;

/// Begins the head of a response of HTTP/1.1 with this status and no fields.
#[unsafe(no_mangle)]
pub extern "C" fn pcache_head_new(alloc: Global, handle: &mut PcacheHandle, status: u16) -> u32
    ensures { MakesHead status handle.old handle.new result }
{
    match StatusCode::from_u16(status) {
        Ok(status) => handle.fill(alloc, Object::Head(ResponseHeader::build(alloc, status))),
        Err(_) => BAD_VALUE,
    }
}

/// Adds a line to the fields of a head, beside those of the same name.
pub(crate) fn add_line(alloc: Global, headers: &mut HeaderMap, name: &[u8], value: &[u8]) -> u32
    ensures { AddsLine name.now value.now headers.old headers.new result }
{
    let name = match HeaderName::from_bytes(alloc, name) {
        Ok(name) => name,
        Err(HeaderNameError::Invalid) => return BAD_VALUE,
        Err(_) => return NO_MEMORY,
    };
    let value = match HeaderValue::from_bytes(alloc, value) {
        Ok(value) => value,
        Err(HeaderValueError::Invalid) => return BAD_VALUE,
        Err(_) => return NO_MEMORY,
    };
    match headers.append(name, value) {
        Ok(_) => OK,
        Err(_) => NO_MEMORY,
    }
}

fn add_field(alloc: Global, head: &mut ResponseHeader, name: &[u8], value: &[u8]) -> u32
    ensures { AddsField name.now value.now head.old head.new result }
{
    add_line(alloc, &mut head.headers, name, value)
}

fn add(alloc: Global, object: &mut Object, name: &[u8], value: &[u8]) -> u32
    ensures { Turns as_head object.old object.new result (λ h k.
        AddsField name.now value.now h k result) }
{
    match object {
        Object::Head(head) => add_field(alloc, head, name, value),
        _ => WRONG_KIND,
    }
}

/// Adds a field to a head, beside those of the same name.
#[unsafe(no_mangle)]
pub extern "C" fn pcache_head_add(
    alloc: Global,
    handle: &mut PcacheHandle,
    name: &[u8],
    value: &[u8],
) -> u32
    ensures { ChangesOf as_head handle.old handle.new result (λ h k.
        AddsField name.now value.now h k result) }
{
    let Some(mut object) = handle.take(alloc) else {
        return BAD_HANDLE;
    };
    let code = add(alloc, &mut *object, name, value);
    handle.put(object);
    code
}

fn read_control(alloc: Global, head: &ResponseHeader, control: &mut PcacheHandle) -> u32
    ensures { ReadsControl head.now control.old control.new result }
{
    match CacheControl::from_resp_headers(alloc, head) {
        Ok(Some(read)) => control.fill(alloc, Object::Control(read)),
        Ok(None) => NONE,
        Err(_) => NO_MEMORY,
    }
}

fn read(alloc: Global, object: &Object, control: &mut PcacheHandle) -> u32
    ensures { OnKind (as_head object.now) result (IsSame control.old control.new) (λ h.
        ReadsControl h control.old control.new result) }
{
    match object {
        Object::Head(head) => read_control(alloc, head, control),
        _ => WRONG_KIND,
    }
}

/// Reads the Cache-Control of a head. There is nothing to hand over if it has none.
#[unsafe(no_mangle)]
pub extern "C" fn pcache_control_read(
    alloc: Global,
    control: &mut PcacheHandle,
    head: &mut PcacheHandle,
) -> u32
    ensures reads { AsksOf as_head head.old result (IsSame control.old control.new) (λ h.
        ReadsControl h control.old control.new result) }
    ensures head { IsSame head.old head.new }
{
    let Some(object) = head.take(alloc) else {
        return BAD_HANDLE;
    };
    let code = read(alloc, &*object, control);
    head.put(object);
    code
}

/// What Cache-Control says of a response. A number of seconds counts only if its flag is not 0.
#[repr(C)]
#[derive(Drop)]
pub struct PcacheAnswers {
    /// The seconds for which the response is fresh.
    pub fresh_secs: u64,
    /// The seconds in which it may be served stale while it is revalidated.
    pub stale_while_revalidate_secs: u64,
    /// The seconds in which it may be served stale after an error.
    pub stale_if_error_secs: u64,
    /// Whether it may be stored: 0 for no, 1 for yes, 2 for the default.
    pub cacheable: u32,
    /// Whether it may be stored if its request had an Authorization.
    pub authorized: u32,
    /// Whether there are seconds for which it is fresh.
    pub has_fresh: u32,
    /// Whether there are seconds in which it may be served while it is revalidated.
    pub has_stale_while_revalidate: u32,
    /// Whether there are seconds in which it may be served after an error.
    pub has_stale_if_error: u32,
}

fn seconds_of(duration: Option<Duration>) -> (u32, u64)
    ensures { IsSeconds (option_map as_nanos duration) result.0 result.1 }
{
    match duration {
        Some(duration) => (1, duration.as_secs()),
        None => (0, 0),
    }
}

fn answer(control: &CacheControl, out: &mut PcacheAnswers) -> u32
    ensures done { result ≡ 0 }
    ensures says { SaysControl control.now out.new }
{
    let (has_fresh, fresh_secs) = seconds_of(control.fresh_duration());
    let (has_while, while_secs) = seconds_of(control.serve_stale_while_revalidate_duration());
    let (has_error, error_secs) = seconds_of(control.serve_stale_if_error_duration());
    out.cacheable = match control.is_cacheable() {
        Cacheable::No => 0,
        Cacheable::Yes => 1,
        Cacheable::Default => 2,
    };
    out.authorized = u32::from(control.allow_caching_authorized_req());
    out.has_fresh = has_fresh;
    out.fresh_secs = fresh_secs;
    out.has_stale_while_revalidate = has_while;
    out.stale_while_revalidate_secs = while_secs;
    out.has_stale_if_error = has_error;
    out.stale_if_error_secs = error_secs;
    OK
}

fn answers(object: &Object, out: &mut PcacheAnswers) -> u32
    ensures { OnKind (as_control object.now) result (out.new ≡ out.old) (λ c.
        (result ≡ 0) × SaysControl c out.new) }
{
    match object {
        Object::Control(control) => answer(control, out),
        _ => WRONG_KIND,
    }
}

/// What Cache-Control says.
#[unsafe(no_mangle)]
pub extern "C" fn pcache_control_answers(
    alloc: Global,
    control: &mut PcacheHandle,
    out: &mut PcacheAnswers,
) -> u32
    ensures says { AsksOf as_control control.old result (out.new ≡ out.old) (λ c.
        (result ≡ 0) × SaysControl c out.new) }
    ensures same { IsSame control.old control.new }
{
    let Some(object) = control.take(alloc) else {
        return BAD_HANDLE;
    };
    let code = answers(&*object, out);
    control.put(object);
    code
}

fn no_default(_status: StatusCode) -> Option<Duration>
    ensures { result ≡ None }
{
    None
}

// The decision on the response of a head by defaults that give no lifetime.
fn decide(
    control: Option<&CacheControl>,
    head: ResponseHeader,
    authorized: bool,
    windows: (u32, u32),
    defaults: &CacheMetaDefaults,
    now: Moment,
) -> RespCacheable
    requires none { (status : ℕ) (lifetime : Option Duration)
        → FreshDurationByStatusFn.post defaults.now.fresh_sec_fn status lifetime
        → lifetime ≡ None }
    requires revalidating { defaults.now.stale_while_revalidate_sec ≡ windows.0 }
    requires failing { defaults.now.stale_if_error_sec ≡ windows.1 }
    ensures { IsDecision now (option_copied control.entry) windows head authorized
        (λ lifetime. lifetime ≡ None) result }
{
    resp_cacheable(control, head, authorized, defaults, now)
}

// Puts the meta of a response that is to be stored into its handle.
fn fill_meta(
    alloc: Global,
    head: &ResponseHeader,
    authorized: bool,
    windows: (u32, u32),
    now: Moment,
    meta: &mut PcacheHandle,
) -> u32
    ensures { Decides now authorized windows head.now meta.old meta.new result }
{
    let control = match CacheControl::from_resp_headers(alloc, head) {
        Ok(control) => control,
        Err(_) => return NO_MEMORY,
    };
    let head = match head.copied() {
        Ok(head) => head,
        Err(_) => return NO_MEMORY,
    };
    let defaults = CacheMetaDefaults::new(no_default, windows.0, windows.1);
    match decide(control.as_ref(), head, authorized, windows, &defaults, now) {
        RespCacheable::Cacheable(made) => meta.fill(alloc, Object::Meta(made)),
        RespCacheable::Uncacheable(_) => NONE,
    }
}

fn decide_on(
    alloc: Global,
    object: &Object,
    authorized: bool,
    windows: (u32, u32),
    now: Moment,
    meta: &mut PcacheHandle,
) -> u32
    ensures { OnKind (as_head object.now) result (IsSame meta.old meta.new) (λ h.
        Decides now authorized windows h meta.old meta.new result) }
{
    match object {
        Object::Head(head) => fill_meta(alloc, head, authorized, windows, now, meta),
        _ => WRONG_KIND,
    }
}

/// Whether the response of a head is to be stored: if so, its meta goes to a second handle, and if
/// not, there is nothing to hand over. A response that says nothing of its lifetime is not stored:
/// the default lifetimes are a function of the status, and a pointer to one does not cross.
/// An authorization that is not 0 means that the request had one. The windows are what holds in
/// seconds if the response says nothing of being served stale.
#[unsafe(no_mangle)]
pub extern "C" fn pcache_resp_cacheable(
    alloc: Global,
    meta: &mut PcacheHandle,
    head: &mut PcacheHandle,
    authorization: u32,
    stale_while_revalidate_secs: u32,
    stale_if_error_secs: u32,
    now_secs: u64,
    now_nanos: u32,
) -> u32
    ensures decides { OnGood (moment_at now_secs now_nanos) result (IsSame meta.old meta.new)
        (λ now. AsksOf as_head head.old result (IsSame meta.old meta.new) (λ h. Decides now
        (is_flag authorization) (stale_while_revalidate_secs, stale_if_error_secs) h meta.old
        meta.new result)) }
    ensures head { IsSame head.old head.new }
{
    let Some(now) = moment_of(now_secs, now_nanos) else {
        return BAD_VALUE;
    };
    let Some(object) = head.take(alloc) else {
        return BAD_HANDLE;
    };
    let windows = (stale_while_revalidate_secs, stale_if_error_secs);
    let code = decide_on(alloc, &*object, authorization != 0, windows, now, meta);
    head.put(object);
    code
}
