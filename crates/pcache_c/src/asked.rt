//! Heads of requests.
ghost use Rattle.std.specs.Prelude.{◌≡◌};
ghost use Rattle.pcache_c.specs.Decisions.{AddsToAsked, MakesAsked};
ghost use Rattle.pcache_c.specs.Handles.{ChangesOf, Turns};
ghost use Rattle.pcache_c.specs.Objects.{as_asked};

use crate::codes::{BAD_HANDLE, BAD_VALUE, NO_MEMORY, WRONG_KIND};
use crate::handle::PcacheHandle;
use crate::heads::add_line;
use crate::object::Object;
use http::Method;
use http::method::MethodError;
use http_header::HeaderMap;
use pcache_meta::header::RequestHeader;
use std::alloc::Global;

/// Begins the head of a request with this method and target (RFC 9112 section 3.2), and no fields.
#[unsafe(no_mangle)]
pub extern "C" fn pcache_asked_new(
    alloc: Global,
    handle: &mut PcacheHandle,
    method: &[u8],
    target: &[u8],
) -> u32
    ensures { MakesAsked method.now target.now handle.old handle.new result }
{
    let method = match Method::from_bytes(alloc, method) {
        Ok(method) => method,
        Err(MethodError::Invalid) => return BAD_VALUE,
        Err(_) => return NO_MEMORY,
    };
    let Ok(target) = Vec::from_slice(alloc, target) else {
        return NO_MEMORY;
    };
    let headers = HeaderMap::new(alloc);
    handle.fill(
        alloc,
        Object::Asked(RequestHeader {
            method,
            target,
            headers,
        }),
    )
}

fn add_to(alloc: Global, head: &mut RequestHeader, name: &[u8], value: &[u8]) -> u32
    ensures { AddsToAsked name.now value.now head.old head.new result }
{
    add_line(alloc, &mut head.headers, name, value)
}

fn add(alloc: Global, object: &mut Object, name: &[u8], value: &[u8]) -> u32
    ensures { Turns as_asked object.old object.new result (λ h k.
        AddsToAsked name.now value.now h k result) }
{
    match object {
        Object::Asked(head) => add_to(alloc, head, name, value),
        _ => WRONG_KIND,
    }
}

/// Adds a field to the head of a request, beside those of the same name.
#[unsafe(no_mangle)]
pub extern "C" fn pcache_asked_add(
    alloc: Global,
    handle: &mut PcacheHandle,
    name: &[u8],
    value: &[u8],
) -> u32
    ensures { ChangesOf as_asked handle.old handle.new result (λ h k.
        AddsToAsked name.now value.now h k result) }
{
    let Some(mut object) = handle.take(alloc) else {
        return BAD_HANDLE;
    };
    let code = add(alloc, &mut *object, name, value);
    handle.put(object);
    code
}
