//! The status and the fields of a head, one by one: of a head that was made, and of that of a stored response.
ghost use Rattle.std.specs.Prelude.{◌≡◌, length, option_map, slice_get};
ghost use Rattle.std.specs.Option.{option_copied};
ghost use Rattle.http_header.specs.HeaderMap.{get_all, pairs};
ghost use Rattle.http_header.specs.Token.{lowercase};
ghost use Rattle.pcache_meta.specs.Header.{shown, shown_fields};
ghost use Rattle.pcache_c.specs.Fields.{CountsValues, SaysField, SaysStatus, SaysValue, head_shown};
ghost use Rattle.pcache_c.specs.Handles.{AsksOf, IsSame, OnKind};

use crate::codes::{BAD_HANDLE, NONE, OK, WRONG_KIND};
use crate::handle::PcacheHandle;
use crate::hashes::copy_out;
use crate::metas::write_both;
use crate::object::Object;
use http_header::{HeaderMap, HeaderName, HeaderValue};
use pcache_meta::header::ResponseHeader;
use std::alloc::Global;

// The head of an object that has one.
fn head_of(object: &Object) -> Option<&ResponseHeader>
    ensures { option_map shown (option_copied result) ≡ head_shown object.now }
{
    match object {
        Object::Head(head) => Some(head),
        // By the same calls, since a proxy sends either.
        Object::Meta(meta) => Some(meta.response_header()),
        _ => None,
    }
}

fn status_of(object: &Object, status: &mut u16) -> u32
    ensures { OnKind (head_shown object.now) result (status.new ≡ status.old) (λ h.
        SaysStatus h status.new result) }
{
    let Some(head) = head_of(object) else {
        return WRONG_KIND;
    };
    *status = head.status.as_u16();
    OK
}

/// The status of a head, or of that of a meta.
#[unsafe(no_mangle)]
pub extern "C" fn pcache_head_status(
    alloc: Global,
    head: &mut PcacheHandle,
    status: &mut u16,
) -> u32
    ensures says { AsksOf head_shown head.old result (status.new ≡ status.old) (λ h.
        SaysStatus h status.new result) }
    ensures same { IsSame head.old head.new }
{
    let Some(object) = head.take(alloc) else {
        return BAD_HANDLE;
    };
    let code = status_of(&*object, status);
    head.put(object);
    code
}

// How many values a name has.
#[tactic(auto, using(crate::proofs::Lines::length_shown))]
fn count_in(fields: &HeaderMap, name: &[u8]) -> usize
    ensures { result ≡ length (get_all (shown_fields fields.now) (lowercase name.now)) }
{
    let mut count = 0;
    // Looked up as it comes, in any case. So it takes no memory, and what is no name is that of no
    // field.
    'values: for _value in fields.get_all(name).iter() {
        count += 1;
    }
    count
}

fn count_of(object: &Object, name: &[u8], count: &mut usize) -> u32
    ensures { OnKind (head_shown object.now) result (count.new ≡ count.old) (λ h.
        CountsValues h name.now count.new result) }
{
    let Some(head) = head_of(object) else {
        return WRONG_KIND;
    };
    *count = count_in(&head.headers, name);
    OK
}

/// How many values a name has, in any case, in a head or in that of a meta: 0 where there is no such field.
#[unsafe(no_mangle)]
pub extern "C" fn pcache_head_count(
    alloc: Global,
    head: &mut PcacheHandle,
    name: &[u8],
    count: &mut usize,
) -> u32
    ensures counts { AsksOf head_shown head.old result (count.new ≡ count.old) (λ h.
        CountsValues h name.now count.new result) }
    ensures same { IsSame head.old head.new }
{
    let Some(object) = head.take(alloc) else {
        return BAD_HANDLE;
    };
    let code = count_of(&*object, name, count);
    head.put(object);
    code
}

// The value with this number of those of a name.
fn value_in<'a>(fields: &'a HeaderMap, name: &[u8], index: usize) -> Option<&'a HeaderValue>
    ensures { option_map (λ v. v.now.bytes) result
        ≡ slice_get (get_all (shown_fields fields.now) (lowercase name.now)) index }
{
    let mut left = index;
    'values: for value in fields.get_all(name).iter() {
        if left == 0 {
            return Some(value);
        }
        left -= 1;
    }
    None
}

fn value_of(object: &Object, name: &[u8], index: usize, out: &mut [u8], len: &mut usize) -> u32
    ensures { OnKind (head_shown object.now) result (out.new ≡ out.old) (λ h.
        SaysValue h name.now index out.old out.new len.new result) }
{
    let Some(head) = head_of(object) else {
        return WRONG_KIND;
    };
    let Some(value) = value_in(&head.headers, name, index) else {
        return NONE;
    };
    let bytes = value.as_bytes();
    *len = bytes.len();
    copy_out(bytes, out)
}

/// The value with this number, from 0, of those of a name in any case, to a buffer: in a head, or in that of a meta. Its length is
/// said first: if the buffer is too short, nothing is written and the value is bad. There is nothing to hand over past the last one.
#[unsafe(no_mangle)]
pub extern "C" fn pcache_head_value(
    alloc: Global,
    head: &mut PcacheHandle,
    name: &[u8],
    index: usize,
    out: &mut [u8],
    len: &mut usize,
) -> u32
    ensures says { AsksOf head_shown head.old result (out.new ≡ out.old) (λ h.
        SaysValue h name.now index out.old out.new len.new result) }
    ensures same { IsSame head.old head.new }
{
    let Some(object) = head.take(alloc) else {
        return BAD_HANDLE;
    };
    let code = value_of(&*object, name, index, out, len);
    head.put(object);
    code
}

// The field with this number.
fn field_in(fields: &HeaderMap, index: usize) -> Option<(&HeaderName, &HeaderValue)>
    ensures { option_map (λ p. (p.0.now, p.1.now.bytes)) result
        ≡ slice_get (pairs (shown_fields fields.now)) index }
{
    let mut left = index;
    'fields: for field in fields.iter() {
        if left == 0 {
            return Some(field);
        }
        left -= 1;
    }
    None
}

fn field_of(
    object: &Object,
    index: usize,
    name: &mut [u8],
    value: &mut [u8],
    name_len: &mut usize,
    value_len: &mut usize,
) -> u32
    ensures { OnKind (head_shown object.now) result
        ((name.new ≡ name.old) × (value.new ≡ value.old))
        (λ h. SaysField h index name.old name.new value.old value.new name_len.new value_len.new
        result) }
{
    let Some(head) = head_of(object) else {
        return WRONG_KIND;
    };
    let Some((first, second)) = field_in(&head.headers, index) else {
        return NONE;
    };
    let (first, second) = (first.as_bytes(), second.as_bytes());
    *name_len = first.len();
    *value_len = second.len();
    write_both(first, second, name, value)
}

/// The field with this number, from 0, to two buffers: its name in lower case and its value, of a head or of that of a meta. Those of
/// one name come together. Their lengths are said first: if a buffer is too short, nothing is written and the value is bad. There is
/// nothing to hand over past the last one. Each call goes through the fields before it.
#[unsafe(no_mangle)]
pub extern "C" fn pcache_head_field(
    alloc: Global,
    head: &mut PcacheHandle,
    index: usize,
    name: &mut [u8],
    value: &mut [u8],
    name_len: &mut usize,
    value_len: &mut usize,
) -> u32
    ensures says { AsksOf head_shown head.old result
        ((name.new ≡ name.old) × (value.new ≡ value.old))
        (λ h. SaysField h index name.old name.new value.old value.new name_len.new value_len.new
        result) }
    ensures same { IsSame head.old head.new }
{
    let Some(object) = head.take(alloc) else {
        return BAD_HANDLE;
    };
    let code = field_of(&*object, index, name, value, name_len, value_len);
    head.put(object);
    code
}
