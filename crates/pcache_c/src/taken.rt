//! Which URIs a response to an unsafe method takes away besides its target (RFC 9111 section 4.4).
ghost use Rattle.std.specs.Prelude.{◌≡◌, ◌↔◌, IsTrue};
ghost use Rattle.url.specs.Parser.{IsOutOfRoom};
ghost use Rattle.pcache_c.specs.Handles.{AsksOf, IsSame, OnKind};
ghost use Rattle.pcache_c.specs.Objects.{as_head};
ghost use Rattle.pcache_c.specs.Taken.{OnUri, TakesAway, uri_text};

use crate::codes::{BAD_HANDLE, BAD_VALUE, NO_MEMORY, WRONG_KIND};
use crate::handle::PcacheHandle;
use crate::metas::write_both;
use crate::object::Object;
use pcache_meta::header::ResponseHeader;
use pcache_validation::unsafe_methods::taken_away;
use std::alloc::Global;
use url::{ParseError, Url};

// The text of a URI, or none.
fn text_in(uri: &Option<Url>) -> &[u8]
    ensures { result.now ≡ uri_text uri.now }
{
    match uri {
        Some(uri) => uri.as_str().as_bytes(),
        None => b"",
    }
}

fn write_taken(
    target: &Url,
    response: &ResponseHeader,
    location: &mut [u8],
    content_location: &mut [u8],
    location_len: &mut usize,
    content_location_len: &mut usize,
) -> u32
    ensures { TakesAway target.now response.now location.old location.new content_location.old
        content_location.new location_len.new content_location_len.new result }
{
    match taken_away(target, &response.headers) {
        Ok(taken) => {
            let first = text_in(&taken.location);
            let second = text_in(&taken.content_location);
            *location_len = first.len();
            *content_location_len = second.len();
            write_both(first, second, location, content_location)
        }
        Err(_) => NO_MEMORY,
    }
}

// The code of a text that is no URI, or for which there was no room.
fn code_of_none(error: ParseError) -> u32
    ensures room { (result ≡ 1) ↔ IsOutOfRoom error }
    ensures bad { (¬ IsOutOfRoom error) → result ≡ 4 }
{
    match error {
        ParseError::OutOfMemory | ParseError::Overflow => NO_MEMORY,
        _ => BAD_VALUE,
    }
}

fn write_on(
    alloc: Global,
    target: &[u8],
    response: &ResponseHeader,
    location: &mut [u8],
    content_location: &mut [u8],
    location_len: &mut usize,
    content_location_len: &mut usize,
) -> u32
    ensures { OnUri target.now result
        ((location.new ≡ location.old) × (content_location.new ≡ content_location.old))
        (λ u. TakesAway u response.now location.old location.new content_location.old
        content_location.new location_len.new content_location_len.new result) }
{
    let Ok(text) = str::from_utf8(target) else {
        return BAD_VALUE;
    };
    match Url::parse(alloc, text) {
        Ok(target) => write_taken(
            &target,
            response,
            location,
            content_location,
            location_len,
            content_location_len,
        ),
        Err(error) => code_of_none(error),
    }
}

fn write(
    alloc: Global,
    response: &Object,
    target: &[u8],
    location: &mut [u8],
    content_location: &mut [u8],
    location_len: &mut usize,
    content_location_len: &mut usize,
) -> u32
    ensures { OnKind (as_head response.now) result
        ((location.new ≡ location.old) × (content_location.new ≡ content_location.old))
        (λ h. OnUri target.now result
        ((location.new ≡ location.old) × (content_location.new ≡ content_location.old))
        (λ u. TakesAway u h location.old location.new content_location.old content_location.new
        location_len.new content_location_len.new result)) }
{
    match response {
        Object::Head(head) => write_on(
            alloc,
            target,
            head,
            location,
            content_location,
            location_len,
            content_location_len,
        ),
        _ => WRONG_KIND,
    }
}

/// Which URIs a response to an unsafe method takes away besides its target, whose URI is handed in: those
/// of its Location and its Content-Location, to two buffers, if they are of the target's origin. A URI of
/// no bytes is none. Their lengths are said first: if a buffer is too short, nothing is written and the
/// value is bad, as it is for a target that is no URI.
#[unsafe(no_mangle)]
pub extern "C" fn pcache_taken_away(
    alloc: Global,
    response: &mut PcacheHandle,
    target: &[u8],
    location: &mut [u8],
    content_location: &mut [u8],
    location_len: &mut usize,
    content_location_len: &mut usize,
) -> u32
    ensures takes { AsksOf as_head response.old result
        ((location.new ≡ location.old) × (content_location.new ≡ content_location.old))
        (λ h. OnUri target.now result
        ((location.new ≡ location.old) × (content_location.new ≡ content_location.old))
        (λ u. TakesAway u h location.old location.new content_location.old content_location.new
        location_len.new content_location_len.new result)) }
    ensures same { IsSame response.old response.new }
{
    let Some(object) = response.take(alloc) else {
        return BAD_HANDLE;
    };
    let code = write(
        alloc,
        &*object,
        target,
        location,
        content_location,
        location_len,
        content_location_len,
    );
    response.put(object);
    code
}
