//! Which fields of a newer response a stored one takes (RFC 9111 section 3.2).

ghost use Rattle.std.specs.Prelude.{◌≡◌, ◌⊎◌, ◌+◌, ◌<◌, ◌++◌, IfOk, IfErr, OnOk, codes, length};
ghost use Rattle.http_header.specs.HeaderMap.{append, get_all, remove};
ghost use Rattle.http_header.specs.Token.{lowercase};
ghost use Rattle.pcache_base.specs.declared.error.ErrorType.TheVariants.{InternalError, OutOfMemory};
ghost use Rattle.pcache_validation.specs.Lists.{elements};
ghost use Rattle.pcache_validation.specs.Updating.{of_the_body, of_the_connection, of_the_message, of_the_proxy, without_lines, without_names, with_lines, AreSameBut, IsBroughtIn, IsUpdated, Takes};

use crate::lists::Elements;
use http_header::{CONNECTION, HeaderMap, HeaderMapError, HeaderName, HeaderValue};
use pcache_base::error::{Error, ErrorType, Result};
use std::alloc::AllocError;

/// How a body is stored.
#[derive(Clone, Copy, Debug, PartialEq, Eq)]
pub enum StoredBody {
    /// As it was received.
    AsReceived,
    /// After processing, as decoding, so that Content-Encoding and Content-Type of a newer response
    /// need not fit it.
    Processed,
}

// Removes a field.
fn take_out(headers: &mut HeaderMap, name: &str)
    ensures { headers.new ≡ remove headers.old (lowercase name.now) }
{
    let _removed = headers.remove(name);
}

// Removes the fields that a line of Connection names.
fn take_out_elements(headers: &mut HeaderMap, line: &[u8])
    ensures { headers.new ≡ without_names headers.old (elements line.now) }
{
    'elements: for element in Elements::of(line) {
        let _removed = headers.remove(element);
    }
}

// Removes the fields that the lines of Connection of a head name.
fn take_out_named(headers: &mut HeaderMap, new: &HeaderMap)
    ensures { headers.new ≡ without_lines headers.old (get_all new.now (codes "connection")) }
{
    'lines: for line in new.get_all(&CONNECTION).iter() {
        take_out_elements(headers, line.as_bytes());
    }
}

// Removes the fields of the connection.
fn take_out_of_connection(headers: &mut HeaderMap)
    ensures { headers.new ≡ without_names headers.old of_the_connection }
{
    take_out(headers, "connection");
    take_out(headers, "proxy-connection");
    take_out(headers, "keep-alive");
    take_out(headers, "te");
    take_out(headers, "transfer-encoding");
    take_out(headers, "upgrade");
}

// Removes the fields of the proxy that the cache uses.
fn take_out_of_proxy(headers: &mut HeaderMap)
    ensures { headers.new ≡ without_names headers.old of_the_proxy }
{
    take_out(headers, "proxy-authenticate");
    take_out(headers, "proxy-authentication-info");
    take_out(headers, "proxy-authorization");
}

// Removes the fields of the message.
fn take_out_of_message(headers: &mut HeaderMap)
    ensures { headers.new ≡ without_names headers.old of_the_message }
{
    take_out(headers, "content-length");
    // Content-Range may be left out (RFC 9111 section 3.2).
    take_out(headers, "content-range");
}

// Removes the fields on which a body that was processed depends.
fn take_out_of_body(headers: &mut HeaderMap, body: StoredBody)
    ensures { headers.new ≡ without_names headers.old (of_the_body body) }
{
    match body {
        StoredBody::AsReceived => {}
        // Only the caller knows that the body is no longer as these fields say.
        StoredBody::Processed => {
            take_out(headers, "content-encoding");
            take_out(headers, "content-type");
        }
    }
}

fn refusal(error: HeaderMapError) -> Error
    ensures { (result ≡ OutOfMemory) ⊎ (result ≡ InternalError) }
{
    match error {
        HeaderMapError::MaxSizeReached => Error::new(ErrorType::InternalError),
        HeaderMapError::OutOfMemory => Error::new(ErrorType::OutOfMemory),
    }
}

// Adds a line of a field.
fn append(headers: &mut HeaderMap, name: HeaderName, value: HeaderValue) -> Result<()>
    ensures ok { OnOk result (headers.new ≡ append headers.old name value) }
    ensures kind { IfErr result (λ e. (e ≡ OutOfMemory) ⊎ (e ≡ InternalError)) }
{
    match headers.append(name, value) {
        Ok(_) => Ok(()),
        Err(error) => Err(refusal(error)),
    }
}

// Adds the lines of a field of another head.
fn append_lines(updated: &mut HeaderMap, name: &HeaderName, brought: &HeaderMap) -> Result<()>
    ensures ok { OnOk result
        (updated.new ≡ with_lines updated.old name.now (get_all brought.now name.now)) }
    ensures kind { IfErr result (λ e. (e ≡ OutOfMemory) ⊎ (e ≡ InternalError)) }
{
    'lines: for value in brought.get_all(name).iter() {
        append(updated, name.clone()?, value.clone()?)?;
    }
    Ok(())
}

// Puts the lines of a field of another head in place of those that are present.
fn replace(updated: &mut HeaderMap, name: &HeaderName, brought: &HeaderMap) -> Result<()>
    ensures same { OnOk result (get_all updated.new name.now ≡ get_all brought.now name.now) }
    ensures others { OnOk result (AreSameBut name.now updated.old updated.new) }
    ensures kind { IfErr result (λ e. (e ≡ OutOfMemory) ⊎ (e ≡ InternalError)) }
{
    // For the prover: it is a valid map of fields (`IsHeaderMap`).
    let _names = updated.keys_len();
    let _removed = updated.remove(name);
    append_lines(updated, name, brought)
}

// Puts each field of another head in place of what is present.
fn replace_all(updated: &mut HeaderMap, brought: &HeaderMap) -> Result<()>
    ensures ok { OnOk result (Takes brought.now updated.old updated.new) }
    ensures kind { IfErr result (λ e. (e ≡ OutOfMemory) ⊎ (e ≡ InternalError)) }
{
    // For the prover: it is a valid map of fields (`IsHeaderMap`).
    let _names = brought.keys_len();
    'names: for name in brought.keys() {
        replace(updated, name, brought)?;
    }
    Ok(())
}

// A copy of fields.
fn copied(headers: &HeaderMap) -> Result<HeaderMap, AllocError>
    ensures ok { IfOk result (λ copy. copy ≡ headers.now) }
{
    headers.clone()
}

// A copy of the fields of a newer response, without those that are left out.
fn brought_in(new: &HeaderMap, body: StoredBody) -> Result<HeaderMap, AllocError>
    ensures ok { IfOk result (IsBroughtIn body new.now) }
{
    // For the prover: it is a valid map of fields (`IsHeaderMap`).
    let _names = new.keys_len();
    let mut brought = copied(new)?;
    take_out_named(&mut brought, new);
    take_out_of_connection(&mut brought);
    take_out_of_proxy(&mut brought);
    take_out_of_message(&mut brought);
    take_out_of_body(&mut brought, body);
    Ok(brought)
}

// A copy of the fields of a stored response, with each field of another head in place of what is
// present.
fn with_fields(stored: &HeaderMap, brought: &HeaderMap) -> Result<HeaderMap>
    ensures ok { IfOk result (Takes brought.now stored.now) }
    ensures kind { IfErr result (λ e. (e ≡ OutOfMemory) ⊎ (e ≡ InternalError)) }
{
    let mut updated = copied(stored)?;
    replace_all(&mut updated, brought)?;
    Ok(updated)
}

// The most names that a head has room for.
const MOST_NAMES: usize = 24576;

// Why the fields of a newer response were not put in: there are too many only if both heads have
// more names than one has room for, and else it was for lack of memory.
fn refused(error: Error, stored: &HeaderMap, new: &HeaderMap) -> Error
    requires { (error ≡ OutOfMemory) ⊎ (error ≡ InternalError) }
    ensures { (result ≡ OutOfMemory)
        ⊎ ((result ≡ InternalError) × (24576 < length stored.now + length new.now)) }
{
    if stored.keys_len() + new.keys_len() > MOST_NAMES {
        error
    } else {
        Error::new(ErrorType::OutOfMemory)
    }
}

/// The fields of a stored response, updated with those of a newer one: each that is not left out
/// replaces what is stored under its name, and all others stay. Left out are the fields of the
/// connection, also those that its Connection names, those of the proxy, Content-Length and
/// Content-Range, and, if the stored body was processed, Content-Encoding and Content-Type. The
/// newer fields are handed in as they would be stored (section 3.1): without those that its `private`
/// and `no-cache` name, which a cache's directives tell.
///
/// Allocates the map. Fails with `OutOfMemory`, or with `InternalError` if both have more names
/// together than the 24,576 that a map has room for.
pub fn updated(stored: &HeaderMap, new: &HeaderMap, body: StoredBody) -> Result<HeaderMap>
    ensures ok { IfOk result (IsUpdated body new.now stored.now) }
    ensures kind { IfErr result (λ e. (e ≡ OutOfMemory)
        ⊎ ((e ≡ InternalError) × (24576 < length stored.now + length new.now))) }
{
    let brought = brought_in(new, body)?;
    match with_fields(stored, &brought) {
        Ok(updated) => Ok(updated),
        Err(error) => Err(refused(error, stored, new)),
    }
}
