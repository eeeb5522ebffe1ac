//! Requests as they go to the origin.

ghost use Rattle.std.specs.Prelude.{◌≡◌, ◌≢◌, ◌↔◌, ◌⊎◌, ℕ, List, [], IsOk, IsErr, IsTrue, IfErr, IfSome, MatchOption, OnErr, OnOk, None, codes};
ghost use Rattle.std.specs.Option.{option_copied};
ghost use Rattle.http_header.specs.HeaderMap.{get, get_all, remove, IsFullOfNames, IsHeaderMap};
ghost use Rattle.pcache_base.specs.declared.error.ErrorType.TheVariants.{InternalError, OutOfMemory};
ghost use Rattle.pcache_control.specs.Requests.{sent_method, without_conditions, with_field, first_in, HasNoValidator, AsksSince, AsksUnlike, Asks, AsksInPart, AsksFor, AsksInPartFor, LacksRoom};

use http::Method;
use http_header::{
    ETAG, HeaderMap, HeaderMapError, HeaderName, IF_MATCH, IF_MODIFIED_SINCE, IF_NONE_MATCH,
    IF_RANGE, IF_UNMODIFIED_SINCE, LAST_MODIFIED, MAX_KEYS, RANGE,
};
use pcache_base::error::{Error, ErrorType, Result};
use pcache_meta::header::RequestHeader;
use pcache_meta::meta::CacheMeta;

// Sends HEAD as GET, since a response to HEAD has no body to store.
fn send_as_get(method: &mut Method)
    ensures { method.new ≡ sent_method method.old }
{
    if *method == Method::HEAD {
        *method = Method::GET;
    }
}

// Removes a field.
fn take_out(headers: &mut HeaderMap, name: &HeaderName)
    ensures out { headers.new ≡ remove headers.old name.now }
    ensures gone { get_all headers.new name.now ≡ [] }
    ensures others { (other : List ℕ)
        → name.now ≢ other
        → get_all headers.new other ≡ get_all headers.old other }
{
    // For the prover: it is a valid map of fields (`IsHeaderMap`).
    let _names = headers.keys_len();
    let _removed = headers.remove(name);
}

// Removes the client's preconditions and ranges.
#[tactic(auto, unfolding(crate::specs::Requests::without_conditions))]
fn remove_conditions(headers: &mut HeaderMap)
    ensures all { headers.new ≡ without_conditions headers.old }
    ensures since { get_all headers.new (codes "if-modified-since") ≡ [] }
    ensures unlike { get_all headers.new (codes "if-none-match") ≡ [] }
{
    take_out(headers, &IF_MATCH);
    take_out(headers, &IF_NONE_MATCH);
    take_out(headers, &IF_MODIFIED_SINCE);
    take_out(headers, &IF_UNMODIFIED_SINCE);
    take_out(headers, &IF_RANGE);
    take_out(headers, &RANGE);
}

// Whether the map has no room for another name.
fn is_full(headers: &HeaderMap) -> bool
    ensures full { IsTrue result ↔ IsFullOfNames headers.now }
    ensures map { IsHeaderMap headers.now }
{
    headers.keys_len() >= MAX_KEYS || headers.len() == usize::MAX
}

fn refusal(error: HeaderMapError) -> Error
    ensures full { error ≡ HeaderMapError.MaxSizeReached → result ≡ InternalError }
    ensures memory { error ≡ HeaderMapError.OutOfMemory → result ≡ OutOfMemory }
{
    match error {
        HeaderMapError::MaxSizeReached => Error::new(ErrorType::InternalError),
        HeaderMapError::OutOfMemory => Error::new(ErrorType::OutOfMemory),
    }
}

// Copies the first value under one name of the stored fields, if there is one, to another name,
// which is absent. A full map is detected before anything grows.
fn copy_field(
    stored: &HeaderMap,
    from: &HeaderName,
    headers: &mut HeaderMap,
    to: HeaderName,
) -> Result<()>
    ensures ok { OnOk result (headers.new ≡ with_field headers.old to (get stored.now from.now)) }
    ensures err { OnErr result (headers.new ≡ headers.old) }
    ensures kind { IfErr result (λ e. (e ≡ OutOfMemory) ⊎ (e ≡ InternalError)) }
    ensures full { IfErr result (λ e. e ≡ InternalError → IsFullOfNames headers.old) }
    ensures memory { IfErr result (λ e. e ≡ OutOfMemory → ¬ (IsFullOfNames headers.old)) }
    ensures nothing { get stored.now from.now ≡ None → IsOk result }
    ensures map { OnOk result (IsHeaderMap headers.new) }
{
    let Some(value) = stored.get(from) else {
        // For the prover: it is a valid map of fields (`IsHeaderMap`).
        let _names = headers.keys_len();
        return Ok(());
    };
    // Before the value is copied, so that a call fails for memory only where there is room.
    if is_full(headers) {
        return Err(Error::new(ErrorType::InternalError));
    }
    let value = value.clone()?;
    match headers.insert(to, value) {
        Ok(_) => {
            // For the prover: it is a valid map of fields (`IsHeaderMap`).
            let _names = headers.keys_len();
            Ok(())
        }
        Err(error) => Err(refusal(error)),
    }
}
// Sets If-Modified-Since to the stored Last-Modified, if there is one.
fn ask_since(headers: &mut HeaderMap, meta: &CacheMeta) -> Result<()>
    ensures asks { OnOk result (AsksSince headers.old meta.now.header.fields headers.new) }
    ensures err { OnErr result (headers.new ≡ headers.old) }
    ensures kind { IfErr result (λ e. (e ≡ OutOfMemory) ⊎ (e ≡ InternalError)) }
    ensures full { IfErr result (λ e. e ≡ InternalError → IsFullOfNames headers.old) }
    ensures memory { IfErr result (λ e. e ≡ OutOfMemory → ¬ (IsFullOfNames headers.old)) }
    ensures nothing { first_in meta.now.header.fields (codes "last-modified") ≡ None → IsOk result }
    ensures map { OnOk result (IsHeaderMap headers.new) }
{
    copy_field(meta.headers(), &LAST_MODIFIED, headers, IF_MODIFIED_SINCE)
}

// Sets If-None-Match to the stored ETag, if there is one.
fn ask_unlike(headers: &mut HeaderMap, meta: &CacheMeta) -> Result<()>
    ensures asks { OnOk result (AsksUnlike headers.old meta.now.header.fields headers.new) }
    ensures err { OnErr result (headers.new ≡ headers.old) }
    ensures kind { IfErr result (λ e. (e ≡ OutOfMemory) ⊎ (e ≡ InternalError)) }
    ensures full { IfErr result (λ e. e ≡ InternalError → IsFullOfNames headers.old) }
    ensures memory { IfErr result (λ e. e ≡ OutOfMemory → ¬ (IsFullOfNames headers.old)) }
    ensures nothing { first_in meta.now.header.fields (codes "etag") ≡ None → IsOk result }
    ensures map { OnOk result (IsHeaderMap headers.new) }
{
    copy_field(meta.headers(), &ETAG, headers, IF_NONE_MATCH)
}

// Makes the request, which has neither field, conditional: it asks for the response only if the
// stored one is no longer current.
fn ask(headers: &mut HeaderMap, meta: &CacheMeta) -> Result<()>
    requires since { get_all headers.old (codes "if-modified-since") ≡ [] }
    requires unlike { get_all headers.old (codes "if-none-match") ≡ [] }
    ensures asks { OnOk result (Asks headers.old meta.now.header.fields headers.new) }
    ensures in_part { OnErr result (AsksInPart headers.old meta.now.header.fields headers.new) }
    ensures kind { IfErr result (λ e. (e ≡ OutOfMemory) ⊎ (e ≡ InternalError)) }
    ensures full { IfErr result (λ e. e ≡ InternalError → IsFullOfNames headers.new) }
    ensures memory { IfErr result (λ e. e ≡ OutOfMemory → ¬ (IsFullOfNames headers.new)) }
    ensures no_room { LacksRoom headers.old meta.now.header.fields → IsErr result }
    ensures nothing { HasNoValidator meta.now.header.fields → IsOk result }
{
    // For the prover: it is a valid map of fields (`IsHeaderMap`).
    let _names = headers.keys_len();
    ask_since(headers, meta)?;
    ask_unlike(headers, meta)
}

/// Changes a client's request into one whose response can be stored: HEAD becomes GET, and
/// preconditions and ranges are removed. With the meta of a stored response it asks for the
/// response only if that changed: If-Modified-Since is the stored Last-Modified, and If-None-Match
/// the stored ETag.
///
/// Fails with `InternalError` if the request has no room for another field, and with `OutOfMemory`
/// only if it has. In both cases the method is changed and the removals are done, and of the two
/// fields those that were not set yet are absent.
pub fn request_filter(req: &mut RequestHeader, meta: Option<&CacheMeta>) -> Result<()>
    ensures method { req.new.method ≡ sent_method req.old.method }
    ensures target { req.new.target ≡ req.old.target }
    ensures asks { OnOk result
        (AsksFor (option_copied meta.entry) (without_conditions req.old.headers) req.new.headers) }
    ensures refused { OnErr result (AsksInPartFor (option_copied meta.entry)
        (without_conditions req.old.headers) req.new.headers) }
    ensures kind { IfErr result (λ e. (e ≡ OutOfMemory) ⊎ (e ≡ InternalError)) }
    ensures full { IfErr result (λ e. e ≡ InternalError → IsFullOfNames req.new.headers) }
    ensures memory { IfErr result (λ e. e ≡ OutOfMemory → ¬ (IsFullOfNames req.new.headers)) }
    ensures no_room { IfSome (option_copied meta.entry)
        (λ m. LacksRoom (without_conditions req.old.headers) m.header.fields → IsErr result) }
    ensures nothing { MatchOption (option_copied meta.entry) (IsOk result)
        (λ m. HasNoValidator m.header.fields → IsOk result) }
{
    send_as_get(&mut req.method);
    remove_conditions(&mut req.headers);
    match meta {
        Some(meta) => ask(&mut req.headers, meta),
        None => Ok(()),
    }
}
