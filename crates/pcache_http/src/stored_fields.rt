//! Which fields of a response are stored (RFC 9111 section 3.1).

ghost use Rattle.std.specs.Prelude.{◌≡◌, ◌++◌, List, IfOk, codes};
ghost use Rattle.std.specs.Option.{option_copied};
ghost use Rattle.http_header.specs.HeaderMap.{remove};
ghost use Rattle.http_header.specs.Token.{lowercase};
ghost use Rattle.pcache_http.specs.Control.{lines_at};
ghost use Rattle.pcache_http.specs.Said.{Directive, AreSaid};
ghost use Rattle.pcache_http.specs.StoredFields.{AreStoredFields, without_names, names_of_the_way, names_in_connection, names_listed, names_under, names_kept_out, listing_name};

use crate::lists::{Items, Members};
use crate::rules::CacheKind;
use crate::said::{Listens, hear_lines, is_called};
use crate::seconds::without_quotes;
use crate::storing::is_shared;
use http_header::HeaderMap;
use pcache_base::error::Result;
use std::alloc::AllocError;

// A directive that lists fields.
#[derive(Clone, Copy, Debug, PartialEq, Eq)]
enum Listing {
    NoCache,
    Private,
}

// Its name.
fn name_of(listing: Listing) -> &'static [u8]
    ensures { result.now ≡ listing_name listing }
{
    match listing {
        Listing::NoCache => b"no-cache",
        Listing::Private => b"private",
    }
}

// Removes the fields that a directive's value lists.
fn remove_listed(headers: &mut HeaderMap, value: Option<&[u8]>)
    ensures { headers.new ≡ without_names (names_listed (option_copied value.entry)) headers.old }
{
    let Some(bytes) = value else {
        return;
    };
    'names: for name in Items::of(without_quotes(bytes)) {
        let _removed = headers.remove(name);
    }
}

// Fields, without those that the directives heard so far list.
#[derive(Drop)]
struct Removing {
    headers: HeaderMap,
    listing: Listing,
}

impl Listens for Removing {
    ghost use Rattle.std.specs.Prelude.{◌≡◌};
    ghost use Rattle.pcache_http.specs.StoredFields.{HasRemoved};

    ghost Heard = { HasRemoved };

    fn hear(&mut self, name: &[u8], value: Option<&[u8]>) {
        if !is_called(name, name_of(self.listing)) {
            return;
        }
        remove_listed(&mut self.headers, value);
    }
}

// The fields without those that a directive of the response lists.
fn without_listed(kept: HeaderMap, listing: Listing, headers: &HeaderMap) -> HeaderMap
    ensures { (said : List Directive) → AreSaid (lines_at headers.now (codes "cache-control")) said
        → result ≡ without_names (names_under (listing_name listing) said) kept }
{
    let mut removing = Removing {
        headers: kept,
        listing,
    };
    hear_lines(&mut removing, headers.get_all("cache-control"));
    let Removing {
        headers,
        listing: _,
    } = removing;
    headers
}

fn copied(headers: &HeaderMap) -> Result<HeaderMap, AllocError>
    ensures ok { IfOk result (λ copy. copy ≡ headers.now) }
{
    headers.clone()
}

// The fields without those that directives keep out of this cache.
fn without_kept_out(kind: CacheKind, kept: HeaderMap, headers: &HeaderMap) -> HeaderMap
    ensures { (said : List Directive) → AreSaid (lines_at headers.now (codes "cache-control")) said
        → result ≡ without_names (names_kept_out kind said) kept }
{
    let kept = without_listed(kept, Listing::NoCache, headers);
    if !is_shared(kind) {
        return kept;
    }
    without_listed(kept, Listing::Private, headers)
}

// Removes a field.
fn take_out(headers: &mut HeaderMap, name: &str)
    ensures { headers.new ≡ remove headers.old (lowercase name.now) }
{
    let _removed = headers.remove(name);
}

// Removes the fields that concern a single connection or proxy.
fn remove_of_the_way(headers: &mut HeaderMap)
    ensures { headers.new ≡ without_names names_of_the_way headers.old }
{
    take_out(headers, "connection");
    take_out(headers, "proxy-connection");
    take_out(headers, "keep-alive");
    take_out(headers, "te");
    take_out(headers, "transfer-encoding");
    take_out(headers, "upgrade");
    take_out(headers, "proxy-authenticate");
    take_out(headers, "proxy-authentication-info");
    take_out(headers, "proxy-authorization");
}

// Removes the fields that the Connection of a response names.
fn remove_connection(kept: &mut HeaderMap, headers: &HeaderMap)
    ensures { kept.new ≡ without_names (names_in_connection headers.now) kept.old }
{
    'names: for name in Members::of(&headers.get_all("connection")) {
        let _removed = kept.remove(name);
    }
}

/// The fields of a response that are stored: all but Connection and what it names, those of the
/// connection and the proxy, those that `no-cache` lists, and in a shared cache those that `private`
/// lists (RFC 9111 section 3.1). Fails only when memory runs out.
pub fn stored_fields(kind: CacheKind, headers: &HeaderMap) -> Result<HeaderMap, AllocError>
    ensures ok { IfOk result (AreStoredFields kind headers.now) }
{
    let mut kept = copied(headers)?;
    remove_of_the_way(&mut kept);
    remove_connection(&mut kept, headers);
    Ok(without_kept_out(kind, kept, headers))
}
