//! The Cache-Control header field (RFC 9111 section 5.2).

ghost use Rattle.std.specs.Prelude.{◌≡◌, ◌≤◌, List, [], ◌∷◌, length, slice_range, OnOk, IfOk, IfSome, MatchOption, true, false, bytes_eq};
ghost use Rattle.std.specs.Option.{option_map};
ghost use Rattle.std.specs.Str.{is_utf8, str_to_ascii_lowercase};
ghost use Rattle.indexmap.specs.IndexMap.{insert_all, insert_entry};
ghost use Rattle.pcache_control.specs.declared.scan.Span.{Span};
ghost use Rattle.pcache_control.specs.Directives.{AreDirectives, LiesWithin};
ghost use Rattle.pcache_control.specs.Names.{IsNamed, is_known, is_known_name, name_of};
ghost use Rattle.pcache_control.specs.Maps.{Adds, directives_at, AreNamed, AreRead, AreReadOnce, lines_of, value_of};

use crate::hashing::NameHasher;
pub use crate::interpret::InterpretCacheControl;
pub use crate::key::DirectiveKey;
use crate::key::known_key;
use crate::scan::{Directives, Span};
pub use crate::seconds::{DELTA_SECONDS_OVERFLOW_VALUE, delta_seconds_overflow_duration};
pub use crate::value::{DirectiveValue, ListValueIter};
use http_header::{GetAll, HeaderMap, HeaderValue};
use indexmap::IndexMap;
use pcache_base::error::Result;
use pcache_meta::header::{ReqHeader, RespHeader};
use std::alloc::{AllocError, Global};

/// Directives by name, in the order of their first occurrences, with their last values. A directive
/// without a value has `None`. The key of its hasher is made of the lines that were read, since the
/// sender chooses the names.
pub type DirectiveMap = IndexMap<DirectiveKey, Option<DirectiveValue>, NameHasher>;

// The key of the name that these bytes are, in upper or lower case; `None` if they are not UTF-8.
fn key_of(alloc: Global, name: &[u8]) -> Result<Option<DirectiveKey>, AllocError>
    ensures ok { IfOk result (λ key.
        MatchOption key (is_utf8 name.now ≡ false) (IsNamed (str_to_ascii_lowercase name.now))) }
    ensures text { IfOk result (λ key. IfSome key (λ _. is_utf8 name.now ≡ true)) }
{
    let Ok(text) = str::from_utf8(name) else {
        return Ok(None);
    };
    let mut lowered = String::from_str(alloc, text)?;
    lowered.make_ascii_lowercase();
    Ok(Some(DirectiveKey::from_lowercase_owned(lowered)))
}

// A copy of the value at this range of the line.
fn value_at(
    alloc: Global,
    line: &[u8],
    place: Option<(usize, usize)>,
) -> Result<Option<DirectiveValue>, AllocError>
    requires { IfSome place (λ v. (v.0 ≤ v.1) × (v.1 ≤ length line.now)) }
    ensures ok { IfOk result (λ value.
        value_of value ≡ option_map (λ v. slice_range line.now v.0 v.1) place) }
{
    match place {
        Some((start, end)) => Ok(Some(DirectiveValue(Vec::from_slice(alloc, &line[start..end])?))),
        None => Ok(None),
    }
}

// Adds a directive. A repeated name keeps its first position and takes its last value.
fn add(
    directives: &mut DirectiveMap,
    key: DirectiveKey,
    value: Option<DirectiveValue>,
) -> Result<(), AllocError>
    requires { is_known key ≡ is_known_name (name_of key) }
    ensures added { OnOk result (AreNamed directives.old.entries →
        Adds directives.old.entries ((name_of key, value_of value) ∷ []) directives.new.entries) }
    ensures named { OnOk result (AreNamed directives.old.entries
        → AreNamed directives.new.entries) }
{
    directives.insert(key, value)?;
    Ok(())
}

// Adds the directive at a span. One whose name is not UTF-8 is skipped.
fn add_directive(
    alloc: Global,
    directives: &mut DirectiveMap,
    line: &[u8],
    span: Span,
) -> Result<(), AllocError>
    requires { LiesWithin (length line.now) span }
    ensures added { OnOk result (AreNamed directives.old.entries →
        Adds directives.old.entries (directives_at line.now (span ∷ [])) directives.new.entries) }
    ensures named { OnOk result (AreNamed directives.old.entries
        → AreNamed directives.new.entries) }
{
    let Some(key) = key_of(alloc, &line[span.start..span.name_end])? else {
        return Ok(());
    };
    let value = value_at(alloc, line, span.value)?;
    add(directives, key, value)
}

// Adds the directives of a line, from left to right.
fn add_line(alloc: Global, directives: &mut DirectiveMap, line: &[u8]) -> Result<(), AllocError>
    ensures added { OnOk result (AreNamed directives.old.entries →
        (spans : List Span) → AreDirectives line.now spans →
        Adds directives.old.entries (directives_at line.now spans) directives.new.entries) }
    ensures there { OnOk result ((spans : List Span) × AreDirectives line.now spans) }
    ensures named { OnOk result (AreNamed directives.old.entries
        → AreNamed directives.new.entries) }
{
    'spans: for span in Directives::new(line) {
        add_directive(alloc, directives, line, span)?;
    }
    Ok(())
}

/// The Cache-Control directives of a request or a response.
#[derive(Debug, Drop)]
pub struct CacheControl {
    /// The directives by name.
    pub directives: DirectiveMap,
    /// Whether numbers of seconds may have a fraction, which is cut off (own).
    pub allow_float_seconds: bool,
}

// The directives of a field's lines, in the lines' order.
fn from_lines(
    alloc: Global,
    names: NameHasher,
    lines: GetAll<'_, HeaderValue>,
) -> Result<DirectiveMap, AllocError>
    ensures read { IfOk result (λ directives. AreRead (lines_of lines.entry) directives.entries) }
    ensures only { IfOk result (λ directives.
        AreReadOnce (lines_of lines.entry) directives.entries) }
{
    let mut directives = IndexMap::with_hasher(alloc, names);
    'lines: for line in lines {
        add_line(alloc, &mut directives, line.as_bytes())?;
    }
    Ok(directives)
}

/// Whether a response may be stored, as far as its directives say.
#[derive(Clone, Copy, Debug, PartialEq, Eq)]
pub enum Cacheable {
    /// A directive allows it.
    Yes,
    /// A directive forbids it.
    No,
    /// No directive says either.
    Default,
}

impl CacheControl {
    ghost use Rattle.std.specs.Prelude.{◌≡◌, ◌↔◌, IsTrue, IfOk, IfSome, true, codes, option_copied};
    ghost use Rattle.http_header.specs.HeaderMap.{get_all};
    ghost use Rattle.http_header.specs.Token.{lowercase};
    ghost use Rattle.pcache_control.specs.declared.key.DirectiveKey.TheVariants.{MaxAge, SMaxAge, NoCache, NoStore, Private, Public, MustRevalidate, ProxyRevalidate, OnlyIfCached, StaleWhileRevalidate, StaleIfError};
    ghost use Rattle.pcache_control.specs.declared.key.DirectiveKey.{DirectiveKey};
    ghost use Rattle.pcache_control.specs.Control.{ReadsField, ReadsOneMap, directive_given, given_to, has, is_bare, value_in, names_in, seconds_in};
    ghost use Rattle.pcache_control.specs.Maps.{lines_of, value_of, AreReadOnce};
    ghost use Rattle.pcache_control.specs.Names.{IsNamed};
    ghost use Rattle.pcache_control.specs.Seconds.{Reads};

    /// The same directives, whose numbers of seconds may have a fraction, which is cut off (own).
    pub fn with_float_seconds(mut self) -> CacheControl
        ensures { result ≡ record self { allow_float_seconds = true } }
    {
        self.allow_float_seconds = true;
        self
    }

    /// The directives of all fields of this name, in upper or lower case; `None` if there is no
    /// such field. Fails only when memory runs out.
    pub fn from_headers_named(
        alloc: Global,
        header_name: &str,
        headers: &HeaderMap,
    ) -> Result<Option<CacheControl>, AllocError>
        ensures read { IfOk result (ReadsField headers.now (lowercase header_name.now)) }
        ensures only { IfOk result (ReadsOneMap headers.now (lowercase header_name.now)) }
    {
        if !headers.contains_key(header_name) {
            return Ok(None);
        }
        let names = NameHasher::keyed_by(headers.get_all(header_name));
        Ok(Some(CacheControl {
            directives: from_lines(alloc, names, headers.get_all(header_name))?,
            allow_float_seconds: false,
        }))
    }

    /// The directives of a request's fields of this name.
    pub fn from_req_headers_named(
        alloc: Global,
        header_name: &str,
        req_header: &ReqHeader,
    ) -> Result<Option<CacheControl>, AllocError>
        ensures read { IfOk result (ReadsField req_header.now.headers (lowercase header_name.now)) }
        ensures only { IfOk result
            (ReadsOneMap req_header.now.headers (lowercase header_name.now)) }
    {
        CacheControl::from_headers_named(alloc, header_name, &req_header.headers)
    }

    /// The directives of a request's Cache-Control.
    pub fn from_req_headers(
        alloc: Global,
        req_header: &ReqHeader,
    ) -> Result<Option<CacheControl>, AllocError>
        ensures read { IfOk result (ReadsField req_header.now.headers (codes "cache-control")) }
        ensures only { IfOk result (ReadsOneMap req_header.now.headers (codes "cache-control")) }
    {
        CacheControl::from_req_headers_named(alloc, "cache-control", req_header)
    }

    /// The directives of a response's fields of this name.
    pub fn from_resp_headers_named(
        alloc: Global,
        header_name: &str,
        resp_header: &RespHeader,
    ) -> Result<Option<CacheControl>, AllocError>
        ensures read { IfOk result
            (ReadsField resp_header.now.headers (lowercase header_name.now)) }
        ensures only { IfOk result
            (ReadsOneMap resp_header.now.headers (lowercase header_name.now)) }
    {
        CacheControl::from_headers_named(alloc, header_name, &resp_header.headers)
    }

    /// The directives of a response's Cache-Control.
    pub fn from_resp_headers(
        alloc: Global,
        resp_header: &RespHeader,
    ) -> Result<Option<CacheControl>, AllocError>
        ensures read { IfOk result (ReadsField resp_header.now.headers (codes "cache-control")) }
        ensures only { IfOk result (ReadsOneMap resp_header.now.headers (codes "cache-control")) }
    {
        CacheControl::from_resp_headers_named(alloc, "cache-control", resp_header)
    }

    // The value under a key; `None` if there is no such directive.
    fn find(&self, key: &DirectiveKey) -> Option<&Option<DirectiveValue>>
        ensures { option_map value_of (option_copied result) ≡ directive_given self.now key.now }
    {
        self.directives.get(key)
    }

    /// Whether there is a directive of this name. The name is compared as it is given: those of the
    /// map are in lower case. A name that is none of the fourteen known ones is searched for from
    /// the first directive on.
    pub fn has_key(&self, key: &str) -> bool
        ensures { (named : DirectiveKey) → IsNamed key.now named → result ≡ has self.now named }
    {
        match known_key(key) {
            Some(known) => self.has_directive(&known),
            None => self.has_unknown(key),
        }
    }

    // Whether there is a directive with this name, which is none of the fourteen known ones.
    fn has_unknown(&self, name: &str) -> bool
        ensures { (named : DirectiveKey) → is_known named ≡ false → name_of named ≡ name.now →
            result ≡ has self.now named }
    {
        'names: for (key, _) in &self.directives {
            if key.is_unknown(name) {
                return true;
            }
        }
        false
    }

    /// Whether there is a directive under this key.
    pub fn has_directive(&self, key: &DirectiveKey) -> bool
        ensures there { result ≡ has self.now key.now }
        // In a map that was read from lines the name alone decides which directive is meant,
        // whatever is asked of it.
        ensures by_name { AreNamed self.now.directives.entries → IsNamed (name_of key.now) key.now →
            directive_given self.now key.now ≡ given_to self.now (name_of key.now) }
    {
        self.find(key).is_some()
    }

    // Whether the directive is present without a value.
    fn has_key_without_value(&self, key: &DirectiveKey) -> bool
        ensures { result ≡ is_bare (directive_given self.now key.now) }
    {
        matches!(self.find(key), Some(None))
    }

    // The value of the directive.
    fn value(&self, key: &DirectiveKey) -> Option<&DirectiveValue>
        ensures { option_map (λ (v : DirectiveValue). v.0.items) (option_copied result)
            ≡ value_in (directive_given self.now key.now) }
    {
        self.find(key)?.as_ref()
    }

    /// Whether `public` is present (RFC 9111 section 5.2.2.9).
    pub fn public(&self) -> bool
        ensures { result ≡ has self.now Public }
    {
        self.has_directive(&DirectiveKey::Public)
    }

    /// Whether `private` is present without field names, so that it holds for the whole response.
    pub fn private(&self) -> bool
        ensures { result ≡ is_bare (directive_given self.now Private) }
    {
        self.has_key_without_value(&DirectiveKey::Private)
    }

    /// Whether `no-cache` is present without field names, so that it holds for the whole response.
    pub fn no_cache(&self) -> bool
        ensures { result ≡ is_bare (directive_given self.now NoCache) }
    {
        self.has_key_without_value(&DirectiveKey::NoCache)
    }

    /// Whether `no-store` is present.
    pub fn no_store(&self) -> bool
        ensures { result ≡ has self.now NoStore }
    {
        self.has_directive(&DirectiveKey::NoStore)
    }

    /// Whether `must-revalidate` is present.
    pub fn must_revalidate(&self) -> bool
        ensures { result ≡ has self.now MustRevalidate }
    {
        self.has_directive(&DirectiveKey::MustRevalidate)
    }

    /// Whether `proxy-revalidate` is present.
    pub fn proxy_revalidate(&self) -> bool
        ensures { result ≡ has self.now ProxyRevalidate }
    {
        self.has_directive(&DirectiveKey::ProxyRevalidate)
    }

    /// Whether `only-if-cached` is present.
    pub fn only_if_cached(&self) -> bool
        ensures { result ≡ has self.now OnlyIfCached }
    {
        self.has_directive(&DirectiveKey::OnlyIfCached)
    }

    // The field names that the directive lists.
    fn field_names(&self, key: &DirectiveKey) -> Option<ListValueIter<'_>>
        ensures { result ≡ names_in (directive_given self.now key.now) }
    {
        match self.value(key) {
            Some(value) => Some(ListValueIter::from(value)),
            None => None,
        }
    }

    /// The field names that `private` lists (RFC 9111 section 5.2.2.7); `None` if it has no value.
    pub fn private_field_names(&self) -> Option<ListValueIter<'_>>
        ensures { result ≡ names_in (directive_given self.now Private) }
    {
        self.field_names(&DirectiveKey::Private)
    }

    /// The field names that `no-cache` lists (RFC 9111 section 5.2.2.4); `None` if it has no value.
    pub fn no_cache_field_names(&self) -> Option<ListValueIter<'_>>
        ensures { result ≡ names_in (directive_given self.now NoCache) }
    {
        self.field_names(&DirectiveKey::NoCache)
    }

    // The number of seconds that the directive gives.
    fn seconds(&self, key: &DirectiveKey) -> Result<Option<u32>>
        ensures { Reads (seconds_in self.now key.now) result }
    {
        match self.value(key) {
            Some(value) if self.allow_float_seconds => Ok(Some(
                value.parse_as_delta_seconds_floor()?,
            )),
            Some(value) => Ok(Some(value.parse_as_delta_seconds()?)),
            None => Ok(None),
        }
    }

    /// The seconds of `max-age`; `None` if it is absent or has no value. Fails with `InternalError`
    /// if the value is no number of seconds.
    pub fn max_age(&self) -> Result<Option<u32>>
        ensures { Reads (seconds_in self.now MaxAge) result }
    {
        self.seconds(&DirectiveKey::MaxAge)
    }

    /// The seconds of `s-maxage`, as `max_age` returns them.
    pub fn s_maxage(&self) -> Result<Option<u32>>
        ensures { Reads (seconds_in self.now SMaxAge) result }
    {
        self.seconds(&DirectiveKey::SMaxAge)
    }

    /// The seconds of `stale-while-revalidate`, as `max_age` returns them.
    pub fn stale_while_revalidate(&self) -> Result<Option<u32>>
        ensures { Reads (seconds_in self.now StaleWhileRevalidate) result }
    {
        self.seconds(&DirectiveKey::StaleWhileRevalidate)
    }

    /// The seconds of `stale-if-error`, as `max_age` returns them.
    pub fn stale_if_error(&self) -> Result<Option<u32>>
        ensures { Reads (seconds_in self.now StaleIfError) result }
    {
        self.seconds(&DirectiveKey::StaleIfError)
    }
}
