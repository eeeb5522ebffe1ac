//! The names of directives.

ghost use Rattle.std.specs.Prelude.{◌≡◌, ◌↔◌, IfOk, IfSome, IfNone, IsTrue, IsOk, true, false, not, ◌&&◌, bytes_eq, string_bytes};
ghost use Rattle.pcache_control.specs.Names.{name_of, is_known, is_known_name, IsNamed};

use pcache_base::error::Result;
use std::alloc::{AllocError, Global};
use std::fmt;

/// The name of a directive. The fourteen known ones have variants of their own.
#[derive(Clone, Debug, Drop, PartialEq, Eq, Hash)]
pub enum DirectiveKey {
    /// `max-age` (RFC 9111 section 5.2.2.1).
    MaxAge,
    /// `s-maxage` (RFC 9111 section 5.2.2.10).
    SMaxAge,
    /// `no-cache` (RFC 9111 section 5.2.2.4).
    NoCache,
    /// `no-store` (RFC 9111 section 5.2.2.5).
    NoStore,
    /// `private` (RFC 9111 section 5.2.2.7).
    Private,
    /// `public` (RFC 9111 section 5.2.2.9).
    Public,
    /// `must-revalidate` (RFC 9111 section 5.2.2.2).
    MustRevalidate,
    /// `proxy-revalidate` (RFC 9111 section 5.2.2.8).
    ProxyRevalidate,
    /// `must-understand` (RFC 9111 section 5.2.2.3).
    MustUnderstand,
    /// `no-transform` (RFC 9111 section 5.2.2.6).
    NoTransform,
    /// `immutable` (RFC 8246).
    Immutable,
    /// `stale-while-revalidate` (RFC 5861 section 3).
    StaleWhileRevalidate,
    /// `stale-if-error` (RFC 5861 section 4).
    StaleIfError,
    /// `only-if-cached` (RFC 9111 section 5.2.1.7).
    OnlyIfCached,
    /// Any other name.
    Unknown(String),
}

// The variant of a known name.
#[tactic(auto, unfolding(crate::specs::Names::is_known_name))]
pub(crate) fn known_key(name: &str) -> Option<DirectiveKey>
    ensures name { IfSome result (λ key. name_of key ≡ name.now) }
    ensures known { IfSome result (λ key. is_known key ≡ true) }
    ensures found { IfSome result (λ _. is_known_name name.now ≡ true) }
    ensures none { IfNone result (is_known_name name.now ≡ false) }
{
    match name {
        "max-age" => Some(DirectiveKey::MaxAge),
        "s-maxage" => Some(DirectiveKey::SMaxAge),
        "no-cache" => Some(DirectiveKey::NoCache),
        "no-store" => Some(DirectiveKey::NoStore),
        "private" => Some(DirectiveKey::Private),
        "public" => Some(DirectiveKey::Public),
        "must-revalidate" => Some(DirectiveKey::MustRevalidate),
        "proxy-revalidate" => Some(DirectiveKey::ProxyRevalidate),
        "must-understand" => Some(DirectiveKey::MustUnderstand),
        "no-transform" => Some(DirectiveKey::NoTransform),
        "immutable" => Some(DirectiveKey::Immutable),
        "stale-while-revalidate" => Some(DirectiveKey::StaleWhileRevalidate),
        "stale-if-error" => Some(DirectiveKey::StaleIfError),
        "only-if-cached" => Some(DirectiveKey::OnlyIfCached),
        _ => None,
    }
}

impl DirectiveKey {
    /// The name, in lower case.
    pub fn as_str(&self) -> &str
        ensures { result.now ≡ name_of self.now }
    {
        match self {
            DirectiveKey::MaxAge => "max-age",
            DirectiveKey::SMaxAge => "s-maxage",
            DirectiveKey::NoCache => "no-cache",
            DirectiveKey::NoStore => "no-store",
            DirectiveKey::Private => "private",
            DirectiveKey::Public => "public",
            DirectiveKey::MustRevalidate => "must-revalidate",
            DirectiveKey::ProxyRevalidate => "proxy-revalidate",
            DirectiveKey::MustUnderstand => "must-understand",
            DirectiveKey::NoTransform => "no-transform",
            DirectiveKey::Immutable => "immutable",
            DirectiveKey::StaleWhileRevalidate => "stale-while-revalidate",
            DirectiveKey::StaleIfError => "stale-if-error",
            DirectiveKey::OnlyIfCached => "only-if-cached",
            DirectiveKey::Unknown(name) => name.as_str(),
        }
    }

    /// The key of a name in lower case: its own variant if the name is known. Fails only when
    /// memory runs out, and never for a known name.
    pub fn from_lowercase(alloc: Global, name: &str) -> Result<DirectiveKey, AllocError>
        ensures ok { IfOk result (IsNamed name.now) }
        ensures no_memory_needed { is_known_name name.now ≡ true → IsOk result }
    {
        match known_key(name) {
            Some(key) => Ok(key),
            None => Ok(DirectiveKey::Unknown(String::from_str(alloc, name)?)),
        }
    }

    /// The key of a name in lower case: its own variant if the name is known.
    pub fn from_lowercase_owned(name: String) -> DirectiveKey
        ensures { IsNamed (string_bytes name) result }
    {
        match known_key(name.as_str()) {
            Some(key) => key,
            None => DirectiveKey::Unknown(name),
        }
    }

    // Whether this is the key of this name, which is none of the fourteen known ones.
    pub(crate) fn is_unknown(&self, name: &str) -> bool
        ensures { result ≡ (not (is_known self.now) && bytes_eq (name_of self.now) name.now) }
    {
        match self {
            DirectiveKey::Unknown(other) => other.as_str() == name,
            _ => false,
        }
    }

    /// Whether the key has this name, case included.
    pub fn is(&self, name: &str) -> bool
        ensures { IsTrue result ↔ (name_of self.now ≡ name.now) }
    {
        self.as_str() == name
    }
}

impl fmt::Display for DirectiveKey {
    fn fmt<W: fmt::Write>(&self, f: &mut fmt::Formatter<W>) -> fmt::Result {
        f.write_str(self.as_str())
    }
}
