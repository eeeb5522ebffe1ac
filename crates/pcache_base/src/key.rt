//! Cache keys and their hashes.
ghost use Rattle.std.specs.Prelude.{◌≡◌, ◌*◌, ℕ, List, Option, ◌↔◌, IfOk, IfSome, IsSome, option_map, string_bytes, option_copied, length, slice_index};
ghost use Rattle.std.specs.List.{AllPass};
ghost use Rattle.hex.specs.Hex.{encode_lower, decode_of, is_hex_digit};
ghost use Rattle.pcache_base.specs.Blake2b.{blake2b_128};
ghost use Rattle.pcache_base.specs.Key.{SpellsHash, combined_of, number_of, slot_of};

use crate::blake2b::Hasher;
use crate::error::Result;
use crate::fills::UnusableFills;
use crate::text::Text;
use hex::FromHex;
use std::alloc::{AllocError, Global};
use std::fmt;
use std::marker::Model;

/// A hash of 16 bytes.
pub type HashBinary = [u8; 16];

/// The hash of bytes: BLAKE2b with 16 bytes out (RFC 7693).
pub fn hash_key(key: &[u8]) -> HashBinary
    ensures { result ≡ blake2b_128 key.now }
{
    let mut hasher = Hasher::new();
    hasher.update(key);
    hasher.finish()
}

/// The first byte of a text's hash.
pub fn hash_u8(key: &str) -> u8
    ensures { result ≡ slice_index (blake2b_128 key.now) 0 }
{
    hash_key(key.as_bytes())[0]
}

/// The hash that a text spells: exactly 32 hexadecimal digits, of either case. `None` for any other
/// text.
pub fn str2hex(text: &str) -> Option<HashBinary>
    ensures value { IfSome result (λ hash. decode_of text.now ≡ Ok hash) }
    ensures found { IsSome result ↔ ((length text.now ≡ 32) × AllPass is_hex_digit text.now) }
    ensures back { (hash : List ℕ) → SpellsHash text.now hash → result ≡ Some hash }
{
    <HashBinary as FromHex>::from_hex(text).ok()
}

// The primary hash; if there is a variance, the hash of both.
fn combined_hash(primary: HashBinary, variance: Option<HashBinary>) -> HashBinary
    ensures { result ≡ combined_of primary variance }
{
    let Some(variance) = variance else {
        return primary;
    };
    let mut hasher = Hasher::new();
    hasher.update(&primary);
    hasher.update(&variance);
    hasher.finish()
}

// The lower-case hexadecimal text of a hash.
fn hex_text(alloc: Global, hash: &[u8]) -> Result<String, AllocError>
    requires { length hash.now ≡ 16 }
    ensures text { IfOk result (λ text. string_bytes text ≡ encode_lower hash.now) }
    ensures spelled { IfOk result (λ text. SpellsHash (string_bytes text) hash.now) }
{
    Ok(hex::encode(alloc, hash)?)
}

/// A value with the hashes of a cache key.
pub trait CacheHashKey {
    /// The primary hash.
    ghost primary_hash: { Self → List ℕ };

    /// The hash of what a response varies on, if there is one.
    ghost variance_hash: { Self → Option (List ℕ) };

    /// The tag of the user whom the entry is counted for.
    ghost tag: { Self → List ℕ };

    /// The primary hash.
    fn primary_bin(&self) -> HashBinary
        ensures { result ≡ primary_hash self.now };

    /// The hash of what the response varies on, if there is one.
    fn variance_bin(&self) -> Option<HashBinary>
        ensures { result ≡ variance_hash self.now };

    /// The primary hash; if there is a variance, the hash of both.
    fn combined_bin(&self) -> HashBinary
        ensures { result ≡ combined_of (primary_hash self.now) (variance_hash self.now) }
    {
        combined_hash(self.primary_bin(), self.variance_bin())
    }

    /// The combined hash as a number, high byte first.
    fn slot(&self) -> u128
        ensures { result ≡ slot_of (primary_hash self.now) (variance_hash self.now) }
    {
        slot_number(self.combined_bin())
    }

    /// The tag of the user whom the entry is counted for.
    fn user_tag(&self) -> &str
        ensures { result.now ≡ tag self.now };

    /// The primary hash in lower-case hexadecimal digits. Fails only when memory runs out.
    fn primary(&self, alloc: Global) -> Result<String, AllocError>
        ensures text { IfOk result (λ text.
            string_bytes text ≡ encode_lower (primary_hash self.now)) }
        ensures spelled { IfOk result (λ text.
            SpellsHash (string_bytes text) (primary_hash self.now)) }
    {
        hex_text(alloc, &self.primary_bin())
    }

    /// The variance in lower-case hexadecimal digits. Fails only when memory runs out.
    fn variance(&self, alloc: Global) -> Result<Option<String>, AllocError>
        ensures text { IfOk result (λ text.
            option_map string_bytes text ≡ option_map encode_lower (variance_hash self.now)) }
    {
        match self.variance_bin() {
            Some(hash) => Ok(Some(hex_text(alloc, &hash)?)),
            None => Ok(None),
        }
    }

    /// The combined hash in lower-case hexadecimal digits. Fails only when memory runs out.
    fn combined(&self, alloc: Global) -> Result<String, AllocError>
        ensures text { IfOk result (λ text. string_bytes text
            ≡ encode_lower (combined_of (primary_hash self.now) (variance_hash self.now))) }
        ensures spelled { IfOk result (λ text. SpellsHash (string_bytes text)
            (combined_of (primary_hash self.now) (variance_hash self.now))) }
    {
        hex_text(alloc, &self.combined_bin())
    }
}

#[tactic(auto, unfolding(crate::specs::Key::number_of))]
fn slot_number(hash: HashBinary) -> u128
    ensures { result ≡ number_of hash }
{
    u128::from_be_bytes(hash)
}

/// A cache key: primary bytes, and what the response varies on.
#[derive(Drop)]
pub struct CacheKey {
    primary: Vec<u8>,
    // The hash of the primary bytes, and the combined hash: each use of a store, a lock or a
    // manager needs them, so they are computed once, when the key is made or changed.
    own_hash: HashBinary,
    combined: HashBinary,
    primary_override: Option<HashBinary>,
    variance: Option<HashBinary>,
    /// The tag of the user whom the entry is counted for.
    pub user_tag: Text,
    /// The fills that the request cannot use, for which it does not wait. They are not hashed.
    pub unusable: Option<UnusableFills>,
}

impl Model for CacheKey {
    ghost use Rattle.std.specs.Prelude.{◌≡◌, unwrap_or};
    ghost use Rattle.pcache_base.specs.Key.{Key, combined_of};
    ghost use Rattle.pcache_base.specs.Blake2b.{blake2b_128};

    ghost Value = { Key };

    ghost view = { λ k. record {
      primary = k.primary.items;
      primary_override = k.primary_override;
      variance = k.variance;
      user_tag = k.user_tag;
      unusable = k.unusable;
    } };

    ghost invariant = { λ k. (k.own_hash ≡ blake2b_128 k.primary.items)
        × (k.combined ≡ combined_of (unwrap_or k.primary_override (blake2b_128 k.primary.items)) k.variance) };
}

impl CacheKey {
    ghost use Rattle.std.specs.Prelude.{None, Some};
    ghost use Rattle.std.specs.Str.{IsUtf8};
    ghost use Rattle.pcache_base.specs.Key.{Key};
    ghost use Rattle.pcache_base.specs.CompactKey.{compact_of};

    /// A key of these primary bytes, with no variance, for which any fill can be used.
    pub fn new(primary: Vec<u8>, user_tag: String) -> CacheKey
        ensures { result
            ≡ record {
              primary = primary.items;
              primary_override = None;
              variance = None;
              user_tag = string_bytes user_tag;
              unusable = None;
            } }
    {
        let own_hash = hash_key(primary.as_slice());
        CacheKey {
            primary,
            own_hash,
            combined: own_hash,
            primary_override: None,
            variance: None,
            user_tag: Text::new(user_tag),
            unusable: None,
        }
    }

    /// The primary bytes.
    pub fn primary_key(&self) -> &[u8]
        ensures { result.now ≡ self.now.primary }
    {
        self.primary.as_slice()
    }

    /// The primary bytes as text, if they are UTF-8.
    pub fn primary_key_str(&self) -> Option<&str>
        ensures text { IfSome result (λ text. text.now ≡ self.now.primary) }
        ensures found { IsSome result ↔ IsUtf8 self.now.primary }
    {
        std::str::from_utf8(self.primary.as_slice()).ok()
    }

    /// Sets the variance.
    pub fn set_variance_key(&mut self, key: HashBinary)
        ensures { self.new ≡ record self.old { variance = Some key } }
    {
        self.combined = combined_hash(self.primary_bin(), Some(key));
        self.variance = Some(key);
    }

    /// The variance, if there is one.
    pub fn get_variance_key(&self) -> Option<&HashBinary>
        ensures { option_copied result ≡ self.now.variance }
    {
        self.variance.as_ref()
    }

    /// Removes the variance.
    pub fn remove_variance_key(&mut self)
        ensures { self.new ≡ record self.old { variance = None } }
    {
        self.combined = self.primary_bin();
        self.variance = None;
    }

    /// Sets a primary hash that replaces the one of the primary bytes.
    pub fn set_primary_bin_override(&mut self, hash: HashBinary)
        ensures { self.new ≡ record self.old { primary_override = Some hash } }
    {
        self.combined = combined_hash(hash, self.variance);
        self.primary_override = Some(hash);
    }

    /// The compact form of the key, which eviction managers keep. Fails only when memory runs out.
    pub fn to_compact(&self) -> Result<CompactCacheKey, AllocError>
        ensures ok { IfOk result (λ compact. compact ≡ compact_of self.now) }
    {
        Ok(CompactCacheKey {
            primary: self.primary_bin(),
            variance: self.variance,
            user_tag: self.user_tag.copied()?,
        })
    }

    /// A second key, equal to this one. Fails only when memory runs out.
    pub fn copied(&self) -> Result<CacheKey, AllocError>
        ensures ok { IfOk result (λ copy. copy ≡ self.now) }
    {
        Ok(CacheKey {
            primary: self.primary.clone()?,
            own_hash: self.own_hash,
            combined: self.combined,
            primary_override: self.primary_override,
            variance: self.variance,
            user_tag: self.user_tag.copied()?,
            unusable: match &self.unusable {
                Some(fills) => Some(fills.copied()?),
                None => None,
            },
        })
    }
}

impl CacheHashKey for CacheKey {
    ghost use Rattle.pcache_base.specs.Key.{primary_of};

    ghost primary_hash = { primary_of };

    ghost variance_hash = { λ k. k.variance };

    ghost tag = { λ k. k.user_tag };

    fn primary_bin(&self) -> HashBinary {
        match self.primary_override {
            Some(hash) => hash,
            None => self.own_hash,
        }
    }

    fn combined_bin(&self) -> HashBinary {
        self.combined
    }

    fn variance_bin(&self) -> Option<HashBinary> {
        self.variance
    }

    fn user_tag(&self) -> &str {
        self.user_tag.as_str()
    }
}

/// What is kept of the key of a stored body.
#[derive(Debug, Drop, PartialEq, Eq, PartialOrd, Ord, Hash)]
pub struct CompactCacheKey {
    /// The primary hash.
    pub primary: HashBinary,
    /// The hash of what the response varies on, if there is one.
    pub variance: Option<HashBinary>,
    /// The tag of the user whom the entry is counted for.
    pub user_tag: Text,
}

impl CompactCacheKey {
    /// A second key, equal to this one. Fails only when memory runs out.
    pub fn copied(&self) -> Result<CompactCacheKey, AllocError>
        ensures ok { IfOk result (λ copy. copy ≡ self.now) }
    {
        Ok(CompactCacheKey {
            primary: self.primary,
            variance: self.variance,
            user_tag: self.user_tag.copied()?,
        })
    }
}

impl CacheHashKey for CompactCacheKey {
    ghost primary_hash = { λ k. k.primary };

    ghost variance_hash = { λ k. k.variance };

    ghost tag = { λ k. k.user_tag };

    fn primary_bin(&self) -> HashBinary {
        self.primary
    }

    fn variance_bin(&self) -> Option<HashBinary> {
        self.variance
    }

    fn user_tag(&self) -> &str {
        self.user_tag.as_str()
    }
}

// A hash that prints as lower-case hexadecimal digits.
#[derive(Clone, Copy)]
struct Hex(HashBinary);

impl fmt::Display for Hex {
    fn fmt<W: fmt::Write>(&self, f: &mut fmt::Formatter<W>) -> fmt::Result {
        for byte in self.0 {
            write!(f, "{byte:02x}")?;
        }
        Ok(())
    }
}

/// `PRIMARY[, variance: VARIANCE], user_tag: TAG`.
impl fmt::Display for CompactCacheKey {
    fn fmt<W: fmt::Write>(&self, f: &mut fmt::Formatter<W>) -> fmt::Result {
        let primary = Hex(self.primary);
        write!(f, "{primary}")?;
        if let Some(hash) = self.variance {
            let variance = Hex(hash);
            write!(f, ", variance: {variance}")?;
        }
        let user_tag = self.user_tag.as_str();
        write!(f, ", user_tag: {user_tag}")
    }
}
