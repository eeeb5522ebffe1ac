//! What a key of a trace stands by: by itself if it is short, so that it is told apart from all others and nothing has to be
//! hashed; otherwise by its hash.
ghost use Rattle.std.specs.Prelude.{◌≡◌, ◌≤◌, [], length};
ghost use Rattle.cache_simulation.specs.Names.{padded, stands_by, by_hash, by_itself};
ghost use Rattle.cache_simulation.specs.Reading.{front_of};

use pcache_base::key::{CompactCacheKey, HashBinary, hash_key};
use pcache_base::text::Text;
use std::alloc::Global;

/// How many bytes a key has at most that stands by itself.
pub const SHORT: usize = 31;

// How many bytes a part has at most that is filled up.
const PART: usize = 15;

/// What a key stands by where nothing goes by its hash: by itself if it is short.
pub fn named(alloc: Global, key: &[u8]) -> CompactCacheKey
    ensures { result ≡ stands_by key.now }
{
    if key.len() > SHORT {
        return stored(alloc, hash_key(key), Some([255; 16]));
    }
    itself(alloc, key)
}

/// A key that stands by this hash of it.
pub fn hashed(alloc: Global, hash: HashBinary) -> CompactCacheKey
    ensures { result ≡ by_hash hash }
{
    stored(alloc, hash, None)
}

/// The first eight bytes of a hash as a number, by which a sample goes.
#[tactic(auto, unfolding(pcache_base::specs::Key::number_of))]
pub(crate) fn front(hash: HashBinary) -> u64
    ensures { result ≡ front_of hash }
{
    (u128::from_be_bytes(hash) >> 64) as u64
}

// A short key.
fn itself(alloc: Global, key: &[u8]) -> CompactCacheKey
    requires { length key.now ≤ 31 }
    ensures { result ≡ by_itself key.now }
{
    // In the bytes that the hashes of a key and of its variance have: so no entry takes more
    // memory, and the hash, half of a request's time, is saved.
    match key.split_first_chunk::<16>() {
        Some((first, rest)) => stored(alloc, *first, Some(padded(rest))),
        None => stored(alloc, padded(key), None),
    }
}

// A part of a key, filled up with zeros and its length.
fn padded(part: &[u8]) -> HashBinary
    requires { length part.now ≤ 15 }
    ensures { result ≡ padded part.now }
{
    let mut name = [0; 16];
    name[..part.len()].copy_from_slice(part);
    name[PART] = part.len() as u8;
    name
}

fn stored(alloc: Global, primary: HashBinary, variance: Option<HashBinary>) -> CompactCacheKey
    ensures { result ≡ record { primary = primary; variance = variance; user_tag = [] } }
{
    CompactCacheKey {
        primary,
        variance,
        user_tag: Text::new(String::new(alloc)),
    }
}
