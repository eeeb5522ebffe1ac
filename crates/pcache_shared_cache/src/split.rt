//! How a limit is split among parts, and which part a key belongs to.
ghost use Rattle.std.specs.Prelude.{◌≡◌, ◌<◌, Option, option_map};
ghost use Rattle.pcache_shared_cache.specs.Portions.{place_of, portion};

use pcache_base::key::{CacheHashKey, CacheKey};

/// The portion of a whole for the part at this place, of so many parts: all get the same, and the first ones get one more
/// each, for the remainder. All portions sum to the whole (`laws::portions_add_up`).
pub fn portion_of(whole: usize, parts: usize, place: usize) -> usize
    requires { 0 < parts }
    ensures { result ≡ portion whole parts place }
{
    // A body is kept only if it is within its part's limit, however large the whole one is.
    let each = whole / parts;
    if place < whole % parts {
        each + 1
    } else {
        each
    }
}

/// The same for a watermark, if there is one.
pub fn portion_of_watermark(whole: Option<usize>, parts: usize, place: usize) -> Option<usize>
    requires { 0 < parts }
    ensures { result ≡ option_map (λ w. portion w parts place) whole }
{
    match whole {
        Some(whole) => Some(portion_of(whole, parts, place)),
        None => None,
    }
}

/// The place of the part that a key belongs to, of `N`. The variants of a key are in the same part. Caches in parts, and
/// worlds behind several locks, are split by it.
#[tactic(auto, unfolding(pcache_base::specs::Key::number_of))]
pub fn place_of<const N: usize>(key: &CacheKey) -> usize
    requires { 0 < N }
    ensures value { result ≡ place_of N key.now }
    ensures in_range { result < N }
{
    // Of the primary hash and not the combined one: a request learns its variance on the way, with a lock or a reader of its part in
    // hand. Of its upper half, since the shards of a store and of a lock table go by the lower digits: with the same ones, each of
    // sixteen parts would use one of its sixteen shards alone.
    let number = u128::from_be_bytes(key.primary_bin());
    ((number >> 64) % N as u128) as usize
}
