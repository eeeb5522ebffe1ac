//! The seed of hash tables whose keys outsiders choose, and how they hash under it.
ghost use Rattle.std.specs.Prelude.{◌≡◌, ◌≤◌, ◌+◌, ◌++◌, ◌∷◌, [], length, replicate};
ghost use Rattle.pcache_base.specs.Blake2b.{blake2b_128};
ghost use Rattle.pcache_base.specs.Key.{number_of};
ghost use Rattle.pcache_base.specs.Seeds.{after_piece, half_at, keys_of, mixed, pair_of, parts_of, written};

use crate::blake2b;
use crate::blake2b::load_le;
use crate::key::HashBinary;
use std::hash::{BuildHasher, Hasher};
use std::marker::Model;

// The numbers that are multiplied have 32 bits.
const HALF: u64 = 1 << 32;

// 64 bits.
const WORD: u128 = 1 << 64;

// How many bytes a piece has at most, so that a slot (16 bytes) is one piece.
const PIECE_LEN: usize = 16;

// Not `Debug`, so that no log tells it.
/// What a hash table mixes into the hashes of its keys, so that nobody who does not know the seed
/// can tell which keys collide. A contract sees the six numbers of 64 bits that are made of its
/// bytes.
///
/// There is no default seed: whoever makes a table draws 16 bytes at random (once a process is
/// enough) and keeps them secret. No result of a table depends on them.
#[derive(Clone, Copy)]
pub struct Seed {
    keys: [u64; 6],
}

impl Model for Seed {
    ghost use Rattle.std.specs.Prelude.{List, ℕ};

    ghost Value = { List ℕ };

    ghost view = { λ s. s.keys };

    ghost inverse = { λ keys. record { keys = keys } };
}

impl Seed {
    /// The seed of these bytes, which should be drawn at random and kept secret.
    pub fn new(drawn: [u8; 16]) -> Seed
        ensures { result ≡ keys_of drawn }
    {
        // Six keys from 16 bytes, so that a caller draws no more than those.
        let first = expanded(&drawn, 0);
        let second = expanded(&drawn, 1);
        let third = expanded(&drawn, 2);
        Seed {
            keys: [
                (first / WORD) as u64,
                (first % WORD) as u64,
                (second / WORD) as u64,
                (second % WORD) as u64,
                (third / WORD) as u64,
                (third % WORD) as u64,
            ],
        }
    }

    /// A seed that everybody knows, of sixteen zero bytes: for tests and replays, which then take the
    /// same time on each run. Keys that collide under it can be constructed.
    pub fn fixed() -> Seed
        ensures { result ≡ keys_of (replicate 16 0) }
    {
        Seed::new([0; 16])
    }
}

// The hash of the bytes and a number after them, as a number.
#[tactic(auto, unfolding(crate::specs::Key::number_of))]
fn expanded(drawn: &HashBinary, number: u8) -> u128
    ensures { result ≡ number_of (blake2b_128 (drawn.now ++ number ∷ [])) }
{
    let mut message = blake2b::Hasher::new();
    message.update(drawn);
    message.update(&[number]);
    u128::from_be_bytes(message.finish())
}

/// A hash in progress under a seed.
#[derive(Clone, Copy)]
pub struct SeededHasher {
    keys: [u64; 6],
    state: u64,
}

impl BuildHasher for Seed {
    ghost use Rattle.pcache_base.specs.Seeds.{begun};

    type Hasher = SeededHasher;

    ghost build_hasher = { begun };

    #[inline(always)]
    fn build_hasher(&self) -> SeededHasher {
        SeededHasher {
            keys: self.keys,
            state: 0,
        }
    }
}

impl Hasher for SeededHasher {
    ghost use Rattle.pcache_base.specs.Seeds.{after_write};

    ghost write = { after_write };

    ghost finish = { λ h. h.state };

    #[inline(always)]
    fn finish(&self) -> u64 {
        self.state
    }

    #[inline(always)]
    fn write(&mut self, bytes: &[u8]) {
        self.state = written(&self.keys, self.state, bytes);
    }
}

// The state after the bytes of one write. Most writes are one piece, a number or a short text, and skip the loop.
#[inline(always)]
fn written(keys: &[u64; 6], before: u64, bytes: &[u8]) -> u64
    ensures { result ≡ written keys.now before bytes.now }
{
    let len = bytes.len();
    if len > PIECE_LEN {
        return written_in_pieces(*keys, before, bytes);
    }
    if len == 0 {
        return before;
    }
    after_piece(keys, before, &bytes[0..len])
}

// The state after the bytes of one write of any length. It is a function of its own, so that what is inlined stays small,
// and takes the keys by value: with a reference to them a hasher would have to be in memory instead of registers.
#[inline(never)]
#[tactic(auto, unfolding(crate::specs::Seeds::written, crate::specs::Seeds::after_pieces))]
fn written_in_pieces(keys: [u64; 6], before: u64, bytes: &[u8]) -> u64
    ensures { result ≡ written keys before bytes.now }
{
    let mut state = before;
    for place in 0..bytes.len().div_ceil(PIECE_LEN) {
        let start = PIECE_LEN * place;
        let end = bytes.len().min(start + PIECE_LEN);
        state = after_piece(&keys, state, &bytes[start..end]);
    }
    state
}

// The state after a piece of at most 16 bytes, whose length is mixed in with them.
#[inline(always)]
#[tactic(auto, unfolding(crate::specs::Seeds::after_piece))]
fn after_piece(keys: &[u64; 6], state: u64, piece: &[u8]) -> u64
    requires { length piece.now ≤ 16 }
    ensures { result ≡ after_piece keys.now state piece.now }
{
    let (low, high) = parts(piece);
    mixed(keys, state.wrapping_add(piece.len() as u64), low, high)
}

// Two numbers that contain all bytes of a piece: of eight bytes or more its first and its last word,
// which may overlap; of four to seven bytes its first and its last half of a word; of fewer its first
// byte, and the middle one with the last.
#[inline(always)]
fn parts(piece: &[u8]) -> (u64, u64)
    requires { length piece.now ≤ 16 }
    ensures { result ≡ parts_of piece.now }
{
    let len = piece.len();
    if len >= 8 {
        (load_le(piece, 0), load_le(piece, len - 8))
    } else if len >= 4 {
        (load_half(piece, 0), load_half(piece, len - 4))
    } else if len > 0 {
        (
            piece[0] as u64,
            (piece[len / 2] as u64) << 8 | piece[len - 1] as u64,
        )
    } else {
        (0, 0)
    }
}

// Four bytes as a number, the lowest first.
#[inline(always)]
fn load_half(piece: &[u8], at: usize) -> u64
    requires { at + 4 ≤ length piece.now }
    ensures { result ≡ half_at piece.now at }
{
    u64::from(u32::from_le_bytes([piece[at], piece[at + 1], piece[at + 2], piece[at + 3]]))
}

// The upper half of a sum of products (Thorup's pair-multiply-shift).
#[inline(always)]
#[tactic(auto, unfolding(crate::specs::Seeds::mixed))]
fn mixed(keys: &[u64; 6], state: u64, low: u64, high: u64) -> u64
    ensures { result ≡ mixed keys.now state low high }
{
    // By this of any set that was chosen without the seed as many pairs meet as of numbers at
    // random. The fixed hash after an exclusive or with the seed would keep the differences of a
    // set, and SipHash takes a fifth of an access more.
    let sum = pair(keys[0], keys[1], low).wrapping_add(pair(keys[2], keys[3], high));
    sum.wrapping_add(keys[4].wrapping_mul(state))
        .wrapping_add(keys[5])
        // 32 bits are as many as a table looks at: it folds the upper half of a hash onto the lower
        // one.
        / HALF
}

// The product of both halves of a number, each with a key added.
#[inline(always)]
#[tactic(auto, unfolding(crate::specs::Seeds::pair_of))]
fn pair(key: u64, other: u64, number: u64) -> u64
    ensures { result ≡ pair_of key other number }
{
    let upper = key.wrapping_add(number / HALF);
    upper.wrapping_mul(other.wrapping_add(number % HALF))
}
