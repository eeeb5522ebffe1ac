//! A piece of a response, as it is handed in.
ghost use Rattle.std.specs.Prelude.{◌≡◌, ◌+◌, ◌≤◌, IfOk, drop, length, take};

use bytes::Bytes;
use std::alloc::{AllocError, Global};
use std::marker::Model;

// A part is shared with its piece if the other bytes of the piece are at most so much of the part:
// one of eight bytes. A body in one part keeps all bytes of its piece from then on, and the memory
// of a cache is to stay near its limit.
const SPARE: usize = 8;

// The bytes of a piece, which are lent or can be shared. A contract sees the bytes.
#[derive(Drop)]
pub(crate) struct Piece<'a> {
    bytes: &'a [u8],
    // The same bytes, if they can be shared.
    shared: Option<&'a Bytes>,
}

impl<'a> Model for Piece<'a> {
    ghost use Rattle.std.specs.Prelude.{◌≡◌, ℕ, List, IfSome};

    ghost Value = { List ℕ };

    ghost view = { λ p. p.bytes.now };

    ghost invariant = { λ p. IfSome p.shared (λ b. b.now ≡ p.bytes.now) };
}

impl<'a> Piece<'a> {
    // A piece that is lent: each part is a copy.
    pub(crate) fn lent(bytes: &'a [u8]) -> Piece<'a>
        ensures { result ≡ bytes.now }
    {
        Piece {
            bytes,
            shared: None,
        }
    }

    // A piece whose parts share its bytes.
    pub(crate) fn shared(bytes: &'a Bytes) -> Piece<'a>
        ensures { result ≡ bytes.now }
    {
        Piece {
            bytes: bytes.as_slice(),
            shared: Some(bytes),
        }
    }

    pub(crate) fn as_slice(&self) -> &[u8]
        ensures { result.now ≡ self.now }
    {
        self.bytes
    }

    // The bytes from an index on.
    pub(crate) fn rest(&self, at: usize) -> &[u8]
        requires { at ≤ length self.now }
        ensures rest { result.now ≡ drop at self.now }
        ensures len { at + length result.now ≡ length self.now }
    {
        &self.bytes[at..]
    }

    // So many bytes from an index on, as a value of their own: shared, or a copy where they are few of
    // the piece.
    pub(crate) fn part(&self, alloc: Global, at: usize, count: usize) -> Result<Bytes, AllocError>
        requires { at + count ≤ length self.now }
        ensures { IfOk result (λ b. b ≡ take count (drop at self.now)) }
    {
        let len = self.bytes.len();
        let end = at + count;
        match self.shared {
            Some(bytes) if len - count <= count / SPARE => bytes.slice(at..end),
            _ => Bytes::copy_from_slice(alloc, &self.bytes[at..end]),
        }
    }
}
