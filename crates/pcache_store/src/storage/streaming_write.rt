//! Numbers of writes as bytes, for stores whose tags of writes are numbers.
ghost use Rattle.std.specs.Prelude.{◌≡◌, ℕ, List, length, IfOk, IfErr, IsOk, ◌↔◌};
ghost use Rattle.std.specs.Int.{w32, w64, to_be_bytes, from_be_bytes};
ghost use Rattle.pcache_base.specs.declared.error.ErrorType.TheVariants.{InternalError};

use pcache_base::error::{Error, ErrorType};
use std::marker::Model;

/// The eight bytes of a number, high byte first. A contract sees the bytes.
#[derive(Clone, Copy, Debug, PartialEq, Eq)]
pub struct U64WriteId {
    bytes: [u8; 8],
}

impl Model for U64WriteId {
    ghost Value = { List ℕ };

    ghost view = { λ id. id.bytes };

    ghost inverse = { λ bytes. record { bytes = bytes } };
}

impl U64WriteId {
    /// The bytes.
    pub fn as_bytes(&self) -> &[u8]
        ensures bytes { result.now ≡ self.now }
        ensures eight { length result.now ≡ 8 }
    {
        &self.bytes
    }
}

impl From<u64> for U64WriteId {
    ghost from_gives = { λ write id. id ≡ to_be_bytes w64 write };

    fn from(write: u64) -> U64WriteId {
        U64WriteId {
            bytes: write.to_be_bytes(),
        }
    }
}

impl From<U64WriteId> for u64 {
    ghost from_gives = { λ id number. number ≡ from_be_bytes w64 id };

    fn from(id: U64WriteId) -> u64 {
        u64::from_be_bytes(id.bytes)
    }
}

/// Fails for bytes of another length.
impl TryFrom<&[u8]> for U64WriteId {
    type Error = Error;

    ghost use Rattle.pcache_store.specs.Tag.{Reads};

    ghost try_from_gives = { λ bytes r. Reads 8 bytes.now r };

    fn try_from(bytes: &[u8]) -> Result<U64WriteId, Error> {
        match bytes {
            [a, b, c, d, e, f, g, h] => Ok(U64WriteId {
                bytes: [*a, *b, *c, *d, *e, *f, *g, *h],
            }),
            _ => Err(Error::new(ErrorType::InternalError)),
        }
    }
}

/// The four bytes of a number, high byte first. A contract sees the bytes.
#[derive(Clone, Copy, Debug, PartialEq, Eq)]
pub struct U32WriteId {
    bytes: [u8; 4],
}

impl Model for U32WriteId {
    ghost Value = { List ℕ };

    ghost view = { λ id. id.bytes };

    ghost inverse = { λ bytes. record { bytes = bytes } };
}

impl U32WriteId {
    /// The bytes.
    pub fn as_bytes(&self) -> &[u8]
        ensures bytes { result.now ≡ self.now }
        ensures four { length result.now ≡ 4 }
    {
        self.bytes.as_slice()
    }
}

impl From<u32> for U32WriteId {
    ghost from_gives = { λ number id. id ≡ to_be_bytes w32 number };

    fn from(number: u32) -> U32WriteId {
        U32WriteId {
            bytes: number.to_be_bytes(),
        }
    }
}

impl From<U32WriteId> for u32 {
    ghost from_gives = { λ id number. number ≡ from_be_bytes w32 id };

    fn from(id: U32WriteId) -> u32 {
        u32::from_be_bytes(id.bytes)
    }
}

/// Fails for bytes of another length.
impl TryFrom<&[u8]> for U32WriteId {
    type Error = Error;

    ghost use Rattle.pcache_store.specs.Tag.{Reads};

    ghost try_from_gives = { λ bytes r. Reads 4 bytes.now r };

    fn try_from(bytes: &[u8]) -> Result<U32WriteId, Error> {
        match bytes {
            [a, b, c, d] => Ok(U32WriteId {
                bytes: [*a, *b, *c, *d],
            }),
            _ => Err(Error::new(ErrorType::InternalError)),
        }
    }
}
