//! What the exported functions return, as numbers from the innermost function on: so no layer turns one type of result into another.
//! What a call says besides goes through a parameter.
ghost use Rattle.std.specs.Prelude.{◌≡◌, ◌≢◌, ◌≤◌};
ghost use Rattle.pcache_c.specs.Codes.{code_of};

use pcache_base::error::{Error, ErrorType};

/// It was done.
pub(crate) const OK: u32 = 0;

/// A request for memory was refused.
pub(crate) const NO_MEMORY: u32 = 1;

/// A handle has no object, or has one although it should be empty.
pub(crate) const BAD_HANDLE: u32 = 2;

/// A handle's object is of another kind.
pub(crate) const WRONG_KIND: u32 = 3;

/// A number, text or length is not allowed by the call.
pub(crate) const BAD_VALUE: u32 = 4;

/// The bytes cannot be read.
pub(crate) const UNREADABLE: u32 = 5;

/// There is nothing to return.
pub(crate) const NONE: u32 = 6;

/// The call may not be made now.
pub(crate) const WRONG_CALL: u32 = 7;

/// The code of an error.
pub(crate) fn code_of(error: Error) -> u32
    ensures code { result ≡ code_of error }
    ensures refused { 1 ≤ result }
    ensures other { result ≢ 7 }
{
    match error.etype() {
        ErrorType::OutOfMemory => NO_MEMORY,
        ErrorType::InternalError => UNREADABLE,
        ErrorType::InvalidHttpHeader => 8,
        ErrorType::ResponseTooLarge => 9,
        ErrorType::IncompleteHttpBody => 10,
        ErrorType::WriteRemoved => 11,
        ErrorType::NumbersExhausted => 12,
        ErrorType::Io => 13,
        ErrorType::Superseded => 14,
    }
}
