//! The one error of the workspace, and its kinds.
ghost use Rattle.std.specs.Prelude.{◌≡◌};

use std::alloc::{AllocError, AllocFailed};
use std::fmt;
use std::marker::Model;

/// Why a call failed.
#[derive(Clone, Copy, Debug, PartialEq, Eq)]
pub enum ErrorType {
    /// A request for memory was refused.
    OutOfMemory,
    /// A value or bytes that can't be read, a seek that can't be made, a header map that is full.
    InternalError,
    /// The head of a stored response is no HTTP head.
    InvalidHttpHeader,
    /// The body of a stored response is larger than its limit.
    ResponseTooLarge,
    /// A stored response ends before its head or body does.
    IncompleteHttpBody,
    /// The key of the write was removed since the write began.
    WriteRemoved,
    /// All 64-bit numbers of writes, or of locks, are used.
    NumbersExhausted,
    /// A device failed.
    Io,
    /// A newer body of the key stands.
    Superseded,
}

impl ErrorType {
    /// The kind's name.
    pub fn as_str(self) -> &'static str {
        match self {
            ErrorType::OutOfMemory => "OutOfMemory",
            ErrorType::InternalError => "InternalError",
            ErrorType::InvalidHttpHeader => "InvalidHttpHeader",
            ErrorType::ResponseTooLarge => "ResponseTooLarge",
            ErrorType::IncompleteHttpBody => "IncompleteHttpBody",
            ErrorType::WriteRemoved => "WriteRemoved",
            ErrorType::NumbersExhausted => "NumbersExhausted",
            ErrorType::Io => "Io",
            ErrorType::Superseded => "Superseded",
        }
    }
}

/// An error. A contract sees its kind.
#[derive(Debug, Drop)]
pub struct Error {
    kind: ErrorType,
}

/// What a call that can fail returns; `E` is `AllocError` where it fails only when memory runs out.
pub type Result<T, E = Error> = std::result::Result<T, E>;

impl Model for Error {
    ghost use Rattle.pcache_base.specs.declared.error.ErrorType.{ErrorType};

    ghost Value = { ErrorType };

    ghost view = { λ e. e.kind };
}

impl Error {
    /// An error of this kind.
    pub fn new(kind: ErrorType) -> Error
        ensures { result ≡ kind }
    {
        Error { kind }
    }

    /// The kind.
    pub fn etype(&self) -> ErrorType
        ensures { result ≡ self.now }
    {
        self.kind
    }
}

// By hand and not by `thiserror`: what that derives has no contract, so that a `?` would lose the
// kind of the error in each clause that names one.
impl fmt::Display for Error {
    fn fmt<W: fmt::Write>(&self, f: &mut fmt::Formatter<W>) -> fmt::Result {
        f.write_str(self.kind.as_str())
    }
}

impl std::error::Error for Error {}

impl From<AllocError> for Error {
    ghost use Rattle.pcache_base.specs.declared.error.ErrorType.TheVariants.{OutOfMemory};

    ghost from_gives = { λ _ e. e ≡ OutOfMemory };

    fn from(_refused: AllocError) -> Error {
        Error::new(ErrorType::OutOfMemory)
    }
}

impl<T: Drop> From<AllocFailed<T>> for Error {
    ghost use Rattle.pcache_base.specs.declared.error.ErrorType.TheVariants.{OutOfMemory};

    ghost from_gives = { λ _ e. e ≡ OutOfMemory };

    fn from(_refused: AllocFailed<T>) -> Error {
        Error::new(ErrorType::OutOfMemory)
    }
}
