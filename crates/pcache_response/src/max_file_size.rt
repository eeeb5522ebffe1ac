//! A count of body bytes with a limit.
ghost use Rattle.std.specs.Prelude.{◌≡◌, ◌+◌, ◌-◌, ◌^◌, ◌≤◌, ◌↔◌, IsTrue, min};

use pcache_base::error::ErrorType;
use std::marker::Model;

/// The kind of error of a body that is larger than its limit.
pub const ERR_RESPONSE_TOO_LARGE: ErrorType = ErrorType::ResponseTooLarge;

/// Counts a body's bytes against a limit. A contract sees both.
#[derive(Debug, Drop)]
pub struct MaxFileSizeTracker {
    body_bytes: usize,
    max_size: usize,
}

impl Model for MaxFileSizeTracker {
    ghost use Rattle.pcache_response.specs.Counted.{Counted};

    ghost Value = { Counted };

    ghost view = { λ t. record { bytes = t.body_bytes; limit = t.max_size } };
}

impl MaxFileSizeTracker {
    /// A count of zero, with at most `max_size` bytes allowed.
    pub fn new(max_size: usize) -> MaxFileSizeTracker
        ensures { result ≡ record { bytes = 0; limit = max_size } }
    {
        MaxFileSizeTracker {
            body_bytes: 0,
            max_size,
        }
    }

    /// Counts so many more bytes, up to the largest `usize`, and returns whether the count is at most
    /// the limit.
    pub fn add_body_bytes(&mut self, bytes: usize) -> bool
        ensures counted { self.new
            ≡ record self.old { bytes = min (self.old.bytes + bytes) (2 ^ 64 - 1) } }
        ensures allowed { IsTrue result ↔ (self.new.bytes ≤ self.new.limit) }
    {
        // It stops at the largest number, so that a limit of that number is none.
        self.body_bytes = self.body_bytes.saturating_add(bytes);
        self.allow_caching()
    }

    /// The limit.
    pub fn max_file_size_bytes(&self) -> usize
        ensures { result ≡ self.now.limit }
    {
        self.max_size
    }

    /// Whether the counted bytes are at most the limit.
    pub fn allow_caching(&self) -> bool
        ensures { IsTrue result ↔ (self.now.bytes ≤ self.now.limit) }
    {
        self.body_bytes <= self.max_size
    }
}
