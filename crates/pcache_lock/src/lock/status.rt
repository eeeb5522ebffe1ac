//! The status of a lock.
ghost use Rattle.std.specs.Prelude.{◌≡◌, ◌↔◌, IsTrue};
ghost use Rattle.std.specs.Prelude.{unwrap_or};
ghost use Rattle.pcache_lock.specs.Statuses.{IsReason, is_free, name_of_status, number_of_status, status_of_number};
ghost use Rattle.pcache_lock.specs.declared.lock.status.LockStatus.TheVariants.{GiveUp};

/// The status of a lock.
#[derive(Clone, Copy, Debug, PartialEq, Eq)]
pub enum LockStatus {
    /// Its permit is held, and the key is being filled.
    Waiting = 0,
    /// The key was filled.
    Done = 1,
    /// The fill failed, and another request may try.
    TransientError = 2,
    /// The response is not to be cached.
    GiveUp = 3,
    /// The permit was let go without a status.
    Dangling = 4,
    /// A reader waited for as long as its timeout allows. No permit is released with this status.
    WaitTimeout = 5,
    /// The permit was held for too long.
    AgeTimeout = 6,
}

impl LockStatus {
    /// Whether the next request may get a permit of its own.
    pub fn is_free(self) -> bool
        ensures { result ≡ is_free self }
    {
        matches!(self, LockStatus::Dangling | LockStatus::AgeTimeout)
    }

    /// Whether a permit may be released with it.
    pub fn is_reason(self) -> bool
        ensures { IsTrue result ↔ IsReason self }
    {
        !matches!(self, LockStatus::Waiting | LockStatus::WaitTimeout)
    }

    /// The status with this number; `None` if there is none.
    pub fn from_repr(number: u8) -> Option<LockStatus>
        ensures { result ≡ status_of_number number }
    {
        match number {
            0 => Some(LockStatus::Waiting),
            1 => Some(LockStatus::Done),
            2 => Some(LockStatus::TransientError),
            3 => Some(LockStatus::GiveUp),
            4 => Some(LockStatus::Dangling),
            5 => Some(LockStatus::WaitTimeout),
            6 => Some(LockStatus::AgeTimeout),
            _ => None,
        }
    }

    /// The variant's name.
    pub fn as_str(self) -> &'static str
        ensures { result.now ≡ name_of_status self }
    {
        match self {
            LockStatus::Waiting => "Waiting",
            LockStatus::Done => "Done",
            LockStatus::TransientError => "TransientError",
            LockStatus::GiveUp => "GiveUp",
            LockStatus::Dangling => "Dangling",
            LockStatus::WaitTimeout => "WaitTimeout",
            LockStatus::AgeTimeout => "AgeTimeout",
        }
    }
}

impl From<LockStatus> for u8 {
    ghost from_gives = { λ status number. number ≡ number_of_status status };

    fn from(status: LockStatus) -> u8 {
        status as u8
    }
}

/// A number that no status has is read as `GiveUp`.
impl From<u8> for LockStatus {
    ghost from_gives = { λ number status. status ≡ unwrap_or (status_of_number number) GiveUp };

    fn from(number: u8) -> LockStatus {
        LockStatus::from_repr(number).unwrap_or(LockStatus::GiveUp)
    }
}
