//! What a wait returns.
ghost use Rattle.std.specs.Prelude.{◌≡◌};
ghost use Rattle.pcache_lock.specs.Outcomes.{status_of_outcome};

use crate::lock::status::LockStatus;
use pcache_base::fills::UnusableFill;
use pcache_base::reason::NoCacheReason;

/// What a poll of a read lock returns.
#[derive(Clone, Copy, Debug, PartialEq, Eq)]
pub enum WaitOutcome {
    /// The permit is over: released, unlocked or let go. The lock's status says how.
    Released,
    /// The permit was held for too long.
    AgeTimeout,
    /// The writer published a fill that this reader cannot use.
    Abandoned(UnusableFill),
}

/// How a request's wait ended.
#[derive(Clone, Copy, Debug, PartialEq, Eq)]
pub enum LockWaitOutcome {
    /// The key was filled.
    Done,
    /// The fill failed, and another request may try.
    TransientError,
    /// The permit was let go without a status.
    Dangling,
    /// The reader waited for as long as its timeout allows.
    WaitTimeout,
    /// The permit was held for too long.
    AgeTimeout,
    /// The response is not to be cached.
    GiveUp,
    /// The writer published a fill that the reader cannot use.
    Abandoned {
        /// Why the reader cannot use it.
        reason: NoCacheReason,
        /// What the writer published.
        token: u64,
    },
}

impl LockWaitOutcome {
    /// The status of the same name, and `GiveUp` for an abandoned wait.
    pub fn lock_status(&self) -> LockStatus
        ensures { result ≡ status_of_outcome self.now }
    {
        match self {
            LockWaitOutcome::Done => LockStatus::Done,
            LockWaitOutcome::TransientError => LockStatus::TransientError,
            LockWaitOutcome::Dangling => LockStatus::Dangling,
            LockWaitOutcome::WaitTimeout => LockStatus::WaitTimeout,
            LockWaitOutcome::AgeTimeout => LockStatus::AgeTimeout,
            LockWaitOutcome::GiveUp | LockWaitOutcome::Abandoned { .. } => LockStatus::GiveUp,
        }
    }
}

/// The stage of a lock's permit when a reader polls.
#[derive(Clone, Copy, Debug, PartialEq, Eq)]
pub enum PermitState {
    /// It was released, unlocked or let go.
    Over,
    /// It has been held for too long.
    Old,
    /// It is held.
    Held,
}
