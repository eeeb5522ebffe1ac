//! What a table knows of a lock.
ghost use Rattle.std.specs.Prelude.{◌≡◌, ◌==◌, ◌-◌, [], IsOk, None, OnErr, OnOk, Some, drop, false, length, nat_lt, slice_get};
ghost use Rattle.std.specs.Duration.{as_nanos};
ghost use Rattle.pcache_lock.specs.Locks.{ended};
ghost use Rattle.pcache_lock.specs.Permits.{new_core, is_locked, is_named, with_reader, without_reader, spent, dropped_status};
ghost use Rattle.pcache_lock.specs.Statuses.{IsReason};
ghost use Rattle.pcache_lock.specs.Waiting.{aged, first_told, is_expired, says_nothing, permit_state, status_at, with_publication};

use crate::lock::outcome::PermitState;
use crate::lock::publications::Publications;
use crate::lock::status::LockStatus;
use pcache_base::fills::{UnusableFill, UnusableFills};
use pcache_base::moment::Moment;
use std::alloc::{AllocError, Global};
use std::marker::Model;
use std::time::Duration;

/// What a table knows of a lock: since when its permit is held, its status, and how many name it.
#[derive(Drop)]
pub struct LockCore {
    slot: Option<u128>,
    status: LockStatus,
    start: Moment,
    age_timeout: Duration,
    stale_writer: bool,
    held: bool,
    // Wider than a number of locks, so that there are never as many as can be counted.
    readers: u128,
    publications: Publications,
}

impl Model for LockCore {
    ghost use Rattle.std.specs.Duration.{as_nanos};
    ghost use Rattle.pcache_lock.specs.Permits.{Core};

    ghost Value = { Core };

    ghost view = { λ c. record {
      slot = c.slot;
      status = c.status;
      start = c.start;
      age_timeout = as_nanos c.age_timeout;
      stale_writer = c.stale_writer;
      held = c.held;
      readers = c.readers;
      publications = c.publications;
    } };
}

impl LockCore {
    /// A lock whose permit is given now, for no key.
    pub fn new(alloc: Global, age_timeout: Duration, stale_writer: bool, now: Moment) -> LockCore
        ensures { result ≡ new_core None (as_nanos age_timeout) stale_writer now }
    {
        LockCore {
            slot: None,
            status: LockStatus::Waiting,
            start: now,
            age_timeout,
            stale_writer,
            held: true,
            readers: 0,
            publications: Publications::new(alloc),
        }
    }

    // The same, for a key.
    pub(super) fn under(
        alloc: Global,
        slot: u128,
        age_timeout: Duration,
        stale_writer: bool,
        now: Moment,
    ) -> LockCore
        ensures { result ≡ new_core (Some slot) (as_nanos age_timeout) stale_writer now }
    {
        LockCore {
            slot: Some(slot),
            status: LockStatus::Waiting,
            start: now,
            age_timeout,
            stale_writer,
            held: true,
            readers: 0,
            publications: Publications::new(alloc),
        }
    }

    /// Whether its permit is still held, and was not unlocked.
    pub fn locked(&self) -> bool
        ensures { result ≡ is_locked self.now }
    {
        // Also if it was unlocked as too old: an aged permit is held until it is spent.
        self.held && matches!(self.status, LockStatus::Waiting | LockStatus::AgeTimeout)
    }

    /// Sets the status with which it ended.
    pub fn unlock(&mut self, reason: LockStatus)
        requires { IsReason reason }
        ensures { self.new ≡ ended reason self.old }
    {
        self.status = reason;
    }

    /// Its status.
    pub fn lock_status(&self) -> LockStatus
        ensures { result ≡ self.now.status }
    {
        self.status
    }

    /// Whether its permit was asked for to replace a stale entry.
    pub fn stale_writer(&self) -> bool
        ensures { result ≡ self.now.stale_writer }
    {
        self.stale_writer
    }

    /// When its permit was given.
    pub fn lock_start(&self) -> Moment
        ensures { result ≡ self.now.start }
    {
        self.start
    }

    /// For how long its permit may be held.
    pub fn age_timeout(&self) -> Duration
        ensures { as_nanos result ≡ self.now.age_timeout }
    {
        self.age_timeout
    }

    // The slot of the key for which it was given.
    pub(super) fn slot(&self) -> Option<u128>
        ensures { result ≡ self.now.slot }
    {
        self.slot
    }

    // Whether it is still named once the permit is gone.
    pub(super) fn has_readers(&self) -> bool
        ensures { result ≡ nat_lt 0 self.now.readers }
    {
        self.readers > 0
    }

    // Whether it is still named once a read lock is gone.
    pub(super) fn outlives_reader(&self) -> bool
        ensures { result ≡ is_named (without_reader self.now) }
    {
        self.held || self.readers.saturating_sub(1) > 0
    }

    // Its status once the permit is let go.
    pub(super) fn dropped_status(&self) -> LockStatus
        ensures { result ≡ dropped_status self.now.status }
    {
        if matches!(self.status, LockStatus::Waiting | LockStatus::AgeTimeout) {
            LockStatus::Dangling
        } else {
            self.status
        }
    }

    // Counts one more read lock.
    pub(super) fn add_reader(&mut self)
        ensures { self.new ≡ with_reader self.old }
    {
        self.readers = self.readers.saturating_add(1);
    }

    // Counts one read lock less.
    pub(super) fn forget_reader(&mut self)
        ensures { self.new ≡ without_reader self.old }
    {
        self.readers = self.readers.saturating_sub(1);
    }

    // Records that the permit is gone.
    pub(super) fn spend(&mut self, status: LockStatus)
        ensures { self.new ≡ spent self.old status }
    {
        self.held = false;
        self.status = status;
    }

    // The stage of its permit at this moment.
    pub(super) fn stage(&self, now: Moment) -> PermitState
        ensures { result ≡ permit_state now self.now }
    {
        if !self.locked() {
            return PermitState::Over;
        }
        if self.status == LockStatus::AgeTimeout || self.expired(now) {
            return PermitState::Old;
        }
        PermitState::Held
    }

    // Whether its permit has been held for too long at this moment.
    pub(super) fn expired(&self, now: Moment) -> bool
        ensures { result ≡ is_expired now self.now }
    {
        now.since(self.start).as_nanos() >= self.age_timeout.as_nanos()
    }

    // Its status for a reader at this moment.
    pub(super) fn status_at(&self, now: Moment) -> LockStatus
        ensures { result ≡ status_at now self.now }
    {
        if self.status == LockStatus::Waiting && self.expired(now) {
            LockStatus::AgeTimeout
        } else {
            self.status
        }
    }

    // Records that its permit is too old.
    pub(super) fn age(&mut self)
        ensures { self.new ≡ aged self.old }
    {
        self.status = LockStatus::AgeTimeout;
    }

    // How many publications a reader may look at.
    pub(super) fn publication_count(&self) -> usize
        ensures { result ≡ length self.now.publications }
    {
        self.publications.len()
    }

    // The fill that a reader is told of by the publications from one on.
    pub(super) fn first_told(&self, fills: &UnusableFills, from: usize) -> Option<UnusableFill>
        ensures { result ≡ first_told fills.now (drop from self.now.publications) }
    {
        self.publications.first_told(fills, from)
    }

    // Replaces the current publication.
    pub(super) fn publish(&mut self, alloc: Global, tokens: &[u64]) -> Result<(), AllocError>
        ensures ok { OnOk result (self.new ≡ with_publication tokens.now self.old) }
        ensures clears { tokens.now ≡ [] → IsOk result }
        ensures err { OnErr result (self.new ≡ self.old) }
    {
        self.publications.publish(alloc, self.readers, tokens)
    }
}
