//! The linear values that a table of locks gives. Each has to be spent.
ghost use Rattle.std.specs.Prelude.{◌≡◌, [], IfOk, IsOk, IsSome, None, OnErr, OnOk, Some, is_some, option_copied, unwrap_or};
ghost use Rattle.pcache_lock.specs.Locks.{is_permit, number_of_lock};
ghost use Rattle.pcache_lock.specs.Waiting.{first_watch, watched, watch_at};

use crate::lock::lock_core::LockCore;
use pcache_base::error::Result;
use pcache_base::fills::{UnusableFill, UnusableFills};
use std::alloc::{AllocError, Global};
use std::marker::Model;

/// The right to fill a key. It is spent by `release` or `drop_lock`.
pub struct WritePermit {
    number: u64,
    stale_writer: bool,
}

impl Model for WritePermit {
    ghost use Rattle.pcache_lock.specs.Permits.{Permit};

    ghost Value = { Permit };

    ghost view = { λ p. record { number = p.number; stale_writer = p.stale_writer } };
}

impl WritePermit {
    pub(super) fn new(number: u64, stale_writer: bool) -> WritePermit
        ensures { result ≡ record { number = number; stale_writer = stale_writer } }
    {
        WritePermit {
            number,
            stale_writer,
        }
    }

    /// The number of the permit's lock.
    pub fn number(&self) -> u64
        ensures { result ≡ self.now.number }
    {
        self.number
    }

    /// Whether it was asked for to replace a stale entry.
    pub fn stale_writer(&self) -> bool
        ensures { result ≡ self.now.stale_writer }
    {
        self.stale_writer
    }

    pub(super) fn spend(self) -> u64
        ensures { result ≡ self.number }
    {
        let WritePermit {
            number,
            stale_writer: _,
        } = self;
        number
    }
}

// What a reader watches for from its first poll on.
#[derive(Drop)]
struct Watch {
    // The fills that it cannot use.
    fills: UnusableFills,
    // How many of the permit's publications it has looked at.
    seen: usize,
    // The fill that it was told of.
    told: Option<UnusableFill>,
}

impl Model for Watch {
    ghost use Rattle.pcache_lock.specs.Permits.{Watch as Watched};

    ghost Value = { Watched };

    ghost view = { λ w. record { fills = w.fills; seen = w.seen; told = w.told } };
}

impl Watch {
    // What a reader that was not told of a fill watches for from now on.
    fn first(
        alloc: Global,
        core: &LockCore,
        fills: Option<&UnusableFills>,
    ) -> Result<Watch, AllocError>
        ensures made { IfOk result (λ w.
            w ≡ first_watch core.now (unwrap_or (option_copied fills.entry) [])) }
        ensures unnamed { option_copied fills.entry ≡ None → IsOk result }
    {
        let fills = match fills {
            Some(fills) => fills.copied()?,
            None => UnusableFills::new(Vec::new(alloc)),
        };
        Ok(Watch {
            fills,
            seen: core.publication_count().saturating_sub(1),
            told: None,
        })
    }

    // Looks at the publications since the last look.
    fn look(&mut self, core: &LockCore) -> Option<UnusableFill>
        ensures watch { self.new ≡ watched core.now self.old }
        ensures told { result ≡ self.new.told }
    {
        if self.told.is_none() {
            self.told = core.first_told(&self.fills, self.seen);
        }
        self.seen = core.publication_count();
        self.told
    }
}

/// A read lock: the wait for another request's permit. It is spent by `drop_lock`.
pub struct ReadLock {
    number: u64,
    watch: Option<Watch>,
}

impl Model for ReadLock {
    ghost use Rattle.pcache_lock.specs.Permits.{Reader};

    ghost Value = { Reader };

    ghost view = { λ r. record { number = r.number; watch = r.watch } };
}

impl ReadLock {
    pub(super) fn new(number: u64) -> ReadLock
        ensures { result ≡ record { number = number; watch = None } }
    {
        ReadLock {
            number,
            watch: None,
        }
    }

    /// The number of the lock that it waits on.
    pub fn number(&self) -> u64
        ensures { result ≡ self.now.number }
    {
        self.number
    }

    /// Whether a poll returned that it has to wait.
    pub fn was_polled(&self) -> bool
        ensures { result ≡ is_some self.now.watch }
    {
        self.watch.is_some()
    }

    // Looks, as a poll does, at what the writer published. The first time it records the fills that
    // the reader cannot use, and only that takes memory.
    pub(super) fn look(
        &mut self,
        alloc: Global,
        core: &LockCore,
        fills: Option<&UnusableFills>,
    ) -> Result<Option<UnusableFill>, AllocError>
        ensures ok { OnOk result (self.new
            ≡ record self.old {
              watch = Some (watched core.now
                  (watch_at core.now (option_copied fills.entry) self.old.watch));
            }) }
        ensures told { IfOk result (λ told. told
            ≡ (watched core.now
            (watch_at core.now (option_copied fills.entry) self.old.watch)).told) }
        ensures err { OnErr result (self.new ≡ self.old) }
        ensures later { IsSome self.old.watch → IsOk result }
        ensures unnamed { option_copied fills.entry ≡ None → IsOk result }
    {
        let mut watch = match self.watch.take() {
            Some(watch) => watch,
            None => Watch::first(alloc, core, fills)?,
        };
        let told = watch.look(core);
        self.watch = Some(watch);
        Ok(told)
    }

    pub(super) fn spend(self) -> u64
        ensures { result ≡ self.number }
    {
        let ReadLock { number, watch: _ } = self;
        number
    }
}

/// What a request for a lock gets.
pub enum Locked {
    /// The permit to fill the key.
    Write(WritePermit),
    /// The wait for the request that holds it.
    Read(ReadLock),
}

impl Locked {
    /// Whether it is the permit.
    pub fn is_write(&self) -> bool
        ensures { result ≡ is_permit self.now }
    {
        matches!(self, Locked::Write(_))
    }

    /// The lock's number.
    pub fn number(&self) -> u64
        ensures { result ≡ number_of_lock self.now }
    {
        match self {
            Locked::Write(permit) => permit.number(),
            Locked::Read(read) => read.number(),
        }
    }
}

/// The entry of a key, which names its current lock.
#[derive(Clone, Copy, Debug, PartialEq, Eq)]
pub struct LockStub {
    number: u64,
}

impl Model for LockStub {
    ghost use Rattle.std.specs.Prelude.{ℕ};

    ghost Value = { ℕ };

    ghost view = { λ s. s.number };

    ghost inverse = { λ n. record { number = n } };
}

impl LockStub {
    pub(super) fn new(number: u64) -> LockStub
        ensures { result ≡ number }
    {
        LockStub { number }
    }

    /// The number of the lock that it names.
    pub fn number(&self) -> u64
        ensures { result ≡ self.now }
    {
        self.number
    }
}
