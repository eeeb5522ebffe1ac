//! The data of a table of locks, and its calls; it keeps no past.
ghost use Rattle.std.specs.Prelude.{option_copied, ◌≡◌, ◌^◌, ◌<◌, ◌≤◌, [], IfOk, IfErr, IsOk, IsSome, OnErr, OnOk, Some};
ghost use Rattle.std.specs.Duration.{as_nanos};
ghost use Rattle.std.specs.FinMap as map;
ghost use Rattle.pcache_base.specs.declared.error.ErrorType.TheVariants.{NumbersExhausted, OutOfMemory};
ghost use Rattle.pcache_base.specs.Key.{slot};
ghost use Rattle.pcache_lock.specs.Locks.{MayFailLock, changed, ended, holder, no_locks, no_locks_from, permit_dropped, permit_spent, reader_dropped, released, unlocked, with_core, with_free_permit, with_read_lock, without_entry};
ghost use Rattle.pcache_lock.specs.Statuses.{IsReason};
ghost use Rattle.pcache_lock.specs.Permits.{spent, with_reader, without_reader};
ghost use Rattle.pcache_lock.specs.Waiting.{aged, with_publication};

use crate::lock::CacheKeyLock;
use crate::lock::lock_core::LockCore;
use crate::lock::outcome::{PermitState, WaitOutcome};
use crate::lock::permit::{LockStub, Locked, ReadLock, WritePermit};
use crate::lock::status::LockStatus;
use pcache_base::error::{Error, ErrorType, Result};
use pcache_base::fills::UnusableFills;
use pcache_base::key::{CacheHashKey, CacheKey};
use pcache_base::moment::Moment;
use pcache_base::poll::Poll;
use pcache_table::hashtable::{Shards, Table};
use std::alloc::{AllocError, Global};
use std::marker::Model;
use std::time::Duration;

const N_SHARDS: usize = 16;

/// The data of a table of locks: the entries of keys in 16 shards, and the locks by number.
#[derive(Drop)]
pub(super) struct BareLock {
    cores: Table<LockCore>,
    current: Shards<u64, N_SHARDS>,
    // The next number; wider than a number, so that it can be past the last one.
    next: u128,
    age_timeout: Duration,
}

impl Model for BareLock {
    ghost use Rattle.std.specs.Duration.{as_nanos};
    ghost use Rattle.pcache_lock.specs.Locks.{Locks};
    ghost use Rattle.pcache_lock.specs.LocksCode.{locks_code};

    ghost Value = { Locks };

    ghost coded = { locks_code };

    ghost view = { λ a. record { cores = a.cores; current = a.current; next = a.next; age_timeout = as_nanos a.age_timeout } };
}

// Sets the number of a key's entry, if it has one.
fn set_entry(current: &mut Shards<u64, N_SHARDS>, slot: u128, number: u64)
    requires { IsSome (map.get current.old slot) }
    ensures { current.new ≡ map.insert current.old slot number }
{
    let Ok(_before) = current.insert(slot, number) else {
        unreachable!()
    };
}

// Removes the entry of a lock, if it is the current one of its key.
fn leave_entry(current: &mut Shards<u64, N_SHARDS>, number: u128, slot: Option<u128>)
    ensures { current.new ≡ without_entry number slot current.old }
{
    let Some(slot) = slot else { return };
    let Some(entry) = current.value(slot) else {
        return;
    };
    if u128::from(*entry) == number {
        current.remove(slot);
    }
}

// Counts one more read lock on a lock.
fn add_reader(cores: &mut Table<LockCore>, number: u128)
    ensures { cores.new ≡ changed with_reader cores.old number (map.get cores.old number) }
{
    let Some(core) = cores.get_mut(number) else {
        return;
    };
    core.add_reader();
}

// Counts one read lock less.
fn forget_reader(cores: &mut Table<LockCore>, number: u128)
    ensures { cores.new ≡ changed without_reader cores.old number (map.get cores.old number) }
{
    let Some(core) = cores.get_mut(number) else {
        return;
    };
    core.forget_reader();
}

// Records that the permit is gone.
fn spend(cores: &mut Table<LockCore>, number: u128, status: LockStatus)
    ensures { cores.new
        ≡ changed (λ c. spent c status) cores.old number (map.get cores.old number) }
{
    let Some(core) = cores.get_mut(number) else {
        return;
    };
    core.spend(status);
}

// Sets the status with which the fill ended, while the permit is still held.
fn unlock(cores: &mut Table<LockCore>, number: u128, reason: LockStatus)
    requires { IsReason reason }
    ensures { cores.new ≡ changed (ended reason) cores.old number (map.get cores.old number) }
{
    let Some(core) = cores.get_mut(number) else {
        return;
    };
    core.unlock(reason);
}

// Records that the permit is too old.
fn age(cores: &mut Table<LockCore>, number: u128)
    ensures { cores.new ≡ changed aged cores.old number (map.get cores.old number) }
{
    let Some(core) = cores.get_mut(number) else {
        return;
    };
    core.age();
}

// Replaces the current publication.
fn publish(
    alloc: Global,
    cores: &mut Table<LockCore>,
    number: u128,
    tokens: &[u64],
) -> Result<(), AllocError>
    ensures ok { OnOk result (cores.new
        ≡ changed (with_publication tokens.now) cores.old number (map.get cores.old number)) }
    ensures clears { tokens.now ≡ [] → IsOk result }
    ensures err { OnErr result (cores.new ≡ cores.old) }
{
    let Some(core) = cores.get_mut(number) else {
        return Ok(());
    };
    core.publish(alloc, tokens)
}

impl BareLock {
    /// A table with no lock, whose permits are too old after `age_timeout`.
    pub fn new(alloc: Global, age_timeout: Duration) -> BareLock
        ensures { result ≡ no_locks (as_nanos age_timeout) }
    {
        BareLock {
            cores: Table::new(alloc),
            current: Shards::new(alloc),
            next: 0,
            age_timeout,
        }
    }

    /// A table with no lock whose next permit has this number, so that a caller can try the last numbers.
    pub fn starting_at(alloc: Global, age_timeout: Duration, next: u128) -> BareLock
        ensures { result ≡ no_locks_from next (as_nanos age_timeout) }
    {
        BareLock {
            cores: Table::new(alloc),
            current: Shards::new(alloc),
            next,
            age_timeout,
        }
    }

    /// A table with no lock, in a box. Fails only when memory runs out.
    pub fn new_boxed(alloc: Global, age_timeout: Duration) -> Result<Box<BareLock>>
        ensures made { IfOk result (λ b. b.value ≡ no_locks (as_nanos age_timeout)) }
        ensures kind { IfErr result (λ e. e ≡ OutOfMemory) }
    {
        Ok(Box::new(alloc, BareLock::new(alloc, age_timeout))?)
    }

    /// What is known of a lock, while its permit or a read lock names it.
    pub fn core(&self, number: u64) -> Option<&LockCore>
        ensures { option_copied result ≡ map.get self.now.cores number }
    {
        self.cores.get(u128::from(number))
    }

    /// The current entry of a key.
    pub fn stub(&self, key: &CacheKey) -> Option<LockStub>
        ensures { result ≡ map.get self.now.current (slot key.now) }
    {
        let number = self.current.value(key.slot())?;
        Some(LockStub::new(*number))
    }

    /// A permit for no key, with an age limit of its own.
    ///
    /// Fails when memory runs out, or if all 64-bit numbers of locks are used, and then changes
    /// nothing.
    pub fn new_permit(
        &mut self,
        alloc: Global,
        age_timeout: Duration,
        stale_writer: bool,
        now: Moment,
    ) -> Result<(WritePermit, LockStub)>
        ensures permit { IfOk result (λ p.
            p.0 ≡ record { number = self.old.next; stale_writer = stale_writer }) }
        ensures stub { IfOk result (λ p. p.1 ≡ self.old.next) }
        ensures ok { OnOk result (self.new
            ≡ with_free_permit self.old (as_nanos age_timeout) stale_writer now) }
        ensures err { OnErr result (self.new ≡ self.old) }
        ensures kind { IfErr result (λ e. MayFailLock self.old e) }
    {
        let number = self.next_number()?;
        let core = LockCore::new(alloc, age_timeout, stale_writer, now);
        self.cores.insert(self.next, core)?;
        self.next += 1;
        Ok((
            WritePermit::new(number, stale_writer),
            LockStub::new(number),
        ))
    }

    // The number of the next lock, if one is left.
    fn next_number(&self) -> Result<u64>
        ensures next { IfOk result (λ n. n ≡ self.now.next) }
        ensures kind { IfErr result (λ e. (e ≡ NumbersExhausted) × (2 ^ 64 ≤ self.now.next)) }
    {
        match u64::try_from(self.next) {
            Ok(number) => Ok(number),
            Err(_) => Err(Error::new(ErrorType::NumbersExhausted)),
        }
    }

    // Gives one more read lock on a lock.
    pub(super) fn read_lock(&mut self, number: u64) -> ReadLock
        ensures reader { result ≡ record { number = number; watch = None } }
        ensures table { self.new ≡ with_read_lock self.old number (map.get self.old.cores number) }
    {
        add_reader(&mut self.cores, u128::from(number));
        ReadLock::new(number)
    }

    // Sets the status with which a lock ended.
    pub(super) fn unlock(&mut self, number: u64, reason: LockStatus)
        requires { IsReason reason }
        ensures { self.new ≡ unlocked self.old number reason }
    {
        unlock(&mut self.cores, u128::from(number), reason);
    }

    // The lock that a request for the key would wait for.
    fn holder(&self, slot: u128) -> Option<u64>
        ensures { result ≡ holder self.now slot }
    {
        let number = *self.current.value(slot)?;
        let core = self.cores.get(u128::from(number))?;
        if core.lock_status().is_free() {
            None
        } else {
            Some(number)
        }
    }

    // Adds a new lock of a key, which becomes the key's current entry.
    fn add_core(&mut self, number: u64, slot: u128, core: LockCore) -> Result<(), AllocError>
        requires { number ≡ self.old.next }
        ensures ok { OnOk result (self.new ≡ with_core self.old slot core) }
        ensures err { OnErr result (self.new ≡ self.old) }
    {
        if self.current.value(slot).is_some() {
            self.cores.insert(self.next, core)?;
            set_entry(&mut self.current, slot, number);
            self.next += 1;
            return Ok(());
        }
        self.current.insert(slot, number)?;
        if let Err(refused) = self.cores.insert(self.next, core) {
            self.current.remove(slot);
            return Err(AllocError::from(refused));
        }
        self.next += 1;
        Ok(())
    }

    // Removes a lock that nothing names any more, and its entry.
    fn forget(&mut self, number: u128, slot: Option<u128>)
        ensures { self.new
            ≡ record self.old {
              cores = map.remove self.old.cores number;
              current = without_entry number slot self.old.current;
            } }
    {
        // With its entry: a key whose lock nobody names takes no memory.
        self.cores.remove(number);
        leave_entry(&mut self.current, number, slot);
    }

    // Ends a lock's permit.
    fn spend_permit(&mut self, number: u128, status: LockStatus)
        ensures { self.new ≡ permit_spent self.old number status (map.get self.old.cores number) }
    {
        let Some(core) = self.cores.get(number) else {
            return;
        };
        if core.has_readers() {
            spend(&mut self.cores, number, status);
            return;
        }
        let slot = core.slot();
        self.forget(number, slot);
    }

    fn release_permit(&mut self, number: u128, reason: LockStatus)
        ensures { self.new ≡ released self.old number reason }
    {
        let Some(core) = self.cores.get(number) else {
            return;
        };
        if core.lock_status() == LockStatus::AgeTimeout {
            self.spend_permit(number, LockStatus::AgeTimeout);
            return;
        }
        let slot = core.slot();
        leave_entry(&mut self.current, number, slot);
        self.spend_permit(number, reason);
    }

    fn drop_permit(&mut self, number: u128)
        ensures { self.new ≡ permit_dropped self.old number (map.get self.old.cores number) }
    {
        let Some(core) = self.cores.get(number) else {
            return;
        };
        let status = core.dropped_status();
        self.spend_permit(number, status);
    }

    fn drop_reader(&mut self, number: u128)
        ensures { self.new ≡ reader_dropped self.old number (map.get self.old.cores number) }
    {
        let Some(core) = self.cores.get(number) else {
            return;
        };
        if core.outlives_reader() {
            forget_reader(&mut self.cores, number);
            return;
        }
        let slot = core.slot();
        self.forget(number, slot);
    }
}

impl CacheKeyLock for BareLock {
    ghost use Rattle.pcache_lock.specs.declared.lock.status.LockStatus.TheVariants.{GiveUp};
    ghost use Rattle.std.specs.Prelude.{None};

    ghost table = { λ t. t };

    ghost past = { λ _. None };

    ghost custom_status = { λ _ _. GiveUp };

    fn lock(
        &mut self,
        alloc: Global,
        key: &CacheKey,
        stale_writer: bool,
        now: Moment,
    ) -> Result<Locked> {
        let slot = key.slot();
        if let Some(number) = self.holder(slot) {
            return Ok(Locked::Read(self.read_lock(number)));
        }
        let number = self.next_number()?;
        let core = LockCore::under(alloc, slot, self.age_timeout, stale_writer, now);
        self.add_core(number, slot, core)?;
        Ok(Locked::Write(WritePermit::new(number, stale_writer)))
    }

    fn release(&mut self, _key: &CacheKey, permit: WritePermit, reason: LockStatus) {
        self.release_permit(u128::from(permit.spend()), reason);
    }

    fn drop_lock(&mut self, locked: Locked) {
        match locked {
            Locked::Write(permit) => self.drop_permit(u128::from(permit.spend())),
            Locked::Read(read) => self.drop_reader(u128::from(read.spend())),
        }
    }

    fn poll_wait(
        &mut self,
        alloc: Global,
        read: &mut ReadLock,
        fills: Option<&UnusableFills>,
        now: Moment,
    ) -> Result<Poll<WaitOutcome>> {
        let number = u128::from(read.number());
        let Some(core) = self.cores.get(number) else {
            return Ok(Poll::Ready(WaitOutcome::Released));
        };
        match core.stage(now) {
            PermitState::Over => Ok(Poll::Ready(WaitOutcome::Released)),
            PermitState::Old => {
                age(&mut self.cores, number);
                Ok(Poll::Ready(WaitOutcome::AgeTimeout))
            }
            PermitState::Held => match read.look(alloc, core, fills)? {
                Some(fill) => Ok(Poll::Ready(WaitOutcome::Abandoned(fill))),
                None => Ok(Poll::Pending),
            },
        }
    }

    fn lock_status(&self, read: &ReadLock, now: Moment) -> LockStatus {
        match self.cores.get(u128::from(read.number())) {
            Some(core) => core.status_at(now),
            None => LockStatus::Dangling,
        }
    }

    fn publish(&mut self, alloc: Global, permit: &WritePermit, tokens: &[u64]) -> Result<()> {
        Ok(publish(alloc, &mut self.cores, u128::from(permit.number()), tokens)?)
    }

    fn custom_lock_status(&self, _custom_no_cache: &'static str) -> LockStatus {
        LockStatus::GiveUp
    }
}
