//! Readers and writers that count the calls that failed, so that a contract can say that a call
//! fails with `Io` exactly when the device failed.
ghost use Rattle.std.specs.Prelude.{◌≡◌, ◌≢◌, false, IsTrue, ◌+◌, ◌%◌, ◌^◌, ◌<◌, ◌≤◌, ◌⊎◌, ℕ, List, Option, None, length, IfErr, IfOk, IsErrOf, OnErr, OnOk};
ghost use Rattle.std_io.specs.declared.io.error.Error.{Error};
ghost use Rattle.std_io.specs.IoError.{error_kind};
ghost use Rattle.std_io.specs.declared.io.kind.ErrorKind.TheVariants as short;
ghost use Rattle.std.specs.Io.KnownBytes.{Appends, Keeps, ReadConsumes, WriteAppends};
ghost use Rattle.pcache_files.specs.Device.{Counts, Gave, GaveUp, LackedMemory, TookBeginning};
ghost use Rattle.pcache_base.specs.declared.error.ErrorType.TheVariants.{Io, OutOfMemory};

use pcache_base::error::{Error, ErrorType, Result};
use std::alloc::Global;
use std::io;
use std::io::{ErrorKind, Read, Write};

/// How often a call is made, if a signal interrupts it each time.
const TRIES: u64 = u64::MAX;

/// A reader of std's, each of whose failed reads a contract can name.
pub trait TriedRead {
    /// The bytes that reads will give from now on, if they are known.
    ghost remaining: { Self → Option (List ℕ) } = { λ _. None };

    // So that "a read gave up" names the file that was opened at a path. Without it a read of any
    // one file that gave up would be a cause to skip another.
    /// The number of what is read. Nothing is known of it but that a read keeps it.
    ghost source: { Self → ℕ };

    /// A read of the first fails with this error, and leaves the second.
    ghost read_fails: { Self → Error → Self → Type 0 };

    /// Reads once, as `Read::read` does.
    fn try_read(&mut self, buf: &mut [u8]) -> io::Result<usize>
        ensures within { IfOk result (λ n. n ≤ length buf.new) }
        ensures bytes { ReadConsumes (remaining self.old) (remaining self.new) result buf.new }
        ensures same { source self.new ≡ source self.old }
        ensures cause { IfErr result (λ e. read_fails self.old e self.new) };
}

/// A writer of std's, each of whose failed calls a contract can name.
pub trait TriedWrite {
    /// The bytes that the writer took so far, if they are known.
    ghost contents: { Self → Option (List ℕ) } = { λ _. None };

    // A ghost, since what a flush does is not to be seen in the bytes that were taken.
    /// Whether all taken bytes were passed on, if the writer states it.
    ghost is_flushed: { Self → Type 0 };

    /// A write or a flush of the first fails with this error, and leaves the second.
    ghost write_fails: { Self → Error → Self → Type 0 };

    /// Writes once, as `Write::write` does. A write that takes none of the bytes fails.
    fn try_write(&mut self, buf: &[u8]) -> io::Result<usize>
        ensures within { IfOk result (λ n. n ≤ length buf.now) }
        ensures some { IfOk result (λ n. 0 < length buf.now → 0 < n) }
        ensures bytes { WriteAppends (contents self.old) (contents self.new) result buf.now }
        ensures cause { IfErr result (λ e. write_fails self.old e self.new) };

    /// Passes on the bytes that were taken, as `Write::flush` does.
    fn try_flush(&mut self) -> io::Result<()>
        ensures bytes { Keeps (contents self.old) (contents self.new) }
        ensures flushed { OnOk result (is_flushed self.new) }
        ensures cause { IfErr result (λ e. write_fails self.old e self.new) };
}

impl<T: Read> TriedRead for T {
    ghost use Rattle.std.specs.Prelude.{⊤};

    ghost remaining = { T.remaining };

    ghost source = { λ _. 0 };

    ghost read_fails = { λ _ _ _. ⊤ };

    fn try_read(&mut self, buf: &mut [u8]) -> io::Result<usize> {
        self.read(buf)
    }
}

impl<T: Write> TriedWrite for T {
    ghost use Rattle.std.specs.Prelude.{⊤};

    ghost contents = { T.contents };

    ghost is_flushed = { λ _. ⊤ };

    ghost write_fails = { λ _ _ _. ⊤ };

    fn try_write(&mut self, buf: &[u8]) -> io::Result<usize> {
        match self.write(buf) {
            // A write that takes no byte has failed: so a loop over writes ends.
            Ok(0) if !buf.is_empty() => Err(io::Error::from(ErrorKind::WriteZero)),
            Ok(count) => Ok(count),
            Err(error) => Err(error),
        }
    }

    fn try_flush(&mut self) -> io::Result<()> {
        self.flush()
    }
}

/// A reader that counts the reads that failed.
pub trait CountedRead {
    /// The bytes that reads will give from now on, if they are known.
    ghost remaining: { Self → Option (List ℕ) } = { λ _. None };

    /// The number of what is read, if the reader states it.
    ghost source: { Self → ℕ } = { λ _. 0 };

    /// How many reads failed so far, modulo 2^64.
    ghost failed: { Self → ℕ };

    /// The last read gave up, and why, if the reader states it.
    ghost gave_up: { Self → Type 0 } = { λ _. Unit {0} };

    /// The last read failed for want of memory, if the reader states it.
    ghost lacked: { Self → Type 0 } = { λ _. Unit {0} };

    /// Writes the next bytes to the front of the buffer, and returns how many they are: none only at
    /// the end, or if the buffer is empty. A read that fails gives no bytes. It is counted, unless
    /// memory was wanting.
    fn read(&mut self, buf: &mut [u8]) -> Result<usize>
        ensures within { IfOk result (λ n. n ≤ length buf.new) }
        ensures bytes { ReadConsumes (remaining self.old) (remaining self.new) result buf.new }
        ensures same { source self.new ≡ source self.old }
        ensures counted { Counts (failed self.old) (failed self.new) result }
        ensures cause { IsErrOf result Io → gave_up self.new }
        ensures memory { IsErrOf result OutOfMemory → lacked self.new }
        ensures kinds { IfErr result (λ e. (e ≡ OutOfMemory) ⊎ (e ≡ Io)) };

    /// How many reads failed so far, modulo 2^64.
    fn failures(&self) -> u64
        ensures { result ≡ failed self.now };
}

/// A writer that counts the writes and flushes that failed.
pub trait CountedWrite {
    /// The bytes that the writer took so far, if they are known.
    ghost contents: { Self → Option (List ℕ) } = { λ _. None };

    /// Whether all taken bytes were passed on, if the writer states it.
    ghost is_flushed: { Self → Type 0 } = { λ _. Unit {0} };

    /// How many writes and flushes failed so far, modulo 2^64.
    ghost failed: { Self → ℕ };

    /// The last write or flush gave up, and why, if the writer states it.
    ghost gave_up: { Self → Type 0 } = { λ _. Unit {0} };

    /// The last write or flush failed for want of memory, if the writer states it.
    ghost lacked: { Self → Type 0 } = { λ _. Unit {0} };

    /// Takes bytes from the front of the buffer, and returns how many: at least one, unless the
    /// buffer is empty. A write that takes none of them fails; one that fails took none. It is
    /// counted, unless memory was wanting.
    fn write(&mut self, buf: &[u8]) -> Result<usize>
        ensures within { IfOk result (λ n. n ≤ length buf.now) }
        ensures some { IfOk result (λ n. 0 < length buf.now → 0 < n) }
        ensures bytes { WriteAppends (contents self.old) (contents self.new) result buf.now }
        ensures counted { Counts (failed self.old) (failed self.new) result }
        ensures cause { IsErrOf result Io → gave_up self.new }
        ensures memory { IsErrOf result OutOfMemory → lacked self.new }
        ensures kinds { IfErr result (λ e. (e ≡ OutOfMemory) ⊎ (e ≡ Io)) };

    /// Passes on the bytes that were taken.
    fn flush(&mut self) -> Result<()>
        ensures bytes { Keeps (contents self.old) (contents self.new) }
        ensures flushed { OnOk result (is_flushed self.new) }
        ensures counted { Counts (failed self.old) (failed self.new) result }
        ensures cause { IsErrOf result Io → gave_up self.new }
        ensures memory { IsErrOf result OutOfMemory → lacked self.new }
        ensures kinds { IfErr result (λ e. (e ≡ OutOfMemory) ⊎ (e ≡ Io)) };

    /// How many writes and flushes failed so far, modulo 2^64.
    fn failures(&self) -> u64
        ensures { result ≡ failed self.now };
}

/// A reader or a writer of std's, with a count of the calls that failed. A call that a signal
/// interrupted is repeated and does not count, and one that failed for want of memory does not count.
#[derive(Drop)]
pub struct Counted<T> {
    device: T,
    failures: u64,
}

impl<T> Counted<T> {
    /// A device of which no call has failed.
    pub fn new(device: T) -> Counted<T>
        ensures { result ≡ record { device = device; failures = 0 } }
    {
        Counted {
            device,
            failures: 0,
        }
    }

    // Counts one more failed call.
    fn fail(&mut self) -> Error
        ensures kind { result ≡ Io }
        ensures device { self.new.device ≡ self.old.device }
        ensures counted { self.new.failures ≡ (self.old.failures + 1) % 2 ^ 64 }
    {
        // It wraps, so that no reader has to fail because its count is full.
        self.failures = self.failures.wrapping_add(1);
        Error::new(ErrorType::Io)
    }

    // The error for a call that failed so. It counts, unless memory was wanting.
    fn refuse(&mut self, error: &io::Error) -> Error
        ensures kinds { (result ≡ OutOfMemory) ⊎ (result ≡ Io) }
        ensures failed { result ≡ Io → error_kind error.now ≢ short.OutOfMemory }
        ensures memory { result ≡ OutOfMemory → error_kind error.now ≡ short.OutOfMemory }
        ensures device { self.new.device ≡ self.old.device }
        ensures counted { result ≡ Io → self.new.failures ≡ (self.old.failures + 1) % 2 ^ 64 }
        ensures uncounted { result ≡ OutOfMemory → self.new.failures ≡ self.old.failures }
    {
        // No device is blamed for that.
        if is_lack_of_memory(error) {
            return Error::new(ErrorType::OutOfMemory);
        }
        self.fail()
    }
}

// Whether a signal interrupted the call that failed so.
fn is_interrupted(error: &io::Error) -> bool
    ensures yes { IsTrue result → error_kind error.now ≡ short.Interrupted }
    ensures no { result ≡ false → error_kind error.now ≢ short.Interrupted }
{
    match error.kind() {
        ErrorKind::Interrupted => true,
        _ => false,
    }
}

// Whether a call failed so for want of memory.
fn is_lack_of_memory(error: &io::Error) -> bool
    ensures yes { IsTrue result → error_kind error.now ≡ short.OutOfMemory }
    ensures no { result ≡ false → error_kind error.now ≢ short.OutOfMemory }
{
    match error.kind() {
        ErrorKind::OutOfMemory => true,
        _ => false,
    }
}

/// The error for a failed call: std reports a lack of memory in the same way.
pub(crate) fn refusal(error: &io::Error) -> Error
    ensures kinds { (result ≡ OutOfMemory) ⊎ (result ≡ Io) }
    ensures device { result ≡ Io → error_kind error.now ≢ short.OutOfMemory }
    ensures memory { result ≡ OutOfMemory → error_kind error.now ≡ short.OutOfMemory }
{
    match error.kind() {
        ErrorKind::OutOfMemory => Error::new(ErrorType::OutOfMemory),
        _ => Error::new(ErrorType::Io),
    }
}

impl<T: TriedRead> CountedRead for Counted<T> {
    ghost remaining = { λ counted. T.remaining counted.device };

    ghost source = { λ counted. T.source counted.device };

    ghost failed = { λ counted. counted.failures };

    ghost gave_up = { λ counted. (before : T) × GaveUp T.read_fails before counted.device };

    ghost lacked = { λ counted. (before : T) × LackedMemory T.read_fails before counted.device };

    fn read(&mut self, buf: &mut [u8]) -> Result<usize> {
        'tries: for tried in 0..TRIES {
            match self.device.try_read(buf) {
                Ok(count) => return Ok(count),
                Err(error) => {
                    // Made again, and not counted; after 2^64 - 1 interruptions it has failed,
                    // since every loop has to end.
                    if !is_interrupted(&error) {
                        return Err(self.refuse(&error));
                    }
                }
            }
        }
        Err(self.fail())
    }

    fn failures(&self) -> u64 {
        self.failures
    }
}

impl<T: TriedWrite> CountedWrite for Counted<T> {
    ghost contents = { λ counted. T.contents counted.device };

    ghost is_flushed = { λ counted. T.is_flushed counted.device };

    ghost failed = { λ counted. counted.failures };

    ghost gave_up = { λ counted. (before : T) × GaveUp T.write_fails before counted.device };

    ghost lacked = { λ counted. (before : T) × LackedMemory T.write_fails before counted.device };

    fn write(&mut self, buf: &[u8]) -> Result<usize> {
        'tries: for tried in 0..TRIES {
            match self.device.try_write(buf) {
                Ok(count) => return Ok(count),
                Err(error) => {
                    if !is_interrupted(&error) {
                        return Err(self.refuse(&error));
                    }
                }
            }
        }
        Err(self.fail())
    }

    fn flush(&mut self) -> Result<()> {
        'tries: for tried in 0..TRIES {
            match self.device.try_flush() {
                Ok(()) => return Ok(()),
                Err(error) => {
                    if !is_interrupted(&error) {
                        return Err(self.refuse(&error));
                    }
                }
            }
        }
        Err(self.fail())
    }

    fn failures(&self) -> u64 {
        let Counted { failures, .. } = self;
        *failures
    }
}

/// Writes all of the bytes, and flushes. If the writer fails, it has taken a prefix of them.
pub fn write_whole<W: CountedWrite>(to: &mut W, bytes: &[u8]) -> Result<()>
    ensures whole { OnOk result (Appends (W.contents to.old) (W.contents to.new) bytes.now) }
    ensures flushed { OnOk result (W.is_flushed to.new) }
    ensures torn { OnErr result (TookBeginning (W.contents to.old) (W.contents to.new) bytes.now) }
    ensures counted { Counts (W.failed to.old) (W.failed to.new) result }
    ensures cause { IsErrOf result Io → W.gave_up to.new }
    ensures memory { IsErrOf result OutOfMemory → W.lacked to.new }
    ensures kinds { IfErr result (λ e. (e ≡ OutOfMemory) ⊎ (e ≡ Io)) }
{
    let mut rest = bytes;
    'pieces: while !rest.is_empty() {
        let count = to.write(rest)?;
        rest = &rest[count..];
    }
    to.flush()
}
