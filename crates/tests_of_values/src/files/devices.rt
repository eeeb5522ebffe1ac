ghost use Rattle.std.specs.Prelude.{◌≡◌};

use crate::files::parts::{AA, tell_changed, tell_list, with_aa, with_z};
use crate::files::spelled::run;
use crate::rows::{Told, number, word};
use pcache_base::error::{Error, ErrorType, Result};
use pcache_evict::eviction::simple_lru::Manager;
use pcache_files::device::{Counted, CountedRead, CountedWrite};
use pcache_files::simple_lru::{load_from, save_to};
use std::alloc::Global;
use std::io;
use std::io::{ErrorKind, Read, Write};

// The most bytes of one call.
const PIECE: usize = 7;

// Gives bytes in pieces, until it fails.
#[derive(Drop)]
struct FailingReader<'a> {
    rest: &'a [u8],
    good_calls: u64,
    failures: u64,
}

impl<'a> CountedRead for FailingReader<'a> {
    ghost failed = { λ reader. reader.failures };

    fn read(&mut self, buf: &mut [u8]) -> Result<usize> {
        if self.good_calls == 0 {
            self.failures = self.failures.wrapping_add(1);
            return Err(Error::new(ErrorType::Io));
        }
        self.good_calls -= 1;
        let count = self.rest.len().min(buf.len()).min(PIECE);
        let (front, rest) = self.rest.split_at(count);
        buf[..count].copy_from_slice(front);
        self.rest = rest;
        Ok(count)
    }

    fn failures(&self) -> u64 {
        self.failures
    }
}

// Takes bytes in pieces, until it fails.
#[derive(Drop)]
struct FailingWriter {
    taken: usize,
    is_beginning: bool,
    good_calls: u64,
    failures: u64,
}

impl CountedWrite for FailingWriter {
    ghost failed = { λ writer. writer.failures };

    fn write(&mut self, buf: &[u8]) -> Result<usize> {
        if self.good_calls == 0 {
            self.failures = self.failures.wrapping_add(1);
            return Err(Error::new(ErrorType::Io));
        }
        self.good_calls -= 1;
        let count = buf.len().min(PIECE);
        let end = self.taken.saturating_add(count);
        if AA.get(self.taken..end) != Some(&buf[..count]) {
            self.is_beginning = false;
        }
        self.taken = end;
        Ok(count)
    }

    fn flush(&mut self) -> Result<()> {
        if self.good_calls == 0 {
            self.failures = self.failures.wrapping_add(1);
            return Err(Error::new(ErrorType::Io));
        }
        self.good_calls -= 1;
        Ok(())
    }

    fn failures(&self) -> u64 {
        self.failures
    }
}

/// Makes the call of a row: a load, or a save, by a device.
pub fn tell(alloc: Global, call: &'static str, told: &mut Told) {
    match word(call, 0) {
        "reads" | "reads-counted" | "reads-interrupted" => tell_load(
            alloc,
            call,
            with_z(alloc),
            told,
        ),
        "writes" | "writes-counted" | "writes-interrupted" => {
            tell_save(alloc, call, with_aa(alloc), told);
        }
        _ => told.say("no such call"),
    }
}

fn tell_load(alloc: Global, call: &'static str, manager: Result<Manager>, told: &mut Told) {
    match manager {
        Ok(manager) => {
            let mut manager = manager;
            match word(call, 0) {
                "reads" => read(alloc, &mut manager, number(call, 1), told),
                "reads-counted" => load(
                    alloc,
                    &mut manager,
                    &mut Counted::new(AA.as_slice()),
                    told,
                ),
                _ => load(
                    alloc,
                    &mut manager,
                    &mut Counted::new(uneven(AA.as_slice())),
                    told,
                ),
            }
        }
        Err(refused) => told.refused(&refused),
    }
}

fn tell_save(alloc: Global, call: &'static str, manager: Result<Manager>, told: &mut Told) {
    match manager {
        Ok(manager) => match word(call, 0) {
            "writes" => write(alloc, &manager, number(call, 1), told),
            "writes-counted" => save(alloc, &manager, &mut Counted::new(Vec::new(alloc)), told),
            _ => save(
                alloc,
                &manager,
                &mut Counted::new(uneven(Vec::new(alloc))),
                told,
            ),
        },
        Err(refused) => told.refused(&refused),
    }
}

// A load by a reader that fails after so many good calls.
fn read(alloc: Global, manager: &mut Manager, good_calls: u64, told: &mut Told) {
    let mut reader = FailingReader {
        rest: &AA,
        good_calls,
        failures: 0,
    };
    load(alloc, manager, &mut reader, told);
}

// What a load returns and leaves, and how many calls failed.
fn load<R: CountedRead>(alloc: Global, manager: &mut Manager, reader: &mut R, told: &mut Told) {
    tell_changed(load_from(alloc, manager, reader), manager, told);
    told.say(", ");
    told.number(reader.failures());
    told.say(" failed");
}

// A save by a writer that fails after so many good calls, and how many bytes of the file it took before.
fn write(alloc: Global, manager: &Manager, good_calls: u64, told: &mut Told) {
    let mut writer = FailingWriter {
        taken: 0,
        is_beginning: true,
        good_calls,
        failures: 0,
    };
    save(alloc, manager, &mut writer, told);
    told.say(if writer.is_beginning {
        ", "
    } else {
        ", others: "
    });
    told.shown(&writer.taken);
}

fn save<W: CountedWrite>(alloc: Global, manager: &Manager, writer: &mut W, told: &mut Told) {
    told.done(save_to(alloc, manager, writer));
    tell_list(manager, told);
    told.say(", ");
    told.number(writer.failures());
    told.say(" failed");
}

const READS: &str = "
    reads 0 -> Io z1, 1 failed
    reads 1 -> Io z1, 1 failed
    reads 2 -> Io z1, 1 failed
    reads 3 -> Io z1, 1 failed
    reads 4 -> Io z1, 1 failed
    reads 5 -> Io z1, 1 failed
    reads 6 -> ok z1 \u{ac}9, 0 failed";

#[test]
fn each_read_fails_in_turn(rt: HostRuntime) {
    run(&rt, rt.alloc(), READS);
}

const WRITES: &str = "
    writes 0 -> Io \u{ac}9, 1 failed, 0
    writes 1 -> Io \u{ac}9, 1 failed, 7
    writes 2 -> Io \u{ac}9, 1 failed, 14
    writes 3 -> Io \u{ac}9, 1 failed, 21
    writes 4 -> Io \u{ac}9, 1 failed, 28
    writes 5 -> Io \u{ac}9, 1 failed, 34
    writes 6 -> ok \u{ac}9, 0 failed, 34";

#[test]
fn each_write_fails_in_turn(rt: HostRuntime) {
    run(&rt, rt.alloc(), WRITES);
}

// What was saved to a writer of std's is loaded from a reader of std's.
const OF_STD: &str = "
    writes-counted -> ok \u{ac}9, 0 failed
    reads-counted -> ok z1 \u{ac}9, 0 failed";

#[test]
fn readers_and_writers_of_std_are_counted(rt: HostRuntime) {
    run(&rt, rt.alloc(), OF_STD);
}

// Interrupts every other call, and takes and gives one byte at a time.
#[derive(Drop)]
struct Interrupted<T> {
    device: T,
    calls: u64,
}

impl<T> Interrupted<T> {
    // Counts a call, and interrupts it if its number is even.
    fn count(&mut self) -> io::Result<()> {
        let is_even = self.calls & 1 == 0;
        self.calls = self.calls.wrapping_add(1);
        if is_even {
            return Err(io::Error::from(ErrorKind::Interrupted));
        }
        Ok(())
    }
}

impl<T: Read> Read for Interrupted<T> {
    fn read(&mut self, buf: &mut [u8]) -> io::Result<usize> {
        self.count()?;
        let room = buf.len().min(1);
        self.device.read(&mut buf[..room])
    }
}

impl<T: Write> Write for Interrupted<T> {
    fn write(&mut self, buf: &[u8]) -> io::Result<usize> {
        self.count()?;
        self.device.write(&buf[..buf.len().min(1)])
    }

    fn flush(&mut self) -> io::Result<()> {
        self.count()?;
        self.device.flush()
    }
}

fn uneven<T>(device: T) -> Interrupted<T> {
    Interrupted { device, calls: 0 }
}

// Interrupted calls are made again, and none of them counts.
const INTERRUPTED: &str = "
    writes-interrupted -> ok \u{ac}9, 0 failed
    reads-interrupted -> ok z1 \u{ac}9, 0 failed";

#[test]
fn interrupted_calls_are_made_again(rt: HostRuntime) {
    run(&rt, rt.alloc(), INTERRUPTED);
}
