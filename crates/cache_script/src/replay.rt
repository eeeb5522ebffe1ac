//! Running a script.
ghost use Rattle.std.specs.Prelude.{◌≡◌, ◌≤◌};

use crate::policy::OneSecond;
use crate::reply::{write_reply, write_stat};
use crate::script::{Line, Unread, read};
use crate::{script, torment};
use pcache_base::moment::Moment;
use pcache_base::seed::Seed;
use pcache_evict::eviction::simple_lru::Manager;
use pcache_world::world::World;
use pcache_world::world::call::Reply;
use std::alloc::Global;
use std::fs::Files;
use std::io;
use std::io::{BufRead, BufReader, BufWriter, Read, Write};
use std::time::Duration;

/// The age in seconds at which a permit is too old.
pub(crate) const AGE_TIMEOUT_SECS: u64 = 10;

/// Why a run ended early.
#[derive(Debug, Drop)]
pub(crate) enum Stop {
    BadArguments,
    BadCall(u64),
    OutOfMemory,
    InputFailed,
    OutputFailed,
}

impl Stop {
    /// Writes what was wrong, as one line.
    pub(crate) fn tell<E: Write>(&self, errors: &mut E) {
        let _ = match self {
            Stop::BadArguments => writeln!(errors, "bad arguments"),
            Stop::BadCall(line) => writeln!(errors, "line {line}: bad call"),
            Stop::OutOfMemory => writeln!(errors, "out of memory"),
            Stop::InputFailed => writeln!(errors, "input failed"),
            Stop::OutputFailed => writeln!(errors, "output failed"),
        };
    }
}

/// A manager's limits, as the arguments give them.
#[derive(Clone, Copy)]
pub(crate) struct Limits {
    /// The limit on weight.
    pub weight: usize,
    /// The limit on the number of entries, if there is one.
    pub watermark: Option<usize>,
}

/// Runs the script that `input` has, with `LIMIT [WATERMARK]` as arguments, and writes one reply for
/// each line. Managers are saved in `files` and loaded from there. With `torment MANAGER LIMIT [WATERMARK]`
/// it goes on after a call that failed for memory, and writes all that each call did. Returns the
/// status: 0, or 1 after a line to `errors` that says what was wrong.
pub fn replay<F: Files, R: Read + Drop, W: Write + Drop, E: Write>(
    alloc: Global,
    args: &[String],
    files: &F,
    input: R,
    output: W,
    errors: &mut E,
) -> u8
    ensures { result ≤ 1 }
{
    let ran = match args {
        [first, others @ ..] if first.as_str() == "torment" => {
            torment::run(alloc, others, input, output)
        }
        _ => run(alloc, args, files, input, output),
    };
    let Err(stop) = ran else {
        return 0;
    };
    stop.tell(errors);
    1
}

/// Writes to `errors` why the arguments could not be read at all, by the kind of the failure: `out of memory`,
/// or `bad arguments` if one is not UTF-8. Returns the status, 1.
pub fn refuse_arguments<E: Write>(kind: io::ErrorKind, errors: &mut E) -> u8
    ensures { result ≡ 1 }
{
    let stop = if kind == io::ErrorKind::OutOfMemory {
        Stop::OutOfMemory
    } else {
        Stop::BadArguments
    };
    stop.tell(errors);
    1
}

fn run<F: Files, R: Read + Drop, W: Write + Drop>(
    alloc: Global,
    args: &[String],
    files: &F,
    input: R,
    output: W,
) -> Result<(), Stop> {
    let limits = read_limits(args).ok_or(Stop::BadArguments)?;
    // A replay has to repeat exactly, so the seed is not drawn.
    let seed = Seed::fixed();
    let Ok(manager) = Manager::new_with_watermark(alloc, seed, limits.weight, limits.watermark)
    else {
        return Err(Stop::OutOfMemory);
    };
    let Ok(mut reader) = BufReader::new(alloc, input) else {
        return Err(Stop::OutOfMemory);
    };
    let Ok(mut writer) = BufWriter::new(alloc, output) else {
        return Err(Stop::OutOfMemory);
    };
    let mut world: World<Manager, OneSecond> = World::new(
        alloc,
        seed,
        manager,
        Duration::from_secs(AGE_TIMEOUT_SECS),
    );
    let result = run_lines(alloc, files, &mut world, &mut reader, &mut writer);
    // The replies before a bad line are printed first.
    let flushed = writer.flush();
    result?;
    flushed.map_err(|_| Stop::OutputFailed)
}

fn run_lines<F: Files, R: BufRead, W: Write>(
    alloc: Global,
    files: &F,
    world: &mut World<Manager, OneSecond>,
    reader: &mut R,
    writer: &mut W,
) -> Result<(), Stop> {
    let mut line = Vec::new(alloc);
    let mut now = Moment::EPOCH;
    for number in 1..u64::MAX {
        line.clear();
        if !read_line(reader, &mut line)? {
            return Ok(());
        }
        let read = match read(alloc, line.as_slice(), now) {
            Ok(read) => read,
            Err(Unread::BadCall) => return Err(Stop::BadCall(number)),
            Err(Unread::OutOfMemory) => return Err(Stop::OutOfMemory),
        };
        run_line(files, world, read, number, &mut now, writer)?;
    }
    Ok(())
}

// Executes the line with this number, and writes the reply.
fn run_line<F: Files, W: Write>(
    files: &F,
    world: &mut World<Manager, OneSecond>,
    line: Line,
    number: u64,
    now: &mut Moment,
    writer: &mut W,
) -> Result<(), Stop> {
    let written = match line {
        Line::Skip => Ok(()),
        Line::At(moment) => {
            *now = moment;
            write_reply(writer, &Reply::Done)
        }
        Line::Stat => write_stat(writer, world.stored_bytes(), world.slots(), world.totals()),
        Line::Save(dir) => answer(writer, world.save(files, dir.as_str(), suffix_of(number)))?,
        Line::Load(dir) => answer(writer, world.load(files, dir.as_str()))?,
        Line::Call(call) => answer(writer, world.step(call))?,
    };
    written.map_err(|_| Stop::OutputFailed)
}

// Writes the reply of a call. If there is no memory for its entry, the run ends.
fn answer<W: Write>(
    writer: &mut W,
    made: pcache_base::error::Result<Reply>,
) -> Result<io::Result<()>, Stop> {
    match made {
        Ok(reply) => Ok(write_reply(writer, &reply)),
        Err(_) => Err(Stop::OutOfMemory),
    }
}

// The suffix of a saved file's temporary name: its line's number modulo 2^32.
fn suffix_of(number: u64) -> u32 {
    (number % (1 << 32)) as u32
}

/// Reads a line without its end, and returns whether there was one.
pub(crate) fn read_line<R: BufRead>(reader: &mut R, line: &mut Vec<u8>) -> Result<bool, Stop> {
    let mut is_there = false;
    for _ in 0..u64::MAX {
        let (taken, is_whole) = match reader.fill_buf() {
            Ok(buffer) if buffer.is_empty() => return Ok(is_there),
            Ok(buffer) => match buffer.iter().position(|byte| *byte == b'\n') {
                Some(end) => (extend(line, &buffer[..end])?.saturating_add(1), true),
                None => (extend(line, buffer)?, false),
            },
            Err(failed) if failed.kind() == std::io::ErrorKind::Interrupted => continue,
            Err(_) => return Err(Stop::InputFailed),
        };
        is_there = true;
        reader.consume(taken);
        if is_whole {
            return Ok(true);
        }
    }
    Ok(is_there)
}

fn extend(line: &mut Vec<u8>, bytes: &[u8]) -> Result<usize, Stop> {
    match line.extend_from_slice(bytes) {
        Ok(()) => Ok(bytes.len()),
        Err(_) => Err(Stop::OutOfMemory),
    }
}

/// One or two decimal numbers that fit `usize`.
pub(crate) fn read_limits(args: &[String]) -> Option<Limits> {
    match args {
        [weight] => Some(Limits {
            weight: number(weight)?,
            watermark: None,
        }),
        [weight, watermark] => Some(Limits {
            weight: number(weight)?,
            watermark: Some(number(watermark)?),
        }),
        _ => None,
    }
}

// A decimal number, in the form of scripts.
fn number(word: &String) -> Option<usize> {
    match script::number(word.as_bytes()) {
        Ok(number) => usize::try_from(number).ok(),
        Err(_) => None,
    }
}
