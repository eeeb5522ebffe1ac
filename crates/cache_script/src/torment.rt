//! Running a script whose requests for memory may be refused.
//!
//! A failed call does not end the run: the next line follows. After each call the program writes the reply, the
//! entry of the history, the world's counts and the length of the history, so that all of it can be compared with
//! the definitions.

use crate::entry::write_entry;
use crate::policy::OneSecond;
use crate::replay::{AGE_TIMEOUT_SECS, Limits, Stop, read_limits, read_line};
use crate::reply::{write_reply, write_stat};
use crate::script::{Line, Unread, read};
use pcache_base::moment::Moment;
use pcache_base::seed::Seed;
use pcache_evict::eviction::{EvictionManager, sharded_lru, simple_lru};
use pcache_world::world::World;
use pcache_world::world::call::{Call, FilesAct, Reply};
use std::alloc::Global;
use std::io;
use std::io::{BufRead, BufReader, BufWriter, Read, Write};
use std::time::Duration;

// How many bytes a line may have before reading it takes more memory.
const LINE: usize = 4096;

/// Runs the script that `input` has, with `MANAGER LIMIT [WATERMARK]` as arguments, where MANAGER is `simple`, or
/// `shards` for the manager in two shards, and writes what each line did.
pub(crate) fn run<R: Read + Drop, W: Write + Drop>(
    alloc: Global,
    args: &[String],
    input: R,
    output: W,
) -> Result<(), Stop> {
    let Some((name, numbers)) = args.split_first() else {
        return Err(Stop::BadArguments);
    };
    let limits = read_limits(numbers).ok_or(Stop::BadArguments)?;
    match name.as_str() {
        "simple" => run_simple(alloc, limits, input, output),
        "shards" => run_sharded(alloc, limits, input, output),
        _ => Err(Stop::BadArguments),
    }
}

fn run_simple<R: Read + Drop, W: Write + Drop>(
    alloc: Global,
    limits: Limits,
    input: R,
    output: W,
) -> Result<(), Stop> {
    let Limits { weight, watermark } = limits;
    match simple_lru::Manager::new_with_watermark(alloc, Seed::fixed(), weight, watermark) {
        Ok(manager) => run_over(alloc, manager, input, output),
        Err(_) => Err(Stop::OutOfMemory),
    }
}

fn run_sharded<R: Read + Drop, W: Write + Drop>(
    alloc: Global,
    limits: Limits,
    input: R,
    output: W,
) -> Result<(), Stop> {
    let Limits { weight, watermark } = limits;
    match sharded_lru::Manager::<2>::with_capacity_and_watermark(
        alloc,
        Seed::fixed(),
        weight,
        4,
        watermark,
    ) {
        Ok(manager) => run_over(alloc, manager, input, output),
        Err(_) => Err(Stop::OutOfMemory),
    }
}

fn run_over<M: EvictionManager, R: Read + Drop, W: Write + Drop>(
    alloc: Global,
    manager: M,
    input: R,
    output: W,
) -> Result<(), Stop> {
    let mut world: World<M, OneSecond> = World::new(
        alloc,
        Seed::fixed(),
        manager,
        Duration::from_secs(AGE_TIMEOUT_SECS),
    );
    let Ok(mut reader) = BufReader::new(alloc, input) else {
        return Err(Stop::OutOfMemory);
    };
    let Ok(mut writer) = BufWriter::new(alloc, output) else {
        return Err(Stop::OutOfMemory);
    };
    let result = run_lines(alloc, &mut world, &mut reader, &mut writer);
    let flushed = writer.flush();
    result?;
    flushed.map_err(|_| Stop::OutputFailed)
}

fn run_lines<M: EvictionManager, R: BufRead, W: Write>(
    alloc: Global,
    world: &mut World<M, OneSecond>,
    reader: &mut R,
    writer: &mut W,
) -> Result<(), Stop> {
    let Ok(mut line) = Vec::with_capacity(alloc, LINE) else {
        return Err(Stop::OutOfMemory);
    };
    let mut now = Moment::EPOCH;
    for number in 1..u64::MAX {
        line.clear();
        if !read_line(reader, &mut line)? {
            return Ok(());
        }
        let written = match read(alloc, line.as_slice(), now) {
            Ok(read) => run_line(world, read, &mut now, writer),
            Err(Unread::BadCall) => return Err(Stop::BadCall(number)),
            Err(Unread::OutOfMemory) => writeln!(writer, "not read"),
        };
        written.map_err(|_| Stop::OutputFailed)?;
    }
    Ok(())
}

// Executes a line, and writes what it did. There are no files: a save or a load fails as if the device failed.
fn run_line<M: EvictionManager, W: Write>(
    world: &mut World<M, OneSecond>,
    line: Line,
    now: &mut Moment,
    writer: &mut W,
) -> io::Result<()> {
    match line {
        Line::Skip => Ok(()),
        Line::At(moment) => {
            *now = moment;
            write_reply(writer, &Reply::Done)
        }
        Line::Stat => write_numbers(world, writer),
        Line::Save(_) => run_call(world, FilesAct::Save.call(), writer),
        Line::Load(_) => run_call(world, FilesAct::Load.call(), writer),
        Line::Call(call) => run_call(world, call, writer),
    }
}

// Makes a call, and writes what it added to the history.
fn run_call<M: EvictionManager, W: Write>(
    world: &mut World<M, OneSecond>,
    call: Call,
    writer: &mut W,
) -> io::Result<()> {
    let before = world.history().len();
    match world.step(call) {
        Ok(reply) => write_reply(writer, &reply)?,
        Err(_) => writeln!(writer, "no step")?,
    }
    for entry in world.history().get(before..).unwrap_or(&[]) {
        write_entry(writer, entry)?;
    }
    write_numbers(world, writer)
}

fn write_numbers<M: EvictionManager, W: Write>(
    world: &World<M, OneSecond>,
    writer: &mut W,
) -> io::Result<()> {
    write_stat(writer, world.stored_bytes(), world.slots(), world.totals())?;
    let entries = world.history().len();
    writeln!(writer, "entries {entries}")
}
