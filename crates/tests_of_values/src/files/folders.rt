//! Folders: files that are saved and loaded by their names, also where a call on files fails.
use crate::files::failing::Failing;
use crate::files::parts::{AA, aa, letter, one_shard, tell_list, with_aa, with_z};
use crate::rows::{Desk, Told, number, play, rest, word};
use pcache_base::error::Result;
use pcache_base::seed::Seed;
use pcache_evict::eviction::sharded_lru;
use pcache_files::saved::SavedManager;
use std::alloc::Global;
use std::fs;
use std::fs::Files;
use std::io::ErrorKind;
use std::process::Abort;
use std::sync::atomic::AtomicU64;

// The files that calls are made on.
#[derive(Drop)]
struct Folders<'a> {
    alloc: Global,
    files: &'a HostRuntime,
}

impl<'a> Desk for Folders<'a> {
    fn tell(&mut self, call: &'static str, told: &mut Told) {
        match word(call, 0) {
            "after" => tell_failing(self.alloc, self.files, ErrorKind::Other, call, told),
            "without-memory" => {
                tell_failing(self.alloc, self.files, ErrorKind::OutOfMemory, call, told);
            }
            _ => tell(self.alloc, self.files, call, told),
        }
    }
}

// The call after the number, on files of which one call fails after so many good ones.
fn tell_failing(
    alloc: Global,
    files: &HostRuntime,
    kind: ErrorKind,
    call: &'static str,
    told: &mut Told,
) {
    let left = AtomicU64::new(number(call, 1));
    tell_of_managers(
        alloc,
        &Failing::with(files, &left, kind),
        rest(rest(call)),
        told,
    );
}

fn tell(alloc: Global, files: &HostRuntime, call: &'static str, told: &mut Told) {
    let path = word(call, 1);
    match word(call, 0) {
        "gone" => {
            let _ = fs::remove_dir_all(files, path);
            told.say("ok");
        }
        "removes" => made(fs::remove_dir_all(files, path).is_ok(), told),
        "removes-file" => made(fs::remove_file(files, path).is_ok(), told),
        "makes" => made(fs::create_dir_all(files, path).is_ok(), told),
        "writes" => made(fs::write(files, path, word(call, 2)).is_ok(), told),
        "writes-aa" => made(fs::write(files, path, &AA).is_ok(), told),
        "writes-torn" => made(fs::write(files, path, &AA[..33]).is_ok(), told),
        "takes" => made(take_suffixes(alloc, files), told),
        "is" => tell_there(files, path, told),
        "has-aa" => told.yes_or_no(has(files, path, &AA)),
        "has" => told.yes_or_no(has(files, path, word(call, 2).as_bytes())),
        _ => tell_of_managers(alloc, files, call, told),
    }
}

fn made(is_made: bool, told: &mut Told) {
    told.say(if is_made { "ok" } else { "wrong" });
}

fn tell_there(files: &HostRuntime, path: &str, told: &mut Told) {
    match fs::exists(files, path) {
        Ok(is_there) => told.yes_or_no(is_there),
        Err(_) => told.say("wrong"),
    }
}

// Whether a file has these bytes.
fn has(files: &HostRuntime, path: &str, wanted: &[u8]) -> bool {
    match fs::read(files, path) {
        Ok(bytes) => bytes.as_slice() == wanted,
        Err(_) => false,
    }
}

// Makes the file of each suffix from 1 to 64.
fn take_suffixes(alloc: Global, files: &HostRuntime) -> bool {
    let mut are_made = true;
    for suffix in 1..65u32 {
        are_made &= take_suffix(alloc, files, suffix);
    }
    are_made
}

fn take_suffix(alloc: Global, files: &HostRuntime, suffix: u32) -> bool {
    match format!(in alloc; "all_taken/simple_lru.data.{suffix:08x}.tmp") {
        Ok(path) => fs::write(files, path.as_str(), b"x").is_ok(),
        Err(_refused) => false,
    }
}

fn tell_of_managers<R: Files>(alloc: Global, files: &R, call: &'static str, told: &mut Told) {
    match word(call, 0) {
        "saves-aa" => save(alloc, files, with_aa(alloc), call, told),
        "saves-z" => save(alloc, files, with_z(alloc), call, told),
        "saves-shards" => save(alloc, files, two_shards(alloc), call, told),
        "saves-none" => save(alloc, files, no_entries(alloc), call, told),
        "saves-shard" => save(alloc, files, shard_of_aa(alloc), call, told),
        "loads-z" => load(alloc, files, with_z(alloc), call, told),
        "loads-shards" => load(alloc, files, no_entries(alloc), call, told),
        _ => told.say("no such call"),
    }
}

// Saves a manager in a folder.
fn save<R: Files, M: SavedManager>(
    alloc: Global,
    files: &R,
    manager: Result<M>,
    call: &'static str,
    told: &mut Told,
) {
    match manager {
        Ok(manager) => {
            let suffix = (number(call, 2) & 0xFFFF_FFFF) as u32;
            told.done(manager.save(alloc, files, word(call, 1), suffix));
        }
        Err(refused) => told.refused(&refused),
    }
}

// Loads a folder into a manager, and writes how many files were skipped, or the kind of the error, and the entries.
fn load<R: Files, M: SavedManager>(
    alloc: Global,
    files: &R,
    manager: Result<M>,
    call: &'static str,
    told: &mut Told,
) {
    match manager {
        Ok(manager) => {
            let mut manager = manager;
            tell_loaded(manager.load(alloc, files, word(call, 1)), told);
            tell_list(&manager, told);
        }
        Err(refused) => told.refused(&refused),
    }
}

fn tell_loaded(loaded: Result<usize>, told: &mut Told) {
    match loaded {
        Ok(skipped) => told.shown(&skipped),
        Err(refused) => told.refused(&refused),
    }
}

// Two shards that hold nothing.
fn no_entries(alloc: Global) -> Result<sharded_lru::Manager<2>> {
    Ok(sharded_lru::Manager::<2>::with_capacity(alloc, Seed::fixed(), 9, 1)?)
}

// Two shards that hold `a`, in the second, and `b`, in the first.
fn two_shards(alloc: Global) -> Result<sharded_lru::Manager<2>> {
    let mut manager = no_entries(alloc)?;
    let a = letter(alloc, b'a', None)?;
    let b = letter(alloc, b'b', None)?;
    manager.load_entries(vec![in alloc; (a, 1), (b, 2)]?)?;
    Ok(manager)
}

// One shard that holds the entry of `AA`.
fn shard_of_aa(alloc: Global) -> Result<sharded_lru::Manager<1>> {
    one_shard(alloc, 9, aa(alloc)?, 9)
}

fn run(rt: &impl Abort, files: &HostRuntime, alloc: Global, rows: &'static str) {
    play(rt, alloc, &mut Folders { alloc, files }, rows);
}

const A_LIST: &str = "
    gone simple
    loads-z simple/inner -> Io z1
    saves-aa simple/inner 42
    has-aa simple/inner/simple_lru.data -> yes
    is simple/inner/simple_lru.data.0000002a.tmp -> no
    loads-z simple/inner -> 0 z1 \u{ac}9
    removes simple";

#[test]
fn a_list_in_a_folder(rt: HostRuntime) {
    run(&rt, &rt, rt.alloc(), A_LIST);
}

// An existing file with a temporary name is never written to: the next suffix is used.
const TAKEN: &str = "
    gone taken
    makes taken/simple_lru.data.ffffffff.tmp
    writes taken/simple_lru.data.00000000.tmp another's
    saves-aa taken 4294967295
    has-aa taken/simple_lru.data -> yes
    has taken/simple_lru.data.00000000.tmp another's -> yes
    is taken/simple_lru.data.00000001.tmp -> no
    removes taken";

#[test]
fn a_temporary_name_that_is_taken(rt: HostRuntime) {
    run(&rt, &rt, rt.alloc(), TAKEN);
}

// After 64 suffixes a save fails, and the older file stays.
const ALL_TAKEN: &str = "
    gone all_taken
    saves-aa all_taken 1
    takes
    saves-z all_taken 1 -> Io
    has-aa all_taken/simple_lru.data -> yes
    saves-z all_taken 2
    has-aa all_taken/simple_lru.data -> no
    removes all_taken";

#[test]
fn all_temporary_names_are_taken(rt: HostRuntime) {
    run(&rt, &rt, rt.alloc(), ALL_TAKEN);
}

// No call succeeds on a folder without the file, or where there is a file in place of the folder.
const BLOCKED: &str = "
    gone blocked
    makes blocked/empty
    writes blocked/file x
    loads-z blocked/empty -> Io z1
    loads-z blocked/file -> Io z1
    saves-z blocked/file 1 -> Io
    saves-z blocked/file/inner 1 -> Io
    has blocked/file x -> yes
    removes blocked";

#[test]
fn folders_that_cannot_be_opened(rt: HostRuntime) {
    run(&rt, &rt, rt.alloc(), BLOCKED);
}

// A save opens, writes, flushes and renames; a load opens and reads, the last time nothing.
const TURNS: &str = "
    gone turns
    saves-aa turns 1
    after 0 saves-z turns 1 -> Io
    has-aa turns/simple_lru.data -> yes
    is turns/simple_lru.data.00000001.tmp -> no
    after 1 saves-z turns 1 -> Io
    has-aa turns/simple_lru.data -> yes
    is turns/simple_lru.data.00000001.tmp -> no
    after 2 saves-z turns 1 -> Io
    has-aa turns/simple_lru.data -> yes
    is turns/simple_lru.data.00000001.tmp -> no
    after 3 saves-z turns 1 -> Io
    has-aa turns/simple_lru.data -> yes
    is turns/simple_lru.data.00000001.tmp -> no
    after 0 loads-z turns -> Io z1
    after 1 loads-z turns -> Io z1
    after 2 loads-z turns -> Io z1
    after 3 loads-z turns -> 0 z1 \u{ac}9
    after 4 saves-z turns 1
    has-aa turns/simple_lru.data -> no
    removes turns";

#[test]
fn each_call_on_files_fails_in_turn(rt: HostRuntime) {
    run(&rt, &rt, rt.alloc(), TURNS);
}

const SHARDS: &str = "
    gone shards
    saves-shards shards 7
    loads-shards shards -> 0 b2 a1
    # a torn file is skipped
    writes-torn shards/lru.data.1
    loads-shards shards -> 1 b2
    removes shards";

#[test]
fn shards_in_a_folder(rt: HostRuntime) {
    run(&rt, &rt, rt.alloc(), SHARDS);
}

// A missing file is skipped, and so is each file of a missing folder.
const MISSING: &str = "
    gone missing_shards
    saves-shards missing_shards 7
    removes-file missing_shards/lru.data.1
    loads-shards missing_shards -> 1 b2
    removes missing_shards
    loads-shards missing_shards -> 2";

#[test]
fn shards_that_are_not_there(rt: HostRuntime) {
    run(&rt, &rt, rt.alloc(), MISSING);
}

// What a shard held is gone once it is saved empty.
const EMPTY: &str = "
    gone empty_shards
    saves-shards empty_shards 7
    saves-none empty_shards 7
    loads-shards empty_shards -> 0
    removes empty_shards";

#[test]
fn shards_that_became_empty(rt: HostRuntime) {
    run(&rt, &rt, rt.alloc(), EMPTY);
}

// A lack of memory in a call on files is no file that is missing, and no device that failed. Shards that are loaded stay
// empty.
const NO_MEMORY: &str = "
    gone memory_shards
    saves-shards memory_shards 7
    without-memory 0 loads-shards memory_shards -> OutOfMemory
    without-memory 1 loads-shards memory_shards -> OutOfMemory
    without-memory 2 loads-shards memory_shards -> OutOfMemory
    without-memory 3 loads-shards memory_shards -> OutOfMemory
    without-memory 4 loads-shards memory_shards -> OutOfMemory
    without-memory 5 loads-shards memory_shards -> OutOfMemory
    without-memory 0 saves-shards memory_shards 8 -> OutOfMemory
    without-memory 1 saves-shards memory_shards 8 -> OutOfMemory
    without-memory 2 saves-shards memory_shards 8 -> OutOfMemory
    without-memory 3 saves-shards memory_shards 8 -> OutOfMemory
    without-memory 4 saves-shards memory_shards 8 -> OutOfMemory
    without-memory 5 saves-shards memory_shards 8 -> OutOfMemory
    without-memory 6 saves-shards memory_shards 8 -> OutOfMemory
    without-memory 7 saves-shards memory_shards 8 -> OutOfMemory
    removes memory_shards";

#[test]
fn shards_lack_memory_in_turn(rt: HostRuntime) {
    run(&rt, &rt, rt.alloc(), NO_MEMORY);
}

// A save opens, writes, flushes and renames for each shard. A shard whose save failed keeps its older file; those
// before it are saved.
const SHARD_TURNS: &str = "
    gone shard_turns
    makes shard_turns
    writes-aa shard_turns/lru.data.1
    after 0 saves-shards shard_turns 1 -> Io
    has-aa shard_turns/lru.data.1 -> yes
    is shard_turns/lru.data.0.00000001.tmp -> no
    is shard_turns/lru.data.1.00000001.tmp -> no
    is shard_turns/lru.data.0 -> no
    after 1 saves-shards shard_turns 1 -> Io
    has-aa shard_turns/lru.data.1 -> yes
    is shard_turns/lru.data.0.00000001.tmp -> no
    is shard_turns/lru.data.1.00000001.tmp -> no
    is shard_turns/lru.data.0 -> no
    after 2 saves-shards shard_turns 1 -> Io
    has-aa shard_turns/lru.data.1 -> yes
    is shard_turns/lru.data.0.00000001.tmp -> no
    is shard_turns/lru.data.1.00000001.tmp -> no
    is shard_turns/lru.data.0 -> no
    after 3 saves-shards shard_turns 1 -> Io
    has-aa shard_turns/lru.data.1 -> yes
    is shard_turns/lru.data.0.00000001.tmp -> no
    is shard_turns/lru.data.1.00000001.tmp -> no
    is shard_turns/lru.data.0 -> no
    after 4 saves-shards shard_turns 1 -> Io
    has-aa shard_turns/lru.data.1 -> yes
    is shard_turns/lru.data.0.00000001.tmp -> no
    is shard_turns/lru.data.1.00000001.tmp -> no
    is shard_turns/lru.data.0 -> yes
    after 5 saves-shards shard_turns 1 -> Io
    has-aa shard_turns/lru.data.1 -> yes
    is shard_turns/lru.data.0.00000001.tmp -> no
    is shard_turns/lru.data.1.00000001.tmp -> no
    is shard_turns/lru.data.0 -> yes
    after 6 saves-shards shard_turns 1 -> Io
    has-aa shard_turns/lru.data.1 -> yes
    is shard_turns/lru.data.0.00000001.tmp -> no
    is shard_turns/lru.data.1.00000001.tmp -> no
    is shard_turns/lru.data.0 -> yes
    after 7 saves-shards shard_turns 1 -> Io
    has-aa shard_turns/lru.data.1 -> yes
    is shard_turns/lru.data.0.00000001.tmp -> no
    is shard_turns/lru.data.1.00000001.tmp -> no
    is shard_turns/lru.data.0 -> yes
    after 8 saves-shards shard_turns 1
    has-aa shard_turns/lru.data.1 -> no
    removes shard_turns";

#[test]
fn each_call_on_files_of_shards_fails_in_turn(rt: HostRuntime) {
    run(&rt, &rt, rt.alloc(), SHARD_TURNS);
}

// A load opens and reads each file, the last time nothing; one of which a call fails is skipped, and the other is loaded.
const SHARD_READS: &str = "
    gone shard_reads
    saves-shards shard_reads 7
    after 0 loads-shards shard_reads -> 1 a1
    after 1 loads-shards shard_reads -> 1 a1
    after 2 loads-shards shard_reads -> 1 a1
    after 3 loads-shards shard_reads -> 1 b2
    after 4 loads-shards shard_reads -> 1 b2
    after 5 loads-shards shard_reads -> 1 b2
    after 6 loads-shards shard_reads -> 0 b2 a1
    removes shard_reads";

#[test]
fn each_read_of_shards_fails_in_turn(rt: HostRuntime) {
    run(&rt, &rt, rt.alloc(), SHARD_READS);
}

const ONE_SHARD: &str = "
    gone shard
    saves-shard shard 7
    has-aa shard/lru.data.0 -> yes
    removes shard";

#[test]
fn one_shard_has_the_same_file(rt: HostRuntime) {
    run(&rt, &rt, rt.alloc(), ONE_SHARD);
}
