//! The bytes of files: what is read of them, and what is written.
use crate::files::parts::{AA, aa, letter, one_shard, tell_changed, tell_list, with_aa, with_z};
use crate::files::{devices, endless};
use crate::rows::{Desk, Told, number, play, rest, unhex, word};
use pcache_base::error::Result;
use pcache_base::key::CompactCacheKey;
use pcache_base::moment::Moment;
use pcache_base::seed::Seed;
use pcache_base::text::Text;
use pcache_evict::eviction::{CacheEntryId, CacheEntryKey, sharded_lru, simple_lru};
use pcache_files::sharded_lru::{deserialize_shard, serialize_shard};
use pcache_files::simple_lru::{deserialize, serialize};
use std::alloc::{AllocError, Global};
use std::process::Abort;

// The bytes of a call.
#[derive(Drop)]
struct Given {
    alloc: Global,
    bytes: Vec<u8>,
}

impl Desk for Given {
    fn tell(&mut self, call: &'static str, told: &mut Told) {
        let Given { alloc, bytes } = self;
        match word(call, 0) {
            "one" | "both" | "holds-aa" | "holds-varied" => {
                if unhex(rest(call), bytes) {
                    tell_loaded(*alloc, word(call, 0), bytes.as_slice(), told);
                }
            }
            "states" => {
                if state(bytes, stated(call), nodes(call)) {
                    load_long(*alloc, bytes.as_slice(), told);
                }
            }
            "endless" => {
                if unhex(rest(rest(rest(call))), bytes) {
                    endless::tell(*alloc, bytes.as_slice(), call, told);
                }
            }
            _ => tell_made(*alloc, call, told),
        }
    }
}

fn tell_loaded(alloc: Global, verb: &str, bytes: &[u8], told: &mut Told) {
    match verb {
        "one" => load(alloc, with_z(alloc), bytes, told),
        "both" => load_both(alloc, bytes, told),
        "holds-aa" => bring(alloc, aa(alloc), bytes, told),
        _ => bring(alloc, varied(alloc), bytes, told),
    }
}

fn tell_made(alloc: Global, call: &'static str, told: &mut Told) {
    match word(call, 0) {
        "writes-aa" => write(alloc, with_aa(alloc), told),
        "writes-numbered" => write(alloc, numbered(alloc), told),
        "writes-varied" => write(alloc, with_varied(alloc), told),
        "writes-shard" => write_shard(alloc, aa(alloc), told),
        "admits-after" => admit_after(
            alloc,
            simple_lru::Manager::new(alloc, Seed::fixed(), 4),
            told,
        ),
        _ => devices::tell(alloc, call, told),
    }
}

// Loads bytes into a manager, and writes what that returns and the list that it leaves.
fn load(alloc: Global, manager: Result<simple_lru::Manager>, bytes: &[u8], told: &mut Told) {
    match manager {
        Ok(manager) => {
            let mut manager = manager;
            let loaded = deserialize(alloc, &mut manager, bytes);
            tell_changed(loaded, &manager, told);
        }
        Err(refused) => told.refused(&refused),
    }
}

fn load_shard(
    alloc: Global,
    manager: Result<sharded_lru::Manager<1>>,
    bytes: &[u8],
    told: &mut Told,
) {
    match manager {
        Ok(manager) => {
            let mut manager = manager;
            let loaded = deserialize_shard(alloc, &mut manager, bytes);
            tell_changed(loaded, &manager, told);
        }
        Err(refused) => told.refused(&refused),
    }
}

// Loads bytes into a manager with `z`, and into a shard with `z`.
fn load_both(alloc: Global, bytes: &[u8], told: &mut Told) {
    load(alloc, with_z(alloc), bytes, told);
    told.say(", ");
    load_shard(alloc, shard_with_z(alloc), bytes, told);
}

fn shard_with_z(alloc: Global) -> Result<sharded_lru::Manager<1>> {
    one_shard(alloc, 4, letter(alloc, b'z', None)?, 1)
}

// The weight of a manager that was empty and loaded these bytes, if it holds the entry.
fn bring(alloc: Global, entry: Result<CacheEntryKey>, bytes: &[u8], told: &mut Told) {
    match entry {
        Ok(entry) => bring_entry(
            alloc,
            simple_lru::Manager::new(alloc, Seed::fixed(), 4),
            &entry,
            bytes,
            told,
        ),
        Err(refused) => told.refused(&refused),
    }
}

fn bring_entry(
    alloc: Global,
    manager: Result<simple_lru::Manager, AllocError>,
    entry: &CacheEntryKey,
    bytes: &[u8],
    told: &mut Told,
) {
    match manager {
        Ok(manager) => {
            let mut manager = manager;
            told.done(deserialize(alloc, &mut manager, bytes));
            told.say(if manager.peek(entry) { " " } else { " not" });
            told.shown(&manager.total_size());
        }
        Err(refused) => told.refused(&refused.into()),
    }
}

fn write(alloc: Global, manager: Result<simple_lru::Manager>, told: &mut Told) {
    match manager {
        Ok(manager) => tell_bytes(serialize(alloc, &manager), told),
        Err(refused) => told.refused(&refused),
    }
}

fn write_shard(alloc: Global, entry: Result<CacheEntryKey>, told: &mut Told) {
    match entry {
        Ok(entry) => write_one_shard(alloc, one_shard(alloc, 9, entry, 9), told),
        Err(refused) => told.refused(&refused),
    }
}

fn write_one_shard(alloc: Global, shard: Result<sharded_lru::Manager<1>>, told: &mut Told) {
    match shard {
        Ok(shard) => tell_bytes(serialize_shard(alloc, &shard, 0), told),
        Err(refused) => told.refused(&refused),
    }
}

fn tell_bytes(bytes: Result<Vec<u8>>, told: &mut Told) {
    match bytes {
        Ok(bytes) => told.hex(bytes.as_slice()),
        Err(refused) => told.refused(&refused),
    }
}

// Two entries, the first with a number.
fn numbered(alloc: Global) -> Result<simple_lru::Manager> {
    let mut manager = simple_lru::Manager::new(alloc, Seed::fixed(), 9)?;
    manager.load_entry(letter(alloc, b'a', Some(CacheEntryId::new(255)))?, 3)?;
    manager.load_entry(letter(alloc, b'b', None)?, 2)?;
    Ok(manager)
}

// An entry `a` with a variance of which each byte is 200.
fn varied(alloc: Global) -> Result<CacheEntryKey> {
    let key = CompactCacheKey {
        primary: [b'a'; 16],
        variance: Some([200; 16]),
        user_tag: Text::new(String::from_str(alloc, "1")?),
    };
    Ok(CacheEntryKey::key_only(key))
}

// A manager that holds that entry, of weight 300.
fn with_varied(alloc: Global) -> Result<simple_lru::Manager> {
    let mut manager = simple_lru::Manager::new(alloc, Seed::fixed(), 9)?;
    manager.load_entry(varied(alloc)?, 300)?;
    Ok(manager)
}

fn stated(call: &'static str) -> u32 {
    (number(call, 1) & 0xFFFF_FFFF) as u32
}

fn nodes(call: &'static str) -> u16 {
    (number(call, 2) & 0xFFFF) as u16
}

fn add(out: &mut Vec<u8>, bytes: &[u8]) -> bool {
    out.extend_from_slice(bytes).is_ok()
}

// The bytes of a file that states so many nodes, and has `nodes` of them. Each has a number and the
// weight 1.
fn state(bytes: &mut Vec<u8>, stated: u32, nodes: u16) -> bool {
    bytes.clear();
    let mut is_whole = add(bytes, &[0xDD]) && add(bytes, &stated.to_be_bytes());
    for number in 0..nodes {
        is_whole &= state_one(bytes, number);
    }
    is_whole
}

fn state_one(bytes: &mut Vec<u8>, number: u16) -> bool {
    let [high, low] = number.to_be_bytes();
    add(bytes, &[0x92, 0x92, 0x93, 0xDC, 0x00, 0x10])
        && add(bytes, &[b'a'; 16])
        && add(bytes, &[0xC0, 0xA1, b'1', 0xCD, high, low, 1])
}

// Loads such a file into an empty manager, and writes how many entries that leaves, and their weight.
fn load_long(alloc: Global, bytes: &[u8], told: &mut Told) {
    match simple_lru::Manager::new(alloc, Seed::fixed(), 4) {
        Ok(manager) => {
            let mut manager = manager;
            told.done(deserialize(alloc, &mut manager, bytes));
            tell_totals(&manager, told);
        }
        Err(refused) => told.refused(&refused.into()),
    }
}

fn tell_totals(manager: &simple_lru::Manager, told: &mut Told) {
    told.say(" ");
    told.shown(&manager.total_items());
    told.say(" of ");
    told.shown(&manager.total_size());
}

// Loads `AA` over the limit, and writes how many entries that evicts; then it admits `b`, and writes what that evicts,
// and the list.
fn admit_after(alloc: Global, manager: Result<simple_lru::Manager, AllocError>, told: &mut Told) {
    match manager {
        Ok(manager) => {
            let mut manager = manager;
            told.done(deserialize(alloc, &mut manager, &AA));
            tell_totals(&manager, told);
            told.say(", ");
            told.shown(&manager.evicted_items());
            told.say(" gone, ");
            admit(&mut manager, letter(alloc, b'b', None), told);
            tell_list(&manager, told);
        }
        Err(refused) => told.refused(&refused.into()),
    }
}

fn admit(manager: &mut simple_lru::Manager, entry: Result<CacheEntryKey>, told: &mut Told) {
    match entry {
        Ok(entry) => tell_gone(manager.admit(entry, 1, Moment::EPOCH), told),
        Err(refused) => told.refused(&refused),
    }
}

fn tell_gone(gone: Result<Vec<CacheEntryKey>, AllocError>, told: &mut Told) {
    match gone {
        Ok(gone) => {
            for entry in gone.as_slice() {
                told.shown(entry);
                told.say(";");
            }
        }
        Err(refused) => told.refused(&refused.into()),
    }
}

/// Plays rows of files.
pub fn run(rt: &impl Abort, alloc: Global, rows: &'static str) {
    let bytes = Vec::new(alloc);
    play(rt, alloc, &mut Given { alloc, bytes }, rows);
}

const ONE_ENTRY: &str = "
    writes-aa -> 919293dc0010ccac10ccf2ccaeccf11772cc9fcc8dccad056b3059cceb7ec0a13109
    writes-shard -> 919293dc0010ccac10ccf2ccaeccf11772cc9fcc8dccad056b3059cceb7ec0a13109
    one 919293dc0010ccac10ccf2ccaeccf11772cc9fcc8dccad056b3059cceb7ec0a13109 -> ok z1 \u{ac}9
    holds-aa 919293dc0010ccac10ccf2ccaeccf11772cc9fcc8dccad056b3059cceb7ec0a13109 -> ok 9";

#[test]
fn one_entry_both_ways(rt: HostRuntime) {
    run(&rt, rt.alloc(), ONE_ENTRY);
}

const BEGINNINGS: &str = "
    both -> InternalError z1, InternalError z1
    both 91 -> InternalError z1, InternalError z1
    both 9192 -> InternalError z1, InternalError z1
    both 919293 -> InternalError z1, InternalError z1
    both 919293dc -> InternalError z1, InternalError z1
    both 919293dc00 -> InternalError z1, InternalError z1
    both 919293dc0010 -> InternalError z1, InternalError z1
    both 919293dc0010cc -> InternalError z1, InternalError z1
    both 919293dc0010ccac -> InternalError z1, InternalError z1
    both 919293dc0010ccac10 -> InternalError z1, InternalError z1
    both 919293dc0010ccac10cc -> InternalError z1, InternalError z1
    both 919293dc0010ccac10ccf2 -> InternalError z1, InternalError z1
    both 919293dc0010ccac10ccf2cc -> InternalError z1, InternalError z1
    both 919293dc0010ccac10ccf2ccae -> InternalError z1, InternalError z1
    both 919293dc0010ccac10ccf2ccaecc -> InternalError z1, InternalError z1
    both 919293dc0010ccac10ccf2ccaeccf1 -> InternalError z1, InternalError z1
    both 919293dc0010ccac10ccf2ccaeccf117 -> InternalError z1, InternalError z1
    both 919293dc0010ccac10ccf2ccaeccf11772 -> InternalError z1, InternalError z1
    both 919293dc0010ccac10ccf2ccaeccf11772cc -> InternalError z1, InternalError z1
    both 919293dc0010ccac10ccf2ccaeccf11772cc9f -> InternalError z1, InternalError z1
    both 919293dc0010ccac10ccf2ccaeccf11772cc9fcc -> InternalError z1, InternalError z1
    both 919293dc0010ccac10ccf2ccaeccf11772cc9fcc8d -> InternalError z1, InternalError z1
    both 919293dc0010ccac10ccf2ccaeccf11772cc9fcc8dcc -> InternalError z1, InternalError z1
    both 919293dc0010ccac10ccf2ccaeccf11772cc9fcc8dccad -> InternalError z1, InternalError z1
    both 919293dc0010ccac10ccf2ccaeccf11772cc9fcc8dccad05 -> InternalError z1, InternalError z1
    both 919293dc0010ccac10ccf2ccaeccf11772cc9fcc8dccad056b -> InternalError z1, InternalError z1
    both 919293dc0010ccac10ccf2ccaeccf11772cc9fcc8dccad056b30 -> InternalError z1, InternalError z1
    both 919293dc0010ccac10ccf2ccaeccf11772cc9fcc8dccad056b3059 -> InternalError z1, InternalError z1
    both 919293dc0010ccac10ccf2ccaeccf11772cc9fcc8dccad056b3059cc -> InternalError z1, InternalError z1
    both 919293dc0010ccac10ccf2ccaeccf11772cc9fcc8dccad056b3059cceb -> InternalError z1, InternalError z1
    both 919293dc0010ccac10ccf2ccaeccf11772cc9fcc8dccad056b3059cceb7e -> InternalError z1, InternalError z1
    both 919293dc0010ccac10ccf2ccaeccf11772cc9fcc8dccad056b3059cceb7ec0 -> InternalError z1, InternalError z1
    both 919293dc0010ccac10ccf2ccaeccf11772cc9fcc8dccad056b3059cceb7ec0a1 -> InternalError z1, InternalError z1
    both 919293dc0010ccac10ccf2ccaeccf11772cc9fcc8dccad056b3059cceb7ec0a131 -> InternalError z1, InternalError z1";

#[test]
fn each_beginning_is_refused(rt: HostRuntime) {
    run(&rt, rt.alloc(), BEGINNINGS);
}

const LISTS: &str = "
    both 90 -> ok z1, ok z1
    both 91 92 93dc0010 61616161616161616161616161616161 c0a131 03 -> ok z1 a3, ok z1 a3
    both 92 92 93dc0010 61616161616161616161616161616161 c0a131 03 92 93dc0010 62626262626262626262626262626262 c0a131 02 -> ok z1 a3 b2, ok z1 a3 b2
    both 92 92 93dc0010 61616161616161616161616161616161 c0a131 09 92 93dc0010 61616161616161616161616161616161 c0a131 03 -> ok a3 z1, ok z1 a9
    both 92 92 93dc0010 7a7a7a7a7a7a7a7a7a7a7a7a7a7a7a7a c0a131 05 92 93dc0010 62626262626262626262626262626262 c0a131 02 -> ok z5 b2, ok z1 b2";

#[test]
fn lists_are_loaded_as_the_moves_say(rt: HostRuntime) {
    run(&rt, rt.alloc(), LISTS);
}

const OTHER_FORMS: &str = "
    # a number, nil, wider forms
    one 91 92 92 93dc0010 61616161616161616161616161616161 c0a131 07 03 -> ok z1 a#7=3
    one 91 92 92 93dc0010 61616161616161616161616161616161 c0a131 c0 03 -> ok z1 a3
    one dd00000001 dc0002 93dc0010 61616161616161616161616161616161 c0a131 cd0003 -> ok z1 a3
    one 91 92 93dc0010 61616161616161616161616161616161 c0a131 cf0000000000000003 -> ok z1 a3
    one 91 92 93dc0010 61616161616161616161616161616161 c0a131 cfffffffffffffffff -> ok z1 a18446744073709551615";

#[test]
fn other_forms_are_read(rt: HostRuntime) {
    run(&rt, rt.alloc(), OTHER_FORMS);
}

const OTHER_BYTES: &str = "
    # no room is reserved for a number of nodes that is only stated
    both ddffffffff -> InternalError z1, InternalError z1
    both ddffffffff 92 93dc0010 61616161616161616161616161616161 c0a131 03 -> InternalError z1, InternalError z1
    # no number, another number of items, a byte after it
    both 91 92 93dc0010 61616161616161616161616161616161 c0a131 ff -> InternalError z1, InternalError z1
    both 91 92 92 93dc0010 61616161616161616161616161616161 c0a131 ff 03 -> InternalError z1, InternalError z1
    both 91 93 93dc0010 61616161616161616161616161616161 c0a131 03 -> InternalError z1, InternalError z1
    both 91 92 91 93dc0010 61616161616161616161616161616161 c0a131 03 -> InternalError z1, InternalError z1
    both 91 92 93dc0010 61616161616161616161616161616161 c0a131 03 00 -> InternalError z1, InternalError z1
    both 90 00 -> InternalError z1, InternalError z1
    # the first node is good
    both 92 92 93dc0010 61616161616161616161616161616161 c0a131 03 ff -> InternalError z1, InternalError z1
    both 92 92 93dc0010 61616161616161616161616161616161 c0a131 03 -> InternalError z1, InternalError z1
    # a tag that is not UTF-8
    both 91 92 93dc0010 61616161616161616161616161616161 c0a1ff 03 -> InternalError z1, InternalError z1";

#[test]
fn other_bytes_are_refused(rt: HostRuntime) {
    run(&rt, rt.alloc(), OTHER_BYTES);
}

// An entry with a number is written as a key and that number.
const NUMBERS: &str = "
    writes-numbered -> 92929293dc001061616161616161616161616161616161c0a131ccff039293dc001062626262626262626262626262626262c0a13102";

#[test]
fn numbers_are_written(rt: HostRuntime) {
    run(&rt, rt.alloc(), NUMBERS);
}

// Room is reserved by the bytes that are left, and never for a number of nodes that no memory could
// hold.
const LONG: &str = "
    states 1000 1000 -> ok 1000 of 1000
    states 1000 2000 -> InternalError 0 of 0
    states 2000 1000 -> InternalError 0 of 0
    states 4294967295 1000 -> InternalError 0 of 0";

#[test]
fn long_files(rt: HostRuntime) {
    run(&rt, rt.alloc(), LONG);
}

const VARIANCES: &str = "
    writes-varied -> 919293dc001061616161616161616161616161616161dc0010ccc8ccc8ccc8ccc8ccc8ccc8ccc8ccc8ccc8ccc8ccc8ccc8ccc8ccc8ccc8ccc8a131cd012c
    holds-varied 919293dc001061616161616161616161616161616161dc0010ccc8ccc8ccc8ccc8ccc8ccc8ccc8ccc8ccc8ccc8ccc8ccc8ccc8ccc8ccc8ccc8a131cd012c -> ok 300";

#[test]
fn variances_go_round(rt: HostRuntime) {
    run(&rt, rt.alloc(), VARIANCES);
}

// Loading over the limit evicts nothing, and the next admission evicts what was loaded.
const NEXT: &str = "
    admits-after -> ok 1 of 9, 0 gone, ac10f2aef117729f8dad056b3059eb7e, user_tag: 1; b1";

#[test]
fn what_was_loaded_goes_at_the_next_admission(rt: HostRuntime) {
    run(&rt, rt.alloc(), NEXT);
}
