//! What metas say beside their head: worked rows, and upstream's tests of the versions. The bytes
//! are hand-computed from the layout in docs/FORMATS.md.
use crate::rows::{Desk, Told, number, play, rest, some_byte, some_number, unhex, word};
use pcache_base::entry_id::CacheEntryId;
use pcache_base::error::{Error, Result};
use pcache_base::key::HashBinary;
use pcache_base::moment::Moment;
use pcache_meta::meta::codec::deserialize_internal;
use pcache_meta::meta::internal_meta::{
    InternalMetaV0, InternalMetaV1, InternalMetaV2, InternalMetaV3,
};
use std::alloc::{AllocError, Global};

// The bytes that are read.
#[derive(Drop)]
struct Spelled {
    alloc: Global,
    bytes: Vec<u8>,
}

impl Desk for Spelled {
    fn tell(&mut self, call: &'static str, told: &mut Told) {
        match word(call, 0) {
            "read" => {
                if unhex(rest(call), &mut self.bytes) {
                    tell_read(deserialize_internal(self.bytes.as_slice()), told);
                }
            }
            "write-0" => written(old(call).serialize(self.alloc), told),
            "write-1" => written(next(call).serialize(self.alloc), told),
            "write-2" => written(meta(call).serialize(self.alloc), told),
            "write-3" => written(numbered(call).serialize(self.alloc), told),
            _ => tell_made(self.alloc, call, told),
        }
    }
}

// What an older version becomes, and the defaults.
fn tell_made(alloc: Global, call: &'static str, told: &mut Told) {
    match word(call, 0) {
        "from-0" => tell_meta(&InternalMetaV3::from(old(call)), told),
        "from-1" => tell_meta(&InternalMetaV3::from(next(call)), told),
        "from-2" => tell_meta(&InternalMetaV3::from(meta(call)), told),
        "0-as-2" => written(InternalMetaV2::from(old(call)).serialize(alloc), told),
        "1-as-2" => written(InternalMetaV2::from(next(call)).serialize(alloc), told),
        "default-2" => written(InternalMetaV2::default().serialize(alloc), told),
        _ => tell_default(alloc, &InternalMetaV3::default(), told),
    }
}

fn tell_default(alloc: Global, meta: &InternalMetaV3, told: &mut Told) {
    match written_and_read(alloc, meta) {
        Ok(read) if read == *meta => told.say("reads back, "),
        Ok(_read) => told.say("differs, "),
        Err(refused) => told.refused(&refused),
    }
    tell_meta(meta, told);
}

fn written_and_read(alloc: Global, meta: &InternalMetaV3) -> Result<InternalMetaV3> {
    let bytes = meta.serialize(alloc)?;
    deserialize_internal(bytes.as_slice())
}

fn written(bytes: Result<Vec<u8>, AllocError>, told: &mut Told) {
    match bytes {
        Ok(bytes) => told.hex(bytes.as_slice()),
        Err(refused) => told.refused(&Error::from(refused)),
    }
}

/// What was read of a meta, or the error.
pub fn tell_read(read: Result<InternalMetaV3>, told: &mut Told) {
    match read {
        Ok(meta) => tell_meta(&meta, told),
        Err(refused) => told.refused(&refused),
    }
}

fn at(call: &'static str, place: usize) -> Moment {
    Moment::from_secs(number(call, place))
}

fn window(call: &'static str, place: usize) -> u32 {
    (number(call, place) & 0xFFFF_FFFF) as u32
}

fn some_moment(call: &'static str, place: usize) -> Option<Moment> {
    match some_number(call, place) {
        Some(secs) => Some(Moment::from_secs(secs)),
        None => None,
    }
}

fn sixteen(byte: Option<u8>) -> Option<HashBinary> {
    match byte {
        Some(byte) => Some([byte; 16]),
        None => None,
    }
}

// Fresh until, created, and the two windows.
fn old(call: &'static str) -> InternalMetaV0 {
    InternalMetaV0 {
        fresh_until: at(call, 1),
        created: at(call, 2),
        stale_while_revalidate_sec: window(call, 3),
        stale_if_error_sec: window(call, 4),
    }
}

fn next(call: &'static str) -> InternalMetaV1 {
    InternalMetaV1 {
        fresh_until: at(call, 1),
        created: at(call, 2),
        stale_while_revalidate_sec: window(call, 3),
        stale_if_error_sec: window(call, 4),
    }
}

// Fresh until, created, updated, and the two windows; sixteen times a byte of variance, the override and the provenance.
fn meta(call: &'static str) -> InternalMetaV2 {
    InternalMetaV2 {
        fresh_until: at(call, 1),
        created: at(call, 2),
        updated: at(call, 3),
        stale_while_revalidate_sec: window(call, 4),
        stale_if_error_sec: window(call, 5),
        variance: sixteen(some_byte(call, 6)),
        epoch_override: some_moment(call, 7),
        provenance: some_moment(call, 8),
    }
}

// The same, and the number of a write.
fn numbered(call: &'static str) -> InternalMetaV3 {
    InternalMetaV3 {
        entry_id: some_id(call),
        ..InternalMetaV3::from(meta(call))
    }
}

fn some_id(call: &'static str) -> Option<CacheEntryId> {
    match some_number(call, 9) {
        Some(number) => Some(CacheEntryId::new(number)),
        None => None,
    }
}

fn tell_meta(meta: &InternalMetaV3, told: &mut Told) {
    told.number(u64::from(InternalMetaV3::VERSION));
    told.say(":");
    tell_moment(told, meta.fresh_until);
    tell_moment(told, meta.created);
    tell_moment(told, meta.updated);
    told.numbers(&[
        u64::from(meta.stale_while_revalidate_sec),
        u64::from(meta.stale_if_error_sec),
    ]);
    told.say(" ");
    told.hash(meta.variance);
    tell_some(told, meta.epoch_override);
    tell_some(told, meta.provenance);
    if let Some(id) = meta.entry_id {
        told.say(" #");
        told.number(id.get());
    }
}

fn tell_moment(told: &mut Told, moment: Moment) {
    told.numbers(&[moment.secs()]);
    if moment.nanos() > 0 {
        told.say(".");
        told.number(u64::from(moment.nanos()));
    }
}

fn tell_some(told: &mut Told, moment: Option<Moment>) {
    match moment {
        Some(moment) => tell_moment(told, moment),
        None => told.say(" none"),
    }
}

const READ: &str = "
    # version 0; nine bytes are too few, whatever they say
    read 94 92 01 00 92 01 00 00 00 -> InternalError
    read 94 92 cd 01 2c 00 92 01 00 00 00 -> 3: 300 1 1 0 0 none none none
    # windows stand in order
    read 95 01 92 01 00 92 01 00 1e 3c -> 3: 1 1 1 30 60 none none none
    # a window of more than 32 bits
    read 95 01 92 01 00 92 01 00 cf 00 00 00 01 00 00 00 00 3c -> InternalError
    # version 2, in any width
    read 96 02 92 01 00 92 01 00 92 01 00 00 00 -> 3: 1 1 1 0 0 none none none
    read dc 00 06 02 92 01 00 92 01 00 92 01 00 00 00 -> 3: 1 1 1 0 0 none none none
    # the last nanosecond
    read 96 02 92 01 ce 3b 9a c9 ff 92 01 00 92 01 00 00 00 -> 3: 1.999999999 1 1 0 0 none none none
    # a whole second of nanoseconds
    read 96 02 92 01 ce 3b 9a ca 00 92 01 00 92 01 00 00 00 -> InternalError
    # the version in a wider form, and one that is not known
    read 96 cc 02 92 01 00 92 01 00 92 01 00 00 00 -> InternalError
    read 96 03 92 01 00 92 01 00 92 01 00 00 00 -> InternalError
    # a byte after the end
    read 96 02 92 01 00 92 01 00 92 01 00 00 00 00 -> InternalError
    # version 3, with and without a number, in any width
    read 9a 03 92 01 00 92 01 00 92 01 00 00 00 c0 c0 c0 c0 -> 3: 1 1 1 0 0 none none none
    read 9a 03 92 cd 01 2c 00 92 01 00 92 01 00 1e 3c c0 c0 92 01 00 07 -> 3: 300 1 1 30 60 none none 1 #7
    read dc 00 0a 03 92 cd 01 2c 00 92 01 00 92 01 00 1e 3c c0 c0 92 01 00 07 -> 3: 300 1 1 30 60 none none 1 #7
    read 9a 03 92 01 00 92 01 00 92 01 00 00 00 c0 c0 c0 cf ff ff ff ff ff ff ff ff -> 3: 1 1 1 0 0 none none none #18446744073709551615
    # ten items of version 2, nine of version 3, and a version that is not known
    read 9a 02 92 01 00 92 01 00 92 01 00 00 00 c0 c0 c0 c0 -> InternalError
    read 9a 02 92 cd 01 2c 00 92 01 00 92 01 00 1e 3c c0 c0 92 01 00 07 -> InternalError
    read 99 03 92 cd 01 2c 00 92 01 00 92 01 00 1e 3c c0 c0 92 01 00 -> InternalError
    read 9a 04 92 cd 01 2c 00 92 01 00 92 01 00 1e 3c c0 c0 92 01 00 07 -> InternalError
    # eleven items, and ten of which the last is not there
    read 9b 03 92 01 00 92 01 00 92 01 00 00 00 c0 c0 c0 c0 c0 -> InternalError
    read 9a 03 92 cd 01 2c 00 92 01 00 92 01 00 1e 3c c0 c0 92 01 00 -> InternalError";

#[test]
fn versions_read_and_what_is_no_meta(rt: HostRuntime) {
    let alloc = rt.alloc();
    let bytes = Vec::new(alloc);
    play(&rt, alloc, &mut Spelled { alloc, bytes }, READ);
}

const WRITTEN: &str = "
    write-2 1 1 1 0 0 -> 98029201009201009201000000c0c0
    write-3 1 1 1 0 0 -> 9a039201009201009201000000c0c0c0c0
    # what was written of version 2 has no number
    read 98029201009201009201000000c0c0 -> 3: 1 1 1 0 0 none none none
    from-2 1 1 1 0 0 -> 3: 1 1 1 0 0 none none none
    # each version reads as the latest
    from-0 300 1 30 60 -> 3: 300 1 1 30 60 none none none
    from-1 300 1 30 60 -> 3: 300 1 1 30 60 none none none
    write-0 300 1 30 60 -> 9492cd012c009201001e3c
    read 9492cd012c009201001e3c -> 3: 300 1 1 30 60 none none none
    write-1 300 1 30 60 -> 950192cd012c009201001e3c
    read 950192cd012c009201001e3c -> 3: 300 1 1 30 60 none none none
    write-2 300 1 1 30 60 -> 980292cd012c009201009201001e3cc0c0
    read 980292cd012c009201009201001e3cc0c0 -> 3: 300 1 1 30 60 none none none
    # items that came later
    write-2 300 1 2 30 60 7 3 4 -> 990292cd012c009201009202001e3cdc001007070707070707070707070707070707920300920400
    read 990292cd012c009201009202001e3cdc001007070707070707070707070707070707920300920400 -> 3: 300 1 2 30 60 07070707070707070707070707070707 3 4
    write-2 300 1 2 30 60 7 3 -> 980292cd012c009201009202001e3cdc001007070707070707070707070707070707920300
    read 980292cd012c009201009202001e3cdc001007070707070707070707070707070707920300 -> 3: 300 1 2 30 60 07070707070707070707070707070707 3 none
    # the number of a write
    write-3 300 1 1 30 60 x x 1 7 -> 9a0392cd012c009201009201001e3cc0c092010007
    write-3 300 1 1 30 60 x x 1 -> 9a0392cd012c009201009201001e3cc0c0920100c0
    # versions 0 and 1 as version 2, and version 2 by default
    0-as-2 300 1 30 60 -> 980292cd012c009201009201001e3cc0c0
    1-as-2 300 1 30 60 -> 980292cd012c009201009201001e3cc0c0
    default-2 -> 98029200009200009200000000c0c0
    default -> reads back, 3: 0 0 0 0 0 none none none";

#[test]
fn each_version_reads_as_the_latest(rt: HostRuntime) {
    let alloc = rt.alloc();
    let bytes = Vec::new(alloc);
    play(&rt, alloc, &mut Spelled { alloc, bytes }, WRITTEN);
}
