//! The forms of the MessagePack specification.
use crate::rows::{Desk, Told, number, play, rest, size, unhex, word};
use pcache_base::error::{ErrorType, Result};
use pcache_meta::msgpack::reader::Reader;
use pcache_meta::msgpack::writer::{
    put_array, put_hash, put_nil, put_number, put_optional_hash, put_text,
};
use std::alloc::AllocError;

// The bytes that are read, or were written.
#[derive(Drop)]
struct Spelled {
    bytes: Vec<u8>,
}

impl Desk for Spelled {
    fn tell(&mut self, call: &'static str, told: &mut Told) {
        let verb = word(call, 0);
        if verb.starts_with("put-") {
            self.bytes.clear();
            let is_put = put(&mut self.bytes, call).is_ok();
            tell_put(is_put, self.bytes.as_slice(), told);
        } else if unhex(rest(call), &mut self.bytes) {
            read(&mut Reader::new(self.bytes.as_slice()), verb, told);
        }
    }
}

fn tell_put(is_put: bool, bytes: &[u8], told: &mut Told) {
    if is_put {
        told.hex(bytes);
    } else {
        told.say("refused");
    }
}

fn read(reader: &mut Reader<'_>, verb: &str, told: &mut Told) {
    match verb {
        "number" => tell_number(told, reader.number()),
        "array" => tell_number(told, reader.array()),
        "six-items" => told.yes_or_no(reader.items(6).is_ok()),
        "five-items" => told.yes_or_no(reader.items(5).is_ok()),
        _ => read_more(reader, verb, told),
    }
}

fn read_more(reader: &mut Reader<'_>, verb: &str, told: &mut Told) {
    match verb {
        "read-hashes" => read_nil_and_hashes(reader, told),
        "marks" => read_marks(reader, told),
        "hash" => told.yes_or_no(reader.hash().is_ok()),
        _ => told.say(reader.text().unwrap_or("refused")),
    }
}

fn tell_number(told: &mut Told, number: Result<u64>) {
    match number {
        Ok(number) => told.number(number),
        Err(refused) => told.refused(&refused),
    }
}

fn put(out: &mut Vec<u8>, call: &'static str) -> Result<()> {
    match word(call, 0) {
        "put-number" => Ok(put_number(out, number(call, 1))?),
        "put-array" => put_array(out, size(call, 1)),
        "put-hashes" => Ok(put_nil_and_hashes(out, &hash())?),
        _ => put_text(out, word(call, 1)),
    }
}

fn put_nil_and_hashes(out: &mut Vec<u8>, hash: &[u8; 16]) -> Result<(), AllocError> {
    put_nil(out)?;
    put_hash(out, hash)?;
    put_optional_hash(out, None)
}

fn hash() -> [u8; 16] {
    let mut hash = [0; 16];
    hash[1] = 0xac;
    hash
}

// What is read where nil, a hash, and a hash or none were put.
fn read_nil_and_hashes(reader: &mut Reader<'_>, told: &mut Told) {
    told.shown(&reader.remaining());
    told.say(" ");
    told.yes_or_no(reader.skip_nil());
    told.say(" ");
    told.yes_or_no(reader.skip_nil());
    told.say(" ");
    told.hash(reader.hash().ok());
    told.say(" ");
    told.yes_or_no(matches!(reader.optional_hash(), Ok(None)));
    told.say(" ");
    told.yes_or_no(reader.is_empty());
}

// A mark and two numbers, of which only the first is below 10 and only the second not below 9.
fn read_marks(reader: &mut Reader<'_>, told: &mut Told) {
    told.done(reader.mark(2));
    told.say(" ");
    tell_number(told, reader.number_below(10));
    told.say(" ");
    tell_number(told, reader.number_below(9));
}

const FORMS: &str = "
    # numbers in each width
    number 7f -> 127
    number cc 80 -> 128
    number cc 02 -> 2
    number cd 01 2c -> 300
    number ce 3b 9a c9 ff -> 999999999
    number cf 00 00 00 01 00 00 00 00 -> 4294967296
    # nothing, a negative number, too few bytes
    number -> InternalError
    number ff -> InternalError
    number cd 01 -> InternalError
    # numbers are written short
    put-number 0 -> 00
    put-number 127 -> 7f
    put-number 128 -> cc80
    put-number 255 -> ccff
    put-number 256 -> cd0100
    put-number 65535 -> cdffff
    put-number 65536 -> ce00010000
    put-number 4294967295 -> ceffffffff
    put-number 4294967296 -> cf0000000100000000
    # arrays
    array 96 -> 6
    array dc 00 06 -> 6
    array dd 00 00 00 06 -> 6
    array a6 -> InternalError
    six-items 96 -> yes
    five-items 96 -> no
    put-array 0 -> 90
    put-array 15 -> 9f
    put-array 16 -> dc0010
    put-array 65535 -> dcffff
    put-array 65536 -> dd00010000
    put-array 4294967296 -> refused
    # texts
    text a1 31 -> 1
    text d9 01 31 -> 1
    text da 00 01 31 -> 1
    text db 00 00 00 01 31 -> 1
    # too few bytes, no UTF-8, and a length that no input has, which takes no memory
    text a2 31 -> refused
    text a1 ff -> refused
    text db ff ff ff ff -> refused
    put-text 1 -> a131
    put-text aaaaaaaaaaaaaaaaaaaaaaaaaaaaaaaa -> d9206161616161616161616161616161616161616161616161616161616161616161
    # nil, a hash and none
    put-hashes -> c0dc001000ccac0000000000000000000000000000c0
    read-hashes c0 dc 00 10 00 cc ac 00 00 00 00 00 00 00 00 00 00 00 00 00 00 c0 -> 22 yes no 00ac0000000000000000000000000000 yes yes
    # a mark, and numbers with limits
    marks 02 09 09 -> ok 9 InternalError
    # a hash with a number of more than a byte
    hash dc 00 10 cd 01 00 00 00 00 00 00 00 00 00 00 00 00 00 00 00 00 -> no";

#[test]
fn numbers_arrays_texts_hashes_and_marks(rt: HostRuntime) {
    let bytes = Vec::new(rt.alloc());
    play(&rt, rt.alloc(), &mut Spelled { bytes }, FORMS);
}

// Whether an array that is too long fails, and the bytes before it are unchanged.
fn is_refused(out: &mut Vec<u8>) -> bool {
    let len = out.len();
    let refused = put_array(out, 1 << 32);
    out.len() == len && kind(refused) == Some(ErrorType::InternalError)
}

fn kind(done: Result<()>) -> Option<ErrorType> {
    match done {
        Ok(()) => None,
        Err(refused) => Some(refused.etype()),
    }
}

#[test]
fn a_refused_array_leaves_what_stands_before_it(rt: HostRuntime) {
    let mut out = Vec::new(rt.alloc());
    assert!(rt; put_array(&mut out, 15).is_ok() && is_refused(&mut out));
}
