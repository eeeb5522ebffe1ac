//! Endless input that is no file: reading stops at the piece that shows it.
ghost use Rattle.std.specs.Prelude.{◌≡◌};

use crate::files::parts::{tell_changed, with_z};
use crate::files::spelled::run;
use crate::rows::{Told, number, some_byte, word};
use pcache_base::error::Result;
use pcache_evict::eviction::simple_lru::Manager;
use pcache_files::device::CountedRead;
use pcache_files::simple_lru::load_from;
use std::alloc::Global;

// Gives the bytes of the front, and then one byte without an end.
#[derive(Drop)]
struct Endless<'a> {
    front: &'a [u8],
    byte: u8,
    reads: u64,
}

impl<'a> CountedRead for Endless<'a> {
    ghost failed = { λ _. 0 };

    fn read(&mut self, buf: &mut [u8]) -> Result<usize> {
        self.reads = self.reads.saturating_add(1);
        if self.front.is_empty() {
            buf.fill(self.byte);
            return Ok(buf.len());
        }
        let count = self.front.len().min(buf.len());
        let (now, later) = self.front.split_at(count);
        buf[..count].copy_from_slice(now);
        self.front = later;
        Ok(count)
    }

    fn failures(&self) -> u64 {
        0
    }
}

/// Loads such a file, of the byte and the most reads that the row names, and writes what that returns and leaves.
pub fn tell(alloc: Global, front: &[u8], call: &'static str, told: &mut Told) {
    let byte = some_byte(call, 1).unwrap_or(0);
    match with_z(alloc) {
        Ok(manager) => {
            let mut manager = manager;
            load(
                alloc,
                &mut manager,
                Endless {
                    front,
                    byte,
                    reads: 0,
                },
                number(call, 2),
                told,
            );
        }
        Err(refused) => told.refused(&refused),
    }
}

fn load(alloc: Global, manager: &mut Manager, reader: Endless<'_>, most: u64, told: &mut Told) {
    let mut reader = reader;
    tell_changed(load_from(alloc, manager, &mut reader), manager, told);
    told.say(if reader.reads <= most { "" } else { ", late" });
}

const NO_ARRAY: &str = "
    endless 0 1 -> InternalError z1
    endless 127 1 -> InternalError z1
    endless 192 1 -> InternalError z1
    endless 255 1 -> InternalError z1
    endless 0 2 7f454c46 -> InternalError z1";

#[test]
fn the_first_byte_is_no_array(rt: HostRuntime) {
    run(&rt, rt.alloc(), NO_ARRAY);
}

const ANNOUNCED: &str = "
    # 2^32 - 1 nodes, and the first is none
    endless 0 2 ddffffffff -> InternalError z1
    endless 146 2 91 -> InternalError z1
    # a head that goes on like one
    endless 221 1 -> InternalError z1
    endless 145 1 -> InternalError z1";

#[test]
fn a_list_that_is_announced_and_does_not_come(rt: HostRuntime) {
    run(&rt, rt.alloc(), ANNOUNCED);
}

const BEHIND: &str = "
    endless 0 2 90 -> InternalError z1
    endless 144 1 -> InternalError z1
    endless 0 2 919293dc0010ccac10ccf2ccaeccf11772cc9fcc8dccad056b3059cceb7ec0a13109 -> InternalError z1
    endless 146 2 919293dc0010ccac10ccf2ccaeccf11772cc9fcc8dccad056b3059cceb7ec0a13109 -> InternalError z1
    endless 0 2 919293dc0010ccac10ccf2ccaeccf11772cc9fcc -> InternalError z1";

#[test]
fn bytes_behind_a_list_without_an_end(rt: HostRuntime) {
    run(&rt, rt.alloc(), BEHIND);
}
