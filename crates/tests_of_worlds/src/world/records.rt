//! The store's records of writes are removed with the requests and puts that name them.
use crate::play::{Limits, calls_of, world_of};
use pcache_base::seed::Seed;
use pcache_evict::eviction::simple_lru::Manager;
use pcache_world::world::World;
use pcache_world::world::call::{Act, Call};
use pcache_world::world::policy::BySelf;
use std::alloc::Global;

// A purged write that is followed, one that is stored, one whose pair is held, and a put.
const CALLS: &str = "open 1\n\
    key 1 k\n\
    look 1\n\
    miss 1\n\
    meta 1\n\
    begin 1\n\
    write 1 ab\n\
    open 2\n\
    key 2 k\n\
    look 2\n\
    found 2 fresh\n\
    read 2\n\
    purge 1\n\
    open 3\n\
    key 3 k\n\
    purge 3\n\
    miss 3\n\
    meta 3\n\
    begin 3\n\
    open 4\n\
    key 4 k\n\
    look 4\n\
    put 5 p\n\
    feed 5 endless\n\
    finish 1\n\
    write 3 c\n\
    finish 3\n\
    feed 5 ab\n\
    close 5\n\
    write 1 c\n";

// The most records that there were while the first calls were made, so many as this, and how many are left once all that is
// open is ended.
fn left_after(alloc: Global, count: usize) -> Option<(usize, usize)> {
    match world_of(alloc, Seed::fixed(), Limits::weight(9)) {
        Ok(mut world) => {
            let most = most_of(&mut world, calls_of(alloc, CALLS), count);
            end_all(&mut world);
            Some((most, world.write_records()))
        }
        Err(_refused) => None,
    }
}

fn most_of(world: &mut World<Manager, BySelf>, calls: Vec<Call>, count: usize) -> usize {
    let mut most = 0usize;
    for call in calls.into_iter().take(count) {
        let _is_made = world.step(call).is_ok();
        most = most.max(world.write_records());
    }
    most
}

fn end_all(world: &mut World<Manager, BySelf>) {
    for number in 1..6u64 {
        let _is_ended = world.step(Act::End.of(number)).is_ok();
        let _is_dropped = world.step(Act::Drop.of(number)).is_ok();
    }
}

// Each beginning of the calls leaves no record, and the whole had three at once.
#[test]
fn no_record_is_left_when_all_is_ended(rt: HostRuntime) {
    let mut all = None;
    for count in 0..31usize {
        all = left_after(rt.alloc(), count);
        assert!(rt; matches!(all, Some((_, 0))), "after {count} calls");
    }
    assert!(rt; matches!(all, Some((3, 0))));
}
