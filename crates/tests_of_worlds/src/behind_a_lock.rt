//! A world that is called by several, who take turns at a lock.
use crate::play::{Limits, compare, tell_reply, world_of};
use crate::script::{Clock, call_of};
use pcache_base::seed::Seed;
use pcache_evict::eviction::simple_lru::Manager;
use pcache_world::world::World;
use pcache_world::world::policy::BySelf;
use std::alloc::Global;
use std::process::Abort;
use std::sync::{Mutex, Wait};
use test_rows::{Told, asked_of};

type Shared = Mutex<World<Manager, BySelf>>;

// A request fills a key, another finds the write and a third purges it; then all end.
const PURGED: &str = "open 1 -> Done\n\
    key 1 k -> Done\n\
    look 1 -> NotFound(Some(Write))\n\
    miss 1 -> Done\n\
    meta 1 -> Done\n\
    begin 1 -> Done\n\
    write 1 a last -> Done\n\
    open 2 -> Done\n\
    key 2 k -> Done\n\
    open 3 -> Done\n\
    key 3 k -> Done\n\
    look 2 -> Part\n\
    purge 3 -> Purged\n\
    finish 1 -> Refused(WriteRemoved)\n\
    end 1 -> Done\n\
    end 2 -> Done\n\
    end 3 -> Done\n";

// Makes the call of a row while the lock is held, and tells its reply. The promises of the
// history are known whenever the lock is held.
fn ask(
    rt: &impl Wait,
    alloc: Global,
    shared: &Shared,
    asked: &'static str,
    clock: &mut Clock,
    told: &mut Told,
) {
    shared.lock(rt).headline();
    match call_of(alloc, asked, clock.next()) {
        Some(call) => tell_reply(shared.lock(rt).step(call), told),
        None => told.say("no call"),
    }
}

fn play<R: Wait + Abort>(rt: &R, alloc: Global, shared: &Shared, rows: &'static str) {
    let mut told = Told::new(alloc);
    let mut clock = Clock::new();
    let mut number = 0u64;
    for row in rows.lines() {
        number = number.saturating_add(1);
        told.clear();
        ask(rt, alloc, shared, asked_of(row), &mut clock, &mut told);
        compare(rt, number, row, &told);
    }
}

// A reader follows a purged write to its end, by calls that take turns at a lock.
#[test]
fn nothing_is_left_of_ended_requests(rt: HostRuntime) {
    let alloc = rt.alloc();
    match world_of(alloc, Seed::fixed(), Limits::weight(9)) {
        Ok(world) => {
            let shared = Mutex::new(world);
            play(&rt, alloc, &shared, PURGED);
            let world = shared.into_inner();
            assert!(rt; world.slots() == 0 && world.history().len() == 17);
        }
        Err(_refused) => assert!(rt; false),
    }
}
