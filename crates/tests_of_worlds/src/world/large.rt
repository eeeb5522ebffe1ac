//! Calls that bring heads of many fields, and runs of many calls. Keys, bodies and pieces that are long are played as scripts.
use crate::play::{Limits, play, world_of};
use pcache_base::error::Result;
use pcache_base::seed::Seed;
use pcache_world::world::call::{Act, Call, Reply};
use std::alloc::Global;

// The meta of a write, that of a revalidation, and the head of an answer that is not stored.
#[test]
fn heads_of_many_fields(rt: HostRuntime) {
    let rows = "open 1 -> Done\n\
        key 1 k -> Done\n\
        look 1 -> NotFound(Some(Write))\n\
        miss 1 -> Done\n\
        meta 1 0 300 -> Done\n\
        begin 1 -> Done\n\
        write 1 a -> Done\n\
        finish 1 -> Stored { size: 1, evicted: 0 }\n\
        end 1 -> Done\n\
        open 2 -> Done\n\
        key 2 k -> Done\n\
        look 2 -> Hit(1)\n\
        found 2 expired -> Taken(Stale, Some(Write))\n\
        revalidate 2 0 300 -> Updated\n\
        end 2 -> Done\n\
        open 3 -> Done\n\
        key 3 k -> Done\n\
        look 3 -> Hit(1)\n\
        found 3 expired -> Taken(Stale, Some(Write))\n\
        uncacheable 3 300 -> Done\n\
        read 3 -> Data(b\"a\")\n\
        end 3 -> Done\n";
    play(&rt, rt.alloc(), Limits::weight(9), "", rows);
}

// The calls that open so many requests.
fn openings(alloc: Global, count: u64) -> Vec<Call> {
    let mut calls = Vec::new(alloc);
    for number in 0..count {
        let _is_there = calls.push(Act::Open { options: None }.of(number)).is_ok();
    }
    calls
}

// Whether so many replies are those of calls that were done.
fn are_done(replies: Result<Vec<Reply>>, count: usize) -> bool {
    match replies {
        Ok(replies) => {
            let mut are_done = replies.len() == count;
            for reply in replies.iter() {
                are_done = are_done && matches!(reply, Reply::Done);
            }
            are_done
        }
        Err(_refused) => false,
    }
}

// Each call of a run of many is done: as many requests are open then.
#[test]
fn many_calls_in_one_run(rt: HostRuntime) {
    match world_of(rt.alloc(), Seed::fixed(), Limits::weight(9)) {
        Ok(mut world) => {
            let replies = world.run(openings(rt.alloc(), 5_000));
            assert!(rt; are_done(replies, 5_000));
        }
        Err(_refused) => assert!(rt; false),
    }
}
