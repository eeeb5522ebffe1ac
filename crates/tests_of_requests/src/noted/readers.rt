//! How readers end: one that is replaced is let go, and the one that its request ends is finished.
use super::*;
use pcache_evict::eviction::simple_lru::Manager;

// A body is found twice, so that the second reader replaces the first.
const ENDED: &str = "
    1 opens a
    1 fills 200
    1 ends
    1 opens a
    1 takes Expired at 110
    1 takes Expired at 110
    readers -> finished 0, let go 1
    1 closes
    readers -> finished 1, let go 1";

#[test]
fn a_replaced_reader_is_let_go_and_an_ended_one_finished(rt: HostRuntime) {
    let alloc = rt.alloc();
    run(&rt, alloc, Manager::new(alloc, Seed::fixed(), 10), ENDED);
}
