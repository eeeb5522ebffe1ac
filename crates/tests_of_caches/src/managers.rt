//! Caches over each manager, by scenes that do not depend on which entries are evicted first.
//!
//! Of bodies of one length the same number is evicted, whichever they are, and the body that was added last, if it has room, is
//! stored.
use crate::scenes::run_each;

const KEPT: &str = "
    limit 4: find a, fill a hi, find a, find b, fill a no, find a -> -, +, hi, -, -, hi, 2 in 1, 2 of 1 tracked, 0 of 0 went
    limit 4: fill a aa, fill b bb, find a, find b -> +, +, aa, bb, 4 in 2, 4 of 2 tracked, 0 of 0 went
    # a purge of what is not there
    limit 0: purge a -> -, 0 in 0, 0 of 0 tracked, 0 of 0 went
    # a purge takes the body out, and makes room
    limit 4: fill a aa, fill b bb, purge a, find a, fill c cc, find b, find c, purge a -> +, +, +, -, +, bb, cc, -, 4 in 2, 4 of 2 tracked, 0 of 0 went
    # what was purged comes in anew
    limit 4: fill a aa, purge a, fill a bb, find a -> +, +, +, bb, 2 in 1, 2 of 1 tracked, 0 of 0 went";

#[test]
fn what_has_room_stays(rt: HostRuntime) {
    run_each(&rt, rt.alloc(), KEPT);
}

const EVICTED: &str = "
    limit 4: fill a aa, fill b bb, fill c cc, find c -> +, +, +, cc, 4 in 2, 4 of 2 tracked, 2 of 1 went
    limit 4: fill a aa, find a, find a, fill b bb, find b, fill c cc, fill d dd, find d -> +, aa, aa, +, bb, +, +, dd, 4 in 2, 4 of 2 tracked, 4 of 2 went
    limit 5: fill a aa, fill b bb, fill c cc, fill d dd, fill e ee, find e -> +, +, +, +, +, ee, 4 in 2, 4 of 2 tracked, 6 of 3 went
    # no more bodies than the watermark
    limit 100 watermark 2: fill a a, fill b bb, fill c ccc, find c, fill d dd, find d -> +, +, +, ccc, +, dd, 5 in 2, 5 of 2 tracked, 3 of 2 went";

#[test]
fn what_has_no_room_goes(rt: HostRuntime) {
    run_each(&rt, rt.alloc(), EVICTED);
}
