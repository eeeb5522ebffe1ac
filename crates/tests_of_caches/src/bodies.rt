//! A body is stored, found and purged, and the least recently used one is evicted.
use crate::scenes::run_list;

const STORED: &str = "
    limit 4: fill a hi, find a, find b -> +, hi, -, 2 in 1, 2 of 1 tracked, 0 of 0 went";

#[test]
fn a_body_is_stored_and_found(rt: HostRuntime) {
    run_list(&rt, rt.alloc(), STORED);
}

const WITHIN: &str = "
    # of three bodies of two bytes, of which four bytes may be stored, the least recently used one is evicted
    limit 4: fill a aa, fill b bb, find a, fill c cc, find a, find b -> +, +, aa, +, aa, -, 4 in 2, 4 of 2 tracked, 2 of 1 went";

#[test]
fn what_is_stored_stays_within_the_limit(rt: HostRuntime) {
    run_list(&rt, rt.alloc(), WITHIN);
}

const PURGED: &str = "
    limit 4: fill a hi, purge a, purge a, find a -> +, +, -, -, 0 in 0, 0 of 0 tracked, 0 of 0 went";

#[test]
fn a_purge_takes_the_body_out(rt: HostRuntime) {
    run_list(&rt, rt.alloc(), PURGED);
}
