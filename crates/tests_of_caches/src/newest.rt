//! A look-up finds the newest response of a key (RFC 9111, 4), and no older one takes its place.
use crate::scenes::run_rooms;

const RELOADED: &str = "
    # the first version is on its way, and read along
    1 open a
    1 miss
    1 begin
    1 write one
    2 open a
    2 take
    2 read -> one
    # meanwhile the second one is fetched and stored
    3 open a
    3 miss
    3 begin
    3 last two
    3 finish
    3 end
    3 open a
    3 take
    3 read -> two
    # the first one does not replace it; who reads the first one reads on
    1 last ..
    1 finish -> Superseded
    2 read -> ..
    2 read -> end
    2 whole -> yes
    4 open a
    4 take
    4 read -> two
    totals -> 3 in 1, 3 of 1 tracked, 0 of 0 went";

#[test]
fn an_older_version_does_not_come_back(rt: HostRuntime) {
    run_rooms(&rt, rt.alloc(), 8, RELOADED);
}

const IN_FLIGHT: &str = "
    # of a stored version and one that is on its way the newer one is found
    fill a zero -> +
    1 open a
    1 miss
    1 begin
    1 write one
    3 open a
    3 take
    3 read -> one
    3 end
    # and of two that are on their way
    2 open a
    2 miss
    2 begin
    2 write two
    3 open a
    3 take
    3 read -> two
    3 end
    # once the newer one broke off, the older one is found, and stored
    2 end
    3 open a
    3 take
    3 read -> one
    1 last ..
    1 finish
    3 read -> ..
    3 end
    3 open a
    3 take
    3 read -> one..
    totals -> 5 in 1, 5 of 1 tracked, 0 of 0 went";

#[test]
fn the_newest_version_is_found(rt: HostRuntime) {
    run_rooms(&rt, rt.alloc(), 8, IN_FLIGHT);
}
