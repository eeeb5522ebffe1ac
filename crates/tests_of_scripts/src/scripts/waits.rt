//! Rows of requests that wait for the permit of another.

use super::check;
use std::test::Fail;

#[test]
fn age_timeout_and_a_late_release_leaves_the_new_permit(rt: HostRuntime) -> Result<(), Fail> {
    let row = "open 1 -> ok\n\
        key 1 k 1 -> ok\n\
        look 1 -> none write\n\
        open 2 -> ok\n\
        key 2 k 1 -> ok\n\
        look 2 -> none read\n\
        at 10 -> ok\n\
        open 5 -> ok\n\
        key 5 k 1 -> ok\n\
        look 5 -> none read\n\
        wait 2 -> age_timeout\n\
        open 3 -> ok\n\
        key 3 k 1 -> ok\n\
        look 3 -> none write\n\
        release 1 InternalError -> ok\n\
        open 4 -> ok\n\
        key 4 k 1 -> ok\n\
        look 4 -> none read\n";
    check(&rt, rt.alloc(), &["9"], row, 0, "")
}

#[test]
fn told_by_a_publication(rt: HostRuntime) -> Result<(), Fail> {
    let row = "open 1 -> ok\n\
        key 1 k 1 -> ok\n\
        look 1 -> none write\n\
        open 2 -> ok\n\
        key 2 k 1 u=7 -> ok\n\
        look 2 -> none read\n\
        wait 2 -> pending\n\
        publish 1 7 -> ok\n\
        wait 2 -> abandoned 7\n";
    check(&rt, rt.alloc(), &["9"], row, 0, "")
}

#[test]
fn released_before_told(rt: HostRuntime) -> Result<(), Fail> {
    let row = "open 1 -> ok\n\
        key 1 k 1 -> ok\n\
        look 1 -> none write\n\
        open 2 -> ok\n\
        key 2 k 1 u=7 -> ok\n\
        look 2 -> none read\n\
        wait 2 -> pending\n\
        publish 1 7 -> ok\n\
        miss 1 -> ok\n\
        meta 1 60 -> ok\n\
        begin 1 -> ok\n\
        wait 2 -> done\n";
    check(&rt, rt.alloc(), &["9"], row, 0, "")
}

#[test]
fn aged_before_told(rt: HostRuntime) -> Result<(), Fail> {
    let row = "open 1 -> ok\n\
        key 1 k 1 -> ok\n\
        look 1 -> none write\n\
        open 2 -> ok\n\
        key 2 k 1 u=7 -> ok\n\
        look 2 -> none read\n\
        wait 2 -> pending\n\
        publish 1 7 -> ok\n\
        at 10 -> ok\n\
        wait 2 -> age_timeout\n";
    check(&rt, rt.alloc(), &["9"], row, 0, "")
}

#[test]
fn a_permit_let_go_by_the_end_of_its_request(rt: HostRuntime) -> Result<(), Fail> {
    let row = "open 1 -> ok\n\
        key 1 k 1 -> ok\n\
        look 1 -> none write\n\
        open 2 -> ok\n\
        key 2 k 1 -> ok\n\
        look 2 -> none read\n\
        end 1 -> ok\n\
        wait 2 -> dangling\n\
        open 3 -> ok\n\
        key 3 k 1 -> ok\n\
        look 3 -> none write\n";
    check(&rt, rt.alloc(), &["9"], row, 0, "")
}

#[test]
fn aged_stays_aged_when_moments_go_back(rt: HostRuntime) -> Result<(), Fail> {
    let row = "open 1 -> ok\n\
        key 1 k 1 -> ok\n\
        look 1 -> none write\n\
        open 2 -> ok\n\
        key 2 k 1 -> ok\n\
        look 2 -> none read\n\
        open 3 -> ok\n\
        key 3 k 1 -> ok\n\
        look 3 -> none read\n\
        at 10 -> ok\n\
        wait 2 -> age_timeout\n\
        at 5 -> ok\n\
        wait 3 -> age_timeout\n";
    check(&rt, rt.alloc(), &["9"], row, 0, "")
}

#[test]
fn the_wait_timeout_is_counted_over_two_look_ups(rt: HostRuntime) -> Result<(), Fail> {
    let row = "open 1 -> ok\n\
        key 1 k 1 -> ok\n\
        look 1 -> none write\n\
        open 2 w=3 -> ok\n\
        key 2 k 1 -> ok\n\
        look 2 -> none read\n\
        wait 2 -> pending\n\
        at 2 -> ok\n\
        wait 2 -> pending\n\
        at 3 -> ok\n\
        wait 2 -> wait_timeout\n\
        wait 2 -> wrong call\n\
        look 2 -> none read\n\
        wait 2 -> wait_timeout\n";
    check(&rt, rt.alloc(), &["9"], row, 0, "")
}

// A request that is enabled again waits again, but the time that it waited before counts.
#[test]
fn an_enabled_request_waits_for_so_long(rt: HostRuntime) -> Result<(), Fail> {
    let row = "open 1 -> ok\n\
        key 1 k 1 -> ok\n\
        look 1 -> none write\n\
        open 2 -> ok\n\
        disable 2 InternalError -> ok\n\
        enable 2 w=3 -> ok\n\
        key 2 k 1 -> ok\n\
        look 2 -> none read\n\
        wait 2 -> pending\n\
        at 3 -> ok\n\
        wait 2 -> wait_timeout\n";
    check(&rt, rt.alloc(), &["9"], row, 0, "")
}

#[test]
fn a_permit_handed_over(rt: HostRuntime) -> Result<(), Fail> {
    let row = "open 1 -> ok\n\
        key 1 k 1 -> ok\n\
        look 1 -> none write\n\
        open 2 -> ok\n\
        give 1 2 -> ok\n\
        end 1 -> ok\n\
        open 3 -> ok\n\
        key 3 k 1 -> ok\n\
        look 3 -> none read\n\
        end 2 -> ok\n\
        open 4 -> ok\n\
        key 4 k 1 -> ok\n\
        look 4 -> none write\n";
    check(&rt, rt.alloc(), &["9"], row, 0, "")
}

#[test]
fn a_permit_handed_to_a_request_without_a_lock_in_use(rt: HostRuntime) -> Result<(), Fail> {
    let row = "open 1 -> ok\n\
        key 1 k 1 -> ok\n\
        look 1 -> none write\n\
        open 2 -> ok\n\
        key 2 k 1 -> ok\n\
        lock 2 off -> ok\n\
        give 1 2 -> ok\n\
        open 3 -> ok\n\
        key 3 k 1 -> ok\n\
        look 3 -> none write\n";
    check(&rt, rt.alloc(), &["9"], row, 0, "")
}

// The giver no longer holds it when it is taken, so it is not let go.
#[test]
fn a_permit_handed_to_its_holder(rt: HostRuntime) -> Result<(), Fail> {
    let row = "give 1 1 -> wrong call\n\
        open 1 -> ok\n\
        give 1 1 -> wrong call\n\
        key 1 k 1 -> ok\n\
        look 1 -> none write\n\
        give 1 2 -> wrong call\n\
        give 1 1 -> ok\n\
        open 2 -> ok\n\
        key 2 k 1 -> ok\n\
        look 2 -> none read\n\
        give 2 1 -> wrong call\n\
        end 1 -> ok\n\
        wait 2 -> dangling\n";
    check(&rt, rt.alloc(), &["9"], row, 0, "")
}

// A look-up gets the new lock first, and lets the old one go then.
#[test]
fn who_looks_up_again_waits_on_its_own_permit(rt: HostRuntime) -> Result<(), Fail> {
    let row = "open 1 -> ok\n\
        key 1 k 1 -> ok\n\
        look 1 -> none write\n\
        look 1 -> none read\n\
        wait 1 -> dangling\n";
    check(&rt, rt.alloc(), &["9"], row, 0, "")
}
