//! Rows of phases: bypassing, forced freshness, stale bodies, seeking, and turning caching off.

use super::check;
use std::test::Fail;

#[test]
fn a_key_is_passed_by(rt: HostRuntime) -> Result<(), Fail> {
    let row = "open 1 -> ok\n\
        key 1 k 1 -> ok\n\
        bypass 1 -> ok\n\
        look 1 -> wrong call\n\
        miss 1 -> ok\n";
    check(&rt, rt.alloc(), &["9"], row, 0, "")
}

#[test]
fn the_phase_of_a_key_that_is_passed_by(rt: HostRuntime) -> Result<(), Fail> {
    let row = "open 1 -> ok\n\
        key 1 k 1 -> ok\n\
        bypass 1 -> ok\n\
        phase 1 -> bypass\n\
        look 1 -> wrong call\n\
        miss 1 -> ok\n";
    check(&rt, rt.alloc(), &["9"], row, 0, "")
}

// The phase table's rows of these calls.
#[test]
fn a_permit_is_released_and_a_lock_taken_out_of_use(rt: HostRuntime) -> Result<(), Fail> {
    let row = "open 1 -> ok\n\
        key 1 k 1 -> ok\n\
        look 1 -> none write\n\
        open 2 -> ok\n\
        key 2 k 1 -> ok\n\
        look 2 -> none read\n\
        publish 1 7 8 -> ok\n\
        release 1 CacheLockTimeout -> wrong call\n\
        release 1 InternalError -> ok\n\
        release 1 CacheLockTimeout -> ok\n\
        open 3 -> ok\n\
        key 3 k 1 -> ok\n\
        lock 3 off -> ok\n\
        look 3 -> none\n\
        lock 3 on -> ok\n\
        look 3 -> none write\n\
        lock 3 off -> wrong call\n\
        at 10 -> ok\n\
        look 2 -> none read\n\
        release 2 Deferred -> ok\n\
        look 2 -> none read\n";
    check(&rt, rt.alloc(), &["9"], row, 0, "")
}

#[test]
fn a_forced_miss(rt: HostRuntime) -> Result<(), Fail> {
    let row = "open 1 -> ok\n\
        key 1 k 1 -> ok\n\
        look 1 -> none write\n\
        miss 1 -> ok\n\
        meta 1 60 -> ok\n\
        begin 1 -> ok\n\
        write 1 x -> ok\n\
        finish 1 -> stored 1 evicted 0\n\
        end 1 -> ok\n\
        open 2 -> ok\n\
        key 2 k 1 -> ok\n\
        look 2 -> hit 1\n\
        found 2 force_miss -> key write\n\
        miss 2 -> ok\n";
    check(&rt, rt.alloc(), &["9"], row, 0, "")
}

// A stale body is served while another request renews it, and its reader is ended.
#[test]
fn a_stale_body_is_served(rt: HostRuntime) -> Result<(), Fail> {
    let row = "open 1 -> ok\n\
        key 1 k 1 -> ok\n\
        look 1 -> none write\n\
        miss 1 -> ok\n\
        at 3 -> ok\n\
        meta 1 5 10 20 -> ok\n\
        begin 1 -> ok\n\
        write 1 x -> ok\n\
        finish 1 -> stored 1 evicted 0\n\
        at 6 -> ok\n\
        open 2 -> ok\n\
        updating 2 -> wrong call\n\
        key 2 k 1 -> ok\n\
        done 2 -> wrong call\n\
        look 2 -> hit 1\n\
        found 2 expired -> stale write\n\
        updating 2 -> ok\n\
        phase 2 -> stale-updating\n\
        read 2 -> data x\n\
        read 2 -> end\n\
        done 2 -> ok\n\
        read 2 -> wrong call\n\
        done 2 -> ok\n";
    check(&rt, rt.alloc(), &["9"], row, 0, "")
}

#[test]
fn seeks(rt: HostRuntime) -> Result<(), Fail> {
    let row = "open 1 -> ok\n\
        key 1 k 1 -> ok\n\
        look 1 -> none write\n\
        miss 1 -> ok\n\
        meta 1 60 -> ok\n\
        begin 1 -> ok\n\
        write 1 test1test2 -> ok\n\
        finish 1 -> stored 10 evicted 0\n\
        end 1 -> ok\n\
        open 2 -> ok\n\
        key 2 k 1 -> ok\n\
        look 2 -> hit 10\n\
        found 2 fresh -> hit\n\
        seek 2 10000 -> refused E2\n\
        seek 2 5 -> ok\n\
        read 2 -> data test2\n\
        read 2 -> end\n\
        seek 2 4 5 -> ok\n\
        read 2 -> data 1\n\
        seek 2 5 4 -> refused E2\n";
    check(&rt, rt.alloc(), &["20"], row, 0, "")
}

#[test]
fn an_expired_body_is_overwritten(rt: HostRuntime) -> Result<(), Fail> {
    let row = "open 1 -> ok\n\
        key 1 k 1 -> ok\n\
        look 1 -> none write\n\
        miss 1 -> ok\n\
        meta 1 60 -> ok\n\
        begin 1 -> ok\n\
        write 1 x -> ok\n\
        finish 1 -> stored 1 evicted 0\n\
        end 1 -> ok\n\
        open 2 -> ok\n\
        key 2 k 1 -> ok\n\
        expire 2 -> expired\n\
        look 2 -> hit 1\n\
        found 2 expired -> stale write\n\
        meta 2 90 -> ok\n\
        phase 2 -> expired\n\
        begin 2 -> ok\n\
        write 2 yy -> ok\n\
        finish 2 -> stored 2 evicted 0\n\
        open 3 -> ok\n\
        key 3 k 1 -> ok\n\
        look 3 -> hit 2\n";
    check(&rt, rt.alloc(), &["9"], row, 0, "")
}

#[test]
fn disabling(rt: HostRuntime) -> Result<(), Fail> {
    let row = "open 1 -> ok\n\
        key 1 k 1 -> ok\n\
        look 1 -> none write\n\
        disable 1 CacheLockTimeout -> wrong call\n\
        disable 1 NeverEnabled -> wrong call\n\
        disable 1 InternalError -> ok\n\
        phase 1 -> disabled\n\
        open 2 -> ok\n\
        key 2 k 1 -> ok\n\
        look 2 -> none write\n\
        enable 1 -> ok\n\
        phase 1 -> uninitialized\n";
    check(&rt, rt.alloc(), &["9"], row, 0, "")
}

#[test]
fn revalidated_as_uncacheable(rt: HostRuntime) -> Result<(), Fail> {
    let row = "open 1 -> ok\n\
        key 1 k 1 -> ok\n\
        look 1 -> none write\n\
        miss 1 -> ok\n\
        meta 1 60 -> ok\n\
        begin 1 -> ok\n\
        write 1 x -> ok\n\
        finish 1 -> stored 1 evicted 0\n\
        end 1 -> ok\n\
        open 2 -> ok\n\
        key 2 k 1 -> ok\n\
        look 2 -> hit 1\n\
        found 2 expired -> stale write\n\
        uncacheable 2 OriginNotCache -> ok\n\
        phase 2 -> revalidated-nocache\n\
        open 3 -> ok\n\
        key 3 k 1 -> ok\n\
        look 3 -> hit 1\n";
    check(&rt, rt.alloc(), &["9"], row, 0, "")
}

#[test]
fn only_a_stale_body_is_revalidated_as_uncacheable(rt: HostRuntime) -> Result<(), Fail> {
    let row = "open 1 -> ok\n\
        key 1 k 1 -> ok\n\
        look 1 -> none write\n\
        miss 1 -> ok\n\
        meta 1 60 -> ok\n\
        begin 1 -> ok\n\
        write 1 x -> ok\n\
        finish 1 -> stored 1 evicted 0\n\
        end 1 -> ok\n\
        open 2 -> ok\n\
        key 2 k 1 -> ok\n\
        look 2 -> hit 1\n\
        uncacheable 2 OriginNotCache -> wrong call\n\
        found 2 expired -> stale write\n\
        uncacheable 2 OriginNotCache -> ok\n\
        phase 2 -> revalidated-nocache\n\
        open 3 -> ok\n\
        key 3 k 1 -> ok\n\
        look 3 -> hit 1\n";
    check(&rt, rt.alloc(), &["9"], row, 0, "")
}
