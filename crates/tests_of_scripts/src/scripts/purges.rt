//! Rows of purges and evictions at each step of a write.

use super::check;
use std::test::Fail;

#[test]
fn purge_after_look(rt: HostRuntime) -> Result<(), Fail> {
    let row = "open 1 -> ok\n\
        key 1 k 1 -> ok\n\
        look 1 -> none write\n\
        open 9 -> ok\n\
        key 9 k 1 -> ok\n\
        purge 9 -> absent\n\
        miss 1 -> ok\n\
        meta 1 60 -> ok\n\
        begin 1 -> ok\n\
        write 1 ab -> ok\n\
        finish 1 -> stored 2 evicted 0\n\
        open 3 -> ok\n\
        key 3 k 1 -> ok\n\
        look 3 -> hit 2\n";
    check(&rt, rt.alloc(), &["9"], row, 0, "")
}

#[test]
fn purge_after_miss(rt: HostRuntime) -> Result<(), Fail> {
    let row = "open 1 -> ok\n\
        key 1 k 1 -> ok\n\
        look 1 -> none write\n\
        miss 1 -> ok\n\
        open 9 -> ok\n\
        key 9 k 1 -> ok\n\
        purge 9 -> absent\n\
        meta 1 60 -> ok\n\
        begin 1 -> ok\n\
        write 1 ab -> ok\n\
        finish 1 -> stored 2 evicted 0\n\
        open 3 -> ok\n\
        key 3 k 1 -> ok\n\
        look 3 -> hit 2\n";
    check(&rt, rt.alloc(), &["9"], row, 0, "")
}

#[test]
fn purge_after_meta(rt: HostRuntime) -> Result<(), Fail> {
    let row = "open 1 -> ok\n\
        key 1 k 1 -> ok\n\
        look 1 -> none write\n\
        miss 1 -> ok\n\
        meta 1 60 -> ok\n\
        open 9 -> ok\n\
        key 9 k 1 -> ok\n\
        purge 9 -> absent\n\
        begin 1 -> ok\n\
        write 1 ab -> ok\n\
        finish 1 -> stored 2 evicted 0\n\
        open 3 -> ok\n\
        key 3 k 1 -> ok\n\
        look 3 -> hit 2\n";
    check(&rt, rt.alloc(), &["9"], row, 0, "")
}

#[test]
fn purge_after_begin(rt: HostRuntime) -> Result<(), Fail> {
    let row = "open 1 -> ok\n\
        key 1 k 1 -> ok\n\
        look 1 -> none write\n\
        miss 1 -> ok\n\
        meta 1 60 -> ok\n\
        begin 1 -> ok\n\
        open 9 -> ok\n\
        key 9 k 1 -> ok\n\
        purge 9 -> purged\n\
        write 1 ab -> ok\n\
        finish 1 -> refused E6\n\
        open 3 -> ok\n\
        key 3 k 1 -> ok\n\
        look 3 -> none write\n";
    check(&rt, rt.alloc(), &["9"], row, 0, "")
}

#[test]
fn purge_after_write(rt: HostRuntime) -> Result<(), Fail> {
    let row = "open 1 -> ok\n\
        key 1 k 1 -> ok\n\
        look 1 -> none write\n\
        miss 1 -> ok\n\
        meta 1 60 -> ok\n\
        begin 1 -> ok\n\
        write 1 ab -> ok\n\
        open 9 -> ok\n\
        key 9 k 1 -> ok\n\
        purge 9 -> purged\n\
        finish 1 -> refused E6\n\
        open 3 -> ok\n\
        key 3 k 1 -> ok\n\
        look 3 -> none write\n";
    check(&rt, rt.alloc(), &["9"], row, 0, "")
}

#[test]
fn purge_after_finish(rt: HostRuntime) -> Result<(), Fail> {
    let row = "open 1 -> ok\n\
        key 1 k 1 -> ok\n\
        look 1 -> none write\n\
        miss 1 -> ok\n\
        meta 1 60 -> ok\n\
        begin 1 -> ok\n\
        write 1 ab -> ok\n\
        finish 1 -> stored 2 evicted 0\n\
        open 9 -> ok\n\
        key 9 k 1 -> ok\n\
        purge 9 -> purged\n\
        open 3 -> ok\n\
        key 3 k 1 -> ok\n\
        look 3 -> none write\n";
    check(&rt, rt.alloc(), &["9"], row, 0, "")
}

#[test]
fn an_eviction_leaves_the_other_write(rt: HostRuntime) -> Result<(), Fail> {
    let row = "open 1 -> ok\n\
        key 1 k 1 -> ok\n\
        look 1 -> none write\n\
        miss 1 -> ok\n\
        meta 1 60 -> ok\n\
        begin 1 -> ok\n\
        open 2 -> ok\n\
        key 2 k 1 -> ok\n\
        look 2 -> part\n\
        miss 2 -> ok\n\
        meta 2 60 -> ok\n\
        begin 2 -> ok\n\
        write 1 xxxx -> ok\n\
        finish 1 -> stored 4 evicted 1\n\
        write 2 y -> ok\n\
        finish 2 -> stored 1 evicted 0\n";
    check(&rt, rt.alloc(), &["3"], row, 0, "")
}

// The entry of a replaced body is removed alone, and the body that replaced it stays.
#[test]
fn an_overwritten_entry_is_evicted_by_itself(rt: HostRuntime) -> Result<(), Fail> {
    let row = "open 1 -> ok\n\
        key 1 a 1 -> ok\n\
        look 1 -> none write\n\
        miss 1 -> ok\n\
        meta 1 60 -> ok\n\
        begin 1 -> ok\n\
        write 1 xx -> ok\n\
        finish 1 -> stored 2 evicted 0\n\
        end 1 -> ok\n\
        open 2 -> ok\n\
        key 2 a 1 -> ok\n\
        look 2 -> hit 2\n\
        miss 2 -> ok\n\
        meta 2 60 -> ok\n\
        begin 2 -> ok\n\
        write 2 yyy -> ok\n\
        finish 2 -> stored 3 evicted 0\n\
        end 2 -> ok\n\
        stat -> stored 3 slots 1 weight 5 items 2 evicted 0 size 0\n\
        open 3 -> ok\n\
        key 3 b 1 -> ok\n\
        look 3 -> none write\n\
        miss 3 -> ok\n\
        meta 3 60 -> ok\n\
        begin 3 -> ok\n\
        write 3 zzzzz -> ok\n\
        finish 3 -> stored 5 evicted 1\n\
        end 3 -> ok\n\
        open 4 -> ok\n\
        key 4 a 1 -> ok\n\
        look 4 -> hit 3\n\
        stat -> stored 8 slots 2 weight 8 items 2 evicted 1 size 2\n";
    check(&rt, rt.alloc(), &["9"], row, 0, "")
}
