//! Rows of variants, and of metas that are revalidated.

use super::check;
use std::test::Fail;

// A key with a variance has a slot of its own; the fills that a key cannot use are not part of it.
#[test]
fn keys_with_options(rt: HostRuntime) -> Result<(), Fail> {
    let row = "open 1 -> ok\n\
        key 1 aa 1 v=00000000000000000000000000000000 u=7,8 -> ok\n\
        look 1 -> none write\n\
        open 2 -> ok\n\
        key 2 aa 1 -> ok\n\
        look 2 -> none write\n\
        open 3 -> ok\n\
        key 3 aa 2 u=9 -> ok\n\
        look 3 -> none read\n\
        open 4 -> ok\n\
        key 4 aa 1 v=00000000000000000000000000000000 -> ok\n\
        look 4 -> none read\n";
    check(&rt, rt.alloc(), &["9"], row, 0, "")
}

#[test]
fn revalidated(rt: HostRuntime) -> Result<(), Fail> {
    let row = "open 1 -> ok\n\
        key 1 k 1 -> ok\n\
        look 1 -> none write\n\
        miss 1 -> ok\n\
        meta 1 60 -> ok\n\
        begin 1 -> ok\n\
        write 1 x -> ok\n\
        finish 1 -> stored 1 evicted 0\n\
        end 1 -> ok\n\
        open 2 -> ok\n\
        key 2 k 1 -> ok\n\
        look 2 -> hit 1\n\
        found 2 expired -> stale write\n\
        revalidate 2 90 -> updated\n\
        phase 2 -> revalidated\n";
    check(&rt, rt.alloc(), &["9"], row, 0, "")
}

#[test]
fn purged_before_it_was_revalidated(rt: HostRuntime) -> Result<(), Fail> {
    let row = "open 1 -> ok\n\
        key 1 k 1 -> ok\n\
        look 1 -> none write\n\
        miss 1 -> ok\n\
        meta 1 60 -> ok\n\
        begin 1 -> ok\n\
        write 1 x -> ok\n\
        finish 1 -> stored 1 evicted 0\n\
        end 1 -> ok\n\
        open 2 -> ok\n\
        key 2 k 1 -> ok\n\
        look 2 -> hit 1\n\
        found 2 expired -> stale write\n\
        open 3 -> ok\n\
        key 3 k 1 -> ok\n\
        purge 3 -> purged\n\
        revalidate 2 90 -> not updated\n";
    check(&rt, rt.alloc(), &["9"], row, 0, "")
}

#[test]
fn created_before_the_variants_is_hidden(rt: HostRuntime) -> Result<(), Fail> {
    let row = "at 5 -> ok\n\
        open 1 -> ok\n\
        key 1 k 1 v=00000000000000000000000000000000 -> ok\n\
        look 1 -> none write\n\
        miss 1 -> ok\n\
        meta 1 60 -> ok\n\
        begin 1 -> ok\n\
        write 1 xx -> ok\n\
        finish 1 -> stored 2 evicted 0\n\
        end 1 -> ok\n\
        at 6 -> ok\n\
        open 2 -> ok\n\
        key 2 k 1 -> ok\n\
        look 2 -> none write\n\
        miss 2 -> ok\n\
        meta 2 60 -> ok\n\
        begin 2 -> ok\n\
        write 2 y -> ok\n\
        finish 2 -> stored 1 evicted 0\n\
        end 2 -> ok\n\
        open 3 -> ok\n\
        key 3 k 1 -> ok\n\
        look 3 -> hit 1\n\
        vary 3 00000000000000000000000000000000 -> other\n\
        look 3 -> none write\n";
    check(&rt, rt.alloc(), &["9"], row, 0, "")
}

#[test]
fn created_with_the_variants_is_found(rt: HostRuntime) -> Result<(), Fail> {
    let row = "at 6 -> ok\n\
        open 1 -> ok\n\
        key 1 k 1 v=00000000000000000000000000000000 -> ok\n\
        look 1 -> none write\n\
        miss 1 -> ok\n\
        meta 1 60 -> ok\n\
        begin 1 -> ok\n\
        write 1 xx -> ok\n\
        finish 1 -> stored 2 evicted 0\n\
        end 1 -> ok\n\
        at 6 -> ok\n\
        open 2 -> ok\n\
        key 2 k 1 -> ok\n\
        look 2 -> none write\n\
        miss 2 -> ok\n\
        meta 2 60 -> ok\n\
        begin 2 -> ok\n\
        write 2 y -> ok\n\
        finish 2 -> stored 1 evicted 0\n\
        end 2 -> ok\n\
        open 3 -> ok\n\
        key 3 k 1 -> ok\n\
        look 3 -> hit 1\n\
        vary 3 00000000000000000000000000000000 -> other\n\
        look 3 -> hit 2\n";
    check(&rt, rt.alloc(), &["9"], row, 0, "")
}

#[test]
fn the_variance_is_removed(rt: HostRuntime) -> Result<(), Fail> {
    let row = "open 1 -> ok\n\
        key 1 k 1 v=00000000000000000000000000000000 -> ok\n\
        look 1 -> none write\n\
        miss 1 -> ok\n\
        meta 1 60 -> ok\n\
        variance 1 none -> ok\n\
        begin 1 -> ok\n\
        variance 1 none -> wrong call\n\
        write 1 x -> ok\n\
        finish 1 -> stored 1 evicted 0\n\
        open 2 -> ok\n\
        key 2 k 1 -> ok\n\
        look 2 -> hit 1\n";
    check(&rt, rt.alloc(), &["9"], row, 0, "")
}

#[test]
fn two_keys_of_one_shard(rt: HostRuntime) -> Result<(), Fail> {
    let row = "open 1 -> ok\n\
        key 1 aa 1 -> ok\n\
        look 1 -> none write\n\
        miss 1 -> ok\n\
        meta 1 60 -> ok\n\
        begin 1 -> ok\n\
        write 1 x -> ok\n\
        finish 1 -> stored 1 evicted 0\n\
        end 1 -> ok\n\
        open 2 -> ok\n\
        key 2 aa 1 v=00000000000000000000000000000000 -> ok\n\
        look 2 -> none write\n\
        miss 2 -> ok\n\
        meta 2 60 -> ok\n\
        begin 2 -> ok\n\
        write 2 yy -> ok\n\
        finish 2 -> stored 2 evicted 0\n\
        end 2 -> ok\n\
        open 3 -> ok\n\
        key 3 aa 1 -> ok\n\
        purge 3 -> purged\n\
        open 4 -> ok\n\
        key 4 aa 1 -> ok\n\
        look 4 -> none write\n\
        open 5 -> ok\n\
        key 5 aa 1 v=00000000000000000000000000000000 -> ok\n\
        look 5 -> hit 2\n";
    check(&rt, rt.alloc(), &["9"], row, 0, "")
}

// The next look-up is for the variant only if what was found is another one.
#[test]
fn a_variant_is_looked_for(rt: HostRuntime) -> Result<(), Fail> {
    let row = "open 1 -> ok\n\
        vary 1 00000000000000000000000000000000 -> wrong call\n\
        key 1 k 1 -> ok\n\
        look 1 -> none write\n\
        vary 1 00000000000000000000000000000000 -> wrong call\n\
        variance 1 none -> wrong call\n\
        miss 1 -> ok\n\
        meta 1 60 -> ok\n\
        variance 1 00000000000000000000000000000000 -> ok\n\
        begin 1 -> ok\n\
        write 1 x -> ok\n\
        finish 1 -> stored 1 evicted 0\n\
        open 2 -> ok\n\
        key 2 k 1 -> ok\n\
        look 2 -> hit 1\n\
        vary 2 00000000000000000000000000000001 -> other\n\
        look 2 -> none write\n\
        open 3 -> ok\n\
        key 3 k 1 -> ok\n\
        look 3 -> hit 1\n\
        vary 3 00000000000000000000000000000000 -> same\n\
        found 3 expired -> stale write\n\
        revalidate 3 90 -> updated\n\
        revalidate 3 90 -> wrong call\n\
        phase 3 -> revalidated\n";
    check(&rt, rt.alloc(), &["9"], row, 0, "")
}
