//! Variants of a key, and stale bodies that are good: which look-ups find them.
use super::*;

const VARIANTS: &str = "
    # a stale body is renewed
    1 enable
    1 key
    1 look -> none
    1 miss
    1 meta 60
    1 begin
    1 write x
    1 finish -> stored 1
    2 enable
    2 key
    2 renew 90 -> wrong
    2 expired
    2 renew 90 -> updated
    2 renew 90 -> wrong

    # it is purged before it is renewed
    1 enable
    1 key
    1 look -> none
    1 miss
    1 meta 60
    1 begin
    1 write x
    1 finish -> stored 1
    2 enable
    2 key
    2 expired
    3 enable
    3 key
    3 purge -> there
    2 renew 90 -> not updated

    # the variant was made a second before the body under the key, and is hidden
    5 second
    1 enable
    1 key 0
    1 look -> none
    1 miss
    1 meta 60
    1 begin
    1 write xx
    1 finish -> stored 2
    6 second
    2 enable
    2 key
    2 look -> none
    2 miss
    2 meta 60
    2 begin
    2 write x
    2 finish -> stored 1
    3 enable
    3 key
    3 look -> hit 1
    3 vary 0 -> other
    3 look -> none

    # it was made in the same second, and is found
    6 second
    1 enable
    1 key 0
    1 look -> none
    1 miss
    1 meta 60
    1 begin
    1 write xx
    1 finish -> stored 2
    2 enable
    2 key
    2 look -> none
    2 miss
    2 meta 60
    2 begin
    2 write x
    2 finish -> stored 1
    3 enable
    3 key
    3 look -> hit 1
    3 vary 0 -> other
    3 look -> hit 2

    # a response that varies no more stands under the key itself
    1 enable
    1 key 0
    1 look -> none
    1 miss
    1 meta 60
    1 variance none
    1 begin
    1 variance none -> wrong
    1 write x
    1 finish -> stored 1
    2 enable
    2 key
    2 look -> hit 1

    # a variant is purged alone, and so is the body under the key
    1 enable
    1 key
    1 look -> none
    1 miss
    1 meta 60
    1 begin
    1 write x
    1 finish -> stored 1
    2 enable
    2 key 0
    2 look -> none
    2 miss
    2 meta 60
    2 begin
    2 write xx
    2 finish -> stored 2
    3 enable
    3 key
    3 purge -> there
    3 look -> none
    3 purge -> not there
    2 look -> wrong";

#[test]
fn variants_are_found_and_hidden(rt: HostRuntime) {
    run(&rt, rt.alloc(), VARIANTS);
}

// One request looks the key up, another one renews the meta, and then the first takes what it found: it
// keeps the meta of its look-up, and the next look-up gives the new one.
const RENEWED_BETWEEN: &str = "
    1 enable
    1 key
    1 look -> none
    1 miss
    1 meta 60
    1 begin
    1 write x
    1 finish -> stored 1
    7 second
    2 enable
    2 key
    2 expired
    3 enable
    3 key
    3 renews 90 -> updated
    3 phase -> Hit
    3 times -> 60 0 0 0
    2 phase -> Revalidated
    2 times -> 90 0 7 0
    2 held -> none
    4 enable
    4 key
    4 finds-times -> 90 0 7 0";

#[test]
fn a_meta_is_renewed_between_two_calls(rt: HostRuntime) {
    run(&rt, rt.alloc(), RENEWED_BETWEEN);
}
