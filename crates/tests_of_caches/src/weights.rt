//! Entries that weigh all that is kept for them: the body, the text of the head, and 512 bytes for what is kept beside these.
//!
//! The text of a head without fields has 16 bytes (`HTTP/1.1 200`, and two ends of lines), and a field `vary` with a value of
//! `n` bytes has `n + 8` (a colon, a space and the end of its line). So a body of two bytes weighs 530.
use crate::scenes::{run_list, run_rooms};

const ALL: &str = "
    # two bodies of two bytes have room, and a third evicts the one that was used least recently
    entries 1060: fill a aa -> +, 2 in 1, 530 of 1 tracked, 0 of 0 went
    entries 1060: fill a aa, fill b bb -> +, +, 4 in 2, 1060 of 2 tracked, 0 of 0 went
    entries 1060: fill a aa, fill b bb, find a, fill c -> +, +, aa, +, 2 in 2, 1058 of 2 tracked, 530 of 1 went
    entries 1060: fill a aa, fill b bb, find a, fill c, find b -> +, +, aa, +, -, 2 in 2, 1058 of 2 tracked, 530 of 1 went";

#[test]
fn an_entry_weighs_all_that_is_kept_for_it(rt: HostRuntime) {
    run_list(&rt, rt.alloc(), ALL);
}

const RENEWED: &str = "
    # a head that is 20 bytes longer has room
    entries 1080: fill a aa, fill b bb, renew a 0123456789ab -> +, +, +, 4 in 2, 1080 of 2 tracked, 0 of 0 went
    # one byte more evicts the other body
    entries 1080: fill a aa, fill b bb, renew a 0123456789ab, renew a 0123456789abc -> +, +, +, +, 2 in 1, 551 of 1 tracked, 530 of 1 went
    # with the head of before the entry weighs what it did
    entries 1080: fill a aa, fill b bb, renew a 0123456789ab, renew a 0123456789abc, find b, find a, renew a -> +, +, +, +, -, aa, +, 2 in 1, 530 of 1 tracked, 530 of 1 went
    entries 1080: fill a aa, fill b bb, renew a 0123456789ab, renew a 0123456789abc, find b, find a, renew a, renew b -> +, +, +, +, -, aa, +, -, 2 in 1, 530 of 1 tracked, 530 of 1 went";

#[test]
fn a_renewed_head_counts(rt: HostRuntime) {
    run_list(&rt, rt.alloc(), RENEWED);
}

const OUTGROWN: &str = "
    # an entry that outgrows the whole limit goes itself
    entries 530: fill a aa, renew a 0, find a -> +, +, -, 0 in 0, 0 of 0 tracked, 539 of 1 went";

#[test]
fn a_head_without_room_goes(rt: HostRuntime) {
    run_list(&rt, rt.alloc(), OUTGROWN);
}

const BODIES: &str = "
    # where bodies alone count, heads do not
    limit 4: weighing, fill a aa, fill b bb, renew a 0123456789abc -> bodies, +, +, +, 4 in 2, 4 of 2 tracked, 0 of 0 went";

#[test]
fn bodies_alone_count_as_before(rt: HostRuntime) {
    run_list(&rt, rt.alloc(), BODIES);
}

// Without a write there is no length.
const HEADS: &str = "
    # a head of 36 bytes is as long as the caller allows
    1 open a
    1 limit-head 36
    1 miss 0123456789ab
    1 head -> none within
    1 begin
    1 head -> 36 within
    1 last aa
    1 finish
    1 head -> none within
    1 end
    # one of 37 turns caching off before anything is stored
    2 open b
    2 limit-head 36
    2 miss 0123456789abc
    2 head -> none within
    2 begin
    2 head -> 37 beyond
    2 disable -> yes
    find a -> aa
    totals -> 2 in 1, 2 of 1 tracked, 0 of 0 went";

#[test]
fn a_head_may_be_too_long(rt: HostRuntime) {
    run_rooms(&rt, rt.alloc(), 100, HEADS);
}
