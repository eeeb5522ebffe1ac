//! A body that breaks off while it is read along, and the length of one that does not.
use crate::scenes::run_rooms;

const CUT: &str = "
    # the writer ends after a first part
    1 open a
    1 miss
    1 begin
    1 write he
    2 open a
    2 take
    2 whole -> no
    2 read -> he
    1 end
    2 read -> end
    2 whole -> no
    2 length -> none";

#[test]
fn a_body_that_breaks_off_is_not_whole(rt: HostRuntime) {
    run_rooms(&rt, rt.alloc(), 8, CUT);
}

const WHOLE: &str = "
    fill a hey -> +
    1 open a
    1 take
    1 whole -> no
    1 read -> hey
    1 whole -> yes
    1 length -> 3";

#[test]
fn a_stored_body_has_a_length_and_is_whole(rt: HostRuntime) {
    run_rooms(&rt, rt.alloc(), 8, WHOLE);
}
