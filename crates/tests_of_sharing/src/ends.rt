//! A body that breaks off while it is read along, and the length of one that does not.
use crate::play::play;
use crate::seats::ROOM;

// The writer ends after a first part, and the reader is told so. The head that it stores has 16 bytes.
const A_BODY_THAT_BREAKS_OFF_IS_NOT_WHOLE: &str = "
    0 key a
    0 limit-head 15
    0 miss 60
    0 begin
    0 head -> Some(16) is longer
    0 write he
    0 swap
    0 key a
    0 look 0 -> until 60 hit
    0 whole -> no
    0 read -> he
    0 sees
    0 read -> end
    0 whole -> no
    0 length -> None";

#[test]
fn a_body_that_breaks_off_is_not_whole(rt: HostRuntime) {
    play(
        &rt,
        rt.alloc(),
        4 * ROOM + 32,
        &[A_BODY_THAT_BREAKS_OFF_IS_NOT_WHOLE],
    );
}

const A_STORED_BODY_HAS_A_LENGTH_AND_IS_WHOLE: &str = "
    0 key a
    0 look 0 -> key permit
    0 fill hey 60 -> okokokok
    0 key a
    0 look 0 -> until 60 hit
    0 whole -> no
    0 read -> hey
    0 whole -> yes
    0 length -> Some(3)";

#[test]
fn a_stored_body_has_a_length_and_is_whole(rt: HostRuntime) {
    play(
        &rt,
        rt.alloc(),
        4 * ROOM + 32,
        &[A_STORED_BODY_HAS_A_LENGTH_AND_IS_WHOLE],
    );
}
