//! Time that moves while others read. A permit ages out after ten seconds.
use crate::play::play;
use crate::seats::TWO_ENTRIES;

const A_PERMIT_AGES_WHILE_OTHERS_READ: &str = "\
    2 key f\n\
    2 look 0 -> key permit\n\
    2 fill body 60 -> okokokok\n\
    3 key b\n\
    3 look 0 -> key permit\n\
    3 fill other 60 -> okokokok\n\
    0 key a\n\
    0 look 7 -> key permit\n\
    1 key a\n\
    1 look 8 -> key waits\n\
    2 many f body\n\
    3 many b other\n\
    1 poll 8 -> pending\n\
    1 poll 16 -> pending\n\
    1 poll 17 -> AgeTimeout\n\
    1 look 17 -> key permit\n\
    0 key a\n\
    0 look 18 -> key waits\n\
    2 many f body\n\
    3 many b other\n\
    0 poll 26 -> pending\n\
    0 wait 27 -> AgeTimeout";

// A stale hit asks for the permit at its moment.
const A_BODY_GETS_STALE_WHILE_OTHERS_READ: &str = "\
    0 key a\n\
    0 look 0 -> key permit\n\
    0 fill body 60 -> okokokok\n\
    0 key a\n\
    0 look 59 -> until 60 hit\n\
    2 many a body\n\
    3 many a body\n\
    0 key a\n\
    0 look 67 -> until 60 stale permit\n\
    1 key a\n\
    1 look 68 -> until 60 stale waits\n\
    1 poll 76 -> pending\n\
    1 poll 77 -> AgeTimeout\n\
    1 key a\n\
    1 look 77 -> until 60 stale permit\n\
    2 many a body";

#[test]
fn time_moves_while_others_read(rt: HostRuntime) {
    let scenes = [
        A_PERMIT_AGES_WHILE_OTHERS_READ,
        A_BODY_GETS_STALE_WHILE_OTHERS_READ,
    ];
    play(&rt, rt.alloc(), TWO_ENTRIES, &scenes);
}
