//! Bodies that are read while they are written, and which of them stay.
use crate::play::play;
use crate::seats::TWO_ENTRIES;

const A_READER_FOLLOWS_A_WRITE_OF_ANOTHER_THREAD: &str = "\
    0 key a\n\
    0 look 0 -> key permit\n\
    1 key a\n\
    1 look 0 -> key waits\n\
    1 wait 0 -> Done\n\
    0 miss 60\n\
    0 begin\n\
    1 key a\n\
    1 look 0 -> until 60 hit\n\
    2 key a\n\
    2 look 0 -> until 60 hit\n\
    1 follow -> ab\n\
    0 write ab\n\
    2 read -> ab\n\
    2 leave\n\
    2 read -> no reader\n\
    1 follow -> cd\n\
    0 last cd\n\
    1 whole -> yes\n\
    0 finish\n\
    1 follow -> end\n\
    1 whole -> yes\n\
    1 leave\n\
    2 key a\n\
    2 look 0 -> until 60 hit\n\
    2 follow -> abcd\n\
    2 leave\n\
    2 read -> no reader";

// The last part has room for two entries: the one that was read last stays.
const A_BODY_THAT_ANOTHER_THREAD_READS_STAYS: &str = "\
    0 key a\n\
    0 look 0 -> key permit\n\
    0 fill aa 60 -> okokokok\n\
    1 key f\n\
    1 look 0 -> key permit\n\
    1 fill ff 60 -> okokokok\n\
    2 key a\n\
    2 look 0 -> until 60 hit\n\
    3 key h\n\
    3 look 0 -> key permit\n\
    3 fill hh 60 -> okokokok\n\
    0 key f\n\
    0 look 0 -> key permit\n\
    1 key a\n\
    1 look 0 -> until 60 hit\n\
    1 read -> aa";

#[test]
fn bodies_are_read_while_they_are_written(rt: HostRuntime) {
    let scenes = [
        A_READER_FOLLOWS_A_WRITE_OF_ANOTHER_THREAD,
        A_BODY_THAT_ANOTHER_THREAD_READS_STAYS,
    ];
    play(&rt, rt.alloc(), TWO_ENTRIES, &scenes);
}
