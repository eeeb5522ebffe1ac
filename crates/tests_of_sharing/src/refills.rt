//! A body that is stored again counts once in its part, and evicts nothing.
use crate::play::play;
use crate::seats::ROOM;

// Each part has room for two entries with four bytes: for one body of two bytes beside the one that is stored again and again.
const A_REFILL_LEAVES_THE_OTHER_OF_ITS_PART: &str = "
    0 key a
    0 place -> 3
    0 key f
    0 place -> 3
    0 look 0 -> key permit
    0 fill hi 60 -> okokokok
    0 key a
    0 fill ho 60 -> okokokok
    0 key a
    0 fill ho 60 -> okokokok
    0 key a
    0 fill ho 60 -> okokokok
    0 key a
    0 fill ho 60 -> okokokok
    0 key a
    0 fill ho 60 -> okokokok
    0 key f
    0 look 0 -> until 60 hit
    0 read -> hi
    0 key a
    0 look 0 -> until 60 hit
    0 read -> ho";

#[test]
fn a_refill_leaves_the_other_of_its_part(rt: HostRuntime) {
    play(
        &rt,
        rt.alloc(),
        8 * ROOM + 16,
        &[A_REFILL_LEAVES_THE_OTHER_OF_ITS_PART],
    );
}
