//! Permits that end while others wait. The keys `a`, `f` and `h` are of the last of four parts, `c` and `d` of the first: told by another
//! program, the first eight bytes of BLAKE2b with 16 bytes out, modulo four.
use crate::play::play;
use crate::seats::TWO_ENTRIES;

// The number of a permit is that of another one in the first part, whose waiters are told nothing.
const A_RELEASE_WAKES_THOSE_OF_ITS_KEY: &str = "\
    0 key a\n\
    0 look 0 -> key permit\n\
    1 key c\n\
    1 look 0 -> key permit\n\
    2 key a\n\
    2 look 0 -> key waits\n\
    3 key c\n\
    3 look 0 -> key waits\n\
    2 wait 0 -> GiveUp\n\
    0 release forbidden -> let go\n\
    2 end\n\
    3 poll 0 -> pending\n\
    2 key a\n\
    2 look 0 -> key permit\n\
    0 key a\n\
    0 look 0 -> key waits\n\
    0 wait 0 -> TransientError\n\
    2 release failed -> let go\n\
    0 look 0 -> key permit\n\
    3 poll 0 -> pending";

// A request that is handed a permit lets the one go that it held before.
const A_PERMIT_THAT_ANOTHER_TAKES_THE_PLACE_OF_IS_LET_GO: &str = "\
    1 key c\n\
    1 look 0 -> key permit\n\
    3 key c\n\
    3 look 0 -> key waits\n\
    0 key f\n\
    0 look 0 -> key permit\n\
    0 swap\n\
    0 key a\n\
    0 look 0 -> key permit\n\
    1 key f\n\
    1 look 0 -> key waits\n\
    2 key a\n\
    2 look 0 -> key waits\n\
    1 wait 0 -> Dangling\n\
    0 hand -> let go\n\
    1 look 0 -> key permit\n\
    2 poll 0 -> pending\n\
    2 wait 0 -> Dangling\n\
    0 end\n\
    0 swap\n\
    0 end -> let go\n\
    2 look 0 -> key permit";

const A_REQUEST_THAT_IS_DISABLED_OR_ENDS_GIVES_ITS_PERMIT_BACK: &str = "\
    3 key c\n\
    3 look 0 -> key permit\n\
    0 key a\n\
    0 look 0 -> key permit\n\
    1 key a\n\
    1 look 0 -> key waits\n\
    1 wait 0 -> GiveUp\n\
    0 disable forbidden -> let go\n\
    1 look 0 -> key permit\n\
    2 key a\n\
    2 look 0 -> key waits\n\
    2 wait 0 -> Dangling\n\
    1 end -> let go\n\
    2 look 0 -> key permit\n\
    2 miss 60\n\
    2 begin\n\
    2 write ab\n\
    0 key a\n\
    0 look 0 -> until 60 hit\n\
    0 read -> ab\n\
    0 read -> pending\n\
    0 follow -> end\n\
    2 disable failed\n\
    0 whole -> no\n\
    1 key a\n\
    1 look 0 -> key permit\n\
    1 miss 60\n\
    1 begin\n\
    1 write cd\n\
    2 key a\n\
    2 look 0 -> until 60 hit\n\
    2 read -> cd\n\
    2 follow -> end\n\
    1 end\n\
    2 whole -> no\n\
    3 key a\n\
    3 look 0 -> key permit";

const A_PUBLISHED_TOKEN_ENDS_THE_WAITS_THAT_CANNOT_USE_IT: &str = "\
    3 key c\n\
    3 look 0 -> key permit\n\
    0 key a\n\
    0 look 0 -> key permit\n\
    1 key a 5\n\
    1 look 0 -> key waits\n\
    1 poll 0 -> pending\n\
    2 key a 6\n\
    2 look 0 -> key waits\n\
    2 poll 0 -> pending\n\
    1 wait 0 -> token 5\n\
    0 tokens 5\n\
    1 end\n\
    2 poll 0 -> pending\n\
    2 wait 0 -> token 6\n\
    0 tokens 6\n\
    2 end\n\
    1 tokens 5 -> no permit";

// A permit for a variant ends as done when the response turns out to vary otherwise.
const A_PERMIT_OF_A_VARIANT_ENDS_WITH_ANOTHER_VARIANCE: &str = "\
    3 key c\n\
    3 look 0 -> key permit\n\
    0 key a\n\
    0 look 0 -> key permit\n\
    0 miss 60\n\
    0 varies 7\n\
    0 begin\n\
    0 last own\n\
    0 finish\n\
    1 key a\n\
    1 vary 8 -> no\n\
    1 look 0 -> key permit\n\
    2 key a\n\
    2 vary 8 -> no\n\
    2 look 0 -> key waits\n\
    0 key a\n\
    0 vary 7 -> yes\n\
    0 look 0 -> until 60 hit\n\
    1 miss 60\n\
    2 wait 0 -> Done\n\
    1 varies 9 -> let go\n\
    2 look 0 -> key permit";

#[test]
fn permits_end_for_all_who_wait(rt: HostRuntime) {
    let scenes = [
        A_RELEASE_WAKES_THOSE_OF_ITS_KEY,
        A_PERMIT_THAT_ANOTHER_TAKES_THE_PLACE_OF_IS_LET_GO,
        A_REQUEST_THAT_IS_DISABLED_OR_ENDS_GIVES_ITS_PERMIT_BACK,
        A_PUBLISHED_TOKEN_ENDS_THE_WAITS_THAT_CANNOT_USE_IT,
        A_PERMIT_OF_A_VARIANT_ENDS_WITH_ANOTHER_VARIANCE,
    ];
    play(&rt, rt.alloc(), TWO_ENTRIES, &scenes);
}
