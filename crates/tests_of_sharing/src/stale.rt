//! Stale bodies, which one request renews while others are served.
use crate::play::play;
use crate::seats::TWO_ENTRIES;

// The first thread serves the stale body, and hands its permit to a request that the second one renews the body with. The third is
// served the stale body meanwhile, and the fourth waits for the new one.
const A_PERMIT_IS_HANDED_ON_WHILE_THE_STALE_BODY_IS_SERVED: &str = "\
    0 key a\n\
    0 look 0 -> key permit\n\
    0 fill old 60 -> okokokok\n\
    0 key a\n\
    0 look 61 -> until 60 stale permit\n\
    0 hand\n\
    0 updating\n\
    0 swap\n\
    0 trade\n\
    1 trade\n\
    2 key a\n\
    2 look 62 -> until 60 stale waits\n\
    3 key a\n\
    3 look 62 -> until 60 stale waits\n\
    3 poll 62 -> pending\n\
    2 updating\n\
    2 read -> old\n\
    0 swap\n\
    0 read -> old\n\
    3 wait 62 -> Done\n\
    1 fill new 120 -> okokokok\n\
    3 key a\n\
    3 look 63 -> until 120 hit\n\
    3 read -> new\n\
    2 follow -> end\n\
    2 key a\n\
    2 look 63 -> until 120 hit\n\
    2 read -> new";

const A_CONFIRMED_BODY_IS_FRESH_FOR_ALL: &str = "\
    0 key a\n\
    0 look 0 -> key permit\n\
    0 fill old 60 -> okokokok\n\
    1 key c\n\
    1 look 0 -> key permit\n\
    1 fill own 60 -> okokokok\n\
    1 key c\n\
    1 look 61 -> until 60 stale permit\n\
    0 key a\n\
    0 look 61 -> until 60 stale permit\n\
    2 key a\n\
    2 look 61 -> until 60 stale waits\n\
    2 wait 61 -> Done\n\
    0 renew 120 -> yes\n\
    3 key a\n\
    3 look 61 -> until 120 hit\n\
    3 read -> old\n\
    0 read -> old\n\
    3 key c\n\
    3 look 61 -> until 60 stale waits\n\
    3 poll 61 -> pending";

const A_RESPONSE_THAT_IS_NOT_STORED_GIVES_THE_PERMIT_UP: &str = "\
    3 key c\n\
    3 look 0 -> key permit\n\
    0 key a\n\
    0 look 0 -> key permit\n\
    0 fill old 60 -> okokokok\n\
    0 key a\n\
    0 look 61 -> until 60 stale permit\n\
    1 key a\n\
    1 look 61 -> until 60 stale waits\n\
    1 wait 61 -> GiveUp\n\
    0 uncacheable forbidden -> let go\n\
    0 read -> old\n\
    2 key a\n\
    2 look 61 -> until 60 stale permit\n\
    1 key a\n\
    1 look 61 -> until 60 stale waits\n\
    1 wait 61 -> TransientError\n\
    2 uncacheable failed -> let go";

const WHAT_IS_EXPIRED_OR_PURGED_IS_SO_FOR_ALL: &str = "\
    0 key a\n\
    0 look 0 -> key permit\n\
    0 fill old 60 -> okokokok\n\
    1 key a\n\
    1 expire 7 -> yes\n\
    2 key a\n\
    2 look 6 -> until 7 hit\n\
    3 key a\n\
    3 look 8 -> until 7 stale permit\n\
    1 expire 5 -> yes\n\
    0 key a\n\
    0 look 6 -> until 5 stale waits\n\
    1 purge -> yes\n\
    1 purge -> no\n\
    1 expire 5 -> no\n\
    2 read -> old\n\
    2 key a\n\
    2 look 6 -> key waits\n\
    3 fill new 60 -> okokokWriteRemoved\n\
    1 look 6 -> key permit\n\
    1 fill new 60 -> okokokok\n\
    3 key a\n\
    3 look 6 -> until 60 hit\n\
    2 spawn -> yes\n\
    2 spawn -> no\n\
    0 key a\n\
    0 look 6 -> key permit\n\
    3 read -> new";

#[test]
fn stale_bodies_are_served_while_one_renews_them(rt: HostRuntime) {
    let scenes = [
        A_PERMIT_IS_HANDED_ON_WHILE_THE_STALE_BODY_IS_SERVED,
        A_CONFIRMED_BODY_IS_FRESH_FOR_ALL,
        A_RESPONSE_THAT_IS_NOT_STORED_GIVES_THE_PERMIT_UP,
        WHAT_IS_EXPIRED_OR_PURGED_IS_SO_FOR_ALL,
    ];
    play(&rt, rt.alloc(), TWO_ENTRIES, &scenes);
}
