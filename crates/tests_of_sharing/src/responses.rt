//! One response: a head on its own body, and the newest one. The second a response is fresh until, which `look` tells, is told apart in
//! each version, and is that of its head.
use crate::play::play;
use crate::seats::TWO_ENTRIES;

// The third thread finds a version while the second one fills the key with it, and the origin confirms it. It breaks off before: what was
// stored keeps its own head, and the third thread is given what came.
const THE_HEAD_OF_A_VERSION_THAT_BROKE_OFF_IS_NOT_KEPT: &str = "\
    0 key a\n\
    0 look 0 -> key permit\n\
    0 fill one 60 -> okokokok\n\
    1 key a\n\
    1 look 61 -> until 60 stale permit\n\
    1 miss 120\n\
    1 begin\n\
    1 write tw\n\
    2 key a\n\
    2 look 121 -> until 120 stale permit\n\
    3 key a\n\
    3 look 121 -> until 120 stale waits\n\
    3 wait 121 -> Done\n\
    1 end\n\
    2 renew 180 -> no\n\
    2 read -> tw\n\
    2 follow -> end\n\
    2 whole -> no\n\
    3 key a\n\
    3 look 122 -> until 60 stale permit\n\
    3 read -> one\n\
    3 renew 180 -> yes\n\
    0 key a\n\
    0 look 123 -> until 180 hit\n\
    0 read -> one";

const A_VERSION_THAT_CAME_MEANWHILE_KEEPS_ITS_HEAD: &str = "\
    0 key a\n\
    0 look 0 -> key permit\n\
    0 fill one 60 -> okokokok\n\
    1 key a\n\
    1 look 61 -> until 60 stale permit\n\
    2 key a\n\
    2 look 61 -> until 60 stale waits\n\
    2 fill two 120 -> okokokok\n\
    1 renew 180 -> no\n\
    1 read -> one\n\
    3 key a\n\
    3 look 62 -> until 120 hit\n\
    3 read -> two";

// The same while the newer version still comes, and is complete only later.
const A_VERSION_THAT_COMES_MEANWHILE_KEEPS_ITS_HEAD: &str = "\
    0 key a\n\
    0 look 0 -> key permit\n\
    0 fill one 60 -> okokokok\n\
    1 key a\n\
    1 look 61 -> until 60 stale permit\n\
    2 key a\n\
    2 look 61 -> until 60 stale waits\n\
    2 miss 120\n\
    2 begin\n\
    2 write tw\n\
    1 renew 180 -> yes\n\
    1 read -> one\n\
    3 key a\n\
    3 look 62 -> until 120 hit\n\
    3 read -> tw\n\
    2 last o\n\
    2 finish\n\
    3 follow -> o\n\
    0 key a\n\
    0 look 62 -> until 120 hit\n\
    0 read -> two";

const A_VERSION_THAT_STANDS_WHEN_IT_IS_CONFIRMED_HAS_THE_NEW_HEAD: &str = "\
    0 key a\n\
    0 look 0 -> key permit\n\
    0 miss 60\n\
    0 begin\n\
    0 write on\n\
    1 key a\n\
    1 look 61 -> until 60 stale permit\n\
    0 last e\n\
    0 finish\n\
    1 renew 120 -> yes\n\
    1 read -> one\n\
    2 key a\n\
    2 look 62 -> until 120 hit\n\
    2 read -> one";

const WHAT_WAS_PURGED_MEANWHILE_IS_NOT_RENEWED: &str = "\
    0 key a\n\
    0 look 0 -> key permit\n\
    0 fill one 60 -> okokokok\n\
    1 key a\n\
    1 look 61 -> until 60 stale permit\n\
    2 key a\n\
    2 purge -> yes\n\
    2 key a\n\
    2 look 61 -> key waits\n\
    2 fill two 120 -> okokokok\n\
    1 renew 180 -> no\n\
    1 read -> one\n\
    3 key a\n\
    3 look 62 -> until 120 hit\n\
    3 read -> two";

#[test]
fn a_head_stays_on_its_own_body(rt: HostRuntime) {
    let scenes = [
        THE_HEAD_OF_A_VERSION_THAT_BROKE_OFF_IS_NOT_KEPT,
        A_VERSION_THAT_CAME_MEANWHILE_KEEPS_ITS_HEAD,
        A_VERSION_THAT_COMES_MEANWHILE_KEEPS_ITS_HEAD,
        A_VERSION_THAT_STANDS_WHEN_IT_IS_CONFIRMED_HAS_THE_NEW_HEAD,
        WHAT_WAS_PURGED_MEANWHILE_IS_NOT_RENEWED,
    ];
    play(&rt, rt.alloc(), TWO_ENTRIES, &scenes);
}

// A slow version is read along by the fourth thread; the second one fetches and stores a newer one meanwhile, which the third one finds
// before and after the slow one ends.
const THE_END_OF_AN_OLDER_VERSION_IS_REFUSED: &str = "\
    0 key a\n\
    0 look 0 -> key permit\n\
    0 miss 60\n\
    0 begin\n\
    0 write one\n\
    3 key a\n\
    3 look 0 -> until 60 hit\n\
    3 read -> one\n\
    1 key a\n\
    1 look 61 -> until 60 stale permit\n\
    1 fill two 120 -> okokokok\n\
    2 key a\n\
    2 look 61 -> until 120 hit\n\
    2 read -> two\n\
    3 follow -> ..\n\
    0 last ..\n\
    0 finish -> Superseded\n\
    3 follow -> end\n\
    3 whole -> yes\n\
    2 key a\n\
    2 look 61 -> until 120 hit\n\
    2 read -> two\n\
    0 stored -> 3 in 1";

// Of two versions that come the newer one is found; once that broke off, the older one is, and is stored.
const AN_OLDER_VERSION_STANDS_ONCE_THE_NEWER_BROKE_OFF: &str = "\
    0 key a\n\
    0 look 0 -> key permit\n\
    0 miss 60\n\
    0 begin\n\
    0 write one\n\
    1 key a\n\
    1 look 61 -> until 60 stale permit\n\
    1 miss 120\n\
    1 begin\n\
    1 write two\n\
    2 key a\n\
    2 look 61 -> until 120 hit\n\
    2 read -> two\n\
    2 follow -> end\n\
    1 end\n\
    2 whole -> no\n\
    3 key a\n\
    3 look 0 -> until 60 hit\n\
    3 read -> one\n\
    3 follow -> ..\n\
    0 last ..\n\
    0 finish\n\
    3 follow -> end\n\
    3 whole -> yes\n\
    2 key a\n\
    2 look 0 -> until 60 hit\n\
    2 read -> one..";

#[test]
fn an_older_version_does_not_come_back(rt: HostRuntime) {
    let scenes = [
        THE_END_OF_AN_OLDER_VERSION_IS_REFUSED,
        AN_OLDER_VERSION_STANDS_ONCE_THE_NEWER_BROKE_OFF,
    ];
    play(&rt, rt.alloc(), TWO_ENTRIES, &scenes);
}
