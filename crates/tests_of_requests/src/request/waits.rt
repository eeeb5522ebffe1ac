//! Requests of one key that wait for one another.
use super::*;

const WAITS: &str = "
    # aged, and released late
    1 open
    1 ask -> permit
    2 open
    2 ask -> read
    10 second
    5 open
    5 ask -> read
    2 wait -> too old
    3 open
    3 ask -> permit
    1 release InternalError -> TransientError 0
    4 open
    4 ask -> read

    # told by a publication
    1 open
    1 ask -> permit
    2 open-without 7
    2 ask -> read
    2 wait -> pending
    1 publish 7
    2 wait -> Abandoned { reason: Custom(\"too large\"), token: 7 }
    2 wait -> wrong

    # released before it was told
    1 open
    1 ask -> permit
    2 open-without 7
    2 ask -> read
    2 wait -> pending
    1 publish 7
    1 miss
    1 meta 60
    1 begin
    2 wait -> Done

    # aged before it was told
    1 open
    1 ask -> permit
    2 open-without 7
    2 ask -> read
    2 wait -> pending
    1 publish 7
    10 second
    2 wait -> too old

    # it waited over two look-ups
    1 open
    1 ask -> permit
    2 open-within 3
    2 ask -> read
    2 wait -> pending
    2 second
    2 wait -> pending
    3 second
    2 wait -> WaitTimeout
    2 wait -> wrong
    2 ask -> read
    2 wait -> WaitTimeout

    # let go by the end of its request
    1 open
    1 ask -> permit
    2 open
    2 ask -> read
    1 end -> let go 0
    2 wait -> Dangling
    3 open
    3 ask -> permit

    # handed over
    1 open
    1 ask -> permit
    2 open
    1 gives 2
    1 end
    3 open
    3 ask -> read
    2 end -> let go 0
    4 open
    4 ask -> permit

    # handed to one without a lock
    1 open
    1 ask -> permit
    2 open
    2 no-lock
    1 gives 2 -> let go 0
    1 ask -> permit

    # it stays too old, whatever the moment
    1 open
    1 ask -> permit
    2 open
    2 ask -> read
    3 open
    3 ask -> read
    10 second
    2 wait -> too old
    5 second
    3 wait -> too old

    # given up
    1 open
    1 ask -> permit
    1 no-lock -> wrong
    1 release CacheLockTimeout -> wrong
    2 open
    2 ask -> read
    1 release OriginNotCache -> GiveUp 0
    2 wait -> GiveUp
    1 publish 7 -> no permit";

#[test]
fn requests_wait_for_one_another(rt: HostRuntime) {
    run(&rt, rt.alloc(), WAITS);
}

// A reader that was told of a fill returns that; another one goes on waiting.
const TOLD_OF: &str = "
    1 open
    1 ask -> permit
    2 open-without 7
    2 ask -> read
    2 wait -> pending
    1 publish 7
    2 wait -> Abandoned { reason: Custom(\"too large\"), token: 7 }
    2 wait -> wrong
    3 open
    3 ask -> read
    3 waits -> yes
    2 lock-time -> 0
    2 abandon -> Some(LockAbandon { reason: Custom(\"too large\"), token: 7 })
    2 has fills -> yes
    2 set-retries -> Some(2)
    2 retries -> Some(2)
    2 tag
    2 lock
    2 set-retries -> None";

#[test]
fn a_request_tells_of_its_wait(rt: HostRuntime) {
    run(&rt, rt.alloc(), TOLD_OF);
}
