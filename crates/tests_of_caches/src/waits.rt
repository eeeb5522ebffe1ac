//! Requests of a cache that wait for one another.
use crate::scenes::run_rooms;

const FILLED: &str = "
    # who waits is told that the key is filled once the write begins, and finds it then
    1 open k
    1 ask -> permit
    2 open k
    2 ask -> read
    2 wait -> pending
    1 miss
    1 begin
    2 wait -> Done
    2 wait -> wrong
    1 last hi
    1 finish
    2 ask -> -

    # a permit that was not used: another request has it
    1 open k
    1 ask -> permit
    2 open k
    2 ask -> read
    1 end -> let go 0
    2 wait -> Dangling
    3 open k
    3 ask -> permit
    2 ask -> read

    # the response is not to be stored, or the fill failed
    1 open k
    1 ask -> permit
    2 open k
    2 ask -> read
    1 release CacheLockTimeout -> wrong
    1 release OriginNotCache -> GiveUp 0
    2 wait -> GiveUp
    1 publish 7 -> no permit
    3 open k
    3 ask -> permit
    4 open k
    4 ask -> read
    3 release InternalError -> TransientError 1
    4 wait -> TransientError

    # a lock that is held stays in use
    1 open k
    1 ask -> permit
    1 no-lock -> wrong
    2 open k
    2 no-lock
    2 ask -> nothing";

#[test]
fn who_waits_is_told_how_the_fill_ended(rt: HostRuntime) {
    run_rooms(&rt, rt.alloc(), 9, FILLED);
}

const TOO_LONG: &str = "
    # a permit is too old after ten seconds, and its late release leaves the new one
    1 open k
    1 ask -> permit
    2 open k
    2 ask -> read
    second 9
    2 wait -> pending
    second 10
    5 open k
    5 ask -> read
    2 wait -> AgeTimeout
    3 open k
    3 ask -> permit
    1 release InternalError -> TransientError 0
    4 open k
    4 ask -> read

    # it stays too old, whatever the moment
    1 open k
    1 ask -> permit
    2 open k
    2 ask -> read
    3 open k
    3 ask -> read
    second 10
    2 wait -> AgeTimeout
    second 5
    3 wait -> AgeTimeout

    # a wait of three seconds at most, over two look-ups
    1 open k
    1 ask -> permit
    2 open k
    2 within 3
    2 ask -> read
    2 wait -> pending
    second 2
    2 wait -> pending
    second 3
    2 wait -> WaitTimeout
    2 wait -> wrong
    2 ask -> read
    2 wait -> WaitTimeout";

#[test]
fn nobody_waits_for_too_long(rt: HostRuntime) {
    run_rooms(&rt, rt.alloc(), 9, TOO_LONG);
}

const TOLD_OF: &str = r#"
    # a fill that a key cannot use
    1 open k
    1 ask -> permit
    2 open k 7
    2 ask -> read
    3 open k
    3 ask -> read
    2 wait -> pending
    1 publish 7
    3 wait -> pending
    2 wait -> Abandoned { reason: Custom("too large"), token: 7 }
    2 wait -> wrong

    # the key is filled before it was told
    1 open k
    1 ask -> permit
    2 open k 7
    2 ask -> read
    2 wait -> pending
    1 publish 7
    1 miss
    1 begin
    2 wait -> Done

    # the permit is too old before it was told
    1 open k
    1 ask -> permit
    2 open k 7
    2 ask -> read
    2 wait -> pending
    1 publish 7
    second 10
    2 wait -> AgeTimeout"#;

#[test]
fn who_cannot_use_a_fill_is_told(rt: HostRuntime) {
    run_rooms(&rt, rt.alloc(), 9, TOLD_OF);
}

const GIVEN: &str = "
    # handed to a request without a key
    1 open k
    1 ask -> permit
    1 gives 2
    1 gives 2 -> wrong
    1 end
    3 open k
    3 ask -> read
    2 end -> let go 0
    3 wait -> Dangling
    4 open k
    4 ask -> permit

    # handed to one without a lock in use
    1 open k
    1 ask -> permit
    2 open k
    2 no-lock
    1 gives 2 -> let go 0
    1 ask -> permit

    # handed to one that waits, whose own lock goes
    1 open k
    1 ask -> permit
    2 open k
    2 ask -> read
    1 gives 2 -> let go 0
    2 wait -> wrong
    3 open k
    3 ask -> read
    2 release OriginNotCache -> GiveUp 0
    3 wait -> GiveUp

    # handed to its holder
    1 open k
    1 ask -> permit
    1 gives 1
    1 end -> let go 0

    # who looks up again waits for its own permit, which is let go then
    1 open k
    1 ask -> permit
    1 ask -> read
    1 wait -> Dangling";

#[test]
fn a_permit_goes_from_one_to_another(rt: HostRuntime) {
    run_rooms(&rt, rt.alloc(), 9, GIVEN);
}
