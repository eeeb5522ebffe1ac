//! What a request counts, what is foretold of it, and what a policy decides of it.
use super::*;

const CHOICES: &str = "
    # A body of four bytes is within a limit of four, and a fifth byte is not, also once caching was turned off.
    1 is was-enabled -> no
    1 enable
    1 key
    1 limit? -> None
    1 count 9 -> within
    1 is exceeded -> no
    1 limit 4
    1 limit? -> Some(4)
    1 count 4 -> within
    1 is exceeded -> no
    1 may disable -> yes
    1 disable ResponseTooLarge
    1 count 1 -> beyond
    1 is exceeded -> yes
    1 leaves
    # A head of 16 bytes is within a limit of 16, and one of 17 is not.
    1 limit-head 16 -> wrong
    1 enable
    1 head-limit? -> None
    1 head-within 99 -> yes
    1 limit-head 16
    1 head-limit? -> Some(16)
    1 head-within 16 -> yes
    1 head-within 17 -> no
    1 leaves
    1 enable
    1 head-limit? -> None
    1 leaves
    # A key whose response was not cacheable is foretold, and the cache is passed by for that reason.
    2 enable-predicting
    2 key
    2 has prospects -> yes
    2 became-uncacheable StorageError -> not asked
    2 became-uncacheable OriginNotCache -> yes
    2 has prospects -> no
    2 foretold -> None
    2 may bypass -> yes
    2 bypass-foretold
    2 is bypassing -> yes
    2 foretold -> Some(OriginNotCache)
    2 became-cacheable -> no
    2 has prospects -> yes
    2 leaves
    # Without a predictor in use, the one that is lent is not asked.
    3 enable
    3 key
    3 became-uncacheable OriginNotCache -> not asked
    3 became-cacheable -> not asked
    3 has prospects -> yes
    3 may bypass -> yes
    3 bypass-foretold
    3 foretold -> None
    3 leaves
    # A deferred look-up turns caching off and asks for no lock.
    4 enable
    4 key
    4 decision -> None
    4 may take-key -> yes
    4 policy
    4 is observing -> yes
    4 look-admitted -> none
    4 phase -> Disabled(Deferred)
    4 held -> none
    4 decision -> Some(Defer { observed: 1 })
    4 leaves
    # One that is not deferred asks for the lock, and the policy is asked once a request.
    5 enable
    5 key
    5 policy
    5 look-admitted -> none
    5 held -> permit
    5 decision -> Some(Ready { observed: 2 })
    5 is observing -> no
    5 look-admitted -> none
    5 observed -> 2

    # A policy that is not in use is not asked. Once it is in use it may defer, and the permit goes.
    1 enable
    1 key
    1 look-deferred -> none
    1 held -> permit
    1 decision -> None
    1 policy
    1 look-deferred -> none
    1 phase -> Disabled(Deferred)
    1 held -> none
    1 decision -> Some(Defer { observed: 7 })
    1 leaves
    # A request stores a body, and is turned on again to find it stale.
    1 enable
    1 key
    1 miss
    1 stored-meta
    1 begin
    1 finish -> stored 0
    1 may disable -> yes
    1 disable InternalError
    1 enable
    1 key
    1 expired
    1 merges -> yes";

#[test]
fn sizes_predictions_and_decisions(rt: HostRuntime) {
    run(&rt, rt.alloc(), CHOICES);
}

/// The head that was stored. With the answer that says that the body is still valid it makes a merged
/// head: the fields that the answer has replace the old ones, the others stay, and what the response
/// varies on is unchanged.
pub const STORED: &str =
    "HTTP/1.1 200\r\netag: old\r\nvary: accept\r\ncache-control: max-age=1\r\n\r\n";

/// The answer that says that the body is still valid.
pub const ANSWER: &str =
    "HTTP/1.1 304\r\ncache-control: public\r\ncache-control: max-age=9\r\nvary: origin\r\ncache-tag: a\r\n\r\n";

/// The head that the two make.
pub const MERGED: &str =
    "HTTP/1.1 200\r\netag: old\r\nvary: accept\r\ncache-control: public\r\ncache-control: max-age=9\r\ncache-tag: a\r\n\r\n";
