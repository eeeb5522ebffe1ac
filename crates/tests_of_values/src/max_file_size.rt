//! The limit on the size of what is stored.
//! Expected counts are hand-computed.
use pcache_base::error::ErrorType;
use pcache_response::max_file_size::*;

// Whether the body is within the limit before it comes, at three bytes, at one more, at the most that can be said, and
// from then on.
fn answers(tracker: &mut MaxFileSizeTracker) -> [bool; 5] {
    let before = tracker.allow_caching();
    let three = tracker.add_body_bytes(3);
    let four = tracker.add_body_bytes(1);
    let most = tracker.add_body_bytes(usize::MAX);
    [before, three, four, most, tracker.allow_caching()]
}

#[test]
fn at_most_the_limit(rt: HostRuntime) {
    let mut tracker = MaxFileSizeTracker::new(3);
    assert!(rt; tracker.max_file_size_bytes() == 3);
    assert!(rt; answers(&mut tracker) == [true, true, false, false, false]);
    assert!(rt; ERR_RESPONSE_TOO_LARGE == ErrorType::ResponseTooLarge);
}
