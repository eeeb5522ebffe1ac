//! Points in time.
//! Expected moments are hand-computed.

use pcache_base::moment::Moment;
use std::time::Duration;

fn late() -> Moment {
    Moment::new(5, 999_999_999).unwrap_or(Moment::EPOCH)
}

fn half() -> Moment {
    Moment::new(4, 500_000_000).unwrap_or(Moment::EPOCH)
}

fn has_parts(late: Moment) -> bool {
    late.secs() == 5 && late.nanos() == 999_999_999 && late.as_nanos() == 5_999_999_999
}

fn has_bounds(late: Moment) -> bool {
    Moment::new(5, 1_000_000_000).is_none()
        && Moment::from_secs(0) == Moment::EPOCH
        && Moment::from_secs(5) < late
}

#[test]
fn moments_have_whole_nanoseconds(rt: HostRuntime) {
    assert!(rt; has_parts(late()));
    assert!(rt; has_bounds(late()));
}

fn is_added(late: Moment) -> bool {
    late.checked_add(Duration::from_nanos(1)) == Some(Moment::from_secs(6))
}

// Whether nothing comes after the last moment, nor before the first.
fn is_bounded() -> bool {
    let Some(last) = Moment::new(u64::MAX, 999_999_999) else {
        return false;
    };
    last.checked_add(Duration::from_nanos(1)).is_none()
        && Moment::EPOCH.checked_sub(Duration::from_nanos(1)).is_none()
}

fn is_taken_away(half: Moment) -> bool {
    Moment::from_secs(6).checked_sub(Duration::from_millis(1500)) == Some(half)
}

fn differs_by(half: Moment) -> bool {
    Moment::from_secs(6).since(half) == Duration::from_millis(1500)
        && half.since(Moment::from_secs(6)) == Duration::ZERO
}

#[test]
fn sums_and_differences(rt: HostRuntime) {
    assert!(rt; is_added(late()) && is_bounded());
    assert!(rt; is_taken_away(half()) && differs_by(half()));
}
