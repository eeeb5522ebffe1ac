//! A step whose contract says what holds whichever requests for memory are refused: its replies are those of a
//! step.
use crate::play::{Limits, step, world_of};
use pcache_base::seed::Seed;

#[test]
fn a_body_is_stored(rt: HostRuntime) {
    let made = world_of(rt.alloc(), Seed::fixed(), Limits::weight(9));
    step(&rt, rt.alloc(), made, true, &[super::FILLED]);
}
