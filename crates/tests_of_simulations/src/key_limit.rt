//! The largest samples by rows: how many keys they have at most, and the hashes that are taken. Which rate is
//! taken was found apart, by trying each one.
use crate::rows::{Desk, Told, play};
use cache_simulation::key_limit::LowestKeys;
use std::alloc::{AllocError, Global};

#[derive(Drop)]
struct Limited {
    alloc: Global,
}

impl Desk for Limited {
    fn tell(&mut self, call: &'static str, told: &mut Told) {
        let (most, hashes) = call.split_once(':').unwrap_or((call, ""));
        match rate(self.alloc, most, hashes) {
            Ok(rate) => told.number(rate),
            Err(AllocError) => told.say("refused"),
        }
    }
}

fn rate(alloc: Global, most: &str, hashes: &str) -> Result<u64, AllocError> {
    let mut keys = LowestKeys::new(alloc, most.parse::<u64>().unwrap_or(0));
    for hash in hashes.split_ascii_whitespace() {
        keys.take(hash.parse::<u64>().unwrap_or(0))?;
    }
    Ok(keys.rate())
}

const RATES: &str = "
    # as many keys as there may be, or fewer
    1: -> 1000000
    1: 5 -> 1000000
    1: 5 5 5 -> 1000000
    3: 500000 1500000 250000 -> 1000000
    # one more: the sample ends before it
    1: 5 7 -> 7
    1: 7 5 -> 7
    2: 9 5 7 -> 9
    2: 9 5 9 7 5 -> 9
    3: 1 2 3 4 5 6 7 8 4 3 -> 4
    1: 3 2 1 2 3 -> 2
    # hashes with one remainder
    2: 500000 1500000 2500000 -> 500000
    2: 500000 1500000 250000 -> 500000
    1: 999999 1999999 18446744073709551615 -> 999999
    2: 18446744073709551615 551615 551614 551616 -> 551615
    # none at any rate
    1: 0 1000000 -> 0";

#[test]
fn a_sample_has_at_most_so_many_keys(rt: HostRuntime) {
    let mut limited = Limited { alloc: rt.alloc() };
    play(&rt, rt.alloc(), &mut limited, RATES);
}
