//! The most hits of bodies of one size by rows: how many bodies are kept, from which request on hits are counted, and the
//! bodies that are asked for. Of those whose hits are all counted, trying all ways to keep bodies gave the same.
use crate::rows::{Desk, Told, play, size};
use belady::kept::most_hits;
use belady::requests::next_requests;
use std::alloc::{AllocError, Global};

#[derive(Drop)]
struct Asked {
    alloc: Global,
}

impl Desk for Asked {
    fn tell(&mut self, call: &'static str, told: &mut Told) {
        let (kept, bodies) = call.split_once(": ").unwrap_or((call, ""));
        match hits(self.alloc, bodies, size(kept, 0), size(kept, 1)) {
            Ok(hits) => told.shown(&hits),
            Err(AllocError) => told.say("refused"),
        }
    }
}

fn hits(
    alloc: Global,
    bodies: &'static str,
    limit: usize,
    from: usize,
) -> Result<usize, AllocError> {
    let mut asked = Vec::new(alloc);
    for body in bodies.as_bytes() {
        if *body != b' ' {
            asked.push(u128::from(*body))?;
        }
    }
    let nexts = next_requests(alloc, asked.as_slice())?;
    most_hits(alloc, nexts.as_slice(), limit, from)
}

const HITS: &str = "
    2 0: a b c a b c a b c -> 4
    1 0: a b a b a b -> 2
    0 0: a a a -> 0
    3 0: a b c d a b e a b c d e -> 5
    4 0: a b c d a b e a b c d e -> 6
    2 0: a a b b c c a -> 4
    # the first six, of which two are hits, are not counted
    3 6: a b c d a b e a b c d e -> 3";

#[test]
fn what_is_asked_for_last_goes(rt: HostRuntime) {
    let mut asked = Asked { alloc: rt.alloc() };
    play(&rt, rt.alloc(), &mut asked, HITS);
}
