//! The nodes of keys by rows: the hash of a key and the numbers of the nodes. Which one it is was
//! computed apart, from the text of the papers.
use crate::rows::{Desk, Told, play};
use rendezvous::nodes::node_of;
use std::alloc::{AllocError, Global};

#[derive(Drop)]
struct Picked {
    alloc: Global,
}

impl Desk for Picked {
    fn tell(&mut self, call: &'static str, told: &mut Told) {
        let (hash, numbers) = call.split_once(": ").unwrap_or((call, ""));
        match node(self.alloc, hash, numbers) {
            Ok(Some(node)) => told.shown(&node),
            Ok(None) => told.say("none"),
            Err(AllocError) => told.say("refused"),
        }
    }
}

fn node(alloc: Global, hash: &str, numbers: &str) -> Result<Option<u64>, AllocError> {
    let mut nodes = Vec::new(alloc);
    for number in numbers.split_ascii_whitespace() {
        nodes.push(number.parse::<u64>().unwrap_or(u64::MAX))?;
    }
    Ok(node_of(hash.parse::<u64>().unwrap_or(0), nodes.as_slice()))
}

const NODES: &str = "
    0: 0 1 2 3 4 -> 3
    1: 0 1 2 3 4 -> 3
    9223372036854775808: 0 1 2 3 4 -> 2
    18446744073709551615: 0 1 2 3 4 -> 0
    81985529216486895: 0 1 2 3 4 -> 0
    97: 0 1 2 3 4 -> 1
    100: 0 1 2 3 4 -> 2
    # without that node
    0: 0 1 2 4 -> 4
    1: 0 1 2 4 -> 2
    9223372036854775808: 0 1 3 4 -> 4
    18446744073709551615: 1 2 3 4 -> 2
    97: 0 2 3 4 -> 4
    100: 0 1 3 4 -> 4
    # without others
    0: 0 1 3 -> 3
    100: 2 -> 2
    100: 4 3 2 1 0 -> 2
    # without any
    100: -> none";

#[test]
fn the_node_with_the_highest_hash_has_a_key(rt: HostRuntime) {
    let mut picked = Picked { alloc: rt.alloc() };
    play(&rt, rt.alloc(), &mut picked, NODES);
}
