//! What any storage does, done by the one with plain maps.
use crate::plain_store::{PlainMiss, PlainStore};
use crate::room::{Kept, run};
use crate::rows::Told;
use std::alloc::Global;

impl Kept for PlainStore {
    fn number_of(writer: &PlainMiss) -> u64 {
        writer.number
    }

    // It has no call of its own.
    fn tell(&mut self, _alloc: Global, _call: &'static str, told: &mut Told) {
        told.say("no such call");
    }
}

const ROWS: &str = "
    # of two bodies of one key the later stays, and is purged; none has a number
    1 begins aa
    1 fills-entry -> none
    1 writes-last hi
    1 finishes -> Created(2)
    1 looks aa -> hit 2 until 300
    1 reads-entry -> none
    1 reads -> data hi
    1 leaves
    1 begins aa
    1 fills-entry -> none
    1 writes-last no
    1 finishes -> Created(2)
    1 looks aa -> hit 2 until 300
    1 reads-entry -> none
    1 reads -> data no
    1 leaves
    purge aa -> Purged(None)
    purge aa -> NotFound
    1 looks aa -> none
    # entries with a number name nothing, and those without one name what is stored for the key
    1 begins bb
    1 writes-last hi
    1 finishes -> Created(2)
    expire-exact bb 1 0 -> NotFound
    purge-exact bb 0 -> NotFound
    expire-exact bb 1 -> Expired
    purge-exact bb -> Purged(None)
    streams -> no
    # a write that was removed stores nothing
    1 begins cc
    purge cc -> Purged(None)
    1 finishes -> WriteRemoved";

#[test]
fn plain_maps_are_a_storage(rt: HostRuntime) {
    let alloc = rt.alloc();
    run(
        &rt,
        alloc,
        PlainStore::new(alloc),
        PlainStore::new(alloc),
        ROWS,
    );
}
