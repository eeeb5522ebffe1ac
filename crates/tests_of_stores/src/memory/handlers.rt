//! Metas that come back, shards, and handlers by their traits.
use super::*;

// The meta that was given at the beginning is found with its parts, of a write and of a body; an expired one has another end.
const COMES_BACK: &str = "
    1 begins-varied aa
    meta aa -> same
    1 finishes -> Created(0)
    meta aa -> same
    expire aa 5 -> Expired
    meta aa -> other
    meta aa 5 -> same";

#[test]
fn a_meta_reads_back_equal(rt: HostRuntime) {
    run(&rt, rt.alloc(), COMES_BACK);
}

// The rows are played for any store whose writers are its own.
const STREAMS: &str = "
    streams -> yes
    1 begins aa
    1 joins aa 1 -> part until 300
    1 fills-entry -> 0
    1 gives-up
    1 reads-entry -> 0
    1 reads-ranges -> no
    1 leaves
    writes -> 0";

#[test]
fn any_store_streams_by_its_traits(rt: HostRuntime) {
    run(&rt, rt.alloc(), STREAMS);
}

// The key `aa` is in shard 14, without a variance and with one.
const BODIES: &str = "
    1 begins aa
    1 finishes -> Created(0)
    1 begins aa+
    1 finishes -> Created(0)
    shard-slots -> 2 in 14, no more
    purge-entry aa -> Purged(None)
    shard-slots -> 1 in 14, no more
    total -> 0 bytes in 1, 0 writes";

#[test]
fn bodies_stand_in_the_shard_of_their_key(rt: HostRuntime) {
    run(&rt, rt.alloc(), BODIES);
}

// A write of the plain key and one of the varied are kept in their shard, the first while its reader names it.
const WRITES: &str = "
    1 begins aa
    shard-writes -> 1 in 14, no more
    1 looks aa -> part until 300
    1 gives-up
    2 begins aa+
    shard-writes -> 2 in 14, no more
    1 leaves
    shard-writes -> 1 in 14, no more
    2 gives-up
    shard-writes -> no more";

#[test]
fn writes_are_kept_in_the_shard_of_their_key(rt: HostRuntime) {
    run(&rt, rt.alloc(), WRITES);
}

// The first write of one store and the first of another, under keys of different shards. Lent the other's store, the handler of
// the one names the write of its number there.
const BY_NUMBER: &str = "
    apart aa b -> yes
    1 begins aa
    swap
    2 begins b
    1 at-end -> no
    1 writes-last ab
    1 at-end -> yes
    swap
    1 at-end -> no
    1 gives-up
    swap
    2 at-end -> yes
    2 gives-up";

#[test]
fn a_handler_names_its_write_by_the_number(rt: HostRuntime) {
    run(&rt, rt.alloc(), BY_NUMBER);
}

// The last number is that of a body, and one more write fails, each time, with nothing changed.
const LAST: &str = "
    1 begins aa
    1 numbered -> 18446744073709551615
    1 finishes -> Created(0)
    1 begins aa -> NumbersExhausted
    1 begins aa -> NumbersExhausted
    total -> 0 bytes in 1, 0 writes";

#[test]
fn the_last_number_is_given_to_one_write(rt: HostRuntime) {
    let alloc = rt.alloc();
    let store = MemCache::starting_at(alloc, Seed::fixed(), u64::MAX);
    run_rows(&rt, alloc, store, MemCache::new(alloc, Seed::fixed()), LAST);
}
