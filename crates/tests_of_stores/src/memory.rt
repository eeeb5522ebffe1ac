//! The store in memory, call by call.
use crate::room::keys::key_named;
use crate::room::writers::tell_entry;
use crate::room::{Kept, run as run_rows};
use crate::rows::{Told, other_seed, word};
use pcache_base::error::Result;
use pcache_base::seed::Seed;
use pcache_meta::meta::spelled::SpelledMeta;
use pcache_store::memory::{MemCache, MemMissHandler};
use std::alloc::{AllocError, Global};
use std::process::Abort;

mod ends;
mod handlers;
mod pieces;

impl Kept for MemCache {
    fn number_of(writer: &MemMissHandler) -> u64 {
        writer.number()
    }

    fn tell(&mut self, alloc: Global, call: &'static str, told: &mut Told) {
        match word(call, 0) {
            "kept" => {
                let key = key_named(alloc, word(call, 1));
                tell_kept(self.spelled_meta(&key), told);
            }
            "writes" => told.shown(&self.write_records()),
            "shard-slots" => tell_slots(self, told),
            "shard-writes" => tell_writes(self, told),
            "total" => totals(self, told),
            _ => told.say("no such call"),
        }
    }
}

// The number in the meta that the store keeps of what it finds.
fn tell_kept(found: Result<Option<SpelledMeta>, AllocError>, told: &mut Told) {
    match found {
        Ok(Some(meta)) => tell_entry(meta.entry_id(), told),
        Ok(None) => told.say("none"),
        Err(refused) => told.refused(&refused.into()),
    }
}

// How many slots there are in each shard that has one, and that there are no others.
fn tell_slots(store: &MemCache, told: &mut Told) {
    for shard in 0..16usize {
        tell_shard(shard, store.shard_slots(shard), told);
    }
    told.say("no more");
}

// The same of records of writes.
fn tell_writes(store: &MemCache, told: &mut Told) {
    for shard in 0..16usize {
        tell_shard(shard, store.shard_write_records(shard), told);
    }
    told.say("no more");
}

fn tell_shard(shard: usize, count: usize, told: &mut Told) {
    if count > 0 {
        told.shown(&count);
        told.say(" in ");
        told.shown(&shard);
        told.say(", ");
    }
}

fn totals(store: &MemCache, told: &mut Told) {
    told.shown(&store.stored_bytes());
    told.say(" bytes in ");
    told.shown(&store.slots());
    told.say(", ");
    told.shown(&store.write_records());
    told.say(" writes");
}

// Plays the rows over two stores of their own, under two seeds, which return the same.
fn run(rt: &impl Abort, alloc: Global, rows: &'static str) {
    for seed in [Seed::fixed(), other_seed()] {
        let store = MemCache::new(alloc, seed);
        run_rows(rt, alloc, store, MemCache::new(alloc, seed), rows);
    }
}

const A_BODY_THAT_WAS_WRITTEN_IS_READ: &str = "
    1 looks a -> none
    1 begins a
    1 writes test1
    1 writes-last test2
    1 writes more -> at eof
    1 finishes -> Created(10)
    2 looks a -> hit 10 until 300
    2 reads -> data test1test2
    2 reads -> end
    2 ends
    writes -> 0
    close
    total -> 10 bytes in 1, 0 writes";

#[test]
fn a_body_that_was_written_is_read(rt: HostRuntime) {
    run(&rt, rt.alloc(), A_BODY_THAT_WAS_WRITTEN_IS_READ);
}

const A_FOUND_META_HAS_THE_NUMBER_OF_ITS_WRITE: &str = "
    number a -> none
    kept a -> none
    1 begins a
    number a -> 0
    kept a -> 0
    1 finishes -> Created(0)
    number a -> 0
    kept a -> 0
    1 begins a
    2 begins b
    number a -> 1
    number b -> 2
    kept a -> 1
    kept b -> 2
    1 finishes -> Created(0)
    2 finishes -> Created(0)
    number a -> 1
    update a 90 -> updated
    number a -> 1
    update-as a b -> updated
    number a -> 1
    number b -> 2
    expire a 5 -> Expired
    number a -> 1
    close";

#[test]
fn a_found_meta_has_the_number_of_its_write(rt: HostRuntime) {
    run(&rt, rt.alloc(), A_FOUND_META_HAS_THE_NUMBER_OF_ITS_WRITE);
}

const RANGES_OF_A_BODY_ARE_READ: &str = "
    1 begins a
    1 writes test1test2
    2 looks a -> part until 300
    2 seeks 0 -> InternalError
    1 finishes -> Created(10)
    1 looks a -> hit 10 until 300
    1 seeks 10000 -> InternalError
    1 seeks 10 -> InternalError
    1 seeks 5
    1 reads -> data test2
    1 reads -> end
    1 seeks 4 5
    1 reads -> data 1
    1 reads -> end
    1 seeks 5 4 -> InternalError
    1 seeks 8 99
    1 reads -> data t2
    1 seeks 3 3
    1 reads -> data
    1 reads -> end
    writes -> 1
    close
    total -> 10 bytes in 1, 0 writes";

#[test]
fn ranges_of_a_body_are_read(rt: HostRuntime) {
    run(&rt, rt.alloc(), RANGES_OF_A_BODY_ARE_READ);
}

const A_WRITE_IS_READ_WHILE_IT_IS_MADE: &str = "
    1 begins a
    1 looks a -> part until 300
    1 reads -> pending
    1 writes test1
    1 reads -> data test1
    1 reads -> pending
    1 writes test2
    1 reads -> data test2
    2 looks a -> part until 300
    2 reads -> data test1test2
    1 reads -> pending
    2 reads -> pending
    3 looks a -> part until 300
    1 finishes -> Created(10)
    1 reads -> end
    2 reads -> end
    3 reads -> data test1test2
    3 reads -> end
    writes -> 1
    close
    total -> 10 bytes in 1, 0 writes";

#[test]
fn a_write_is_read_while_it_is_made(rt: HostRuntime) {
    run(&rt, rt.alloc(), A_WRITE_IS_READ_WHILE_IT_IS_MADE);
}

const A_READER_GOES_ON_PAST_A_PURGE: &str = "
    1 begins a
    2 looks a -> part until 300
    2 reads -> pending
    1 writes ab
    2 reads -> data ab
    purge a -> Purged(None)
    1 writes cd
    1 gives-up
    2 reads -> data cd
    2 reads -> end
    4 looks a -> none
    2 ends
    writes -> 0
    close
    total -> 0 bytes in 0, 0 writes";

#[test]
fn a_reader_goes_on_past_a_purge(rt: HostRuntime) {
    run(&rt, rt.alloc(), A_READER_GOES_ON_PAST_A_PURGE);
}

const A_REMOVED_WRITE_IS_NOT_STORED: &str = "
    1 begins a
    1 writes x
    purge a -> Purged(None)
    3 looks a -> none
    3 begins a
    3 writes yy
    1 finishes -> WriteRemoved
    3 finishes -> Created(2)
    4 looks a -> hit 2 until 300
    4 reads -> data yy
    4 reads -> end
    writes -> 0
    close
    total -> 2 bytes in 1, 0 writes";

#[test]
fn a_removed_write_is_not_stored(rt: HostRuntime) {
    run(&rt, rt.alloc(), A_REMOVED_WRITE_IS_NOT_STORED);
}

const THE_EARLIEST_WRITE_IS_FOUND_AND_THE_LAST_FINISH_STAYS: &str = "
    1 begins a
    2 begins a
    1 writes one
    2 writes second
    1 looks a -> part until 300
    1 reads -> data one
    1 finishes -> Created(3)
    2 looks a -> part until 300
    2 reads -> data second
    2 finishes -> Created(6)
    3 looks a -> hit 6 until 300
    3 begins a
    3 finishes -> Created(0)
    3 reads -> data second
    writes -> 2
    close
    total -> 0 bytes in 1, 0 writes";

#[test]
fn the_earliest_write_is_found_and_the_last_finish_stays(rt: HostRuntime) {
    run(
        &rt,
        rt.alloc(),
        THE_EARLIEST_WRITE_IS_FOUND_AND_THE_LAST_FINISH_STAYS,
    );
}

const REMOVALS_NAME_WHAT_THEY_REMOVE: &str = "
    purge a -> NotFound
    1 begins a
    purge a -> Purged(None)
    purge a -> NotFound
    1 gives-up
    purge a -> NotFound
    1 begins a
    1 writes x
    1 finishes -> Created(1)
    purge-exact a 0 -> NotFound
    purge-exact b 1 -> NotFound
    1 looks a -> hit 1 until 300
    2 begins a
    purge-exact a 1 -> Purged(Some(CacheEntryId { number: 1 }))
    purge-exact a 1 -> NotFound
    2 looks a -> part until 300
    purge-exact a 2 -> Purged(Some(CacheEntryId { number: 2 }))
    2 gives-up
    2 ends
    1 looks a -> none
    1 begins a
    2 begins a
    2 writes xy
    2 finishes -> Created(2)
    purge-exact a -> Purged(None)
    1 looks a -> none
    1 finishes -> WriteRemoved
    writes -> 0
    close
    total -> 0 bytes in 0, 0 writes";

#[test]
fn removals_name_what_they_remove(rt: HostRuntime) {
    run(&rt, rt.alloc(), REMOVALS_NAME_WHAT_THEY_REMOVE);
}

const EXPIRIES_AND_METAS_ARE_OF_BODIES: &str = "
    expire a 100 -> NotFound
    update a 900 -> absent
    1 begins a
    expire a 100 -> NotFound
    update a 900 -> absent
    1 writes 123
    1 finishes -> Created(3)
    expire a 100 -> Expired
    1 looks a -> hit 3 until 100
    expire a 200 -> Expired
    2 looks a -> hit 3 until 100
    update a 900 -> updated
    3 looks a -> hit 3 until 900
    3 reads -> data 123
    writes -> 0
    close
    total -> 3 bytes in 1, 0 writes";

#[test]
fn expiries_and_metas_are_of_bodies(rt: HostRuntime) {
    run(&rt, rt.alloc(), EXPIRIES_AND_METAS_ARE_OF_BODIES);
}

const A_WRITE_IS_JOINED_BY_ITS_TAG: &str = "
    1 begins a
    2 begins a
    2 writes xy
    1 joins a 2 -> part until 300
    1 reads -> data xy
    2 joins b 2 -> none
    2 joins a 9 -> none
    purge a -> Purged(None)
    2 joins a 2 -> part until 300
    2 reads -> data xy
    2 gives-up
    3 joins a 2 -> none
    writes -> 2
    close
    total -> 0 bytes in 0, 0 writes";

#[test]
fn a_write_is_joined_by_its_tag(rt: HostRuntime) {
    run(&rt, rt.alloc(), A_WRITE_IS_JOINED_BY_ITS_TAG);
}
