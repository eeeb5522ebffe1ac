//! Readers of rows.
use super::keys::key_named;
use super::writers::tell_entry;
use super::{Kept, Reader, Writer};
use crate::rows::{Told, size, some_size, word};
use bytes::Bytes;
use pcache_base::error::Result;
use pcache_base::poll::Poll;
use pcache_meta::meta::CacheMeta;
use pcache_store::storage::{HandleHit, HandleMiss, HitHandler};
use std::alloc::Global;

// What a look-up gives.
type Found<S> = Result<Option<(CacheMeta, HitHandler<S>)>>;

/// Lets a reader go.
pub fn end<S: Kept>(store: &mut S, reader: Reader<S>) {
    if let Some(reader) = reader {
        reader.let_go(store);
    }
}

/// Makes the call of a reader.
pub fn tell<S: Kept>(
    alloc: Global,
    store: &mut S,
    reader: &mut Reader<S>,
    call: &'static str,
    told: &mut Told,
) {
    match word(call, 1) {
        "looks" => {
            let key = key_named(alloc, word(call, 2));
            let found = store.lookup(alloc, &key);
            keep(store, reader, found, told);
        }
        "ends" => finish(store, reader.take(), told),
        "leaves" => {
            told.say(if reader.is_some() { "ok" } else { "none open" });
            end(store, reader.take());
        }
        _ => match reader {
            Some(reader) => tell_of_open(alloc, store, reader, call, told),
            None => told.say("none open"),
        },
    }
}

fn tell_of_open<S: Kept>(
    alloc: Global,
    store: &mut S,
    reader: &mut S::Hit,
    call: &'static str,
    told: &mut Told,
) {
    match word(call, 1) {
        "reads" => tell_read(reader.read_body(alloc, store), told),
        "is-whole" => told.say(if reader.is_whole(store) {
            "whole"
        } else {
            "not whole"
        }),
        "length" => told.named(&reader.body_length(store)),
        "seeks" => told.done(reader.seek(size(call, 2), some_size(call, 3))),
        "reads-entry" => tell_entry(reader.entry_id(), told),
        "reads-ranges" => told.yes_or_no(reader.can_seek_multipart()),
        _ => told.say("no such call"),
    }
}

/// What the tag of a writer finds.
pub fn joined<S: Kept>(
    alloc: Global,
    store: &mut S,
    writer: &Writer<S>,
    name: &'static str,
) -> Found<S> {
    let tag = match writer {
        Some(writer) => writer.streaming_write_tag(),
        None => None,
    };
    let key = key_named(alloc, name);
    store.lookup_streaming_write(alloc, &key, tag)
}

/// Keeps the reader that was found, and tells of a complete body the weight, and the end of freshness.
pub fn keep<S: Kept>(store: &mut S, place: &mut Reader<S>, found: Found<S>, told: &mut Told) {
    match found {
        Ok(Some((meta, reader))) => {
            tell_found::<S>(&meta, &reader, told);
            end(store, place.replace(reader));
        }
        Ok(None) => told.say("none"),
        Err(refused) => told.refused(&refused),
    }
}

fn tell_found<S: Kept>(meta: &CacheMeta, reader: &S::Hit, told: &mut Told) {
    if reader.should_count_access() && reader.can_seek() {
        told.say("hit ");
        told.shown(&reader.get_eviction_weight());
    } else {
        told.say("part");
    }
    told.say(" until ");
    told.number(meta.fresh_until().secs());
}

fn tell_read(read: Result<Poll<Option<Bytes>>>, told: &mut Told) {
    match read {
        Ok(Poll::Ready(Some(bytes))) => {
            told.say("data ");
            told.bytes(bytes.as_slice());
        }
        Ok(Poll::Ready(None)) => told.say("end"),
        Ok(Poll::Pending) => told.say("pending"),
        Err(refused) => told.refused(&refused),
    }
}

fn finish<S: Kept>(store: &mut S, reader: Reader<S>, told: &mut Told) {
    match reader {
        Some(reader) => told.done(reader.finish(store)),
        None => told.say("none open"),
    }
}
