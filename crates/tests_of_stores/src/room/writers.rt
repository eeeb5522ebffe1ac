//! Writers of rows.
use super::keys::key_named;
use super::metas::{add_five, meta_until, varied_meta};
use super::{Kept, Writer};
use crate::rows::{Told, word};
use bytes::Bytes;
use pcache_base::entry_id::CacheEntryId;
use pcache_base::error::Result;
use pcache_meta::meta::CacheMeta;
use pcache_store::storage::{HandleMiss, MissFinishType};
use std::alloc::Global;

/// Ends a write, and stores nothing.
pub fn end<S: Kept>(store: &mut S, writer: Writer<S>) {
    if let Some(writer) = writer {
        writer.drop_write(store);
    }
}

/// Makes the call of a writer.
pub fn tell<S: Kept>(
    alloc: Global,
    store: &mut S,
    writer: &mut Writer<S>,
    call: &'static str,
    told: &mut Told,
) {
    let text = word(call, 2);
    match word(call, 1) {
        "begins" => begin(alloc, store, writer, text, &meta_until(alloc, 300), told),
        "begins-varied" => begin_varied(alloc, store, writer, text, told),
        "finishes" => finish(store, writer.take(), told),
        "gives-up" => {
            told.say(if writer.is_some() { "ok" } else { "none open" });
            end(store, writer.take());
        }
        _ => match writer {
            Some(writer) => tell_of_open(store, writer, call, told),
            None => told.say("none open"),
        },
    }
}

fn begin<S: Kept>(
    alloc: Global,
    store: &mut S,
    place: &mut Writer<S>,
    name: &'static str,
    meta: &CacheMeta,
    told: &mut Told,
) {
    let key = key_named(alloc, name);
    match store.get_miss_handler(alloc, &key, meta) {
        Ok(begun) => {
            told.say("ok");
            end(store, place.replace(begun));
        }
        Err(refused) => told.refused(&refused),
    }
}

fn begin_varied<S: Kept>(
    alloc: Global,
    store: &mut S,
    place: &mut Writer<S>,
    name: &'static str,
    told: &mut Told,
) {
    let mut meta = varied_meta(alloc);
    if add_five(alloc, &mut meta.response_header_mut().headers) {
        begin(alloc, store, place, name, &meta, told);
    } else {
        told.say("no memory");
    }
}

fn tell_of_open<S: Kept>(store: &mut S, writer: &mut S::Miss, call: &'static str, told: &mut Told) {
    let text = word(call, 2);
    match word(call, 1) {
        "writes" => write(store, writer, text, false, told),
        "writes-last" => write(store, writer, text, true, told),
        "at-end" => told.yes_or_no(writer.at_eof(store)),
        "numbered" => told.number(S::number_of(writer)),
        _ => tell_entry(writer.entry_id(), told),
    }
}

/// The number of an entry, or that there is none.
pub fn tell_entry(id: Option<CacheEntryId>, told: &mut Told) {
    match id {
        Some(id) => told.number(id.get()),
        None => told.say("none"),
    }
}

fn write<S: Kept>(
    store: &mut S,
    writer: &mut S::Miss,
    text: &'static str,
    eof: bool,
    told: &mut Told,
) {
    if writer.at_eof(store) {
        return told.say("at eof");
    }
    told.done(writer.write_body(store, Bytes::from_static(text.as_bytes()), eof));
}

fn finish<S: Kept>(store: &mut S, writer: Writer<S>, told: &mut Told) {
    match writer {
        Some(writer) => tell_finished(writer.finish(store), told),
        None => told.say("none open"),
    }
}

fn tell_finished(end: Result<MissFinishType>, told: &mut Told) {
    match end {
        Ok(end) => told.named(&end),
        Err(refused) => told.refused(&refused),
    }
}
