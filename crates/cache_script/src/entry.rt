//! Writing an entry of a history.

use crate::reply::{write_reply, write_text};
use bytes::Bytes;
use pcache_base::key::{CacheHashKey, HashBinary};
use pcache_base::moment::Moment;
use pcache_base::poll::Poll;
use pcache_evict::eviction::CacheEntryKey;
use pcache_meta::meta::CacheMeta;
use pcache_meta::meta::codec::deserialize_internal;
use pcache_meta::meta::spelled::SpelledMeta;
use pcache_world::world::boxed::Boxed;
use pcache_world::world::entry::{Answer, Entry, Event};
use std::io;
use std::io::Write;

/// Writes an entry: its reply, and each of its events, on a line each.
pub fn write_entry<W: Write>(output: &mut W, entry: &Entry) -> io::Result<()> {
    write!(output, "noted ")?;
    write_reply(output, &entry.reply)?;
    for event in entry.events.as_slice() {
        write_event(output, event)?;
        writeln!(output)?;
    }
    Ok(())
}

fn write_event<W: Write>(output: &mut W, event: &Event) -> io::Result<()> {
    match event {
        Event::Look { slot, answer } => write_look(output, *slot, answer),
        Event::Ask {
            slot,
            lock,
            is_permit,
        } => write!(output, "ask {slot:x} {lock} {is_permit}"),
        Event::Access { entry, weight } => {
            write!(output, "access ")?;
            write_key(output, entry)?;
            write!(output, " {weight}")
        }
        Event::Begin { write, slot, meta } => {
            write!(output, "begin {write} {slot:x} ")?;
            write_meta(output, meta)
        }
        Event::Wrote { write, bytes, eof } => {
            write!(output, "wrote {write} ")?;
            write_text(output, bytes.as_slice())?;
            write!(output, " {eof}")
        }
        Event::Finish { write, is_stored } => write!(output, "finish {write} {is_stored}"),
        Event::Dropped { write } => write!(output, "dropped {write}"),
        _ => write_other(output, event),
    }
}

// Events of locks, of the manager, of a removal and of a read.
fn write_other<W: Write>(output: &mut W, event: &Event) -> io::Result<()> {
    match event {
        Event::Release { lock } => write!(output, "release {lock}"),
        Event::LetGo { lock } => write!(output, "let_go {lock}"),
        Event::Aged { lock } => write!(output, "aged {lock}"),
        Event::Admit {
            entry,
            weight,
            evicted,
        } => {
            write!(output, "admit ")?;
            write_key(output, entry)?;
            write!(output, " {weight}")?;
            write_keys(output, evicted.as_slice())
        }
        Event::Purge { slot } => write!(output, "purge {slot:x}"),
        Event::Expire { slot, now } => {
            let now = now.as_nanos();
            write!(output, "expire {slot:x} {now}")
        }
        Event::Renew { slot, meta } => {
            write!(output, "renew {slot:x} ")?;
            write_meta(output, meta)
        }
        Event::Untrack { entry } => {
            write!(output, "untrack ")?;
            write_key(output, entry)
        }
        Event::Read { answer } => write_read(output, answer),
        // these are written before
        Event::Look { .. }
        | Event::Ask { .. }
        | Event::Access { .. }
        | Event::Begin { .. }
        | Event::Wrote { .. }
        | Event::Finish { .. }
        | Event::Dropped { .. } => Ok(()),
    }
}

fn write_look<W: Write>(output: &mut W, slot: u128, answer: &Answer) -> io::Result<()> {
    match answer {
        Answer::Nothing => write!(output, "look {slot:x} nothing"),
        Answer::Complete { meta, body } => {
            write!(output, "look {slot:x} complete ")?;
            write_kept(output, meta)?;
            write!(output, " ")?;
            write_text(output, body.as_slice())
        }
        Answer::Streaming { meta, write } => {
            write!(output, "look {slot:x} part ")?;
            write_kept(output, meta)?;
            write!(output, " {write}")
        }
    }
}

fn write_read<W: Write>(output: &mut W, answer: &Poll<Option<Bytes>>) -> io::Result<()> {
    match answer {
        Poll::Pending => write!(output, "read pending"),
        Poll::Ready(None) => write!(output, "read end"),
        Poll::Ready(Some(bytes)) => {
            write!(output, "read data ")?;
            write_text(output, bytes.as_slice())
        }
    }
}

fn write_meta<W: Write>(output: &mut W, meta: &Boxed<CacheMeta>) -> io::Result<()> {
    let meta = meta.get();
    let moments = [meta.fresh_until(), meta.created(), meta.provenance()];
    let windows = [meta.stale_while_revalidate_sec(), meta.stale_if_error_sec()];
    write_said(output, moments, windows, meta.variance())
}

// A meta that is kept as its bytes. They are read without memory, which a torment may refuse.
fn write_kept<W: Write>(output: &mut W, meta: &Boxed<SpelledMeta>) -> io::Result<()> {
    let (internal, _header) = meta.get().strings();
    let Ok(said) = deserialize_internal(internal) else {
        return Ok(()); // kept bytes spell a meta
    };
    let provenance = said.provenance.unwrap_or(said.created);
    let moments = [said.fresh_until, said.created, provenance];
    let windows = [said.stale_while_revalidate_sec, said.stale_if_error_sec];
    write_said(output, moments, windows, said.variance)
}

// What a meta says: when it is fresh until, was created and fetched, in nanoseconds, its windows in seconds, and its variance.
fn write_said<W: Write>(
    output: &mut W,
    moments: [Moment; 3],
    windows: [u32; 2],
    variance: Option<HashBinary>,
) -> io::Result<()> {
    let [fresh_until, created, provenance] = moments;
    let fresh_until = fresh_until.as_nanos();
    let created = created.as_nanos();
    let provenance = provenance.as_nanos();
    let [while_revalidate, if_error] = windows;
    write!(
        output,
        "{fresh_until},{created},{provenance},{while_revalidate},{if_error},"
    )?;
    match variance {
        None => write!(output, "none"),
        Some(variance) => write_hash(output, variance),
    }
}

// The number of a hash, high byte first.
fn write_hash<W: Write>(output: &mut W, hash: HashBinary) -> io::Result<()> {
    let number = u128::from_be_bytes(hash);
    write!(output, "{number:x}")
}

// The combined hash of an entry's key, its tag, and its number if it has one.
fn write_key<W: Write>(output: &mut W, entry: &CacheEntryKey) -> io::Result<()> {
    write_hash(output, entry.key().combined_bin())?;
    write!(output, "/")?;
    write_text(output, entry.key().user_tag().as_bytes())?;
    match entry.entry_id() {
        None => Ok(()),
        Some(id) => {
            let number = id.get();
            write!(output, "/{number}")
        }
    }
}

fn write_keys<W: Write>(output: &mut W, entries: &[CacheEntryKey]) -> io::Result<()> {
    for entry in entries {
        write!(output, " ")?;
        write_key(output, entry)?;
    }
    Ok(())
}
