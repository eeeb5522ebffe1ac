//! What is known of a stored response: its times, and itself as two byte strings.
//! The rows are hand-computed from RFC 9111 (4.2), RFC 5861 and the layout in docs/FORMATS.md.
use crate::heads::append;
use crate::rows::{Desk, Told, number, play, rest, some_byte, unescape, unhex, word};
use http::StatusCode;
use pcache_base::error::{Error, ErrorType, Result};
use pcache_base::moment::Moment;
use pcache_meta::header::{HttpVersion, ResponseHeader};
use pcache_meta::meta::CacheMeta;
use pcache_meta::meta::spelled::SpelledMeta;
use std::alloc::{AllocError, Global};
use std::fmt::Write;

fn at(secs: u64) -> Moment {
    Moment::from_secs(secs)
}

// Fresh from 1 s to 300 s, with windows of 30 s and 60 s.
fn meta(alloc: Global) -> CacheMeta {
    let header = ResponseHeader::build(alloc, StatusCode::OK);
    CacheMeta::new(at(300), at(1), 30, 60, header)
}

// A meta, and the two strings that one is read of.
#[derive(Drop)]
struct Metas {
    alloc: Global,
    meta: CacheMeta,
    internal: Vec<u8>,
    header: Vec<u8>,
}

fn new(alloc: Global) -> Metas {
    Metas {
        alloc,
        meta: meta(alloc),
        internal: Vec::new(alloc),
        header: Vec::new(alloc),
    }
}

impl Desk for Metas {
    fn tell(&mut self, call: &'static str, told: &mut Told) {
        if change(&mut self.meta, call) || change_variance(&mut self.meta, call) {
            told.say("ok");
        } else if word(call, 0) == "new" {
            self.meta = meta(self.alloc);
            told.say("ok");
        } else if take_string(&mut self.internal, &mut self.header, call) {
            told.say("ok");
        } else {
            answer(
                self.alloc,
                &mut self.meta,
                self.internal.as_slice(),
                self.header.as_slice(),
                call,
                told,
            );
        }
    }
}

// Whether the call names one of the two strings, which it then is.
fn take_string(internal: &mut Vec<u8>, header: &mut Vec<u8>, call: &'static str) -> bool {
    match word(call, 0) {
        "internal" => unhex(rest(call), internal),
        "header" => unescape(rest(call), header),
        "header-bytes" => unhex(rest(call), header),
        _ => false,
    }
}

// Whether the call changes times of a meta.
fn change(meta: &mut CacheMeta, call: &'static str) -> bool {
    let moment = at(number(call, 1));
    match word(call, 0) {
        "no-windows" => meta.disable_serve_stale(),
        "fresh-until" => meta.update_freshness(moment, 1, 1, at(2)),
        "expire" => meta.expire_at(moment),
        "provenance-is" => meta.set_provenance(moment),
        "provenance-is-created" => meta.reset_provenance_to_created(),
        "epoch-is" => meta.set_epoch_override(moment),
        "no-epoch" => meta.remove_epoch_override(),
        _ => return false,
    }
    true
}

// Whether the call changes the variance of a meta, or its head.
fn change_variance(meta: &mut CacheMeta, call: &'static str) -> bool {
    let hash = [some_byte(call, 1).unwrap_or(0); 16];
    match word(call, 0) {
        "variance-key-is" => meta.set_variance_key(hash),
        "variance-is" => meta.set_variance(hash),
        "no-variance" => meta.remove_variance(),
        "version-2" => meta.response_header_mut().version = HttpVersion::Http2,
        _ => return false,
    }
    true
}

fn answer(
    alloc: Global,
    meta: &mut CacheMeta,
    internal: &[u8],
    header: &[u8],
    call: &'static str,
    told: &mut Told,
) {
    match word(call, 0) {
        "field" => told.yes_or_no(add_field(alloc, meta, word(call, 1), word(call, 2))),
        "fields" => told.yes_or_no(add_fields(alloc, meta, number(call, 1))),
        "read" => tell_read(CacheMeta::deserialize(alloc, internal, header), told),
        "beginnings" => told.yes_or_no(refuses_beginnings(alloc, internal, header)),
        _ => tell_of(alloc, meta, call, told),
    }
}

fn add_field(alloc: Global, meta: &mut CacheMeta, name: &str, value: &str) -> bool {
    append(
        alloc,
        &mut meta.response_header_mut().headers,
        name,
        value.as_bytes(),
    )
}

// Adds so many names, each with its number as value.
fn add_fields(alloc: Global, meta: &mut CacheMeta, count: u64) -> bool {
    let mut name = String::new(alloc);
    for number in 0..count {
        name.clear();
        if write!(name, "x{number}").is_err()
            || !add_field(alloc, meta, name.as_str(), name.as_str())
        {
            return false;
        }
    }
    true
}

fn tell_of(alloc: Global, meta: &CacheMeta, call: &'static str, told: &mut Told) {
    let moment = at(number(call, 1));
    match word(call, 0) {
        "times" => times(meta, told),
        "fresh" => told.yes_or_no(meta.is_fresh(moment)),
        "fresh-for" => told.number(meta.fresh_sec()),
        "age" => told.number(meta.age(moment).as_secs()),
        _ => tell_state(alloc, meta, call, told),
    }
}

// Whether it may be served although it is stale, what it varies on, and its head.
fn tell_state(alloc: Global, meta: &CacheMeta, call: &'static str, told: &mut Told) {
    let moment = at(number(call, 1));
    match word(call, 0) {
        "good-while-updating" => told.yes_or_no(meta.serve_stale_while_revalidate(moment)),
        "good-in-error" => told.yes_or_no(meta.serve_stale_if_error(moment)),
        "variance" => told.hash(meta.variance()),
        "head" => head(meta.response_header(), told),
        "no-fields" => told.yes_or_no(meta.headers().is_empty()),
        _ => tell_copy(alloc, meta, call, told),
    }
}

fn tell_copy(alloc: Global, meta: &CacheMeta, call: &'static str, told: &mut Told) {
    match call {
        "copied-head" => tell_head(meta.response_header_copy(), told),
        "copied" => tell_read(meta.copied().map_err(Error::from), told),
        "write" => tell_strings(meta.serialize(alloc), told),
        "again" => tell_again(written_and_read(alloc, meta), meta, told),
        "kept" => tell_kept(alloc, copy_kept(alloc, meta), told),
        "kept-again" => tell_again(kept_and_read(alloc, meta), meta, told),
        _ => told.say("no such call"),
    }
}

// Until when it is fresh, when it was made, last validated and first made, what counts from when, the windows, and the number.
fn times(meta: &CacheMeta, told: &mut Told) {
    told.numbers(&[
        meta.fresh_until().secs(),
        meta.created().secs(),
        meta.updated().secs(),
        meta.provenance().secs(),
        meta.epoch().secs(),
    ]);
    if meta.epoch_override().is_some() {
        told.say("!");
    }
    told.say(",");
    told.numbers(&[
        u64::from(meta.stale_while_revalidate_sec()),
        u64::from(meta.stale_if_error_sec()),
    ]);
    if let Some(id) = meta.entry_id() {
        told.say(" #");
        told.number(id.get());
    }
}

fn head(header: &ResponseHeader, told: &mut Told) {
    told.named(&header.version);
    told.say(" ");
    told.number(u64::from(header.status.as_u16()));
}

fn tell_head(header: Result<ResponseHeader, AllocError>, told: &mut Told) {
    match header {
        Ok(header) => head(&header, told),
        Err(refused) => told.refused(&Error::from(refused)),
    }
}

fn tell_read(read: Result<CacheMeta>, told: &mut Told) {
    match read {
        Ok(meta) => times(&meta, told),
        Err(refused) => told.refused(&refused),
    }
}

fn tell_strings(strings: Result<(Vec<u8>, Vec<u8>), AllocError>, told: &mut Told) {
    match strings {
        Ok((internal, header)) => tell_two(internal.as_slice(), header.as_slice(), told),
        Err(refused) => told.refused(&Error::from(refused)),
    }
}

fn tell_two(internal: &[u8], header: &[u8], told: &mut Told) {
    told.hex(internal);
    told.say(" ");
    told.bytes(header);
}

fn written_and_read(alloc: Global, meta: &CacheMeta) -> Result<CacheMeta> {
    let (internal, header) = meta.serialize(alloc)?;
    CacheMeta::deserialize(alloc, internal.as_slice(), header.as_slice())
}

// What is read of the two strings that are written of the meta, and whether its fields come back.
fn tell_again(read: Result<CacheMeta>, meta: &CacheMeta, told: &mut Told) {
    match read {
        Ok(read) => {
            times(&read, told);
            told.say(" ");
            told.hash(read.variance());
            let same = *read.headers() == *meta.headers();
            told.say(if same {
                ", the same fields"
            } else {
                ", other fields"
            });
        }
        Err(refused) => told.refused(&refused),
    }
}

fn copy_kept(alloc: Global, meta: &CacheMeta) -> Result<SpelledMeta, AllocError> {
    SpelledMeta::new(alloc, meta)?.copied()
}

fn kept_and_read(alloc: Global, meta: &CacheMeta) -> Result<CacheMeta> {
    Ok(copy_kept(alloc, meta)?.meta(alloc)?)
}

// What is kept of the meta, once it was copied.
fn tell_kept(alloc: Global, kept: Result<SpelledMeta, AllocError>, told: &mut Told) {
    match kept {
        Ok(kept) => {
            let (internal, header) = kept.strings();
            tell_two(internal, header, told);
            tell_read(kept.meta(alloc).map_err(Error::from), told);
        }
        Err(refused) => told.refused(&Error::from(refused)),
    }
}

fn is_refused(alloc: Global, internal: &[u8], header: &[u8]) -> bool {
    match CacheMeta::deserialize(alloc, internal, header) {
        Ok(_meta) => false,
        Err(refused) => refused.etype() == ErrorType::InternalError,
    }
}

// Whether reading fails for each proper prefix of one of the strings, and not for the whole
// strings.
fn refuses_beginnings(alloc: Global, internal: &[u8], header: &[u8]) -> bool {
    for end in 0..internal.len() {
        if !is_refused(alloc, &internal[..end], header) {
            return false;
        }
    }
    for end in 0..header.len() {
        if !is_refused(alloc, internal, &header[..end]) {
            return false;
        }
    }
    !is_refused(alloc, internal, header)
}

const TIMES: &str = "
    # a new meta
    times -> 300 1 1 1 1, 30 60
    variance -> none
    fresh-for -> 299
    age 11 -> 10
    fresh 300 -> yes
    fresh 301 -> no
    # windows
    good-while-updating 330 -> yes
    good-while-updating 331 -> no
    good-in-error 360 -> yes
    good-in-error 361 -> no
    no-windows
    good-while-updating 300 -> no
    good-in-error 300 -> no
    # a window that ends at no moment never ends
    fresh-until 18446744073709551615
    good-in-error 18446744073709551615 -> yes
    times -> 18446744073709551615 1 2 1 2, 1 1
    # expiring keeps the windows
    new
    expire 400
    times -> 300 1 1 1 1, 30 60
    expire 200
    times -> 200 1 1 1 1, 30 60
    # what can be set
    new
    provenance-is 9
    times -> 300 1 1 9 1, 30 60
    provenance-is-created
    times -> 300 1 1 1 1, 30 60
    epoch-is 7
    times -> 300 1 1 1 7!, 30 60
    no-epoch
    times -> 300 1 1 1 1, 30 60
    variance-key-is 1
    variance -> 01010101010101010101010101010101
    variance-is 2
    variance -> 02020202020202020202020202020202
    no-variance
    variance -> none
    # the head
    version-2
    head -> Http2 200
    copied-head -> Http2 200
    no-fields -> yes
    copied -> 300 1 1 1 1, 30 60";

#[test]
fn times_windows_and_the_head(rt: HostRuntime) {
    play(&rt, rt.alloc(), &mut new(rt.alloc()), TIMES);
}

const STRINGS: &str = r"
    # a new meta is written, and kept as its strings
    write -> 9a0392cd012c009201009201001e3cc0c0920100c0 HTTP/1.1 200\r\n\r\n
    kept -> 9a0392cd012c009201009201001e3cc0c0920100c0 HTTP/1.1 200\r\n\r\n 300 1 1 1 1, 30 60
    # a meta reads back
    variance-key-is 172
    epoch-is 7
    field cache-control max-age=5 -> yes
    again -> 300 1 1 1 7!, 30 60 acacacacacacacacacacacacacacacac, the same fields
    kept-again -> 300 1 1 1 7!, 30 60 acacacacacacacacacacacacacacacac, the same fields
    # so do repeated names, a long unusual name, an empty value, and many names
    field set-cookie a=1 -> yes
    field x-a-name-that-is-in-no-list-of-names-and-longer-than-all-of-them 1 -> yes
    field set-cookie b=2 -> yes
    field x-empty -> yes
    kept-again -> 300 1 1 1 7!, 30 60 acacacacacacacacacacacacacacacac, the same fields
    fields 300 -> yes
    kept-again -> 300 1 1 1 7!, 30 60 acacacacacacacacacacacacacacacac, the same fields
    # each shorter beginning is refused
    internal 9a 03 92 cd 01 2c 00 92 01 00 92 01 00 1e 3c c0 c0 92 01 00 07
    header HTTP/1.1 200\r\n\r\n
    read -> 300 1 1 1 1, 30 60 #7
    beginnings -> yes
    internal dc 00 0a 03 92 cd 01 2c 00 92 01 00 92 01 00 1e 3c c0 c0 92 01 00 07
    read -> 300 1 1 1 1, 30 60 #7
    beginnings -> yes
    # version 2 has no number
    internal 99 02 92 cd 01 2c 00 92 01 00 92 01 00 1e 3c c0 c0 92 01 00
    read -> 300 1 1 1 1, 30 60
    beginnings -> yes
    # whichever of the two strings is none of a meta's, memory is not what is wanting
    header HTTP/1.1 200\r\na: 1\r\n
    read -> InternalError
    header HTTP/1.1 200\r\nx-name: 1\r\nX-name: 2\r\n\r\n
    read -> InternalError
    header HTTP/1.1 200\r\nx-name: 1\r\ny-name: 2\r\nx-name: 3\r\n\r\n
    read -> InternalError
    header HTTP/1.1 200\r\n\r\n
    internal 99 02 92 cd 01 2c 00 92 01 00 92 01 00 1e 3c c0 c0 92 01
    read -> InternalError
    internal
    read -> InternalError
    # the two strings stand in each other's place
    internal 48 54 54 50 2f 31 2e 31 20 32 30 30 0d 0a 0d 0a
    header-bytes 99 02 92 cd 01 2c 00 92 01 00 92 01 00 1e 3c c0 c0 92 01 00
    read -> InternalError
    header HTTP/1.1 200\r\n\r\n
    # old versions read
    internal 94 92 cd 01 2c 00 92 01 00 00 00
    read -> 300 1 1 1 1, 0 0";

#[test]
fn metas_as_two_strings(rt: HostRuntime) {
    play(&rt, rt.alloc(), &mut new(rt.alloc()), STRINGS);
}
