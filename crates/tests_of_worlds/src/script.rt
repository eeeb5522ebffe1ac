//! Reading the rows of a text: each is a call, with the reply that is wanted after ` -> `.
//!
//! A row `at S` says that it is second `S` from then on; without one, each call comes three
//! seconds after the one before. A row `stat`, after the calls, asks for the counts.

use bytes::Bytes;
use http::StatusCode;
use pcache_base::error::Result;
use pcache_base::key::{CacheKey, HashBinary};
use pcache_base::moment::Moment;
use pcache_base::reason::NoCacheReason;
use pcache_meta::header::ResponseHeader;
use pcache_meta::header_text::reader::header_deserialize;
use pcache_meta::meta::CacheMeta;
use pcache_predict::admission::Decision;
use pcache_request::phase::HitStatus;
use pcache_world::world::boxed::Boxed;
use pcache_world::world::call::{Act, Call, RequestAct};
use pcache_world::world::tokens::Tokens;
use std::alloc::{AllocError, Global};
use std::fmt::Write;
use test_rows::key_of;

// The variance of a key that has one.
const VARIANCE: HashBinary = [0; 16];

// How many seconds lie between two calls of a text: it soon passes the age of ten seconds at which a
// permit is too old.
const BETWEEN: u64 = 3;

/// What time it is in a text.
#[derive(Clone, Copy)]
pub struct Clock {
    seconds: u64,
    step: u64,
}

impl Clock {
    /// The clock at the beginning of a text.
    pub fn new() -> Clock {
        Clock {
            seconds: 0,
            step: BETWEEN,
        }
    }

    /// Stands at this second from now on.
    pub fn set(&mut self, seconds: u64) {
        self.seconds = seconds;
        self.step = 0;
    }

    /// The moment of the next call.
    pub fn next(&mut self) -> Moment {
        let now = Moment::from_secs(self.seconds);
        self.seconds = self.seconds.saturating_add(self.step);
        now
    }
}

/// What a row asks for.
#[derive(Clone, Copy)]
pub enum Line {
    /// A call, or nothing that can be read.
    Call,
    /// That it is this second.
    At(u64),
    /// The numbers of the world.
    Stat,
}

/// What a row asks for, by its first word.
pub fn line_of(asked: &str) -> Line {
    if asked == "stat" {
        return Line::Stat;
    }
    match asked.strip_prefix("at ").and_then(number) {
        Some(seconds) => Line::At(seconds),
        None => Line::Call,
    }
}

// The words of a call: which it is, of which request, and more. Missing ones are empty.
#[derive(Clone, Copy)]
struct Words {
    call: &'static str,
    request: u64,
    first: &'static str,
    second: &'static str,
    third: &'static str,
}

fn number(word: &str) -> Option<u64> {
    word.parse::<u64>().ok()
}

fn words_of(asked: &'static str) -> Option<Words> {
    let mut words = asked.split(' ');
    Some(Words {
        call: words.next()?,
        request: number(words.next()?)?,
        first: words.next().unwrap_or(""),
        second: words.next().unwrap_or(""),
        third: words.next().unwrap_or(""),
    })
}

/// The call that a row spells, without its reply; none if it spells none, or if memory runs out.
pub fn call_of(alloc: Global, asked: &'static str, now: Moment) -> Option<Call> {
    let words = words_of(asked)?;
    if let Some(call) = plain_call(words.call, words.request, now) {
        return Some(call);
    }
    if let Some(call) = set_call(alloc, words.call, words.request) {
        return Some(call);
    }
    if let Some(call) = call_with(words, now) {
        return Some(call);
    }
    boxed_call(alloc, words)
}

// A call that has nothing but its request and its moment.
fn plain_call(word: &str, request: u64, now: Moment) -> Option<Call> {
    Some(match word {
        "open" => Act::Open { options: None }.of(request),
        "enable" => RequestAct::Enable { options: None }.of(request),
        "bypass" => RequestAct::Bypass.of(request),
        "miss" => RequestAct::Miss.of(request),
        "begin" => RequestAct::Begin.of(request),
        "finish" => RequestAct::Finish.of(request),
        "read" => RequestAct::Read.of(request),
        "done" => RequestAct::Done.of(request),
        "purge" => RequestAct::Purge.of(request),
        "expire" => RequestAct::Expire { now }.of(request),
        "wait" => Act::Wait { now }.of(request),
        "give" => Act::Give { to: request }.of(request),
        "updating" => RequestAct::Updating.of(request),
        "phase" => RequestAct::Phase.of(request),
        "end" => Act::End.of(request),
        "drop" => Act::Drop.of(request),
        "close" => Act::Close.of(request),
        _ => return None,
    })
}

// A call that has the same values in every text.
fn set_call(alloc: Global, word: &str, request: u64) -> Option<Call> {
    let reason = NoCacheReason::InternalError;
    Some(match word {
        "disable" => RequestAct::Disable { reason }.of(request),
        "release" => RequestAct::Release { reason }.of(request),
        "vary" => RequestAct::Vary { variance: VARIANCE }.of(request),
        "variance" => RequestAct::Variance { variance: None }.of(request),
        "seek" => RequestAct::Seek {
            start: 1,
            end: None,
        }
        .of(request),
        "lock" => RequestAct::Lock { is_used: true }.of(request),
        "publish" => RequestAct::Publish {
            tokens: Tokens::new(Vec::new(alloc)),
        }
        .of(request),
        _ => return None,
    })
}

// A call that has a value behind a box.
fn boxed_call(alloc: Global, words: Words) -> Option<Call> {
    let request = words.request;
    match words.call {
        "key" => set_key(Boxed::new(alloc, key_with(alloc, words)), request),
        "put" => put(
            Boxed::new(alloc, key_of(alloc, words.first.as_bytes(), "1")),
            words,
        ),
        "meta" => Some(RequestAct::Meta {
            meta: meta_of(alloc, words)?,
        }
        .of(request)),
        "revalidate" => Some(RequestAct::Revalidate {
            meta: meta_of(alloc, words)?,
        }
        .of(request)),
        "uncacheable" => uncacheable(head_of(alloc, words.first), alloc, request),
        _ => None,
    }
}

fn set_key(key: Result<Boxed<CacheKey>, AllocError>, request: u64) -> Option<Call> {
    match key {
        Ok(key) => Some(RequestAct::Key { key }.of(request)),
        Err(_refused) => None,
    }
}

// `put R NAME [MAX]`: of a body that may have so many bytes, if that is given.
fn put(key: Result<Boxed<CacheKey>, AllocError>, words: Words) -> Option<Call> {
    let limit = words.second.parse::<usize>().ok();
    match key {
        Ok(key) => Some(Act::Put { key, limit }.of(words.request)),
        Err(_refused) => None,
    }
}

fn uncacheable(head: Result<ResponseHeader>, alloc: Global, request: u64) -> Option<Call> {
    let reason = NoCacheReason::InternalError;
    match head {
        Ok(head) => {
            let header = Boxed::new(alloc, head).ok()?;
            Some(RequestAct::Uncacheable { header, reason }.of(request))
        }
        Err(_refused) => None,
    }
}

// A call that has words of its own.
fn call_with(words: Words, now: Moment) -> Option<Call> {
    let request = words.request;
    match words.call {
        "look" => Some(RequestAct::Look {
            now,
            decision: decision_of(words.first),
        }
        .of(request)),
        "found" => found(request, words.first, now),
        "write" => Some(RequestAct::Write {
            bytes: Bytes::from_static(words.first.as_bytes()),
            eof: words.second == "last",
        }
        .of(request)),
        "feed" => Some(Act::Feed {
            bytes: Bytes::from_static(piece_of(words.first).as_bytes()),
            now,
        }
        .of(request)),
        _ => None,
    }
}

// `key R NAME [TAG [v]]`: a tag of the user that is not `1`, and with `v` the variance.
fn key_with(alloc: Global, words: Words) -> CacheKey {
    let tag = if words.second.is_empty() {
        "1"
    } else {
        words.second
    };
    let mut key = key_of(alloc, words.first.as_bytes(), tag);
    if words.third == "v" {
        key.set_variance_key(VARIANCE);
    }
    key
}

// `feed R PIECE`: a head by its name, or bytes as they are.
fn piece_of(word: &'static str) -> &'static str {
    match word {
        "head" => "HTTP/1.1 200 OK\r\nCache-Control: max-age=60\r\nContent-Length: 4\r\n\r\n",
        "endless" => "HTTP/1.1 200 OK\r\nCache-Control: max-age=60\r\n\r\n",
        "no_store" => "HTTP/1.1 200 OK\r\nCache-Control: no-store\r\n\r\n",
        "no_age" => "HTTP/1.1 200 OK\r\n\r\n",
        "begun" => "HTTP/1.1 200 OK\r\nCache-Con",
        "ended" => "trol: max-age=60\r\nContent-Length: 4\r\n\r\nru",
        _ => word,
    }
}

// `look R [defer | ready]`: with the decision of an admission policy.
fn decision_of(word: &str) -> Option<Decision> {
    match word {
        "defer" => Some(Decision::Defer { observed: 1 }),
        "ready" => Some(Decision::Ready { observed: 2 }),
        _ => None,
    }
}

// `found R STATUS`.
fn found(request: u64, word: &str, now: Moment) -> Option<Call> {
    let status = match word {
        "fresh" => HitStatus::Fresh,
        "expired" => HitStatus::Expired,
        "force_fresh" => HitStatus::ForceFresh,
        "force_miss" => HitStatus::ForceMiss,
        _ => return None,
    };
    Some(RequestAct::Found { status, now }.of(request))
}

// `meta R [S [N]]`: of a response that is fresh until second 60, made at the first moment or at second `S`. With `N` it has so
// many fields and all else that a meta may have.
fn meta_of(alloc: Global, words: Words) -> Option<Boxed<CacheMeta>> {
    let seconds = number(words.first).unwrap_or(0);
    match head_of(alloc, words.second) {
        Ok(head) => {
            let meta = if words.second.is_empty() {
                meta_with(seconds, head)
            } else {
                whole_meta_with(seconds, head)
            };
            Boxed::new(alloc, meta).ok()
        }
        Err(_refused) => None,
    }
}

fn meta_with(seconds: u64, head: ResponseHeader) -> CacheMeta {
    CacheMeta::new(
        Moment::from_secs(60),
        Moment::from_secs(seconds),
        0,
        0,
        head,
    )
}

fn whole_meta_with(seconds: u64, head: ResponseHeader) -> CacheMeta {
    let mut meta = meta_with(seconds, head);
    meta.set_variance_key(VARIANCE);
    meta.set_provenance(Moment::from_secs(1));
    meta.set_epoch_override(Moment::from_secs(2));
    meta
}

// `uncacheable R [N]`: a head with so many fields, of status 404, or one of status 200 with none.
fn head_of(alloc: Global, word: &str) -> Result<ResponseHeader> {
    let Some(fields) = number(word) else {
        return Ok(ResponseHeader::build(alloc, StatusCode::OK));
    };
    let mut text = String::from_str(alloc, "HTTP/1.1 404\r\n")?;
    for field in 0..fields {
        write!(text, "x{field}: v\r\n")?;
    }
    text.push_str("\r\n")?;
    header_deserialize(alloc, text.as_bytes())
}
