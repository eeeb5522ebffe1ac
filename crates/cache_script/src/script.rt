//! Reading the lines of a script.
ghost use Rattle.std.specs.Prelude.{◌<◌, IfOk};

use bytes::Bytes;
use http::StatusCode;
use pcache_base::fills::{UnusableFill, UnusableFills};
use pcache_base::key::{CacheKey, HashBinary, str2hex};
use pcache_base::moment::Moment;
use pcache_base::reason::NoCacheReason;
use pcache_meta::header::ResponseHeader;
use pcache_meta::meta::CacheMeta;
use pcache_request::CacheOptionOverrides;
use pcache_request::phase::HitStatus;
use pcache_world::world::boxed::Boxed;
use pcache_world::world::call::{Act, Call, RequestAct};
use pcache_world::world::tokens::Tokens;
use std::alloc::{AllocError, AllocFailed, Global};
use std::time::Duration;

/// What a line is.
#[derive(Drop)]
pub enum Line {
    /// It is empty, or a comment.
    Skip,
    /// A request for the counts of the store and the manager.
    Stat,
    /// The moment of the lines that follow.
    At(Moment),
    /// Saves the manager in this folder, or loads it: calls of a world with files.
    Save(String),
    /// Loads the manager from this folder.
    Load(String),
    /// A call of the world.
    Call(Call),
}

/// Why a line was not read.
#[derive(Debug, Drop)]
pub enum Unread {
    /// It is not of the form of a line.
    BadCall,
    /// Memory ran out.
    OutOfMemory,
}

impl From<AllocError> for Unread {
    fn from(_refused: AllocError) -> Unread {
        Unread::OutOfMemory
    }
}

impl<T: Drop> From<AllocFailed<T>> for Unread {
    fn from(_refused: AllocFailed<T>) -> Unread {
        Unread::OutOfMemory
    }
}

// The words of a line that are not read yet. Spaces separate words.
#[derive(Drop)]
struct Words<'a>(&'a [u8]);

impl<'a> Words<'a> {
    fn next(&mut self) -> Option<&'a [u8]> {
        let start = self.0.iter().position(|byte| *byte != b' ')?;
        let rest = self.0.get(start..)?;
        let end = rest
            .iter()
            .position(|byte| *byte == b' ')
            .unwrap_or(rest.len());
        let word = rest.get(..end)?;
        self.0 = rest.get(end..)?;
        Some(word)
    }

    fn word(&mut self) -> Result<&'a [u8], Unread> {
        self.next().ok_or(Unread::BadCall)
    }

    // The next word, where a word of the script language is expected: these are UTF-8.
    fn name(&mut self) -> Result<&'a str, Unread> {
        name(self.word()?)
    }

    fn number(&mut self) -> Result<u64, Unread> {
        number(self.word()?)
    }

    // The rest of the next word after this prefix, if the word begins with it.
    fn option(&mut self, prefix: &[u8]) -> Option<&'a [u8]> {
        let before = self.0;
        let word = self.next()?;
        let value = word.strip_prefix(prefix);
        if value.is_none() {
            self.0 = before;
        }
        value
    }

    // Succeeds if the line ends here.
    fn end(mut self) -> Result<(), Unread> {
        match self.next() {
            Some(_) => Err(Unread::BadCall),
            None => Ok(()),
        }
    }
}

/// Reads a line, without its end. The moment of its call is `now`.
pub fn read(alloc: Global, line: &[u8], now: Moment) -> Result<Line, Unread> {
    if line.is_empty() || line.first() == Some(&b'#') {
        return Ok(Line::Skip);
    }
    let mut words = Words(line);
    let word = words.name()?;
    let line = match word {
        "stat" => Line::Stat,
        "at" => Line::At(Moment::from_secs(words.number()?)),
        "save" => Line::Save(text_of(alloc, words.word()?)?),
        "load" => Line::Load(text_of(alloc, words.word()?)?),
        _ => Line::Call(read_call(alloc, word, &mut words, now)?),
    };
    words.end()?;
    Ok(line)
}

fn read_call(
    alloc: Global,
    word: &str,
    words: &mut Words<'_>,
    now: Moment,
) -> Result<Call, Unread> {
    let request = words.number()?;
    match word {
        "open" => Ok(Act::Open {
            options: options(words)?,
        }
        .of(request)),
        "enable" => Ok(RequestAct::Enable {
            options: options(words)?,
        }
        .of(request)),
        "disable" => Ok(RequestAct::Disable {
            reason: reason(words.name()?)?,
        }
        .of(request)),
        "key" => Ok(RequestAct::Key {
            key: boxed(alloc, key(alloc, words)?)?,
        }
        .of(request)),
        "look" => Ok(RequestAct::Look {
            now,
            decision: None,
        }
        .of(request)),
        "found" => Ok(RequestAct::Found {
            status: status(words.name()?)?,
            now,
        }
        .of(request)),
        "bypass" => Ok(RequestAct::Bypass.of(request)),
        "miss" => Ok(RequestAct::Miss.of(request)),
        "meta" => Ok(RequestAct::Meta {
            meta: boxed(alloc, meta(alloc, words, now)?)?,
        }
        .of(request)),
        "purge" => Ok(RequestAct::Purge.of(request)),
        "expire" => Ok(RequestAct::Expire { now }.of(request)),
        "updating" => Ok(RequestAct::Updating.of(request)),
        "phase" => Ok(RequestAct::Phase.of(request)),
        "end" => Ok(Act::End.of(request)),
        "begin" | "write" | "finish" | "read" | "seek" | "done" => {
            read_body_call(alloc, word, request, words)
        }
        "put" | "feed" | "drop" | "close" => read_put_call(alloc, word, request, words, now),
        "vary" | "variance" | "revalidate" => {
            read_variant_call(alloc, word, request, words, now)
        }
        _ => read_lock_call(alloc, word, request, words, now),
    }
}

// A line about the body that a request writes or reads.
fn read_body_call(
    alloc: Global,
    word: &str,
    request: u64,
    words: &mut Words<'_>,
) -> Result<Call, Unread> {
    match word {
        "begin" => Ok(RequestAct::Begin.of(request)),
        "write" => {
            let bytes = text(alloc, words.word()?)?;
            let eof = ends_with_eof(words)?;
            Ok(RequestAct::Write {
                bytes: Bytes::from_vec(bytes)?,
                eof,
            }
            .of(request))
        }
        "finish" => Ok(RequestAct::Finish.of(request)),
        "read" => Ok(RequestAct::Read.of(request)),
        "seek" => Ok(RequestAct::Seek {
            start: place(words.word()?)?,
            end: words.next().map(place).transpose()?,
        }
        .of(request)),
        "done" => Ok(RequestAct::Done.of(request)),
        _ => Err(Unread::BadCall),
    }
}

// A line about a put.
fn read_put_call(
    alloc: Global,
    word: &str,
    request: u64,
    words: &mut Words<'_>,
    now: Moment,
) -> Result<Call, Unread> {
    match word {
        "put" => Ok(Act::Put {
            key: boxed(alloc, plain_key(alloc, words)?)?,
            limit: words.next().map(place).transpose()?,
        }
        .of(request)),
        "feed" => Ok(Act::Feed {
            bytes: Bytes::from_vec(text(alloc, words.word()?)?)?,
            now,
        }
        .of(request)),
        "drop" => Ok(Act::Drop.of(request)),
        "close" => Ok(Act::Close.of(request)),
        _ => Err(Unread::BadCall),
    }
}

// A line about the variants of a key, or the meta of a stale body that is still valid.
fn read_variant_call(
    alloc: Global,
    word: &str,
    request: u64,
    words: &mut Words<'_>,
    now: Moment,
) -> Result<Call, Unread> {
    match word {
        "vary" => Ok(RequestAct::Vary {
            variance: hash(words.name()?)?,
        }
        .of(request)),
        "variance" => Ok(RequestAct::Variance {
            variance: hash_or_none(words.name()?)?,
        }
        .of(request)),
        "revalidate" => Ok(RequestAct::Revalidate {
            meta: boxed(alloc, fresh_until(alloc, words.number()?, now))?,
        }
        .of(request)),
        _ => Err(Unread::BadCall),
    }
}

fn hash_or_none(word: &str) -> Result<Option<HashBinary>, Unread> {
    match word {
        "none" => Ok(None),
        _ => Ok(Some(hash(word)?)),
    }
}

// A response of status 200 that was made now, is fresh until this second, and is not served stale.
fn fresh_until(alloc: Global, seconds: u64, now: Moment) -> CacheMeta {
    let header = ResponseHeader::build(alloc, StatusCode::OK);
    CacheMeta::new(Moment::from_secs(seconds), now, 0, 0, header)
}

// An index into a body. Every number of 64 bits is allowed.
fn place(word: &[u8]) -> Result<usize, Unread> {
    usize::try_from(number(word)?).map_err(|_| Unread::BadCall)
}

// A line about the lock that a request holds.
fn read_lock_call(
    alloc: Global,
    word: &str,
    request: u64,
    words: &mut Words<'_>,
    now: Moment,
) -> Result<Call, Unread> {
    match word {
        "wait" => Ok(Act::Wait { now }.of(request)),
        // Sets no options, so that a wait timeout which `open` set is gone.
        "lock" => Ok(RequestAct::Lock {
            is_used: is_on(words.name()?)?,
        }
        .of(request)),
        "publish" => Ok(RequestAct::Publish {
            tokens: Tokens::new(tokens(alloc, words)?),
        }
        .of(request)),
        "release" => Ok(RequestAct::Release {
            reason: reason(words.name()?)?,
        }
        .of(request)),
        "give" => Ok(Act::Give {
            to: words.number()?,
        }
        .of(request)),
        "uncacheable" => Ok(RequestAct::Uncacheable {
            header: boxed(alloc, ResponseHeader::build(alloc, StatusCode::OK))?,
            reason: reason(words.name()?)?,
        }
        .of(request)),
        _ => Err(Unread::BadCall),
    }
}

// One number or more. A line has at most as many words as bytes.
fn tokens(alloc: Global, words: &mut Words<'_>) -> Result<Vec<u64>, Unread> {
    let mut tokens = Vec::new(alloc);
    tokens.push(words.number()?)?;
    for _ in 0..words.0.len() {
        let Some(token) = words.next() else {
            break;
        };
        tokens.push(number(token)?)?;
    }
    Ok(tokens)
}

// The options of a request's lock: for how many seconds it waits, if that is limited.
fn options(words: &mut Words<'_>) -> Result<Option<CacheOptionOverrides>, Unread> {
    let Some(word) = words.option(b"w=") else {
        return Ok(None);
    };
    Ok(Some(CacheOptionOverrides {
        wait_timeout: Some(Duration::from_secs(number(word)?)),
        max_lock_retries: None,
    }))
}

fn is_on(word: &str) -> Result<bool, Unread> {
    match word {
        "on" => Ok(true),
        "off" => Ok(false),
        _ => Err(Unread::BadCall),
    }
}

// A reason by its word. A caller's own reason has no word.
fn reason(word: &str) -> Result<NoCacheReason, Unread> {
    match word {
        "NeverEnabled" => Ok(NoCacheReason::NeverEnabled),
        "OriginNotCache" => Ok(NoCacheReason::OriginNotCache),
        "ResponseTooLarge" => Ok(NoCacheReason::ResponseTooLarge),
        "PredictedResponseTooLarge" => Ok(NoCacheReason::PredictedResponseTooLarge),
        "StorageError" => Ok(NoCacheReason::StorageError),
        "InternalError" => Ok(NoCacheReason::InternalError),
        "Deferred" => Ok(NoCacheReason::Deferred),
        "DeclinedToUpstream" => Ok(NoCacheReason::DeclinedToUpstream),
        "UpstreamError" => Ok(NoCacheReason::UpstreamError),
        "CacheLockGiveUp" => Ok(NoCacheReason::CacheLockGiveUp),
        "CacheLockTimeout" => Ok(NoCacheReason::CacheLockTimeout),
        "CacheLockRetryLimit" => Ok(NoCacheReason::CacheLockRetryLimit),
        _ => Err(Unread::BadCall),
    }
}

// A key, of its primary text and its tag.
fn plain_key(alloc: Global, words: &mut Words<'_>) -> Result<CacheKey, Unread> {
    let primary = text(alloc, words.word()?)?;
    Ok(CacheKey::new(primary, text_of(alloc, words.word()?)?))
}

// A key, perhaps followed by its variance and the fills that it cannot use.
fn key(alloc: Global, words: &mut Words<'_>) -> Result<CacheKey, Unread> {
    let mut key = plain_key(alloc, words)?;
    if let Some(word) = words.option(b"v=") {
        key.set_variance_key(hash(name(word)?)?);
    }
    if let Some(word) = words.option(b"u=") {
        key.unusable = Some(unusable(alloc, word)?);
    }
    Ok(key)
}

// A value that a call has behind a box.
fn boxed<T: Drop>(alloc: Global, value: T) -> Result<Boxed<T>, Unread> {
    Boxed::new(alloc, value).map_err(|_| Unread::OutOfMemory)
}

// A text in UTF-8.
fn text_of(alloc: Global, word: &[u8]) -> Result<String, Unread> {
    String::from_utf8(text(alloc, word)?).map_err(|_| Unread::BadCall)
}

fn hash(digits: &str) -> Result<HashBinary, Unread> {
    str2hex(digits).ok_or(Unread::BadCall)
}

// Fills by the tokens that their writers publish, one or more, between commas.
fn unusable(alloc: Global, word: &[u8]) -> Result<UnusableFills, Unread> {
    let mut fills = Vec::new(alloc);
    for token in word.split(|byte| *byte == b',') {
        fills.push(UnusableFill {
            token: number(token)?,
            reason: "unusable",
        })?;
    }
    Ok(UnusableFills::new(fills))
}

fn status(word: &str) -> Result<HitStatus, Unread> {
    match word {
        "expired" => Ok(HitStatus::Expired),
        "force_expired" => Ok(HitStatus::ForceExpired),
        "force_expired_serve_stale" => Ok(HitStatus::ForceExpiredServeStale),
        "force_miss" => Ok(HitStatus::ForceMiss),
        "failed_hit_filter" => Ok(HitStatus::FailedHitFilter),
        "fresh" => Ok(HitStatus::Fresh),
        "force_fresh" => Ok(HitStatus::ForceFresh),
        _ => Err(Unread::BadCall),
    }
}

// A response of status 200 that was made now and is fresh until the second that comes first. Two
// windows may follow: for how many seconds it may be served stale while it is renewed, and if that
// fails; without them it is not served stale.
fn meta(alloc: Global, words: &mut Words<'_>, now: Moment) -> Result<CacheMeta, Unread> {
    let fresh_until = Moment::from_secs(words.number()?);
    let (while_revalidate, if_error) = match words.next() {
        None => (0, 0),
        Some(word) => (window(word)?, window(words.word()?)?),
    };
    let header = ResponseHeader::build(alloc, StatusCode::OK);
    Ok(CacheMeta::new(fresh_until, now, while_revalidate, if_error, header))
}

// Seconds that fit 32 bits.
fn window(word: &[u8]) -> Result<u32, Unread> {
    u32::try_from(number(word)?).map_err(|_| Unread::BadCall)
}

fn ends_with_eof(words: &mut Words<'_>) -> Result<bool, Unread> {
    match words.next() {
        None => Ok(false),
        Some(word) if word == b"eof".as_slice() => Ok(true),
        Some(_) => Err(Unread::BadCall),
    }
}

// A word of the script language: these are UTF-8.
fn name(word: &[u8]) -> Result<&str, Unread> {
    std::str::from_utf8(word).map_err(|_| Unread::BadCall)
}

/// A decimal number of 64 bits.
pub(crate) fn number(word: &[u8]) -> Result<u64, Unread> {
    if word.is_empty() {
        return Err(Unread::BadCall);
    }
    let mut value = 0u64;
    for byte in word {
        let digit = match byte {
            b'0'..=b'9' => u64::from(*byte - b'0'),
            _ => return Err(Unread::BadCall),
        };
        value = value
            .checked_mul(10)
            .and_then(|tens| tens.checked_add(digit))
            .ok_or(Unread::BadCall)?;
    }
    Ok(value)
}

// The bytes that a word spells: a backslash begins an escape; every other byte means itself.
fn text(alloc: Global, word: &[u8]) -> Result<Vec<u8>, Unread> {
    let mut bytes = Vec::new(alloc);
    if word == b"\\e".as_slice() {
        return Ok(bytes);
    }
    let mut rest = word.iter();
    while let Some(byte) = rest.next() {
        if *byte != b'\\' {
            bytes.push(*byte)?;
            continue;
        }
        let escaped = match rest.next() {
            Some(b's') => b' ',
            Some(b'r') => b'\r',
            Some(b'n') => b'\n',
            Some(b'\\') => b'\\',
            Some(b'x') => 16 * hex_digit(rest.next())? + hex_digit(rest.next())?,
            _ => return Err(Unread::BadCall),
        };
        bytes.push(escaped)?;
    }
    Ok(bytes)
}

fn hex_digit(byte: Option<&u8>) -> Result<u8, Unread>
    ensures { IfOk result (λ digit. digit < 16) }
{
    match byte {
        Some(digit @ b'0'..=b'9') => Ok(*digit - b'0'),
        Some(digit @ b'a'..=b'f') => Ok(*digit - b'a' + 10),
        Some(digit @ b'A'..=b'F') => Ok(*digit - b'A' + 10),
        _ => Err(Unread::BadCall),
    }
}
