//! Puts: responses that are pushed into a store in memory, in pieces.
ghost use Rattle.pcache_put.specs.Policies.{SaysByDefault};
ghost use Rattle.tests_of_requests.specs.Lifetimes.{IsSeconds};

use crate::lifetimes::{by_seconds, one_second};
use crate::rows::{Desk, Told, number, play, size, unescape};
use bytes::Bytes;
use http::StatusCode;
use pcache_base::error::Result;
use pcache_base::key::{CacheKey, CompactCacheKey};
use pcache_base::moment::Moment;
use pcache_base::poll::Poll;
use pcache_base::reason::NoCacheReason;
use pcache_base::seed::Seed;
use pcache_control::{CacheMetaDefaults, RespCacheable};
use pcache_evict::eviction::EvictionManager;
use pcache_evict::eviction::simple_lru::Manager;
use pcache_meta::header::ResponseHeader;
use pcache_put::context::CachePutCtx;
use pcache_put::policy::{ByDefaults, CachePut};
use pcache_put::report::{PieceEnd, PieceReport, PutEnd, PutOutcome, PutReport, Written};
use pcache_store::memory::{MemCache, MemHitHandler, MemMissHandler};
use pcache_store::storage::{HandleHit, HandleMiss, PurgeTarget, PurgeType, Storage};
use std::alloc::Global;
use std::fmt::Write;
use std::process::Abort;

// A policy that goes by defaults under which every status is fresh for a second.
#[derive(Drop)]
struct OneSecond;

impl CachePut for OneSecond {
    ghost says = { λ p. SaysByDefault (0, 0) (IsSeconds 1) };

    fn cacheable(
        &self,
        alloc: Global,
        header: ResponseHeader,
        now: Moment,
    ) -> Result<RespCacheable> {
        let defaults = CacheMetaDefaults::new(one_second, 0, 0);
        by_seconds(alloc, header, &defaults, now, 1)
    }
}

// Whether a response that says nothing of its lifetime is stored by the policy that goes by these defaults.
fn is_stored_by_defaults(alloc: Global) -> bool {
    let policy = ByDefaults {
        defaults: CacheMetaDefaults::new(one_second, 0, 0),
    };
    let header = ResponseHeader::build(alloc, StatusCode::OK);
    is_cacheable(policy.cacheable(alloc, header, Moment::EPOCH))
}

fn is_cacheable(answer: Result<RespCacheable>) -> bool {
    matches!(answer, Ok(RespCacheable::Cacheable(_)))
}

#[test]
fn defaults_decide(rt: HostRuntime) {
    assert!(rt; is_stored_by_defaults(rt.alloc()));
}

// The parts that puts borrow, the key of them all, and the bytes of a piece.
#[derive(Drop)]
struct Parts {
    alloc: Global,
    store: MemCache,
    manager: Manager,
    key: CacheKey,
    compact: CompactCacheKey,
    piece: Vec<u8>,
}

impl Parts {
    fn new(alloc: Global) -> Result<Parts> {
        let key = key_of(alloc)?;
        let compact = key.to_compact()?;
        Ok(Parts {
            alloc,
            store: MemCache::new(alloc, Seed::fixed()),
            manager: Manager::new(alloc, Seed::fixed(), 9)?,
            key,
            compact,
            piece: Vec::new(alloc),
        })
    }
}

fn key_of(alloc: Global) -> Result<CacheKey> {
    let primary = b"a".to_vec(alloc)?;
    Ok(CacheKey::new(primary, String::from_str(alloc, "1")?))
}

type Put = CachePutCtx<OneSecond, MemCache>;

// A put with its parts.
struct Putting {
    parts: Parts,
    put: Put,
}

impl Putting {
    fn make(alloc: Global) -> Result<Putting> {
        let parts = Parts::new(alloc)?;
        let put = CachePutCtx::new(alloc, OneSecond, key_of(alloc)?);
        Ok(Putting { parts, put })
    }

    fn end(self) {
        let Putting { mut parts, put } = self;
        put.end(&mut parts.store);
    }
}

impl Desk for Putting {
    fn tell(&mut self, call: &'static str, told: &mut Told) {
        let Putting { parts, put } = self;
        let (verb, text) = call.split_once(' ').unwrap_or((call, ""));
        match verb {
            "limit" => {
                put.set_max_file_size_bytes(size(call, 1));
                told.say("ok");
            }
            "feed" | "take" | "feed-fields" => {
                if put_piece(parts.alloc, &mut parts.piece, verb, text) {
                    tell_of_piece(parts, put, verb, told);
                }
            }
            "purge" | "drop" | "read" | "total" | "last-number" => {
                tell_of_parts(parts, put, verb, told);
            }
            _ => tell_of_end(parts, put, verb, told),
        }
    }
}

// The piece of a call, which is its text, or a head of so many fields.
fn put_piece(alloc: Global, piece: &mut Vec<u8>, verb: &str, text: &'static str) -> bool {
    if verb == "feed-fields" {
        put_fields(String::new(alloc), piece, number(text, 0))
    } else {
        unescape(text, piece)
    }
}

// A head with so many fields.
fn put_fields(text: String, head: &mut Vec<u8>, fields: u64) -> bool {
    let mut text = text;
    head.clear();
    write_fields(&mut text, fields) && head.extend_from_slice(text.as_bytes()).is_ok()
}

fn write_fields(head: &mut String, fields: u64) -> bool {
    if head.push_str("HTTP/1.1 200 OK\r\n").is_err() {
        return false;
    }
    for number in 0..fields {
        if write!(head, "f{number}: v\r\n").is_err() {
            return false;
        }
    }
    head.push_str("\r\n").is_ok()
}

fn tell_of_piece(parts: &mut Parts, put: &mut Put, verb: &str, told: &mut Told) {
    let Parts {
        alloc,
        store,
        piece,
        ..
    } = parts;
    let Ok(piece) = Bytes::copy_from_slice(*alloc, piece.as_slice()) else {
        return;
    };
    if verb == "take" {
        let report = put.take_piece(&piece, store, Moment::EPOCH);
        tell_taken(store, report, told);
    } else {
        tell_fed(put.cache_put(&piece, store, Moment::EPOCH), told);
    }
}

fn tell_of_parts(parts: &mut Parts, put: &mut Put, verb: &str, told: &mut Told) {
    match verb {
        "purge" => told.done(purge(parts)),
        "drop" => told.done(drop_put(parts, put)),
        "read" => read(parts, told),
        "last-number" => {
            parts.store = MemCache::starting_at(parts.alloc, Seed::fixed(), u64::MAX);
            told.say("ok");
        }
        _ => totals(parts, told),
    }
}

fn tell_of_end(parts: &mut Parts, put: &mut Put, verb: &str, told: &mut Told) {
    let Parts { store, manager, .. } = parts;
    match verb {
        "finish" => tell_finished(put.finish(store, manager), told),
        "end-telling" => tell_end(put.end_put(store, manager), told),
        "in-flight" => told.yes_or_no(put.writer().is_some()),
        _ => told.say("no such call"),
    }
}

fn tell_fed(fed: Result<Option<NoCacheReason>>, told: &mut Told) {
    match fed {
        Ok(None) => told.say("goes on"),
        Ok(Some(reason)) => told.say(reason.as_str()),
        Err(refused) => told.refused(&refused),
    }
}

fn tell_finished(outcome: Result<PutOutcome>, told: &mut Told) {
    match outcome {
        Ok(PutOutcome::Stored(report)) => {
            told.say("stored ");
            told.shown(&report.size);
        }
        Ok(PutOutcome::NotCached(reason)) => told.say(reason.as_str()),
        Err(refused) => told.refused(&refused),
    }
}

// Whether the put is stored at its end, and its entry reported.
fn tell_end(report: PutReport, told: &mut Told) {
    let PutReport { end, entry, .. } = report;
    let is_stored = matches!(end, PutEnd::Stored(_)) && entry.is_some();
    told.say(if is_stored { "stored" } else { "not stored" });
}

fn purge(parts: &mut Parts) -> Result<()> {
    let target = PurgeTarget::Active(&parts.compact);
    parts.store.purge(target, PurgeType::Invalidation)?;
    Ok(())
}

// Ends the put, and begins another.
fn drop_put(parts: &mut Parts, put: &mut Put) -> Result<()> {
    let another = CachePutCtx::new(parts.alloc, OneSecond, key_of(parts.alloc)?);
    let ended = std::mem::replace(put, another);
    ended.end(&mut parts.store);
    Ok(())
}

// What is stored, in bytes, the weight of what is tracked, and the writes that are kept.
fn totals(parts: &Parts, told: &mut Told) {
    told.shown(&parts.store.stored_bytes());
    told.say(" bytes, weight ");
    told.shown(&parts.manager.total_size());
    told.say(", ");
    told.shown(&parts.store.write_records());
    told.say(" writes");
}

// Reads the key twice, if it is found.
fn read(parts: &mut Parts, told: &mut Told) {
    match parts.store.lookup(parts.alloc, &parts.key) {
        Ok(Some((_meta, hit))) => read_twice(parts, hit, told),
        Ok(None) => told.say("none"),
        Err(refused) => told.refused(&refused),
    }
}

// How many bytes the first read gives, and whether the next one is the end.
fn read_twice(parts: &mut Parts, hit: MemHitHandler, told: &mut Told) {
    let mut hit = hit;
    let first = hit.read_body(parts.alloc, &mut parts.store);
    let then = hit.read_body(parts.alloc, &mut parts.store);
    hit.let_go(&mut parts.store);
    tell_read(first, told);
    told.say(", ");
    tell_read(then, told);
}

fn tell_read(read: Result<Poll<Option<Bytes>>>, told: &mut Told) {
    match read {
        Ok(Poll::Ready(Some(bytes))) => {
            told.shown(&bytes.len());
            told.say(" bytes");
        }
        Ok(Poll::Ready(None)) => told.say("end"),
        Ok(Poll::Pending) => told.say("pending"),
        Err(refused) => told.refused(&refused),
    }
}

// How many bytes a piece wrote, and whether they were announced as the last; whether it began a write; and whether the
// put goes on.
fn tell_taken(store: &mut MemCache, report: PieceReport<MemMissHandler>, told: &mut Told) {
    let PieceReport { began, wrote, end } = report;
    tell_wrote(wrote, told);
    if began.is_some() {
        told.say(", begins");
    }
    tell_piece_end(store, end, told);
}

fn tell_wrote(wrote: Option<Written>, told: &mut Told) {
    match wrote {
        Some(wrote) => {
            told.shown(&wrote.bytes.len());
            told.say(if wrote.eof {
                " bytes, the last"
            } else {
                " bytes"
            });
        }
        None => told.say("0 bytes"),
    }
}

fn tell_piece_end(store: &mut MemCache, end: PieceEnd<MemMissHandler>, told: &mut Told) {
    match end {
        PieceEnd::GoesOn => {}
        PieceEnd::NotCached(_) => told.say(", ends"),
        PieceEnd::Refused(_, writer) => {
            if let Some(writer) = writer {
                writer.drop_write(store);
            }
            told.say(", ends");
        }
    }
}

// Plays rows; those after an empty line are played over parts of their own.
fn run(rt: &impl Abort, alloc: Global, rows: &'static str) {
    for section in rows.split("\n\n") {
        run_section(rt, alloc, section);
    }
}

fn run_section(rt: &impl Abort, alloc: Global, rows: &'static str) {
    match Putting::make(alloc) {
        Ok(putting) => {
            let mut putting = putting;
            play(rt, alloc, &mut putting, rows);
            putting.end();
        }
        Err(_refused) => assert!(rt; false),
    }
}

const RUST: &[u8] = b"HTTP/1.1 200 OK\r\nContent-Length: 4\r\n\r\nrust";

// How the response ends, however it is cut.
const STORED: &str = "
    finish -> stored 4
    total -> 4 bytes, weight 4, 0 writes";

// Pushes the response in, in two pieces that are cut there, or in a piece for each byte.
fn run_cut(rt: &impl Abort, alloc: Global, cut: Option<usize>) {
    match Putting::make(alloc) {
        Ok(putting) => {
            let mut putting = putting;
            assert!(rt; feed_cut(&mut putting, cut), "cut at {cut:?}");
            play(rt, alloc, &mut putting, STORED);
            putting.end();
        }
        Err(_refused) => assert!(rt; false),
    }
}

// Whether the put goes on after the last piece.
fn feed_cut(putting: &mut Putting, cut: Option<usize>) -> bool {
    match cut {
        Some(cut) => match RUST.split_at_checked(cut) {
            Some((first, second)) => {
                is_fed(putting, first);
                is_fed(putting, second)
            }
            None => false,
        },
        None => {
            let mut is_last_fed = false;
            for piece in RUST.chunks(1) {
                is_last_fed = is_fed(putting, piece);
            }
            is_last_fed
        }
    }
}

fn is_fed(putting: &mut Putting, piece: &'static [u8]) -> bool {
    let Putting { parts, put } = putting;
    let answer = put.cache_put(&Bytes::from_static(piece), &mut parts.store, Moment::EPOCH);
    matches!(answer, Ok(None))
}

#[test]
fn a_put_is_stored_however_it_is_cut(rt: HostRuntime) {
    for cut in 0..RUST.len() {
        run_cut(&rt, rt.alloc(), Some(cut));
    }
    run_cut(&rt, rt.alloc(), None);
}

const ANSWERS: &str = r#"
    # a response that says that it is not to be stored
    feed HTTP/1.1 200 OK\r\nContent-Length: 4\r\nCache-Control: no-store\r\n\r\n -> OriginNotCache
    feed ru -> OriginNotCache
    finish -> OriginNotCache
    total -> 0 bytes, weight 0, 0 writes

    # a body that ends early
    feed HTTP/1.1 200 OK\r\nContent-Length: 4\r\n\r\n -> goes on
    feed ru -> goes on
    finish -> IncompleteHttpBody
    total -> 0 bytes, weight 0, 0 writes

    # a status without a body
    feed HTTP/1.1 204 OK\r\nContent-Length: 4\r\n\r\n -> goes on
    feed rust -> goes on
    finish -> stored 0
    total -> 0 bytes, weight 0, 0 writes

    # a length beyond the limit
    limit 3
    feed HTTP/1.1 200 OK\r\nContent-Length: 4\r\n\r\n -> ResponseTooLarge
    feed rust -> ResponseTooLarge
    finish -> ResponseTooLarge
    total -> 0 bytes, weight 0, 0 writes

    limit 3
    feed HTTP/1.1 204 OK\r\nContent-Length: 4\r\n\r\n -> ResponseTooLarge
    feed -> ResponseTooLarge
    finish -> ResponseTooLarge
    total -> 0 bytes, weight 0, 0 writes

    # a body beyond the limit
    limit 3
    feed HTTP/1.1 200 OK\r\n\r\n -> goes on
    feed rust -> ResponseTooLarge
    finish -> ResponseTooLarge
    total -> 0 bytes, weight 0, 0 writes

    limit 3
    feed HTTP/1.1 200 OK\r\n\r\nrus -> goes on
    feed t -> ResponseTooLarge
    finish -> ResponseTooLarge
    total -> 0 bytes, weight 0, 0 writes

    # a body at the limit
    limit 4
    feed HTTP/1.1 200 OK\r\n\r\nrus -> goes on
    feed t -> goes on
    finish -> stored 4
    total -> 4 bytes, weight 4, 0 writes

    # bytes after the body
    feed HTTP/1.1 200 OK\r\nContent-Length: 4\r\n\r\nrust -> goes on
    feed XX -> goes on
    finish -> stored 4
    total -> 4 bytes, weight 4, 0 writes

    # no head, since it ends early
    feed HTTP/1.1\  -> goes on
    feed 2x -> goes on
    finish -> IncompleteHttpBody
    total -> 0 bytes, weight 0, 0 writes

    # no head, since there is none
    feed HTTP/1.1 2x -> goes on
    feed \r\n\r\n -> InvalidHttpHeader
    finish -> InvalidHttpHeader
    total -> 0 bytes, weight 0, 0 writes

    # no head, since a value has a zero byte, which is seen once the head has ended
    feed HTTP/1.1 200 OK\r\nA: a\0b\r\n\r\nrust -> InvalidHttpHeader
    feed rust -> InvalidHttpHeader
    finish -> InvalidHttpHeader
    total -> 0 bytes, weight 0, 0 writes

    feed HTTP/1.1 200 OK\r\nA: a -> goes on
    feed \0 -> goes on
    feed b\r\n -> goes on
    feed \r\n -> InvalidHttpHeader
    finish -> InvalidHttpHeader
    total -> 0 bytes, weight 0, 0 writes

    # a head that never ends
    feed HTTP/1.1 200 OK\r\n -> goes on
    feed A: a\r\n -> goes on
    feed A: a\r\n -> goes on
    feed A: a\r\n -> goes on
    feed A: a -> goes on
    finish -> IncompleteHttpBody
    total -> 0 bytes, weight 0, 0 writes

    # a length that is private
    feed HTTP/1.1 200 OK\r\nCache-Control: private="content-length"\r\nContent-Length: 4\r\n\r\n -> goes on
    feed rust -> goes on
    finish -> stored 4
    total -> 4 bytes, weight 4, 0 writes"#;

#[test]
fn puts_answer_as_their_bytes_say(rt: HostRuntime) {
    run(&rt, rt.alloc(), ANSWERS);
}

const REFUSED: &str = r"
    feed HTTP/1.1 2x\r\n\r\n -> InvalidHttpHeader
    feed HTTP/1.1 200 OK\r\nContent-Length: 4\r\n\r\nrust -> InvalidHttpHeader
    finish -> InvalidHttpHeader
    total -> 0 bytes, weight 0, 0 writes

    limit 3
    feed HTTP/1.1 200 OK\r\n\r\nrust -> ResponseTooLarge
    feed -> ResponseTooLarge
    finish -> ResponseTooLarge
    total -> 0 bytes, weight 0, 0 writes

    feed HTTP/1.1 200 OK\r\nCache-Control: no-store\r\n\r\n -> OriginNotCache
    feed HTTP/1.1 2x\r\n\r\n -> OriginNotCache
    feed HTTP/1.1 2x\r\n\r\n -> OriginNotCache
    finish -> OriginNotCache
    total -> 0 bytes, weight 0, 0 writes";

#[test]
fn a_refused_put_answers_alike_from_then_on(rt: HostRuntime) {
    run(&rt, rt.alloc(), REFUSED);
}

const FIELDS: &str = "
    feed-fields 256 -> goes on
    finish -> stored 0
    total -> 0 bytes, weight 0, 0 writes

    feed-fields 257 -> InvalidHttpHeader
    finish -> InvalidHttpHeader
    total -> 0 bytes, weight 0, 0 writes";

#[test]
fn a_head_has_256_fields_at_most(rt: HostRuntime) {
    run(&rt, rt.alloc(), FIELDS);
}

const REMOVED: &str = r"
    # its key is purged between its last piece and its end
    feed HTTP/1.1 200 OK\r\nContent-Length: 4\r\n\r\nrust -> goes on
    purge
    finish -> WriteRemoved
    total -> 0 bytes, weight 0, 0 writes

    # it is ended after its last piece, and never finished
    feed HTTP/1.1 200 OK\r\nContent-Length: 4\r\n\r\nrust -> goes on
    drop
    total -> 0 bytes, weight 0, 0 writes";

#[test]
fn a_write_that_was_removed_stores_nothing(rt: HostRuntime) {
    run(&rt, rt.alloc(), REMOVED);
}

const NUMBERS: &str = r"
    # the store has one number left: the first put takes it, and the second finds none
    last-number
    feed HTTP/1.1 200 OK\r\nContent-Length: 4\r\n\r\nru -> goes on
    feed st -> goes on
    finish -> stored 4
    drop
    feed HTTP/1.1 200 OK\r\nContent-Length: 4\r\n\r\nrust -> NumbersExhausted
    feed -> NumbersExhausted
    finish -> NumbersExhausted
    total -> 4 bytes, weight 4, 0 writes";

#[test]
fn the_last_number_of_a_store_is_given_once(rt: HostRuntime) {
    run(&rt, rt.alloc(), NUMBERS);
}

const EMPTY: &str = r"
    feed HTTP/1.1 204 OK\r\n\r\n -> goes on
    finish -> stored 0
    read -> 0 bytes, end";

#[test]
fn a_response_without_a_body_is_read_as_an_empty_one(rt: HostRuntime) {
    run(&rt, rt.alloc(), EMPTY);
}

const TOLD: &str = r"
    take HTTP/1.1 200 OK\r\nContent-Length: 4\r\n\r\nru -> 2 bytes, begins
    in-flight -> yes
    take st -> 2 bytes, the last
    end-telling -> stored
    total -> 4 bytes, weight 4, 0 writes

    limit 3
    take HTTP/1.1 200 OK\r\n\r\nrust -> 0 bytes, begins, ends
    in-flight -> no
    take -> 0 bytes, ends
    end-telling -> not stored
    total -> 0 bytes, weight 0, 0 writes";

#[test]
fn calls_tell_what_they_did(rt: HostRuntime) {
    run(&rt, rt.alloc(), TOLD);
}
