//! The getters of requests.
use super::*;
use crate::rows::{size, word};
use bytes::Bytes;
use pcache_base::error::{Error, ErrorType};
use pcache_base::poll::Poll;
use pcache_lock::lock::LockWaitOutcome;
use pcache_meta::header_text::reader::header_deserialize;
use pcache_meta::header_text::writer::header_serialize;
use pcache_store::storage::HandleHit;
use std::alloc::AllocError;

/// Writes what the row asks for, and returns whether it asks for anything.
pub fn tell(parts: &mut Parts, cache: &mut Request, call: &'static str, told: &mut Told) -> bool {
    match word(call, 1) {
        "may" => told.yes_or_no(may(cache, word(call, 2))),
        "is" => told.yes_or_no(is(cache, word(call, 2))),
        "has" => told.yes_or_no(has(parts, cache, word(call, 2))),
        "waits" => told.yes_or_no(waits(parts, cache)),
        "head-within" => told.yes_or_no(cache.is_head_within(size(call, 2))),
        "merges" => told.yes_or_no(is_merged(parts.alloc, cache)),
        "total" => totals(parts, told),
        _ => return reads(parts, cache, call, told),
    }
    true
}

// What is read of bodies and of locks.
fn reads(parts: &mut Parts, cache: &mut Request, call: &'static str, told: &mut Told) -> bool {
    match word(call, 1) {
        "read" => read(parts, cache, told),
        "reread" => reread(parts, cache, told),
        "whole" => told.yes_or_no(cache.is_body_whole(&parts.store)),
        "length" => told.named(&cache.body_length(&parts.store)),
        "wait" => wait(parts, cache, told),
        "asks" => asked(parts, cache, told),
        "witnessed" => witnessed(parts, cache, word(call, 2) == "refusing", told),
        "finds-times" => found_times(parts, cache, told),
        other => return shows(parts, cache, other, told),
    }
    true
}

fn may(cache: &Request, what: &str) -> bool {
    let phase = cache.phase();
    match what {
        "take-key" => phase.may_take_key(),
        "look-up" => phase.may_look_up(),
        "miss" => phase.may_miss(),
        "take-meta" => cache.may_take_meta(),
        "write" => cache.may_write(),
        "bypass" => phase.may_bypass(),
        "purge" => phase.may_purge(),
        "spawn-purge" => phase.may_spawn_purge(),
        "disable" => cache.may_disable(NoCacheReason::InternalError),
        _ => false,
    }
}

fn is(cache: &Request, what: &str) -> bool {
    match what {
        "disabled" => cache.phase().is_disabled(),
        "enabled" => cache.enabled(),
        "bypassing" => cache.bypassing(),
        "upstream-used" => cache.upstream_used(),
        "was-enabled" => cache.phase().was_enabled(),
        "filling" => cache.phase().is_filling(),
        "reading" => cache.phase().is_reading(),
        "exceeded" => cache.phase().was_enabled() && cache.exceeded_max_file_size(),
        "observing" => cache.observes(),
        "good-in-error" => cache.can_serve_stale_error(Moment::EPOCH),
        "good-while-updating" => cache.can_serve_stale_updating(Moment::EPOCH),
        _ => false,
    }
}

fn has(parts: &Parts, cache: &mut Request, what: &str) -> bool {
    match what {
        "key" => cache.key().is_some(),
        "shown-key" => cache.maybe_cache_key().is_some(),
        "named-key" => is_named(cache),
        "meta" => cache.has_cache_meta() && cache.maybe_cache_meta().is_some(),
        "writer" => cache.writer().is_some(),
        "reader" => cache.has_body_reader(),
        "miss-reader" => cache.miss_body_reader(&parts.store).is_some(),
        "fills" => cache.unusable_fills().is_some(),
        "cache-span" => cache.get_cache_span().is_some(),
        "miss-span" => cache.get_miss_span().is_some(),
        "hit-span" => cache.get_hit_span().is_some(),
        "prospects" => {
            cache.maybe_cache_key().is_some() && cache.cacheable_prediction(&parts.predictor)
        }
        _ => false,
    }
}

// Whether the key is that of all requests.
fn is_named(cache: &Request) -> bool {
    cache.maybe_cache_key().is_some() && cache.cache_key().primary_key() == b"k".as_slice()
}

// What the getters return that is a word or a number.
fn shows(parts: &Parts, cache: &mut Request, what: &str, told: &mut Told) -> bool {
    match what {
        "word" => told.say(cache.phase().as_str()),
        "phase" => told.named(&cache.phase()),
        "uses" => told.named(&cache.uses()),
        "held" => told.say(held(cache)),
        "times" => times(cache.meta(), told),
        "until" => until(cache, told),
        "weight" => weight(cache, told),
        _ => return shows_of_limits(parts, cache, what, told),
    }
    true
}

fn shows_of_limits(parts: &Parts, cache: &mut Request, what: &str, told: &mut Told) -> bool {
    match what {
        "limit?" => limit(cache, told),
        "head-limit?" => told.named(&cache.max_head_size_bytes()),
        "retries" => retries(cache, told),
        "set-retries" => told.named(&cache.lock_ctx().max_retries),
        "streaming" => told.named(&cache.support_streaming_partial_write(&parts.store)),
        "lookup-time" => seconds(told, cache.lookup_duration()),
        "lock-time" => seconds(told, cache.lock_duration()),
        _ => return shows_of_choices(parts, cache, what, told),
    }
    true
}

fn shows_of_choices(parts: &Parts, cache: &Request, what: &str, told: &mut Told) -> bool {
    match what {
        "abandon" => told.named(&cache.lock_abandon()),
        "foretold" => told.named(&cache.predicted_uncacheable_reason()),
        "decision" => told.named(&cache.admission_decision()),
        "observed" => told.shown(&parts.policy.observed),
        _ => return false,
    }
    true
}

fn seconds(told: &mut Told, time: Option<Duration>) {
    match time {
        Some(time) => told.number(time.as_secs()),
        None => told.say("none"),
    }
}

/// The lock that a request holds, in a word.
pub fn held(cache: &Request) -> &'static str {
    match cache.held() {
        Some(held) if held.is_write() => "permit",
        Some(_) => "read",
        None => "none",
    }
}

// The end of freshness, in seconds, and the seconds at which the response was first stored and last
// revalidated, and at which its body came.
fn times(meta: Option<&CacheMeta>, told: &mut Told) {
    match meta {
        Some(meta) => {
            told.number(meta.fresh_until().secs());
            told.say(" ");
            told.number(meta.created().secs());
            told.say(" ");
            told.number(meta.updated().secs());
            told.say(" ");
            told.number(meta.provenance().secs());
        }
        None => told.say("none"),
    }
}

fn until(cache: &Request, told: &mut Told) {
    if cache.has_cache_meta() {
        told.number(cache.cache_meta().fresh_until().secs());
    } else {
        told.say("none");
    }
}

fn weight(cache: &mut Request, told: &mut Told) {
    if cache.phase().is_reading() && cache.has_body_reader() {
        told.shown(&cache.hit_handler().get_eviction_weight());
    } else {
        told.say("wrong");
    }
}

fn limit(cache: &Request, told: &mut Told) {
    if cache.phase().was_enabled() {
        told.named(&cache.max_file_size_bytes());
    } else {
        told.say("wrong");
    }
}

fn retries(cache: &Request, told: &mut Told) {
    if cache.phase().is_on() {
        told.named(&cache.cache_lock_max_retries());
    } else {
        told.say("wrong");
    }
}

fn tell_read(read: Result<Poll<Option<Bytes>>>, told: &mut Told) {
    match read {
        Ok(Poll::Ready(Some(bytes))) => {
            told.say("data ");
            told.bytes(bytes.as_slice());
        }
        Ok(Poll::Ready(None)) => told.say("end"),
        Ok(Poll::Pending) => told.say("pending"),
        Err(refused) => told.refused(&refused),
    }
}

fn read(parts: &mut Parts, cache: &mut Request, told: &mut Told) {
    if cache.has_body_reader() {
        tell_read(cache.read_body(&mut parts.store), told);
    } else {
        told.say("wrong");
    }
}

// Reads what the request itself writes.
fn reread(parts: &mut Parts, cache: &mut Request, told: &mut Told) {
    match cache.miss_body_reader(&parts.store) {
        Some(reader) => tell_read(reader.read_body(parts.alloc, &mut parts.store), told),
        None => told.say("no reader"),
    }
}

fn wait(parts: &mut Parts, cache: &mut Request, told: &mut Told) {
    if !cache.phase().is_on() || !cache.is_cache_locked() {
        return told.say("wrong");
    }
    tell_waited(cache.wait(&mut parts.lock, parts.now), told);
}

fn tell_waited(report: Result<WaitReport>, told: &mut Told) {
    match report {
        Ok(report) if report.lock.is_permit => told.say("of a permit"),
        Ok(report) => tell_answer(report.answer, report.is_too_old, told),
        Err(refused) => told.refused(&refused),
    }
}

fn tell_answer(answer: Poll<LockWaitOutcome>, is_too_old: bool, told: &mut Told) {
    match answer {
        Poll::Ready(_) if is_too_old => told.say("too old"),
        Poll::Ready(outcome) => told.named(&outcome),
        Poll::Pending => told.say("pending"),
    }
}

// Whether a wait goes on.
fn waits(parts: &mut Parts, cache: &mut Request) -> bool {
    cache.phase().is_on()
        && cache.is_cache_locked()
        && matches!(
            cache.cache_lock_wait(&mut parts.lock, parts.now),
            Ok(Poll::Pending)
        )
}

// Looks the key up, and writes the report of that.
fn asked(parts: &mut Parts, cache: &mut Request, told: &mut Told) {
    look_before(parts, cache, &mut NoWitness, told);
}

// The same with a witness, whose record it writes too.
fn witnessed(parts: &mut Parts, cache: &mut Request, refuses: bool, told: &mut Told) {
    let mut witness = Weighing {
        weight: None,
        refuses,
    };
    look_before(parts, cache, &mut witness, told);
    if let Some(weight) = witness.weight {
        told.say(", weighed ");
        told.shown(&weight);
    }
}

// Records the weight of what a look-up finds, or fails.
#[derive(Drop)]
struct Weighing {
    weight: Option<usize>,
    refuses: bool,
}

impl Witness<MemCache> for Weighing {
    fn found(&mut self, _meta: &CacheMeta, hit: &lookups::Hit) -> Result<()> {
        if self.refuses {
            return Err(Error::new(ErrorType::InternalError));
        }
        self.weight = Some(hit.get_eviction_weight());
        Ok(())
    }
}

fn look_before<W: Witness<MemCache>>(
    parts: &mut Parts,
    cache: &mut Request,
    witness: &mut W,
    told: &mut Told,
) {
    if !cache.phase().may_look_up() {
        return told.say("wrong");
    }
    let looked = cache.look_up(
        &mut parts.store,
        &mut parts.lock,
        &mut parts.policy,
        witness,
        parts.now,
    );
    match looked {
        Ok(looked) => tell_looked(parts, looked, told),
        Err(refused) => told.refused(&refused),
    }
}

fn tell_looked(parts: &mut Parts, looked: LookUp<lookups::Hit>, told: &mut Told) {
    match looked {
        LookUp::Found(_meta, hit) => {
            hit.let_go(&mut parts.store);
            told.say("found");
        }
        LookUp::NotFound(Ok(asked)) => tell_asked(asked, told),
        LookUp::NotFound(Err(refused)) => told.refused(&refused),
        LookUp::Deferred(released) => {
            told.say("deferred");
            tell_released(released, told);
        }
    }
}

fn tell_released(released: Option<LockName>, told: &mut Told) {
    if let Some(released) = released {
        told.say(" without ");
        name(told, released);
    }
}

fn tell_asked(asked: Option<AskedLock>, told: &mut Told) {
    match asked {
        Some(AskedLock { given, replaced }) => {
            name(told, given);
            if let Some(replaced) = replaced {
                told.say(" for ");
                name(told, replaced);
            }
        }
        None => told.say("none"),
    }
}

fn name(told: &mut Told, name: LockName) {
    told.say(if name.is_permit { "permit " } else { "read " });
    told.number(name.number);
}

// Whether the head that a revalidation makes is the merged one.
fn is_merged(alloc: Global, cache: &Request) -> bool {
    match header_deserialize(alloc, choices::ANSWER.as_bytes()) {
        Ok(answer) => {
            cache.may_revalidate() && is_the_merged(alloc, cache.revalidate_merge_header(&answer))
        }
        Err(_refused) => false,
    }
}

fn is_the_merged(alloc: Global, merged: Result<ResponseHeader>) -> bool {
    match merged {
        Ok(merged) => is_text(header_serialize(alloc, &merged), choices::MERGED.as_bytes()),
        Err(_refused) => false,
    }
}

fn is_text(text: Result<Vec<u8>, AllocError>, wanted: &[u8]) -> bool {
    match text {
        Ok(text) => text.as_slice() == wanted,
        Err(_refused) => false,
    }
}

// Looks the key up, and writes the times of the meta that it finds.
fn found_times(parts: &mut Parts, cache: &mut Request, told: &mut Told) {
    if !cache.phase().may_look_up() {
        return told.say("wrong");
    }
    match cache.find(&mut parts.store) {
        Ok(Some((meta, hit))) => {
            hit.let_go(&mut parts.store);
            times(Some(&meta), told);
        }
        Ok(None) => told.say("none"),
        Err(refused) => told.refused(&refused),
    }
}

// Bytes in bodies, weight of entries, and writes that are kept.
fn totals(parts: &Parts, told: &mut Told) {
    told.shown(&parts.store.stored_bytes());
    told.say(" in ");
    told.shown(&parts.store.slots());
    told.say(", weight ");
    told.shown(&parts.manager.total_size());
    told.say(" in ");
    told.shown(&parts.manager.total_items());
    told.say(", ");
    told.shown(&parts.store.write_records());
    told.say(" writes");
}
