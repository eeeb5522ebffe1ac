//! Calls of requests: each is made if its condition holds, and is `wrong` if it does not.
use super::*;
use crate::rows::{number, size, some_byte, some_number, word};
use bytes::Bytes;
use pcache_lock::lock::{CacheKeyLock, Locked, WritePermit};
use pcache_meta::header_text::reader::header_deserialize;
use pcache_meta::trace::Span;
use pcache_request::CacheOptionOverrides;
use pcache_store::storage::HandleMiss;

/// Makes the call of a row.
pub fn make(parts: &mut Parts, cache: &mut Request, call: &'static str) -> Result<Said> {
    match word(call, 1) {
        "miss" => Ok(miss(cache)),
        "meta" => Ok(set_meta(parts, cache, number(call, 2))),
        "stored-meta" => stored_meta(parts, cache, choices::STORED),
        "variance" => Ok(set_variance(parts, cache, some_byte(call, 2))),
        "renew" => renew(parts, cache, number(call, 2)),
        _ => made_of_writes(parts, cache, call),
    }
}

fn made_of_writes(parts: &mut Parts, cache: &mut Request, call: &'static str) -> Result<Said> {
    match word(call, 1) {
        "begin" => begin(parts, cache),
        "begin-telling" => begin_telling(parts, cache),
        "write" => write(parts, cache, word(call, 2)),
        "finish" => finish(parts, cache),
        "end-write" => Ok(end_write(parts, cache)),
        "last-number" => Ok(last_number(parts)),
        _ => made_of_removals(parts, cache, call),
    }
}

fn made_of_removals(parts: &mut Parts, cache: &mut Request, call: &'static str) -> Result<Said> {
    match word(call, 1) {
        "purge" => purge(parts, cache),
        "purge-telling" => purge_telling(parts, cache),
        "purge-beside" => purge_beside(parts, cache),
        "purge-beside-telling" => purge_beside_telling(parts, cache),
        "expire" => expire(parts, cache),
        _ => made_of_locks(parts, cache, call),
    }
}

fn made_of_locks(parts: &mut Parts, cache: &mut Request, call: &'static str) -> Result<Said> {
    match word(call, 1) {
        "open" => open(parts, cache, None, None),
        "open-within" => open(parts, cache, some_number(call, 2), None),
        "open-without" => open(parts, cache, None, some_number(call, 2)),
        "enable" => Ok(enable(cache, ALL_BUT_THE_PREDICTOR)),
        "enable-predicting" => Ok(enable(cache, WITH_PREDICTOR)),
        "key" => set_key(parts, cache, some_byte(call, 2)),
        "publish" => publish(parts, cache, number(call, 2)),
        "release" => Ok(release(parts, cache, reason(word(call, 2)))),
        "lock" => Ok(use_lock(cache, true)),
        "no-lock" => Ok(use_lock(cache, false)),
        "tag" => Ok(tag(cache)),
        "end" => Ok(end_request(parts, cache)),
        "leaves" => {
            let _let_go = end_request(parts, cache);
            Ok(word_of("ok"))
        }
        _ => made_of_policies(parts, cache, call),
    }
}

fn made_of_policies(parts: &mut Parts, cache: &mut Request, call: &'static str) -> Result<Said> {
    match word(call, 1) {
        "bypass" => Ok(bypass(cache)),
        "bypass-foretold" => Ok(bypass_foretold(parts, cache)),
        "policy" => Ok(use_policy(cache)),
        "updating" => Ok(updating(cache)),
        "uncacheable" => Ok(uncacheable(parts, cache, reason(word(call, 2)))),
        "disable" => Ok(disable(parts, cache, reason(word(call, 2)))),
        "limit" => Ok(limit(cache, size(call, 2))),
        "count" => Ok(count(cache, size(call, 2))),
        "limit-head" => Ok(limit_head(cache, size(call, 2))),
        "became-uncacheable" => became_uncacheable(parts, cache, reason(word(call, 2))),
        "became-cacheable" => Ok(became_cacheable(parts, cache)),
        "trace" => {
            cache.enable_tracing(Span::inactive());
            Ok(word_of("ok"))
        }
        "looked-for" => {
            cache.record_lookup_duration(Duration::from_secs(number(call, 2)));
            Ok(word_of("ok"))
        }
        _ => Ok(word_of("no such call")),
    }
}

fn enable(cache: &mut Request, uses: InUse) -> Said {
    let may = cache.phase().is_disabled();
    if may {
        cache.enable(uses, None);
    }
    made(may)
}

// Turns caching on for a request that waits for so many seconds, and sets its key, which cannot use the fill of a token.
fn open(
    parts: &mut Parts,
    cache: &mut Request,
    seconds: Option<u64>,
    token: Option<u64>,
) -> Result<Said> {
    if !cache.phase().is_disabled() {
        return Ok(word_of("wrong"));
    }
    let key = key_with(parts.alloc, None, token)?;
    let overrides = CacheOptionOverrides {
        wait_timeout: seconds.map(Duration::from_secs),
        max_lock_retries: Some(2),
    };
    cache.enable(ALL_BUT_THE_PREDICTOR, Some(overrides));
    if cache.phase().may_take_key() {
        cache.set_cache_key(key);
    }
    Ok(word_of("ok"))
}

fn set_key(parts: &mut Parts, cache: &mut Request, variance: Option<u8>) -> Result<Said> {
    let may = cache.phase().may_take_key();
    if may {
        cache.set_cache_key(key_with(parts.alloc, variance, None)?);
    }
    Ok(made(may))
}

fn miss(cache: &mut Request) -> Said {
    let may = cache.phase().may_miss();
    if may {
        cache.cache_miss();
    }
    made(may)
}

fn set_meta(parts: &mut Parts, cache: &mut Request, fresh_until: u64) -> Said {
    let may = cache.may_take_meta();
    if may {
        cache.set_cache_meta(meta_until(parts, fresh_until));
    }
    made(may)
}

// A meta whose head is that of the revalidation below.
fn stored_meta(parts: &mut Parts, cache: &mut Request, head: &str) -> Result<Said> {
    let may = cache.may_take_meta();
    if may {
        let head = header_deserialize(parts.alloc, head.as_bytes())?;
        let until = Moment::from_secs(60);
        cache.set_cache_meta(CacheMeta::new(until, parts.now, 0, 0, head));
    }
    Ok(made(may))
}

fn set_variance(parts: &mut Parts, cache: &mut Request, byte: Option<u8>) -> Said {
    let may = cache.may_write();
    if may {
        let variance = match byte {
            Some(byte) => Some([byte; 16]),
            None => None,
        };
        let _released = cache.update_variance(&mut parts.lock, variance);
    }
    made(may)
}

fn released(name: Option<LockName>) -> Said {
    match name {
        Some(name) if name.is_permit => counted("permit", name.number),
        Some(name) => counted("read", name.number),
        None => word_of("ok"),
    }
}

// From then on the store has one number left.
fn last_number(parts: &mut Parts) -> Said {
    parts.store = MemCache::starting_at(parts.alloc, Seed::fixed(), u64::MAX);
    word_of("ok")
}

fn begin(parts: &mut Parts, cache: &mut Request) -> Result<Said> {
    let may = cache.may_write();
    if may {
        cache.set_miss_handler(&mut parts.store, &mut parts.lock)?;
    }
    Ok(made(may))
}

// Begins a write, and returns the lock that was released.
fn begin_telling(parts: &mut Parts, cache: &mut Request) -> Result<Said> {
    if !cache.may_write() {
        return Ok(word_of("wrong"));
    }
    let WriteBegin {
        released: name,
        following,
    } = cache.begin_write(&mut parts.store, &mut parts.lock)?;
    following?;
    Ok(released(name))
}

// Writes the last bytes, if they are not yet said.
fn write(parts: &mut Parts, cache: &mut Request, text: &'static str) -> Result<Said> {
    if !cache.phase().is_filling() {
        return Ok(word_of("wrong"));
    }
    let Some(handler) = cache.miss_handler() else {
        return Ok(word_of("no write"));
    };
    if handler.at_eof(&parts.store) {
        return Ok(word_of("at eof"));
    }
    handler.write_body(&mut parts.store, Bytes::from_static(text.as_bytes()), true)?;
    Ok(word_of("ok"))
}

// Ends a write, with nothing evicted.
fn finish(parts: &mut Parts, cache: &mut Request) -> Result<Said> {
    if !cache.phase().is_filling() {
        return Ok(word_of("wrong"));
    }
    let report = cache.finish_miss_handler(&mut parts.store, &mut parts.manager, &mut parts.lock)?;
    let Some(report) = report else {
        return Ok(word_of("no write"));
    };
    if report.evicted.len() != 0 || report.failed_purges != 0 {
        return Ok(word_of("evicted"));
    }
    Ok(counted("stored", report.size as u64))
}

// Ends a write, and returns the lock that was released, or whether there was a write.
fn end_write(parts: &mut Parts, cache: &mut Request) -> Said {
    if !cache.phase().is_filling() {
        return word_of("wrong");
    }
    let told = cache.end_write(&mut parts.store, &mut parts.manager, &mut parts.lock);
    match told.released {
        None if matches!(told.end, WriteEnd::Nothing) => word_of("no write"),
        name => released(name),
    }
}

fn renew(parts: &mut Parts, cache: &mut Request, fresh_until: u64) -> Result<Said> {
    if !cache.may_revalidate() {
        return Ok(word_of("wrong"));
    }
    let meta = meta_until(parts, fresh_until);
    let updated = cache.revalidate_cache_meta(&mut parts.store, &mut parts.lock, meta)?;
    Ok(word_of(if updated { "updated" } else { "not updated" }))
}

fn there(was_there: bool) -> Said {
    word_of(if was_there { "there" } else { "not there" })
}

fn purge(parts: &mut Parts, cache: &mut Request) -> Result<Said> {
    if !cache.phase().may_purge() {
        return Ok(word_of("wrong"));
    }
    let was_there = cache.purge(&mut parts.store, &mut parts.manager)?;
    Ok(there(was_there))
}

// What is removed is removed from the manager, too.
fn removed(removal: Removal) -> Said {
    if removal.was_there() == removal.untracked.is_some() {
        there(removal.was_there())
    } else {
        word_of("there, and not tracked")
    }
}

fn purge_telling(parts: &mut Parts, cache: &mut Request) -> Result<Said> {
    if !cache.phase().may_purge() {
        return Ok(word_of("wrong"));
    }
    Ok(removed(cache.purge_key(&mut parts.store, &mut parts.manager)?))
}

fn purge_beside_telling(parts: &mut Parts, cache: &mut Request) -> Result<Said> {
    if !cache.phase().may_spawn_purge() {
        return Ok(word_of("wrong"));
    }
    Ok(removed(cache.spawn_purge(&mut parts.store, &mut parts.manager)?))
}

fn purge_beside(parts: &mut Parts, cache: &mut Request) -> Result<Said> {
    if !cache.phase().may_spawn_purge() {
        return Ok(word_of("wrong"));
    }
    let was_there = cache.spawn_async_purge(&mut parts.store, &mut parts.manager, "a test")?;
    Ok(there(was_there))
}

fn expire(parts: &mut Parts, cache: &mut Request) -> Result<Said> {
    if !cache.phase().may_purge() {
        return Ok(word_of("wrong"));
    }
    let was_there = cache.expire(&mut parts.store, &mut parts.manager, parts.now)?;
    Ok(there(was_there))
}

fn publish(parts: &mut Parts, cache: &mut Request, token: u64) -> Result<Said> {
    let tokens = [token];
    let published = cache.lock_publish_fill_tokens(&mut parts.lock, tokens.as_slice())?;
    Ok(word_of(if published.is_some() {
        "ok"
    } else {
        "no permit"
    }))
}

fn release(parts: &mut Parts, cache: &mut Request, reason: NoCacheReason) -> Said {
    if !cache.may_release(reason) {
        return word_of("wrong");
    }
    match cache.release_write_lock(&mut parts.lock, reason) {
        Some(released) => counted(released.status.as_str(), released.lock.number),
        None => word_of("none"),
    }
}

// Takes the permit out, if there is one.
fn take_permit(cache: &mut Request) -> Option<WritePermit> {
    if cache.phase().is_on() && cache.is_cache_lock_writer() {
        Some(cache.take_write_lock())
    } else {
        None
    }
}

fn gone(name: Option<LockName>) -> Said {
    match name {
        Some(gone) => counted("let go", gone.number),
        None => word_of("ok"),
    }
}

// Hands a permit over, or lets it go.
fn hand(parts: &mut Parts, cache: &mut Request, permit: WritePermit) -> Said {
    if !cache.phase().is_on() {
        parts.lock.drop_lock(Locked::Write(permit));
        return word_of("wrong");
    }
    gone(cache.set_write_lock(&mut parts.lock, permit))
}

/// One request gives its permit to another.
pub fn give(room: &mut Room, from: u64, to: u64) -> Said {
    let (_parts, cache) = room.at(from);
    match take_permit(cache) {
        Some(permit) => {
            let (parts, cache) = room.at(to);
            hand(parts, cache, permit)
        }
        None => word_of("wrong"),
    }
}

fn use_lock(cache: &mut Request, is_used: bool) -> Said {
    let may = cache.may_set_cache_lock();
    if may {
        let overrides = if is_used {
            Some(CacheOptionOverrides::default())
        } else {
            None
        };
        cache.set_cache_lock(is_used, overrides);
    }
    made(may)
}

fn tag(cache: &mut Request) -> Said {
    let may = cache.phase().is_on();
    if may {
        cache.tag_as_subrequest();
    }
    made(may)
}

// Ends a request, and replaces it by a new one.
fn end_request(parts: &mut Parts, cache: &mut Request) -> Said {
    let ended = std::mem::replace(cache, HttpCache::new(parts.alloc));
    gone(ended.end(&mut parts.store, &mut parts.lock))
}

fn bypass(cache: &mut Request) -> Said {
    let may = cache.phase().may_bypass();
    if may {
        cache.bypass_without_predictor();
    }
    made(may)
}

fn bypass_foretold(parts: &mut Parts, cache: &mut Request) -> Said {
    let may = cache.phase().may_bypass();
    if may {
        cache.bypass(&parts.predictor);
    }
    made(may)
}

fn use_policy(cache: &mut Request) -> Said {
    let may = cache.phase().may_take_key();
    if may {
        cache.set_admission_policy();
    }
    made(may)
}

fn updating(cache: &mut Request) -> Said {
    let may = cache.phase().is_stale();
    if may {
        cache.set_stale_updating();
    }
    made(may)
}

// A new answer says that the body is still valid, and is not stored; the lock is released.
fn uncacheable(parts: &mut Parts, cache: &mut Request, reason: NoCacheReason) -> Said {
    if !cache.may_revalidate() || !cache.may_release(reason) {
        return word_of("wrong");
    }
    let header = ResponseHeader::build(parts.alloc, StatusCode::OK);
    let released = cache.revalidate_uncacheable(&mut parts.lock, header, reason);
    word_of(if released.is_some() {
        "ok"
    } else {
        "no permit"
    })
}

fn disable(parts: &mut Parts, cache: &mut Request, reason: NoCacheReason) -> Said {
    let may = cache.may_disable(reason);
    if may {
        let _released = cache.disable(&mut parts.store, &mut parts.lock, reason);
    }
    made(may)
}

fn limit(cache: &mut Request, bytes: usize) -> Said {
    let may = cache.phase().is_on();
    if may {
        cache.set_max_file_size_bytes(bytes);
    }
    made(may)
}

fn limit_head(cache: &mut Request, bytes: usize) -> Said {
    let may = cache.phase().is_on();
    if may {
        cache.set_max_head_size_bytes(bytes);
    }
    made(may)
}

fn count(cache: &mut Request, bytes: usize) -> Said {
    if !cache.phase().was_enabled() {
        return word_of("wrong");
    }
    let within = cache.track_body_bytes_for_max_file_size(bytes);
    word_of(if within { "within" } else { "beyond" })
}

fn marked(answer: Option<bool>) -> Said {
    word_of(match answer {
        Some(true) => "yes",
        Some(false) => "no",
        None => "not asked",
    })
}

fn became_uncacheable(parts: &mut Parts, cache: &Request, reason: NoCacheReason) -> Result<Said> {
    if cache.maybe_cache_key().is_none() {
        return Ok(word_of("wrong"));
    }
    let answer = cache.response_became_uncacheable(&mut parts.predictor, reason)?;
    Ok(marked(answer))
}

fn became_cacheable(parts: &mut Parts, cache: &Request) -> Said {
    if cache.maybe_cache_key().is_none() {
        return word_of("wrong");
    }
    marked(cache.response_became_cacheable(&mut parts.predictor))
}

/// The third request looks the key up, the second one renews the meta, and then the third takes what it found.
pub fn renew_between(room: &mut Room, call: &'static str) -> Result<Said> {
    let parts = &mut room.parts;
    if !room.three.phase().may_look_up() {
        return Ok(word_of("wrong"));
    }
    let Some((meta, hit)) = room.three.find(&mut parts.store)? else {
        return Ok(word_of("none"));
    };
    let said = renew(parts, &mut room.two, number(call, 2));
    lookups::take_pair(parts, &mut room.three, meta, hit, HitStatus::Fresh)?;
    Ok(said?)
}
