//! Writes.
use crate::seats::{Lists, Request, meta_until};
use bytes::Bytes;
use pcache_base::error::Result;
use std::sync::Wait;
use test_rows::Told;

/// Goes on as a miss, with a response that is fresh until a second.
pub fn miss(cache: &Lists, request: &mut Request, until: u64, told: &mut Told) {
    if !request.cache().phase().may_miss() {
        return told.say("wrong");
    }
    request.cache_miss();
    request.set_cache_meta(meta_until(cache.alloc(), until));
    told.say("ok");
}

/// Begins the write.
pub fn begin<R: Wait>(rt: &R, cache: &Lists, request: &mut Request, told: &mut Told) {
    if !request.cache().may_write() {
        return told.say("wrong");
    }
    told.done(cache.set_miss_handler(rt, request));
}

/// Writes a text, perhaps the last one.
pub fn write<R: Wait>(
    rt: &R,
    cache: &Lists,
    request: &mut Request,
    text: &'static str,
    eof: bool,
    told: &mut Told,
) {
    if !request.cache().phase().is_filling() {
        return told.say("wrong");
    }
    let bytes = Bytes::from_static(text.as_bytes());
    tell_taken(cache.write_body(rt, request, bytes, eof), told);
}

// Whether a write took the bytes.
fn tell_taken(taken: Result<bool>, told: &mut Told) {
    match taken {
        Ok(true) => told.say("ok"),
        Ok(false) => told.say("not taken"),
        Err(refused) => told.refused(&refused),
    }
}

/// Ends the write.
pub fn finish<R: Wait>(rt: &R, cache: &Lists, request: &mut Request, told: &mut Told) {
    if !request.cache().phase().is_filling() {
        return told.say("wrong");
    }
    match cache.finish_miss_handler(rt, request) {
        Ok(Some(_report)) => told.say("ok"),
        Ok(None) => told.say("no write"),
        Err(refused) => told.refused(&refused),
    }
}

/// Stores a whole response that is fresh until a second.
pub fn fill<R: Wait>(
    rt: &R,
    cache: &Lists,
    request: &mut Request,
    text: &'static str,
    until: u64,
    told: &mut Told,
) {
    miss(cache, request, until, told);
    begin(rt, cache, request, told);
    write(rt, cache, request, text, true, told);
    finish(rt, cache, request, told);
}

/// Sets a limit on the length of the head.
pub fn limit_head(request: &mut Request, limit: usize, told: &mut Told) {
    if !request.cache().phase().is_on() {
        return told.say("wrong");
    }
    request.set_max_head_size_bytes(limit);
    told.say("ok");
}

/// The length of the head that is stored, and whether it is longer than its limit.
pub fn head<R: Wait>(rt: &R, cache: &Lists, request: &mut Request, told: &mut Told) {
    told.named(&cache.head_length(rt, request));
    if cache.exceeded_max_head_size(rt, request) {
        told.say(" is longer");
    }
}
