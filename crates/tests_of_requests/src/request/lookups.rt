//! Calls that look for a body and take what they find.
use super::*;
use crate::rows::{size, some_byte, word};
use pcache_store::storage::{HandleHit, Storage};

/// Makes the call, if it is one of these.
pub fn make(parts: &mut Parts, cache: &mut Request, call: &'static str) -> Result<Option<Said>> {
    let said = match word(call, 1) {
        "look" => look(parts, cache)?,
        "ask" => ask(parts, cache)?,
        "look-admitted" => look_with_policy(parts, cache)?,
        "look-deferred" => look_deferred(parts, cache)?,
        "vary" => vary(parts, cache, some_byte(call, 2).unwrap_or(0))?,
        "expired" => take(parts, cache, HitStatus::Expired)?,
        "fresh" => take(parts, cache, HitStatus::Fresh)?,
        "seek" => seek(cache, size(call, 2)),
        "close" => close(parts, cache)?,
        _ => return Ok(None),
    };
    Ok(Some(said))
}

/// The reader of the store in memory.
pub type Hit = <MemCache as Storage>::Hit;

// Lets go what was found.
fn found(parts: &mut Parts, found: Option<(CacheMeta, Hit)>) -> Said {
    let Some((_meta, hit)) = found else {
        return word_of("none");
    };
    let len = hit.get_eviction_weight();
    hit.let_go(&mut parts.store);
    counted("hit", len as u64)
}

fn look(parts: &mut Parts, cache: &mut Request) -> Result<Said> {
    if !cache.phase().may_look_up() {
        return Ok(word_of("wrong"));
    }
    let it = cache.cache_lookup_without_policy(&mut parts.store, &mut parts.lock, parts.now)?;
    Ok(found(parts, it))
}

// Looks the key up, and returns which lock is held if nothing is found.
fn ask(parts: &mut Parts, cache: &mut Request) -> Result<Said> {
    let said = look(parts, cache)?;
    Ok(if said.word == "none" {
        word_of(asks::held(cache))
    } else {
        said
    })
}

// With the policy that admits the second time.
fn look_with_policy(parts: &mut Parts, cache: &mut Request) -> Result<Said> {
    if !cache.phase().may_look_up() {
        return Ok(word_of("wrong"));
    }
    let it = cache.cache_lookup(
        &mut parts.store,
        &mut parts.lock,
        &mut parts.policy,
        parts.now,
    )?;
    Ok(found(parts, it))
}

// With a policy that always defers.
fn look_deferred(parts: &mut Parts, cache: &mut Request) -> Result<Said> {
    if !cache.phase().may_look_up() {
        return Ok(word_of("wrong"));
    }
    let mut policy = Decision::Defer { observed: 7 };
    let it = cache.cache_lookup(&mut parts.store, &mut parts.lock, &mut policy, parts.now)?;
    Ok(found(parts, it))
}

// Looks the key up, and then for the variance, by the meta that is found.
fn vary(parts: &mut Parts, cache: &mut Request, byte: u8) -> Result<Said> {
    if !cache.phase().may_look_up() {
        return Ok(word_of("wrong"));
    }
    let Some((meta, hit)) = cache.find(&mut parts.store)? else {
        return Ok(word_of("none"));
    };
    hit.let_go(&mut parts.store);
    Ok(look_for(cache, &meta, byte))
}

fn look_for(cache: &mut Request, meta: &CacheMeta, byte: u8) -> Said {
    if !cache.phase().may_look_up() {
        return word_of("wrong");
    }
    let same = cache.cache_vary_lookup([byte; 16], meta);
    word_of(if same { "same" } else { "other" })
}

// Looks the key up, and takes what is found with this status.
fn take(parts: &mut Parts, cache: &mut Request, status: HitStatus) -> Result<Said> {
    if !cache.phase().may_look_up() {
        return Ok(word_of("wrong"));
    }
    let found = cache.cache_lookup_without_policy(&mut parts.store, &mut parts.lock, parts.now)?;
    let Some((meta, hit)) = found else {
        return Ok(word_of("none"));
    };
    take_pair(parts, cache, meta, hit, status)?;
    Ok(word_of("ok"))
}

/// Takes a found pair, or lets it go if the phase forbids that.
pub fn take_pair(
    parts: &mut Parts,
    cache: &mut Request,
    meta: CacheMeta,
    hit: Hit,
    status: HitStatus,
) -> Result<()> {
    if !cache.phase().may_look_up() {
        hit.let_go(&mut parts.store);
        return Ok(());
    }
    cache.cache_found(
        &mut parts.store,
        &mut parts.manager,
        &mut parts.lock,
        meta,
        hit,
        status,
        parts.now,
    )
}

fn seek(cache: &mut Request, start: usize) -> Said {
    if !cache.has_body_reader() {
        return word_of("wrong");
    }
    word_of(if cache.seek(start, None).is_ok() {
        "ok"
    } else {
        "refused"
    })
}

fn close(parts: &mut Parts, cache: &mut Request) -> Result<Said> {
    let may = cache.phase().may_finish_hit();
    if may {
        cache.finish_hit_handler(&mut parts.store)?;
    }
    Ok(made(may))
}
