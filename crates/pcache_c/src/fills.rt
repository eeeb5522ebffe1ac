//! The fills that a request cannot use, and what the request that fills a key publishes of its fill: numbers, which the caller
//! gives a meaning.
ghost use Rattle.std.specs.Prelude.{◌≡◌, ◌*◌, IfOk, List};
ghost use Rattle.pcache_base.specs.declared.fills.UnusableFill.{UnusableFill};
ghost use Rattle.pcache_c.specs.Codes.{OnText};
ghost use Rattle.pcache_c.specs.Fills.{HaveTokens, Publishes, SaysAbandoned, key_without, token_abandoned};
ghost use Rattle.pcache_c.specs.Handles.{IsSame, OnHandle};
ghost use Rattle.pcache_c.specs.Opening.{Opens};
ghost use Rattle.pcache_c.specs.Reached.{OnRequest};
ghost use Rattle.pcache_c.specs.Requests.{SaysKnown};

use crate::caches::key_from;
use crate::codes::{BAD_HANDLE, NO_MEMORY, NONE, OK, code_of};
use crate::handed::holds_permit;
use crate::handle::PcacheHandle;
use crate::reached;
use crate::served::{AnyCache, Open};
use pcache_base::fills::{UnusableFill, UnusableFills};
use std::alloc::{AllocError, Global};

// Fills with these tokens, in their order. Their reasons do not cross.
fn fills_with(alloc: Global, tokens: &[u64]) -> Result<Vec<UnusableFill>, AllocError>
    ensures { IfOk result (λ fills. HaveTokens tokens.now fills.items) }
{
    let mut fills = Vec::with_capacity(alloc, tokens.len())?;
    for token in tokens {
        fills.push(UnusableFill {
            token: *token,
            reason: "",
        })?;
    }
    Ok(fills)
}

/// Opens a request as `pcache_request_new` does, which cannot use the fills with these tokens: it stops waiting for a request that
/// publishes one of them.
#[unsafe(no_mangle)]
pub extern "C" fn pcache_request_new_with_unusable(
    alloc: Global,
    cache: &mut PcacheHandle,
    key: &[u8],
    tag: &[u8],
    tokens: &[u64],
    request: &mut u64,
) -> u32
    ensures opens { OnText tag.now result (IsSame cache.old cache.new)
        ((fills : List UnusableFill)
        × HaveTokens tokens.now fills
        × OnHandle cache.old cache.new result (λ a b.
        Opens (key_without fills key.now tag.now) a b request.new result)) }
{
    let mut key = match key_from(alloc, key, tag) {
        Ok(key) => key,
        Err(code) => return code,
    };
    let Ok(fills) = fills_with(alloc, tokens) else {
        return NO_MEMORY;
    };
    key.unusable = Some(UnusableFills::new(fills));
    let Some(mut object) = cache.take(alloc) else {
        return BAD_HANDLE;
    };
    let code = reached::open(&mut *object, alloc, key, request);
    cache.put(object);
    code
}

/// Publishes tokens of what was found out about the fill, if the request holds the permit.
pub(crate) fn publish(cache: &mut AnyCache, opened: &Open, tokens: &[u64]) -> u32
    ensures { Publishes tokens.now cache.old cache.new opened.now opened.now result }
{
    if !holds_permit(opened) {
        return NONE;
    }
    match cache.lock_publish_fill_tokens(&opened.request, tokens) {
        Ok(_) => OK,
        Err(e) => code_of(e),
    }
}

/// The token of the fill for which the last wait that was abandoned was abandoned.
pub(crate) fn abandoned(opened: &Open, token: &mut u64) -> u32
    ensures { SaysKnown (token_abandoned opened.now) token.new result }
{
    match opened.request.cache.lock_abandon() {
        Some(abandon) => {
            *token = abandon.token;
            OK
        }
        None => NONE,
    }
}

/// Publishes tokens of what was found out about the fill, in place of those that the request published before: who waits for it,
/// and cannot use a fill with one of them, waits no longer. There is nothing to publish for a request without the permit.
#[unsafe(no_mangle)]
pub extern "C" fn pcache_request_publish(
    alloc: Global,
    cache: &mut PcacheHandle,
    request: u64,
    tokens: &[u64],
) -> u32
    ensures { OnRequest request cache.old cache.new result (λ c d o p.
        Publishes tokens.now c d o p result) }
{
    let Some(mut object) = cache.take(alloc) else {
        return BAD_HANDLE;
    };
    let code = reached::publish(&mut *object, request, tokens);
    cache.put(object);
    code
}

/// The token of the fill for which the request's last wait that was abandoned was abandoned. There is none before such a wait.
#[unsafe(no_mangle)]
pub extern "C" fn pcache_request_abandoned(
    alloc: Global,
    cache: &mut PcacheHandle,
    request: u64,
    token: &mut u64,
) -> u32
    ensures { OnRequest request cache.old cache.new result (λ c d o p.
        SaysAbandoned c d o p token.new result) }
{
    let Some(mut object) = cache.take(alloc) else {
        return BAD_HANDLE;
    };
    let code = reached::abandoned(&mut *object, request, token);
    cache.put(object);
    code
}
