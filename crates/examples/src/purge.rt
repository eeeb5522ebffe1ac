//! A purge service: removes what is stored for a path from the store and from the manager.
ghost use Rattle.std.specs.Prelude.{◌≡◌};
ghost use Rattle.pingora_cache.specs.Words.{CacheKey};

use crate::parts::{Parts, Request, request_for};
use pingora_cache::error::Result;

/// Purges a path, and returns whether anything was stored: a body, or writes in flight, whose end
/// then fails.
pub fn purge(parts: &mut Parts, path: &str) -> Result<bool> {
    let mut request = request_for(parts.alloc, path)?;
    let was_there = purge_key(parts, &mut request);
    request.end(&mut parts.store, &mut parts.lock);
    was_there
}

fn purge_key(parts: &mut Parts, request: &mut Request) -> Result<bool>
    requires { request.old.phase ≡ CacheKey }
{
    request.purge(&mut parts.store, &mut parts.manager)
}
