//! Calls of a world, written in words.
ghost use Rattle.std.specs.Prelude.{◌≡◌, IfOk};

use bytes::Bytes;
use http::StatusCode;
use pcache_base::error::Result;
use pcache_base::key::CacheKey;
use pcache_base::moment::Moment;
use pcache_base::seed::Seed;
use pcache_evict::eviction::simple_lru::Manager;
use pcache_meta::header::ResponseHeader;
use pcache_meta::meta::CacheMeta;
use pcache_request::phase::HitStatus;
use pcache_shared_cache::place_of;
use pcache_shared_world::{Opening, SharedWorld};
use pcache_world::world::World;
use pcache_world::world::boxed::Boxed;
use pcache_world::world::call::{Act, Call, RequestAct};
use pcache_world::world::policy::BySelf;
use std::alloc::Global;
use std::time::Duration;
use test_rows::{some_number, word};

/// A world over one recency list.
pub type ListWorld = World<Manager, BySelf>;

/// The same before it is shared.
pub type ListOpening = Opening<Manager, BySelf>;

/// The same, shared under a mark.
pub type SharedList<K> = SharedWorld<Manager, BySelf, K>;

const NOW: Moment = Moment::EPOCH;

// A key with this primary part.
fn key_of(alloc: Global, name: &str) -> Result<CacheKey> {
    let primary = name.as_bytes().to_vec(alloc)?;
    Ok(CacheKey::new(primary, String::from_str(alloc, "1")?))
}

/// Which of two worlds a key with this primary part belongs to.
pub fn place_in_two(alloc: Global, name: &str) -> Result<usize> {
    Ok(place_of::<2>(&key_of(alloc, name)?))
}

fn meta_of(alloc: Global) -> CacheMeta {
    let header = ResponseHeader::build(alloc, StatusCode::OK);
    CacheMeta::new(Moment::from_secs(60), NOW, 0, 0, header)
}

fn key_call(alloc: Global, request: u64, name: &str) -> Result<Call> {
    let key = Boxed::new(alloc, key_of(alloc, name)?)?;
    Ok(RequestAct::Key { key }.of(request))
}

fn write_call(request: u64, text: &'static str, eof: bool) -> Call {
    let bytes = Bytes::from_static(text.as_bytes());
    RequestAct::Write { bytes, eof }.of(request)
}

// The call with this word of this request, and with a text that not all calls need.
fn call_of(alloc: Global, word: &str, request: u64, text: &'static str) -> Result<Option<Call>> {
    Ok(Some(match word {
        "open" => Act::Open { options: None }.of(request),
        "key" => key_call(alloc, request, text)?,
        "look" => RequestAct::Look {
            now: NOW,
            decision: None,
        }
        .of(request),
        "found" => RequestAct::Found {
            status: HitStatus::Fresh,
            now: NOW,
        }
        .of(request),
        "miss" => RequestAct::Miss.of(request),
        "meta" => RequestAct::Meta {
            meta: Boxed::new(alloc, meta_of(alloc))?,
        }
        .of(request),
        "begin" => RequestAct::Begin.of(request),
        "write" => write_call(request, text, false),
        "write_last" => write_call(request, text, true),
        "finish" => RequestAct::Finish.of(request),
        "read" => RequestAct::Read.of(request),
        "purge" => RequestAct::Purge.of(request),
        "end" => Act::End.of(request),
        _ => return Ok(None),
    }))
}

/// The call of a line: its word, the number of its request and perhaps a text.
pub fn read_call(alloc: Global, line: &'static str) -> Result<Option<Call>> {
    match some_number(line, 1) {
        Some(request) => call_of(alloc, word(line, 0), request, word(line, 2)),
        None => Ok(None),
    }
}

/// The calls of a text, one a line. A line that is none is left out.
pub fn read_script(alloc: Global, text: &'static str) -> Result<Vec<Call>> {
    let mut calls = Vec::new(alloc);
    for line in text.lines() {
        if let Some(call) = read_call(alloc, line)? {
            calls.push(call)?;
        }
    }
    Ok(calls)
}

/// An empty world of at most nine bytes.
pub fn world_of(alloc: Global) -> Result<ListWorld> {
    let manager = Manager::new(alloc, Seed::fixed(), 9)?;
    Ok(World::new(alloc, Seed::fixed(), manager, Duration::from_secs(10)))
}

/// The same, to be shared by two.
pub fn opening_of(alloc: Global) -> Result<ListOpening>
    ensures { IfOk result (λ opening. opening.shares ≡ 2) }
{
    Ok(Opening::new(alloc, world_of(alloc)?, 2)?)
}
