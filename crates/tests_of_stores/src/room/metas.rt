//! Metas of rows: those that are written, set and found.
use super::Kept;
use super::keys::key_named;
use super::writers::tell_entry;
use crate::rows::{Told, number, some_number, word};
use http::StatusCode;
use http_header::{HeaderMap, HeaderName, HeaderValue};
use pcache_base::error::Result;
use pcache_base::moment::Moment;
use pcache_meta::header::ResponseHeader;
use pcache_meta::meta::CacheMeta;
use pcache_store::storage::HandleHit;
use std::alloc::Global;

/// The meta of a response that is fresh until this second.
pub fn meta_until(alloc: Global, fresh_until: u64) -> CacheMeta {
    let header = ResponseHeader::build(alloc, StatusCode::OK);
    let until = Moment::from_secs(fresh_until);
    CacheMeta::new(until, Moment::EPOCH, 30, 30, header)
}

/// A meta with all of its parts but fields of its head.
pub fn varied_meta(alloc: Global) -> CacheMeta {
    let header = ResponseHeader::build(alloc, StatusCode::OK);
    let mut meta = CacheMeta::new(Moment::from_secs(70), Moment::from_secs(1), 10, 20, header);
    meta.set_variance_key([0xac; 16]);
    meta.set_epoch_override(Moment::from_secs(3));
    meta
}

/// Adds five fields, two of which have one name.
pub fn add_five(alloc: Global, headers: &mut HeaderMap) -> bool {
    add(alloc, headers, "foo1", "pingora")
        && add(alloc, headers, "foo2", "pingora")
        && add(alloc, headers, "server", "pingora")
        && add(alloc, headers, "set-cookie", "a=1")
        && add(alloc, headers, "set-cookie", "b=2")
}

fn add(alloc: Global, headers: &mut HeaderMap, name: &str, value: &str) -> bool {
    let Ok(name) = HeaderName::from_bytes(alloc, name.as_bytes()) else {
        return false;
    };
    match HeaderValue::from_bytes(alloc, value.as_bytes()) {
        Ok(value) => headers.append(name, value).is_ok(),
        Err(_refused) => false,
    }
}

/// Makes the call of a row.
pub fn tell<S: Kept>(alloc: Global, store: &mut S, call: &'static str, told: &mut Told) {
    let name = word(call, 1);
    match word(call, 0) {
        "update" => {
            let meta = meta_until(alloc, number(call, 2));
            tell_updated(update(alloc, store, name, &meta), told);
        }
        "update-as" => match found(alloc, store, word(call, 2)) {
            Ok(Some(meta)) => tell_updated(update(alloc, store, name, &meta), told),
            Ok(None) => told.say("absent"),
            Err(refused) => told.refused(&refused),
        },
        "number" => tell_number(found(alloc, store, name), told),
        _ => {
            let wanted = varied_until(alloc, some_number(call, 2));
            tell_same(found(alloc, store, name), &wanted, told);
        }
    }
}

fn update<S: Kept>(
    alloc: Global,
    store: &mut S,
    name: &'static str,
    meta: &CacheMeta,
) -> Result<bool> {
    let key = key_named(alloc, name);
    store.update_meta(alloc, &key, meta)
}

fn tell_updated(is_there: Result<bool>, told: &mut Told) {
    match is_there {
        Ok(is_there) => told.say(if is_there { "updated" } else { "absent" }),
        Err(refused) => told.refused(&refused),
    }
}

// The meta that is found; its reader is let go.
fn found<S: Kept>(alloc: Global, store: &mut S, name: &'static str) -> Result<Option<CacheMeta>> {
    let key = key_named(alloc, name);
    match store.lookup(alloc, &key) {
        Ok(Some((meta, reader))) => {
            reader.let_go(store);
            Ok(Some(meta))
        }
        Ok(None) => Ok(None),
        Err(refused) => Err(refused),
    }
}

fn tell_number(found: Result<Option<CacheMeta>>, told: &mut Told) {
    match found {
        Ok(Some(meta)) => tell_entry(meta.entry_id(), told),
        Ok(None) => told.say("none"),
        Err(refused) => told.refused(&refused),
    }
}

// The varied meta with its five fields, whose freshness ended at this second, if there is one.
fn varied_until(alloc: Global, end: Option<u64>) -> CacheMeta {
    let mut meta = varied_meta(alloc);
    let _is_whole = add_five(alloc, &mut meta.response_header_mut().headers);
    if let Some(end) = end {
        meta.expire_at(Moment::from_secs(end));
    }
    meta
}

fn tell_same(found: Result<Option<CacheMeta>>, wanted: &CacheMeta, told: &mut Told) {
    match found {
        Ok(Some(meta)) => told.say(if is_same(&meta, wanted) {
            "same"
        } else {
            "other"
        }),
        Ok(None) => told.say("none"),
        Err(refused) => told.refused(&refused),
    }
}

fn is_same(found: &CacheMeta, meta: &CacheMeta) -> bool {
    has_times(found, meta)
        && found.variance() == meta.variance()
        && *found.headers() == *meta.headers()
}

fn has_times(found: &CacheMeta, meta: &CacheMeta) -> bool {
    found.fresh_until() == meta.fresh_until()
        && found.updated() == meta.updated()
        && found.epoch() == meta.epoch()
        && found.stale_if_error_sec() == meta.stale_if_error_sec()
}
