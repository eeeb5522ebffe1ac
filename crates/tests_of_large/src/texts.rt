//! A store of many keys, and heads, lines and variances of every length.
use crate::front::{key_of, meta_of};
use crate::rows::{Large, play};
use http::StatusCode;
use http_header::{HeaderName, HeaderValue};
use pcache_base::error::Result;
use pcache_base::seed::Seed;
use pcache_base::variance::VarianceBuilder;
use pcache_control::cache_control::CacheControl;
use pcache_meta::header::ResponseHeader;
use pcache_meta::header_text::reader::header_deserialize;
use pcache_meta::header_text::writer::header_serialize;
use pcache_meta::meta::CacheMeta;
use pcache_response::response_parse::{ParsePart, ResponseParse};
use pcache_store::memory::MemCache;
use pcache_store::storage::{HandleHit, HandleMiss, Storage};
use std::alloc::Global;
use std::fmt::Write;

// A store, and a text that each call writes anew.
#[derive(Drop)]
struct Texts {
    alloc: Global,
    store: MemCache,
    text: String,
}

impl Large for Texts {
    fn is_right(&mut self, what: &'static str, number: u64) -> Result<bool> {
        let alloc = self.alloc;
        let text = &mut self.text;
        text.clear();
        match what {
            "lines" => is_line_read(alloc, text, number),
            "variances" => is_varied(alloc, text, number),
            "keys" => is_filled(alloc, &mut self.store, number),
            "slots" => Ok(self.store.slots() as u64 == number),
            "fields" => {
                write_head(text, number, 1)?;
                is_head_kept(alloc, &mut self.store, text, number)
            }
            _ => {
                write_head(text, 2, number)?;
                is_head_kept(alloc, &mut self.store, text, 2)
            }
        }
    }
}

// A key is filled with no bytes.
fn is_filled(alloc: Global, store: &mut MemCache, number: u64) -> Result<bool> {
    let writer = store.get_miss_handler(alloc, &key_of(alloc, number), &meta_of(alloc))?;
    writer.finish(store)?;
    Ok(true)
}

fn write_letters(text: &mut String, length: u64) -> Result<()> {
    for _ in 0..length {
        text.push('x')?;
    }
    Ok(())
}

// A line of Cache-Control with a directive of about this length before one that counts.
fn is_line_read(alloc: Global, text: &mut String, length: u64) -> Result<bool> {
    text.push('x')?;
    write_letters(text, length)?;
    text.push_str(", max-age=60")?;
    let mut header = ResponseHeader::build(alloc, StatusCode::OK);
    let is_added = is_appended(alloc, &mut header, "cache-control", text.as_bytes());
    let read = CacheControl::from_resp_headers(alloc, &header)?;
    Ok(is_added && matches!(read, Some(cc) if matches!(cc.max_age(), Ok(Some(60)))))
}

fn is_appended(alloc: Global, header: &mut ResponseHeader, name: &str, value: &[u8]) -> bool {
    let Ok(name) = HeaderName::from_bytes(alloc, name.as_bytes()) else {
        return false;
    };
    match HeaderValue::from_bytes(alloc, value) {
        Ok(value) => header.headers.append(name, value).is_ok(),
        Err(_refused) => false,
    }
}

// A variance of a value of this length, which one of a longer value is not.
fn is_varied(alloc: Global, text: &mut String, length: u64) -> Result<bool> {
    write_letters(text, length)?;
    let one = variance_of(alloc, text.as_bytes())?;
    let same = variance_of(alloc, text.as_bytes())?;
    text.push('x')?;
    let other = variance_of(alloc, text.as_bytes())?;
    Ok(one.is_some() && one == same && one != other)
}

fn variance_of(alloc: Global, value: &[u8]) -> Result<Option<[u8; 16]>> {
    let mut builder = VarianceBuilder::new(alloc);
    builder.add_owned_value("accept", value.to_vec(alloc)?)?;
    Ok(builder.finalize())
}

// The text of a head with so many fields, each of a value of about this length.
fn write_head(text: &mut String, fields: u64, length: u64) -> Result<()> {
    text.push_str("HTTP/1.1 200\r\n")?;
    for number in 0..fields {
        write!(text, "x{number}: v")?;
        write_letters(text, length)?;
        text.push_str("\r\n")?;
    }
    text.push_str("\r\n")?;
    Ok(())
}

// A head that is read, written, stored and found with all its fields, and put in one piece.
fn is_head_kept(alloc: Global, store: &mut MemCache, text: &str, fields: u64) -> Result<bool> {
    let header = header_deserialize(alloc, text.as_bytes())?;
    let has_all = header.headers.len() as u64 == fields;
    let mut meta = meta_of(alloc);
    *meta.response_header_mut() = header;
    Ok(
        has_all
            && has_text(alloc, &meta, text)?
            && is_found(alloc, store, &meta, text)?
            && is_put(alloc, text, fields)?,
    )
}

// Whether a store gives a meta's head back.
fn is_found(alloc: Global, store: &mut MemCache, meta: &CacheMeta, text: &str) -> Result<bool> {
    let key = key_of(alloc, 0);
    let writer = store.get_miss_handler(alloc, &key, meta)?;
    writer.finish(store)?;
    match store.lookup(alloc, &key)? {
        Some((meta, hit)) => {
            hit.let_go(store);
            has_text(alloc, &meta, text)
        }
        None => Ok(false),
    }
}

fn has_text(alloc: Global, meta: &CacheMeta, text: &str) -> Result<bool> {
    let written = header_serialize(alloc, meta.response_header())?;
    Ok(written.as_slice() == text.as_bytes())
}

// Whether a response with this head that comes in one piece has all its fields.
fn is_put(alloc: Global, text: &str, fields: u64) -> Result<bool> {
    let mut parser = ResponseParse::new(alloc);
    let parts = parser.inject_data(text.as_bytes())?;
    Ok(
        matches!(parts.first(), Some(ParsePart::Head(header, _)) if header.headers.len() as u64 == fields),
    )
}

// A response has at most 256 fields. The keys are of one shard, of which a store has 16.
const ROWS: &str = "
    lines 300 -> 300
    powers lines 17 -> 17
    variances 300 -> 300
    powers variances 17 -> 17
    fields 257 -> 257
    values 300 -> 300
    powers values 16 -> 16
    keys 70000 -> 70000
    just slots 70000 -> 1";

#[test]
fn long_texts(rt: HostRuntime) {
    let alloc = rt.alloc();
    let texts = Texts {
        alloc,
        store: MemCache::new(alloc, Seed::fixed()),
        text: String::new(alloc),
    };
    play(&rt, alloc, texts, ROWS);
}
