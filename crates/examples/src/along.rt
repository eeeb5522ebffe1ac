//! Reading along: a request serves a body while another one is still writing it.
ghost use Rattle.std.specs.Prelude.{◌≡◌, OnOk, true};
ghost use Rattle.pingora_cache.specs.Words.{CacheKey, Miss};

use crate::front::{FrontCache, Request, meta_of, request_for};
use bytes::Bytes;
use pingora_cache::error::Result;
use pingora_cache::moment::Moment;
use pingora_cache::poll::Poll;
use pingora_cache::{HitStatus, NoCacheReason};

/// What a proxy sends after one read, in the chunked coding (RFC 9112, 7.1).
#[derive(Clone, Copy, Debug)]
pub enum Sent {
    /// A chunk of so many bytes.
    Chunk(usize),
    /// Nothing yet: read again later.
    Nothing,
    /// The last chunk: the whole body was sent.
    LastChunk,
    /// No last chunk, and the connection is closed: the write broke off. With a last chunk the client, and every cache on the
    /// way, would take what was sent for the whole body.
    Close,
}

/// Reads once, and says what is sent. What was written since the last read comes in one piece.
pub fn send(cache: &mut FrontCache, request: &mut Request) -> Result<Sent> {
    if !request.cache.has_body_reader() {
        return Ok(Sent::Close);
    }
    Ok(match cache.read_body(request)? {
        Poll::Pending => Sent::Nothing,
        Poll::Ready(Some(bytes)) => Sent::Chunk(bytes.len()),
        Poll::Ready(None) if cache.is_body_whole(request) => Sent::LastChunk,
        Poll::Ready(None) => Sent::Close,
    })
}

/// One request writes a body in two parts, and another one reads along. Returns what is sent after each of its
/// reads.
pub fn write_and_read(cache: &mut FrontCache, path: &str, now: Moment) -> Result<[Sent; 4]> {
    let mut writer = request_for(cache.alloc(), path)?;
    let sent = write_along(cache, &mut writer, path, now);
    cache.end(writer);
    sent
}

/// The same, but the origin fails after the first part. Nothing is stored, and the other request sends no last chunk.
pub fn break_off_and_read(cache: &mut FrontCache, path: &str, now: Moment) -> Result<[Sent; 2]> {
    let mut writer = request_for(cache.alloc(), path)?;
    let sent = break_off(cache, &mut writer, path, now);
    cache.end(writer);
    sent
}

fn break_off(
    cache: &mut FrontCache,
    writer: &mut Request,
    path: &str,
    now: Moment,
) -> Result<[Sent; 2]>
    requires { writer.old.cache.phase ≡ CacheKey }
{
    begin_writing(cache, writer, Bytes::from_static(b"today's "), now)?;
    let mut reader = request_for(cache.alloc(), path)?;
    let sent = read_broken(cache, writer, &mut reader, now);
    cache.end(reader);
    sent
}

// The write is dropped between two reads.
fn read_broken(
    cache: &mut FrontCache,
    writer: &mut Request,
    reader: &mut Request,
    now: Moment,
) -> Result<[Sent; 2]>
    requires { reader.old.cache.phase ≡ CacheKey }
{
    follow(cache, reader, now)?;
    let first = send(cache, reader)?;
    if writer.cache.may_disable(NoCacheReason::UpstreamError) {
        cache.disable(writer, NoCacheReason::UpstreamError);
    }
    Ok([first, send(cache, reader)?])
}

// The write can be found.
fn follow(cache: &mut FrontCache, reader: &mut Request, now: Moment) -> Result<()>
    requires { reader.old.cache.phase ≡ CacheKey }
{
    if let Some((meta, hit)) = cache.cache_lookup_without_policy(reader, now)? {
        cache.cache_found(reader, meta, hit, HitStatus::Fresh, now)?;
    }
    Ok(())
}

fn write_along(
    cache: &mut FrontCache,
    writer: &mut Request,
    path: &str,
    now: Moment,
) -> Result<[Sent; 4]>
    requires { writer.old.cache.phase ≡ CacheKey }
{
    begin_writing(cache, writer, Bytes::from_static(b"today's "), now)?;
    join_writing(cache, writer, path, Bytes::from_static(b"news"), now)
}

// The write begins with the first part.
fn begin_writing(
    cache: &mut FrontCache,
    writer: &mut Request,
    first: Bytes,
    now: Moment,
) -> Result<()>
    requires phase { writer.old.cache.phase ≡ CacheKey }
    ensures phase { OnOk result (writer.new.cache.phase ≡ Miss) }
{
    // It looked nothing up, which would have noted this too.
    cache.begin_fetch(writer);
    writer.cache.cache_miss();
    writer.cache.set_cache_meta(meta_of(cache.alloc(), now));
    cache.set_miss_handler(writer)?;
    cache.write_body(writer, first, false)?;
    Ok(())
}

fn join_writing(
    cache: &mut FrontCache,
    writer: &mut Request,
    path: &str,
    last: Bytes,
    now: Moment,
) -> Result<[Sent; 4]>
    requires { writer.old.cache.phase ≡ Miss }
{
    let mut reader = request_for(cache.alloc(), path)?;
    let sent = read_along(cache, writer, &mut reader, last, now);
    cache.end(reader);
    finish(cache, writer)?;
    sent
}

// Stores the body. Other requests were served in between, so `may_end` is asked whether the write is one
// of this cache.
fn finish(cache: &mut FrontCache, writer: &mut Request) -> Result<()>
    requires { writer.old.cache.phase ≡ Miss }
{
    if cache.may_end(writer) {
        cache.finish_miss_handler(writer)?;
    }
    Ok(())
}

// The reader gets what was written so far, and what comes later.
fn read_along(
    cache: &mut FrontCache,
    writer: &mut Request,
    reader: &mut Request,
    last: Bytes,
    now: Moment,
) -> Result<[Sent; 4]>
    requires writer { writer.old.cache.phase ≡ Miss }
    requires reader { reader.old.cache.phase ≡ CacheKey }
    ensures { writer.new.cache.phase ≡ Miss }
{
    follow(cache, reader, now)?;
    let first = send(cache, reader)?;
    let second = send(cache, reader)?;
    cache.write_body(writer, last, true)?;
    let third = send(cache, reader)?;
    let fourth = send(cache, reader)?;
    Ok([first, second, third, fourth])
}
