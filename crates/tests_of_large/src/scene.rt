//! Rows over a front.
use crate::front::{Found, Front, key_of};
use crate::rows::Large;
use bytes::Bytes;
use pcache_base::error::Result;
use pcache_base::key::CacheKey;
use std::alloc::Global;

/// A front, and the bytes that bodies begin with.
#[derive(Drop)]
pub struct Scene<F: Front> {
    front: F,
    bytes: Vec<u8>,
}

// The longest body.
const LONGEST: usize = 1 << 21;

/// Rows over this front.
pub fn scene_of<F: Front>(front: F) -> Result<Scene<F>> {
    let bytes = bytes_of(front.alloc())?;
    Ok(Scene { front, bytes })
}

// Their period is odd, so no two pieces of a power of two are alike.
fn bytes_of(alloc: Global) -> Result<Vec<u8>> {
    let mut bytes = Vec::with_capacity(alloc, LONGEST)?;
    let mut byte = 0u8;
    for _ in 0..LONGEST {
        bytes.push(byte)?;
        byte = if byte == 250 { 0 } else { byte.wrapping_add(1) };
    }
    Ok(bytes)
}

impl<F: Front> Large for Scene<F> {
    fn is_right(&mut self, what: &'static str, number: u64) -> Result<bool> {
        let front = &mut self.front;
        match what {
            "fill" => fill(front, key_of(front.alloc(), number), &number.to_le_bytes()),
            "find" => find(front, key_of(front.alloc(), number), &number.to_le_bytes()),
            "purge" => front.purge(key_of(front.alloc(), number)),
            "slots" => Ok(front.slots() == u128::from(number)),
            "end" => Ok(front.end()),
            _ => is_long_right(front, self.bytes.as_slice(), what, number),
        }
    }
}

// The same of words of which the number is a length.
fn is_long_right<F: Front>(
    front: &mut F,
    bytes: &[u8],
    what: &'static str,
    length: u64,
) -> Result<bool> {
    let piece = &bytes[..bytes.len().min(length as usize)];
    match what {
        "body" => fill(front, key_of(front.alloc(), length), piece),
        "bodies" => goes_round(front, 0, piece),
        "keys" => goes_round(front, length, &length.to_le_bytes()),
        "pieces" => is_followed(front, piece),
        _ => is_open(front, what, length),
    }
}

// Opens a request that stays open.
fn is_open<F: Front>(front: &mut F, what: &'static str, number: u64) -> Result<bool> {
    let alloc = front.alloc();
    Ok(match what {
        "permits" => front.open(key_of(alloc, number))? == Found::Permit,
        "read-locks" => front.open(key_of(alloc, 0))? == Found::ReadLock,
        "readers" => front.open(key_of(alloc, 0))? == Found::Reader,
        "begin" => front.open(key_of(alloc, number))? == Found::Permit && front.begin(0)?,
        _ => false,
    })
}

// Fills a key that has nothing.
fn fill<F: Front>(front: &mut F, key: CacheKey, body: &[u8]) -> Result<bool> {
    let found = front.open(key)?;
    let is_filled = found == Found::Permit && front.begin(0)? && is_stored(front, body)?;
    Ok(front.end() && is_filled)
}

// Writes the body of request 0 and ends the write.
fn is_stored<F: Front>(front: &mut F, body: &[u8]) -> Result<bool> {
    let bytes = Bytes::copy_from_slice(front.alloc(), body)?;
    Ok((body.is_empty() || front.write(0, bytes)?) && front.finish(0)?)
}

// Whether a key is found with this body.
fn find<F: Front>(front: &mut F, key: CacheKey, body: &[u8]) -> Result<bool> {
    let found = front.open(key)?;
    let is_found = found == Found::Reader && (body.is_empty() || is_read(front, 0, body)?);
    Ok(front.end() && is_found)
}

fn is_read<F: Front>(front: &mut F, number: usize, piece: &[u8]) -> Result<bool> {
    Ok(matches!(front.read(number)?, Some(bytes) if bytes.as_slice() == piece))
}

// Fills a key whose primary part and tag have this length, finds it and purges it.
fn goes_round<F: Front>(front: &mut F, length: u64, body: &[u8]) -> Result<bool> {
    let alloc = front.alloc();
    Ok(
        fill(front, long_key(alloc, length)?, body)?
            && find(front, long_key(alloc, length)?, body)?
            && front.purge(long_key(alloc, length)?)?,
    )
}

fn long_key(alloc: Global, length: u64) -> Result<CacheKey> {
    let mut primary = Vec::new(alloc);
    let mut tag = String::new(alloc);
    for _ in 0..length {
        primary.push(b'k')?;
        tag.push('t')?;
    }
    Ok(CacheKey::new(primary, tag))
}

// Request 0 writes a piece, which request 1 reads along.
fn is_followed<F: Front>(front: &mut F, piece: &[u8]) -> Result<bool> {
    let bytes = Bytes::copy_from_slice(front.alloc(), piece)?;
    Ok(piece.is_empty() || (front.write(0, bytes)? && is_read(front, 1, piece)?))
}

/// Many keys, bodies and keys of each length, a write of long pieces that is read along, and requests that are open together:
/// readers of a body and of a write, permits and read locks. Behind them, a body of 2^21 bytes takes the
/// place of all others: there is room for it alone.
pub const ROWS: &str = "
    fill 1500 -> 1500
    just slots 1500 -> 1
    find 1500 -> 1500
    purge 1500 -> 1500
    just slots 0 -> 1
    bodies 100 -> 100
    powers bodies 21 -> 21
    keys 100 -> 100
    powers keys 13 -> 13
    just slots 0 -> 1
    just begin 0 -> 1
    readers 1 -> 1
    pieces 100 -> 100
    powers pieces 17 -> 17
    readers 1100 -> 1100
    end 1102 -> 1102
    fill 1 -> 1
    readers 1100 -> 1100
    end 1100 -> 1100
    purge 1 -> 1
    permits 1100 -> 1100
    read-locks 1100 -> 1100
    end 2200 -> 2200
    fill 1500 -> 1500
    just body 2097152 -> 1
    just slots 1 -> 1";
