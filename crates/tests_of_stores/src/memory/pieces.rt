//! Writes in pieces of any length, against one plain text.
use crate::room::metas::meta_until;
use bytes::Bytes;
use pcache_base::error::Result;
use pcache_base::key::CacheKey;
use pcache_base::poll::Poll;
use pcache_base::seed::Seed;
use pcache_meta::meta::CacheMeta;
use pcache_store::memory::{MemCache, MemHitHandler, MemMissHandler};
use pcache_store::storage::{HandleHit, HandleMiss, Storage};
use rand::rngs::StdRng;
use rand::{RngExt, SeedableRng};
use std::alloc::Global;
use test_rows::key_of;

// A store, and a write of it beside the plain text of the bytes that it got.
#[derive(Drop)]
struct Plain {
    alloc: Global,
    store: MemCache,
    text: Vec<u8>,
    rng: StdRng,
    // Whether all that was written was taken, and all that was read was in the text.
    agrees: bool,
}

// Up to 3,000 random bytes, most often a few.
fn random_piece(alloc: Global, rng: &mut StdRng) -> Vec<u8> {
    let small: bool = rng.random_range(0..3u32) > 0;
    let len: usize = if small {
        rng.random_range(0..60)
    } else {
        rng.random_range(0..3_000)
    };
    let mut piece = Vec::new(alloc);
    for _ in 0..len {
        let byte: u8 = rng.random_range(0..250);
        let _is_whole = piece.push(byte).is_ok();
    }
    piece
}

fn large_piece(alloc: Global) -> Vec<u8> {
    let mut piece = Vec::new(alloc);
    for _ in 0..70_000u32 {
        let _is_whole = piece.push(7).is_ok();
    }
    piece
}

// Hands a piece over.
fn hand(it: &mut Plain, writer: &mut MemMissHandler, piece: Vec<u8>, eof: bool) {
    let is_noted = it.text.extend_from_slice(piece.as_slice()).is_ok();
    let is_written = match Bytes::from_vec(piece) {
        Ok(bytes) => writes(&mut it.store, writer, bytes, eof),
        Err(_refused) => false,
    };
    it.agrees &= is_noted && is_written;
}

fn writes(store: &mut MemCache, writer: &mut MemMissHandler, bytes: Bytes, eof: bool) -> bool {
    !writer.at_eof(store) && writer.write_body(store, bytes, eof).is_ok()
}

fn hand_random(it: &mut Plain, writer: &mut MemMissHandler, eof: bool) {
    let piece = random_piece(it.alloc, &mut it.rng);
    hand(it, writer, piece, eof);
}

// Hands three pieces over that nobody reads, of which the last may be the end.
fn hand_three(it: &mut Plain, writer: &mut MemMissHandler, eof: bool) {
    hand_random(it, writer, false);
    hand_random(it, writer, false);
    hand_random(it, writer, eof);
}

// Whether these bytes were read, or that there are none for now.
fn is_rest(read: Result<Poll<Option<Bytes>>>, rest: &[u8]) -> bool {
    match read {
        Ok(Poll::Ready(Some(piece))) => !rest.is_empty() && piece.as_slice() == rest,
        Ok(Poll::Ready(None)) => rest.is_empty(),
        Ok(Poll::Pending) => rest.is_empty(),
        Err(_refused) => false,
    }
}

// Reads what the plain text has from a place on, and returns how far the reader is then.
fn read_on(it: &mut Plain, reader: &mut MemHitHandler, place: usize) -> usize {
    let read = reader.read_body(it.alloc, &mut it.store);
    let rest = it.text.as_slice().get(place..).unwrap_or(&[]);
    it.agrees &= is_rest(read, rest);
    it.text.len()
}

// Pieces and reads in turn, at random.
fn hand_and_read(it: &mut Plain, writer: &mut MemMissHandler, reader: &mut MemHitHandler) {
    let mut place = 0usize;
    for _ in 0..30u32 {
        hand_random(it, writer, false);
        let reads: bool = it.rng.random_range(0..3u32) == 0;
        if reads {
            place = read_on(it, reader, place);
        }
    }
    read_on(it, reader, place);
}

type Found = Result<Option<(CacheMeta, MemHitHandler)>>;

fn read_while_written(it: &mut Plain, writer: &mut MemMissHandler, found: Found) {
    match found {
        Ok(Some((_meta, mut reader))) => {
            hand_and_read(it, writer, &mut reader);
            reader.let_go(&mut it.store);
        }
        _ => it.agrees = false,
    }
}

fn read_whole(it: &mut Plain, found: Found) {
    match found {
        Ok(Some((_meta, mut reader))) => {
            read_on(it, &mut reader, 0);
            reader.let_go(&mut it.store);
        }
        _ => it.agrees = false,
    }
}

// Hands pieces over before a reader comes, while it reads, and after it left. What a write is before anybody reads it depends on
// the seed: nothing, or some pieces, the first of them perhaps large.
fn write_all(it: &mut Plain, key: &CacheKey, writer: &mut MemMissHandler, seed: u64) {
    if seed % 3 == 1 {
        let piece = large_piece(it.alloc);
        hand(it, writer, piece, false);
    }
    if seed % 3 > 0 {
        hand_three(it, writer, false);
    }
    let found = it.store.lookup(it.alloc, key);
    read_while_written(it, writer, found);
    hand_three(it, writer, true);
}

fn write_and_read(it: &mut Plain, key: &CacheKey, seed: u64) {
    let begun = it
        .store
        .get_miss_handler(it.alloc, key, &meta_until(it.alloc, 300));
    match begun {
        Ok(mut writer) => {
            write_all(it, key, &mut writer, seed);
            it.agrees &= writer.finish(&mut it.store).is_ok();
        }
        Err(_refused) => it.agrees = false,
    }
    let found = it.store.lookup(it.alloc, key);
    read_whole(it, found);
}

fn agrees(alloc: Global, seed: u64) -> bool {
    let mut it = Plain {
        alloc,
        store: MemCache::new(alloc, Seed::fixed()),
        text: Vec::new(alloc),
        rng: StdRng::seed_from_u64(seed),
        agrees: true,
    };
    write_and_read(&mut it, &key_of(alloc, b"aa", "1"), seed);
    it.agrees
}

#[test]
fn a_write_in_pieces_is_one_text(rt: HostRuntime) {
    let mut all = true;
    for seed in 0..8u64 {
        all &= agrees(rt.alloc(), seed);
    }
    assert!(rt; all);
}
