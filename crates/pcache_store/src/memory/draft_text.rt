//! The bytes of a write, in pieces or gathered.
ghost use Rattle.std.specs.Prelude.{◌≡◌, ◌<◌, ◌≤◌, ◌+◌, ◌++◌, IfOk, OnErr, OnOk, [], drop, length, take};
ghost use Rattle.std.specs.List.{concat};

use bytes::Bytes;
use std::alloc::{AllocError, Global};
use std::marker::Model;
use std::mem;

/// Pieces of fewer bytes are always gathered: such a piece would take more memory than its bytes.
const SMALL: usize = 1024;

/// A piece of so many bytes is never copied to those that come after it.
const LARGE: usize = 65_536;

/// The bytes of a write. The first piece is kept as it was passed in, since it may be the whole body. From the
/// second one on, a write that nobody reads gathers its pieces in a vector, which becomes the body without a
/// copy. A write that is read keeps each piece, and shares it with its readers, unless it is small. At the end
/// all is joined once, if it is in several pieces.
#[derive(Drop)]
pub(crate) struct DraftText {
    pieces: Vec<Bytes>,
    // The gathered bytes, which come after the pieces.
    tail: Vec<u8>,
    // The number of all bytes.
    len: usize,
}

impl Model for DraftText {
    ghost use Rattle.std.specs.Prelude.{◌≡◌, ◌++◌, ℕ, List, length};
    ghost use Rattle.std.specs.List.{concat};

    ghost Value = { List ℕ };

    ghost view = { λ t. concat t.pieces.items ++ t.tail.items };

    ghost invariant = { λ t. t.len ≡ length (concat t.pieces.items ++ t.tail.items) };
}

// Appends the bytes of pieces to a text.
fn append(text: &mut Vec<u8>, pieces: &[Bytes]) -> Result<(), AllocError>
    ensures ok { OnOk result (text.new.items ≡ text.old.items ++ concat pieces.now) }
{
    for piece in pieces {
        text.extend_from_slice(piece.as_slice())?;
    }
    Ok(())
}

// Makes a piece of the gathered bytes. No byte is copied.
fn settle(alloc: Global, pieces: &mut Vec<Bytes>, tail: &mut Vec<u8>) -> Result<(), AllocError>
    ensures same { concat pieces.new.items ++ tail.new.items
        ≡ concat pieces.old.items ++ tail.old.items }
    ensures ok { OnOk result (tail.new.items ≡ []) }
{
    if tail.is_empty() {
        return Ok(());
    }
    pieces.reserve(1)?;
    tail.shrink_to_fit();
    match Bytes::from_vec(mem::replace(tail, Vec::new(alloc))) {
        Ok(bytes) => {
            pieces.push_reserved(bytes);
            Ok(())
        }
        Err(refused) => {
            *tail = refused.value;
            Err(AllocError)
        }
    }
}

// Moves the first piece to the gathered bytes, if it is the only one and nothing is gathered yet. Returns whether
// no piece is left.
fn gather(pieces: &mut Vec<Bytes>, tail: &mut Vec<u8>) -> Result<bool, AllocError>
    ensures same { concat pieces.new.items ++ tail.new.items
        ≡ concat pieces.old.items ++ tail.old.items }
{
    if pieces.len() == 1 && tail.is_empty() && pieces[0].len() < LARGE {
        tail.extend_from_slice(pieces[0].as_slice())?;
        pieces.clear();
    }
    Ok(pieces.is_empty())
}

// Makes one piece of several, which have `len` bytes together.
fn join(alloc: Global, pieces: &mut Vec<Bytes>, len: usize) -> Result<(), AllocError>
    ensures same { concat pieces.new.items ≡ concat pieces.old.items }
    ensures ok { OnOk result (length pieces.new.items ≤ 1) }
{
    if pieces.len() <= 1 {
        return Ok(());
    }
    let mut text = Vec::with_capacity(alloc, len)?;
    append(&mut text, pieces.as_slice())?;
    let joined = Bytes::from_vec(text)?;
    pieces.clear();
    pieces.push_reserved(joined);
    Ok(())
}

// The piece that has the byte at an index, and the index at which the piece begins. The pieces have `end`
// bytes together.
fn piece_at(pieces: &[Bytes], end: usize, place: usize) -> (usize, usize)
    requires end { end ≡ length (concat pieces.now) }
    requires place { place < end }
    ensures within { result.0 < length pieces.now }
    ensures start { result.1 ≡ length (concat (take result.0 pieces.now)) }
    ensures before { result.1 ≤ place }
    ensures inside { place < length (concat (take (result.0 + 1) pieces.now)) }
{
    let mut start = end;
    let mut count = pieces.len();
    while start > place {
        count -= 1;
        start -= pieces[count].len();
    }
    (count, start)
}

// A copy, in one piece, of the bytes of pieces from an index within the first one on, and of the
// bytes after them.
fn copied(
    alloc: Global,
    pieces: &[Bytes],
    skip: usize,
    tail: &[u8],
    capacity: usize,
) -> Result<Bytes, AllocError>
    requires some { 0 < length pieces.now }
    requires skip { skip ≤ length (concat (take 1 pieces.now)) }
    ensures ok { IfOk result (λ b. b ≡ drop skip (concat pieces.now ++ tail.now)) }
{
    let mut text = Vec::with_capacity(alloc, capacity)?;
    text.extend_from_slice(&pieces[0].as_slice()[skip..])?;
    append(&mut text, &pieces[1..])?;
    text.extend_from_slice(tail)?;
    Ok(Bytes::from_vec(text)?)
}

impl DraftText {
    pub(crate) fn new(alloc: Global) -> DraftText
        ensures { result ≡ [] }
    {
        DraftText {
            pieces: Vec::new(alloc),
            tail: Vec::new(alloc),
            len: 0,
        }
    }

    pub(crate) fn len(&self) -> usize
        ensures { result ≡ length self.now }
    {
        self.len
    }

    // Adds a piece, to a write that somebody reads or not.
    pub(crate) fn extend(
        &mut self,
        alloc: Global,
        bytes: Bytes,
        is_read: bool,
    ) -> Result<(), AllocError>
        ensures ok { OnOk result (self.new ≡ self.old ++ bytes) }
        ensures err { OnErr result (self.new ≡ self.old) }
    {
        if bytes.is_empty() {
            return Ok(());
        }
        let Some(len) = self.len.checked_add(bytes.len()) else {
            return Err(AllocError);
        };
        if self.gathers(bytes.len(), is_read)? {
            self.tail.extend_from_slice(bytes.as_slice())?;
            self.len = len;
            return Ok(());
        }
        settle(alloc, &mut self.pieces, &mut self.tail)?;
        self.pieces.push(bytes)?;
        self.len = len;
        Ok(())
    }

    // Whether a piece of so many bytes is to be gathered. Kept one by one, the pieces of a write that nobody reads would each take
    // a block, and be joined at the end all the same.
    fn gathers(&mut self, count: usize, is_read: bool) -> Result<bool, AllocError>
        ensures same { self.new ≡ self.old }
    {
        if self.len == 0 {
            return Ok(false);
        }
        if !is_read && gather(&mut self.pieces, &mut self.tail)? {
            return Ok(true);
        }
        Ok(count < SMALL)
    }

    // Makes a piece of the gathered bytes, which is shared with those who read it.
    pub(crate) fn settle(&mut self, alloc: Global) -> Result<(), AllocError>
        ensures same { self.new ≡ self.old }
    {
        settle(alloc, &mut self.pieces, &mut self.tail)
    }

    // The bytes from an index on: shared if they are in one piece, else copied. So a reader that is behind by several pieces gets a
    // copy of just these.
    pub(crate) fn rest(&self, alloc: Global, place: usize) -> Result<Bytes, AllocError>
        requires { place ≤ length self.now }
        ensures ok { IfOk result (λ b. b ≡ drop place self.now) }
    {
        let tail = self.tail.as_slice();
        let end = self.len - tail.len();
        if place >= end {
            return Bytes::copy_from_slice(alloc, &tail[place - end..]);
        }
        let pieces = self.pieces.as_slice();
        let (at, start) = piece_at(pieces, end, place);
        if at + 1 == pieces.len() && tail.is_empty() {
            return pieces[at].slice(place - start..);
        }
        copied(alloc, &pieces[at..], place - start, tail, self.len - place)
    }

    // All bytes in one piece, which is shared from now on.
    pub(crate) fn share(&mut self, alloc: Global) -> Result<Bytes, AllocError>
        ensures ok { IfOk result (λ b. b ≡ self.old) }
        ensures same { self.new ≡ self.old }
    {
        settle(alloc, &mut self.pieces, &mut self.tail)?;
        join(alloc, &mut self.pieces, self.len)?;
        match self.pieces.as_slice().first() {
            Some(whole) => whole.clone(),
            None => Ok(Bytes::new()),
        }
    }
}
