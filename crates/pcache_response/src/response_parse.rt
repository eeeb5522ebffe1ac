//! A response that comes in pieces.
ghost use Rattle.std.specs.Prelude.{◌≡◌, ◌⊎◌, ℕ, ◌<◌, ◌≤◌, ◌^◌, List, [], ◌∷◌, ◌++◌, length, drop, IsOk, IfOk, IfErr, OnOk, OnErr, Option, Ok, Err, IfNone, IfSome, None, Some};
ghost use Rattle.pcache_response.specs.Head.{ReadsHeader};
ghost use Rattle.pcache_response.specs.Response.{SpellsLength, HasSize, is_whole, IsUnreadable, IsComplete};
ghost use Rattle.pcache_meta.specs.declared.header.ResponseHeader.{ResponseHeader};
ghost use Rattle.pcache_base.specs.declared.error.ErrorType.{ErrorType};
ghost use Rattle.pcache_base.specs.declared.error.ErrorType.TheVariants.{OutOfMemory, InvalidHttpHeader, IncompleteHttpBody};
ghost use Rattle.pcache_response.specs.Parts.{Given, nothing, add_all, left_behind, is_missing, body_of, body_parts, parts_of};
ghost use Rattle.pcache_response.specs.Progress.{Parsed, AtHead, AtBody, AtEnd, HasFailed, parsed_of, TakenIn, GivesParts};

use crate::head::read_header;
use crate::head_end::{HeadBytes, HeadPiece};
use crate::piece::Piece;
use bytes::Bytes;
use http_header::CONTENT_LENGTH;
use pcache_base::error::{Error, ErrorType, Result};
use pcache_meta::header::ResponseHeader;
use std::alloc::{AllocError, Global};
use std::marker::Model;
use std::mem;

/// The kind of error of a response that ends before its head or its body does.
pub const INCOMPLETE_BODY: ErrorType = ErrorType::IncompleteHttpBody;

/// A part of a response.
#[derive(Drop)]
pub enum ParsePart {
    /// The head, and whether the response is whole with it.
    Head(ResponseHeader, bool),
    /// Bytes of the body, at least one, and whether the response is whole with them.
    Body(Bytes, bool),
}

// A struct and no list: a piece brings each at most once, and so takes no list from memory.
/// What a piece brings of a response, each part with whether the response is whole with it.
#[derive(Drop)]
pub struct PieceParts {
    /// The head, if it ends in the piece.
    pub head: Option<(ResponseHeader, bool)>,
    /// Bytes of the body, at least one, if the piece has any.
    pub body: Option<(Bytes, bool)>,
}

/// How far a parser has come.
#[derive(Drop)]
pub(crate) enum Progress {
    // The head has not ended.
    Head(HeadBytes),
    // The head was given, and so many bytes of the body are still missing; `None` if the body lasts
    // to the end.
    Body(Option<usize>),
    // The response has ended.
    Finished,
    // A call failed with this kind.
    Failed(ErrorType),
}

/// The length that the value of a Content-Length spells: digits, perhaps after a plus, whose number fits
/// a `usize`.
pub fn spelled_length(value: &[u8]) -> Option<usize>
    ensures { SpellsLength value.now result }
{
    let Ok(text) = std::str::from_utf8(value) else {
        return None;
    };
    text.parse().ok()
}

// How many bytes the body has; `None` if it lasts to the end.
fn body_size(head: &ResponseHeader) -> Option<usize>
    ensures { HasSize head.now result }
{
    if let 204 | 304 = head.status.as_u16() {
        return Some(0);
    }
    match head.headers.get(CONTENT_LENGTH) {
        Some(value) => spelled_length(value.as_bytes()),
        None => None,
    }
}

// Reads a head that has ended, and returns it with whether the response is whole with it, and how many bytes the body has.
fn read_head(alloc: Global, bytes: Vec<u8>) -> Result<((ResponseHeader, bool), Option<usize>)>
    ensures reads { IfOk result (λ r. ReadsHeader bytes.items r.0.0) }
    ensures size { IfOk result (λ r. HasSize r.0.0 r.1) }
    ensures whole { IfOk result (λ r. r.0.1 ≡ is_whole r.1 []) }
    ensures invalid { IfErr result (λ e.
        e ≡ InvalidHttpHeader → (head : ResponseHeader) → ¬ (ReadsHeader bytes.items head)) }
    ensures kind { IfErr result (λ e. (e ≡ OutOfMemory) ⊎ (e ≡ InvalidHttpHeader)) }
{
    let head = read_header(alloc, bytes)?;
    let size = body_size(&head);
    Ok(((head, size == Some(0)), size))
}

// The body's part of what is behind a piece's first bytes, if there is one, and how many bytes of the body are missing after it.
fn read_body(
    alloc: Global,
    left: Option<usize>,
    piece: &Piece<'_>,
    used: usize,
) -> Result<(Option<(Bytes, bool)>, Option<usize>), AllocError>
    requires { used ≤ length piece.now }
    ensures left { IfOk result (λ r.
        r.1 ≡ left_behind left (length (drop used piece.now))) }
    ensures part { IfOk result (λ r. body_of r.0 ≡ body_parts left (drop used piece.now)) }
    ensures whole { left ≡ Some 0 → IsOk result }
{
    let bytes = piece.rest(used);
    let count = match left {
        Some(left) => left.min(bytes.len()),
        None => bytes.len(),
    };
    let after = match left {
        Some(left) => Some(left - count),
        None => None,
    };
    if count == 0 {
        return Ok((None, after));
    }
    let body = piece.part(alloc, used, count)?;
    Ok((Some((body, after == Some(0))), after))
}

// Takes in a piece while the head has not ended.
fn take_head(alloc: Global, head: HeadBytes, piece: &Piece<'_>) -> Result<(Progress, PieceParts)>
    ensures joined { IfOk result (λ r.
        TakenIn (parsed_of r.0) (head ++ piece.now) (add_all nothing (parts_of r.1))) }
    ensures gives { IfOk result (λ r. GivesParts (AtHead head) piece.now (parts_of r.1)) }
    ensures invalid { IfErr result (λ e. e ≡ InvalidHttpHeader → IsUnreadable (head ++ piece.now)) }
    ensures kind { IfErr result (λ e. (e ≡ OutOfMemory) ⊎ (e ≡ InvalidHttpHeader)) }
{
    match head.join(piece.as_slice())? {
        HeadPiece::Open(head) => Ok((Progress::Head(head), no_parts())),
        HeadPiece::Ended(head, used) => {
            let (head, size) = read_head(alloc, head)?;
            let (body, left) = read_body(alloc, size, piece, used)?;
            let parts = PieceParts {
                head: Some(head),
                body,
            };
            Ok((Progress::Body(left), parts))
        }
    }
}

// What a piece brings that brings nothing.
fn no_parts() -> PieceParts
    ensures { result ≡ record { head = None; body = None } }
{
    PieceParts {
        head: None,
        body: None,
    }
}

// Takes in a piece.
fn take_in(alloc: Global, progress: Progress, piece: &Piece<'_>) -> Result<(Progress, PieceParts)>
    ensures joined { IfOk result (λ r. (bytes : List ℕ) (g : Given)
        → TakenIn (parsed_of progress) bytes g
        → TakenIn (parsed_of r.0) (bytes ++ piece.now) (add_all g (parts_of r.1))) }
    ensures gives { IfOk result (λ r. GivesParts (parsed_of progress) piece.now (parts_of r.1)) }
    ensures finished { parsed_of progress ≡ AtEnd
        → IfOk result (λ r. r.0 ≡ Progress.Finished) × IsOk result }
    ensures whole { parsed_of progress ≡ AtBody (Some 0) → IsOk result }
    ensures failed { (kind : ErrorType) → parsed_of progress ≡ HasFailed kind → result ≡ Err kind }
    ensures invalid { IfErr result (λ e. e ≡ InvalidHttpHeader
        → (bytes : List ℕ) (g : Given)
        → TakenIn (parsed_of progress) bytes g
        → IsUnreadable (bytes ++ piece.now)) }
    ensures kind { IfErr result (λ e.
        (e ≡ OutOfMemory) ⊎ (e ≡ InvalidHttpHeader) ⊎ (parsed_of progress ≡ HasFailed e)) }
{
    match progress {
        Progress::Head(head) => take_head(alloc, head, piece),
        Progress::Body(left) => {
            let (body, left) = read_body(alloc, left, piece, 0)?;
            let parts = PieceParts { head: None, body };
            Ok((Progress::Body(left), parts))
        }
        Progress::Finished => Ok((Progress::Finished, no_parts())),
        Progress::Failed(kind) => Err(Error::new(kind)),
    }
}

// The parts in a list.
fn listed(alloc: Global, parts: PieceParts) -> Result<Vec<ParsePart>, AllocError>
    ensures ok { IfOk result (λ list. list.items ≡ parts_of parts) }
    ensures none { parts_of parts ≡ [] → IsOk result }
{
    let PieceParts { head, body } = parts;
    let mut list = Vec::new(alloc);
    if let Some((head, is_whole)) = head {
        list.push(ParsePart::Head(head, is_whole))?;
    }
    if let Some((bytes, is_whole)) = body {
        list.push(ParsePart::Body(bytes, is_whole))?;
    }
    Ok(list)
}

// Whether bytes of the body are still missing.
fn is_missing(left: Option<usize>) -> bool
    ensures { result ≡ is_missing left }
{
    matches!(left, Some(count) if count > 0)
}

// The reason why a response may not end in this state; `None` if it may.
fn missing(progress: &Progress) -> Option<ErrorType>
    ensures complete { IfNone result ((bytes : List ℕ) (g : Given)
        → TakenIn (parsed_of progress.now) bytes g
        → IsComplete bytes) }
    ensures early { IfSome result (λ e. e ≡ IncompleteHttpBody
        → (bytes : List ℕ) (g : Given)
        → TakenIn (parsed_of progress.now) bytes g
        → ¬ (IsComplete bytes)) }
    ensures kind { IfSome result (λ e.
        (e ≡ IncompleteHttpBody) ⊎ (parsed_of progress.now ≡ HasFailed e)) }
    ensures finished { parsed_of progress.now ≡ AtEnd → result ≡ None }
    ensures failed { (kind : ErrorType)
        → parsed_of progress.now ≡ HasFailed kind
        → result ≡ Some kind }
{
    match progress {
        Progress::Head(_) => Some(INCOMPLETE_BODY),
        Progress::Body(left) => {
            if is_missing(*left) {
                Some(INCOMPLETE_BODY)
            } else {
                None
            }
        }
        Progress::Finished => None,
        Progress::Failed(kind) => Some(*kind),
    }
}

/// Two parsers that took in the same bytes, split in whatever way, have given the same and are in the same
/// state, and the head of these bytes can be read if it has ended. A law; the call does nothing.
pub fn same_however_cut()
    ensures given { (p q : Parsed) (bytes : List ℕ) (g h : Given)
        → TakenIn p bytes g
        → TakenIn q bytes h
        → (p ≡ q) × (g ≡ h) }
    ensures readable { (p : Parsed) (bytes : List ℕ) (g : Given)
        → TakenIn p bytes g
        → ¬ (IsUnreadable bytes) }
{}

/// Reads a response whose bytes come in pieces of any size.
///
/// The head: empty lines before it are skipped; it ends with the first empty line after its first line
/// (lines end with LF or CR LF), and is read only then, as RFC 9112 says, with at most 256 fields. The
/// body: none for status 204 or 304; as many bytes as the first Content-Length says, if it can be read,
/// and further bytes are ignored; otherwise all bytes to the end. Only the bytes of a head that has not
/// ended are kept.
///
/// A contract sees the parser's state. After a failure every later call fails with the same kind.
#[derive(Drop)]
pub struct ResponseParse {
    progress: Progress,
    alloc: Global,
}

impl Model for ResponseParse {
    ghost use Rattle.pcache_response.specs.Progress.{Parsed, parsed_of};

    ghost Value = { Parsed };

    ghost view = { λ p. parsed_of p.progress };
}

impl ResponseParse {
    /// A parser that has taken in no byte.
    pub fn new(alloc: Global) -> ResponseParse
        ensures start { TakenIn result [] nothing }
        ensures empty { result ≡ AtHead [] }
    {
        ResponseParse {
            progress: Progress::Head(HeadBytes::new(alloc)),
            alloc,
        }
    }

    // Takes in a piece, which is lent or can be shared.
    fn take(&mut self, piece: &Piece<'_>) -> Result<PieceParts>
        ensures joined { IfOk result (λ parts. (bytes : List ℕ) (g : Given)
            → TakenIn self.old bytes g
            → TakenIn self.new (bytes ++ piece.now) (add_all g (parts_of parts))) }
        ensures gives { IfOk result (λ parts. GivesParts self.old piece.now (parts_of parts)) }
        ensures invalid { IfErr result (λ e. e ≡ InvalidHttpHeader
            → (bytes : List ℕ) (g : Given)
            → TakenIn self.old bytes g
            → IsUnreadable (bytes ++ piece.now)) }
        ensures kind { IfErr result (λ e.
            (e ≡ OutOfMemory) ⊎ (e ≡ InvalidHttpHeader) ⊎ (self.old ≡ HasFailed e)) }
        ensures finished { self.old ≡ AtEnd → IsOk result × (self.new ≡ AtEnd) }
        ensures whole { self.old ≡ AtBody (Some 0) → IsOk result }
        ensures failed { (kind : ErrorType) → self.old ≡ HasFailed kind → result ≡ Err kind }
        ensures fails { IfErr result (λ e. self.new ≡ HasFailed e) }
    {
        let progress = mem::replace(&mut self.progress, Progress::Finished);
        match take_in(self.alloc, progress, piece) {
            Ok((progress, parts)) => {
                self.progress = progress;
                Ok(parts)
            }
            Err(e) => {
                self.progress = Progress::Failed(e.etype());
                Err(e)
            }
        }
    }

    /// Takes in the next piece, and returns the parts that it brings. The parts of all pieces together are
    /// what the bytes of all pieces say together, however they were split.
    ///
    /// The part of the body shares the piece's bytes, so what keeps it keeps the piece. It is a copy where the
    /// piece's other bytes are more than an eighth of it. The bytes of a head that has not ended are copied.
    ///
    /// Fails when memory runs out, and if the head has ended and can't be read.
    pub fn take_piece(&mut self, piece: &Bytes) -> Result<PieceParts>
        ensures joined { IfOk result (λ parts. (bytes : List ℕ) (g : Given)
            → TakenIn self.old bytes g
            → TakenIn self.new (bytes ++ piece.now) (add_all g (parts_of parts))) }
        ensures gives { IfOk result (λ parts. GivesParts self.old piece.now (parts_of parts)) }
        ensures invalid { IfErr result (λ e. e ≡ InvalidHttpHeader
            → (bytes : List ℕ) (g : Given)
            → TakenIn self.old bytes g
            → IsUnreadable (bytes ++ piece.now)) }
        ensures kind { IfErr result (λ e.
            (e ≡ OutOfMemory) ⊎ (e ≡ InvalidHttpHeader) ⊎ (self.old ≡ HasFailed e)) }

        // After the end, and after a whole body, pieces are ignored. After a failure each fails with the same
        // kind.
        ensures finished { self.old ≡ AtEnd → IsOk result × (self.new ≡ AtEnd) }
        ensures whole { self.old ≡ AtBody (Some 0) → IsOk result }
        ensures failed { (kind : ErrorType) → self.old ≡ HasFailed kind → result ≡ Err kind }
        ensures fails { IfErr result (λ e. self.new ≡ HasFailed e) }
    {
        self.take(&Piece::shared(piece))
    }

    /// The same as `take_piece`, with the parts in a list. The piece is lent, so the part of the body is a copy.
    pub fn inject_data(&mut self, piece: &[u8]) -> Result<Vec<ParsePart>>
        ensures joined { IfOk result (λ parts. (bytes : List ℕ) (g : Given)
            → TakenIn self.old bytes g
            → TakenIn self.new (bytes ++ piece.now) (add_all g parts.items)) }
        ensures gives { IfOk result (λ parts. GivesParts self.old piece.now parts.items) }
        ensures invalid { IfErr result (λ e. e ≡ InvalidHttpHeader
            → (bytes : List ℕ) (g : Given)
            → TakenIn self.old bytes g
            → IsUnreadable (bytes ++ piece.now)) }
        ensures kind { IfErr result (λ e.
            (e ≡ OutOfMemory) ⊎ (e ≡ InvalidHttpHeader) ⊎ (self.old ≡ HasFailed e)) }
        ensures finished { self.old ≡ AtEnd → IsOk result × (self.new ≡ AtEnd) }
        ensures whole { self.old ≡ AtBody (Some 0) → IsOk result }
        ensures failed { (kind : ErrorType) → self.old ≡ HasFailed kind → result ≡ Err kind }
        ensures fails { IfErr result (λ e. self.new ≡ HasFailed e) }
    {
        let parts = self.take(&Piece::lent(piece))?;
        let list = listed(self.alloc, parts);
        if let Err(AllocError) = &list {
            self.progress = Progress::Failed(ErrorType::OutOfMemory);
        }
        Ok(list?)
    }

    /// Ends the response: no more pieces come. Fails if the head has not ended, or if bytes of a
    /// body with a length are missing. Takes no memory.
    pub fn finish(&mut self) -> Result<()>
        ensures complete { OnOk result ((bytes : List ℕ) (g : Given)
            → TakenIn self.old bytes g
            → IsComplete bytes) }
        ensures early { IfErr result (λ e. e ≡ IncompleteHttpBody
            → (bytes : List ℕ) (g : Given)
            → TakenIn self.old bytes g
            → ¬ (IsComplete bytes)) }
        ensures kind { IfErr result (λ e. (e ≡ IncompleteHttpBody) ⊎ (self.old ≡ HasFailed e)) }
        ensures finished { OnOk result (self.new ≡ AtEnd) }
        ensures again { self.old ≡ AtEnd → IsOk result }
        ensures failed { (kind : ErrorType) → self.old ≡ HasFailed kind → result ≡ Err kind }
        ensures fails { IfErr result (λ e. self.new ≡ HasFailed e) }
    {
        let Some(kind) = missing(&self.progress) else {
            self.progress = Progress::Finished;
            return Ok(());
        };
        self.progress = Progress::Failed(kind);
        Err(Error::new(kind))
    }
}
