//! Finds the end of a response's head as its bytes come.
ghost use Rattle.std.specs.Prelude.{◌≡◌, ◌≢◌, ℕ, ◌+◌, ◌≤◌, ◌<◌, ◌++◌, [], List, length, take, drop, IfSome, IfNone, IfOk};
ghost use Rattle.pcache_response.specs.HeadStates.{next, state_after, CutsAt};

use memchr::memchr;
use std::alloc::{AllocError, Global};
use std::marker::Model;

// The state of the search for the head's end, before the next byte.
#[derive(Clone, Copy, Debug, PartialEq, Eq)]
pub(crate) enum HeadState {
    // Among the empty lines before the head.
    Blank,
    // After the CR of such a line.
    BlankReturn,
    // Within a line.
    Inside,
    // At the start of a line after the first.
    LineStart,
    // After a CR at the start of a line after the first.
    LineReturn,
    // After the empty line that ends the head.
    Ended,
}

fn next(state: HeadState, byte: u8) -> HeadState
    ensures { result ≡ next state byte }
{
    match (state, byte) {
        (HeadState::Blank, b'\n') | (HeadState::BlankReturn, b'\n') => HeadState::Blank,
        (HeadState::Blank, b'\r') => HeadState::BlankReturn,
        (HeadState::Inside, b'\n') => HeadState::LineStart,
        (HeadState::LineStart, b'\n') | (HeadState::LineReturn, b'\n') | (HeadState::Ended, _) =>
            HeadState::Ended,
        (HeadState::LineStart, b'\r') => HeadState::LineReturn,
        _ => HeadState::Inside,
    }
}

// How many of the next bytes come before the end of their line, found by one search.
fn line_rest(bytes: &[u8]) -> usize
    ensures within { result ≤ length bytes.now }
    ensures stays { (k : ℕ)
        → k ≤ result
        → state_after HeadState.Inside (take k bytes.now) ≡ HeadState.Inside }
{
    match memchr(b'\n', bytes) {
        Some(end) => end,
        None => bytes.len(),
    }
}

// A number of next bytes that surely leave the state as it is.
fn passed(state: HeadState, bytes: &[u8]) -> usize
    ensures within { result ≤ length bytes.now }
    ensures stays { (k : ℕ) → k ≤ result → state_after state (take k bytes.now) ≡ state }
{
    match state {
        HeadState::Inside => line_rest(bytes),
        _ => 0,
    }
}

// How many of the next bytes still belong to the head, if it ends among them; otherwise the state
// advances past them.
fn cut(state: &mut HeadState, piece: &[u8]) -> Option<usize>
    requires { state.old ≢ HeadState.Ended }
    ensures found { IfSome result (λ n. CutsAt state.old piece.now n) }
    ensures none { IfNone result ((k : ℕ)
        → k ≤ length piece.now
        → state_after state.old (take k piece.now) ≢ HeadState.Ended) }
    ensures moved { IfNone result (state.new ≡ state_after state.old piece.now) }
{
    let mut at = 0;
    'bytes: while at < piece.len() {
        at += passed(*state, &piece[at..]);
        if at == piece.len() {
            return None;
        }
        *state = next(*state, piece[at]);
        at += 1;
        if let HeadState::Ended = *state {
            return Some(at);
        }
    }
    None
}

// The bytes of a head that has not ended, and the state after them.
#[derive(Drop)]
pub(crate) struct HeadBytes {
    bytes: Vec<u8>,
    state: HeadState,
}

impl Model for HeadBytes {
    ghost use Rattle.std.specs.Prelude.{◌≡◌, ℕ, List};
    ghost use Rattle.pcache_response.specs.HeadStates.{state_after, NeverCuts};
    ghost use Rattle.pcache_response.specs.declared.head_end.HeadState.TheVariants.{Blank};

    ghost Value = { List ℕ };

    ghost view = { λ h. h.bytes.items };

    ghost invariant = { λ h. (h.state ≡ state_after Blank h.bytes.items) × NeverCuts h.bytes.items };
}

// A head with one more piece.
#[derive(Drop)]
pub(crate) enum HeadPiece {
    // It has not ended.
    Open(HeadBytes),
    // It has ended: all its bytes, and how many bytes of the piece belong to it.
    Ended(Vec<u8>, usize),
}

impl HeadBytes {
    ghost use Rattle.pcache_response.specs.HeadPiece.{IsJoined};

    // No byte yet.
    pub(crate) fn new(alloc: Global) -> HeadBytes
        ensures { result ≡ [] }
    {
        HeadBytes {
            bytes: Vec::new(alloc),
            state: HeadState::Blank,
        }
    }

    // Adds a piece, of which only the bytes up to the head's end are kept.
    pub(crate) fn join(self, piece: &[u8]) -> Result<HeadPiece, AllocError>
        ensures ok { IfOk result (IsJoined self piece.now) }
    {
        let HeadBytes {
            mut bytes,
            mut state,
        } = self;
        match cut(&mut state, piece) {
            Some(used) => {
                bytes.extend_from_slice(&piece[..used])?;
                Ok(HeadPiece::Ended(bytes, used))
            }
            None => {
                bytes.extend_from_slice(piece)?;
                Ok(HeadPiece::Open(HeadBytes { bytes, state }))
            }
        }
    }
}
