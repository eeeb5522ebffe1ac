#![tactic(auto)]
//! A response that comes in pieces, and the limit on its body.
//!
//! - `response_parse`: the head and the body, however the bytes are split into pieces
//! - `head_end`: where the head ends; `head`: reading it
//! - `piece`: a piece, of which parts are shared or copied
//! - `max_file_size`: a count of body bytes with a limit

mod head;
mod head_end;
pub mod max_file_size;
mod piece;
pub mod response_parse;
