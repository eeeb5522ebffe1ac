#![tactic(auto)]
//! Tests as rows of text: a call on the left of an arrow, and on the right its expected result.
//!
//! A row of text costs nothing to prove, and the functions after the calls are proved once for all rows. The functions
//! that write results have no `?`: `Told` takes each result, also an error, and if memory ran out no row has the
//! expected text.
//!
//! Only crates of tests use this crate. No function of it promises anything: a test compares the text
//! that was written.

mod keys;
mod rows;
mod spelled;
mod told;
mod words;

pub use keys::key_of;
use pcache_base::seed::Seed;
pub use rows::{Desk, asked_of, first_wrong};
pub use spelled::{unescape, unhex};
pub use told::Told;
pub use words::{number, rest, size, some_byte, some_number, some_size, word};

/// A seed that is not the fixed one.
pub fn other_seed() -> Seed {
    Seed::new(*b"not all are zero")
}
