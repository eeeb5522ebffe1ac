//! Rows that are played as a test.
use pcache_base::error::Result;
use std::alloc::Global;
use std::process::Abort;
use test_rows::first_wrong;
pub use test_rows::{
    Desk, Told, number, rest, size, some_byte, some_number, unescape, unhex, word,
};

/// Plays the rows. One that begins with `#` says what those after it are about.
pub fn play<D: Desk>(rt: &impl Abort, alloc: Global, desk: &mut D, rows: &'static str) {
    let mut told = Told::new(alloc);
    if let Some(row) = first_wrong(desk, &mut told, rows) {
        let said = told.as_str();
        assert!(rt; false, "{row}, and not {said}");
    }
}

/// Plays the rows at a desk that could be made.
pub fn play_at<D: Desk + Drop>(
    rt: &impl Abort,
    alloc: Global,
    desk: Result<D>,
    rows: &'static str,
) {
    match desk {
        Ok(mut desk) => play(rt, alloc, &mut desk, rows),
        Err(_refused) => assert!(rt; false),
    }
}
