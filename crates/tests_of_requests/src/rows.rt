//! Rows that are played as a test.
use std::alloc::Global;
use std::process::Abort;
pub use test_rows::{
    Desk, Told, asked_of, number, other_seed, size, some_byte, some_number, some_size, unescape,
    word,
};

/// Plays the rows. One that begins with `#` says what those after it are about.
pub fn play<D: Desk>(rt: &impl Abort, alloc: Global, desk: &mut D, rows: &'static str) {
    let mut told = Told::new(alloc);
    let mut number = 0u64;
    for row in rows.trim().lines() {
        number = number.saturating_add(1);
        let row = row.trim();
        if !row.starts_with('#') {
            play_row(rt, desk, number, row, &mut told);
        }
    }
}

// Makes the call of a row.
fn play_row<D: Desk>(
    rt: &impl Abort,
    desk: &mut D,
    number: u64,
    row: &'static str,
    told: &mut Told,
) {
    told.clear();
    desk.tell(asked_of(row), told);
    compare(rt, number, row, told);
}

/// Fails the test unless a row was told as it has to be. One without an arrow expects `ok`.
pub fn compare(rt: &impl Abort, number: u64, row: &'static str, told: &Told) {
    let (_call, wanted) = row.split_once(" -> ").unwrap_or((row, "ok"));
    let said = told.as_str();
    assert!(rt; told.is(wanted), "line {number}, {row}: told {said}");
}
