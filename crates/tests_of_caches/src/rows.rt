//! Rows that are played as a test.
use std::alloc::Global;
use std::process::Abort;
use test_rows::{Desk, Told, first_wrong};

/// Plays the rows. One that begins with `#` says what those after it are about.
pub fn play<D: Desk>(rt: &impl Abort, alloc: Global, desk: &mut D, rows: &'static str) {
    let mut told = Told::new(alloc);
    if let Some(row) = first_wrong(desk, &mut told, rows) {
        let said = told.as_str();
        assert!(rt; false, "{row}, and not {said}");
    }
}
