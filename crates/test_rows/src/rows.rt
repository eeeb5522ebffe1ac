//! Rows: a call on the left of an arrow, and on the right its expected result.
use crate::told::Told;

/// Makes the calls of rows.
pub trait Desk {
    /// Makes a call, and writes its result into `told`.
    fn tell(&mut self, call: &'static str, told: &mut Told);
}

/// The first row whose result is not the expected one, if there is one; its result is in `told`. A row that begins with
/// `#` says what those after it are about. One without an arrow expects `ok`.
pub fn first_wrong<D: Desk>(
    desk: &mut D,
    told: &mut Told,
    rows: &'static str,
) -> Option<&'static str> {
    for row in rows.lines() {
        let row = row.trim();
        if !row.is_empty() && !row.starts_with('#') && !is_told(desk, told, row) {
            return Some(row);
        }
    }
    None
}

fn is_told<D: Desk>(desk: &mut D, told: &mut Told, row: &'static str) -> bool {
    let (call, wanted) = row.split_once(" -> ").unwrap_or((row, "ok"));
    told.clear();
    desk.tell(call, told);
    told.is(wanted)
}

/// The call of a row, without its expected result.
pub fn asked_of(row: &'static str) -> &'static str {
    match row.split_once(" -> ") {
        Some((asked, _wanted)) => asked,
        None => row,
    }
}
