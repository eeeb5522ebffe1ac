//! Tables with aligned columns.

use std::io::Write;
use std::{io, str};

// How many columns can be aligned.
const COLUMNS: usize = 16;

/// Writes lines whose cells have tabs between them, with the cells of a column below each other: the first
/// column begins at the left, and each other one ends at the right.
pub fn write_aligned<W: Write>(out: &mut W, lines: &[u8]) -> io::Result<()> {
    let Ok(text) = str::from_utf8(lines) else {
        return out.write_all(lines);
    };
    let widths = widths(text);
    for line in text.lines() {
        write_line(out, line, &widths)?;
    }
    Ok(())
}

// The longest cell of each column.
fn widths(text: &str) -> [usize; COLUMNS] {
    let mut widths = [0; COLUMNS];
    for line in text.lines() {
        for (column, cell) in line.split('\t').enumerate() {
            if let Some(width) = widths.get_mut(column) {
                *width = (*width).max(cell.len());
            }
        }
    }
    widths
}

fn write_line<W: Write>(out: &mut W, line: &str, widths: &[usize; COLUMNS]) -> io::Result<()> {
    for (column, cell) in line.split('\t').enumerate() {
        let width = widths.get(column).copied().unwrap_or(0);
        if column == 0 {
            write!(out, "{cell}")?;
            write_spaces(out, width.saturating_sub(cell.len()))?;
        } else {
            write_spaces(out, width.saturating_sub(cell.len()).saturating_add(2))?;
            write!(out, "{cell}")?;
        }
    }
    writeln!(out)
}

fn write_spaces<W: Write>(out: &mut W, count: usize) -> io::Result<()> {
    for _ in 0..count {
        write!(out, " ")?;
    }
    Ok(())
}
