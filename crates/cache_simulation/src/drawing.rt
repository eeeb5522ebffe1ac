//! A drawing of the ratios of misses.

use crate::report::Row;
use std::io;
use std::io::Write;

// Where the axes meet, and how long they are.
const LEFT: u128 = 60;

const BOTTOM: u128 = 340;

const WIDTH: u128 = 540;

const HEIGHT: u128 = 320;

const COLOURS: [&str; 7] = [
    "#1b6ca8", "#c0392b", "#27864d", "#8e44ad", "#b7791f", "#4a5568", "#d53f8c",
];

/// Draws the ratio of misses by size as SVG, with a line for each policy. The axis of the sizes is logarithmic. The rows are those
/// of one policy after the other, each of so many sizes.
pub fn draw<W: Write>(out: &mut W, rows: &[Row], sizes: usize) -> io::Result<()> {
    writeln!(
        out,
        "<svg xmlns=\"http://www.w3.org/2000/svg\" viewBox=\"0 0 700 400\" font-family=\"sans-serif\" font-size=\"12\">"
    )?;
    writeln!(
        out,
        "<path d=\"M60 20V340H600\" fill=\"none\" stroke=\"black\"/><text x=\"10\" y=\"24\">100%</text><text x=\"25\" y=\"344\">0%</text><text x=\"10\" y=\"184\">misses</text>"
    )?;
    let axis = Axis::of(rows);
    for (policy, rows) in rows.chunks(sizes.max(1)).enumerate() {
        draw_policy(out, axis, policy, rows)?;
    }
    writeln!(out, "</svg>")
}

// The logarithms of the least and of the largest size.
#[derive(Clone, Copy)]
struct Axis {
    least: u128,
    largest: u128,
}

impl Axis {
    fn of(rows: &[Row]) -> Axis {
        let least = rows.iter().map(|row| row.size).min().unwrap_or(0);
        let largest = rows.iter().map(|row| row.size).max().unwrap_or(0);
        Axis {
            least: log2(least),
            largest: log2(largest),
        }
    }

    // Where a size is, from the left.
    fn place(self, size: usize) -> u128 {
        let part = log2(size).saturating_sub(self.least);
        let whole = self.largest.saturating_sub(self.least);
        let from = WIDTH
            .saturating_mul(part)
            .saturating_add(whole / 2)
            .checked_div(whole)
            .unwrap_or(0);
        LEFT.saturating_add(from)
    }
}

// One, of which a logarithm is taken.
const ONE: u128 = 1 << 60;

// The logarithm of a number to the base of 2, in 1024ths, rounded down; 0 of 0. Its bits come one after the other: the logarithm of
// a square is twice as large.
fn log2(number: usize) -> u128 {
    let mut rest = (number.max(1) as u128).saturating_mul(ONE);
    let mut log = 0u128;
    for _ in 0..64 {
        if rest < 2 * ONE {
            break;
        }
        rest /= 2;
        log = log.saturating_add(1024);
    }
    for bit in [512, 256, 128, 64, 32, 16, 8, 4, 2, 1] {
        rest = rest.saturating_mul(rest) / ONE;
        if rest >= 2 * ONE {
            rest /= 2;
            log = log.saturating_add(bit);
        }
    }
    log
}

// How far from the top the misses of a row are.
fn height(row: &Row) -> u128 {
    BOTTOM - HEIGHT + row.hit_ratio().min(10_000) * HEIGHT / 10_000
}

fn draw_policy<W: Write>(out: &mut W, axis: Axis, policy: usize, rows: &[Row]) -> io::Result<()> {
    let colour = COLOURS[policy % 7];
    for row in rows {
        draw_point(out, axis, colour, row)?;
        if let Some(next) = next_larger(rows, row.size) {
            draw_line(out, axis, colour, row, next)?;
        }
        if policy == 0 {
            draw_size(out, axis, row.size)?;
        }
    }
    let Some(row) = rows.first() else {
        return Ok(());
    };
    writeln!(
        out,
        "<text x=\"620\" y=\"{}\" fill=\"{colour}\">{}</text>",
        40 + (policy as u128 % 16) * 16,
        row.told.policy.name()
    )
}

// The row of the next larger size.
fn next_larger(rows: &[Row], size: usize) -> Option<&Row> {
    rows.iter()
        .filter(|row| row.size > size)
        .min_by_key(|row| row.size)
}

fn draw_point<W: Write>(out: &mut W, axis: Axis, colour: &str, row: &Row) -> io::Result<()> {
    writeln!(
        out,
        "<circle cx=\"{}\" cy=\"{}\" r=\"3\" fill=\"{colour}\"><title>{} {}</title></circle>",
        axis.place(row.size),
        height(row),
        row.told.policy.name(),
        row.size
    )
}

fn draw_line<W: Write>(
    out: &mut W,
    axis: Axis,
    colour: &str,
    from: &Row,
    to: &Row,
) -> io::Result<()> {
    writeln!(
        out,
        "<path d=\"M{} {}L{} {}\" stroke=\"{colour}\"/>",
        axis.place(from.size),
        height(from),
        axis.place(to.size),
        height(to)
    )
}

fn draw_size<W: Write>(out: &mut W, axis: Axis, size: usize) -> io::Result<()> {
    let place = axis.place(size);
    writeln!(
        out,
        "<text x=\"{place}\" y=\"356\" transform=\"rotate(20 {place} 356)\">{size}</text>"
    )
}
