//! How the lines of a trace are read: by the type and the columns that were given, or what its beginning says.

use crate::trace::{Asked, BadLine, Columns, RECORD, TraceType, read_cdn, read_line, read_twitter};
use std::str;

/// What the first line of a trace is.
#[derive(Clone, Copy, Debug, PartialEq, Eq)]
pub enum First {
    /// A line like the others.
    Line,
    /// A header, whose names are those of the columns.
    Header,
    /// A header with other names; what the columns are was given.
    Passed,
}

/// Why a trace is not read after its first line.
#[derive(Clone, Copy, Debug, PartialEq, Eq)]
pub enum Refused {
    /// It is a header that does not name a column `key` and a column `size`, each once, and the columns are not given.
    NoNames,
    /// It is a header that names the columns in another way than they are given.
    OtherNames,
    /// The trace is packed, as this program unpacks it.
    Packed(&'static str),
}

/// How the lines of a trace are read.
#[derive(Clone, Copy, Debug)]
pub struct Layout {
    trace_type: TraceType,
    is_given: bool,
    columns: Columns,
    // Whether the type is still to be guessed.
    is_open: bool,
}

impl Layout {
    /// A trace of this type, whose lines with commas have these columns. If neither is given, its beginning says
    /// which type it has; without columns they are those that a header names, or `time,key,size`.
    pub fn new(trace_type: Option<TraceType>, columns: Option<Columns>) -> Layout {
        Layout {
            trace_type: trace_type.unwrap_or(TraceType::Csv),
            is_given: columns.is_some(),
            columns: columns.unwrap_or(Columns::USUAL),
            is_open: trace_type.is_none() && columns.is_none(),
        }
    }

    /// Takes the first bytes of a trace. One with a zero byte among the first 24 is no text, and so it has records.
    pub fn begin(&mut self, bytes: &[u8]) -> Result<(), Refused> {
        if let Some(program) = packed(bytes) {
            return Err(Refused::Packed(program));
        }
        if self.is_open && bytes.iter().take(RECORD).any(|byte| *byte == 0) {
            self.trace_type = TraceType::OracleGeneral;
        }
        Ok(())
    }

    /// Whether the trace has records in place of lines.
    pub fn has_records(&self) -> bool {
        matches!(self.trace_type, TraceType::OracleGeneral)
    }

    /// Takes the first line of a trace. It is a header if it is no request, and has commas and no field that begins with a digit.
    pub fn first(&mut self, line: &[u8]) -> Result<First, Refused> {
        let Ok(text) = str::from_utf8(line) else {
            return Ok(First::Line);
        };
        if self.is_open {
            self.trace_type = guessed(text);
        }
        if matches!(self.trace_type, TraceType::Csv)
            && read_line(text, self.columns).is_err()
            && is_header(text)
        {
            return self.named(Columns::read(text));
        }
        Ok(First::Line)
    }

    fn named(&mut self, names: Option<Columns>) -> Result<First, Refused> {
        match names {
            Some(columns) if self.is_given && columns != self.columns => Err(Refused::OtherNames),
            Some(columns) => {
                self.columns = columns;
                Ok(First::Header)
            }
            None if self.is_given => Ok(First::Passed),
            // Not guessed: sizes that are read as keys give a table like any other.
            None => Err(Refused::NoNames),
        }
    }

    /// Reads a line. There is no request in it if it is another operation than one that asks for a body.
    pub fn read<'a>(&self, line: &'a [u8]) -> Result<Option<Asked<'a>>, BadLine> {
        let Ok(text) = str::from_utf8(line) else {
            return Err(BadLine::NotText);
        };
        match self.trace_type {
            TraceType::Cdn => Ok(Some(read_cdn(text)?)),
            TraceType::Twitter => read_twitter(text),
            _ => Ok(Some(read_line(text, self.columns)?)),
        }
    }
}

// The type that a first line surely has, and lines of columns if none is sure.
fn guessed(line: &str) -> TraceType {
    if is_cdn(line) {
        TraceType::Cdn
    } else if is_twitter(line) {
        TraceType::Twitter
    } else {
        TraceType::Csv
    }
}

// Three words, of which the first is a time and the last a size.
fn is_cdn(line: &str) -> bool {
    !line.contains(',') && line.split_ascii_whitespace().count() == 3 && read_cdn(line).is_ok()
}

// The seven fields, of which the sixth is an operation.
fn is_twitter(line: &str) -> bool {
    let operation = line.split(',').nth(5).unwrap_or("").trim();
    OPERATIONS.contains(&operation) && read_twitter(line).is_ok()
}

const OPERATIONS: [&str; 11] = [
    "get", "gets", "set", "add", "replace", "cas", "append", "prepend", "delete", "incr", "decr",
];

fn is_header(line: &str) -> bool {
    // No other first line is a header, so that a bad first line is a bad line.
    line.contains(',') && !line.split(',').any(begins_with_digit)
}

fn begins_with_digit(field: &str) -> bool {
    match field.trim().as_bytes().first() {
        Some(byte) => byte.is_ascii_digit(),
        None => false,
    }
}

// The program that unpacks a file of these first bytes.
fn packed(line: &[u8]) -> Option<&'static str> {
    if line.starts_with(&[0x1f, 0x8b, 8]) {
        return Some("zcat");
    }
    if line.starts_with(&[0x28, 0xb5, 0x2f, 0xfd]) {
        return Some("zstdcat");
    }
    None
}
