//! Writing the replies of a script.

use pcache_base::error::ErrorType;
use pcache_lock::lock::LockWaitOutcome;
use pcache_world::world::Totals;
use pcache_world::world::call::{LockKind, Reply};
use std::io;
use std::io::Write;

/// Writes a reply as a line.
pub fn write_reply<W: Write>(output: &mut W, reply: &Reply) -> io::Result<()> {
    match reply {
        Reply::WrongCall => writeln!(output, "wrong call"),
        Reply::Refused(kind) => {
            let number = error_number(*kind);
            writeln!(output, "refused E{number}")
        }
        Reply::Done | Reply::Loaded(_) => writeln!(output, "ok"),
        Reply::Hit(weight) => writeln!(output, "hit {weight}"),
        Reply::Part => writeln!(output, "part"),
        Reply::NotFound(lock) => write_with_lock(output, "none", *lock),
        Reply::Taken(phase, lock) => write_with_lock(output, phase.as_str(), *lock),
        Reply::Stored { size, evicted } => writeln!(output, "stored {size} evicted {evicted}"),
        Reply::Nothing => writeln!(output, "nothing"),
        Reply::NotCached(reason) => writeln!(output, "no cache {}", reason.as_str()),
        Reply::Data(bytes) => {
            write!(output, "data ")?;
            write_text(output, bytes.as_slice())?;
            writeln!(output)
        }
        Reply::Pending => writeln!(output, "pending"),
        Reply::Finished => writeln!(output, "end"),
        Reply::Purged => writeln!(output, "purged"),
        Reply::Expired => writeln!(output, "expired"),
        Reply::Absent => writeln!(output, "absent"),
        Reply::Same => writeln!(output, "same"),
        Reply::Other => writeln!(output, "other"),
        Reply::Updated => writeln!(output, "updated"),
        Reply::NotUpdated => writeln!(output, "not updated"),
        Reply::Waiting => writeln!(output, "pending"),
        Reply::Waited(outcome) => write_outcome(output, *outcome),
        Reply::Phase(phase) => writeln!(output, "{}", phase.as_str()),
    }
}

/// Writes the counts of the store and the manager as a line.
pub fn write_stat<W: Write>(
    output: &mut W,
    stored: u128,
    slots: usize,
    totals: Totals,
) -> io::Result<()> {
    let weight = totals.weight;
    let items = totals.items;
    let evicted = totals.evicted_items;
    let size = totals.evicted_weight;
    writeln!(
        output,
        "stored {stored} slots {slots} weight {weight} items {items} evicted {evicted} size {size}"
    )
}

fn write_with_lock<W: Write>(output: &mut W, word: &str, lock: Option<LockKind>) -> io::Result<()> {
    match lock {
        None => writeln!(output, "{word}"),
        Some(LockKind::Write) => writeln!(output, "{word} write"),
        Some(LockKind::Read) => writeln!(output, "{word} read"),
    }
}

// How a wait ended.
fn write_outcome<W: Write>(output: &mut W, outcome: LockWaitOutcome) -> io::Result<()> {
    match outcome {
        LockWaitOutcome::Done => writeln!(output, "done"),
        LockWaitOutcome::TransientError => writeln!(output, "transient_error"),
        LockWaitOutcome::Dangling => writeln!(output, "dangling"),
        LockWaitOutcome::WaitTimeout => writeln!(output, "wait_timeout"),
        LockWaitOutcome::AgeTimeout => writeln!(output, "age_timeout"),
        LockWaitOutcome::GiveUp => writeln!(output, "give_up"),
        LockWaitOutcome::Abandoned { reason: _, token } => writeln!(output, "abandoned {token}"),
    }
}

// The number by which scripts name an error.
fn error_number(kind: ErrorType) -> u8 {
    match kind {
        ErrorType::OutOfMemory => 1,
        ErrorType::InternalError => 2,
        ErrorType::InvalidHttpHeader => 3,
        ErrorType::ResponseTooLarge => 4,
        ErrorType::IncompleteHttpBody => 5,
        ErrorType::WriteRemoved => 6,
        ErrorType::NumbersExhausted => 7,
        ErrorType::Io => 8,
        ErrorType::Superseded => 9,
    }
}

/// Bytes as a word, so that reading the word gives them back.
pub(crate) fn write_text<W: Write>(output: &mut W, bytes: &[u8]) -> io::Result<()> {
    if bytes.is_empty() {
        return write!(output, "\\e");
    }
    for byte in bytes {
        match byte {
            b' ' => write!(output, "\\s")?,
            b'\r' => write!(output, "\\r")?,
            b'\n' => write!(output, "\\n")?,
            b'\\' => write!(output, "\\\\")?,
            0x21..=0x7e => output.write_all(&[*byte])?,
            _ => write!(output, "\\x{byte:02x}")?,
        }
    }
    Ok(())
}
