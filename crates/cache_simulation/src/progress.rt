//! The progress of a simulation.

use crate::simulation::Stop;
use crate::trace::{BadLine, beginning};
use std::io::Write;
use std::rt::Clock;
use std::time::Instant;

// How many bad lines are named.
const NAMED: u64 = 10;

/// What was read so far.
#[derive(Clone, Copy)]
pub(crate) struct Progress {
    start: Instant,
    /// The lines.
    pub(crate) lines: u64,
    bad: u64,
    passed: u64,
    length: Option<u64>,
}

impl Progress {
    /// The state before the first line, of a trace of so many bytes if that is known.
    pub(crate) fn start<C: Clock>(rt: &C, length: Option<u64>) -> Result<Progress, Stop> {
        Ok(Progress {
            start: Instant::now(rt).map_err(Stop::Io)?,
            lines: 0,
            bad: 0,
            passed: 0,
            length,
        })
    }

    /// Counts a line of another operation.
    pub(crate) fn passed(&mut self) {
        self.passed = self.passed.saturating_add(1);
    }

    /// Counts a line that is no request, and names the first of them. Returns whether more are bad than may be.
    pub(crate) fn bad_line<E: Write>(
        &mut self,
        why: BadLine,
        line: &[u8],
        most: u64,
        errors: &mut E,
    ) -> Result<bool, Stop> {
        self.bad = self.bad.saturating_add(1);
        if self.bad <= NAMED {
            say_line(self.lines, why.said(), line, errors)?;
        }
        Ok(self.bad > most)
    }

    /// Writes the progress after so many bytes were read.
    pub(crate) fn say<C: Clock, E: Write>(
        &self,
        rt: &C,
        bytes: u64,
        errors: &mut E,
    ) -> Result<(), Stop> {
        let millis = self.start.elapsed(rt).map_err(Stop::Io)?.as_millis();
        let rate = (self.lines as u128)
            .saturating_mul(1000)
            .checked_div(millis)
            .unwrap_or(0);
        let written = match self.left(bytes, millis) {
            Some(left) => writeln!(
                errors,
                "{} lines, {rate} a second, {left} seconds left",
                self.lines
            ),
            None => writeln!(errors, "{} lines, {rate} a second", self.lines),
        };
        written.map_err(Stop::Io)
    }

    // How many seconds it will still take, at the same speed.
    fn left(&self, bytes: u64, millis: u128) -> Option<u128> {
        let rest = self.length?.saturating_sub(bytes) as u128;
        Some(rest.saturating_mul(millis).checked_div(bytes as u128)? / 1000)
    }

    /// Writes at the end how many lines were bad or of other operations, if there were any.
    pub(crate) fn say_bad<E: Write>(&self, errors: &mut E) -> Result<(), Stop> {
        if self.passed > 0 {
            let Progress { passed, lines, .. } = *self;
            writeln!(
                errors,
                "{passed} of {lines} lines are other operations than get and gets"
            )
            .map_err(Stop::Io)?;
        }
        if self.bad == 0 {
            return Ok(());
        }
        writeln!(
            errors,
            "{} of {} lines are no requests",
            self.bad, self.lines
        )
        .map_err(Stop::Io)
    }
}

/// Writes what is to be said of a line, and how it begins.
pub(crate) fn say_line<E: Write>(
    number: u64,
    said: &str,
    line: &[u8],
    errors: &mut E,
) -> Result<(), Stop> {
    writeln!(errors, "line {number}: {said}: {:?}", beginning(line)).map_err(Stop::Io)
}
