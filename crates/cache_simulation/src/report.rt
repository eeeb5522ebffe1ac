//! Tables, and rows for plots.

use crate::cache::Told;
use crate::counts::Counts;
use crate::options::{Options, Output, Setting};
use crate::sample::{Sample, WHOLE};
use std::io;
use std::io::Write;

/// The results of one cache over a trace, and the options that they depend on.
#[derive(Clone, Copy, Debug)]
pub struct Row {
    /// Its size, in bytes.
    pub size: usize,
    /// What it tells after the requests that were read: those of the sample.
    pub told: Told,
    /// How many lines of the trace are before those that are counted.
    pub from: u64,
    /// How many there are with those.
    pub until: u64,
    /// How many requests were to be expected in the sample.
    pub expected: u64,
    /// How many bytes.
    pub expected_bytes: u128,
    /// What all caches have in common.
    pub setting: Setting,
}

impl Row {
    // The share of hits in the requests, in hundredths of a percent; of a sample, corrected.
    pub(crate) fn hit_ratio(&self) -> u128 {
        let hits = self.told.counts.corrected_hits(self.expected);
        ratio(u128::from(hits), u128::from(self.expected))
    }

    // The share of their bytes.
    fn byte_ratio(&self) -> u128 {
        let bytes = self.told.counts.corrected_hit_bytes(self.expected_bytes);
        ratio(bytes, self.expected_bytes)
    }
}

// What is done with a body larger than the cache.
fn large(setting: &Setting) -> &'static str {
    if setting.passes_by { "pass" } else { "evict" }
}

// What the refill of a body past its time is.
fn expired(setting: &Setting) -> &'static str {
    if setting.replaces { "replace" } else { "use" }
}

// The share of a part in a whole, in hundredths of a percent.
pub(crate) fn ratio(part: u128, whole: u128) -> u128 {
    part.saturating_mul(10_000).checked_div(whole).unwrap_or(0)
}

/// Writes the rows; those of a table have tabs between their cells, which `write_aligned` puts below each other.
pub fn write_rows<W: Write>(
    out: &mut W,
    output: Output,
    shown: Shown,
    rows: &[Row],
) -> io::Result<()> {
    match output {
        Output::Csv => write_csv(out, rows),
        Output::Json => write_json(out, rows),
        Output::Table => write_table(out, shown, rows),
    }
}

fn write_csv<W: Write>(out: &mut W, rows: &[Row]) -> io::Result<()> {
    write!(
        out,
        "policy,size,requests,hits,bytes,hit_bytes,evicted,tracked,"
    )?;
    write!(
        out,
        "expected_requests,corrected_hits,expected_bytes,corrected_hit_bytes,"
    )?;
    writeln!(
        out,
        "sample,part,ttl,large,expired,ignore_size,watermark,from,until"
    )?;
    for row in rows {
        write_values(out, row)?;
    }
    Ok(())
}

fn write_values<W: Write>(out: &mut W, row: &Row) -> io::Result<()> {
    let Counts {
        requests,
        hits,
        bytes,
        hit_bytes,
    } = row.told.counts;
    write!(
        out,
        "{},{},{requests},{hits},{bytes},{hit_bytes},",
        row.told.policy.name(),
        row.size
    )?;
    write!(
        out,
        "{},{},{},",
        row.told.evicted, row.told.tracked, row.expected
    )?;
    write!(out, "{},", row.told.counts.corrected_hits(row.expected))?;
    write!(out, "{},", row.expected_bytes)?;
    write!(
        out,
        "{},",
        row.told.counts.corrected_hit_bytes(row.expected_bytes)
    )?;
    write_settings(out, &row.setting)?;
    writeln!(out, ",{},{}", row.from, row.until)
}

// The options that all caches have in common, as values with commas between them.
pub(crate) fn write_settings<W: Write>(out: &mut W, setting: &Setting) -> io::Result<()> {
    write_rate(out, setting.sample)?;
    write!(out, ",{},", setting.sample.part)?;
    if let Some(ttl) = setting.ttl {
        write!(out, "{ttl}")?;
    }
    write!(out, ",{},{},", large(setting), expired(setting))?;
    write!(out, "{},", setting.ignores_size)?;
    if let Some(watermark) = setting.watermark {
        write!(out, "{watermark}")?;
    }
    Ok(())
}

/// Writes the rate of a sample, as a part of 1.
pub(crate) fn write_rate<W: Write>(out: &mut W, sample: Sample) -> io::Result<()> {
    write!(out, "{}.{:06}", sample.rate / WHOLE, sample.rate % WHOLE)
}

fn write_json<W: Write>(out: &mut W, rows: &[Row]) -> io::Result<()> {
    for row in rows {
        write_object(out, row)?;
    }
    Ok(())
}

fn write_object<W: Write>(out: &mut W, row: &Row) -> io::Result<()> {
    let Counts {
        requests,
        hits,
        bytes,
        hit_bytes,
    } = row.told.counts;
    write!(
        out,
        "{{\"policy\":\"{}\",\"size\":{},",
        row.told.policy.name(),
        row.size
    )?;
    write!(
        out,
        "\"requests\":{requests},\"hits\":{hits},\"bytes\":{bytes},\"hit_bytes\":{hit_bytes},"
    )?;
    write!(
        out,
        "\"evicted\":{},\"tracked\":{},",
        row.told.evicted, row.told.tracked
    )?;
    write!(out, "\"expected_requests\":{},", row.expected)?;
    write!(
        out,
        "\"corrected_hits\":{},",
        row.told.counts.corrected_hits(row.expected)
    )?;
    write!(out, "\"expected_bytes\":{},", row.expected_bytes)?;
    write!(
        out,
        "\"corrected_hit_bytes\":{},",
        row.told.counts.corrected_hit_bytes(row.expected_bytes)
    )?;
    write_setting(out, &row.setting)?;
    writeln!(out, ",\"from\":{},\"until\":{}}}", row.from, row.until)
}

// The options that all caches have in common, as members of an object.
pub(crate) fn write_setting<W: Write>(out: &mut W, setting: &Setting) -> io::Result<()> {
    write!(out, "\"sample\":")?;
    write_rate(out, setting.sample)?;
    write!(out, ",\"part\":{},\"ttl\":", setting.sample.part)?;
    match setting.ttl {
        Some(ttl) => write!(out, "{ttl}")?,
        None => write!(out, "null")?,
    }
    write!(out, ",\"large\":\"{}\"", large(setting))?;
    write!(out, ",\"expired\":\"{}\"", expired(setting))?;
    write!(out, ",\"ignore_size\":{}", setting.ignores_size)?;
    match setting.watermark {
        Some(watermark) => write!(out, ",\"watermark\":{watermark}"),
        None => write!(out, ",\"watermark\":null"),
    }
}

/// Which columns a table has besides.
#[derive(Clone, Copy, Debug)]
pub struct Shown {
    /// Of which requests of the trace a line is.
    pub span: bool,
    /// The rate of the sample, and what it stands for.
    pub sample: bool,
}

impl Shown {
    /// The columns for these options.
    pub(crate) fn by(options: &Options) -> Shown {
        Shown {
            span: options.warmup > 0 || options.interval.is_some(),
            sample: !options.setting.sample.is_all(),
        }
    }
}

fn write_table<W: Write>(out: &mut W, shown: Shown, rows: &[Row]) -> io::Result<()> {
    write!(out, "policy\tsize")?;
    if shown.span {
        write!(out, "\tfrom\tuntil")?;
    }
    if shown.sample {
        write!(out, "\tsample\texpected")?;
    }
    write!(out, "\trequests\thits")?;
    if shown.sample {
        write!(out, "\tcorrected")?;
    }
    writeln!(out, "\thit ratio\tbyte ratio\tevicted\ttracked")?;
    for row in rows {
        write_cells(out, shown, &Cells::of(row))?;
    }
    Ok(())
}

/// The cells of a line of a table.
#[derive(Clone, Copy)]
pub(crate) struct Cells {
    pub(crate) policy: &'static str,
    pub(crate) size: usize,
    pub(crate) from: u64,
    pub(crate) until: u64,
    pub(crate) sample: Sample,
    pub(crate) expected: u64,
    pub(crate) requests: u64,
    pub(crate) hits: u64,
    pub(crate) corrected: u64,
    // In hundredths of a percent.
    pub(crate) ratio: u128,
    pub(crate) byte_ratio: u128,
    // What was evicted and what is tracked, if that is told.
    pub(crate) left: Option<(usize, usize)>,
}

impl Cells {
    fn of(row: &Row) -> Cells {
        let counts = row.told.counts;
        Cells {
            policy: row.told.policy.name(),
            size: row.size,
            from: row.from,
            until: row.until,
            sample: row.setting.sample,
            expected: row.expected,
            requests: counts.requests,
            hits: counts.hits,
            corrected: counts.corrected_hits(row.expected),
            ratio: row.hit_ratio(),
            byte_ratio: row.byte_ratio(),
            left: Some((row.told.evicted, row.told.tracked)),
        }
    }
}

/// Writes a line of a table, with tabs between its cells.
pub(crate) fn write_cells<W: Write>(out: &mut W, shown: Shown, cells: &Cells) -> io::Result<()> {
    write!(out, "{}\t{}", cells.policy, cells.size)?;
    if shown.span {
        write!(out, "\t{}\t{}", cells.from, cells.until)?;
    }
    if shown.sample {
        write!(out, "\t")?;
        write_rate(out, cells.sample)?;
        write!(out, "\t{}", cells.expected)?;
    }
    write!(out, "\t{}\t{}", cells.requests, cells.hits)?;
    if shown.sample {
        write!(out, "\t{}", cells.corrected)?;
    }
    write_ratio(out, cells.ratio)?;
    write_ratio(out, cells.byte_ratio)?;
    match cells.left {
        Some((evicted, tracked)) => writeln!(out, "\t{evicted}\t{tracked}"),
        None => writeln!(out, "\t-\t-"),
    }
}

/// Writes a cell with a ratio, which is in hundredths of a percent.
pub(crate) fn write_ratio<W: Write>(out: &mut W, ratio: u128) -> io::Result<()> {
    write!(out, "\t{}.{:02}%", ratio / 100, ratio % 100)
}
