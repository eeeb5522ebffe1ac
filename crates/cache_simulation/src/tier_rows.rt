//! The rows of several nodes, and of the cache behind them.

use crate::cache::Told;
use crate::options::{Cluster, Options, Output};
use crate::report::{ratio, write_rate, write_ratio, write_setting, write_settings};
use crate::tiers::Tiers;
use std::io;
use std::io::Write;

// What a cache tells, or several together.
#[derive(Clone, Copy)]
struct Totals {
    requests: u64,
    hits: u64,
    bytes: u128,
    hit_bytes: u128,
    evicted: u64,
    tracked: u64,
}

impl Totals {
    fn none() -> Totals {
        Totals {
            requests: 0,
            hits: 0,
            bytes: 0,
            hit_bytes: 0,
            evicted: 0,
            tracked: 0,
        }
    }

    fn of(told: Told) -> Totals {
        let mut totals = Totals::none();
        totals.add(told);
        totals
    }

    fn add(&mut self, told: Told) {
        let counts = told.counts;
        self.requests = self.requests.saturating_add(counts.requests);
        self.hits = self.hits.saturating_add(counts.hits);
        self.bytes = self.bytes.saturating_add(counts.bytes);
        self.hit_bytes = self.hit_bytes.saturating_add(counts.hit_bytes);
        self.evicted = self.evicted.saturating_add(told.evicted as u64);
        self.tracked = self.tracked.saturating_add(told.tracked as u64);
    }
}

// All of these together.
fn together(each: &[Told]) -> Totals {
    let mut all = Totals::none();
    for told in each {
        all.add(*told);
    }
    all
}

// The requests of the busiest of these by the mean of all, in hundredths.
fn busiest(each: &[Told]) -> u128 {
    let most = each
        .iter()
        .map(|told| told.counts.requests)
        .max()
        .unwrap_or(0);
    let all = together(each).requests;
    u128::from(most)
        .saturating_mul(100 * each.len() as u128)
        .checked_div(u128::from(all))
        .unwrap_or(0)
}

// What a row is of: a node, all nodes, or the cache behind them.
#[derive(Clone, Copy)]
struct Part {
    size: usize,
    tier: &'static str,
    node: Option<usize>,
    // The requests of the busiest node by the mean, in hundredths.
    busiest: Option<u128>,
}

/// Writes the names of the values, if the output has such a line.
pub(crate) fn write_header<W: Write>(out: &mut W, options: &Options) -> io::Result<()> {
    match options.output {
        Output::Csv => {
            write!(
                out,
                "policy,size,tier,node,requests,hits,bytes,hit_bytes,evicted,tracked,busiest,"
            )?;
            writeln!(
                out,
                "nodes,drop,sample,part,ttl,large,expired,ignore_size,watermark"
            )
        }
        Output::Json => Ok(()),
        Output::Table => {
            // Rows of their own, and not those of caches: they name a node, and have no ratio to
            // plot by size.
            write!(out, "policy\tsize\ttier\tnode")?;
            if !options.setting.sample.is_all() {
                write!(out, "\tsample")?;
            }
            writeln!(
                out,
                "\trequests\thits\thit ratio\tbyte ratio\tevicted\ttracked\tbusiest"
            )
        }
    }
}

/// Writes what each of these nodes told, all of them together, and the cache behind them.
pub(crate) fn write_tiers<W: Write>(
    out: &mut W,
    options: &Options,
    cluster: &Cluster,
    tiers: &Tiers,
    each: &[Told],
) -> io::Result<()> {
    let size = tiers.size;
    for (number, told) in each.iter().enumerate() {
        let of = Part {
            size,
            tier: "node",
            node: Some(number),
            busiest: None,
        };
        write_row(out, options, cluster, tiers, of, Totals::of(*told))?;
    }
    let of = Part {
        size,
        tier: "nodes",
        node: None,
        busiest: Some(busiest(each)),
    };
    write_row(out, options, cluster, tiers, of, together(each))?;
    let Some((size, told)) = tiers.shield() else {
        return Ok(());
    };
    let of = Part {
        size,
        tier: "shield",
        node: None,
        busiest: None,
    };
    write_row(out, options, cluster, tiers, of, Totals::of(told))
}

fn write_row<W: Write>(
    out: &mut W,
    options: &Options,
    cluster: &Cluster,
    tiers: &Tiers,
    of: Part,
    totals: Totals,
) -> io::Result<()> {
    match options.output {
        Output::Csv => {
            write_values(out, tiers, of, totals)?;
            write!(out, ",{},", cluster.nodes)?;
            write_dropped(out, cluster, ";")?;
            write!(out, ",")?;
            write_settings(out, &tiers.setting)?;
            writeln!(out)
        }
        Output::Json => {
            write_object(out, tiers, of, totals)?;
            write!(out, ",\"nodes\":{},\"drop\":\"", cluster.nodes)?;
            write_dropped(out, cluster, ",")?;
            write!(out, "\",")?;
            write_setting(out, &tiers.setting)?;
            writeln!(out, "}}")
        }
        Output::Table => write_line(out, tiers, of, totals),
    }
}

// The nodes that go, as they were given.
fn write_dropped<W: Write>(out: &mut W, cluster: &Cluster, between: &str) -> io::Result<()> {
    for (place, (node, after)) in cluster.dropped.as_slice().iter().enumerate() {
        if place > 0 {
            write!(out, "{between}")?;
        }
        write!(out, "{node}@{after}")?;
    }
    Ok(())
}

fn write_values<W: Write>(out: &mut W, tiers: &Tiers, of: Part, totals: Totals) -> io::Result<()> {
    write!(out, "{},{},{},", tiers.policy.name(), of.size, of.tier)?;
    if let Some(node) = of.node {
        write!(out, "{node}")?;
    }
    let Totals {
        requests,
        hits,
        bytes,
        hit_bytes,
        evicted,
        tracked,
    } = totals;
    write!(
        out,
        ",{requests},{hits},{bytes},{hit_bytes},{evicted},{tracked},"
    )?;
    match of.busiest {
        Some(busiest) => write!(out, "{}.{:02}", busiest / 100, busiest % 100),
        None => Ok(()),
    }
}

fn write_object<W: Write>(out: &mut W, tiers: &Tiers, of: Part, totals: Totals) -> io::Result<()> {
    write!(
        out,
        "{{\"policy\":\"{}\",\"size\":{},\"tier\":\"{}\",\"node\":",
        tiers.policy.name(),
        of.size,
        of.tier
    )?;
    match of.node {
        Some(node) => write!(out, "{node}")?,
        None => write!(out, "null")?,
    }
    let Totals {
        requests,
        hits,
        bytes,
        hit_bytes,
        evicted,
        tracked,
    } = totals;
    write!(
        out,
        ",\"requests\":{requests},\"hits\":{hits},\"bytes\":{bytes},\"hit_bytes\":{hit_bytes},"
    )?;
    write!(
        out,
        "\"evicted\":{evicted},\"tracked\":{tracked},\"busiest\":"
    )?;
    match of.busiest {
        Some(busiest) => write!(out, "{}.{:02}", busiest / 100, busiest % 100),
        None => write!(out, "null"),
    }
}

// A line of a table, with tabs between its cells.
fn write_line<W: Write>(out: &mut W, tiers: &Tiers, of: Part, totals: Totals) -> io::Result<()> {
    write!(out, "{}\t{}\t{}\t", tiers.policy.name(), of.size, of.tier)?;
    match of.node {
        Some(node) => write!(out, "{node}")?,
        None => write!(out, "-")?,
    }
    if !tiers.setting.sample.is_all() {
        write!(out, "\t")?;
        write_rate(out, tiers.setting.sample)?;
    }
    write!(out, "\t{}\t{}", totals.requests, totals.hits)?;
    write_ratio(
        out,
        ratio(u128::from(totals.hits), u128::from(totals.requests)),
    )?;
    write_ratio(out, ratio(totals.hit_bytes, totals.bytes))?;
    write!(out, "\t{}\t{}", totals.evicted, totals.tracked)?;
    match of.busiest {
        Some(busiest) => writeln!(out, "\t{}.{:02}", busiest / 100, busiest % 100),
        None => writeln!(out, "\t-"),
    }
}
