//! The command line.

use cache_simulation::options::Words;
use clap::{Arg, ArgAction, ArgMatches, Command};
use std::alloc::{AllocError, Global};

/// The options, with their defaults.
pub fn command<'a>(alloc: Global) -> Result<Command<'a>, AllocError> {
    let command = Command::new(alloc, "cache_sim").version("0.1.0").about(
        "Tells what caches of some sizes and policies would have served of a trace of requests.",
    );
    let command = caches(alloc, command)?;
    let command = nodes(alloc, command)?;
    let command = trace(alloc, command)?;
    let command = sample(alloc, command)?;
    report(alloc, command)
}

fn caches<'a>(alloc: Global, command: Command<'a>) -> Result<Command<'a>, AllocError> {
    command
        .arg(
            option(alloc, "policy", "NAMES").default_value("lru").help(
                "lru, sharded:16, sieve, s3-fifo, fifo, clock or 2q, with commas; and belady, the most hits that any can have, of bodies of one size",
            ),
        )?
        .arg(
            option(alloc, "size", "SIZES").default_value("100MB").help(
                "the sizes of the caches, with commas: 10MB, 1.5G, 1GiB, or 1% of the bytes of all bodies",
            ),
        )?
        .arg(option(alloc, "ttl", "SECONDS").help(
            "for how long a body is fresh once it came in; for ever without it",
        ))?
        .arg(
            option(alloc, "expired", "WHAT").default_value("use").help(
                "the refill of a body past its time: a use of its entry, or replace it: remove it and admit it anew",
            ),
        )?
        .arg(
            option(alloc, "large", "WHAT").default_value("pass").help(
                "a body above the size of a cache: pass it by, or let it evict all others",
            ),
        )?
        .arg(option(alloc, "watermark", "NUMBER").help(
            "how many entries a cache may have; as many as there is room for without it",
        ))?
        .arg(
            Arg::new(alloc, "ignore-size")
                .long("ignore-size")
                .action(ArgAction::SetTrue)
                .help("each body counts as one byte, so that sizes are numbers of bodies"),
        )
}

fn nodes<'a>(alloc: Global, command: Command<'a>) -> Result<Command<'a>, AllocError> {
    command
        .arg(option(alloc, "nodes", "NUMBER").help(
            "several caches of each size, each with the keys that go to it; one has all without it",
        ))?
        .arg(option(alloc, "drop", "NODE@REQUESTS").help(
            "the node, from 0, that goes once so many requests were made; several with commas",
        ))?
        .arg(option(alloc, "shield", "SIZE").help(
            "the size of one more cache, which is asked for what a node does not have",
        ))
}

fn trace<'a>(alloc: Global, command: Command<'a>) -> Result<Command<'a>, AllocError> {
    command
        .arg(option(alloc, "trace", "FILE").help("the trace; standard input without it"))?
        .arg(option(alloc, "trace-type", "TYPE").help(
            "csv, cdn, twitter or oracleGeneral; what the beginning of the trace says without it",
        ))?
        .arg(option(alloc, "columns", "NAMES").help(
            "the columns of lines with commas, as time,key,size; what the header says without it",
        ))?
        .arg(option(alloc, "distinct", "BYTES").help(
            "the bytes of all bodies of the trace, each once",
        ))?
        .arg(
            option(alloc, "bad-lines", "NUMBER")
                .default_value("100")
                .help("how many lines may be no requests"),
        )
}

fn sample<'a>(alloc: Global, command: Command<'a>) -> Result<Command<'a>, AllocError> {
    command
        .arg(
            option(alloc, "sample", "PART")
                .default_value("1")
                .help("the part of the keys that stands for all, as 0.01"),
        )?
        .arg(
            option(alloc, "part", "NUMBER")
                .default_value("0")
                .help("which of the parts of that size"),
        )?
        .arg(option(alloc, "sample-keys", "NUMBER").help(
            "in place of --sample, the most keys that the sample has; --trace is read twice, at first for its rate",
        ))
}

fn report<'a>(alloc: Global, command: Command<'a>) -> Result<Command<'a>, AllocError> {
    command
        .arg(
            option(alloc, "warmup", "NUMBER").default_value("0").help(
                "how many requests of the trace are made before any is counted",
            ),
        )?
        .arg(option(alloc, "interval", "NUMBER").help(
            "results of each so many requests of the trace, in place of all",
        ))?
        .arg(
            option(alloc, "format", "FORMAT")
                .default_value("table")
                .help("table, csv, or json with an object a line"),
        )?
        .arg(option(alloc, "threads", "NUMBER").help(
            "how many threads play at most; one for each cache without it",
        ))?
        .arg(option(alloc, "plot", "FILE").help(
            "a file for a drawing in SVG: the ratio of misses by size, a line for each policy",
        ))
}

fn option<'a>(alloc: Global, name: &'a str, value: &'a str) -> Arg<'a> {
    Arg::new(alloc, name).long(name).value_name(value)
}

/// The words by option.
pub fn words<'a>(matches: &ArgMatches<'a>) -> Words<'a> {
    Words {
        policy: matches.get_str("policy").unwrap_or(""),
        size: matches.get_str("size").unwrap_or(""),
        trace: matches.get_str("trace"),
        distinct: matches.get_str("distinct"),
        ttl: matches.get_str("ttl"),
        expired: matches.get_str("expired").unwrap_or(""),
        large: matches.get_str("large").unwrap_or(""),
        watermark: matches.get_str("watermark"),
        ignores_size: matches.get_flag("ignore-size"),
        warmup: matches.get_str("warmup").unwrap_or(""),
        interval: matches.get_str("interval"),
        trace_type: matches.get_str("trace-type"),
        columns: matches.get_str("columns"),
        sample: matches.get_str("sample").unwrap_or(""),
        part: matches.get_str("part").unwrap_or(""),
        sample_keys: matches.get_str("sample-keys"),
        nodes: matches.get_str("nodes"),
        drop: matches.get_str("drop"),
        shield: matches.get_str("shield"),
        format: matches.get_str("format").unwrap_or(""),
        plot: matches.get_str("plot"),
        bad_lines: matches.get_str("bad-lines").unwrap_or(""),
        threads: matches.get_str("threads"),
    }
}
