#![tactic(auto)]
//! `examples LIMIT < TRACE`: ways to use the cache. Short examples of a cache as one value come first; then a proxy and a purge
//! service print their results; a simulator reads a trace, and prints what a cache of LIMIT bytes would have served of it.

mod along;
mod front;
mod many;
mod origin;
mod parts;
mod proxy;
mod purge;
mod short;
mod simulate;
mod stale;
mod threads;
mod variants;
mod waiting;

use anyhow::{Context, Result, anyhow};
use parts::Parts;
use pingora_cache::eviction::simple_lru::Manager;
use pingora_cache::moment::Moment;
use pingora_cache::seed::Seed;
use simulate::Counts;
use std::alloc::Global;
use std::env;
use std::io::{BufRead, BufReader};
use std::random::RandomSource;
use std::sync::Wait;
use std::thread::Threads;

fn main(rt: HostRuntime) -> Result<()> {
    let limit = limit_of(&rt)?;
    let seed = drawn(&rt)?;
    run_short(&rt, rt.alloc(), seed)?;
    run_services(&rt, rt.alloc(), seed)?;
    run_threads(&rt, rt.alloc(), seed)?;
    run_simulator(&rt, rt.alloc(), seed, limit)
}

// One seed for all tables of the process, which no outsider can know.
fn drawn(rt: &impl RandomSource) -> Result<Seed> {
    let mut bytes = [0; 16];
    rt.fill_bytes(&mut bytes)?;
    Ok(Seed::new(bytes))
}

fn limit_of(rt: &HostRuntime) -> Result<usize> {
    let word = env::args(rt)?.nth(1).context("the limit is missing")?;
    word.as_str()
        .parse::<usize>()
        .context("the limit is no number")
}

// One cache for the short examples.
fn run_short(rt: &impl Print, alloc: Global, seed: Seed) -> Result<()> {
    let mut cache = front::new_cache(alloc, seed, 1000)?;
    short::show_all(rt, &mut cache)
}

// One set of parts for the proxy and the purge service.
fn run_services(rt: &impl Print, alloc: Global, seed: Seed) -> Result<()> {
    let mut parts = Parts::new(alloc, seed, 1000)?;
    show_proxy(rt, &mut parts)?;
    show_purges(rt, &mut parts)
}

// Requests in order, each with its second.
fn show_proxy(rt: &impl Print, parts: &mut Parts) -> Result<()> {
    let requests = [("/news", 0), ("/news", 59), ("/news", 61), ("/account", 61)];
    for (path, second) in requests {
        let served = proxy::serve(parts, path, Moment::from_secs(second))?;
        println!(rt; "{second} s {path}: {served:?}")?;
    }
    Ok(())
}

fn show_purges(rt: &impl Print, parts: &mut Parts) -> Result<()> {
    for path in ["/news", "/news"] {
        let was_there = purge::purge(parts, path)?;
        println!(rt; "purge {path}: {was_there}")?;
    }
    let served = proxy::serve(parts, "/news", Moment::from_secs(62))?;
    println!(rt; "62 s /news: {served:?}")?;
    Ok(())
}

// The proxy over four threads. What it prints is the same whichever thread comes first.
fn run_threads<R: Print + Threads + Wait + Sync>(rt: &R, alloc: Global, seed: Seed) -> Result<()> {
    let threads::Report {
        served,
        fetches,
        stored,
    } = threads::run(rt, alloc, seed)?;
    println!(rt; "four threads: {served} served with {fetches} fetches, {stored} bytes stored")?;
    Ok(())
}

fn run_simulator(rt: &HostRuntime, alloc: Global, seed: Seed, limit: usize) -> Result<()> {
    let mut manager = Manager::new(alloc, seed, limit)?;
    let counts = simulate_all(rt, alloc, &mut manager)?;
    report(rt, &manager, counts)
}

fn simulate_all(rt: &HostRuntime, alloc: Global, manager: &mut Manager) -> Result<Counts> {
    let mut counts = Counts::NONE;
    for line in BufReader::new(alloc, rt.reader())?.lines(alloc) {
        simulate_line(alloc, manager, &mut counts, line?.as_str())?;
    }
    Ok(counts)
}

fn simulate_line(
    alloc: Global,
    manager: &mut Manager,
    counts: &mut Counts,
    line: &str,
) -> Result<()> {
    let Some(asked) = simulate::read_line(line) else {
        return Err(anyhow!("a line of the trace is no key with a size"));
    };
    simulate::request(alloc, manager, counts, asked)?;
    Ok(())
}

fn report(rt: &impl Print, manager: &Manager, counts: Counts) -> Result<()> {
    let Counts {
        requests,
        hits,
        bytes,
        hit_bytes,
    } = counts;
    println!(rt; "requests {requests} hits {hits} bytes {bytes} hit bytes {hit_bytes}")?;
    let evicted = manager.evicted_items();
    let size = manager.evicted_size();
    println!(rt; "evicted {evicted} with {size} bytes")?;
    Ok(())
}
