#![tactic(auto)]
//! `rfc9111_proxy < LINES`: a proxy that caches by RFC 9111, and a desk to try the RFC's rules at. A line is a request, and what
//! the origin would answer to it, with fields behind bars:
//!
//! `SECOND METHOD PATH | FIELD: VALUE | .. => STATUS | FIELD: VALUE | ..`
//!
//! Without `=>` the origin does not answer. What the proxy did follows each line; one that begins with `#` is repeated alone.

mod asked;
mod decide;
mod front;
mod kept;
mod serve;

use anyhow::Result;
use front::ProxyCache;
use pingora_cache::seed::Seed;
use std::random::RandomSource;

// All bodies together have at most so many bytes.
const LIMIT: usize = 1_000_000;

fn main(rt: HostRuntime) -> Result<()> {
    let mut cache = front::new_cache(rt.alloc(), drawn(&rt)?, LIMIT)?;
    for line in rt.lines(rt.alloc()) {
        answer(&rt, &mut cache, line?.as_str())?;
    }
    Ok(())
}

fn answer(rt: &impl Print, cache: &mut ProxyCache, line: &str) -> Result<()> {
    println!(rt; "{line}")?;
    if line.starts_with('#') {
        return Ok(());
    }
    match asked::read(cache.alloc(), line) {
        Some(asked) => {
            let told = serve::serve(cache, &asked)?;
            println!(rt; "  {told:?}")?;
        }
        None => println!(rt; "  no request")?,
    }
    Ok(())
}

// One seed for all tables of the process, which no outsider can know.
fn drawn(rt: &impl RandomSource) -> Result<Seed> {
    let mut bytes = [0; 16];
    rt.fill_bytes(&mut bytes)?;
    Ok(Seed::new(bytes))
}
