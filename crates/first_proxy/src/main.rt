#![tactic(auto)]
//! `first_proxy < PATHS`: the smallest proxy. Each line is a path, and is answered from the cache or, the first time and after a
//! minute, from the origin.

mod front;
mod origin;
mod serve;

use anyhow::{Context, Result};
use front::ProxyCache;
use pingora_cache::moment::Moment;
use pingora_cache::seed::Seed;
use serve::Served;
use std::random::RandomSource;
use std::rt::Clock;
use std::time::{SystemTime, UNIX_EPOCH};

// All bodies together have at most so many bytes.
const LIMIT: usize = 1_000_000;

fn main(rt: HostRuntime) -> Result<()> {
    let mut cache = front::new_cache(rt.alloc(), drawn(&rt)?, LIMIT)?;
    for line in rt.lines(rt.alloc()) {
        answer(&rt, &mut cache, line?.as_str())?;
    }
    Ok(())
}

fn answer(rt: &(impl Print + Clock), cache: &mut ProxyCache, path: &str) -> Result<()> {
    match serve::serve(cache, path, now(rt)?)? {
        Served::Found(body) => {
            let len = body.len();
            println!(rt; "{path}: {len} bytes from the cache")?;
        }
        Served::Fetched(body) => {
            let len = body.len();
            println!(rt; "{path}: {len} bytes from the origin")?;
        }
        Served::Waits => println!(rt; "{path}: another request fetches it, ask again")?,
    }
    Ok(())
}

// One seed for all tables of the process, which no outsider can know.
fn drawn(rt: &impl RandomSource) -> Result<Seed> {
    let mut bytes = [0; 16];
    rt.fill_bytes(&mut bytes)?;
    Ok(Seed::new(bytes))
}

// The clock of the system as a moment.
fn now(rt: &impl Clock) -> Result<Moment> {
    let since = SystemTime::now(rt)?
        .duration_since(UNIX_EPOCH)
        .ok()
        .context("the clock is before 1970")?;
    Moment::new(since.as_secs(), since.subsec_nanos()).context("the clock has no such moment")
}
