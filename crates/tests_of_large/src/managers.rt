//! Managers of each policy with more than 2^16 entries, of which many go at once, and a ring of more than 2^20.
use crate::rows::{Large, play};
use pcache_base::error::Result;
use pcache_base::key::CompactCacheKey;
use pcache_base::moment::Moment;
use pcache_base::seed::Seed;
use pcache_base::text::Text;
use pcache_evict::eviction::{CacheEntryKey, EvictionManager, sharded_lru, simple_lru};
use pcache_policies::{clock, fifo, s3_fifo, sieve, two_queues};
use std::alloc::Global;
use std::process::Abort;

/// The entry with this number.
pub fn entry_of(alloc: Global, number: u64) -> CacheEntryKey {
    CacheEntryKey::key_only(CompactCacheKey {
        primary: u128::from(number).to_le_bytes(),
        variance: None,
        user_tag: Text::new(String::new(alloc)),
    })
}

// A manager.
#[derive(Drop)]
struct Held<M: EvictionManager> {
    alloc: Global,
    manager: M,
}

impl<M: EvictionManager> Large for Held<M> {
    fn is_right(&mut self, what: &'static str, number: u64) -> Result<bool> {
        let entry = entry_of(self.alloc, number);
        let now = Moment::EPOCH;
        Ok(match what {
            "admit" => self.manager.admit(entry, 1, now)?.is_empty(),
            "use" => self.manager.access(&entry, 1, now)?,
            "make-room" => {
                let entry = entry_of(self.alloc, u64::MAX);
                self.manager.admit(entry, number as usize, now)?.len() as u64 == number
            }
            _ => self.manager.entries()?.len() as u64 == number,
        })
    }
}

const LIMIT: usize = 70_000;

// One that needs the room of so many others is let in last.
const ROWS: &str = "
    admit 70000 -> 70000
    use 70000 -> 70000
    just entries 70000 -> 1
    just make-room 66000 -> 1
    just entries 4001 -> 1";

// More than 2^20.
const ROWS_OF_A_MILLION: &str = "
    admit 1050000 -> 1050000";

fn holds_many<M: EvictionManager>(rt: &impl Abort, alloc: Global, manager: M) {
    play(rt, alloc, Held { alloc, manager }, ROWS);
}

#[test]
fn a_million_entries_in_a_ring(rt: HostRuntime) -> Result<()> {
    let alloc = rt.alloc();
    let manager = sieve::Manager::new(alloc, Seed::fixed(), 1_050_000)?;
    play(&rt, alloc, Held { alloc, manager }, ROWS_OF_A_MILLION);
    Ok(())
}

#[test]
fn many_entries_in_lists(rt: HostRuntime) -> Result<()> {
    let (alloc, seed) = (rt.alloc(), Seed::fixed());
    holds_many(&rt, alloc, simple_lru::Manager::new(alloc, seed, LIMIT)?);
    holds_many(
        &rt,
        alloc,
        sharded_lru::Manager::<4>::with_capacity(alloc, seed, LIMIT, 0)?,
    );
    Ok(())
}

#[test]
fn many_entries_with_a_hand(rt: HostRuntime) -> Result<()> {
    let (alloc, seed) = (rt.alloc(), Seed::fixed());
    holds_many(&rt, alloc, sieve::Manager::new(alloc, seed, LIMIT)?);
    holds_many(&rt, alloc, clock::Manager::new(alloc, seed, LIMIT)?);
    Ok(())
}

#[test]
fn many_entries_in_queues(rt: HostRuntime) -> Result<()> {
    let (alloc, seed) = (rt.alloc(), Seed::fixed());
    holds_many(&rt, alloc, fifo::Manager::new(alloc, seed, LIMIT)?);
    holds_many(&rt, alloc, s3_fifo::Manager::new(alloc, seed, LIMIT)?);
    holds_many(&rt, alloc, two_queues::Manager::new(alloc, seed, LIMIT)?);
    Ok(())
}
