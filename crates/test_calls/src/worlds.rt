//! Of a world that threads share.
use pcache_evict::eviction::EvictionManager;
use pcache_shared_world::{Gate, Mark, Share, SharedWorld, run_workers};
use pcache_world::world::call::Call;
use pcache_world::world::policy::PutPolicy;
use std::alloc::AllocError;
use std::sync::Wait;
use std::thread::Threads;

/// Runs each script with the share at its index, if there are as many.
pub fn run_each<
    M: EvictionManager + Send,
    P: PutPolicy + Send,
    K: Mark + Send + Sync,
    G: Gate + Sync,
    R: Threads + Wait + Sync,
>(
    rt: &R,
    shared: &SharedWorld<M, P, K>,
    scripts: &[Vec<Call>],
    shares: &mut [Share<K>],
    gate: &G,
) -> Result<bool, AllocError> {
    if scripts.len() != shares.len() {
        return Ok(false);
    }
    run_workers(rt, shared, scripts, shares, gate)?;
    Ok(true)
}
