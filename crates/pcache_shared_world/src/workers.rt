//! Threads that run scripts of calls.
ghost use Rattle.std.specs.Prelude.{◌≡◌, ◌⊎◌, ℕ, ◌+◌, ◌<◌, ◌++◌, List, length, map, false, IfOk, OnErr, IsTrue, slice_index_or};
ghost use Rattle.pcache_shared_world.specs.Workers.{EachRuns, HaveGrown, Runs, RunsWhole, calls_of, script_at};
ghost use Rattle.pcache_shared_world.specs.declared.receipt.Receipt.{Receipt};

use crate::mark::Mark;
use crate::share::Share;
use crate::shared_world::SharedWorld;
use pcache_evict::eviction::EvictionManager;
use pcache_world::world::call::Call;
use pcache_world::world::policy::PutPolicy;
use std::alloc::{AllocError, Global};
use std::sync::Wait;
use std::thread;
use std::thread::Threads;

/// What a worker calls before and after each call, while it does not hold the lock. A gate that
/// waits delays its worker only.
pub trait Gate {
    /// The worker is about to make the call with this index of its script. Both count from 0.
    fn enter(&self, worker: usize, index: usize);

    /// The worker has the reply to that call.
    fn left(&self, worker: usize, index: usize);
}

/// Runs each script in a thread of its own, with the share at its index, and returns when all have
/// ended. A worker for whose call memory was refused stops there; that is answered at the end, and
/// what was called stands in the shares. It is refused only so, or before anything is called.
pub fn run_workers<
    M: EvictionManager + Send,
    P: PutPolicy + Send,
    K: Mark + Send + Sync,
    G: Gate + Sync,
    R: Threads + Wait + Sync,
>(
    rt: &R,
    shared: &SharedWorld<M, P, K>,
    scripts: &[Vec<Call>],
    shares: &mut [Share<K>],
    gate: &G,
) -> Result<(), AllocError>
    requires { length scripts.now ≡ length shares.old }
    ensures count { length shares.new ≡ length shares.old }
    ensures runs { EachRuns Runs scripts.now shares.old shares.new }
    ensures ok { IfOk result (λ _. EachRuns RunsWhole scripts.now shares.old shares.new) }
    ensures refused { OnErr result ((shares.new ≡ shares.old)
        ⊎ (EachRuns RunsWhole scripts.now shares.old shares.new → ⊥)) }
{
    // Counted before any thread begins, so that at the end it is known which scripts ran whole. A
    // flag that the threads set would say nothing: no contract knows what an atomic holds.
    let before = counts_of(shared.alloc, shares)?;
    let workers = shares.len();
    if workers == 0 {
        return Ok(());
    }
    thread::for_each_mut(
        rt,
        shares,
        workers,
        &|worker: usize, share: &mut Share<K>|
            requires { worker < length scripts.now }
            ensures { Runs (script_at scripts.entry.now worker) share.old share.new }
        {
            let _ = run_script(rt, shared, worker, scripts[worker].as_slice(), share, gate);
        },
    );
    if have_run(scripts, before.as_slice(), shares) {
        Ok(())
    } else {
        Err(AllocError)
    }
}

// Makes the calls of a script, up to one that fails for memory.
fn run_script<M: EvictionManager, P: PutPolicy, K: Mark, G: Gate, R: Wait>(
    rt: &R,
    shared: &SharedWorld<M, P, K>,
    worker: usize,
    script: &[Call],
    share: &mut Share<K>,
    gate: &G,
) -> Result<(), AllocError>
    ensures { Runs script.now share.old share.new }
{
    for index in 0..script.len() {
        gate.enter(worker, index);
        // The script is only lent, and a call is given away: the history has it, and a receipt its
        // copy.
        let Ok(call) = script[index].copied() else {
            return Err(AllocError);
        };
        SharedWorld::call(share, rt, shared, call)?;
        gate.left(worker, index);
    }
    Ok(())
}

// How many receipts each share has.
fn counts_of<K: Mark>(alloc: Global, shares: &[Share<K>]) -> Result<Vec<usize>, AllocError>
    ensures { IfOk result (λ counts. counts.items ≡ map length shares.now) }
{
    let mut counts = Vec::with_capacity(alloc, shares.len())?;
    for share in shares {
        counts.push_reserved(share.receipts().len());
    }
    Ok(counts)
}

// Whether each share has gained as many receipts as its script has calls.
fn have_run<K: Mark>(scripts: &[Vec<Call>], before: &[usize], shares: &[Share<K>]) -> bool
    requires scripts { length scripts.now ≡ length shares.now }
    requires before { length before.now ≡ length shares.now }
    ensures grown { IsTrue result → HaveGrown scripts.now before.now shares.now }
    ensures not_grown { result ≡ false → HaveGrown scripts.now before.now shares.now → ⊥ }
{
    for worker in 0..shares.len() {
        let count = shares[worker].receipts().len();
        if count.checked_sub(before[worker]) != Some(scripts[worker].len()) {
            return false;
        }
    }
    true
}
