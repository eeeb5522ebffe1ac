//! Two workers, each in a thread of its own.
ghost use Rattle.std.specs.Prelude.{◌≡◌, length};

use crate::calls::{ListOpening, ListWorld, SharedList, opening_of, read_script};
use crate::gates::{Between, Noted, Ongoing, Open};
use pcache_base::error::Result;
use pcache_shared_world::{Gate, Mark, Receipt, Share, run_workers};
use pcache_world::world::call::Call;
use pcache_world::world::entry::Entry;
use std::alloc::Global;
use std::marker::Brand;
use std::sync::Wait;
use std::test::Fail;
use std::thread::Threads;

/// A world that was shared, and the receipts of each share.
pub type Ended = (ListWorld, Vec<Vec<Receipt>>);

// Runs the scripts, and states of the shares only that there are as many.
fn work<K: Mark + Send + Sync, G: Gate + Sync, R: Threads + Wait + Sync>(
    rt: &R,
    shared: &SharedList<K>,
    scripts: &[Vec<Call>],
    shares: &mut Vec<Share<K>>,
    gate: &G,
) -> Result<()>
    requires { length scripts.now ≡ length shares.old.items }
    ensures { length shares.new.items ≡ length shares.old.items }
{
    run_workers(rt, shared, scripts, shares.as_mut_slice(), gate)?;
    Ok(())
}

/// Runs a script a share, each in a thread of its own.
pub fn run_named<K: Mark + Send + Sync, G: Gate + Sync, R: Threads + Wait + Sync>(
    rt: &R,
    alloc: Global,
    opening: ListOpening,
    scripts: &[Vec<Call>],
    gate: &G,
) -> Result<Ended>
    requires mark { opening ≡ K.opened }
    requires count { length scripts.now ≡ opening.shares }
{
    let (shared, mut shares) = SharedList::<K>::new(alloc, opening)?;
    work(rt, &shared, scripts, &mut shares, gate)?;
    Ok(shared.close(shares))
}

// Runs two scripts, each in a thread of its own.
fn run<G: Gate + Sync, R: Threads + Wait + Sync>(
    rt: &R,
    alloc: Global,
    first: &'static str,
    second: &'static str,
    gate: &G,
) -> Result<Ended> {
    let scripts = [read_script(alloc, first)?, read_script(alloc, second)?];
    let opening = opening_of(alloc)?;
    run_named::<Brand, G, R>(rt, alloc, opening, &scripts, gate)
}

// Whether each place below `count` is that of one receipt, and no other place is.
fn are_the_places(receipts: &[Vec<Receipt>], count: usize) -> bool {
    let mut seen = 0usize;
    let mut places = 0u64;
    for list in receipts {
        for receipt in list {
            if receipt.index >= count {
                return false;
            }
            seen = seen.wrapping_add(1);
            places |= bit(receipt.index);
        }
    }
    seen == count && places == bit(count).wrapping_sub(1)
}

// The number with this bit alone.
fn bit(place: usize) -> u64 {
    match u32::try_from(place) {
        Ok(place) => 1u64.wrapping_shl(place),
        Err(_) => 0,
    }
}

// Whether an entry has a receipt's request and reply.
fn is_of(alloc: Global, entry: &Entry, receipt: &Receipt) -> Result<bool> {
    let noted = format!(in alloc; "{} {:?}", entry.call.request, entry.reply)?;
    let told = format!(in alloc; "{} {:?}", receipt.call.request, receipt.reply)?;
    Ok(noted == told)
}

// Whether the history has each receipt's request and reply at the receipt's place.
fn stand(alloc: Global, history: &[Entry], receipts: &[Vec<Receipt>]) -> Result<bool> {
    for list in receipts {
        for receipt in list {
            let Some(entry) = history.get(receipt.index) else {
                return Ok(false);
            };
            if !is_of(alloc, entry, receipt)? {
                return Ok(false);
            }
        }
    }
    Ok(true)
}

/// Whether the receipts are those of the entries, each once, and there are so many.
pub fn are_exact(
    alloc: Global,
    history: &[Entry],
    receipts: &[Vec<Receipt>],
    count: usize,
) -> Result<bool> {
    Ok(
        history.len() == count
            && receipts.len() == 2
            && are_the_places(receipts, count)
            && stand(alloc, history, receipts)?,
    )
}

// The receipt of a call of a worker. Both are counted from 0.
fn receipt(receipts: &[Vec<Receipt>], (worker, index): (usize, usize)) -> Option<&Receipt> {
    receipts.get(worker)?.get(index)
}

// Whether the call that the gate delayed comes after the one that it waited for, with this reply.
fn came_behind(
    alloc: Global,
    receipts: &[Vec<Receipt>],
    gate: &Ongoing,
    reply: &str,
) -> Result<bool> {
    let held = receipt(receipts, gate.held());
    let awaited = receipt(receipts, gate.awaited());
    match (held, awaited) {
        (Some(held), Some(awaited)) => {
            let told = format!(in alloc; "{:?}", held.reply)?;
            Ok(awaited.index < held.index && told.as_str() == reply)
        }
        _ => Ok(false),
    }
}

// Runs two scripts of so many calls together, which nothing delays.
fn runs_freely<R: Threads + Wait + Sync>(
    rt: &R,
    alloc: Global,
    first: &'static str,
    second: &'static str,
    count: usize,
) -> Result<bool> {
    let (world, receipts) = run(rt, alloc, first, second, &Open)?;
    are_exact(alloc, world.history(), receipts.as_slice(), count)
}

// The same of receipts that are exact, of a gate that did not give up.
fn ended_behind(
    alloc: Global,
    history: &[Entry],
    receipts: &[Vec<Receipt>],
    count: usize,
    gate: &Ongoing,
    reply: &str,
) -> Result<bool> {
    Ok(
        !gate.is_late()
            && are_exact(alloc, history, receipts, count)?
            && came_behind(alloc, receipts, gate, reply)?,
    )
}

// Runs two scripts of so many calls together, of which a gate delays one call. Returns whether that
// call came after the one that it waited for, in time, with this reply.
fn runs_held<R: Threads + Wait + Sync>(
    rt: &R,
    alloc: Global,
    first: &'static str,
    second: &'static str,
    count: usize,
    gate: &Ongoing,
    reply: &str,
) -> Result<bool> {
    let (world, receipts) = run(rt, alloc, first, second, gate)?;
    ended_behind(
        alloc,
        world.history(),
        receipts.as_slice(),
        count,
        gate,
        reply,
    )
}

// Whether the first of two calls stands before the second.
fn are_in_order(receipts: &[Vec<Receipt>], first: (usize, usize), second: (usize, usize)) -> bool {
    match (receipt(receipts, first), receipt(receipts, second)) {
        (Some(first), Some(second)) => first.index < second.index,
        _ => false,
    }
}

// Runs two scripts of so many calls together with a gate that notes them.
fn runs_noted<R: Threads + Wait + Sync>(
    rt: &R,
    alloc: Global,
    first: &'static str,
    second: &'static str,
    count: usize,
    gate: &Noted,
) -> Result<bool> {
    let (world, receipts) = run(rt, alloc, first, second, gate)?;
    are_exact(alloc, world.history(), receipts.as_slice(), count)
}

// Runs two scripts of so many calls together, whose first worker is held back after a call. Answers whether
// that call stands before the one that it waits for.
fn runs_between<R: Threads + Wait + Sync>(
    rt: &R,
    alloc: Global,
    first: &'static str,
    second: &'static str,
    count: usize,
    gate: &Between,
) -> Result<bool> {
    let (world, receipts) = run(rt, alloc, first, second, gate)?;
    let are_exact = are_exact(alloc, world.history(), receipts.as_slice(), count)?;
    Ok(
        are_exact
            && !gate.is_late()
            && are_in_order(receipts.as_slice(), gate.held(), gate.awaited()),
    )
}

// Each call is entered and left by its gate, once and in its turn.
#[test]
fn a_gate_is_told_of_each_call(rt: HostRuntime) -> std::result::Result<(), Fail> {
    let first = "open 1\nkey 1 k\nlook 1";
    let second = "open 2\nkey 2 k";
    let gate = Noted::new();
    let are_exact = runs_noted(&rt, rt.alloc(), first, second, 5, &gate)?;
    assert!(rt; are_exact && gate.are_whole(3, 2));
    Ok(())
}

// A worker that its gate holds back after a call has made that call and lets the other go on: it holds no
// lock then.
#[test]
fn a_gate_holds_back_after_a_call(rt: HostRuntime) -> std::result::Result<(), Fail> {
    let first = "open 1\nkey 1 k\nlook 1";
    let second = "open 2\nkey 2 k\nlook 2";
    for (held, other) in [(0usize, 1usize), (1, 0)] {
        let gate = Between::new((held, 1), (other, 1));
        let is_between = runs_between(&rt, rt.alloc(), first, second, 6, &gate)?;
        assert!(rt; is_between, "{held}");
    }
    Ok(())
}

#[test]
fn two_workers_of_three_calls(rt: HostRuntime) -> std::result::Result<(), Fail> {
    let first = "open 1\nkey 1 k\nlook 1";
    let second = "open 2\nkey 2 other\nlook 2";
    let are_exact = runs_freely(&rt, rt.alloc(), first, second, 6)?;
    assert!(rt; are_exact);
    Ok(())
}

// Two bytes are stored by the first worker before the second looks.
#[test]
fn a_hit_behind_the_finish(rt: HostRuntime) -> std::result::Result<(), Fail> {
    let first = "open 1\nkey 1 k\nlook 1\nmiss 1\nmeta 1\nbegin 1\nwrite_last 1 ab\nfinish 1";
    let second = "open 2\nkey 2 k\nlook 2";
    let gate = Ongoing::new((1, 2), (0, 7));
    let is_hit = runs_held(&rt, rt.alloc(), first, second, 11, &gate, "Hit(2)")?;
    assert!(rt; is_hit);
    Ok(())
}

// A worker's first call waits for the other's second, which can only be made if the scripts run at
// the same time: run one after the other, in any order, one of the two waits in vain.
#[test]
fn scripts_run_at_the_same_time(rt: HostRuntime) -> std::result::Result<(), Fail> {
    let first = "open 1\nkey 1 k\nlook 1";
    let second = "open 2\nkey 2 k\nlook 2";
    for (held, other) in [(0usize, 1usize), (1, 0)] {
        let gate = Ongoing::new((held, 0), (other, 1));
        let is_behind = runs_held(&rt, rt.alloc(), first, second, 6, &gate, "Done")?;
        assert!(rt; is_behind, "{held}");
    }
    Ok(())
}
