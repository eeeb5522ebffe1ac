//! Two shares that call one world in turn.
ghost use Rattle.std.specs.Prelude.{◌≡◌, length};

use crate::calls::{ListOpening, ListWorld, SharedList, opening_of, read_call, world_of};
use pcache_base::error::Result;
use pcache_shared_world::{Mark, Receipt, Share};
use pcache_world::world::call::{Call, Reply};
use std::alloc::Global;
use std::marker::Brand;
use std::sync::Wait;
use std::test::Fail;

// Calls with their replies, a line each. The text has a type of its own: if a call chooses what a
// mark names, the signature of the function that it calls has no `&str`.
#[derive(Clone, Copy)]
struct Table {
    text: &'static str,
}

// A reader follows a write that is purged on its way. Before the arrows are the calls, those with
// even indices by the first share and the others by the second, and after them the replies. At the
// end are the receipts of each share: a place of the history, and the request that is named there.
const TEXT: &str = "\
    open 1 -> Done\n\
    key 1 k -> Done\n\
    look 1 -> NotFound(Some(Write))\n\
    miss 1 -> Done\n\
    meta 1 -> Done\n\
    begin 1 -> Done\n\
    open 2 -> Done\n\
    key 2 k -> Done\n\
    look 2 -> Part\n\
    found 2 -> Taken(Hit, None)\n\
    read 2 -> Pending\n\
    write 1 ab -> Done\n\
    read 2 -> Data(b\"ab\")\n\
    open 3 -> Done\n\
    key 3 k -> Done\n\
    purge 3 -> Purged\n\
    write 1 cd -> Done\n\
    end 1 -> Done\n\
    read 2 -> Data(b\"cd\")\n\
    read 2 -> Finished\n\
    open 4 -> Done\n\
    key 4 k -> Done\n\
    look 4 -> NotFound(Some(Write))\n\
    23 entries\n\
    0:1 2:1 4:1 6:2 8:2 10:2 12:2 14:3 16:1 18:2 20:4 22:4 \n\
    1:1 3:1 5:1 7:2 9:2 11:1 13:3 15:3 17:1 19:2 21:4 \n";

const FOLLOWED: Table = Table { text: TEXT };

// What is stored between two calls, whichever share made them.
const STORED: &str = "\
    open 1 -> Done\n\
    key 1 k -> Done\n\
    look 1 -> NotFound(Some(Write))\n\
    miss 1 -> Done\n\
    meta 1 -> Done\n\
    begin 1 -> Done\n\
    write_last 1 ab -> Done\n\
    stored -> 0 in 0\n\
    finish 1 -> Stored { size: 2, evicted: 0 }\n\
    stored -> 2 in 1\n\
    open 2 -> Done\n\
    key 2 k -> Done\n\
    purge 2 -> Purged\n\
    stored -> 0 in 0\n\
    11 entries\n\
    0:1 2:1 4:1 6:1 7:1 8:2 10:2 \n\
    1:1 3:1 5:1 9:2 \n";

const STORES: Table = Table { text: STORED };

fn tell(alloc: Global, told: &mut String, call: &str, reply: &Reply) -> Result<()> {
    told.push_str(format!(in alloc; "{call} -> {reply:?}\n")?.as_str())?;
    Ok(())
}

fn tell_stored<K: Mark, R: Wait>(
    rt: &R,
    alloc: Global,
    shared: &SharedList<K>,
    told: &mut String,
) -> Result<()> {
    let (bytes, slots) = (shared.stored_bytes(rt), shared.slots(rt));
    told.push_str(format!(in alloc; "stored -> {bytes} in {slots}\n")?.as_str())?;
    Ok(())
}

// Makes the calls of a table, and writes the replies.
fn ask<K: Mark, R: Wait>(
    rt: &R,
    alloc: Global,
    shared: &SharedList<K>,
    shares: &mut [Share<K>],
    table: Table,
    told: &mut String,
) -> Result<()>
    ensures { length shares.new ≡ length shares.old }
{
    let mut place = 0usize;
    for line in table.text.lines() {
        let Some((words, _reply)) = line.split_once(" -> ") else {
            return Ok(());
        };
        if words == "stored" {
            tell_stored(rt, alloc, shared, told)?;
        } else if let Some(share) = shares.get_mut(place % 2)
            && let Some(call) = read_call(alloc, words)?
        {
            tell(
                alloc,
                told,
                words,
                SharedList::call(share, rt, shared, call)?,
            )?;
        }
        place = place.wrapping_add(1);
    }
    Ok(())
}

// Tells the number of entries, and the receipts.
fn tell_end(
    alloc: Global,
    told: &mut String,
    entries: usize,
    receipts: &[Vec<Receipt>],
) -> Result<()> {
    told.push_str(format!(in alloc; "{entries} entries\n")?.as_str())?;
    for list in receipts {
        for receipt in list {
            let index = receipt.index;
            let request = receipt.call.request;
            told.push_str(format!(in alloc; "{index}:{request} ")?.as_str())?;
        }
        told.push('\n')?;
    }
    Ok(())
}

// The same, and states of the shares only that there are as many.
fn ask_all<K: Mark, R: Wait>(
    rt: &R,
    alloc: Global,
    shared: &SharedList<K>,
    shares: &mut Vec<Share<K>>,
    table: Table,
    told: &mut String,
) -> Result<()>
    ensures { length shares.new.items ≡ length shares.old.items }
{
    ask(rt, alloc, shared, shares.as_mut_slice(), table, told)
}

fn play_named<K: Mark, R: Wait>(
    rt: &R,
    alloc: Global,
    opening: ListOpening,
    table: Table,
    told: &mut String,
) -> Result<()>
    requires { opening ≡ K.opened }
{
    let (shared, mut shares) = SharedList::<K>::new(alloc, opening)?;
    ask_all(rt, alloc, &shared, &mut shares, table, told)?;
    let (world, receipts) = shared.close(shares);
    tell_end(alloc, told, world.history().len(), receipts.as_slice())
}

fn play<R: Wait>(rt: &R, alloc: Global, table: Table, told: &mut String) -> Result<()> {
    let opening = opening_of(alloc)?;
    play_named::<Brand, R>(rt, alloc, opening, table, told)
}

// Makes the calls of a table with nobody else, and writes the replies.
fn play_alone(alloc: Global, table: Table, told: &mut String) -> Result<()> {
    let mut world = world_of(alloc)?;
    for line in table.text.lines() {
        if let Some((words, _reply)) = line.split_once(" -> ")
            && let Some(call) = read_call(alloc, words)?
        {
            step_alone(alloc, &mut world, words, call, told)?;
        }
    }
    Ok(())
}

fn step_alone(
    alloc: Global,
    world: &mut ListWorld,
    words: &str,
    call: Call,
    told: &mut String,
) -> Result<()> {
    let reply = world.step(call)?;
    tell(alloc, told, words, &reply)
}

// It does not matter which share calls.
#[test]
fn followed_to_the_end_by_two_shares(rt: HostRuntime) -> std::result::Result<(), Fail> {
    let mut told = String::new(rt.alloc());
    play(&rt, rt.alloc(), FOLLOWED, &mut told)?;
    assert_eq!(rt; told.as_str(), TEXT);
    Ok(())
}

#[test]
fn what_is_stored_is_told_between_two_calls(rt: HostRuntime) -> std::result::Result<(), Fail> {
    let mut told = String::new(rt.alloc());
    play(&rt, rt.alloc(), STORES, &mut told)?;
    assert_eq!(rt; told.as_str(), STORED);
    Ok(())
}

// One world that is not shared gives the same replies.
#[test]
fn followed_to_the_end_alone(rt: HostRuntime) -> std::result::Result<(), Fail> {
    let mut told = String::new(rt.alloc());
    play_alone(rt.alloc(), FOLLOWED, &mut told)?;
    assert!(rt; TEXT.starts_with(told.as_str()) && told.lines().count() == 23);
    Ok(())
}
