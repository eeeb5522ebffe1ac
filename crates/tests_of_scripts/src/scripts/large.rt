//! Worlds of many requests and keys, with a history of more than 2^16 entries, and calls that bring something large.

use super::check;
use std::alloc::Global;
use std::fmt::Write;
use std::fs;
use std::fs::Files;
use std::process::Abort;
use std::test::Fail;

// Adds lines once for each number below one, which stands where the lines have `#`.
fn push_times(row: &mut String, most: u64, lines: &str) -> Result<(), Fail> {
    for number in 0..most {
        let mut is_first = true;
        for part in lines.split('#') {
            if !is_first {
                write!(row, "{number}")?;
            }
            is_first = false;
            row.push_str(part)?;
        }
    }
    Ok(())
}

// More than 2^12.
const MANY: u64 = 5_000;

const FILL: &str = "open # -> ok\n\
    key # k# 1 -> ok\n\
    look # -> none write\n\
    miss # -> ok\n\
    meta # 60 -> ok\n\
    begin # -> ok\n\
    write # x -> ok\n\
    finish # -> stored 1 evicted 0\n\
    end # -> ok\n";

const FIND: &str = "open # -> ok\n\
    key # k# 1 -> ok\n\
    look # -> hit 1\n\
    found # fresh -> hit\n\
    read # -> data x\n\
    read # -> end\n\
    end # -> ok\n";

// The key is filled, so that the request becomes a reader of its body.
const READER: &str = "open # -> ok\n\
    key # k0 1 -> ok\n\
    look # -> hit 1\n\
    found # fresh -> hit\n";

const PERMIT: &str = "open # -> ok\n\
    key # p# 1 -> ok\n\
    look # -> none write\n";

// Another request has the permit.
const READ_LOCK: &str = "open # -> ok\n\
    key # p 1 -> ok\n\
    look # -> none read\n";

const END: &str = "end # -> ok\n";

const PUT: &str = "put # p# 1 -> ok\n\
    feed # HTTP/1.1\\s200\\sOK\\r\\n\\r\\nx -> ok\n";

const CLOSE: &str = "close # -> stored 1 evicted 0\n";

fn push_letters(row: &mut String, count: u64) -> Result<(), Fail> {
    for _ in 0..count {
        row.push('x')?;
    }
    Ok(())
}

// A body of so many letters, which takes the place of so many others.
fn push_long(row: &mut String, length: u64, evicted: u64) -> Result<(), Fail> {
    row.push_str("open 1 -> ok\nkey 1 long 1 -> ok\nlook 1 -> none write\nmiss 1 -> ok\n")?;
    row.push_str("meta 1 60 -> ok\nbegin 1 -> ok\nwrite 1 ")?;
    push_letters(row, length)?;
    write!(
        row,
        " -> ok\nfinish 1 -> stored {length} evicted {evicted}\nend 1 -> ok\n"
    )?;
    Ok(())
}

fn push_open(row: &mut String) -> Result<(), Fail> {
    push_times(row, MANY, READER)?;
    push_times(row, MANY, END)?;
    push_times(row, MANY, PERMIT)?;
    push_times(row, MANY, END)?;
    row.push_str("open 5000 -> ok\nkey 5000 p 1 -> ok\nlook 5000 -> none write\n")?;
    push_times(row, MANY, READ_LOCK)?;
    push_times(row, MANY, END)?;
    row.push_str("end 5000 -> ok\n")?;
    Ok(())
}

// The tracked entries are saved, and loaded into a world of their own.
fn play<R: Abort + Files>(rt: &R, alloc: Global) -> Result<(), Fail> {
    let mut row = String::new(alloc);
    push_times(&mut row, MANY, FILL)?;
    push_times(&mut row, MANY, FIND)?;
    row.push_str("save large_world -> ok\n")?;
    push_open(&mut row)?;
    push_long(&mut row, 2_097_153, MANY)?;
    check(rt, alloc, &["2097153"], row.as_str(), 0, "")?;
    let loaded = "load large_world -> ok\n\
        stat -> stored 0 slots 0 weight 5000 items 5000 evicted 0 size 0\n\
        open 1 -> ok\n\
        key 1 k0 1 -> ok\n\
        look 1 -> none write\n\
        save large_world -> ok\n";
    check(rt, alloc, &["2097153"], loaded, 0, "")
}

#[test]
fn many_requests_and_keys(rt: HostRuntime) -> Result<(), Fail> {
    let _ = fs::remove_dir_all(&rt, "large_world");
    play(&rt, rt.alloc())?;
    fs::remove_dir_all(&rt, "large_world")?;
    Ok(())
}

// A key of 2^12 letters, with a tag of 300, a variance, and 300 fills that cannot be used.
fn push_key(row: &mut String, number: u64) -> Result<(), Fail> {
    write!(row, "key {number} ")?;
    push_letters(row, 4_096)?;
    row.push(' ')?;
    push_letters(row, 300)?;
    row.push_str(" v=00000000000000000000000000000000 u=0")?;
    push_numbers(row, ',', 1)?;
    row.push_str(" -> ok\n")?;
    Ok(())
}

// The 299 numbers from the first one on, each after this character.
fn push_numbers(row: &mut String, before: char, first: u64) -> Result<(), Fail> {
    for number in first..first.saturating_add(299) {
        row.push(before)?;
        write!(row, "{number}")?;
    }
    Ok(())
}

// Calls of such a key, at second 2^32: one request fills it while another waits, and a third removes it.
fn push_keys(row: &mut String) -> Result<(), Fail> {
    row.push_str("at 4294967296 -> ok\nopen 1 w=90 -> ok\n")?;
    push_key(row, 1)?;
    row.push_str("look 1 -> none write\nopen 18446744073709551615 w=90 -> ok\n")?;
    push_key(row, u64::MAX)?;
    row.push_str("look 18446744073709551615 -> none read\n")?;
    row.push_str("wait 18446744073709551615 -> pending\npublish 1 1000")?;
    push_numbers(row, ' ', 1_001)?;
    row.push_str(" -> ok\nwait 18446744073709551615 -> pending\nmiss 1 -> ok\n")?;
    row.push_str("meta 1 60 9 9 -> ok\nbegin 1 -> ok\nwrite 1 x -> ok\n")?;
    row.push_str("finish 1 -> stored 1 evicted 0\nend 1 -> ok\n")?;
    row.push_str("wait 18446744073709551615 -> done\nlook 18446744073709551615 -> hit 1\n")?;
    row.push_str("found 18446744073709551615 fresh -> hit\nopen 2 -> ok\n")?;
    push_key(row, 2)?;
    row.push_str("expire 2 -> expired\npurge 2 -> purged\npurge 2 -> absent\n")?;
    row.push_str("expire 2 -> absent\nlook 2 -> none write\n")?;
    Ok(())
}

// A put of a key of 2^12 letters: a head of 200 fields comes in one piece, and a body of 200,000 letters in another.
fn push_put(row: &mut String) -> Result<(), Fail> {
    row.push_str("put 3 ")?;
    push_letters(row, 4_096)?;
    row.push_str(
        " 1 200000 -> ok\nfeed 3 HTTP/1.1\\s200\\sOK\\r\\nContent-Length:\\s200000\\r\\n",
    )?;
    for field in 0..200u64 {
        write!(row, "x{field}:\\s")?;
        push_letters(row, 40)?;
        row.push_str("\\r\\n")?;
    }
    row.push_str("\\r\\n -> ok\nfeed 3 ")?;
    push_letters(row, 200_000)?;
    row.push_str(" -> ok\nclose 3 -> stored 200000 evicted 0\n")?;
    Ok(())
}

// Every call that finds a body of 2^17 letters and one.
fn push_found(row: &mut String) -> Result<(), Fail> {
    row.push_str("open 2 -> ok\nkey 2 long 1 -> ok\nexpire 2 -> expired\nlook 2 -> hit 131073\n")?;
    row.push_str("found 2 expired -> stale write\nrevalidate 2 60 -> updated\nread 2 -> data ")?;
    push_letters(row, 131_073)?;
    row.push_str("\nread 2 -> end\ndone 2 -> ok\nend 2 -> ok\n")?;
    row.push_str("open 3 -> ok\nkey 3 long 1 -> ok\npurge 3 -> purged\nend 3 -> ok\n")?;
    Ok(())
}

#[test]
fn a_long_body(rt: HostRuntime) -> Result<(), Fail> {
    let mut row = String::new(rt.alloc());
    push_long(&mut row, 131_073, 0)?;
    push_found(&mut row)?;
    check(&rt, rt.alloc(), &["131073"], row.as_str(), 0, "")
}

#[test]
fn large_keys_heads_and_pieces(rt: HostRuntime) -> Result<(), Fail> {
    let mut row = String::new(rt.alloc());
    push_keys(&mut row)?;
    push_put(&mut row)?;
    check(&rt, rt.alloc(), &["300000"], row.as_str(), 0, "")
}

#[test]
fn many_puts(rt: HostRuntime) -> Result<(), Fail> {
    let mut row = String::new(rt.alloc());
    push_times(&mut row, 1_000, PUT)?;
    push_times(&mut row, 1_000, CLOSE)?;
    check(&rt, rt.alloc(), &["1000"], row.as_str(), 0, "")
}
