//! Whole scripts, each with the replies that are wanted.
//! Expected replies are hand-computed from the definitions.
mod files;
mod large;
mod phases;
mod purges;
mod puts;
mod variants;
mod waits;

use cache_script::replay::{refuse_arguments, replay};
use std::alloc::Global;
use std::fs::Files;
use std::io::ErrorKind;
use std::process::Abort;
use std::test::Fail;

// Runs the calls of a row, in which a reply follows each call that has one, its lines joined by `; `, and compares
// the replies, the status and the error output.
fn check<R: Abort + Files>(
    rt: &R,
    alloc: Global,
    args: &[&str],
    row: &str,
    status: u8,
    error: &str,
) -> Result<(), Fail> {
    let mut words = Vec::new(alloc);
    for arg in args {
        words.push(String::from_str(alloc, arg)?)?;
    }
    let mut script = String::new(alloc);
    let mut replies = String::new(alloc);
    for line in row.lines() {
        match line.split_once(" -> ") {
            Some((call, reply)) => {
                script.push_str(call)?;
                for told in reply.split("; ") {
                    replies.push_str(told)?;
                    replies.push_str("\n")?;
                }
            }
            None => script.push_str(line)?,
        }
        script.push_str("\n")?;
    }
    let mut output = Vec::new(alloc);
    let mut errors = Vec::new(alloc);
    let ended = replay(
        alloc,
        words.as_slice(),
        rt,
        script.as_bytes(),
        &mut output,
        &mut errors,
    );
    assert_eq!(rt; ended, status);
    assert!(rt; output.as_slice() == replies.as_bytes(), "{output:?}");
    assert!(rt; errors.as_slice() == error.as_bytes());
    Ok(())
}

#[test]
fn first_run(rt: HostRuntime) -> Result<(), Fail> {
    let row = "open 1 -> ok\n\
        key 1 aa 1 -> ok\n\
        look 1 -> none write\n\
        miss 1 -> ok\n\
        meta 1 60 -> ok\n\
        begin 1 -> ok\n\
        write 1 hi -> ok\n\
        finish 1 -> stored 2 evicted 0\n";
    check(&rt, rt.alloc(), &["4"], row, 0, "")
}

#[test]
fn torment_tells_all_of_each_call(rt: HostRuntime) -> Result<(), Fail> {
    let row =
        "open 1 -> ok; noted ok; stored 0 slots 0 weight 0 items 0 evicted 0 size 0; entries 1\n\
        key 1 aa 1 -> ok; noted ok; stored 0 slots 0 weight 0 items 0 evicted 0 size 0; entries 2\n\
        look 1 -> none write; noted none write; look ac10f2aef117729f8dad056b3059eb7e nothing; \
        ask ac10f2aef117729f8dad056b3059eb7e 0 true; \
        stored 0 slots 0 weight 0 items 0 evicted 0 size 0; entries 3\n\
        miss 1 -> ok; noted ok; stored 0 slots 0 weight 0 items 0 evicted 0 size 0; entries 4\n\
        meta 1 60 -> ok; noted ok; stored 0 slots 0 weight 0 items 0 evicted 0 size 0; entries 5\n\
        begin 1 -> ok; noted ok; begin 0 ac10f2aef117729f8dad056b3059eb7e 60000000000,0,0,0,0,none; \
        release 0; stored 0 slots 0 weight 0 items 0 evicted 0 size 0; entries 6\n\
        write 1 hi -> ok; noted ok; wrote 0 hi false; \
        stored 0 slots 0 weight 0 items 0 evicted 0 size 0; entries 7\n\
        finish 1 -> stored 2 evicted 0; noted stored 2 evicted 0; finish 0 true; \
        admit ac10f2aef117729f8dad056b3059eb7e/1/0 2; \
        stored 2 slots 1 weight 2 items 1 evicted 0 size 0; entries 8\n";
    let alloc = rt.alloc();
    check(&rt, alloc, &["torment", "simple", "4"], row, 0, "")?;
    check(&rt, alloc, &["torment", "shards", "4", "9"], row, 0, "")?;
    let end = "bad arguments\n";
    check(&rt, alloc, &["torment", "4"], "", 1, end)?;
    check(&rt, alloc, &["torment", "other", "4"], "", 1, end)?;
    check(&rt, alloc, &["torment"], "", 1, end)
}

#[test]
fn the_two_oldest_go(rt: HostRuntime) -> Result<(), Fail> {
    let row = "open 1 -> ok\n\
        key 1 a 1 -> ok\n\
        look 1 -> none write\n\
        miss 1 -> ok\n\
        meta 1 60 -> ok\n\
        begin 1 -> ok\n\
        write 1 x -> ok\n\
        finish 1 -> stored 1 evicted 0\n\
        end 1 -> ok\n\
        open 2 -> ok\n\
        key 2 b 1 -> ok\n\
        look 2 -> none write\n\
        miss 2 -> ok\n\
        meta 2 60 -> ok\n\
        begin 2 -> ok\n\
        write 2 xx -> ok\n\
        finish 2 -> stored 2 evicted 0\n\
        end 2 -> ok\n\
        open 3 -> ok\n\
        key 3 c 1 -> ok\n\
        look 3 -> none write\n\
        miss 3 -> ok\n\
        meta 3 60 -> ok\n\
        begin 3 -> ok\n\
        write 3 x -> ok\n\
        finish 3 -> stored 1 evicted 0\n\
        end 3 -> ok\n\
        open 4 -> ok\n\
        key 4 d 1 -> ok\n\
        look 4 -> none write\n\
        miss 4 -> ok\n\
        meta 4 60 -> ok\n\
        begin 4 -> ok\n\
        write 4 xx -> ok\n\
        finish 4 -> stored 2 evicted 2\n\
        end 4 -> ok\n\
        open 5 -> ok\n\
        key 5 c 1 -> ok\n\
        look 5 -> hit 1\n\
        open 6 -> ok\n\
        key 6 d 1 -> ok\n\
        look 6 -> hit 2\n\
        open 7 -> ok\n\
        key 7 a 1 -> ok\n\
        look 7 -> none write\n\
        stat -> stored 3 slots 2 weight 3 items 2 evicted 2 size 3\n";
    check(&rt, rt.alloc(), &["4"], row, 0, "")
}

#[test]
fn larger_than_the_cache(rt: HostRuntime) -> Result<(), Fail> {
    let row = "open 1 -> ok\n\
        key 1 a 1 -> ok\n\
        look 1 -> none write\n\
        miss 1 -> ok\n\
        meta 1 60 -> ok\n\
        begin 1 -> ok\n\
        write 1 xxxx -> ok\n\
        finish 1 -> stored 4 evicted 1\n\
        end 1 -> ok\n\
        open 2 -> ok\n\
        key 2 a 1 -> ok\n\
        look 2 -> none write\n\
        stat -> stored 0 slots 0 weight 0 items 0 evicted 1 size 4\n";
    check(&rt, rt.alloc(), &["3"], row, 0, "")
}

#[test]
fn one_slot_under_two_tags(rt: HostRuntime) -> Result<(), Fail> {
    let row = "open 1 -> ok\n\
        key 1 aa 1 -> ok\n\
        look 1 -> none write\n\
        miss 1 -> ok\n\
        meta 1 60 -> ok\n\
        begin 1 -> ok\n\
        write 1 xxx -> ok\n\
        finish 1 -> stored 3 evicted 0\n\
        end 1 -> ok\n\
        open 2 -> ok\n\
        key 2 aa 2 -> ok\n\
        look 2 -> hit 3\n\
        miss 2 -> ok\n\
        meta 2 60 -> ok\n\
        begin 2 -> ok\n\
        write 2 yy -> ok\n\
        finish 2 -> stored 2 evicted 1\n\
        end 2 -> ok\n\
        open 3 -> ok\n\
        key 3 aa 1 -> ok\n\
        look 3 -> hit 2\n\
        stat -> stored 2 slots 1 weight 2 items 1 evicted 1 size 3\n";
    check(&rt, rt.alloc(), &["4"], row, 0, "")
}

#[test]
fn a_purge_while_a_write_is_in_flight(rt: HostRuntime) -> Result<(), Fail> {
    let row = "open 1 -> ok\n\
        key 1 k 1 -> ok\n\
        look 1 -> none write\n\
        miss 1 -> ok\n\
        meta 1 60 -> ok\n\
        begin 1 -> ok\n\
        write 1 x -> ok\n\
        open 2 -> ok\n\
        key 2 k 1 -> ok\n\
        purge 2 -> purged\n\
        open 3 -> ok\n\
        key 3 k 1 -> ok\n\
        look 3 -> none write\n\
        miss 3 -> ok\n\
        meta 3 60 -> ok\n\
        begin 3 -> ok\n\
        write 3 yy -> ok\n\
        finish 1 -> refused E6\n\
        finish 3 -> stored 2 evicted 0\n\
        open 4 -> ok\n\
        key 4 k 1 -> ok\n\
        look 4 -> hit 2\n\
        found 4 fresh -> hit\n\
        read 4 -> data yy\n\
        read 4 -> end\n";
    check(&rt, rt.alloc(), &["9"], row, 0, "")
}

#[test]
fn a_reader_follows_a_purged_write(rt: HostRuntime) -> Result<(), Fail> {
    let row = "open 1 -> ok\n\
        key 1 k 1 -> ok\n\
        look 1 -> none write\n\
        miss 1 -> ok\n\
        meta 1 60 -> ok\n\
        begin 1 -> ok\n\
        open 2 -> ok\n\
        key 2 k 1 -> ok\n\
        look 2 -> part\n\
        found 2 fresh -> hit\n\
        read 2 -> pending\n\
        write 1 ab -> ok\n\
        read 2 -> data ab\n\
        open 3 -> ok\n\
        key 3 k 1 -> ok\n\
        purge 3 -> purged\n\
        write 1 cd -> ok\n\
        end 1 -> ok\n\
        read 2 -> data cd\n\
        read 2 -> end\n\
        open 4 -> ok\n\
        key 4 k 1 -> ok\n\
        look 4 -> none write\n";
    check(&rt, rt.alloc(), &["9"], row, 0, "")
}

#[test]
fn the_watermark(rt: HostRuntime) -> Result<(), Fail> {
    let row = "open 1 -> ok\n\
        key 1 k1 1 -> ok\n\
        look 1 -> none write\n\
        miss 1 -> ok\n\
        meta 1 60 -> ok\n\
        begin 1 -> ok\n\
        write 1 x -> ok\n\
        finish 1 -> stored 1 evicted 0\n\
        end 1 -> ok\n\
        open 2 -> ok\n\
        key 2 k2 1 -> ok\n\
        look 2 -> none write\n\
        miss 2 -> ok\n\
        meta 2 60 -> ok\n\
        begin 2 -> ok\n\
        write 2 x -> ok\n\
        finish 2 -> stored 1 evicted 0\n\
        end 2 -> ok\n\
        open 3 -> ok\n\
        key 3 k3 1 -> ok\n\
        look 3 -> none write\n\
        miss 3 -> ok\n\
        meta 3 60 -> ok\n\
        begin 3 -> ok\n\
        write 3 x -> ok\n\
        finish 3 -> stored 1 evicted 0\n\
        end 3 -> ok\n\
        open 4 -> ok\n\
        key 4 k4 1 -> ok\n\
        look 4 -> none write\n\
        miss 4 -> ok\n\
        meta 4 60 -> ok\n\
        begin 4 -> ok\n\
        write 4 x -> ok\n\
        finish 4 -> stored 1 evicted 0\n\
        end 4 -> ok\n\
        open 5 -> ok\n\
        key 5 k5 1 -> ok\n\
        look 5 -> none write\n\
        miss 5 -> ok\n\
        meta 5 60 -> ok\n\
        begin 5 -> ok\n\
        write 5 x -> ok\n\
        finish 5 -> stored 1 evicted 1\n\
        end 5 -> ok\n\
        open 6 -> ok\n\
        key 6 k6 1 -> ok\n\
        look 6 -> none write\n\
        miss 6 -> ok\n\
        meta 6 60 -> ok\n\
        begin 6 -> ok\n\
        write 6 x -> ok\n\
        finish 6 -> stored 1 evicted 1\n\
        end 6 -> ok\n\
        stat -> stored 4 slots 4 weight 4 items 4 evicted 2 size 2\n";
    check(&rt, rt.alloc(), &["1000", "4"], row, 0, "")
}

#[test]
fn wrong_calls(rt: HostRuntime) -> Result<(), Fail> {
    let row = "finish 5 -> wrong call\n\
        open 1 -> ok\n\
        open 1 -> wrong call\n\
        stat -> stored 0 slots 0 weight 0 items 0 evicted 0 size 0\n";
    check(&rt, rt.alloc(), &["9"], row, 0, "")
}

#[test]
fn an_empty_script(rt: HostRuntime) -> Result<(), Fail> {
    let row = "";
    check(&rt, rt.alloc(), &["9"], row, 0, "")
}

#[test]
fn a_bad_call(rt: HostRuntime) -> Result<(), Fail> {
    let row = "lok 1\n";
    check(&rt, rt.alloc(), &["9"], row, 1, "line 1: bad call\n")
}

#[test]
fn bad_arguments(rt: HostRuntime) -> Result<(), Fail> {
    let alloc = rt.alloc();
    let cases: [&[&str]; 6] = [
        &[],
        &["x"],
        &["-1"],
        &["+1"],
        &["18446744073709551616"],
        &["1", "2", "3"],
    ];
    for args in cases {
        check(&rt, alloc, args, "open 1\n", 1, "bad arguments\n")?;
    }
    Ok(())
}

// What is said of arguments that could not be read at all, by how that failed.
fn refused(alloc: Global, kind: ErrorKind, said: &str) -> bool {
    let mut errors = Vec::new(alloc);
    let status = refuse_arguments(kind, &mut errors);
    status == 1 && errors.as_slice() == said.as_bytes()
}

// One is no text, or there is no memory for them.
#[test]
fn arguments_that_are_not_read(rt: HostRuntime) {
    let alloc = rt.alloc();
    assert!(rt; refused(alloc, ErrorKind::InvalidData, "bad arguments\n"));
    assert!(rt; refused(alloc, ErrorKind::OutOfMemory, "out of memory\n"));
}

// Words, numbers and escapes that a line may have, and those that it may not.
#[test]
fn lines(rt: HostRuntime) -> Result<(), Fail> {
    let alloc = rt.alloc();
    check(
        &rt,
        alloc,
        &["09"],
        "\n# a comment\n open  007 -> ok\nend 7 -> ok\n",
        0,
        "",
    )?;
    for line in [
        "open",
        "open +1",
        "open 18446744073709551616",
        "open 1 2",
        " ",
        " #",
        "stat 1",
        "key 1 a",
        "key 1 a \\xff",
        "key 1 \\q 1",
        "key 1 a\\e 1",
        "key 1 a 1 v=00",
        "key 1 a 1 u=",
        "key 1 a 1 u=7,",
        "key 1 a 1 u=7 u=8",
        "write 1 a eo",
        "found 1 stale",
        "at",
        "at -1",
        "meta 1 5 6",
        "meta 1 5 6 4294967296",
        "lock 1 maybe",
        "publish 1",
        "release 1 Custom",
        "vary 1 00",
        "variance 1 nothing",
        "revalidate 1",
    ] {
        let mut row = String::from_str(alloc, "open 1 -> ok\n")?;
        row.push_str(line)?;
        check(&rt, alloc, &["9"], row.as_str(), 1, "line 2: bad call\n")?;
    }
    Ok(())
}

#[test]
fn escapes_and_the_last_bytes(rt: HostRuntime) -> Result<(), Fail> {
    let row = "open 1 -> ok\n\
        key 1 \\x00\\s\\n t -> ok\n\
        look 1 -> none write\n\
        read 1 -> wrong call\n\
        write 1 a -> wrong call\n\
        miss 1 -> ok\n\
        finish 1 -> nothing\n\
        begin 1 -> wrong call\n\
        meta 1 60 -> ok\n\
        begin 1 -> ok\n\
        write 1 a\\s\\r\\n\\\\\\x7F\\xff eof -> ok\n\
        write 1 b -> wrong call\n\
        read 1 -> data a\\s\\r\\n\\\\\\x7f\\xff\n\
        read 1 -> end\n\
        finish 1 -> stored 7 evicted 0\n\
        open 2 -> ok\n\
        key 2 \\x00\\s\\n t -> ok\n\
        look 2 -> hit 7\n\
        found 2 fresh -> hit\n\
        found 2 fresh -> wrong call\n\
        read 2 -> data a\\s\\r\\n\\\\\\x7f\\xff\n\
        read 2 -> end\n\
        open 3 -> ok\n\
        key 3 z t -> ok\n\
        look 3 -> none write\n\
        open 4 -> ok\n\
        key 4 z t -> ok\n\
        look 4 -> none read\n\
        miss 3 -> ok\n\
        meta 3 60 -> ok\n\
        begin 3 -> ok\n\
        write 3 \\e eof -> ok\n\
        finish 3 -> stored 0 evicted 0\n\
        look 4 -> hit 0\n\
        found 4 fresh -> hit\n\
        read 4 -> data \\e\n\
        read 4 -> end\n";
    check(&rt, rt.alloc(), &["9"], row, 0, "")
}
