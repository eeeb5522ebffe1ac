//! Rows of responses that are pushed in.

use super::check;
use std::alloc::Global;
use std::fs::Files;
use std::process::Abort;
use std::test::Fail;

// A response that is pushed in: the line that begins its put, its bytes, for how many of them the
// reply is `ok`, the replies to the others, and the reply at the end.
#[derive(Drop)]
struct Pushed {
    put: &'static str,
    bytes: &'static str,
    fine: usize,
    told: &'static str,
    end: &'static str,
}

// Adds the line that feeds bytes, by escapes, and its reply.
fn push_feed(row: &mut String, bytes: &[u8], told: &str) -> Result<(), Fail> {
    row.push_str("feed 9 ")?;
    if bytes.is_empty() {
        row.push_str("\\e")?;
    }
    for byte in bytes {
        match byte {
            b' ' => row.push_str("\\s")?,
            b'\r' => row.push_str("\\r")?,
            b'\n' => row.push_str("\\n")?,
            _ => row.push(char::from(*byte))?,
        }
    }
    row.push_str(" -> ")?;
    row.push_str(told)?;
    row.push('\n')?;
    Ok(())
}

// Plays the put in pieces that end at these places.
fn play<R: Abort + Files>(
    rt: &R,
    alloc: Global,
    pushed: &Pushed,
    ends: &[usize],
) -> Result<(), Fail> {
    let mut row = String::new(alloc);
    row.push_str(pushed.put)?;
    row.push_str(" -> ok\n")?;
    let bytes = pushed.bytes.as_bytes();
    let mut start = 0usize;
    for end in ends {
        let told = if *end <= pushed.fine {
            "ok"
        } else {
            pushed.told
        };
        push_feed(&mut row, bytes.get(start..*end).unwrap_or(&[]), told)?;
        start = *end;
    }
    row.push_str("close 9 -> ")?;
    row.push_str(pushed.end)?;
    row.push('\n')?;
    check(rt, alloc, &["9"], row.as_str(), 0, "")
}

// Plays the put byte by byte, and cut in two at each place.
fn play_cut<R: Abort + Files>(rt: &R, alloc: Global, pushed: &Pushed) -> Result<(), Fail> {
    let len = pushed.bytes.len();
    let mut places = Vec::new(alloc);
    for place in 0..len {
        places.push(place.saturating_add(1))?;
        play(rt, alloc, pushed, &[place, len])?;
    }
    play(rt, alloc, pushed, places.as_slice())
}

#[test]
fn stored(rt: HostRuntime) -> Result<(), Fail> {
    let pushed = Pushed {
        put: "put 9 a 1",
        bytes: "HTTP/1.1 200 OK\r\nContent-Length: 4\r\n\r\nrust",
        fine: 99,
        told: "ok",
        end: "stored 4 evicted 0",
    };
    play_cut(&rt, rt.alloc(), &pushed)
}

#[test]
fn not_cacheable(rt: HostRuntime) -> Result<(), Fail> {
    let pushed = Pushed {
        put: "put 9 a 1",
        bytes: "HTTP/1.1 200 OK\r\nContent-Length: 4\r\nCache-Control: no-store\r\n\r\nru",
        fine: 62,
        told: "no cache OriginNotCache",
        end: "no cache OriginNotCache",
    };
    play_cut(&rt, rt.alloc(), &pushed)
}

#[test]
fn ends_early(rt: HostRuntime) -> Result<(), Fail> {
    let pushed = Pushed {
        put: "put 9 a 1",
        bytes: "HTTP/1.1 200 OK\r\nContent-Length: 4\r\n\r\nru",
        fine: 99,
        told: "ok",
        end: "refused E5",
    };
    play_cut(&rt, rt.alloc(), &pushed)
}

#[test]
fn too_large_by_its_head(rt: HostRuntime) -> Result<(), Fail> {
    let pushed = Pushed {
        put: "put 9 a 1 3",
        bytes: "HTTP/1.1 200 OK\r\nContent-Length: 4\r\n\r\nrust",
        fine: 37,
        told: "no cache ResponseTooLarge",
        end: "no cache ResponseTooLarge",
    };
    play_cut(&rt, rt.alloc(), &pushed)
}

#[test]
fn too_large_by_its_body(rt: HostRuntime) -> Result<(), Fail> {
    let pushed = Pushed {
        put: "put 9 a 1 3",
        bytes: "HTTP/1.1 200 OK\r\n\r\nrust",
        fine: 22,
        told: "refused E4",
        end: "refused E4",
    };
    play_cut(&rt, rt.alloc(), &pushed)
}

#[test]
fn bytes_past_the_length(rt: HostRuntime) -> Result<(), Fail> {
    let pushed = Pushed {
        put: "put 9 a 1",
        bytes: "HTTP/1.1 200 OK\r\nContent-Length: 4\r\n\r\nrustXX",
        fine: 99,
        told: "ok",
        end: "stored 4 evicted 0",
    };
    play_cut(&rt, rt.alloc(), &pushed)
}

// A response without content: what comes after its head is no body.
#[test]
fn status_204(rt: HostRuntime) -> Result<(), Fail> {
    let pushed = Pushed {
        put: "put 9 a 1",
        bytes: "HTTP/1.1 204 OK\r\nContent-Length: 4\r\n\r\nrust",
        fine: 99,
        told: "ok",
        end: "stored 0 evicted 0",
    };
    play_cut(&rt, rt.alloc(), &pushed)
}

#[test]
fn no_body_is_read(rt: HostRuntime) -> Result<(), Fail> {
    let row = "put 9 a 1 -> ok\n\
        feed 9 HTTP/1.1\\s204\\sOK\\r\\nContent-Length:\\s4\\r\\n\\r\\nrust -> ok\n\
        close 9 -> stored 0 evicted 0\n\
        open 1 -> ok\n\
        key 1 a 1 -> ok\n\
        look 1 -> hit 0\n\
        found 1 fresh -> hit\n\
        read 1 -> data \\e\n\
        read 1 -> end\n";
    check(&rt, rt.alloc(), &["9"], row, 0, "")
}

#[test]
fn heads_that_cannot_be_read(rt: HostRuntime) -> Result<(), Fail> {
    let row = "put 8 a 1 -> ok\n\
        feed 8 HTTP/1.1\\s2x -> ok\n\
        close 8 -> refused E5\n\
        put 9 a 1 -> ok\n\
        feed 9 HTTP/1.1\\s2x -> ok\n\
        feed 9 \\r\\n\\r\\n -> refused E3\n\
        feed 9 x -> refused E3\n\
        close 9 -> refused E3\n\
        stat -> stored 0 slots 0 weight 0 items 0 evicted 0 size 0\n";
    check(&rt, rt.alloc(), &["9"], row, 0, "")
}

// A head with so many fields.
fn check_fields<R: Abort + Files>(
    rt: &R,
    alloc: Global,
    fields: usize,
    fed: &str,
    closed: &str,
) -> Result<(), Fail> {
    let mut row = String::new(alloc);
    row.push_str("put 9 a 1 -> ok\nfeed 9 HTTP/1.1\\s200\\sOK\\r\\n")?;
    for field in 0..fields {
        row.push_str(format!(in alloc; "f{field}:\\sv\\r\\n")?.as_str())?;
    }
    row.push_str("\\r\\n -> ")?;
    row.push_str(fed)?;
    row.push_str("\nclose 9 -> ")?;
    row.push_str(closed)?;
    row.push('\n')?;
    check(rt, alloc, &["9"], row.as_str(), 0, "")
}

#[test]
fn as_many_fields_as_there_is_room_for(rt: HostRuntime) -> Result<(), Fail> {
    check_fields(&rt, rt.alloc(), 256, "ok", "stored 0 evicted 0")?;
    check_fields(&rt, rt.alloc(), 257, "refused E3", "refused E3")
}

#[test]
fn purged_before_its_end(rt: HostRuntime) -> Result<(), Fail> {
    let row = "put 9 a 1 -> ok\n\
        feed 9 HTTP/1.1\\s200\\sOK\\r\\nContent-Length:\\s4\\r\\n\\r\\nrust -> ok\n\
        open 1 -> ok\n\
        key 1 a 1 -> ok\n\
        purge 1 -> purged\n\
        close 9 -> refused E6\n";
    check(&rt, rt.alloc(), &["9"], row, 0, "")
}

// Requests and puts share their numbers, and a call of one is wrong on the other.
#[test]
fn of_one_kind_each(rt: HostRuntime) -> Result<(), Fail> {
    let row = "put 9 a 1 -> ok\n\
        feed 9 HTTP/1.1\\s200\\sOK\\r\\nContent-Length:\\s4\\r\\n\\r\\nrust -> ok\n\
        open 9 -> wrong call\n\
        put 9 a 1 -> wrong call\n\
        key 9 a 1 -> wrong call\n\
        write 9 x -> wrong call\n\
        finish 9 -> wrong call\n\
        phase 9 -> wrong call\n\
        end 9 -> wrong call\n\
        open 1 -> ok\n\
        put 1 a 1 -> wrong call\n\
        feed 1 x -> wrong call\n\
        drop 1 -> wrong call\n\
        close 1 -> wrong call\n\
        key 1 b 1 -> ok\n\
        look 1 -> none write\n\
        give 1 9 -> wrong call\n\
        give 9 1 -> wrong call\n\
        give 9 9 -> wrong call\n\
        close 9 -> stored 4 evicted 0\n\
        feed 9 x -> wrong call\n\
        close 9 -> wrong call\n\
        drop 9 -> wrong call\n\
        open 9 -> ok\n";
    check(&rt, rt.alloc(), &["9"], row, 0, "")
}

// A reader follows the write of a put, which is dropped.
#[test]
fn dropped(rt: HostRuntime) -> Result<(), Fail> {
    let row = "put 9 a 1 -> ok\n\
        feed 9 HTTP/1.1\\s200\\sOK\\r\\n\\r\\nru -> ok\n\
        open 1 -> ok\n\
        key 1 a 1 -> ok\n\
        look 1 -> part\n\
        found 1 fresh -> hit\n\
        read 1 -> data ru\n\
        read 1 -> pending\n\
        drop 9 -> ok\n\
        read 1 -> end\n\
        open 2 -> ok\n\
        key 2 a 1 -> ok\n\
        look 2 -> none write\n\
        feed 9 st -> wrong call\n";
    check(&rt, rt.alloc(), &["9"], row, 0, "")
}
