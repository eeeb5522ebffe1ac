//! The lines of traces, by rows: the names of the columns, a bar, and the line.
use crate::rows::{Desk, Told, play};
use cache_simulation::layout::{Layout, Refused};
use cache_simulation::trace::{
    BadLine, Columns, Record, TraceType, beginning, read_cdn, read_line, read_record, read_twitter,
};

#[derive(Drop)]
struct Reader;

impl Desk for Reader {
    fn tell(&mut self, call: &'static str, told: &mut Told) {
        let (names, line) = call.split_once('|').unwrap_or((call, ""));
        let Some(columns) = Columns::read(names) else {
            return told.say("no columns");
        };
        match read_line(line, columns) {
            Ok(asked) => {
                told.say(asked.key);
                told.say(" of ");
                told.shown(&asked.size);
                told.say(" at ");
                told.number(asked.second);
            }
            Err(why) => told.named(&why),
        }
    }
}

const READ: &str = "
    time,key,size|17,a/b,120 -> a/b of 120 at 17
    time,key,size|17.9,a b,120,more -> a b of 120 at 17
    size,node,key|120,n,a -> a of 120 at 0
    # lines that are no requests
    time,key,size|time,key,size -> Size
    time,key,size|17,a -> NoSize
    time,key,size|17,,120 -> NoKey
    time,key,size|17, ,120 -> NoKey
    time,key,size|17,a,-3 -> Size
    time,key,size|17,a,1.5 -> Size
    time,key,size|,a,120 -> Time
    time,key,size|17.x,a,120 -> Time
    key,size,time|a,120 -> Time
    # a line without commas
    time,key,size|a/b  120 -> a/b of 120 at 0
    time,key,size|a 120 7 -> Words
    time,key,size|a b -> Size
    time,key,size|a -> NoSize
    time,key,size| -> NoKey
    # names of columns
    time,size|17,120 -> no columns
    key,size,key|a,120,b -> no columns
    time,time,key,size|1,2,a,120 -> no columns
    key, size|a,120 -> a of 120 at 0";

#[test]
fn lines_are_read_by_their_columns(rt: HostRuntime) {
    play(&rt, rt.alloc(), &mut Reader, READ);
    assert!(rt; Columns::read("time,key,size") == Some(Columns::USUAL));
}

// The columns that are given (`-` if none are), a bar and the first line.
#[derive(Drop)]
struct FirstLine;

impl Desk for FirstLine {
    fn tell(&mut self, call: &'static str, told: &mut Told) {
        let (names, line) = call.split_once('|').unwrap_or((call, ""));
        let mut layout = Layout::new(TraceType::named(names), Columns::read(names));
        match layout.first(line.as_bytes()) {
            Ok(first) => told.named(&first),
            Err(refused) => told.named(&refused),
        }
        match layout.read(b"1,2,3") {
            Ok(None) => told.say("; another operation"),
            Ok(Some(asked)) => {
                told.say("; 1,2,3 is ");
                told.say(asked.key);
                told.say(" of ");
                told.shown(&asked.size);
                told.say(" at ");
                told.number(asked.second);
            }
            Err(_why) => told.say("; no request"),
        }
    }
}

const FIRST: &str = "
    -|time,key,size -> Header; 1,2,3 is 2 of 3 at 1
    -|time,size,key -> Header; 1,2,3 is 3 of 2 at 1
    -|size, key, next -> Header; 1,2,3 is 2 of 1 at 0
    -|7,a,5 -> Line; 1,2,3 is 2 of 3 at 1
    key,size|a,5 -> Line; 1,2,3 is 1 of 2 at 0
    key,size,time|key,size,time -> Header; 1,2,3 is 1 of 2 at 3
    key,size,time|name,bytes,second -> Passed; 1,2,3 is 1 of 2 at 3
    # no header: it has a digit or no commas, so it is a bad line like others
    -|7,a,b -> Line; 1,2,3 is 2 of 3 at 1
    -|key size -> Line; 1,2,3 is 2 of 3 at 1
    # guessed by its words: a second, a key and a size; a second, a key, two sizes, a client, an operation and a time
    -|1000 12 4096 -> Line; no request
    -|a b 4096 -> Line; 1,2,3 is 2 of 3 at 1
    -|7,a,1,2,c,get,0 -> Line; no request
    -|7,a,1,2,c,fetch,0 -> Line; 1,2,3 is 2 of 3 at 1
    csv|7,a,1,2,c,get,0 -> Line; 1,2,3 is 2 of 3 at 1
    twitter|7,a,3 -> Line; no request
    # refused
    -|second,name,bytes -> NoNames; 1,2,3 is 2 of 3 at 1
    -|time,key,key,size -> NoNames; 1,2,3 is 2 of 3 at 1
    key,size,time|time,size,key -> OtherNames; 1,2,3 is 1 of 2 at 3";

#[test]
fn a_header_names_the_columns_or_is_refused(rt: HostRuntime) {
    play(&rt, rt.alloc(), &mut FirstLine, FIRST);
}

// What a trace that begins with these bytes is: whether it has records, or the program that unpacks it.
fn begun(bytes: &[u8]) -> Result<bool, Refused> {
    let mut layout = Layout::new(None, None);
    layout.begin(bytes)?;
    Ok(layout.has_records())
}

#[test]
fn the_first_bytes_say_what_a_trace_is(rt: HostRuntime) {
    assert!(rt; begun(&[0x1f, 0x8b, 8, 0]) == Err(Refused::Packed("zcat")));
    assert!(rt; begun(&[0x28, 0xb5, 0x2f, 0xfd]) == Err(Refused::Packed("zstdcat")));
    assert!(rt; begun(b"1,a,2") == Ok(false));
    assert!(rt; begun(&RECORDED) == Ok(true));
}

// Second 7, body 258, 4,096 bytes, and no next request.
const RECORDED: [u8; 24] = [
    7, 0, 0, 0, 2, 1, 0, 0, 0, 0, 0, 0, 0, 16, 0, 0, 255, 255, 255, 255, 255, 255, 255, 255,
];

#[test]
fn records_are_read(rt: HostRuntime) {
    let wanted = Record {
        second: 7,
        id: 258,
        size: 4096,
        next: -1,
    };
    assert!(rt; read_record(&RECORDED) == Ok(wanted));
    assert!(rt; read_record(&RECORDED[..23]) == Err(BadLine::Cut));
    assert!(rt; read_record(&[]) == Err(BadLine::Cut));
}

// Lines of other traces: `cdn` or `twitter`, a bar, and the line.
#[derive(Drop)]
struct Other;

impl Desk for Other {
    fn tell(&mut self, call: &'static str, told: &mut Told) {
        let (name, line) = call.split_once('|').unwrap_or((call, ""));
        let asked = match name {
            "cdn" => match read_cdn(line) {
                Ok(asked) => Ok(Some(asked)),
                Err(why) => Err(why),
            },
            _ => read_twitter(line),
        };
        match asked {
            Ok(None) => told.say("another operation"),
            Ok(Some(asked)) => {
                told.say(asked.key);
                told.say(" of ");
                told.shown(&asked.size);
                told.say(" at ");
                told.number(asked.second);
            }
            Err(why) => told.named(&why),
        }
    }
}

const OTHERS: &str = "
    cdn|1000 12 4096 -> 12 of 4096 at 1000
    cdn|1000.5 12 4096 3 9 -> 12 of 4096 at 1000
    cdn|12 4096 -> NoSize
    cdn|x 12 4096 -> Time
    cdn|1000 12 4k -> Size
    cdn| -> Time
    twitter|9,key,3,40,8,get,0 -> key of 43 at 9
    twitter|9,key,3,40,8,gets,60 -> key of 43 at 9
    twitter|9,key,3,40,8,set,60 -> another operation
    twitter|9,,3,40,8,get,0 -> NoKey
    twitter|9,key,3,x,8,get,0 -> Size
    twitter|9,key,3 -> NoSize
    twitter|9,key,3,40,8,get -> Fields
    twitter|9,key,3,40,8,get,0,1 -> Fields
    twitter|9,key,1,18446744073709551615,8,get,0 -> Size
    twitter|,key,3,40,8,get,0 -> Time";

#[test]
fn lines_of_other_traces_are_read(rt: HostRuntime) {
    play(&rt, rt.alloc(), &mut Other, OTHERS);
}

const LONG: &str = "a line of more than sixty bytes, of which no more are shown: here";

#[test]
fn the_beginning_of_a_line_is_shown(rt: HostRuntime) {
    assert!(rt; beginning(b"short") == "short");
    assert!(rt;
        beginning(LONG.as_bytes()) == "a line of more than sixty bytes, of which no more are shown:"
    );
    assert!(rt; beginning(&[b'a', 0xff]) == "");
}
