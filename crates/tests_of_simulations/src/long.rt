//! A trace of a million requests, which is longer than a batch of them and than a buffer of a file, under each option that changes
//! what is counted. `bench/long_trace.py` wrote the rows.
use crate::options::with;
use cache_simulation::options::{Options, read};
use cache_simulation::simulation::simulate;
use std::alloc::Global;
use std::io::Write;
use std::process::Abort;
use std::rt::{Clock, Files};
use std::test::Fail;
use std::thread::Threads;
use std::{fs, io, str};

const REQUESTS: u64 = 1_000_000;

// How a trace is written.
#[derive(Clone, Copy)]
enum Form {
    Csv,
    Cdn,
    Twitter,
    Records,
}

// Adds a request. One key in 16 is longer than those that stand by themselves.
fn write_request(
    trace: &mut Vec<u8>,
    form: Form,
    second: u64,
    name: u64,
    size: u64,
) -> io::Result<()> {
    if matches!(form, Form::Records) {
        return write_record(trace, second, name, size);
    }
    let key = if name % 16 == 5 {
        "a-key-that-does-not-stand-by-itself/"
    } else {
        "key"
    };
    match form {
        Form::Cdn => write!(trace, "{second} {key}{name} {size}\n"),
        Form::Twitter => {
            write!(
                trace,
                "{second},{key}{name},1,{},7,get,0\n",
                size.wrapping_sub(1)
            )
        }
        _ => write!(trace, "{second},{key}{name},{size}\n"),
    }
}

fn write_record(trace: &mut Vec<u8>, second: u64, name: u64, size: u64) -> io::Result<()> {
    let (second, size) = (second % (1 << 32), size % (1 << 32));
    trace.write_all(&(second as u32).to_le_bytes())?;
    trace.write_all(&name.to_le_bytes())?;
    trace.write_all(&(size as u32).to_le_bytes())?;
    trace.write_all(&u64::MAX.to_le_bytes())
}

// The size of a body, which doubles after 600,000 requests.
fn size_of(number: u64, name: u64) -> u64 {
    if name == 500 {
        return 30_000;
    }
    (name.wrapping_mul(37) % 97 + 1).wrapping_mul(number / 600_000 + 1)
}

fn write_requests(trace: &mut Vec<u8>, form: Form) -> io::Result<()> {
    let mut drawn = 1u64;
    for number in 0..REQUESTS {
        drawn = drawn
            .wrapping_mul(6_364_136_223_846_793_005)
            .wrapping_add(1_442_695_040_888_963_407);
        let name = ((drawn >> 32) % 1024).wrapping_mul((drawn >> 43) % 1024) / 64;
        write_request(trace, form, number / 3, name, size_of(number, name))?;
    }
    Ok(())
}

// Writes the trace into a file.
fn make<C: Files>(rt: &C, alloc: Global, path: &str, form: Form) -> io::Result<()> {
    let mut trace = Vec::new(alloc);
    if matches!(form, Form::Csv) {
        trace.write_all(b"time,key,size\n")?;
    }
    write_requests(&mut trace, form)?;
    fs::write(rt, path, trace.as_slice())
}

// Whether the lines after the first one are those of the rows.
fn has_rows(told: &str, rows: &str) -> bool {
    let mut lines = told.lines();
    let _header = lines.next();
    for row in rows.lines() {
        if lines.next() != Some(row.trim()) {
            return false;
        }
    }
    lines.next().is_none()
}

fn is_told<C: Clock + Files + Threads + Sync>(
    rt: &C,
    alloc: Global,
    options: &mut Options,
    rows: &str,
    told: &mut Vec<u8>,
) -> bool {
    told.clear();
    let mut errors = Vec::new(alloc);
    let ended = simulate(rt, alloc, options, "".as_bytes(), &mut *told, &mut errors);
    ended.is_ok() && has_rows(text_of(told.as_slice()), rows)
}

fn text_of(told: &[u8]) -> &str {
    str::from_utf8(told).unwrap_or("")
}

// Plays the trace with the words of a run.
fn is_right<C: Clock + Files + Threads + Sync>(
    rt: &C,
    alloc: Global,
    call: &'static str,
    rows: &str,
    told: &mut Vec<u8>,
) -> bool {
    let mut words = with(call);
    words.format = "csv";
    match read(alloc, &words) {
        Ok(mut options) => is_told(rt, alloc, &mut options, rows, told),
        Err(_unusable) => false,
    }
}

// The words of the first run that told other rows.
fn first_wrong<C: Clock + Files + Threads + Sync>(
    rt: &C,
    alloc: Global,
    runs: &'static str,
    told: &mut Vec<u8>,
) -> Option<&'static str> {
    for run in runs.split("\n\n") {
        let (call, rows) = run.trim().split_once('\n').unwrap_or((run, ""));
        if !is_right(rt, alloc, call, rows, told) {
            return Some(call);
        }
    }
    None
}

const POLICIES: &str = "
    trace policies.csv; policy lru,sharded:16,sieve; size 60000
    lru,60000,1000000,108630,75446364,7467018,890765,59928,1000000,108630,75446364,7467018,1.000000,0,,pass,use,false,,0,1000000
    sharded:16,60000,1000000,93068,75446364,8608299,906348,58026,1000000,93068,75446364,8608299,1.000000,0,,pass,use,false,,0,1000000
    sieve,60000,1000000,110209,75446364,12497945,889476,59926,1000000,110209,75446364,12497945,1.000000,0,,pass,use,false,,0,1000000";

const QUEUES: &str = "
    trace queues.csv; policy s3-fifo,fifo,clock,2q; size 60000
    s3-fifo,60000,1000000,140945,75446364,10336441,858446,59874,1000000,140945,75446364,10336441,1.000000,0,,pass,use,false,,0,1000000
    fifo,60000,1000000,106172,75446364,7289465,893220,59902,1000000,106172,75446364,7289465,1.000000,0,,pass,use,false,,0,1000000
    clock,60000,1000000,110445,75446364,7596431,888949,59992,1000000,110445,75446364,7596431,1.000000,0,,pass,use,false,,0,1000000
    2q,60000,1000000,113216,75446364,9119009,886170,59985,1000000,113216,75446364,9119009,1.000000,0,,pass,use,false,,0,1000000";

const LARGE: &str = "
    trace large.csv; policy lru,sieve; size 20000; large evict; threads 2
    lru,20000,1000000,39238,75446364,2339895,960544,19938,1000000,39238,75446364,2339895,1.000000,0,,evict,use,false,,0,1000000
    sieve,20000,1000000,44946,75446364,2662132,954834,19914,1000000,44946,75446364,2662132,1.000000,0,,evict,use,false,,0,1000000

    trace large.csv; policy lru; size 40%; distinct 250000
    lru,100000,1000000,175549,75446364,12667897,823450,99962,1000000,175549,75446364,12667897,1.000000,0,,pass,use,false,,0,1000000";

const TIMES: &str = "
    trace times.csv; policy lru; size 20%; ttl 20000
    lru,160802,1000000,272648,75446364,19971647,725771,156246,1000000,272648,75446364,19971647,1.000000,0,20000,pass,use,false,,0,1000000

    trace times.csv; policy sieve,s3-fifo; size 200000; ttl 5000; expired replace
    sieve,200000,1000000,266065,75446364,19823343,646895,199986,1000000,266065,75446364,19823343,1.000000,0,5000,pass,replace,false,,0,1000000
    s3-fifo,200000,1000000,313885,75446364,24349215,628436,199966,1000000,313885,75446364,24349215,1.000000,0,5000,pass,replace,false,,0,1000000";

const INTERVALS: &str = "
    trace intervals.csv; policy lru,2q; size 100KB; warmup 200000; interval 300000
    lru,100000,300000,64932,16429999,3666956,234436,99973,300000,64932,16429999,3666956,1.000000,0,,pass,use,false,,200000,500000
    2q,100000,300000,70229,16429999,4468943,229667,75414,300000,70229,16429999,4468943,1.000000,0,,pass,use,false,,200000,500000
    lru,100000,300000,44796,26804103,3830342,256512,99894,300000,44796,26804103,3830342,1.000000,0,,pass,use,false,,500000,800000
    2q,100000,300000,51606,26804103,4968484,249199,99977,300000,51606,26804103,4968484,1.000000,0,,pass,use,false,,500000,800000
    lru,100000,200000,23425,20935190,2494390,176320,99962,200000,23425,20935190,2494390,1.000000,0,,pass,use,false,,800000,1000000
    2q,100000,200000,26908,20935190,3359572,173100,99925,200000,26908,20935190,3359572,1.000000,0,,pass,use,false,,800000,1000000";

// Samples of the keys.
const SAMPLES: &str = "
    trace samples.csv; policy lru; size 100000,5%; sample 0.25; part 1
    lru,100000,252604,47304,24660731,2995995,204820,24826,250000,44700,18861591,0,0.250000,1,,pass,use,false,,0,1000000
    lru,45143,252604,21794,24660731,1378091,230462,11282,250000,19190,18861591,0,0.250000,1,,pass,use,false,,0,1000000

    trace samples.csv; policy lru; size 60000; watermark 400; sample 0.5
    lru,60000,500401,23309,41584221,1616231,476892,19622,500000,22908,37723182,0,0.500000,0,,pass,use,false,400,0,1000000

    trace samples.csv; policy lru; size 10%; sample-keys 1000
    lru,79342,63004,9128,4486201,584524,53829,4906,64054,10178,4832641,930964,0.064054,0,,pass,use,false,,0,1000000";

// Of a sample, what it can have at most.
const BOUNDS: &str = "
    trace bounds.csv; policy lru,belady; size 100,30%; ignore-size; sample 0.5; warmup 300001
    lru,100,350425,4406,350425,4406,346019,50,349999,3980,349999,3980,0.500000,0,,pass,use,true,,300001,1000000
    lru,4714,350425,174913,350425,174913,175512,2357,349999,174487,349999,174487,0.500000,0,,pass,use,true,,300001,1000000
    belady,100,350425,49745,350425,49745,,,349999,49319,349999,49319,0.500000,0,,pass,use,true,,300001,1000000
    belady,4714,350425,275797,350425,275797,,,349999,275371,349999,275371,0.500000,0,,pass,use,true,,300001,1000000";

const NODES: &str = "
    trace nodes.csv; policy lru; size 30000; nodes 3; drop 1@400000; shield 10%; sample 0.5; large evict; ttl 1000
    lru,30000,node,0,219096,27532,15715828,1708750,190700,14904,,3,1@400000,0.500000,0,1000,evict,use,false,
    lru,30000,node,1,66847,11181,6064927,565961,55008,14959,,3,1@400000,0.500000,0,1000,evict,use,false,
    lru,30000,node,2,214458,26711,19803466,1667753,186750,14958,,3,1@400000,0.500000,0,1000,evict,use,false,
    lru,30000,nodes,,500401,65424,41584221,3942464,432458,44821,1.31,3,1@400000,0.500000,0,1000,evict,use,false,
    lru,83853,shield,,434977,9902,37641757,1551482,424459,41924,,3,1@400000,0.500000,0,1000,evict,use,false,";

// The same run over the trace in other forms.
const CDN: &str = "
    trace long.cdn; trace-type cdn; policy lru; size 60000
    lru,60000,1000000,108630,75446364,7467018,890765,59928,1000000,108630,75446364,7467018,1.000000,0,,pass,use,false,,0,1000000";

const TWITTER: &str = "
    trace long.twitter; trace-type twitter; policy lru; size 60000
    lru,60000,1000000,108630,75446364,7467018,890765,59928,1000000,108630,75446364,7467018,1.000000,0,,pass,use,false,,0,1000000";

const RECORDS: &str = "
    trace long.oracleGeneral; trace-type oracleGeneral; policy lru; size 60000
    lru,60000,1000000,108630,75446364,7467018,890765,59928,1000000,108630,75446364,7467018,1.000000,0,,pass,use,false,,0,1000000";

const COLUMNS: &str = "
    trace columns.twitter; columns time,key,none,size; policy lru; size 60000
    lru,60000,1000000,110397,74446364,7486259,888990,59943,1000000,110397,74446364,7486259,1.000000,0,,pass,use,false,,0,1000000";

// Makes the trace in a file, and plays it.
fn plays<C: Clock + Files + Threads + Sync + Abort>(
    rt: &C,
    alloc: Global,
    path: &str,
    form: Form,
    runs: &'static str,
) -> io::Result<()> {
    make(rt, alloc, path, form)?;
    let mut told = Vec::new(alloc);
    if let Some(call) = first_wrong(rt, alloc, runs, &mut told) {
        let said = text_of(told.as_slice());
        assert!(rt; false, "{call}, and not {said}");
    }
    Ok(())
}

#[test]
fn policies_count_a_long_trace(rt: HostRuntime) -> Result<(), Fail> {
    plays(&rt, rt.alloc(), "policies.csv", Form::Csv, POLICIES)?;
    Ok(())
}

#[test]
fn queues_count_a_long_trace(rt: HostRuntime) -> Result<(), Fail> {
    plays(&rt, rt.alloc(), "queues.csv", Form::Csv, QUEUES)?;
    Ok(())
}

#[test]
fn small_caches_count_a_long_trace(rt: HostRuntime) -> Result<(), Fail> {
    plays(&rt, rt.alloc(), "large.csv", Form::Csv, LARGE)?;
    Ok(())
}

#[test]
fn bodies_of_a_long_trace_get_too_old(rt: HostRuntime) -> Result<(), Fail> {
    plays(&rt, rt.alloc(), "times.csv", Form::Csv, TIMES)?;
    Ok(())
}

#[test]
fn intervals_of_a_long_trace_are_counted(rt: HostRuntime) -> Result<(), Fail> {
    plays(&rt, rt.alloc(), "intervals.csv", Form::Csv, INTERVALS)?;
    Ok(())
}

#[test]
fn samples_of_a_long_trace_are_counted(rt: HostRuntime) -> Result<(), Fail> {
    plays(&rt, rt.alloc(), "samples.csv", Form::Csv, SAMPLES)?;
    Ok(())
}

#[test]
fn the_most_hits_of_a_long_trace_are_counted(rt: HostRuntime) -> Result<(), Fail> {
    plays(&rt, rt.alloc(), "bounds.csv", Form::Csv, BOUNDS)?;
    Ok(())
}

#[test]
fn nodes_share_a_long_trace(rt: HostRuntime) -> Result<(), Fail> {
    plays(&rt, rt.alloc(), "nodes.csv", Form::Csv, NODES)?;
    Ok(())
}

#[test]
fn a_long_trace_has_blanks(rt: HostRuntime) -> Result<(), Fail> {
    plays(&rt, rt.alloc(), "long.cdn", Form::Cdn, CDN)?;
    Ok(())
}

#[test]
fn a_long_trace_has_columns_of_operations(rt: HostRuntime) -> Result<(), Fail> {
    plays(&rt, rt.alloc(), "long.twitter", Form::Twitter, TWITTER)?;
    Ok(())
}

#[test]
fn a_long_trace_has_records(rt: HostRuntime) -> Result<(), Fail> {
    plays(
        &rt,
        rt.alloc(),
        "long.oracleGeneral",
        Form::Records,
        RECORDS,
    )?;
    Ok(())
}

#[test]
fn columns_of_a_long_trace_have_names(rt: HostRuntime) -> Result<(), Fail> {
    plays(&rt, rt.alloc(), "columns.twitter", Form::Twitter, COLUMNS)?;
    Ok(())
}
