//! What is written at the end of a simulation.
use cache_simulation::cache::Told;
use cache_simulation::counts::Counts;
use cache_simulation::drawing::draw;
use cache_simulation::options::{Output, Policy, Setting};
use cache_simulation::report::{Row, Shown, write_rows};
use cache_simulation::sample::Sample;
use cache_simulation::table::write_aligned;
use std::alloc::Global;

// Three requests of 4 bytes each, one of which was a hit.
fn row() -> Row {
    let mut counts = Counts::none();
    if !counts.is_full() {
        counts.note(4, false);
    }
    if !counts.is_full() {
        counts.note(4, true);
    }
    if !counts.is_full() {
        counts.note(4, false);
    }
    Row {
        size: 5,
        told: Told {
            policy: Policy::Sieve,
            counts,
            evicted: 1,
            tracked: 4,
        },
        from: 0,
        until: 3,
        expected: 3,
        expected_bytes: 12,
        setting: Setting {
            sample: Sample::ALL,
            ttl: None,
            replaces: false,
            passes_by: true,
            ignores_size: false,
            watermark: None,
            has_shards: false,
        },
    }
}

// The same as a part of the keys, of which four requests and 16 bytes were to be expected: so one more hit and 4 more of their
// bytes.
fn of_sample(sample: Sample) -> Row {
    let mut row = row();
    row.expected = 4;
    row.expected_bytes = 16;
    row.setting.sample = sample;
    row.setting.ttl = Some(60);
    row.setting.replaces = true;
    row.setting.ignores_size = true;
    row.setting.watermark = Some(7);
    row.setting.passes_by = false;
    row
}

fn is_written(alloc: Global, row: Row, output: Output, wanted: &str) -> bool {
    let mut out = Vec::new(alloc);
    let shown = Shown {
        span: false,
        sample: !row.setting.sample.is_all(),
    };
    write_rows(&mut out, output, shown, &[row]).is_ok() && out.as_slice() == wanted.as_bytes()
}

const CSV: &str = "policy,size,requests,hits,bytes,hit_bytes,evicted,tracked,\
    expected_requests,corrected_hits,expected_bytes,corrected_hit_bytes,sample,part,ttl,large,expired,ignore_size,watermark,from,until\n\
    sieve,5,3,1,12,4,1,4,3,1,12,4,1.000000,0,,pass,use,false,,0,3\n";

const TABLE: &str = "policy\tsize\trequests\thits\thit ratio\tbyte ratio\tevicted\ttracked\n\
    sieve\t5\t3\t1\t33.33%\t33.33%\t1\t4\n";

const JSON: &str =
    "{\"policy\":\"sieve\",\"size\":5,\"requests\":3,\"hits\":1,\"bytes\":12,\"hit_bytes\":4,\
    \"evicted\":1,\"tracked\":4,\"expected_requests\":3,\"corrected_hits\":1,\"expected_bytes\":12,\
    \"corrected_hit_bytes\":4,\"sample\":1.000000,\"part\":0,\"ttl\":null,\"large\":\"pass\",\"expired\":\"use\",\"ignore_size\":false,\"watermark\":null,\"from\":0,\"until\":3}\n";

#[test]
fn rows_are_written(rt: HostRuntime) {
    assert!(rt; is_written(rt.alloc(), row(), Output::Csv, CSV));
    assert!(rt; is_written(rt.alloc(), row(), Output::Json, JSON));
    assert!(rt; is_written(rt.alloc(), row(), Output::Table, TABLE));
}

const SAMPLED_CSV: &str = "policy,size,requests,hits,bytes,hit_bytes,evicted,tracked,\
    expected_requests,corrected_hits,expected_bytes,corrected_hit_bytes,sample,part,ttl,large,expired,ignore_size,watermark,from,until\n\
    sieve,5,3,1,12,4,1,4,4,2,16,8,0.250000,3,60,evict,replace,true,7,0,3\n";

const SAMPLED_TABLE: &str =
    "policy\tsize\tsample\texpected\trequests\thits\tcorrected\thit ratio\tbyte ratio\tevicted\ttracked\n\
    sieve\t5\t0.250000\t4\t3\t1\t2\t50.00%\t50.00%\t1\t4\n";

fn is_corrected(alloc: Global) -> bool {
    match Sample::new(250_000, 3) {
        Some(sample) => {
            is_written(alloc, of_sample(sample), Output::Csv, SAMPLED_CSV)
                && is_written(alloc, of_sample(sample), Output::Table, SAMPLED_TABLE)
        }
        None => false,
    }
}

#[test]
fn a_sample_is_corrected(rt: HostRuntime) {
    assert!(rt; is_corrected(rt.alloc()));
}

fn is_aligned(alloc: Global, lines: &str, wanted: &str) -> bool {
    let mut out = Vec::new(alloc);
    write_aligned(&mut out, lines.as_bytes()).is_ok() && out.as_slice() == wanted.as_bytes()
}

#[test]
fn the_cells_of_a_column_are_below_each_other(rt: HostRuntime) {
    assert!(rt; is_aligned(rt.alloc(), "", ""));
    assert!(rt; is_aligned(rt.alloc(), "a\n", "a\n"));
    assert!(rt;
        is_aligned(
            rt.alloc(),
            "policy\tsize\thits\nlru\t10000\t7\ns3-fifo\t5\t123456\n",
            "policy    size    hits\nlru      10000       7\ns3-fifo      5  123456\n"
        )
    );
}

// Fewer requests to be expected than read, by one and by more than the hits.
#[test]
fn a_correction_ends_at_no_hits(rt: HostRuntime) {
    assert!(rt; row().told.counts.corrected_hits(2) == 0);
    assert!(rt; row().told.counts.corrected_hits(1) == 0);
    assert!(rt; row().told.counts.corrected_hit_bytes(10) == 2);
}

// Two thirds of 320 lines are 213, from the bottom at 340 upwards. On an axis from 1 to 100, 10 is in the middle.
const DRAWN: &str =
    "<svg xmlns=\"http://www.w3.org/2000/svg\" viewBox=\"0 0 700 400\" font-family=\"sans-serif\" font-size=\"12\">\n\
    <path d=\"M60 20V340H600\" fill=\"none\" stroke=\"black\"/><text x=\"10\" y=\"24\">100%</text><text x=\"25\" y=\"344\">0%</text><text x=\"10\" y=\"184\">misses</text>\n\
    <circle cx=\"600\" cy=\"126\" r=\"3\" fill=\"#1b6ca8\"><title>sieve 100</title></circle>\n\
    <text x=\"600\" y=\"356\" transform=\"rotate(20 600 356)\">100</text>\n\
    <circle cx=\"60\" cy=\"126\" r=\"3\" fill=\"#1b6ca8\"><title>sieve 1</title></circle>\n\
    <path d=\"M60 126L330 126\" stroke=\"#1b6ca8\"/>\n\
    <text x=\"60\" y=\"356\" transform=\"rotate(20 60 356)\">1</text>\n\
    <circle cx=\"330\" cy=\"126\" r=\"3\" fill=\"#1b6ca8\"><title>sieve 10</title></circle>\n\
    <path d=\"M330 126L600 126\" stroke=\"#1b6ca8\"/>\n\
    <text x=\"330\" y=\"356\" transform=\"rotate(20 330 356)\">10</text>\n\
    <text x=\"620\" y=\"40\" fill=\"#1b6ca8\">sieve</text>\n\
    <circle cx=\"60\" cy=\"126\" r=\"3\" fill=\"#c0392b\"><title>fifo 1</title></circle>\n\
    <text x=\"620\" y=\"56\" fill=\"#c0392b\">fifo</text>\n\
    </svg>\n";

fn of_size(policy: Policy, size: usize) -> Row {
    let mut row = row();
    row.size = size;
    row.told.policy = policy;
    row
}

fn is_drawn(alloc: Global) -> bool {
    let mut out = Vec::new(alloc);
    let rows = [
        of_size(Policy::Sieve, 100),
        of_size(Policy::Sieve, 1),
        of_size(Policy::Sieve, 10),
        of_size(Policy::Fifo, 1),
    ];
    draw(&mut out, &rows, 3).is_ok() && out.as_slice() == DRAWN.as_bytes()
}

#[test]
fn misses_are_drawn(rt: HostRuntime) {
    assert!(rt; is_drawn(rt.alloc()));
}
