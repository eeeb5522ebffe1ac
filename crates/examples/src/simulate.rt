//! A simulator: what a cache of some size would have served of a trace of requests.
use pingora_cache::error::Result;
use pingora_cache::eviction::simple_lru::Manager;
use pingora_cache::moment::Moment;
use pingora_cache::{CacheEntryKey, CacheKey};
use std::alloc::Global;

/// The counts over a trace.
#[derive(Clone, Copy, Debug)]
pub struct Counts {
    /// The number of requests.
    pub requests: u64,
    /// How many of them a stored body served.
    pub hits: u64,
    /// The number of bytes of the requested bodies.
    pub bytes: u64,
    /// How many of them a stored body served.
    pub hit_bytes: u64,
}

impl Counts {
    /// Counts of zero.
    pub const NONE: Counts = Counts {
        requests: 0,
        hits: 0,
        bytes: 0,
        hit_bytes: 0,
    };

    fn add(&mut self, size: usize, is_hit: bool) {
        let size = u64::try_from(size).unwrap_or(u64::MAX);
        self.requests = self.requests.saturating_add(1);
        self.bytes = self.bytes.saturating_add(size);
        if is_hit {
            self.hits = self.hits.saturating_add(1);
            self.hit_bytes = self.hit_bytes.saturating_add(size);
        }
    }
}

/// One request of a trace: a key and the size of its body.
#[derive(Clone, Copy)]
pub struct Asked<'a> {
    /// The key.
    pub key: &'a str,
    /// The size of the body, in bytes.
    pub size: usize,
}

/// Reads a line of a trace: a key, spaces, and a size in decimal digits. `None` if the line has
/// another form.
pub fn read_line(line: &str) -> Option<Asked<'_>> {
    let mut words = line.split_ascii_whitespace();
    let key = words.next()?;
    let size = words.next()?.parse::<usize>().ok()?;
    match words.next() {
        None => Some(Asked { key, size }),
        Some(_) => None,
    }
}

/// Makes one request: a stored body is used, any other is added, and what no longer fits is evicted.
pub fn request(
    alloc: Global,
    manager: &mut Manager,
    counts: &mut Counts,
    asked: Asked<'_>,
) -> Result<()> {
    let entry = entry_of(alloc, asked.key)?;
    let is_hit = manager.peek(&entry);
    counts.add(asked.size, is_hit);
    if is_hit {
        manager.access(&entry, asked.size, Moment::EPOCH)?;
    } else {
        manager.admit(entry, asked.size, Moment::EPOCH)?;
    }
    Ok(())
}

fn entry_of(alloc: Global, key: &str) -> Result<CacheEntryKey> {
    let primary = key.as_bytes().to_vec(alloc)?;
    let key = CacheKey::new(primary, String::new(alloc)).to_compact()?;
    Ok(CacheEntryKey::key_only(key))
}
