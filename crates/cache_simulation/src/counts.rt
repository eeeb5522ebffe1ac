//! The counts over a trace.
ghost use Rattle.std.specs.Prelude.{◌≡◌, ◌+◌, ◌*◌, ◌-◌, ◌^◌, ◌<◌, ◌≤◌, true, false, if◌then◌else◌};
ghost use Rattle.cache_simulation.specs.Sampled.{corrected};

/// The counts over a trace.
#[derive(Clone, Copy, Debug)]
pub struct Counts {
    /// The number of requests.
    pub requests: u64,
    /// How many of these stored bodies served.
    pub hits: u64,
    /// The number of bytes of the requested bodies.
    pub bytes: u128,
    /// How many of these stored bodies served.
    pub hit_bytes: u128,
    pub ghost few: { hits ≤ requests },
    pub ghost light: { bytes ≤ requests * (2 ^ 64 - 1) },
    pub ghost part: { hit_bytes ≤ bytes },
}

impl Counts {
    /// Counts of zero.
    pub fn none() -> Counts
        ensures { (result.requests ≡ 0)
            × (result.hits ≡ 0)
            × (result.bytes ≡ 0)
            × (result.hit_bytes ≡ 0) }
    {
        Counts {
            requests: 0,
            hits: 0,
            bytes: 0,
            hit_bytes: 0,
        }
    }

    /// The number of requests that no stored body served.
    pub fn misses(&self) -> u64
        ensures { self.now.hits + result ≡ self.now.requests }
    {
        self.requests - self.hits
    }

    /// The number of bytes that no stored body served.
    pub fn miss_bytes(&self) -> u128
        ensures { self.now.hit_bytes + result ≡ self.now.bytes }
    {
        self.bytes - self.hit_bytes
    }

    /// The hits that these stand for, if they are of a part of the keys, of which so many requests were to be expected: the
    /// difference between these and those that were read counts as hits (SHARDS_adj of the FAST 2015 paper), as far as that is not
    /// below 0.
    pub fn corrected_hits(&self, expected: u64) -> u64
        ensures { result ≡ corrected self.now.hits self.now.requests expected }
    {
        expected.saturating_sub(self.misses())
    }

    /// The bytes of these hits, by the bytes that were to be expected.
    pub fn corrected_hit_bytes(&self, expected: u128) -> u128
        ensures { result ≡ corrected self.now.hit_bytes self.now.bytes expected }
    {
        // The paper corrects requests alone; of bytes it does not speak, and the same is done with
        // them.
        expected.saturating_sub(self.miss_bytes())
    }

    /// Whether no more requests can be counted.
    pub fn is_full(&self) -> bool
        ensures full { result ≡ true → self.now.requests ≡ 2 ^ 64 - 1 }
        ensures room { result ≡ false → self.now.requests < 2 ^ 64 - 1 }
    {
        self.requests == u64::MAX
    }

    /// Counts a request for a body of this size.
    pub fn note(&mut self, size: usize, is_hit: bool)
        requires { self.old.requests < 2 ^ 64 - 1 }
        ensures requests { self.new.requests ≡ self.old.requests + 1 }
        ensures bytes { self.new.bytes ≡ self.old.bytes + size }
        ensures hits { self.new.hits ≡ self.old.hits + (if is_hit then 1 else 0) }
        ensures hit_bytes { self.new.hit_bytes ≡ self.old.hit_bytes + (if is_hit then size else 0) }
    {
        let (hits, hit_bytes) = if is_hit { (1, size as u128) } else { (0, 0) };
        *self = Counts {
            requests: self.requests + 1,
            hits: self.hits + hits,
            bytes: self.bytes + size as u128,
            hit_bytes: self.hit_bytes + hit_bytes,
        };
    }
}
