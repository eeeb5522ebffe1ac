//! A sample of the keys, which represents all: spatial sampling by the key's hash (Waldspurger,
//! Park, Garthwaite, Ahmad, FAST 2015).
ghost use Rattle.std.specs.Prelude.{◌≡◌, ◌+◌, ◌*◌, ◌/◌, ◌<◌, ◌≤◌, ◌↔◌, ◌⊎◌, None, IfSome, IsTrue};
ghost use Rattle.cache_simulation.specs.Sampled.{IsInPart, is_in_part, expected, expected_bytes};

/// One, in millionths.
pub const WHOLE: u64 = 1_000_000;

/// A sample: so many keys in a million, and the number of the part of that size.
#[derive(Clone, Copy, Debug, PartialEq, Eq)]
pub struct Sample {
    /// How many keys in a million.
    pub rate: u64,
    /// The number of the part, from 0.
    pub part: u64,
    pub ghost some: { 0 < rate },
    pub ghost within: { rate * part + rate ≤ 1000000 },
}

impl Sample {
    /// All keys.
    pub const ALL: Sample = Sample {
        rate: WHOLE,
        part: 0,
    };

    /// A sample of so many keys in a million. Parts with different numbers have no key in common. `None` if it
    /// is of no keys, or there are not so many parts.
    pub fn new(rate: u64, part: u64) -> Option<Sample>
        ensures some { IfSome result (λ s. (s.rate ≡ rate) × (s.part ≡ part)) }
        ensures none { result ≡ None → (rate ≡ 0) ⊎ (1000000 < rate * part + rate) }
    {
        if rate == 0 {
            return None;
        }
        let Some(from) = rate.checked_mul(part) else {
            return None;
        };
        if from > WHOLE || rate > WHOLE - from {
            return None;
        }
        Some(Sample { rate, part })
    }

    /// Whether a key with this hash is in the sample.
    pub fn has(&self, hash: u64) -> bool
        ensures part { IsTrue result ↔ IsInPart self.now.rate self.now.part hash }
        ensures test { result ≡ is_in_part self.now.rate self.now.part hash }
    {
        let place = hash % WHOLE;
        let from = self.rate * self.part;
        from <= place && place < from + self.rate
    }

    /// The size of a cache for the sample that represents one of this size for all keys.
    pub fn scaled(&self, size: usize) -> usize
        ensures { result ≡ expected self.now.rate size }
    {
        (size as u128 * self.rate as u128 / WHOLE as u128) as usize
    }

    /// How many requests of the sample were to be expected if the whole trace has so many.
    pub fn expected(&self, all: u64) -> u64
        ensures { result ≡ expected self.now.rate all }
    {
        (all as u128 * self.rate as u128 / WHOLE as u128) as u64
    }

    /// How many bytes of the sample were to be expected if the whole trace has so many.
    pub fn expected_bytes(&self, all: u128) -> u128
        ensures { result ≡ expected_bytes self.now.rate all }
    {
        let rate = self.rate as u128;
        all / WHOLE as u128 * rate + all % WHOLE as u128 * rate / WHOLE as u128
    }

    /// Whether all keys are in the sample.
    pub fn is_all(&self) -> bool
        ensures { IsTrue result ↔ (self.now.rate ≡ 1000000) }
    {
        self.rate == WHOLE
    }

    /// An estimate of how many bytes all keys have if the sample has so many.
    pub fn whole(&self, bytes: u64) -> u64 {
        let whole = (bytes as u128)
            .saturating_mul(WHOLE as u128)
            .checked_div(self.rate as u128)
            .unwrap_or(0);
        u64::try_from(whole).unwrap_or(u64::MAX)
    }
}
