//! Points in time. Nothing here reads a clock: each call gets its moment as an argument.
ghost use Rattle.std.specs.Prelude.{◌≡◌, ◌+◌, ◌-◌, ◌*◌, ◌/◌, ◌%◌, ◌<◌, ◌≤◌, ◌^◌, ◌↔◌, IfSome, IsSome, nat_eq};
ghost use Rattle.std.specs.Ordering.{nat_cmp, as_partial_cmp};
ghost use Rattle.std.specs.Cmp.{nat_eq_equiv, partial_equiv_from_equiv, partial_order_from_own_ties};
ghost use Rattle.std.specs.Cmp.Rules.{comparing};
ghost use Rattle.std.proofs.Common.{rules};
ghost use Rattle.std.specs.Duration.{as_nanos};
ghost use Rattle.pcache_base.specs.Moments.{IsMoment};

use std::cmp::Ordering;
use std::marker::Model;
use std::time::Duration;

const NANOS_PER_SECOND: u32 = 1_000_000_000;

/// A point in time: seconds and nanoseconds since the epoch (1970-01-01 00:00:00 UTC).
/// A contract sees the number of nanoseconds.
#[derive(Clone, Copy, Debug)]
pub struct Moment {
    secs: u64,
    nanos: u32,
}

impl Model for Moment {
    ghost use Rattle.std.specs.Prelude.{ℕ, ◌<◌};
    ghost use Rattle.pcache_base.specs.Moments.{nanos_of};

    ghost Value = { ℕ };

    ghost use Rattle.pcache_base.specs.MomentParts.{parts_of, parts_come_back};

    ghost view = { λ m. nanos_of m.secs m.nanos };

    ghost invariant = { λ m. m.nanos < 1000000000 };

    ghost inverse = { parts_of };

    ghost inverse_ok = { parts_come_back };
}

impl Moment {
    /// The epoch itself.
    pub const EPOCH: Moment = Moment { secs: 0, nanos: 0 };

    /// The moment of these seconds and nanoseconds; `None` if the nanoseconds are a second or more.
    pub fn new(secs: u64, nanos: u32) -> Option<Moment>
        ensures made { IfSome result (λ m. m ≡ secs * 1000000000 + nanos) }
        ensures when { IsSome result ↔ (nanos < 1000000000) }
    {
        if nanos < NANOS_PER_SECOND {
            Some(Moment { secs, nanos })
        } else {
            None
        }
    }

    /// A whole second.
    pub fn from_secs(secs: u64) -> Moment
        ensures { result ≡ secs * 1000000000 }
    {
        Moment { secs, nanos: 0 }
    }

    /// The whole seconds since the epoch.
    pub fn secs(&self) -> u64
        ensures value { result ≡ self.now / 1000000000 }
        ensures in_range { IsMoment self.now }
    {
        self.secs
    }

    /// The nanoseconds past the whole second.
    pub fn nanos(&self) -> u32
        ensures { result ≡ self.now % 1000000000 }
    {
        self.nanos
    }

    /// The nanoseconds since the epoch.
    pub fn as_nanos(&self) -> u128
        ensures value { result ≡ self.now }
        ensures in_range { IsMoment self.now }
    {
        u128::from(self.secs) * 1_000_000_000 + u128::from(self.nanos)
    }

    /// The moment of so many nanoseconds; `None` if its seconds do not fit 64 bits.
    fn from_nanos(nanos: u128) -> Option<Moment>
        ensures made { IfSome result (λ m. m ≡ nanos) }
        ensures when { IsSome result ↔ IsMoment nanos }
    {
        let secs = u64::try_from(nanos / 1_000_000_000).ok()?;
        Some(Moment {
            secs,
            nanos: (nanos % 1_000_000_000) as u32,
        })
    }

    /// The moment this much later; `None` if its seconds do not fit 64 bits.
    pub fn checked_add(&self, time: Duration) -> Option<Moment>
        ensures made { IfSome result (λ m. m ≡ self.now + as_nanos time) }
        ensures when { IsSome result ↔ IsMoment (self.now + as_nanos time) }
    {
        Moment::from_nanos(self.as_nanos() + time.as_nanos())
    }

    /// The moment this much earlier; `None` if that is before the epoch.
    pub fn checked_sub(&self, time: Duration) -> Option<Moment>
        ensures made { IfSome result (λ m. m ≡ self.now - as_nanos time) }
        ensures when { IsSome result ↔ (as_nanos time ≤ self.now) }
    {
        let nanos = self.as_nanos().checked_sub(time.as_nanos())?;
        Moment::from_nanos(nanos)
    }

    /// The time since another moment; zero if that moment is later.
    pub fn since(&self, earlier: Moment) -> Duration
        ensures { as_nanos result ≡ self.now - earlier }
    {
        // A caller's clock may go back: that counts as no time.
        let nanos = self.as_nanos().saturating_sub(earlier.as_nanos());
        Duration::from_nanos_u128(nanos)
    }
}

impl PartialEq for Moment {
    ghost eq = { nat_eq };

    ghost laws = { partial_equiv_from_equiv nat_eq_equiv };

    fn eq(&self, other: &Moment) -> bool {
        self.as_nanos() == other.as_nanos()
    }
}

impl Eq for Moment {
    ghost laws = { nat_eq_equiv };
}

impl Ord for Moment {
    ghost cmp = { nat_cmp };

    ghost total = { Prim.search (comparing, rules) };

    ghost matches_partial_cmp = { Prim.search (comparing, rules) };

    ghost matches_eq = { Prim.search (comparing, rules) };

    fn cmp(&self, other: &Moment) -> Ordering {
        self.as_nanos().cmp(&other.as_nanos())
    }
}

impl PartialOrd for Moment {
    ghost partial_cmp = { as_partial_cmp nat_cmp };

    ghost laws = { partial_order_from_own_ties (Prim.search (comparing, rules)) (Prim.search (comparing, rules)) };

    fn partial_cmp(&self, other: &Moment) -> Option<Ordering> {
        Some(self.cmp(other))
    }
}
