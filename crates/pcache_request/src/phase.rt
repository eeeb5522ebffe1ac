//! The phase of a request, and the status of a hit.
ghost use Rattle.std.specs.Prelude.{◌≡◌, ◌↔◌, IsTrue};
ghost use Rattle.pcache_request.specs.Phases as phases;

use pcache_base::moment::Moment;
use pcache_base::reason::NoCacheReason;

/// The phase of a request.
#[derive(Clone, Copy, Debug, PartialEq, Eq)]
pub enum CachePhase {
    /// Nothing is cached.
    Disabled(NoCacheReason),
    /// Caching is on, and no key is set.
    Uninit,
    /// The cache is bypassed; the key is kept.
    Bypass,
    /// The key is set.
    CacheKey,
    /// A fresh body was found.
    Hit,
    /// No body was found.
    Miss,
    /// A body was found that is not fresh.
    Stale,
    /// A stale body was found, and another request renews it.
    StaleUpdating,
    /// A body was found that is not fresh, and a new one is fetched.
    Expired,
    /// The origin said that the body found is still valid.
    Revalidated,
    /// The origin said that the body found is still valid, and its response is not to be stored.
    RevalidatedNoCache(NoCacheReason),
}

impl CachePhase {
    /// The phase's word.
    pub fn as_str(self) -> &'static str
        ensures { result.now ≡ phases.word_of self }
    {
        match self {
            CachePhase::Disabled(_) => "disabled",
            CachePhase::Uninit => "uninitialized",
            CachePhase::Bypass => "bypass",
            CachePhase::CacheKey => "key",
            CachePhase::Hit => "hit",
            CachePhase::Miss => "miss",
            CachePhase::Stale => "stale",
            CachePhase::StaleUpdating => "stale-updating",
            CachePhase::Expired => "expired",
            CachePhase::Revalidated => "revalidated",
            CachePhase::RevalidatedNoCache(_) => "revalidated-nocache",
        }
    }

    /// Whether caching may be turned on.
    pub fn is_disabled(self) -> bool
        ensures { IsTrue result ↔ phases.IsDisabled self }
    {
        matches!(self, CachePhase::Disabled(_))
    }

    /// Whether caching is on.
    pub fn is_on(self) -> bool
        ensures may { IsTrue result ↔ phases.IsOn self }
        ensures test { result ≡ phases.is_on self }
    {
        !matches!(self, CachePhase::Disabled(_))
    }

    /// Whether caching was turned on once.
    pub fn was_enabled(self) -> bool
        ensures { IsTrue result ↔ phases.WasEnabled self }
    {
        !matches!(self, CachePhase::Disabled(NoCacheReason::NeverEnabled))
    }

    /// Whether the cache may be bypassed.
    pub fn may_bypass(self) -> bool
        ensures { IsTrue result ↔ phases.MayBypass self }
    {
        matches!(self, CachePhase::CacheKey)
    }

    /// Whether a key may be set.
    pub fn may_take_key(self) -> bool
        ensures { IsTrue result ↔ phases.MayTakeKey self }
    {
        matches!(self, CachePhase::Uninit | CachePhase::CacheKey)
    }

    /// Whether the key may be looked up, and a found body taken.
    pub fn may_look_up(self) -> bool
        ensures { IsTrue result ↔ phases.MayLookUp self }
    {
        matches!(self, CachePhase::CacheKey | CachePhase::Stale)
    }

    /// Whether the request may go on as a miss.
    pub fn may_miss(self) -> bool
        ensures { IsTrue result ↔ phases.MayMiss self }
    {
        matches!(
            self,
            CachePhase::CacheKey | CachePhase::Bypass | CachePhase::Stale
        )
    }

    /// Whether a write may be made.
    pub fn is_filling(self) -> bool
        ensures may { IsTrue result ↔ phases.IsFilling self }
        ensures test { result ≡ phases.is_filling self }
    {
        matches!(self, CachePhase::Miss | CachePhase::Expired)
    }

    /// Whether the body that was found may be read.
    pub fn is_reading(self) -> bool
        ensures { IsTrue result ↔ phases.IsReading self }
    {
        matches!(
            self,
            CachePhase::Hit
                | CachePhase::Stale
                | CachePhase::StaleUpdating
                | CachePhase::Revalidated
                | CachePhase::RevalidatedNoCache(_)
        )
    }

    /// Whether a reader may be ended.
    pub fn may_finish_hit(self) -> bool
        ensures { IsTrue result ↔ phases.MayFinishHit self }
    {
        matches!(
            self,
            CachePhase::Hit
                | CachePhase::Miss
                | CachePhase::Stale
                | CachePhase::StaleUpdating
                | CachePhase::Expired
                | CachePhase::Revalidated
                | CachePhase::RevalidatedNoCache(_)
        )
    }

    /// Whether a stale body was found.
    pub fn is_stale(self) -> bool
        ensures is { IsTrue result ↔ phases.IsStale self }
        ensures test { result ≡ phases.is_stale_phase self }
    {
        matches!(self, CachePhase::Stale)
    }

    /// Whether the key may be purged, and what is stored for it expired.
    pub fn may_purge(self) -> bool
        ensures { IsTrue result ↔ phases.MayPurge self }
    {
        matches!(self, CachePhase::CacheKey)
    }

    /// Whether the key may be purged independently of what the request does: caching is on, and the
    /// key is set.
    pub fn may_spawn_purge(self) -> bool
        ensures { IsTrue result ↔ phases.MaySpawnPurge self }
    {
        !matches!(self, CachePhase::Disabled(_) | CachePhase::Uninit)
    }
}

/// How a filter overrides the freshness of a hit.
#[derive(Clone, Copy, Debug, PartialEq, Eq)]
pub enum ForcedFreshness {
    /// The hit counts as expired.
    ForceExpired,
    /// The hit counts as expired at this moment, or at the one of its meta, and may be served
    /// stale.
    ForceExpiredServeStale { expired_at: Option<Moment> },
    /// The hit counts as a miss.
    ForceMiss,
    /// The hit counts as fresh.
    ForceFresh,
}

/// The status of a hit.
#[derive(Clone, Copy, Debug, PartialEq, Eq)]
pub enum HitStatus {
    /// Its freshness ended.
    Expired,
    /// It counts as expired.
    ForceExpired,
    /// It counts as expired, and may be served stale.
    ForceExpiredServeStale,
    /// It counts as a miss.
    ForceMiss,
    /// A filter rejected it, so that it counts as a miss.
    FailedHitFilter,
    /// It is fresh.
    Fresh,
    /// It counts as fresh.
    ForceFresh,
}

impl HitStatus {
    /// The status' word.
    pub fn as_str(self) -> &'static str
        ensures { result.now ≡ phases.status_word self }
    {
        match self {
            HitStatus::Expired => "expired",
            HitStatus::ForceExpired => "force_expired",
            HitStatus::ForceExpiredServeStale => "force_expired_serve_stale",
            HitStatus::ForceMiss => "force_miss",
            HitStatus::FailedHitFilter => "failed_hit_filter",
            HitStatus::Fresh => "fresh",
            HitStatus::ForceFresh => "force_fresh",
        }
    }

    /// Whether the body is served as it is.
    pub fn is_fresh(self) -> bool
        ensures { result ≡ phases.is_fresh self }
    {
        matches!(self, HitStatus::Fresh | HitStatus::ForceFresh)
    }

    /// Whether the body is neither served as it is nor treated as a miss.
    pub fn is_stale(self) -> bool
        ensures { result ≡ phases.is_stale self }
    {
        matches!(
            self,
            HitStatus::Expired | HitStatus::ForceExpired | HitStatus::ForceExpiredServeStale
        )
    }

    /// Whether the body is treated as a miss.
    pub fn is_treated_as_miss(self) -> bool
        ensures { result ≡ phases.is_treated_as_miss self }
    {
        matches!(self, HitStatus::ForceMiss | HitStatus::FailedHitFilter)
    }
}

/// Which of the parts that its calls borrow a request uses.
#[derive(Clone, Copy, Debug, PartialEq, Eq)]
pub struct InUse {
    /// The eviction manager.
    pub eviction: bool,
    /// The predictor.
    pub predictor: bool,
    /// The lock table.
    pub lock: bool,
}
