//! What a request measured.
ghost use Rattle.std.specs.Prelude.{◌≡◌, Some, option_map};
ghost use Rattle.std.specs.Duration.{as_nanos};
ghost use Rattle.pcache_request.specs.Digest.{empty_digest, time_added};

use pcache_base::reason::NoCacheReason;
use pcache_predict::admission::Decision;
use std::marker::Model;
use std::time::Duration;

/// A fill that a request stopped waiting for, since it cannot use it.
#[derive(Clone, Copy, Debug, PartialEq, Eq)]
pub struct LockAbandon {
    /// Why it cannot use the fill.
    pub reason: NoCacheReason,
    /// What the fill's writer published.
    pub token: u64,
}

/// What a request measured, over all its calls.
#[derive(Debug, Drop)]
pub struct HttpCacheDigest {
    /// The time that it waited for locks, over all its waits that ended; the longest duration if it
    /// is longer.
    pub lock_duration: Option<Duration>,
    /// The time that its look-ups took, as its caller measured it; the longest duration if it is
    /// longer.
    pub lookup_duration: Option<Duration>,
    /// The last fill that ended a wait.
    pub lock_abandon: Option<LockAbandon>,
    /// What the admission policy decided of the request, if it was asked.
    pub admission: Option<Decision>,
}

impl Model for HttpCacheDigest {
    ghost use Rattle.std.specs.Prelude.{option_map};
    ghost use Rattle.std.specs.Duration.{as_nanos};
    ghost use Rattle.pcache_request.specs.Digest.{Digest};

    ghost Value = { Digest };

    ghost view = { λ d. record { look_ups = option_map as_nanos d.lookup_duration; waits = option_map as_nanos d.lock_duration; abandoned = d.lock_abandon; admission = d.admission } };
}

/// No time was measured, and nothing was decided.
impl Default for HttpCacheDigest {
    fn default() -> HttpCacheDigest
        ensures { result ≡ empty_digest }
    {
        HttpCacheDigest::new()
    }
}

impl HttpCacheDigest {
    pub(crate) fn new() -> HttpCacheDigest
        ensures { result ≡ empty_digest }
    {
        HttpCacheDigest {
            lock_duration: None,
            lookup_duration: None,
            lock_abandon: None,
            admission: None,
        }
    }

    pub(crate) fn add_lookup_duration(&mut self, extra: Duration)
        ensures { self.new
            ≡ record self.old { look_ups = time_added self.old.look_ups (as_nanos extra) } }
    {
        let before = self.lookup_duration;
        self.lookup_duration = Some(longer(before, extra));
    }

    pub(crate) fn add_lock_duration(&mut self, extra: Duration)
        ensures { self.new
            ≡ record self.old { waits = time_added self.old.waits (as_nanos extra) } }
    {
        let before = self.lock_duration;
        self.lock_duration = Some(longer(before, extra));
    }

    pub(crate) fn note_abandon(&mut self, abandon: LockAbandon)
        ensures { self.new ≡ record self.old { abandoned = Some abandon } }
    {
        self.lock_abandon = Some(abandon);
    }

    pub(crate) fn note_decision(&mut self, decision: Decision)
        ensures { self.new ≡ record self.old { admission = Some decision } }
    {
        self.admission = Some(decision);
    }
}

// The sum of a time, if there was one, and a further one; the longest duration if it is longer.
fn longer(before: Option<Duration>, extra: Duration) -> Duration
    ensures { Some (as_nanos result) ≡ time_added (option_map as_nanos before) (as_nanos extra) }
{
    match before {
        Some(before) => before.saturating_add(extra),
        None => extra,
    }
}
