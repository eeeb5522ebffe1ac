//! The admission policy, which decides whether the response of a key that has no body is to be
//! stored yet.
use super::{HttpCache, LockName};
use crate::phase::CachePhase;
use pcache_base::reason::NoCacheReason;
use pcache_lock::lock::CacheKeyLock;
use pcache_predict::admission::{AdmissionPolicy, Decision};
use pcache_store::storage::Storage;

impl<S: Storage> HttpCache<S> {
    ghost use Rattle.std.specs.Prelude.{◌≡◌, ◌&&◌, IsTrue, Some, None, true, is_some, option_map};
    ghost use Rattle.pcache_request.specs.Admissions.{with_policy, observes, decided, is_deferral, kept_if, with_decision, Decides};
    ghost use Rattle.pcache_request.specs.Phases.{MayTakeKey};
    ghost use Rattle.pcache_request.specs.Releasing.{switched_off};
    ghost use Rattle.pcache_request.specs.Requests.{left_by, dropped_by, settled};
    ghost use Rattle.pcache_lock.specs.declared.lock.status.LockStatus.TheVariants.{TransientError};
    ghost use Rattle.pcache_base.specs.declared.reason.NoCacheReason.TheVariants.{Deferred};
    ghost use Rattle.pcache_request.specs.declared.phase.CachePhase.TheVariants.{CacheKey};
    ghost use Rattle.pcache_request.specs.Reports.{name_of};
    ghost use Rattle.pcache_request.specs.LockPasts.{settled_deeds};
    ghost use Rattle.pcache_request.specs.StorePasts.{dropped_past, left_past};

    /// Takes an admission policy into use. Look-ups with a policy borrow it.
    /// Requires the phase Uninit or CacheKey; ask `phase().may_take_key()`.
    pub fn set_admission_policy(&mut self)
        requires { MayTakeKey self.old.phase }
        ensures { self.new ≡ with_policy self.old }
    {
        self.has_policy = true;
    }

    /// What the policy decided on the request, if it was asked.
    pub fn admission_decision(&self) -> Option<Decision>
        ensures { result ≡ self.now.digest.admission }
    {
        self.digest.admission
    }

    /// Whether a look-up that finds nothing asks the policy: a policy is in use, the request has
    /// found nothing yet, and it has no decision.
    pub fn observes(&self) -> bool
        ensures test { result ≡ observes self.now }
        ensures key { IsTrue result → self.now.phase ≡ CacheKey }
    {
        self.has_policy
            && matches!(self.phase, CachePhase::CacheKey)
            && self.digest.admission.is_none()
    }

    // Asks the policy, which counts one more request for the key, and keeps its decision. The digest has it over `disable` and
    // `enable` too, so a request asks at most once.
    fn observe<A: AdmissionPolicy>(&mut self, policy: &mut A) -> Decision
        requires { IsTrue (observes self.old) }
        ensures decides { Decides (λ k d. A.decides policy.old k d policy.new) self.old.key
            (Some result) }
        ensures request { self.new ≡ decided result self.old }
    {
        let Some(key) = &self.key else { unreachable!() };
        let decision = policy.observe(key);
        self.digest.note_decision(decision);
        decision
    }

    // Asks the policy, if there is one and it is to be asked, and keeps its decision.
    pub(super) fn decide<A: AdmissionPolicy>(
        &mut self,
        policy: &mut A,
        has_policy: bool,
    ) -> Option<Decision>
        ensures decides { IsTrue (has_policy && observes self.old)
            → Decides (λ k d. A.decides policy.old k d policy.new) self.old.key
            self.new.digest.admission }
        ensures same_policy { result ≡ None → policy.new ≡ policy.old }
        ensures asked { is_some result ≡ (has_policy && observes self.old) }
        ensures request { self.new ≡ with_decision result self.old }
        ensures kept { kept_if (has_policy && observes self.old) self.new.digest.admission
            ≡ result }
        ensures key { is_deferral result ≡ true → self.new.phase ≡ CacheKey }
    {
        if !has_policy || !self.observes() {
            return None;
        }
        Some(self.observe(policy))
    }

    // Turns caching off with the reason Deferred. Returns the lock that was released.
    pub(super) fn defer<L: CacheKeyLock>(
        &mut self,
        storage: &mut S,
        lock: &mut L,
    ) -> Option<LockName>
        requires { self.old.phase ≡ CacheKey }
        ensures request { self.new ≡ switched_off Deferred self.old }
        ensures store { S.state storage.new
            ≡ left_by self.old.reader (dropped_by self.old.write (S.state storage.old)) }
        ensures past { S.past storage.new
            ≡ left_past self.old.reader (dropped_past self.old.write (S.past storage.old)) }
        ensures table { L.table lock.new ≡ settled TransientError self.old.held (L.table lock.old) }
        ensures deeds { L.past lock.new
            ≡ settled_deeds TransientError self.old.held (L.past lock.old) }
        ensures released { result ≡ option_map name_of self.old.held }
    {
        self.disable(storage, lock, NoCacheReason::Deferred)
    }
}
