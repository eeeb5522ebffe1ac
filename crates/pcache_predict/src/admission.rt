//! Whether a key's response is worth storing yet.
ghost use Rattle.std.specs.Prelude.{◌≡◌};
ghost use Rattle.pcache_predict.specs.Admission.{observed_of, is_defer};

use pcache_base::key::CacheKey;

/// A policy's decision on a key: to wait or to store, and how often the key was observed.
#[derive(Clone, Copy, Debug, PartialEq, Eq)]
pub enum Decision {
    /// Not to be stored yet.
    Defer {
        /// How often the key was observed.
        observed: u32,
    },
    /// To be stored.
    Ready {
        /// How often the key was observed.
        observed: u32,
    },
}

impl Decision {
    /// How often the key was observed.
    pub fn observed(self) -> u32
        ensures { result ≡ observed_of self }
    {
        match self {
            Decision::Defer { observed } | Decision::Ready { observed } => observed,
        }
    }

    /// Whether the key is not to be stored yet.
    pub fn is_deferred(self) -> bool
        ensures { result ≡ is_defer self }
    {
        matches!(self, Decision::Defer { .. })
    }
}

/// Decides for each requested key whether its response is to be stored.
pub trait AdmissionPolicy {
    ghost use Rattle.pcache_base.specs.Key.{Key};
    ghost use Rattle.pcache_predict.specs.declared.admission.Decision.{Decision};

    /// What the policy may decide on a key, and its state after that. By default nothing is stated.
    ghost decides: { Self → Key → Decision → Self → Type 0 } = { λ _ _ _ _. Unit {0} };

    /// Counts one more request for the key, and decides.
    fn observe(&mut self, key: &CacheKey) -> Decision
        ensures { decides self.old key.now result self.new };
}

/// A decision is itself a policy, which always decides so.
impl AdmissionPolicy for Decision {
    ghost use Rattle.std.specs.Prelude.{◌≡◌};

    ghost decides = { λ policy key decision after. (decision ≡ policy) × (after ≡ policy) };

    fn observe(&mut self, _key: &CacheKey) -> Decision {
        *self
    }
}
