//! What a cache's configuration decides where RFC 9111 leaves a choice.

/// Whose responses a cache stores (RFC 9111 section 1).
#[derive(Clone, Copy, Debug, PartialEq, Eq)]
pub enum CacheKind {
    /// Those of several users, as a proxy does.
    Shared,
    /// Those of one user.
    Private,
}

/// What counts of a directive or an Expires that a response has more than once (RFC 9111 section
/// 4.2.1).
#[derive(Clone, Copy, Debug, PartialEq, Eq)]
pub enum Repeats {
    /// The first one.
    First,
    /// None: the response is stale.
    Stale,
}

/// For how long a response is fresh that says nothing of it, if its status allows to guess (RFC
/// 9111 section 4.2.2).
#[derive(Clone, Copy, Debug, PartialEq, Eq)]
pub enum Heuristic {
    /// No time.
    Never,
    /// A tenth of the time since its Last-Modified, and at most so many seconds.
    Tenth(u32),
}

/// The choices of a cache.
#[derive(Clone, Copy, Debug, PartialEq, Eq)]
pub struct Rules {
    /// Whose responses it stores.
    pub kind: CacheKind,
    /// What counts of a repeated value.
    pub repeats: Repeats,
    /// Its heuristic for lifetimes.
    pub heuristic: Heuristic,
}

impl Rules {
    ghost use Rattle.std.specs.Prelude.{◌≡◌};

    /// The rules of a proxy: a shared cache, for which the first of several values counts, and which
    /// guesses a lifetime of a day at most.
    pub fn of_a_proxy() -> Rules
        ensures kind { result.kind ≡ CacheKind.Shared }
        ensures repeats { result.repeats ≡ Repeats.First }
        ensures heuristic { result.heuristic ≡ Heuristic.Tenth 86400 }
    {
        Rules {
            kind: CacheKind::Shared,
            repeats: Repeats::First,
            heuristic: Heuristic::Tenth(86400),
        }
    }
}
