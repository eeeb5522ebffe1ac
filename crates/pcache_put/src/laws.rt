//! The outcome of a put does not depend on how its bytes were split; and which policies decide one way on a
//! head at a moment.
ghost use Rattle.std.specs.Prelude.{◌≡◌, ℕ, List, None, Option, option_map};
ghost use Rattle.std.specs.Duration.{as_nanos};
ghost use Rattle.pcache_control.specs.declared.response.RespCacheable.{RespCacheable};
ghost use Rattle.pcache_meta.specs.declared.header.ResponseHeader.{ResponseHeader};
ghost use Rattle.pcache_put.specs.Policies.{DecidesOneWay, HaveOneLifetime, SaysByDefault, SaysWithin};
ghost use Rattle.pcache_put.specs.Puts.{Piece, Outcome, ComesTo, IsResult, joined};

use crate::policy::{ByDefaults, CachePut, HeadLimit};
use pcache_control::FreshDurationByStatusFn;

/// Two puts of the same bytes, whose heads ended at one moment and whose policy decides one way on a head at a moment,
/// have the same outcome, however the bytes were split into pieces. A law; the call does nothing.
pub fn same_put_however_cut<C: CachePut>(policy: &C)
    ensures { ((header : ResponseHeader) (now : ℕ) (a b : RespCacheable)
        → C.says policy.now header now a
        → C.says policy.now header now b
        → a ≡ b)
        → (limit : Option ℕ) (bytes : List ℕ) (now : ℕ) (o q : Outcome)
        → ComesTo (C.says policy.now) limit bytes now o
        → ComesTo (C.says policy.now) limit bytes now q
        → o ≡ q }
{
    let _ = policy;
}

/// The policy that goes by a response and by defaults decides one way on a head at a moment, if its defaults give a status
/// only one lifetime. So `same_put_however_cut` holds for its puts. A law; the call does nothing.
pub fn one_decision_by_defaults(policy: &ByDefaults)
    ensures { HaveOneLifetime (FreshDurationByStatusFn.post policy.now.defaults.fresh_sec_fn)
        → DecidesOneWay (SaysByDefault
        (policy.now.defaults.stale_while_revalidate_sec, policy.now.defaults.stale_if_error_sec)
        (FreshDurationByStatusFn.post policy.now.defaults.fresh_sec_fn)) }
{
    let _ = policy;
}

/// So does every policy whose default lifetimes are a function of the status, or that has none. A law; the call does
/// nothing.
pub fn one_decision_by_lifetimes()
    ensures timed { (windows : ℕ × ℕ) (lifetimes : ℕ → Option ℕ)
        → DecidesOneWay (SaysByDefault windows (λ status lifetime.
        option_map as_nanos lifetime ≡ lifetimes status)) }
    ensures none { (windows : ℕ × ℕ)
        → DecidesOneWay (SaysByDefault windows (λ status lifetime. lifetime ≡ None)) }
{}

/// So does a policy with a limit on heads, if it does without the limit. A law; the call does nothing.
pub fn one_decision_within_a_limit<C: CachePut>(policy: &HeadLimit<C>)
    ensures { DecidesOneWay (C.says policy.now.policy)
        → DecidesOneWay (SaysWithin policy.now.max_head_size_bytes (C.says policy.now.policy)) }
{
    let _ = policy;
}
