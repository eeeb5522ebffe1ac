//! What a predictor says of a key's response, and what it is told about it.
use super::HttpCache;
use crate::phase::CachePhase;
use pcache_base::error::Result;
use pcache_base::reason::NoCacheReason;
use pcache_predict::predictor::CacheablePredictor;
use pcache_store::storage::Storage;

impl<S: Storage> HttpCache<S> {
    ghost use Rattle.std.specs.Prelude.{◌≡◌, IfOk, IfErr, IfSome, IsSome, IsTrue, OnErr, Ok, None, false, is_some};
    ghost use Rattle.pcache_base.specs.Key.{primary_of};
    ghost use Rattle.pcache_base.specs.declared.error.ErrorType.TheVariants.{OutOfMemory};
    ghost use Rattle.pcache_request.specs.Phases.{MayBypass};
    ghost use Rattle.pcache_request.specs.Predictions.{expects_cacheable, foretold, bypassed_for};
    ghost use Rattle.pcache_request.specs.Shown.{shown_key};

    /// Bypasses the cache, and keeps the reason for which a predictor in use expects that the response
    /// cannot be cached. The key and all that is held are kept.
    /// Requires the phase CacheKey; ask `phase().may_bypass()`.
    pub fn bypass<P: CacheablePredictor>(&mut self, predictor: &P)
        requires { MayBypass self.old.phase }
        ensures { self.new
            ≡ bypassed_for (foretold self.old.uses.predictor (P.reason predictor.now) self.old.key)
            self.old }
    {
        let Some(key) = &self.key else { unreachable!() };
        self.predicted = if self.uses.predictor {
            predictor.predicted_uncacheable_reason(key)
        } else {
            None
        };
        self.phase = CachePhase::Bypass;
    }

    /// Why the response was expected not to be cacheable, if the cache was bypassed with a
    /// predictor in use that knew a reason.
    pub fn predicted_uncacheable_reason(&self) -> Option<NoCacheReason>
        ensures { result ≡ self.now.predicted }
    {
        self.predicted
    }

    /// Whether the response is expected to be cacheable, as it always is if no predictor is in use.
    /// Requires a key, and that caching was enabled; ask `maybe_cache_key()`.
    pub fn cacheable_prediction<P: CacheablePredictor>(&self, predictor: &P) -> bool
        requires { IsSome (shown_key self.now) }
        ensures { result
            ≡ expects_cacheable self.now.uses.predictor (P.uncacheable predictor.now)
            (shown_key self.now) }
    {
        if !self.uses.predictor {
            return true;
        }
        predictor.cacheable_prediction(self.cache_key())
    }

    /// Tells a predictor in use that the response was cacheable. Returns what the predictor returns,
    /// whether that was expected; and `None` if no predictor is in use, which is not touched then.
    /// Requires a key, and that caching was enabled; ask `maybe_cache_key()`.
    pub fn response_became_cacheable<P: CacheablePredictor>(
        &self,
        predictor: &mut P,
    ) -> Option<bool>
        requires { IsSome (shown_key self.now) }
        ensures used { is_some result ≡ self.now.uses.predictor }
        ensures marked { IfSome (shown_key self.now) (λ k.
            IfSome result (λ b. P.unmarks predictor.old (primary_of k) b predictor.new)) }
        ensures unused { result ≡ None → predictor.new ≡ predictor.old }
    {
        if !self.uses.predictor {
            return None;
        }
        Some(predictor.mark_cacheable(self.cache_key()))
    }

    /// Tells a predictor in use that the response was not cacheable, for this reason. Returns what the
    /// predictor returns: whether the contrary was expected, or `None` for a reason that does not
    /// count; and `None` if no predictor is in use, which is not touched then. Fails only when memory
    /// runs out, for a reason that may count, and then changes nothing.
    /// Requires a key, and that caching was enabled; ask `maybe_cache_key()`.
    pub fn response_became_uncacheable<P: CacheablePredictor>(
        &self,
        predictor: &mut P,
        reason: NoCacheReason,
    ) -> Result<Option<bool>>
        requires { IsSome (shown_key self.now) }
        ensures marked { IsTrue self.now.uses.predictor
            → IfSome (shown_key self.now) (λ k.
            IfOk result (λ b. P.marks predictor.old (primary_of k) reason b predictor.new)) }
        ensures unused { self.now.uses.predictor ≡ false → result ≡ Ok None }
        ensures untouched { self.now.uses.predictor ≡ false → predictor.new ≡ predictor.old }
        ensures err { OnErr result (predictor.new ≡ predictor.old) }
        ensures kind { IfErr result (λ e. e ≡ OutOfMemory) }
        ensures counted { OnErr result (IsTrue self.now.uses.predictor
            × P.may_count predictor.old reason) }
    {
        if !self.uses.predictor {
            return Ok(None);
        }
        Ok(predictor.mark_uncacheable(self.cache_key(), reason)?)
    }
}
