//! Which keys' responses are predicted not to be cacheable.
ghost use Rattle.std.specs.Prelude.{◌≡◌, ◌<◌, ℕ, Bool, true, List, Option, not, replicate, is_some, is_none, IfOk, OnErr, Some, None, if◌then◌else◌, option_map};
ghost use Rattle.std.specs.Option.{ForSome};
ghost use Rattle.pcache_base.specs.Key.{primary_of, number_of};
ghost use Rattle.pcache_base.specs.declared.reason.NoCacheReason.{NoCacheReason};
ghost use Rattle.pcache_predict.specs.Remembered.{empty_shard, reason_of, after_mark, after_unmark};
ghost use Rattle.pcache_predict.specs.Marking.{Skips, counts};

use crate::marked_keys::MarkedKeys;
use pcache_base::key::{CacheHashKey, CacheKey, HashBinary};
use pcache_base::reason::NoCacheReason;
use pcache_base::seed::Seed;
use std::alloc::{AllocError, Global};

/// Whether a mark with a custom reason is skipped, decided by the reason's text.
pub type CustomReasonPredicate = fn(&str) -> bool;

/// Predicts whether a key's response can be cached, from the key's earlier responses.
///
/// Keys are compared by their primary hashes, since a prediction is needed before the variance is
/// known.
pub trait CacheablePredictor {
    /// Whether the keys with a primary hash are predicted not to be cacheable.
    ghost uncacheable: { Self → List ℕ → Bool };

    /// The reason that is predicted for the keys with a primary hash.
    ghost reason: { Self → List ℕ → Option NoCacheReason };

    /// What marking a primary hash as cacheable returns, and the state after it.
    ghost unmarks: { Self → List ℕ → Bool → Self → Type 0 };

    /// What marking a primary hash as not cacheable, for a reason, returns, and the state after it.
    ghost marks: { Self → List ℕ → NoCacheReason → Option Bool → Self → Type 0 };

    /// Whether a mark with this reason may count.
    ghost may_count: { Self → NoCacheReason → Type 0 };

    /// Whether the key's response is predicted to be cacheable.
    fn cacheable_prediction(&self, key: &CacheKey) -> bool
        ensures { result ≡ not (uncacheable self.now (primary_of key.now)) };

    /// Why the key's response is predicted not to be cacheable, if the predictor knows.
    fn predicted_uncacheable_reason(&self, key: &CacheKey) -> Option<NoCacheReason>
        ensures { result ≡ reason self.now (primary_of key.now) };

    /// Records that the key's response was cacheable. Returns whether that was predicted.
    fn mark_cacheable(&mut self, key: &CacheKey) -> bool
        ensures { unmarks self.old (primary_of key.now) result self.new };

    /// Records that the key's response was not cacheable, for this reason. Returns `None` if the
    /// reason does not count, otherwise whether the key was predicted to be cacheable. Fails only
    /// when memory runs out, for a reason that may count, and then changes nothing.
    fn mark_uncacheable(
        &mut self,
        key: &CacheKey,
        why: NoCacheReason,
    ) -> Result<Option<bool>, AllocError>
        ensures ok { IfOk result (λ answer.
            marks self.old (primary_of key.now) why answer self.new) }
        ensures err { OnErr result (self.new ≡ self.old) }
        ensures counted { OnErr result (may_count self.old why) };
}

#[tactic(auto, unfolding(pcache_base::specs::Key::number_of))]
fn number(hash: HashBinary) -> u128
    ensures { result ≡ number_of hash }
{
    u128::from_be_bytes(hash)
}

#[derive(Drop)]
struct SkippedReasons {
    predicate: CustomReasonPredicate,
    pub ghost callable: { CustomReasonPredicate.IsAlwaysCallable predicate },
}

impl SkippedReasons {
    fn new(predicate: CustomReasonPredicate) -> SkippedReasons
        requires { IsAlwaysCallable predicate }
        ensures { result.predicate ≡ predicate }
    {
        SkippedReasons { predicate }
    }
}

/// Remembers the keys that were marked last as not cacheable, in `N_SHARDS` lists.
///
/// A mark is remembered if its reason is that the origin forbids caching or that the response was too
/// large, or a custom one that the predicate does not skip; other marks change nothing. Looking a key
/// up does not promote it.
#[derive(Drop)]
pub struct Predictor<const N_SHARDS: usize> {
    memory: MarkedKeys<N_SHARDS>,
    skipped: Option<SkippedReasons>,
}

impl<const N_SHARDS: usize> Predictor<N_SHARDS> {
    ghost use Rattle.pcache_predict.specs.Predictor.{memory_of, predicate_of};

    /// Remembers no key yet, and later at most `shard_capacity` keys in each list (0 counts as 1).
    /// The lists' tables hash under the seed, on which no result depends. Fails only when memory
    /// runs out.
    pub fn new(
        alloc: Global,
        seed: Seed,
        shard_capacity: usize,
        skip_custom_reasons: Option<CustomReasonPredicate>,
    ) -> Result<Predictor<N_SHARDS>, AllocError>
        requires shards { 0 < N_SHARDS }
        requires callable { ForSome skip_custom_reasons IsAlwaysCallable }
        ensures memory { IfOk result (λ made.
            memory_of made ≡ replicate N_SHARDS (empty_shard shard_capacity)) }
        ensures predicate { IfOk result (λ made. predicate_of made ≡ skip_custom_reasons) }
    {
        let skipped = match skip_custom_reasons {
            Some(predicate) => Some(SkippedReasons::new(predicate)),
            None => None,
        };
        Ok(Predictor {
            memory: MarkedKeys::new(alloc, seed, shard_capacity)?,
            skipped,
        })
    }

    // Whether a mark with this reason is remembered.
    fn remembers(&self, reason: NoCacheReason) -> bool
        ensures { (skipped : Bool)
            × Skips CustomReasonPredicate.post (predicate_of self.now) reason skipped
            × (result ≡ counts reason skipped) }
    {
        match reason {
            NoCacheReason::OriginNotCache | NoCacheReason::ResponseTooLarge => true,
            NoCacheReason::Custom(word) => match &self.skipped {
                Some(skipped) => !(skipped.predicate)(word),
                None => true,
            },
            NoCacheReason::NeverEnabled
            | NoCacheReason::PredictedResponseTooLarge
            | NoCacheReason::StorageError
            | NoCacheReason::InternalError
            | NoCacheReason::Deferred
            | NoCacheReason::DeclinedToUpstream
            | NoCacheReason::UpstreamError
            | NoCacheReason::CacheLockGiveUp
            | NoCacheReason::CacheLockTimeout
            | NoCacheReason::CacheLockRetryLimit => false,
        }
    }
}

impl<const N_SHARDS: usize> CacheablePredictor for Predictor<N_SHARDS> {
    ghost use Rattle.pcache_predict.specs.Predictor.{memory_of, predicate_of};

    ghost uncacheable = { λ p key. is_some (reason_of (memory_of p) (number_of key)) };

    ghost reason = { λ p key. reason_of (memory_of p) (number_of key) };

    ghost unmarks = { λ p key new q.
        (new ≡ is_none (reason_of (memory_of p) (number_of key)))
        × (memory_of q ≡ after_unmark (memory_of p) (number_of key))
        × (predicate_of q ≡ predicate_of p) };

    // A mark that does not count returns `None` and changes nothing.
    ghost marks = { λ p key why answer q.
        (skipped : Bool) × Skips CustomReasonPredicate.post (predicate_of p) why skipped
        × (answer ≡ (if counts why skipped then Some (is_none (reason_of (memory_of p) (number_of key))) else None))
        × (memory_of q ≡ (if counts why skipped then after_mark (memory_of p) (number_of key) why else memory_of p))
        × (predicate_of q ≡ predicate_of p) };

    // The reason counts, unless it is a custom one that the predicate skips.
    ghost may_count = { λ p why. (skipped : Bool) × Skips CustomReasonPredicate.post (predicate_of p) why skipped × (counts why skipped ≡ true) };

    fn cacheable_prediction(&self, key: &CacheKey) -> bool {
        self.predicted_uncacheable_reason(key).is_none()
    }

    fn predicted_uncacheable_reason(&self, key: &CacheKey) -> Option<NoCacheReason> {
        self.memory.reason(number(key.primary_bin()))
    }

    fn mark_cacheable(&mut self, key: &CacheKey) -> bool {
        self.memory.unmark(number(key.primary_bin()))
    }

    fn mark_uncacheable(
        &mut self,
        key: &CacheKey,
        why: NoCacheReason,
    ) -> Result<Option<bool>, AllocError> {
        if !self.remembers(why) {
            return Ok(None);
        }
        Ok(Some(self.memory.mark(number(key.primary_bin()), why)?))
    }
}
