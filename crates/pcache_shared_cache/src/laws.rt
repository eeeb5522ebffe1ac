//! What follows for all parts together.
ghost use Rattle.std.specs.Prelude.{◌≡◌, ◌<◌, ◌≤◌, ℕ, All, IfSome, List, Option, map, sum, sum_by};
ghost use Rattle.std.specs.List.{range_with_len};
ghost use Rattle.pcache_cache.specs.Parts.{IsKept, Parts};
ghost use Rattle.pcache_evict.specs.declared.eviction.policy.EvictionPolicy.{EvictionPolicy};
ghost use Rattle.pcache_store.specs.Totals.{slots, stored_bytes};
ghost use Rattle.pcache_shared_cache.specs.Portions.{portion, portions, whole_watermark, whole_weight};
ghost use Rattle.pcache_shared_cache.specs.Seen.{IsLog, first_of};

/// The portions of a whole sum to the whole.
pub fn portions_add_up()
    ensures parts { (whole n : ℕ)
        → 0 < n
        → sum (map (portion whole n) (range_with_len 0 n)) ≡ whole }
    ensures limits { (policy : EvictionPolicy) (n limit : ℕ) (watermark : Option ℕ)
        → 0 < n
        → whole_weight (portions policy n limit watermark) ≡ limit }
{}

/// Parts that each keep their own limits together keep the whole limits, at any moment: the sum of the lengths of their
/// complete bodies is at most the sum of all limits, and their number at most the sum of all watermarks if each part has one.
pub fn parts_keep_the_whole()
    ensures bytes { (ps : List Parts)
        → All (λ p. IsKept p.weighing p.limits p.tracked p.store) ps
        → sum_by (λ p. stored_bytes p.store) ps ≤ whole_weight (map (λ p. p.limits) ps) }
    ensures count { (ps : List Parts)
        → All (λ p. IsKept p.weighing p.limits p.tracked p.store) ps
        → IfSome (whole_watermark (map (λ p. p.limits) ps)) (λ most.
        sum_by (λ p. slots p.store) ps ≤ most) }
{}

/// A part keeps the settings with which it began: each state of its log has the limits of the first one, weighs entries as that
/// one, and has the age at which its permits are too old. No call changes them.
pub fn a_part_keeps_its_settings()
    ensures limits { (log : List Parts)
        → IsLog log
        → All (λ p. p.limits ≡ (first_of log).limits) log }
    ensures weighing { (log : List Parts)
        → IsLog log
        → All (λ p. p.weighing ≡ (first_of log).weighing) log }
    ensures age { (log : List Parts)
        → IsLog log
        → All (λ p. p.locks.age_timeout ≡ (first_of log).locks.age_timeout) log }
{}
