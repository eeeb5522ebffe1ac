//! What follows for fetches of what a cache has seen of purges.
ghost use Rattle.std.specs.Prelude.{◌≡◌, ◌≤◌, ℕ, Option, Some, true};
ghost use Rattle.pcache_base.specs.Key.{Key, slot};
ghost use Rattle.pcache_cache.specs.Fetching.{AreCounted, FetchNote, PurgesSeen, fetch_begun, is_outdated, no_purges, purge_seen, url_slot};

/// A purge outdates each fetch of its key that began before it, and each of a variant of its URL, and no later purge makes good for it:
/// - `key`, `url`: a fetch that began when the cache had seen no more purges than now is outdated once the key, or its URL, is purged.
/// - `stays`: a fetch that is outdated stays so with each later purge.
/// - `none`, `counted`: of what a cache has seen of purges no place has a count that is greater than that of all purges, and each purge
///   leaves at least as many as there were.
pub fn a_purge_outdates_fetches()
    ensures key { (k : Key) (before seen : PurgesSeen) (next : ℕ)
        → before.count ≤ seen.count
        → AreCounted seen
        → is_outdated (fetch_begun (Some k) before) (Some k) (purge_seen (slot k) next seen)
        ≡ true }
    ensures url { (k : Key) (before seen : PurgesSeen) (next : ℕ)
        → before.count ≤ seen.count
        → AreCounted seen
        → is_outdated (fetch_begun (Some k) before) (Some k) (purge_seen (url_slot k) next seen)
        ≡ true }
    ensures stays { (fetch : Option FetchNote) (k : Option Key) (seen : PurgesSeen) (purged next : ℕ)
        → AreCounted seen
        → is_outdated fetch k seen ≡ true
        → is_outdated fetch k (purge_seen purged next seen) ≡ true }
    ensures none { AreCounted no_purges }
    ensures counted { (seen : PurgesSeen) (purged next : ℕ)
        → AreCounted seen
        → AreCounted (purge_seen purged next seen) × (seen.count
        ≤ (purge_seen purged next seen).count) }
{}
