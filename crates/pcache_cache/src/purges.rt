//! What a cache has seen of purges, and when the fetches of its requests began.
ghost use Rattle.std.specs.Prelude.{◌≡◌, [], None, option_copied};
ghost use Rattle.pcache_cache.specs.Fetching.{fetch_begun, is_old_variant, is_outdated, no_purges, place_of, purge_seen, purged_since, purges_before, url_slot};

use pcache_base::key::{CacheHashKey, CacheKey, HashBinary};
use pcache_store::memory::MemCache;
use std::marker::Model;

/// How many places there are: a purge counts for all slots of its place. More of them would have fewer responses refused for the purge
/// of another key, and take 24 bytes each.
const PLACES: usize = 1024;

/// When a request's fetch began: how many purges its cache had seen then. The look-ups of a request set it, and
/// [`Cache::begin_fetch`](crate::Cache::begin_fetch).
#[derive(Drop)]
pub struct Fetch {
    url: u128,
    purges: u64,
}

impl Model for Fetch {
    ghost use Rattle.pcache_cache.specs.Fetching.{FetchNote};
    ghost use Rattle.pcache_cache.specs.FetchingCode.{fetch_code};

    ghost Value = { FetchNote };

    ghost coded = { fetch_code };

    ghost view = { λ f. record { url = f.url; purges = f.purges } };
}

// How many purges a cache has seen, and of each place the last one.
#[derive(Drop)]
pub(crate) struct Purges {
    count: u64,
    last: [u64; PLACES],
    // Numbers of writes go up to 2^64, which says that all are used.
    next: [u128; PLACES],
}

impl Model for Purges {
    ghost use Rattle.pcache_cache.specs.Fetching.{PurgesSeen};
    ghost use Rattle.pcache_cache.specs.FetchingCode.{purges_code};

    ghost Value = { PurgesSeen };

    ghost coded = { purges_code };

    ghost view = { λ p. record { count = p.count; last = p.last; next = p.next } };
}

// The place of a slot.
fn place_of(slot: u128) -> usize
    ensures { result ≡ place_of slot }
{
    (slot % PLACES as u128) as usize
}

// A key's primary hash alone: what the keys of a URL's variants have in common.
#[derive(Drop)]
struct Url {
    primary: HashBinary,
}

impl CacheHashKey for Url {
    ghost primary_hash = { λ u. u.primary };

    ghost variance_hash = { λ _. None };

    ghost tag = { λ _. [] };

    fn primary_bin(&self) -> HashBinary {
        self.primary
    }

    fn variance_bin(&self) -> Option<HashBinary> {
        None
    }

    fn user_tag(&self) -> &str {
        ""
    }
}

// The slot of a key without its variance.
fn url_slot(key: &CacheKey) -> u128
    ensures { result ≡ url_slot key.now }
{
    let url = Url {
        primary: key.primary_bin(),
    };
    url.slot()
}

impl Purges {
    pub(crate) fn new() -> Purges
        ensures { result ≡ no_purges }
    {
        Purges {
            count: 0,
            last: [0; PLACES],
            next: [0; PLACES],
        }
    }

    // A slot is purged, when the next write has this number.
    pub(crate) fn purge(&mut self, slot: u128, next: u128)
        ensures { self.new ≡ purge_seen slot next self.old }
    {
        let place = place_of(slot);
        self.count = self.count.saturating_add(1);
        self.last[place] = self.count;
        self.next[place] = next;
    }

    // Whether a slot was purged since so many purges.
    fn was_since(&self, purges: u64, slot: u128) -> bool
        ensures { result ≡ purged_since purges slot self.now }
    {
        let last = self.last[place_of(slot)];
        purges < last || last == u64::MAX
    }

    // The fetch of a key begins.
    pub(crate) fn begin_fetch(&self, key: Option<&CacheKey>) -> Option<Fetch>
        ensures { result ≡ fetch_begun (option_copied key.entry) self.now }
    {
        Some(Fetch {
            url: url_slot(key?),
            purges: self.count,
        })
    }

    // Whether a key, or its URL, was purged since its fetch began.
    pub(crate) fn is_outdated(&self, fetch: &Option<Fetch>, key: Option<&CacheKey>) -> bool
        ensures { result ≡ is_outdated fetch.now (option_copied key.entry) self.now }
    {
        let Some(key) = key else {
            return false;
        };
        let url = url_slot(key);
        let purges = purges_before(fetch, url);
        self.was_since(purges, key.slot()) || self.was_since(purges, url)
    }

    // Whether what a look-up of a variant would find was written before its URL was purged.
    pub(crate) fn is_old_variant(&self, key: Option<&CacheKey>, store: &MemCache) -> bool
        ensures { result ≡ is_old_variant (option_copied key.entry) store.now.state self.now }
    {
        let Some(key) = key else {
            return false;
        };
        if key.get_variance_key().is_none() {
            return false;
        }
        match store.found_number(key) {
            Some(number) => u128::from(number.get()) < self.next[place_of(url_slot(key))],
            None => false,
        }
    }
}

// How many purges there were when the fetch of a URL began.
fn purges_before(fetch: &Option<Fetch>, url: u128) -> u64
    ensures { result ≡ purges_before fetch.now url }
{
    match fetch {
        Some(fetch) if fetch.url == url => fetch.purges,
        _ => 0,
    }
}
