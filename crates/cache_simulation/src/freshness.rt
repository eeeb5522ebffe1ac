//! Until when bodies are fresh, if that is limited.
ghost use Rattle.std.specs.Prelude.{◌≡◌, ◌+◌, OnOk};
ghost use Rattle.std.specs.Duration.{as_nanos};
ghost use Rattle.std.specs.FinMap as map;
ghost use Rattle.pcache_evict.specs.Tracked.{without};
ghost use Rattle.cache_simulation.specs.Fresh.{is_fresh_at, is_fresh_since, none_fresh};

use http::StatusCode;
use pcache_base::moment::Moment;
use pcache_evict::eviction::CacheEntryKey;
use pcache_meta::header::ResponseHeader;
use pcache_meta::meta::CacheMeta;
use std::alloc::{AllocError, Global};
use std::collections::HashMap;
use std::marker::Model;
use std::time::Duration;

/// How long bodies are fresh, and when each stored body was added.
#[derive(Drop)]
pub struct Freshness {
    alloc: Global,
    time: Duration,
    // Moments and no metas: a meta for each key would take more than all that is kept else.
    came: HashMap<CacheEntryKey, Moment>,
}

impl Model for Freshness {
    ghost use Rattle.std.specs.Duration.{as_nanos};
    ghost use Rattle.pcache_evict.specs.Listed.{map_of};
    ghost use Rattle.cache_simulation.specs.Fresh.{Fresh};
    ghost use Rattle.cache_simulation.specs.FreshCode.{fresh_code};

    ghost Value = { Fresh };

    ghost coded = { fresh_code };

    ghost view = { λ f. record { time = as_nanos f.time; came = map_of f.came.entries } };
}

impl Freshness {
    /// Bodies are fresh for this time after they were added.
    pub fn new(alloc: Global, time: Duration) -> Freshness
        ensures { result ≡ none_fresh (as_nanos time) }
    {
        Freshness {
            alloc,
            time,
            came: HashMap::new(alloc),
        }
    }

    /// Whether a stored body is fresh at a moment, as its meta says: its freshness ends at that
    /// moment or later.
    pub fn is_fresh(&self, item: &CacheEntryKey, now: Moment) -> bool
        ensures { result ≡ is_fresh_since (map.get self.now.came item.now) self.now.time now }
    {
        match self.came.get(item) {
            Some(came) => is_meta_fresh(self.alloc, *came, self.time, now),
            None => false,
        }
    }

    /// Records when a body was added.
    pub fn set(&mut self, item: CacheEntryKey, now: Moment) -> Result<(), AllocError>
        ensures ok { OnOk result (self.new
            ≡ record self.old { came = map.insert self.old.came item now }) }
    {
        self.came.insert(item, now)?;
        Ok(())
    }

    /// Forgets bodies that were evicted.
    pub fn forget(&mut self, gone: &[CacheEntryKey])
        ensures { self.new ≡ record self.old { came = without gone.now self.old.came } }
    {
        for item in gone {
            self.remove(item);
        }
    }

    // Forgets a body.
    fn remove(&mut self, item: &CacheEntryKey)
        ensures { self.new ≡ record self.old { came = map.remove self.old.came item.now } }
    {
        self.came.remove(item);
    }
}

// Whether the meta of a body that was added at `came` is fresh now. The meta says only until when the body is fresh, so it
// is made when it is needed; if its end is out of range, it stays fresh.
fn is_meta_fresh(alloc: Global, came: Moment, time: Duration, now: Moment) -> bool
    ensures { result ≡ is_fresh_at (came + as_nanos time) now }
{
    let Some(ends) = came.checked_add(time) else {
        now.secs(); // for the prover: its contract says that it is a moment
        return true;
    };
    let header = ResponseHeader::build(alloc, StatusCode::OK);
    CacheMeta::new(ends, came, 0, 0, header).is_fresh(now)
}
