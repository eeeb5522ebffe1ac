//! The keys of evicted entries.
ghost use Rattle.std.specs.Prelude.{◌≡◌, ◌∷◌, [], take, IfOk, OnOk};
ghost use Rattle.pcache_policies.specs.S3Fifo.{is_ghost, forgotten, ghosted};

use crate::queue::{Queue, Seen};
use pcache_evict::eviction::CacheEntryKey;
use std::alloc::{AllocError, Global};
use std::hash::BuildHasher;
use std::marker::Model;

/// Keys, the newest first, each once. A contract sees the list. Each call takes at most one look-up,
/// and one for each key that is dropped.
#[derive(Drop)]
pub(crate) struct Ghosts<S: BuildHasher> {
    queue: Queue<S>,
}

impl<S: BuildHasher> Model for Ghosts<S> {
    ghost use Rattle.std.specs.Map.{keys_of};
    ghost use Rattle.pcache_policies.specs.S3Fifo.{Ghosts};

    ghost Value = { Ghosts };

    ghost view = { λ g. keys_of g.queue };
}

impl<S: BuildHasher + Copy + Drop> Ghosts<S> {
    /// No keys.
    pub(crate) fn new(alloc: Global, seed: S) -> Result<Ghosts<S>, AllocError>
        ensures ok { IfOk result (λ made. made ≡ []) }
    {
        Ok(Ghosts {
            queue: Queue::new(alloc, seed)?,
        })
    }

    /// Whether a key is among the ghosts.
    pub(crate) fn has(&self, key: &CacheEntryKey) -> bool
        ensures { result ≡ is_ghost key.now self.now }
    {
        self.queue.get(key).is_some()
    }

    /// Forgets a key.
    pub(crate) fn forget(&mut self, key: &CacheEntryKey)
        ensures { self.new ≡ forgotten key.now self.old }
    {
        self.queue.remove(key);
    }

    /// Adds a key as the newest, and keeps at most nine tenths of `count` keys.
    pub(crate) fn add(&mut self, key: CacheEntryKey, count: usize) -> Result<(), AllocError>
        ensures ok { OnOk result (self.new ≡ ghosted key count self.old) }
    {
        // The paper's number where all entries have one size and the cache is full: as many as the
        // main queue holds.
        self.add_within(key, count - count / 10)
    }

    /// Adds a key as the newest, and keeps the `most` newest ones.
    pub(crate) fn add_within(&mut self, key: CacheEntryKey, most: usize) -> Result<(), AllocError>
        ensures ok { OnOk result (self.new ≡ take most (key ∷ forgotten key self.old)) }
    {
        self.queue.remove(&key);
        self.queue.push(key, Seen::unused(0))?;
        self.queue.keep(most);
        Ok(())
    }
}
