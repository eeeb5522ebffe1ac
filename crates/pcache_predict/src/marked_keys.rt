//! Marked keys with their reasons, in lists that drop the oldest marks.
ghost use Rattle.std.specs.Prelude.{◌≡◌, ◌<◌, is_none, replicate, IfOk, OnOk, OnErr};
ghost use Rattle.pcache_predict.specs.Remembered.{empty_shard, reason_of, after_mark, after_unmark};

use pcache_base::reason::NoCacheReason;
use pcache_base::seed::Seed;
use pcache_table::hashtable::LruShards;
use std::alloc::{AllocError, Global};
use std::marker::Model;

// The marked keys. The list of a key is the key, as a number, modulo the number of lists.
#[derive(Drop)]
pub(crate) struct MarkedKeys<const N: usize> {
    lists: LruShards<NoCacheReason, N>,
}

impl<const N: usize> Model for MarkedKeys<N> {
    ghost use Rattle.std.specs.Prelude.{◌≡◌, ◌<◌, List, length};
    ghost use Rattle.pcache_predict.specs.Lists.{AreKept, seen};
    ghost use Rattle.pcache_predict.specs.Remembered.{Shard};

    ghost Value = { List Shard };

    ghost view = { λ a. seen a.lists };

    ghost invariant = { λ a. (0 < N) × (length a.lists ≡ N) × AreKept a.lists };
}

impl<const N: usize> MarkedKeys<N> {
    // No key yet. A capacity of 0 counts as 1. No room is reserved in advance.
    pub(crate) fn new(
        alloc: Global,
        seed: Seed,
        capacity: usize,
    ) -> Result<MarkedKeys<N>, AllocError>
        requires { 0 < N }
        ensures ok { IfOk result (λ all. all ≡ replicate N (empty_shard capacity)) }
    {
        Ok(MarkedKeys {
            lists: LruShards::new(alloc, seed, capacity)?,
        })
    }

    // The reason that a key was marked with.
    pub(crate) fn reason(&self, key: u128) -> Option<NoCacheReason>
        ensures { result ≡ reason_of self.now key }
    {
        self.lists.peek(key).copied()
    }

    // Marks a key with a reason. Returns whether it was not marked before.
    pub(crate) fn mark(&mut self, key: u128, reason: NoCacheReason) -> Result<bool, AllocError>
        ensures was { IfOk result (λ new. new ≡ is_none (reason_of self.old key)) }
        ensures ok { OnOk result (self.new ≡ after_mark self.old key reason) }
        ensures err { OnErr result (self.new ≡ self.old) }
    {
        let _ = &self.lists; // for the prover: no key is twice in a list (`AreKept`)
        let old = self.lists.put(key, reason)?;
        Ok(old.is_none())
    }

    // Unmarks a key. Returns whether it was not marked before.
    pub(crate) fn unmark(&mut self, key: u128) -> bool
        ensures was { result ≡ is_none (reason_of self.old key) }
        ensures out { self.new ≡ after_unmark self.old key }
    {
        let _ = &self.lists; // for the prover: no key is twice in a list (`AreKept`)
        self.lists.pop(key).is_none()
    }
}
