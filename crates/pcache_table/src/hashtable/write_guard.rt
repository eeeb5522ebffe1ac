//! The guard that a shard's lock lends for writing.
ghost use Rattle.std.specs.Prelude.{◌≡◌, ◌%◌, IfErr, IfOk, OnErr, OnOk, OnSome, nat_eq, option_copied};
ghost use Rattle.std.specs.FinMap as map;
ghost use Rattle.std.specs.Map.{lookup};
ghost use Rattle.std.specs.Sync.RwLock.{write_guard_value};
ghost use Rattle.pcache_table.specs.Sharding.{part_with, part_without};

use crate::hashtable::lru_shard::LruShard;
use crate::hashtable::shard::Shard;
use std::alloc::AllocFailed;
use std::marker::Model;
use std::ops::Deref;
use std::sync::RwLockWriteGuard;

/// A shard that no other thread reads or writes until the guard is dropped. A contract sees the
/// shard.
///
/// It lends the shard for reading, and has the calls that change it. It never lends the shard
/// mutably: whoever had two of them could swap the shards of two locks.
#[derive(Drop)]
pub struct WriteGuard<'a, S> {
    shard: RwLockWriteGuard<'a, S>,
}

impl<'a, S> Model for WriteGuard<'a, S> {
    ghost use Rattle.std.specs.Sync.RwLock.{write_guard_value};

    ghost Value = { S };

    ghost coded = { S.code };

    ghost view = { λ g. write_guard_value g.shard };
}

impl<'a, S> WriteGuard<'a, S> {
    /// The guard around that of the lock.
    pub(crate) fn over(shard: RwLockWriteGuard<'a, S>) -> WriteGuard<'a, S>
        ensures { result ≡ write_guard_value shard.entry }
    {
        WriteGuard { shard }
    }
}

impl<S> Deref for WriteGuard<'_, S> {
    type Target = S;

    ghost deref_gives = { λ g x. x ≡ g };

    fn deref(&self) -> &S {
        &self.shard
    }
}

impl<V, const N: usize> WriteGuard<'_, Shard<V, N>> {
    /// Sets the value at a key of the shard's own, and returns the old one.
    pub fn insert(&mut self, key: u128, value: V) -> Result<Option<V>, AllocFailed<(u128, V)>>
        requires { key % N ≡ self.old.place }
        ensures before { IfOk result (λ old. old ≡ map.get self.old.map key) }
        ensures ok { OnOk result (self.new
            ≡ record self.old { map = map.insert self.old.map key value }) }
        ensures err { OnErr result (self.new ≡ self.old) }
        ensures value_returned { IfErr result (λ y. y.value ≡ (key, value)) }
        ensures absent { OnErr result (map.get self.old.map key ≡ None) }
    {
        self.shard.insert(key, value)
    }

    /// Removes a key, and returns its value.
    pub fn remove(&mut self, key: u128) -> Option<V>
        ensures before { result ≡ map.get self.old.map key }
        ensures removed { self.new ≡ record self.old { map = map.remove self.old.map key } }
    {
        self.shard.remove(key)
    }
}

impl<V: Drop, const N: usize> WriteGuard<'_, LruShard<V, N>> {
    /// Sets the value at a key of the shard's own and puts it in front; a full shard drops its last
    /// key. Returns the old value.
    pub fn put(&mut self, key: u128, value: V) -> Result<Option<V>, AllocFailed<(u128, V)>>
        requires { key % N ≡ self.old.place }
        ensures before { IfOk result (λ old. old ≡ lookup (nat_eq key) self.old.entries) }
        ensures ok { OnOk result (self.new ≡ part_with key value self.old) }
        ensures err { OnErr result (self.new ≡ self.old) }
        ensures value_returned { IfErr result (λ y. y.value ≡ (key, value)) }
    {
        self.shard.put(key, value)
    }

    /// Removes a key, and returns its value.
    pub fn pop(&mut self, key: u128) -> Option<V>
        ensures before { result ≡ lookup (nat_eq key) self.old.entries }
        ensures gone { self.new ≡ part_without key self.old }
    {
        self.shard.pop(key)
    }
}
