//! One shard of a table behind a lock.
ghost use Rattle.std.specs.Prelude.{◌≡◌, ◌<◌};
ghost use Rattle.std.specs.Sync.RwLock.{read_guard_value};

use crate::hashtable::shard::Shard;
use crate::hashtable::write_guard::WriteGuard;
use std::alloc::Global;
use std::marker::{Model, PhantomData};
use std::sync::{RwLock, RwLockReadGuard, Wait};

/// The lock of one of `N` shards. A contract sees the place of its shard.
///
/// Of the value that a lock lends only the type is known. Therefore the place is kept beside the
/// lock too, and a shard is lent only if it has the same place itself. It has it at the first try:
/// `at` puts such a shard under the lock, and nobody can put another one there, since `write` lends
/// the calls of a shard and never the shard itself.
#[derive(Drop)]
pub struct ShardLock<V, const N: usize> {
    place: usize,
    shard: RwLock<Shard<V, N>>,
}

impl<V, const N: usize> Model for ShardLock<V, N> {
    ghost use Rattle.std.specs.Prelude.{ℕ, ◌<◌};

    ghost Value = { ℕ };

    ghost view = { λ l. l.place };

    ghost invariant = { λ l. l.place < N };
}

impl<V, const N: usize> ShardLock<V, N> {
    // The lock of an empty shard at a place.
    pub(crate) fn at(alloc: Global, place: usize, like: PhantomData<Shard<V, N>>) -> ShardLock<V, N>
        requires { place < N }
        ensures { result ≡ place }
    {
        ShardLock {
            place,
            shard: RwLock::new(Shard::at(alloc, place, like)),
        }
    }

    /// The place of its shard.
    pub fn place(&self) -> usize
        ensures place { result ≡ self.now }
        ensures in_range { self.now < N }
    {
        self.place
    }

    /// Its shard, for reading. It waits while another thread writes.
    pub fn read<R: Wait>(&self, rt: &R) -> RwLockReadGuard<'_, Shard<V, N>>
        ensures { (read_guard_value result).place ≡ self.now }
    {
        // The first round returns (see the type); the test provides the clause of the contract.
        for _ in rt.forever() {
            let shard = self.shard.read(rt);
            if shard.place() == self.place {
                return shard;
            }
        }
        unreachable!()
    }

    /// Its shard, for reading and writing. It waits while other threads read or write.
    pub fn write<R: Wait>(&self, rt: &R) -> WriteGuard<'_, Shard<V, N>>
        ensures { result.place ≡ self.now }
    {
        // The first round returns (see the type); the test provides the clause of the contract.
        for _ in rt.forever() {
            let shard = WriteGuard::over(self.shard.write(rt));
            if shard.place() == self.place {
                return shard;
            }
        }
        unreachable!()
    }
}
