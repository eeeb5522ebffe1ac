//! One LRU shard behind a lock.
ghost use Rattle.std.specs.Prelude.{◌≡◌, ◌<◌, IfOk, max};
ghost use Rattle.std.specs.Sync.RwLock.{read_guard_value};

use crate::hashtable::lru_shard::LruShard;
use crate::hashtable::write_guard::WriteGuard;
use pcache_base::seed::Seed;
use std::alloc::{AllocError, Global};
use std::marker::Model;
use std::sync::{RwLock, RwLockReadGuard, Wait};

/// The lock of one of `N` shards. A contract sees the place and the capacity of its shard.
///
/// Of the value that a lock lends only the type is known. Therefore the place and the capacity are
/// kept beside the lock too, and a shard is lent only if it has the same ones itself. It has them
/// at the first try: `at` puts such a shard under the lock, and nobody can put another one there,
/// since `write` lends the calls of a shard and never the shard itself.
#[derive(Drop)]
pub struct LruLock<V, const N: usize> {
    place: usize,
    capacity: usize,
    shard: RwLock<LruShard<V, N>>,
}

impl<V, const N: usize> Model for LruLock<V, N> {
    ghost use Rattle.std.specs.Prelude.{◌<◌};
    ghost use Rattle.pcache_table.specs.Sharding.{Seat};

    ghost Value = { Seat };

    ghost view = { λ l. record { place = l.place; cap = l.capacity } };

    ghost invariant = { λ l. l.place < N };
}

impl<V: Drop, const N: usize> LruLock<V, N> {
    // The lock of an empty shard at a place. A capacity of 0 counts as 1.
    //
    // Fails only when memory runs out.
    pub(crate) fn at(
        alloc: Global,
        seed: Seed,
        place: usize,
        capacity: usize,
    ) -> Result<LruLock<V, N>, AllocError>
        requires { place < N }
        ensures made { IfOk result (λ l. l ≡ record { place = place; cap = max capacity 1 }) }
    {
        let shard = LruShard::at(alloc, seed, place, capacity)?;
        Ok(LruLock {
            place,
            capacity: shard.capacity(),
            shard: RwLock::new(shard),
        })
    }

    /// The place of its shard.
    pub fn place(&self) -> usize
        ensures place { result ≡ self.now.place }
        ensures in_range { self.now.place < N }
    {
        self.place
    }

    /// How many keys its shard may have.
    pub fn capacity(&self) -> usize
        ensures { result ≡ self.now.cap }
    {
        self.capacity
    }

    /// Its shard, for reading. It waits while another thread writes.
    pub fn read<R: Wait>(&self, rt: &R) -> RwLockReadGuard<'_, LruShard<V, N>>
        ensures place { (read_guard_value result).place ≡ self.now.place }
        ensures capacity { (read_guard_value result).cap ≡ self.now.cap }
    {
        // The first round returns (see the type); the test provides the clause of the contract.
        for _ in rt.forever() {
            let shard = self.shard.read(rt);
            if shard.place() == self.place && shard.capacity() == self.capacity {
                return shard;
            }
        }
        unreachable!()
    }

    /// Its shard, for reading and writing. It waits while other threads read or write.
    pub fn write<R: Wait>(&self, rt: &R) -> WriteGuard<'_, LruShard<V, N>>
        ensures place { result.place ≡ self.now.place }
        ensures capacity { result.cap ≡ self.now.cap }
    {
        // The first round returns (see the type); the test provides the clause of the contract.
        for _ in rt.forever() {
            let shard = WriteGuard::over(self.shard.write(rt));
            if shard.place() == self.place && shard.capacity() == self.capacity {
                return shard;
            }
        }
        unreachable!()
    }
}
