//! A put of a cache in parts.
use crate::log::Sight;
use crate::mark::Mark;
use bytes::Bytes;
use pcache_base::key::CacheKey;
use pcache_base::moment::Moment;
use pcache_cache::{LeftWrite, PendingPut};
use pcache_put::context::CachePutCtx;
use pcache_put::policy::CachePut;
use pcache_put::reading::ReadPiece;
use pcache_store::memory::MemCache;
use std::alloc::Global;
use std::marker::Model;

/// A put of the cache in `N` parts with the mark `K`: a response that is pushed in, in pieces. It is made with its key, which
/// determines its part as for requests, and keeps both. Like a request it knows all states that its part had up to the put's last
/// call. It must be spent by `SharedCache::end_put`.
pub struct SharedPut<C: CachePut, K: Mark, const N: usize> {
    pub(crate) sight: Sight<K>,
    pub(crate) pending: PendingPut<C, K>,
}

impl<C: CachePut, K: Mark, const N: usize> Model for SharedPut<C, K, N> {
    ghost use Rattle.std.specs.Coded.{codes};
    ghost use Rattle.std.specs.Prelude.{◌<◌};
    ghost use Rattle.pcache_cache.specs.PartsCode.{parts_code};
    ghost use Rattle.pcache_shared_cache.specs.SharedPuts.{SeatedPut};

    ghost Value = { SeatedPut C };

    ghost coded = { Prim.hlevel (codes, parts_code) };

    ghost view = { λ p. record { place = p.sight.place; seen = p.sight.log; put = p.pending.put } };

    ghost invariant = { λ p. p.sight.place < N };
}

impl<C: CachePut, K: Mark, const N: usize> SharedPut<C, K, N> {
    ghost use Rattle.std.specs.Prelude.{◌≡◌, ◌<◌, [], List, None, Some};
    ghost use Rattle.pcache_response.specs.Progress.{AtHead};
    ghost use Rattle.pcache_put.specs.Puts.{Piece};
    ghost use Rattle.pcache_put.specs.Readings.{IfUnread, IsReadAt, MayFailRead, ReadsPiece};
    ghost use Rattle.pcache_put.specs.State.{InHead, HasTaken, write_in};
    ghost use Rattle.pcache_shared_cache.specs.Seen.{IsLog};

    // A put of a key, which has seen this of the key's part.
    pub(crate) fn new(
        alloc: Global,
        policy: C,
        key: CacheKey,
        sight: Sight<K>,
    ) -> SharedPut<C, K, N>
        requires { sight.place < N }
        ensures place { result.place ≡ sight.place }
        ensures seen { result.seen ≡ sight.log }
        ensures put { result.put
            ≡ record {
              policy = policy;
              key = key;
              size = None;
              parser = AtHead [];
              stage = InHead;
            } }
        ensures taken { HasTaken (C.says policy) result.put [] None }
    {
        SharedPut {
            sight,
            pending: PendingPut::new(alloc, policy, key),
        }
    }

    /// The place of its part.
    pub fn place(&self) -> usize
        ensures place { result ≡ self.now.place }
        ensures in_range { self.now.place < N }
    {
        self.sight.place()
    }

    /// States what is known of all states that it has seen, as `SharedRequest::headline`. The call does nothing.
    pub fn headline(&self)
        ensures { IsLog self.now.seen }
    {
        self.sight.headline();
    }

    /// The put itself, for its getters.
    pub fn put(&self) -> &CachePutCtx<C, MemCache>
        ensures { result.now ≡ self.now.put }
    {
        &self.pending.put
    }

    /// `CachePutCtx::set_max_file_size_bytes`: limits the number of the body's bytes, and sets their count to zero; to be called
    /// before the body begins.
    pub fn set_max_file_size_bytes(&mut self, max_file_size_bytes: usize)
        ensures put { self.new
            ≡ record self.old {
              put = record self.old.put {
                size = Some
                    (record { bytes = 0; limit = max_file_size_bytes });
              };
            } }
        ensures taken { (pieces : List Piece)
            → self.old.put.stage ≡ InHead
            → HasTaken (C.says self.old.put.policy) self.old.put pieces None
            → HasTaken (C.says self.old.put.policy) self.new.put pieces None }
    {
        self.pending
            .put
            .set_max_file_size_bytes(max_file_size_bytes);
    }

    // What the put leaves of its part, and what it has seen.
    pub(crate) fn into_both(self) -> (LeftWrite<K>, Sight<K>)
        ensures left { result.0 ≡ write_in self.put.stage }
        ensures place { result.1.place ≡ self.place }
        ensures seen { result.1.log ≡ self.seen }
    {
        let SharedPut { sight, pending } = self;
        (pending.into_left(), sight)
    }

    // Reads the next piece, which needs no part.
    pub(crate) fn read_piece(&mut self, piece: &Bytes, now: Moment) -> ReadPiece
        ensures read { ReadsPiece (C.says self.old.put.policy) self.old.put self.new.put
            (record { bytes = piece.now; now = now }) result }
        ensures at { IsReadAt self.new.put.stage result }
        ensures kind { IfUnread result (MayFailRead self.old.put.stage self.old.put.parser) }
        ensures place { self.new.place ≡ self.old.place }
        ensures seen { self.new.seen ≡ self.old.seen }
    {
        self.pending.put.read_piece(piece, now)
    }
}
