//! Puts: their pieces and their end.
use crate::log::Sight;
use crate::mark::Mark;
use crate::put::SharedPut;
use crate::shared::SharedCache;
use bytes::Bytes;
use pcache_base::error::{Error, ErrorType, Result};
use pcache_base::moment::Moment;
use pcache_base::reason::NoCacheReason;
use pcache_evict::eviction::EvictionManager;
use pcache_put::policy::CachePut;
use pcache_put::report::PutOutcome;
use std::sync::Wait;

impl<M: EvictionManager, K: Mark, const N: usize> SharedCache<M, K, N> {
    ghost use Rattle.std.specs.Prelude.{◌≡◌, List, Option};
    ghost use Rattle.pcache_put.specs.Puts.{IsResult, Piece};
    ghost use Rattle.pcache_put.specs.State.{Filled, HasTaken, limit_of, write_in};
    ghost use Rattle.pcache_put.specs.Steps.{EndsAs, IsStageAfter, RepeatsResult, TellsResult};
    ghost use Rattle.pcache_shared_cache.specs.Seen.{Goes};
    ghost use Rattle.pcache_cache.specs.Feeding.{DropsLeft, TakesIn};
    ghost use Rattle.pcache_shared_cache.specs.SharedPuts.{EndsPutOf};

    /// `Cache::cache_put` in the put's part: takes in the next piece of the response. Answers why nothing is stored, once that is so.
    /// The piece is read, and the policy asked once the head has come, before the part is locked: it is free to call the cache.
    /// A body in one piece is not copied, and keeps the piece; one in several is copied once, while the part is locked.
    pub fn cache_put<C: CachePut, R: Wait>(
        &self,
        rt: &R,
        put: &mut SharedPut<C, K, N>,
        piece: &Bytes,
        now: Moment,
    ) -> Result<Option<NoCacheReason>>
        ensures goes { Goes self.now K.names put.old.place put.old.seen put.new.seen
            (TakesIn result (C.says put.old.put.policy) put.old.put put.new.put
            (record { bytes = piece.now; now = now })) }
        ensures stands { IsStageAfter result put.new.put.stage }
        ensures again { RepeatsResult put.old.put.stage result }
        ensures place { put.new.place ≡ put.old.place }
    {
        // What was read goes from here to the second call as a value, and not as a field of the put.
        let read = put.read_piece(piece, now);
        let mut guard = self.part(put.place()).lock(rt);
        let part = &mut *guard;
        let result = part.cache.store_piece(&mut put.pending, read);
        part.log.adds(&part.cache, &mut put.sight);
        result
    }

    /// `Cache::finish_put`: ends the put once all pieces have come. Fails with `InternalError`, and changes nothing, if the put's
    /// write is not of its part; the write of a put whose pieces came here is.
    pub fn finish_put<C: CachePut, R: Wait>(
        &self,
        rt: &R,
        put: &mut SharedPut<C, K, N>,
    ) -> Result<PutOutcome>
        ensures goes { Goes self.now K.names put.old.place put.old.seen put.new.seen
            (EndsPutOf result (C.says put.old.put.policy) put.old.put put.new.put) }
        ensures tells { (pieces : List Piece) (f : Option Filled)
            → HasTaken (C.says put.old.put.policy) put.old.put pieces f
            → EndsAs result (TellsResult
            (IsResult (C.says put.old.put.policy) (limit_of put.old.put.size) pieces) f) }
        ensures place { put.new.place ≡ put.old.place }
    {
        let mut guard = self.part(put.place()).lock(rt);
        let part = &mut *guard;
        // A test and no precondition, as for the write of a request.
        if !part.cache.may_end_put(&put.pending) {
            part.log.adds(&part.cache, &mut put.sight);
            return Err(Error::new(ErrorType::InternalError));
        }
        let outcome = part.cache.finish_put(&mut put.pending);
        part.log.adds(&part.cache, &mut put.sight);
        outcome
    }

    /// `Cache::end_put`: ends the put, and drops a write that is still in flight. The policy is dropped before the part is locked.
    /// Returns what the put has seen of its part, with its end.
    pub fn end_put<C: CachePut, R: Wait>(&self, rt: &R, put: SharedPut<C, K, N>) -> Sight<K>
        ensures goes { Goes self.now K.names put.place put.seen result.log
            (DropsLeft (write_in put.put.stage)) }
        ensures place { result.place ≡ put.place }
    {
        let lock = self.part(put.place());
        // Before the lock, so that the drop of the policy, which is the caller's code, may call the
        // cache.
        let (left, mut sight) = put.into_both();
        let mut guard = lock.lock(rt);
        let part = &mut *guard;
        part.cache.drop_left(left);
        part.log.adds(&part.cache, &mut sight);
        sight
    }
}
