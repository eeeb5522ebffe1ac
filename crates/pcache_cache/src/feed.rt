//! Puts: their pieces and their end.
ghost use Rattle.std.specs.Prelude.{◌≡◌, IfErr, option_map};
ghost use Rattle.pcache_request.specs.Requests.{dropped_by};
ghost use Rattle.pcache_request.specs.StorePasts.{dropped_past};
ghost use Rattle.pcache_cache.specs.OwnPut.{MayEndPut, put_past, store_put};
ghost use Rattle.pcache_cache.specs.Parts.{Adds};
ghost use Rattle.pcache_cache.specs.Weighing.{ending_weight};
ghost use Rattle.pcache_put.specs.State.{write_in};
ghost use Rattle.pcache_put.specs.Readings.{IsReadAt, MayFailOnceRead, StoresPiece};
ghost use Rattle.pcache_put.specs.Steps.{Done, RepeatsResult, IsStageAfter};

use crate::cache::Cache;
use crate::put::{LeftWrite, PendingPut};
use crate::weighing::{Weighing, ending_weight};
use bytes::Bytes;
use pcache_base::error::Result;
use pcache_base::moment::Moment;
use pcache_base::reason::NoCacheReason;
use pcache_evict::eviction::EvictionManager;
use pcache_put::context::CachePutCtx;
use pcache_put::policy::CachePut;
use pcache_put::reading::ReadPiece;
use pcache_put::report::{PieceEnd, PieceReport, PutOutcome};
use pcache_request::cache::ending::Entering;
use pcache_store::memory::{MemCache, MemMissHandler};
use pcache_store::storage::HandleMiss;

impl<M: EvictionManager, K> Cache<M, K> {
    ghost use Rattle.std.specs.Prelude.{◌↔◌, IsTrue};
    ghost use Rattle.pcache_put.specs.Readings.{IsReadAt};
    ghost use Rattle.pcache_put.specs.State.{write_in};
    ghost use Rattle.pcache_cache.specs.Feeding.{DropsLeft, FinishesPut, StoresRead, TakesIn};
    ghost use Rattle.pcache_cache.specs.OwnPut.{MayEndPut};

    /// Whether a put may end here: it has no write, or one of this cache and of its own key. This holds of each put whose pieces
    /// all came here.
    pub fn may_end_put<C: CachePut>(&self, put: &PendingPut<C, K>) -> bool
        ensures { IsTrue result ↔ MayEndPut self.now.store put.now.put }
    {
        match put.put.writer() {
            Some(writer) => self.store.has_write(put.put.key(), writer.number()),
            None => true,
        }
    }

    /// `CachePutCtx::cache_put`: takes in the next piece of the response. Returns why nothing is stored, once that is so. Fails
    /// when memory runs out, if all numbers of writes are used, if the head can't be read, and if the body is longer than its
    /// limit. The write is dropped then. A body in one piece is not copied, and keeps the piece; one in several is copied once.
    pub fn cache_put<C: CachePut>(
        &mut self,
        put: &mut PendingPut<C, K>,
        piece: &Bytes,
        now: Moment,
    ) -> Result<Option<NoCacheReason>>
        ensures takes { TakesIn result (C.says put.old.put.policy) put.old.put put.new.put
            (record { bytes = piece.now; now = now }) self.old self.new }
    {
        // Two calls, so that a cache behind a lock can read the piece and ask the policy before it
        // locks.
        let read = put.put.read_piece(piece, now);
        self.store_piece(put, read)
    }

    /// The second half of `cache_put`, which alone needs the cache: stores what the put read by `put.read_piece`, the first half.
    /// Requires that this put read it, and that no other call of the put was made in between.
    pub fn store_piece<C: CachePut>(
        &mut self,
        put: &mut PendingPut<C, K>,
        read: ReadPiece,
    ) -> Result<Option<NoCacheReason>>
        requires at { IsReadAt put.old.put.stage read }
        ensures takes { StoresRead result (C.says put.old.put.policy) put.old.put put.new.put read
            self.old self.new }
    {
        store_in(&mut put.put, read, &mut self.store)
    }

    /// `CachePutCtx::finish_replacing`: ends the put once all pieces have come. The body is stored and its entry admitted, and what is
    /// evicted for it is purged: nothing, where nothing is tracked beside what is stored, and the body has room beside those of the
    /// other keys (`FinishesPut.room`). The entry of the body that stood under the key until then is taken out first. If the put ends too
    /// early, or the end of its write fails, nothing is stored, and the write is dropped; if the admission fails, the body is purged
    /// again. Requires a write of this cache, if there is one; ask `may_end_put`.
    pub fn finish_put<C: CachePut>(&mut self, put: &mut PendingPut<C, K>) -> Result<PutOutcome>
        requires own { MayEndPut self.old.store put.old.put }
        ensures takes { FinishesPut result (C.says put.old.put.policy) put.old.put put.new.put
            self.old self.new }
    {
        // For the prover: the contract of the call says that the entry of the write has the write's
        // number.
        let _writer = put.put.writer();
        let entering = Entering {
            // As at the end of a request's write: an entry of a body that is gone would fill the
            // limit.
            replaced: self.store.body_number(put.put.key()),
            weight: Some(put_weight(self.weighing, &self.store, &put.put)),
        };
        put.put
            .finish_replacing(&mut self.store, &mut self.manager, entering)
    }

    /// Ends the put, and drops a write that is still in flight.
    pub fn end_put<C: CachePut>(&mut self, put: PendingPut<C, K>)
        ensures takes { DropsLeft (write_in put.put.stage) self.old self.new }
    {
        self.drop_left(put.into_left());
    }

    /// Drops the write that an ended put left in flight, if there is one.
    pub fn drop_left(&mut self, left: LeftWrite<K>)
        ensures takes { DropsLeft left self.old self.new }
    {
        drop_writer(&mut self.store, left.into_writer());
    }
}

// The weight that the entry of a put's write is admitted with when the put ends; zero without a write.
fn put_weight<C: CachePut>(
    weighing: Weighing,
    store: &MemCache,
    put: &CachePutCtx<C, MemCache>,
) -> usize
    ensures { result ≡ ending_weight weighing store.now.state (write_in put.now.stage) }
{
    ending_weight(weighing, store, put.writer())
}

// Stores what a put read, over a store.
fn store_in<C: CachePut>(
    put: &mut CachePutCtx<C, MemCache>,
    read: ReadPiece,
    store: &mut MemCache,
) -> Result<Option<NoCacheReason>>
    requires at { IsReadAt put.old.stage read }
    ensures step { (d : Done)
        × StoresPiece (C.says put.old.policy) put.old put.new read d
        × (store.new.state ≡ store_put put.old d result store.old.state)
        × Adds (put_past put.old d result store.old.state) store.old.past store.new.past }
    ensures stands { IsStageAfter result put.new.stage }
    ensures again { RepeatsResult put.old.stage result }
    ensures kind { IfErr result (MayFailOnceRead put.old.stage store.old.state read) }
    ensures own { MayEndPut store.old.state put.old → MayEndPut store.new.state put.new }
{
    let PieceReport {
        began: _,
        wrote: _,
        end,
    } = put.store_piece(read, store);
    match end {
        PieceEnd::GoesOn => Ok(None),
        PieceEnd::NotCached(reason) => Ok(Some(reason)),
        PieceEnd::Refused(refused, writer) => {
            drop_writer(store, writer);
            Err(refused)
        }
    }
}

// Drops a write, if there is one.
fn drop_writer(store: &mut MemCache, writer: Option<MemMissHandler>)
    ensures store { store.new.state
        ≡ dropped_by (option_map (λ w. w.number) writer) store.old.state }
    ensures past { Adds (dropped_past (option_map (λ w. w.number) writer)) store.old.past
        store.new.past }
{
    if let Some(writer) = writer {
        writer.drop_write(store);
    }
}
