//! The value through which a thread calls.
ghost use Rattle.std.specs.Prelude.{◌≡◌, ℕ, [], ◌∷◌, ◌++◌, IfOk, OnErr};
ghost use Rattle.pcache_history.specs.declared.call.Reply.{Reply};

use crate::mark::Mark;
use crate::receipt::Receipt;
use crate::shared_world::SharedWorld;
use crate::view::View;
use atomic_table::Seat;
use pcache_evict::eviction::EvictionManager;
use pcache_world::world::call::{Call, Reply};
use pcache_world::world::entry::Entry;
use pcache_world::world::policy::PutPolicy;
use std::alloc::{AllocError, Global};
use std::marker::{Model, PhantomData};
use std::sync::Wait;

/// The value through which a thread calls a shared world. It can't be copied. A contract sees the
/// receipts of its calls, in order.
#[derive(Drop)]
pub struct Share<K: Mark> {
    pub(crate) receipts: Vec<Receipt>,
    pub(crate) seat: Seat<Entry, View<Entry>>,
    pub(crate) of: PhantomData<K>,
}

impl<K: Mark> Model for Share<K> {
    ghost use Rattle.std.specs.Prelude.{◌≡◌, List, map, length};
    ghost use Rattle.pcache_shared_world.specs.declared.receipt.Receipt.{Receipt};
    ghost use Rattle.pcache_shared_world.specs.Receipts.{receipt_of};
    ghost use Rattle.pcache_shared_world.specs.Views.{IsSlip, Rises, places};

    ghost Value = { List Receipt };

    ghost view = { λ s. s.receipts.items };

    ghost invariant = { λ s. (s.seat.table_id ≡ K.opened.table) × IsSlip s.seat.me × (s.receipts.items ≡ map (receipt_of (length K.opened.log.history)) s.seat.me.0.claims) × Rises (places s.seat.me.0.claims) };
}

impl<K: Mark> Share<K> {
    ghost use Rattle.std.specs.Borrow.{sem};
    ghost use Rattle.pcache_shared_world.specs.Lends.{ends_added};
    ghost use Rattle.pcache_shared_world.specs.Views.{slip};

    pub(crate) fn of_seat(alloc: Global, seat: Seat<Entry, View<Entry>>) -> Share<K>
        requires { (seat.table_id ≡ K.opened.table) × (seat.me ≡ (slip [], [])) }
        ensures { result ≡ [] }
    {
        Share {
            receipts: Vec::new(alloc),
            seat,
            of: PhantomData,
        }
    }

    /// The receipts of its calls, in order.
    pub fn receipts(&self) -> &[Receipt]
        ensures { result.now ≡ self.now }
    {
        self.receipts.as_slice()
    }

    // Makes a call. The room for its receipt is reserved, and the copy made, before the lock is
    // taken.
    fn make<M: EvictionManager, P: PutPolicy, R: Wait>(
        &mut self,
        rt: &R,
        shared: &SharedWorld<M, P, K>,
        call: Call,
    ) -> Result<(), AllocError>
        ensures ok { IfOk result (λ _. (index : ℕ)
            × (reply : Reply)
            × (self.new
            ≡ self.old ++ (record { index = index; call = call; reply = reply }) ∷ [])) }
        ensures err { OnErr result (self.new ≡ self.old) }
    {
        // Both before the lock: once the call is made, nothing may be refused, or it had no
        // receipt.
        self.receipts.reserve(1)?;
        let Ok(copy) = call.copied() else {
            // The only refusal there is. The error of a call that lends may own nothing, as an
            // `Error` would.
            return Err(AllocError);
        };
        let made = shared
            .desk
            .lock(rt)
            .call(&shared.room, &mut self.seat, call, copy);
        let Ok(receipt) = made else {
            return Err(AllocError);
        };
        self.receipts.push_reserved(receipt);
        Ok(())
    }

    pub(crate) fn made<M: EvictionManager, P: PutPolicy, R: Wait>(
        &mut self,
        rt: &R,
        shared: &SharedWorld<M, P, K>,
        call: Call,
    ) -> Result<&Reply, AllocError>
        ensures* added { sem 𝓛 (ends_added K.row K.Mark self.entry call result) }
    {
        self.make(rt, shared, call)?;
        let at = self.receipts.len() - 1;
        Ok(&self.receipts[at].reply)
    }
}
