//! The world under its lock.
ghost use Rattle.std.specs.Prelude.{◌≡◌, ℕ, ◌+◌, ◌<◌, ◌≤◌, ◌++◌, ◌∷◌, [], Some, length, slice_get, IfOk, IfErr, IfSome, OnErr};
ghost use Rattle.std.specs.List.{All};
ghost use Rattle.pcache_base.specs.declared.error.ErrorType.TheVariants.{OutOfMemory};
ghost use Rattle.pcache_history.specs.Log.{Adds, HasLegal, events_in};
ghost use Rattle.pcache_history.specs.declared.entry.Entry.{Entry};
ghost use Rattle.pcache_shared_world.specs.Receipts.{HasGrown, IsOf, HasReached};
ghost use Rattle.pcache_shared_world.specs.Views.{IsSlip, slip};

use crate::mark::Mark;
use crate::receipt::Receipt;
use crate::view::{Adding, Dealing, Moving, Room, View};
use atomic_table::Seat;
use pcache_base::error::Result;
use pcache_evict::eviction::EvictionManager;
use pcache_world::world::World;
use pcache_world::world::call::Call;
use pcache_world::world::entry::Entry;
use pcache_world::world::policy::PutPolicy;
use std::marker::{Model, PhantomData};

/// The value under the lock: the world, and the seat that knows all entries added to it.
#[derive(Drop)]
pub(crate) struct Desk<M: EvictionManager, P: PutPolicy, K: Mark> {
    pub(crate) world: World<M, P>,
    pub(crate) keeper: Seat<Entry, View<Entry>>,
    pub(crate) of: PhantomData<K>,
}

impl<M: EvictionManager, P: PutPolicy, K: Mark> Model for Desk<M, P, K> {
    ghost use Rattle.std.specs.Prelude.{◌≡◌, ◌+◌, ◌++◌, []};
    ghost use Rattle.pcache_history.specs.Log.{Log};
    ghost use Rattle.pcache_history.specs.LogCode.{log_code};
    ghost use Rattle.pcache_shared_world.specs.Receipts.{evicted_after};
    ghost use Rattle.pcache_shared_world.specs.Views.{whole, IsKeeper};

    ghost Value = { Log };

    ghost coded = { log_code };

    ghost view = { λ d. d.world };

    ghost invariant = { λ d. (d.keeper.table_id ≡ K.opened.table) × IsKeeper d.keeper.me × (d.keeper.me.0.claims ≡ []) × (d.keeper.me.0.parts + K.opened.shares ≡ whole) × (d.world.history ≡ K.opened.log.history ++ d.keeper.me.0.all) × (d.world.start ≡ K.opened.log.start) × (d.world.limits ≡ K.opened.log.limits) × (d.world.age ≡ K.opened.log.age) × (d.world.evicted ≡ evicted_after K.opened.log d.keeper.me.0.all) };
}

impl<M: EvictionManager, P: PutPolicy, K: Mark> Desk<M, P, K> {
    ghost use Rattle.pcache_history.specs.Events.{slots, stored};

    /// The sum of the lengths of the complete bodies.
    pub(crate) fn stored_bytes(&self) -> u128
        ensures value { HasReached K.opened.log (λ log. result ≡ stored (events_in log)) }
        ensures within { result ≤ K.opened.log.limits.weight }
    {
        // For the prover: the history is legal, so the complete bodies are within the manager's
        // limits.
        let _history = self.world.history();
        self.world.stored_bytes()
    }

    /// The number of complete bodies.
    pub(crate) fn slots(&self) -> usize
        ensures value { HasReached K.opened.log (λ log. result ≡ slots (events_in log)) }
        ensures within { IfSome K.opened.log.limits.watermark (λ most. result ≤ most) }
    {
        // For the prover: the history is legal, so the complete bodies are within the manager's
        // limits.
        let _history = self.world.history();
        self.world.slots()
    }

    /// Makes a call, which the seat then claims. The copy of it goes into the receipt.
    pub(crate) fn call(
        &mut self,
        room: &Room,
        seat: &mut Seat<Entry, View<Entry>>,
        call: Call,
        copy: Call,
    ) -> Result<Receipt>
        requires copy { copy ≡ call }
        requires room { (room.now.shared.table_id ≡ K.opened.table) × (0 < K.opened.table.words) }
        requires seat { (seat.old.table_id ≡ K.opened.table) × IsSlip seat.old.me }
        ensures kept { seat.new.table_id ≡ K.opened.table }
        ensures world { IfOk result (λ r. Adds self.old call r.reply self.new) }
        ensures same { OnErr result (self.new ≡ self.old) }
        ensures ok { IfOk result (λ r. (r.call ≡ call)
            × ((n : ℕ)
            × ((e : Entry)
            × (IsOf e r)
            × (r.index ≡ length K.opened.log.history + n)
            × (seat.new.me ≡ (slip (seat.old.me.0.claims ++ (n, e) ∷ []), []))
            × All (λ c. c.0 < n) seat.old.me.0.claims))) }
        ensures err { OnErr result (seat.new.me ≡ seat.old.me) }
        ensures kind { IfErr result (λ e. e ≡ OutOfMemory) }
    {
        let index = self.world.history().len();
        let reply = self.world.step(call)?;
        let moved = room.shared.split_seat::<Moving>(seat);
        room.shared.join_seat::<Dealing>(&mut self.keeper, moved);
        let entry = entry_at(&self.world, index);
        room.shared
            .compare_exchange_with::<Adding>(&mut self.keeper, 0, 0, 0, entry);
        *seat = room.shared.split_seat::<Dealing>(&mut self.keeper);
        Ok(Receipt {
            index,
            call: copy,
            reply,
        })
    }
}

// The entry of a history at an index.
fn entry_at<M: EvictionManager, P: PutPolicy>(world: &World<M, P>, index: usize) -> &Entry
    requires { index < length world.now.history }
    ensures { slice_get world.now.history index ≡ Some result.now }
{
    &world.history()[index]
}
