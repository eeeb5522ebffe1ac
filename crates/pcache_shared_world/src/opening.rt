//! How a shared world begins. It takes two steps, since its table has a name only after it is made.
ghost use Rattle.std.specs.Prelude.{◌≡◌, IfOk};

use crate::view::{Room, View};
use atomic_table::{Seat, Table};
use pcache_evict::eviction::EvictionManager;
use pcache_world::world::World;
use pcache_world::world::entry::Entry;
use pcache_world::world::policy::PutPolicy;
use std::alloc::{AllocError, Global};
use std::marker::Model;

/// A world that is to be shared, and has no mark yet. A contract sees what the mark names.
#[derive(Drop)]
pub struct Opening<M: EvictionManager, P: PutPolicy> {
    pub(crate) room: Room,
    pub(crate) seat: Seat<Entry, View<Entry>>,
    pub(crate) world: World<M, P>,
    pub(crate) shares: usize,
}

impl<M: EvictionManager, P: PutPolicy> Model for Opening<M, P> {
    ghost use Rattle.std.specs.Prelude.{◌≡◌, ◌<◌, []};
    ghost use Rattle.pcache_shared_world.specs.Opened.{Opened, opened_code};
    ghost use Rattle.pcache_shared_world.specs.Views.{keeper, whole};

    ghost Value = { Opened };

    ghost coded = { opened_code };

    ghost view = { λ o. record { table = o.room.shared.table_id; log = o.world; shares = o.shares } };

    ghost invariant = { λ o. (o.seat.table_id ≡ o.room.shared.table_id) × (0 < o.room.shared.table_id.words) × (o.seat.me ≡ (keeper whole [] [], [])) };
}

impl<M: EvictionManager, P: PutPolicy> Opening<M, P> {
    /// Makes the table for a world with this number of shares. If it fails, the world is dropped.
    pub fn new(
        alloc: Global,
        world: World<M, P>,
        shares: usize,
    ) -> Result<Opening<M, P>, AllocError>
        ensures world { IfOk result (λ o. o.log ≡ world) }
        ensures shares { IfOk result (λ o. o.shares ≡ shares) }
    {
        let (room, seat) = Table::of_words(alloc, &[0], &())?;
        Ok(Opening {
            room,
            seat,
            world,
            shares,
        })
    }
}
