//! A world behind its lock.
ghost use Rattle.std.specs.Prelude.{◌≡◌, ◌+◌, ◌<◌, ◌≤◌, [], map, length, IfOk, IfSome, vec_capacity};
ghost use Rattle.std.specs.List.{All};

use crate::desk::Desk;
use crate::mark::Mark;
use crate::opening::Opening;
use crate::receipt::Receipt;
use crate::share::Share;
use crate::view::{Dealing, Room, Settling, View};
use atomic_table::Seat;
use pcache_evict::eviction::EvictionManager;
use pcache_world::world::World;
use pcache_world::world::call::{Call, Reply};
use pcache_world::world::entry::Entry;
use pcache_world::world::policy::PutPolicy;
use std::alloc::{AllocError, Global};
use std::marker::PhantomData;
use std::sync::{Mutex, Wait};

/// A world that threads call, one call at a time. Each call is atomic: the lock is taken before it
/// is made, and released after it is recorded.
#[derive(Drop)]
pub struct SharedWorld<M: EvictionManager, P: PutPolicy, K: Mark> {
    pub(crate) alloc: Global,
    pub(crate) room: Room,
    pub(crate) desk: Mutex<Desk<M, P, K>>,
    // Room for what `close` hands out, so that it takes no memory.
    out: Vec<Vec<Receipt>>,
    ghost room_is: { room.shared.table_id ≡ K.opened.table },
    ghost word: { 0 < K.opened.table.words },
    ghost space: { (out.items ≡ []) × (K.opened.shares ≤ vec_capacity out) },
}

impl<M: EvictionManager, P: PutPolicy, K: Mark> SharedWorld<M, P, K> {
    ghost use Rattle.std.specs.Borrow.{sem};
    ghost use Rattle.pcache_history.specs.Events.{slots, stored};
    ghost use Rattle.pcache_history.specs.Log.{HasLegal, events_in};
    ghost use Rattle.pcache_shared_world.specs.Lends.{ends_added};
    ghost use Rattle.pcache_shared_world.specs.Receipts.{AreReceipts, HasGrown, HasReached};
    ghost use Rattle.pcache_shared_world.specs.Views.{keeper, whole};

    /// The world under its lock, and its shares, which have made no calls. The mark names what was
    /// opened. If it fails, the world is dropped.
    pub fn new(
        alloc: Global,
        opening: Opening<M, P>,
    ) -> Result<(SharedWorld<M, P, K>, Vec<Share<K>>), AllocError>
        requires { opening ≡ K.opened }
        ensures count { IfOk result (λ r. length r.1.items ≡ K.opened.shares) }
        ensures unused { IfOk result (λ r. All (λ s. s ≡ []) r.1.items) }
    {
        let Opening {
            room,
            seat: mut keeper,
            world,
            shares: count,
        } = opening;
        // Made now, so that `close` neither fails nor waits.
        let out = Vec::with_capacity(alloc, count)?;
        let mut shares = Vec::with_capacity(alloc, count)?;
        let mut made = 0;
        while made < count {
            let seat = room.shared.split_seat::<Dealing>(&mut keeper);
            shares.push_reserved(Share::of_seat(alloc, seat));
            made += 1;
        }
        Ok((SharedWorld::of(alloc, room, world, keeper, out), shares))
    }

    fn of(
        alloc: Global,
        room: Room,
        world: World<M, P>,
        seat: Seat<Entry, View<Entry>>,
        out: Vec<Vec<Receipt>>,
    ) -> SharedWorld<M, P, K>
        requires room { (room.shared.table_id ≡ K.opened.table) × (0 < K.opened.table.words) }
        requires world { world ≡ K.opened.log }
        requires seat { (seat.table_id ≡ K.opened.table)
            × (seat.me ≡ (keeper seat.me.0.parts [] [], []))
            × (seat.me.0.parts + K.opened.shares ≡ whole) }
        requires space { (out.items ≡ []) × (K.opened.shares ≤ vec_capacity out) }
    {
        let desk = Mutex::new(Desk {
            world,
            keeper: seat,
            of: PhantomData,
        });
        SharedWorld {
            alloc,
            room,
            desk,
            out,
        }
    }

    /// Makes a call of a share, and lends the reply from its receipt. If it succeeds, the share has
    /// one more receipt, of the call and that reply. Fails when memory runs out; then the share has
    /// no more receipts than before.
    pub fn call<'a, R: Wait>(
        share: &'a mut Share<K>,
        rt: &R,
        shared: &SharedWorld<M, P, K>,
        call: Call,
    ) -> Result<&'a Reply, AllocError>
        ensures* added { sem 𝓛 (ends_added K.row K.Mark share.entry call result) }
    {
        // The share comes first: what a call that lends leaves can be stated only of its first
        // parameter.
        share.made(rt, shared, call)
    }

    /// The sum of the lengths of the complete bodies, as it is between two calls: at most the
    /// manager's limit on weight.
    pub fn stored_bytes<R: Wait>(&self, rt: &R) -> u128
        ensures value { HasReached K.opened.log (λ log. result ≡ stored (events_in log)) }
        ensures within { result ≤ K.opened.log.limits.weight }
    {
        // Of some state since the opening, as far as the contract knows: who asks hands in nothing
        // that was seen, so that it is the present one is only tested.
        self.desk.lock(rt).stored_bytes()
    }

    /// The number of complete bodies, as it is between two calls: at most the manager's watermark,
    /// if it has one.
    pub fn slots<R: Wait>(&self, rt: &R) -> usize
        ensures value { HasReached K.opened.log (λ log. result ≡ slots (events_in log)) }
        ensures within { IfSome K.opened.log.limits.watermark (λ most. result ≤ most) }
    {
        self.desk.lock(rt).slots()
    }

    /// Ends the sharing. It takes all shares that were made with the world, and returns the world
    /// with the receipts of each. These are exactly the calls that were added to the history since
    /// the opening. It takes no memory and does not wait.
    pub fn close(self, shares: Vec<Share<K>>) -> (World<M, P>, Vec<Vec<Receipt>>)
        requires { length shares.items ≡ K.opened.shares }
        ensures legal { HasLegal result.0 }
        ensures grown { HasGrown K.opened.log result.0 }
        ensures receipts { AreReceipts K.opened.log.history result.0.history shares.items }
        ensures lists { map (λ v. v.items) result.1.items ≡ shares.items }
    {
        let SharedWorld {
            alloc: _,
            room,
            desk,
            out: mut all,
        } = self;
        let Desk {
            world,
            mut keeper,
            of: _,
        } = desk.into_inner();
        // As many shares as were made are all of them: each carries the mark, cannot be copied and
        // has one part of that number. So none can be missing here, and one that was dropped bars
        // the close.
        for share in shares {
            let Share {
                receipts,
                seat,
                of: _,
            } = share;
            room.shared.join_seat::<Dealing>(&mut keeper, seat);
            all.push_reserved(receipts);
        }
        room.shared.load::<Settling>(&mut keeper, 0);
        // For the prover: the contract of the call says that the history is legal.
        let _history = world.history();
        (world, all)
    }
}
