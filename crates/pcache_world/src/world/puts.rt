//! Calls of puts: responses that are pushed in, in pieces.
ghost use Rattle.std.specs.Prelude.{◌≡◌, ◌+◌, ◌≤◌, ◌++◌, [], Some, None, IsSome, option_map, vec_len};
ghost use Rattle.std.specs.Vec.{vec_capacity};
ghost use Rattle.pcache_put.specs.State.{entry_in, write_in};
ghost use Rattle.pcache_request.specs.Requests.{dropped_by};
ghost use Rattle.pcache_history.specs.Due.{KeepsKey};
ghost use Rattle.pcache_history.specs.Events.{evicted_by};
ghost use Rattle.pcache_history.specs.Ongoing.{IsOngoingPut, ongoing_put};
ghost use Rattle.pcache_world.specs.Moved.{MovesStore};
ghost use Rattle.pcache_world.specs.PutsSound.{PutTurn, TakenIn, TellsClosed};
ghost use Rattle.pcache_world.specs.PutSteps.{IsUnwritten, IsWritten, end_noted, end_reply};
ghost use Rattle.pcache_history.specs.Rules.{IsOther, drop_of, piece_noted};
ghost use Rattle.pcache_world.specs.Step.{IsRow};
ghost use Rattle.pcache_history.specs.Taking.{new_put, taking};
ghost use Rattle.pcache_history.specs.Waiting.{AreOfNoLock};
ghost use Rattle.pcache_history.specs.declared.call.Act.TheVariants as acts;
ghost use Rattle.pcache_world.specs.Opens.{put_of};
ghost use Rattle.pcache_world.specs.Rowed.{ClosesOf, ClosesSome, FeedsSome, MovesClosed, MovesIfSome};

use crate::world::fill::{end_refused, note_stored};
use crate::world::parts::Parts;
use crate::world::policy::{ByType, PutPolicy};
use bytes::Bytes;
use pcache_base::key::{CacheHashKey, CacheKey};
use pcache_base::moment::Moment;
use pcache_evict::eviction::{CacheEntryKey, EvictionManager};
use pcache_history::call::Reply;
use pcache_history::entry::Event;
use pcache_meta::meta::CacheMeta;
use pcache_put::boxed::Boxed;
use pcache_put::context::CachePutCtx;
use pcache_put::report::{PieceEnd, PieceReport, PutEnd, PutReport, Written};
use pcache_store::memory::{MemCache, MemMissHandler};
use pcache_store::storage::HandleMiss;
use std::alloc::Global;
use std::marker::Model;

/// An open put.
pub struct OpenPut<P: PutPolicy> {
    ctx: CachePutCtx<ByType<P>, MemCache>,
}

impl<P: PutPolicy> Model for OpenPut<P> {
    ghost use Rattle.pcache_history.specs.Ongoing.{Ongoing, ongoing_put};
    ghost use Rattle.pcache_history.specs.Taking.{taking};

    ghost Value = { Ongoing };

    ghost view = { λ a. ongoing_put (taking a.ctx) };
}

impl<P: PutPolicy> OpenPut<P> {
    /// A put of a key, perhaps with a limit on the number of the body's bytes.
    pub(crate) fn new(alloc: Global, key: CacheKey, limit: Option<usize>) -> OpenPut<P>
        ensures put { result ≡ ongoing_put (new_put key limit) }
        ensures taken { TakenIn P.says (Some result) [] None }
    {
        let mut ctx = CachePutCtx::new(alloc, ByType::new(), key);
        if let Some(limit) = limit {
            ctx.set_max_file_size_bytes(limit);
        }
        OpenPut { ctx }
    }

    /// For the prover: states that this is a put. It does nothing.
    pub(crate) fn is_held(&self)
        ensures held { IsOngoingPut self.now }
        ensures some { IsSome self.now.put }
    {
        // For the prover: a use of a field brings in the view, which is that of a put.
        let _ = &self.ctx;
    }

    /// Drops the write, if one is in flight.
    pub(crate) fn end(self, store: &mut MemCache)
        ensures { store.new.state ≡ dropped_by self.request.write store.old.state }
    {
        let OpenPut { ctx } = self;
        ctx.end(store);
    }
}

// The number of the write of a put, if one is in flight; the write's entry has the same number.
fn write_of<P: PutPolicy>(ctx: &CachePutCtx<ByType<P>, MemCache>) -> Option<u64>
    ensures write { result ≡ write_in ctx.now.stage }
    ensures entry { result ≡ entry_in ctx.now.stage }
{
    match ctx.writer() {
        Some(writer) => Some(writer.number()),
        None => None,
    }
}

// The number of a write that was returned, if one was.
fn number_in(writer: &Option<MemMissHandler>) -> Option<u64>
    ensures { result ≡ option_map (λ w. w.number) writer.now }
{
    match writer {
        Some(writer) => Some(writer.number()),
        None => None,
    }
}

/// Takes in a piece.
pub(crate) fn feed<P: PutPolicy>(
    put: &mut OpenPut<P>,
    store: &mut MemCache,
    events: &mut Vec<Event>,
    bytes: &Bytes,
    now: Moment,
) -> Reply
    requires none { events.old.items ≡ [] }
    requires room { 3 ≤ vec_capacity events.old }
    ensures answers { FeedsSome P.says store.old.state put.old result events.new.items }
    ensures other { IsOther result }
    ensures moves { MovesStore (Some put.old) store.old.state events.new.items (Some put.new)
        store.new.state }
    ensures keeps { KeepsKey (Some put.old) (Some put.new) }
    ensures row { IsRow (acts.Feed bytes.now now) result events.new.items (Some put.old)
        (Some put.new) }
    ensures puts { PutTurn P.says (acts.Feed bytes.now now) result events.new.items (Some put.old)
        (Some put.new) }
    ensures quiet { AreOfNoLock events.new.items }
{
    feed_in(&mut put.ctx, store, events, bytes, now)
}

// Takes in a piece of the response that a context takes in. It is the second half of `feed`: a function over the
// context alone, from whose clauses those of `feed` follow.
fn feed_in<P: PutPolicy>(
    ctx: &mut CachePutCtx<ByType<P>, MemCache>,
    store: &mut MemCache,
    events: &mut Vec<Event>,
    bytes: &Bytes,
    now: Moment,
) -> Reply
    requires none { events.old.items ≡ [] }
    requires room { 3 ≤ vec_capacity events.old }
    ensures answers { FeedsSome P.says store.old.state (put_of ctx.old) result events.new.items }
    ensures other { IsOther result }
    ensures moves { MovesStore (Some (put_of ctx.old)) store.old.state events.new.items
        (Some (put_of ctx.new)) store.new.state }
    ensures keeps { KeepsKey (Some (put_of ctx.old)) (Some (put_of ctx.new)) }
    ensures row { IsRow (acts.Feed bytes.now now) result events.new.items (Some (put_of ctx.old))
        (Some (put_of ctx.new)) }
    ensures puts { PutTurn P.says (acts.Feed bytes.now now) result events.new.items
        (Some (put_of ctx.old)) (Some (put_of ctx.new)) }
    ensures quiet { AreOfNoLock events.new.items }
{
    let slot = ctx.key().slot();
    let PieceReport { began, wrote, end } = ctx.take_piece(bytes, store, now);
    match end {
        PieceEnd::GoesOn => {
            note_piece(slot, write_of(ctx), began, wrote, events);
            Reply::Done
        }
        PieceEnd::NotCached(reason) => Reply::NotCached(reason),
        PieceEnd::Refused(refused, writer) => {
            note_piece(slot, number_in(&writer), began, wrote, events);
            drop_write(writer, store, events);
            Reply::Refused(refused.etype())
        }
    }
}

// Adds the events of what a piece did to the write that is in flight.
fn note_piece(
    slot: u128,
    write: Option<u64>,
    began: Option<Boxed<CacheMeta>>,
    wrote: Option<Written>,
    events: &mut Vec<Event>,
)
    requires { vec_len events.old + 2 ≤ vec_capacity events.old }
    ensures events { events.new.items ≡ events.old.items ++ piece_noted slot write began wrote }
    ensures len { vec_len events.new ≤ vec_len events.old + 2 }
    ensures room { vec_capacity events.new ≡ vec_capacity events.old }
{
    let Some(write) = write else {
        return;
    };
    if let Some(meta) = began {
        events.push_reserved(Event::Begin { write, slot, meta });
    }
    if let Some(Written { bytes, eof }) = wrote {
        events.push_reserved(Event::Wrote { write, bytes, eof });
    }
}

// Drops a write, if there is one, and adds the event of that.
fn drop_write(writer: Option<MemMissHandler>, store: &mut MemCache, events: &mut Vec<Event>)
    requires { vec_len events.old + 1 ≤ vec_capacity events.old }
    ensures events { events.new.items
        ≡ events.old.items ++ drop_of (option_map (λ w. w.number) writer) }
    ensures store { store.new.state
        ≡ dropped_by (option_map (λ w. w.number) writer) store.old.state }
{
    if let Some(writer) = writer {
        let write = writer.number();
        writer.drop_write(store);
        events.push_reserved(Event::Dropped { write });
    }
}

/// Ends a put before its response has come.
pub(crate) fn drop_put<P: PutPolicy>(put: OpenPut<P>, store: &mut MemCache, events: &mut Vec<Event>)
    requires none { events.old.items ≡ [] }
    requires room { 3 ≤ vec_capacity events.old }
    ensures events { events.new.items ≡ drop_of put.request.write }
    ensures moves { MovesStore (Some put) store.old.state events.new.items None store.new.state }
{
    let OpenPut { ctx } = put;
    let write = write_of(&ctx);
    ctx.end(store);
    if let Some(write) = write {
        events.push_reserved(Event::Dropped { write });
    }
}

/// Ends a put whose response has come.
pub(crate) fn close_put<M: EvictionManager, P: PutPolicy>(
    put: OpenPut<P>,
    parts: &mut Parts<M>,
    events: &mut Vec<Event>,
) -> Reply
    requires none { events.old.items ≡ [] }
    requires room { 3 ≤ vec_capacity events.old }
    ensures answers { ClosesOf P.says parts.old put result events.new.items }
    ensures other { IsOther result }
    ensures moves { MovesIfSome P.says (Some put) parts.old events.new.items None parts.new }
    ensures closes { TellsClosed P.says (Some put) result }
    ensures quiet { AreOfNoLock events.new.items }
    ensures lock { parts.new.locks ≡ parts.old.locks }
    ensures limits { parts.new.limits ≡ parts.old.limits }
    ensures evicted { parts.new.evicted
        ≡ evicted_by parts.old.tracked parts.old.evicted events.new.items }
{
    let OpenPut { ctx } = put;
    close_in(ctx, &mut parts.store, &mut parts.manager, events)
}

// Ends the put of a context. It is the second half of a close: a function over the context alone, from
// whose clauses those of the call follow.
fn close_in<M: EvictionManager, P: PutPolicy>(
    ctx: CachePutCtx<ByType<P>, MemCache>,
    store: &mut MemCache,
    manager: &mut M,
    events: &mut Vec<Event>,
) -> Reply
    requires none { events.old.items ≡ [] }
    requires room { 3 ≤ vec_capacity events.old }
    ensures answers { ClosesSome P.says store.old.state (put_of ctx) result events.new.items }
    ensures other { IsOther result }
    ensures moves { MovesClosed P.says (M.limits manager.old) (put_of ctx) store.old.state
        (M.tracked manager.old) events.new.items store.new.state (M.tracked manager.new) }
    ensures closes { TellsClosed P.says (Some (put_of ctx)) result }
    ensures quiet { AreOfNoLock events.new.items }
    ensures limits { M.limits manager.new ≡ M.limits manager.old }
    ensures evicted { M.evicted manager.new
        ≡ evicted_by (M.tracked manager.old) (M.evicted manager.old) events.new.items }
{
    let mut ctx = ctx;
    let write = write_of(&ctx);
    let slot = ctx.key().slot();
    let PutReport { end, entry } = ctx.end_put(store, manager);
    ctx.end(store);
    match write {
        Some(write) => end_written(write, slot, end, entry, events),
        None => end_unwritten(end),
    }
}

// The reply at the end of a put that made no write.
fn end_unwritten(end: PutEnd) -> Reply
    requires { IsUnwritten end }
    ensures { result ≡ end_reply end }
{
    match end {
        PutEnd::NotCached(reason) => Reply::NotCached(reason),
        PutEnd::Refused(refused) => Reply::Refused(refused.etype()),
        PutEnd::Dropped(_) | PutEnd::Stored(_) | PutEnd::Withdrawn(_) => unreachable!(),
    }
}

// The events and the reply at the end of a put's write.
fn end_written(
    write: u64,
    slot: u128,
    end: PutEnd,
    entry: Option<CacheEntryKey>,
    events: &mut Vec<Event>,
) -> Reply
    requires none { events.old.items ≡ [] }
    requires room { 3 ≤ vec_capacity events.old }
    requires written { IsWritten end entry }
    ensures noted { events.new.items ≡ end_noted write slot end entry }
    ensures reply { result ≡ end_reply end }
{
    match end {
        PutEnd::NotCached(_) | PutEnd::Refused(_) => unreachable!(),
        PutEnd::Stored(report) => {
            let Some(entry) = entry else { unreachable!() };
            note_stored(write, entry, report, None, events)
        }
        PutEnd::Dropped(refused) => {
            let kind = refused.etype();
            events.push_reserved(end_refused(write, kind));
            Reply::Refused(kind)
        }
        PutEnd::Withdrawn(refused) => {
            let is_stored = true;
            events.push_reserved(Event::Finish { write, is_stored });
            events.push_reserved(Event::Purge { slot });
            Reply::Refused(refused.etype())
        }
    }
}
