//! Calls of a request's reader.
ghost use Rattle.std.specs.Prelude.{◌≡◌, ◌≤◌, ◌⊎◌, IsSome, Some, cond, is_some, [], true};
ghost use Rattle.pcache_store.specs.Store.{gives_piece};
ghost use Rattle.std.specs.Vec.{vec_capacity};
ghost use Rattle.pcache_base.specs.declared.error.ErrorType.TheVariants.{OutOfMemory};
ghost use Rattle.pcache_lock.specs.Locks.{no_locks};
ghost use Rattle.pcache_history.specs.Due.{KeepsKey};
ghost use Rattle.pcache_world.specs.PartFacts.{no_facts};
ghost use Rattle.pcache_history.specs.Ongoing.{has_read, on_request, row, sought_in, with_sought};
ghost use Rattle.pcache_world.specs.Moved.{MovesRequest, MovesStore};
ghost use Rattle.pcache_history.specs.Rules.{FollowsRule, IsOther, read_reply, seek_reply};
ghost use Rattle.pcache_history.specs.Waiting.{AreOfNoLock};
ghost use Rattle.pcache_history.specs.declared.call.Act.TheVariants as acts;
ghost use Rattle.pcache_history.specs.declared.call.RequestAct.TheVariants as asks;
ghost use Rattle.pcache_history.specs.declared.call.Reply.TheVariants as replies;
ghost use Rattle.pcache_world.specs.Step.{Answers};

use crate::world::request::OpenRequest;
use bytes::Bytes;
use pcache_base::error::ErrorType;
use pcache_base::poll::Poll;
use pcache_history::call::Reply;
use pcache_history::entry::Event;
use pcache_request::cache::HttpCache;
use pcache_store::memory::MemCache;

/// Reads on.
pub(crate) fn read(
    request: &mut OpenRequest,
    store: &mut MemCache,
    events: &mut Vec<Event>,
) -> Reply
    requires none { events.old.items ≡ [] }
    requires room { 3 ≤ vec_capacity events.old }
    ensures answers { Answers store.old.state (no_locks 0) (acts.Request asks.Read) request.old
        result events.new.items }
    ensures moves { MovesStore (Some request.old) store.old.state events.new.items
        (Some request.new) store.new.state }
    ensures keeps { KeepsKey (Some request.old) (Some request.new) }
    ensures row { request.new ≡ on_request (has_read events.new.items) request.old }
    ensures held { request.new.request.held ≡ request.old.request.held }
    ensures same { store.new.state ≡ store.old.state }
    ensures quiet { AreOfNoLock events.new.items }
{
    if !request.cache.has_body_reader() {
        return Reply::WrongCall;
    }
    let answer = match request.cache.read_body(store) {
        Ok(answer) => answer,
        Err(refused) => return Reply::Refused(refused.etype()),
    };
    let reply = reply_of(&answer);
    events.push_reserved(Event::Read { answer });
    reply
}

// The reply to a read. The bytes count as read even if copying them fails: the reader has moved on by then.
fn reply_of(answer: &Poll<Option<Bytes>>) -> Reply
    ensures reply { (result ≡ read_reply answer.now)
        ⊎ ((gives_piece answer.now ≡ true) × (result ≡ replies.Refused OutOfMemory)) }
    ensures other { IsOther result }
{
    match answer {
        Poll::Pending => Reply::Pending,
        Poll::Ready(None) => Reply::Finished,
        Poll::Ready(Some(bytes)) => match bytes.clone() {
            Ok(copy) => Reply::Data(copy),
            Err(_) => Reply::Refused(ErrorType::OutOfMemory),
        },
    }
}

/// Moves the reader to another range.
pub(crate) fn seek(request: &mut OpenRequest, start: usize, end: Option<usize>) -> Reply
    ensures answers { FollowsRule no_facts (acts.Request (asks.Seek start end)) (Some request.old)
        result [] }
    ensures moves { MovesRequest (Some request.old) (Some request.new) }
    ensures keeps { KeepsKey (Some request.old) (Some request.new) }
    ensures row { Some request.new
        ≡ row (acts.Request (asks.Seek start end)) result [] (Some request.old) }
    ensures held { request.new.request.held ≡ request.old.request.held }
{
    if !request.cache.has_body_reader() {
        return Reply::WrongCall;
    }
    seek_in(&mut request.cache, start, end)
}

// The second half of `seek`, after its condition was tested. From its clauses those of `seek` follow.
fn seek_in(cache: &mut HttpCache<MemCache>, start: usize, end: Option<usize>) -> Reply
    requires { IsSome cache.old.reader }
    ensures reply { result ≡ seek_reply (sought_in start end cache.old.reader) }
    ensures request { cache.new
        ≡ cond (is_some (sought_in start end cache.old.reader)) (with_sought start end cache.old)
        cache.old }
    ensures held { cache.new.held ≡ cache.old.held }
{
    if let Err(refused) = cache.seek(start, end) {
        return Reply::Refused(refused.etype());
    }
    Reply::Done
}

/// Ends the reader, even if that fails.
pub(crate) fn done(request: &mut OpenRequest, store: &mut MemCache) -> Reply
    ensures answers { FollowsRule no_facts (acts.Request asks.Done) (Some request.old) result [] }
    ensures moves { MovesStore (Some request.old) store.old.state [] (Some request.new)
        store.new.state }
    ensures keeps { KeepsKey (Some request.old) (Some request.new) }
    ensures row { Some request.new ≡ row (acts.Request asks.Done) result [] (Some request.old) }
    ensures held { request.new.request.held ≡ request.old.request.held }
{
    if !request.cache.phase().may_finish_hit() {
        return Reply::WrongCall;
    }
    match request.cache.finish_hit_handler(store) {
        Ok(()) => Reply::Done,
        Err(refused) => Reply::Refused(refused.etype()),
    }
}
