//! Events that several calls add.
ghost use Rattle.std.specs.Prelude.{◌≡◌, ◌+◌, ◌≤◌, ◌∷◌, ◌++◌, vec_len};
ghost use Rattle.std.specs.Vec.{vec_capacity};
ghost use Rattle.pcache_history.specs.Rules.{drop_of, each};
ghost use Rattle.pcache_history.specs.declared.entry.Event.TheVariants.{Release};

use pcache_history::entry::Event;

/// Adds an event, and that of the release of the permit that was held.
pub(crate) fn note_with_release(event: Event, permit: Option<u64>, events: &mut Vec<Event>)
    requires { vec_len events.old + 2 ≤ vec_capacity events.old }
    ensures events { events.new.items ≡ events.old.items ++ event ∷ each Release permit }
    ensures len { vec_len events.new ≤ vec_len events.old + 2 }
    ensures room { vec_capacity events.new ≡ vec_capacity events.old }
{
    events.push_reserved(event);
    note_release(permit, events);
}

/// Adds the event of the release of a permit, if one was released.
pub(crate) fn note_release(permit: Option<u64>, events: &mut Vec<Event>)
    requires { vec_len events.old + 1 ≤ vec_capacity events.old }
    ensures events { events.new.items ≡ events.old.items ++ each Release permit }
    ensures len { vec_len events.new ≤ vec_len events.old + 1 }
    ensures room { vec_capacity events.new ≡ vec_capacity events.old }
{
    if let Some(lock) = permit {
        events.push_reserved(Event::Release { lock });
    }
}

// Adds the event of the drop of a write, if one was dropped.
fn note_drop(write: Option<u64>, events: &mut Vec<Event>)
    requires { vec_len events.old + 1 ≤ vec_capacity events.old }
    ensures { events.new.items ≡ events.old.items ++ drop_of write }
{
    if let Some(write) = write {
        events.push_reserved(Event::Dropped { write });
    }
}

/// Adds the events of the release of the permit and the drop of the write that were held.
pub(crate) fn note_shut(permit: Option<u64>, write: Option<u64>, events: &mut Vec<Event>)
    requires { vec_len events.old + 2 ≤ vec_capacity events.old }
    ensures { events.new.items ≡ events.old.items ++ each Release permit ++ drop_of write }
{
    note_release(permit, events);
    note_drop(write, events);
}
