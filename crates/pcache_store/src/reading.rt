//! Laws of readers of writes, over all lists of calls of a store.
ghost use Rattle.pcache_store.specs.Reading.{GivesWhatWasAdded, IsWholeExactly};

/// A reader of a write has given the whole body (`HandleHit::is_whole`) exactly if it gave as many bytes as were added to the
/// write since it began, and the write's end was announced, or it was finished. The bytes that it gives are those that were
/// added, whatever other calls were made.
pub fn whole_exactly_if_it_ended_well()
    ensures bytes { GivesWhatWasAdded }
    ensures whole { IsWholeExactly }
{}
