//! Laws of every store that is what its past says: of each that calls, listed as notes, led to from an empty one.
ghost use Rattle.std.specs.Prelude.{List, true, ◌≡◌};
ghost use Rattle.pcache_store.specs.Store.{Store};
ghost use Rattle.pcache_store.specs.Past.{Note, IsWhatPastSays};
ghost use Rattle.pcache_store.specs.OneResponse.{MetasAreTheirs, SetsNameTheirs};
ghost use Rattle.pcache_store.specs.PastLaws.{BodiesAreLast, BodiesGetNewer, BodiesGrow, Finds, Finishes, FoundIsOfItsWrite, NewestStands, NothingIsLost, PurgedIsGone, ReadsInOrder};

/// A look-up finds a key exactly when a write of it, in flight or the one that was finished last,
/// met no removal since it began.
pub fn finds_exactly()
    ensures { (s : Store) (past : List Note) → IsWhatPastSays s past → Finds s past }
{}

/// The finish of a write in flight succeeds exactly when the write met no removal since it began, and
/// is not superseded by a newer body.
pub fn finishes_exactly()
    ensures { (s : Store) (past : List Note) → IsWhatPastSays s past → Finishes s past }
{}

/// After a purge of a key nothing whose write began before it is found under that key, and no such
/// write can be finished.
pub fn purged_is_gone()
    ensures { (s : Store) (past : List Note) → IsWhatPastSays s past → PurgedIsGone s past }
{}

/// A body that was finished is there, and its key is found, until its key is purged, its entry is
/// removed, or a later write of the key is finished.
pub fn nothing_is_lost()
    ensures { (s : Store) (past : List Note) → IsWhatPastSays s past → NothingIsLost s past }
{}

/// A complete body is that of the write of its key that was finished last, with its meta and each
/// change of it since.
pub fn bodies_are_last()
    ensures { (s : Store) (past : List Note) → IsWhatPastSays s past → BodiesAreLast s past }
{}

/// What is found has the meta and the number of its write.
pub fn found_is_of_its_write()
    ensures { (s : Store) (past : List Note) → IsWhatPastSays s past → FoundIsOfItsWrite s past }
{}

/// A reader of a write is given all bytes of that write and of no other, in order and each once, and
/// the end only when it was given all and no more can come.
pub fn reads_in_order()
    ensures { (s : Store) (past : List Note) → IsWhatPastSays s past → ReadsInOrder s past }
{}

/// What was written of a write stays as it is, and more bytes come after it. So what a reader was
/// given is a beginning of the write's body, whatever else happens.
pub fn bodies_grow()
    ensures { (s : Store) (past : List Note) → IsWhatPastSays s past → BodiesGrow s past }
{}

/// What is found has the meta with which its own write began, or the last one that was set for that very write, and expired if the body
/// was since, if each meta that was set names the write whose body it is for. So head and body are of one response.
pub fn metas_are_theirs()
    ensures { (s : Store) (past : List Note)
        → IsWhatPastSays s past
        → SetsNameTheirs past
        → MetasAreTheirs s past }
{}

/// Where the newest response is preferred, what a look-up finds is of the newest write of the key that
/// can be found: in flight or the one that was finished last, and without a removal since it began.
pub fn newest_stands()
    ensures { (s : Store) (past : List Note)
        → IsWhatPastSays s past → s.newest ≡ true → NewestStands s past }
{}

/// Where the newest response is preferred, the end of a write replaced no complete body of a newer
/// one.
pub fn bodies_get_newer()
    ensures { (s : Store) (past : List Note)
        → IsWhatPastSays s past → s.newest ≡ true → BodiesGetNewer past }
{}
