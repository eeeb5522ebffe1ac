//! The list of a file that a reader gives in pieces. No more is read than a list with this
//! beginning can still need, so reading stops at the piece that shows that the file spells no list.
ghost use Rattle.std.specs.Prelude.{◌≡◌, ◌≤◌, ◌⊎◌, ◌++◌, ◌-◌, ℕ, List, Some, [], length, drop, IfErr, IfOk, IsErrOf, IsTrue, OnOk};
ghost use Rattle.std.specs.Io.KnownBytes.{Consumes, IsAtEnd};
ghost use Rattle.pcache_base.specs.declared.error.ErrorType.TheVariants.{InternalError, Io, OutOfMemory};
ghost use Rattle.pcache_evict.specs.Recency.{Recency};
ghost use Rattle.pcache_files.specs.Device.{Counts, Gave};
ghost use Rattle.pcache_files.specs.FileSpelling.{NodeThen, NodesThen, SpellsFile};
ghost use Rattle.pcache_meta.specs.Spelling.{ArrayThen};

use crate::codec::{first_count, first_node, tag_len, unreadable};
use crate::device::CountedRead;
use pcache_base::error::Result;
use pcache_evict::eviction::CacheEntryKey;
use std::alloc::{AllocError, Global};
use std::marker::Model;

/// The most bytes that the head of an array has.
const ARRAY_HEAD: usize = 5;

/// The most bytes of a node that come before the text of its tag: three heads of arrays, two hashes
/// and the head of the tag.
const BEFORE_TAG: usize = 318;

/// The most bytes of a node that are not the text of its tag: those before it, a number and a
/// weight.
const AROUND_TAG: usize = 336;

/// The bytes that a reader gave and that were not used yet. A contract sees these bytes.
#[derive(Drop)]
struct Ahead {
    bytes: Vec<u8>,
    used: usize,
}

impl Model for Ahead {
    ghost use Rattle.std.specs.Prelude.{ℕ, List, ◌≤◌, length, drop};

    ghost Value = { List ℕ };

    ghost view = { λ a. drop a.used a.bytes.items };

    ghost invariant = { λ a. a.used ≤ length a.bytes.items };
}

impl Ahead {
    fn new(alloc: Global) -> Ahead
        ensures { result ≡ [] }
    {
        Ahead {
            bytes: Vec::new(alloc),
            used: 0,
        }
    }

    fn as_slice(&self) -> &[u8]
        ensures { result.now ≡ self.now }
    {
        &self.bytes[self.used..]
    }

    fn len(&self) -> usize
        ensures { result ≡ length self.now }
    {
        self.bytes.len() - self.used
    }

    // Keeps the last `count` bytes, which were not used.
    fn keep_last(&mut self, count: usize)
        requires { count ≤ length self.old }
        ensures { self.new ≡ drop (length self.old - count) self.old }
    {
        self.used = self.bytes.len() - count;
    }

    // Adds a piece. The used bytes are dropped as soon as they are half of all.
    fn add(&mut self, piece: &[u8]) -> Result<(), AllocError>
        ensures added { OnOk result (self.new ≡ self.old ++ piece.now) }
    {
        self.let_go();
        self.bytes.extend_from_slice(piece)?;
        Ok(())
    }

    fn let_go(&mut self)
        ensures { self.new ≡ self.old }
    {
        let left = self.bytes.len() - self.used;
        if self.used >= left {
            self.bytes.rotate_left(self.used);
            self.bytes.truncate(left);
            self.used = 0;
        }
    }
}

// Reads until so many bytes are ahead, or to the end. A reader that has ended is not called again.
fn fill<D: CountedRead>(
    from: &mut D,
    ahead: &mut Ahead,
    ended: &mut bool,
    wanted: usize,
) -> Result<()>
    requires { IsTrue ended.old → IsAtEnd (D.remaining from.old) }
    ensures end { OnOk result (IsTrue ended.new → IsAtEnd (D.remaining from.new)) }
    ensures more { OnOk result ((piece : List ℕ)
        × Consumes (D.remaining from.old) (D.remaining from.new) piece
        × (ahead.new ≡ ahead.old ++ piece)) }
    ensures enough { OnOk result ((wanted ≤ length ahead.new) ⊎ IsAtEnd (D.remaining from.new)) }
    ensures same { D.source from.new ≡ D.source from.old }
    ensures counted { Counts (D.failed from.old) (D.failed from.new) result }
    ensures cause { IsErrOf result Io → D.gave_up from.new }
    ensures kinds { IfErr result (λ e. (e ≡ OutOfMemory) ⊎ (e ≡ Io)) }
{
    if *ended || wanted <= ahead.len() {
        return Ok(());
    }
    let mut piece = [0; 8192];
    'pieces: while ahead.len() < wanted {
        let count = from.read(&mut piece)?;
        if count == 0 {
            *ended = true;
            return Ok(());
        }
        ahead.add(&piece[..count])?;
    }
    Ok(())
}

// How many nodes the head of a file announces.
fn read_count<D: CountedRead>(from: &mut D, ahead: &mut Ahead, ended: &mut bool) -> Result<u64>
    requires { IsTrue ended.old → IsAtEnd (D.remaining from.old) }
    ensures end { OnOk result (IsTrue ended.new → IsAtEnd (D.remaining from.new)) }
    ensures found { IfOk result (λ n. (piece : List ℕ)
        × Consumes (D.remaining from.old) (D.remaining from.new) piece
        × ArrayThen (ahead.old ++ piece) n ahead.new) }
    ensures refused { IsErrOf result InternalError
        → (rest : List ℕ)
        → D.remaining from.old ≡ Some rest
        → (n : ℕ) (later : List ℕ)
        → ¬ (ArrayThen (ahead.old ++ rest) n later) }
    ensures same { D.source from.new ≡ D.source from.old }
    ensures counted { Counts (D.failed from.old) (D.failed from.new) result }
    ensures cause { IsErrOf result Io → D.gave_up from.new }
    ensures kinds { IfErr result (λ e. (e ≡ OutOfMemory) ⊎ (e ≡ InternalError) ⊎ (e ≡ Io)) }
{
    fill(from, ahead, ended, ARRAY_HEAD)?;
    let (count, left) = first_count(ahead.as_slice())?;
    ahead.keep_last(left);
    Ok(count)
}

// The next node. All bytes that it can have are ahead before it is read, so a failure is final.
fn read_next<D: CountedRead>(
    alloc: Global,
    from: &mut D,
    ahead: &mut Ahead,
    ended: &mut bool,
) -> Result<(CacheEntryKey, usize)>
    requires { IsTrue ended.old → IsAtEnd (D.remaining from.old) }
    ensures end { OnOk result (IsTrue ended.new → IsAtEnd (D.remaining from.new)) }
    ensures found { IfOk result (λ node. (piece : List ℕ)
        × Consumes (D.remaining from.old) (D.remaining from.new) piece
        × NodeThen (ahead.old ++ piece) node ahead.new) }
    ensures refused { IsErrOf result InternalError
        → (rest : List ℕ)
        → D.remaining from.old ≡ Some rest
        → (node : CacheEntryKey × ℕ) (later : List ℕ)
        → ¬ (NodeThen (ahead.old ++ rest) node later) }
    ensures same { D.source from.new ≡ D.source from.old }
    ensures counted { Counts (D.failed from.old) (D.failed from.new) result }
    ensures cause { IsErrOf result Io → D.gave_up from.new }
    ensures kinds { IfErr result (λ e. (e ≡ OutOfMemory) ⊎ (e ≡ InternalError) ⊎ (e ≡ Io)) }
{
    fill(from, ahead, ended, BEFORE_TAG)?;
    let tag = tag_len(ahead.as_slice())?;
    // The tag is read whole before it is known to be UTF-8, since an honest list may have a long
    // one.
    fill(from, ahead, ended, AROUND_TAG.saturating_add(tag))?;
    let (node, left) = first_node(alloc, ahead.as_slice())?;
    ahead.keep_last(left);
    Ok(node)
}

// So many nodes.
fn read_nodes<D: CountedRead>(
    alloc: Global,
    from: &mut D,
    ahead: &mut Ahead,
    ended: &mut bool,
    count: u64,
) -> Result<Vec<(CacheEntryKey, usize)>>
    requires { IsTrue ended.old → IsAtEnd (D.remaining from.old) }
    ensures end { OnOk result (IsTrue ended.new → IsAtEnd (D.remaining from.new)) }
    ensures found { IfOk result (λ v. (piece : List ℕ)
        × Consumes (D.remaining from.old) (D.remaining from.new) piece
        × NodesThen (ahead.old ++ piece) v.items ahead.new) }
    ensures many { IfOk result (λ v. length v.items ≡ count) }
    ensures refused { IsErrOf result InternalError
        → (rest : List ℕ)
        → D.remaining from.old ≡ Some rest
        → (l : Recency) (later : List ℕ)
        → length l ≡ count
        → ¬ (NodesThen (ahead.old ++ rest) l later) }
    ensures same { D.source from.new ≡ D.source from.old }
    ensures counted { Counts (D.failed from.old) (D.failed from.new) result }
    ensures cause { IsErrOf result Io → D.gave_up from.new }
    ensures kinds { IfErr result (λ e. (e ≡ OutOfMemory) ⊎ (e ≡ InternalError) ⊎ (e ≡ Io)) }
{
    // No room is made by the number that is announced, and no length is asked: pipes have none.
    let mut nodes = Vec::new(alloc);
    'each: for i in 0..count {
        let node = read_next(alloc, from, ahead, ended)?;
        nodes.push(node)?;
    }
    Ok(nodes)
}

/// The list of the file that a reader gives up to its end, most recent first. Fails as soon as the
/// bytes so far are no prefix of a file; the text of a tag is read as a whole before it is checked.
pub(crate) fn read_list_from<D: CountedRead>(
    alloc: Global,
    from: &mut D,
) -> Result<Vec<(CacheEntryKey, usize)>>
    ensures found { IfOk result (λ v. (bytes : List ℕ)
        × Gave (D.remaining from.old) (D.remaining from.new) bytes
        × SpellsFile bytes v.items) }
    ensures refused { IsErrOf result InternalError
        → (rest : List ℕ)
        → D.remaining from.old ≡ Some rest
        → (l : Recency)
        → ¬ (SpellsFile rest l) }
    ensures same { D.source from.new ≡ D.source from.old }
    ensures counted { Counts (D.failed from.old) (D.failed from.new) result }
    ensures cause { IsErrOf result Io → D.gave_up from.new }
    ensures kinds { IfErr result (λ e. (e ≡ OutOfMemory) ⊎ (e ≡ InternalError) ⊎ (e ≡ Io)) }
{
    let mut ahead = Ahead::new(alloc);
    let mut ended = false;
    let count = read_count(from, &mut ahead, &mut ended)?;
    let nodes = read_nodes(alloc, from, &mut ahead, &mut ended, count)?;
    // One piece more, to see that nothing follows the last node.
    fill(from, &mut ahead, &mut ended, 1)?;
    if ahead.len() != 0 {
        return Err(unreadable());
    }
    Ok(nodes)
}
