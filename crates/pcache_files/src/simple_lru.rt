//! The file of the manager with one recency list.
ghost use Rattle.std.specs.Prelude.{◌≡◌, ◌≢◌, ◌⊎◌, ℕ, List, Some, IfErr, IfOk, IsErrOf, OnErr, OnOk};
ghost use Rattle.std.specs.Io.KnownBytes.{Appends, Keeps};
ghost use Rattle.std.specs.Path.{path_join};
ghost use Rattle.pcache_base.specs.declared.error.ErrorType.TheVariants.{InternalError, Io, OutOfMemory};
ghost use Rattle.pcache_evict.specs.Listed.{IsOnce};
ghost use Rattle.pcache_evict.specs.Recency.{Recency, loaded_all};
ghost use Rattle.pcache_files.specs.Device.{Counts, Gave, TookBeginning};
ghost use Rattle.pcache_files.specs.FileSpelling.{SpellsFile};
ghost use Rattle.pcache_files.specs.Folder.{IsForeign, IsRead, IsSaved, IsUnavailable, IsUnsaved, list_name};
ghost use Rattle.pcache_files.specs.FileWriting.{file_written, IsTooLong};

use crate::codec::{read_file, write_file};
use crate::device::{CountedRead, CountedWrite, write_whole};
use crate::folder::{read_entries, replace_file};
use crate::named::NamedFiles;
use crate::pieces::read_list_from;
use pcache_base::error::Result;
use pcache_evict::eviction::simple_lru::Manager;
use std::alloc::Global;

/// The file's name in its folder.
const FILE_NAME: &str = "simple_lru.data";

/// The bytes of the manager's file, which spell its list in its order.
pub fn serialize(alloc: Global, manager: &Manager) -> Result<Vec<u8>>
    ensures written { IfOk result (λ v. v.items ≡ file_written manager.now.entries) }
    ensures spelled { IfOk result (λ v. SpellsFile v.items manager.now.entries) }
    ensures once { IsOnce manager.now.entries }
    ensures too_long { IsErrOf result InternalError → IsTooLong manager.now.entries }
    ensures kinds { IfErr result (λ e. (e ≡ OutOfMemory) ⊎ (e ≡ InternalError)) }
{
    write_file(alloc, manager.total_items(), manager.iter())
}

/// Loads the list that the bytes of a file spell: an entry that is new is added at the back, one
/// that is tracked moves to the front with the new weight, and nothing is evicted. A failed call
/// changes nothing.
pub fn deserialize(alloc: Global, manager: &mut Manager, bytes: &[u8]) -> Result<()>
    ensures ok { OnOk result ((l : Recency) × SpellsFile bytes.now l
        × (manager.new ≡ record manager.old { entries = loaded_all l manager.old.entries })) }
    ensures refused { IsErrOf result InternalError → (l : Recency) → ¬ (SpellsFile bytes.now l) }
    ensures kinds { IfErr result (λ e. (e ≡ OutOfMemory) ⊎ (e ≡ InternalError)) }
    ensures err { OnErr result (manager.new ≡ manager.old) }
{
    let entries = read_file(alloc, bytes)?;
    Ok(manager.load_entries(entries)?)
}

/// Writes the manager's file, and flushes. If the writer fails, it has taken a prefix of the file;
/// if memory ran out before it was called, or the list has no file, it has taken nothing.
pub fn save_to<W: CountedWrite>(alloc: Global, manager: &Manager, to: &mut W) -> Result<()>
    ensures ok { OnOk result
        (Appends (W.contents to.old) (W.contents to.new) (file_written manager.now.entries)) }
    ensures spelled { OnOk result
        (SpellsFile (file_written manager.now.entries) manager.now.entries) }
    ensures flushed { OnOk result (W.is_flushed to.new) }
    ensures torn { OnErr result
        (TookBeginning (W.contents to.old) (W.contents to.new) (file_written manager.now.entries)) }
    ensures unwritten { IfErr result (λ e. e ≢ Io
        → Keeps (W.contents to.old) (W.contents to.new) ⊎ ((e ≡ OutOfMemory) × W.lacked to.new)) }
    ensures counted { Counts (W.failed to.old) (W.failed to.new) result }
    ensures cause { IsErrOf result Io → W.gave_up to.new }
    ensures too_long { IsErrOf result InternalError → IsTooLong manager.now.entries }
    ensures kinds { IfErr result (λ e. (e ≡ OutOfMemory) ⊎ (e ≡ InternalError) ⊎ (e ≡ Io)) }
{
    let bytes = serialize(alloc, manager)?;
    write_whole(to, &bytes)
}

/// Loads the list of the file that a reader gives up to its end, as `deserialize` does. The whole
/// file is read before an entry is added, and a failed call leaves the manager unchanged. A file
/// that spells no list fails as soon as its bytes show it, and no more is read then.
pub fn load_from<D: CountedRead>(alloc: Global, manager: &mut Manager, from: &mut D) -> Result<()>
    ensures ok { OnOk result ((bytes : List ℕ) × (l : Recency)
        × Gave (D.remaining from.old) (D.remaining from.new) bytes × SpellsFile bytes l
        × (manager.new ≡ record manager.old { entries = loaded_all l manager.old.entries })) }
    ensures refused { IsErrOf result InternalError
        → (bytes : List ℕ)
        → D.remaining from.old ≡ Some bytes
        → (l : Recency)
        → ¬ (SpellsFile bytes l) }
    ensures counted { Counts (D.failed from.old) (D.failed from.new) result }
    ensures cause { IsErrOf result Io → D.gave_up from.new }
    ensures kinds { IfErr result (λ e. (e ≡ OutOfMemory) ⊎ (e ≡ InternalError) ⊎ (e ≡ Io)) }
    ensures err { OnErr result (manager.new ≡ manager.old) }
{
    let entries = read_list_from(alloc, from)?;
    Ok(manager.load_entries(entries)?)
}

/// Saves the manager as `simple_lru.data` in a folder, which is made, with its parents, if it is
/// missing. It is written as `simple_lru.data.XXXXXXXX.tmp`, with the suffix in eight hexadecimal
/// digits (or the next one of 64 for which there is no file yet), and then renamed. If it fails, an
/// older `simple_lru.data` stays, and what was written is removed. Fails with `Io` only if a call on
/// the files failed, and not for want of memory.
pub fn save<R: NamedFiles>(
    alloc: Global,
    manager: &Manager,
    files: &R,
    dir: &str,
    suffix: u32,
) -> Result<()>
    ensures saved { OnOk result
        (IsSaved (R.makes files.now) (R.renames files.now) R.File.contents R.File.is_flushed
        (path_join dir.now list_name) (file_written manager.now.entries)) }
    ensures unsaved { IsErrOf result Io → IsUnsaved (R.refuses files.now) R.File.write_fails }
    ensures too_long { IsErrOf result InternalError → IsTooLong manager.now.entries }
    ensures kinds { IfErr result (λ e. (e ≡ OutOfMemory) ⊎ (e ≡ InternalError) ⊎ (e ≡ Io)) }
{
    let bytes = serialize(alloc, manager)?;
    replace_file(alloc, files, dir, FILE_NAME, suffix, &bytes)
}

/// Loads the list of the file `simple_lru.data` of a folder, as `load_from` does. Fails with `Io` if
/// this file can't be opened or a read of it gives up, and with `InternalError` if it spells no list.
pub fn load<R: NamedFiles>(alloc: Global, manager: &mut Manager, files: &R, dir: &str) -> Result<()>
    ensures ok { OnOk result ((l : Recency)
        × IsRead (R.opens files.now) R.File.remaining (path_join dir.now list_name) l
        × (manager.new ≡ record manager.old { entries = loaded_all l manager.old.entries })) }
    ensures unavailable { IsErrOf result Io
        → IsUnavailable (R.opens files.now) R.File.source (R.refuses files.now) R.File.read_fails
        (path_join dir.now list_name) }
    ensures foreign { IsErrOf result InternalError
        → IsForeign (R.opens files.now) R.File.remaining (path_join dir.now list_name) }
    ensures kinds { IfErr result (λ e. (e ≡ OutOfMemory) ⊎ (e ≡ InternalError) ⊎ (e ≡ Io)) }
    ensures err { OnErr result (manager.new ≡ manager.old) }
{
    let entries = read_entries(alloc, files, dir, FILE_NAME)?;
    Ok(manager.load_entries(entries)?)
}
