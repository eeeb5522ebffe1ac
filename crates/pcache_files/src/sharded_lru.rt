//! The files of the manager in shards, one for each shard.
ghost use Rattle.std.specs.Prelude.{◌≡◌, ◌+◌, ◌^◌, ◌<◌, ◌≤◌, ◌⊎◌, ◌++◌, ℕ, IfErr, IfOk, IfNone, IfSome, IsErrOf, OnErr, OnOk, option_map, string_bytes};
ghost use Rattle.std.specs.Path.{path_join};
ghost use Rattle.pcache_base.specs.declared.error.ErrorType.TheVariants.{InternalError, Io, OutOfMemory};
ghost use Rattle.pcache_evict.specs.Recency.{Recency};
ghost use Rattle.pcache_evict.specs.Shards.{ArePlaced, added_last_all, list_at};
ghost use Rattle.pcache_files.specs.FileSpelling.{SpellsFile};
ghost use Rattle.pcache_files.specs.Folder.{AreSaved, IsFile, IsSaved, IsUnsaved, Loads, shard_files, shard_name, shard_names};
ghost use Rattle.pcache_files.specs.FileWriting.{file_written, IsTooLong};

use crate::codec::{read_file, write_file};
use crate::folder::{read_entries, replace_file};
use crate::named::NamedFiles;
use pcache_base::error::{ErrorType, Result};
use pcache_evict::eviction::CacheEntryKey;
use pcache_evict::eviction::sharded_lru::Manager;
use std::alloc::{AllocError, Global};

/// The bytes of a shard's file, which spell its list in its order.
pub fn serialize_shard<const N: usize>(
    alloc: Global,
    manager: &Manager<N>,
    shard: usize,
) -> Result<Vec<u8>>
    requires { shard < N }
    ensures written { IfOk result (λ v. v.items ≡ file_written (list_at manager.now.shards shard)) }
    ensures spelled { IfOk result (λ v. SpellsFile v.items (list_at manager.now.shards shard)) }
    ensures placed { ArePlaced N manager.now.shards }
    ensures too_long { IsErrOf result InternalError → IsTooLong (list_at manager.now.shards shard) }
    ensures kinds { IfErr result (λ e. (e ≡ OutOfMemory) ⊎ (e ≡ InternalError)) }
{
    write_file(alloc, manager.shard_len(shard), manager.iter_shard(shard))
}

/// Loads the list that the bytes of a shard's file spell, each entry at the back of the list of its
/// key's shard, whichever that is now. One that is tracked is unchanged, and nothing is evicted. A
/// failed call changes nothing.
pub fn deserialize_shard<const N: usize>(
    alloc: Global,
    manager: &mut Manager<N>,
    bytes: &[u8],
) -> Result<()>
    ensures ok { OnOk result ((l : Recency) × SpellsFile bytes.now l
        × (manager.new ≡ record manager.old { shards = added_last_all N l manager.old.shards })) }
    ensures refused { IsErrOf result InternalError → (l : Recency) → ¬ (SpellsFile bytes.now l) }
    ensures kinds { IfErr result (λ e. (e ≡ OutOfMemory) ⊎ (e ≡ InternalError)) }
    ensures err { OnErr result (manager.new ≡ manager.old) }
{
    let entries = read_file(alloc, bytes)?;
    Ok(manager.load_entries(entries)?)
}

/// Saves each shard as `lru.data.` and its number in a folder, which is made, with its parents, if it
/// is missing, each written under a name that ends in the suffix in eight hexadecimal digits (or the
/// next one of 64 for which there is no file yet) and `.tmp`, and then renamed. If saving a shard
/// fails, those before it are saved, older files stay for the others, and what was written of it is
/// removed. Fails with `Io` only if a call on the files failed, and not for want of memory.
pub fn save<R: NamedFiles, const N: usize>(
    alloc: Global,
    manager: &Manager<N>,
    files: &R,
    dir: &str,
    suffix: u32,
) -> Result<()>
    ensures saved { OnOk result (AreSaved (R.makes files.now) (R.renames files.now) R.File.contents
        R.File.is_flushed dir.now (shard_files N manager.now.shards)) }
    ensures unsaved { IsErrOf result Io → IsUnsaved (R.refuses files.now) R.File.write_fails }
    ensures too_long { IsErrOf result InternalError
        → (shard : ℕ) × IsTooLong (list_at manager.now.shards shard) }
    ensures kinds { IfErr result (λ e. (e ≡ OutOfMemory) ⊎ (e ≡ InternalError) ⊎ (e ≡ Io)) }
{
    'shards: for shard in 0..N {
        save_shard(alloc, manager, files, dir, suffix, shard)?;
    }
    Ok(())
}

// Saves a shard.
fn save_shard<R: NamedFiles, const N: usize>(
    alloc: Global,
    manager: &Manager<N>,
    files: &R,
    dir: &str,
    suffix: u32,
    shard: usize,
) -> Result<()>
    requires { shard < N }
    ensures saved { OnOk result
        (IsSaved (R.makes files.now) (R.renames files.now) R.File.contents R.File.is_flushed
        (path_join dir.now (shard_name shard)) (file_written (list_at manager.now.shards shard))) }
    ensures unsaved { IsErrOf result Io → IsUnsaved (R.refuses files.now) R.File.write_fails }
    ensures too_long { IsErrOf result InternalError → IsTooLong (list_at manager.now.shards shard) }
    ensures kinds { IfErr result (λ e. (e ≡ OutOfMemory) ⊎ (e ≡ InternalError) ⊎ (e ≡ Io)) }
{
    let bytes = serialize_shard(alloc, manager, shard)?;
    let name = file_name(alloc, shard)?;
    replace_file(alloc, files, dir, name.as_str(), suffix, &bytes)
}

/// Loads what the files of a folder hold, shard after shard, each entry as `deserialize_shard` does,
/// and returns how many files were skipped: those that could not be opened or read, and those that
/// spell no list. All are read before an entry is added. Fails only when memory runs out, and then
/// changes nothing; no file is skipped for that.
pub fn load<R: NamedFiles, const N: usize>(
    alloc: Global,
    manager: &mut Manager<N>,
    files: &R,
    dir: &str,
) -> Result<usize, AllocError>
    ensures ok { IfOk result (λ skipped. (l : Recency)
        × Loads (R.opens files.now) R.File.remaining R.File.source (R.refuses files.now)
        R.File.read_fails dir.now (shard_names N) skipped l
        × (manager.new ≡ record manager.old { shards = added_last_all N l manager.old.shards })) }
    ensures skipped { IfOk result (λ n. n ≤ N) }
    ensures placed { ArePlaced N manager.old.shards }
    ensures err { OnErr result (manager.new ≡ manager.old) }
{
    let shards = manager.shards();
    let mut entries = Vec::new(alloc);
    let mut skipped = 0;
    for shard in 0..shards {
        let list = read_shard(alloc, files, dir, shard)?;
        take_in(&mut entries, &mut skipped, list)?;
    }
    // Once all files are read, so that a lack of memory leaves the manager as it was.
    manager.load_entries(entries)?;
    Ok(skipped)
}

// Adds the list of one more file, or counts the file as skipped.
fn take_in(
    entries: &mut Vec<(CacheEntryKey, usize)>,
    skipped: &mut usize,
    list: Option<Vec<(CacheEntryKey, usize)>>,
) -> Result<(), AllocError>
    requires { skipped.old + 1 < 2 ^ 64 }
    ensures added { OnOk result (IfSome list (λ v.
        (entries.new.items ≡ entries.old.items ++ v.items) × (skipped.new ≡ skipped.old))) }
    ensures missed { OnOk result
        (IfNone list ((entries.new.items ≡ entries.old.items) × (skipped.new ≡ skipped.old + 1))) }
{
    match list {
        Some(mut list) => entries.append(&mut list)?,
        None => *skipped += 1,
    }
    Ok(())
}

// The list of a shard's file; `None` if the file is skipped.
fn read_shard<R: NamedFiles>(
    alloc: Global,
    files: &R,
    dir: &str,
    shard: usize,
) -> Result<Option<Vec<(CacheEntryKey, usize)>>, AllocError>
    ensures read { IfOk result (λ o. IsFile (R.opens files.now) R.File.remaining R.File.source
        (R.refuses files.now) R.File.read_fails (path_join dir.now (shard_name shard))
        (option_map (λ v. v.items) o)) }
{
    let name = file_name(alloc, shard)?;
    match read_entries(alloc, files, dir, name.as_str()) {
        Ok(list) => Ok(Some(list)),
        Err(refused) => match refused.etype() {
            // A shard whose read met a lack of memory is not skipped: its list may be good.
            ErrorType::OutOfMemory => Err(AllocError),
            _ => Ok(None),
        },
    }
}

// The name of a shard's file.
fn file_name(alloc: Global, shard: usize) -> Result<String, AllocError>
    ensures name { IfOk result (λ s. string_bytes s ≡ shard_name shard) }
{
    format!(in alloc; "lru.data.{shard}")
}
