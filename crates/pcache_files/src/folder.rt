//! The files of a folder: reading one, and writing one under a temporary name and renaming it. A
//! contract says what was done with the file of which path; what it holds it does not say.
ghost use Rattle.std.specs.Prelude.{◌≡◌, ◌≢◌, ◌⊎◌, IfErr, IfOk, IsErrOf, IsTrue, OnErr, OnOk};
ghost use Rattle.std.specs.Path.{path_buf_bytes, path_join};
ghost use Rattle.std_io.specs.IoError.{error_kind};
ghost use Rattle.std_io.specs.declared.io.kind.ErrorKind.TheVariants as short;
ghost use Rattle.pcache_base.specs.declared.error.ErrorType.TheVariants.{InternalError, Io, OutOfMemory};
ghost use Rattle.pcache_files.specs.Device.{GaveUp};
ghost use Rattle.pcache_files.specs.Folder.{HasRefused, IsForeign, IsRead, IsRefused, IsSaved, IsUnavailable, IsUnsaved, IsWritten};

use crate::device::{Counted, TriedWrite, refusal, write_whole};
use crate::named::NamedFiles;
use crate::pieces::read_list_from;
use pcache_base::error::{Error, ErrorType, Result};
use pcache_evict::eviction::CacheEntryKey;
use std::alloc::{AllocError, Global};
use std::io;
use std::path::{Path, PathBuf};

/// How many suffixes are tried for a temporary file, if files with the first ones exist.
const SUFFIXES: u32 = 64;

// The path of a file of a folder.
fn path_in(alloc: Global, dir: &str, name: &str) -> Result<PathBuf, AllocError>
    ensures joined { IfOk result (λ p. path_buf_bytes p ≡ path_join dir.now name.now) }
{
    Path::new(dir).join(alloc, name)
}

// Opens a file for reading.
fn open_file<R: NamedFiles>(files: &R, path: &str) -> Result<Counted<R::File>>
    ensures opened { IfOk result (λ file. R.opens files.now path.now file.device) }
    ensures unopened { IsErrOf result Io → IsRefused (R.refuses files.now) path.now }
    ensures kinds { IfErr result (λ e. (e ≡ OutOfMemory) ⊎ (e ≡ Io)) }
{
    match files.open_at(path) {
        Ok(file) => Ok(Counted::new(file)),
        Err(error) => Err(refusal(&error)),
    }
}

// The list that a file holds.
fn read_path<R: NamedFiles>(
    alloc: Global,
    files: &R,
    path: &str,
) -> Result<Vec<(CacheEntryKey, usize)>>
    ensures found { IfOk result (λ v.
        IsRead (R.opens files.now) R.File.remaining path.now v.items) }
    ensures unavailable { IsErrOf result Io
        → IsUnavailable (R.opens files.now) R.File.source (R.refuses files.now) R.File.read_fails
        path.now }
    ensures foreign { IsErrOf result InternalError
        → IsForeign (R.opens files.now) R.File.remaining path.now }
    ensures kinds { IfErr result (λ e. (e ≡ OutOfMemory) ⊎ (e ≡ InternalError) ⊎ (e ≡ Io)) }
{
    let mut file = open_file(files, path)?;
    read_list_from(alloc, &mut file)
}

/// The list that a file of a folder holds.
pub(crate) fn read_entries<R: NamedFiles>(
    alloc: Global,
    files: &R,
    dir: &str,
    name: &str,
) -> Result<Vec<(CacheEntryKey, usize)>>
    ensures found { IfOk result (λ v.
        IsRead (R.opens files.now) R.File.remaining (path_join dir.now name.now) v.items) }
    ensures unavailable { IsErrOf result Io
        → IsUnavailable (R.opens files.now) R.File.source (R.refuses files.now) R.File.read_fails
        (path_join dir.now name.now) }
    ensures foreign { IsErrOf result InternalError
        → IsForeign (R.opens files.now) R.File.remaining (path_join dir.now name.now) }
    ensures kinds { IfErr result (λ e. (e ≡ OutOfMemory) ⊎ (e ≡ InternalError) ⊎ (e ≡ Io)) }
{
    let path = path_in(alloc, dir, name)?;
    read_path(alloc, files, path.as_str())
}

/// Writes a file with these bytes in place of an older one. The folder is made, with its parents, if
/// it is missing. The bytes go to a new file first, whose name ends in the suffix, or in the next
/// one for which no file exists; an existing file is never written to. If a call on the new file
/// fails, it is removed again, and the older one stays.
pub(crate) fn replace_file<R: NamedFiles>(
    alloc: Global,
    files: &R,
    dir: &str,
    name: &str,
    suffix: u32,
    bytes: &[u8],
) -> Result<()>
    ensures saved { OnOk result
        (IsSaved (R.makes files.now) (R.renames files.now) R.File.contents R.File.is_flushed
        (path_join dir.now name.now) bytes.now) }
    ensures unsaved { IsErrOf result Io → IsUnsaved (R.refuses files.now) R.File.write_fails }
    ensures kinds { IfErr result (λ e. (e ≡ OutOfMemory) ⊎ (e ≡ Io)) }
{
    let path = path_in(alloc, dir, name)?;
    make_folder(files, dir)?;
    'suffixes: for step in 0..SUFFIXES {
        let temporary = temporary_path(alloc, dir, name, suffix.wrapping_add(step))?;
        // Never a file that existed: two programs that save into one folder each write their own,
        // and what a killed one left bars no later save.
        match files.make_at(temporary.as_str()) {
            Ok(file) => {
                return put_in_place(files, file, temporary.as_str(), path.as_str(), bytes);
            }
            Err(error) => {
                if !is_taken(&error) {
                    return Err(refusal(&error));
                }
            }
        }
    }
    Err(Error::new(ErrorType::Io))
}

// Makes a folder, with its parents, if it is missing.
fn make_folder<R: NamedFiles>(files: &R, dir: &str) -> Result<()>
    ensures refused { IsErrOf result Io → IsRefused (R.refuses files.now) dir.now }
    ensures kinds { IfErr result (λ e. (e ≡ OutOfMemory) ⊎ (e ≡ Io)) }
{
    match files.make_folder(dir) {
        Ok(()) => Ok(()),
        Err(error) => Err(refusal(&error)),
    }
}

// The path of the temporary file with a suffix.
fn temporary_path(
    alloc: Global,
    dir: &str,
    name: &str,
    suffix: u32,
) -> Result<PathBuf, AllocError> {
    let temporary = format!(in alloc; "{name}.{suffix:08x}.tmp")?;
    path_in(alloc, dir, temporary.as_str())
}

// Writes a new file and gives it the name of an older one, or removes it.
fn put_in_place<R: NamedFiles>(
    files: &R,
    file: R::File,
    temporary: &str,
    path: &str,
    bytes: &[u8],
) -> Result<()>
    ensures written { OnOk result
        (IsWritten R.File.contents R.File.is_flushed file bytes.now) }
    ensures named { OnOk result (R.renames files.now temporary.now path.now) }
    ensures unsaved { IsErrOf result Io → IsUnsaved (R.refuses files.now) R.File.write_fails }
    ensures removed { OnErr result (R.removes files.now temporary.now
        ⊎ HasRefused (R.refuses files.now) temporary.now) }
    ensures kinds { IfErr result (λ e. (e ≡ OutOfMemory) ⊎ (e ≡ Io)) }
{
    let placed = write_and_rename(files, file, temporary, path, bytes);
    if placed.is_err() {
        // So that a full disk has its room again.
        let _removed = files.remove_at(temporary);
    }
    placed
}

// Writes a file and renames it. It is closed before it is renamed.
fn write_and_rename<R: NamedFiles>(
    files: &R,
    file: R::File,
    temporary: &str,
    path: &str,
    bytes: &[u8],
) -> Result<()>
    ensures written { OnOk result
        (IsWritten R.File.contents R.File.is_flushed file bytes.now) }
    ensures named { OnOk result (R.renames files.now temporary.now path.now) }
    ensures unsaved { IsErrOf result Io → IsUnsaved (R.refuses files.now) R.File.write_fails }
    ensures kinds { IfErr result (λ e. (e ≡ OutOfMemory) ⊎ (e ≡ Io)) }
{
    // Closed, and not synced, as upstream does not: a save in shards would wait for the disk once a
    // shard.
    write_new(file, bytes)?;
    rename(files, temporary, path)
}

// Renames a file.
fn rename<R: NamedFiles>(files: &R, from: &str, path: &str) -> Result<()>
    ensures named { OnOk result (R.renames files.now from.now path.now) }
    ensures refused { IsErrOf result Io → IsRefused (R.refuses files.now) path.now }
    ensures kinds { IfErr result (λ e. (e ≡ OutOfMemory) ⊎ (e ≡ Io)) }
{
    match files.rename_to(from, path) {
        Ok(()) => Ok(()),
        Err(error) => Err(refusal(&error)),
    }
}

// Writes all of a new file, and closes it.
fn write_new<W: TriedWrite + Drop>(file: W, bytes: &[u8]) -> Result<()>
    ensures written { OnOk result (IsWritten W.contents W.is_flushed file bytes.now) }
    ensures unwritten { IsErrOf result Io
        → (before : W) × (after : W) × GaveUp W.write_fails before after }
    ensures kinds { IfErr result (λ e. (e ≡ OutOfMemory) ⊎ (e ≡ Io)) }
{
    let mut file = Counted::new(file);
    write_whole(&mut file, bytes)
}

// Whether a file was not made since there is one of its name.
fn is_taken(error: &io::Error) -> bool
    ensures { IsTrue result → error_kind error.now ≢ short.OutOfMemory }
{
    match error.kind() {
        io::ErrorKind::AlreadyExists => true,
        _ => false,
    }
}
