//! Managers that are saved in a folder, and loaded from it.
ghost use Rattle.std.specs.Prelude.{◌≡◌, ◌⊎◌, ℕ, List, IfErr, IfOk, IsErrOf, OnErr, OnOk};
ghost use Rattle.std.specs.Path.{path_join};
ghost use Rattle.pcache_base.specs.declared.error.ErrorType.TheVariants.{InternalError, Io, OutOfMemory};
ghost use Rattle.pcache_evict.specs.Recency.{Recency};
ghost use Rattle.pcache_evict.specs.Tracked.{Tracked};
ghost use Rattle.pcache_files.specs.Folder.{AreSaved, IsForeign, IsListed, IsUnavailable, IsUnsaved, Loads};

use crate::named::NamedFiles;
use crate::{sharded_lru, simple_lru};
use pcache_base::error::Result;
use pcache_evict::eviction;
use pcache_evict::eviction::EvictionManager;
use std::alloc::Global;

/// A manager that can be saved in a folder and loaded from it.
///
/// A contract says what was done with the file of which path, and what the files gave that were
/// opened. That a file keeps what was written to it is the file system's, and not promised.
pub trait SavedManager: EvictionManager {
    /// The names of the manager's files, in the order in which they are loaded.
    ghost file_names: { List (List ℕ) };

    /// What a save writes: the name and the bytes of each file.
    ghost written: { Self → List (List ℕ × List ℕ) };

    /// How the entries of its files change what is tracked.
    ghost put_in: { Recency → Tracked → Tracked };

    /// Saves the manager's entries in a folder, which is made, with its parents, if it is missing. Each
    /// file is written under a temporary name that no file has, which ends in the suffix or in one of
    /// the next ones, and is then renamed. If that fails, the older file stays, and the temporary one
    /// is removed. Fails with `Io` only if a call on the files failed, and not for want of memory.
    fn save<R: NamedFiles>(&self, alloc: Global, files: &R, dir: &str, suffix: u32) -> Result<()>
        ensures saved { OnOk result
            (AreSaved (R.makes files.now) (R.renames files.now) R.File.contents R.File.is_flushed
            dir.now (written self.now)) }
        ensures unsaved { IsErrOf result Io → IsUnsaved (R.refuses files.now) R.File.write_fails }
        ensures kinds { IfErr result (λ e. (e ≡ OutOfMemory) ⊎ (e ≡ InternalError) ⊎ (e ≡ Io)) };

    /// Loads what was saved in a folder, and returns how many of several files were skipped: those that
    /// could not be opened or read, and those that spell no list. What is tracked then is what was
    /// tracked before with the lists of the other files loaded, each of which was read to its end.
    /// Nothing is evicted, and a failed call changes nothing. Unless memory ran out, it met a file of
    /// the manager that could not be opened or read (`Io`), or one that spells no list.
    fn load<R: NamedFiles>(&mut self, alloc: Global, files: &R, dir: &str) -> Result<usize>
        ensures ok { IfOk result (λ skipped. (entries : Recency)
            × Loads (R.opens files.now) R.File.remaining R.File.source (R.refuses files.now)
            R.File.read_fails dir.now file_names skipped entries
            × (Self.tracked self.new ≡ put_in entries (Self.tracked self.old))) }
        ensures limits { Self.limits self.new ≡ Self.limits self.old }
        ensures evicted { Self.evicted self.new ≡ Self.evicted self.old }
        ensures unavailable { IsErrOf result Io
            → (name : List ℕ)
            × IsListed name file_names
            × IsUnavailable (R.opens files.now) R.File.source (R.refuses files.now)
            R.File.read_fails (path_join dir.now name) }
        ensures foreign { IsErrOf result InternalError
            → (name : List ℕ)
            × IsListed name file_names
            × IsForeign (R.opens files.now) R.File.remaining (path_join dir.now name) }
        ensures kinds { IfErr result (λ e. (e ≡ OutOfMemory) ⊎ (e ≡ InternalError) ⊎ (e ≡ Io)) }
        ensures err { OnErr result (Self.tracked self.new ≡ Self.tracked self.old) };
}

impl SavedManager for eviction::simple_lru::Manager {
    ghost use Rattle.std.specs.Prelude.{[], ◌∷◌};
    ghost use Rattle.pcache_files.specs.FileWriting.{file_written};
    ghost use Rattle.pcache_files.specs.Folder.{list_name, set_all};

    ghost file_names = { list_name ∷ [] };

    ghost written = { λ m. (list_name, file_written m.entries) ∷ [] };

    ghost put_in = { set_all };

    fn save<R: NamedFiles>(&self, alloc: Global, files: &R, dir: &str, suffix: u32) -> Result<()> {
        simple_lru::save(alloc, self, files, dir, suffix)
    }

    fn load<R: NamedFiles>(&mut self, alloc: Global, files: &R, dir: &str) -> Result<usize> {
        simple_lru::load(alloc, self, files, dir)?;
        Ok(0)
    }
}

impl<const N: usize> SavedManager for eviction::sharded_lru::Manager<N> {
    ghost use Rattle.pcache_files.specs.Folder.{added_all, shard_files, shard_names};

    ghost file_names = { shard_names N };

    ghost written = { λ m. shard_files N m.shards };

    ghost put_in = { added_all };

    fn save<R: NamedFiles>(&self, alloc: Global, files: &R, dir: &str, suffix: u32) -> Result<()> {
        sharded_lru::save(alloc, self, files, dir, suffix)
    }

    fn load<R: NamedFiles>(&mut self, alloc: Global, files: &R, dir: &str) -> Result<usize> {
        let skipped = sharded_lru::load(alloc, self, files, dir)?;
        Ok(skipped)
    }
}
