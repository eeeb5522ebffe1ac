//! Files that are opened, made and renamed by their paths, so that a contract can name them.
ghost use Rattle.std.specs.Prelude.{◌≡◌, ℕ, List, IfErr, IfOk, OnOk};
ghost use Rattle.std_io.specs.declared.io.error.Error.{Error};

use crate::device::{TriedRead, TriedWrite};
use std::fs::Files;
use std::{fs, io};

/// The files of a system, as `std::fs` calls them by their paths. What a call gave is a relation of
/// which nothing else is known, so a contract that has it holds only of what made that very call.
/// Every `Files` of std has it.
pub trait NamedFiles {
    /// An open file.
    type File: TriedRead + TriedWrite + Drop;

    /// Opening the file of this path for reading gives this one.
    ghost opens: { Self → List ℕ → Self.File → Type 0 };

    /// Making a file of this path, of which there was none, gives this one.
    ghost makes: { Self → List ℕ → Self.File → Type 0 };

    /// The file of the first path got the second one, in place of an older file.
    ghost renames: { Self → List ℕ → List ℕ → Type 0 };

    /// The file of this path was removed.
    ghost removes: { Self → List ℕ → Type 0 };

    /// A call on the file or the folder of this path fails with this error.
    ghost refuses: { Self → List ℕ → Error → Type 0 };

    /// Opens a file for reading, as `fs::open` does.
    fn open_at(&self, path: &str) -> io::Result<Self::File>
        ensures opened { IfOk result (opens self.now path.now) }
        ensures cause { IfErr result (refuses self.now path.now) };

    /// Makes a new file for writing, as `fs::File::create_new` does.
    fn make_at(&self, path: &str) -> io::Result<Self::File>
        ensures made { IfOk result (makes self.now path.now) }
        ensures cause { IfErr result (refuses self.now path.now) };

    /// Renames a file, as `fs::rename` does.
    fn rename_to(&self, from: &str, path: &str) -> io::Result<()>
        ensures renamed { OnOk result (renames self.now from.now path.now) }
        ensures cause { IfErr result (refuses self.now path.now) };

    /// Makes a folder with its parents, as `fs::create_dir_all` does.
    fn make_folder(&self, path: &str) -> io::Result<()>
        ensures cause { IfErr result (refuses self.now path.now) };

    /// Removes a file, as `fs::remove_file` does.
    fn remove_at(&self, path: &str) -> io::Result<()>
        ensures removed { OnOk result (removes self.now path.now) }
        ensures cause { IfErr result (refuses self.now path.now) };
}

impl<R: Files> NamedFiles for R {
    ghost use Rattle.std.specs.Prelude.{⊤};

    type File = R::File;

    ghost opens = { λ _ _ _. ⊤ };

    ghost makes = { λ _ _ _. ⊤ };

    ghost renames = { λ _ _ _. ⊤ };

    ghost removes = { λ _ _. ⊤ };

    ghost refuses = { λ _ _ _. ⊤ };

    fn open_at(&self, path: &str) -> io::Result<R::File> {
        fs::open(self, path)
    }

    fn make_at(&self, path: &str) -> io::Result<R::File> {
        fs::File::create_new(self, path)
    }

    fn rename_to(&self, from: &str, path: &str) -> io::Result<()> {
        fs::rename(self, from, path)
    }

    fn make_folder(&self, path: &str) -> io::Result<()> {
        fs::create_dir_all(self, path)
    }

    fn remove_at(&self, path: &str) -> io::Result<()> {
        fs::remove_file(self, path)
    }
}
