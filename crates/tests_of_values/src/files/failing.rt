//! A file system on which calls fail: one of all, or every other one, which is interrupted. It takes and gives a few bytes at a
//! time.
use std::alloc::Allocator;
use std::fs::{Files, Metadata, OpenFile, OpenOptions};
use std::io;
use std::io::{ErrorKind, Read, Seek, SeekFrom, Write};
use std::sync::atomic::{AtomicU64, Ordering};

/// The most bytes of one call.
const PIECE: usize = 1_000;

// Which calls fail.
#[derive(Clone, Copy, Drop)]
enum Way {
    // The one after so many good ones: an opening, a read, a write, a flush or a renaming.
    Once(ErrorKind),
    // Each read, write or flush whose number is even.
    Interrupted,
}

/// Another file system, on which calls fail.
#[derive(Drop)]
pub struct Failing<'a, R: Files> {
    files: &'a R,
    count: &'a AtomicU64,
    way: Way,
}

impl<'a, R: Files> Failing<'a, R> {
    /// The call after so many good ones fails with an error of this kind.
    pub fn with(files: &'a R, left: &'a AtomicU64, kind: ErrorKind) -> Failing<'a, R> {
        Failing {
            files,
            count: left,
            way: Way::Once(kind),
        }
    }

    /// Reads, writes and flushes are interrupted first.
    pub fn slow(files: &'a R, calls: &'a AtomicU64) -> Failing<'a, R> {
        Failing {
            files,
            count: calls,
            way: Way::Interrupted,
        }
    }
}

/// A file on it.
#[derive(Drop)]
pub struct FailingFile<'a, F> {
    file: F,
    count: &'a AtomicU64,
    way: Way,
}

// Counts a call on a file.
fn count(count: &AtomicU64, way: Way) -> io::Result<()> {
    match way {
        Way::Once(kind) => count_left(count, kind),
        Way::Interrupted => {
            if count.fetch_add(1, Ordering::SeqCst) & 1 == 0 {
                return Err(io::Error::from(ErrorKind::Interrupted));
            }
            Ok(())
        }
    }
}

// Counts a call by a name, none of which is interrupted.
fn count_name(count: &AtomicU64, way: Way) -> io::Result<()> {
    match way {
        Way::Once(kind) => count_left(count, kind),
        Way::Interrupted => Ok(()),
    }
}

fn count_left(left: &AtomicU64, kind: ErrorKind) -> io::Result<()> {
    if left.fetch_sub(1, Ordering::SeqCst) == 0 {
        return Err(io::Error::from(kind));
    }
    Ok(())
}

impl<'a, F: Read> Read for FailingFile<'a, F> {
    fn read(&mut self, buf: &mut [u8]) -> io::Result<usize> {
        count(self.count, self.way)?;
        let room = buf.len().min(PIECE);
        self.file.read(&mut buf[..room])
    }
}

impl<'a, F: Write> Write for FailingFile<'a, F> {
    fn write(&mut self, buf: &[u8]) -> io::Result<usize> {
        count(self.count, self.way)?;
        self.file.write(&buf[..buf.len().min(PIECE)])
    }

    fn flush(&mut self) -> io::Result<()> {
        count(self.count, self.way)?;
        self.file.flush()
    }
}

impl<'a, F: Seek> Seek for FailingFile<'a, F> {
    fn seek(&mut self, to: SeekFrom) -> io::Result<u64> {
        self.file.seek(to)
    }
}

impl<'a, F: OpenFile> OpenFile for FailingFile<'a, F> {
    fn metadata(&self) -> io::Result<Metadata> {
        self.file.metadata()
    }

    fn set_len(&self, size: u64) -> io::Result<()> {
        self.file.set_len(size)
    }

    fn sync_all(&self) -> io::Result<()> {
        self.file.sync_all()
    }

    fn sync_data(&self) -> io::Result<()> {
        self.file.sync_data()
    }
}

impl<'a, R: Files> Files for Failing<'a, R> {
    type File = FailingFile<'a, R::File>;

    type Dir = R::Dir;

    fn open_file(&self, how: &OpenOptions, path: &str) -> io::Result<FailingFile<'a, R::File>> {
        count_name(self.count, self.way)?;
        let file = self.files.open_file(how, path)?;
        Ok(FailingFile {
            file,
            count: self.count,
            way: self.way,
        })
    }

    fn open_dir(&self, path: &str) -> io::Result<R::Dir> {
        self.files.open_dir(path)
    }

    fn metadata(&self, path: &str) -> io::Result<Metadata> {
        self.files.metadata(path)
    }

    fn symlink_metadata(&self, path: &str) -> io::Result<Metadata> {
        self.files.symlink_metadata(path)
    }

    fn copy(&self, from: &str, to: &str) -> io::Result<u64> {
        self.files.copy(from, to)
    }

    fn rename(&self, from: &str, to: &str) -> io::Result<()> {
        count_name(self.count, self.way)?;
        self.files.rename(from, to)
    }

    fn remove_file(&self, path: &str) -> io::Result<()> {
        self.files.remove_file(path)
    }

    fn create_dir(&self, path: &str) -> io::Result<()> {
        self.files.create_dir(path)
    }

    fn remove_dir(&self, path: &str) -> io::Result<()> {
        self.files.remove_dir(path)
    }

    fn remove_dir_all<B: Allocator>(&self, alloc: B, path: &str) -> io::Result<()> {
        self.files.remove_dir_all(alloc, path)
    }
}
