//! Lists of many entries that are saved and loaded.
use crate::managers::entry_of;
use crate::rows::{Large, play};
use pcache_base::error::Result;
use pcache_base::moment::Moment;
use pcache_base::seed::Seed;
use pcache_evict::eviction::{sharded_lru, simple_lru};
use pcache_files::saved::SavedManager;
use std::alloc::Global;
use std::fs;
use std::fs::Files;
use std::test::Fail;

// A manager that is saved in a folder, and one that is loaded from there.
#[derive(Drop)]
struct Round<'a, R: Files, M: SavedManager> {
    alloc: Global,
    files: &'a R,
    saved: M,
    loaded: M,
}

const FOLDER: &str = "large";

impl<'a, R: Files, M: SavedManager> Large for Round<'a, R, M> {
    fn is_right(&mut self, what: &'static str, number: u64) -> Result<bool> {
        let entry = entry_of(self.alloc, number);
        match what {
            "admit" => Ok(
                self.saved
                    .admit(entry, number as usize, Moment::EPOCH)?
                    .is_empty(),
            ),
            "save" => {
                self.saved.save(self.alloc, self.files, FOLDER, 1)?;
                Ok(true)
            }
            "load" => Ok(self.loaded.load(self.alloc, self.files, FOLDER)? == 0),
            "find" => Ok(self.loaded.peek(&entry)),
            _ => Ok(self.loaded.total_items() as u64 == number),
        }
    }
}

const ROWS: &str = "
    admit 10000 -> 10000
    just save 0 -> 1
    just load 0 -> 1
    just entries 10000 -> 1
    find 10000 -> 10000";

fn round_of<R: Files>(alloc: Global, files: &R) -> Result<Round<'_, R, simple_lru::Manager>> {
    Ok(Round {
        alloc,
        files,
        saved: simple_lru::Manager::new(alloc, Seed::fixed(), usize::MAX)?,
        loaded: simple_lru::Manager::new(alloc, Seed::fixed(), usize::MAX)?,
    })
}

fn rounds_of<R: Files>(alloc: Global, files: &R) -> Result<Round<'_, R, sharded_lru::Manager<4>>> {
    Ok(Round {
        alloc,
        files,
        saved: sharded_lru::Manager::with_capacity(alloc, Seed::fixed(), usize::MAX, 0)?,
        loaded: sharded_lru::Manager::with_capacity(alloc, Seed::fixed(), usize::MAX, 0)?,
    })
}

#[test]
fn many_entries_come_back(rt: HostRuntime) -> std::result::Result<(), Fail> {
    let alloc = rt.alloc();
    play(&rt, alloc, round_of(alloc, &rt)?, ROWS);
    fs::remove_dir_all(&rt, FOLDER)?;
    play(&rt, alloc, rounds_of(alloc, &rt)?, ROWS);
    fs::remove_dir_all(&rt, FOLDER)?;
    Ok(())
}
