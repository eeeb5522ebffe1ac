//! The arguments that requests and puts pass to their parts, which no contract sees: a manager, a storage, a lock table
//! and a policy of a put record what they got, or what was called.
//!
//! A row that begins with a number is a call of the request with this number; another one asks what was recorded, or pushes a
//! response in.
use crate::noted::waits::Tracing;
use crate::rows::{Desk, Told, asked_of, compare, number, some_number, word};
use crate::whole_store::WholeStore;
use pcache_base::error::Result;
use pcache_base::key::{CacheKey, CompactCacheKey};
use pcache_base::moment::Moment;
use pcache_base::seed::Seed;
use pcache_evict::eviction::{CacheEntryKey, EvictionManager};
use pcache_request::cache::HttpCache;
use std::alloc::{AllocError, Global};
use std::process::Abort;
use test_rows::key_of;

mod calls;
mod handed;
mod readers;
mod uses;
mod waits;

// A manager that records until when the entries that it got last are fresh.
#[derive(Drop)]
struct Noting<M: EvictionManager> {
    list: M,
    admitted: Option<Moment>,
    accessed: Option<Moment>,
}

impl<M: EvictionManager> EvictionManager for Noting<M> {
    ghost tracked = { λ m. M.tracked m.list };

    ghost limits = { λ m. M.limits m.list };

    ghost evicted = { λ m. M.evicted m.list };

    ghost rules = { λ m. M.rules m.list };

    ghost shown = { λ m. M.shown m.list };

    fn total_size(&self) -> usize {
        self.list.total_size()
    }

    fn total_items(&self) -> usize {
        self.list.total_items()
    }

    fn evicted_size(&self) -> usize {
        self.list.evicted_size()
    }

    fn evicted_items(&self) -> usize {
        self.list.evicted_items()
    }

    fn entries(&self) -> Result<Vec<(CacheEntryKey, usize)>, AllocError> {
        self.list.entries()
    }

    fn admit(
        &mut self,
        item: CacheEntryKey,
        size: usize,
        fresh_until: Moment,
    ) -> Result<Vec<CacheEntryKey>, AllocError> {
        self.admitted = Some(fresh_until);
        self.list.admit(item, size, fresh_until)
    }

    fn increment_weight(
        &mut self,
        item: &CacheEntryKey,
        delta: usize,
        max_weight: Option<usize>,
    ) -> Result<Vec<CacheEntryKey>, AllocError> {
        self.list.increment_weight(item, delta, max_weight)
    }

    fn remove(&mut self, item: &CacheEntryKey) {
        self.list.remove(item);
    }

    fn access(
        &mut self,
        item: &CacheEntryKey,
        size: usize,
        fresh_until: Moment,
    ) -> Result<bool, AllocError> {
        self.accessed = Some(fresh_until);
        self.list.access(item, size, fresh_until)
    }

    fn peek(&self, item: &CacheEntryKey) -> bool {
        self.list.peek(item)
    }
}

// The parts that requests and puts borrow.
#[derive(Drop)]
struct Parts<M: EvictionManager> {
    alloc: Global,
    store: WholeStore,
    manager: Noting<M>,
    table: Tracing,
}

type Request = HttpCache<WholeStore>;

// Two requests over their parts.
struct Room<M: EvictionManager> {
    parts: Parts<M>,
    one: Request,
    two: Request,
}

impl<M: EvictionManager> Room<M> {
    fn new(alloc: Global, list: M) -> Room<M> {
        Room {
            parts: Parts {
                alloc,
                store: WholeStore::new(alloc, Seed::fixed()),
                manager: Noting {
                    list,
                    admitted: None,
                    accessed: None,
                },
                table: Tracing::new(alloc),
            },
            one: HttpCache::new(alloc),
            two: HttpCache::new(alloc),
        }
    }

    // As `play` of `rows`, which takes no desk over a manager of any type.
    fn play(&mut self, rt: &impl Abort, alloc: Global, rows: &'static str) {
        let mut told = Told::new(alloc);
        let mut number = 0u64;
        for row in rows.trim().lines() {
            number = number.saturating_add(1);
            let row = row.trim();
            told.clear();
            self.tell(asked_of(row), &mut told);
            compare(rt, number, row, &told);
        }
    }

    fn end(self) {
        let Room {
            mut parts,
            one,
            two,
        } = self;
        let _let_go = one.end(&mut parts.store, &mut parts.table);
        let _let_go = two.end(&mut parts.store, &mut parts.table);
    }
}

impl<M: EvictionManager> Desk for Room<M> {
    fn tell(&mut self, call: &'static str, told: &mut Told) {
        let Room { parts, one, two } = self;
        match some_number(call, 0) {
            Some(1) => calls::tell(parts, one, call, told),
            Some(_) => calls::tell(parts, two, call, told),
            None => tell_of_parts(parts, call, told),
        }
    }
}

fn tell_of_parts<M: EvictionManager>(parts: &mut Parts<M>, call: &'static str, told: &mut Told) {
    match word(call, 0) {
        "pushes" => handed::push(parts, word(call, 1), number(call, 2), told),
        "handed" => {
            tell_moment("admitted ", parts.manager.admitted, told);
            tell_moment(", used ", parts.manager.accessed, told);
            told.say(", purged ");
            told.named(&parts.store.purged());
        }
        "readers" => {
            let (finished, let_go) = parts.store.ended();
            told.say("finished ");
            told.shown(&finished);
            told.say(", let go ");
            told.shown(&let_go);
        }
        "traced" => parts.table.tell(told),
        _ => {
            let key = key_named(parts.alloc, word(call, 1)).to_compact();
            tell_tracked(parts, key, told);
        }
    }
}

fn key_named(alloc: Global, name: &'static str) -> CacheKey {
    key_of(alloc, name.as_bytes(), "1")
}

fn tell_moment(before: &str, moment: Option<Moment>, told: &mut Told) {
    told.say(before);
    match moment {
        Some(moment) => told.number(moment.secs()),
        None => told.say("none"),
    }
}

// Whether the manager tracks the only entry of a key.
fn tell_tracked<M: EvictionManager>(
    parts: &Parts<M>,
    key: Result<CompactCacheKey, AllocError>,
    told: &mut Told,
) {
    match key {
        Ok(key) => {
            let entry = CacheEntryKey::from_entry_id(key, None);
            told.yes_or_no(parts.manager.peek(&entry));
        }
        Err(refused) => told.refused(&refused.into()),
    }
}

// Plays rows over a manager that was just made.
fn run<M: EvictionManager>(
    rt: &impl Abort,
    alloc: Global,
    made: Result<M, AllocError>,
    rows: &'static str,
) {
    match made {
        Ok(list) => {
            let mut room = Room::new(alloc, list);
            room.play(rt, alloc, rows);
            room.end();
        }
        Err(_refused) => assert!(rt; false, "no memory for a manager"),
    }
}
