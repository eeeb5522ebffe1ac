//! The world itself.
ghost use Rattle.std.specs.Prelude.{◌≡◌, ◌+◌, ◌<◌, ◌≤◌, ◌⊎◌, ◌++◌, ◌∷◌, [], Some, None, IsSome, IfSome, option_map, IfOk, IfErr, OnOk, OnErr, List, ℕ, min, ◌^◌, ◌-◌, vec_len, cond, false};
ghost use Rattle.pcache_base.specs.declared.error.ErrorType.TheVariants.{Io, OutOfMemory};
ghost use Rattle.std.specs.Vec.{vec_capacity};
ghost use Rattle.pcache_history.specs.Files.{files_in};
ghost use Rattle.pcache_history.specs.Log.{started};
ghost use Rattle.pcache_history.specs.Rules.{IsCopy, IsFilesReply};
ghost use Rattle.pcache_history.specs.declared.call.FilesAct.TheVariants.{Save, Load};
ghost use Rattle.pcache_history.specs.declared.call.Reply.TheVariants.{Refused, WrongCall};
ghost use Rattle.std.specs.Path.{path_join};
ghost use Rattle.pcache_files.specs.Folder.{AreSaved, IsForeign, IsListed, IsUnavailable, IsUnsaved, Loads};
ghost use Rattle.pcache_world.specs.FilesCalls.{AnswersFiles, HasCause, HasSaved, IsLoaded, IsSavedOf, files_call, save_reply};

use crate::world::open::Open;
use crate::world::parts::Parts;
use crate::world::policy::PutPolicy;
use crate::world::turn::act;
use crate::world::vary::spare_of;
use pcache_base::error::{ErrorType, Result};
use pcache_base::seed::Seed;
use pcache_evict::eviction::{CacheEntryKey, EvictionManager};
use pcache_files::named::NamedFiles;
use pcache_files::saved::SavedManager;
use pcache_history::call::{Call, FilesAct, Reply};
use pcache_history::entry::{Entry, Event, Events};
use pcache_lock::lock::CacheLock;
use pcache_store::memory::MemCache;
use std::alloc::{AllocError, Global};
use std::collections::BTreeMap;
use std::marker::Model;
use std::time::Duration;

// The most events that a call makes.
const MOST_EVENTS: usize = 3;

/// The totals that an eviction manager reports.
#[derive(Clone, Copy, Debug, PartialEq, Eq)]
pub struct Totals {
    /// The sum of the weights of the tracked entries.
    pub weight: usize,
    /// The number of tracked entries.
    pub items: usize,
    /// The sum of the weights of all evicted entries.
    pub evicted_weight: usize,
    /// The number of all evicted entries.
    pub evicted_items: usize,
}

/// Requests and puts over one store, one eviction manager and one lock table, with the history of
/// their calls. Each call is atomic: it is made and recorded before the next.
///
/// The history is legal at all times: each entry is one that the entries before it give. All puts
/// follow the policy `P`.
pub struct World<M: EvictionManager, P: PutPolicy> {
    alloc: Global,
    parts: Parts<M>,
    requests: BTreeMap<u64, Open<P>>,
    start: Option<Vec<(CacheEntryKey, usize)>>,
    history: Vec<Entry>,
}

impl<M: EvictionManager, P: PutPolicy> Model for World<M, P> {
    ghost use Rattle.std.specs.Prelude.{◌≡◌, is_none, reverse};
    ghost use Rattle.std.specs.Option.{option_map};
    ghost use Rattle.std.specs.FinMap as map;
    ghost use Rattle.pcache_history.specs.Files.{only_loads};
    ghost use Rattle.pcache_history.specs.Log.{Log, started};
    ghost use Rattle.pcache_history.specs.LogCode.{log_code};
    ghost use Rattle.pcache_world.specs.PutsSound.{PutsSound};
    ghost use Rattle.pcache_world.specs.Sound.{IsSound};

    ghost Value = { Log };

    ghost coded = { log_code };

    ghost view = { λ w. record { history = w.history.items; start = started (option_map (λ v. v.items) w.start) w.parts.tracked; limits = w.parts.limits; evicted = w.parts.evicted; age = w.parts.locks.age_timeout } };

    ghost invariant = { λ w. IsSound w.parts.limits (started (option_map (λ v. v.items) w.start) w.parts.tracked) w.parts.tracked w.parts.store w.parts.locks (map.from_entries w.requests.entries) (reverse w.history.items) × (is_none w.start ≡ only_loads (reverse w.history.items)) × PutsSound P.says (map.from_entries w.requests.entries) (reverse w.history.items) };
}

impl<M: EvictionManager, P: PutPolicy> World<M, P> {
    ghost use Rattle.std.specs.Duration.{as_nanos};
    ghost use Rattle.std.specs.FinMap as map;
    ghost use Rattle.pcache_history.specs.Events.{stored, slots, tracked};
    ghost use Rattle.pcache_history.specs.Files.{files_in, only_loads};
    ghost use Rattle.pcache_history.specs.Ongoing.{request_of};
    ghost use Rattle.pcache_history.specs.Log.{Log, Adds, AddsAll, AddsSome, HasLegal, events_in};
    ghost use Rattle.pcache_history.specs.PutHistory.{FollowPolicy};
    ghost use Rattle.pcache_history.specs.declared.call.FilesAct.TheVariants.{Save, Load};
    ghost use Rattle.pcache_history.specs.declared.call.Reply.TheVariants.{Refused};
    ghost use Rattle.pcache_world.specs.FilesCalls.{HasNoFiles};
    ghost use Rattle.std.specs.Prelude.{reverse, true, ℕ};
    ghost use Rattle.pcache_base.specs.declared.error.ErrorType.TheVariants.{Io, OutOfMemory};
    ghost use Rattle.pcache_evict.specs.Tracked.{weight};
    ghost use Rattle.pcache_history.specs.Headline.{EvictsNothingWithin, FindsUntouched, FinishesUntouched, GivesWhereNoneWaits, HandsOnUnhidden, HitsTheLast, IsWithinAlways};
    ghost use Rattle.pcache_history.specs.Settling.{SettlesAlways};

    /// A world with no requests, an empty store and an empty history. Permits age out after
    /// `age_timeout`. The store's tables hash under the seed, on which no reply and no event
    /// depends.
    pub fn new(alloc: Global, seed: Seed, manager: M, age_timeout: Duration) -> World<M, P>
        ensures { result
            ≡ record {
              history = [];
              start = M.tracked manager;
              limits = M.limits manager;
              evicted = M.evicted manager;
              age = as_nanos age_timeout;
            } }
    {
        World {
            alloc,
            parts: Parts {
                store: MemCache::new(alloc, seed),
                manager,
                lock: CacheLock::new(alloc, age_timeout),
            },
            requests: BTreeMap::new(alloc),
            start: None,
            history: Vec::new(alloc),
        }
    }

    /// The calls with their replies and events, in order.
    pub fn history(&self) -> &[Entry]
        ensures entries { result.now ≡ self.now.history }
        ensures legal { HasLegal self.now }
        ensures puts { FollowPolicy P.says (reverse self.now.history) }
    {
        self.history.as_slice()
    }

    /// Promises of the history, whatever calls were made: a look-up finds a key exactly when a write
    /// of it, in flight or finished, met no removal since it began, and hands on what it finds unless
    /// a variant hides it; the finish of a write succeeds exactly when it met no removal; a complete
    /// hit reads the body that was finished last; the complete bodies sum to at most the limit;
    /// nothing is evicted within the limits; a request for a lock is given the permit exactly when no
    /// permit waits for its key.
    ///
    /// The call does nothing. Its caller has these facts about the world at that moment, also behind
    /// a lock.
    pub fn headline(&self)
        ensures finds { FindsUntouched self.now }
        ensures hands_on { HandsOnUnhidden self.now }
        ensures finishes { FinishesUntouched self.now }
        ensures hits { HitsTheLast self.now }
        ensures within { IsWithinAlways self.now }
        ensures evicts { EvictsNothingWithin self.now }
        ensures locks { GivesWhereNoneWaits self.now }
    {
        // For the prover: the history is legal, and legal histories have these laws.
        let _history = self.history();
    }

    /// The entries that the manager tracked before the first call that is no load, in no particular order;
    /// empty before that call.
    pub fn start(&self) -> &[(CacheEntryKey, usize)]
        ensures { (map.from_entries result.now ≡ self.now.start)
            ⊎ ((result.now ≡ []) × (only_loads (reverse self.now.history) ≡ true)) }
    {
        match &self.start {
            Some(start) => start.as_slice(),
            None => &[],
        }
    }

    /// The sum of the lengths of the complete bodies, in bytes: at most the manager's limit on
    /// weight.
    pub fn stored_bytes(&self) -> u128
        ensures value { result ≡ stored (events_in self.now) }
        ensures within { result ≤ self.now.limits.weight }
    {
        self.parts.store.stored_bytes()
    }

    /// The number of complete bodies: at most the manager's watermark, if it has one.
    pub fn slots(&self) -> usize
        ensures value { result ≡ slots (events_in self.now) }
        ensures within { IfSome self.now.limits.watermark (λ most. result ≤ most) }
    {
        self.parts.store.slots()
    }

    /// The number of writes of which the store keeps a record, since they are in flight or are read: zero if
    /// no request and no put is open.
    pub fn write_records(&self) -> usize
        ensures { ((r : ℕ) → request_of r (reverse self.now.history) ≡ None) → result ≡ 0 }
    {
        self.parts.store.write_records()
    }

    /// The manager's totals.
    pub fn totals(&self) -> Totals
        ensures weight { result.weight
            ≡ min (weight (tracked self.now.start (events_in self.now))) (2 ^ 64 - 1) }
        ensures items { result.items ≡ map.len (tracked self.now.start (events_in self.now)) }
        ensures evicted_weight { result.evicted_weight ≡ self.now.evicted.weight }
        ensures evicted_items { result.evicted_items ≡ self.now.evicted.count }
    {
        Totals {
            weight: self.parts.manager.total_size(),
            items: self.parts.manager.total_items(),
            evicted_weight: self.parts.manager.evicted_size(),
            evicted_items: self.parts.manager.evicted_items(),
        }
    }

    /// Makes one call and records it. Fails when memory runs out, and then changes and records nothing;
    /// an error inside the call is its reply. The call has no files: a save, or a load before any other
    /// call, fails as if the device failed. `save` and `load` make these calls.
    pub fn step(&mut self, call: Call) -> Result<Reply>
        ensures ok { IfOk result (λ reply. Adds self.old call reply self.new) }
        ensures files { IfOk result (λ reply. HasNoFiles (files_in call.act) reply) }
        ensures legal { HasLegal self.new }
        ensures puts { FollowPolicy P.says (reverse self.new.history) }
        ensures err { OnErr result (self.new ≡ self.old) }
        ensures kind { IfErr result (λ e. e ≡ OutOfMemory) }
    {
        match call.act.files() {
            None => self.step_over_parts(call),
            Some(FilesAct::Save) => self.save_nowhere(call),
            Some(FilesAct::Load) => self.load_nowhere(call),
        }
    }

    // A call of a request or a put.
    fn step_over_parts(&mut self, call: Call) -> Result<Reply>
        requires parts { files_in call.act ≡ None }
        ensures ok { IfOk result (λ reply. Adds self.old call reply self.new) }
        ensures legal { HasLegal self.new }
        ensures puts { FollowPolicy P.says (reverse self.new.history) }
        ensures err { OnErr result (self.new ≡ self.old) }
        ensures kind { IfErr result (λ e. e ≡ OutOfMemory) }
    {
        // For the prover: the number of requests is bounded, and so is that of their read locks.
        let _open = self.requests.len();
        let mut events = Vec::with_capacity(self.alloc, MOST_EVENTS)?;
        let mut spare = spare_of(&call.act)?;
        make_ready(&mut self.history, &mut self.start, &self.parts)?;
        // Of the parts alone: no reply is computed from the history, which is only written.
        let reply = act(
            self.alloc,
            &mut self.requests,
            &mut self.parts,
            &mut events,
            &call,
            &mut spare,
        );
        let (noted, answered) = doubled(reply);
        note(self.alloc, &mut self.history, call, noted, events);
        Ok(answered)
    }

    // A save with no files.
    fn save_nowhere(&mut self, call: Call) -> Result<Reply>
        requires save { files_in call.act ≡ Some Save }
        ensures files { IfOk result (λ reply. reply ≡ Refused Io) }
        ensures ok { IfOk result (λ reply. Adds self.old call reply self.new) }
        ensures legal { HasLegal self.new }
        ensures puts { FollowPolicy P.says (reverse self.new.history) }
        ensures err { OnErr result (self.new ≡ self.old) }
        ensures kind { IfErr result (λ e. e ≡ OutOfMemory) }
    {
        make_ready(&mut self.history, &mut self.start, &self.parts)?;
        let noted = Reply::Refused(ErrorType::Io);
        note(
            self.alloc,
            &mut self.history,
            call,
            noted,
            Vec::new(self.alloc),
        );
        Ok(Reply::Refused(ErrorType::Io))
    }

    // A load with no files.
    fn load_nowhere(&mut self, call: Call) -> Result<Reply>
        requires load { files_in call.act ≡ Some Load }
        ensures files { IfOk result (λ reply. HasNoFiles (Some Load) reply) }
        ensures ok { IfOk result (λ reply. Adds self.old call reply self.new) }
        ensures legal { HasLegal self.new }
        ensures puts { FollowPolicy P.says (reverse self.new.history) }
        ensures err { OnErr result (self.new ≡ self.old) }
        ensures kind { IfErr result (λ e. e ≡ OutOfMemory) }
    {
        self.history.reserve(1)?;
        let is_early = self.start.is_none();
        let noted = unloaded(is_early);
        note(
            self.alloc,
            &mut self.history,
            call,
            noted,
            Vec::new(self.alloc),
        );
        Ok(unloaded(is_early))
    }

    /// Makes one call as `step` does, and says what holds whichever requests for memory are refused: the
    /// complete bodies sum to at most the manager's limit on weight, and are at most as many as its
    /// watermark, after this call as after each before it; a body that was stored is admitted in the
    /// call that finished it, or its key is purged there. A failed call changes nothing, and adds no
    /// entry.
    pub fn bounded_step(&mut self, call: Call) -> Result<Reply>
        ensures within { IsWithinAlways self.new }
        ensures settles { SettlesAlways self.new }
        ensures refused { OnErr result (self.new ≡ self.old) }
        ensures no_entry { OnErr result (self.new.history ≡ self.old.history) }
        ensures entry { IfOk result (λ reply. Adds self.old call reply self.new) }
        ensures kind { IfErr result (λ e. e ≡ OutOfMemory) }
    {
        self.step(call)
    }

    /// Makes the calls in order, and returns their replies. Fails when memory runs out; then the
    /// calls of a prefix of the list were made.
    pub fn run(&mut self, calls: Vec<Call>) -> Result<Vec<Reply>>
        ensures ok { IfOk result (λ replies. AddsAll self.old calls.items replies.items self.new) }
        ensures legal { HasLegal self.new }
        ensures err { OnErr result (AddsSome self.old calls.items self.new) }
        ensures kind { IfErr result (λ e. e ≡ OutOfMemory) }
    {
        let mut replies = Vec::with_capacity(self.alloc, calls.len())?;
        for call in calls {
            let reply = self.step(call)?;
            replies.push_reserved(reply);
        }
        Ok(replies)
    }
}

impl<M: SavedManager, P: PutPolicy> World<M, P> {
    ghost use Rattle.std.specs.Prelude.{ℕ, List, reverse};
    ghost use Rattle.pcache_history.specs.Log.{Log, Adds, HasLegal};
    ghost use Rattle.pcache_history.specs.PutHistory.{FollowPolicy};
    ghost use Rattle.pcache_history.specs.declared.call.Act.TheVariants as acts;
    ghost use Rattle.pcache_history.specs.declared.call.FilesAct.TheVariants.{Save, Load};
    ghost use Rattle.pcache_history.specs.declared.entry.Event.{Event};
    ghost use Rattle.std.specs.Path.{path_join};
    ghost use Rattle.pcache_files.specs.Folder.{AreSaved, IsForeign, IsListed, IsUnavailable, IsUnsaved, Loads};
    ghost use Rattle.pcache_history.specs.Events.{tracked};
    ghost use Rattle.pcache_history.specs.Log.{events_in};
    ghost use Rattle.pcache_world.specs.FilesCalls.{HasCause, HasSaved, IsLoaded, IsSavedOf};

    /// Saves the manager's entries in a folder, which is made, with its parents, if it is missing, as
    /// a call with an entry of its own: the reply is that of the manager. Each file is written under a
    /// temporary name, which ends in the suffix, and then renamed. Fails when memory for the entry
    /// runs out, and then saves and records nothing.
    pub fn save<R: NamedFiles>(&mut self, files: &R, dir: &str, suffix: u32) -> Result<Reply>
        ensures ok { IfOk result (λ reply. Adds self.old (files_call Save) reply self.new) }
        ensures replies { IfOk result (λ reply. IsFilesReply Save reply) }
        ensures saved { IfOk result (HasSaved (IsSavedOf M.tracked M.written
            (AreSaved (R.makes files.now) (R.renames files.now) R.File.contents R.File.is_flushed
            dir.now) (tracked self.old.start (events_in self.old)))) }
        ensures cause { IfOk result (HasCause
            (IsUnsaved (R.refuses files.now) R.File.write_fails) (Unit {0})) }
        ensures legal { HasLegal self.new }
        ensures puts { FollowPolicy P.says (reverse self.new.history) }
        ensures err { OnErr result (self.new ≡ self.old) }
        ensures kind { IfErr result (λ e. e ≡ OutOfMemory) }
    {
        make_ready(&mut self.history, &mut self.start, &self.parts)?;
        let saved = saved_in(self.alloc, &self.parts, files, dir, suffix);
        let (noted, answered) = doubled(saved);
        note(
            self.alloc,
            &mut self.history,
            FilesAct::Save.call(),
            noted,
            Vec::new(self.alloc),
        );
        Ok(answered)
    }

    /// Loads what was saved in a folder, as a call with an entry of its own. The reply is WrongCall if a
    /// call other than a load was made before. The history starts from what the manager tracks after the
    /// loads. If the load is done, the reply says how many of several files were skipped, and the manager
    /// tracks what it tracked before with the lists of the others loaded; if it fails, the manager is
    /// unchanged. Nothing is evicted. The call fails when memory for the entry runs out, and then loads
    /// and records nothing.
    pub fn load<R: NamedFiles>(&mut self, files: &R, dir: &str) -> Result<Reply>
        ensures history { IfOk result (λ reply. self.new.history
            ≡ self.old.history
            ++ record { call = files_call Load; reply = reply; events = [] }
            ∷ []) }
        ensures loaded { IfOk result (λ reply. IsLoaded
            (Loads (R.opens files.now) R.File.remaining R.File.source (R.refuses files.now)
            R.File.read_fails dir.now M.file_names) M.put_in self.old.start self.new.start
            reply) }
        ensures cause { IfOk result (HasCause
            ((name : List ℕ) × IsListed name M.file_names × IsUnavailable (R.opens files.now)
            R.File.source (R.refuses files.now) R.File.read_fails (path_join dir.now name))
            ((name : List ℕ) × IsListed name M.file_names × IsForeign (R.opens files.now)
            R.File.remaining (path_join dir.now name))) }
        ensures limits { self.new.limits ≡ self.old.limits }
        ensures evicted { self.new.evicted ≡ self.old.evicted }
        ensures age { self.new.age ≡ self.old.age }
        ensures legal { HasLegal self.new }
        ensures puts { FollowPolicy P.says (reverse self.new.history) }
        ensures err { OnErr result (self.new ≡ self.old) }
        ensures kind { IfErr result (λ e. e ≡ OutOfMemory) }
    {
        self.history.reserve(1)?;
        let is_early = self.start.is_none();
        let reply = load_if(self.alloc, &mut self.parts, files, dir, is_early);
        let (noted, answered) = doubled(reply);
        note(
            self.alloc,
            &mut self.history,
            FilesAct::Load.call(),
            noted,
            Vec::new(self.alloc),
        );
        Ok(answered)
    }
}

impl<M: EvictionManager, P: PutPolicy> Drop for World<M, P> {
    // Ends all open requests and puts.
    fn drop(self) {
        let World {
            alloc: _,
            parts,
            mut requests,
            start: _,
            history: _,
        } = self;
        let Parts {
            mut store,
            manager,
            mut lock,
        } = parts;
        while let Some((_number, open)) = requests.pop_first() {
            open.end(&mut store, &mut lock);
        }
        requests.destroy_empty();
        drop(manager);
    }
}

// Makes room for one more entry, and before the first call records what the manager tracks.
fn make_ready<M: EvictionManager>(
    history: &mut Vec<Entry>,
    start: &mut Option<Vec<(CacheEntryKey, usize)>>,
    parts: &Parts<M>,
) -> Result<(), AllocError>
    ensures same_history { history.new.items ≡ history.old.items }
    ensures same_start { started (option_map (λ v. v.items) start.new) parts.now.tracked
        ≡ started (option_map (λ v. v.items) start.old) parts.now.tracked }
    ensures err { OnErr result (start.new ≡ start.old) }
    ensures known { OnOk result (IsSome start.new) }
    ensures room { OnOk result (vec_len history.new < vec_capacity history.new) }
{
    history.reserve(1)?;
    // Not when the world is made, since that takes no memory.
    if start.is_none() {
        *start = Some(parts.manager.entries()?);
    }
    Ok(())
}

// The reply to a load with no files; `is_early` says whether only loads came before it.
fn unloaded(is_early: bool) -> Reply
    ensures { result ≡ cond is_early (Refused Io) WrongCall }
{
    if is_early {
        Reply::Refused(ErrorType::Io)
    } else {
        Reply::WrongCall
    }
}

// Saves what the manager tracks.
fn saved_in<M: SavedManager, R: NamedFiles>(
    alloc: Global,
    parts: &Parts<M>,
    files: &R,
    dir: &str,
    suffix: u32,
) -> Reply
    ensures reply { IsFilesReply Save result }
    ensures saved { HasSaved (IsSavedOf M.tracked M.written
        (AreSaved (R.makes files.now) (R.renames files.now) R.File.contents R.File.is_flushed
        dir.now) parts.now.tracked) result }
    ensures cause { HasCause (IsUnsaved (R.refuses files.now) R.File.write_fails) (Unit {0})
        result }
{
    let saved = parts.manager.save(alloc, files, dir, suffix);
    saved_reply(saved)
}

// The reply to a save.
fn saved_reply(saved: Result<()>) -> Reply
    ensures { result ≡ save_reply saved }
{
    match saved {
        Ok(()) => Reply::Done,
        Err(refused) => Reply::Refused(refused.etype()),
    }
}

// Loads what was saved, if only loads came before.
fn load_if<M: SavedManager, R: NamedFiles>(
    alloc: Global,
    parts: &mut Parts<M>,
    files: &R,
    dir: &str,
    is_early: bool,
) -> Reply
    ensures reply { AnswersFiles is_early Load result }
    ensures loaded { IsLoaded
        (Loads (R.opens files.now) R.File.remaining R.File.source (R.refuses files.now)
        R.File.read_fails dir.now M.file_names) M.put_in parts.old.tracked parts.new.tracked
        result }
    ensures cause { HasCause
        ((name : List ℕ) × IsListed name M.file_names × IsUnavailable (R.opens files.now)
        R.File.source (R.refuses files.now) R.File.read_fails (path_join dir.now name))
        ((name : List ℕ) × IsListed name M.file_names × IsForeign (R.opens files.now)
        R.File.remaining (path_join dir.now name)) result }
    ensures late { is_early ≡ false → parts.new.tracked ≡ parts.old.tracked }
    ensures store { parts.new.store ≡ parts.old.store }
    ensures limits { parts.new.limits ≡ parts.old.limits }
    ensures evicted { parts.new.evicted ≡ parts.old.evicted }
    ensures locks { parts.new.locks ≡ parts.old.locks }
{
    if !is_early {
        return Reply::WrongCall;
    }
    match parts.manager.load(alloc, files, dir) {
        Ok(skipped) => Reply::Loaded(skipped),
        Err(refused) => Reply::Refused(refused.etype()),
    }
}

// A reply for the history, and one to return. If the copy fails, that error is the reply.
fn doubled(reply: Reply) -> (Reply, Reply)
    ensures same { result.0 ≡ result.1 }
    ensures copy { IsCopy reply result.0 }
{
    match reply.copied() {
        Ok(copy) => (reply, copy),
        // The call was made, so the caller and the history have the same failure.
        Err(_) => (
            Reply::Refused(ErrorType::OutOfMemory),
            Reply::Refused(ErrorType::OutOfMemory),
        ),
    }
}

// The same events in a vector of exactly their size, if there is memory for one. A vector that is
// shrunk in place leaves a gap behind it that is too small for the next call's vector.
fn fitted(alloc: Global, mut events: Vec<Event>) -> Vec<Event>
    ensures { result.items ≡ events.items }
{
    let Ok(mut exact) = Vec::with_capacity(alloc, events.len()) else {
        return events;
    };
    match exact.append(&mut events) {
        Ok(()) => exact,
        Err(_) => events,
    }
}

// Adds an entry to a history that has room for it.
fn note(alloc: Global, history: &mut Vec<Entry>, call: Call, reply: Reply, events: Vec<Event>)
    requires { vec_len history.old < vec_capacity history.old }
    ensures { history.new.items
        ≡ history.old.items ++ record { call = call; reply = reply; events = events.items } ∷ [] }
{
    history.push_reserved(Entry {
        call,
        reply,
        events: Events::new(fitted(alloc, events)),
    });
}
