//! The eviction managers.
ghost use Rattle.std.specs.Prelude.{◌≡◌, ◌≢◌, [], None, is_some, length, ⊤};
ghost use Rattle.pcache_c.specs.Codes.{OnGood, code_in, hash_at, hashes_at, moment_at, watermark_at};
ghost use Rattle.pcache_c.specs.Handles.{AsksOf, ChangesOf, IsSame, OnHandle, OnKind, Turns};
ghost use Rattle.pcache_c.specs.Managers.{Accesses, Admits, HandsFirst, Increments, IsFileOf, Loads, LoadsInto, MakesList, MakesShards, OnEntry, Peeks, Removes, Saves, SaysTotals, Shows, WritesTag, as_manager, list_saved, managing, with_list, with_shards};

use crate::codes::{BAD_HANDLE, BAD_VALUE, NO_MEMORY, NONE, OK, WRONG_CALL, WRONG_KIND, code_of};
use crate::entries::{PcacheEntry, entry_from};
use crate::handle::PcacheHandle;
use crate::hashes::{copy_out, hash_from};
use crate::metas::moment_of;
use crate::object::Object;
use pcache_base::moment::Moment;
use pcache_base::seed::Seed;
use pcache_evict::eviction::{CacheEntryKey, EvictionManager, sharded_lru, simple_lru};
use pcache_files::{sharded_lru as sharded_files, simple_lru as simple_files};
use std::alloc::Global;
use std::collections::VecDeque;

/// A manager, with the evicted entries that were not returned yet.
#[derive(Drop)]
pub struct Managed<M: EvictionManager> {
    /// The manager.
    pub manager: M,
    /// The evicted entries that are still to be returned.
    pub waiting: VecDeque<CacheEntryKey>,
    /// The entry that was returned last.
    pub shown: Option<CacheEntryKey>,
}

impl<M: EvictionManager> Managed<M> {
    fn new(alloc: Global, manager: M) -> Managed<M>
        ensures manager { result.manager ≡ manager }
        ensures waiting { result.waiting.items ≡ [] }
        ensures shown { result.shown ≡ None }
    {
        Managed {
            manager,
            waiting: VecDeque::new(alloc),
            shown: None,
        }
    }

    // Admits, unless evicted entries wait: of a caller who forgot them the cache would keep bodies that nothing tracks.
    fn admit(&mut self, item: CacheEntryKey, weight: usize, fresh_until: Moment) -> u32
        ensures { Admits item weight (managing M.tracked M.limits M.evicted self.old)
            (managing M.tracked M.limits M.evicted self.new) result }
    {
        if !self.waiting.is_empty() {
            return WRONG_CALL;
        }
        match self.manager.admit(item, weight, fresh_until) {
            Ok(out) => {
                self.waiting = VecDeque::from(out);
                OK
            }
            Err(refused) => code_of(refused.into()),
        }
    }

    // Adds to a weight, unless evicted entries wait.
    fn increment(&mut self, item: &CacheEntryKey, delta: usize, most: Option<usize>) -> u32
        ensures { Increments item.now delta most (managing M.tracked M.limits M.evicted self.old)
            (managing M.tracked M.limits M.evicted self.new) result }
    {
        if !self.waiting.is_empty() {
            return WRONG_CALL;
        }
        match self.manager.increment_weight(item, delta, most) {
            Ok(out) => {
                self.waiting = VecDeque::from(out);
                OK
            }
            Err(refused) => code_of(refused.into()),
        }
    }

    // Records a use.
    fn access(
        &mut self,
        item: &CacheEntryKey,
        weight: usize,
        fresh_until: Moment,
        was: &mut u32,
    ) -> u32
        ensures { Accesses item.now weight (managing M.tracked M.limits M.evicted self.old)
            (managing M.tracked M.limits M.evicted self.new) was.new result }
    {
        match self.manager.access(item, weight, fresh_until) {
            Ok(found) => {
                *was = u32::from(found);
                OK
            }
            Err(refused) => code_of(refused.into()),
        }
    }

    // Removes an entry.
    fn remove(&mut self, item: &CacheEntryKey) -> u32
        ensures { Removes item.now (managing M.tracked M.limits M.evicted self.old)
            (managing M.tracked M.limits M.evicted self.new) result }
    {
        self.manager.remove(item);
        OK
    }

    // Whether an entry is there.
    fn peek(&self, item: &CacheEntryKey, was: &mut u32) -> u32
        ensures { Peeks item.now (managing M.tracked M.limits M.evicted self.now) was.new result }
    {
        *was = u32::from(self.manager.peek(item));
        OK
    }

    fn totals(&self, out: &mut PcacheTotals) -> u32
        ensures done { result ≡ 0 }
        ensures says { SaysTotals (managing M.tracked M.limits M.evicted self.now) out.new }
    {
        out.weight = self.manager.total_size();
        out.entries = self.manager.total_items();
        out.evicted_weight = self.manager.evicted_size();
        out.evicted_entries = self.manager.evicted_items();
        out.waiting = self.waiting.len();
        OK
    }

    // Hands over the next entry that was evicted.
    fn next(&mut self, primary: &mut [u8], variance: &mut [u8], out: &mut PcacheEntry) -> u32
        requires primary { length primary.old ≡ 16 }
        requires variance { length variance.old ≡ 16 }
        ensures hands { HandsFirst (managing M.tracked M.limits M.evicted self.old)
            (managing M.tracked M.limits M.evicted self.new) primary.new variance.new variance.old
            out.new result }
        ensures left { result ≢ 0
            → (primary.new ≡ primary.old) × (variance.new ≡ variance.old) }
    {
        let Some(entry) = self.waiting.pop_front() else {
            return NONE;
        };
        show(&entry, primary, variance, out);
        self.shown = Some(entry);
        OK
    }

    // The tag of the entry that was handed over last.
    fn tag(&self, out: &mut [u8]) -> u32
        ensures { WritesTag self.now.shown out.old out.new result }
    {
        match &self.shown {
            Some(entry) => copy_out(entry.key().user_tag.as_str().as_bytes(), out),
            None => NONE,
        }
    }
}

// Says what an entry is.
fn show(entry: &CacheEntryKey, primary: &mut [u8], variance: &mut [u8], out: &mut PcacheEntry)
    requires primary { length primary.old ≡ 16 }
    requires variance { length variance.old ≡ 16 }
    ensures { Shows entry.now primary.new variance.new variance.old out.new }
{
    let key = entry.key();
    primary.copy_from_slice(&key.primary);
    out.has_variance = 0;
    if let Some(hash) = &key.variance {
        variance.copy_from_slice(hash);
        out.has_variance = 1;
    }
    out.tag_len = key.user_tag.as_str().len();
    out.has_id = 0;
    out.id = 0;
    if let Some(id) = entry.entry_id() {
        out.id = id.get();
        out.has_id = 1;
    }
}

/// The totals of a manager. A sum that does not fit is the largest number.
#[repr(C)]
#[derive(Clone, Copy)]
pub struct PcacheTotals {
    /// The sum of the entries' weights.
    pub weight: usize,
    /// The number of entries.
    pub entries: usize,
    /// The sum of the weights of all evicted entries.
    pub evicted_weight: usize,
    /// The number of entries that were evicted.
    pub evicted_entries: usize,
    /// The number of evicted entries that are still to be returned.
    pub waiting: usize,
}

// The seed of 16 bytes that the caller drew. No answer shows it.
pub(crate) fn seed_of(seed: &[u8]) -> Option<Seed>
    ensures { is_some result ≡ is_some (hash_at seed.now) }
{
    match hash_from(seed) {
        Some(seed) => Some(Seed::new(seed)),
        None => None,
    }
}

/// A watermark of 0 is none.
pub(crate) fn watermark_of(watermark: usize) -> Option<usize>
    ensures { result ≡ watermark_at watermark }
{
    if watermark == 0 {
        None
    } else {
        Some(watermark)
    }
}

/// A manager with one list: its entries weigh at most `limit` after each eviction, and number at
/// most `watermark` unless that is 0. The seed is 16 bytes that the caller drew at random.
#[unsafe(no_mangle)]
pub extern "C" fn pcache_simple_lru_new(
    alloc: Global,
    handle: &mut PcacheHandle,
    seed: &[u8],
    limit: usize,
    watermark: usize,
) -> u32
    ensures { OnGood (hash_at seed.now) result (IsSame handle.old handle.new) (λ s.
        MakesList limit (watermark_at watermark) handle.old handle.new result) }
{
    let Some(seed) = seed_of(seed) else {
        return BAD_VALUE;
    };
    match simple_lru::Manager::new_with_watermark(alloc, seed, limit, watermark_of(watermark)) {
        Ok(manager) => handle.fill(alloc, Object::Simple(Managed::new(alloc, manager))),
        Err(_) => NO_MEMORY,
    }
}

/// A manager in 16 shards, with the same limits over all of them.
#[unsafe(no_mangle)]
pub extern "C" fn pcache_sharded_lru_new(
    alloc: Global,
    handle: &mut PcacheHandle,
    seed: &[u8],
    limit: usize,
    watermark: usize,
) -> u32
    ensures { OnGood (hash_at seed.now) result (IsSame handle.old handle.new) (λ s.
        MakesShards limit (watermark_at watermark) handle.old handle.new result) }
{
    let Some(seed) = seed_of(seed) else {
        return BAD_VALUE;
    };
    let watermark = watermark_of(watermark);
    match sharded_lru::Manager::<16>::with_capacity_and_watermark(
        alloc, seed, limit, 0, watermark,
    ) {
        Ok(manager) => handle.fill(alloc, Object::Sharded(Managed::new(alloc, manager))),
        Err(_) => NO_MEMORY,
    }
}

fn admit(object: &mut Object, item: CacheEntryKey, weight: usize, fresh_until: Moment) -> u32
    ensures { Turns as_manager object.old object.new result (λ m n. Admits item weight m n result) }
{
    match object {
        Object::Simple(managed) => managed.admit(item, weight, fresh_until),
        Object::Sharded(managed) => managed.admit(item, weight, fresh_until),
        _ => WRONG_KIND,
    }
}

/// Sets the weight of an entry, and evicts until the limits hold. The evicted entries are reported
/// by `pcache_manager_next`; until all were, another admission is the wrong call.
#[unsafe(no_mangle)]
pub extern "C" fn pcache_manager_admit(
    alloc: Global,
    manager: &mut PcacheHandle,
    primary: &[u8],
    variance: &[u8],
    tag: &[u8],
    entry: &PcacheEntry,
    weight: usize,
    fresh_until_secs: u64,
    fresh_until_nanos: u32,
) -> u32
    ensures { OnGood (moment_at fresh_until_secs fresh_until_nanos) result
        (IsSame manager.old manager.new)
        (λ until. OnEntry primary.now variance.now tag.now entry.now result
        (IsSame manager.old manager.new)
        (λ item. ChangesOf as_manager manager.old manager.new result (λ m n.
        Admits item weight m n result))) }
{
    let Some(fresh_until) = moment_of(fresh_until_secs, fresh_until_nanos) else {
        return BAD_VALUE;
    };
    let item = match entry_from(alloc, primary, variance, tag, entry) {
        Ok(item) => item,
        Err(code) => return code,
    };
    let Some(mut object) = manager.take(alloc) else {
        return BAD_HANDLE;
    };
    let code = admit(&mut *object, item, weight, fresh_until);
    manager.put(object);
    code
}

fn increment(object: &mut Object, item: &CacheEntryKey, delta: usize, most: Option<usize>) -> u32
    ensures { Turns as_manager object.old object.new result (λ m n.
        Increments item.now delta most m n result) }
{
    match object {
        Object::Simple(managed) => managed.increment(item, delta, most),
        Object::Sharded(managed) => managed.increment(item, delta, most),
        _ => WRONG_KIND,
    }
}

/// Adds to the weight of an entry, up to `most` (0 for no such bound), and evicts as an admission
/// does.
#[unsafe(no_mangle)]
pub extern "C" fn pcache_manager_increment(
    alloc: Global,
    manager: &mut PcacheHandle,
    primary: &[u8],
    variance: &[u8],
    tag: &[u8],
    entry: &PcacheEntry,
    delta: usize,
    most: usize,
) -> u32
    ensures { OnEntry primary.now variance.now tag.now entry.now result
        (IsSame manager.old manager.new)
        (λ item. ChangesOf as_manager manager.old manager.new result (λ m n.
        Increments item delta (watermark_at most) m n result)) }
{
    let item = match entry_from(alloc, primary, variance, tag, entry) {
        Ok(item) => item,
        Err(code) => return code,
    };
    let Some(mut object) = manager.take(alloc) else {
        return BAD_HANDLE;
    };
    let code = increment(&mut *object, &item, delta, watermark_of(most));
    manager.put(object);
    code
}

fn access(
    object: &mut Object,
    item: &CacheEntryKey,
    weight: usize,
    fresh_until: Moment,
    was: &mut u32,
) -> u32
    ensures { Turns as_manager object.old object.new result (λ m n.
        Accesses item.now weight m n was.new result) }
{
    match object {
        Object::Simple(managed) => managed.access(item, weight, fresh_until, was),
        Object::Sharded(managed) => managed.access(item, weight, fresh_until, was),
        _ => WRONG_KIND,
    }
}

/// Records a use of an entry, and reports whether it was tracked: 1 or 0. One that was not is added
/// with this weight, and nothing is evicted.
#[unsafe(no_mangle)]
pub extern "C" fn pcache_manager_access(
    alloc: Global,
    manager: &mut PcacheHandle,
    primary: &[u8],
    variance: &[u8],
    tag: &[u8],
    entry: &PcacheEntry,
    weight: usize,
    fresh_until_secs: u64,
    fresh_until_nanos: u32,
    was: &mut u32,
) -> u32
    ensures { OnGood (moment_at fresh_until_secs fresh_until_nanos) result
        (IsSame manager.old manager.new)
        (λ until. OnEntry primary.now variance.now tag.now entry.now result
        (IsSame manager.old manager.new)
        (λ item. ChangesOf as_manager manager.old manager.new result (λ m n.
        Accesses item weight m n was.new result))) }
{
    let Some(fresh_until) = moment_of(fresh_until_secs, fresh_until_nanos) else {
        return BAD_VALUE;
    };
    let item = match entry_from(alloc, primary, variance, tag, entry) {
        Ok(item) => item,
        Err(code) => return code,
    };
    let Some(mut object) = manager.take(alloc) else {
        return BAD_HANDLE;
    };
    let code = access(&mut *object, &item, weight, fresh_until, was);
    manager.put(object);
    code
}

fn remove(object: &mut Object, item: &CacheEntryKey) -> u32
    ensures { Turns as_manager object.old object.new result (λ m n. Removes item.now m n result) }
{
    match object {
        Object::Simple(managed) => managed.remove(item),
        Object::Sharded(managed) => managed.remove(item),
        _ => WRONG_KIND,
    }
}

/// Removes an entry, if it is tracked. That is no eviction.
#[unsafe(no_mangle)]
pub extern "C" fn pcache_manager_remove(
    alloc: Global,
    manager: &mut PcacheHandle,
    primary: &[u8],
    variance: &[u8],
    tag: &[u8],
    entry: &PcacheEntry,
) -> u32
    ensures { OnEntry primary.now variance.now tag.now entry.now result
        (IsSame manager.old manager.new)
        (λ item.
        ChangesOf as_manager manager.old manager.new result (λ m n. Removes item m n result)) }
{
    let item = match entry_from(alloc, primary, variance, tag, entry) {
        Ok(item) => item,
        Err(code) => return code,
    };
    let Some(mut object) = manager.take(alloc) else {
        return BAD_HANDLE;
    };
    let code = remove(&mut *object, &item);
    manager.put(object);
    code
}

fn peek(object: &Object, item: &CacheEntryKey, was: &mut u32) -> u32
    ensures { OnKind (as_manager object.now) result ⊤ (λ m. Peeks item.now m was.new result) }
{
    match object {
        Object::Simple(managed) => managed.peek(item, was),
        Object::Sharded(managed) => managed.peek(item, was),
        _ => WRONG_KIND,
    }
}

/// Reports whether an entry is tracked: 1 or 0. That does not count as a use.
#[unsafe(no_mangle)]
pub extern "C" fn pcache_manager_peek(
    alloc: Global,
    manager: &mut PcacheHandle,
    primary: &[u8],
    variance: &[u8],
    tag: &[u8],
    entry: &PcacheEntry,
    was: &mut u32,
) -> u32
    ensures says { OnEntry primary.now variance.now tag.now entry.now result
        (IsSame manager.old manager.new)
        (λ item. AsksOf as_manager manager.old result ⊤ (λ m. Peeks item m was.new result)) }
    ensures same { IsSame manager.old manager.new }
{
    let item = match entry_from(alloc, primary, variance, tag, entry) {
        Ok(item) => item,
        Err(code) => return code,
    };
    let Some(object) = manager.take(alloc) else {
        return BAD_HANDLE;
    };
    let code = peek(&*object, &item, was);
    manager.put(object);
    code
}

fn totals(object: &Object, out: &mut PcacheTotals) -> u32
    ensures { OnKind (as_manager object.now) result (out.new ≡ out.old) (λ m.
        (result ≡ 0) × SaysTotals m out.new) }
{
    match object {
        Object::Simple(managed) => managed.totals(out),
        Object::Sharded(managed) => managed.totals(out),
        _ => WRONG_KIND,
    }
}

/// The totals of a manager.
#[unsafe(no_mangle)]
pub extern "C" fn pcache_manager_totals(
    alloc: Global,
    manager: &mut PcacheHandle,
    out: &mut PcacheTotals,
) -> u32
    ensures says { AsksOf as_manager manager.old result (out.new ≡ out.old) (λ m.
        (result ≡ 0) × SaysTotals m out.new) }
    ensures same { IsSame manager.old manager.new }
{
    let Some(object) = manager.take(alloc) else {
        return BAD_HANDLE;
    };
    let code = totals(&*object, out);
    manager.put(object);
    code
}

fn next(object: &mut Object, primary: &mut [u8], variance: &mut [u8], out: &mut PcacheEntry) -> u32
    requires primary { length primary.old ≡ 16 }
    requires variance { length variance.old ≡ 16 }
    ensures hands { Turns as_manager object.old object.new result (λ m n.
        HandsFirst m n primary.new variance.new variance.old out.new result) }
    ensures left { result ≢ 0 → (primary.new ≡ primary.old) × (variance.new ≡ variance.old) }
{
    match object {
        Object::Simple(managed) => managed.next(primary, variance, out),
        Object::Sharded(managed) => managed.next(primary, variance, out),
        _ => WRONG_KIND,
    }
}

/// Hands over the next entry that was evicted: its primary hash and its variance go to buffers of
/// 16. There is nothing to hand over once all were.
#[unsafe(no_mangle)]
pub extern "C" fn pcache_manager_next(
    alloc: Global,
    manager: &mut PcacheHandle,
    primary: &mut [u8],
    variance: &mut [u8],
    out: &mut PcacheEntry,
) -> u32
    ensures hands { OnGood (hashes_at primary.old variance.old) result
        (IsSame manager.old manager.new)
        (λ room. ChangesOf as_manager manager.old manager.new result (λ m n.
        HandsFirst m n primary.new variance.new variance.old out.new result)) }
    ensures left { result ≢ 0 → (primary.new ≡ primary.old) × (variance.new ≡ variance.old) }
{
    if primary.len() != 16 || variance.len() != 16 {
        return BAD_VALUE;
    }
    let Some(mut object) = manager.take(alloc) else {
        return BAD_HANDLE;
    };
    let code = next(&mut *object, primary, variance, out);
    manager.put(object);
    code
}

fn tag(object: &Object, out: &mut [u8]) -> u32
    ensures { OnKind (as_manager object.now) result (out.new ≡ out.old) (λ m.
        WritesTag m.shown out.old out.new result) }
{
    match object {
        Object::Simple(managed) => managed.tag(out),
        Object::Sharded(managed) => managed.tag(out),
        _ => WRONG_KIND,
    }
}

/// The tag of the entry that was handed over last, to a buffer that is long enough.
#[unsafe(no_mangle)]
pub extern "C" fn pcache_manager_tag(
    alloc: Global,
    manager: &mut PcacheHandle,
    out: &mut [u8],
) -> u32
    ensures writes { AsksOf as_manager manager.old result (out.new ≡ out.old) (λ m.
        WritesTag m.shown out.old out.new result) }
    ensures same { IsSame manager.old manager.new }
{
    let Some(object) = manager.take(alloc) else {
        return BAD_HANDLE;
    };
    let code = tag(&*object, out);
    manager.put(object);
    code
}

// The file of a list of one list, or of a shard of 16.
fn bytes_of(alloc: Global, object: &Object, shard: usize) -> Result<Vec<u8>, u32>
    ensures { OnKind (list_saved object.now shard) (code_in result) ⊤ (λ list.
        OnGood list (code_in result) ⊤ (λ l. IsFileOf l result)) }
{
    let bytes = match object {
        Object::Simple(managed) if shard == 0 => simple_files::serialize(alloc, &managed.manager),
        Object::Sharded(managed) if shard < 16 => {
            sharded_files::serialize_shard(alloc, &managed.manager, shard)
        }
        Object::Simple(_) | Object::Sharded(_) => return Err(BAD_VALUE),
        _ => return Err(WRONG_KIND),
    };
    match bytes {
        Ok(bytes) => Ok(bytes),
        Err(e) => Err(code_of(e)),
    }
}

fn save(alloc: Global, object: &Object, shard: usize, out: &mut [u8], len: &mut usize) -> u32
    ensures { OnKind (list_saved object.now shard) result (out.new ≡ out.old) (λ list.
        OnGood list result (out.new ≡ out.old) (λ l. Saves l out.old out.new len.new result)) }
{
    match bytes_of(alloc, object, shard) {
        Ok(bytes) => {
            *len = bytes.len();
            copy_out(bytes.as_slice(), out)
        }
        Err(code) => code,
    }
}

/// The file of a list, to a buffer: shard 0 of a manager with one list, 0 to 15 of one in shards.
/// Its length is reported in any case; if the buffer is too short, nothing is written and the value
/// is bad.
#[unsafe(no_mangle)]
pub extern "C" fn pcache_manager_save(
    alloc: Global,
    manager: &mut PcacheHandle,
    shard: usize,
    out: &mut [u8],
    len: &mut usize,
) -> u32
    ensures saves { AsksOf (λ a. list_saved a shard) manager.old result (out.new ≡ out.old) (λ list.
        OnGood list result (out.new ≡ out.old) (λ l. Saves l out.old out.new len.new result)) }
    ensures same { IsSame manager.old manager.new }
{
    let Some(object) = manager.take(alloc) else {
        return BAD_HANDLE;
    };
    let code = save(alloc, &*object, shard, out, len);
    manager.put(object);
    code
}

fn load_list(alloc: Global, managed: &mut Managed<simple_lru::Manager>, bytes: &[u8]) -> u32
    ensures { LoadsInto (with_list managed.old) managed.old managed.new bytes.now result }
{
    match simple_files::deserialize(alloc, &mut managed.manager, bytes) {
        Ok(()) => OK,
        Err(e) => code_of(e),
    }
}

fn load_shards(alloc: Global, managed: &mut Managed<sharded_lru::Manager<16>>, bytes: &[u8]) -> u32
    ensures { LoadsInto (with_shards managed.old) managed.old managed.new bytes.now result }
{
    match sharded_files::deserialize_shard(alloc, &mut managed.manager, bytes) {
        Ok(()) => OK,
        Err(e) => code_of(e),
    }
}

fn load(alloc: Global, object: &mut Object, bytes: &[u8]) -> u32
    ensures { Loads object.old object.new bytes.now result }
{
    match object {
        Object::Simple(managed) => load_list(alloc, managed, bytes),
        Object::Sharded(managed) => load_shards(alloc, managed, bytes),
        _ => WRONG_KIND,
    }
}

/// Puts in the list that the bytes of a file spell. Nothing is evicted, and an entry that is there
/// keeps its weight.
#[unsafe(no_mangle)]
pub extern "C" fn pcache_manager_load(
    alloc: Global,
    manager: &mut PcacheHandle,
    bytes: &[u8],
) -> u32
    ensures { OnHandle manager.old manager.new result (λ a b. Loads a b bytes.now result) }
{
    let Some(mut object) = manager.take(alloc) else {
        return BAD_HANDLE;
    };
    let code = load(alloc, &mut *object, bytes);
    manager.put(object);
    code
}
