//! The meta of a body is set, if it names the write of that body, and the entry is admitted anew if it weighs something else then.
ghost use Rattle.std.specs.Prelude.{◌≡◌, IfErr, IfOk, IsTrue, List, OnErr, OnOk, Some};
ghost use Rattle.pcache_base.specs.declared.error.ErrorType.TheVariants.{OutOfMemory};
ghost use Rattle.pcache_evict.specs.declared.eviction.entry_key.CacheEntryKey as entry_key;
ghost use Rattle.pcache_request.specs.Finishing.{entry_slot};
ghost use Rattle.pcache_request.specs.Renewals.{has_body};
ghost use Rattle.pcache_store.specs.OneResponse.{SetsNameTheirs};
ghost use Rattle.pcache_cache.specs.Parts.{IsKept};
ghost use Rattle.pcache_cache.specs.Renewing.{Readmits, Renews, RenewsOwn, entry_at, is_its_body, weight_at, without_slot};

use crate::weighing::{Weighing, weight_of};
use pcache_base::error::Result;
use pcache_base::key::CacheKey;
use pcache_base::moment::Moment;
use pcache_evict::eviction::{CacheEntryKey, EvictionManager};
use pcache_meta::meta::CacheMeta;
use pcache_request::cache::ending::purge_all;
use pcache_store::memory::MemCache;
use pcache_store::storage::{PurgeTarget, PurgeType, Storage};
use std::alloc::{AllocError, Global};

// An entry twice: once to be admitted, and once so that its removal needs no memory.
#[derive(Drop)]
pub(crate) struct Twice {
    entry: CacheEntryKey,
    copy: CacheEntryKey,
}

// The weight of a key's complete body; zero if there is none.
fn weight_at(weighing: Weighing, store: &MemCache, key: &CacheKey) -> usize
    ensures { result ≡ weight_at weighing store.now.state key.now }
{
    match store.body_lengths(key) {
        Some(lengths) => weight_of(weighing, lengths),
        None => 0,
    }
}

// The entry of a key's complete body.
fn entry_of_body(store: &MemCache, key: &CacheKey) -> Result<Twice, AllocError>
    ensures entry { IfOk result (λ t. t.entry ≡ entry_at store.now.state key.now) }
    ensures copy { IfOk result (λ t. t.copy ≡ t.entry) }
{
    let entry = CacheEntryKey::from_entry_id(key.to_compact()?, store.body_number(key));
    let copy = entry.copied()?;
    Ok(Twice { entry, copy })
}

// Admits an entry anew with this weight, and purges what is evicted for it, in order. If memory is refused for that, the entry is
// removed, and its key purged.
fn admit_anew<M: EvictionManager>(
    store: &mut MemCache,
    manager: &mut M,
    twice: Twice,
    weight: usize,
    fresh_until: Moment,
) -> Result<(), AllocError>
    requires { twice.copy ≡ twice.entry }
    ensures done { OnOk result ((out : List entry_key.CacheEntryKey)
        × Readmits (M.limits manager.old) twice.entry weight out
        (record {
          store = store.old.state;
          past = store.old.past;
          tracked = M.tracked manager.old;
          evicted = M.evicted manager.old;
        }) (record {
          store = store.new.state;
          past = store.new.past;
          tracked = M.tracked manager.new;
          evicted = M.evicted manager.new;
        })) }
    ensures lost { OnErr result (record {
      store = store.new.state;
      past = store.new.past;
      tracked = M.tracked manager.new;
      evicted = M.evicted manager.new;
    }
        ≡ without_slot twice.entry (entry_slot twice.entry)
        (record {
          store = store.old.state;
          past = store.old.past;
          tracked = M.tracked manager.old;
          evicted = M.evicted manager.old;
        })) }
    ensures limits { M.limits manager.new ≡ M.limits manager.old }
{
    let Twice { entry, copy } = twice;
    // An admission of a tracked entry sets its weight. No other call of a manager can lower one.
    match manager.admit(entry, weight, fresh_until) {
        Ok(evicted) => {
            let _failed = purge_all(store, evicted.as_slice());
            drop(copy);
            Ok(())
        }
        Err(refused) => {
            // The entry still has the weight of the old head, which is not what the store keeps
            // now. The bound would be lost, so the body goes too.
            manager.remove(&copy);
            let _ = store.purge(PurgeTarget::Active(copy.key()), PurgeType::Invalidation);
            drop(copy);
            Err(refused)
        }
    }
}

// Sets the meta of a key's complete body, which has this entry, and weighed so much before.
fn set_of_body<M: EvictionManager>(
    alloc: Global,
    weighing: Weighing,
    store: &mut MemCache,
    manager: &mut M,
    key: &CacheKey,
    meta: &CacheMeta,
    twice: Twice,
    before: usize,
) -> Result<bool>
    requires entry { twice.entry ≡ entry_at store.old.state key.now }
    requires copy { twice.copy ≡ twice.entry }
    requires there { IsTrue (has_body store.old.state (Some key.now)) }
    requires before { before ≡ weight_at weighing store.old.state key.now }
    ensures renews { Renews weighing (M.limits manager.old) meta.now (Some key.now) result
        (record {
          store = store.old.state;
          past = store.old.past;
          tracked = M.tracked manager.old;
          evicted = M.evicted manager.old;
        }) (record {
          store = store.new.state;
          past = store.new.past;
          tracked = M.tracked manager.new;
          evicted = M.evicted manager.new;
        }) }
    ensures limits { M.limits manager.new ≡ M.limits manager.old }
{
    // Before the admission: a refusal here leaves body and entry as they were.
    if let Err(refused) = store.update_meta(alloc, key, meta) {
        drop(twice);
        return Err(refused);
    }
    let weight = weight_at(weighing, store, key);
    // Not admitted anew, since that would count as a use of the entry.
    if weight == before {
        drop(twice);
        return Ok(true);
    }
    admit_anew(store, manager, twice, weight, meta.fresh_until())?;
    Ok(true)
}

// Sets the meta of a key's complete body, and returns whether there is one. If its entry weighs something else then, it is admitted
// anew, and what is evicted for it is purged; if memory is refused for that, the body is removed, and its entry too. What is tracked
// of the key is that body's entry, with its weight.
fn set_meta<M: EvictionManager>(
    alloc: Global,
    weighing: Weighing,
    store: &mut MemCache,
    manager: &mut M,
    key: &CacheKey,
    meta: &CacheMeta,
) -> Result<bool>
    ensures renews { Renews weighing (M.limits manager.old) meta.now (Some key.now) result
        (record {
          store = store.old.state;
          past = store.old.past;
          tracked = M.tracked manager.old;
          evicted = M.evicted manager.old;
        }) (record {
          store = store.new.state;
          past = store.new.past;
          tracked = M.tracked manager.new;
          evicted = M.evicted manager.new;
        }) }
    ensures kept { IsKept weighing (M.limits manager.old) (M.tracked manager.old) store.old.state
        → IsKept weighing (M.limits manager.new) (M.tracked manager.new) store.new.state }
    ensures limits { M.limits manager.new ≡ M.limits manager.old }
    ensures kind { IfErr result (λ e. e ≡ OutOfMemory) }
{
    if store.body_lengths(key).is_none() {
        return store.update_meta(alloc, key, meta);
    }
    // Made first, so that a lack of memory for it changes nothing.
    let twice = entry_of_body(store, key)?;
    let before = weight_at(weighing, store, key);
    set_of_body(alloc, weighing, store, manager, key, meta, twice, before)
}

// Whether the complete body of a key is that of the write which a meta names.
fn is_its_body(store: &MemCache, key: &CacheKey, meta: &CacheMeta) -> bool
    ensures { result ≡ is_its_body meta.now (Some key.now) store.now.state }
{
    match meta.entry_id() {
        Some(number) => store.body_number(key) == Some(number),
        None => false,
    }
}

/// Sets the meta of a key's complete body, if that is the body of the write which the meta names, and returns whether it is: of
/// another response's body the meta says nothing. What becomes of the entry is what `set_meta` makes of it.
pub(crate) fn set_own_meta<M: EvictionManager>(
    alloc: Global,
    weighing: Weighing,
    store: &mut MemCache,
    manager: &mut M,
    key: &CacheKey,
    meta: &CacheMeta,
) -> Result<bool>
    ensures renews { RenewsOwn weighing (M.limits manager.old) meta.now (Some key.now) result
        (record {
          store = store.old.state;
          past = store.old.past;
          tracked = M.tracked manager.old;
          evicted = M.evicted manager.old;
        }) (record {
          store = store.new.state;
          past = store.new.past;
          tracked = M.tracked manager.new;
          evicted = M.evicted manager.new;
        }) }
    ensures kept { IsKept weighing (M.limits manager.old) (M.tracked manager.old) store.old.state
        → IsKept weighing (M.limits manager.new) (M.tracked manager.new) store.new.state }
    ensures named { SetsNameTheirs store.old.past → SetsNameTheirs store.new.past }
    ensures limits { M.limits manager.new ≡ M.limits manager.old }
    ensures kind { IfErr result (λ e. e ≡ OutOfMemory) }
{
    // For the prover: a complete body is that of the write of its key that was finished last.
    store.headline();
    if !is_its_body(store, key, meta) {
        return Ok(false);
    }
    set_meta(alloc, weighing, store, manager, key, meta)
}
