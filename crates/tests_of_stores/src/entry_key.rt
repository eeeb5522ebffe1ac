//! Keys of entries, owned and borrowed.
use crate::managers;
use crate::rows::Told;
use pcache_base::key::CompactCacheKey;
use pcache_evict::eviction::{CacheEntryId, CacheEntryKey, CacheEntryKeyRef};
use std::alloc::Global;
use std::fmt::Display;
use std::hash::{DefaultHasher, Hash, Hasher};
use test_rows::key_of;

fn seven() -> CacheEntryId {
    CacheEntryId::new(7)
}

// The key with these primary bytes. If memory runs out, it is another one.
fn compact(alloc: Global, primary: &[u8]) -> CompactCacheKey {
    match key_of(alloc, primary, "1").to_compact() {
        Ok(key) => key,
        Err(_refused) => managers::key_of(alloc, 0, ""),
    }
}

// The entry of a key with this number, or without one.
fn entry(alloc: Global, primary: &[u8], id: Option<CacheEntryId>) -> CacheEntryKey {
    CacheEntryKey::from_entry_id(compact(alloc, primary), id)
}

// A key, its only entry and its entry of a number, and the only entry of another key.
#[derive(Drop)]
struct Entries {
    key: CompactCacheKey,
    only: CacheEntryKey,
    seventh: CacheEntryKey,
    other: CacheEntryKey,
}

fn make_entries(alloc: Global) -> Entries {
    Entries {
        key: compact(alloc, b"aa"),
        only: entry(alloc, b"aa", None),
        seventh: entry(alloc, b"aa", Some(seven())),
        other: entry(alloc, b"b", None),
    }
}

fn hash_of<T: Hash>(value: &T) -> u64 {
    let mut hasher = DefaultHasher::new();
    value.hash(&mut hasher);
    hasher.finish()
}

fn is_key_only(entry: &CacheEntryKey, key: &CompactCacheKey) -> bool {
    match key.copied() {
        Ok(key) => *entry == CacheEntryKey::key_only(key),
        Err(_refused) => false,
    }
}

fn is_seventh(entry: &CacheEntryKey, key: &CompactCacheKey) -> bool {
    match key.copied() {
        Ok(key) => *entry == CacheEntryKey::identified(key, seven()),
        Err(_refused) => false,
    }
}

fn have_their_parts(it: &Entries) -> bool {
    is_key_only(&it.only, &it.key)
        && is_seventh(&it.seventh, &it.key)
        && it.seventh != it.only
        && it.only.entry_id().is_none()
        && it.seventh.entry_id() == Some(seven())
        && *it.seventh.key() == it.key
}

fn refers_to_only(it: &Entries) -> bool {
    CacheEntryKeyRef::key_only(&it.key) == CacheEntryKeyRef::from_entry_id(&it.key, None)
}

fn refers_to_seventh(it: &Entries) -> bool {
    CacheEntryKeyRef::from(&it.seventh) == CacheEntryKeyRef::from_entry_id(&it.key, Some(seven()))
}

fn refer(it: &Entries) -> bool {
    refers_to_only(it)
        && refers_to_seventh(it)
        && *CacheEntryKeyRef::from(&it.seventh).key() == it.key
        && CacheEntryKeyRef::from(&it.seventh).entry_id() == Some(seven())
}

fn is_copied(it: &Entries) -> bool {
    match CacheEntryKeyRef::identified(&it.key, seven()).copied() {
        Ok(owned) => is_seventh(&owned, &it.key),
        Err(_refused) => false,
    }
}

fn hash_alike(it: &Entries) -> bool {
    hash_of(&it.only) == hash_of(&CacheEntryKeyRef::from(&it.only))
        && hash_of(&it.seventh) == hash_of(&CacheEntryKeyRef::from(&it.seventh))
        && hash_of(&it.only) != hash_of(&it.seventh)
}

// The entries of a key are ordered by their numbers, and one without a number comes first.
fn stand_in_order(alloc: Global, it: &Entries) -> bool {
    it.seventh < entry(alloc, b"aa", Some(CacheEntryId::new(8))) && stand_before(it)
}

fn stand_before(it: &Entries) -> bool {
    it.only < it.seventh
        && it.other < it.seventh
        && it.only.cmp(&it.other) == it.other.cmp(&it.only).reverse()
}

fn prints_as<T: Display>(told: &mut Told, it: &T, wanted: &str) -> bool {
    told.clear();
    told.shown(it);
    told.is(wanted)
}

fn print_their_numbers(told: &mut Told, it: &Entries) -> bool {
    let only = "ac10f2aef117729f8dad056b3059eb7e, user_tag: 1";
    let seventh = "ac10f2aef117729f8dad056b3059eb7e, user_tag: 1, entry ID: 7";
    prints_as(told, &it.only, only)
        && prints_as(told, &it.seventh, seventh)
        && prints_as(told, &CacheEntryKeyRef::from(&it.seventh), seventh)
}

fn prints_in_hexadecimal_digits(alloc: Global, told: &mut Told) -> bool {
    let wanted = "ac10f2aef117729f8dad056b3059eb7e, user_tag: 1, entry ID: ff";
    prints_as(
        told,
        &entry(alloc, b"aa", Some(CacheEntryId::new(255))),
        wanted,
    )
}

fn comes_back(it: Entries) -> bool {
    let Entries { key, seventh, .. } = it;
    seventh.into_key() == key
}

#[test]
fn parts_come_back_and_references_refer(rt: HostRuntime) {
    let it = make_entries(rt.alloc());
    let is_good = have_their_parts(&it) && refer(&it) && is_copied(&it) && comes_back(it);
    assert!(rt; is_good && seven().get() == 7);
}

#[test]
fn hashes_and_order(rt: HostRuntime) {
    let it = make_entries(rt.alloc());
    assert!(rt; hash_alike(&it) && stand_in_order(rt.alloc(), &it));
}

#[test]
fn keys_print_their_numbers(rt: HostRuntime) {
    let alloc = rt.alloc();
    let mut told = Told::new(alloc);
    let is_good = print_their_numbers(&mut told, &make_entries(alloc));
    assert!(rt; is_good && prints_in_hexadecimal_digits(alloc, &mut told));
}
