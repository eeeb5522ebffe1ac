//! Entries, lists and files that the tests share.
use crate::rows::Told;
use pcache_base::error::Result;
use pcache_base::key::{CacheKey, CompactCacheKey};
use pcache_base::seed::Seed;
use pcache_base::text::Text;
use pcache_evict::eviction::{
    CacheEntryId, CacheEntryKey, EvictionManager, sharded_lru, simple_lru,
};
use std::alloc::Global;

/// The file of one key-only entry, key `aa` with tag `1`, of weight 9.
pub const AA: [u8; 34] = [
    0x91, 0x92, 0x93, 0xDC, 0x00, 0x10, 0xCC, 0xAC, 0x10, 0xCC, 0xF2, 0xCC, 0xAE, 0xCC, 0xF1, 0x17,
    0x72, 0xCC, 0x9F, 0xCC, 0x8D, 0xCC, 0xAD, 0x05, 0x6B, 0x30, 0x59, 0xCC, 0xEB, 0x7E, 0xC0, 0xA1,
    0x31, 0x09,
];

/// The entry of that file.
pub fn aa(alloc: Global) -> Result<CacheEntryKey> {
    let primary = b"aa".to_vec(alloc)?;
    let key = CacheKey::new(primary, String::from_str(alloc, "1")?);
    Ok(CacheEntryKey::key_only(key.to_compact()?))
}

/// An entry whose primary hash repeats a letter.
pub fn letter(alloc: Global, name: u8, id: Option<CacheEntryId>) -> Result<CacheEntryKey> {
    let key = CompactCacheKey {
        primary: [name; 16],
        variance: None,
        user_tag: Text::new(String::from_str(alloc, "1")?),
    };
    Ok(CacheEntryKey::from_entry_id(key, id))
}

/// Writes the entries of a manager, each as a letter, its number and its weight.
pub fn tell_list<E: EvictionManager>(manager: &E, told: &mut Told) {
    match manager.entries() {
        Ok(entries) => tell_entries(entries.as_slice(), told),
        Err(refused) => told.refused(&refused.into()),
    }
}

fn tell_entries(entries: &[(CacheEntryKey, usize)], told: &mut Told) {
    for (entry, size) in entries {
        tell_entry(entry, told);
        told.shown(size);
    }
}

fn tell_entry(entry: &CacheEntryKey, told: &mut Told) {
    told.say(" ");
    told.letter(char::from(entry.key().primary[0]));
    if let Some(id) = entry.entry_id() {
        told.say("#");
        told.number(id.get());
        told.say("=");
    }
}

/// Writes the result of a call that changed a manager, and its entries.
pub fn tell_changed<E: EvictionManager>(made: Result<()>, manager: &E, told: &mut Told) {
    told.done(made);
    tell_list(manager, told);
}

/// A manager that holds an entry `z` of weight 1.
pub fn with_z(alloc: Global) -> Result<simple_lru::Manager> {
    let mut manager = simple_lru::Manager::new(alloc, Seed::fixed(), 4)?;
    manager.load_entry(letter(alloc, b'z', None)?, 1)?;
    Ok(manager)
}

/// A manager that holds the entry of `AA`, of weight 9.
pub fn with_aa(alloc: Global) -> Result<simple_lru::Manager> {
    let mut manager = simple_lru::Manager::new(alloc, Seed::fixed(), 9)?;
    manager.load_entry(aa(alloc)?, 9)?;
    Ok(manager)
}

/// One shard that holds an entry of this weight.
pub fn one_shard(
    alloc: Global,
    limit: usize,
    entry: CacheEntryKey,
    weight: usize,
) -> Result<sharded_lru::Manager<1>> {
    let mut manager = sharded_lru::Manager::<1>::with_capacity(alloc, Seed::fixed(), limit, 1)?;
    manager.load_entries(vec![in alloc; (entry, weight)]?)?;
    Ok(manager)
}
