//! The keys of entries that eviction managers know.
ghost use Rattle.std.specs.Prelude.{◌≡◌, ◌++◌, ℕ, IfOk, None, Some, refl};
ghost use Rattle.std.specs.List.{fold};
ghost use Rattle.std.specs.Cmp.{partial_equiv_from_equiv};
ghost use Rattle.pcache_base.specs.Key.{number_of};
ghost use Rattle.pcache_evict.specs.Entry.{compact_writes, id_writes};

use pcache_base::entry_id::CacheEntryId;
use pcache_base::key::{CompactCacheKey, HashBinary};
use std::alloc::AllocError;
use std::cmp::Ordering;
use std::fmt;
use std::hash::{Hash, Hasher};

/// The key of an entry of an eviction manager: a stored key alone, or a stored key with the number
/// of one of its entries. Entries with different numbers, or with and without one, are different.
#[derive(Debug, Drop)]
pub enum CacheEntryKey {
    /// The only entry of its key.
    KeyOnly(CompactCacheKey),
    /// One of several entries of a key.
    Identified {
        /// What the entry is stored under.
        key: CompactCacheKey,
        /// Which of the key's entries it is.
        id: CacheEntryId,
    },
}

// The primary hash as a number, which a hasher takes in one step.
#[tactic(auto, unfolding(pcache_base::specs::Key::number_of))]
fn number(hash: HashBinary) -> u128
    ensures { result ≡ number_of hash }
{
    u128::from_be_bytes(hash)
}

// Feeds a hasher with an entry's key and number in as few steps as there are parts: each step of a hash under a
// seed has a cost, and absent parts are not fed.
#[inline(always)]
fn feed<H: Hasher>(key: &CompactCacheKey, id: Option<CacheEntryId>, state: &mut H)
    ensures { state.new ≡ fold H.write state.old (compact_writes key.now ++ id_writes id) }
{
    state.write_u128(number(key.primary));
    if let Some(variance) = key.variance {
        state.write_u128(number(variance));
    }
    state.write(key.user_tag.as_str().as_bytes());
    if let Some(id) = id {
        state.write_u64(id.get());
    }
}

impl CacheEntryKey {
    ghost use Rattle.pcache_evict.specs.Entry.{entry_with, key_of, id_of};

    /// The entry of a key with this number; the key's only entry if there is no number.
    pub fn from_entry_id(key: CompactCacheKey, id: Option<CacheEntryId>) -> CacheEntryKey
        ensures { result ≡ entry_with key id }
    {
        match id {
            Some(id) => CacheEntryKey::Identified { key, id },
            None => CacheEntryKey::KeyOnly(key),
        }
    }

    /// The only entry of a key.
    pub fn key_only(key: CompactCacheKey) -> CacheEntryKey
        ensures { result ≡ entry_with key None }
    {
        CacheEntryKey::from_entry_id(key, None)
    }

    /// The entry of a key with this number.
    pub fn identified(key: CompactCacheKey, id: CacheEntryId) -> CacheEntryKey
        ensures { result ≡ entry_with key (Some id) }
    {
        CacheEntryKey::from_entry_id(key, Some(id))
    }

    /// What the entry is stored under.
    pub fn key(&self) -> &CompactCacheKey
        ensures { result.now ≡ key_of self.now }
    {
        match self {
            CacheEntryKey::KeyOnly(key) => key,
            CacheEntryKey::Identified { key, .. } => key,
        }
    }

    /// What the entry is stored under, by value.
    pub fn into_key(self) -> CompactCacheKey
        ensures { result ≡ key_of self }
    {
        match self {
            CacheEntryKey::KeyOnly(key) => key,
            CacheEntryKey::Identified { key, .. } => key,
        }
    }

    /// The entry's number, if it has one.
    pub fn entry_id(&self) -> Option<CacheEntryId>
        ensures { result ≡ id_of self.now }
    {
        match self {
            CacheEntryKey::KeyOnly(_) => None,
            CacheEntryKey::Identified { id, .. } => Some(*id),
        }
    }

    /// A copy of this key. Fails only when memory runs out.
    pub fn copied(&self) -> Result<CacheEntryKey, AllocError>
        ensures ok { IfOk result (λ copy. copy ≡ self.now) }
    {
        match self {
            CacheEntryKey::KeyOnly(key) => Ok(CacheEntryKey::KeyOnly(key.copied()?)),
            CacheEntryKey::Identified { key, id } => Ok(CacheEntryKey::Identified {
                key: key.copied()?,
                id: *id,
            }),
        }
    }
}

impl PartialEq for CacheEntryKey {
    ghost use Rattle.pcache_evict.specs.Entry.{entry_eq, entry_equiv};

    ghost eq = { entry_eq };

    ghost laws = { partial_equiv_from_equiv entry_equiv };

    fn eq(&self, other: &CacheEntryKey) -> bool {
        self.key() == other.key() && self.entry_id() == other.entry_id()
    }
}

impl Eq for CacheEntryKey {
    ghost use Rattle.pcache_evict.specs.Entry.{entry_equiv};

    ghost laws = { entry_equiv };
}

/// Hashes the key and then the number, so that a `CacheEntryKeyRef` hashes alike.
impl Hash for CacheEntryKey {
    ghost use Rattle.pcache_evict.specs.Entry.{entry_writes, entry_alike};

    ghost hash_input = { entry_writes };

    ghost respects_eq = { entry_alike.fed };

    fn hash<H: Hasher>(&self, state: &mut H) {
        feed(self.key(), self.entry_id(), state);
    }
}

impl PartialOrd for CacheEntryKey {
    ghost use Rattle.pcache_evict.specs.Entry.{entry_cmp, entries_po};

    ghost partial_cmp = { λ a b. Some (entry_cmp a b) };

    ghost laws = { entries_po };

    fn partial_cmp(&self, other: &CacheEntryKey) -> Option<Ordering> {
        Some(self.cmp(other))
    }
}

/// Entries without a number come before those with one; then the keys decide, then the numbers.
impl Ord for CacheEntryKey {
    ghost use Rattle.pcache_evict.specs.Entry.{entry_cmp, entries_total, entry_ties};

    ghost cmp = { entry_cmp };

    ghost total = { entries_total };

    ghost matches_partial_cmp = { λ a b. refl };

    ghost matches_eq = { entry_ties };

    fn cmp(&self, other: &CacheEntryKey) -> Ordering {
        // As the Rust derives it on the enum: entries without a number come before all with one.
        let has_id = self.entry_id().is_some();
        has_id
            .cmp(&other.entry_id().is_some())
            .then(self.key().cmp(other.key()))
            .then(self.entry_id().cmp(&other.entry_id()))
    }
}

/// The key, then `, entry ID: ` and the number in hexadecimal if there is one.
impl fmt::Display for CacheEntryKey {
    fn fmt<W: fmt::Write>(&self, f: &mut fmt::Formatter<W>) -> fmt::Result {
        CacheEntryKeyRef::from(self).fmt(f)
    }
}

/// The key of an entry, with the stored key by reference: for look-ups by a caller that has no
/// owned key.
#[derive(Clone, Copy, Debug)]
pub enum CacheEntryKeyRef<'a> {
    /// The only entry of its key.
    KeyOnly(&'a CompactCacheKey),
    /// One of several entries of a key.
    Identified {
        /// What the entry is stored under.
        key: &'a CompactCacheKey,
        /// Which of the key's entries it is.
        id: CacheEntryId,
    },
}

impl<'a> CacheEntryKeyRef<'a> {
    ghost use Rattle.pcache_evict.specs.Entry.{entry_with, key_of, id_of};
    ghost use Rattle.pcache_evict.specs.EntryRef.{referred};

    /// The entry of a key with this number; the key's only entry if there is no number.
    pub fn from_entry_id(key: &'a CompactCacheKey, id: Option<CacheEntryId>) -> CacheEntryKeyRef<'a>
        ensures { referred result ≡ entry_with key.now id }
    {
        match id {
            Some(id) => CacheEntryKeyRef::Identified { key, id },
            None => CacheEntryKeyRef::KeyOnly(key),
        }
    }

    /// The only entry of a key.
    pub fn key_only(key: &'a CompactCacheKey) -> CacheEntryKeyRef<'a>
        ensures { referred result ≡ entry_with key.now None }
    {
        CacheEntryKeyRef::from_entry_id(key, None)
    }

    /// The entry of a key with this number.
    pub fn identified(key: &'a CompactCacheKey, id: CacheEntryId) -> CacheEntryKeyRef<'a>
        ensures { referred result ≡ entry_with key.now (Some id) }
    {
        CacheEntryKeyRef::from_entry_id(key, Some(id))
    }

    /// What the entry is stored under.
    pub fn key(self) -> &'a CompactCacheKey
        ensures { result.now ≡ key_of (referred self.entry) }
    {
        match self {
            CacheEntryKeyRef::KeyOnly(key) => key,
            CacheEntryKeyRef::Identified { key, .. } => key,
        }
    }

    /// The entry's number, if it has one.
    pub fn entry_id(self) -> Option<CacheEntryId>
        ensures { result ≡ id_of (referred self.entry) }
    {
        match self {
            CacheEntryKeyRef::KeyOnly(_) => None,
            CacheEntryKeyRef::Identified { id, .. } => Some(id),
        }
    }

    /// An owned key of the same entry. Fails only when memory runs out.
    pub fn copied(&self) -> Result<CacheEntryKey, AllocError>
        ensures ok { IfOk result (λ copy. copy ≡ referred self.now) }
    {
        match self {
            CacheEntryKeyRef::KeyOnly(key) => Ok(CacheEntryKey::KeyOnly(key.copied()?)),
            CacheEntryKeyRef::Identified { key, id } => Ok(CacheEntryKey::Identified {
                key: key.copied()?,
                id: *id,
            }),
        }
    }

    // The key and the number, of a borrowed reference.
    fn parts(&self) -> (&CompactCacheKey, Option<CacheEntryId>)
        ensures key { result.0.now ≡ key_of (referred self.now) }
        ensures id { result.1 ≡ id_of (referred self.now) }
    {
        match self {
            CacheEntryKeyRef::KeyOnly(key) => (*key, None),
            CacheEntryKeyRef::Identified { key, id } => (*key, Some(*id)),
        }
    }
}

impl<'a> PartialEq for CacheEntryKeyRef<'a> {
    ghost use Rattle.pcache_evict.specs.EntryRef.{referred_eq, referred_equiv};

    ghost eq = { referred_eq };

    ghost laws = { partial_equiv_from_equiv referred_equiv };

    fn eq(&self, other: &CacheEntryKeyRef<'a>) -> bool {
        let (key, id) = self.parts();
        let (other_key, other_id) = other.parts();
        key == other_key && id == other_id
    }
}

impl<'a> Eq for CacheEntryKeyRef<'a> {
    ghost use Rattle.pcache_evict.specs.EntryRef.{referred_equiv};

    ghost laws = { referred_equiv };
}

/// Hashes like the entry that it refers to.
impl<'a> Hash for CacheEntryKeyRef<'a> {
    ghost use Rattle.pcache_evict.specs.EntryRef.{referred_writes, referred_alike};

    ghost hash_input = { referred_writes };

    ghost respects_eq = { referred_alike.fed };

    fn hash<H: Hasher>(&self, state: &mut H) {
        let (key, id) = self.parts();
        feed(key, id, state);
    }
}

/// The key, then `, entry ID: ` and the number in hexadecimal if there is one.
impl<'a> fmt::Display for CacheEntryKeyRef<'a> {
    fn fmt<W: fmt::Write>(&self, f: &mut fmt::Formatter<W>) -> fmt::Result {
        let (key, id) = self.parts();
        write!(f, "{key}")?;
        if let Some(id) = id {
            write!(f, ", entry ID: {:x}", id.get())?;
        }
        Ok(())
    }
}

/// Refers to this entry: the same key and number.
impl<'a> From<&'a CacheEntryKey> for CacheEntryKeyRef<'a> {
    ghost use Rattle.pcache_evict.specs.EntryRef.{referred};

    ghost from_gives = { λ entry reference. referred reference ≡ entry.now };

    fn from(entry: &'a CacheEntryKey) -> CacheEntryKeyRef<'a> {
        CacheEntryKeyRef::from_entry_id(entry.key(), entry.entry_id())
    }
}
