//! What the holder of a permit published, found by its tokens.
//!
//! A reader looks for the first publication that has one of its fills. An index of the tokens is kept beside the
//! publications, so that a look takes time for each of the reader's own fills, however much was published.
ghost use Rattle.std.specs.Prelude.{◌≡◌, ◌<◌, ◌≤◌, ◌-◌, ◌==◌, ◌||◌, ◌&&◌, ◌++◌, ◌∷◌, ◌^◌, not, ℕ, [], IsOk, OnErr, OnOk, drop, false, length, slice_get, true};
ghost use Rattle.std.specs.BTreeSet.{contains};
ghost use Rattle.std.specs.Ordering.{nat_cmp};
ghost use Rattle.pcache_lock.specs.Published.{IsFirstPosition, entry_of, is_entry_for};
ghost use Rattle.pcache_lock.specs.Waiting.{first_told, publications_with, says_nothing};

use pcache_base::fills::{UnusableFill, UnusableFills};
use std::alloc::{AllocError, Global};
use std::collections::BTreeSet;
use std::marker::Model;

// The tokens of one publication.
#[derive(Drop)]
struct Publication {
    tokens: Vec<u64>,
}

impl Model for Publication {
    ghost use Rattle.std.specs.Prelude.{ℕ, List};

    ghost Value = { List ℕ };

    ghost view = { λ p. p.tokens.items };
}

impl Publication {
    fn is_empty(&self) -> bool
        ensures { result ≡ (length self.now == 0) }
    {
        self.tokens.is_empty()
    }
}

// How many positions a token can have.
const POSITIONS: u128 = 0x1_0000_0000_0000_0000;

// The index entry of a token in the publication at this position.
fn entry(token: u64, place: usize) -> u128
    ensures { result ≡ entry_of token place }
{
    u128::from(token) * POSITIONS + place as u128
}

// Adds the tokens of the publication at this position to the index.
fn mark(index: &mut BTreeSet<u128>, place: usize, tokens: &[u64]) -> Result<(), AllocError>
    requires { (q : ℕ)
        → is_entry_for place tokens.now q ≡ true
        → contains nat_cmp index.old q ≡ false }
    ensures ok { OnOk result ((q : ℕ)
        → contains nat_cmp index.new q
        ≡ (contains nat_cmp index.old q || is_entry_for place tokens.now q)) }
    ensures err { OnErr result ((q : ℕ)
        → contains nat_cmp index.new q ≡ contains nat_cmp index.old q) }
{
    for token in tokens {
        let Ok(_added) = index.insert(entry(*token, place)) else {
            unmark(index, place, tokens);
            return Err(AllocError);
        };
    }
    Ok(())
}

// Removes them from the index.
fn unmark(index: &mut BTreeSet<u128>, place: usize, tokens: &[u64])
    ensures { (q : ℕ)
        → contains nat_cmp index.new q
        ≡ (contains nat_cmp index.old q && not (is_entry_for place tokens.now q)) }
{
    for token in tokens {
        index.remove(&entry(*token, place));
    }
}

// The publications of a permit, in their order: the current one is the last.
#[derive(Drop)]
pub(super) struct Publications {
    kept: Vec<Publication>,
    // An index entry for each token of each publication.
    // A tree needs no seed, whoever picks the tokens.
    index: BTreeSet<u128>,
}

impl Model for Publications {
    ghost use Rattle.std.specs.Prelude.{ℕ, List};
    ghost use Rattle.std.specs.Vec.{vec_capacity};
    ghost use Rattle.pcache_lock.specs.Published.{IsIndex};
    ghost use Rattle.pcache_lock.specs.Waiting.{HasRoom};

    ghost Value = { List (List ℕ) };

    // The current publication can be cleared without memory.
    ghost invariant = { λ p. HasRoom p.kept.items (vec_capacity p.kept) × IsIndex p.index p.kept.items };

    ghost view = { λ p. p.kept.items };
}

impl Publications {
    // Nothing was published.
    pub(super) fn new(alloc: Global) -> Publications
        ensures { result ≡ [] }
    {
        Publications {
            kept: Vec::new(alloc),
            index: BTreeSet::new(alloc),
        }
    }

    // The number of publications.
    pub(super) fn len(&self) -> usize
        ensures { result ≡ length self.now }
    {
        self.kept.len()
    }

    // Whether the current publication has no token.
    fn says_nothing(&self) -> bool
        ensures { result ≡ says_nothing (slice_get self.now (length self.now - 1)) }
    {
        match self.kept.as_slice().last() {
            Some(publication) => publication.is_empty(),
            None => true,
        }
    }

    // The first position of a token from one position to before another.
    fn first_position(&self, token: u64, from: usize, before: usize) -> Option<usize>
        requires { from ≤ before }
        ensures { IsFirstPosition self.now token from before result }
    {
        let first = entry(token, 0);
        let mut entries = self.index.range(entry(token, from)..entry(token, before));
        match entries.next() {
            Some(entry) => Some((*entry - first) as usize),
            None => None,
        }
    }

    // The fill that a reader is told of by the publications from one on. Each fill is looked for only before the position of
    // those that were found, so the first fill of the first position remains.
    pub(super) fn first_told(&self, fills: &UnusableFills, from: usize) -> Option<UnusableFill>
        ensures { result ≡ first_told fills.now (drop from self.now) }
    {
        let mut before = self.len();
        if from >= before {
            return None;
        }
        let mut told = None;
        for fill in fills.fills() {
            if let Some(place) = self.first_position(fill.token, from, before) {
                before = place;
                told = Some(*fill);
            }
        }
        told
    }

    // Replaces the current publication. The earlier ones are kept only if a read lock may look at them.
    pub(super) fn publish(
        &mut self,
        alloc: Global,
        readers: u128,
        tokens: &[u64],
    ) -> Result<(), AllocError>
        ensures ok { OnOk result (self.new ≡ publications_with readers tokens.now self.old) }
        ensures clears { tokens.now ≡ [] → IsOk result }
        ensures err { OnErr result (self.new ≡ self.old) }
    {
        if tokens.is_empty() {
            self.clear(alloc, readers);
            return Ok(());
        }
        self.say(alloc, readers, tokens)
    }

    // Replaces a publication that has tokens by an empty one.
    fn clear(&mut self, alloc: Global, readers: u128)
        ensures { self.new ≡ publications_with readers [] self.old }
    {
        if self.says_nothing() {
            return;
        }
        if readers == 0 {
            self.kept.clear();
            self.index.clear();
        }
        self.kept.push_reserved(Publication {
            tokens: Vec::new(alloc),
        });
    }

    // Replaces the current publication by one that has tokens.
    fn say(&mut self, alloc: Global, readers: u128, tokens: &[u64]) -> Result<(), AllocError>
        requires { (length tokens.now == 0) ≡ false }
        ensures ok { OnOk result (self.new ≡ publications_with readers tokens.now self.old) }
        ensures err { OnErr result (self.new ≡ self.old) }
    {
        if readers > 0 {
            return self.add(alloc, tokens);
        }
        let mut alone = Publications::new(alloc);
        alone.add(alloc, tokens)?;
        *self = alone;
        Ok(())
    }

    // Adds a publication after the others, with room to clear it.
    fn add(&mut self, alloc: Global, tokens: &[u64]) -> Result<(), AllocError>
        ensures ok { OnOk result (self.new ≡ self.old ++ tokens.now ∷ []) }
        ensures err { OnErr result (self.new ≡ self.old) }
    {
        let publication = Publication {
            tokens: Vec::from_slice(alloc, tokens)?,
        };
        self.kept.reserve(2)?;
        mark(&mut self.index, self.kept.len(), tokens)?;
        self.kept.push_reserved(publication);
        Ok(())
    }
}
