//! What is done with several caches, each with the keys that go to it.
ghost use Rattle.std.specs.Prelude.{◌≡◌, ◌<◌, ◌++◌, ◌∷◌, ◌==◌, not, nat_lt, ℕ, List, [], length, slice_index, IfOk, IfErr, IfSome, OnOk, ◌⊎◌, option_map, EachIndex};
ghost use Rattle.std.specs.List.{All, filter};
ghost use Rattle.pcache_base.specs.declared.error.ErrorType.TheVariants.{OutOfMemory, NumbersExhausted};
ghost use Rattle.cache_simulation.specs.declared.run.Request.{Request};
ghost use Rattle.cache_simulation.specs.Tiers.{Visit, Got, HasHad, HasServed, IsVisit, Makes, MakesAt, one_more, hits_in, hits_at, Tells, TellEach, behind};

use crate::cache::{Cache, Told};
use crate::options::{Policy, Setting};
use crate::run::Request;
use crate::tiers::Tiers;
use pcache_base::error::Result;
use rendezvous::nodes::node_of;
use std::alloc::{AllocError, Global};
use std::slice;

impl Tiers {
    /// So many nodes of a policy and a size, and a cache of the same policy behind them if that is given
    /// a size.
    pub fn new(
        alloc: Global,
        setting: Setting,
        policy: Policy,
        size: usize,
        count: u64,
        shield: Option<usize>,
    ) -> Result<Tiers, AllocError>
        ensures empty { IfOk result (λ t. HasHad [] t) }
        ensures shape { IfOk result (λ t.
            (t.setting ≡ setting) × (t.policy ≡ policy) × (t.size ≡ size)) }
        ensures nodes { IfOk result (λ t. length t.nodes.items ≡ count) }
        ensures there { IfOk result (λ t. (length t.there.items ≡ count)
            × EachIndex t.there.items (λ n. slice_index t.there.items n ≡ n)) }
        ensures shield { IfOk result (λ t. option_map (λ c. c.size) t.shield ≡ shield) }
    {
        Ok(Tiers {
            setting,
            policy,
            size,
            nodes: empty_nodes(alloc, setting, policy, size, count)?,
            there: numbers(alloc, count)?,
            shield: empty_shield(alloc, setting, policy, shield)?,
        })
    }

    /// Takes a node away, with what it has stored. What it told stays.
    pub fn take_away(&mut self, node: u64)
        ensures there { self.new.there.items ≡ filter (λ n. not (n == node)) self.old.there.items }
        ensures nodes { self.new.nodes ≡ self.old.nodes }
        ensures shield { self.new.shield ≡ self.old.shield }
        ensures shape { (self.new.setting ≡ self.old.setting)
            × (self.new.policy ≡ self.old.policy)
            × (self.new.size ≡ self.old.size) }
    {
        self.there.retain(|number| *number != node);
    }

    /// Makes a request to the node that its key goes to by this hash, and if that does not answer it, to the
    /// shield.
    pub fn ask(&mut self, hash: u64, asked: &Request) -> Result<()>
        ensures visited { OnOk result ((visit : Visit)
            × IsVisit hash asked.now self.old self.new visit
            × ((visits : List Visit)
            → HasHad visits self.old
            → HasHad (visits ++ visit ∷ []) self.new)) }
        ensures there { self.new.there ≡ self.old.there }
        ensures shield { option_map (λ c. c.size) self.new.shield
            ≡ option_map (λ c. c.size) self.old.shield }
        ensures shape { (self.new.setting ≡ self.old.setting)
            × (self.new.policy ≡ self.old.policy)
            × (self.new.size ≡ self.old.size) }
        ensures kind { IfErr result (λ e. (e ≡ OutOfMemory) ⊎ (e ≡ NumbersExhausted)) }
    {
        // A request at a time, in one thread: the shield is asked in the order in which nodes
        // missed.
        let Some(number) = node_of(hash, self.there.as_slice()) else {
            return self.ask_shield(asked);
        };
        if self.ask_node(number as usize, asked)? {
            return Ok(());
        }
        self.ask_shield(asked)
    }

    /// What each node tells, in the order of their numbers.
    pub fn each_node(&self, alloc: Global) -> Result<Vec<Told>, AllocError>
        ensures told { IfOk result (λ each. (visits : List Visit)
            → HasHad visits self.now
            → TellEach visits self.now each.items) }
    {
        let mut each = Vec::new(alloc);
        for node in self.nodes.as_slice() {
            each.push(node.run.told(node.gone))?;
        }
        Ok(each)
    }

    /// What the cache behind the nodes tells, and its size, if there is one.
    pub fn shield(&self) -> Option<(usize, Told)>
        ensures told { IfSome result (λ p. (visits : List Visit)
            → HasHad visits self.now
            → Tells self.now.setting self.now.policy p.0 (behind visits) p.1) }
        ensures size { option_map (λ p. p.0) result ≡ option_map (λ c. c.size) self.now.shield }
    {
        match &self.shield {
            Some(shield) => Some((shield.size, shield.run.told(shield.gone))),
            None => None,
        }
    }

    // Makes a request to a node, and returns whether it was a hit.
    fn ask_node(&mut self, number: usize, asked: &Request) -> Result<bool>
        requires { number < length self.old.nodes.items }
        ensures served { OnOk result ((own : ℕ → List Request) (behind : List Request)
            → HasServed own behind self.old
            → HasServed (one_more number (asked.now ∷ []) own) behind self.new) }
        ensures hit { IfOk result (λ is. is
            ≡ nat_lt (hits_at number self.old.nodes.items) (hits_at number self.new.nodes.items)) }
        ensures there { self.new.there ≡ self.old.there }
        ensures shield { self.new.shield ≡ self.old.shield }
        ensures shape { (self.new.setting ≡ self.old.setting)
            × (self.new.policy ≡ self.old.policy)
            × (self.new.size ≡ self.old.size) }
        ensures kind { IfErr result (λ e. (e ≡ OutOfMemory) ⊎ (e ≡ NumbersExhausted)) }
    {
        answers_at(self.nodes.as_mut_slice(), number, slice::from_ref(asked))
    }

    // Makes a request to the shield, if there is one.
    fn ask_shield(&mut self, asked: &Request) -> Result<()>
        ensures served { OnOk result ((own : ℕ → List Request) (behind : List Request)
            → HasServed own behind self.old
            → HasServed own (behind ++ asked.now ∷ []) self.new) }
        ensures nodes { self.new.nodes ≡ self.old.nodes }
        ensures there { self.new.there ≡ self.old.there }
        ensures shield { option_map (λ c. c.size) self.new.shield
            ≡ option_map (λ c. c.size) self.old.shield }
        ensures shape { (self.new.setting ≡ self.old.setting)
            × (self.new.policy ≡ self.old.policy)
            × (self.new.size ≡ self.old.size) }
        ensures kind { IfErr result (λ e. (e ≡ OutOfMemory) ⊎ (e ≡ NumbersExhausted)) }
    {
        match &mut self.shield {
            Some(shield) => shield.play(slice::from_ref(asked)),
            None => Ok(()),
        }
    }
}

// So many empty caches of a policy and a size.
fn empty_nodes(
    alloc: Global,
    setting: Setting,
    policy: Policy,
    size: usize,
    count: u64,
) -> Result<Vec<Cache>, AllocError>
    ensures empty { IfOk result (λ nodes. All (Got setting policy size []) nodes.items) }
    ensures count { IfOk result (λ nodes. length nodes.items ≡ count) }
{
    let mut nodes = Vec::new(alloc);
    for _ in 0..count {
        nodes.push(Cache::new(alloc, setting, policy, size)?)?;
    }
    Ok(nodes)
}

// An empty cache of a policy, if it has a size.
fn empty_shield(
    alloc: Global,
    setting: Setting,
    policy: Policy,
    size: Option<usize>,
) -> Result<Option<Cache>, AllocError>
    ensures empty { IfOk result (λ shield. (c : Cache)
        → shield ≡ Some c
        → Got setting policy c.size [] c) }
    ensures there { IfOk result (λ shield. option_map (λ c. c.size) shield ≡ size) }
{
    match size {
        // Of the policy of the nodes: two policies would be a table in two dimensions.
        Some(size) => Ok(Some(Cache::new(alloc, setting, policy, size)?)),
        None => Ok(None),
    }
}

// The numbers below this one, in their order.
fn numbers(alloc: Global, count: u64) -> Result<Vec<u64>, AllocError>
    ensures all { IfOk result (λ there. (length there.items ≡ count)
        × EachIndex there.items (λ n. slice_index there.items n ≡ n)) }
    ensures below { IfOk result (λ there. All (λ n. n < count) there.items) }
{
    let mut there = Vec::new(alloc);
    for number in 0..count {
        there.push(number)?;
    }
    Ok(there)
}

// Makes requests to one of several caches, and returns whether it has more hits than before.
fn answers_at(nodes: &mut [Cache], number: usize, asked: &[Request]) -> Result<bool>
    requires { number < length nodes.old }
    ensures made { OnOk result (MakesAt number asked.now nodes.old nodes.new) }
    ensures hit { IfOk result (λ is.
        is ≡ nat_lt (hits_at number nodes.old) (hits_at number nodes.new)) }
    ensures kind { IfErr result (λ e. (e ≡ OutOfMemory) ⊎ (e ≡ NumbersExhausted)) }
{
    answers(&mut nodes[number], asked)
}

// Makes requests to a cache, and returns whether it has more hits than before.
fn answers(cache: &mut Cache, asked: &[Request]) -> Result<bool>
    ensures made { OnOk result (Makes asked.now cache.old cache.new) }
    ensures hit { IfOk result (λ is. is ≡ nat_lt (hits_in cache.old) (hits_in cache.new)) }
    ensures kind { IfErr result (λ e. (e ≡ OutOfMemory) ⊎ (e ≡ NumbersExhausted)) }
{
    let before = cache.run.counts().hits;
    cache.play(asked)?;
    Ok(before < cache.run.counts().hits)
}
