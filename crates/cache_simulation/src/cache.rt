//! One cache of a simulation.
ghost use Rattle.std.specs.Prelude.{◌≡◌, ◌++◌, ◌-◌, ◌^◌, ℕ, Option, List, [], IfOk, IfErr, OnOk, ◌⊎◌, min, option_map};
ghost use Rattle.std.specs.Duration.{as_nanos};
ghost use Rattle.pcache_base.specs.declared.error.ErrorType.TheVariants.{OutOfMemory, NumbersExhausted};
ghost use Rattle.pcache_evict.specs.Tracked.{weight, limits_of};
ghost use Rattle.cache_simulation.specs.declared.run.Request.{Request};
ghost use Rattle.cache_simulation.specs.Fresh.{Fresh, none_fresh};
ghost use Rattle.cache_simulation.specs.Plays.{Rules, rules_of};
ghost use Rattle.cache_simulation.specs.declared.options.Setting.{Setting};
ghost use Rattle.cache_simulation.specs.Caches.{Stands, StandsIn, Ran, IsRow, goes_by, policy_of, shape_of, counts_of};

use crate::counts::Counts;
use crate::options::{Policy, Setting};
use crate::report::Row;
use crate::run::{Request, Run};
use pcache_base::error::Result;
use pcache_base::seed::Seed;
use pcache_evict::eviction::ordered::OrderedManager;
use pcache_evict::eviction::{sharded_lru, simple_lru};
use pcache_policies::{clock, fifo, s3_fifo, sieve, two_queues};
use std::alloc::{AllocError, Global};
use std::time::Duration;

/// A run over the manager of a policy.
#[derive(Drop)]
pub enum AnyRun {
    /// Over one list.
    Lru(Run<simple_lru::Manager>),
    /// Over the lists of 16 shards.
    Sharded(Run<sharded_lru::Manager<16>>),
    /// Over a list with a hand.
    Sieve(Run<sieve::Manager>),
    /// Over two queues with ghosts.
    S3Fifo(Run<s3_fifo::Manager>),
    /// Over one queue.
    Fifo(Run<fifo::Manager>),
    /// Over one queue that spares what was used.
    Clock(Run<clock::Manager>),
    /// Over a queue of new entries and one in the order of uses, with ghosts.
    TwoQueues(Run<two_queues::Manager>),
}

/// What a run tells.
#[derive(Clone, Copy, Debug)]
pub struct Told {
    /// Its policy.
    pub policy: Policy,
    /// Its counts.
    pub counts: Counts,
    /// How many entries were evicted.
    pub evicted: usize,
    /// The sum of the weights of the tracked entries, in bytes.
    pub tracked: usize,
}

impl AnyRun {
    /// A run of a policy over nothing yet, within so many bytes, and so many entries if that is given. A body of more than `most` bytes is not
    /// stored; bodies are fresh for `time`, or without end if that is `None`. A body past its time is
    /// removed and added anew if it `replaces` such bodies; otherwise that is a use of its entry.
    pub fn new(
        alloc: Global,
        policy: Policy,
        limit: usize,
        watermark: Option<usize>,
        most: usize,
        time: Option<Duration>,
        replaces: bool,
    ) -> Result<AnyRun, AllocError>
        ensures empty { IfOk result (λ r. Stands [] []
            (rules_of (limits_of (goes_by policy) limit watermark) most replaces)
            (option_map (λ t. none_fresh (as_nanos t)) time) 0 r) }
        ensures policy { IfOk result (λ r. policy_of r ≡ policy) }
    {
        // A run over the same trace should take the same time again, and no outsider chooses its
        // keys.
        let seed = Seed::fixed();
        match policy {
            Policy::Lru => {
                let manager = simple_lru::Manager::new_with_watermark(
                    alloc, seed, limit, watermark,
                )?;
                Ok(AnyRun::Lru(Run::new(alloc, manager, most, time, replaces)))
            }
            Policy::Sharded => {
                let manager = sharded_lru::Manager::with_capacity_and_watermark(
                    alloc, seed, limit, 0, watermark,
                )?;
                Ok(AnyRun::Sharded(Run::new(alloc, manager, most, time, replaces)))
            }
            Policy::Sieve => {
                let manager = sieve::Manager::new_with_watermark(alloc, seed, limit, watermark)?;
                Ok(AnyRun::Sieve(Run::new(alloc, manager, most, time, replaces)))
            }
            Policy::S3Fifo => {
                let manager = s3_fifo::Manager::new_with_watermark(alloc, seed, limit, watermark)?;
                Ok(AnyRun::S3Fifo(Run::new(alloc, manager, most, time, replaces)))
            }
            Policy::Fifo => {
                let manager = fifo::Manager::new_with_watermark(alloc, seed, limit, watermark)?;
                Ok(AnyRun::Fifo(Run::new(alloc, manager, most, time, replaces)))
            }
            Policy::Clock => {
                let manager = clock::Manager::new_with_watermark(alloc, seed, limit, watermark)?;
                Ok(AnyRun::Clock(Run::new(alloc, manager, most, time, replaces)))
            }
            Policy::TwoQueues => {
                let manager = two_queues::Manager::new_with_watermark(
                    alloc, seed, limit, watermark,
                )?;
                Ok(AnyRun::TwoQueues(Run::new(alloc, manager, most, time, replaces)))
            }
        }
    }

    /// Makes these requests, one after the other. Fails when memory runs out, or once 2^64 - 1
    /// requests are counted.
    pub fn play(&mut self, requests: &[Request]) -> Result<()>
        ensures served { OnOk result ((before asked : List Request) (rules : Rules)
            (start : Option Fresh) (base : ℕ)
            → Stands before asked rules start base self.old
            → Stands before (asked ++ requests.now) rules start base self.new) }
        ensures policy { policy_of self.new ≡ policy_of self.old }
        ensures kind { IfErr result (λ e. (e ≡ OutOfMemory) ⊎ (e ≡ NumbersExhausted)) }
    {
        match self {
            AnyRun::Lru(run) => run.play(requests),
            AnyRun::Sharded(run) => run.play(requests),
            AnyRun::Sieve(run) => run.play(requests),
            AnyRun::S3Fifo(run) => run.play(requests),
            AnyRun::Fifo(run) => run.play(requests),
            AnyRun::Clock(run) => run.play(requests),
            AnyRun::TwoQueues(run) => run.play(requests),
        }
    }

    /// Counts anew from here on. Returns how many entries were evicted so far.
    pub fn mark(&mut self) -> usize
        ensures served { (before asked : List Request) (rules : Rules) (start : Option Fresh)
            (base : ℕ)
            → Stands before asked rules start base self.old
            → Stands (before ++ asked) [] rules start result self.new }
        ensures policy { policy_of self.new ≡ policy_of self.old }
    {
        match self {
            AnyRun::Lru(run) => run.mark(),
            AnyRun::Sharded(run) => run.mark(),
            AnyRun::Sieve(run) => run.mark(),
            AnyRun::S3Fifo(run) => run.mark(),
            AnyRun::Fifo(run) => run.mark(),
            AnyRun::Clock(run) => run.mark(),
            AnyRun::TwoQueues(run) => run.mark(),
        }
    }

    /// Its counts.
    pub fn counts(&self) -> Counts
        ensures { result ≡ counts_of self.now }
    {
        match self {
            AnyRun::Lru(run) => run.counts,
            AnyRun::Sharded(run) => run.counts,
            AnyRun::Sieve(run) => run.counts,
            AnyRun::S3Fifo(run) => run.counts,
            AnyRun::Fifo(run) => run.counts,
            AnyRun::Clock(run) => run.counts,
            AnyRun::TwoQueues(run) => run.counts,
        }
    }

    /// What it tells of the requests since the mark, at which so many entries had been evicted: what the plain run of
    /// its policy gives of them.
    pub fn told(&self, gone: usize) -> Told
        ensures ran { (before asked : List Request) (rules : Rules) (start : Option Fresh)
            → Stands before asked rules start gone self.now
            → Ran before asked rules start result }
        ensures policy { result.policy ≡ policy_of self.now }
    {
        match self {
            AnyRun::Lru(run) => told_of(Policy::Lru, run, gone),
            AnyRun::Sharded(run) => told_of(Policy::Sharded, run, gone),
            AnyRun::Sieve(run) => told_of(Policy::Sieve, run, gone),
            AnyRun::S3Fifo(run) => told_of(Policy::S3Fifo, run, gone),
            AnyRun::Fifo(run) => told_of(Policy::Fifo, run, gone),
            AnyRun::Clock(run) => told_of(Policy::Clock, run, gone),
            AnyRun::TwoQueues(run) => told_of(Policy::TwoQueues, run, gone),
        }
    }
}

fn told_of<M: OrderedManager>(policy: Policy, run: &Run<M>, gone: usize) -> Told
    ensures policy { result.policy ≡ policy }
    ensures counts { result.counts ≡ run.now.counts }
    ensures evicted { result.evicted ≡ (M.evicted run.now.manager).count - gone }
    ensures tracked { result.tracked ≡ min (weight (M.tracked run.now.manager)) (2 ^ 64 - 1) }
{
    Told {
        policy,
        counts: run.counts,
        evicted: run.manager.evicted_items().saturating_sub(gone),
        tracked: run.manager.total_size(),
    }
}

/// A cache of a simulation.
#[derive(Drop)]
pub struct Cache {
    /// The size in bytes that it represents over all keys.
    pub size: usize,
    /// The run over its manager.
    pub run: AnyRun,
    /// How many entries had been evicted at the mark.
    pub gone: usize,
}

impl Cache {
    /// An empty cache.
    pub fn new(
        alloc: Global,
        setting: Setting,
        policy: Policy,
        size: usize,
    ) -> Result<Cache, AllocError>
        ensures empty { IfOk result (λ c. StandsIn setting [] [] c) }
        ensures shape { IfOk result (λ c. shape_of c ≡ (policy, size)) }
    {
        let limit = setting.sample.scaled(size);
        let watermark = setting.scaled_watermark();
        let most = setting.most(limit);
        let time = setting.time();
        let replaces = setting.replaces;
        let run = AnyRun::new(alloc, policy, limit, watermark, most, time, replaces)?;
        Ok(Cache { size, run, gone: 0 })
    }

    /// Makes these requests to it, one after the other.
    pub fn play(&mut self, requests: &[Request]) -> Result<()>
        ensures served { OnOk result ((setting : Setting) (before asked : List Request)
            → StandsIn setting before asked self.old
            → StandsIn setting before (asked ++ requests.now) self.new) }
        ensures shape { shape_of self.new ≡ shape_of self.old }
        ensures kind { IfErr result (λ e. (e ≡ OutOfMemory) ⊎ (e ≡ NumbersExhausted)) }
    {
        self.run.play(requests)
    }

    /// Counts anew from here on.
    pub fn mark(&mut self)
        ensures served { (setting : Setting) (before asked : List Request)
            → StandsIn setting before asked self.old
            → StandsIn setting (before ++ asked) [] self.new }
        ensures shape { shape_of self.new ≡ shape_of self.old }
    {
        self.gone = self.run.mark();
    }

    /// Its row of the requests since the mark, in the sample of a trace that has these counts since then.
    pub fn row(&self, setting: Setting, span: Span) -> Row
        ensures row { (before asked : List Request)
            → StandsIn setting before asked self.now
            → IsRow setting span before asked result }
        ensures shape { (result.told.policy, result.size) ≡ shape_of self.now }
    {
        Row {
            size: self.size,
            told: self.run.told(self.gone),
            from: span.from,
            until: span.until,
            expected: setting.sample.expected(span.all.requests),
            expected_bytes: setting.sample.expected_bytes(span.all.bytes),
            setting,
        }
    }
}

/// A part of a trace that is counted.
#[derive(Clone, Copy, Debug)]
pub struct Span {
    /// How many lines are before it.
    pub from: u64,
    /// How many there are with its own.
    pub until: u64,
    /// The requests and bytes of its lines.
    pub all: Counts,
}
