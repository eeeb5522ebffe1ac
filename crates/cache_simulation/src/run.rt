//! One manager over a trace.
ghost use Rattle.std.specs.Prelude.{◌≡◌, ℕ, ◌&&◌, ◌-◌, ◌^◌, ◌<◌, ◌⊎◌, None, Some, Option, List, [], ◌∷◌, ◌++◌, OnOk, OnErr, IfErr, option_map};
ghost use Rattle.std.specs.Duration.{as_nanos};
ghost use Rattle.std.specs.FinMap as map;
ghost use Rattle.pcache_base.specs.declared.error.ErrorType.TheVariants.{OutOfMemory, NumbersExhausted};
ghost use Rattle.pcache_evict.specs.declared.eviction.entry_key.CacheEntryKey.{CacheEntryKey};
ghost use Rattle.cache_simulation.specs.Fresh.{Fresh, is_fresh, none_fresh, noted};
ghost use Rattle.cache_simulation.specs.Events.{Event, Came, Renewed, comes};
ghost use Rattle.cache_simulation.specs.Plays.{Becomes, Plays, IsCounted, rules_of, state};
ghost use Rattle.cache_simulation.specs.Replays.{Answers, Replays, Brings, Served, count_after, counts_after, Place, place};

use crate::counts::Counts;
use crate::freshness::Freshness;
use pcache_base::error::{Error, ErrorType, Result};
use pcache_base::moment::Moment;
use pcache_evict::eviction::CacheEntryKey;
use pcache_evict::eviction::ordered::OrderedManager;
use std::alloc::{AllocError, Global};
use std::time::Duration;

/// A request of a trace.
#[derive(Drop)]
pub struct Request {
    /// The entry of the body.
    pub item: CacheEntryKey,
    /// The size of the body, in bytes.
    pub size: usize,
    /// When it was requested.
    pub time: Moment,
}

/// A manager, and the counts of the requests that it got. It keeps weights and no bodies.
///
/// A contract sees what the requests make of the map of entries, and of the manager's order: the plain
/// run of its policy, request by request (`specs/Replays.antt`).
#[derive(Drop)]
pub struct Run<M: OrderedManager> {
    /// The manager, which tracks the stored bodies.
    pub manager: M,
    /// The counts.
    pub counts: Counts,
    /// The size of the largest body that is stored, in bytes.
    pub most: usize,
    /// Which bodies are fresh; all that are tracked if it is `None`.
    pub freshness: Option<Freshness>,
    /// Whether the entry of a body past its time is removed before that body is added anew. Otherwise that
    /// is a use of its entry.
    pub replaces: bool,
}

impl<M: OrderedManager> Run<M> {
    /// A run of this manager. A body of more than `most` bytes is not stored; bodies are fresh for
    /// `time`, or without end if that is `None`. A body past its time is removed and added anew if it
    /// `replaces` such bodies; otherwise that is a use of its entry.
    pub fn new(
        alloc: Global,
        manager: M,
        most: usize,
        time: Option<Duration>,
        replaces: bool,
    ) -> Run<M>
        ensures manager { result.manager ≡ manager }
        ensures counts { (result.counts.requests ≡ 0)
            × (result.counts.hits ≡ 0)
            × (result.counts.bytes ≡ 0)
            × (result.counts.hit_bytes ≡ 0) }
        ensures most { result.most ≡ most }
        ensures replaces { result.replaces ≡ replaces }
        ensures fresh { result.freshness ≡ option_map (λ t. none_fresh (as_nanos t)) time }
        ensures served { (M.evicted manager).count ≡ 0
            → Served M.policy (rules_of (M.limits manager) most replaces)
            (place (M.order manager) result.freshness) [] result.counts 0
            (M.evicted result.manager).count
            (place (M.order result.manager) result.freshness) }
    {
        let freshness = match time {
            Some(time) => Some(Freshness::new(alloc, time)),
            None => None,
        };
        Run {
            manager,
            counts: Counts::none(),
            most,
            freshness,
            replaces,
        }
    }

    /// Makes one request: a stored body that is fresh is used; any other is added, unless it is too
    /// large. What is counted of a hit is the size that was asked for. A request that fails for memory is not counted; its body may have been added then.
    pub fn request(&mut self, asked: &Request) -> Result<(), AllocError>
        requires { self.old.counts.requests < 2 ^ 64 - 1 }
        ensures ok { OnOk result ((e : Event)
            × IsCounted self.old.counts (e ∷ []) self.new.counts
            × Becomes (rules_of (M.limits self.old.manager) self.old.most self.old.replaces)
            (state (M.tracked self.old.manager) self.old.freshness) asked.now e
            (state (M.tracked self.new.manager) self.new.freshness)
            × Answers M.policy
            (rules_of (M.limits self.old.manager) self.old.most self.old.replaces)
            (place (M.order self.old.manager) self.old.freshness) asked.now e
            (place (M.order self.new.manager) self.new.freshness)
            × ((M.evicted self.new.manager).count
            ≡ count_after (M.evicted self.old.manager).count e)) }
        ensures limits { M.limits self.new.manager ≡ M.limits self.old.manager }
        ensures most { self.new.most ≡ self.old.most }
        ensures replaces { self.new.replaces ≡ self.old.replaces }
        ensures err { OnErr result (self.new.counts ≡ self.old.counts) }
    {
        if self.has_fresh(asked) {
            self.manager
                .access_in_order(&asked.item, asked.size, asked.time)?;
            self.counts.note(asked.size, true);
            return Ok(());
        }
        // `most` is the limit or no bound, as the options say: others pass such a body by, and the
        // managers admit it.
        if asked.size > self.most {
            self.counts.note(asked.size, false);
            return Ok(());
        }
        self.bring(asked)?;
        self.counts.note(asked.size, false);
        Ok(())
    }

    /// Makes these requests, one after the other. Fails when memory runs out, or once 2^64 - 1
    /// requests are counted.
    pub fn play(&mut self, requests: &[Request]) -> Result<()>
        ensures ok { OnOk result ((es : List Event)
            × IsCounted self.old.counts es self.new.counts
            × Plays (rules_of (M.limits self.old.manager) self.old.most self.old.replaces)
            (state (M.tracked self.old.manager) self.old.freshness) requests.now es
            (state (M.tracked self.new.manager) self.new.freshness)
            × Replays M.policy
            (rules_of (M.limits self.old.manager) self.old.most self.old.replaces)
            (place (M.order self.old.manager) self.old.freshness) requests.now es
            (place (M.order self.new.manager) self.new.freshness)
            × ((M.evicted self.new.manager).count
            ≡ counts_after (M.evicted self.old.manager).count es)) }
        ensures served { OnOk result ((s : Place M.Order) (before : List Request) (gone : ℕ)
            → Served M.policy
            (rules_of (M.limits self.old.manager) self.old.most self.old.replaces) s before
            self.old.counts gone (M.evicted self.old.manager).count
            (place (M.order self.old.manager) self.old.freshness)
            → Served M.policy
            (rules_of (M.limits self.new.manager) self.new.most self.new.replaces) s
            (before ++ requests.now)
            self.new.counts gone (M.evicted self.new.manager).count
            (place (M.order self.new.manager) self.new.freshness)) }
        ensures limits { M.limits self.new.manager ≡ M.limits self.old.manager }
        ensures most { self.new.most ≡ self.old.most }
        ensures replaces { self.new.replaces ≡ self.old.replaces }
        ensures kind { IfErr result (λ e. (e ≡ OutOfMemory)
            ⊎ ((e ≡ NumbersExhausted) × (self.new.counts.requests ≡ 2 ^ 64 - 1))) }
    {
        for asked in requests {
            if self.counts.is_full() {
                return Err(Error::new(ErrorType::NumbersExhausted));
            }
            self.request(asked)?;
        }
        Ok(())
    }

    /// Counts anew from here on. Returns how many entries were evicted so far.
    pub fn mark(&mut self) -> usize
        ensures evicted { result ≡ (M.evicted self.old.manager).count }
        ensures served { Served M.policy
            (rules_of (M.limits self.new.manager) self.new.most self.new.replaces)
            (place (M.order self.old.manager) self.old.freshness) []
            self.new.counts result (M.evicted self.new.manager).count
            (place (M.order self.new.manager) self.new.freshness) }
        ensures manager { self.new.manager ≡ self.old.manager }
        ensures most { self.new.most ≡ self.old.most }
        ensures replaces { self.new.replaces ≡ self.old.replaces }
        ensures fresh { self.new.freshness ≡ self.old.freshness }
    {
        // Not subtracted later: so the counts of an interval are those of its own events, by the
        // same definition as those of a whole run.
        self.counts = Counts::none();
        self.manager.evicted_items()
    }

    // Adds a body, or adds it anew.
    fn bring(&mut self, asked: &Request) -> Result<(), AllocError>
        ensures comes { OnOk result (Brings M.policy (M.limits self.old.manager)
            (comes
            (self.old.replaces && map.contains_key (M.tracked self.old.manager) asked.now.item)
            asked.now.item asked.now.size) asked.now
            (state (M.tracked self.old.manager) self.old.freshness) (M.order self.old.manager)
            (M.evicted self.old.manager).count
            (state (M.tracked self.new.manager) self.new.freshness) (M.order self.new.manager)
            (M.evicted self.new.manager).count) }
        ensures limits { M.limits self.new.manager ≡ M.limits self.old.manager }
        ensures most { self.new.most ≡ self.old.most }
        ensures replaces { self.new.replaces ≡ self.old.replaces }
        ensures counts { self.new.counts ≡ self.old.counts }
    {
        // An option: a body that is validated is a use of its entry, and one that is fetched anew
        // is a new entry, as `Cache` makes of it.
        if self.replaces && self.manager.peek(&asked.item) {
            return self.renew(asked);
        }
        self.fill(asked)
    }

    // Removes the entry of a body, and adds it anew.
    fn renew(&mut self, asked: &Request) -> Result<(), AllocError>
        ensures comes { OnOk result (Brings M.policy (M.limits self.old.manager)
            (Renewed asked.now.item asked.now.size) asked.now
            (state (M.tracked self.old.manager) self.old.freshness) (M.order self.old.manager)
            (M.evicted self.old.manager).count
            (state (M.tracked self.new.manager) self.new.freshness) (M.order self.new.manager)
            (M.evicted self.new.manager).count) }
        ensures limits { M.limits self.new.manager ≡ M.limits self.old.manager }
        ensures most { self.new.most ≡ self.old.most }
        ensures replaces { self.new.replaces ≡ self.old.replaces }
        ensures counts { self.new.counts ≡ self.old.counts }
    {
        self.manager.remove_in_order(&asked.item);
        self.fill(asked)
    }

    // Adds a body.
    fn fill(&mut self, asked: &Request) -> Result<(), AllocError>
        ensures comes { OnOk result (Brings M.policy (M.limits self.old.manager)
            (Came asked.now.item asked.now.size) asked.now
            (state (M.tracked self.old.manager) self.old.freshness) (M.order self.old.manager)
            (M.evicted self.old.manager).count
            (state (M.tracked self.new.manager) self.new.freshness) (M.order self.new.manager)
            (M.evicted self.new.manager).count) }
        ensures limits { M.limits self.new.manager ≡ M.limits self.old.manager }
        ensures most { self.new.most ≡ self.old.most }
        ensures replaces { self.new.replaces ≡ self.old.replaces }
        ensures counts { self.new.counts ≡ self.old.counts }
    {
        let copy = asked.item.copied()?;
        let out = self.manager.admit_in_order(copy, asked.size, asked.time)?;
        self.remember(asked, out)
    }

    // Records when a body was added, and forgets those that were evicted.
    fn remember(&mut self, asked: &Request, gone: Vec<CacheEntryKey>) -> Result<(), AllocError>
        ensures fresh { OnOk result (self.new.freshness
            ≡ noted asked.now.item asked.now.time gone.items self.old.freshness) }
        ensures manager { self.new.manager ≡ self.old.manager }
        ensures most { self.new.most ≡ self.old.most }
        ensures replaces { self.new.replaces ≡ self.old.replaces }
        ensures counts { self.new.counts ≡ self.old.counts }
    {
        let Some(freshness) = &mut self.freshness else {
            return Ok(());
        };
        freshness.set(asked.item.copied()?, asked.time)?;
        freshness.forget(gone.as_slice());
        Ok(())
    }

    // Whether a body is stored and fresh at the moment of a request.
    fn has_fresh(&self, asked: &Request) -> bool
        ensures { result
            ≡ (map.contains_key (M.tracked self.now.manager) asked.now.item
            && is_fresh self.now.freshness asked.now.item asked.now.time) }
    {
        self.manager.peek(&asked.item) && self.is_fresh(asked)
    }

    // Whether a stored body is fresh at the moment of a request.
    fn is_fresh(&self, asked: &Request) -> bool
        ensures { result ≡ is_fresh self.now.freshness asked.now.item asked.now.time }
    {
        match &self.freshness {
            Some(freshness) => freshness.is_fresh(&asked.item, asked.time),
            None => true,
        }
    }
}
