//! Looking a key up: what the store has, what is hidden of it, the policy for a key that has no
//! body, and the key's lock.
//!
//! All look-ups are made by `search`: `cache_lookup` is lent the policy that it may ask, `cache_lookup_without_policy` has
//! none, and `look_up` also has a witness and reports what it did.
use super::{AskedLock, HttpCache, LookUp, NoWitness, Witness, take_lock_if};
use pcache_base::error::Result;
use pcache_base::moment::Moment;
use pcache_lock::lock::CacheKeyLock;
use pcache_meta::meta::CacheMeta;
use pcache_predict::admission::{AdmissionPolicy, Decision};
use pcache_store::storage::{HandleHit, Storage};

impl<S: Storage> HttpCache<S> {
    ghost use Rattle.std.specs.Prelude.{◌≡◌, ◌⊎◌, IfOk, IfErr, OnOk, OnErr, IsTrue, IsSome, Some, None, false, option_map};
    ghost use Rattle.pcache_base.specs.declared.error.ErrorType.TheVariants.{OutOfMemory};
    ghost use Rattle.pcache_lock.specs.Locks.{MayFailLock};
    ghost use Rattle.pcache_store.specs.Store.{followed};
    ghost use Rattle.pcache_request.specs.Admissions.{Decides, asks_any, asks_policy, decision_of_any, decision_taken};
    ghost use Rattle.pcache_request.specs.Looking.{LooksUp, TellsLookUp};
    ghost use Rattle.pcache_request.specs.Phases.{MayLookUp};
    ghost use Rattle.pcache_request.specs.Sides.{lock_side, store_side};
    ghost use Rattle.pcache_request.specs.Requests.{found_for};
    ghost use Rattle.pcache_request.specs.Variants.{is_hidden, with_key_lock, table_key_locked, asked_for_key};
    ghost use Rattle.pcache_request.specs.Witnesses.{HasHeard, passed_over};
    ghost use Rattle.pcache_request.specs.LockPasts.{key_locked_deeds};
    ghost use Rattle.pcache_request.specs.StorePasts.{found_past, passed_past};

    /// What the store has for the key, even if it is hidden: the meta, and a reader that has to be
    /// taken or let go. Fails only when memory runs out, and then changes nothing.
    /// Requires the phase CacheKey or Stale; ask `phase().may_look_up()`.
    pub fn find(&self, storage: &mut S) -> Result<Option<(CacheMeta, S::Hit)>>
        requires { MayLookUp self.now.phase }
        ensures found { IfOk result (λ r. option_map (λ p. (p.0, S.Hit.reader p.1)) r
            ≡ found_for (S.state storage.old) self.now.key) }
        ensures store { OnOk result (S.state storage.new
            ≡ followed (S.state storage.old) (found_for (S.state storage.old) self.now.key)) }
        ensures past { OnOk result (S.past storage.new
            ≡ found_past (S.state storage.old) self.now.key (S.past storage.old)) }
        ensures something { OnErr result (IsSome (found_for (S.state storage.old) self.now.key)) }
        ensures same_store { OnErr result (S.state storage.new ≡ S.state storage.old) }
        ensures same_past { OnErr result (S.past storage.new ≡ S.past storage.old) }
        ensures kind { IfErr result (λ e. e ≡ OutOfMemory) }
    {
        let Some(key) = &self.key else { unreachable!() };
        storage.lookup(self.alloc, key)
    }

    /// Whether a look-up hides a pair with this meta: it was created before the moment from which
    /// variants of the key count (`cache_vary_lookup`).
    pub fn hides(&self, meta: &CacheMeta) -> bool
        ensures { result ≡ is_hidden self.now.valid_after meta.now.created }
    {
        match self.valid_after {
            Some(from) => meta.created() < from,
            None => false,
        }
    }

    // Asks for the key's lock, if one is in use, and lets a lock held before go once the new one
    // was given: a request that holds the key's permit gets a read lock on it, and the permit dangles.
    // Returns the lock that was asked for.
    fn ask_for_key<L: CacheKeyLock>(
        &mut self,
        lock: &mut L,
        now: Moment,
    ) -> Result<Option<AskedLock>>
        requires { MayLookUp self.old.phase }
        ensures asked { IfOk result (λ a. a ≡ asked_for_key (L.table lock.old) self.old) }
        ensures request { OnOk result (self.new ≡ with_key_lock (L.table lock.old) self.old) }
        ensures table { OnOk result (L.table lock.new
            ≡ table_key_locked now self.old (L.table lock.old)) }
        ensures deeds { OnOk result (L.past lock.new
            ≡ key_locked_deeds now (L.table lock.old) self.old (L.past lock.old)) }
        ensures same_request { OnErr result (self.new ≡ self.old) }
        ensures same_table { OnErr result (L.table lock.new ≡ L.table lock.old) }
        ensures same_deeds { OnErr result (L.past lock.new ≡ L.past lock.old) }
        ensures kind { IfErr result (λ e. MayFailLock (L.table lock.old) e) }
        ensures used { OnErr result (IsTrue self.old.uses.lock) }
        ensures digest { self.new.digest ≡ self.old.digest }
    {
        let Some(key) = &self.key else { unreachable!() };
        take_lock_if(
            self.alloc,
            self.uses.lock,
            &mut self.held,
            lock,
            key,
            false,
            now,
        )
    }

    // What the store has for the key. The witness was shown the pair; if the witness fails, the pair
    // is let go.
    fn find_shown<W: Witness<S>>(
        &self,
        storage: &mut S,
        witness: &mut W,
    ) -> Result<Option<(CacheMeta, S::Hit)>>
        requires { MayLookUp self.now.phase }
        ensures found { IfOk result (λ r. option_map (λ p. (p.0, S.Hit.reader p.1)) r
            ≡ found_for (S.state storage.old) self.now.key) }
        ensures store { OnOk result (S.state storage.new
            ≡ followed (S.state storage.old) (found_for (S.state storage.old) self.now.key)) }
        ensures past { OnOk result (S.past storage.new
            ≡ found_past (S.state storage.old) self.now.key (S.past storage.old)) }
        ensures heard { OnOk result (HasHeard W.hears witness.old
            (found_for (S.state storage.old) self.now.key) witness.new) }
        ensures something { OnErr result (IsSome (found_for (S.state storage.old) self.now.key)) }
        ensures refused { IfErr result (λ e. ((e ≡ OutOfMemory)
            × (S.state storage.new ≡ S.state storage.old)
            × (S.past storage.new ≡ S.past storage.old))
            ⊎ (W.may_refuse e
            × (S.state storage.new ≡ passed_over (S.state storage.old) self.now.key)
            × (S.past storage.new
            ≡ passed_past (S.state storage.old) self.now.key (S.past storage.old)))) }
    {
        let Some((meta, hit)) = self.find(storage)? else {
            return Ok(None);
        };
        // Before the look-up has an effect: a witness may copy the pair, and fail for memory.
        if let Err(refused) = witness.found(&meta, &hit) {
            hit.let_go(storage);
            return Err(refused);
        }
        Ok(Some((meta, hit)))
    }

    // Looks the key up, with or without a policy, and reports what it did.
    fn search<L: CacheKeyLock, A: AdmissionPolicy, W: Witness<S>>(
        &mut self,
        storage: &mut S,
        lock: &mut L,
        policy: &mut A,
        has_policy: bool,
        witness: &mut W,
        now: Moment,
    ) -> Result<LookUp<S::Hit>>
        requires { MayLookUp self.old.phase }
        ensures looks { TellsLookUp S.Hit.reader result
            (decision_of_any has_policy (S.state storage.old) self.old self.new) now
            self.old self.new
            (store_side S.state S.past storage.old) (store_side S.state S.past storage.new)
            (lock_side L.table L.past lock.old) (lock_side L.table L.past lock.new) }
        ensures heard { OnOk result (HasHeard W.hears witness.old
            (found_for (S.state storage.old) self.old.key) witness.new) }
        ensures decides { IsTrue (asks_any has_policy (S.state storage.old) self.old)
            → Decides (λ k d. A.decides policy.old k d policy.new) self.old.key
            self.new.digest.admission }
        ensures same_policy { asks_any has_policy (S.state storage.old) self.old ≡ false
            → policy.new ≡ policy.old }
        ensures refused { IfErr result (λ e. ((e ≡ OutOfMemory)
            × (S.state storage.new ≡ S.state storage.old)
            × (S.past storage.new ≡ S.past storage.old))
            ⊎ (W.may_refuse e
            × (S.state storage.new ≡ passed_over (S.state storage.old) self.old.key)
            × (S.past storage.new
            ≡ passed_past (S.state storage.old) self.old.key (S.past storage.old)))) }
    {
        let Some((meta, hit)) = self.find_shown(storage, witness)? else {
            if let Some(Decision::Defer { .. }) = self.decide(policy, has_policy) {
                return Ok(LookUp::Deferred(self.defer(storage, lock)));
            }
            return Ok(LookUp::NotFound(self.ask_for_key(lock, now)));
        };
        if !self.hides(&meta) {
            return Ok(LookUp::Found(meta, hit));
        }
        // Also if the lock fails: a hidden pair is not handed on in any case.
        hit.let_go(storage);
        Ok(LookUp::NotFound(self.ask_for_key(lock, now)))
    }

    /// `cache_lookup` for requests that use no policy: it asks none and keeps no decision. If it fails, the request and
    /// the lock table are unchanged; if it was the lock that failed, a hidden pair was let go.
    /// Requires the phase CacheKey or Stale; ask `phase().may_look_up()`.
    pub fn cache_lookup_without_policy<L: CacheKeyLock>(
        &mut self,
        storage: &mut S,
        lock: &mut L,
        now: Moment,
    ) -> Result<Option<(CacheMeta, S::Hit)>>
        requires { MayLookUp self.old.phase }
        ensures looks { LooksUp S.Hit.reader result None now self.old self.new
            (store_side S.state S.past storage.old) (store_side S.state S.past storage.new)
            (lock_side L.table L.past lock.old) (lock_side L.table L.past lock.new) }
    {
        // A decision is itself a policy. This one is lent and not in use, so it is never asked.
        let mut unasked = Decision::Ready { observed: 0 };
        match self.search(storage, lock, &mut unasked, false, &mut NoWitness, now)? {
            LookUp::Found(meta, hit) => Ok(Some((meta, hit))),
            LookUp::NotFound(Ok(_asked)) => Ok(None),
            LookUp::NotFound(Err(refused)) => Err(refused),
            LookUp::Deferred(_released) => Ok(None),
        }
    }

    /// Looks the key up in the store, hides what was created before the moment from which variants
    /// count, and asks for the key's lock if it hands nothing on and a lock is in use. If the store has
    /// nothing and a policy in use has not decided yet, it asks the policy first, and keeps its decision. If
    /// the policy defers, caching is turned off as deferred, and no lock is asked for. If the call fails, the
    /// request is unchanged but for a decision, and the lock table is unchanged; if it was the lock that
    /// failed, a hidden pair was let go.
    /// Requires the phase CacheKey or Stale; ask `phase().may_look_up()`.
    pub fn cache_lookup<L: CacheKeyLock, A: AdmissionPolicy>(
        &mut self,
        storage: &mut S,
        lock: &mut L,
        policy: &mut A,
        now: Moment,
    ) -> Result<Option<(CacheMeta, S::Hit)>>
        requires { MayLookUp self.old.phase }
        ensures looks { LooksUp S.Hit.reader result
            (decision_taken (S.state storage.old) self.old self.new) now self.old self.new
            (store_side S.state S.past storage.old) (store_side S.state S.past storage.new)
            (lock_side L.table L.past lock.old) (lock_side L.table L.past lock.new) }
        ensures decides { IsTrue (asks_policy (S.state storage.old) self.old)
            → Decides (λ k d. A.decides policy.old k d policy.new) self.old.key
            self.new.digest.admission }
        ensures same_policy { asks_policy (S.state storage.old) self.old ≡ false
            → policy.new ≡ policy.old }
    {
        match self.look_up(storage, lock, policy, &mut NoWitness, now)? {
            LookUp::Found(meta, hit) => Ok(Some((meta, hit))),
            LookUp::NotFound(Ok(_asked)) => Ok(None),
            LookUp::NotFound(Err(refused)) => Err(refused),
            LookUp::Deferred(_released) => Ok(None),
        }
    }

    /// `cache_lookup` with a result that says how far it came. Before anything else a witness is
    /// shown what the store has, even if it is hidden. If the call fails, the store's look-up failed or
    /// the witness did; then the request, the lock table and the policy are unchanged, and the found
    /// pair was let go.
    /// Requires the phase CacheKey or Stale; ask `phase().may_look_up()`.
    pub fn look_up<L: CacheKeyLock, A: AdmissionPolicy, W: Witness<S>>(
        &mut self,
        storage: &mut S,
        lock: &mut L,
        policy: &mut A,
        witness: &mut W,
        now: Moment,
    ) -> Result<LookUp<S::Hit>>
        requires { MayLookUp self.old.phase }
        ensures looks { TellsLookUp S.Hit.reader result
            (decision_taken (S.state storage.old) self.old self.new) now self.old self.new
            (store_side S.state S.past storage.old) (store_side S.state S.past storage.new)
            (lock_side L.table L.past lock.old) (lock_side L.table L.past lock.new) }
        ensures heard { OnOk result (HasHeard W.hears witness.old
            (found_for (S.state storage.old) self.old.key) witness.new) }
        ensures decides { IsTrue (asks_policy (S.state storage.old) self.old)
            → Decides (λ k d. A.decides policy.old k d policy.new) self.old.key
            self.new.digest.admission }
        ensures same_policy { asks_policy (S.state storage.old) self.old ≡ false
            → policy.new ≡ policy.old }
        ensures refused { IfErr result (λ e. ((e ≡ OutOfMemory)
            × (S.state storage.new ≡ S.state storage.old)
            × (S.past storage.new ≡ S.past storage.old))
            ⊎ (W.may_refuse e
            × (S.state storage.new ≡ passed_over (S.state storage.old) self.old.key)
            × (S.past storage.new
            ≡ passed_past (S.state storage.old) self.old.key (S.past storage.old)))) }
    {
        // A world makes this call, so what is promised of its history holds of the look-ups of its
        // users.
        self.search(storage, lock, policy, true, witness, now)
    }
}
