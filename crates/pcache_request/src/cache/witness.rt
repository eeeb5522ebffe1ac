//! Observers of what a look-up finds.
use pcache_base::error::Result;
use pcache_meta::meta::CacheMeta;
use pcache_store::storage::{HandleHit, Storage};

/// Is shown what a look-up finds, before the look-up acts on it.
pub trait Witness<S: Storage> {
    ghost use Rattle.std.specs.Prelude.{OnOk, IfErr};
    ghost use Rattle.pcache_base.specs.declared.error.ErrorType.{ErrorType};
    ghost use Rattle.pcache_meta.specs.Meta.{Meta};
    ghost use Rattle.pcache_store.specs.Store.{Reader};
    ghost use Rattle.pcache_request.specs.Witnesses.{IsFound};

    /// The witness after it was shown a pair. By default nothing is stated.
    ghost hears: { Self → Meta × Reader → Self → Type 0 } = { λ _ _ _. Unit {0} };

    /// The errors with which it may fail: by default any.
    ghost may_refuse: { ErrorType → Type 0 } = { λ _. Unit {0} };

    /// Takes note of a pair that the store has, even if the look-up hides it. If this fails, the
    /// look-up fails, and lets the pair go.
    fn found(&mut self, meta: &CacheMeta, hit: &S::Hit) -> Result<()>
        requires { IsFound (meta.now, S.Hit.reader hit.now) }
        ensures hears { OnOk result (hears self.old (meta.now, S.Hit.reader hit.now) self.new) }
        ensures kind { IfErr result may_refuse };
}

/// A witness that takes note of nothing, and never fails.
#[derive(Clone, Copy, Debug)]
pub struct NoWitness;

impl<S: Storage> Witness<S> for NoWitness {
    ghost use Rattle.std.specs.Prelude.{◌≡◌};

    ghost hears = { λ before _ after. after ≡ before };

    ghost may_refuse = { λ _. ⊥ };

    fn found(&mut self, _meta: &CacheMeta, _hit: &S::Hit) -> Result<()> {
        // A copy of what is found is dear, so who keeps no history takes none.
        Ok(())
    }
}
