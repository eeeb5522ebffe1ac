//! The order in which these managers keep their entries, for callers that know no manager.

use crate::discipline::Discipline;
use crate::manager::Manager;
use pcache_base::moment::Moment;
use pcache_evict::eviction::CacheEntryKey;
use pcache_evict::eviction::ordered::OrderedManager;
use std::alloc::AllocError;

impl<Q: Discipline<S>, S> OrderedManager for Manager<Q, S> {
    ghost use Rattle.std.specs.Prelude.{refl};
    ghost use Rattle.pcache_policies.specs.Managed.{policy_of};

    ghost Order = { Q.Order };

    ghost policy = { policy_of Q.way };

    ghost order = { λ m. m.order };

    ghost listed = { λ m. refl };

    fn admit_in_order(
        &mut self,
        item: CacheEntryKey,
        size: usize,
        fresh_until: Moment,
    ) -> Result<Vec<CacheEntryKey>, AllocError> {
        Q::laws(); // for the prover: the way is `Lawful`
        let out = Manager::admit(self, item, size, fresh_until)?;
        Ok(out)
    }

    fn increment_in_order(
        &mut self,
        item: &CacheEntryKey,
        delta: usize,
        max_weight: Option<usize>,
    ) -> Result<Vec<CacheEntryKey>, AllocError> {
        Q::laws(); // for the prover: the way is `Lawful`
        let out = Manager::increment_weight(self, item, delta, max_weight)?;
        Ok(out)
    }

    fn remove_in_order(&mut self, item: &CacheEntryKey) {
        Q::laws(); // for the prover: the way is `Lawful`
        Manager::remove(self, item);
    }

    fn access_in_order(
        &mut self,
        item: &CacheEntryKey,
        size: usize,
        fresh_until: Moment,
    ) -> Result<bool, AllocError> {
        Q::laws(); // for the prover: the way is `Lawful`
        let was = Manager::access(self, item, size, fresh_until)?;
        Ok(was)
    }
}
