//! Policies of admission.
//! Expected decisions are hand-computed.
use pcache_base::error::Result;
use pcache_base::key::CacheKey;
use pcache_predict::admission::{AdmissionPolicy, Decision};
use std::alloc::Global;

// Stores from the third time on.
#[derive(Drop)]
struct ThirdTime {
    observed: u32,
}

impl AdmissionPolicy for ThirdTime {
    fn observe(&mut self, _key: &CacheKey) -> Decision {
        self.observed = self.observed.saturating_add(1);
        let observed = self.observed;
        if observed < 3 {
            Decision::Defer { observed }
        } else {
            Decision::Ready { observed }
        }
    }
}

// How often a key was observed, and ten more if it is deferred.
fn asked<P: AdmissionPolicy>(policy: &mut P, key: &CacheKey) -> u32 {
    let decision = policy.observe(key);
    let more = if decision.is_deferred() { 10 } else { 0 };
    decision.observed().saturating_add(more)
}

fn third_is_ready(policy: &mut ThirdTime, key: &CacheKey) -> bool {
    let first = asked(policy, key);
    let second = asked(policy, key);
    let third = asked(policy, key);
    [first, second, third] == [11, 12, 3]
}

fn key(alloc: Global) -> Result<CacheKey> {
    let primary = b"a".to_vec(alloc)?;
    Ok(CacheKey::new(primary, String::from_str(alloc, "1")?))
}

#[test]
fn decisions(rt: HostRuntime) {
    let is_good = match key(rt.alloc()) {
        Ok(key) => third_is_ready(&mut ThirdTime { observed: 0 }, &key),
        Err(_refused) => false,
    };
    assert!(rt; is_good);
}
