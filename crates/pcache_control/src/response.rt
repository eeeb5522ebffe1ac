//! Whether a response is stored: a meta to store it with, or a reason not to.

ghost use Rattle.std.specs.Prelude.{◌≡◌, true};
ghost use Rattle.pcache_control.specs.Responses.{is_cacheable};
ghost use Rattle.pcache_control.specs.declared.response.RespCacheable.TheVariants.{Cacheable};

use pcache_base::reason::NoCacheReason;
use pcache_meta::meta::CacheMeta;

/// Whether a response is to be stored.
#[derive(Drop)]
pub enum RespCacheable {
    /// It is, with this meta.
    Cacheable(CacheMeta),
    /// It is not, for this reason.
    Uncacheable(NoCacheReason),
}

impl RespCacheable {
    /// Whether the response is to be stored.
    pub fn is_cacheable(&self) -> bool
        ensures { result ≡ is_cacheable self.now }
    {
        matches!(self, RespCacheable::Cacheable(_))
    }

    /// The meta of a response that is to be stored. Requires one; ask `is_cacheable()`.
    pub fn unwrap_meta(self) -> CacheMeta
        requires { is_cacheable self ≡ true }
        ensures { self ≡ Cacheable result }
    {
        match self {
            RespCacheable::Cacheable(meta) => meta,
            RespCacheable::Uncacheable(_) => unreachable!(),
        }
    }
}
