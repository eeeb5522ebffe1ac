//! What a meta says beside its head, in each version of the format.
ghost use Rattle.std.specs.Prelude.{◌≡◌};
ghost use Rattle.pcache_meta.specs.Internal.{in_version2, of_the_epoch, of_version2, upgraded};

use pcache_base::entry_id::CacheEntryId;
use pcache_base::key::HashBinary;
use pcache_base::moment::Moment;
use std::marker::Model;

/// The version that is written.
pub type InternalMetaLatest = InternalMetaV3;

/// What a meta of version 0 says. It names no version.
#[derive(Clone, Copy, Debug, PartialEq, Eq)]
pub struct InternalMetaV0 {
    /// Until when the response is fresh.
    pub fresh_until: Moment,
    /// When the response was first stored.
    pub created: Moment,
    /// For how many seconds a stale response may be served while it is revalidated.
    pub stale_while_revalidate_sec: u32,
    /// For how many seconds a stale response may be served after an error.
    pub stale_if_error_sec: u32,
}

impl Model for InternalMetaV0 {
    ghost use Rattle.pcache_meta.specs.Internal.{OldInternal};

    ghost Value = { OldInternal };

    ghost view = { λ m. record {
      fresh_until = m.fresh_until;
      created = m.created;
      stale_while_revalidate_sec = m.stale_while_revalidate_sec;
      stale_if_error_sec = m.stale_if_error_sec;
    } };

    ghost inverse = { λ m. record {
      fresh_until = m.fresh_until;
      created = m.created;
      stale_while_revalidate_sec = m.stale_while_revalidate_sec;
      stale_if_error_sec = m.stale_if_error_sec;
    } };
}

/// What a meta of version 1 says.
#[derive(Clone, Copy, Debug, PartialEq, Eq)]
pub struct InternalMetaV1 {
    /// Until when the response is fresh.
    pub fresh_until: Moment,
    /// When the response was first stored.
    pub created: Moment,
    /// For how many seconds a stale response may be served while it is revalidated.
    pub stale_while_revalidate_sec: u32,
    /// For how many seconds a stale response may be served after an error.
    pub stale_if_error_sec: u32,
}

impl Model for InternalMetaV1 {
    ghost use Rattle.pcache_meta.specs.Internal.{OldInternal};

    ghost Value = { OldInternal };

    ghost view = { λ m. record {
      fresh_until = m.fresh_until;
      created = m.created;
      stale_while_revalidate_sec = m.stale_while_revalidate_sec;
      stale_if_error_sec = m.stale_if_error_sec;
    } };

    ghost inverse = { λ m. record {
      fresh_until = m.fresh_until;
      created = m.created;
      stale_while_revalidate_sec = m.stale_while_revalidate_sec;
      stale_if_error_sec = m.stale_if_error_sec;
    } };
}

impl InternalMetaV1 {
    /// The number of this version in the format.
    pub const VERSION: u8 = 1;
}

/// What a meta of version 2 says. Its type says that it is version 2, so no field does.
#[derive(Clone, Copy, Debug, PartialEq, Eq)]
pub struct InternalMetaV2 {
    /// Until when the response is fresh.
    pub fresh_until: Moment,
    /// When the response was first stored.
    pub created: Moment,
    /// When the response was last revalidated.
    pub updated: Moment,
    /// For how many seconds a stale response may be served while it is revalidated.
    pub stale_while_revalidate_sec: u32,
    /// For how many seconds a stale response may be served after an error.
    pub stale_if_error_sec: u32,
    /// The hash of what the response varies on, if there is one.
    pub variance: Option<HashBinary>,
    /// The moment from which ages count, if it is not `updated`.
    pub epoch_override: Option<Moment>,
    /// When the body was fetched, if that is not `created`.
    pub provenance: Option<Moment>,
}

impl InternalMetaV2 {
    /// The number of this version in the format.
    pub const VERSION: u8 = 2;
}

impl Default for InternalMetaV2 {
    ghost is_default = { λ m. m ≡ in_version2 of_the_epoch };

    /// Created, updated and stale at the epoch.
    fn default() -> InternalMetaV2 {
        InternalMetaV2::from(InternalMetaV0 {
            fresh_until: Moment::EPOCH,
            created: Moment::EPOCH,
            stale_while_revalidate_sec: 0,
            stale_if_error_sec: 0,
        })
    }
}

impl From<InternalMetaV0> for InternalMetaV2 {
    ghost from_gives = { λ old new. new ≡ in_version2 old };

    /// The older meta, last updated when it was created.
    fn from(v0: InternalMetaV0) -> InternalMetaV2 {
        InternalMetaV2 {
            fresh_until: v0.fresh_until,
            created: v0.created,
            updated: v0.created,
            stale_while_revalidate_sec: v0.stale_while_revalidate_sec,
            stale_if_error_sec: v0.stale_if_error_sec,
            variance: None,
            epoch_override: None,
            provenance: None,
        }
    }
}

impl From<InternalMetaV1> for InternalMetaV2 {
    ghost from_gives = { λ old new. new ≡ in_version2 old };

    /// The older meta, last updated when it was created.
    fn from(v1: InternalMetaV1) -> InternalMetaV2 {
        InternalMetaV2::from(InternalMetaV0 {
            fresh_until: v1.fresh_until,
            created: v1.created,
            stale_while_revalidate_sec: v1.stale_while_revalidate_sec,
            stale_if_error_sec: v1.stale_if_error_sec,
        })
    }
}

/// What a meta of version 3 says, the one that is written.
#[derive(Clone, Copy, Debug, PartialEq, Eq)]
pub struct InternalMetaV3 {
    /// Until when the response is fresh.
    pub fresh_until: Moment,
    /// When the response was first stored.
    pub created: Moment,
    /// When the response was last revalidated.
    pub updated: Moment,
    /// For how many seconds a stale response may be served while it is revalidated.
    pub stale_while_revalidate_sec: u32,
    /// For how many seconds a stale response may be served after an error.
    pub stale_if_error_sec: u32,
    /// The hash of what the response varies on, if there is one.
    pub variance: Option<HashBinary>,
    /// The moment from which ages count, if it is not `updated`.
    pub epoch_override: Option<Moment>,
    /// When the body was fetched, if that is not `created`.
    pub provenance: Option<Moment>,
    /// The number of the write that stored the body, if a storage gave one.
    pub entry_id: Option<CacheEntryId>,
}

impl InternalMetaV3 {
    /// The number of this version in the format.
    pub const VERSION: u8 = 3;
}

impl Default for InternalMetaV3 {
    ghost is_default = { λ m. m ≡ upgraded of_the_epoch };

    /// Created, updated and stale at the epoch.
    fn default() -> InternalMetaV3 {
        InternalMetaV3::from(InternalMetaV2::default())
    }
}

impl From<InternalMetaV0> for InternalMetaV3 {
    ghost from_gives = { λ old new. new ≡ upgraded old };

    /// The older meta, last updated when it was created.
    fn from(v0: InternalMetaV0) -> InternalMetaV3 {
        // By way of each version between: so what an added field is in older metas is said once.
        InternalMetaV3::from(InternalMetaV2::from(v0))
    }
}

impl From<InternalMetaV1> for InternalMetaV3 {
    ghost from_gives = { λ old new. new ≡ upgraded old };

    /// The older meta, last updated when it was created.
    fn from(v1: InternalMetaV1) -> InternalMetaV3 {
        InternalMetaV3::from(InternalMetaV2::from(v1))
    }
}

impl From<InternalMetaV2> for InternalMetaV3 {
    ghost from_gives = { λ old new. new ≡ of_version2 old };

    /// The same, with no number of a write.
    fn from(v2: InternalMetaV2) -> InternalMetaV3 {
        InternalMetaV3 {
            fresh_until: v2.fresh_until,
            created: v2.created,
            updated: v2.updated,
            stale_while_revalidate_sec: v2.stale_while_revalidate_sec,
            stale_if_error_sec: v2.stale_if_error_sec,
            variance: v2.variance,
            epoch_override: v2.epoch_override,
            provenance: v2.provenance,
            entry_id: None,
        }
    }
}
