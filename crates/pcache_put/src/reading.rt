//! What a piece is read as, before anything of it is stored.
use crate::boxed::Boxed;
use bytes::Bytes;
use pcache_base::error::Error;
use pcache_base::reason::NoCacheReason;
use pcache_meta::meta::CacheMeta;

/// Bytes of a body, and whether the body is whole with them.
#[derive(Drop)]
pub struct BodyPart {
    /// The bytes.
    pub bytes: Bytes,
    /// Whether the body is whole.
    pub is_last: bool,
}

/// What a piece was read as, before anything of it is stored.
#[derive(Drop)]
pub enum ReadPiece {
    /// The head has not ended.
    Unfinished,
    /// The head ended, and nothing is stored, for this reason.
    Declined(NoCacheReason),
    /// The head ended. A write is to begin with this meta, and the piece has this part of the body.
    Begins(Boxed<CacheMeta>, Option<BodyPart>),
    /// The head ended before, and the piece has this part of the body.
    Brings(Option<BodyPart>),
    /// The piece can't be read.
    Refused(Error),
    /// The piece was not read: the response is not stored, or an earlier call failed.
    Ignored,
}
