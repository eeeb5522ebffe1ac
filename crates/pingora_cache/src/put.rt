//! Stored responses that are pushed in.

pub use pcache_put::context::CachePutCtx;
pub use pcache_put::laws::same_put_however_cut;
pub use pcache_put::policy::{ByDefaults, CachePut, HeadLimit, default_cacheable};
pub use pcache_put::report::{PieceEnd, PieceReport, PutEnd, PutOutcome, PutReport, Written};
pub use pcache_response::response_parse::{
    INCOMPLETE_BODY, ParsePart, ResponseParse, same_however_cut, spelled_length,
};
