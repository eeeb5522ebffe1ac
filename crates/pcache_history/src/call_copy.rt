//! Copies of calls.
ghost use Rattle.std.specs.Prelude.{◌≡◌, IfOk};

use crate::call::{Act, Call, RequestAct};
use pcache_base::error::Result;
use std::alloc::AllocError;

impl Call {
    /// A copy of this call. Fails only when memory runs out.
    pub fn copied(&self) -> Result<Call, AllocError>
        ensures ok { IfOk result (λ copy. copy ≡ self.now) }
    {
        Ok(Call {
            request: self.request,
            act: self.act.copied()?,
        })
    }
}

impl Act {
    // A copy of this act. Fails only when memory runs out.
    fn copied(&self) -> Result<Act, AllocError>
        ensures ok { IfOk result (λ copy. copy ≡ self.now) }
    {
        Ok(match self {
            Act::Open { options } => Act::Open { options: *options },
            Act::End => Act::End,
            Act::Request(act) => Act::Request(act.copied()?),
            Act::Wait { now } => Act::Wait { now: *now },
            Act::Give { to } => Act::Give { to: *to },
            Act::Put { key, limit } => Act::Put {
                key: key.beside(key.get().copied()?)?,
                limit: *limit,
            },
            Act::Feed { bytes, now } => Act::Feed {
                bytes: bytes.clone()?,
                now: *now,
            },
            Act::Drop => Act::Drop,
            Act::Close => Act::Close,
            Act::Files(act) => Act::Files(*act),
        })
    }
}

impl RequestAct {
    // A copy of this act. Fails only when memory runs out.
    fn copied(&self) -> Result<RequestAct, AllocError>
        ensures ok { IfOk result (λ copy. copy ≡ self.now) }
    {
        Ok(match self {
            RequestAct::Enable { options } => RequestAct::Enable { options: *options },
            RequestAct::Disable { reason } => RequestAct::Disable { reason: *reason },
            RequestAct::Key { key } => RequestAct::Key {
                key: key.beside(key.get().copied()?)?,
            },
            RequestAct::Look { now, decision } => RequestAct::Look {
                now: *now,
                decision: *decision,
            },
            RequestAct::Vary { variance } => RequestAct::Vary {
                variance: *variance,
            },
            RequestAct::Found { status, now } => RequestAct::Found {
                status: *status,
                now: *now,
            },
            RequestAct::Bypass => RequestAct::Bypass,
            RequestAct::Miss => RequestAct::Miss,
            RequestAct::Meta { meta } => RequestAct::Meta {
                meta: meta.beside(meta.get().copied()?)?,
            },
            RequestAct::Begin => RequestAct::Begin,
            RequestAct::Write { bytes, eof } => RequestAct::Write {
                bytes: bytes.clone()?,
                eof: *eof,
            },
            RequestAct::Finish => RequestAct::Finish,
            RequestAct::Read => RequestAct::Read,
            RequestAct::Seek { start, end } => RequestAct::Seek {
                start: *start,
                end: *end,
            },
            RequestAct::Done => RequestAct::Done,
            RequestAct::Purge => RequestAct::Purge,
            RequestAct::Expire { now } => RequestAct::Expire { now: *now },
            RequestAct::Lock { is_used } => RequestAct::Lock { is_used: *is_used },
            RequestAct::Publish { tokens } => RequestAct::Publish {
                tokens: tokens.copied()?,
            },
            RequestAct::Release { reason } => RequestAct::Release { reason: *reason },
            RequestAct::Updating => RequestAct::Updating,
            RequestAct::Uncacheable { header, reason } => RequestAct::Uncacheable {
                header: header.beside(header.get().copied()?)?,
                reason: *reason,
            },
            RequestAct::Variance { variance } => RequestAct::Variance {
                variance: *variance,
            },
            RequestAct::Revalidate { meta } => RequestAct::Revalidate {
                meta: meta.beside(meta.get().copied()?)?,
            },
            RequestAct::Phase => RequestAct::Phase,
        })
    }
}
