//! What is known of a stored response: its times and its head.
ghost use Rattle.std.specs.Prelude.{◌≡◌, ◌*◌, ◌-◌, ◌≤◌, ◌↔◌, IsTrue, IfOk, Some, None};
ghost use Rattle.std.specs.Duration.{as_nanos};
ghost use Rattle.pcache_meta.specs.Header.{shown, shown_fields};
ghost use Rattle.pcache_meta.specs.Meta.{MayServeStale};

pub mod codec;
pub mod internal_meta;
pub mod spelled;

use crate::header::ResponseHeader;
use crate::meta::internal_meta::{InternalMetaLatest, InternalMetaV0};
use http_header::HeaderMap;
use pcache_base::entry_id::CacheEntryId;
use pcache_base::error::Result;
use pcache_base::key::HashBinary;
use pcache_base::moment::Moment;
use std::alloc::AllocError;
use std::marker::Model;
use std::time::Duration;

/// What is known of a stored response.
#[derive(Drop)]
pub struct CacheMeta {
    internal: InternalMetaLatest,
    header: ResponseHeader,
}

impl Model for CacheMeta {
    ghost use Rattle.pcache_meta.specs.Meta.{Meta};
    ghost use Rattle.pcache_meta.specs.Header.{shown};

    ghost Value = { Meta };

    ghost view = { λ m. record { internal = m.internal; header = shown m.header } };
}

impl CacheMeta {
    ghost use Rattle.pcache_meta.specs.Meta.{Meta, epoch_of, provenance_of, fresh_seconds, internal_changed, expired_at, with_entry_id};
    ghost use Rattle.pcache_meta.specs.Internal.{first_said};
    ghost use Rattle.std.specs.Borrow.{Lends, sem};
    ghost use Rattle.pcache_meta.specs.contracts.meta.CacheMeta.{the_row};
    ghost use Rattle.pcache_meta.specs.contracts.header.ResponseHeader as head;

    /// A new meta: its last update and its provenance are its creation.
    pub fn new(
        fresh_until: Moment,
        created: Moment,
        stale_while_revalidate_sec: u32,
        stale_if_error_sec: u32,
        header: ResponseHeader,
    ) -> CacheMeta
        ensures { result ≡ record {
          internal = first_said fresh_until created stale_while_revalidate_sec stale_if_error_sec;
          header = shown header;
        } }
    {
        let old = InternalMetaV0 {
            fresh_until,
            created,
            stale_while_revalidate_sec,
            stale_if_error_sec,
        };
        let internal = InternalMetaLatest {
            provenance: Some(created),
            ..InternalMetaLatest::from(old)
        };
        CacheMeta { internal, header }
    }

    /// When the response was first stored.
    pub fn created(&self) -> Moment
        ensures { result ≡ self.now.created }
    {
        self.internal.created
    }

    /// Sets when the response was first stored.
    pub fn set_created(&mut self, created: Moment)
        ensures { self.new ≡ internal_changed (λ x. record x { created = created }) self.old }
    {
        self.internal.created = created;
    }

    /// When the response was last revalidated.
    pub fn updated(&self) -> Moment
        ensures { result ≡ self.now.updated }
    {
        self.internal.updated
    }

    /// When the body was fetched: `created`, unless it was set.
    pub fn provenance(&self) -> Moment
        ensures { result ≡ provenance_of self.now }
    {
        self.internal.provenance.unwrap_or(self.internal.created)
    }

    /// The number of the write that stored the body, if it is known.
    pub fn entry_id(&self) -> Option<CacheEntryId>
        ensures { result ≡ self.now.entry_id }
    {
        self.internal.entry_id
    }

    /// Sets the number of the write that stored the body, or that it is not known.
    pub fn set_entry_id(&mut self, entry_id: Option<CacheEntryId>)
        ensures { self.new ≡ with_entry_id entry_id self.old }
    {
        self.internal.entry_id = entry_id;
    }

    /// Sets when the body was fetched.
    pub fn set_provenance(&mut self, provenance: Moment)
        ensures { self.new
            ≡ internal_changed (λ x. record x { provenance = Some provenance }) self.old }
    {
        self.internal.provenance = Some(provenance);
    }

    /// Sets the moment when the body was fetched to the one when the response was first stored.
    pub fn reset_provenance_to_created(&mut self)
        ensures { self.new
            ≡ internal_changed (λ x. record x { provenance = Some x.created }) self.old }
    {
        self.internal.provenance = Some(self.internal.created);
    }

    /// The moment from which ages count: the override if there is one, else `updated`.
    pub fn epoch(&self) -> Moment
        ensures { result ≡ epoch_of self.now }
    {
        self.internal
            .epoch_override
            .unwrap_or(self.internal.updated)
    }

    /// The moment that replaces `updated` in `epoch`, if one is set.
    pub fn epoch_override(&self) -> Option<Moment>
        ensures { result ≡ self.now.epoch_override }
    {
        self.internal.epoch_override
    }

    /// Sets the moment from which ages count.
    pub fn set_epoch_override(&mut self, epoch: Moment)
        ensures { self.new
            ≡ internal_changed (λ x. record x { epoch_override = Some epoch }) self.old }
    {
        self.internal.epoch_override = Some(epoch);
    }

    /// Removes the override: ages count from `updated` again.
    pub fn remove_epoch_override(&mut self)
        ensures { self.new ≡ internal_changed (λ x. record x { epoch_override = None }) self.old }
    {
        self.internal.epoch_override = None;
    }

    /// Whether the response is fresh at a moment: its freshness ends at that moment or later.
    pub fn is_fresh(&self, time: Moment) -> bool
        ensures { IsTrue result ↔ (time ≤ self.now.fresh_until) }
    {
        self.internal.fresh_until >= time
    }

    /// The whole seconds from `epoch` to the end of freshness; zero if freshness ended before.
    pub fn fresh_sec(&self) -> u64
        ensures { result ≡ fresh_seconds self.now }
    {
        self.internal.fresh_until.since(self.epoch()).as_secs()
    }

    /// The last moment at which the response is fresh.
    pub fn fresh_until(&self) -> Moment
        ensures { result ≡ self.now.fresh_until }
    {
        self.internal.fresh_until
    }

    /// The time since `epoch`; zero if that is later than `now`.
    pub fn age(&self, now: Moment) -> Duration
        ensures { as_nanos result ≡ now - epoch_of self.now }
    {
        now.since(self.epoch())
    }

    /// For how many seconds after its freshness a stale response may be served while it is
    /// revalidated.
    pub fn stale_while_revalidate_sec(&self) -> u32
        ensures { result ≡ self.now.stale_while_revalidate_sec }
    {
        self.internal.stale_while_revalidate_sec
    }

    /// For how many seconds after its freshness a stale response may be served after an error.
    pub fn stale_if_error_sec(&self) -> u32
        ensures { result ≡ self.now.stale_if_error_sec }
    {
        self.internal.stale_if_error_sec
    }

    /// Whether the response may be served at a moment while it is revalidated.
    pub fn serve_stale_while_revalidate(&self, time: Moment) -> bool
        ensures { IsTrue result
            ↔ MayServeStale self.now.fresh_until self.now.stale_while_revalidate_sec time }
    {
        self.can_serve_stale(self.internal.stale_while_revalidate_sec, time)
    }

    /// Whether the response may be served at a moment after an error.
    pub fn serve_stale_if_error(&self, time: Moment) -> bool
        ensures { IsTrue result
            ↔ MayServeStale self.now.fresh_until self.now.stale_if_error_sec time }
    {
        self.can_serve_stale(self.internal.stale_if_error_sec, time)
    }

    // If the end of the window is out of range, the window never ends.
    fn can_serve_stale(&self, window: u32, time: Moment) -> bool
        ensures { IsTrue result ↔ MayServeStale self.now.fresh_until window time }
    {
        if window == 0 {
            return false;
        }
        let length = Duration::from_secs(u64::from(window));
        match self.internal.fresh_until.checked_add(length) {
            Some(end) => time <= end,
            None => true,
        }
    }

    /// Sets both windows to zero, so that a stale response may not be served.
    pub fn disable_serve_stale(&mut self)
        ensures { self.new
            ≡ internal_changed
            (λ x. record x { stale_while_revalidate_sec = 0; stale_if_error_sec = 0 })
            self.old }
    {
        self.internal.stale_while_revalidate_sec = 0;
        self.internal.stale_if_error_sec = 0;
    }

    /// Ends freshness at this moment, unless it ends earlier. The windows are unchanged.
    pub fn expire_at(&mut self, time: Moment)
        ensures { self.new ≡ expired_at time self.old }
    {
        if time < self.internal.fresh_until {
            self.internal.fresh_until = time;
        }
    }

    /// Sets the end of freshness and both windows, and `now` as the moment of the last update.
    pub fn update_freshness(
        &mut self,
        fresh_until: Moment,
        stale_while_revalidate_sec: u32,
        stale_if_error_sec: u32,
        now: Moment,
    )
        ensures { self.new ≡ internal_changed (λ x. record x {
          fresh_until = fresh_until;
          stale_while_revalidate_sec = stale_while_revalidate_sec;
          stale_if_error_sec = stale_if_error_sec;
          updated = now;
        }) self.old }
    {
        self.internal.fresh_until = fresh_until;
        self.internal.stale_while_revalidate_sec = stale_while_revalidate_sec;
        self.internal.stale_if_error_sec = stale_if_error_sec;
        self.internal.updated = now;
    }

    /// The hash of what the response varies on, if there is one.
    pub fn variance(&self) -> Option<HashBinary>
        ensures { result ≡ self.now.variance }
    {
        self.internal.variance
    }

    /// Sets the hash of what the response varies on.
    pub fn set_variance_key(&mut self, variance: HashBinary)
        ensures { self.new
            ≡ internal_changed (λ x. record x { variance = Some variance }) self.old }
    {
        self.internal.variance = Some(variance);
    }

    /// Sets the hash of what the response varies on.
    pub fn set_variance(&mut self, variance: HashBinary)
        ensures { self.new
            ≡ internal_changed (λ x. record x { variance = Some variance }) self.old }
    {
        self.set_variance_key(variance);
    }

    /// Removes the variance: the response varies on nothing.
    pub fn remove_variance(&mut self)
        ensures { self.new ≡ internal_changed (λ x. record x { variance = None }) self.old }
    {
        self.internal.variance = None;
    }

    /// The response's head.
    pub fn response_header(&self) -> &ResponseHeader
        ensures { shown result.now ≡ self.now.header }
    {
        &self.header
    }

    /// The response's head, mutably.
    pub fn response_header_mut(&mut self) -> &mut ResponseHeader
        ensures* writes_back { sem 𝓛 (Lends the_row head.the_row self.entry result (λ h.
            record self.old { header = shown h })) }
        ensures value { shown result.now ≡ self.old.header }
    {
        &mut self.header
    }

    /// A copy of the response's head. Fails only when memory runs out.
    pub fn response_header_copy(&self) -> Result<ResponseHeader, AllocError>
        ensures ok { IfOk result (λ copy. shown copy ≡ self.now.header) }
    {
        self.header.copied()
    }

    /// The fields of the response's head.
    pub fn headers(&self) -> &HeaderMap
        ensures { shown_fields result.now ≡ self.now.header.fields }
    {
        &self.header.headers
    }

    /// A copy of this meta. Fails only when memory runs out.
    pub fn copied(&self) -> Result<CacheMeta, AllocError>
        ensures ok { IfOk result (λ copy. copy ≡ self.now) }
    {
        Ok(CacheMeta {
            internal: self.internal,
            header: self.header.copied()?,
        })
    }
}
