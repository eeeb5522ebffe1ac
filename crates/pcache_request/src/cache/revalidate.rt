//! A stale response that the origin confirmed as valid.
ghost use Rattle.std.specs.Prelude.{◌≡◌, ◌⊎◌, IsTrue, IfErr, OnOk, Some};
ghost use Rattle.http_header.specs.FieldName.{is_field_name};
ghost use Rattle.http_header.specs.HeaderMap.{RefusesAppend, RefusesInsert, append, get_all, insert};
ghost use Rattle.http_header.specs.declared.map.HeaderMapError.TheVariants.{MaxSizeReached};
ghost use Rattle.http_header.specs.Token.{lowercase};
ghost use Rattle.pcache_base.specs.declared.error.ErrorType.TheVariants.{OutOfMemory, InternalError};
ghost use Rattle.pcache_meta.specs.Header.{shown_fields};
ghost use Rattle.pcache_request.specs.Renewals.{LacksRoom, LacksRoomAfter, LacksRoomFor, added_all, field_renewed, fields_renewed, renewed_by, renewed_names, shown_values};

use super::{HttpCache, LockName, Renewal, settle};
use crate::phase::CachePhase;
use http_header::{HeaderMap, HeaderMapError, HeaderValue, ValueIter};
use pcache_base::error::{Error, ErrorType, Result};
use pcache_lock::lock::{CacheKeyLock, LockStatus};
use pcache_meta::header::{RespHeader, ResponseHeader};
use pcache_meta::meta::CacheMeta;
use pcache_store::storage::Storage;

// Gives the new meta of an old body the creation of the old meta, and the moment from which the old
// body came.
fn renew(meta: &mut CacheMeta, old: &CacheMeta)
    ensures { meta.new ≡ renewed_by meta.old (Some old.now) }
{
    meta.set_provenance(old.provenance());
    meta.set_created(old.created());
}

fn refusal(error: HeaderMapError) -> Error
    ensures kind { (result ≡ OutOfMemory) ⊎ (result ≡ InternalError) }
    ensures full { result ≡ InternalError → error ≡ MaxSizeReached }
{
    match error {
        // The map has no room for a further name, whatever memory is free (`LacksRoom`).
        HeaderMapError::MaxSizeReached => Error::new(ErrorType::InternalError),
        HeaderMapError::OutOfMemory => Error::new(ErrorType::OutOfMemory),
    }
}

// Replaces all values under a name by one.
fn set_field(headers: &mut HeaderMap, name: &'static str, value: &HeaderValue) -> Result<()>
    requires { IsTrue (is_field_name name.now) }
    ensures ok { OnOk result (headers.new ≡ insert headers.old (lowercase name.now) value.now) }
    ensures full { IfErr result (λ e.
        e ≡ InternalError → RefusesInsert headers.old (lowercase name.now)) }
    ensures kind { IfErr result (λ e. (e ≡ OutOfMemory) ⊎ (e ≡ InternalError)) }
{
    match headers.insert(name, value.clone()?) {
        Ok(_) => Ok(()),
        Err(error) => Err(refusal(error)),
    }
}

// Adds a value after those under a name.
fn add_field(headers: &mut HeaderMap, name: &'static str, value: &HeaderValue) -> Result<()>
    requires { IsTrue (is_field_name name.now) }
    ensures ok { OnOk result (headers.new ≡ append headers.old (lowercase name.now) value.now) }
    ensures full { IfErr result (λ e.
        e ≡ InternalError → RefusesAppend headers.old (lowercase name.now)) }
    ensures kind { IfErr result (λ e. (e ≡ OutOfMemory) ⊎ (e ≡ InternalError)) }
{
    match headers.append(name, value.clone()?) {
        Ok(_) => Ok(()),
        Err(error) => Err(refusal(error)),
    }
}

// Adds all values after those under a name, in order.
#[tactic(auto, using(crate::proofs::Fields::shown_append, crate::proofs::Fields::lacks_now, crate::proofs::Fields::lacks_later))]
fn add_fields(
    headers: &mut HeaderMap,
    name: &'static str,
    values: ValueIter<'_, HeaderValue>,
) -> Result<()>
    requires { IsTrue (is_field_name name.now) }
    ensures ok { OnOk result (shown_fields headers.new
        ≡ added_all (shown_fields headers.old) (lowercase name.now) (shown_values values.entry)) }
    ensures full { IfErr result (λ e. e ≡ InternalError
        → LacksRoomAfter (shown_fields headers.old) (lowercase name.now)
        (shown_values values.entry)) }
    ensures kind { IfErr result (λ e. (e ≡ OutOfMemory) ⊎ (e ≡ InternalError)) }
{
    'values: for value in values {
        add_field(headers, name, value)?;
    }
    Ok(())
}

// Replaces the values under a name by those that the new response has; if it has none, nothing
// changes.
#[tactic(auto, using(crate::proofs::Fields::renewed_none, crate::proofs::Fields::renewed_some, crate::proofs::Fields::lacks_first, crate::proofs::Fields::lacks_rest))]
fn renew_field(headers: &mut HeaderMap, answer: &HeaderMap, name: &'static str) -> Result<()>
    requires { IsTrue (is_field_name name.now) }
    ensures ok { OnOk result (shown_fields headers.new
        ≡ field_renewed (shown_fields answer.now) (shown_fields headers.old) (lowercase name.now)) }
    ensures full { IfErr result (λ e. e ≡ InternalError
        → LacksRoomFor (shown_fields headers.old) (lowercase name.now)
        (get_all (shown_fields answer.now) (lowercase name.now))) }
    ensures kind { IfErr result (λ e. (e ≡ OutOfMemory) ⊎ (e ≡ InternalError)) }
{
    let mut values = answer.get_all(name).iter();
    let Some(first) = values.next() else {
        return Ok(());
    };
    set_field(headers, name, first)?;
    add_fields(headers, name, values)
}

// The same for each field that the new response renews.
fn renew_fields(headers: &mut HeaderMap, answer: &HeaderMap) -> Result<()>
    ensures ok { OnOk result (shown_fields headers.new
        ≡ fields_renewed (shown_fields answer.now) (shown_fields headers.old)) }
    ensures full { IfErr result (λ e. e ≡ InternalError
        → LacksRoom (shown_fields answer.now) (shown_fields headers.old) renewed_names) }
    ensures kind { IfErr result (λ e. (e ≡ OutOfMemory) ⊎ (e ≡ InternalError)) }
{
    renew_field(headers, answer, "cache-control")?;
    renew_field(headers, answer, "expires")?;
    renew_field(headers, answer, "cache-tag")?;
    renew_field(headers, answer, "cdn-cache-control")?;
    renew_field(headers, answer, "etag")
}

impl<S: Storage> HttpCache<S> {
    ghost use Rattle.std.specs.Prelude.{◌≡◌, ◌⊎◌, IfOk, IfErr, OnOk, IsTrue, IfSome, option_map};
    ghost use Rattle.pcache_base.specs.declared.error.ErrorType.TheVariants.{OutOfMemory, InternalError};
    ghost use Rattle.pcache_meta.specs.Header.{shown, shown_fields};
    ghost use Rattle.pcache_request.specs.Renewals.{LacksRoom, renewed_by, renewed_names, header_renewed};
    ghost use Rattle.pcache_request.specs.Renewing.{IsRenewed, Renews};
    ghost use Rattle.pcache_request.specs.Reports.{name_of};
    ghost use Rattle.pcache_request.specs.Sides.{lock_side, store_side};
    ghost use Rattle.pcache_request.specs.Stale.{MayRevalidate};

    /// Takes the meta of a response that says that the stale body is still valid. The meta gets the
    /// creation of the old meta, and the moment from which its body came. The store sets it for the
    /// complete body of the key, and the permit is released as done. Returns whether there was such a
    /// body. The request goes on as revalidated, with the new meta, even if the store could not set it
    /// because memory ran out.
    /// Requires the phase Stale, and a meta; ask `may_revalidate()`.
    pub fn revalidate_cache_meta<L: CacheKeyLock>(
        &mut self,
        storage: &mut S,
        lock: &mut L,
        meta: CacheMeta,
    ) -> Result<bool>
        requires { MayRevalidate self.old }
        ensures renews { Renews result meta self.old
            (store_side S.state S.past storage.old) (store_side S.state S.past storage.new) }
        ensures goes_on { IsRenewed meta self.old self.new
            (lock_side L.table L.past lock.old) (lock_side L.table L.past lock.new) }
    {
        let Renewal {
            updated,
            released: _,
        } = self.renew_meta(storage, lock, meta);
        updated
    }

    /// `revalidate_cache_meta` with a result that also names the lock that was released.
    /// Requires the phase Stale, and a meta; ask `may_revalidate()`.
    pub fn renew_meta<L: CacheKeyLock>(
        &mut self,
        storage: &mut S,
        lock: &mut L,
        meta: CacheMeta,
    ) -> Renewal
        requires { MayRevalidate self.old }
        ensures renews { Renews result.updated meta self.old
            (store_side S.state S.past storage.old) (store_side S.state S.past storage.new) }
        ensures goes_on { IsRenewed meta self.old self.new
            (lock_side L.table L.past lock.old) (lock_side L.table L.past lock.new) }
        ensures released { result.released ≡ option_map name_of self.old.held }
    {
        let Some(key) = &self.key else { unreachable!() };
        let Some(old) = &self.meta else {
            unreachable!()
        };
        let mut meta = meta;
        renew(&mut meta, old);
        let updated = storage.update_meta(self.alloc, key, &meta);
        self.meta = Some(meta);
        // Done, also if the store failed to set the meta: the others find the body as it was.
        let released = settle(
            self.alloc,
            &self.key,
            &mut self.held,
            lock,
            LockStatus::Done,
        );
        self.phase = CachePhase::Revalidated;
        Renewal { updated, released }
    }

    /// The part of `renew_meta` that needs no storage, which its caller is to tell of the new meta: the request goes on as
    /// revalidated with it, and the permit is released as done. Returns the lock that was released.
    /// Requires the phase Stale, and a meta; ask `may_revalidate()`.
    pub fn renew_request<L: CacheKeyLock>(
        &mut self,
        lock: &mut L,
        meta: CacheMeta,
    ) -> Option<LockName>
        requires { MayRevalidate self.old }
        ensures goes_on { IsRenewed meta self.old self.new
            (lock_side L.table L.past lock.old) (lock_side L.table L.past lock.new) }
        ensures released { result ≡ option_map name_of self.old.held }
    {
        let Some(old) = &self.meta else {
            unreachable!()
        };
        let mut meta = meta;
        renew(&mut meta, old);
        self.meta = Some(meta);
        self.phase = CachePhase::Revalidated;
        settle(
            self.alloc,
            &self.key,
            &mut self.held,
            lock,
            LockStatus::Done,
        )
    }

    /// The head of the stale response with the fields that the new response renews: Cache-Control,
    /// Expires, Cache-Tag, CDN-Cache-Control and ETag, each with the new response's values if it has
    /// any. Fails with `OutOfMemory` when memory runs out, and with `InternalError` only if the head
    /// has no room for one of these values.
    /// Requires the phase Stale, and a meta; ask `may_revalidate()`.
    pub fn revalidate_merge_header(&self, resp: &RespHeader) -> Result<ResponseHeader>
        requires { MayRevalidate self.now }
        ensures ok { IfOk result (λ h. IfSome self.now.meta (λ m.
            shown h ≡ header_renewed (shown_fields resp.now.headers) m.header)) }
        ensures full { IfErr result (λ e. e ≡ InternalError
            → IfSome self.now.meta (λ m.
            LacksRoom (shown_fields resp.now.headers) m.header.fields renewed_names)) }
        ensures kind { IfErr result (λ e. (e ≡ OutOfMemory) ⊎ (e ≡ InternalError)) }
    {
        let Some(meta) = &self.meta else {
            unreachable!()
        };
        // A copy, so that the stored head is whole if a field is refused. It takes memory even
        // where no field is set.
        let mut header = meta.response_header_copy()?;
        renew_fields(&mut header.headers, &resp.headers)?;
        Ok(header)
    }
}
