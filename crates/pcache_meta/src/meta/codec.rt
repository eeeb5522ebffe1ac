//! Metas as bytes: what they say beside their head, in MessagePack, and the text of their head.
ghost use Rattle.std.specs.Prelude.{◌≡◌, ◌≤◌, ◌<◌, ◌^◌, ◌++◌, [], length, OnOk, OnErr, IfOk, IfErr, IfSome, IsErrOf, ◌⊎◌};
ghost use Rattle.pcache_meta.specs.HeaderText.{header_written};
ghost use Rattle.pcache_meta.specs.Internal.{Internal, of_version2, upgraded};
ghost use Rattle.pcache_meta.specs.Meta.{Meta};
ghost use Rattle.pcache_meta.specs.MetaBytes.{AreMetaBytes, SpellsMeta};
ghost use Rattle.pcache_meta.specs.MetaReading.{internal_at, item_at, moment_at, new_internal_at, old_internal_at, upgraded_at, versioned_at};
ghost use Rattle.pcache_meta.specs.MetaSpelling.{InternalThen, SpellsInternal};
ghost use Rattle.pcache_meta.specs.MetaWriting.{AreItems, IsInternal, IsOldInternal, internal_written, items_written, last_written, moment_written, old_written, version0_written, version1_written, version2_written};
ghost use Rattle.pcache_base.specs.Moments.{IsMoment};
ghost use Rattle.pcache_meta.specs.Reading.{Gives, hash_at, number_at, optional_at};
ghost use Rattle.pcache_meta.specs.Writing.{number_written, optional_written};
ghost use Rattle.pcache_base.specs.declared.error.ErrorType.TheVariants.{InternalError, OutOfMemory};

use crate::header_text::reader::header_deserialize;
use crate::header_text::writer::header_serialize;
use crate::meta::CacheMeta;
use crate::meta::internal_meta::{InternalMetaV0, InternalMetaV1, InternalMetaV2, InternalMetaV3};
use crate::msgpack::reader::{Reader, unreadable};
use crate::msgpack::writer::{put_nil, put_number, put_optional_hash, put_short_array};
use pcache_base::entry_id::CacheEntryId;
use pcache_base::error::Result;
use pcache_base::key::HashBinary;
use pcache_base::moment::Moment;
use std::alloc::{AllocError, Global};

// The fewest bytes that a meta has. Nothing reads the nine that version 0 can be written with.
const MIN_SIZE: usize = 10;

// Enough bytes for nearly every meta, so that room is reserved once.
const USUAL_SIZE: usize = 96;

// ---- reading

#[tactic(auto, unfolding(crate::specs::MetaReading::moment_at))]
fn read_moment(reader: &mut Reader<'_>) -> Result<Moment>
    ensures { Gives (λ m. (m, reader.new)) result (moment_at reader.old) }
{
    reader.items(2)?;
    let secs = reader.number()?;
    let nanos = reader.number_below(1_000_000_000)? as u32;
    match Moment::new(secs, nanos) {
        Some(moment) => Ok(moment),
        None => Err(unreadable()),
    }
}

// An item that older versions leave out: `present` says whether it follows.
#[tactic(auto, unfolding(crate::specs::MetaReading::item_at))]
fn read_hash_item(reader: &mut Reader<'_>, present: bool) -> Result<Option<HashBinary>>
    ensures { Gives (λ hash. (hash, reader.new)) result (item_at present hash_at reader.old) }
{
    if !present {
        return Ok(None);
    }
    reader.optional_hash()
}

// An item that older versions leave out: `present` says whether it follows.
#[tactic(auto, unfolding(crate::specs::Reading::optional_at, crate::specs::MetaReading::item_at))]
fn read_moment_item(reader: &mut Reader<'_>, present: bool) -> Result<Option<Moment>>
    ensures { Gives (λ m. (m, reader.new)) result (item_at present moment_at reader.old) }
{
    if !present || reader.skip_nil() {
        return Ok(None);
    }
    Ok(Some(read_moment(reader)?))
}

// An item that older versions leave out: `present` says whether it follows.
#[tactic(auto, unfolding(crate::specs::Reading::optional_at, crate::specs::MetaReading::item_at))]
fn read_number_item(reader: &mut Reader<'_>, present: bool) -> Result<Option<CacheEntryId>>
    ensures { Gives (λ id. (id, reader.new)) result (item_at present number_at reader.old) }
{
    if !present || reader.skip_nil() {
        return Ok(None);
    }
    Ok(Some(CacheEntryId::new(reader.number()?)))
}

// Version 0, after the array's head.
#[tactic(auto, unfolding(crate::specs::MetaReading::old_internal_at))]
fn read_version0(reader: &mut Reader<'_>) -> Result<InternalMetaV0>
    ensures { Gives (λ m. (m, reader.new)) result (old_internal_at reader.old) }
{
    let fresh_until = read_moment(reader)?;
    let created = read_moment(reader)?;
    let stale_while_revalidate_sec = reader.number_below(1 << 32)? as u32;
    let stale_if_error_sec = reader.number_below(1 << 32)? as u32;
    Ok(InternalMetaV0 {
        fresh_until,
        created,
        stale_while_revalidate_sec,
        stale_if_error_sec,
    })
}

// Version 1, after the array's head and the version.
#[tactic(auto, unfolding(crate::specs::MetaReading::old_internal_at))]
fn read_version1(reader: &mut Reader<'_>) -> Result<InternalMetaV1>
    ensures { Gives (λ m. (m, reader.new)) result (old_internal_at reader.old) }
{
    let fresh_until = read_moment(reader)?;
    let created = read_moment(reader)?;
    let stale_while_revalidate_sec = reader.number_below(1 << 32)? as u32;
    let stale_if_error_sec = reader.number_below(1 << 32)? as u32;
    Ok(InternalMetaV1 {
        fresh_until,
        created,
        stale_while_revalidate_sec,
        stale_if_error_sec,
    })
}

// Versions 2 and 3, after the array's head and the version, with the first `extra` of the items
// that may be left out.
#[tactic(auto, unfolding(crate::specs::MetaReading::new_internal_at))]
fn read_items(reader: &mut Reader<'_>, extra: u64) -> Result<InternalMetaV3>
    ensures { Gives (λ m. (m, reader.new)) result (new_internal_at extra reader.old) }
{
    Ok(InternalMetaV3 {
        fresh_until: read_moment(reader)?,
        created: read_moment(reader)?,
        updated: read_moment(reader)?,
        stale_while_revalidate_sec: reader.number_below(1 << 32)? as u32,
        stale_if_error_sec: reader.number_below(1 << 32)? as u32,
        variance: read_hash_item(reader, 0 < extra)?,
        epoch_override: read_moment_item(reader, 1 < extra)?,
        provenance: read_moment_item(reader, 2 < extra)?,
        entry_id: read_number_item(reader, 3 < extra)?,
    })
}

// The version that the number of items shows.
#[tactic(auto, unfolding(crate::specs::MetaReading::versioned_at, crate::specs::MetaReading::upgraded_at))]
fn read_versioned(reader: &mut Reader<'_>, count: u64) -> Result<InternalMetaV3>
    ensures { Gives (λ m. (m, reader.new)) result (versioned_at count reader.old) }
{
    match count {
        4 => Ok(InternalMetaV3::from(read_version0(reader)?)),
        5 => {
            reader.mark(InternalMetaV1::VERSION)?;
            Ok(InternalMetaV3::from(read_version1(reader)?))
        }
        6..=9 => {
            reader.mark(InternalMetaV2::VERSION)?;
            read_items(reader, count - 6)
        }
        // Always ten items, since a meta of version 2 has nine at most: so their number tells the
        // version, and neither is read as the other.
        10 => {
            reader.mark(InternalMetaV3::VERSION)?;
            read_items(reader, 4)
        }
        _ => Err(unreadable()),
    }
}

// The meta, without its head, that all of the bytes spell, read from left to right.
#[tactic(auto, unfolding(crate::specs::MetaReading::internal_at))]
fn read_internal(bytes: &[u8]) -> Result<InternalMetaV3>
    ensures { Gives (λ m. m) result (internal_at bytes.now) }
{
    if bytes.len() < MIN_SIZE {
        return Err(unreadable());
    }
    let mut reader = Reader::new(bytes);
    let count = reader.array()?;
    let meta = read_versioned(&mut reader, count)?;
    if !reader.is_empty() {
        return Err(unreadable());
    }
    Ok(meta)
}

/// The meta, without its head, that all of the bytes spell, in any version.
pub fn deserialize_internal(bytes: &[u8]) -> Result<InternalMetaV3>
    ensures found { IfOk result (λ m. SpellsInternal bytes.now m) }
    ensures same { (m : Internal) → SpellsInternal bytes.now m → IfOk result (λ found. found ≡ m) }
    ensures refused { OnErr result ((m : Internal) → ¬ (SpellsInternal bytes.now m)) }
    ensures kind { IfErr result (λ e. e ≡ InternalError) }
{
    read_internal(bytes)
}

// ---- writing

#[tactic(auto, unfolding(crate::specs::MetaWriting::moment_written))]
fn put_moment(out: &mut Vec<u8>, moment: Moment) -> Result<(), AllocError>
    ensures written { OnOk result (out.new.items ≡ out.old.items ++ moment_written moment) }
    ensures range { OnOk result (IsMoment moment) }
{
    put_short_array(out, 2)?;
    put_number(out, moment.secs())?;
    put_number(out, u64::from(moment.nanos()))?;
    Ok(())
}

#[tactic(auto, unfolding(crate::specs::Writing::optional_written))]
fn put_optional_moment(out: &mut Vec<u8>, moment: Option<Moment>) -> Result<(), AllocError>
    ensures written { OnOk result (out.new.items
        ≡ out.old.items ++ optional_written moment_written moment) }
    ensures range { OnOk result (IfSome moment IsMoment) }
{
    match moment {
        None => put_nil(out)?,
        Some(moment) => put_moment(out, moment)?,
    }
    Ok(())
}

#[tactic(auto, unfolding(crate::specs::Writing::optional_written))]
fn put_optional_number(out: &mut Vec<u8>, id: Option<CacheEntryId>) -> Result<(), AllocError>
    ensures written { OnOk result (out.new.items
        ≡ out.old.items ++ optional_written number_written id) }
    ensures range { OnOk result (IfSome id (λ n. n < 2 ^ 64)) }
{
    match id {
        None => put_nil(out)?,
        Some(id) => put_number(out, id.get())?,
    }
    Ok(())
}

// The ninth item of version 2, if there is one.
#[tactic(auto, unfolding(crate::specs::MetaWriting::last_written))]
fn put_last_moment(out: &mut Vec<u8>, moment: Option<Moment>) -> Result<(), AllocError>
    ensures written { OnOk result (out.new.items ≡ out.old.items ++ last_written moment) }
    ensures range { OnOk result (IfSome moment IsMoment) }
{
    if let Some(moment) = moment {
        put_moment(out, moment)?;
    }
    Ok(())
}

// The items that versions 2 and 3 have alike.
#[tactic(auto, unfolding(crate::specs::MetaWriting::items_written))]
fn put_items(out: &mut Vec<u8>, meta: &InternalMetaV3) -> Result<(), AllocError>
    ensures written { OnOk result (out.new.items ≡ out.old.items ++ items_written meta.now) }
    ensures range { OnOk result (AreItems meta.now) }
{
    put_moment(out, meta.fresh_until)?;
    put_moment(out, meta.created)?;
    put_moment(out, meta.updated)?;
    put_number(out, u64::from(meta.stale_while_revalidate_sec))?;
    put_number(out, u64::from(meta.stale_if_error_sec))?;
    put_optional_hash(out, meta.variance)?;
    put_optional_moment(out, meta.epoch_override)?;
    Ok(())
}

// Writes version 3.
#[tactic(auto, unfolding(crate::specs::MetaWriting::internal_written))]
fn write_internal(alloc: Global, meta: &InternalMetaV3) -> Result<Vec<u8>, AllocError>
    ensures written { IfOk result (λ v. v.items ≡ internal_written meta.now) }
    ensures range { OnOk result (IsInternal meta.now) }
{
    let mut out = Vec::with_capacity(alloc, USUAL_SIZE)?;
    put_short_array(&mut out, 10)?;
    out.push(InternalMetaV3::VERSION)?;
    put_items(&mut out, meta)?;
    put_optional_moment(&mut out, meta.provenance)?;
    put_optional_number(&mut out, meta.entry_id)?;
    Ok(out)
}

// Writes version 2.
#[tactic(auto, unfolding(crate::specs::MetaWriting::version2_written))]
fn write_version2(alloc: Global, meta: &InternalMetaV2) -> Result<Vec<u8>, AllocError>
    ensures written { IfOk result (λ v. v.items ≡ version2_written meta.now) }
    ensures items { OnOk result (AreItems (of_version2 meta.now)) }
    ensures last { OnOk result (IfSome meta.now.provenance IsMoment) }
{
    let mut out = Vec::new(alloc);
    put_short_array(&mut out, if meta.provenance.is_some() { 9 } else { 8 })?;
    out.push(InternalMetaV2::VERSION)?;
    put_items(&mut out, &InternalMetaV3::from(*meta))?;
    put_last_moment(&mut out, meta.provenance)?;
    Ok(out)
}

// Writes what versions 0 and 1 say, after the array's head and the version.
#[tactic(auto, unfolding(crate::specs::MetaWriting::old_written))]
fn put_old(
    out: &mut Vec<u8>,
    fresh_until: Moment,
    created: Moment,
    stale_while_revalidate_sec: u32,
    stale_if_error_sec: u32,
) -> Result<(), AllocError>
    ensures written { OnOk result (out.new.items ≡ out.old.items ++ old_written (record {
      fresh_until = fresh_until;
      created = created;
      stale_while_revalidate_sec = stale_while_revalidate_sec;
      stale_if_error_sec = stale_if_error_sec;
    })) }
    ensures range { OnOk result (IsOldInternal (record {
      fresh_until = fresh_until;
      created = created;
      stale_while_revalidate_sec = stale_while_revalidate_sec;
      stale_if_error_sec = stale_if_error_sec;
    })) }
{
    put_moment(out, fresh_until)?;
    put_moment(out, created)?;
    put_number(out, u64::from(stale_while_revalidate_sec))?;
    put_number(out, u64::from(stale_if_error_sec))?;
    Ok(())
}

// Writes version 0.
#[tactic(auto, unfolding(crate::specs::MetaWriting::version0_written))]
fn write_version0(alloc: Global, meta: &InternalMetaV0) -> Result<Vec<u8>, AllocError>
    ensures written { IfOk result (λ v. v.items ≡ version0_written meta.now) }
    ensures range { OnOk result (IsOldInternal meta.now) }
{
    let mut out = Vec::new(alloc);
    put_short_array(&mut out, 4)?;
    put_old(
        &mut out,
        meta.fresh_until,
        meta.created,
        meta.stale_while_revalidate_sec,
        meta.stale_if_error_sec,
    )?;
    Ok(out)
}

// Writes version 1.
#[tactic(auto, unfolding(crate::specs::MetaWriting::version1_written))]
fn write_version1(alloc: Global, meta: &InternalMetaV1) -> Result<Vec<u8>, AllocError>
    ensures written { IfOk result (λ v. v.items ≡ version1_written meta.now) }
    ensures range { OnOk result (IsOldInternal meta.now) }
{
    let mut out = Vec::new(alloc);
    put_short_array(&mut out, 5)?;
    out.push(InternalMetaV1::VERSION)?;
    put_old(
        &mut out,
        meta.fresh_until,
        meta.created,
        meta.stale_while_revalidate_sec,
        meta.stale_if_error_sec,
    )?;
    Ok(out)
}

impl InternalMetaV0 {
    /// The bytes of version 0. If they are fewer than ten, no reader accepts them.
    pub fn serialize(&self, alloc: Global) -> Result<Vec<u8>, AllocError>
        ensures written { IfOk result (λ v. v.items ≡ version0_written self.now) }
        ensures spelled { IfOk result (λ v. InternalThen v.items (upgraded self.now) []) }
    {
        write_version0(alloc, self)
    }
}

impl InternalMetaV1 {
    /// The bytes of version 1.
    pub fn serialize(&self, alloc: Global) -> Result<Vec<u8>, AllocError>
        ensures written { IfOk result (λ v. v.items ≡ version1_written self.now) }
        ensures spelled { IfOk result (λ v. SpellsInternal v.items (upgraded self.now)) }
    {
        write_version1(alloc, self)
    }
}

impl InternalMetaV2 {
    /// The bytes of version 2: the items that it names, each in its shortest form.
    pub fn serialize(&self, alloc: Global) -> Result<Vec<u8>, AllocError>
        ensures written { IfOk result (λ v. v.items ≡ version2_written self.now) }
        ensures spelled { IfOk result (λ v. SpellsInternal v.items (of_version2 self.now)) }
    {
        write_version2(alloc, self)
    }
}

impl InternalMetaV3 {
    /// The bytes of version 3: all ten items, each in its shortest form.
    pub fn serialize(&self, alloc: Global) -> Result<Vec<u8>, AllocError>
        ensures written { IfOk result (λ v. v.items ≡ internal_written self.now) }
        ensures spelled { IfOk result (λ v. SpellsInternal v.items self.now) }
    {
        write_internal(alloc, self)
    }
}

// ---- metas

impl CacheMeta {
    /// The meta as two byte strings: what it says beside its head, in version 3, and the text of
    /// its head. The two read back as this meta. Fails only when memory runs out.
    pub fn serialize(&self, alloc: Global) -> Result<(Vec<u8>, Vec<u8>), AllocError>
        ensures written_internal { IfOk result (λ p.
            p.0.items ≡ internal_written self.now.internal) }
        ensures written_header { IfOk result (λ p. p.1.items ≡ header_written self.now.header) }
        ensures spelled { IfOk result (λ p. SpellsMeta p.0.items p.1.items self.now) }
    {
        let internal = self.internal.serialize(alloc)?;
        let header = header_serialize(alloc, &self.header)?;
        Ok((internal, header))
    }

    /// The meta that two byte strings spell, in any version. Fails with `OutOfMemory` only if they
    /// spell one, and otherwise with `InternalError`.
    pub fn deserialize(alloc: Global, internal: &[u8], header: &[u8]) -> Result<CacheMeta>
        ensures found { IfOk result (λ m. SpellsMeta internal.now header.now m) }
        ensures same { (m : Meta) → SpellsMeta internal.now header.now m
            → IfOk result (λ found. found ≡ m) }
        ensures refused { IsErrOf result InternalError
            → (m : Meta) → ¬ (SpellsMeta internal.now header.now m) }
        ensures memory { IfErr result (λ e.
            e ≡ OutOfMemory → AreMetaBytes internal.now header.now) }
        ensures kinds { IfErr result (λ e. (e ≡ OutOfMemory) ⊎ (e ≡ InternalError)) }
    {
        let internal = deserialize_internal(internal)?;
        let header = header_deserialize(alloc, header)?;
        Ok(CacheMeta { internal, header })
    }
}
