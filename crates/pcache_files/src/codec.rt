//! The bytes of an eviction manager's file: an array of entries with their weights, most recent
//! first, in the forms of MessagePack that `pcache_meta::msgpack` has.
ghost use Rattle.std.specs.Prelude.{◌≡◌, ◌-◌, ◌<◌, ◌≤◌, ◌^◌, ◌++◌, ◌⊎◌, drop, length, None, OnOk, OnErr, IfErr, IfOk, IfSome, IsErrOf};
ghost use Rattle.pcache_base.specs.declared.error.ErrorType.TheVariants.{InternalError, OutOfMemory};
ghost use Rattle.pcache_evict.specs.Entry.{key_of, id_of};
ghost use Rattle.pcache_evict.specs.Recency.{Recency};
ghost use Rattle.pcache_meta.specs.Reading.{Gives, GivesOrWants, array_at, number_at, optional_at, wide_at};
ghost use Rattle.std.specs.Int.{w8, w16, w32};
ghost use Rattle.pcache_files.specs.FileReading.{key_items_at, only_at, pair_at, entry_at, node_at, nodes_at, file_at, tag_at, text_len_at, tag_len_at};
ghost use Rattle.pcache_files.specs.FileSpelling.{NodeThen, SpellsFile};
ghost use Rattle.pcache_meta.specs.Spelling.{ArrayThen};
ghost use Rattle.pcache_files.specs.FileWriting.{key_written, entry_written, node_written, file_written, IsKey, IsNode, IsTooLong};

use lru::Iter;
use pcache_base::error::{Error, ErrorType, Result};
use pcache_base::key::CompactCacheKey;
use pcache_base::text::Text;
use pcache_evict::eviction::{CacheEntryId, CacheEntryKey};
use pcache_meta::msgpack::reader::Reader;
use pcache_meta::msgpack::writer::{put_array, put_hash, put_number, put_optional_hash, put_text};
use std::alloc::{AllocError, Global};

/// The fewest bytes that a node has: two heads of one byte, one of three, sixteen bytes of a hash,
/// nil, an empty tag and a weight.
const NODE_BYTES: usize = 24;

// ---- reading

/// The error for bytes that spell no list.
pub(crate) fn unreadable() -> Error
    ensures { result ≡ InternalError }
{
    Error::new(ErrorType::InternalError)
}

fn owned(alloc: Global, text: &str) -> Result<Text, AllocError>
    ensures ok { IfOk result (λ t. t ≡ text.now) }
{
    Ok(Text::new(String::from_str(alloc, text)?))
}

// The items of a key, after the array's head.
#[tactic(auto, unfolding(crate::specs::FileReading::key_items_at))]
fn read_key_items(alloc: Global, reader: &mut Reader<'_>) -> Result<CompactCacheKey>
    ensures { GivesOrWants (λ k. (k, reader.new)) result (key_items_at reader.old) }
{
    let primary = reader.hash()?;
    let variance = reader.optional_hash()?;
    let tag = reader.text()?;
    let user_tag = owned(alloc, tag)?;
    Ok(CompactCacheKey {
        primary,
        variance,
        user_tag,
    })
}

// An entry that is a key alone, after the array's head.
#[tactic(auto, unfolding(crate::specs::FileReading::only_at))]
fn read_only(alloc: Global, reader: &mut Reader<'_>) -> Result<CacheEntryKey>
    ensures { GivesOrWants (λ e. (e, reader.new)) result (only_at reader.old) }
{
    let key = read_key_items(alloc, reader)?;
    Ok(CacheEntryKey::key_only(key))
}

// A number, or nil.
#[tactic(auto, unfolding(pcache_meta::specs::Reading::optional_at))]
fn read_id(reader: &mut Reader<'_>) -> Result<Option<CacheEntryId>>
    ensures { GivesOrWants (λ id. (id, reader.new)) result (optional_at number_at reader.old) }
{
    if reader.skip_nil() {
        return Ok(None);
    }
    Ok(Some(CacheEntryId::new(reader.number()?)))
}

// An entry that is a key and a number or nil, after the array's head.
#[tactic(auto, unfolding(crate::specs::FileReading::pair_at))]
fn read_pair(alloc: Global, reader: &mut Reader<'_>) -> Result<CacheEntryKey>
    ensures { GivesOrWants (λ e. (e, reader.new)) result (pair_at reader.old) }
{
    reader.items(3)?;
    let key = read_key_items(alloc, reader)?;
    let id = read_id(reader)?;
    Ok(CacheEntryKey::from_entry_id(key, id))
}

// An entry, of the form that its number of items shows.
#[tactic(auto, unfolding(crate::specs::FileReading::entry_at))]
fn read_entry(alloc: Global, reader: &mut Reader<'_>) -> Result<CacheEntryKey>
    ensures { GivesOrWants (λ e. (e, reader.new)) result (entry_at reader.old) }
{
    match reader.array()? {
        3 => read_only(alloc, reader),
        2 => read_pair(alloc, reader),
        _ => Err(unreadable()),
    }
}

// An entry and its weight.
#[tactic(auto, unfolding(crate::specs::FileReading::node_at))]
fn read_node(alloc: Global, reader: &mut Reader<'_>) -> Result<(CacheEntryKey, usize)>
    ensures { GivesOrWants (λ node. (node, reader.new)) result (node_at reader.old) }
{
    reader.items(2)?;
    let entry = read_entry(alloc, reader)?;
    let weight = reader.number()?;
    Ok((entry, weight as usize))
}

// So many nodes. Room is reserved by the bytes that are left, and never by the number that the file
// states.
fn read_nodes(
    alloc: Global,
    reader: &mut Reader<'_>,
    count: u64,
) -> Result<Vec<(CacheEntryKey, usize)>>
    ensures { GivesOrWants (λ v. (v.items, reader.new)) result (nodes_at count reader.old) }
{
    let room = (reader.remaining() / NODE_BYTES).min(count as usize);
    let mut nodes = Vec::with_capacity(alloc, room)?;
    'each: for i in 0..count {
        let node = read_node(alloc, reader)?;
        nodes.push(node)?;
    }
    Ok(nodes)
}

// The list that all of the bytes spell, read from left to right.
#[tactic(auto, unfolding(crate::specs::FileReading::file_at))]
fn read_list(alloc: Global, bytes: &[u8]) -> Result<Vec<(CacheEntryKey, usize)>>
    ensures { GivesOrWants (λ v. v.items) result (file_at bytes.now) }
{
    let mut reader = Reader::new(bytes);
    let count = reader.array()?;
    let nodes = read_nodes(alloc, &mut reader, count)?;
    if !reader.is_empty() {
        return Err(unreadable());
    }
    Ok(nodes)
}

/// The list of entries and weights that all of the bytes spell, most recent first.
pub fn read_file(alloc: Global, bytes: &[u8]) -> Result<Vec<(CacheEntryKey, usize)>>
    ensures found { IfOk result (λ v. SpellsFile bytes.now v.items) }
    ensures same { (l : Recency) → SpellsFile bytes.now l → IfOk result (λ v. v.items ≡ l) }
    ensures refused { IsErrOf result InternalError → (l : Recency) → ¬ (SpellsFile bytes.now l) }
    ensures kinds { IfErr result (λ e. (e ≡ OutOfMemory) ⊎ (e ≡ InternalError)) }
{
    read_list(alloc, bytes)
}

// ---- a node of which some bytes are still missing

// Reads what comes before the tag of the next node.
#[tactic(auto, unfolding(crate::specs::FileReading::tag_at))]
fn pass_front(reader: &mut Reader<'_>) -> Result<()>
    ensures { Gives (λ _. reader.new) result (tag_at reader.old) }
{
    reader.items(2)?;
    match reader.array()? {
        3 => {}
        2 => reader.items(3)?,
        _ => return Err(unreadable()),
    }
    reader.hash()?;
    reader.optional_hash()?;
    Ok(())
}

// The last `count` bytes.
fn last_bytes(bytes: &[u8], count: usize) -> &[u8]
    requires { count ≤ length bytes.now }
    ensures { result.now ≡ drop (length bytes.now - count) bytes.now }
{
    &bytes[bytes.len() - count..]
}

// The bytes from the tag of the next node on.
fn tag_on(bytes: &[u8]) -> Result<&[u8]>
    ensures { Gives (λ tag. tag.now) result (tag_at bytes.now) }
{
    let mut reader = Reader::new(bytes);
    pass_front(&mut reader)?;
    Ok(last_bytes(bytes, reader.remaining()))
}

#[tactic(auto, unfolding(pcache_meta::specs::Reading::wide_at))]
fn wide8(bytes: &[u8]) -> Result<usize>
    ensures { Gives (λ n. (n, drop 1 bytes.now)) result (wide_at w8 bytes.now) }
{
    let Some((b, _)) = bytes.split_at_checked(1) else {
        return Err(unreadable());
    };
    Ok(usize::from(u8::from_be_bytes([b[0]])))
}

#[tactic(auto, unfolding(pcache_meta::specs::Reading::wide_at))]
fn wide16(bytes: &[u8]) -> Result<usize>
    ensures { Gives (λ n. (n, drop 2 bytes.now)) result (wide_at w16 bytes.now) }
{
    let Some((b, _)) = bytes.split_at_checked(2) else {
        return Err(unreadable());
    };
    Ok(usize::from(u16::from_be_bytes([b[0], b[1]])))
}

#[tactic(auto, unfolding(pcache_meta::specs::Reading::wide_at))]
fn wide32(bytes: &[u8]) -> Result<usize>
    ensures { Gives (λ n. (n, drop 4 bytes.now)) result (wide_at w32 bytes.now) }
{
    let Some((b, _)) = bytes.split_at_checked(4) else {
        return Err(unreadable());
    };
    Ok(u32::from_be_bytes([b[0], b[1], b[2], b[3]]) as usize)
}

// How many bytes the next text has.
#[tactic(auto, unfolding(crate::specs::FileReading::text_len_at, pcache_meta::specs::Reading::text_head_at))]
fn text_len(bytes: &[u8]) -> Result<usize>
    ensures { Gives (λ n. n) result (text_len_at bytes.now) }
{
    let [first, rest @ ..] = bytes else {
        return Err(unreadable());
    };
    match *first {
        0xD9 => wide8(rest),
        0xDA => wide16(rest),
        0xDB => wide32(rest),
        0xA0..=0xBF => Ok(usize::from(*first - 0xA0)),
        _ => Err(unreadable()),
    }
}

/// How many bytes the tag of the next node has.
#[tactic(auto, unfolding(crate::specs::FileReading::tag_len_at))]
pub(crate) fn tag_len(bytes: &[u8]) -> Result<usize>
    ensures { Gives (λ n. n) result (tag_len_at bytes.now) }
{
    let tag = tag_on(bytes)?;
    text_len(tag)
}

/// The head of the array that comes first: how many items it has, and how many bytes follow the
/// head.
pub(crate) fn first_count(bytes: &[u8]) -> Result<(u64, usize)>
    ensures found { IfOk result (λ x.
        ArrayThen bytes.now x.0 (drop (length bytes.now - x.1) bytes.now)) }
    ensures within { IfOk result (λ x. x.1 ≤ length bytes.now) }
    ensures refused { OnErr result (array_at bytes.now ≡ None) }
    ensures kind { IfErr result (λ e. e ≡ InternalError) }
{
    let mut reader = Reader::new(bytes);
    let count = reader.array()?;
    Ok((count, reader.remaining()))
}

/// The node that comes first, and how many bytes follow it.
pub(crate) fn first_node(alloc: Global, bytes: &[u8]) -> Result<((CacheEntryKey, usize), usize)>
    ensures found { IfOk result (λ x.
        NodeThen bytes.now x.0 (drop (length bytes.now - x.1) bytes.now)) }
    ensures within { IfOk result (λ x. x.1 ≤ length bytes.now) }
    ensures refused { IsErrOf result InternalError → node_at bytes.now ≡ None }
    ensures kinds { IfErr result (λ e. (e ≡ OutOfMemory) ⊎ (e ≡ InternalError)) }
{
    let mut reader = Reader::new(bytes);
    let node = read_node(alloc, &mut reader)?;
    Ok((node, reader.remaining()))
}

// ---- writing

#[tactic(auto, unfolding(crate::specs::FileWriting::key_written))]
fn put_key(out: &mut Vec<u8>, key: &CompactCacheKey) -> Result<()>
    ensures written { OnOk result (out.new.items ≡ out.old.items ++ key_written key.now) }
    ensures range { OnOk result (IsKey key.now) }
    ensures too_long { IsErrOf result InternalError → 2 ^ 32 ≤ length key.now.user_tag }
    ensures kinds { IfErr result (λ e. (e ≡ OutOfMemory) ⊎ (e ≡ InternalError)) }
{
    put_array(out, 3)?;
    put_hash(out, &key.primary)?;
    put_optional_hash(out, key.variance)?;
    put_text(out, key.user_tag.as_str())?;
    Ok(())
}

#[tactic(auto, unfolding(crate::specs::FileWriting::entry_written))]
fn put_entry(out: &mut Vec<u8>, entry: &CacheEntryKey) -> Result<()>
    ensures written { OnOk result (out.new.items ≡ out.old.items ++ entry_written entry.now) }
    ensures range { OnOk result (IsKey (key_of entry.now)) }
    ensures number { OnOk result (IfSome (id_of entry.now) (λ n. n < 2 ^ 64)) }
    ensures too_long { IsErrOf result InternalError → 2 ^ 32 ≤ length (key_of entry.now).user_tag }
    ensures kinds { IfErr result (λ e. (e ≡ OutOfMemory) ⊎ (e ≡ InternalError)) }
{
    match entry {
        CacheEntryKey::KeyOnly(key) => put_key(out, key)?,
        CacheEntryKey::Identified { key, id } => {
            put_array(out, 2)?;
            put_key(out, key)?;
            put_number(out, id.get())?;
        }
    }
    Ok(())
}

#[tactic(auto, unfolding(crate::specs::FileWriting::node_written))]
fn put_node(out: &mut Vec<u8>, entry: &CacheEntryKey, weight: usize) -> Result<()>
    ensures written { OnOk result (out.new.items
        ≡ out.old.items ++ node_written (entry.now, weight)) }
    ensures range { OnOk result (IsNode (entry.now, weight)) }
    ensures too_long { IsErrOf result InternalError → 2 ^ 32 ≤ length (key_of entry.now).user_tag }
    ensures kinds { IfErr result (λ e. (e ≡ OutOfMemory) ⊎ (e ≡ InternalError)) }
{
    put_array(out, 2)?;
    put_entry(out, entry)?;
    put_number(out, weight as u64)?;
    Ok(())
}

/// The bytes of the file of a list, each part in its shortest form. A list of 2^32 or more entries,
/// or with a tag of 2^32 or more bytes, has no file.
pub fn write_file(
    alloc: Global,
    count: usize,
    entries: Iter<'_, CacheEntryKey, usize>,
) -> Result<Vec<u8>>
    requires { count ≡ length entries }
    ensures written { IfOk result (λ v. v.items ≡ file_written entries.entry) }
    ensures spelled { IfOk result (λ v. SpellsFile v.items entries.entry) }
    ensures too_long { IsErrOf result InternalError → IsTooLong entries.entry }
    ensures kinds { IfErr result (λ e. (e ≡ OutOfMemory) ⊎ (e ≡ InternalError)) }
{
    let mut out = Vec::new(alloc);
    put_array(&mut out, count)?;
    'nodes: for (entry, weight) in entries {
        put_node(&mut out, entry, *weight)?;
    }
    Ok(out)
}
