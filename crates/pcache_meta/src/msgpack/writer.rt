//! Writing values at the end of a buffer, each in its shortest form. A value for which a writer
//! fails is not written at all.
ghost use Rattle.std.specs.Prelude.{◌≡◌, ◌<◌, ◌≤◌, ◌^◌, ◌++◌, ◌↔◌, ◌⊎◌, ◌∷◌, [], length, take, OnOk, OnErr, IfErr, IfSome, IsErrOf};
ghost use Rattle.pcache_meta.specs.Writing.{IsHash, number_written, array_written, text_head_written, text_written, hash_written, optional_written};
ghost use Rattle.pcache_base.specs.declared.error.ErrorType.TheVariants.{OutOfMemory, InternalError};

use pcache_base::error::{Error, ErrorType, Result};
use pcache_base::key::HashBinary;
use std::alloc::AllocError;

/// Writes a number.
#[tactic(auto, unfolding(crate::specs::Writing::number_written))]
pub fn put_number(out: &mut Vec<u8>, n: u64) -> Result<(), AllocError>
    ensures written { OnOk result (out.new.items ≡ out.old.items ++ number_written n) }
    ensures unwritten { OnErr result (out.new.items ≡ out.old.items) }
{
    if n < 1 << 7 {
        out.push(n as u8)?;
    } else if n < 1 << 8 {
        out.extend_from_slice(&[0xCC, n as u8])?;
    } else if n < 1 << 16 {
        let [a, b] = (n as u16).to_be_bytes();
        out.extend_from_slice(&[0xCD, a, b])?;
    } else if n < 1 << 32 {
        let [a, b, c, d] = (n as u32).to_be_bytes();
        out.extend_from_slice(&[0xCE, a, b, c, d])?;
    } else {
        let [a, b, c, d, e, f, g, h] = n.to_be_bytes();
        out.extend_from_slice(&[0xCF, a, b, c, d, e, f, g, h])?;
    }
    Ok(())
}

/// Writes the head of an array of `n` items, which are to follow. Fails with `InternalError` for
/// 2^32 items or more, which no form holds.
pub fn put_array(out: &mut Vec<u8>, n: usize) -> Result<()>
    ensures written { OnOk result (out.new.items ≡ out.old.items ++ array_written n) }
    ensures too_long { IsErrOf result InternalError ↔ (2 ^ 32 ≤ n) }
    ensures unwritten { OnErr result (out.new.items ≡ out.old.items) }
    ensures kinds { IfErr result (λ e. (e ≡ OutOfMemory) ⊎ (e ≡ InternalError)) }
{
    if n >= 1 << 32 {
        return Err(Error::new(ErrorType::InternalError));
    }
    put_short_array(out, n)?;
    Ok(())
}

/// Writes the head of an array of `n` items, fewer than 2^32, which are to follow. Fails only when
/// memory runs out.
#[tactic(auto, unfolding(crate::specs::Writing::array_written))]
pub fn put_short_array(out: &mut Vec<u8>, n: usize) -> Result<(), AllocError>
    requires { n < 2 ^ 32 }
    ensures written { OnOk result (out.new.items ≡ out.old.items ++ array_written n) }
    ensures unwritten { OnErr result (out.new.items ≡ out.old.items) }
{
    if n < 16 {
        out.push(0x90 + n as u8)?;
    } else if n < 1 << 16 {
        let [a, b] = (n as u16).to_be_bytes();
        out.extend_from_slice(&[0xDC, a, b])?;
    } else {
        let [a, b, c, d] = (n as u32).to_be_bytes();
        out.extend_from_slice(&[0xDD, a, b, c, d])?;
    }
    Ok(())
}

// Writes the length of a text.
#[tactic(auto, unfolding(crate::specs::Writing::text_head_written))]
fn put_text_head(out: &mut Vec<u8>, n: usize) -> Result<()>
    ensures written { OnOk result (out.new.items ≡ out.old.items ++ text_head_written n) }
    ensures too_long { IsErrOf result InternalError ↔ (2 ^ 32 ≤ n) }
    ensures unwritten { OnErr result (out.new.items ≡ out.old.items) }
    ensures kinds { IfErr result (λ e. (e ≡ OutOfMemory) ⊎ (e ≡ InternalError)) }
{
    if n < 32 {
        out.push(0xA0 + n as u8)?;
    } else if n < 1 << 8 {
        out.extend_from_slice(&[0xD9, n as u8])?;
    } else if n < 1 << 16 {
        let [a, b] = (n as u16).to_be_bytes();
        out.extend_from_slice(&[0xDA, a, b])?;
    } else if n < 1 << 32 {
        let [a, b, c, d] = (n as u32).to_be_bytes();
        out.extend_from_slice(&[0xDB, a, b, c, d])?;
    } else {
        return Err(Error::new(ErrorType::InternalError));
    }
    Ok(())
}

/// Writes a text. Fails with `InternalError` for 2^32 bytes or more, which no form holds.
#[tactic(auto, unfolding(crate::specs::Writing::text_written))]
pub fn put_text(out: &mut Vec<u8>, text: &str) -> Result<()>
    ensures written { OnOk result (out.new.items ≡ out.old.items ++ text_written text.now) }
    ensures too_long { IsErrOf result InternalError ↔ (2 ^ 32 ≤ length text.now) }
    ensures unwritten { OnErr result (out.new.items ≡ out.old.items) }
    ensures kinds { IfErr result (λ e. (e ≡ OutOfMemory) ⊎ (e ≡ InternalError)) }
{
    let before = out.len();
    put_text_head(out, text.len())?;
    if let Err(refused) = out.extend_from_slice(text.as_bytes()) {
        out.truncate(before);
        return Err(Error::from(refused));
    }
    Ok(())
}

// Writes the bytes of a hash; if memory runs out, only some of them.
#[tactic(auto, unfolding(crate::specs::Writing::hash_written))]
fn put_each(out: &mut Vec<u8>, hash: &HashBinary) -> Result<(), AllocError>
    ensures written { OnOk result (out.new.items ≡ out.old.items ++ hash_written hash.now) }
    ensures range { OnOk result (IsHash hash.now) }
    ensures kept { OnErr result (take (length out.old.items) out.new.items ≡ out.old.items) }
{
    put_short_array(out, 16)?;
    'each: for b in hash {
        put_number(out, u64::from(*b))?;
    }
    Ok(())
}

/// Writes a hash, as an array of its bytes.
pub fn put_hash(out: &mut Vec<u8>, hash: &HashBinary) -> Result<(), AllocError>
    ensures written { OnOk result (out.new.items ≡ out.old.items ++ hash_written hash.now) }
    ensures range { OnOk result (IsHash hash.now) }
    ensures unwritten { OnErr result (out.new.items ≡ out.old.items) }
{
    let start = out.len();
    if let Err(refused) = put_each(out, hash) {
        out.truncate(start);
        return Err(refused);
    }
    Ok(())
}

/// Writes a hash, or nil.
#[tactic(auto, unfolding(crate::specs::Writing::optional_written))]
pub fn put_optional_hash(out: &mut Vec<u8>, hash: Option<HashBinary>) -> Result<(), AllocError>
    ensures written { OnOk result (out.new.items
        ≡ out.old.items ++ optional_written hash_written hash) }
    ensures range { OnOk result (IfSome hash IsHash) }
    ensures unwritten { OnErr result (out.new.items ≡ out.old.items) }
{
    match hash {
        None => put_nil(out)?,
        Some(hash) => put_hash(out, &hash)?,
    }
    Ok(())
}

/// Writes nil.
pub fn put_nil(out: &mut Vec<u8>) -> Result<(), AllocError>
    ensures written { OnOk result (out.new.items ≡ out.old.items ++ 0xC0 ∷ []) }
    ensures unwritten { OnErr result (out.new.items ≡ out.old.items) }
{
    out.push(0xC0)?;
    Ok(())
}
