//! What the short examples print, over one cache that they borrow. Each has a path of its own.
use crate::front::FrontCache;
use crate::{along, many, stale, variants, waiting};
use anyhow::Result;
use pingora_cache::NoCacheReason;
use pingora_cache::moment::Moment;

/// Runs them one after the other.
pub fn show_all(rt: &impl Print, cache: &mut FrontCache) -> Result<()> {
    show_waiting(rt, cache, NoCacheReason::OriginNotCache)?;
    show_waiting(rt, cache, NoCacheReason::UpstreamError)?;
    show_many(rt, cache)?;
    show_stale(rt, cache)?;
    show_along(rt, cache)?;
    show_variants(rt, cache)
}

fn show_waiting(rt: &impl Print, cache: &mut FrontCache, reason: NoCacheReason) -> Result<()> {
    let (before, after) = waiting::wait_for(cache, "/waiting", reason, Moment::EPOCH)?;
    println!(rt; "waiting, {reason:?}: {before:?}, then {after:?}")?;
    Ok(())
}

fn show_many(rt: &impl Print, cache: &mut FrontCache) -> Result<()> {
    let (before, after) = many::wait_together(cache, "/many", 3, Moment::EPOCH)?;
    println!(rt; "many: of 3 waits {before} were over, then {after}")?;
    Ok(())
}

fn show_stale(rt: &impl Print, cache: &mut FrontCache) -> Result<()> {
    let [first, second, third] = stale::play(cache, "/stale")?;
    println!(rt; "stale: {first:?}, {second:?}, then {third:?}")?;
    Ok(())
}

fn show_along(rt: &impl Print, cache: &mut FrontCache) -> Result<()> {
    for sent in along::write_and_read(cache, "/along", Moment::EPOCH)? {
        println!(rt; "along: {sent:?}")?;
    }
    for sent in along::break_off_and_read(cache, "/broken", Moment::EPOCH)? {
        println!(rt; "along, broken off: {sent:?}")?;
    }
    Ok(())
}

fn show_variants(rt: &impl Print, cache: &mut FrontCache) -> Result<()> {
    show_visit(rt, cache, 0, "en")?;
    show_visit(rt, cache, 1, "de")?;
    show_visit(rt, cache, 2, "de")?;
    let was_there = variants::purge_all(cache, "/variants")?;
    println!(rt; "variants, purge: {was_there}")?;
    show_visit(rt, cache, 3, "en")?;
    show_visit(rt, cache, 4, "de")
}

fn show_visit(rt: &impl Print, cache: &mut FrontCache, second: u64, language: &str) -> Result<()> {
    let visited = variants::visit(cache, "/variants", language, Moment::from_secs(second))?;
    println!(rt; "variants, {second} s {language}: {visited:?}")?;
    Ok(())
}
