//! Rows: what is done for each number below one, and on the right for how many of them it went as it should.
//!
//! `WORD N -> M` does it for the numbers below N, `powers WORD N -> M` for the powers of two below 2^N, each with its neighbours,
//! and `just WORD N -> 1` for N alone.
use pcache_base::error::Result;
use std::alloc::Global;
use std::process::Abort;
use test_rows::{Desk, Told, first_wrong, number, word};

/// What rows are about.
pub trait Large: Drop {
    /// Does what a word says, with this number. Returns whether it went as it should.
    fn is_right(&mut self, what: &'static str, number: u64) -> Result<bool>;
}

// Has the calls of rows made.
#[derive(Drop)]
struct Player<L: Large> {
    large: L,
}

impl<L: Large> Desk for Player<L> {
    fn tell(&mut self, call: &'static str, told: &mut Told) {
        let counted = match word(call, 0) {
            "powers" => count_powers(&mut self.large, word(call, 1), number(call, 2)),
            "just" => count(&mut self.large, word(call, 1), number(call, 2), 1),
            what => count(&mut self.large, what, 0, number(call, 1)),
        };
        match counted {
            Ok(right) => told.number(right),
            Err(refused) => told.refused(&refused),
        }
    }
}

// For how many numbers, from one on, it went as it should.
fn count<L: Large>(large: &mut L, what: &'static str, first: u64, most: u64) -> Result<u64> {
    let mut right = 0u64;
    for number in first..first.saturating_add(most) {
        right = right.saturating_add(u64::from(large.is_right(what, number)?));
    }
    Ok(right)
}

// For how many powers of two it went as it should.
fn count_powers<L: Large>(large: &mut L, what: &'static str, most: u64) -> Result<u64> {
    let mut right = 0u64;
    let mut power = 1u64;
    for _ in 0..most {
        let is_right = large.is_right(what, power.saturating_sub(1))?
            && large.is_right(what, power)?
            && large.is_right(what, power.saturating_add(1))?;
        right = right.saturating_add(u64::from(is_right));
        power = power.saturating_mul(2);
    }
    Ok(right)
}

/// Plays rows.
pub fn play<L: Large>(rt: &impl Abort, alloc: Global, large: L, rows: &'static str) {
    let mut told = Told::new(alloc);
    let wrong = first_wrong(&mut Player { large }, &mut told, rows);
    if let Some(row) = wrong {
        let said = told.as_str();
        assert!(rt; false, "{row}, and not {said}");
    }
}
