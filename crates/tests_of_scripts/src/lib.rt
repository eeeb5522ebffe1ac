#![tactic(auto)]
//! Tests of whole scripts, as `cache_replay` runs them. They are apart from the tests of worlds, which therefore need not
//! wait for the library of scripts. Expected replies are hand-computed from the definitions; a file that has them from
//! elsewhere says so.

#[cfg(test)]
mod scripts;
