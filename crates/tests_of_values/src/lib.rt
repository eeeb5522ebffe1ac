#![tactic(auto)]
//! Tests of values: keys, hashes, metas, directives, predictions, puts, and the files of eviction managers. Expected values
//! come from outside: the standards, worked rows of the formats, and upstream's tests in our own words; the bytes of files
//! are hand-computed from the form in docs/FORMATS.md. They are a crate of their own, so that each library is proved once,
//! and not again with its tests.

#[cfg(test)]
mod admission;
#[cfg(test)]
mod blake2b;
#[cfg(test)]
mod cache_control;
#[cfg(test)]
mod changed_metas;
#[cfg(test)]
mod files;
#[cfg(test)]
mod freshness;
#[cfg(test)]
mod full_maps;
#[cfg(test)]
mod header_text;
#[cfg(test)]
mod heads;
#[cfg(test)]
mod internal_meta;
#[cfg(test)]
mod key;
#[cfg(test)]
mod max_file_size;
#[cfg(test)]
mod meta;
#[cfg(test)]
mod moment;
#[cfg(test)]
mod msgpack;
#[cfg(test)]
mod predictor;
#[cfg(test)]
mod response_parse;
#[cfg(test)]
mod rows;
#[cfg(test)]
mod small_types;
#[cfg(test)]
mod trace;
#[cfg(test)]
mod variance;
