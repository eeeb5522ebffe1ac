#![tactic(auto)]
//! The cache, for callers in C and Rust: a static library of exported functions.
//!
//! Nothing is decided here. Each function tests what the call that it makes requires, makes the
//! call, and returns a code. `docs/FROM_C.md` says what a caller has to ensure.
//!
//! - `codes`: the codes that the functions return
//! - `handle`: objects as C keeps them; `object`: what they are; `loose`: a box taken apart
//! - `hashes`: the hashes of keys, and variances
//! - `heads`: heads of responses, and what Cache-Control says of them
//! - `metas`: metas of stored responses, and their bytes
//! - `fields`: the status and the fields of a head, one by one
//! - `received`: heads of responses from the bytes in which they came
//! - `asked`: heads of requests
//! - `decisions`: what HTTP's rules decide of a request and of a response; `decided`: how it is told
//! - `taken`: which URIs a response to an unsafe method takes away
//! - `entries`: the keys of entries of eviction managers
//! - `managers`: the eviction managers
//! - `any_manager`: the manager of a cache, of the policy that its maker named
//! - `caches`: a cache, and its requests opened and ended; `calls`: what its requests do
//! - `counts`: how often the calls on a cache were hits, misses, waits and fills
//! - `seats`: the numbers of open requests; `served`: a cache with its requests as one object
//! - `reached`: the way from a number to its request; `requests`: the calls themselves
//! - `handed`: a permit that goes from one request to another
//! - `fills`: the fills that a request cannot use, and what is published of one; `sizes`: the limits on a body and on a head

mod any_manager;
mod asked;
mod caches;
mod calls;
mod codes;
mod counts;
mod decided;
mod decisions;
mod entries;
mod fields;
mod fills;
mod handed;
mod handle;
mod hashes;
mod heads;
mod loose;
mod managers;
mod metas;
mod object;
mod reached;
mod received;
mod requests;
mod seats;
mod served;
mod sizes;
mod taken;
