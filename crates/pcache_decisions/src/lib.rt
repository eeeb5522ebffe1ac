#![tactic(auto)]
//! HTTP's rules of caching as one call for a request and one for its response (RFC 9111). Each is a composition of the decisions
//! of `pcache_http` (storing, freshness, serving) and `pcache_validation` (validation, conditions, updating, invalidation),
//! and adds no rule to theirs.
//!
//! - `stored`: a stored response, as a cache lends it: its age, its lifetime, and whether it may answer a request
//! - `requests`: `decide_request`, what becomes of a request. It makes no request for memory
//! - `responses`: `decide_response`, what becomes of a response: stored, a stored one freshened (by a 304, or the answer to a HEAD),
//!   passed on, and what it invalidates; `after_failure`, when no answer came
//!
//! A proxy asks `decide_request` with what its store has for the request. It serves what that says, or forwards the request,
//! with the conditions of a `Validation` in place of the client's own, and hands the response to `decide_response`: with the
//! stored response after `Validate`, and without it after `Fetch`. After `FetchAgain` it forwards the request without
//! conditions, and hands the response over without the stored one.

pub mod requests;
pub mod responses;
pub mod stored;
