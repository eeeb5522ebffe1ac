#![tactic(auto)]
//! Validation and invalidation (RFC 9111 sections 3.2, 4.3 and 4.4), as decisions over heads, moments and metas. Nothing
//! here depends on a store, and no decision allocates unless its doc comment says so.
//!
//! - `lists`: the elements of a list in a field value; `entity_tag`: entity tags and their comparison; `fields`: the lines
//!   of a field and its date (RFC 9110, 5.5, 5.6 and 8.8.3)
//! - `validators`: the validators of a response (RFC 9110, 8.8)
//! - `conditions`: what a client's own conditions get from a stored response (4.3.2)
//! - `not_modified`: which fields a 304 that is made of a stored response has (RFC 9110, 15.4.5)
//! - `asking`: with which validators to ask again (4.3.1)
//! - `answers`: what the answer to that means (4.3.3)
//! - `freshening`: which stored responses a 304 identifies (4.3.4); of those to which weak validators correspond, the caller
//!   takes the most recent
//! - `updating`: which fields it brings in (3.2)
//! - `heads`: what the answer to a HEAD does (4.3.5)
//! - `unsafe_methods`: what a response to an unsafe method takes away (4.4)
//!
//! Left out, as the sections allow: a union of a client's entity tags with stored ones (4.3.1, 4.3.2), and the deduction that a
//! modification date is a strong validator (RFC 9110, 8.8.2.2).

pub mod answers;
pub mod asking;
pub mod conditions;
pub mod entity_tag;
pub mod fields;
pub mod freshening;
pub mod heads;
pub mod lists;
pub mod not_modified;
pub mod unsafe_methods;
pub mod updating;
pub mod validators;
