#![tactic(auto)]
//! HTTP's rules of caching as decisions over heads and moments (RFC 9111): whether a response may be
//! stored, how old it is and for how long it is fresh, and whether it may be served. Nothing here
//! depends on a store, and a decision on a stored response takes no memory.
//!
//! It is stricter than `pcache_control`, whose calls decide as upstream's do.
//!
//! - `rules`: what a cache may choose. `control`: what the Cache-Control of a request and of a response
//!   says; `seconds`, `lists` and `said` read it.
//! - `storing`, `stored_fields`: which responses may be stored (section 3), and which of their fields
//!   (section 3.1).
//! - `lifetime`, `age`: for how long a response is fresh (sections 4.2.1 and 4.2.2), and how old it is
//!   (section 4.2.3), which is also the Age to send.
//! - `serving`, `vary`: whether a stored response may be served (sections 4 and 4.2.4), and which
//!   requests it answers (section 4.1). `laws`: what may never happen.
//!
//! Left out: combining parts (section 3.4), so that 206 is not stored; responses to HEAD and POST;
//! validation (section 4.3) and invalidation (section 4.4), which are no part of this crate. That a
//! stored response has the request's target (section 4) is for the key that it is stored under.

pub mod age;
pub mod control;
pub mod laws;
pub mod lifetime;
pub mod lists;
pub mod rules;
mod said;
pub mod seconds;
pub mod serving;
pub mod stored_fields;
pub mod storing;
pub mod vary;
