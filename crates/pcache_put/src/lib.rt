#![tactic(auto)]
//! Responses that are pushed into a cache, in pieces.
//!
//! - `policy`: what decides whether a response is stored, and the default decision
//! - `context`: `CachePutCtx`, one put over a storage and an eviction manager
//! - `reading`: what a piece is read as, before anything of it is stored
//! - `report`: what its calls return, and the reports on what they did
//! - `boxed`: values behind boxes
//! - `laws`: the outcome of a put, however its bytes were split

pub mod boxed;
mod brought;
pub mod context;
mod intake;
pub mod laws;
pub mod policy;
pub mod reading;
pub mod report;
mod stage;

pub use context::CachePutCtx;
pub use policy::CachePut;
pub use reading::ReadPiece;
pub use report::PutOutcome;
