#![tactic(auto)]
//! A world that threads share. Each call gives its caller a receipt, and at the end the receipts are
//! exactly the calls of the history.
//!
//! - `mark`: the type that names one shared world
//! - `view`: what the two sides of the lock know, and the rule that connects them
//! - `receipt`, `share`: the receipts of a thread's calls
//! - `desk`: the world under its lock
//! - `shared_world`: the lock, its calls and its end
//! - `opening`: making a shared world
//! - `workers`: threads that run scripts of calls

mod desk;
mod mark;
mod opening;
mod receipt;
mod share;
mod shared_world;
mod view;
mod workers;

pub use crate::mark::Mark;
pub use crate::opening::Opening;
pub use crate::receipt::Receipt;
pub use crate::share::Share;
pub use crate::shared_world::SharedWorld;
pub use crate::workers::{Gate, run_workers};
