//! Loads, stores, fetch and put: calls that reach one place of the store through a capability.
#![tactic(auto)]

mod granules;
mod numbers;

pub use granules::{fetch, put};
pub use numbers::{load, store};
