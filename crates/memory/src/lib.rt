//! The memory: one text for every format and every store.
#![tactic(auto)]

mod calls;
pub mod memory;
mod perform;
mod start;
