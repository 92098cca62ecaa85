//! The plain memory, by which every other part is measured, and what holds after every list of calls.
#![tactic(auto)]

pub mod theorems;
pub mod types;
