//! The sixteen slots, and what the calls ask before they act.
#![tactic(auto)]

pub mod number;
pub mod reads;
pub mod slots;
