//! Capabilities, the refusals of the whole product, and the interface of a format.
#![tactic(auto)]

pub mod field;
pub mod format;
pub mod refusal;
pub mod types;
