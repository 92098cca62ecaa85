//! What the lines of a trace say: the heading, calls, remarks, and lines that are refused.
#![tactic(auto)]

mod checks;
mod codes;
pub mod fault;
pub mod heading;
pub mod line;
