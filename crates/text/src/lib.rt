//! The text of a trace: its lines, their fields, and the lines that answer them.
#![tactic(auto)]

pub mod answer;
pub mod fields;
pub mod reader;
