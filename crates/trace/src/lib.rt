//! Traces: from the bytes of an input to the bytes that answer them.
#![tactic(auto)]

mod run;
pub mod transcript;
