//! The table of blocks.
#![tactic(auto)]

pub mod block;
pub mod records;
pub mod room;
pub mod states;
pub mod table;
