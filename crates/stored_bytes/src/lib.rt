//! Numbers in the bytes of any store.
#![tactic(auto)]

pub mod store_bytes;
pub mod word_bytes;
