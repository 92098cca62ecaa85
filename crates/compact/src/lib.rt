//! The compact format: bounds by an exponent and nine bits each, beside an address of 32 bits.
#![tactic(auto)]

pub mod exponents;
pub mod format;
