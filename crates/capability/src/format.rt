//! The interface of a format.
ghost use Rattle.std.specs.Prelude.{◌≡◌, ℕ};
ghost use Rattle.capability.specs.Formats.{Meaning, Lawful, written, reading, unit_for};

use crate::refusal::Refusal;
use crate::types::Capability;

/// The largest size that has a unit.
pub const LARGEST: u32 = 65536;

/// How capabilities are written as 64-bit words.
pub trait Format {
    /// The end of the addresses that a capability may reach.
    const SPAN: u64;

    ghost SPAN: { ℕ };

    ghost meaning: { Meaning };

    /// The word of a capability.
    fn write(c: Capability) -> Result<u64, Refusal>
        ensures { result ≡ written meaning c };

    /// The capability that a word is.
    fn read(word: u64) -> Result<Capability, Refusal>
        ensures { result ≡ reading meaning word };

    /// The unit of a size.
    fn unit(size: u32) -> Result<u32, Refusal>
        ensures { result ≡ unit_for meaning size };

    ghost spans: { SPAN ≡ meaning.span };

    ghost lawful: { Lawful meaning };
}
