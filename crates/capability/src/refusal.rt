//! Every refusal there is.
ghost use Rattle.std.specs.Prelude.{◌≡◌, Some, decimal};
ghost use Rattle.capability.specs.Refusals.{number as numbered};

use std::fmt;

/// Why a line, a call, a store or a format refuses. A refusal leaves everything as it was.
#[derive(Clone, Copy, PartialEq, Eq, Debug)]
pub enum Refusal {
    /// The input has more than 65,536 bytes.
    InputTooLong = 1,
    /// A line is not 41 bytes long.
    LineLength = 2,
    /// A field holds something else than blanks, or blanks and then a decimal number with no zero in front.
    FieldForm = 3,
    /// A number is larger than its field allows.
    NumberTooLarge = 4,
    /// A filled code, format or store is not listed.
    NotListed = 5,
    /// A needed field is blank.
    FieldMissing = 6,
    /// An unneeded field is filled.
    FieldUnneeded = 7,
    /// A slot is above 15.
    NoSuchSlot = 11,
    /// A size, a width, a mask or a length is not one that the call takes.
    BadParameter = 12,
    /// A slot whose capability is used is untagged.
    Untagged = 13,
    /// A right is missing.
    MissingRight = 14,
    /// The address of a fetch or a put is no multiple of 8.
    Misaligned = 15,
    /// A byte to be used, or a part of the new bounds, lies outside the capability's bounds.
    OutOfBounds = 16,
    /// The format does not carry the capability.
    NotCarried = 17,
    /// The block to free is not live.
    NotLive = 18,
    /// The capability to free is not the whole block.
    NotWholeBlock = 19,
    /// The table has 64 blocks.
    TableFull = 20,
    /// The next serial is 2^32.
    SerialsExhausted = 21,
    /// No start has room for the block.
    NoRoom = 22,
    /// A sweep is open already.
    SweepOpen = 23,
    /// No sweep is open.
    SweepShut = 24,
    /// The sweep has not passed every usable granule.
    SweepUnfinished = 25,
    /// A store is given a granule that it has not.
    NoSuchGranule = 31,
    /// A word is no capability.
    NotCapability = 32,
}

/// The number that an answer line shows.
impl From<Refusal> for u8 {
    ghost from_gives = { λ refusal number. number ≡ numbered refusal };

    fn from(refusal: Refusal) -> u8 {
        refusal as u8
    }
}

/// A refusal is printed as its number.
impl fmt::Display for Refusal {
    ghost output = { λ refusal. Some (decimal (numbered refusal)) };

    fn fmt<W: fmt::Write>(&self, f: &mut fmt::Formatter<W>) -> fmt::Result {
        u8::from(*self).fmt(f)
    }
}
