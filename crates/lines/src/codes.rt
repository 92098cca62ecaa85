//! The codes of calls.
ghost use Rattle.std.specs.Prelude.{◌≡◌, true};
ghost use Rattle.std.specs.Option.{ok_or};
ghost use Rattle.capability.specs.declared.refusal.Refusal.TheVariants.{NotListed};
ghost use Rattle.lines.specs.Codes.{row, code_of};

use crate::checks::Marks;
use capability::refusal::Refusal;
use plain::types::Call;

/// The calls that a line can ask for.
// Beside `Call`, whose cases hold numbers, since a code is read and its fields are checked before there are numbers.
#[derive(Clone, Copy, PartialEq, Eq, Debug)]
pub(crate) enum Code {
    Allocate,
    Free,
    Move,
    Narrow,
    Restrict,
    Load,
    Store,
    Fetch,
    Put,
    Copy,
    Open,
    Advance,
    Close,
    Whose,
    Tally,
}

/// The code of a number.
impl TryFrom<u128> for Code {
    type Error = Refusal;

    ghost try_from_gives = { λ number result. result ≡ ok_or (code_of number) NotListed };

    fn try_from(number: u128) -> Result<Code, Refusal> {
        match number {
            1 => Ok(Code::Allocate),
            2 => Ok(Code::Free),
            3 => Ok(Code::Move),
            4 => Ok(Code::Narrow),
            5 => Ok(Code::Restrict),
            6 => Ok(Code::Load),
            7 => Ok(Code::Store),
            8 => Ok(Code::Fetch),
            9 => Ok(Code::Put),
            10 => Ok(Code::Copy),
            11 => Ok(Code::Open),
            12 => Ok(Code::Advance),
            13 => Ok(Code::Close),
            14 => Ok(Code::Whose),
            15 => Ok(Code::Tally),
            _ => Err(Refusal::NotListed),
        }
    }
}

impl Code {
    /// The fields that the call needs.
    // A row for each code here and below, as in the definition: a table of functions would have to be told by its places.
    pub(crate) fn needs(self) -> Marks
        ensures { result ≡ (row self).needs }
    {
        match self {
            Code::Allocate => Marks::CODE | Marks::A | Marks::P,
            Code::Free => Marks::CODE | Marks::A,
            Code::Move => Marks::CODE | Marks::A | Marks::B | Marks::P,
            Code::Narrow => Marks::CODE | Marks::A | Marks::B | Marks::P | Marks::Q,
            Code::Restrict => Marks::CODE | Marks::A | Marks::B | Marks::P,
            Code::Load => Marks::CODE | Marks::A | Marks::P,
            Code::Store => Marks::CODE | Marks::A | Marks::P | Marks::Q,
            Code::Fetch => Marks::CODE | Marks::A | Marks::B,
            Code::Put => Marks::CODE | Marks::A | Marks::B,
            Code::Copy => Marks::CODE | Marks::A | Marks::B | Marks::P,
            Code::Open => Marks::CODE,
            Code::Advance => Marks::CODE | Marks::P,
            Code::Close => Marks::CODE,
            Code::Whose => Marks::CODE | Marks::A,
            Code::Tally => Marks::CODE,
        }
    }

    /// The call, with the numbers that its line holds.
    pub(crate) fn call(self, a: u32, b: u32, p: u32, q: u64) -> Call
        ensures { result ≡ (row self).call a b p q }
    {
        match self {
            Code::Allocate => Call::Allocate { slot: a, size: p },
            Code::Free => Call::Free { slot: a },
            Code::Move => Call::Move {
                to: a,
                from: b,
                address: p,
            },
            Code::Narrow => Call::Narrow {
                to: a,
                from: b,
                base: p,
                length: q,
            },
            Code::Restrict => Call::Restrict {
                to: a,
                from: b,
                mask: p,
            },
            Code::Load => Call::Load { slot: a, width: p },
            Code::Store => Call::Store {
                slot: a,
                width: p,
                value: q,
            },
            Code::Fetch => Call::Fetch { to: a, through: b },
            Code::Put => Call::Put {
                through: a,
                from: b,
            },
            Code::Copy => Call::Copy {
                to: a,
                from: b,
                length: p,
            },
            Code::Open => Call::Open,
            Code::Advance => Call::Advance { count: p },
            Code::Close => Call::Close,
            Code::Whose => Call::Whose { slot: a },
            Code::Tally => Call::Tally,
        }
    }
}
