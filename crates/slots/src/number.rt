//! The number of a slot.
ghost use Rattle.std.specs.Prelude.{◌≡◌, ◌<◌, Ok, Err, if◌then◌else◌, nat_lt};
ghost use Rattle.capability.specs.declared.refusal.Refusal.TheVariants.{NoSuchSlot};
ghost use Rattle.plain.specs.Memory.{slot_count};

use crate::slots::SLOTS;
use capability::refusal::Refusal;
use std::marker::Model;

/// The number of a slot that there is: 0 to 15. A clause sees it as that number.
#[derive(Clone, Copy, PartialEq, Eq, Debug)]
pub struct SlotNumber {
    index: usize,
}

impl Model for SlotNumber {
    ghost use Rattle.std.specs.Prelude.{ℕ, ◌<◌};

    ghost Value = { ℕ };

    ghost view = { λ number. number.index };

    ghost invariant = { λ number. number.index < 16 };

    ghost inverse = { λ n. record { index = n } };
}

/// A number above 15 is refused.
impl TryFrom<u32> for SlotNumber {
    type Error = Refusal;

    ghost try_from_gives = { λ n r. r ≡ (if nat_lt n slot_count then Ok n else Err NoSuchSlot) };

    fn try_from(number: u32) -> Result<SlotNumber, Refusal> {
        if number < SLOTS as u32 {
            let index = number as usize;
            Ok(SlotNumber { index })
        } else {
            Err(Refusal::NoSuchSlot)
        }
    }
}

impl SlotNumber {
    /// The place of the slot among the sixteen.
    pub fn index(self) -> usize
        ensures same { result ≡ self }
        ensures there { result < slot_count }
    {
        self.index
    }
}
