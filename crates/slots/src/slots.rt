//! The slots.
ghost use Rattle.std.specs.Prelude.{◌≡◌, length, slice_set};
ghost use Rattle.plain.specs.Memory.{slot_in};

use crate::number::SlotNumber;
use plain::types::Slot;

/// How many slots there are.
pub const SLOTS: usize = 16;

/// The sixteen slots.
// An array, since the rules fix their number.
#[derive(Drop)]
pub struct Slots {
    pub cells: [Slot; SLOTS],
    ghost sized: { length cells ≡ 16 },
}

impl Slots {
    /// The word and the tag of a slot.
    pub fn get(&self, number: SlotNumber) -> Slot
        ensures { result ≡ slot_in self.now.cells number }
    {
        self.cells[number.index()]
    }

    /// A slot gets a word and a tag, and every other stays.
    pub fn set(&mut self, number: SlotNumber, slot: Slot)
        ensures { self.new.cells ≡ slice_set self.old.cells number slot }
    {
        let index = number.index();
        self.cells[index] = slot;
    }
}
