//! What the calls ask before they act.
ghost use Rattle.std.specs.Prelude.{◌≡◌, ◌<◌};
ghost use Rattle.plain.specs.Blocks.{lookup as place_of};
ghost use Rattle.plain.specs.Memory.{slot_count, tagged_in, inside as lies_inside, usable as usable_count, is_width as width_allowed, place_condemned, word_condemned, spared as spared_tag, is_global, pointed as pointed_at};

use crate::number::SlotNumber;
use crate::slots::Slots;
use capability::format::Format;
use capability::refusal::Refusal;
use capability::types::{Capability, Right};
use store::Store;
use table::table::Table;

impl Slots {
    /// The capability in a slot, which is to be used.
    pub fn tagged<F: Format>(&self, number: SlotNumber) -> Result<Capability, Refusal>
        ensures { result ≡ tagged_in F.Format.meaning self.now.cells number }
    {
        let slot = self.get(number);
        if !slot.tag {
            return Err(Refusal::Untagged);
        }
        F::read(slot.word)
    }
}

/// Whether n bytes from x on are all inside the bounds.
pub fn inside(c: Capability, x: u32, n: u64) -> bool
    ensures { result ≡ lies_inside c x n }
{
    c.base <= x && x as u128 + n as u128 <= c.top as u128
}

/// Whether a load or a store may be so wide.
pub fn is_width(n: u32) -> bool
    ensures is { result ≡ width_allowed n }
{
    matches!(n, 1 | 2 | 4 | 8)
}

/// How many granules are usable.
pub fn usable<F: Format, S: Store>(store: &S) -> u32
    ensures is { result ≡ usable_count F.Format.meaning (S.Store.origin store.now) (S.Store.cells store.now) }
{
    let within = (F::SPAN / 8).saturating_sub(store.first() as u64);
    within.min(store.count() as u64) as u32
}

// Whether the block that holds a capability's base is condemned.
fn block_condemned(table: &Table, c: Capability) -> bool
    ensures { result ≡ place_condemned table.now (place_of table.now c) }
{
    table
        .lookup(c)
        .is_some_and(|place| table.at(place).is_condemned())
}

/// Whether a word's block is condemned.
pub fn condemned<F: Format>(table: &Table, word: u64) -> bool
    ensures { result ≡ word_condemned F.Format.meaning table.now word }
{
    F::read(word).is_ok_and(|c| block_condemned(table, c))
}

/// A tag, but not that of a condemned block's word.
pub fn spared<F: Format>(table: &Table, word: u64, tag: bool) -> bool
    ensures { result ≡ spared_tag F.Format.meaning table.now word tag }
{
    tag && !condemned::<F>(table, word)
}

/// Whether a word is a global capability.
pub fn global<F: Format>(word: u64) -> bool
    ensures { result ≡ is_global F.Format.meaning word }
{
    F::read(word).is_ok_and(|c| c.has(Right::Global))
}

/// The granule at the address of a capability.
pub fn pointed<S: Store>(store: &S, c: Capability) -> Result<u32, Refusal>
    ensures { result ≡ pointed_at (S.Store.origin store.now) c }
{
    if c.address % 8 != 0 {
        return Err(Refusal::Misaligned);
    }
    if !inside(c, c.address, 8) {
        return Err(Refusal::OutOfBounds);
    }
    Ok((c.address / 8).saturating_sub(store.first()))
}
