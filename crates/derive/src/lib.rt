//! Capabilities made from others.
#![tactic(auto)]

ghost use Rattle.std.specs.Prelude.{◌≡◌, ℕ, ◌<◌, List, Ok};
ghost use Rattle.capability.specs.Formats.{written};
ghost use Rattle.store.specs.Cells.{Cell};
ghost use Rattle.plain.specs.declared.types.Sweep.{Sweep};
ghost use Rattle.plain.specs.Blocks.{Entry};
ghost use Rattle.plain.specs.Memory.{Matches, slot_count, found, call_move, call_narrow, call_restrict};
ghost use Rattle.slots.specs.Parts.{made_of};
ghost use Rattle.derive.specs.Filled.{filled};

use capability::format::Format;
use capability::refusal::Refusal;
use capability::types::{ALL_RIGHTS, Capability};
use plain::types::Slot;
use slots::number::SlotNumber;
use slots::reads::inside;
use slots::slots::Slots;

// The slot becomes a capability, if the format carries it. Inlined, as the write of the compact format is: with calls of them a narrow
// takes a quarter more instructions.
#[inline(always)]
fn put_capability<F: Format>(
    slots: &mut Slots,
    slot: SlotNumber,
    c: Capability,
) -> Result<u64, Refusal>
    ensures outcome { result ≡ found (written F.Format.meaning c) (λ _. Ok 0) }
    ensures after { slots.new.cells ≡ filled slots.old.cells slot (written F.Format.meaning c) }
{
    let word = F::write(c)?;
    slots.set(slot, Slot { word, tag: true });
    Ok(0)
}

/// The capability of `from`, with another address, into `to`. The system's word for it is move.
pub fn move_to<F: Format>(
    slots: &mut Slots,
    to: u32,
    from: u32,
    address: u32,
) -> Result<u64, Refusal>
    ensures { (blocks : List Entry) (next : ℕ) (sweep : Sweep) (first : ℕ) (cells : List Cell) → Matches (call_move F.Format.meaning (made_of slots.old.cells blocks next sweep first cells) to from address) result (made_of slots.new.cells blocks next sweep first cells) }
{
    let to = SlotNumber::try_from(to)?;
    let from = SlotNumber::try_from(from)?;
    let c = slots.tagged::<F>(from)?;
    put_capability::<F>(slots, to, Capability { address, ..c })
}

/// The capability of `from`, with bounds inside the old ones and its address at the new base, into `to`.
pub fn narrow<F: Format>(
    slots: &mut Slots,
    to: u32,
    from: u32,
    base: u32,
    length: u64,
) -> Result<u64, Refusal>
    ensures { (blocks : List Entry) (next : ℕ) (sweep : Sweep) (first : ℕ) (cells : List Cell) → Matches (call_narrow F.Format.meaning (made_of slots.old.cells blocks next sweep first cells) to from base length) result (made_of slots.new.cells blocks next sweep first cells) }
{
    let to = SlotNumber::try_from(to)?;
    let from = SlotNumber::try_from(from)?;
    if length == 0 {
        return Err(Refusal::BadParameter);
    }
    let c = slots.tagged::<F>(from)?;
    if !inside(c, base, length) {
        return Err(Refusal::OutOfBounds);
    }
    let top = base + length as u32;
    put_capability::<F>(
        slots,
        to,
        Capability {
            base,
            top,
            address: base,
            ..c
        },
    )
}

/// The capability of `from`, with only those rights that are in the mask too, into `to`.
pub fn restrict<F: Format>(slots: &mut Slots, to: u32, from: u32, mask: u32) -> Result<u64, Refusal>
    ensures { (blocks : List Entry) (next : ℕ) (sweep : Sweep) (first : ℕ) (cells : List Cell) → Matches (call_restrict F.Format.meaning (made_of slots.old.cells blocks next sweep first cells) to from mask) result (made_of slots.new.cells blocks next sweep first cells) }
{
    let to = SlotNumber::try_from(to)?;
    let from = SlotNumber::try_from(from)?;
    if mask > u32::from(ALL_RIGHTS) {
        return Err(Refusal::BadParameter);
    }
    let c = slots.tagged::<F>(from)?;
    let rights = c.rights & mask as u8;
    put_capability::<F>(slots, to, Capability { rights, ..c })
}
