//! Loads and stores.
ghost use Rattle.std.specs.Prelude.{◌≡◌, ℕ, ◌<◌, ◌≤◌, List, IfOk};
ghost use Rattle.plain.specs.declared.types.Sweep.{Sweep};
ghost use Rattle.plain.specs.Blocks.{Entry};
ghost use Rattle.plain.specs.Memory.{Matches, access, call_load, call_store};
ghost use Rattle.slots.specs.Parts.{made_of};

use capability::format::Format;
use capability::refusal::Refusal;
use capability::types::Right;
use slots::number::SlotNumber;
use slots::reads::{inside, is_width};
use slots::slots::Slots;
use store::Store;
use stored_bytes::store_bytes::{number_at, put_number};

// The address from which a slot may use so many bytes with a right.
fn accessed<F: Format>(slots: &Slots, a: u32, right: Right, width: u32) -> Result<u32, Refusal>
    ensures is { result ≡ access F.Format.meaning slots.now.cells a right width }
    ensures within { IfOk result (λ x. (0 < width) × (width ≤ 8)) }
{
    let number = SlotNumber::try_from(a)?;
    if !is_width(width) {
        return Err(Refusal::BadParameter);
    }
    let c = slots.tagged::<F>(number)?;
    if !c.has(right) {
        return Err(Refusal::MissingRight);
    }
    if !inside(c, c.address, width as u64) {
        return Err(Refusal::OutOfBounds);
    }
    Ok(c.address)
}

/// Answers the bytes at the capability's address, the lowest first.
pub fn load<F: Format, S: Store>(
    slots: &Slots,
    store: &S,
    slot: u32,
    width: u32,
) -> Result<u64, Refusal>
    ensures { (blocks : List Entry) (next : ℕ) (sweep : Sweep) → Matches (call_load F.Format.meaning (made_of slots.now.cells blocks next sweep (S.Store.origin store.now) (S.Store.cells store.now)) slot width) result (made_of slots.now.cells blocks next sweep (S.Store.origin store.now) (S.Store.cells store.now)) }
{
    let x = accessed::<F>(slots, slot, Right::LoadData, width)?;
    Ok(number_at(store, x, width))
}

/// Writes the low bytes of the value there, and untags each granule that they touch.
pub fn store<F: Format, S: Store>(
    slots: &Slots,
    store: &mut S,
    slot: u32,
    width: u32,
    value: u64,
) -> Result<u64, Refusal>
    ensures does { (blocks : List Entry) (next : ℕ) (sweep : Sweep) → Matches (call_store F.Format.meaning (made_of slots.now.cells blocks next sweep (S.Store.origin store.old) (S.Store.cells store.old)) slot width value) result (made_of slots.now.cells blocks next sweep (S.Store.origin store.new) (S.Store.cells store.new)) }
    ensures held { S.Store.kept store.new ≡ S.Store.kept store.old }
{
    let x = accessed::<F>(slots, slot, Right::StoreData, width)?;
    put_number(store, x, width, value);
    Ok(0)
}
