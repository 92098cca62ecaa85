//! Blocks allocated, freed and asked for.
#![tactic(auto)]

ghost use Rattle.std.specs.Prelude.{◌≡◌, ℕ, ◌+◌, ◌%◌, ◌^◌, ◌<◌, ◌≤◌, List, IfOk};
ghost use Rattle.std.specs.Option.{ok_or};
ghost use Rattle.capability.specs.declared.refusal.Refusal.TheVariants.{NoRoom};
ghost use Rattle.capability.specs.Formats.{rounded};
ghost use Rattle.store.specs.Cells.{Cell};
ghost use Rattle.plain.specs.declared.types.Sweep.{Sweep};
ghost use Rattle.plain.specs.Blocks.{is_live, is_whole};
ghost use Rattle.plain.specs.Memory.{Matches, room, call_allocate, call_free, call_whose};
ghost use Rattle.slots.specs.Parts.{made_of};
ghost use Rattle.table.specs.Recorded.{Sound};

use capability::format::Format;
use capability::refusal::Refusal;
use capability::types::{ALL_RIGHTS, Capability};
use plain::types::{Slot, State};
use slots::number::SlotNumber;
use slots::reads::usable;
use slots::slots::Slots;
use store::Store;
use stored_bytes::store_bytes::blank;
use table::block::Block;
use table::room::next_multiple;
use table::table::Table;

/// One more than the last serial that there is.
const SERIALS: u64 = 4294967296;

// Where a block of so many bytes is to stand, at a multiple of the unit.
fn place_for<F: Format, S: Store>(
    table: &Table,
    store: &S,
    unit: u32,
    whole: u32,
) -> Result<u32, Refusal>
    requires unit_given { 0 < unit }
    requires size_given { 0 < whole }
    ensures is { result ≡ ok_or (room F.Format.meaning (S.Store.origin store.now) (S.Store.cells store.now) table.now unit whole) NoRoom }
    ensures between { IfOk result (λ x. (x + whole ≤ 4294967288) × (x % unit ≡ 0)) }
{
    let first = store.first() as u64;
    let end = first + usable::<F, S>(store) as u64;
    let start = table
        .room(8 * first, 8 * end, unit as u64, whole as u64)
        .ok_or(Refusal::NoRoom)?;
    Ok(start as u32)
}

/// A new block at the lowest multiple of the unit where it has room; its capability goes to the slot. Answers its serial.
pub fn allocate<F: Format, S: Store>(
    slots: &mut Slots,
    table: &mut Table,
    next: &mut u64,
    store: &mut S,
    slot: u32,
    size: u32,
) -> Result<u64, Refusal>
    ensures does { (sweep : Sweep) → Matches (call_allocate F.Format.meaning (made_of slots.old.cells table.old next.old sweep (S.Store.origin store.old) (S.Store.cells store.old)) slot size) result (made_of slots.new.cells table.new next.new sweep (S.Store.origin store.new) (S.Store.cells store.new)) }
    ensures sound { Sound table.old → Sound table.new }
    ensures held { S.Store.kept store.new ≡ S.Store.kept store.old }
{
    let slot = SlotNumber::try_from(slot)?;
    let unit = F::unit(size)?;
    if table.is_full() {
        return Err(Refusal::TableFull);
    }
    let serial = *next;
    if serial >= SERIALS {
        return Err(Refusal::SerialsExhausted);
    }
    let whole = next_multiple(size as u64, unit as u64) as u32;
    let start = place_for::<F, S>(table, store, unit, whole)?;
    let end = start + whole;
    let word = F::write(Capability {
        base: start,
        top: end,
        address: start,
        rights: ALL_RIGHTS,
    })?;
    table.add(Block {
        start,
        end,
        serial,
        state: State::Live,
    })?;
    blank(store, start, whole);
    slots.set(slot, Slot { word, tag: true });
    *next = serial + 1;
    Ok(serial)
}

// Whether the bounds are the whole block.
fn is_all(c: Capability, block: Block) -> bool
    ensures { result ≡ is_whole c block }
{
    c.base == block.start && c.top == block.end
}

/// The block of the slot's capability turns freed. Answers its serial.
pub fn free<F: Format>(slots: &Slots, table: &mut Table, slot: u32) -> Result<u64, Refusal>
    ensures does { (next : ℕ) (sweep : Sweep) (first : ℕ) (cells : List Cell) → Matches (call_free F.Format.meaning (made_of slots.now.cells table.old next sweep first cells) slot) result (made_of slots.now.cells table.new next sweep first cells) }
    ensures sound { Sound table.old → Sound table.new }
{
    let slot = SlotNumber::try_from(slot)?;
    let c = slots.tagged::<F>(slot)?;
    let place = table.lookup(c).ok_or(Refusal::NotLive)?;
    let block = table.at(place);
    if block.state != State::Live {
        return Err(Refusal::NotLive);
    }
    if !is_all(c, block) {
        return Err(Refusal::NotWholeBlock);
    }
    table.free(place);
    Ok(block.serial)
}

/// Answers the serial of the capability's block.
pub fn whose<F: Format>(slots: &Slots, table: &Table, slot: u32) -> Result<u64, Refusal>
    ensures { (next : ℕ) (sweep : Sweep) (first : ℕ) (cells : List Cell) → Matches (call_whose F.Format.meaning (made_of slots.now.cells table.now next sweep first cells) slot) result (made_of slots.now.cells table.now next sweep first cells) }
{
    let slot = SlotNumber::try_from(slot)?;
    let c = slots.tagged::<F>(slot)?;
    let place = table.lookup(c).ok_or(Refusal::NotLive)?;
    Ok(table.at(place).serial)
}
