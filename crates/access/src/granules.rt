//! Capabilities put away and fetched.
ghost use Rattle.std.specs.Prelude.{◌≡◌, ℕ, List};
ghost use Rattle.plain.specs.declared.types.Sweep.{Sweep};
ghost use Rattle.plain.specs.Blocks.{Entry};
ghost use Rattle.plain.specs.Memory.{Matches, may_put, call_fetch, call_put};
ghost use Rattle.slots.specs.Parts.{made_of};

use capability::format::Format;
use capability::refusal::Refusal;
use capability::types::{Capability, Right};
use plain::types::Slot;
use slots::number::SlotNumber;
use slots::reads::{global, pointed, spared};
use slots::slots::Slots;
use store::Store;
use stored_bytes::store_bytes::granule_at;
use table::table::Table;

// Whether a slot's word and tag may be stored through a capability: what is tagged and not global needs a right of its own.
fn may_store<F: Format>(c: Capability, slot: Slot) -> bool
    ensures { result ≡ may_put F.Format.meaning c slot }
{
    !slot.tag || c.has(Right::StoreLocal) || global::<F>(slot.word)
}

/// The granule at the address of `through`, with its tag, into `to`, untagged if its word's block is condemned. Answers 1
/// if the slot is then tagged, else 0.
pub fn fetch<F: Format, S: Store>(
    slots: &mut Slots,
    table: &Table,
    store: &S,
    to: u32,
    through: u32,
) -> Result<u64, Refusal>
    ensures { (next : ℕ) (sweep : Sweep) → Matches (call_fetch F.Format.meaning (made_of slots.old.cells table.now next sweep (S.Store.origin store.now) (S.Store.cells store.now)) to through) result (made_of slots.new.cells table.now next sweep (S.Store.origin store.now) (S.Store.cells store.now)) }
{
    let to = SlotNumber::try_from(to)?;
    let through = SlotNumber::try_from(through)?;
    let c = slots.tagged::<F>(through)?;
    if !c.has(Right::LoadCapabilities) {
        return Err(Refusal::MissingRight);
    }
    let i = pointed(store, c)?;
    let (word, old) = granule_at(store, i);
    let tag = spared::<F>(table, word, old);
    slots.set(to, Slot { word, tag });
    // Every call answers a number, as the rules want it.
    Ok(u64::from(tag))
}

/// The word and the tag of `from` into the granule at the address of `through`.
pub fn put<F: Format, S: Store>(
    slots: &Slots,
    store: &mut S,
    through: u32,
    from: u32,
) -> Result<u64, Refusal>
    ensures does { (blocks : List Entry) (next : ℕ) (sweep : Sweep) → Matches (call_put F.Format.meaning (made_of slots.now.cells blocks next sweep (S.Store.origin store.old) (S.Store.cells store.old)) through from) result (made_of slots.now.cells blocks next sweep (S.Store.origin store.new) (S.Store.cells store.new)) }
    ensures held { S.Store.kept store.new ≡ S.Store.kept store.old }
{
    let through = SlotNumber::try_from(through)?;
    let from = SlotNumber::try_from(from)?;
    let c = slots.tagged::<F>(through)?;
    let slot = slots.get(from);
    if !(c.has(Right::StoreCapabilities) && may_store::<F>(c, slot)) {
        return Err(Refusal::MissingRight);
    }
    let i = pointed(store, c)?;
    let _ = store.set(i, slot.word, slot.tag);
    Ok(0)
}
