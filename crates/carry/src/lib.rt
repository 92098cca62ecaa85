//! Copies through capabilities, which carry tags where they may.
#![tactic(auto)]

ghost use Rattle.std.specs.Prelude.{◌≡◌, ℕ};
ghost use Rattle.plain.specs.declared.types.Sweep.{Sweep};
ghost use Rattle.plain.specs.Memory.{Matches, covered as is_covered, call_copy};
ghost use Rattle.slots.specs.Parts.{made_of};

use capability::format::Format;
use capability::refusal::Refusal;
use capability::types::{Capability, Right};
use copying::copy_bytes;
use slots::number::SlotNumber;
use slots::reads::{condemned, global, inside};
use slots::slots::Slots;
use store::Store;
use table::table::Table;

// Whether a copy of n bytes may use the bytes at a capability's address; one of no bytes may.
fn covered<S: Store>(store: &S, c: Capability, n: u32) -> bool
    ensures { result ≡ is_covered (S.Store.origin store.now) (S.Store.cells store.now) c n }
{
    let first = store.first() as u64;
    let end = first + store.count() as u64;
    let address = c.address as u64;
    n == 0
        || (inside(c, c.address, n as u64) && 8 * first <= address && address + n as u64 <= 8 * end)
}

/// Bytes from the address of `from` to that of `to`, as if all were read first. Answers how many granules were carried
/// with their tags.
pub fn copy<F: Format, S: Store>(
    slots: &Slots,
    table: &Table,
    store: &mut S,
    to: u32,
    from: u32,
    size: u32,
) -> Result<u64, Refusal>
    ensures does { (next : ℕ) (sweep : Sweep) → Matches (call_copy F.Format.meaning (made_of slots.now.cells table.now next sweep (S.Store.origin store.old) (S.Store.cells store.old)) to from size) result (made_of slots.now.cells table.now next sweep (S.Store.origin store.new) (S.Store.cells store.new)) }
    ensures held { S.Store.kept store.new ≡ S.Store.kept store.old }
{
    let to = SlotNumber::try_from(to)?;
    let from = SlotNumber::try_from(from)?;
    let into = slots.tagged::<F>(to)?;
    let source = slots.tagged::<F>(from)?;
    if !(into.has(Right::StoreData) && source.has(Right::LoadData)) {
        return Err(Refusal::MissingRight);
    }
    if !(covered(store, into, size) && covered(store, source, size)) {
        return Err(Refusal::OutOfBounds);
    }
    // A granule is carried where both capabilities allow it, what it holds may lie there, and its block is not condemned.
    let carried = copy_bytes(
        store,
        |word| source.has(Right::LoadCapabilities)
            && into.has(Right::StoreCapabilities)
            && (into.has(Right::StoreLocal) || global::<F>(word))
            && !condemned::<F>(table, word),
        into.address,
        source.address,
        size,
    );
    Ok(carried as u64)
}
