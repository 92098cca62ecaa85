//! The sweep, which takes back what was freed.
#![tactic(auto)]

ghost use Rattle.std.specs.Prelude.{◌≡◌, ℕ, ◌<◌, ◌≤◌, List, map};
ghost use Rattle.stored_bytes.specs.Bytes.{renewed};
ghost use Rattle.store.specs.Cells.{Cell};
ghost use Rattle.plain.specs.Memory.{Matches, cursor_of, cleaned, swept, call_open, call_advance, call_close};
ghost use Rattle.slots.specs.Parts.{made_of};
ghost use Rattle.table.specs.Recorded.{Sound};

use capability::format::Format;
use capability::refusal::Refusal;
use plain::types::{Slot, Sweep};
use slots::reads::{spared, usable};
use slots::slots::Slots;
use store::Store;
use stored_bytes::store_bytes::granule_at;
use table::table::Table;

// The cursor of a sweep, which is to be open.
fn cursor_in(sweep: Sweep) -> Result<u32, Refusal>
    ensures { result ≡ cursor_of sweep }
{
    match sweep {
        Sweep::Open(cursor) => Ok(cursor),
        Sweep::Shut => Err(Refusal::SweepShut),
    }
}

// Untags the slots of condemned blocks; they keep their words.
fn clean<F: Format>(slots: &mut Slots, table: &Table)
    ensures { slots.new.cells ≡ map (cleaned F.Format.meaning table.now) slots.old.cells }
{
    for slot in &mut slots.cells {
        slot.tag = spared::<F>(table, slot.word, slot.tag);
    }
}

// Untags the granules low to high - 1 of condemned blocks; they keep their words.
fn pass<F: Format, S: Store>(store: &mut S, table: &Table, low: u32, high: u32)
    requires { low ≤ high }
    ensures after { S.Store.cells store.new ≡ renewed (swept F.Format.meaning table.now (S.Store.cells store.old)) (S.Store.cells store.old) low high }
    ensures fixed { S.Store.origin store.new ≡ S.Store.origin store.old }
    ensures held { S.Store.kept store.new ≡ S.Store.kept store.old }
{
    // A granule is reached by its number: a store hands out no iterator over its granules.
    for i in low..high {
        let (word, old) = granule_at(store, i);
        if old {
            let tag = spared::<F>(table, word, old);
            let _ = store.set(i, word, tag);
        }
    }
}

/// Freed blocks turn condemned, the slots of condemned blocks are untagged, and a sweep begins. Answers how many blocks.
pub fn open<F: Format>(
    slots: &mut Slots,
    table: &mut Table,
    sweep: &mut Sweep,
) -> Result<u64, Refusal>
    ensures does { (next first : ℕ) (cells : List Cell) → Matches (call_open F.Format.meaning (made_of slots.old.cells table.old next sweep.old first cells)) result (made_of slots.new.cells table.new next sweep.new first cells) }
    ensures sound { Sound table.old → Sound table.new }
{
    if *sweep != Sweep::Shut {
        return Err(Refusal::SweepOpen);
    }
    let count = table.condemn();
    clean::<F>(slots, table);
    *sweep = Sweep::Open(0);
    Ok(count as u64)
}

/// The sweep passes the next granules, as many as asked for or as remain. Answers how many.
pub fn advance<F: Format, S: Store>(
    table: &Table,
    sweep: &mut Sweep,
    store: &mut S,
    count: u32,
) -> Result<u64, Refusal>
    ensures does { (slots : List Slot) (next : ℕ) → Matches (call_advance F.Format.meaning (made_of slots table.now next sweep.old (S.Store.origin store.old) (S.Store.cells store.old)) count) result (made_of slots table.now next sweep.new (S.Store.origin store.new) (S.Store.cells store.new)) }
    ensures held { S.Store.kept store.new ≡ S.Store.kept store.old }
{
    let cursor = cursor_in(*sweep)?;
    let remaining = usable::<F, S>(store).saturating_sub(cursor);
    let passed = count.min(remaining);
    let end = cursor + passed;
    pass::<F, S>(store, table, cursor, end);
    *sweep = Sweep::Open(end);
    Ok(passed as u64)
}

/// Condemned blocks leave the record, and the sweep ends. Answers their bytes.
pub fn close<F: Format, S: Store>(
    table: &mut Table,
    sweep: &mut Sweep,
    store: &S,
) -> Result<u64, Refusal>
    ensures does { (slots : List Slot) (next : ℕ) → Matches (call_close F.Format.meaning (made_of slots table.old next sweep.old (S.Store.origin store.now) (S.Store.cells store.now))) result (made_of slots table.new next sweep.new (S.Store.origin store.now) (S.Store.cells store.now)) }
    ensures sound { Sound table.old → Sound table.new }
{
    let cursor = cursor_in(*sweep)?;
    if cursor < usable::<F, S>(store) {
        return Err(Refusal::SweepUnfinished);
    }
    let bytes = table.discard();
    *sweep = Sweep::Shut;
    Ok(bytes)
}
