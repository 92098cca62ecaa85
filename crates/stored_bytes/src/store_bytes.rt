//! Reading and writing bytes across granules.
ghost use Rattle.std.specs.Prelude.{◌≡◌, ℕ, ◌+◌, ◌-◌, ◌*◌, ◌/◌, ◌<◌, ◌≤◌, Bool, false, length, replicate};
ghost use Rattle.store.specs.Cells.{Cell, cell};
ghost use Rattle.stored_bytes.specs.Bytes.{number, byte, renewed, stored, blanked};

use crate::word_bytes::{low_bytes, merge, slide};
use store::Store;

/// The word and the tag of granule i; word 0, untagged, past the last.
// The pair that the rules have a store answer.
pub fn granule_at<S: Store>(store: &S, i: u32) -> (u64, bool)
    ensures { result ≡ cell (S.Store.cells store.now) i }
{
    store.get(i).unwrap_or((0, false))
}

// The word of granule i, and 0 past the last.
fn word_at<S: Store>(store: &S, i: u32) -> u64
    ensures { result ≡ (cell (S.Store.cells store.now) i).0 }
{
    granule_at(store, i).0
}

// A width is a plain number with a bound: of the functions here each asks for another one, so that no one type would say it.
/// The number that so many bytes from address x on make.
pub fn number_at<S: Store>(store: &S, x: u32, width: u32) -> u64
    requires { width ≤ 8 }
    ensures { result ≡ number (byte (S.Store.origin store.now) (S.Store.cells store.now)) x width }
{
    let first = store.first();
    let granule = x / 8;
    let start = x % 8;
    let low = word_at(store, granule.saturating_sub(first));
    let high = if start + width > 8 {
        word_at(store, (granule + 1).saturating_sub(first))
    } else {
        0
    };
    low_bytes(slide(low, high, start), width)
}

// Writes the low bytes of a value from byte `start` of a granule on, none beyond the granule, and untags it. The granule goes by
// its number, which fits where the address behind the last byte of all does not, and the store may lack it.
fn put_within<S: Store>(store: &mut S, granule: u32, start: u32, width: u32, value: u64)
    requires some { 0 < width }
    requires in_granule { start + width ≤ 8 }
    ensures after { S.Store.cells store.new ≡ stored (S.Store.origin store.old) (S.Store.cells store.old) (8 * granule + start) width value }
    ensures fixed { S.Store.origin store.new ≡ S.Store.origin store.old }
    ensures held { S.Store.kept store.new ≡ S.Store.kept store.old }
{
    let Some(i) = granule.checked_sub(store.first()) else {
        return;
    };
    let word = merge(word_at(store, i), value, start, start + width);
    let _ = store.set(i, word, false);
}

/// Writes the low bytes of a value from address x on, and untags each granule that they touch.
pub fn put_number<S: Store>(store: &mut S, x: u32, width: u32, value: u64)
    requires { (0 < width) × (width ≤ 8) }
    ensures after { S.Store.cells store.new ≡ stored (S.Store.origin store.old) (S.Store.cells store.old) x width value }
    ensures fixed { S.Store.origin store.new ≡ S.Store.origin store.old }
    ensures held { S.Store.kept store.new ≡ S.Store.kept store.old }
{
    let granule = x / 8;
    let start = x % 8;
    let here = width.min(8 - start);
    put_within(store, granule, start, here, value);
    if here < width {
        put_within(store, granule + 1, 0, width - here, value >> (8 * here));
    }
}

// Makes granules low to high - 1 word 0, untagged.
fn blank_granules<S: Store>(store: &mut S, low: u32, high: u32)
    requires { low ≤ high }
    ensures after { S.Store.cells store.new ≡ renewed (λ i. (0, false)) (S.Store.cells store.old) low high }
    ensures fixed { S.Store.origin store.new ≡ S.Store.origin store.old }
    ensures held { S.Store.kept store.new ≡ S.Store.kept store.old }
{
    // A granule is reached by its number: a store hands out no iterator over its granules.
    for i in low..high {
        let _ = store.set(i, 0, false);
    }
}

/// Makes the granules of n bytes from address x on word 0, untagged.
pub fn blank<S: Store>(store: &mut S, x: u32, n: u32)
    ensures after { S.Store.cells store.new ≡ blanked (S.Store.origin store.old) (S.Store.cells store.old) x n }
    ensures fixed { S.Store.origin store.new ≡ S.Store.origin store.old }
    ensures held { S.Store.kept store.new ≡ S.Store.kept store.old }
{
    if n == 0 {
        return;
    }
    let first = store.first();
    let end = (x as u64 + n as u64).div_ceil(8) as u32;
    let low = (x / 8).saturating_sub(first);
    let high = end.saturating_sub(first);
    blank_granules(store, low, high);
}

/// Makes every granule word 0, untagged.
pub fn clear<S: Store>(store: &mut S)
    ensures after { S.Store.cells store.new ≡ replicate (length (S.Store.cells store.old)) (0, false) }
    ensures fixed { S.Store.origin store.new ≡ S.Store.origin store.old }
    ensures held { S.Store.kept store.new ≡ S.Store.kept store.old }
{
    blank_granules(store, 0, store.count());
}
