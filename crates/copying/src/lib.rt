//! A copy of bytes over any store, as if all were read first.
#![tactic(auto)]

ghost use Rattle.std.specs.Prelude.{◌≡◌, ℕ, ◌+◌, ◌*◌, ◌^◌, ◌<◌, ◌≤◌, Bool, length};
ghost use Rattle.copying.specs.Copy.{Computes, copied, carried_count};

mod transfer;

use store::Store;
use transfer::Transfer;

/// Copies so many bytes from address `from` to address `to`, as if all were read first, and answers how many granules were
/// carried with their tags: those that are tagged, of which the whole is copied, to a granule's start, and whose word passes the
/// test. The clauses hold for each function that the test computes on words.
pub fn copy_bytes<S: Store, T: Fn(u64) -> bool>(
    store: &mut S,
    test: T,
    to: u32,
    from: u32,
    size: u32,
) -> u32
    requires callable { T.IsAlwaysCallable test }
    requires to_low { 0 < size → 8 * S.Store.origin store.old ≤ to }
    requires to_high { 0 < size → to + size ≤ 8 * (S.Store.origin store.old + length (S.Store.cells store.old)) }
    requires from_low { 0 < size → 8 * S.Store.origin store.old ≤ from }
    requires from_high { 0 < size → from + size ≤ 8 * (S.Store.origin store.old + length (S.Store.cells store.old)) }
    ensures after { (passes : ℕ → Bool) → Computes (T.post test) passes → S.Store.cells store.new ≡ copied passes (S.Store.origin store.old) (S.Store.cells store.old) to from size }
    ensures number { (passes : ℕ → Bool) → Computes (T.post test) passes → result ≡ carried_count passes (S.Store.origin store.old) (S.Store.cells store.old) to from size }
    ensures fixed { S.Store.origin store.new ≡ S.Store.origin store.old }
    ensures held { S.Store.kept store.new ≡ S.Store.kept store.old }
{
    if size == 0 {
        return 0;
    }
    let base = 8 * store.first() as u64;
    let transfer = Transfer {
        to: (to as u64 - base) as u32,
        from: (from as u64 - base) as u32,
        size,
    };
    transfer.run(store, &test)
}
