//! A copy within a store, one granule after the other.
ghost use Rattle.std.specs.Prelude.{◌≡◌, ℕ, ◌+◌, ◌*◌, ◌^◌, ◌<◌, ◌≤◌, Bool, false, length, slice_set};
ghost use Rattle.stored_bytes.specs.Bytes.{number, byte};
ghost use Rattle.copying.specs.Copy.{Computes, byte_after, carried, source, arriving, copied, carried_count};

use store::Store;
use stored_bytes::store_bytes::granule_at;
use stored_bytes::word_bytes::{merge, slide};

/// So many bytes, at least one, from byte `from` to byte `to`. Bytes count from the start of the store.
#[derive(Clone, Copy)]
pub(crate) struct Transfer {
    pub(crate) to: u32,
    pub(crate) from: u32,
    pub(crate) size: u32,
    ghost some: { 0 < size },
    ghost to_bound: { to + size ≤ 65536 },
    ghost from_bound: { from + size ≤ 65536 },
}

// The eight bytes from byte x on.
fn assemble<S: Store>(store: &S, x: u32) -> u64
    requires { x < 65536 }
    ensures { result ≡ number (byte (S.Store.origin store.now) (S.Store.cells store.now)) (8 * S.Store.origin store.now + x) 8 }
{
    let (low, _) = granule_at(store, x / 8);
    let (high, _) = granule_at(store, x / 8 + 1);
    slide(low, high, x % 8)
}

// What the test may be asked, and what it computes, stands in each contract: the type of a closure is its caller's, and no fact of
// ours can go with it.
impl Transfer {
    // Makes granule i what stands there afterwards where no granule is carried to it, untagged. Some of its bytes may stay.
    fn copy_part<S: Store>(self, store: &mut S, i: u32)
        requires starts { 8 * i < self.to + self.size }
        requires ends { self.to < 8 * i + 8 }
        ensures after { S.Store.cells store.new ≡ slice_set (S.Store.cells store.old) i (number (byte_after (S.Store.origin store.old) (S.Store.cells store.old) (8 * S.Store.origin store.old + self.to) (8 * S.Store.origin store.old + self.from) self.size) (8 * (S.Store.origin store.old + i)) 8, false) }
        ensures fixed { S.Store.origin store.new ≡ S.Store.origin store.old }
        ensures held { S.Store.kept store.new ≡ S.Store.kept store.old }
    {
        let start = 8 * i;
        let low = self.to.saturating_sub(start);
        let high = (self.to + self.size - start).min(8);
        let new = assemble(store, start + low - self.to + self.from);
        let (old, _) = granule_at(store, i);
        let _ = store.set(i, merge(old, new, low, high), false);
    }

    // Makes granule i what arrives there, by the cells as they stand, and answers whether a granule was carried there.
    fn copy_granule<S: Store, T: Fn(u64) -> bool>(self, store: &mut S, test: &T, i: u32) -> bool
        requires callable { T.IsAlwaysCallable test.now }
        requires starts { 8 * i < self.to + self.size }
        requires ends { self.to < 8 * i + 8 }
        ensures after { (passes : ℕ → Bool) → Computes (T.post test.now) passes → S.Store.cells store.new ≡ slice_set (S.Store.cells store.old) i (arriving passes (S.Store.origin store.old) (S.Store.cells store.old) (8 * S.Store.origin store.old + self.to) (8 * S.Store.origin store.old + self.from) self.size i) }
        ensures carries { (passes : ℕ → Bool) → Computes (T.post test.now) passes → result ≡ carried passes (S.Store.origin store.old) (S.Store.cells store.old) (8 * S.Store.origin store.old + self.to) (8 * S.Store.origin store.old + self.from) self.size (source (8 * S.Store.origin store.old + self.to) (8 * S.Store.origin store.old + self.from) i) }
        ensures fixed { S.Store.origin store.new ≡ S.Store.origin store.old }
        ensures held { S.Store.kept store.new ≡ S.Store.kept store.old }
    {
        let start = 8 * i;
        let end = self.to + self.size;
        if self.to <= start && start + 8 <= end {
            let x = start - self.to + self.from;
            if self.to % 8 == self.from % 8 {
                let source = x / 8;
                let (word, tag) = granule_at(store, source);
                // Set by the tag that it gets: a granule of data takes a sixth fewer instructions so.
                if tag && test(word) {
                    let _ = store.set(i, word, true);
                    return true;
                }
                let _ = store.set(i, word, false);
                false
            } else {
                // No byte stays, so what stands here is not asked for: a long copy between addresses that do not stand alike in
                // their granules has hardly another granule.
                let new = assemble(store, x);
                let _ = store.set(i, new, false);
                false
            }
        } else {
            self.copy_part(store, i);
            false
        }
    }

    /// Copies the bytes, and answers how many granules were carried. The granules go from the lowest up where the destination is
    /// not above the source, and else from the highest down, so that each is read before it is overwritten.
    pub(crate) fn run<S: Store, T: Fn(u64) -> bool>(self, store: &mut S, test: &T) -> u32
        requires callable { T.IsAlwaysCallable test.now }
        requires to_high { self.to + self.size ≤ 8 * length (S.Store.cells store.old) }
        requires from_high { self.from + self.size ≤ 8 * length (S.Store.cells store.old) }
        ensures after { (passes : ℕ → Bool) → Computes (T.post test.now) passes → S.Store.cells store.new ≡ copied passes (S.Store.origin store.old) (S.Store.cells store.old) (8 * S.Store.origin store.old + self.to) (8 * S.Store.origin store.old + self.from) self.size }
        ensures number { (passes : ℕ → Bool) → Computes (T.post test.now) passes → result ≡ carried_count passes (S.Store.origin store.old) (S.Store.cells store.old) (8 * S.Store.origin store.old + self.to) (8 * S.Store.origin store.old + self.from) self.size }
        ensures fixed { S.Store.origin store.new ≡ S.Store.origin store.old }
        ensures held { S.Store.kept store.new ≡ S.Store.kept store.old }
    {
        let low = self.to / 8;
        let high = (self.to + self.size).div_ceil(8);
        let up = self.to <= self.from;
        let mut carried = 0;
        // One loop for both directions, which takes granule k or its mirror image: with a loop for each, a copy of eight bytes takes
        // 1.54 times the instructions of the plain program in bench/, above the bar of 1.5 that this one meets.
        'turns: for k in low..high {
            let i = if up { k } else { low + (high - 1 - k) };
            carried += u32::from(self.copy_granule(store, test, i));
        }
        carried
    }
}
