//! The interface of a store: granules of eight bytes, each with a tag.
#![tactic(auto)]

ghost use Rattle.std.specs.Prelude.{◌≡◌, ℕ, ◌<◌, ◌≤◌, IfOk, List, length, set, slice_set};
ghost use Rattle.store.specs.Cells.{Cell, Kept, cell, within};

use capability::refusal::Refusal;

/// The most granules that a store has.
pub const MOST: usize = 8192;

/// Granule i is the eight bytes at address 8·(first + i), the lowest first in its word.
pub trait Store {
    /// What the store means: the number of its first granule,
    ghost origin: { Self → ℕ };

    /// and the word and the tag of each granule.
    ghost cells: { Self → List Cell };

    /// What no call changes: the references that it holds, and what is behind them besides the granules.
    ghost kept: { Self → Kept };

    /// It has at most 8,192 granules.
    ghost short: { (s : Self) → length (cells s) ≤ 8192 };

    /// The number of the first granule.
    fn first(&self) -> u32
        ensures { result ≡ origin self.now };

    /// How many granules there are.
    fn count(&self) -> u32
        ensures { result ≡ length (cells self.now) };

    /// Granule i as a place in a buffer with a place for each granule.
    fn place(&self, i: u32) -> Result<usize, Refusal>
        ensures is { result ≡ within (cells self.now) i i }
        ensures there { IfOk result (λ k. (k ≡ i) × (k < length (cells self.now))) }
    {
        if i < self.count() {
            Ok(i as usize)
        } else {
            Err(Refusal::NoSuchGranule)
        }
    }

    // The rules fix that one answer holds the word and the tag. An untagged granule has a word too, so the answer is no `Option`.
    /// The word and the tag of granule i.
    fn get(&self, i: u32) -> Result<(u64, bool), Refusal>
        ensures { result ≡ within (cells self.now) i (cell (cells self.now) i) };

    // `fixed` and `held` stand in the contract of every function that writes a store. They relate the store before to the
    // store after, so no type carries them, and a name for the two together would say no more.
    /// Sets both, and leaves every other granule. A refused set leaves them all.
    fn set(&mut self, i: u32, word: u64, tag: bool) -> Result<(), Refusal>
        ensures outcome { result ≡ within (cells self.old) i tt }
        ensures after { cells self.new ≡ slice_set (cells self.old) i (word, tag) }
        ensures fixed { origin self.new ≡ origin self.old }
        ensures held { kept self.new ≡ kept self.old };
}
