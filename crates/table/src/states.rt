//! What becomes of blocks.
ghost use Rattle.std.specs.Prelude.{◌≡◌, ℕ, ◌<◌, not, length, sum_by, count_by, filter, slice_set};
ghost use Rattle.plain.specs.declared.types.State.TheVariants.{Freed};
ghost use Rattle.plain.specs.Blocks.{entry_at, size_of, is_freed, is_condemned, in_state, opened_state};
ghost use Rattle.plain.specs.Memory.{opened};
ghost use Rattle.table.specs.Recorded.{Sound};

use crate::block::Block;
use crate::table::Table;
use plain::types::State;

impl Block {
    // Whether the block is freed, and in no open sweep.
    fn is_freed(&self) -> bool
        ensures { result ≡ is_freed self.now.state }
    {
        self.state == State::Freed
    }

    /// Whether the open sweep takes the block back.
    pub fn is_condemned(&self) -> bool
        ensures { result ≡ is_condemned self.now.state }
    {
        self.state == State::Condemned
    }

    // What becomes of the block when a sweep opens: freed turns condemned.
    fn open(&mut self)
        ensures { self.new ≡ in_state self.old (opened_state self.old.state) }
    {
        if self.is_freed() {
            self.state = State::Condemned;
        }
    }
}

impl Table {
    /// The block at a place turns freed.
    // By the place that the lookup gives, as the rules want it.
    pub fn free(&mut self, place: usize)
        requires { place < length self.old }
        ensures is { self.new ≡ slice_set self.old place (in_state (entry_at self.old place) Freed) }
        ensures sound { Sound self.old }
        ensures sound_after { Sound self.new }
    {
        let block = &mut self.blocks[..self.used][place];
        block.state = State::Freed;
    }

    /// Freed blocks turn condemned; answers how many.
    pub fn condemn(&mut self) -> u32
        ensures count { result ≡ count_by (λ b. is_freed b.state) self.old }
        ensures after { self.new ≡ opened self.old }
        ensures sound { Sound self.old }
        ensures sound_after { Sound self.new }
    {
        let count = self
            .recorded()
            .iter()
            .filter(|block| block.is_freed())
            .count();
        for block in &mut self.blocks[..self.used] {
            block.open();
        }
        count as u32
    }

    /// Condemned blocks leave the record; answers their bytes.
    pub fn discard(&mut self) -> u64
        ensures bytes { result ≡ sum_by size_of (filter (λ b. is_condemned b.state) self.old) }
        ensures after { self.new ≡ filter (λ b. not (is_condemned b.state)) self.old }
        ensures sound { Sound self.old }
        ensures sound_after { Sound self.new }
    {
        let bytes = self
            .recorded()
            .iter()
            .filter(|block| block.is_condemned())
            .map(|block| block.size())
            .sum();
        // An array of records has no `retain`, so the blocks that stay are counted and moved up, by their places: an iterator would
        // hold the blocks while they are written, and over a copy of the array a close of few blocks takes 1.7 times the time.
        let mut kept = 0;
        for place in 0..self.used {
            if !self.blocks[place].is_condemned() {
                self.blocks[kept] = self.blocks[place];
                kept += 1;
            }
        }
        self.used = kept;
        bytes
    }
}
