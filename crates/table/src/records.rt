//! Adding, finding and counting blocks.
ghost use Rattle.std.specs.Prelude.{◌≡◌, ℕ, ◌^◌, ◌<◌, ◌≤◌, not, [], ◌∷◌, ◌++◌, length, IfSome, if◌then◌else◌, Ok, Err, sum_by, nat_lt};
ghost use Rattle.capability.specs.declared.refusal.Refusal.TheVariants.{TableFull};
ghost use Rattle.plain.specs.Blocks.{entry_at, holds, lookup as place_of, size_of};
ghost use Rattle.plain.specs.Memory.{block_limit};
ghost use Rattle.table.specs.Recorded.{Sound};

use crate::block::Block;
use crate::table::{BLOCKS, Table};
use capability::refusal::Refusal;
use capability::types::Capability;
use plain::types::State;

impl Block {
    // Whether the block holds the byte at x.
    fn has(&self, x: u32) -> bool
        ensures { result ≡ holds self.now x }
    {
        self.start <= x && x < self.end
    }

    // How many bytes the block has.
    pub(crate) fn size(&self) -> u64
        ensures is { result ≡ size_of self.now }
        ensures small { result < 2 ^ 32 }
    {
        (self.end - self.start) as u64
    }
}

impl Table {
    /// A table with no block.
    pub fn new() -> Table
        ensures { result ≡ [] }
    {
        let unused = Block {
            start: 0,
            end: 8,
            serial: 0,
            state: State::Live,
        };
        Table {
            blocks: [unused; BLOCKS],
            used: 0,
        }
    }

    // The blocks on record.
    pub(crate) fn recorded(&self) -> &[Block]
        ensures all { result.now ≡ self.now }
        ensures sound { Sound self.now }
    {
        &self.blocks[..self.used]
    }

    /// Tells a proof that at most 64 blocks are on record and each is whole, and does nothing.
    // A caller sees the value of a model and not its invariant, so it is a clause.
    pub fn bounded(&self)
        ensures { Sound self.now }
    {
        let _used = &self.used;
    }

    /// Whether there are 64 blocks already.
    pub fn is_full(&self) -> bool
        ensures is { result ≡ not (nat_lt (length self.now) block_limit) }
        ensures within { length self.now ≤ block_limit }
    {
        self.used >= BLOCKS
    }

    /// Puts a block on record.
    pub fn add(&mut self, block: Block) -> Result<(), Refusal>
        ensures outcome { result ≡ (if nat_lt (length self.old) block_limit then Ok tt else Err TableFull) }
        ensures after { self.new ≡ (if nat_lt (length self.old) block_limit then self.old ++ (block ∷ []) else self.old) }
        ensures sound { Sound self.old }
        ensures sound_after { Sound self.new }
    {
        if self.is_full() {
            return Err(Refusal::TableFull);
        }
        self.blocks[self.used] = block;
        self.used += 1;
        Ok(())
    }

    /// The place of the block that holds the base of a capability.
    pub fn lookup(&self, c: Capability) -> Option<usize>
        ensures is { result ≡ place_of self.now c }
        ensures within { IfSome result (λ i. i < length self.now) }
        ensures sound { Sound self.now }
    {
        self.recorded().iter().position(|block| block.has(c.base))
    }

    /// The block at a place.
    // By a place and no reference: the rules want the lookup to give a place.
    pub fn at(&self, place: usize) -> Block
        requires { place < length self.now }
        ensures is { result ≡ entry_at self.now place }
        ensures sound { Sound self.now }
    {
        self.recorded()[place]
    }

    /// The bytes summed over every block on record.
    pub fn bytes(&self) -> u64
        ensures is { result ≡ sum_by size_of self.now }
        ensures sound { Sound self.now }
    {
        // The rules want a loop that adds the lengths up.
        let mut sum = 0;
        for block in self.recorded() {
            sum += block.size();
        }
        sum
    }
}
