//! A block.
use plain::types::State;
use std::marker::Model;

/// The bytes from `start` to `end - 1`. No block is empty, and each is whole granules.
#[derive(Clone, Copy, PartialEq, Eq, Debug)]
pub struct Block {
    pub start: u32,
    pub end: u32,
    pub serial: u64,
    pub state: State,
}

// Clauses see the block as an entry of the plain memory's table.
impl Model for Block {
    ghost use Rattle.std.specs.Prelude.{◌≡◌, ◌%◌, ◌<◌};
    ghost use Rattle.plain.specs.Blocks.{Entry};

    ghost Value = { Entry };

    ghost use Rattle.table.specs.Recorded.{entry};

    ghost view = { entry };

    ghost inverse = { λ e. record { start = e.start; end = e.end; serial = e.serial; state = e.state } };

    ghost invariant = { λ b. (b.start < b.end) × (b.start % 8 ≡ 0) × (b.end % 8 ≡ 0) };
}
